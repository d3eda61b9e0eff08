//! What stands around the program's stream: the numbers that are told of it, and the folder of its copies.
ghost use Rattle.std.specs.Prelude.{None};

use crate::disk::{make_disk_with, remove_disk};
use crate::meter::Gauge;
use crate::refusal::Refusal;
use std::alloc::{AllocError, Global};
use std::fs::File;
use std::rt::Files;
use std::sync::Arc;
use td_disk::FileDisk;
use td_feed::{Host, Why};
use td_orders::{CopyTo, FileName};
use td_store::copy::CopyError;

/// A gauge that is told what was seen, and a folder for copies, if there is one; and the path of the one that was made last. Each copy has
/// closures of this text, or none.
#[derive(Drop)]
pub(crate) struct StreamHost<'a, R: Files<File = File> + AllocGlobal> {
    rt: &'a R,
    gauge: Arc<Gauge, Global>,
    folder: Option<&'a str>,
    closures: Option<Vec<u8>>,
    made: Option<String>,
    seen: Option<u64>,
}

impl<'a, R: Files<File = File> + AllocGlobal> StreamHost<'a, R> {
    /// Nothing was seen yet, and no copy made.
    pub(crate) fn new(
        rt: &'a R,
        gauge: Arc<Gauge, Global>,
        folder: Option<&'a str>,
        closures: Option<Vec<u8>>,
    ) -> StreamHost<'a, R> {
        StreamHost {
            rt,
            gauge,
            folder,
            closures,
            made: None,
            seen: None,
        }
    }

    /// The path of a copy of this name. None without a folder for it.
    fn path_of(&self, name: &FileName) -> Result<Option<String>, AllocError> {
        let Some(folder) = self.folder else {
            return Ok(None);
        };
        Ok(Some(format!(in self.rt.alloc(); "{folder}/{name}")?))
    }
}

impl<'a, R: Files<File = File> + AllocGlobal> Host for StreamHost<'a, R> {
    type New = FileDisk;

    ghost seen = { λ h. h.seen };

    ghost copies = { λ _. None };

    fn tell_seen(&mut self, epoch: u64) {
        self.seen = Some(epoch);
        self.gauge.tell_seen(epoch);
    }

    fn make(&mut self, alloc: Global, copy: &CopyTo) -> Result<FileDisk, Why> {
        let Some(path) = self.path_of(&copy.name)? else {
            return Err(Why::Because(String::from_str(alloc, "no folder")?));
        };
        match make_disk_with(self.rt, path.as_str(), copy.shape, &self.closures) {
            Ok(disk) => {
                self.made = Some(path);
                Ok(disk)
            }
            Err(refusal) => Err(why(alloc, &refusal)),
        }
    }

    fn keep(&mut self, _name: &FileName, _epoch: u64, _disk: FileDisk) {}

    fn give_up(&mut self, alloc: Global, refusal: CopyError) -> Why {
        let refusal = Refusal::from(refusal);
        let has_closures = self.closures.is_some();
        let refusal = match self.made.take() {
            Some(path) => remove_disk(self.rt, path.as_str(), has_closures, refusal),
            None => refusal,
        };
        why(alloc, &refusal)
    }
}

/// A refusal in words.
fn why(alloc: Global, refusal: &Refusal) -> Why {
    match refusal.words(alloc) {
        Ok(words) => Why::Because(words),
        Err(error) => Why::from(error),
    }
}
