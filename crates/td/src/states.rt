//! A disk's checkpoint as text, and a disk that is made of such a text.

use crate::disk::{hold_streams, make_disk_with, plan_or_tell, remove_disk, shape_or_tell};
use crate::disk_closures::read_text;
use crate::read_only::open_to_read_or_tell;
use crate::refusal::Refusal;
use crate::streams::Awaited;
use std::alloc::Global;
use std::fs::File;
use std::io;
use std::rt::Files;
use std::sync::Wait;
use td_console::{StdReader, StdWriter};
use td_states::{Rename, StatesError, load, read_renames, read_states, write_states};

/// Writes the checkpoint of the disk in the file at `path` to standard output, and how many epochs stand after it to standard error.
pub(crate) fn states_of_disk<R: Files<File = File> + Print + Eprint + AllocGlobal + Wait>(
    rt: &R,
    path: &str,
    plan: &str,
    wait: u32,
) -> Result<(), Refusal> {
    let alloc = rt.alloc();
    let (mut disk, plan) = open_to_read_or_tell(rt, path, plan, wait)?;
    let mut writer = StdWriter(Awaited::new(rt, io::writer(rt)));
    match write_states(alloc, &mut disk, &plan, &mut writer) {
        Ok(epochs) => {
            let _ = eprintln!(rt; "epochs {epochs} after it");
            Ok(())
        }
        Err(fault) => {
            let failure = disk.inner().last_failure();
            Err(Refusal::Plain(fault).on_disk(alloc, path, failure))
        }
    }
}

/// Makes a disk of this shape in a file at `new`, where there is none, and puts on it the checkpoint that standard input spells. Its
/// closures in text are those of the file at `closures`, if there is one. Where that fails, the files that were made go away again.
pub(crate) fn load_disk<R: Files<File = File> + Input + AllocGlobal + Wait>(
    rt: &R,
    new: &str,
    plan: &str,
    m: u32,
    n: u32,
    k: u32,
    map: Option<&str>,
    closures: Option<&str>,
) -> Result<(), Refusal> {
    let alloc = rt.alloc();
    let renames = renames_of(alloc, map)?;
    let held = hold_streams(rt)?;
    let plan = plan_or_tell(rt, plan)?;
    let closures = read_text(rt, closures)?;
    let shape = shape_or_tell(rt, m, n, k)?;
    let mut reader = StdReader(Awaited::new(rt, rt.reader()));
    let checkpoint = read_states(alloc, &plan, &renames, &mut reader)?;
    let mut disk = make_disk_with(rt, new, shape, &closures)?;
    drop(held);
    let loaded = load(alloc, &mut disk, &plan, shape, checkpoint);
    drop(disk);
    match loaded {
        Ok(()) => Ok(()),
        Err(error) => Err(remove_disk(rt, new, closures.is_some(), Refusal::from(error))),
    }
}

/// The renamings of a list; none, where there is no list.
fn renames_of(alloc: Global, list: Option<&str>) -> Result<Vec<Rename>, StatesError> {
    match list {
        Some(list) => read_renames(alloc, list),
        None => Ok(Vec::new(alloc)),
    }
}
