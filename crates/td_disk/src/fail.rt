// A disk one call of which fails. It is lawful where the inner one is.
//
// It stands beside the fuse, since each has one count and one rule. One type for both would have two rules at each call. This one
// counts reads too.
ghost use Rattle.std.specs.Prelude.{◌≡◌};

use crate::{Disk, Fault};

/// A disk whose k-th read, write or sync fails, and no other for that. A write that fails so still reaches the inner disk,
/// where it stays pending; a read or a sync does not.
#[derive(Drop)]
pub struct FailDisk<D: Disk> {
    inner: D,
    calls_left: u64,
    failures: u64,
}

impl<D: Disk> FailDisk<D> {
    ghost use Rattle.td_disk.specs.Fail.{inner_of, calls_left};

    /// The disk whose k-th read, write or sync fails, counted from 1. At 0 none does.
    pub fn fail_at(inner: D, k: u64) -> FailDisk<D>
        ensures inner { inner_of result ≡ inner }
        ensures left { calls_left result ≡ k }
        ensures failures { (⟦<FailDisk<D> as Disk>⟧.view result).failures ≡ 0 }
    {
        FailDisk {
            inner,
            calls_left: k,
            failures: 0,
        }
    }

    /// The disk to which calls were passed on.
    pub fn into_inner(self) -> D
        ensures { result ≡ inner_of self }
    {
        let FailDisk { inner, .. } = self;
        inner
    }
}

impl<D: Disk> Disk for FailDisk<D> {
    ghost use Rattle.td_disk.specs.Fail.{FailReads, FailWrites, FailSyncs};

    ghost view = { λ f. record { capacity = (D.view f.inner).capacity; failures = f.failures; lawful = (D.view f.inner).lawful; state = (D.view f.inner).state } };

    ghost read_gives = { λ f at bytes result g. FailReads D.view (D.read_gives f.inner at bytes) f.failures result f g };

    ghost write_gives = { λ f at bytes result g. FailWrites D.view (D.write_gives f.inner at bytes) f.failures result f g };

    ghost sync_gives = { λ f result g. FailSyncs D.view (D.sync_gives f.inner) f.failures result f g };

    ghost reads_image = { λ f lawful. D.reads_image f.inner lawful };

    ghost image_size = { λ f c lawful image. D.image_size f.inner c lawful image };

    ghost counts_now = { λ f t c lawful le image. D.counts_now f.inner t c lawful le image };

    ghost only_now = { λ f c lawful left. D.only_now f.inner c lawful left };

    fn size(&self) -> u64 {
        self.inner.size()
    }

    fn read(&mut self, at: u64, bytes: &mut [u8]) -> Result<(), Fault> {
        let left = self.calls_left;
        self.calls_left = left.saturating_sub(1);
        if self.failures == u64::MAX {
            return Err(Fault::Device);
        }
        if left == 1 {
            self.failures += 1;
            return Err(Fault::Device);
        }
        let answer = self.inner.read(at, bytes);
        if answer.is_err() {
            self.failures += 1;
        }
        answer
    }

    fn write(&mut self, at: u64, bytes: &[u8]) -> Result<(), Fault> {
        let left = self.calls_left;
        self.calls_left = left.saturating_sub(1);
        if self.failures == u64::MAX {
            return Err(Fault::Device);
        }
        match self.inner.write(at, bytes) {
            Ok(()) if left != 1 => Ok(()),
            _ => {
                self.failures += 1;
                Err(Fault::Device)
            }
        }
    }

    fn sync(&mut self) -> Result<(), Fault> {
        let left = self.calls_left;
        self.calls_left = left.saturating_sub(1);
        if self.failures == u64::MAX {
            return Err(Fault::Device);
        }
        if left == 1 {
            self.failures += 1;
            return Err(Fault::Device);
        }
        match self.inner.sync() {
            Ok(()) => Ok(()),
            Err(fault) => {
                self.failures += 1;
                Err(fault)
            }
        }
    }
}
