// A disk in memory that nothing changes.
ghost use Rattle.std.specs.Prelude.{◌≡◌, ◌∷◌, length, refl};
ghost use Rattle.std.proofs.Common.{ap};

use td_disk::{Disk, Fault};

/// What a disk held at a moment, as a disk of its own in memory. It is lawful, and what a crash leaves of it is what is read. A write of
/// it fails, and a sync has nothing to do.
#[derive(Drop)]
pub struct Snapshot {
    bytes: Vec<u8>,
    failures: u64,
}

impl Snapshot {
    ghost use Rattle.td_live.specs.Snapshots.{bytes_of};

    /// A disk of these bytes, no call of which has failed.
    pub(crate) fn of(bytes: Vec<u8>) -> Snapshot
        ensures bytes { bytes_of result ≡ bytes.items }
        ensures failures { (⟦<Snapshot as Disk>⟧.view result).failures ≡ 0 }
    {
        Snapshot { bytes, failures: 0 }
    }
}

impl Disk for Snapshot {
    ghost use Rattle.td_live.specs.Snapshots.{at_rest, Rests, RefusesWrite};

    ghost view = { λ s. record { capacity = length s.bytes.items; failures = s.failures; lawful = Unit {0}; state = at_rest s.bytes.items } };

    ghost read_gives = { λ s _ _ result t. Rests s.failures result s t };

    ghost write_gives = { λ s _ _ result t. RefusesWrite result s t };

    ghost sync_gives = { λ s result t. Rests s.failures result s t };

    ghost reads_image = { λ _ _. refl };

    ghost image_size = { λ _ _ _ image. ap length image };

    ghost counts_now = { λ _ _ _ _ _ image. image };

    ghost only_now = { λ _ _ _ left. left };

    fn size(&self) -> u64 {
        self.bytes.len() as u64
    }

    fn read(&mut self, at: u64, bytes: &mut [u8]) -> Result<(), Fault> {
        if self.failures == u64::MAX {
            return Err(Fault::Device);
        }
        let at = at as usize;
        bytes.copy_from_slice(&self.bytes[at..at + bytes.len()]);
        Ok(())
    }

    fn write(&mut self, _at: u64, _bytes: &[u8]) -> Result<(), Fault> {
        self.failures = self.failures.saturating_add(1);
        Err(Fault::Device)
    }

    fn sync(&mut self) -> Result<(), Fault> {
        if self.failures == u64::MAX {
            return Err(Fault::Device);
        }
        Ok(())
    }
}
