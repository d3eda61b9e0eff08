//! Closing the cells that no epoch uses.
ghost use Rattle.std.specs.Prelude.{[], true, IfErr, OnOk};
ghost use Rattle.td_store.specs.declared.standing.error.KeeperError.TheVariants.{Device};
ghost use Rattle.td_disk.specs.Calls.{KeepsDevice};
ghost use Rattle.td_keeper.specs.Calls.{IsClosed, IsUnclosed, LeavesAtCrash, LeavesShutAlone};

use crate::keeper::Keeper;
use td_calls::Law;
use td_disk::{Disk, Fault};
use td_store::group::{close_free, ring_of};
use td_store::standing::{KeeperError, laws};

impl<D: Disk, L: Law> Keeper<D, L> {
    /// Closes cells of the journal that no epoch uses, at most so many, those that come next, where one is open, with one sync for all; where
    /// each is closed, it only reads, a byte of each. A cut that is written leaves the cells of the epochs up to it open: once they are closed,
    /// a submit takes two syncs and not three.
    ///
    /// Refusals: `Broken`, where the device failed in an earlier call that writes, and nothing is done; then `Device`: the keeper is broken,
    /// and each of these cells may be open or closed. What the disk tells stays, whatever becomes of the call.
    pub fn close_free(&mut self, most: u64) -> Result<(), KeeperError>
        ensures closed { OnOk result (IsClosed D.view most self.old self.new) }
        ensures refused { IfErr result (λ e. IsUnclosed e self.old self.new) }

        // Where each of them is closed, or there is none, nothing is written.
        ensures idle { LeavesShutAlone D.view most self.old self.new }

        // At every moment of the call a crash leaves what the disk stood for.
        ensures crash { LeavesAtCrash D.view L.answers [] self.old self.new }
        ensures device { KeepsDevice D.view Device result self.old.device self.new.device }
    {
        laws::told_in_parts();
        laws::standings_advance::<L>();
        td_gate::laws::unchanged::<D>();
        if self.broken {
            return Err(KeeperError::Broken);
        }
        let journal = ring_of(&self.head.shape, self.checkpoint.epoch);
        let first = self.last_epoch() + 1;
        let count = most.min(self.free());
        match close_free(&journal, &mut self.device, first, count) {
            Ok(()) => Ok(()),
            Err(Fault::Device) => {
                self.broken = true;
                Err(KeeperError::Device)
            }
        }
    }
}
