//! Raising a disk to the version of the format that has request numbers.
ghost use Rattle.std.specs.Prelude.{◌≡◌, ◌⊎◌, ◌<◌, ◌≤◌, false, true, None, Some, Ok, IfErr, IsErrOf};
ghost use Rattle.td_head.specs.Head.{raised};
ghost use Rattle.td_keeper.specs.Refused.{upgrade_refusal};
ghost use Rattle.td_store.specs.declared.standing.error.KeeperError.TheVariants.{Memory, Device};
ghost use Rattle.td_disk.specs.Calls.{KeepsDevice};
ghost use Rattle.td_gate.specs.Steps.{SameUnless};
ghost use Rattle.td_keeper.specs.Calls.{ComesLater, TellsAllAlong, TellsFurther};

use crate::keeper::Keeper;
use crate::submit::NUMBERED;
use td_calls::Law;
use td_disk::Disk;
use td_head::HeadError;
use td_store::standing::{KeeperError, laws, raise_head};

impl<D: Disk, L: Law> Keeper<D, L> {
    /// Raises the disk to version 2 of the format, which has request numbers, and answers whether it was of version 1 before;
    /// where it was of version 2, nothing is written. It puts the other head, of the next generation and the same shape and plan:
    /// two writes and two syncs, or three of each where that head is open. All else on the disk stays.
    ///
    /// Refusals, the first that holds: `Broken`, where the device failed in an earlier call that writes, in both versions;
    /// `LastGeneration`, where the head is of version 1 and no generation follows its own. Then `Memory`; in all these cases
    /// nothing is written. Then `Device`: the keeper is broken, and the disk is of version 1 or 2.
    pub fn upgrade(&mut self) -> Result<bool, KeeperError>
        ensures done { result ≡ Ok true → (self.old.head.version < 2) × (self.new ≡ record self.old { device = self.new.device; head = raised self.old.head }) }
        ensures already { result ≡ Ok false → (2 ≤ self.old.head.version) × (self.new ≡ self.old) }
        ensures refused { IfErr result (λ e. (upgrade_refusal self.old ≡ Some e)
            ⊎ ((upgrade_refusal self.old ≡ None) × (self.old.head.version < 2) × ((e ≡ Memory) ⊎ (e ≡ Device)))) }
        ensures unchanged { IfErr result (λ e. SameUnless Device e self.old self.new) }
        ensures broken { IsErrOf result Device → self.new ≡ record self.old { device = self.new.device; broken = true } }
        ensures device { KeepsDevice D.view Device result self.old.device self.new.device }

        // What a crash may leave after the call is among what it may leave since the start.
        ensures later { ComesLater D.view self.old self.new }

        // In each image since the start of the call the disk tells what the keeper stands for, in version 1 or 2.
        ensures told { TellsAllAlong D.view self.old self.new }

        // Each image since an earlier moment was one by the start of the call, or the disk tells it there.
        ensures further { TellsFurther D.view L.answers self.old self.new }
    {
        laws::told_in_parts();
        laws::standings_advance::<L>();
        if self.broken {
            return Err(KeeperError::Broken);
        }
        if self.head.version >= NUMBERED {
            return Ok(false);
        }
        match raise_head(self.alloc, &mut self.device, &self.head, &self.plan) {
            Ok(head) => {
                self.head = head;
                Ok(true)
            }
            Err(refusal) => match refusal {
                HeadError::Device => {
                    self.broken = true;
                    Err(KeeperError::Device)
                }
                HeadError::LastGeneration => Err(KeeperError::LastGeneration),
                HeadError::Memory => Err(KeeperError::Memory),
                HeadError::NotFormatted | HeadError::Damaged | HeadError::WrongPlan => {
                    unreachable!()
                }
            },
        }
    }
}
