//! Writing cuts.
ghost use Rattle.std.specs.Prelude.{◌≡◌, ◌↔◌, ◌≤◌, [], false, true, length, take, drop, Some, None, Ok, IfOk};
ghost use Rattle.std.specs.Prelude.{IfErr, IfSome, IfNone};
ghost use Rattle.td_store.specs.standing.Standing.{last_request};
ghost use Rattle.td_journal.specs.Numbers.{greatest};
ghost use Rattle.td_store.specs.standing.Tells.{side_after};
ghost use Rattle.td_keeper.specs.Keeping.{is_waiting};
ghost use Rattle.td_keeper.specs.Refused.{waits_after};
ghost use Rattle.td_store.specs.declared.standing.error.KeeperError.TheVariants.{Memory, Device, TooManyKeys};
ghost use Rattle.td_disk.specs.Calls.{KeepsDevice};
ghost use Rattle.td_keeper.specs.Calls.{IsWritten, IsUnwritten, LeavesAtCrash};

use crate::keeper::{Keeper, Taken};
use crate::progress::{publish, words_at};
use std::collections::VecDeque;
use td_calls::Law;
use td_disk::Disk;
use td_journal::Submitted;
use td_slots::{Checkpoint, SlotsError};
use td_store::standing::{KeeperError, laws, slots_of, write_states};

impl<D: Disk, L: Law> Keeper<D, L> {
    /// Writes the cut that waits into the slot beside the checkpoint, and answers its epoch; None where none waits. From then on
    /// it is the checkpoint, and the cells of the epochs up to it are free. A writer that is attached publishes it.
    ///
    /// Refusals, the first that holds: `Broken`, where the device failed in an earlier call that writes; `TooManyKeys`, where
    /// there are more states than a slot holds: the cut waits no more. Then `Memory`, and the cut waits still; in all these cases
    /// nothing is written. Then `Device`: the keeper is broken, and the checkpoint on the disk is the old or the new. A cut with
    /// too many states stays the keeper's base, as it is the hall's.
    pub fn write_cut(&mut self) -> Result<Option<u64>, KeeperError>
        ensures written { IfOk result (λ written. IsWritten written self.old self.new) }
        ensures none { (result ≡ Ok None) ↔ ((self.old.broken ≡ false) × (self.old.waiting ≡ false)) }
        ensures refused { IfErr result (λ e. IsUnwritten e self.old self.new) }

        // At every moment of the call a crash leaves the old checkpoint or the new, and each epoch that was there.
        ensures crash { LeavesAtCrash D.view L.answers [] self.old self.new }
        ensures device { KeepsDevice D.view Device result self.old.device self.new.device }

        // The greatest request number stays.
        ensures last_request { last_request self.new.standing ≡ last_request self.old.standing }
    {
        laws::told_in_parts();
        laws::standings_advance::<L>();
        laws::last_request_never_falls::<L>();
        td_batch::laws::states_of_folds::<L>();
        td_slots::laws::states_are_in_order();
        // Read for its contract alone.
        let _plan = self.plan.vertices();
        if self.broken {
            return Err(KeeperError::Broken);
        }
        let slots = slots_of(&self.head.shape);
        let Some(cut) = take_waiting(&mut self.taken) else {
            return Ok(None);
        };
        // Read for its contract alone.
        let _in_order = cut.states.list();
        let (newest, count) = (self.checkpoint.slot, cut.epoch - self.checkpoint.epoch);
        let last = last_of_first(&self.submitted, count, self.checkpoint.last);
        match write_states(
            self.alloc,
            &slots,
            &mut self.device,
            newest,
            cut.epoch,
            last,
            &cut.states,
        ) {
            Ok(()) => {
                drop_first(&mut self.submitted, count);
                self.checkpoint = checkpoint_of(newest, count, last, cut);
                let words = words_at(&self.checkpoint, &self.submitted, self.collected);
                publish(&mut self.watch, words);
                Ok(Some(self.checkpoint.epoch))
            }
            Err(refusal) => {
                let waits = waits_after(refusal);
                self.taken = Some(Taken { waits, ..cut });
                match refusal {
                    SlotsError::Device => {
                        self.broken = true;
                        Err(KeeperError::Device)
                    }
                    SlotsError::TooManyKeys => Err(KeeperError::TooManyKeys),
                    SlotsError::Memory => Err(KeeperError::Memory),
                    SlotsError::Damaged(_) | SlotsError::NoSlot => unreachable!(),
                }
            }
        }
    }
}

/// Takes the cut, where it waits to be written.
fn take_waiting(taken: &mut Option<Taken>) -> Option<Taken>
    ensures some { IfSome result (λ cut. (taken.old ≡ Some cut) × (cut.waits ≡ true) × (taken.new ≡ None)) }
    ensures none { IfNone result ((is_waiting taken.old ≡ false) × (taken.new ≡ taken.old)) }
{
    let waits = match taken {
        Some(cut) => cut.waits,
        None => false,
    };
    if waits { taken.take() } else { None }
}

/// Whether a cut waits on after its write was refused so.
fn waits_after(refusal: SlotsError) -> bool
    ensures { result ≡ waits_after refusal }
{
    matches!(refusal, SlotsError::Memory)
}

/// The greatest of a request number and those of the first so many epochs.
fn last_of_first(submitted: &VecDeque<Submitted>, count: u64, last: u64) -> u64
    requires { count ≤ length submitted.now.items }
    ensures { result ≡ greatest last (take count submitted.now.items) }
{
    td_journal::laws::numbers();
    let mut greatest = last;
    for each in 0..count {
        greatest = greatest.max(submitted[each as usize].request);
    }
    greatest
}

/// Lets go the first so many epochs.
fn drop_first(submitted: &mut VecDeque<Submitted>, count: u64)
    ensures { submitted.new.items ≡ drop count submitted.old.items }
{
    for _each in 0..count {
        submitted.pop_front();
    }
}

/// A cut as the checkpoint, so many epochs after that in the slot `newest`.
fn checkpoint_of(newest: u8, count: u64, last: u64, cut: Taken) -> Checkpoint
    ensures slot { result.slot ≡ side_after newest count }
    ensures epoch { result.epoch ≡ cut.epoch }
    ensures last { result.last ≡ last }
    ensures states { result.states ≡ cut.states }
{
    let slot = u8::from(newest == 0 && 0 < count);
    let Taken {
        epoch,
        states,
        waits: _,
    } = cut;
    Checkpoint {
        slot,
        epoch,
        last,
        states,
    }
}
