//! Submitting batches.
ghost use Rattle.std.specs.Prelude.{◌≡◌, ◌⊎◌, ◌+◌, ◌≤◌, ℕ, max, [], ◌∷◌, length, false, true, Some, None, IfOk, IfErr, IfNone, OnOk};
ghost use Rattle.td_journal.specs.Cell.{is_batch};
ghost use Rattle.td_store.specs.standing.Standing.{last_epoch, last_request, submission};
ghost use Rattle.td_store.specs.standing.Told.{inputs_of};
ghost use Rattle.td_store.specs.standing.Tells.{IsFresh};
ghost use Rattle.td_keeper.specs.Keeping.{with_batch};
ghost use Rattle.td_keeper.specs.Refused.{is_new, submit_refusal, request_refusal, submit_as_refusal};
ghost use Rattle.td_store.specs.declared.standing.error.KeeperError.TheVariants.{Memory, Device, Broken, OldVersion};
ghost use Rattle.td_disk.specs.Calls.{KeepsDevice};
ghost use Rattle.td_keeper.specs.Calls.{IsSubmitted, IsAnswered, IsRefused, LeavesAtCrash, outcome};

use crate::keeper::Keeper;
use crate::receipt::Receipt;
use crate::submit_all::is_accepted;
use td_calls::Law;
use td_disk::Disk;
use td_journal::Submitted;
use td_stamp::{Batch, EPOCHS_END};
use td_store::group::NextCell;
use td_store::standing::{KeeperError, laws};

/// The first version of the format that has request numbers.
pub(crate) const NUMBERED: u32 = 2;

impl<D: Disk, L: Law> Keeper<D, L> {
    /// Puts a batch on the journal as the next epoch, and answers its number: from then on it is acknowledged, and whatever a
    /// crash leaves of the disk tells it. It takes the batch as it is, and writes 25 + 24 M bytes for a journal of M records an
    /// epoch. A writer that is attached publishes it.
    ///
    /// Refusals, with the batch handed back, the first that holds: `Broken`, where the device failed in an earlier call that
    /// writes; `NoSuchInput`, where a record names no input of the plan; `TooManyRecords`, where there are more than a cell
    /// holds; `Epochs`, where the last number of an epoch is used; `Full`, where no cell is free. Then `Memory`; in all these
    /// cases nothing is written. Then `Device`: the keeper is broken, and the epoch may stand on the disk or not. A batch without
    /// a number is one of number 0, put in the same way.
    pub fn submit(&mut self, batch: Batch) -> Result<u64, (KeeperError, Batch)>
        ensures submitted { IfOk result (λ epoch. IsSubmitted batch epoch self.old self.new) }
        ensures refused { IfErr result (λ e. IsRefused D.view L.answers Memory Device (submit_refusal self.old batch) e.0 self.old self.new) }
        ensures back { IfErr result (λ e. e.1 ≡ batch) }

        // At every moment of the call a crash leaves what the disk stood for, or that with the batch. After Ok the disk holds what the keeper stands for
        // (`laws::each_disk_holds`).
        ensures crash { LeavesAtCrash D.view L.answers (submission 0 batch ∷ []) self.old self.new }
        ensures device { KeepsDevice D.view Device (outcome result) self.old.device self.new.device }

        // The greatest request number stays, since this epoch has none.
        ensures last_request { last_request self.new.standing ≡ last_request self.old.standing }
    {
        self.submit_next(0, batch)
    }

    /// Puts a batch on the journal as `submit` does, with a request number, so that a batch that is submitted again stands there
    /// once. Where the number is not above the greatest that the disk has, an epoch with it is there already, or its producer went
    /// on to greater ones without it: the answer is `Already` with that greatest number, and nothing is written or changed. Numbers
    /// begin at 1; a batch with the number 0 has none.
    ///
    /// Refusals, with the batch handed back, the first that holds: `Broken`; `OldVersion`, where the disk is of version 1 of the
    /// format, which has no numbers (`upgrade`); and, where the answer is not `Already`, those of `submit`.
    ///
    /// `Already` comes before all that is refused of a batch. It needs no room, so a producer that sends again has its answer
    /// where the journal is full. The batch is not compared with what was put first, which is gone after a cut. One number on the
    /// disk answers, also for a number that was left out. The ring knows single numbers since the last cut alone, so a finer
    /// answer would change with a cut.
    ///
    /// A batch under 0 is never `Already`. To take it for a repeat would drop the first batch of a producer that counts from 0,
    /// without a word. Such a producer doubles it when it sends again.
    pub fn submit_as(&mut self, request: u64, batch: Batch) -> Result<Receipt, (KeeperError, Batch)>
        ensures answered { IfOk result (λ receipt. IsAnswered request batch receipt self.old self.new) }
        ensures refused { IfErr result (λ e. IsRefused D.view L.answers Memory Device (submit_as_refusal self.old request batch) e.0 self.old self.new) }

        // A request that is repeated is refused for these two causes alone.
        ensures repeated { is_new self.old.standing request ≡ false → IfErr result (λ e. (e.0 ≡ Broken) ⊎ (e.0 ≡ OldVersion)) }
        ensures back { IfErr result (λ e. e.1 ≡ batch) }
        ensures crash { LeavesAtCrash D.view L.answers (submission request batch ∷ []) self.old self.new }
        ensures device { KeepsDevice D.view Device (outcome result) self.old.device self.new.device }

        // The greatest request number never falls, and then it is at least this one.
        ensures never_falls { last_request self.old.standing ≤ last_request self.new.standing }
        ensures kept { OnOk result (request ≤ last_request self.new.standing) }
    {
        laws::told_in_parts();
        laws::standings_advance::<L>();
        laws::last_request_never_falls::<L>();
        if let Some(refusal) = self.refusal_of_requests() {
            return Err((refusal, batch));
        }
        if !self.is_new(request) {
            return Ok(Receipt::Already(self.last_request));
        }
        match self.submit_next(request, batch) {
            Ok(epoch) => Ok(Receipt::New(epoch)),
            Err(refusal) => Err(refusal),
        }
    }

    /// Puts a batch on the journal as the next epoch, with a request number that may come after those before, or 0 for none.
    fn submit_next(&mut self, request: u64, batch: Batch) -> Result<u64, (KeeperError, Batch)>
        requires fresh { IsFresh self.old.head.version self.old.standing request }
        ensures acknowledged { IfOk result (λ epoch. epoch ≡ last_epoch self.new.standing) }
        ensures submitted { IfOk result (λ _. self.new ≡ with_batch self.old self.new.device request batch) }
        ensures accepted { IfOk result (λ _. submit_refusal self.old batch ≡ None) }
        ensures refused { IfErr result (λ e. IsRefused D.view L.answers Memory Device (submit_refusal self.old batch) e.0 self.old self.new) }
        ensures back { IfErr result (λ e. e.1 ≡ batch) }
        ensures crash { LeavesAtCrash D.view L.answers (submission request batch ∷ []) self.old self.new }
        ensures device { KeepsDevice D.view Device (outcome result) self.old.device self.new.device }
        ensures last_request { OnOk result (last_request self.new.standing ≡ max (last_request self.old.standing) request) }
    {
        laws::told_in_parts();
        laws::standings_advance::<L>();
        if let Some(refusal) = self.refusal_of(&batch) {
            return Err((refusal, batch));
        }
        let Ok(mut group) = Vec::with_capacity(self.alloc, 1) else {
            return Err((KeeperError::Memory, batch));
        };
        group.push_reserved(Submitted { request, batch });
        match self.put_next(group, NextCell::Left) {
            Ok(epoch) => Ok(epoch),
            Err((refusal, group)) => Err((refusal, only_batch(group))),
        }
    }

    /// Whether a batch with this request number is not on the disk: it has none, or one above all there.
    fn is_new(&self, request: u64) -> bool
        ensures { result ≡ is_new self.now.standing request }
    {
        request == 0 || self.last_request < request
    }

    /// Why every request number is refused, whatever the batch.
    fn refusal_of_requests(&self) -> Option<KeeperError>
        ensures { result ≡ request_refusal self.now }
    {
        if self.broken {
            Some(KeeperError::Broken)
        } else if self.head.version < NUMBERED {
            Some(KeeperError::OldVersion)
        } else {
            None
        }
    }

    /// Why a batch is refused, the device and memory aside.
    fn refusal_of(&self, batch: &Batch) -> Option<KeeperError>
        ensures refusal { result ≡ submit_refusal self.now batch.now }
        ensures lawful { IfNone result (is_batch (inputs_of self.now.plan) batch.now ≡ true) }
    {
        let shape = &self.head.shape;
        if self.broken {
            Some(KeeperError::Broken)
        } else if !is_accepted(&self.plan, batch) {
            Some(KeeperError::NoSuchInput)
        } else if (shape.records() as usize) < batch.len() {
            Some(KeeperError::TooManyRecords)
        } else if self.last_epoch() + 1 >= EPOCHS_END {
            Some(KeeperError::Epochs)
        } else if self.submitted.len() >= shape.cells() as usize {
            Some(KeeperError::Full)
        } else {
            None
        }
    }
}

/// The batch of a group of one.
fn only_batch(mut group: Vec<Submitted>) -> Batch
    requires { length group.items ≡ 1 }
    ensures { (request : ℕ) × (group.items ≡ submission request result ∷ []) }
{
    match group.pop() {
        Some(only) => only.batch,
        None => unreachable!(),
    }
}
