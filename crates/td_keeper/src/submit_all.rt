//! Groups of batches, and submitting one at once.
ghost use Rattle.std.specs.Prelude.{◌≡◌, ◌⊎◌, ◌↔◌, ◌+◌, ◌^◌, ◌<◌, ◌≤◌, [], length, false, true, Some, None, IfOk, IfErr, IfNone, IsTrue, OnOk};
ghost use Rattle.td_disk.specs.Disk.{Rises};
ghost use Rattle.td_gate.specs.CrashSafe.{CrashSafe, Unchanged};
ghost use Rattle.td_machine.specs.Steps.{accepts};
ghost use Rattle.td_journal.specs.Cell.{is_batch};
ghost use Rattle.td_journal.specs.Numbers.{greatest};
ghost use Rattle.td_store.specs.group.Groups.{AllFew, AreBatches, AreFresh, may_follow};
ghost use Rattle.td_store.specs.standing.Standing.{last_epoch, last_request};
ghost use Rattle.td_store.specs.standing.Told.{inputs_of};
ghost use Rattle.td_store.specs.standing.Advanced.{SinceAdvance, AdvancesSince};
ghost use Rattle.td_keeper.specs.Keeping.{with_epochs, KeepsSince};
ghost use Rattle.td_keeper.specs.Driven.{submitted_all};
ghost use Rattle.td_keeper.specs.Grouped.{AllOrNone};
ghost use Rattle.td_keeper.specs.Refused.{has_number, all_accepted, all_few, group_refusal};
ghost use Rattle.td_store.specs.declared.standing.error.KeeperError.TheVariants.{Memory, Device};
ghost use Rattle.td_keeper.specs.declared.submit_all.GroupError.TheVariants.{Keeper as ByKeeper};
ghost use Rattle.td_disk.specs.Calls.{KeepsDevice};
ghost use Rattle.td_keeper.specs.Calls.{IsAllSubmitted, IsRefused, LeavesAllOrNone, LeavesAtCrash, outcome};

use crate::collect::append;
use crate::command::Reply;
use crate::keeper::Keeper;
use crate::laws::each_disk_holds;
use crate::progress::{publish, words_at};
use crate::submit::NUMBERED;
use std::marker::Model;
use td_calls::Law;
use td_disk::Disk;
use td_journal::{JournalError, Submitted, greatest_request};
use td_plan::Plan;
use td_stamp::{Batch, EPOCHS_END};
use td_store::group::{NextCell, ring_of, submit_group};
use td_store::standing::{KeeperError, laws};
use thiserror::Error;

/// Batches that are submitted at once, each with its request number, 0 for none. Contracts see it as their list.
#[derive(Debug, Drop)]
pub struct Group {
    submitted: Vec<Submitted>,
}

impl Model for Group {
    ghost use Rattle.std.specs.Prelude.{List};
    ghost use Rattle.td_journal.specs.declared.payload.Submitted.{Submitted};

    ghost Value = { List Submitted };

    ghost view = { λ g. g.submitted.items };
}

impl Group {
    /// The group of these, in this order.
    pub fn from_vec(submitted: Vec<Submitted>) -> Group
        ensures { result ≡ submitted.items }
    {
        Group { submitted }
    }

    /// What is submitted, in order.
    pub fn as_slice(&self) -> &[Submitted]
        ensures { result.now ≡ self.now }
    {
        self.submitted.as_slice()
    }

    /// What is submitted, in order.
    pub fn into_vec(self) -> Vec<Submitted>
        ensures { result.items ≡ self }
    {
        self.submitted
    }
}

/// Why a group was not submitted.
///
/// `submit_as` answers `Already` to a repeated number. Of a group the other batches would be lost with it, so the whole comes
/// back.
#[derive(Clone, Copy, Debug, PartialEq, Eq, Error)]
pub enum GroupError {
    /// A request number is not above all before it, on the disk and in the group.
    #[error("a request number is repeated")]
    Repeated,
    /// The keeper refused a batch of it, or the call.
    #[error("{0}")]
    Keeper(KeeperError),
}

impl Reply {
    /// The reply to `SubmitAll`, of a group up to, and without, this epoch.
    pub fn of_submit_all(outcome: Result<u64, (GroupError, Group)>, end: u64) -> Reply
        ensures { result ≡ submitted_all end outcome }
    {
        match outcome {
            Ok(first) => Reply::SubmittedAll(first, end),
            Err((error, group)) => Reply::RefusedAll { error, group },
        }
    }
}

impl<D: Disk, L: Law> Keeper<D, L> {
    /// Puts a group of batches on the journal at once, as the next epochs in this order, and answers the number of the first: from
    /// then on all of them are acknowledged, and whatever a crash leaves of the disk tells them. A stop before that leaves none of them
    /// or all. It takes two to four syncs, whatever the size of the group, and writes 25 + 24 M bytes for each batch and a journal of
    /// M records an epoch. It closes the cell behind the group, so that what is put next takes two. A group of none is answered
    /// without a look at the disk. A writer that is attached publishes the last of them.
    ///
    /// Refusals, with the group handed back, the first that holds: `Broken`; `OldVersion`, where a batch has a request number and the
    /// disk is of version 1 of the format (`upgrade`); `Repeated`, where a request number is not above all before it, on the disk and in
    /// the group; `NoSuchInput`, where a record of some batch names no input of the plan; `TooManyRecords`, where a batch has more than a
    /// cell holds; `Epochs`, where the last number of an epoch would be passed; `Full`, where fewer cells are free. Then `Memory`; in
    /// all these cases nothing is written. Then `Device`: the keeper is broken, and all epochs of the group may stand on the disk, or
    /// none.
    pub fn submit_all(&mut self, group: Group) -> Result<u64, (GroupError, Group)>
        ensures submitted { IfOk result (λ first. IsAllSubmitted group first (last_epoch self.new.standing + 1) self.old self.new) }
        ensures refused { IfErr result (λ e. IsRefused D.view L.answers (ByKeeper Memory) (ByKeeper Device) (group_refusal self.old group) e.0 self.old self.new) }
        ensures back { IfErr result (λ e. e.1 ≡ group) }

        // At every moment of the call a crash leaves what the disk stood for, or that with the whole group.
        ensures all_or_none { LeavesAllOrNone D.view group self.old self.new }
        ensures crash { LeavesAtCrash D.view L.answers group self.old self.new }
        ensures device { KeepsDevice D.view (ByKeeper Device) (outcome result) self.old.device self.new.device }

        // The greatest request number is raised by those of the group.
        ensures last_request { OnOk result (last_request self.new.standing ≡ greatest (last_request self.old.standing) group) }
    {
        laws::told_in_parts();
        laws::standings_advance::<L>();
        each_disk_holds(self);
        if let Some(refusal) = self.refusal_of_group(group.as_slice()) {
            return Err((refusal, group));
        }
        if group.as_slice().is_empty() {
            return Ok(self.last_epoch() + 1);
        }
        match self.put_next(group.into_vec(), NextCell::Closed) {
            Ok(first) => Ok(first),
            Err((refusal, group)) => { Err((GroupError::Keeper(refusal), Group::from_vec(group))) }
        }
    }

    /// Puts a group that may come next on the journal, and answers the number of its first epoch. Refusals, with the group handed
    /// back: `Memory`, and nothing is written; `Device`. `submit` and `submit_as` put a group of one by it, which leaves the next cell
    /// as it is, at a small allocation each beside their syncs.
    pub(crate) fn put_next(
        &mut self,
        group: Vec<Submitted>,
        next: NextCell,
    ) -> Result<u64, (KeeperError, Vec<Submitted>)>
        requires some { 0 < length group.items }
        requires whole { self.old.broken ≡ false }
        requires lawful { AreBatches (inputs_of self.old.plan) group.items }
        requires few { AllFew self.old.head.shape.m group.items }
        requires small { last_epoch self.old.standing + length group.items < 2 ^ 63 }
        requires room { length self.old.standing.submitted + length group.items ≤ self.old.head.shape.n }
        requires fresh { AreFresh self.old.head.version self.old.standing group.items }
        ensures acknowledged { IfOk result (λ first. first ≡ last_epoch self.old.standing + 1) }
        ensures submitted { IfOk result (λ _. self.new ≡ with_epochs self.old self.new.device group.items) }
        ensures refused { IfErr result (λ e. (e.0 ≡ Memory) ⊎ (e.0 ≡ Device)) }
        ensures back { IfErr result (λ e. e.1 ≡ group) }
        ensures unchanged { IfErr result (λ e. (self.new ≡ self.old) ⊎ ((e.0 ≡ Memory) × (self.new ≡ record self.old { device = self.new.device }))
            ⊎ ((e.0 ≡ Device) × (self.new ≡ record self.old { device = self.new.device; broken = true }))) }
        ensures device { IfErr result (λ e. e.0 ≡ Device → Rises (D.view self.old.device).failures (D.view self.new.device).failures) }
        ensures broken { IfErr result (λ e. e.0 ≡ Device → self.new.broken ≡ true) }
        ensures counted { (D.view self.old.device).failures ≤ (D.view self.new.device).failures }
        ensures stays { OnOk result ((D.view self.new.device).failures ≡ (D.view self.old.device).failures) }
        ensures stays_back { IfErr result (λ e. (e.0 ≡ Device) ⊎ ((D.view self.new.device).failures ≡ (D.view self.old.device).failures)) }
        ensures size { (D.view self.new.device).capacity ≡ (D.view self.old.device).capacity }
        ensures lawful { (D.view self.old.device).lawful ↔ (D.view self.new.device).lawful }
        ensures unwritten { IfErr result (λ e. e.0 ≡ Memory → (D.view self.old.device).lawful
            → CrashSafe Unchanged (D.view self.old.device).state (D.view self.new.device).state) }
        ensures later { (D.view self.old.device).lawful → (D.view self.old.device).state.moment ≤ (D.view self.new.device).state.moment }
        ensures all_or_none { (D.view self.old.device).lawful → self.old.broken ≡ false
            → AllOrNone self.old.plan self.old.standing group.items (D.view self.old.device).state.moment (D.view self.new.device).state }
        ensures images { (D.view self.old.device).lawful → self.old.broken ≡ false
            → SinceAdvance L.answers self.old.plan self.old.standing group.items (last_epoch self.old.standing) (D.view self.old.device).state.moment (D.view self.new.device).state }
        ensures further { (D.view self.old.device).lawful → self.old.broken ≡ false
            → AdvancesSince L.answers self.old.plan self.old.standing group.items (last_epoch self.old.standing) (D.view self.old.device).state (D.view self.new.device).state }
        ensures short { (D.view self.old.device).lawful → KeepsSince self.old.plan self.old.base (D.view self.old.device).state (D.view self.new.device).state }
        ensures nothing { IfErr result (λ e. (e.0 ≡ Device) ⊎ ((D.view self.old.device).lawful → self.old.broken ≡ false
            → AdvancesSince L.answers self.old.plan self.old.standing [] (last_epoch self.old.standing) (D.view self.old.device).state (D.view self.new.device).state)) }
        ensures last_request { OnOk result (last_request self.new.standing ≡ greatest (last_request self.old.standing) group.items) }
    {
        laws::told_in_parts();
        laws::standings_advance::<L>();
        td_gate::laws::unchanged::<D>();
        let first = self.last_epoch() + 1;
        let journal = ring_of(&self.head.shape, self.checkpoint.epoch);
        if self.submitted.reserve(group.len()).is_err() {
            return Err((KeeperError::Memory, group));
        }
        match submit_group(self.alloc, &journal, &mut self.device, first, &group, next) {
            Ok(()) => {
                self.last_request = greatest_request(self.last_request, &group);
                append(&mut self.submitted, group);
                let words = words_at(&self.checkpoint, &self.submitted, self.collected);
                publish(&mut self.watch, words);
                Ok(first)
            }
            Err(refusal) => match refusal {
                JournalError::Device => {
                    self.broken = true;
                    Err((KeeperError::Device, group))
                }
                JournalError::Memory => Err((KeeperError::Memory, group)),
                JournalError::Full | JournalError::TooManyRecords | JournalError::Damaged(_) => {
                    unreachable!()
                }
            },
        }
    }

    /// Why a group is refused, the device and memory aside.
    fn refusal_of_group(&self, group: &[Submitted]) -> Option<GroupError>
        ensures refusal { result ≡ group_refusal self.now group.now }
        ensures lawful { IfNone result (AreBatches (inputs_of self.now.plan) group.now) }
        ensures few { IfNone result (AllFew self.now.head.shape.m group.now) }
    {
        let shape = &self.head.shape;
        if self.broken {
            Some(GroupError::Keeper(KeeperError::Broken))
        } else if has_number(group) && self.head.version < NUMBERED {
            Some(GroupError::Keeper(KeeperError::OldVersion))
        } else if !may_follow(self.last_request, group) {
            Some(GroupError::Repeated)
        } else if !all_accepted(&self.plan, group) {
            Some(GroupError::Keeper(KeeperError::NoSuchInput))
        } else if !all_few(shape.records() as usize, group) {
            Some(GroupError::Keeper(KeeperError::TooManyRecords))
        } else if EPOCHS_END - self.last_epoch() <= group.len() as u64 {
            Some(GroupError::Keeper(KeeperError::Epochs))
        } else if shape.cells() as usize - self.submitted.len() < group.len() {
            Some(GroupError::Keeper(KeeperError::Full))
        } else {
            None
        }
    }
}

/// Whether one of a group has a request number.
fn has_number(group: &[Submitted]) -> bool
    ensures { result ≡ has_number group.now }
{
    group.iter().any(|each| each.request != 0)
}

/// Whether each request number of a group is above all before it, after this greatest one.
fn may_follow(last: u64, group: &[Submitted]) -> bool
    ensures { result ≡ may_follow (Some last) group.now }
{
    let mut greatest = last;
    for each in group {
        if each.request != 0 && each.request <= greatest {
            return false;
        }
        greatest = greatest.max(each.request);
    }
    true
}

/// Whether a plan accepts each batch of a group.
fn all_accepted(plan: &Plan, group: &[Submitted]) -> bool
    ensures accepted { result ≡ all_accepted plan.now group.now }
    ensures lawful { IsTrue result → AreBatches (inputs_of plan.now) group.now }
{
    for each in group {
        if !is_accepted(plan, &each.batch) {
            return false;
        }
    }
    true
}

/// Whether a plan accepts a batch, as a journal for it does.
pub(crate) fn is_accepted(plan: &Plan, batch: &Batch) -> bool
    ensures accepted { result ≡ accepts plan.now batch.now }
    ensures lawful { IsTrue result → is_batch (inputs_of plan.now) batch.now ≡ true }
{
    laws::inputs_are_accepted();
    td_journal::laws::batches_are_in_order();
    // Read for their contracts alone.
    let _plan = plan.vertices();
    let _in_order = batch.list();
    plan.accepts(batch)
}

/// Whether no batch of a group has more records than this.
fn all_few(most: usize, group: &[Submitted]) -> bool
    ensures all { result ≡ all_few most group.now }
    ensures few { IsTrue result → AllFew most group.now }
{
    for each in group {
        if most < each.batch.len() {
            return false;
        }
    }
    true
}
