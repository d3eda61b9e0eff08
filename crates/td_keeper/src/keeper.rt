//! A keeper of epochs on a disk.
ghost use Rattle.std.specs.Prelude.{◌≡◌, ◌≤◌, IfOk, IfErr};
ghost use Rattle.td_head.specs.Layout.{size_of};
ghost use Rattle.td_store.specs.standing.Standing.{batches_of, nothing_told};
ghost use Rattle.td_store.specs.standing.Tells.{first_head};
ghost use Rattle.td_store.specs.standing.Read.{MayStand, standing_of, SyncedRefuses};
ghost use Rattle.td_store.specs.standing.Advanced.{HeldWhere};
ghost use Rattle.td_keeper.specs.Keeping.{Keeping, IsFreshlyOpened};
ghost use Rattle.td_disk.specs.Calls.{KeepsDevice};
ghost use Rattle.td_keeper.specs.Calls.{HoldsStanding, KeepsStanding, TellsStanding, outcome, disk_in};
ghost use Rattle.td_gate.specs.Steps.{WritesNothing};
ghost use Rattle.td_store.specs.standing.Refusals.{IsMemoryOrDevice};
ghost use Rattle.td_store.specs.standing.Steps.{KeepsNothing};
ghost use Rattle.td_store.specs.declared.standing.error.KeeperError.TheVariants.{Device};

use crate::laws::each_is_kept;
use std::alloc::Global;
use std::collections::VecDeque;
use std::marker::{Model, PhantomData};
use td_calls::Law;
use td_disk::Disk;
use td_head::{Head, Shape};
use td_journal::{Submitted, greatest_request};
use td_plan::Plan;
use td_slots::Checkpoint;
use td_stamp::{Batch, EpochOut, OrderedStates, States};
use td_store::standing::{KeeperError, Recovered, format_device, laws, recover_device};
use td_watch::Writer;

/// A cut that was taken since the checkpoint was written, and whether it waits to be written.
#[derive(Drop)]
pub(crate) struct Taken {
    pub epoch: u64,
    pub states: OrderedStates,
    pub waits: bool,
}

/// The epochs of a plan on a disk, and what a hall that works on them has collected. Contracts see it as a `Keeping`. A lawful
/// disk keeps its standing, whatever a crash leaves of it: an image tells that standing; where the device failed in a call that
/// writes, an image tells an advance of it that holds all of its epochs.
///
/// What it knows of its disk is one fact: a crash leaves what is read, and that tells the standing. No fact on single regions is
/// kept. It has a copy of the plan, so later calls are handed none.
#[derive(Drop)]
pub struct Keeper<D: Disk, L: Law> {
    pub(crate) alloc: Global,
    pub(crate) device: D,
    pub(crate) plan: Plan,
    pub(crate) head: Head,
    pub(crate) checkpoint: Checkpoint,
    pub(crate) submitted: VecDeque<Submitted>,
    pub(crate) last_request: u64,
    pub(crate) broken: bool,
    pub(crate) taken: Option<Taken>,
    pub(crate) collected: u64,
    pub(crate) queue: VecDeque<EpochOut>,
    pub(crate) watch: Option<Writer>,
    pub(crate) law: PhantomData<L>,
}

impl<D: Disk, L: Law> Model for Keeper<D, L> {
    ghost use Rattle.std.specs.Prelude.{◌≡◌, ◌≤◌};
    ghost use Rattle.td_head.specs.Layout.{size_of};
    ghost use Rattle.td_journal.specs.Numbers.{greatest};
    ghost use Rattle.td_store.specs.standing.Standing.{standing_from};
    ghost use Rattle.td_store.specs.standing.Advanced.{HeldWhere};
    ghost use Rattle.td_keeper.specs.Keeping.{Keeping, IsKeeping, KeepsToWhere, base_of, keeping_of};

    ghost Value = { Keeping D };

    ghost view = { λ k. keeping_of k.device k.plan k.head k.checkpoint k.submitted.items k.broken k.taken k.collected k.queue.items k.watch };

    ghost invariant = { λ k. (size_of k.head.shape ≤ (D.view k.device).capacity)
        × IsKeeping (keeping_of k.device k.plan k.head k.checkpoint k.submitted.items k.broken k.taken k.collected k.queue.items k.watch) L.answers
        × ((D.view k.device).lawful
        → HeldWhere k.broken L.answers k.plan k.head k.checkpoint.slot (standing_from k.checkpoint k.submitted.items) (D.view k.device).state)
        × (k.last_request ≡ greatest k.checkpoint.last k.submitted.items)
        × ((D.view k.device).lawful → KeepsToWhere k.broken k.plan (base_of k.checkpoint k.taken) (D.view k.device).state) };
}

impl<D: Disk, L: Law> Keeper<D, L> {
    /// Formats a disk for a plan, in version 2 of the format: all that stood on it is gone. It refuses `Memory` and
    /// `Device` and hands the disk back; of what that disk tells nothing is said.
    pub fn format(
        alloc: Global,
        disk: D,
        plan: &Plan,
        shape: Shape,
    ) -> Result<Keeper<D, L>, (KeeperError, D)>
        requires { size_of shape ≤ (D.view disk).capacity }
        ensures device { KeepsDevice D.view Device (outcome result) disk (disk_in result) }
        ensures plan { IfOk result (λ k. k.plan ≡ plan.now) }
        ensures head { IfOk result (λ k. (k.head ≡ first_head shape) × (k.side ≡ 0)) }
        ensures standing { IfOk result (λ k. k.standing ≡ nothing_told) }
        ensures fresh { IfOk result IsFreshlyOpened }
        ensures kept { IfOk result (λ k. KeepsNothing D.view plan.now shape disk k.device) }
        ensures refusals { IfErr result (λ e. IsMemoryOrDevice e.0) }
    {
        let mut device = disk;
        match format_device(alloc, &mut device, plan, shape) {
            Ok((plan, checkpoint)) => Ok(Keeper {
                alloc,
                device,
                plan,
                head: Head {
                    version: 2,
                    side: 0,
                    generation: 1,
                    shape,
                },
                collected: 0,
                checkpoint,
                submitted: VecDeque::new(alloc),
                last_request: 0,
                broken: false,
                taken: None,
                queue: VecDeque::new(alloc),
                watch: None,
                law: PhantomData,
            }),
            Err(refusal) => Err((refusal, device)),
        }
    }

    /// The keeper of what a disk tells for a plan. It begins with a sync, and writes nothing. It refuses `NotFormatted`,
    /// `Damaged` of the head, `WrongPlan`, `Damaged` of the slots and `Damaged` of a cell, each where that is the first that
    /// the disk tells as it then reads, `Memory` and `Device`, and hands the disk back.
    pub fn recover(alloc: Global, disk: D, plan: &Plan) -> Result<Keeper<D, L>, (KeeperError, D)>
        ensures plan { IfOk result (λ k. k.plan ≡ plan.now) }
        ensures fresh { IfOk result IsFreshlyOpened }
        ensures told { IfOk result (λ k. TellsStanding D.view plan.now disk k) }
        ensures kept { IfOk result (λ k. KeepsStanding D.view plan.now disk k) }

        // A refusal but `Memory` and `Device` is told by what is read after the sync, which is all that a crash leaves.
        ensures refused { IfErr result (λ e. SyncedRefuses D.view plan.now e.0 disk e.1) }

        // What a crash may leave since the start of the call, it might have left then.
        ensures crash_safe { WritesNothing D.view disk (disk_in result) }

        // A call of the disk that failed is never told as want of memory.
        ensures device { KeepsDevice D.view Device (outcome result) disk (disk_in result) }
    {
        laws::told_in_parts();
        let mut device = disk;
        match recover_device(alloc, &mut device, plan) {
            Ok((plan, recovered)) => Ok(Keeper {
                alloc,
                device,
                plan,
                head: recovered.head,
                last_request: greatest_request(recovered.checkpoint.last, &recovered.submitted),
                collected: recovered.checkpoint.epoch,
                checkpoint: recovered.checkpoint,
                submitted: VecDeque::from(recovered.submitted),
                broken: false,
                taken: None,
                queue: VecDeque::new(alloc),
                watch: None,
                law: PhantomData,
            }),
            Err(refusal) => Err((refusal, device)),
        }
    }

    /// The checkpoint's epoch, its states, and the batches of the epochs after it, in memory of their own. Refusal:
    /// `Memory`.
    pub fn opening(&self) -> Result<(u64, States, Vec<Batch>), KeeperError>
        ensures epoch { IfOk result (λ o. o.0 ≡ self.now.standing.epoch) }
        ensures states { IfOk result (λ o. o.1 ≡ self.now.standing.states) }
        ensures batches { IfOk result (λ o. o.2.items ≡ batches_of self.now.standing.submitted) }
        ensures refusals { IfErr result (λ e. e ≡ KeeperError.Memory) }
    {
        let states = self.checkpoint.states.to_states(self.alloc)?;
        let mut batches = Vec::with_capacity(self.alloc, self.submitted.len())?;
        for i in 0..self.submitted.len() {
            batches.push(self.submitted[i].batch.copy()?)?;
        }
        Ok((self.checkpoint.epoch, states, batches))
    }

    /// What it stands for, as a recovery of its disk would read it, in memory of its own. Refusal: `Memory`.
    pub fn told(&self) -> Result<Recovered, KeeperError>
        ensures told { IfOk result (λ r. standing_of r ≡ self.now.standing) }
        ensures may_stand { IfOk result (λ r. MayStand self.now.plan r.head r.checkpoint.slot (standing_of r)) }
        ensures refusals { IfErr result (λ e. e ≡ KeeperError.Memory) }
    {
        each_is_kept(self);
        let Checkpoint {
            slot,
            epoch,
            last,
            states,
        } = &self.checkpoint;
        let states = states.copy()?;
        let mut submitted = Vec::with_capacity(self.alloc, self.submitted.len())?;
        for i in 0..self.submitted.len() {
            submitted.push(copy_of(&self.submitted[i])?)?;
        }
        Ok(Recovered {
            head: self.head,
            checkpoint: Checkpoint {
                slot: *slot,
                epoch: *epoch,
                last: *last,
                states,
            },
            submitted,
        })
    }

    /// The disk.
    pub fn into_disk(self) -> D
        ensures disk { result ≡ self.device }
        ensures held { HoldsStanding D.view L.answers self }
    {
        let Keeper {
            alloc: _,
            device,
            plan: _,
            head: _,
            checkpoint: _,
            submitted: _,
            last_request: _,
            broken: _,
            taken: _,
            collected: _,
            queue: _,
            watch: _,
            law: _,
        } = self;
        device
    }
}

/// What was submitted, in memory of its own. Refusal: `Memory`.
fn copy_of(submitted: &Submitted) -> Result<Submitted, KeeperError>
    ensures same { IfOk result (λ s. s ≡ submitted.now) }
    ensures refusals { IfErr result (λ e. e ≡ KeeperError.Memory) }
{
    Ok(Submitted {
        request: submitted.request,
        batch: submitted.batch.copy()?,
    })
}
