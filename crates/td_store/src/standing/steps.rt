//! The calls of a keeper that write, without what the keeper keeps in memory.
ghost use Rattle.std.specs.Prelude.{◌≡◌, ◌↔◌, ◌+◌, ◌-◌, ◌^◌, ◌<◌, ◌≤◌, length, IfOk, IfErr, IsErrOf};
ghost use Rattle.td_disk.specs.Calls.{KeepsDevice};
ghost use Rattle.td_gate.specs.Steps.{SameUnless};
ghost use Rattle.td_head.specs.Head.{raised};
ghost use Rattle.td_head.specs.HeadError.{IsRaiseRefusal};
ghost use Rattle.td_head.specs.Layout.{size_of};
ghost use Rattle.td_slots.specs.Steps.{HasSlots, RefusesStates, StatesFit};
ghost use Rattle.td_journal.specs.Refusals.{IsMemoryOrDevice};
ghost use Rattle.td_journal.specs.Steps.{HasRing};
ghost use Rattle.td_store.specs.standing.Steps.{SubmitsBatch, WritesCut, RaisesHead};

use crate::standing::laws;
use std::alloc::Global;
use td_disk::Disk;
use td_head::{Head, HeadError};
use td_journal::{Journal, JournalError};
use td_plan::Plan;
use td_slots::{Slots, SlotsError};
use td_stamp::{Batch, OrderedStates};

/// Puts the next epoch's batch and its request number (0 for none) into its cell, after the cell behind it was closed
/// where it bears the epoch behind it. It refuses `Memory`, and then has written nothing; then `Device`.
///
/// It does not go through `Journal::append`. The payload is made first, since want of memory comes before any write. Then the
/// cell behind is cleared, and then the payload is put.
pub fn submit_batch<D: Disk>(
    alloc: Global,
    journal: &Journal,
    device: &mut D,
    epoch: u64,
    request: u64,
    batch: &Batch,
) -> Result<(), JournalError>
    requires ring { HasRing journal.now (D.view device.old).capacity }
    requires few { length batch.now ≤ journal.now.m }
    requires small { epoch < 2 ^ 63 }
    ensures refusals { IfErr result IsMemoryOrDevice }
    ensures device { KeepsDevice D.view JournalError.Device result device.old device.new }

    // Each image tells the standing, or it with the batch; after want of memory it tells the standing still, and after Ok it with the batch.
    ensures batch { SubmitsBatch D.view journal.now epoch request batch.now result device.old device.new }
{
    laws::submit_is_safe::<D>();
    laws::recovered::<D>();
    td_gate::laws::durable_is_settled::<D>();
    td_gate::laws::unchanged::<D>();
    td_journal::laws::cells_read_back();
    let payload = journal.payload(alloc, epoch, request, batch)?;
    journal.clear(alloc, device, epoch + 1)?;
    let _size = device.size();
    journal.cell_of(epoch).put(device, &payload)?;
    Ok(())
}

/// Puts the states after a cut, with the greatest request number of the epochs up to it, into the slot beside the newest.
/// It refuses `TooManyKeys`, then `Memory`, and in these cases has not called the disk; then `Device`.
///
/// A cut at the checkpoint's own epoch while slot 0 is the newest goes into slot 1. Slot 0 stays the newest, since a tie is slot
/// 0's.
pub fn write_states<D: Disk>(
    alloc: Global,
    slots: &Slots,
    device: &mut D,
    newest: u8,
    epoch: u64,
    last: u64,
    states: &OrderedStates,
) -> Result<(), SlotsError>
    requires slots { HasSlots slots.now (D.view device.old).capacity }
    requires which { newest ≤ 1 }
    ensures refused { RefusesStates slots.now.k states.now result device.old device.new }
    ensures fits { StatesFit slots.now.k states.now result }
    ensures device { KeepsDevice D.view SlotsError.Device result device.old device.new }

    // Each image tells the standing, or it cut there, and after Ok it cut there.
    ensures cut { WritesCut D.view slots.now newest epoch last states.now result device.old device.new }
{
    laws::write_cut_is_safe::<D>();
    laws::recovered::<D>();
    td_gate::laws::durable_is_settled::<D>();
    slots.write(alloc, device, newest, epoch, last, states)?;
    Ok(())
}

/// Puts the head that follows one beside it: of version 2, with the next generation, the same plan and the same shape. It
/// refuses `LastGeneration`, then `Memory`, and in these cases has not called the disk; then `Device`.
pub fn raise_head<D: Disk>(
    alloc: Global,
    device: &mut D,
    head: &Head,
    plan: &Plan,
) -> Result<Head, HeadError>
    requires room { size_of head.now.shape ≤ (D.view device.old).capacity }
    ensures last { IsErrOf result HeadError.LastGeneration ↔ (head.now.generation ≡ 2 ^ 64 - 1) }
    ensures raised { IfOk result (λ h. h ≡ raised head.now) }
    ensures refusals { IfErr result IsRaiseRefusal }
    ensures untouched { IfErr result (λ e. SameUnless HeadError.Device e device.old device.new) }
    ensures device { KeepsDevice D.view HeadError.Device result device.old device.new }

    // Each image tells the standing under the one head or the other, and after Ok under the head that was put.
    ensures head { RaisesHead D.view plan.now head.now result device.old device.new }
{
    laws::raise_is_safe::<D>();
    td_gate::laws::durable_is_settled::<D>();
    let _vertices = plan.vertices();
    let _generation = head.generation;
    td_head::raise(alloc, device, head, plan)
}
