//! What is read of a disk, part by part.
//!
//! The layout has its home in `td_head`: heads, `Shape::slots_at` and `cells_at`. Of a shape the slots are made here, and the ring of
//! cells by `crate::group::ring_of`, with the definition's contract.
ghost use Rattle.std.specs.Prelude.{◌≡◌, ◌+◌, ◌^◌, ◌<◌, ◌≤◌, List, length, All, true, Ok, Err, IfOk, IfErr, ◌*◌};
ghost use Rattle.td_disk.specs.Calls.{KeepsDevice};
ghost use Rattle.td_disk.specs.Disk.{CountsDevice};
ghost use Rattle.td_gate.specs.Reads.{IsRead};
ghost use Rattle.td_gate.specs.Steps.{WritesNothing};
ghost use Rattle.td_head.specs.Layout.{size_of};
ghost use Rattle.td_journal.specs.declared.payload.Submitted.{Submitted as AnySubmitted};
ghost use Rattle.td_journal.specs.declared.error.JournalError.{JournalError};
ghost use Rattle.td_journal.specs.Cell.{is_batch};
ghost use Rattle.td_journal.specs.Steps.{MayReadFrom};
ghost use Rattle.td_journal.specs.Ring.{told_after};
ghost use Rattle.td_store.specs.standing.Refusals.{of_journal};
ghost use Rattle.td_store.specs.standing.Standing.{standing_from};
ghost use Rattle.td_store.specs.standing.Told.{Told, inputs_of, folds_of, floor_of as floor_in, slots_of as slots_in};
ghost use Rattle.td_store.specs.standing.Tells.{Tells};
ghost use Rattle.td_store.specs.standing.Read.{standing_of, MayStand, Refused, IsRecovered, KeepsRecovered, IsCountedOf, KeepsCounted, DiskRefuses, SyncedRefuses};
ghost use Rattle.td_slots.specs.Steps.{HasSlots};

use crate::group::ring_of;
use crate::standing::error::KeeperError;
use crate::standing::laws;
use std::alloc::{AllocError, Global};
use td_disk::Disk;
use td_head::{Head, Shape};
use td_journal::{Counts, Journal, Submitted};
use td_plan::{Kind, Plan};
use td_slots::{Checkpoint, Slots};

/// What a disk tells: its head, its checkpoint, and the batches after it.
#[derive(Drop)]
pub struct Recovered {
    pub head: Head,
    pub checkpoint: Checkpoint,
    pub submitted: Vec<Submitted>,
}

/// The same, with the request number of each batch and how many records it has, and none of these.
#[derive(Drop)]
pub struct Counted {
    pub head: Head,
    pub checkpoint: Checkpoint,
    pub submitted: Vec<Counts>,
}

/// What is read before the ring, and what that is read with: the numbers of the plan's inputs, where the cells are, and
/// the number above which the requests are.
#[derive(Drop)]
struct Before {
    inputs: Vec<u8>,
    head: Head,
    checkpoint: Checkpoint,
    journal: Journal,
    floor: Option<u64>,
}

/// The numbers of a plan's inputs.
fn inputs(alloc: Global, plan: &Plan) -> Result<Vec<u8>, AllocError>
    ensures { IfOk result (λ v. v.items ≡ inputs_of plan.now) }
{
    plan.vertices()
        .iter()
        .filter(|v| v.is_input())
        .map(|v| v.number())
        .collect(alloc)
}

/// The numbers of a plan's folds.
fn folds(alloc: Global, plan: &Plan) -> Result<Vec<u8>, AllocError>
    ensures { IfOk result (λ v. v.items ≡ folds_of plan.now) }
{
    plan.vertices()
        .iter()
        .filter(|v| matches!(v.kind(), Kind::Fold(_)))
        .map(|v| v.number())
        .collect(alloc)
}

/// The number above which the requests after a checkpoint are, where the version of the format has request numbers.
fn floor_of(version: u32, last: u64) -> Option<u64>
    ensures { result ≡ floor_in version last }
{
    if 2 <= version { Some(last) } else { None }
}

/// What a disk tells for a plan before its ring is read. It refuses as `read_parts` does, up to the slots.
fn read_before<D: Disk>(alloc: Global, device: &mut D, plan: &Plan) -> Result<Before, KeeperError>
    // What the ring tells then, the disk tells.
    ensures told { IfOk result (λ b. (D.view device.old).lawful → (w : List AnySubmitted)
        → told_after b.inputs.items b.journal (D.view device.old).state.bytes b.floor b.checkpoint.epoch ≡ Ok w
        → Tells plan.now b.head b.checkpoint.slot (standing_from b.checkpoint w) (D.view device.old).state.bytes) }
    ensures damaged { IfOk result (λ b. (D.view device.old).lawful → (e : JournalError)
        → told_after b.inputs.items b.journal (D.view device.old).state.bytes b.floor b.checkpoint.epoch ≡ Err e
        → Told plan.now (D.view device.old).state.bytes (Refused (of_journal e))) }
    ensures may_stand { IfOk result (λ b. (w : List AnySubmitted) → All (λ x. is_batch b.inputs.items x.batch ≡ true) w
        → length w ≤ b.journal.n → b.checkpoint.epoch + length w < 2 ^ 63
        → MayStand plan.now b.head b.checkpoint.slot (standing_from b.checkpoint w)) }
    ensures fits { IfOk result (λ b. size_of b.head.shape ≤ (D.view device.old).capacity) }
    ensures ring { IfOk result (λ b. MayReadFrom b.journal (D.view device.old).capacity b.checkpoint.epoch) }
    ensures refused { IfErr result (λ e. DiskRefuses D.view plan.now e device.old) }
    ensures failures { CountsDevice result KeeperError.Device (D.view device.old).failures (D.view device.new).failures }
    ensures read { IsRead D.view device.old device.new }
{
    laws::told_refused();
    td_gate::laws::reads_in_turn::<D>();
    let inputs = inputs(alloc, plan)?;
    let folds = folds(alloc, plan)?;
    let head = td_head::read(alloc, device, plan)?;
    let slots = slots_of(&head.shape);
    let checkpoint = slots.newest(alloc, device, head.version, &folds)?;
    let journal = ring_of(&head.shape, checkpoint.epoch);
    let floor = floor_of(head.version, checkpoint.last);
    Ok(Before {
        inputs,
        head,
        checkpoint,
        journal,
        floor,
    })
}

/// What a disk tells for a plan. It refuses `NotFormatted`, `Damaged` of the head, `WrongPlan`, `Damaged` of the slots,
/// `Damaged` of a cell, each exactly where that is the first that the disk tells, and `Memory` and `Device`. It writes
/// nothing.
pub fn read_parts<D: Disk>(
    alloc: Global,
    device: &mut D,
    plan: &Plan,
) -> Result<Recovered, KeeperError>
    ensures told { IfOk result (λ r. IsRecovered D.view plan.now r device.old) }

    // Whatever the disk, what is read fits it and may stand on it.
    ensures fits { IfOk result (λ r. size_of r.head.shape ≤ (D.view device.old).capacity) }
    ensures may_stand { IfOk result (λ r. MayStand plan.now r.head r.checkpoint.slot (standing_of r)) }
    ensures refused { IfErr result (λ e. DiskRefuses D.view plan.now e device.old) }
    ensures failures { CountsDevice result KeeperError.Device (D.view device.old).failures (D.view device.new).failures }
    ensures read { IsRead D.view device.old device.new }
{
    td_gate::laws::reads_in_turn::<D>();
    let before = read_before(alloc, device, plan)?;
    let Before {
        inputs,
        head,
        checkpoint,
        journal,
        floor,
    } = before;
    let submitted = journal.read_from(alloc, device, &inputs, checkpoint.epoch, floor)?;
    Ok(Recovered {
        head,
        checkpoint,
        submitted,
    })
}

/// The same, with the counts of the batches in place of these.
fn count_parts<D: Disk>(alloc: Global, device: &mut D, plan: &Plan) -> Result<Counted, KeeperError>
    ensures told { IfOk result (λ c. IsCountedOf D.view plan.now c device.old) }
    ensures small { IfOk result (λ c. c.checkpoint.epoch + length c.submitted.items < 2 ^ 63) }
    ensures refused { IfErr result (λ e. DiskRefuses D.view plan.now e device.old) }
    ensures failures { CountsDevice result KeeperError.Device (D.view device.old).failures (D.view device.new).failures }
    ensures read { IsRead D.view device.old device.new }
{
    td_gate::laws::reads_in_turn::<D>();
    let before = read_before(alloc, device, plan)?;
    let Before {
        inputs,
        head,
        checkpoint,
        journal,
        floor,
    } = before;
    let submitted = journal.read_counts(alloc, device, &inputs, checkpoint.epoch, floor)?;
    Ok(Counted {
        head,
        checkpoint,
        submitted,
    })
}

/// Syncs a disk, and gives what its keeper has in memory: a copy of the plan, and what the disk tells for it. It refuses as
/// `read_parts` does.
pub fn recover_device<D: Disk>(
    alloc: Global,
    device: &mut D,
    plan: &Plan,
) -> Result<(Plan, Recovered), KeeperError>
    ensures device { KeepsDevice D.view KeeperError.Device result device.old device.new }
    ensures plan { IfOk result (λ r. r.0 ≡ plan.now) }
    ensures kept { IfOk result (λ r. KeepsRecovered D.view plan.now r.1 device.old device.new) }
    ensures fits { IfOk result (λ r. size_of r.1.head.shape ≤ (D.view device.old).capacity) }
    ensures may_stand { IfOk result (λ r. MayStand plan.now r.1.head r.1.checkpoint.slot (standing_of r.1)) }
    ensures refused { IfErr result (λ e. SyncedRefuses D.view plan.now e device.old device.new) }
    ensures crash_safe { WritesNothing D.view device.old device.new }
{
    td_gate::laws::unchanged::<D>();
    td_gate::laws::reads_in_turn::<D>();
    device.sync()?;
    let recovered = read_parts(alloc, device, plan)?;
    let Ok(copy) = plan.copy() else {
        return Err(KeeperError::Memory);
    };
    Ok((copy, recovered))
}

/// Syncs a disk, and gives what the disk tells for a plan, with the counts of the batches after the checkpoint in place of
/// these: for one who asks how much there is. It takes memory for the states, for one cell and for 16 bytes an epoch, each
/// payload is found valid as by `recover_device`, and it refuses as `recover_device` does.
pub fn count_device<D: Disk>(
    alloc: Global,
    device: &mut D,
    plan: &Plan,
) -> Result<Counted, KeeperError>
    ensures device { KeepsDevice D.view KeeperError.Device result device.old device.new }
    ensures kept { IfOk result (λ c. KeepsCounted D.view plan.now c device.old device.new) }
    ensures small { IfOk result (λ c. c.checkpoint.epoch + length c.submitted.items < 2 ^ 63) }
    ensures refused { IfErr result (λ e. SyncedRefuses D.view plan.now e device.old device.new) }
    ensures crash_safe { WritesNothing D.view device.old device.new }
{
    td_gate::laws::unchanged::<D>();
    td_gate::laws::reads_in_turn::<D>();
    device.sync()?;
    let counted = count_parts(alloc, device, plan)?;
    Ok(counted)
}

/// The slots of a disk of this shape.
pub fn slots_of(shape: &Shape) -> Slots
    ensures slots { result ≡ slots_in shape.now }
    ensures within { HasSlots result (size_of shape.now) }
{
    let _bytes = shape.bytes();
    Slots {
        at: shape.slots_at(),
        k: shape.states(),
    }
}
