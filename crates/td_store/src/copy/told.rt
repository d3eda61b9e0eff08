//! Putting what was read of a disk on another one: zeros first, then the parts behind the heads, and the head last.
//!
//! A copy is as a format leaves a disk: the checkpoint in slot 0, version 2, generation 1. Which slot and head the old disk uses,
//! and what stands in parts that do not count, is not copied.
ghost use Rattle.std.specs.Prelude.{◌≡◌, ◌⊎◌, ◌+◌, ◌^◌, ◌<◌, ◌≤◌, [], true, false, All, List, length, None, OnOk, IfOk, IfErr};
ghost use Rattle.td_disk.specs.Calls.{Calls, KeepsDevice};
ghost use Rattle.td_plan.specs.Lines.{Line};
ghost use Rattle.td_disk.specs.Disk.{IsDurable};
ghost use Rattle.td_gate.specs.CrashSafe.{CrashSafe, Unchanged};
ghost use Rattle.td_head.specs.Layout.{size_of};
ghost use Rattle.td_slots.specs.Slot.{slot, are_states};
ghost use Rattle.td_journal.specs.Cell.{is_batch};
ghost use Rattle.td_store.specs.declared.standing.error.KeeperError.TheVariants.{Device, Memory};
ghost use Rattle.td_store.specs.standing.Standing.{standing_from};
ghost use Rattle.td_store.specs.standing.Told.{inputs_of, folds_of, ring_of as ring_in};
ghost use Rattle.td_store.specs.standing.Tells.{Tells, Keeps, TellsSince, first_head};
ghost use Rattle.td_store.specs.standing.Read.{MayStand, standing_of};
ghost use Rattle.td_store.specs.copy.Room.{HasRoomFor};
ghost use Rattle.td_store.specs.copy.Copied.{AreClosedAfter, HasNoHead, HasParts, OpensNoHead, IsRising, HasRoomOn, KeepsPut, TellsPutOrNothing};
ghost use Rattle.td_store.specs.copy.Refusals.{IsNotPut};

use crate::copy::epochs::put_epochs;
use crate::copy::error::CopyError;
use crate::copy::room::check_room;
use crate::copy::zeros::put_zeros;
use crate::group::ring_of;
use crate::standing::{KeeperError, Recovered, slots_of};
use std::alloc::Global;
use td_disk::{Disk, Fault};
use td_head::{Shape, head_region};
use td_plan::Plan;
use td_slots::Checkpoint;

/// Puts what was read of a disk on another one, of this shape, which has no head: zeros over all parts, so that their room is taken,
/// the checkpoint into slot 0, the epochs after it into their cells, and then the head, of version 2. It begins with a sync.
///
/// Refusals: those of `check_room`, and `Shape`, where the disk has fewer bytes than the shape takes; with these the disk is not
/// called. `Formatted`, where a head is open, with nothing written. `New` of a keeper's `Memory` and `Device`.
pub fn write_told<D: Disk>(
    alloc: Global,
    device: &mut D,
    plan: &Plan,
    shape: Shape,
    told: &Recovered,
) -> Result<(), CopyError>
    requires { MayStand plan.now told.now.head told.now.checkpoint.slot (standing_of told.now) }
    ensures device { KeepsDevice D.view (CopyError.New Device) result device.old device.new }
    ensures room { OnOk result (HasRoomOn D.view shape (standing_of told.now) device.old) }
    ensures refused { IfErr result (λ e. IsNotPut D.view shape (standing_of told.now) device.old device.new e) }

    // After Ok a lawful disk tells what was read, whatever a crash leaves of it.
    ensures copied { OnOk result (KeepsPut D.view plan.now shape (standing_of told.now) device.old device.new) }

    // WHEREVER IT STOPS, an image is one of before the call, or not formatted, or it tells what was read.
    ensures stopped { TellsPutOrNothing D.view plan.now (standing_of told.now) device.old device.new }
{
    td_plan::laws::one_answer();
    crate::standing::laws::told_in_parts();
    crate::standing::laws::told_refused();
    check_room(shape, told)?;
    if device.size() < shape.bytes() {
        return Err(CopyError::Shape);
    }
    match is_headed(device) {
        Ok(false) => {}
        Ok(true) => return Err(CopyError::Formatted),
        Err(fault) => return Err(CopyError::New(KeeperError::from(fault))),
    }
    write_all(alloc, device, plan, shape, told)?;
    Ok(())
}

/// Whether a head of a disk is open. It begins with a sync, and writes nothing.
fn is_headed<D: Disk>(device: &mut D) -> Result<bool, Fault>
    requires { 8258 ≤ (D.view device.old).capacity }
    ensures device { Calls D.view result device.old device.new }
    ensures unchanged { (D.view device.old).lawful → CrashSafe Unchanged (D.view device.old).state (D.view device.new).state }
    ensures durable { OnOk result ((D.view device.old).lawful → IsDurable (D.view device.new).state) }
    ensures headed { IfOk result (λ is_headed. is_headed ≡ true → (D.view device.old).lawful → HasNoHead (D.view device.new).state.bytes → ⊥) }
    ensures not_headed { IfOk result (λ is_headed. is_headed ≡ false → (D.view device.old).lawful → HasNoHead (D.view device.new).state.bytes) }
{
    td_gate::laws::unchanged::<D>();
    td_gate::laws::reads_in_turn::<D>();
    device.sync()?;
    let is_first = head_region(0).is_open(device)?;
    let is_second = head_region(1).is_open(device)?;
    Ok(is_first || is_second)
}

/// Puts what was read on a disk without a head.
fn write_all<D: Disk>(
    alloc: Global,
    device: &mut D,
    plan: &Plan,
    shape: Shape,
    told: &Recovered,
) -> Result<(), KeeperError>
    requires may_stand { MayStand plan.now told.now.head told.now.checkpoint.slot (standing_of told.now) }
    requires fits { HasRoomFor shape (standing_of told.now) }
    requires bytes { size_of shape ≤ (D.view device.old).capacity }
    ensures device { KeepsDevice D.view Device result device.old device.new }
    ensures refusals { IfErr result (λ e. (e ≡ Memory) ⊎ (e ≡ Device)) }
    ensures copied { OnOk result ((D.view device.old).lawful → IsRising (standing_of told.now)
        → IsDurable (D.view device.old).state → HasNoHead (D.view device.old).state.bytes
        → Keeps plan.now (first_head shape) 0 (standing_of told.now) (D.view device.new).state) }
    ensures stopped { (D.view device.old).lawful → IsRising (standing_of told.now)
        → IsDurable (D.view device.old).state → HasNoHead (D.view device.old).state.bytes
        → TellsSince HasNoHead (Tells plan.now (first_head shape) 0 (standing_of told.now)) (D.view device.old).state (D.view device.new).state }
{
    td_gate::laws::put_leaves_others();
    td_gate::laws::durable_is_settled::<D>();
    crate::standing::laws::parts_are_apart();
    td_head::laws::first_head_tells();
    td_slots::laws::slots_tell();
    td_journal::laws::cells_tell();
    let _vertices = plan.vertices();
    let _bytes = shape.bytes();
    write_parts(alloc, device, shape, told)?;
    td_head::put_first(alloc, device, plan, shape)?;
    Ok(())
}

/// Puts what was read behind the heads.
fn write_parts<D: Disk>(
    alloc: Global,
    device: &mut D,
    shape: Shape,
    told: &Recovered,
) -> Result<(), KeeperError>
    requires fits { HasRoomFor shape (standing_of told.now) }
    requires small { told.now.checkpoint.epoch + length told.now.submitted.items < 2 ^ 63 }
    requires bytes { size_of shape ≤ (D.view device.old).capacity }
    ensures device { KeepsDevice D.view Device result device.old device.new }
    ensures refusals { IfErr result (λ e. (e ≡ Memory) ⊎ (e ≡ Device)) }
    ensures no_head { (D.view device.old).lawful → IsDurable (D.view device.old).state → HasNoHead (D.view device.old).state.bytes
        → OpensNoHead (D.view device.old).state (D.view device.new).state }
    ensures durable { OnOk result ((D.view device.old).lawful → IsDurable (D.view device.old).state → IsDurable (D.view device.new).state) }
    ensures put { OnOk result ((D.view device.old).lawful → (plan : List Line)
        → are_states (folds_of plan) told.now.checkpoint.states ≡ true
        → All (λ x. is_batch (inputs_of plan) x.batch ≡ true) told.now.submitted.items
        → IsRising (standing_of told.now)
        → IsDurable (D.view device.old).state → HasNoHead (D.view device.old).state.bytes
        → HasParts plan shape (standing_of told.now) (D.view device.new).state.bytes) }
{
    let ring = ring_of(&shape, told.checkpoint.epoch);
    write_checkpoint(alloc, device, shape, &told.checkpoint)?;
    put_epochs(alloc, &ring, device, told.submitted.as_slice())?;
    Ok(())
}

/// Puts a checkpoint into slot 0, with no epochs after it, and zeros over all else behind the heads.
fn write_checkpoint<D: Disk>(
    alloc: Global,
    device: &mut D,
    shape: Shape,
    checkpoint: &Checkpoint,
) -> Result<(), KeeperError>
    requires few { length checkpoint.now.states ≤ shape.k }
    requires cells { 0 < shape.n }
    requires small { checkpoint.now.epoch < 2 ^ 63 }
    requires bytes { size_of shape ≤ (D.view device.old).capacity }
    ensures device { KeepsDevice D.view Device result device.old device.new }
    ensures refusals { IfErr result (λ e. (e ≡ Memory) ⊎ (e ≡ Device)) }
    ensures no_head { (D.view device.old).lawful → IsDurable (D.view device.old).state → HasNoHead (D.view device.old).state.bytes
        → OpensNoHead (D.view device.old).state (D.view device.new).state }
    ensures head { OnOk result ((D.view device.old).lawful → IsDurable (D.view device.old).state → HasNoHead (D.view device.old).state.bytes
        → HasNoHead (D.view device.new).state.bytes) }
    ensures durable { OnOk result ((D.view device.old).lawful → IsDurable (D.view device.old).state → IsDurable (D.view device.new).state) }
    ensures put { OnOk result ((D.view device.old).lawful → (plan : List Line)
        → are_states (folds_of plan) checkpoint.now.states ≡ true
        → IsDurable (D.view device.old).state → HasNoHead (D.view device.old).state.bytes
        → HasParts plan shape (standing_from checkpoint.now []) (D.view device.new).state.bytes) }
    ensures closed { OnOk result ((D.view device.old).lawful → AreClosedAfter (ring_in shape checkpoint.now.epoch) 0 (D.view device.new).state.bytes) }
{
    td_gate::laws::put_leaves_others();
    td_gate::laws::durable_is_settled::<D>();
    crate::standing::laws::parts_are_apart();
    td_slots::laws::slots_read_back();
    td_journal::laws::closed_tells_nothing();
    let slots = slots_of(&shape);
    put_zeros(alloc, device, shape)?;
    slots.write(
        alloc,
        device,
        1,
        checkpoint.epoch,
        checkpoint.last,
        &checkpoint.states,
    )?;
    Ok(())
}
