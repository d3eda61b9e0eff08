// Putting a head: the first one of a formatted disk, or the one beside that which counts.
ghost use Rattle.std.specs.Prelude.{◌≡◌, ◌↔◌, ◌+◌, ◌-◌, ◌^◌, ◌≤◌, length, IfOk, IfErr, IsErrOf};
ghost use Rattle.td_disk.specs.Calls.{KeepsDevice};
ghost use Rattle.td_gate.specs.Steps.{HasPut, SameUnless};
ghost use Rattle.td_plan.specs.Lines.{text_of};
ghost use Rattle.td_head.specs.Head.{head_bytes, raised, raised_bytes};
ghost use Rattle.td_head.specs.HeadError.{IsMemoryOrDevice, IsRaiseRefusal};
ghost use Rattle.td_head.specs.Layout.{head, head_a, size_of};

use crate::error::HeadError;
use crate::head::Head;
use crate::shape::{HEAD_LEN, Shape, head_region};
use std::alloc::{AllocError, Global};
use td_disk::Disk;
use td_gate::fields::{push_u32, push_u64};
use td_plan::Plan;

/// The version of the format that is written.
const VERSION: u32 = 2;

/// What is written for a plan and a shape, with this generation.
fn head_payload(
    alloc: Global,
    generation: u64,
    text: &str,
    shape: Shape,
) -> Result<Vec<u8>, AllocError>
    requires few { length text.now ≤ 4096 }
    ensures ok { IfOk result (λ payload. payload.items ≡ head_bytes 2 generation shape text.now) }
{
    let mut payload = Vec::with_capacity(alloc, HEAD_LEN as usize)?;
    payload.extend_from_slice(b"TDFL")?;
    push_u32(&mut payload, VERSION)?;
    push_u64(&mut payload, generation)?;
    push_u32(&mut payload, shape.records())?;
    push_u32(&mut payload, shape.cells())?;
    push_u32(&mut payload, shape.states())?;
    push_u32(&mut payload, text.len() as u32)?;
    payload.extend_from_slice(text.as_bytes())?;
    payload.resize(HEAD_LEN as usize, 0)?;
    Ok(payload)
}

/// Puts a head of version 2 into the place of a side, 0 or 1. It refuses `Memory`, and then has not called the disk;
/// then `Device`.
fn put_head<D: Disk>(
    alloc: Global,
    device: &mut D,
    side: u8,
    generation: u64,
    plan: &Plan,
    shape: Shape,
) -> Result<(), HeadError>
    requires which { side ≤ 1 }
    requires room { 8258 ≤ (D.view device.old).capacity }
    ensures refusals { IfErr result IsMemoryOrDevice }
    ensures untouched { IfErr result (λ e. SameUnless HeadError.Device e device.old device.new) }
    ensures device { KeepsDevice D.view HeadError.Device result device.old device.new }
    ensures put { HasPut D.view (head side) (head_bytes 2 generation shape (text_of plan.now)) result device.old device.new }
{
    td_plan::laws::canonical_text();
    let Ok(text) = plan.text() else {
        return Err(HeadError::Memory);
    };
    let payload = head_payload(alloc, generation, &text, shape)?;
    head_region(side).put(device, &payload)?;
    Ok(())
}

/// Puts the head for a plan and a shape into the first place. It refuses `Memory`, and then has not called the disk;
/// then `Device`.
pub fn put_first<D: Disk>(
    alloc: Global,
    device: &mut D,
    plan: &Plan,
    shape: Shape,
) -> Result<(), HeadError>
    requires room { size_of shape ≤ (D.view device.old).capacity }
    ensures refusals { IfErr result IsMemoryOrDevice }
    ensures untouched { IfErr result (λ e. SameUnless HeadError.Device e device.old device.new) }
    ensures device { KeepsDevice D.view HeadError.Device result device.old device.new }
    ensures put { HasPut D.view head_a (head_bytes 2 1 shape (text_of plan.now)) result device.old device.new }
{
    put_head(alloc, device, 0, 1, plan, shape)
}

/// Puts the head that follows one into the other place: of version 2, with the next generation, the same plan and the
/// same shape. What stood there does not count, since its generation is not greater. It refuses `LastGeneration` where
/// no generation follows, then `Memory`, and in both cases has not called the disk; then `Device`.
///
/// It never touches the standing head, so a stop in its middle leaves that one. A head of version 2 may be raised too: whether to
/// raise is the keeper's to see to.
pub fn raise<D: Disk>(
    alloc: Global,
    device: &mut D,
    old: &Head,
    plan: &Plan,
) -> Result<Head, HeadError>
    requires room { size_of old.now.shape ≤ (D.view device.old).capacity }
    ensures last { IsErrOf result HeadError.LastGeneration ↔ (old.now.generation ≡ 2 ^ 64 - 1) }
    ensures raised { IfOk result (λ h. h ≡ raised old.now) }
    ensures refusals { IfErr result IsRaiseRefusal }
    ensures untouched { IfErr result (λ e. SameUnless HeadError.Device e device.old device.new) }
    ensures device { KeepsDevice D.view HeadError.Device result device.old device.new }
    ensures put { HasPut D.view (head (1 - old.now.side)) (raised_bytes old.now plan.now) result device.old device.new }
{
    if old.generation == u64::MAX {
        return Err(HeadError::LastGeneration);
    }
    let new = Head {
        version: VERSION,
        side: 1u8.saturating_sub(old.side),
        generation: old.generation + 1,
        shape: old.shape,
    };
    put_head(alloc, device, new.side, new.generation, plan, new.shape)?;
    Ok(new)
}
