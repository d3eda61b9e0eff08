//! Zeros over a disk that has no head: they take the room of all its parts before anything is told, and close all slots and cells.
//!
//! On most file systems the room of the whole disk is taken then. So a copy that finds too little of it ends with `device`, and
//! no later feed does.
ghost use Rattle.std.specs.Prelude.{◌≡◌, ◌⊎◌, ◌↔◌, ◌<◌, ◌≤◌, ℕ, length, slice_index, OnOk, IfErr};
ghost use Rattle.td_disk.specs.Calls.{Calls, KeepsDevice};
ghost use Rattle.td_disk.specs.Disk.{IsDurable};
ghost use Rattle.td_head.specs.Layout.{size_of};
ghost use Rattle.td_store.specs.declared.standing.error.KeeperError.TheVariants.{Device, Memory};
ghost use Rattle.td_store.specs.copy.Copied.{EachHasNoHead, HasNoHead, IsZeroBetween, OpensNoHead};

use crate::standing::KeeperError;
use std::alloc::Global;
use td_disk::{Disk, Fault};
use td_head::{Shape, head_region};

/// How many bytes are written at once, at most.
const MOST: u64 = 1 << 20;

/// Writes zeros over all of a shape behind the heads, and over the payload of the second head, and syncs. No gate of a head is
/// written, since a write that is torn could open it. Refusals: `Memory`, with the disk not called; `Device`.
pub(crate) fn put_zeros<D: Disk>(
    alloc: Global,
    device: &mut D,
    shape: Shape,
) -> Result<(), KeeperError>
    requires { size_of shape ≤ (D.view device.old).capacity }
    ensures device { KeepsDevice D.view Device result device.old device.new }
    ensures refusals { IfErr result (λ e. (e ≡ Memory) ⊎ (e ≡ Device)) }
    ensures no_head { (D.view device.old).lawful → IsDurable (D.view device.old).state → HasNoHead (D.view device.old).state.bytes
        → OpensNoHead (D.view device.old).state (D.view device.new).state }
    ensures head { OnOk result ((D.view device.old).lawful → IsDurable (D.view device.old).state → HasNoHead (D.view device.old).state.bytes
        → HasNoHead (D.view device.new).state.bytes) }
    ensures durable { OnOk result ((D.view device.old).lawful → IsDurable (D.view device.new).state) }
    ensures second { OnOk result ((D.view device.old).lawful → IsZeroBetween 4129 8257 (D.view device.new).state.bytes) }
    ensures behind { OnOk result ((D.view device.old).lawful → IsZeroBetween 8258 (size_of shape) (D.view device.new).state.bytes) }
{
    let end = shape.bytes();
    let second = head_region(1);
    let mut zeros = Vec::new(alloc);
    zeros.resize(end.min(MOST) as usize, 0)?;
    write_zeros(device, &zeros, second.at, second.at + second.len)?;
    write_zeros(device, &zeros, shape.slots_at(), end)?;
    device.sync()?;
    Ok(())
}

/// Writes zeros from one place to another, in writes of as many bytes as there are zeros, without a sync.
fn write_zeros<D: Disk>(device: &mut D, zeros: &[u8], at: u64, end: u64) -> Result<(), Fault>
    requires some { 0 < length zeros.now }
    requires zero { IsZeroBetween 0 (length zeros.now) zeros.now }
    requires room { end ≤ (D.view device.old).capacity }
    requires gates { (4129 ≤ at) × ((end ≤ 8257) ⊎ (8258 ≤ at)) }
    ensures device { Calls D.view result device.old device.new }
    ensures no_head { (D.view device.old).lawful → EachHasNoHead (D.view device.old).state
        → EachHasNoHead (D.view device.new).state × OpensNoHead (D.view device.old).state (D.view device.new).state }
    ensures zero { OnOk result ((D.view device.old).lawful → IsZeroBetween at end (D.view device.new).state.bytes) }
    ensures before { (D.view device.old).lawful → (i : ℕ) → i < at
        → slice_index (D.view device.new).state.bytes i ≡ slice_index (D.view device.old).state.bytes i }
{
    let mut from = at;
    while from < end {
        let len = (end - from).min(zeros.len() as u64);
        device.write(from, &zeros[..len as usize])?;
        from += len;
    }
    Ok(())
}
