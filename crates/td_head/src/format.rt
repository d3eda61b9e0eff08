// What a format begins with: zeros over all parts of a disk.
ghost use Rattle.std.specs.Prelude.{◌≡◌, ◌≢◌, ◌+◌, ◌≤◌, OnOk};
ghost use Rattle.td_disk.specs.Calls.{Calls};
ghost use Rattle.td_gate.specs.Region.{gate_of};
ghost use Rattle.td_gate.specs.Steps.{ChangesOnly, LeavesDurable, StaysDurable};
ghost use Rattle.td_head.specs.Images.{IsZero};
ghost use Rattle.td_head.specs.Layout.{head_a, head_b, size_of};

use crate::shape::{Shape, head_region};
use td_disk::{Disk, Fault};

/// Closes the gates of both heads, where they read open, and syncs where it closed one.
fn close_heads<D: Disk>(device: &mut D) -> Result<(), Fault>
    requires { 8258 ≤ (D.view device.old).capacity }
    ensures device { Calls D.view result device.old device.new }
    ensures first { OnOk result ((D.view device.old).lawful → gate_of head_a (D.view device.new).state.bytes ≢ 0xA5) }
    ensures second { OnOk result ((D.view device.old).lawful → gate_of head_b (D.view device.new).state.bytes ≢ 0xA5) }
    ensures others { OnOk result (ChangesOnly D.view 0 8258 device.old device.new) }
    ensures durable { OnOk result (StaysDurable D.view device.old device.new) }
{
    let is_first = head_region(0).close_if_open(device)?;
    let is_second = head_region(1).close_if_open(device)?;
    if is_first || is_second {
        device.sync()?;
    }
    Ok(())
}

/// Takes a disk of this shape back to zeros: closes the gates of both heads that read open (with a sync where it closed
/// one), then writes zeros over all parts, and syncs. It refuses `Device` alone.
///
/// The gates of the heads alone are closed first: a disk whose format was stopped reads as not formatted, and nothing is promised
/// of it. Zeros are written from the stack, in 25 million calls on the largest disk, of 103 GB.
pub fn wipe<D: Disk>(device: &mut D, shape: Shape) -> Result<(), Fault>
    requires { size_of shape ≤ (D.view device.old).capacity }
    ensures device { Calls D.view result device.old device.new }
    ensures zero { OnOk result ((D.view device.old).lawful → IsZero (size_of shape) (D.view device.new).state.bytes) }
    ensures others { OnOk result (ChangesOnly D.view 0 (size_of shape) device.old device.new) }
    ensures durable { OnOk result (LeavesDurable D.view device.old device.new) }
{
    let bytes = shape.bytes();
    let _size = device.size();
    close_heads(device)?;
    let zeros = [0; 4096];
    for i in 0..bytes / 4096 {
        device.write(4096 * i, &zeros)?;
    }
    device.write(4096 * (bytes / 4096), &zeros[..(bytes % 4096) as usize])?;
    device.sync()
}
