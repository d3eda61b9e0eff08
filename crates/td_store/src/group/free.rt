//! Closing the cells that no told epoch uses.
//!
//! A cut leaves the cells that it frees open, and a submit into an open cell takes three syncs in place of two. A caller that
//! submits soon closes those that come next at once, with one sync, for a read of one byte each. `td stream` closes after each
//! cut as many as that freed, and `td feed` none.
//!
//! A stop in the middle of a group leaves open cells behind the end, with the numbers of epochs that do not count. Each epoch
//! that is put clears the next of them, and a group the one behind it.
ghost use Rattle.std.specs.Prelude.{◌≡◌, ◌+◌, ◌^◌, ◌<◌, ◌≤◌, false, OnOk, IfOk};
ghost use Rattle.td_disk.specs.Calls.{Calls};
ghost use Rattle.td_disk.specs.Disk.{IsDurable};
ghost use Rattle.td_gate.specs.CrashSafe.{CrashSafe, Unchanged};
ghost use Rattle.td_gate.specs.Reads.{IsRead};
ghost use Rattle.td_journal.specs.Steps.{HasRing};
ghost use Rattle.td_store.specs.group.Groups.{AreShut, ClosesSome};
ghost use Rattle.td_store.specs.standing.Steps.{ClosesFree, WritesOnlyIfOpen};

use crate::group::laws;
use td_disk::{Disk, Fault};
use td_journal::Journal;

/// Closes the open gates of the cells of `count` epochs from `first` on, with no sync, and answers whether there was one.
fn close_gates<D: Disk>(
    journal: &Journal,
    device: &mut D,
    first: u64,
    count: u64,
) -> Result<bool, Fault>
    requires ring { HasRing journal.now (D.view device.old).capacity }
    requires few { count ≤ journal.now.n }
    requires small { first + count < 2 ^ 64 }
    ensures device { Calls D.view result device.old device.new }
    ensures crash_safe { (D.view device.old).lawful → IsDurable (D.view device.old).state
        → CrashSafe (ClosesSome journal.now first count) (D.view device.old).state (D.view device.new).state }
    ensures closed { OnOk result ((D.view device.old).lawful → AreShut journal.now (D.view device.new).state.bytes first count) }
    ensures unwritten { IfOk result (λ wrote. wrote ≡ false → IsRead D.view device.old device.new) }
    ensures needless { IfOk result (λ wrote. (D.view device.old).lawful → AreShut journal.now (D.view device.old).state.bytes first count → wrote ≡ false) }
    ensures idle { (D.view device.old).lawful → AreShut journal.now (D.view device.old).state.bytes first count
        → CrashSafe Unchanged (D.view device.old).state (D.view device.new).state }
{
    td_journal::laws::cells();
    td_gate::laws::unchanged::<D>();
    td_gate::laws::reads_in_turn::<D>();
    let _size = device.size();
    let mut wrote = false;
    for k in 0..count {
        wrote |= journal.cell_of(first + k).close_if_open(device)?;
    }
    Ok(wrote)
}

/// Closes the open gates of the cells of `count` epochs from `first` on, with one sync for all, and none where each is closed.
fn close_cells<D: Disk>(
    journal: &Journal,
    device: &mut D,
    first: u64,
    count: u64,
) -> Result<(), Fault>
    requires ring { HasRing journal.now (D.view device.old).capacity }
    requires few { count ≤ journal.now.n }
    requires small { first + count < 2 ^ 64 }
    ensures device { Calls D.view result device.old device.new }
    ensures crash_safe { (D.view device.old).lawful → IsDurable (D.view device.old).state
        → CrashSafe (ClosesSome journal.now first count) (D.view device.old).state (D.view device.new).state }
    ensures durable { OnOk result ((D.view device.old).lawful → IsDurable (D.view device.old).state → IsDurable (D.view device.new).state) }
    ensures closed { OnOk result ((D.view device.old).lawful → AreShut journal.now (D.view device.new).state.bytes first count) }
    ensures idle { (D.view device.old).lawful → AreShut journal.now (D.view device.old).state.bytes first count
        → CrashSafe Unchanged (D.view device.old).state (D.view device.new).state }
{
    td_gate::laws::unchanged::<D>();
    if close_gates(journal, device, first, count)? {
        device.sync()?;
    }
    Ok(())
}

/// Closes the cells of `count` epochs from `first` on, of which no epoch that is told may use one: of each that is open the gate is written,
/// and then one sync does for all. Where each is closed, nothing is written and nothing synced. From then on a submit finds its cell closed,
/// until the ring has come round.
pub fn close_free<D: Disk>(
    journal: &Journal,
    device: &mut D,
    first: u64,
    count: u64,
) -> Result<(), Fault>
    requires ring { HasRing journal.now (D.view device.old).capacity }
    requires few { count ≤ journal.now.n }
    requires small { first + count < 2 ^ 64 }
    ensures device { Calls D.view result device.old device.new }

    // Each image tells the standing still; after Ok these cells are closed, and where each was, or there is none, nothing is written.
    ensures free { ClosesFree D.view journal.now first count result device.old device.new }
    ensures closed { OnOk result ((D.view device.old).lawful → AreShut journal.now (D.view device.new).state.bytes first count) }
    ensures idle { WritesOnlyIfOpen D.view journal.now first count device.old device.new }
{
    laws::closing_is_safe::<D>();
    close_cells(journal, device, first, count)
}
