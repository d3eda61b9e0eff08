//! Putting a group of epochs on a ring.
//!
//! The cell behind the group is cleared first, unless the group fills the ring. That cell is then of an epoch that counts, or of
//! the group, and bears another number. The first cell is closed before its payload is written, which then goes with the other
//! cells into one sync. Its gate is opened last, by a sync of its own, and with that the gate of the next epoch's cell is closed,
//! where the ring has one that is free: so what is put next finds its first cell closed. An epoch by itself may leave that cell as
//! it is (`NextCell::Left`).
ghost use Rattle.std.specs.Prelude.{◌≡◌, ◌+◌, ◌-◌, ◌^◌, ◌<◌, ◌≤◌, ◌∷◌, nat_le, ℕ, suc, List, length, false, OnOk, IfErr, IsErrOf, IsTrue};
ghost use Rattle.td_disk.specs.Calls.{Calls, KeepsDevice};
ghost use Rattle.td_disk.specs.Disk.{IsDurable};
ghost use Rattle.td_gate.specs.CrashSafe.{CrashSafe};
ghost use Rattle.td_gate.specs.Region.{IsFilled};
ghost use Rattle.td_gate.specs.Steps.{WritesNothing};
ghost use Rattle.td_journal.specs.Cell.{cell_of, cell_len};
ghost use Rattle.td_journal.specs.Images.{IsBorne};
ghost use Rattle.td_journal.specs.Refusals.{IsMemoryOrDevice};
ghost use Rattle.td_journal.specs.Steps.{HasRing};
ghost use Rattle.td_plan.specs.Lines.{Line};
ghost use Rattle.td_head.specs.declared.head.Head.{Head as AnyHead};
ghost use Rattle.td_store.specs.standing.Standing.{Standing, with_more};
ghost use Rattle.td_store.specs.standing.Told.{inputs_of, ring_of};
ghost use Rattle.td_store.specs.standing.Tells.{Tells, Keeps, TellsSince};
ghost use Rattle.td_store.specs.group.Groups.{gated, AllFew, AreBatches, AreFresh, HasRoomFor, Spares, EachReady, ClosesNext, touched};
ghost use Rattle.td_store.specs.standing.Steps.{HasPlace, SubmitsGroup};

use crate::group::cells::{Written, fill_cells, gated};
use crate::group::laws;
use crate::standing::submit_batch;
use std::alloc::Global;
use td_disk::{Disk, Fault};
use td_journal::{Journal, JournalError, Submitted};

/// What becomes of the cell behind a group, where it is open and no epoch uses it.
#[derive(Clone, Copy, Drop)]
pub enum NextCell {
    /// It is closed with the last sync of the group, so that what is put next takes two syncs.
    Closed,
    /// It is left as it is, where the group is one epoch.
    Left,
}

/// Closes the cell behind a group of `count` epochs where it bears the epoch behind it, unless the ring is full with the group. It refuses
/// `Memory`, and then has written nothing; then `Device`.
fn clear_behind<D: Disk>(
    alloc: Global,
    journal: &Journal,
    device: &mut D,
    first: u64,
    count: u64,
    is_full: bool,
) -> Result<(), JournalError>
    requires ring { HasRing journal.now (D.view device.old).capacity }
    requires some { 0 < count }
    requires few { touched is_full count ≤ journal.now.n }
    requires small { first + count ≤ 2 ^ 63 }
    ensures refusals { IfErr result IsMemoryOrDevice }
    ensures device { KeepsDevice D.view JournalError.Device result device.old device.new }
    ensures unwritten { IsErrOf result JournalError.Memory → WritesNothing D.view device.old device.new }
    ensures same { IsErrOf result JournalError.Memory → (D.view device.old).lawful
        → (D.view device.new).state.bytes ≡ (D.view device.old).state.bytes }
    ensures crash_safe { (D.view device.old).lawful → IsDurable (D.view device.old).state
        → CrashSafe (Spares journal.now first (touched is_full count)) (D.view device.old).state (D.view device.new).state }
    ensures durable { IfErr result (λ e. e ≡ JournalError.Memory) → (D.view device.old).lawful
        → IsDurable (D.view device.old).state → IsDurable (D.view device.new).state }
    ensures gone { OnOk result ((D.view device.old).lawful → IsDurable (D.view device.old).state → is_full ≡ false
        → IsBorne journal.now (D.view device.new).state.bytes (first + count) → ⊥) }
{
    td_journal::laws::cells();
    td_gate::laws::durable_is_settled::<D>();
    td_gate::laws::unchanged::<D>();
    if is_full {
        return Ok(());
    }
    journal.clear(alloc, device, first + count)?;
    Ok(())
}

/// Closes the cell behind a group of `count` epochs where it is open, with no sync, unless the ring is full with the group.
fn close_ahead<D: Disk>(
    journal: &Journal,
    device: &mut D,
    first: u64,
    count: u64,
    is_full: bool,
) -> Result<(), Fault>
    requires ring { HasRing journal.now (D.view device.old).capacity }
    requires small { first + count < 2 ^ 64 }
    ensures device { Calls D.view result device.old device.new }
    ensures crash_safe { (D.view device.old).lawful → IsDurable (D.view device.old).state
        → CrashSafe (ClosesNext journal.now first count is_full) (D.view device.old).state (D.view device.new).state }
{
    td_gate::laws::durable_is_settled::<D>();
    td_gate::laws::unchanged::<D>();
    if is_full {
        return Ok(());
    }
    let _size = device.size();
    journal.cell_of(first + count).close_if_open(device)?;
    Ok(())
}

/// Gets a ring ready for a group of epochs, all but its first gate. It closes the cell behind the group, as `clear_behind`, and the first cell
/// of the group. It fills all cells of the group, with one sync, and then closes the one behind, as `close_ahead`, with none. It refuses
/// `Memory`, and then has written nothing; then `Device`.
pub(crate) fn get_ready<D: Disk>(
    alloc: Global,
    journal: &Journal,
    device: &mut D,
    first: u64,
    others: &[Submitted],
    written: Written<'_>,
    is_full: bool,
) -> Result<(), JournalError>
    requires ring { HasRing journal.now (D.view device.old).capacity }
    requires few { touched is_full (length others.now + 1) ≤ journal.now.n }
    requires small { first + length others.now + 1 ≤ 2 ^ 63 }
    requires payload { length written.payload.now ≡ cell_len journal.now.m }
    requires bytes { written.others.now ≡ gated journal.now.m (first + 1) others.now }
    requires batches { AllFew journal.now.m others.now }
    ensures refusals { IfErr result IsMemoryOrDevice }
    ensures device { KeepsDevice D.view JournalError.Device result device.old device.new }
    ensures unwritten { IsErrOf result JournalError.Memory → WritesNothing D.view device.old device.new }
    ensures same { IsErrOf result JournalError.Memory → (D.view device.old).lawful
        → (D.view device.new).state.bytes ≡ (D.view device.old).state.bytes }
    ensures crash_safe { (D.view device.old).lawful → IsDurable (D.view device.old).state
        → CrashSafe (Spares journal.now first (touched is_full (length others.now + 1))) (D.view device.old).state (D.view device.new).state }
    ensures durable { IsErrOf result JournalError.Memory → (D.view device.old).lawful
        → IsDurable (D.view device.old).state → IsDurable (D.view device.new).state }
    ensures ready { OnOk result ((D.view device.old).lawful → IsDurable (D.view device.old).state
        → EachReady journal.now first others.now is_full (D.view device.new).state) }
    ensures filled { OnOk result ((D.view device.old).lawful → IsDurable (D.view device.old).state
        → IsFilled (cell_of journal.now first) written.entry.payload.now (D.view device.new).state) }
{
    td_journal::laws::cells();
    td_journal::laws::cells_read_back();
    td_gate::laws::durable_is_settled::<D>();
    clear_behind(
        alloc,
        journal,
        device,
        first,
        others.len() as u64 + 1,
        is_full,
    )?;
    let _size = device.size();
    journal.cell_of(first).shut(device)?;
    fill_cells(journal, device, first, others.len(), written)?;
    close_ahead(journal, device, first, others.len() as u64 + 1, is_full)?;
    Ok(())
}

/// Whether each cell of a ring is used by the epochs up to this one.
fn is_full(journal: &Journal, last: u64) -> bool
    requires { journal.now.kept < 2 ^ 63 }
    ensures { result ≡ nat_le (journal.now.kept + journal.now.n) last }
{
    journal.kept + u64::from(journal.n) <= last
}

/// Whether a group is put as one epoch that leaves the next cell as it is.
fn is_alone(others: &[Submitted], next: NextCell) -> bool
    ensures { IsTrue result → length others.now ≡ 0 }
{
    match next {
        NextCell::Left => others.is_empty(),
        NextCell::Closed => false,
    }
}

/// Puts a group of epochs on a ring, of which `first` is the number of the first, so that no stop leaves a part of it. It takes two to four
/// syncs, whatever its size. One epoch that leaves the next cell as it is goes as `submit_batch` puts it. It refuses `Memory`, and then has
/// written nothing; then `Device`.
pub fn submit_group<D: Disk>(
    alloc: Global,
    journal: &Journal,
    device: &mut D,
    first: u64,
    group: &[Submitted],
    next: NextCell,
) -> Result<(), JournalError>
    requires ring { HasRing journal.now (D.view device.old).capacity }
    requires place { HasPlace journal.now first group.now }
    ensures refusals { IfErr result IsMemoryOrDevice }
    ensures device { KeepsDevice D.view JournalError.Device result device.old device.new }

    // Each image tells the standing, or it with the whole group; after want of memory it tells the standing still, and after Ok it with the group.
    ensures group { SubmitsGroup D.view journal.now first group.now result device.old device.new }
{
    td_gate::laws::unchanged::<D>();
    let Some((head, others)) = group.split_first() else {
        return Ok(());
    };
    if is_alone(others, next) {
        return submit_batch(alloc, journal, device, first, head.request, &head.batch);
    }
    put_group(alloc, journal, device, first, head, others)
}

/// Puts a group of epochs, its first one apart: that one's gate is opened last of all, over the others.
fn put_group<D: Disk>(
    alloc: Global,
    journal: &Journal,
    device: &mut D,
    first: u64,
    head: &Submitted,
    others: &[Submitted],
) -> Result<(), JournalError>
    requires ring { HasRing journal.now (D.view device.old).capacity }
    requires few { AllFew journal.now.m (head.now ∷ others.now) }
    requires later { journal.now.kept < first }
    requires free { first + length others.now ≤ journal.now.kept + journal.now.n }
    requires small { first + length others.now + 1 ≤ 2 ^ 63 }
    ensures refusals { IfErr result IsMemoryOrDevice }
    ensures device { KeepsDevice D.view JournalError.Device result device.old device.new }
    ensures unwritten { IsErrOf result JournalError.Memory → WritesNothing D.view device.old device.new }
    ensures later { (D.view device.old).lawful → IsDurable (D.view device.old).state
        → (D.view device.old).state.moment ≤ (D.view device.new).state.moment }

    // Each image since a moment up to the start of the call was one by then, or it tells the standing, or it with the whole group.
    ensures begun { (D.view device.old).lawful → (plan : List Line) (h : AnyHead) (side : ℕ) (s : Standing)
        → journal.now ≡ ring_of h.shape s.epoch → HasRoomFor h.shape s first (suc (length others.now)) → AreFresh h.version s (head.now ∷ others.now)
        → AreBatches (inputs_of plan) (head.now ∷ others.now)
        → Keeps plan h side s (D.view device.old).state
        → TellsSince (Tells plan h side s) (Tells plan h side (with_more s (head.now ∷ others.now))) (D.view device.old).state (D.view device.new).state }

    // After want of memory each image tells the standing still.
    ensures kept { IsErrOf result JournalError.Memory → (D.view device.old).lawful
        → (plan : List Line) (h : AnyHead) (side : ℕ) (s : Standing)
        → Keeps plan h side s (D.view device.old).state → Keeps plan h side s (D.view device.new).state }

    // After Ok each image tells it with the group.
    ensures done { OnOk result ((D.view device.old).lawful → (plan : List Line) (h : AnyHead) (side : ℕ) (s : Standing)
        → journal.now ≡ ring_of h.shape s.epoch → HasRoomFor h.shape s first (suc (length others.now)) → AreFresh h.version s (head.now ∷ others.now)
        → AreBatches (inputs_of plan) (head.now ∷ others.now)
        → Keeps plan h side s (D.view device.old).state
        → Keeps plan h side (with_more s (head.now ∷ others.now)) (D.view device.new).state) }
{
    laws::group_is_safe::<D>();
    crate::standing::laws::recovered::<D>();
    td_gate::laws::durable_is_settled::<D>();
    td_gate::laws::steps_are_puts::<D>();
    td_gate::laws::unchanged::<D>();
    td_journal::laws::cells_read_back();
    let _size = device.size();
    let payload = journal.payload(alloc, first, head.request, &head.batch)?;
    let bytes = gated(alloc, journal, first + 1, others)?;
    let written = Written {
        payload: &payload,
        others: &bytes,
    };
    let is_full = is_full(journal, first + others.len() as u64);
    get_ready(alloc, journal, device, first, others, written, is_full)?;
    journal.cell_of(first).uncover(device)?;
    Ok(())
}
