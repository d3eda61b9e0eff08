//! Putting the epochs after a checkpoint into their cells, on a disk that has no head yet.
//!
//! Nothing is told before the head is there, so all cells but the last are written as they are, and one sync serves them all. The last one
//! is put as a keeper puts its cells: where the journal is full, the cell behind it is that of the first epoch.
ghost use Rattle.std.specs.Prelude.{◌≡◌, ◌⊎◌, ◌+◌, ◌^◌, ◌<◌, ◌≤◌, [], ◌∷◌, true, All, List, ℕ, length, OnOk, IfErr};
ghost use Rattle.td_disk.specs.Calls.{KeepsDevice};
ghost use Rattle.td_plan.specs.Lines.{Line};
ghost use Rattle.td_disk.specs.Disk.{IsDurable};
ghost use Rattle.td_head.specs.Layout.{Sizes};
ghost use Rattle.td_gate.specs.Reading.{Each};
ghost use Rattle.td_gate.specs.Regions.{Replaces};
ghost use Rattle.td_journal.specs.Steps.{HasRing};
ghost use Rattle.td_journal.specs.Cell.{cell_of, cell_bytes, is_batch, FitsEntry};
ghost use Rattle.td_journal.specs.Numbers.{rise};
ghost use Rattle.td_store.specs.standing.Standing.{Standing, with_more};
ghost use Rattle.td_store.specs.standing.Told.{inputs_of, ring_of};
ghost use Rattle.td_store.specs.standing.Tells.{HasRoom, IsFresh};
ghost use Rattle.td_store.specs.copy.Copied.{AreClosedAfter, EachHasNoHead, HasNoHead, HasParts, OpensNoHead};

use std::alloc::Global;
use td_disk::Disk;
use td_gate::OPEN;
use td_journal::{Journal, JournalError, Submitted};

/// Puts an epoch into its cell, after the cell behind it was closed where it bears the epoch behind it. Refusals: `Memory`,
/// `Device`.
fn put_epoch<D: Disk>(
    alloc: Global,
    journal: &Journal,
    device: &mut D,
    epoch: u64,
    submitted: &Submitted,
) -> Result<(), JournalError>
    requires ring { HasRing journal.now (D.view device.old).capacity }
    requires few { length submitted.now.batch ≤ journal.now.m }
    requires small { epoch < 2 ^ 63 }
    ensures refusals { IfErr result (λ e. (e ≡ JournalError.Memory) ⊎ (e ≡ JournalError.Device)) }
    ensures device { KeepsDevice D.view JournalError.Device result device.old device.new }
    ensures no_head { (D.view device.old).lawful → (sizes : Sizes) (kept : ℕ) → journal.now ≡ ring_of sizes kept
        → IsDurable (D.view device.old).state → HasNoHead (D.view device.old).state.bytes
        → OpensNoHead (D.view device.old).state (D.view device.new).state }
    ensures head { OnOk result ((D.view device.old).lawful → (sizes : Sizes) (kept : ℕ) → journal.now ≡ ring_of sizes kept
        → IsDurable (D.view device.old).state → HasNoHead (D.view device.old).state.bytes → HasNoHead (D.view device.new).state.bytes) }
    ensures durable { OnOk result ((D.view device.old).lawful → IsDurable (D.view device.old).state → IsDurable (D.view device.new).state) }
    ensures put { OnOk result ((D.view device.old).lawful → (plan : List Line) (sizes : Sizes) (s : Standing)
        → journal.now ≡ ring_of sizes s.epoch → HasRoom sizes s epoch → IsFresh 2 s submitted.now.request
        → is_batch (inputs_of plan) submitted.now.batch ≡ true
        → IsDurable (D.view device.old).state → HasParts plan sizes s (D.view device.old).state.bytes
        → HasParts plan sizes (with_more s (submitted.now ∷ [])) (D.view device.new).state.bytes) }
{
    td_gate::laws::put_leaves_others();
    td_gate::laws::durable_is_settled::<D>();
    crate::standing::laws::parts_are_apart();
    td_slots::laws::slots_tell();
    td_journal::laws::cells_read_back();
    td_journal::laws::following_is_closed();
    td_journal::laws::next_is_put();
    let payload = journal.payload(alloc, epoch, submitted.request, &submitted.batch)?;
    journal.clear(alloc, device, epoch + 1)?;
    let _size = device.size();
    journal.cell_of(epoch).put(device, &payload)?;
    Ok(())
}

/// Writes an epoch into its cell, with its gate open, and makes no sync. Refusals: `Memory`, with the disk not called; `Device`.
fn write_epoch<D: Disk>(
    alloc: Global,
    journal: &Journal,
    device: &mut D,
    epoch: u64,
    submitted: &Submitted,
) -> Result<(), JournalError>
    requires ring { HasRing journal.now (D.view device.old).capacity }
    requires few { length submitted.now.batch ≤ journal.now.m }
    requires behind { 8258 ≤ journal.now.at }
    ensures refusals { IfErr result (λ e. (e ≡ JournalError.Memory) ⊎ (e ≡ JournalError.Device)) }
    ensures device { KeepsDevice D.view JournalError.Device result device.old device.new }
    ensures no_head { (D.view device.old).lawful → EachHasNoHead (D.view device.old).state
        → EachHasNoHead (D.view device.new).state × OpensNoHead (D.view device.old).state (D.view device.new).state }
    ensures fits { OnOk result (Each FitsEntry submitted.now.batch × (submitted.now.request < 2 ^ 64)) }
    ensures written { OnOk result ((D.view device.old).lawful
        → Replaces (cell_of journal.now epoch) (cell_bytes journal.now.m epoch submitted.now.request submitted.now.batch) (D.view device.old).state.bytes (D.view device.new).state.bytes) }
{
    td_journal::laws::cells_read_back();
    let mut bytes = journal.payload(alloc, epoch, submitted.request, &submitted.batch)?;
    bytes.push(OPEN)?;
    let _size = device.size();
    let cell = journal.cell_of(epoch);
    device.write(cell.at, &bytes)?;
    Ok(())
}

/// Writes epochs into their cells, of which the first is the one after a checkpoint's, and makes no sync. Refusals: `Memory`, `Device`.
fn write_epochs<D: Disk>(
    alloc: Global,
    journal: &Journal,
    device: &mut D,
    submitted: &[Submitted],
) -> Result<(), JournalError>
    requires ring { HasRing journal.now (D.view device.old).capacity }
    requires few { All (λ x. length x.batch ≤ journal.now.m) submitted.now }
    requires small { journal.now.kept + length submitted.now < 2 ^ 63 }
    requires behind { 8258 ≤ journal.now.at }
    ensures refusals { IfErr result (λ e. (e ≡ JournalError.Memory) ⊎ (e ≡ JournalError.Device)) }
    ensures device { KeepsDevice D.view JournalError.Device result device.old device.new }
    ensures no_head { (D.view device.old).lawful → EachHasNoHead (D.view device.old).state
        → EachHasNoHead (D.view device.new).state × OpensNoHead (D.view device.old).state (D.view device.new).state }
    ensures put { OnOk result ((D.view device.old).lawful → (plan : List Line) (sizes : Sizes) (s : Standing)
        → journal.now ≡ ring_of sizes s.epoch → s.submitted ≡ [] → length submitted.now < sizes.n
        → rise (Some s.last) submitted.now ≡ true → All (λ x. is_batch (inputs_of plan) x.batch ≡ true) submitted.now
        → AreClosedAfter journal.now 0 (D.view device.old).state.bytes → HasParts plan sizes s (D.view device.old).state.bytes
        → HasParts plan sizes (with_more s submitted.now) (D.view device.new).state.bytes) }
{
    td_gate::laws::put_leaves_others();
    crate::standing::laws::parts_are_apart();
    td_slots::laws::slots_tell();
    td_journal::laws::numbers();
    td_journal::laws::cells();
    td_journal::laws::following_is_closed();
    td_journal::laws::next_is_put();
    let mut epoch = journal.kept;
    for each in submitted {
        epoch += 1;
        write_epoch(alloc, journal, device, epoch, each)?;
    }
    Ok(())
}

/// Puts epochs into their cells, of which the first is the one after a checkpoint's. Refusals: `Memory`, `Device`.
pub(crate) fn put_epochs<D: Disk>(
    alloc: Global,
    journal: &Journal,
    device: &mut D,
    submitted: &[Submitted],
) -> Result<(), JournalError>
    requires ring { HasRing journal.now (D.view device.old).capacity }
    requires few { All (λ x. length x.batch ≤ journal.now.m) submitted.now }
    requires small { journal.now.kept + length submitted.now < 2 ^ 63 }
    requires behind { 8258 ≤ journal.now.at }
    ensures refusals { IfErr result (λ e. (e ≡ JournalError.Memory) ⊎ (e ≡ JournalError.Device)) }
    ensures device { KeepsDevice D.view JournalError.Device result device.old device.new }
    ensures no_head { (D.view device.old).lawful → (sizes : Sizes) (kept : ℕ) → journal.now ≡ ring_of sizes kept
        → IsDurable (D.view device.old).state → HasNoHead (D.view device.old).state.bytes
        → OpensNoHead (D.view device.old).state (D.view device.new).state }
    ensures durable { OnOk result ((D.view device.old).lawful → IsDurable (D.view device.old).state → IsDurable (D.view device.new).state) }
    ensures put { OnOk result ((D.view device.old).lawful → (plan : List Line) (sizes : Sizes) (s : Standing)
        → journal.now ≡ ring_of sizes s.epoch → s.submitted ≡ [] → length submitted.now ≤ sizes.n
        → rise (Some s.last) submitted.now ≡ true → All (λ x. is_batch (inputs_of plan) x.batch ≡ true) submitted.now
        → IsDurable (D.view device.old).state → AreClosedAfter journal.now 0 (D.view device.old).state.bytes → HasParts plan sizes s (D.view device.old).state.bytes
        → HasParts plan sizes (with_more s submitted.now) (D.view device.new).state.bytes) }
{
    td_journal::laws::numbers();
    let Some((last, before)) = submitted.split_last() else {
        return Ok(());
    };
    write_epochs(alloc, journal, device, before)?;
    device.sync()?;
    let epoch = journal.kept + submitted.len() as u64;
    put_epoch(alloc, journal, device, epoch, last)
}
