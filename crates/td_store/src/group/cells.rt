//! The ring of a disk, and the cells of a group in it: all but the first gate are written, and synced once.
//!
//! A cell behind the first may be torn and open, as long as the first is closed. That no payload is written over an open gate
//! holds for each cell that may count: the first one, and one that is put alone (`crate::standing::submit_batch`).
//!
//! Epochs that follow one another stand in neighbouring cells, up to the ring's end, and one write does for such a run. The first
//! payload has a write of its own: one that goes on into the next cell goes over the first gate, and torn it could open that.
ghost use Rattle.std.specs.Prelude.{◌≡◌, ◌+◌, ◌-◌, ◌*◌, ◌%◌, ◌^◌, ◌<◌, ◌≤◌, length, OnOk, IfOk, IfErr};
ghost use Rattle.td_disk.specs.Calls.{Calls};
ghost use Rattle.td_disk.specs.Disk.{IsDurable};
ghost use Rattle.td_gate.specs.CrashSafe.{CrashSafe};
ghost use Rattle.td_gate.specs.Region.{IsClosed, IsFilled};
ghost use Rattle.td_head.specs.Layout.{size_of};
ghost use Rattle.td_journal.specs.Steps.{HasRing};
ghost use Rattle.td_journal.specs.Cell.{cell_of, cell_len};
ghost use Rattle.td_store.specs.standing.Told.{ring_of as ring_in};
ghost use Rattle.td_store.specs.group.Groups.{gated, AllFew, AllFit, HasPieces, ChangesCells, Spares};
ghost use Rattle.td_journal.specs.declared.error.JournalError.TheVariants.{Memory};

use std::alloc::Global;
use td_disk::{Disk, Fault};
use td_gate::OPEN;
use td_head::Shape;
use td_journal::{Journal, JournalError, Submitted};

/// The ring of cells of a disk of this shape, of which those of the epochs up to `kept` may be overwritten.
pub fn ring_of(shape: &Shape, kept: u64) -> Journal
    ensures ring { result ≡ ring_in shape.now kept }
    ensures within { HasRing result (size_of shape.now) }
    ensures few { result.n ≤ 65536 }
{
    let _bytes = shape.bytes();
    Journal {
        at: shape.cells_at(),
        m: shape.records(),
        n: shape.cells(),
        kept,
    }
}

/// What is written for a group: the payload of its first epoch, and the cells of the others, one after another.
#[derive(Clone, Copy, Drop)]
pub(crate) struct Written<'a> {
    pub payload: &'a [u8],
    /// Each payload with its open gate behind it.
    pub others: &'a [u8],
}

/// What is written into the cells of a group's epochs from `first` on, each payload with its open gate behind it. It refuses `Memory` alone.
pub(crate) fn gated(
    alloc: Global,
    journal: &Journal,
    first: u64,
    group: &[Submitted],
) -> Result<Vec<u8>, JournalError>
    requires records { journal.now.m ≤ 65536 }
    requires few { AllFew journal.now.m group.now }
    requires small { first + length group.now < 2 ^ 64 }
    ensures ok { IfOk result (λ bytes. bytes.items ≡ gated journal.now.m first group.now) }
    ensures fits { IfOk result (λ _. AllFit group.now) }
    ensures err { IfErr result (λ e. e ≡ Memory) }
{
    let mut bytes = Vec::new(alloc);
    let mut epoch = first;
    for submitted in group {
        let payload = journal.payload(alloc, epoch, submitted.request, &submitted.batch)?;
        bytes.extend_from_slice(&payload)?;
        bytes.push(OPEN)?;
        epoch += 1;
    }
    Ok(bytes)
}

/// How many bytes a cell has, its gate too.
fn cell_size(journal: &Journal) -> usize
    requires { HasRing journal.now (2 ^ 64) }
    ensures { result ≡ cell_len journal.now.m + 1 }
{
    journal.cell_of(0).len as usize + 1
}

/// How many cells there are from that of an epoch up to the ring's end.
fn cells_to_end(journal: &Journal, epoch: u64) -> usize
    requires { 0 < journal.now.n }
    ensures { result + epoch % journal.now.n ≡ journal.now.n }
{
    let n = u64::from(journal.n);
    (n - epoch % n) as usize
}

/// Writes the cells of `count` epochs from `first` on, of which none lies beyond the ring's end, by one write and no sync: of `bytes` a piece for
/// each, its gate too. For no epoch it writes nothing.
fn write_run<D: Disk>(
    journal: &Journal,
    device: &mut D,
    first: u64,
    count: usize,
    bytes: &[u8],
) -> Result<(), Fault>
    requires ring { HasRing journal.now (D.view device.old).capacity }
    requires run { first % journal.now.n + count ≤ journal.now.n }
    requires whole { count * (cell_len journal.now.m + 1) ≤ length bytes.now }
    ensures device { Calls D.view result device.old device.new }
    ensures crash_safe { (D.view device.old).lawful
        → CrashSafe (ChangesCells journal.now first count) (D.view device.old).state (D.view device.new).state }
    ensures others { (D.view device.old).lawful
        → ChangesCells journal.now first count (D.view device.old).state.bytes (D.view device.new).state.bytes }
    ensures written { OnOk result ((D.view device.old).lawful → HasPieces journal.now (D.view device.new).state.bytes first count bytes.now) }
{
    td_gate::laws::unchanged::<D>();
    if count == 0 {
        return Ok(());
    }
    let _size = device.size();
    let len = count * cell_size(journal);
    device.write(journal.cell_of(first).at, &bytes[..len])
}

/// Writes the cells of `count` epochs from `first` on, with no sync: of `bytes` a piece for each, its gate too. It takes one write, and two where
/// the ring's end lies between them.
fn write_cells<D: Disk>(
    journal: &Journal,
    device: &mut D,
    first: u64,
    count: usize,
    bytes: &[u8],
) -> Result<(), Fault>
    requires ring { HasRing journal.now (D.view device.old).capacity }
    requires few { count ≤ journal.now.n }
    requires whole { length bytes.now ≡ count * (cell_len journal.now.m + 1) }
    requires small { first + count < 2 ^ 64 }
    ensures device { Calls D.view result device.old device.new }
    ensures crash_safe { (D.view device.old).lawful
        → CrashSafe (ChangesCells journal.now first count) (D.view device.old).state (D.view device.new).state }
    ensures others { (D.view device.old).lawful
        → ChangesCells journal.now first count (D.view device.old).state.bytes (D.view device.new).state.bytes }
    ensures written { OnOk result ((D.view device.old).lawful → HasPieces journal.now (D.view device.new).state.bytes first count bytes.now) }
{
    td_journal::laws::cells();
    let _size = device.size();
    let before_end = count.min(cells_to_end(journal, first));
    write_run(journal, device, first, before_end, bytes)?;
    if before_end == count {
        return Ok(());
    }
    let rest = &bytes[before_end * cell_size(journal)..];
    write_run(
        journal,
        device,
        first + before_end as u64,
        count - before_end,
        rest,
    )
}

/// Fills the closed cell of a group's first epoch, and writes the cells of the `count` epochs behind it, with one sync for all.
pub(crate) fn fill_cells<D: Disk>(
    journal: &Journal,
    device: &mut D,
    first: u64,
    count: usize,
    written: Written<'_>,
) -> Result<(), Fault>
    requires ring { HasRing journal.now (D.view device.old).capacity }
    requires few { count + 1 ≤ journal.now.n }
    requires payload { length written.payload.now ≡ cell_len journal.now.m }
    requires whole { length written.others.now ≡ count * (cell_len journal.now.m + 1) }
    requires small { first + count + 1 < 2 ^ 64 }
    ensures device { Calls D.view result device.old device.new }
    ensures crash_safe { (D.view device.old).lawful → IsClosed (cell_of journal.now first) (D.view device.old).state
        → CrashSafe (Spares journal.now first (count + 1)) (D.view device.old).state (D.view device.new).state }
    ensures durable { OnOk result ((D.view device.old).lawful → IsDurable (D.view device.new).state) }
    ensures filled { OnOk result ((D.view device.old).lawful → IsClosed (cell_of journal.now first) (D.view device.old).state
        → IsFilled (cell_of journal.now first) written.entry.payload.now (D.view device.new).state) }
    ensures written { OnOk result ((D.view device.old).lawful → HasPieces journal.now (D.view device.new).state.bytes (first + 1) count written.entry.others.now) }
{
    td_journal::laws::cells();
    let _size = device.size();
    device.write(journal.cell_of(first).at, written.payload)?;
    write_cells(journal, device, first + 1, count, written.others)?;
    device.sync()
}
