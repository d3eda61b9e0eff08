//! Calls of a ring of cells, each with its answer.
ghost use Rattle.std.specs.Prelude.{◌<◌, ◌≤◌, IsTrue};
ghost use Rattle.td_journal.specs.Steps.{HasRing};

use crate::error::StepError;
use crate::inputs::inputs_of;
use crate::lines::print_entries;
use crate::words::{batch_of, number_of, numbered};
use std::alloc::Global;
use td_disk::Disk;
use td_journal::{Journal, Submitted};
use td_plan::Plan;
use td_stamp::EPOCHS_END;

/// Does the call of these words, and prints its answer. Refusals: `NoRing`; `Syntax`, where they are no call, or ask for what there
/// cannot be; `Memory`; and those of the ring.
pub(crate) fn ring_call<D: Disk>(
    rt: &impl Print,
    alloc: Global,
    plan: &Plan,
    device: &mut D,
    ring: &mut Option<Journal>,
    text: &str,
) -> Result<(), StepError> {
    let (name, words) = text.split_once(' ').ok_or(StepError::Syntax)?;
    match name {
        "open" => open(ring, words),
        "append" => append(rt, alloc, device, *ring_of(ring)?, words),
        "keep" => keep(ring_of(ring)?, number_of(words)?),
        "read_from" => {
            let inputs = inputs_of(alloc, plan)?;
            read_from(rt, alloc, device, *ring_of(ring)?, &inputs, words)
        }
        _ => Err(StepError::Syntax),
    }
}

/// `AT M N`: N cells of M records from there on, with no epoch kept.
fn open(ring: &mut Option<Journal>, words: &str) -> Result<(), StepError> {
    let (at, words) = numbered(words).ok_or(StepError::Syntax)?;
    let (m, n) = words.split_once(' ').ok_or(StepError::Syntax)?;
    let m = m.parse().ok().ok_or(StepError::Syntax)?;
    let n = n.parse().ok().ok_or(StepError::Syntax)?;
    *ring = Some(Journal { at, m, n, kept: 0 });
    Ok(())
}

/// The ring that was opened last.
fn ring_of(ring: &mut Option<Journal>) -> Result<&mut Journal, StepError> {
    match ring {
        Some(ring) => Ok(ring),
        None => Err(StepError::NoRing),
    }
}

/// `EPOCH REQUEST INPUT KEY VAL, ..`: puts a batch into the cell of an epoch, and prints `appended`.
fn append<D: Disk>(
    rt: &impl Print,
    alloc: Global,
    device: &mut D,
    ring: Journal,
    words: &str,
) -> Result<(), StepError> {
    let (epoch, words) = numbered(words).ok_or(StepError::Syntax)?;
    let (request, entries) = numbered(words).ok_or(StepError::Syntax)?;
    if !has_ring(device, ring) || epoch <= ring.kept || EPOCHS_END <= epoch {
        return Err(StepError::Syntax);
    }
    let batch = batch_of(alloc, entries)?;
    ring.append(alloc, device, epoch, request, &batch)?;
    Ok(println!(rt; "appended")?)
}

/// From now on the epochs up to this one may be overwritten.
fn keep(ring: &mut Journal, epoch: u64) -> Result<(), StepError> {
    if epoch < ring.kept {
        return Err(StepError::Syntax);
    }
    ring.keep(epoch);
    Ok(())
}

/// `CHECKPOINT FLOOR`, or without the floor, as in version 1 of the format: prints what was submitted as the epochs after a
/// checkpoint's.
fn read_from<D: Disk>(
    rt: &impl Print,
    alloc: Global,
    device: &mut D,
    ring: Journal,
    inputs: &[u8],
    words: &str,
) -> Result<(), StepError> {
    let (checkpoint, floor) = checkpoint_of(words).ok_or(StepError::Syntax)?;
    if !has_ring(device, ring) || EPOCHS_END <= checkpoint {
        return Err(StepError::Syntax);
    }
    let told = ring.read_from(alloc, device, inputs, checkpoint, floor)?;
    print_told(rt, checkpoint, told.as_slice())
}

fn checkpoint_of(words: &str) -> Option<(u64, Option<u64>)> {
    let Some((checkpoint, floor)) = words.split_once(' ') else {
        return Some((words.parse().ok()?, None));
    };
    let floor = floor.parse().ok()?;
    Some((checkpoint.parse().ok()?, Some(floor)))
}

/// Whether the numbers of a ring keep their limits, and a disk has all of its cells.
fn has_ring<D: Disk>(device: &D, ring: Journal) -> bool
    ensures ring { IsTrue result → HasRing ring (D.view device.now).capacity }
    ensures few { IsTrue result → ring.n ≤ 65536 }
{
    if ring.n == 0 || ring.n > 65_536 || ring.m > 65_536 {
        return false;
    }
    let cell = 24 + 24 * u64::from(ring.m) + 1;
    let Some(bytes) = u64::from(ring.n).checked_mul(cell) else {
        return false;
    };
    match ring.at.checked_add(bytes) {
        Some(end) => end <= device.size(),
        None => false,
    }
}

/// `epoch EPOCH, request REQUEST:` and its entries, for each; or `none`.
fn print_told(rt: &impl Print, checkpoint: u64, told: &[Submitted]) -> Result<(), StepError> {
    if told.is_empty() {
        println!(rt; "none")?;
    }
    let mut epoch = checkpoint;
    for submitted in told {
        epoch = epoch.saturating_add(1);
        print!(rt; "epoch {epoch}, request {}:", submitted.request)?;
        print_entries(rt, &submitted.batch)?;
    }
    Ok(())
}
