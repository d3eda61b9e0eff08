//! Calls of a gated region, each with its answer.
ghost use Rattle.std.specs.Prelude.{◌+◌, ◌≤◌, IsTrue};

use crate::error::StepError;
use crate::words::{number_of, numbered};
use std::alloc::Global;
use td_disk::Disk;
use td_gate::Region;

/// Does the call of these words, `put AT TEXT` or `get AT LEN`, and prints its answer. Refusals: `Syntax`, where they are no call, or
/// the disk ends before the region does; `Memory`; and those of the region.
pub(crate) fn region_call<D: Disk>(
    rt: &impl Print,
    alloc: Global,
    device: &mut D,
    text: &str,
) -> Result<(), StepError> {
    let (name, words) = text.split_once(' ').ok_or(StepError::Syntax)?;
    let (at, word) = numbered(words).ok_or(StepError::Syntax)?;
    match name {
        "put" => put(rt, device, at, word.as_bytes()),
        "get" => {
            let len = number_of(word)?;
            get(rt, alloc, device, Region { at, len })
        }
        _ => Err(StepError::Syntax),
    }
}

/// Puts a payload into the region that begins there, and prints `put`, or why not.
fn put<D: Disk>(rt: &impl Print, device: &mut D, at: u64, payload: &[u8]) -> Result<(), StepError> {
    let region = Region {
        at,
        len: payload.len() as u64,
    };
    if !has_region(device, region) {
        return Err(StepError::Syntax);
    }
    match region.put(device, payload) {
        Ok(()) => Ok(println!(rt; "put")?),
        Err(fault) => Ok(println!(rt; "refused: {fault}")?),
    }
}

/// Prints the payload of a region as text, or `closed`.
fn get<D: Disk>(
    rt: &impl Print,
    alloc: Global,
    device: &mut D,
    region: Region,
) -> Result<(), StepError> {
    if !has_region(device, region) {
        return Err(StepError::Syntax);
    }
    match region.get(alloc, device)? {
        Some(payload) => {
            let text = String::from_utf8_lossy(alloc, &payload)?;
            Ok(println!(rt; "{text}")?)
        }
        None => Ok(println!(rt; "closed")?),
    }
}

/// Whether a disk has all of a region, its gate too.
fn has_region<D: Disk>(device: &D, region: Region) -> bool
    ensures { IsTrue result → region.at + region.len + 1 ≤ (D.view device.now).capacity }
{
    let size = device.size();
    region.at < size && region.len < size - region.at
}
