//! What was submitted as an epoch, and the payload of the cell that bears it: made, and looked at. Which request numbers may come.
ghost use Rattle.std.specs.Prelude.{◌≡◌, ◌++◌, ◌≤◌, flat_map, length, OnOk, IfOk, ◌==◌, ◌+◌, true, false, drop, IfSome, IfNone};
ghost use Rattle.td_gate.specs.Reading.{Each};
ghost use Rattle.td_journal.specs.Cell.{entry_bytes, cell_bytes, FitsEntry, entry_in, cell_len};
ghost use Rattle.std.specs.List.{list_any};
ghost use Rattle.td_journal.specs.Parsed.{may_come_after, IsKeptBy};
ghost use Rattle.td_journal.specs.Counts.{greatest_counted};
ghost use Rattle.td_journal.specs.Numbers.{greatest, may_come, raised};

use crate::kept::Keeping;
use std::alloc::{AllocError, Global};
use td_gate::fields::{FRONT_LEN, Front, i64_at, named, push_i64, push_u64, u64_at};
use td_stamp::{Batch, Entry, Rec};

/// How many bytes a record has.
pub(crate) const ENTRY_LEN: usize = 24;

/// Puts a record at the end.
fn push_entry(payload: &mut Vec<u8>, entry: Entry) -> Result<(), AllocError>
    ensures ok { OnOk result (payload.new.items ≡ payload.old.items ++ entry_bytes entry) }
    ensures fits { FitsEntry entry }
{
    push_u64(payload, u64::from(entry.input))?;
    push_u64(payload, entry.rec.key)?;
    push_i64(payload, entry.rec.val)
}

/// Puts the records of a batch at the end.
fn push_entries(payload: &mut Vec<u8>, batch: &Batch) -> Result<(), AllocError>
    ensures ok { OnOk result (payload.new.items ≡ payload.old.items ++ flat_map entry_bytes batch.now) }
    ensures fits { OnOk result (Each FitsEntry batch.now) }
{
    for entry in batch.list() {
        push_entry(payload, entry)?;
    }
    Ok(())
}

/// What is written for an epoch's request and batch into a cell of `m` records.
pub(crate) fn cell_payload(
    alloc: Global,
    m: u32,
    epoch: u64,
    request: u64,
    batch: &Batch,
) -> Result<Vec<u8>, AllocError>
    requires limit { m ≤ 65536 }
    requires few { length batch.now ≤ m }
    ensures ok { IfOk result (λ payload. payload.items ≡ cell_bytes m epoch request batch.now) }
    ensures fits { IfOk result (λ _. Each FitsEntry batch.now) }
{
    let len = FRONT_LEN + ENTRY_LEN * m as usize;
    let mut payload = Vec::with_capacity(alloc, len)?;
    let front = Front {
        epoch,
        request,
        count: batch.len() as u32,
        zeros: 0,
    };
    front.push(&mut payload)?;
    push_entries(&mut payload, batch)?;
    payload.resize(len, 0)?;
    Ok(payload)
}

/// The record at a place of a payload, if it names an input.
fn entry_at(inputs: &[u8], payload: &[u8], at: usize) -> Option<Entry>
    requires { at + 24 ≤ length payload.now }
    ensures some { IfSome result (λ entry. entry ≡ entry_in (drop at payload.now)) }
    ensures named { IfSome result (λ entry. list_any (λ v. v == entry.input) inputs.now ≡ true) }
    ensures none { IfNone result (list_any (λ v. v == (entry_in (drop at payload.now)).input) inputs.now ≡ false) }
{
    let Some(input) = named(inputs, u64_at(payload, at)) else {
        return None;
    };
    let rec = Rec {
        key: u64_at(payload, at + 8),
        val: i64_at(payload, at + 16),
    };
    Some(Entry { input, rec })
}

/// Whether a record may come after the last one before it.
fn goes_on(last: Option<Entry>, entry: &Entry) -> bool
    ensures { result ≡ may_come_after last entry.now }
{
    td_stamp::laws::orders();
    match last {
        Some(last) => last.cmp(entry).is_le(),
        None => true,
    }
}

/// What is kept of a payload, if it is valid after epochs with this floor. It refuses want of memory alone. A request number
/// belongs to a cell's validity, by the floor.
pub(crate) fn kept_by<K: Keeping>(
    alloc: Global,
    inputs: &[u8],
    floor: Option<u64>,
    m: u32,
    payload: &[u8],
) -> Result<Option<K::Kept>, AllocError>
    requires limit { m ≤ 65536 }
    requires len { length payload.now ≡ cell_len m }
    ensures { IfOk result (λ found. IsKeptBy K.kept_of inputs.now floor m payload.now found) }
{
    let front = Front::read(payload);
    if !is_allowed(floor, front.request) {
        return Ok(None);
    }
    if !front.is_plain(m) {
        return Ok(None);
    }
    let mut keeping = K::begin(alloc, front.count)?;
    let mut last = None;
    for i in 0..front.count {
        let at = FRONT_LEN + ENTRY_LEN * i as usize;
        let Some(entry) = entry_at(inputs, payload, at) else {
            return Ok(None);
        };
        if !goes_on(last, &entry) {
            return Ok(None);
        }
        keeping.take(entry)?;
        last = Some(entry);
    }
    Ok(Some(keeping.end(alloc, &front)))
}

/// A batch, and the number of the request that brought it: 0 for none.
#[derive(Debug, Drop)]
pub struct Submitted {
    pub request: u64,
    pub batch: Batch,
}

/// The same, with how many records the batch has in place of these.
#[derive(Clone, Copy, Debug, PartialEq, Eq)]
pub struct Counts {
    pub request: u64,
    pub records: u32,
}

/// Whether a cell may bear a request number after those of the epochs before it: any number 0, and in version 2 of the
/// format, which gives a floor, one above it.
pub(crate) fn is_allowed(floor: Option<u64>, request: u64) -> bool
    ensures { result ≡ may_come floor request }
{
    match floor {
        Some(greatest) => request == 0 || greatest < request,
        None => request == 0,
    }
}

/// The floor of the epochs after one with this number.
pub(crate) fn floor_past(floor: Option<u64>, request: u64) -> Option<u64>
    ensures { result ≡ raised floor request }
{
    match floor {
        Some(greatest) => Some(greatest.max(request)),
        None => None,
    }
}

/// The greatest of a request number and those of some epochs.
pub fn greatest_request(last: u64, submitted: &[Submitted]) -> u64
    ensures { result ≡ greatest last submitted.now }
{
    let mut most = last;
    for each in submitted {
        most = most.max(each.request);
    }
    most
}

/// The same of epochs of which the counts alone are known.
pub fn greatest_counted(last: u64, counts: &[Counts]) -> u64
    ensures { result ≡ greatest_counted last counts.now }
{
    let mut most = last;
    for counted in counts {
        most = most.max(counted.request);
    }
    most
}
