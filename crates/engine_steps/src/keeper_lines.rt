//! The answers of a keeper.
use crate::error::StepError;
use crate::lines::{print_entries, print_epoch, print_none, print_states};
use td_keeper::{Group, GroupError, Receipt};
use td_stamp::{Batch, EpochOut, States};
use td_store::standing::KeeperError;

/// `kept EPOCH:` and the states; and for each epoch after it `epoch EPOCH:` and its entries.
pub(crate) fn print_opening(
    rt: &impl Print,
    opening: Result<(u64, States, Vec<Batch>), KeeperError>,
) -> Result<(), StepError> {
    let (kept, states, batches) = opening?;
    print!(rt; "kept {kept}:")?;
    print_states(rt, &states)?;
    let mut epoch = kept;
    for batch in &batches {
        epoch = epoch.saturating_add(1);
        print!(rt; "epoch {epoch}:")?;
        print_entries(rt, batch)?;
    }
    Ok(())
}

/// `ack EPOCH`; or why the batch is refused, and the entries that come back.
pub(crate) fn print_submitted(
    rt: &impl Print,
    submitted: Result<u64, (KeeperError, Batch)>,
) -> Result<(), StepError> {
    match submitted {
        Ok(epoch) => Ok(println!(rt; "ack {epoch}")?),
        Err(refused) => print_back(rt, refused),
    }
}

/// `ack EPOCH`, or `already LAST`; or why the batch is refused, and the entries that come back.
pub(crate) fn print_received(
    rt: &impl Print,
    received: Result<Receipt, (KeeperError, Batch)>,
) -> Result<(), StepError> {
    match received {
        Ok(receipt) => print_receipt(rt, receipt),
        Err(refused) => print_back(rt, refused),
    }
}

/// `ack EPOCH`, or `already LAST`.
pub(crate) fn print_receipt(rt: &impl Print, receipt: Receipt) -> Result<(), StepError> {
    match receipt {
        Receipt::New(epoch) => Ok(println!(rt; "ack {epoch}")?),
        Receipt::Already(last) => Ok(println!(rt; "already {last}")?),
    }
}

/// Why a batch is refused, but for want of memory, and the entries that come back.
fn print_back(rt: &impl Print, refused: (KeeperError, Batch)) -> Result<(), StepError> {
    match refused {
        (KeeperError::Memory, _batch) => Err(StepError::Memory),
        (refusal, batch) => {
            print!(rt; "refused: {refusal}, back came")?;
            print_entries(rt, &batch)
        }
    }
}

/// `ack from EPOCH`; or why the group is refused, but for want of memory, and how many batches come back.
pub(crate) fn print_all_submitted(
    rt: &impl Print,
    submitted: Result<u64, (GroupError, Group)>,
) -> Result<(), StepError> {
    match submitted {
        Ok(first) => Ok(println!(rt; "ack from {first}")?),
        Err((GroupError::Keeper(KeeperError::Memory), _group)) => Err(StepError::Memory),
        Err((error, group)) => print_group_back(rt, error, &group),
    }
}

/// Why a group is refused, and how many batches come back.
pub(crate) fn print_group_back(
    rt: &impl Print,
    error: GroupError,
    group: &Group,
) -> Result<(), StepError> {
    let count = group.as_slice().len();
    Ok(println!(rt; "refused: {error}, back came {count}")?)
}

/// `upgraded`, or `none` where the disk was of version 2.
pub(crate) fn print_upgraded(rt: &impl Print, upgraded: bool) -> Result<(), StepError> {
    let answer = if upgraded { "upgraded" } else { "none" };
    Ok(println!(rt; "{answer}")?)
}

/// What was done, and how many, or which epoch.
pub(crate) fn print_number(rt: &impl Print, done: &str, number: u64) -> Result<(), StepError> {
    Ok(println!(rt; "{done} {number}")?)
}

/// `epoch EPOCH:` and its outputs; or `none`.
pub(crate) fn print_next_out(rt: &impl Print, out: Option<EpochOut>) -> Result<(), StepError> {
    match out {
        Some(out) => print_epoch(rt, &out),
        None => print_none(rt),
    }
}

/// `written EPOCH`, or `none`.
pub(crate) fn print_written(rt: &impl Print, written: Option<u64>) -> Result<(), StepError> {
    match written {
        Some(epoch) => print_number(rt, "written", epoch),
        None => print_none(rt),
    }
}
