//! The replies of a keeper that is driven, and how its workers ended.
use crate::error::StepError;
use crate::keeper_lines::{
    print_group_back, print_next_out, print_number, print_receipt, print_written,
};
use crate::lines::print_entries;
use crate::worker::Replies;
use td_keeper::Reply;
use td_pool::PoolError;
use td_questions::Entry;
use td_stamp::Batch;
use td_store::standing::KeeperError;

/// A line for each reply, as for a call of the keeper; or why it did not begin.
pub(crate) fn print_replies(rt: &impl Print, replies: Replies) -> Result<(), StepError> {
    match replies {
        Ok(replies) => {
            for reply in replies {
                print_reply(rt, reply)?;
            }
            Ok(())
        }
        Err((refusal, _commands)) => print_refused(rt, refusal, None),
    }
}

fn print_reply(rt: &impl Print, reply: Reply) -> Result<(), StepError> {
    match reply {
        Reply::Submitted(epoch) => print_number(rt, "ack", epoch),
        Reply::SubmittedAs(receipt) => print_receipt(rt, receipt),
        Reply::SubmittedAll(first, end) => Ok(println!(rt; "ack from {first} up to {end}")?),
        Reply::Released(count) => print_number(rt, "released", count),
        Reply::Settled => Ok(println!(rt; "settled")?),
        Reply::Collected(count) => print_number(rt, "collected", count),
        Reply::Out(out) => print_next_out(rt, out),
        Reply::CutTaken(epoch) => print_number(rt, "cut", epoch),
        Reply::Answered { epoch, entries } => print_answered(rt, epoch, entries.as_slice()),
        Reply::Written(epoch) => print_written(rt, epoch),
        Reply::Closed => Ok(println!(rt; "closed")?),
        Reply::Refused { error, batch } => print_refused(rt, error, batch),
        Reply::RefusedAll { error, group } => print_group_back(rt, error, &group),
    }
}

/// `answered of EPOCH:` and each entry.
fn print_answered(rt: &impl Print, epoch: u64, entries: &[Entry]) -> Result<(), StepError> {
    print!(rt; "answered of {epoch}:")?;
    for (place, state) in entries {
        print!(rt; " ({} {} {} {})", place.0, place.1, state.a, state.b)?;
    }
    Ok(println!(rt; "")?)
}

/// Why a command was refused, for want of memory too, and the entries that come back.
fn print_refused(
    rt: &impl Print,
    refusal: KeeperError,
    batch: Option<Batch>,
) -> Result<(), StepError> {
    match batch {
        Some(batch) => {
            print!(rt; "refused: {refusal}, back came")?;
            print_entries(rt, &batch)
        }
        None => Ok(println!(rt; "refused: {refusal}")?),
    }
}

/// `worker SHARD refused: ..`, where its work ended by a refusal.
pub(crate) fn print_ended(
    rt: &impl Print,
    shard: u8,
    ended: Result<(), PoolError>,
) -> Result<(), StepError> {
    match ended {
        Ok(()) => Ok(()),
        Err(refusal) => Ok(println!(rt; "worker {shard} refused: {refusal}")?),
    }
}
