//! What is printed of a disk.
use crate::error::StepError;
use td_console::Fault;
use td_stamp::{Batch, States};
use td_store::standing::KeeperError;

/// `kept EPOCH:` and the states; and for each epoch after it `epoch EPOCH:` and its entries.
pub(crate) fn print_opening(
    rt: &impl Print,
    opening: Result<(u64, States, Vec<Batch>), KeeperError>,
) -> Result<(), StepError> {
    let (kept, states, batches) = opening?;
    print!(rt; "kept {kept}:")?;
    print_states(rt, &states)?;
    let mut epoch = kept;
    for batch in &batches {
        epoch = epoch.saturating_add(1);
        print!(rt; "epoch {epoch}:")?;
        print_entries(rt, batch)?;
    }
    Ok(())
}

/// ` (VERTEX KEY A B)` for each, and the end of the line.
fn print_states(rt: &impl Print, states: &States) -> Result<(), StepError> {
    for ((vertex, key), state) in states.list() {
        print!(rt; " ({vertex} {key} {} {})", state.a, state.b)?;
    }
    Ok(println!(rt; "")?)
}

/// ` (INPUT KEY VAL)` for each, and the end of the line.
fn print_entries(rt: &impl Print, batch: &Batch) -> Result<(), StepError> {
    for entry in batch.list() {
        print!(rt; " ({} {} {})", entry.input, entry.rec.key, entry.rec.val)?;
    }
    Ok(println!(rt; "")?)
}

/// `refused: ..`, where a feed ended by a fault.
pub(crate) fn print_ended(rt: &impl Print, ended: Result<(), Fault>) -> Result<(), StepError> {
    match ended {
        Ok(()) => Ok(()),
        Err(fault) => Ok(println!(rt; "refused: {fault}")?),
    }
}
