//! Calls of a hall, each with its answer.
use crate::catalogue::Catalogue;
use crate::error::StepError;
use crate::hands::Hands;
use crate::lines::{
    print_back, print_cut, print_epochs, print_given, print_hall, print_run, print_taken,
    print_unpassed,
};
use crate::words::{batch_of, number_of, small_and_large};
use std::alloc::Global;
use td_calls::{Closures, Stock};
use td_core::laws::each_is_sound;
use td_core::{Hall, HallError};

/// Does the call of a name and its words, and prints its answer. Refusals: `Syntax`, where there is no such call; `Memory`, after
/// which it may be done again; and those of the hall.
pub(crate) fn hall_call(
    rt: &impl Print,
    alloc: Global,
    hall: &mut Hall<Stock>,
    hands: &mut Hands,
    calls: &Catalogue,
    name: &str,
    words: &str,
) -> Result<(), StepError> {
    match name {
        "release" => release(rt, alloc, hall, words),
        "take" => take(rt, hall, hands, words),
        "run" => print_run(rt, hands.run(calls)?, hands),
        "give" => print_given(rt, hands.give(hall, words == "first")?),
        "rounds" => rounds(rt, hall, hands, calls),
        "drain" => drain(rt, hall, calls),
        "collect" => print_epochs(rt, hall.collect()?.as_slice()),
        "cut" => print_cut(rt, &hall.cut()?),
        "cut_at" => cut_at(rt, hall, words),
        "close" => Ok(hall.close()),
        "unpassed" => print_unpassed(rt, hall.unpassed()),
        "tell" => print_hall(rt, hall),
        _ => Err(StepError::Syntax),
    }
}

/// Releases the batch of entries that a text writes, and prints its epoch; where it is refused, the entries that come back.
fn release(
    rt: &impl Print,
    alloc: Global,
    hall: &mut Hall<Stock>,
    text: &str,
) -> Result<(), StepError> {
    let batch = batch_of(alloc, text)?;
    if !hall.plan().accepts(&batch) {
        return Ok(println!(rt; "refused: no such input")?);
    }
    match hall.release(batch) {
        Ok(epoch) => Ok(println!(rt; "epoch {epoch}")?),
        Err((HallError::Memory, _)) => Err(StepError::Memory),
        Err((error, batch)) => print_back(rt, error, &batch),
    }
}

/// `SHARD PICK`: takes a task of a shard.
fn take(
    rt: &impl Print,
    hall: &mut Hall<Stock>,
    hands: &mut Hands,
    words: &str,
) -> Result<(), StepError> {
    let (shard, pick) = small_and_large(words).ok_or(StepError::Syntax)?;
    let taken = hands.take(hall, shard, pick)?;
    print_taken(rt, taken, hands)
}

/// Does rounds, while there are tasks.
fn rounds(
    rt: &impl Print,
    hall: &mut Hall<Stock>,
    hands: &mut Hands,
    calls: &Catalogue,
) -> Result<(), StepError> {
    hands.rounds(hall, calls)?;
    Ok(println!(rt; "nothing left")?)
}

/// Drains a hall, if there are closures for its plan.
fn drain(rt: &impl Print, hall: &mut Hall<Stock>, calls: &Catalogue) -> Result<(), StepError> {
    if let Err(error) = calls.fits(hall.plan()) {
        return Ok(println!(rt; "refused: {error}")?);
    }
    let drained = hall.drain::<Catalogue>(calls)?;
    Ok(println!(rt;
        "drained {} messages, {} notes",
        drained.messages, drained.notes
    )?)
}

/// Cuts at an epoch, if it is one after which a hall may be cut.
fn cut_at(rt: &impl Print, hall: &mut Hall<Stock>, words: &str) -> Result<(), StepError> {
    each_is_sound(hall);
    let epoch = number_of(words)?;
    let base = hall.base().0;
    if epoch < base || epoch - base > hall.inputs().len() as u64 {
        return Ok(println!(rt; "refused: no epoch of the hall")?);
    }
    print_cut(rt, &hall.cut_at(epoch)?)
}
