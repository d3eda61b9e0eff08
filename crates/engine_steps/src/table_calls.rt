//! Calls of a table of active pointstamps, each with its answer, and whether one pointstamp could result in another.
ghost use Rattle.std.specs.Prelude.{IsTrue};
ghost use Rattle.std.specs.List.{AllByRecursion};
ghost use Rattle.td_reach.specs.Paths.{IsOf};
ghost use Rattle.td_progress.specs.Bag.{input_stamp};

use crate::error::StepError;
use crate::inputs::inputs_of;
use crate::stamp_words::{pair_of, stamp_of};
use crate::words::number_of;
use std::alloc::Global;
use td_plan::Plan;
use td_progress::Table;
use td_reach::{Place, Reach, Stamp};
use td_stamp::Time;

/// Does the call of these words, and prints its answer. Refusals: `NoTable`; `Syntax`, where they are no call, or no pointstamp;
/// and `Memory`.
pub(crate) fn table_call(
    rt: &impl Print,
    alloc: Global,
    plan: &Plan,
    table: &mut Option<Table>,
    text: &str,
) -> Result<(), StepError> {
    let (name, words) = text.split_once(' ').ok_or(StepError::Syntax)?;
    match name {
        "open" => open(alloc, plan, table, words),
        "add" => add(rt, table_of(table)?, words),
        "take_off" => take_off(rt, table_of(table)?, words),
        "precursors" => print_precursors(rt, table_of(table)?, words),
        "in_frontier" => print_in_frontier(rt, table_of(table)?, words),
        _ => Err(StepError::Syntax),
    }
}

/// Opens a table, in the place of one that ends.
fn open(
    alloc: Global,
    plan: &Plan,
    table: &mut Option<Table>,
    words: &str,
) -> Result<(), StepError> {
    let fresh = opened(alloc, plan, number_of(words)?)?;
    *table = Some(fresh);
    Ok(())
}

/// The table that was opened last.
fn table_of(table: &mut Option<Table>) -> Result<&mut Table, StepError> {
    match table {
        Some(table) => Ok(table),
        None => Err(StepError::NoTable),
    }
}

/// The table of a plan whose inputs may be given records of this epoch.
fn opened(alloc: Global, plan: &Plan, first: u64) -> Result<Table, StepError> {
    let inputs = inputs_of(alloc, plan)?;
    let reach = Reach::of(alloc, plan)?;
    if !has_each(&reach, &inputs, first) {
        return Err(StepError::Unlike);
    }
    Ok(Table::new(alloc, reach, &inputs, first)?)
}

/// Whether a plan has the pointstamp of each of these inputs.
fn has_each(reach: &Reach, inputs: &[u8], first: u64) -> bool
    ensures { IsTrue result → AllByRecursion (λ v. IsOf reach.now (input_stamp first v)) inputs.now }
{
    let mut left = inputs;
    while let Some((input, later)) = left.split_first() {
        if !reach.has(&Stamp {
            time: Time::new(first),
            place: Place::Vertex(*input),
        }) {
            return false;
        }
        left = later;
    }
    true
}

/// One pointstamp more, if the plan has it.
fn add(rt: &impl Print, table: &mut Table, words: &str) -> Result<(), StepError> {
    let stamp = stamp_of(words).ok_or(StepError::Syntax)?;
    if !table.has(&stamp) {
        return print_none_such(rt);
    }
    if table.occurrences(&stamp) == u128::MAX {
        return Err(StepError::Unlike);
    }
    Ok(table.add(&stamp)?)
}

/// One pointstamp less, if it is active.
fn take_off(rt: &impl Print, table: &mut Table, words: &str) -> Result<(), StepError> {
    let stamp = stamp_of(words).ok_or(StepError::Syntax)?;
    if table.occurrences(&stamp) == 0 {
        return Ok(println!(rt; "refused: not active")?);
    }
    table.take_off(&stamp);
    Ok(())
}

/// How many other active pointstamps could result in one, or `none` where it is not active.
fn print_precursors(rt: &impl Print, table: &Table, words: &str) -> Result<(), StepError> {
    let stamp = stamp_of(words).ok_or(StepError::Syntax)?;
    if !table.has(&stamp) {
        return print_none_such(rt);
    }
    match table.precursors(&stamp) {
        Some(count) => Ok(println!(rt; "precursors {count}")?),
        None => Ok(println!(rt; "none")?),
    }
}

/// Whether a pointstamp is in the frontier.
fn print_in_frontier(rt: &impl Print, table: &Table, words: &str) -> Result<(), StepError> {
    let stamp = stamp_of(words).ok_or(StepError::Syntax)?;
    if !table.has(&stamp) {
        return print_none_such(rt);
    }
    print_answer(rt, table.in_frontier(&stamp))
}

/// Prints whether the first of two pointstamps of a plan could result in the second.
pub(crate) fn could(
    rt: &impl Print,
    alloc: Global,
    plan: &Plan,
    words: &str,
) -> Result<(), StepError> {
    let (from, to) = pair_of(words).ok_or(StepError::Syntax)?;
    let reach = Reach::of(alloc, plan)?;
    if !reach.has(&from) || !reach.has(&to) {
        return print_none_such(rt);
    }
    print_answer(rt, reach.could(&from, &to))
}

/// That a plan has no such pointstamp.
fn print_none_such(rt: &impl Print) -> Result<(), StepError> {
    Ok(println!(rt; "refused: no such pointstamp")?)
}

/// `yes` or `no`.
fn print_answer(rt: &impl Print, answer: bool) -> Result<(), StepError> {
    let answer = if answer { "yes" } else { "no" };
    Ok(println!(rt; "{answer}")?)
}
