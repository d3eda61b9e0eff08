//! The answer to a question.
ghost use Rattle.std.specs.Prelude.{◌≡◌, ◌≤◌, ◌<◌, length, IfOk, IfSome, IsSome};
ghost use Rattle.std.specs.Bool.{OnTrue, OnFalse};
ghost use Rattle.td_questions.specs.Asked.{answer_to, at_most, at_percentile, kept_from, place_of};
ghost use Rattle.td_questions.specs.declared.question.Wanted.TheVariants.{Get};

use crate::question::Wanted;
use crate::ranks::{Order, first_entries};
use std::alloc::Global;
use td_shard::{StatesAfter, StatesInOrder};
use td_stamp::{StampError as QuestionError, State};

/// A state at its vertex and key.
pub type Entry = ((u8, u64), State);

/// The entries that answer what is wanted of a vertex, of the states after an epoch. The state of a key costs a look-up. A list costs
/// O(v log v) with v keys for which folds left something since the base, a look-up for each state up to the last one that it has, and
/// memory for those v keys. The others go through the states as they lie, and each state costs a look-up among those v keys. Each takes
/// memory for the entries of the answer; a percentile, for all entries of the vertex. Refusal: `Memory`.
pub fn answer(
    alloc: Global,
    states: &StatesAfter<'_>,
    vertex: u8,
    wanted: Wanted,
) -> Result<Vec<Entry>, QuestionError>
    ensures { IfOk result (λ entries. entries.items ≡ answer_to vertex wanted states.now) }
{
    match wanted {
        Wanted::Get(key) => entry_at(alloc, states, vertex, key),
        Wanted::Range(from, count) => {
            let states = states.in_order()?;
            entries_from(alloc, &states, vertex, from, count)
        }
        Wanted::Top(count) => {
            first_entries(alloc, states, vertex, Order::FromGreatest, Some(count))
        }
        Wanted::Least(count) => {
            first_entries(alloc, states, vertex, Order::FromLeast, Some(count))
        }
        Wanted::Rank(percent) => {
            let all = first_entries(alloc, states, vertex, Order::FromLeast, None)?;
            at_percentile(alloc, all.as_slice(), percent)
        }
    }
}

/// The state of a key, where it has one. Refusal: `Memory`.
fn entry_at(
    alloc: Global,
    states: &StatesAfter<'_>,
    vertex: u8,
    key: u64,
) -> Result<Vec<Entry>, QuestionError>
    ensures { IfOk result (λ entries. entries.items ≡ answer_to vertex (Get key) states.now) }
{
    let mut entries = Vec::new(alloc);
    if let Some(state) = states.get(vertex, key) {
        entries.push(((vertex, key), state))?;
    }
    Ok(entries)
}

/// The entries of a vertex from a key on, so many where a number is given: it goes no further than these. Refusal: `Memory`.
fn entries_from(
    alloc: Global,
    states: &StatesInOrder<'_>,
    vertex: u8,
    from: u64,
    count: Option<u64>,
) -> Result<Vec<Entry>, QuestionError>
    ensures { IfOk result (λ entries. entries.items ≡ at_most count (kept_from vertex from states.now)) }
{
    let mut entries = Vec::new(alloc);
    for (place, state) in states.list() {
        if is_full(count, entries.len()) {
            return Ok(entries);
        }
        if place.0 == vertex && from <= place.1 {
            entries.push((place, state))?;
        }
    }
    Ok(entries)
}

/// Whether so many are all that are wanted.
fn is_full(count: Option<u64>, len: usize) -> bool
    ensures full { OnTrue result (IfSome count (λ most. most ≤ len)) }
    ensures some { OnTrue result (IsSome count) }
    ensures more { OnFalse result (IfSome count (λ most. len < most)) }
{
    match count {
        Some(most) => most <= len as u64,
        None => false,
    }
}

/// The entry at a percentile, if there is one. Refusal: `Memory`.
fn at_percentile(
    alloc: Global,
    entries: &[Entry],
    percent: u64,
) -> Result<Vec<Entry>, QuestionError>
    ensures { IfOk result (λ alone. alone.items ≡ at_percentile percent entries.now) }
{
    let place = place_of(percent, entries.len());
    let mut alone = Vec::new(alloc);
    if let Some(entry) = entries.get(place) {
        alone.push(*entry)?;
    }
    Ok(alone)
}

/// The place of a percentile among so many.
fn place_of(percent: u64, count: usize) -> usize
    ensures { result ≡ place_of percent count }
{
    let hundredths = u128::from(percent.min(100)) * count as u128;
    let up_to = ((hundredths + 99) / 100) as usize;
    up_to.saturating_sub(1)
}
