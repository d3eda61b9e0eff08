//! Calls of a keeper, each with its answer.
use crate::error::StepError;
use crate::keeper_lines::{
    print_all_submitted, print_next_out, print_number, print_received, print_submitted,
    print_upgraded, print_written,
};
use crate::watch::detach;
use crate::words::{batch_of, group_of, numbered};
use std::alloc::Global;
use td_calls::Law;
use td_core::Hall;
use td_disk::Disk;
use td_keeper::Keeper;
use td_stamp::States;

/// Does the call of a name and its words, and prints its answer. Refusals: `Syntax`, where there is no such call; `Memory`, after
/// which it may be done again; and those of the keeper.
pub(crate) fn keeper_call<D: Disk, L: Law>(
    rt: &impl Print,
    alloc: Global,
    keeper: &mut Keeper<D, L>,
    name: &str,
    words: &str,
) -> Result<(), StepError> {
    match (name, words) {
        ("submit", entries) => submit(rt, alloc, keeper, entries),
        ("submit_as", words) => submit_as(rt, alloc, keeper, words),
        ("submit_all", group) => submit_all(rt, alloc, keeper, group),
        ("upgrade", "") => print_upgraded(rt, keeper.upgrade()?),
        ("numbers", "") => numbers(rt, keeper),
        ("next_out", "") => print_next_out(rt, keeper.next_out()),
        ("write_cut", "") => print_written(rt, keeper.write_cut()?),
        ("detach", "") => detach(rt, keeper),
        _ => Err(StepError::Syntax),
    }
}

/// Does the call of a keeper on a hall that a word names, `release`, `collect` or `cut`, and prints its answer.
pub(crate) fn keeper_and_hall<D: Disk, L: Law>(
    rt: &impl Print,
    keeper: &mut Keeper<D, L>,
    hall: &mut Hall<L>,
    word: &str,
) -> Result<(), StepError> {
    match word {
        "release" => print_number(rt, "released", keeper.release(hall)?),
        "collect" => print_number(rt, "collected", keeper.collect(hall)?),
        "cut" => print_number(rt, "cut", keeper.cut(hall)?),
        _ => Err(StepError::Syntax),
    }
}

/// The epoch and the states of the checkpoint.
pub(crate) fn checkpoint<D: Disk, L: Law>(
    keeper: &Keeper<D, L>,
) -> Result<(u64, States), StepError> {
    let (epoch, states, _batches) = keeper.opening()?;
    Ok((epoch, states))
}

/// Submits the batch of entries that a text writes.
fn submit<D: Disk, L: Law>(
    rt: &impl Print,
    alloc: Global,
    keeper: &mut Keeper<D, L>,
    text: &str,
) -> Result<(), StepError> {
    print_submitted(rt, keeper.submit(batch_of(alloc, text)?))
}

/// Submits under a request number the batch of entries that a text writes.
fn submit_as<D: Disk, L: Law>(
    rt: &impl Print,
    alloc: Global,
    keeper: &mut Keeper<D, L>,
    words: &str,
) -> Result<(), StepError> {
    let (request, entries) = numbered(words).ok_or(StepError::Syntax)?;
    print_received(rt, keeper.submit_as(request, batch_of(alloc, entries)?))
}

/// Submits at once the batches that a text writes, each with its request number.
fn submit_all<D: Disk, L: Law>(
    rt: &impl Print,
    alloc: Global,
    keeper: &mut Keeper<D, L>,
    text: &str,
) -> Result<(), StepError> {
    print_all_submitted(rt, keeper.submit_all(group_of(alloc, text)?))
}

/// Prints the last request number, and the version of the format.
fn numbers<D: Disk, L: Law>(rt: &impl Print, keeper: &Keeper<D, L>) -> Result<(), StepError> {
    Ok(println!(rt;
        "last {}, version {}",
        keeper.last_request(),
        keeper.version()
    )?)
}
