//! What the words of commands say.
use crate::error::StepError;
use std::alloc::Global;
use std::num::ParseIntError;
use std::str::{FromStr, SplitWhitespace};
use td_disk::Fill;
use td_journal::Submitted;
use td_keeper::Group;
use td_stamp::{Batch, Entry, Rec, State};

/// The lines before a line `end`, and those after it.
pub(crate) fn until_end(text: &str) -> Option<(&str, &str)> {
    match text.strip_prefix("end\n") {
        Some(rest) => Some(("", rest)),
        None => text.split_once("\nend\n"),
    }
}

/// The vertex, the key and the state of the words `VERTEX KEY A B`.
pub(crate) fn state_of(text: &str) -> Option<(u8, u64, State)> {
    let mut words = text.split_whitespace();
    let (vertex, key) = (next_number(&mut words)?, next_number(&mut words)?);
    let (a, b) = (next_number(&mut words)?, next_number(&mut words)?);
    Some((vertex, key, State { a, b }))
}

/// A shard, or how many, and the number behind it.
pub(crate) fn small_and_large(text: &str) -> Option<(u8, u64)> {
    let (small, large) = text.split_once(' ')?;
    Some((small.parse().ok()?, large.parse().ok()?))
}

/// The numbers of the words `M N K`.
pub(crate) fn shape_of(text: &str) -> Option<(u32, u32, u32)> {
    let mut words = text.split_whitespace();
    let m = next_number(&mut words)?;
    let n = next_number(&mut words)?;
    let k = next_number(&mut words)?;
    Some((m, n, k))
}

/// The number of the next word.
fn next_number<T: FromStr<Err = ParseIntError>>(words: &mut SplitWhitespace) -> Option<T> {
    words.next()?.parse().ok()
}

/// The number of a word.
pub(crate) fn number_of(text: &str) -> Result<u64, StepError> {
    text.parse().ok().ok_or(StepError::Syntax)
}

/// The place and the byte of the words `AT HH`.
pub(crate) fn byte_of(text: &str) -> Option<(u64, u8)> {
    let (at, byte) = text.split_once(' ')?;
    Some((at.parse().ok()?, hexadecimal(byte)?))
}

/// What a crash leaves by the word `old`, `new` or `HH`.
pub(crate) fn fill_of(text: &str) -> Option<Fill> {
    match text {
        "old" => Some(Fill::Old),
        "new" => Some(Fill::New),
        byte => Some(Fill::All(hexadecimal(byte)?)),
    }
}

fn hexadecimal(text: &str) -> Option<u8> {
    u8::from_str_radix(text, 16).ok()
}

/// The number with which words begin, and the words after it.
pub(crate) fn numbered(words: &str) -> Option<(u64, &str)> {
    let (number, rest) = words.split_once(' ').unwrap_or((words, ""));
    Some((number.parse().ok()?, rest))
}

/// The entry of the words `INPUT KEY VAL`.
fn entry_of(text: &str) -> Option<Entry> {
    let mut words = text.split_whitespace();
    let input = next_number(&mut words)?;
    let key = next_number(&mut words)?;
    let val = next_number(&mut words)?;
    Some(Entry {
        input,
        rec: Rec { key, val },
    })
}

/// The entries between commas, if there are any.
pub(crate) fn batch_of(alloc: Global, text: &str) -> Result<Batch, StepError> {
    let mut batch = Batch::new(alloc);
    if text.is_empty() {
        return Ok(batch);
    }
    for part in text.split(',') {
        batch.add(entry_of(part).ok_or(StepError::Syntax)?)?;
    }
    Ok(batch)
}

/// The batches between semicolons, each with its request number before its entries.
pub(crate) fn group_of(alloc: Global, text: &str) -> Result<Group, StepError> {
    let mut group = Vec::new(alloc);
    for part in text.split(';') {
        let (request, entries) = numbered(part.trim()).ok_or(StepError::Syntax)?;
        let batch = batch_of(alloc, entries)?;
        group.push(Submitted { request, batch })?;
    }
    Ok(Group::from_vec(group))
}
