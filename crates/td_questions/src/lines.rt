//! An answer in lines.
ghost use Rattle.std.specs.Prelude.{◌≡◌, ◌++◌, flat_map, string_bytes, OnOk};
ghost use Rattle.td_questions.specs.Lines.{state_line, none_line, lines_of, answer_lines};

use crate::answers::Entry;
use crate::question::Wanted;
use std::fmt::Write;
use td_stamp::{StampError as QuestionError, State};

/// Appends the lines of an answer at an epoch: `state E V KEY A B` for each of its entries; `none E V KEY` for a key that has no state;
/// and `asked E`. Refusal: `Memory`.
pub fn print_answer(
    text: &mut String,
    epoch: u64,
    vertex: u8,
    wanted: Wanted,
    entries: &[Entry],
) -> Result<(), QuestionError>
    ensures { OnOk result (string_bytes text.new ≡ string_bytes text.old ++ answer_lines epoch vertex wanted entries.now) }
{
    match wanted {
        Wanted::Get(key) if entries.is_empty() => writeln!(text, "none {epoch} {vertex} {key}")?,
        _ => print_entries(text, epoch, entries)?,
    }
    writeln!(text, "asked {epoch}")?;
    Ok(())
}

/// Appends the lines of entries. Refusal: `Memory`.
fn print_entries(text: &mut String, epoch: u64, entries: &[Entry]) -> Result<(), QuestionError>
    ensures { OnOk result (string_bytes text.new ≡ string_bytes text.old ++ flat_map (state_line epoch) entries.now) }
{
    for (place, state) in entries {
        print_entry(text, epoch, *place, *state)?;
    }
    Ok(())
}

/// Appends the line of an entry. Refusal: `Memory`.
fn print_entry(
    text: &mut String,
    epoch: u64,
    place: (u8, u64),
    state: State,
) -> Result<(), QuestionError>
    ensures { OnOk result (string_bytes text.new ≡ string_bytes text.old ++ state_line epoch (place, state)) }
{
    let (vertex, key) = place;
    let a = state.a;
    let b = state.b;
    write!(text, "state {epoch} {vertex} {key}")?;
    writeln!(text, " {a} {b}")?;
    Ok(())
}
