//! The catalogue as text, which `td help closures` prints behind the text on closures in text: a line for each row of the table.

use crate::refusal::Refusal;
use std::alloc::Global;
use td_picture::{FOLDS, GROUPS, MAPS, Row};

/// The first code of the second shelf.
const SECOND: u16 = 1000;

/// What stands before the first shelf.
const HEAD: &str = "
The catalogue: what closures of lower codes answer. Items come by port and then by value, and sums stop at -2^63 and 2^63 - 1. What is said of
the last or the greatest items is said of one source. A fold that keeps none has no state in the next epoch.

The first shelf of the catalogue:

";

/// What stands between the shelves.
const BETWEEN: &str = "
The second shelf of the catalogue. P is how far a code is above the first one of its line; where it divides, 0 stands for 1000:

";

/// Both shelves of the catalogue.
pub(crate) fn both_shelves(alloc: Global) -> Result<String, Refusal> {
    let mut text = String::new(alloc);
    text.push_str(HEAD)?;
    push_shelf(alloc, &mut text, false)?;
    text.push_str(BETWEEN)?;
    push_shelf(alloc, &mut text, true)?;
    Ok(text)
}

/// Appends the closures of a shelf.
fn push_shelf(alloc: Global, text: &mut String, is_second: bool) -> Result<(), Refusal> {
    push_rows(alloc, text, "map", &MAPS, is_second)?;
    push_rows(alloc, text, "group", &GROUPS, is_second)?;
    push_rows(alloc, text, "fold", &FOLDS, is_second)
}

/// Appends those rows of a kind that are of a shelf.
fn push_rows(
    alloc: Global,
    text: &mut String,
    kind: &str,
    rows: &[Row],
    is_second: bool,
) -> Result<(), Refusal> {
    for row in rows {
        if (SECOND <= row.0) == is_second {
            let codes = codes_of(alloc, kind, row)?;
            push_answer(alloc, text, codes.as_str(), row.5)?;
        }
    }
    Ok(())
}

/// The kind of a row and its codes.
fn codes_of(alloc: Global, kind: &str, row: &Row) -> Result<String, Refusal> {
    let first = row.0;
    let most = row.1.saturating_sub(first);
    if most == 0 {
        Ok(format!(in alloc; "{kind} {first}")?)
    } else {
        Ok(format!(in alloc; "{kind} {first} + P, P to {most}")?)
    }
}

/// Appends the lines of an answer, the first of them behind the codes.
fn push_answer(alloc: Global, text: &mut String, codes: &str, answer: &str) -> Result<(), Refusal> {
    let mut before = codes;
    for line in answer.lines() {
        let line = format!(in alloc; "  {before:<26}{line}\n")?;
        text.push_str(line.as_str())?;
        before = "";
    }
    Ok(())
}
