//! Closures in text, from a file.

use crate::plan::{place_at, text_at};
use crate::refusal::Refusal;
use std::alloc::Global;
use std::fs::File;
use std::rt::Files;
use td_closures::{Wrong, read_closures};
use td_console::{Fault, ascii_text};
use td_formula::Closure;
use td_plan::text::next_word;
use td_written::text_in;

/// The closures in the file at `path`; none, where there is no path.
pub(crate) fn closures_at<R: Files<File = File> + AllocGlobal>(
    rt: &R,
    path: Option<&str>,
) -> Result<Vec<Closure>, Refusal> {
    match path {
        Some(path) => closures_of_bytes(rt.alloc(), path, &text_at(rt, path)?),
        None => Ok(Vec::new(rt.alloc())),
    }
}

/// The closures of the bytes of the file at `path`, which are copied only where one is above 127.
pub(crate) fn closures_of_bytes(
    alloc: Global,
    path: &str,
    bytes: &[u8],
) -> Result<Vec<Closure>, Refusal> {
    match ascii_text(bytes) {
        Some(text) => closures_in(alloc, path, text),
        None => closures_in(alloc, path, text_in(alloc, bytes)?.as_str()),
    }
}

/// The closures of a text from the file at `path`; or its fault, with the path and the line.
pub(crate) fn closures_in(alloc: Global, path: &str, text: &str) -> Result<Vec<Closure>, Refusal> {
    match read_closures(alloc, text) {
        Ok(closures) => Ok(closures),
        Err(fault) if fault.wrong == Wrong::Memory => Err(Refusal::Plain(Fault::Memory)),
        Err(fault) => {
            let place = place_at(alloc, path, text.as_bytes(), Some(fault.line))?;
            Err(Refusal::Closures(fault, place))
        }
    }
}

/// The lines of a closure in a text of closures, where it is there, each between two texts: those that say something, up to their
/// comments.
pub(crate) fn closure_lines(
    alloc: Global,
    text: &str,
    kind: &str,
    code: &str,
    before: &str,
    after: &str,
) -> Result<String, Refusal> {
    let mut lines = String::new(alloc);
    let mut is_here = false;
    for line in text.lines() {
        let said = line.split_once('#').unwrap_or((line, "")).0.trim_end();
        if let Some((word, rest)) = next_word(said) {
            if is_kind(word) {
                is_here = word == kind && rest.trim() == code;
            }
            if is_here {
                lines.push_str(before)?;
                lines.push_str(said)?;
                lines.push_str(after)?;
            }
        }
    }
    Ok(lines)
}

/// Whether a word is that of a kind of closure.
fn is_kind(word: &str) -> bool {
    matches!(word, "map" | "group" | "fold")
}
