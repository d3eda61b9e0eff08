//! The command `td plan`: a plan in a file, as a listing or as a picture.

use crate::closures::{closure_lines, closures_in};
use crate::disk::{file_refusal, open_to_read};
use crate::file_cause::why_not_read;
use crate::refusal::Refusal;
use crate::streams::Awaited;
use std::alloc::Global;
use std::fs::File;
use std::io;
use std::rt::Files;
use std::sync::Wait;
use td_console::{Fault, StdReader, StdWriter, ascii_text, first_line, read_all, write_answer};
use td_picture::{UNKNOWN, drawn, listed};
use td_plan::text::next_word;
use td_plan::{Block, Plan, PlanError};
use td_report::read_plan;
use td_written::text_in;

/// How many bytes of a line with a fault are told at most.
const TOLD: usize = 80;

/// Writes the plan in the file at `path` to standard output: its lines with what its closures are in words, or a picture, if `dot`.
/// Those in the file at `closures`, if there is one, are told in its words.
pub(crate) fn print_plan<R: Files<File = File> + Print + AllocGlobal + Wait>(
    rt: &R,
    path: &str,
    dot: bool,
    closures: Option<&str>,
) -> Result<(), Refusal> {
    let alloc = rt.alloc();
    let text = text_at(rt, path)?;
    let plan = plan_in(alloc, path, before_separator(&text))?;
    let told = if dot {
        drawn(alloc, &plan)
    } else {
        listed(alloc, &plan)
    };
    let Ok(mut told) = told else {
        return Err(Refusal::Plain(Fault::Memory));
    };
    if let Some(closures) = closures {
        told = with_closures(rt, told.as_str(), closures, dot)?;
    }
    if !dot {
        push_turns(alloc, &mut told, &plan)?;
    }
    let mut writer = StdWriter(Awaited::new(rt, io::writer(rt)));
    Ok(write_answer(&mut writer, told.as_str())?)
}

/// Appends how many turns an epoch may take, as a line that td passes over where it reads a plan: nothing for a plan without loops.
fn push_turns(alloc: Global, told: &mut String, plan: &Plan) -> Result<(), Refusal> {
    let Ok(blocks) = plan.blocks() else {
        return Err(Refusal::Plain(Fault::Memory));
    };
    let Some(turns) = blocks.iter().map(|it| turns_of(&blocks, it)).max() else {
        return Ok(());
    };
    let line = format!(in alloc; "# at most {turns} turns an epoch\n")?;
    told.push_str(line.as_str())?;
    Ok(())
}

/// How many turns of a block there may be in an epoch: the product of its bound and of those of the blocks around it.
fn turns_of(blocks: &[Block], inner: &Block) -> u64 {
    let mut turns: u64 = 1;
    for block in blocks {
        if block.first <= inner.first && inner.end <= block.end {
            turns = turns.saturating_mul(u64::from(block.bound));
        }
    }
    turns
}

/// All bytes of the file at `path`, or why they cannot be had.
pub(crate) fn text_at<R: Files<File = File> + AllocGlobal>(
    rt: &R,
    path: &str,
) -> Result<Vec<u8>, Refusal> {
    match read_file(rt, path) {
        Ok(text) => Ok(text),
        Err(Fault::Memory) => Err(Refusal::Plain(Fault::Memory)),
        Err(_) => Err(file_refusal(rt, path, why_not_read(rt, path))?),
    }
}

/// All bytes of the file at `path`.
fn read_file<R: Files<File = File> + AllocGlobal>(rt: &R, path: &str) -> Result<Vec<u8>, Fault> {
    let file = open_to_read(rt, path)?;
    read_all(rt.alloc(), &mut StdReader(file))
}

/// What stands before the first line whose only word is `--`; without one the whole.
fn before_separator(text: &[u8]) -> &[u8] {
    let mut rest = text;
    while let Some((line, others)) = first_line(rest) {
        if is_separator(line) {
            return &text[..text.len() - rest.len()];
        }
        rest = others;
    }
    text
}

/// Whether the only word of a line is `--`.
fn is_separator(line: &[u8]) -> bool {
    let Some(line) = ascii_text(line) else {
        return false;
    };
    match next_word(line) {
        Some((word, rest)) => word == "--" && next_word(rest).is_none(),
        None => false,
    }
}

/// The plan of a text from the file at `path`; or its fault, with the path and the line.
fn plan_in(alloc: Global, path: &str, text: &[u8]) -> Result<Plan, Refusal> {
    let mut left = text;
    match read_plan(alloc, &mut left) {
        Ok(plan) => Ok(plan),
        Err(Fault::Plan(error)) => {
            let place = place_at(alloc, path, text, faulty_line(error))?;
            Err(Refusal::At(Fault::Plan(error), place))
        }
        Err(fault) => Err(Refusal::Plain(fault)),
    }
}

/// The number of the line that a fault is told of: a loop that is not ended is told of the line after the last.
fn faulty_line(error: PlanError) -> Option<u64> {
    match error {
        PlanError::Syntax(line)
        | PlanError::Number(line)
        | PlanError::Order(line)
        | PlanError::Nest(line)
        | PlanError::Bound(line)
        | PlanError::FoldInLoop(line)
        | PlanError::Again(line)
        | PlanError::TooMany(line) => Some(line),
        PlanError::NoInputOrOutput | PlanError::Memory => None,
    }
}

/// A path, and the line of this number of a text, where it is there.
pub(crate) fn place_at(
    alloc: Global,
    path: &str,
    text: &[u8],
    line: Option<u64>,
) -> Result<String, Refusal> {
    let mut place = String::from_str(alloc, path)?;
    if let Some(number) = line {
        if let Some(line) = line_at(text, number) {
            place.push_str(": ")?;
            push_line(&mut place, line)?;
        }
    }
    Ok(place)
}

/// The line of this number of a text, counted from 1, where it is there.
fn line_at(text: &[u8], number: u64) -> Option<&[u8]> {
    let mut rest = text;
    for _ in 1..number {
        let (_, others) = first_line(rest)?;
        rest = others;
    }
    let (line, _) = first_line(rest)?;
    Some(line)
}

/// A listing or a picture, in which each closure that the catalogue lacks is told in the words of the file at `path`, where it is there.
fn with_closures<R: Files<File = File> + AllocGlobal>(
    rt: &R,
    told: &str,
    path: &str,
    dot: bool,
) -> Result<String, Refusal> {
    let alloc = rt.alloc();
    let bytes = text_at(rt, path)?;
    let text = text_in(alloc, &bytes)?;
    let _closures = closures_in(alloc, path, text.as_str())?;
    if dot {
        drawn_with(alloc, told, text.as_str())
    } else {
        listed_with(alloc, told, text.as_str())
    }
}

/// A listing with the closures of a text: in the place of the comment for one that the catalogue lacks, which stands before its vertex's
/// line, its lines as comments.
fn listed_with(alloc: Global, listing: &str, text: &str) -> Result<String, Refusal> {
    let mut told = String::new(alloc);
    let mut is_unknown = false;
    for line in listing.lines() {
        if is_unknown {
            let (kind, code) = closure_named(line);
            let lines = closure_lines(alloc, text, kind, code, "# ", "\n")?;
            push_or_unknown(&mut told, lines.as_str(), "# ", "\n")?;
        }
        is_unknown = line.strip_prefix("# ") == Some(UNKNOWN);
        if !is_unknown {
            told.push_str(line)?;
            told.push('\n')?;
        }
    }
    Ok(told)
}

/// A picture with the closures of a text: in the place of the label's words for one that the catalogue lacks its lines.
fn drawn_with(alloc: Global, picture: &str, text: &str) -> Result<String, Refusal> {
    let mut told = String::new(alloc);
    for line in picture.lines() {
        match unknown_label(line) {
            Some((head, name)) => {
                let (kind, code) = closure_named(name);
                let lines = closure_lines(alloc, text, kind, code, "\\n", "")?;
                told.push_str(head)?;
                push_or_unknown(&mut told, lines.as_str(), "\\n", "")?;
                told.push_str("\"];\n")?;
            }
            None => {
                told.push_str(line)?;
                told.push('\n')?;
            }
        }
    }
    Ok(told)
}

/// Of a node's line whose label says that the catalogue lacks its closure, what stands before that, and the vertex's name in it.
fn unknown_label(line: &str) -> Option<(&str, &str)> {
    let words = line.strip_suffix("\"];")?.strip_suffix(UNKNOWN)?;
    let head = words.strip_suffix("\\n")?;
    let (_, name) = head.split_once("label=\"")?;
    Some((head, name))
}

/// The kind and the code of the closure of a vertex, from its line or its name.
fn closure_named(name: &str) -> (&str, &str) {
    let (_, rest) = next_word(name).unwrap_or(("", ""));
    let (kind, rest) = next_word(rest).unwrap_or(("", ""));
    let (code, _) = next_word(rest).unwrap_or(("", ""));
    (kind, code)
}

/// Appends lines; where there are none, that the catalogue has no such closure, between two texts.
fn push_or_unknown(
    told: &mut String,
    lines: &str,
    before: &str,
    after: &str,
) -> Result<(), Refusal> {
    if lines.is_empty() {
        told.push_str(before)?;
        told.push_str(UNKNOWN)?;
        told.push_str(after)?;
    } else {
        told.push_str(lines)?;
    }
    Ok(())
}

/// Appends a line, with `?` in the place of each byte that is no printable character, and `..` in the place of what is too long.
fn push_line(place: &mut String, line: &[u8]) -> Result<(), Refusal> {
    for (at, byte) in line.iter().enumerate() {
        if at == TOLD {
            place.push_str(" ..")?;
            return Ok(());
        }
        let is_printable = 32 <= *byte && *byte <= 126;
        place.push(if is_printable { char::from(*byte) } else { '?' })?;
    }
    Ok(())
}
