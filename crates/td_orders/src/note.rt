//! What a stream writes beside the lines of its keeper's replies.
//!
//! An epoch that is refused for its lines is never told to the keeper, so no reply speaks of it. Nor is one that is not in its place.
ghost use Rattle.std.specs.Prelude.{◌≡◌, ◌⊎◌, Some, length, string_bytes, IfOk, IfErr, OnOk};
ghost use Rattle.std.specs.Io.KnownBytes.{Appends};
ghost use Rattle.td_orders.specs.Noted.{cause_text, flaw_text, flaw_of, no_line, there_line, gap_line, note_line};

use crate::excerpt::Excerpt;
use std::alloc::Global;
use std::fmt;
use td_console::{Fault, LineFault, Sink, write_answer};

/// Why an epoch is refused.
#[derive(Clone, Copy, Debug, PartialEq, Eq)]
pub enum Cause {
    /// What is wrong with a line of it, where none of the others says it.
    Line(LineFault),
    /// A line has no form, and a carriage return, as lines of some systems end in.
    CarriageReturn,
    /// A line has a byte above 127.
    NotAscii,
    /// A line has no form, and a number that is too large: an input of more than nine digits, a key or a request number from 2^64 on, or a
    /// value that no `i64` holds.
    NumberTooLarge,
    /// It has more records than an epoch may have.
    TooManyRecords,
}

impl fmt::Display for Cause {
    ghost output = { λ c. Some (cause_text c) };

    fn fmt<W: fmt::Write>(&self, f: &mut fmt::Formatter<W>) -> fmt::Result {
        match self {
            Cause::Line(fault) => write!(f, "{fault}"),
            Cause::CarriageReturn => write!(f, "carriage return"),
            Cause::NotAscii => write!(f, "a byte above 127"),
            Cause::NumberTooLarge => write!(f, "number too large"),
            Cause::TooManyRecords => write!(f, "too many records"),
        }
    }
}

/// Why an epoch is refused, and how the line begins for which it is.
#[derive(Debug, Drop)]
pub struct Flaw {
    pub cause: Cause,
    pub text: Excerpt,
}

impl Flaw {
    /// A cause, and how its line begins. Refusal: `Memory`.
    pub(crate) fn new(alloc: Global, cause: Cause, line: &[u8]) -> Result<Flaw, Fault>
        ensures ok { IfOk result (λ flaw. flaw ≡ flaw_of cause line.now) }
        ensures err { IfErr result (λ f. f ≡ Fault.Memory) }
    {
        let text = Excerpt::of(alloc, line)?;
        Ok(Flaw { cause, text })
    }
}

impl fmt::Display for Flaw {
    ghost output = { λ f. Some (flaw_text f) };

    fn fmt<W: fmt::Write>(&self, f: &mut fmt::Formatter<W>) -> fmt::Result {
        write!(f, "{}: {}", self.cause, self.text)
    }
}

/// A line that stands for no reply of the keeper's.
#[derive(Debug, Drop)]
pub enum Note {
    /// `no Q L: WHAT: TEXT`: the epoch with request number Q is refused for its line L, which begins with TEXT. Without a number, 0 here,
    /// it is `no - L: WHAT: TEXT`.
    Refused { request: u64, line: u64, flaw: Flaw },
    /// `there E`: the disk has the epoch E already.
    There(u64),
    /// `gap E`: the disk lacks an epoch before the epoch E.
    Gap(u64),
}

/// Writes the line of a note. Refusals: `Memory`, with nothing written, and `Output`.
pub fn write_note<W: Sink>(alloc: Global, note: &Note, writer: &mut W) -> Result<(), Fault>
    ensures said { OnOk result (Appends (W.contents writer.old) (W.contents writer.new) (note_line note.now)) }
    ensures unsaid { IfErr result (λ f. (f ≡ Fault.Output) ⊎ ((f ≡ Fault.Memory) × (writer.new ≡ writer.old))) }
    ensures room { W.HasRoom writer.old (length (note_line note.now)) → IfErr result (λ f. f ≡ Fault.Memory) }
{
    let line = text_of(alloc, note)?;
    write_answer(writer, line.as_str())
}

/// The line of a note. Refusal: `Memory`.
fn text_of(alloc: Global, note: &Note) -> Result<String, Fault>
    ensures ok { IfOk result (λ line. string_bytes line ≡ note_line note.now) }
    ensures err { IfErr result (λ f. f ≡ Fault.Memory) }
{
    match note {
        Note::Refused {
            request,
            line,
            flaw,
        } => refused_line(alloc, *request, *line, flaw),
        Note::There(epoch) => Ok(format!(in alloc; "there {epoch}\n")?),
        Note::Gap(epoch) => Ok(format!(in alloc; "gap {epoch}\n")?),
    }
}

/// The line of an epoch that is refused. Refusal: `Memory`.
fn refused_line(alloc: Global, request: u64, line: u64, flaw: &Flaw) -> Result<String, Fault>
    ensures ok { IfOk result (λ text. string_bytes text ≡ no_line request line flaw.now) }
    ensures err { IfErr result (λ f. f ≡ Fault.Memory) }
{
    if request == 0 {
        Ok(format!(in alloc; "no - {line}: {flaw}\n")?)
    } else {
        Ok(format!(in alloc; "no {request} {line}: {flaw}\n")?)
    }
}
