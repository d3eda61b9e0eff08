//! What a feed writes: the lines of its keeper's replies.
//!
//! A line stands for a reply, and what a reply says is the keeper's contract. So the text does not fix how many outputs a settle
//! finds, which no contract of threads can. `again Q` has the number of the line, since a producer looks for the answer to what
//! it sent.
ghost use Rattle.std.specs.Prelude.{◌≡◌, ◌-◌, ◌++◌, Bool, true, false, string_bytes, IfOk, IfErr, OnOk, Err};
ghost use Rattle.std.specs.Io.KnownBytes.{Appends};
ghost use Rattle.td_console.specs.Refusals.{keeper_fault};
ghost use Rattle.td_questions.specs.Lines.{answer_lines};
ghost use Rattle.td_feed.specs.Carried.{is_refused, is_repeated};
ghost use Rattle.td_feed.specs.Caused.{IsOfWriter, IsUnsaid, Writes};
ghost use Rattle.td_feed.specs.Copied.{why_text};
ghost use Rattle.td_feed.specs.Said.{line_of as line_in, fault_in, ack_line, ack_lines, full_line, copied_line, not_copied_line, out_lines};

use crate::host::Why;
use std::alloc::Global;
use std::fmt::Write;
use std::io;
use td_console::{Fault, Sink, StdWriter, print_epoch, write_answer};
use td_keeper::{GroupError, Receipt, Reply};
use td_orders::FileName;
use td_questions::{Entries, Entry, Wanted, print_answer};
use td_stamp::EpochOut;
use td_store::standing::KeeperError;

/// A writer of a feed's lines, and whether each epoch is marked in it: `done E` stands after the output lines of an epoch E, also where it
/// has none.
pub trait Voice: Sink {
    /// Whether epochs are marked.
    ghost marks: { Bool };

    /// Whether epochs are marked.
    fn is_marking(&self) -> bool
        ensures { result ≡ marks };
}

/// No epoch is marked.
impl Voice for Vec<u8> {
    ghost marks = { false };

    fn is_marking(&self) -> bool {
        false
    }
}

/// No epoch is marked.
impl<W: io::Write> Voice for StdWriter<W> {
    ghost marks = { false };

    fn is_marking(&self) -> bool {
        false
    }
}

/// A writer in which each epoch is marked.
#[derive(Drop)]
pub struct Marked<W>(pub W);

impl<W: Sink> Sink for Marked<W> {
    ghost contents = { λ w. W.contents w.0 };

    ghost HasRoom = { λ w n. W.HasRoom w.0 n };

    fn write_text(&mut self, text: &[u8]) -> io::Result<()> {
        self.0.write_text(text)
    }
}

impl<W: Sink> Voice for Marked<W> {
    ghost marks = { true };

    fn is_marking(&self) -> bool {
        true
    }
}

/// Writes the lines of a reply to a command with this request number, where it has some. Refusals: the keeper's, where the reply is one;
/// `Memory`, with nothing written; and `Output`.
pub(crate) fn say<W: Voice>(
    alloc: Global,
    request: u64,
    reply: Reply,
    writer: &mut W,
) -> Result<(), Fault>
    requires new { is_repeated reply ≡ false }
    ensures refused { is_refused reply ≡ true → (result ≡ Err (fault_in reply)) × (writer.new ≡ writer.old) }
    ensures said { is_refused reply ≡ false → OnOk result (Appends (W.contents writer.old) (W.contents writer.new) (line_in W.marks request reply)) }
    ensures unsaid { is_refused reply ≡ false → IfErr result (IsUnsaid writer.old writer.new) }
    ensures fault { IfErr result (IsOfWriter W.HasRoom) }
{
    let reply = unless_refused(reply)?;
    let line = line_of(alloc, request, &reply, writer.is_marking())?;
    write_answer(writer, line.as_str())
}

/// Writes the lines of an answer to what is wanted of a fold. Refusals: the keeper's, where it is one; and those of `say`.
pub(crate) fn say_answer<W: Voice>(
    alloc: Global,
    vertex: u8,
    wanted: Wanted,
    answer: Result<(u64, Entries), KeeperError>,
    writer: &mut W,
) -> Result<(), Fault>
    ensures refused { IfErr answer (λ error. (result ≡ Err (keeper_fault error)) × (writer.new ≡ writer.old)) }
    ensures said { IfOk answer (λ a. OnOk result (Appends (W.contents writer.old) (W.contents writer.new) (answer_lines a.0 vertex wanted a.1))) }
    ensures unsaid { OnOk answer (IfErr result (IsUnsaid writer.old writer.new)) }
    ensures fault { IfErr result (IsOfWriter W.HasRoom) }
{
    let (epoch, entries) = answer?;
    let mut lines = String::new(alloc);
    print_entries(&mut lines, epoch, vertex, wanted, entries.as_slice())?;
    write_answer(writer, lines.as_str())
}

/// A reply that is no refusal; else the fault for that.
fn unless_refused(reply: Reply) -> Result<Reply, Fault>
    requires new { is_repeated reply ≡ false }
    ensures ok { IfOk result (λ r. (r ≡ reply) × (is_refused reply ≡ false)) }
    ensures refused { IfErr result (λ f. (is_refused reply ≡ true) × (f ≡ fault_in reply)) }
{
    match reply {
        Reply::Refused { error, batch: _ } => Err(Fault::from(error)),
        Reply::RefusedAll { error, group: _ } => match error {
            GroupError::Keeper(error) => Err(Fault::from(error)),
            GroupError::Repeated => unreachable!(),
        },
        _ => Ok(reply),
    }
}

/// Appends the lines of an answer of an epoch: `state E V KEY A B` for each entry, or `none E V KEY`, and `asked E`. Refusal: `Memory`.
fn print_entries(
    lines: &mut String,
    epoch: u64,
    vertex: u8,
    wanted: Wanted,
    entries: &[Entry],
) -> Result<(), Fault>
    ensures ok { OnOk result (string_bytes lines.new ≡ string_bytes lines.old ++ answer_lines epoch vertex wanted entries.now) }
    ensures err { IfErr result (λ f. f ≡ Fault.Memory) }
{
    match print_answer(lines, epoch, vertex, wanted, entries) {
        Ok(()) => Ok(()),
        Err(_memory) => Err(Fault::Memory),
    }
}

/// Writes `full E`. Refusals: `Memory`, with nothing written, and `Output`.
pub(crate) fn say_full<W: Voice>(alloc: Global, epoch: u64, writer: &mut W) -> Result<(), Fault>
    ensures { Writes W.contents W.HasRoom result writer.old writer.new (full_line epoch) }
{
    let line = format!(in alloc; "full {epoch}\n")?;
    write_answer(writer, line.as_str())
}

/// Writes `copied NEW E`. Refusals: `Memory`, with nothing written, and `Output`.
pub(crate) fn say_copied<W: Sink>(
    alloc: Global,
    name: &FileName,
    epoch: u64,
    writer: &mut W,
) -> Result<(), Fault>
    ensures { Writes W.contents W.HasRoom result writer.old writer.new (copied_line name.now epoch) }
{
    let line = format!(in alloc; "copied {name} {epoch}\n")?;
    write_answer(writer, line.as_str())
}

/// Writes `not copied NEW: WHAT`. Refusals: `Memory`, with nothing written, and `Output`.
pub(crate) fn say_not_copied<W: Sink>(
    alloc: Global,
    name: &FileName,
    why: &Why,
    writer: &mut W,
) -> Result<(), Fault>
    ensures { Writes W.contents W.HasRoom result writer.old writer.new (not_copied_line name.now (why_text why.now)) }
{
    let line = format!(in alloc; "not copied {name}: {why}\n")?;
    write_answer(writer, line.as_str())
}

/// The lines of a reply: `ack E` where an epoch is on the disk, one for each of a group, `again Q` where one with this request number or a greater was there
/// already, the output lines of one that is handed out, `cut E` where a cut is on the disk, and else none. Refusal: `Memory`.
fn line_of(alloc: Global, request: u64, reply: &Reply, marks: bool) -> Result<String, Fault>
    ensures ok { IfOk result (λ line. string_bytes line ≡ line_in marks request reply.now) }
    ensures err { IfErr result (λ f. f ≡ Fault.Memory) }
{
    match reply {
        Reply::Submitted(epoch) | Reply::SubmittedAs(Receipt::New(epoch)) => {
            Ok(format!(in alloc; "ack {epoch}\n")?)
        }
        Reply::SubmittedAll(first, end) => ack_lines(alloc, *first, *end),
        Reply::SubmittedAs(Receipt::Already(_)) => Ok(format!(in alloc; "again {request}\n")?),
        Reply::Written(Some(epoch)) => Ok(format!(in alloc; "cut {epoch}\n")?),
        Reply::Out(Some(out)) => {
            let mut lines = String::new(alloc);
            print_out(&mut lines, out, marks)?;
            Ok(lines)
        }
        _ => Ok(String::new(alloc)),
    }
}

/// Appends the output lines of an epoch, and `done E` after them, where epochs are marked. Refusal: `Memory`.
pub(crate) fn print_out(lines: &mut String, out: &EpochOut, marks: bool) -> Result<(), Fault>
    ensures ok { OnOk result (string_bytes lines.new ≡ string_bytes lines.old ++ out_lines marks out.now) }
    ensures err { IfErr result (λ f. f ≡ Fault.Memory) }
{
    print_epoch(lines, out)?;
    if marks {
        writeln!(lines, "done {}", out.epoch)?;
    }
    Ok(())
}

/// `ack E` of each epoch from the first up to, and without, the end. Refusal: `Memory`.
fn ack_lines(alloc: Global, first: u64, end: u64) -> Result<String, Fault>
    ensures ok { IfOk result (λ lines. string_bytes lines ≡ ack_lines first (end - first)) }
    ensures err { IfErr result (λ f. f ≡ Fault.Memory) }
{
    let mut lines = String::new(alloc);
    for epoch in first..end {
        print_ack(&mut lines, epoch)?;
    }
    Ok(lines)
}

/// Appends `ack E`. Refusal: `Memory`.
fn print_ack(lines: &mut String, epoch: u64) -> Result<(), Fault>
    ensures ok { OnOk result (string_bytes lines.new ≡ string_bytes lines.old ++ ack_line epoch) }
    ensures err { IfErr result (λ f. f ≡ Fault.Memory) }
{
    writeln!(lines, "ack {epoch}")?;
    Ok(())
}
