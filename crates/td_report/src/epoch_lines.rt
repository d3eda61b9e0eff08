//! The epochs after a disk's checkpoint, in lines that a feed takes.
//!
//! The comment before the epochs is for a reader: a feed passes over it. It does not list the states, which no line of a feed
//! could take. Memory is taken before the first line is written, and numbers are printed by `itoa`, which takes none. So want of
//! memory is said with nothing written, and no part of a journal goes to a feed.
ghost use Rattle.std.specs.Prelude.{◌≡◌, ◌↔◌, ◌++◌, ◌+◌, ◌<◌, ◌≤◌, ◌^◌, ℕ, [], ◌∷◌, flat_map, length, string_bytes, string_len, string_capacity, IfOk, IfErr, OnOk};
ghost use Rattle.std.specs.Result.{IsOk};
ghost use Rattle.td_gate.specs.Reading.{Each};
ghost use Rattle.td_store.specs.standing.Standing.{standing_from};
ghost use Rattle.td_store.specs.standing.Read.{standing_of};
ghost use Rattle.td_store.specs.declared.standing.error.KeeperError.TheVariants.{Device};
ghost use Rattle.td_gate.specs.Steps.{SameUnless, WritesNothing};
ghost use Rattle.td_report.specs.Shown.{AlwaysHasRoom, IsNotOutput, RefusesToShow};
ghost use Rattle.td_report.specs.Dumped.{standing_words, room_words, summary_line, request_line, record_line, epoch_text, DumpsDisk, WritesFront, FitsLine, FitsLines};

use crate::laws::dumps_are_fed;
use itoa::Buffer;
use std::alloc::Global;
use std::fmt::Write;
use td_console::{Fault, Sink, write_answer};
use td_disk::Disk;
use td_head::Shape;
use td_journal::{Submitted, greatest_request};
use td_plan::Plan;
use td_slots::Checkpoint;
use td_stamp::Entry;
use td_store::standing::{Recovered, recover_device};

/// Lines are written where they have so many bytes.
pub(crate) const PIECE: usize = 65_536;

/// A line of an epoch has at most so many: the longest is that of a record, with numbers of 3, 20 and 20 digits.
pub(crate) const LINE: usize = 64;

/// Writes what a disk has for a plan after its checkpoint, as lines that a feed takes: first `# kept C told T last Q, epochs U of
/// N, states S of K`, with the epoch of the checkpoint, the last epoch, and the greatest request number (0 for none), how many
/// epochs the journal has of the N that it has room for, and how many states the checkpoint has of the K that it may have; and
/// then for each epoch `req Q`, where it has a request number, `INPUT KEY VAL` for each record in their order, and `.`. It begins
/// with a sync, and writes nothing to the disk. Lines are written in pieces of 64 KiB: once the disk is read, it takes memory for
/// one of them.
///
/// Refusals, as those of `show`, with nothing written to the writer: what the disk refuses, as a keeper's; `Memory`; and the
/// keeper's `Device`. Where the writer failed, `Output`, and some may have been written.
pub fn dump<D: Disk, W: Sink>(
    alloc: Global,
    disk: &mut D,
    plan: &Plan,
    writer: &mut W,
) -> Result<(), Fault>
    ensures size { (D.view disk.new).capacity ≡ (D.view disk.old).capacity }
    ensures lawful { (D.view disk.old).lawful ↔ (D.view disk.new).lawful }
    ensures dumped { OnOk result (DumpsDisk D.view plan.now disk.old disk.new (W.contents writer.old) (W.contents writer.new)) }
    ensures refused { IfErr result (λ f. RefusesToShow D.view plan.now f disk.old disk.new) }
    // Writers that have room for any text at any time do not fail.
    ensures room { AlwaysHasRoom W.HasRoom → IfErr result IsNotOutput }
    ensures nothing { IfErr result (λ f. SameUnless Fault.Output f writer.old writer.new) }
    ensures crash_safe { WritesNothing D.view disk.old disk.new }
{
    dumps_are_fed();
    let _vertices = plan.vertices();
    let (_plan, recovered) = recover_device(alloc, disk, plan)?;
    let mut lines = summary_of(alloc, &recovered)?;
    lines.reserve(PIECE + LINE)?;
    write_epochs(recovered.submitted.as_slice(), &mut lines, writer)?;
    write_answer(writer, lines.as_str())
}

/// The first line of what was read. Refusal: `Memory`.
pub(crate) fn summary_of(alloc: Global, recovered: &Recovered) -> Result<String, Fault>
    requires small { recovered.now.checkpoint.epoch + length recovered.now.submitted.items < 2 ^ 63 }
    ensures ok { IfOk result (λ text. string_bytes text ≡ summary_line recovered.now.head.shape (standing_of recovered.now)) }
    ensures err { IfErr result (λ f. f ≡ Fault.Memory) }
{
    let submitted = recovered.submitted.as_slice();
    let mut text = String::new(alloc);
    print_standing(&mut text, &recovered.checkpoint, submitted)?;
    print_room(
        &mut text,
        recovered.head.shape,
        &recovered.checkpoint,
        submitted,
    )?;
    Ok(text)
}

/// Appends `# kept C told T last Q`. Refusal: `Memory`.
fn print_standing(
    text: &mut String,
    checkpoint: &Checkpoint,
    submitted: &[Submitted],
) -> Result<(), Fault>
    requires small { checkpoint.now.epoch + length submitted.now < 2 ^ 63 }
    ensures ok { OnOk result (string_bytes text.new ≡ string_bytes text.old ++ standing_words (standing_from checkpoint.now submitted.now)) }
    ensures err { IfErr result (λ f. f ≡ Fault.Memory) }
{
    let kept = checkpoint.epoch;
    let told = kept + submitted.len() as u64;
    let last = greatest_request(checkpoint.last, submitted);
    write!(text, "# kept {kept} told {told} last {last}")?;
    Ok(())
}

/// Appends `, epochs U of N, states S of K`, and ends the line. Refusal: `Memory`.
fn print_room(
    text: &mut String,
    shape: Shape,
    checkpoint: &Checkpoint,
    submitted: &[Submitted],
) -> Result<(), Fault>
    ensures ok { OnOk result (string_bytes text.new ≡ string_bytes text.old ++ room_words shape (standing_from checkpoint.now submitted.now) ++ 10 ∷ []) }
    ensures err { IfErr result (λ f. f ≡ Fault.Memory) }
{
    let epochs = submitted.len();
    let cells = shape.cells();
    let states = checkpoint.states.len();
    let most = shape.states();
    write!(text, ", epochs {epochs} of {cells}")?;
    writeln!(text, ", states {states} of {most}")?;
    Ok(())
}

/// Puts the lines of epochs behind those that are held, and writes what makes a piece. Refusal: `Output`.
fn write_epochs<W: Sink>(
    submitted: &[Submitted],
    lines: &mut String,
    writer: &mut W,
) -> Result<(), Fault>
    requires room { 65600 ≤ string_capacity lines.old }
    ensures left { OnOk result (WritesFront (W.contents writer.old) (W.contents writer.new) (string_bytes lines.old ++ flat_map epoch_text submitted.now) (string_bytes lines.new)) }
    ensures fits { OnOk result (Each FitsLines submitted.now) }
    ensures always { ((w : W) (n : ℕ) → W.HasRoom w n) → IsOk result }
    ensures err { IfErr result (λ f. f ≡ Fault.Output) }
{
    for each in submitted {
        write_epoch(each, lines, writer)?;
    }
    Ok(())
}

/// The same for one epoch.
pub(crate) fn write_epoch<W: Sink>(
    submitted: &Submitted,
    lines: &mut String,
    writer: &mut W,
) -> Result<(), Fault>
    requires room { 65600 ≤ string_capacity lines.old }
    ensures room { 65600 ≤ string_capacity lines.new }
    ensures left { OnOk result (WritesFront (W.contents writer.old) (W.contents writer.new) (string_bytes lines.old ++ epoch_text submitted.now) (string_bytes lines.new)) }
    ensures fits { OnOk result (FitsLines submitted.now) }
    ensures always { ((w : W) (n : ℕ) → W.HasRoom w n) → IsOk result }
    ensures err { IfErr result (λ f. f ≡ Fault.Output) }
{
    make_room(lines, writer)?;
    print_request(lines, submitted.request);
    for entry in submitted.batch.list() {
        make_room(lines, writer)?;
        print_record(lines, entry);
    }
    make_room(lines, writer)?;
    push(lines, ".\n");
    Ok(())
}

/// Writes the lines that are held, where they make a piece, and lets them go; so there is room for a line more. Refusal: `Output`.
pub(crate) fn make_room<W: Sink>(lines: &mut String, writer: &mut W) -> Result<(), Fault>
    requires room { 65600 ≤ string_capacity lines.old }
    ensures room { 65600 ≤ string_capacity lines.new }
    ensures line { OnOk result (string_len lines.new + 64 ≤ string_capacity lines.new) }
    ensures left { OnOk result (WritesFront (W.contents writer.old) (W.contents writer.new) (string_bytes lines.old) (string_bytes lines.new)) }
    ensures always { ((w : W) (n : ℕ) → W.HasRoom w n) → IsOk result }
    ensures err { IfErr result (λ f. f ≡ Fault.Output) }
{
    if lines.len() >= PIECE {
        write_answer(writer, lines.as_str())?;
        lines.clear();
    }
    Ok(())
}

/// Appends `req Q`, where there is a request number.
fn print_request(lines: &mut String, request: u64)
    requires room { string_len lines.old + 64 ≤ string_capacity lines.old }
    ensures bytes { string_bytes lines.new ≡ string_bytes lines.old ++ request_line request }
    ensures capacity { string_capacity lines.old ≤ string_capacity lines.new }
{
    if request > 0 {
        let mut number = Buffer::new();
        push(lines, "req ");
        push(lines, number.format(request));
        push(lines, "\n");
    }
}

/// Appends the line of a record.
fn print_record(lines: &mut String, entry: Entry)
    requires room { string_len lines.old + 64 ≤ string_capacity lines.old }
    ensures bytes { string_bytes lines.new ≡ string_bytes lines.old ++ record_line entry }
    ensures capacity { string_capacity lines.old ≤ string_capacity lines.new }
    ensures fits { FitsLine entry }
{
    let mut number = Buffer::new();
    push(lines, number.format(entry.input));
    push(lines, " ");
    push(lines, number.format(entry.rec.key));
    push(lines, " ");
    push(lines, number.format(entry.rec.val));
    push(lines, "\n");
}

/// Appends a text for which there is room.
pub(crate) fn push(lines: &mut String, text: &str)
    requires room { string_len lines.old + length text.now ≤ string_capacity lines.old }
    ensures bytes { string_bytes lines.new ≡ string_bytes lines.old ++ text.now }
    ensures len { string_len lines.new ≡ string_len lines.old + length text.now }
    ensures capacity { string_capacity lines.old ≤ string_capacity lines.new }
{
    if lines.push_str(text).is_err() {
        unreachable!()
    }
}
