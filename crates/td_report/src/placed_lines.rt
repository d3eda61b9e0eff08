//! The epochs after a disk's checkpoint, each with its place, in lines that a stream takes.
//!
//! A disk that is brought up to date by them may have some of the epochs already, with or without request numbers. It may also lack some
//! before them, where a cut let these go. A stream with places finds both by the line `at E` before an epoch.
ghost use Rattle.std.specs.Prelude.{◌≡◌, ◌↔◌, ◌++◌, ◌+◌, ◌<◌, ◌≤◌, ◌^◌, ℕ, length, string_bytes, string_len, string_capacity, IfErr, OnOk};
ghost use Rattle.std.specs.Result.{IsOk};
ghost use Rattle.td_gate.specs.Reading.{Each};
ghost use Rattle.td_gate.specs.Steps.{SameUnless, WritesNothing};
ghost use Rattle.td_report.specs.Shown.{AlwaysHasRoom, IsNotOutput, RefusesToShow};
ghost use Rattle.td_report.specs.Dumped.{place_line, epoch_text, placed_text, DumpsDiskPlaced, WritesFront, FitsLines};

use crate::epoch_lines::{LINE, PIECE, make_room, push, summary_of, write_epoch};
use crate::laws::placed_dumps_bring_on;
use itoa::Buffer;
use std::alloc::Global;
use td_console::{Fault, Sink, write_answer};
use td_disk::Disk;
use td_journal::Submitted;
use td_plan::Plan;
use td_store::standing::recover_device;

/// Does what `dump` does, with a line `at E` before the lines of each epoch E. Refusals: as those of `dump`.
pub fn dump_placed<D: Disk, W: Sink>(
    alloc: Global,
    disk: &mut D,
    plan: &Plan,
    writer: &mut W,
) -> Result<(), Fault>
    ensures size { (D.view disk.new).capacity ≡ (D.view disk.old).capacity }
    ensures lawful { (D.view disk.old).lawful ↔ (D.view disk.new).lawful }
    ensures dumped { OnOk result (DumpsDiskPlaced D.view plan.now disk.old disk.new (W.contents writer.old) (W.contents writer.new)) }
    ensures refused { IfErr result (λ f. RefusesToShow D.view plan.now f disk.old disk.new) }
    // Writers that have room for any text at any time do not fail.
    ensures room { AlwaysHasRoom W.HasRoom → IfErr result IsNotOutput }
    ensures nothing { IfErr result (λ f. SameUnless Fault.Output f writer.old writer.new) }
    ensures crash_safe { WritesNothing D.view disk.old disk.new }
{
    placed_dumps_bring_on();
    let _vertices = plan.vertices();
    let (_plan, recovered) = recover_device(alloc, disk, plan)?;
    let mut lines = summary_of(alloc, &recovered)?;
    lines.reserve(PIECE + LINE)?;
    let kept = recovered.checkpoint.epoch;
    write_epochs(kept, recovered.submitted.as_slice(), &mut lines, writer)?;
    write_answer(writer, lines.as_str())
}

/// Puts the lines of epochs, which come after this one, behind those that are held, and writes what makes a piece. Refusal: `Output`.
fn write_epochs<W: Sink>(
    kept: u64,
    submitted: &[Submitted],
    lines: &mut String,
    writer: &mut W,
) -> Result<(), Fault>
    requires small { kept + length submitted.now < 2 ^ 63 }
    requires room { 65600 ≤ string_capacity lines.old }
    ensures left { OnOk result (WritesFront (W.contents writer.old) (W.contents writer.new) (string_bytes lines.old ++ placed_text kept submitted.now) (string_bytes lines.new)) }
    ensures fits { OnOk result (Each FitsLines submitted.now) }
    ensures always { ((w : W) (n : ℕ) → W.HasRoom w n) → IsOk result }
    ensures err { IfErr result (λ f. f ≡ Fault.Output) }
{
    let mut epoch = kept;
    for each in submitted {
        epoch += 1;
        write_placed(epoch, each, lines, writer)?;
    }
    Ok(())
}

/// The same for one epoch, which is this one.
fn write_placed<W: Sink>(
    epoch: u64,
    submitted: &Submitted,
    lines: &mut String,
    writer: &mut W,
) -> Result<(), Fault>
    requires room { 65600 ≤ string_capacity lines.old }
    ensures room { 65600 ≤ string_capacity lines.new }
    ensures left { OnOk result (WritesFront (W.contents writer.old) (W.contents writer.new) (string_bytes lines.old ++ (place_line epoch ++ epoch_text submitted.now)) (string_bytes lines.new)) }
    ensures fits { OnOk result (FitsLines submitted.now) }
    ensures always { ((w : W) (n : ℕ) → W.HasRoom w n) → IsOk result }
    ensures err { IfErr result (λ f. f ≡ Fault.Output) }
{
    make_room(lines, writer)?;
    print_place(lines, epoch);
    write_epoch(submitted, lines, writer)
}

/// Appends `at E`.
fn print_place(lines: &mut String, epoch: u64)
    requires room { string_len lines.old + 64 ≤ string_capacity lines.old }
    ensures bytes { string_bytes lines.new ≡ string_bytes lines.old ++ place_line epoch }
    ensures capacity { string_capacity lines.old ≤ string_capacity lines.new }
{
    let mut number = Buffer::new();
    push(lines, "at ");
    push(lines, number.format(epoch));
    push(lines, "\n");
}
