//! What a disk tells, in lines.
//!
//! It needs no keeper, hence no law and no closures. It begins with a sync, as recovery does, which needs no right to write the file.
ghost use Rattle.std.specs.Prelude.{◌≡◌, ◌++◌, ◌+◌, ◌<◌, ◌^◌, Ok, length, string_bytes, IfOk, IfErr, OnOk};
ghost use Rattle.td_store.specs.declared.standing.error.KeeperError.TheVariants.{Device};
ghost use Rattle.td_report.specs.Shown.{counted_lines, counted_head, last_line, state_line, state_lines, count_line, count_lines, HasAllRoom, IsNotOutput, RefusesToShow, ShowsDisk};
ghost use Rattle.td_disk.specs.Calls.{KeepsDevice};
ghost use Rattle.td_gate.specs.Steps.{SameUnless, WritesNothing};

use itoa::Buffer;
use std::alloc::Global;
use std::fmt::Write;
use td_console::{Fault, Sink, write_answer};
use td_disk::Disk;
use td_journal::{Counts, greatest_counted};
use td_plan::Plan;
use td_slots::Checkpoint;
use td_stamp::{OrderedStates, State};
use td_store::standing::{Counted, count_device, laws};

/// Writes what a disk tells for a plan: `kept C`, the epoch of its checkpoint; `told T`, the last epoch on it; `last Q`, the
/// greatest request number, where there is one; a line `state VERTEX KEY A B` for each state of the checkpoint in order; and
/// a line `epoch E COUNT` for each epoch after it, with the number of its records. It begins with a sync, and writes nothing
/// to the disk. Each record is read and found valid, and none is kept.
///
/// Refusals, with nothing written to the writer: what the disk refuses, as a keeper's; `Memory`; and the keeper's `Device`.
/// Where the writer failed, `Output`, and some may have been written.
pub fn show<D: Disk, W: Sink>(
    alloc: Global,
    disk: &mut D,
    plan: &Plan,
    writer: &mut W,
) -> Result<(), Fault>
    ensures disk { KeepsDevice D.view (Fault.Keeper Device) result disk.old disk.new }
    ensures shown { OnOk result (ShowsDisk D.view plan.now disk.old disk.new (W.contents writer.old) (W.contents writer.new)) }
    ensures refused { IfErr result (λ f. RefusesToShow D.view plan.now f disk.old disk.new) }
    ensures room { HasAllRoom (W.HasRoom writer.old) → IfErr result IsNotOutput }
    ensures nothing { IfErr result (λ f. SameUnless Fault.Output f writer.old writer.new) }
    ensures crash_safe { WritesNothing D.view disk.old disk.new }
{
    laws::told_in_parts();
    let counted = count_device(alloc, disk, plan)?;
    let text = text_of(alloc, &counted)?;
    write_answer(writer, text.as_str())
}

/// The lines for what was read. Refusal: `Memory`.
fn text_of(alloc: Global, counted: &Counted) -> Result<String, Fault>
    requires small { counted.now.checkpoint.epoch + length counted.now.submitted.items < 2 ^ 63 }
    ensures ok { IfOk result (λ text. string_bytes text ≡ counted_lines counted.now.checkpoint counted.now.submitted.items) }
    ensures err { IfErr result (λ f. f ≡ Fault.Memory) }
{
    let checkpoint = &counted.checkpoint;
    let submitted = counted.submitted.as_slice();
    let mut text = String::new(alloc);
    print_head(&mut text, checkpoint, submitted)?;
    print_states(&mut text, &checkpoint.states)?;
    print_epochs(&mut text, checkpoint.epoch, submitted)?;
    Ok(text)
}

/// Appends `kept C`, `told T`, and `last Q` where there is a request number. Refusal: `Memory`.
fn print_head(text: &mut String, checkpoint: &Checkpoint, submitted: &[Counts]) -> Result<(), Fault>
    requires small { checkpoint.now.epoch + length submitted.now < 2 ^ 63 }
    ensures ok { OnOk result (string_bytes text.new ≡ string_bytes text.old ++ counted_head checkpoint.now submitted.now) }
    ensures err { IfErr result (λ f. f ≡ Fault.Memory) }
{
    let kept = checkpoint.epoch;
    let told = kept + submitted.len() as u64;
    writeln!(text, "kept {kept}")?;
    writeln!(text, "told {told}")?;
    print_last(text, greatest_counted(checkpoint.last, submitted))
}

/// Appends `last Q`, where there is a request number. Refusal: `Memory`.
fn print_last(text: &mut String, last: u64) -> Result<(), Fault>
    ensures ok { OnOk result (string_bytes text.new ≡ string_bytes text.old ++ last_line last) }
    ensures err { IfErr result (λ f. f ≡ Fault.Memory) }
{
    if last > 0 {
        writeln!(text, "last {last}")?;
    }
    Ok(())
}

/// Appends the lines of states. Refusal: `Memory`.
fn print_states(text: &mut String, states: &OrderedStates) -> Result<(), Fault>
    ensures ok { OnOk result (string_bytes text.new ≡ string_bytes text.old ++ state_lines states.now) }
    ensures err { IfErr result (λ f. f ≡ Fault.Memory) }
{
    for (place, state) in states.list() {
        print_state(text, place.0, place.1, state)?;
    }
    Ok(())
}

/// Appends the line of a state. Refusal: `Memory`.
fn print_state(text: &mut String, vertex: u8, key: u64, state: State) -> Result<(), Fault>
    ensures ok { OnOk result (string_bytes text.new ≡ string_bytes text.old ++ state_line ((vertex, key), state)) }
    ensures err { IfErr result (λ f. f ≡ Fault.Memory) }
{
    let a = state.a;
    let b = state.b;
    write!(text, "state {vertex} {key}")?;
    writeln!(text, " {a} {b}")?;
    Ok(())
}

/// Appends the lines of the epochs after one. Refusal: `Memory`.
fn print_epochs(text: &mut String, kept: u64, submitted: &[Counts]) -> Result<(), Fault>
    requires small { kept + length submitted.now < 2 ^ 63 }
    ensures ok { OnOk result (string_bytes text.new ≡ string_bytes text.old ++ count_lines (kept + 1) submitted.now) }
    ensures err { IfErr result (λ f. f ≡ Fault.Memory) }
{
    let mut epoch = kept;
    for each in submitted {
        epoch += 1;
        print_epoch(text, epoch, *each)?;
    }
    Ok(())
}

/// Appends the line of an epoch. Refusal: `Memory`.
fn print_epoch(text: &mut String, epoch: u64, counts: Counts) -> Result<(), Fault>
    ensures ok { OnOk result (string_bytes text.new ≡ string_bytes text.old ++ count_line epoch counts) }
    ensures err { IfErr result (λ f. f ≡ Fault.Memory) }
{
    let mut number = Buffer::new();
    text.push_str("epoch ")?;
    text.push_str(number.format(epoch))?;
    text.push_str(" ")?;
    text.push_str(number.format(counts.records))?;
    text.push_str("\n")?;
    Ok(())
}
