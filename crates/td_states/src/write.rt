//! Writing a disk's checkpoint as text.
//!
//! It needs no keeper, hence no law and no closures. It begins with a sync, as recovery does, which needs no right to write the file.
ghost use Rattle.std.specs.Prelude.{◌≡◌, ◌≢◌, ◌⊎◌, ◌↔◌, ◌++◌, ◌<◌, ◌^◌, ℕ, flat_map, string_bytes, IfOk, IfErr, OnOk};
ghost use Rattle.td_gate.specs.CrashSafe.{CrashSafe, Unchanged};
ghost use Rattle.td_gate.specs.Reading.{Each};
ghost use Rattle.td_slots.specs.Slot.{FitsState};
ghost use Rattle.td_states.specs.Lines.{last_line, state_line, checkpoint_text};
ghost use Rattle.td_states.specs.Written.{WritesStates, IsNotWritten};

use crate::laws::states_are_spelled;
use std::alloc::Global;
use std::fmt::Write;
use td_console::{Fault, Sink, write_answer};
use td_disk::Disk;
use td_plan::Plan;
use td_slots::Checkpoint;
use td_stamp::{OrderedStates, State};
use td_store::standing::count_device;

/// Writes the checkpoint of a disk for a plan, as text that `read_states` takes: `kept E`, `last Q` where there is a request number, and a
/// line `state VERTEX KEY A B` for each state in order. Its answer is how many epochs stand after the checkpoint. It begins with a sync, and
/// writes nothing to the disk. Each record of these epochs is read and found valid, and none is kept.
///
/// Refusals, with nothing written to the writer: what the disk refuses, as a keeper's; `Memory`; and the keeper's `Device`. Where the
/// writer failed, `Output`, and some may have been written.
pub fn write_states<D: Disk, W: Sink>(
    alloc: Global,
    disk: &mut D,
    plan: &Plan,
    writer: &mut W,
) -> Result<u64, Fault>
    ensures size { (D.view disk.new).capacity ≡ (D.view disk.old).capacity }
    ensures lawful { (D.view disk.old).lawful ↔ (D.view disk.new).lawful }
    ensures written { IfOk result (λ epochs. WritesStates plan.now (W.contents writer.old) (W.contents writer.new) epochs (D.view disk.old).lawful (D.view disk.new).state) }
    ensures refused { IfErr result (IsNotWritten plan.now (D.view disk.old).lawful (D.view disk.new).state (D.view disk.old).failures (D.view disk.new).failures) }
    ensures room { ((n : ℕ) → W.HasRoom writer.old n) → IfErr result (λ f. f ≢ Fault.Output) }
    ensures nothing { IfErr result (λ f. (f ≡ Fault.Output) ⊎ (writer.new ≡ writer.old)) }
    ensures crash_safe { (D.view disk.old).lawful → CrashSafe Unchanged (D.view disk.old).state (D.view disk.new).state }
{
    states_are_spelled();
    let counted = count_device(alloc, disk, plan)?;
    let text = text_of(alloc, &counted.checkpoint)?;
    write_answer(writer, text.as_str())?;
    Ok(counted.submitted.len() as u64)
}

/// The text of a checkpoint. Refusal: `Memory`.
fn text_of(alloc: Global, checkpoint: &Checkpoint) -> Result<String, Fault>
    ensures ok { IfOk result (λ text. string_bytes text ≡ checkpoint_text checkpoint.now) }
    ensures last { OnOk result (checkpoint.now.last < 2 ^ 64) }
    ensures fits { OnOk result (Each FitsState checkpoint.now.states) }
    ensures err { IfErr result (λ f. f ≡ Fault.Memory) }
{
    let mut text = String::new(alloc);
    let epoch = checkpoint.epoch;
    writeln!(text, "kept {epoch}")?;
    print_last(&mut text, checkpoint.last)?;
    print_states(&mut text, &checkpoint.states)?;
    Ok(text)
}

/// Appends `last Q`, where there is a request number. Refusal: `Memory`.
fn print_last(text: &mut String, last: u64) -> Result<(), Fault>
    ensures ok { OnOk result (string_bytes text.new ≡ string_bytes text.old ++ last_line last) }
    ensures fits { last < 2 ^ 64 }
    ensures err { IfErr result (λ f. f ≡ Fault.Memory) }
{
    if last > 0 {
        writeln!(text, "last {last}")?;
    }
    Ok(())
}

/// Appends the lines of states. Refusal: `Memory`.
fn print_states(text: &mut String, states: &OrderedStates) -> Result<(), Fault>
    ensures ok { OnOk result (string_bytes text.new ≡ string_bytes text.old ++ flat_map state_line states.now) }
    ensures fits { OnOk result (Each FitsState states.now) }
    ensures err { IfErr result (λ f. f ≡ Fault.Memory) }
{
    for (place, state) in states.list() {
        print_state(text, place.0, place.1, state)?;
    }
    Ok(())
}

/// Appends the line of a state. Refusal: `Memory`.
fn print_state(text: &mut String, vertex: u8, key: u64, state: State) -> Result<(), Fault>
    ensures ok { OnOk result (string_bytes text.new ≡ string_bytes text.old ++ state_line ((vertex, key), state)) }
    ensures fits { FitsState ((vertex, key), state) }
    ensures err { IfErr result (λ f. f ≡ Fault.Memory) }
{
    let a = state.a;
    let b = state.b;
    write!(text, "state {vertex} {key}")?;
    writeln!(text, " {a} {b}")?;
    Ok(())
}
