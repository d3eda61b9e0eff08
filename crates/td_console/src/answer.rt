//! The answer text of a plan and batches, by the plain evaluator; and writing it.
ghost use Rattle.std.specs.Prelude.{◌≡◌, ◌++◌, ◌<◌, ◌^◌, IfOk, IfErr, OnOk, None, IsTrue, All};
ghost use Rattle.std.specs.Prelude.{length, string_bytes, flat_map};
ghost use Rattle.std.specs.List.{list_all};
ghost use Rattle.std.specs.Io.KnownBytes.{Appends};
ghost use Rattle.std.specs.Result.{IsOk};
ghost use Rattle.td_plan.specs.Blocks.{vertices};
ghost use Rattle.td_plan.specs.Inputs.{is_input_of};
ghost use Rattle.td_calls.specs.Fits.{first_lack};
ghost use Rattle.td_console.specs.Answer.{lines_of_run, output_line};

use crate::faults::Fault;
use crate::streams::Sink;
use itoa::Buffer;
use std::alloc::Global;
use td_batch::{Evaluator, laws};
use td_calls::{Closures, Law};
use td_plan::Plan;
use td_stamp::{Batch, EpochOut, Output, States};

/// The output lines of a run from no states, the epochs numbered from 1. Each batch, and what its epoch brings, is let go
/// once its lines are printed. Refusal: `Memory`.
pub(crate) fn run_text<L: Law, C: Closures<L>>(
    alloc: Global,
    plan: &Plan,
    calls: &C,
    batches: Vec<Batch>,
) -> Result<String, Fault>
    requires fits { first_lack (C.stored calls.now) (vertices plan.now) ≡ None }
    requires accepted { All (λ batch. IsTrue (list_all (λ e. is_input_of plan.now e.input) batch)) batches.items }
    requires few { length batches.items < 2 ^ 63 }
    ensures ok { IfOk result (λ text. string_bytes text ≡ lines_of_run L.answers plan.now batches.items) }
    ensures err { IfErr result (λ f. f ≡ Fault.Memory) }
{
    laws::run_joins::<L>();
    let evaluator = Evaluator::of(alloc, plan)?;
    let mut states = States::new(alloc);
    let mut text = String::new(alloc);
    let mut epoch = 1;
    for batch in batches {
        let out = evaluator.epoch::<L, C>(calls, &mut states, epoch, &batch)?;
        print_epoch(&mut text, &out)?;
        epoch += 1;
    }
    Ok(text)
}

/// Appends the lines of an epoch. Refusal: `Memory`.
pub fn print_epoch(text: &mut String, epoch: &EpochOut) -> Result<(), Fault>
    ensures ok { OnOk result (string_bytes text.new ≡ string_bytes text.old ++ flat_map (output_line epoch.now.epoch) epoch.now.recs) }
    ensures err { IfErr result (λ f. f ≡ Fault.Memory) }
{
    for output in epoch.recs.list() {
        print_output(text, epoch.epoch, output)?;
    }
    Ok(())
}

/// Appends the line of an output record. Refusal: `Memory`. `itoa` writes the digits, for which `write!` takes over twice as
/// long.
fn print_output(text: &mut String, epoch: u64, output: Output) -> Result<(), Fault>
    ensures ok { OnOk result (string_bytes text.new ≡ string_bytes text.old ++ output_line epoch output) }
    ensures err { IfErr result (λ f. f ≡ Fault.Memory) }
{
    let mut number = Buffer::new();
    text.push_str(number.format(epoch))?;
    text.push(' ')?;
    text.push_str(number.format(output.vertex))?;
    text.push(' ')?;
    text.push_str(number.format(output.rec.key))?;
    text.push(' ')?;
    text.push_str(number.format(output.rec.val))?;
    text.push('\n')?;
    Ok(())
}

/// Writes a text. Refusal: `Output`, where the writer failed.
pub fn write_answer<W: Sink>(writer: &mut W, text: &str) -> Result<(), Fault>
    ensures written { OnOk result (Appends (W.contents writer.old) (W.contents writer.new) text.now) }
    ensures room { W.HasRoom writer.old (length text.now) → IsOk result }
    ensures err { IfErr result (λ f. f ≡ Fault.Output) }
{
    match writer.write_text(text.as_bytes()) {
        Ok(()) => Ok(()),
        Err(_) => Err(Fault::Output),
    }
}
