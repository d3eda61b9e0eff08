//! The answer text of a plan and batches, by a hall.
ghost use Rattle.std.specs.Prelude.{◌≡◌, ◌≢◌, ◌⊎◌, ◌++◌, ◌+◌, ◌≤◌, ◌<◌, ◌^◌, ℕ, [], false, IfOk, IfErr, OnOk, None, IsTrue, true, All};
ghost use Rattle.std.specs.Prelude.{length, string_bytes, flat_map};
ghost use Rattle.std.specs.List.{list_all};
ghost use Rattle.td_plan.specs.Blocks.{vertices};
ghost use Rattle.td_plan.specs.Inputs.{is_input_of};
ghost use Rattle.td_calls.specs.Fits.{first_lack};
ghost use Rattle.td_batch.specs.Meaning.{numbered};
ghost use Rattle.td_machine.specs.Active.{has_passed};
ghost use Rattle.td_machine.specs.Sound.{run_of};
ghost use Rattle.td_machine.specs.Steps.{opened, accepts, ends};
ghost use Rattle.td_console.specs.Answer.{lines_of_run, output_line, output_text};
ghost use Rattle.td_console.specs.EpochByEpoch.{IsBetween, IsRunOn, IsSameRun, epoch_after};
ghost use Rattle.td_console.specs.Turns.{all_released};

use crate::answer::print_epoch;
use crate::faults::Fault;
use std::alloc::Global;
use td_batch::laws::run_joins;
use td_calls::{Closures, Law};
use td_core::{Hall, HallError};
use td_plan::Plan;
use td_stamp::{Batch, EpochOut, States};

/// So many epochs and records come before a cut, which goes over what folds left for them: so it costs little beside what was read.
const WEIGHT: usize = 65_536;

/// The output lines of a run from no states, the epochs numbered from 1, by a hall of so many shards. One batch after another is
/// released, drained and printed, and the hall is cut as records have come; so it holds one epoch, and what was left since the
/// cut. Refusals: `Memory`; `Spent`. All lines are kept until the last epoch has run, since nothing is written where there is a
/// fault.
pub(crate) fn hall_text<L: Law, C: Closures<L>>(
    alloc: Global,
    plan: &Plan,
    calls: &C,
    batches: Vec<Batch>,
    workers: u8,
) -> Result<String, Fault>
    requires fits { first_lack (C.stored calls.now) (vertices plan.now) ≡ None }
    requires accepted { All (λ batch. IsTrue (list_all (λ e. is_input_of plan.now e.input) batch)) batches.items }
    requires few { length batches.items < 2 ^ 63 }
    requires some { 1 ≤ workers }
    requires most { workers ≤ 16 }
    ensures ok { IfOk result (λ text. string_bytes text ≡ lines_of_run L.answers plan.now batches.items) }
    ensures err { IfErr result (λ f. (f ≡ Fault.Memory) ⊎ (f ≡ Fault.Spent)) }
{
    let mut hall = open_hall::<L>(alloc, plan, workers)?;
    text_of_epochs::<L, C>(alloc, &mut hall, calls, batches)
}

/// The same by a hall that was opened for it. (The hall's owner does nothing else: each of its ways out has the end of a hall proved.)
/// Refusals: `Memory`; `Spent`.
fn text_of_epochs<L: Law, C: Closures<L>>(
    alloc: Global,
    hall: &mut Hall<L>,
    calls: &C,
    batches: Vec<Batch>,
) -> Result<String, Fault>
    requires fits { first_lack (C.stored calls.now) (vertices hall.old.plan) ≡ None }
    requires accepted { All (λ batch. IsTrue (list_all (λ e. is_input_of hall.old.plan e.input) batch)) batches.items }
    requires few { length batches.items < 2 ^ 63 }
    requires between { IsBetween hall.old }
    requires first { hall.old.next ≡ 1 }
    requires without_states { (run_of L.answers hall.old).states ≡ [] }
    ensures ok { IfOk result (λ text. string_bytes text ≡ lines_of_run L.answers hall.old.plan batches.items) }
    ensures err { IfErr result (λ f. (f ≡ Fault.Memory) ⊎ (f ≡ Fault.Spent)) }
{
    run_joins::<L>();
    let mut text = String::new(alloc);
    let mut weight = 0;
    for batch in batches {
        weight = weight_after(cut_if_due(hall, weight)?, &batch);
        run_epoch::<L, C>(&mut text, hall, calls, batch)?;
    }
    Ok(text)
}

/// A hall of so many shards for a plan, into which nothing was released. Refusal: `Memory`.
pub(crate) fn open_hall<L: Law>(alloc: Global, plan: &Plan, workers: u8) -> Result<Hall<L>, Fault>
    requires some { 1 ≤ workers }
    requires most { workers ≤ 16 }
    ensures ok { IfOk result (λ hall. hall ≡ opened plan.now [] 1 workers) }
    ensures err { IfErr result (λ f. f ≡ Fault.Memory) }
{
    match Hall::<L>::open(alloc, plan, States::new(alloc), 1, workers) {
        Ok(hall) => Ok(hall),
        Err(error) => Err(hall_fault(error)),
    }
}

/// What was released since a cut, with one batch more: each epoch and each record counts as one.
fn weight_after(weight: usize, batch: &Batch) -> usize {
    weight.saturating_add(batch.len()).saturating_add(1)
}

/// Cuts a hall where it is due, by the weight of what was released since the last cut; and answers what was since the last one then.
/// Refusal: `Memory`.
fn cut_if_due<L: Law>(hall: &mut Hall<L>, weight: usize) -> Result<usize, Fault>
    requires between { IsBetween hall.old }
    ensures ok { OnOk result (IsSameRun L.answers hall.old hall.new) }
    ensures err { IfErr result (λ f. f ≡ Fault.Memory) }
{
    if weight < WEIGHT {
        return Ok(weight);
    }
    match hall.rebase() {
        Ok(()) => Ok(0),
        Err(error) => Err(hall_fault(error)),
    }
}

/// Runs one epoch more, and appends its lines. Refusals: `Memory`; `Spent`.
fn run_epoch<L: Law, C: Closures<L>>(
    text: &mut String,
    hall: &mut Hall<L>,
    calls: &C,
    batch: Batch,
) -> Result<(), Fault>
    requires fits { first_lack (C.stored calls.now) (vertices hall.old.plan) ≡ None }
    requires accepted { accepts hall.old.plan batch ≡ true }
    requires below { hall.old.next < ends }
    requires between { IsBetween hall.old }
    ensures ok { OnOk result (IsRunOn L.answers hall.old batch hall.new) }
    ensures text { OnOk result (string_bytes text.new ≡ string_bytes text.old ++ flat_map (output_line hall.old.next) (epoch_after L.answers hall.old batch).outs) }
    ensures err { IfErr result (λ f. (f ≡ Fault.Memory) ⊎ (f ≡ Fault.Spent)) }
{
    run_joins::<L>();
    if let Err((error, _batch)) = hall.release(batch) {
        return Err(hall_fault(error));
    }
    if let Err(error) = hall.drain::<C>(calls) {
        return Err(hall_fault(error));
    }
    match hall.collect() {
        Ok(came) => print_epochs(text, came.as_slice()),
        Err(error) => Err(hall_fault(error)),
    }
}

/// Releases these batches into an open hall, one after another. Refusal: `Memory`. `td sim` releases all first, as its answer is defined.
pub(crate) fn release_all<L: Law>(hall: &mut Hall<L>, batches: Vec<Batch>) -> Result<(), Fault>
    requires opened { hall.old.closed ≡ false }
    requires accepted { All (λ batch. IsTrue (list_all (λ e. is_input_of hall.old.plan e.input) batch)) batches.items }
    requires few { hall.old.next + length batches.items ≤ ends }
    ensures ok { OnOk result (hall.new ≡ all_released hall.old batches.items) }
    ensures err { IfErr result (λ f. f ≡ Fault.Memory) }
{
    for batch in batches {
        if let Err((error, _batch)) = hall.release(batch) {
            return Err(hall_fault(error));
        }
    }
    Ok(())
}

/// Collects, and appends the output lines of all epochs. Refusal: `Memory`.
pub(crate) fn print_collected<L: Law>(text: &mut String, hall: &mut Hall<L>) -> Result<(), Fault>
    requires base { hall.old.base ≡ 0 }
    requires collected { hall.old.collected ≡ 0 }
    requires released { 1 + length hall.old.batches ≡ hall.old.next }
    requires passed { (epoch : ℕ) → epoch < hall.old.next → has_passed hall.old epoch ≡ true }
    ensures ok { OnOk result (string_bytes text.new ≡ string_bytes text.old ++ output_text (numbered 1 (run_of L.answers hall.old).outs)) }
    ensures err { IfErr result (λ f. f ≡ Fault.Memory) }
{
    match hall.collect() {
        Ok(outs) => print_epochs(text, outs.as_slice()),
        Err(error) => Err(hall_fault(error)),
    }
}

/// Appends the lines of epochs. Refusal: `Memory`.
fn print_epochs(text: &mut String, epochs: &[EpochOut]) -> Result<(), Fault>
    ensures ok { OnOk result (string_bytes text.new ≡ string_bytes text.old ++ output_text epochs.now) }
    ensures err { IfErr result (λ f. f ≡ Fault.Memory) }
{
    for epoch in epochs {
        print_epoch(text, epoch)?;
    }
    Ok(())
}

/// The fault for a refusal of a hall of which no other comes.
pub(crate) fn hall_fault(error: HallError) -> Fault
    requires { (error ≡ HallError.Memory) ⊎ (error ≡ HallError.Spent) }
    ensures memory { error ≡ HallError.Memory → result ≡ Fault.Memory }
    ensures spent { error ≡ HallError.Spent → result ≡ Fault.Spent }
    ensures either { (result ≡ Fault.Memory) ⊎ (result ≡ Fault.Spent) }
{
    match error {
        HallError::Memory => Fault::Memory,
        HallError::Spent => Fault::Spent,
        _ => unreachable!(),
    }
}
