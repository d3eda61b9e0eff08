//! What an input asks.
ghost use Rattle.std.specs.Prelude.{◌≡◌, ◌⊎◌, ◌+◌, ◌≤◌, ◌<◌, ◌^◌, IfOk, IfErr, Ok, Err, None, IsTrue, All, length};
ghost use Rattle.std.specs.List.{list_all};
ghost use Rattle.td_plan.specs.Blocks.{vertices};
ghost use Rattle.td_plan.specs.Inputs.{is_input_of};
ghost use Rattle.td_plan.specs.Text.{text_lines};
ghost use Rattle.td_plan.specs.Texts.{PlanText};
ghost use Rattle.td_calls.specs.Fits.{first_lack};
ghost use Rattle.td_calls.specs.Stored.{stored_in};
ghost use Rattle.td_console.specs.Answer.{IsAnswer, IsAsciiAnswer, plan_answer, lack_fault, lines_of_run};
ghost use Rattle.td_console.specs.Parts.{plan_text, data_lines};
ghost use Rattle.td_console.specs.Data.{batches_of};
ghost use Rattle.td_console.specs.CodeSteps.{IsOfInput};

use crate::epochs::read_batches;
use crate::faults::Fault;
use crate::parts::{ascii_text, find_wide_fault, split_input};
use std::alloc::Global;
use td_calls::{CallsError, Closures, Law};
use td_plan::{Plan, PlanError};
use td_stamp::Batch;

/// A plan of which each closure is stored, and the batches of its epochs.
#[derive(Drop)]
pub(crate) struct Question {
    pub plan: Plan,
    pub batches: Vec<Batch>,
}

/// What an input asks. Refusals: its first fault; `Memory`.
pub(crate) fn asked_by<L: Law, C: Closures<L>>(
    alloc: Global,
    input: &[u8],
    calls: &C,
) -> Result<Question, Fault>
    requires bound { length input.now ≤ 2 ^ 44 }
    ensures ok { IfOk result (λ asked.
        IsAnswer (stored_in L.answers (C.stored calls.now)) input.now (Ok (lines_of_run L.answers asked.plan asked.batches.items))) }
    ensures plan { IfOk result (λ asked. PlanText (plan_text input.now) asked.plan) }
    ensures batches { IfOk result (λ asked. asked.batches.items ≡ batches_of (data_lines input.now)) }
    ensures fits { IfOk result (λ asked. first_lack (C.stored calls.now) (vertices asked.plan) ≡ None) }
    ensures accepted { IfOk result (λ asked. All (λ batch. IsTrue (list_all (λ e. is_input_of asked.plan e.input) batch)) asked.batches.items) }
    ensures few { IfOk result (λ asked. length asked.batches.items < 2 ^ 63) }
    ensures err { IfErr result (λ f. (f ≡ Fault.Memory)
        ⊎ IsAnswer (stored_in L.answers (C.stored calls.now)) input.now (Err f)) }
    ensures own { IfErr result IsOfInput }
{
    match ascii_text(input) {
        Some(text) => question_of_text::<L, C>(alloc, text, calls),
        None => Err(find_wide_fault(input)),
    }
}

/// What an input that is ASCII asks. Refusals: its first fault; `Memory`.
fn question_of_text<L: Law, C: Closures<L>>(
    alloc: Global,
    input: &str,
    calls: &C,
) -> Result<Question, Fault>
    requires bound { length input.now ≤ 2 ^ 44 }
    ensures ok { IfOk result (λ asked.
        IsAsciiAnswer (stored_in L.answers (C.stored calls.now)) input.now (Ok (lines_of_run L.answers asked.plan asked.batches.items))) }
    ensures plan { IfOk result (λ asked. PlanText (plan_text input.now) asked.plan) }
    ensures batches { IfOk result (λ asked. asked.batches.items ≡ batches_of (data_lines input.now)) }
    ensures fits { IfOk result (λ asked. first_lack (C.stored calls.now) (vertices asked.plan) ≡ None) }
    ensures accepted { IfOk result (λ asked. All (λ batch. IsTrue (list_all (λ e. is_input_of asked.plan e.input) batch)) asked.batches.items) }
    ensures few { IfOk result (λ asked. length asked.batches.items < 2 ^ 63) }
    ensures err { IfErr result (λ f. (f ≡ Fault.Memory)
        ⊎ IsAsciiAnswer (stored_in L.answers (C.stored calls.now)) input.now (Err f)) }
    ensures own { IfErr result IsOfInput }
{
    let parts = split_input(input);
    match Plan::read(alloc, parts.plan) {
        Ok(plan) => {
            let batches = batches_for::<L, C>(alloc, &plan, parts.lines, parts.first, calls)?;
            Ok(Question { plan, batches })
        }
        Err(error) => Err(plan_fault(error)),
    }
}

/// The batches of data lines for a plan, of which the first has the number `first`. Refusals: a missing closure; the first
/// fault of the lines; `Memory`.
fn batches_for<L: Law, C: Closures<L>>(
    alloc: Global,
    plan: &Plan,
    lines: &str,
    first: u64,
    calls: &C,
) -> Result<Vec<Batch>, Fault>
    requires bound { first + length lines.now ≤ 2 ^ 44 + 2 }
    ensures ok { IfOk result (λ batches.
        plan_answer (stored_in L.answers (C.stored calls.now)) plan.now first (text_lines lines.now)
        ≡ Ok (lines_of_run L.answers plan.now batches.items)) }
    ensures batches { IfOk result (λ batches. batches.items ≡ batches_of (text_lines lines.now)) }
    ensures fits { IfOk result (λ batches. first_lack (C.stored calls.now) (vertices plan.now) ≡ None) }
    ensures accepted { IfOk result (λ batches. All (λ batch. IsTrue (list_all (λ e. is_input_of plan.now e.input) batch)) batches.items) }
    ensures few { IfOk result (λ batches. length batches.items < 2 ^ 63) }
    ensures err { IfErr result (λ f. (f ≡ Fault.Memory)
        ⊎ (plan_answer (stored_in L.answers (C.stored calls.now)) plan.now first (text_lines lines.now) ≡ Err f)) }
    ensures own { IfErr result IsOfInput }
{
    if let Err(lack) = calls.fits(plan) {
        return Err(lack_fault(lack));
    }
    read_batches(alloc, plan, lines, first)
}

/// The fault for a plan text that spells no plan.
pub fn plan_fault(error: PlanError) -> Fault
    ensures memory { error ≡ PlanError.Memory → result ≡ Fault.Memory }
    ensures other { (result ≡ Fault.Memory) ⊎ (result ≡ Fault.Plan error) }
    ensures own { IsOfInput result }
{
    match error {
        PlanError::Memory => Fault::Memory,
        _ => Fault::Plan(error),
    }
}

/// The fault for a vertex without its closure.
pub fn lack_fault(lack: CallsError) -> Fault
    ensures fault { result ≡ lack_fault lack }
    ensures own { IsOfInput result }
{
    match lack {
        CallsError::NoCall(vertex, code) => Fault::NoCall(vertex, code),
        _ => Fault::Memory,
    }
}
