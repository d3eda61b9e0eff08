//! A plan, from a file of its own.
ghost use Rattle.std.specs.Prelude.{◌≡◌, ◌≢◌, ◌⊎◌, ◌^◌, [], IfOk, IfErr, OnOk, IfSome};
ghost use Rattle.td_plan.specs.declared.error.PlanError.{PlanError as AnyError};
ghost use Rattle.td_plan.specs.Texts.{PlanText, PlanFault};
ghost use Rattle.td_report.specs.Narrowed.{narrow, narrowed};

use std::alloc::Global;
use td_console::{Fault, Source, ascii_text, plan_fault, read_all};
use td_plan::Plan;

/// What stands for a byte above 127: a control character, which no line may have.
const DELETE: u8 = 127;

/// The plan of the text that a reader gives. A byte above 127 is a fault of its line, as a control character is. Refusals:
/// `File`, where a read failed or the end did not come within 2^32 reads of at most 4,096 bytes; the fault of the text;
/// `Memory`.
pub fn read_plan<R: Source>(alloc: Global, reader: &mut R) -> Result<Plan, Fault>
    ensures ok { IfOk result (λ plan. IfSome (R.remaining reader.old) (λ text. PlanText text plan)) }
    ensures fault { IfErr result (λ f. (f ≡ Fault.File) ⊎ ((f ≡ Fault.Memory)
        ⊎ ((e : AnyError) × (f ≡ Fault.Plan e) × IfSome (R.remaining reader.old) (λ text. PlanFault text e)))) }
    // It has read all.
    ensures end { OnOk result (IfSome (R.remaining reader.new) (λ rest. rest ≡ [])) }
    ensures file { R.EndsWithin reader.old (2 ^ 32) → IfErr result (λ f. f ≢ Fault.File) }
{
    let text = read_file(alloc, reader)?;
    plan_of(alloc, text)
}

/// All that a reader of a file gives. Refusals: `File`, as of `read_plan`; `Memory`.
fn read_file<R: Source>(alloc: Global, reader: &mut R) -> Result<Vec<u8>, Fault>
    ensures ok { IfOk result (λ bytes. IfSome (R.remaining reader.old) (λ text. bytes.items ≡ text)) }
    ensures end { OnOk result (IfSome (R.remaining reader.new) (λ rest. rest ≡ [])) }
    ensures err { IfErr result (λ f. (f ≡ Fault.File) ⊎ (f ≡ Fault.Memory)) }
    ensures steady { R.EndsWithin reader.old (2 ^ 32) → IfErr result (λ f. f ≡ Fault.Memory) }
{
    match read_all(alloc, reader) {
        Ok(text) => Ok(text),
        Err(Fault::Input) => Err(Fault::File),
        Err(fault) => Err(fault),
    }
}

/// The plan that a text spells. Refusals: the fault of the text; `Memory`.
fn plan_of(alloc: Global, text: Vec<u8>) -> Result<Plan, Fault>
    ensures ok { IfOk result (PlanText text.items) }
    ensures fault { IfErr result (λ f. (f ≡ Fault.Memory) ⊎ ((e : AnyError) × (f ≡ Fault.Plan e) × PlanFault text.items e)) }
{
    let text = narrowed(text);
    match ascii_text(&text) {
        Some(text) => match Plan::read(alloc, text) {
            Ok(plan) => Ok(plan),
            Err(error) => Err(plan_fault(error)),
        },
        None => unreachable!(),
    }
}

/// A text with a control character in the place of each byte above 127.
fn narrowed(mut text: Vec<u8>) -> Vec<u8>
    ensures { result.items ≡ narrowed text.items }
{
    for at in 0..text.len() {
        text[at] = narrow(text[at]);
    }
    text
}

/// A byte, or a control character in the place of one above 127.
fn narrow(byte: u8) -> u8
    ensures { result ≡ narrow byte }
{
    if byte.is_ascii() { byte } else { DELETE }
}
