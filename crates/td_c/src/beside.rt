//! Calls with closures in text, which stand beside those of the catalogue.
ghost use Rattle.std.specs.Prelude.{◌≡◌, IfErr, OnOk, OnErr};
ghost use Rattle.td_formula.specs.Stored.{stored_beside};
ghost use Rattle.td_c.specs.Stores.{stored_catalogue};
ghost use Rattle.td_c.specs.PlanRead.{HasPlan, PlanRefused};
ghost use Rattle.td_c.specs.Epoch.{EpochWritten, EpochRefused};
ghost use Rattle.td_c.specs.Changes.{ChangesWritten, ChangesRefused, ChangesWrittenBeside, ChangesRefusedBeside};
ghost use Rattle.td_c.specs.Beside.{HasPlanBeside, PlanRefusedBeside, EpochWrittenBeside, EpochRefusedBeside};

use crate::advance::advance;
use crate::changes::write_changes;
use crate::input::{closures_of, plan_of};
use crate::refusal::Refusal;
use crate::values::{TdChange, TdCounts, TdRecord, TdState};
use std::alloc::Global;
use std::marker::Brand;
use td_catalogue::{Catalogue, Shelves};
use td_formula::{Beside, BesideCalls, Closure, Formulas, WrittenCalls};

/// Whether a text spells a plan whose closures are all in the catalogue, or in a text beside it.
pub(crate) fn check_beside(alloc: Global, text: &[u8], closures: &[u8]) -> Result<(), Refusal>
    ensures ok { OnOk result (HasPlanBeside closures.now text.now) }
    ensures err { IfErr result (λ e. PlanRefusedBeside closures.now text.now e) }
{
    let spelled = closures_of(alloc, closures)?;
    check_by::<Brand>(alloc, text, spelled)
}

/// One epoch over arrays, by the closures of the catalogue and those of a text beside it.
pub(crate) fn advance_beside(
    alloc: Global,
    text: &[u8],
    closures: &[u8],
    records: &[TdRecord],
    states: &mut [TdState],
    outputs: &mut [TdRecord],
    counts: &mut TdCounts,
) -> Result<(), Refusal>
    ensures ok { OnOk result (EpochWrittenBeside closures.now text.now records.now states.old states.new outputs.old outputs.new counts.old counts.new) }
    ensures err { IfErr result (λ e. EpochRefusedBeside closures.now text.now records.now states.old outputs.old counts.old counts.new e) }
    ensures same_states { OnErr result (states.new ≡ states.old) }
    ensures same_outputs { OnErr result (outputs.new ≡ outputs.old) }
{
    let spelled = closures_of(alloc, closures)?;
    advance_by::<Brand>(alloc, text, spelled, records, states, outputs, counts)
}

/// The changes of one epoch over arrays, by the closures of the catalogue and those of a text beside it.
pub(crate) fn write_changes_beside(
    alloc: Global,
    text: &[u8],
    closures: &[u8],
    records: &[TdRecord],
    states: &[TdState],
    changes: &mut [TdChange],
    outputs: &mut [TdRecord],
    counts: &mut TdCounts,
) -> Result<(), Refusal>
    ensures ok { OnOk result (ChangesWrittenBeside closures.now text.now records.now states.now changes.old changes.new outputs.old outputs.new counts.new) }
    ensures err { IfErr result (λ e. ChangesRefusedBeside closures.now text.now records.now states.now changes.old outputs.old counts.old counts.new e) }
    ensures same_changes { OnErr result (changes.new ≡ changes.old) }
    ensures same_outputs { OnErr result (outputs.new ≡ outputs.old) }
{
    let spelled = closures_of(alloc, closures)?;
    write_changes_by::<Brand>(
        alloc, text, spelled, records, states, changes, outputs, counts,
    )
}

/// `check_beside`, where a type parameter stands for the closures.
fn check_by<F: Formulas>(alloc: Global, text: &[u8], closures: Vec<Closure>) -> Result<(), Refusal>
    requires { closures.items ≡ F.closures }
    ensures ok { OnOk result (HasPlan (stored_beside stored_catalogue F.closures) text.now) }
    ensures err { IfErr result (λ e. PlanRefused (stored_beside stored_catalogue F.closures) text.now e) }
{
    let above = WrittenCalls::<F>::new(closures);
    let calls = BesideCalls {
        below: Shelves,
        above,
    };
    let _plan = plan_of::<Beside<Catalogue, F>, BesideCalls<Shelves, F>>(alloc, &calls, text)?;
    Ok(())
}

/// `advance_beside`, where a type parameter stands for the closures.
fn advance_by<F: Formulas>(
    alloc: Global,
    text: &[u8],
    closures: Vec<Closure>,
    records: &[TdRecord],
    states: &mut [TdState],
    outputs: &mut [TdRecord],
    counts: &mut TdCounts,
) -> Result<(), Refusal>
    requires { closures.items ≡ F.closures }
    ensures ok { OnOk result (EpochWritten (stored_beside stored_catalogue F.closures)
        text.now records.now states.old states.new outputs.old outputs.new counts.old counts.new) }
    ensures err { IfErr result (λ e. EpochRefused (stored_beside stored_catalogue F.closures)
        text.now records.now states.old outputs.old counts.old counts.new e) }
    ensures same_states { OnErr result (states.new ≡ states.old) }
    ensures same_outputs { OnErr result (outputs.new ≡ outputs.old) }
{
    let above = WrittenCalls::<F>::new(closures);
    let calls = BesideCalls {
        below: Shelves,
        above,
    };
    advance::<Beside<Catalogue, F>, BesideCalls<Shelves, F>>(
        alloc, &calls, text, records, states, outputs, counts,
    )
}

/// `write_changes_beside`, where a type parameter stands for the closures.
fn write_changes_by<F: Formulas>(
    alloc: Global,
    text: &[u8],
    closures: Vec<Closure>,
    records: &[TdRecord],
    states: &[TdState],
    changes: &mut [TdChange],
    outputs: &mut [TdRecord],
    counts: &mut TdCounts,
) -> Result<(), Refusal>
    requires { closures.items ≡ F.closures }
    ensures ok { OnOk result (ChangesWritten (stored_beside stored_catalogue F.closures)
        text.now records.now states.now changes.old changes.new outputs.old outputs.new counts.new) }
    ensures err { IfErr result (λ e. ChangesRefused (stored_beside stored_catalogue F.closures)
        text.now records.now states.now changes.old outputs.old counts.old counts.new e) }
    ensures same_changes { OnErr result (changes.new ≡ changes.old) }
    ensures same_outputs { OnErr result (outputs.new ≡ outputs.old) }
{
    let above = WrittenCalls::<F>::new(closures);
    let calls = BesideCalls {
        below: Shelves,
        above,
    };
    write_changes::<Beside<Catalogue, F>, BesideCalls<Shelves, F>>(
        alloc, &calls, text, records, states, changes, outputs, counts,
    )
}
