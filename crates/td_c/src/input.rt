//! What C hands in: texts of a plan and of closures, records and states.
ghost use Rattle.std.specs.Prelude.{◌≡◌, IfOk, IfErr, IfSome, IsTrue, is_some, map};
ghost use Rattle.std.specs.List.{list_all};
ghost use Rattle.td_plan.specs.Faults.{is_fold};
ghost use Rattle.td_plan.specs.Inputs.{is_input_of};
ghost use Rattle.td_stamp.specs.Bag.{bag_of};
ghost use Rattle.td_stamp.specs.Orders.{entry_cmp};
ghost use Rattle.td_closures.specs.Texts.{ClosuresText};
ghost use Rattle.td_closures.specs.Kept.{said_by};
ghost use Rattle.td_calls.specs.Stored.{stored_in};
ghost use Rattle.td_c.specs.PlanRead.{IsPlanOf, PlanRefused};
ghost use Rattle.td_c.specs.Beside.{ClosuresRefused};
ghost use Rattle.td_c.specs.Rows.{batch_of, states_of, is_fold_of, RecordRefused, StateRefused};

use crate::refusal::Refusal;
use crate::values::{TdRecord, TdState};
use std::alloc::Global;
use std::collections::BTreeMap;
use std::str;
use td_calls::{Closures, Law};
use td_closures::read_closures;
use td_formula::Closure;
use td_plan::{Kind, Plan};
use td_stamp::{Bag, Batch, Entry, Rec, State, States};

/// The closures that a text spells. Refusals: `ClosuresText`; `Closures`, with the first fault of the text, or for want of memory.
pub(crate) fn closures_of(alloc: Global, text: &[u8]) -> Result<Vec<Closure>, Refusal>
    ensures ok { IfOk result (λ closures. ClosuresText text.now (map said_by closures.items)) }
    ensures err { IfErr result (λ e. ClosuresRefused text.now e) }
{
    let Ok(text) = str::from_utf8(text) else {
        return Err(Refusal::ClosuresText);
    };
    match read_closures(alloc, text) {
        Ok(closures) => Ok(closures),
        Err(fault) => Err(Refusal::Closures(fault)),
    }
}

/// The plan that a text spells, whose closures are all stored.
pub(crate) fn plan_of<L: Law, C: Closures<L>>(
    alloc: Global,
    calls: &C,
    text: &[u8],
) -> Result<Plan, Refusal>
    ensures ok { IfOk result (λ plan. IsPlanOf (stored_in L.answers (C.stored calls.now)) text.now plan) }
    ensures err { IfErr result (λ e. PlanRefused (stored_in L.answers (C.stored calls.now)) text.now e) }
{
    let Ok(text) = str::from_utf8(text) else {
        return Err(Refusal::Text);
    };
    let plan = match Plan::read(alloc, text) {
        Ok(plan) => plan,
        Err(error) => return Err(Refusal::Plan(error)),
    };
    match Closures::<L>::fits(calls, &plan) {
        Ok(()) => Ok(plan),
        Err(lack) => Err(Refusal::Closure(lack)),
    }
}

/// The batch of some records.
pub(crate) fn batch_of(alloc: Global, plan: &Plan, records: &[TdRecord]) -> Result<Batch, Refusal>
    ensures ok { IfOk result (λ batch. batch ≡ batch_of records.now) }
    ensures accepted { IfOk result (λ batch. IsTrue (list_all (λ e. is_input_of plan.now e.input) batch)) }
    ensures err { IfErr result (λ e. RecordRefused plan.now records.now e) }
{
    let mut entries = Vec::with_capacity(alloc, records.len())?;
    for (index, record) in records.iter().enumerate() {
        let Some(input) = input_of(plan, record.vertex) else {
            return Err(Refusal::Input(index));
        };
        let rec = Rec {
            key: record.key,
            val: record.val,
        };
        entries.push(Entry { input, rec })?;
    }
    Ok(Bag::from_vec(alloc, entries))
}

/// The number of an input vertex.
fn input_of(plan: &Plan, number: u64) -> Option<u8>
    ensures found { is_some result ≡ is_input_of plan.now number }
    ensures same { IfSome result (λ input. input ≡ number) }
{
    let vertices = plan.vertices();
    if number < vertices.len() as u64 && vertices[number as usize].is_input() {
        Some(number as u8)
    } else {
        None
    }
}

/// The states that some rows tell.
pub(crate) fn states_of(alloc: Global, plan: &Plan, rows: &[TdState]) -> Result<States, Refusal>
    ensures ok { IfOk result (λ states. states ≡ states_of rows.now) }
    ensures err { IfErr result (λ e. StateRefused plan.now rows.now e) }
{
    let mut states = States::new(alloc);
    for (index, row) in rows.iter().enumerate() {
        let Some(fold) = fold_of(plan, row.vertex) else {
            return Err(Refusal::Fold(index));
        };
        if states.get(fold, row.key).is_some() {
            return Err(Refusal::Doubled(index));
        }
        states.set(fold, row.key, State { a: row.a, b: row.b })?;
    }
    Ok(states)
}

/// The states that some rows tell, as a map for an epoch that asks for few of them.
pub(crate) fn map_of(
    alloc: Global,
    plan: &Plan,
    rows: &[TdState],
) -> Result<BTreeMap<(u8, u64), State>, Refusal>
    ensures ok { IfOk result (λ states. states.entries ≡ states_of rows.now) }
    ensures err { IfErr result (λ e. StateRefused plan.now rows.now e) }
{
    let mut states = BTreeMap::new(alloc);
    for (index, row) in rows.iter().enumerate() {
        let Some(fold) = fold_of(plan, row.vertex) else {
            return Err(Refusal::Fold(index));
        };
        let earlier = states.insert((fold, row.key), State { a: row.a, b: row.b })?;
        if earlier.is_some() {
            return Err(Refusal::Doubled(index));
        }
    }
    Ok(states)
}

/// The number of a fold.
fn fold_of(plan: &Plan, number: u64) -> Option<u8>
    ensures found { is_some result ≡ is_fold_of plan.now number }
    ensures same { IfSome result (λ fold. fold ≡ number) }
{
    let vertices = plan.vertices();
    if number < vertices.len() as u64 && is_fold(vertices[number as usize].kind()) {
        Some(number as u8)
    } else {
        None
    }
}

/// Whether it is a fold's kind.
fn is_fold(kind: Kind) -> bool
    ensures { result ≡ is_fold kind }
{
    match kind {
        Kind::Fold(_) => true,
        _ => false,
    }
}
