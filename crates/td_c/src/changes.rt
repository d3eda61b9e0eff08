//! One epoch over some of the states that C keeps: those of the keys that it touches are enough.
ghost use Rattle.std.specs.Prelude.{◌≡◌, IfOk, OnOk, IfErr, OnErr};
ghost use Rattle.td_calls.specs.Stored.{stored_in};
ghost use Rattle.td_c.specs.Epoch.{AdvanceRefused};
ghost use Rattle.td_c.specs.Changes.{Changes, ChangesWritten, ChangesRefused};

use crate::input::{batch_of, map_of, plan_of};
use crate::output::{put_changes, put_outputs};
use crate::refusal::Refusal;
use crate::values::{TdChange, TdCounts, TdRecord, TdState};
use std::alloc::Global;
use std::collections::BTreeMap;
use td_batch::{EpochChanges, Evaluator, laws};
use td_calls::{Closures, Law};
use td_stamp::State;

/// The changes of one epoch over arrays, by these closures.
pub(crate) fn write_changes<L: Law, C: Closures<L>>(
    alloc: Global,
    calls: &C,
    text: &[u8],
    records: &[TdRecord],
    states: &[TdState],
    changes: &mut [TdChange],
    outputs: &mut [TdRecord],
    counts: &mut TdCounts,
) -> Result<(), Refusal>
    ensures ok { OnOk result (ChangesWritten (stored_in L.answers (C.stored calls.now))
        text.now records.now states.now changes.old changes.new outputs.old outputs.new counts.new) }
    ensures err { IfErr result (λ e. ChangesRefused (stored_in L.answers (C.stored calls.now))
        text.now records.now states.now changes.old outputs.old counts.old counts.new e) }
    ensures same_changes { OnErr result (changes.new ≡ changes.old) }
    ensures same_outputs { OnErr result (outputs.new ≡ outputs.old) }
{
    let made = changed::<L, C>(alloc, calls, text, records, states)?;
    *counts = TdCounts {
        states: made.changes.len(),
        outputs: made.outputs.len(),
    };
    if changes.len() < counts.states || outputs.len() < counts.outputs {
        return Err(Refusal::Room);
    }
    put_changes(changes, made.changes.as_slice());
    put_outputs(outputs, &made.outputs);
    Ok(())
}

/// What an epoch gives, from some of the states.
fn changed<L: Law, C: Closures<L>>(
    alloc: Global,
    calls: &C,
    text: &[u8],
    records: &[TdRecord],
    given: &[TdState],
) -> Result<EpochChanges, Refusal>
    ensures ok { IfOk result (λ made. Changes (stored_in L.answers (C.stored calls.now)) text.now records.now given.now made.changes.items made.outputs) }
    ensures err { IfErr result (λ e. AdvanceRefused (stored_in L.answers (C.stored calls.now)) text.now records.now given.now e) }
{
    laws::epochs_are_local();
    let plan = plan_of::<L, C>(alloc, calls, text)?;
    let batch = batch_of(alloc, &plan, records)?;
    let states = map_of(alloc, &plan, given)?;
    let evaluator = Evaluator::of(alloc, &plan)?;
    let made = evaluator.changes::<L, C, BTreeMap<(u8, u64), State>>(calls, &states, &batch)?;
    Ok(made)
}
