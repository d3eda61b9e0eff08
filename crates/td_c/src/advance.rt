//! One epoch: what C hands in is read, the plan is evaluated, and what comes of it is written.
ghost use Rattle.std.specs.Prelude.{◌≡◌, ◌≢◌, IfOk, OnOk, IfErr, OnErr};
ghost use Rattle.td_calls.specs.Stored.{stored_in};
ghost use Rattle.td_c.specs.Epoch.{Advances, AdvanceRefused, EpochWritten, EpochRefused};

use crate::input::{batch_of, plan_of, states_of};
use crate::output::{put_outputs, put_states};
use crate::refusal::Refusal;
use crate::values::{TdCounts, TdRecord, TdState};
use std::alloc::Global;
use td_batch::Evaluator;
use td_calls::{Closures, Law};
use td_stamp::{Bag, Output, States};

/// What comes of an epoch.
#[derive(Drop)]
pub(crate) struct EpochResult {
    states: States,
    outputs: Bag<Output>,
}

/// One epoch over arrays, by these closures.
pub(crate) fn advance<L: Law, C: Closures<L>>(
    alloc: Global,
    calls: &C,
    text: &[u8],
    records: &[TdRecord],
    states: &mut [TdState],
    outputs: &mut [TdRecord],
    counts: &mut TdCounts,
) -> Result<(), Refusal>
    ensures ok { OnOk result (EpochWritten (stored_in L.answers (C.stored calls.now))
        text.now records.now states.old states.new outputs.old outputs.new counts.old counts.new) }
    ensures err { IfErr result (λ e. EpochRefused (stored_in L.answers (C.stored calls.now))
        text.now records.now states.old outputs.old counts.old counts.new e) }
    ensures same_states { OnErr result (states.new ≡ states.old) }
    ensures same_outputs { OnErr result (outputs.new ≡ outputs.old) }
{
    if states.len() < counts.states {
        return Err(Refusal::Count);
    }
    let after = advanced::<L, C>(alloc, calls, text, records, &states[..counts.states])?;
    *counts = TdCounts {
        states: after.states.len(),
        outputs: after.outputs.len(),
    };
    if states.len() < counts.states || outputs.len() < counts.outputs {
        return Err(Refusal::Room);
    }
    put_states(states, &after.states);
    put_outputs(outputs, &after.outputs);
    Ok(())
}

/// What an epoch gives.
fn advanced<L: Law, C: Closures<L>>(
    alloc: Global,
    calls: &C,
    text: &[u8],
    records: &[TdRecord],
    kept: &[TdState],
) -> Result<EpochResult, Refusal>
    ensures ok { IfOk result (λ after. Advances (stored_in L.answers (C.stored calls.now)) text.now records.now kept.now after.states after.outputs) }
    ensures err { IfErr result (λ e. AdvanceRefused (stored_in L.answers (C.stored calls.now)) text.now records.now kept.now e) }
{
    let plan = plan_of::<L, C>(alloc, calls, text)?;
    let batch = batch_of(alloc, &plan, records)?;
    let mut states = states_of(alloc, &plan, kept)?;
    let evaluator = Evaluator::of(alloc, &plan)?;
    let out = evaluator.epoch::<L, C>(calls, &mut states, 1, &batch)?;
    Ok(EpochResult {
        states,
        outputs: out.recs,
    })
}
