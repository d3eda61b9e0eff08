//! The plain evaluator.
//!
//! No proof needs that batches are accepted by the plan. The condition stands so that no caller loses a record without notice: an
//! entry at a vertex that is no input goes nowhere.
ghost use Rattle.std.specs.Prelude.{◌≡◌, ◌≤◌, ◌<◌, ◌+◌, ◌^◌, ◌++◌, None, IsTrue, IfOk, OnOk, All, length, fold};
ghost use Rattle.std.specs.List.{list_all};
ghost use Rattle.td_plan.specs.Blocks.{vertices};
ghost use Rattle.td_plan.specs.Inputs.{is_input_of};
ghost use Rattle.td_plan.specs.Tree.{tree_of};
ghost use Rattle.td_calls.specs.Fits.{first_lack};
ghost use Rattle.td_batch.specs.Meaning.{run, numbered, epoch_result};
ghost use Rattle.td_batch.specs.Steps.Emitted.{input_of};
ghost use Rattle.td_batch.specs.Changes.{epoch_changes, with_change};

use crate::changes::{Change, EpochChanges};
use crate::emission::Given;
use crate::epoch::{Brought, bring};
use crate::kept::KeptStates;
use crate::tree::Tree;
use std::alloc::Global;
use std::marker::Model;
use td_calls::{Closures, Law};
use td_plan::Plan;
use td_stamp::{Bag, Batch, EpochOut, StampError as BatchError, States};

/// A plan made ready for its epochs: what stands in which of its loops is found once, and not at each epoch. Contracts see the
/// plan.
#[derive(Drop)]
pub struct Evaluator<'a> {
    // (what contracts see)
    plan: &'a Plan,
    tree: Tree,
    alloc: Global,
}

impl<'a> Model for Evaluator<'a> {
    ghost use Rattle.std.specs.Prelude.{List};
    ghost use Rattle.td_plan.specs.Lines.{Line};
    ghost use Rattle.td_batch.specs.Steps.Epoch.{IsReady};
    ghost use Rattle.td_batch.specs.Steps.Tree.{nodes_of};

    ghost Value = { List Line };

    ghost view = { λ e. e.plan.now };

    ghost invariant = { λ e. IsReady e.plan.now (nodes_of e.tree) };
}

impl<'a> Evaluator<'a> {
    /// Makes a plan ready. It takes O(n) time and memory in its lines. Refusal: `Memory`.
    pub fn of(alloc: Global, plan: &'a Plan) -> Result<Evaluator<'a>, BatchError>
        ensures { IfOk result (λ evaluator. evaluator ≡ plan.now) }
    {
        let tree = Tree::of(alloc, plan)?;
        Ok(Evaluator { plan, tree, alloc })
    }

    /// One epoch of the batch meaning, numbered `epoch`: its output, and the states after it in place of those before. They
    /// are changed in place, key by key of the folds at which records arrive. Refusal: `Memory`, after which some keys may
    /// have their new state and some their old one, so that the states are of no use.
    pub fn epoch<L: Law, C: Closures<L>>(
        &self,
        calls: &C,
        states: &mut States,
        epoch: u64,
        batch: &Batch,
    ) -> Result<EpochOut, BatchError>
        requires fits { first_lack (C.stored calls.now) (vertices self.now) ≡ None }
        requires accepted { IsTrue (list_all (λ e. is_input_of self.now e.input) batch.now) }
        requires number { (1 ≤ epoch) × (epoch < 2 ^ 63) }
        ensures number { IfOk result (λ out. out.epoch ≡ epoch) }
        ensures out { IfOk result (λ out. out.recs ≡ (epoch_result (input_of L.answers states.old batch.now) (tree_of self.now)).outs) }
        ensures states { OnOk result (states.new ≡ (epoch_result (input_of L.answers states.old batch.now) (tree_of self.now)).states) }
    {
        let EpochChanges { outputs, changes } = self.changes::<L, C, States>(calls, states, batch)?;
        keep_all(states, changes.as_slice())?;
        Ok(EpochOut {
            epoch,
            recs: outputs,
        })
    }

    /// What one epoch puts out, and what becomes of the states that it asks for, wherever they stand; nothing is kept. Each key of a
    /// fold at which records arrive has one change. Refusal: `Memory`.
    pub fn changes<L: Law, C: Closures<L>, S: KeptStates>(
        &self,
        calls: &C,
        states: &S,
        batch: &Batch,
    ) -> Result<EpochChanges, BatchError>
        requires fits { first_lack (C.stored calls.now) (vertices self.now) ≡ None }
        requires accepted { IsTrue (list_all (λ e. is_input_of self.now e.input) batch.now) }
        ensures outputs { IfOk result (λ all. all.outputs ≡ (epoch_result (input_of L.answers (S.states states.now) batch.now) (tree_of self.now)).outs) }
        ensures changes { IfOk result (λ all. all.changes.items ≡ epoch_changes (input_of L.answers (S.states states.now) batch.now) (tree_of self.now)) }
        ensures states { IfOk result (λ all. fold with_change (S.states states.now) all.changes.items ≡ (epoch_result (input_of L.answers (S.states states.now) batch.now) (tree_of self.now)).states) }
    {
        let given = Given {
            calls,
            states,
            batch,
        };
        let Brought { outputs, changes } = bring::<L, C, S>(self.alloc, &given, &self.tree)?;
        Ok(EpochChanges {
            outputs: Bag::from_vec(self.alloc, outputs),
            changes,
        })
    }
}

/// The states and outputs to which a plan comes from these states by these batches, one an epoch, numbered from `first`
/// on: the batch meaning. An epoch without records has its output too. It takes O(n log n) time in the records that pass
/// the vertices. Refusal: `Memory`.
pub fn evaluate<L: Law, C: Closures<L>>(
    alloc: Global,
    plan: &Plan,
    calls: &C,
    states: &States,
    first: u64,
    batches: &[Batch],
) -> Result<(States, Vec<EpochOut>), BatchError>
    requires fits { first_lack (C.stored calls.now) (vertices plan.now) ≡ None }
    requires accepted { All (λ batch. IsTrue (list_all (λ e. is_input_of plan.now e.input) batch)) batches.now }
    requires begins { 1 ≤ first }
    requires ends { first + length batches.now ≤ 2 ^ 63 }
    ensures states { IfOk result (λ r. r.0 ≡ (run L.answers (tree_of plan.now) states.now batches.now).states) }
    ensures outs { IfOk result (λ r. r.1.items ≡ numbered first (run L.answers (tree_of plan.now) states.now batches.now).outs) }
{
    let evaluator = Evaluator::of(alloc, plan)?;
    let mut states = states.copy()?;
    let mut outs = Vec::new(alloc);
    for batch in batches {
        let epoch = number_after(first, outs.as_slice());
        outs.push(evaluator.epoch::<L, C>(calls, &mut states, epoch, batch)?)?;
    }
    Ok((states, outs))
}

/// The number of the epoch after these, of which the first is numbered `first`.
fn number_after(first: u64, outs: &[EpochOut]) -> u64
    requires { first + length outs.now < 2 ^ 64 }
    ensures { result ≡ first + length outs.now }
{
    first + outs.len() as u64
}

/// Has the folds keep what they are to keep. Refusal: `Memory`, after which some keys have their new state.
fn keep_all(states: &mut States, changes: &[Change]) -> Result<(), BatchError>
    ensures { OnOk result (states.new ≡ fold with_change states.old changes.now) }
{
    for change in changes {
        match change.state {
            Some(state) => {
                let _before = states.set(change.vertex, change.key, state)?;
            }
            None => {
                let _before = states.remove(change.vertex, change.key);
            }
        }
    }
    Ok(())
}
