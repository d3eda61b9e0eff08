//! Which epochs have passed, what came to the outputs, and collecting that.
ghost use Rattle.std.specs.Prelude.{◌≡◌, ◌-◌, ◌+◌, ◌≤◌, ◌<◌, map, IfOk, IfErr, OnOk, OnErr, not, find, ◌==◌, ◌++◌, [], filter};
ghost use Rattle.td_batch.specs.Flow.{numbers_from};
ghost use Rattle.td_machine.specs.Steps.{collect_step};
ghost use Rattle.td_machine.specs.Steps.Answer.{has_collected};
ghost use Rattle.td_core.specs.Came.{out_of, passed_since, later_than, next_below, output_of, output_at, came_at};
ghost use Rattle.td_core.specs.Collected.{without_passed};
ghost use Rattle.td_core.specs.Meant.{IsMeant};
ghost use Rattle.td_core.specs.declared.error.HallError.TheVariants.{Memory};
ghost use Rattle.td_reach.specs.Frontier.{has_passed};
ghost use Rattle.td_machine.specs.Active.{unpassed};
ghost use Rattle.td_stamp.specs.Bag.{join};
ghost use Rattle.td_machine.specs.State.{output_at_cmp};

use crate::error::HallError;
use crate::hall::{Hall, Parts};
use std::alloc::Global;
use std::collections::BTreeMap;
use std::marker::Model;
use td_calls::Law;
use td_machine::laws::{bags_of_states, reached, reached_in_order};
use td_progress::Table;
use td_progress::laws::in_any_order;
use td_stamp::{Bag, EpochOut, Output, Rec};

impl<L: Law> Hall<L> {
    /// The outputs of the epochs that have passed since the last call, epoch by epoch, also those in which nothing came out. They
    /// are let go. Those of epochs after the base are what the batch meaning of the batches that were released since gives.
    /// Refusal: `Memory`, with nothing changed. Of an epoch that was cut before it is collected the clause says nothing, since
    /// the batches up to a cut are dropped.
    pub fn collect(&mut self) -> Result<Vec<EpochOut>, HallError>
        ensures ok { IfOk result (λ outs. collect_step self.old ≡ (has_collected outs.items, self.new)) }
        ensures meaning { IfOk result (λ outs. IsMeant L.answers self.old outs.items) }
        ensures err { OnErr result (self.new ≡ self.old) }
        ensures memory { IfErr result (λ e. e ≡ Memory) }
    {
        reached::<L>();
        reached_in_order::<L>();
        in_any_order();
        collect_passed(&mut self.parts)
    }
}

/// The outputs of the epochs that have passed since the last that was collected.
fn collect_passed(parts: &mut Parts) -> Result<Vec<EpochOut>, HallError>
    requires { parts.old.collected < parts.old.next }
    ensures outs { IfOk result (λ outs. outs.items ≡ map (out_of parts.old.outputs) (passed_since parts.old.table.stamps parts.old.collected parts.old.next)) }
    ensures ok { OnOk result (parts.new ≡ without_passed parts.old) }
    ensures err { OnErr result (parts.new ≡ parts.old) }
    ensures memory { IfErr result (λ e. e ≡ Memory) }
{
    let last = last_passed(&parts.table, parts.collected, parts.next);
    let outs = take_after(&mut parts.outputs, parts.alloc, parts.collected, last)?;
    parts.collected = last;
    Ok(outs)
}

/// Takes the outputs of the epochs after one, up to the last, and lets go those of all epochs up to it.
fn take_after(
    outputs: &mut Outputs,
    alloc: Global,
    after: u64,
    last: u64,
) -> Result<Vec<EpochOut>, HallError>
    requires { after ≤ last }
    ensures outs { IfOk result (λ outs. outs.items ≡ map (out_of outputs.old) (numbers_from (after + 1) (last - after))) }
    ensures ok { OnOk result (outputs.new ≡ later_than last outputs.old) }
    ensures err { OnErr result (outputs.new ≡ outputs.old) }
    ensures memory { IfErr result (λ e. e ≡ Memory) }
{
    let mut outs = Vec::with_capacity(alloc, (last - after) as usize)?;
    for epoch in after..last {
        outs.push_reserved(outputs.take(epoch + 1));
    }
    outputs.let_go(last);
    Ok(outs)
}

impl<L: Law> Hall<L> {
    /// The least released epoch after the base that has not passed, if there is one. It takes no memory, and O(log n log e)
    /// time with n epochs since the base, e of them open.
    pub fn unpassed(&self) -> Option<u64>
        ensures { result ≡ unpassed self.now }
    {
        reached_in_order::<L>();
        in_any_order();
        let last = last_passed(&self.parts.table, self.parts.base, self.parts.next);
        if last + 1 < self.parts.next {
            Some(last + 1)
        } else {
            None
        }
    }
}

/// The last of the epochs after one, and before the next that is released, up to which all have passed; or that one. An epoch before
/// one that has passed has passed, so it is found by halving.
pub(crate) fn last_passed(table: &Table, after: u64, next: u64) -> u64
    requires { after < next }
    ensures after { after ≤ result }
    ensures before { result < next }
    ensures passed { passed_since table.now.stamps after next ≡ numbers_from (after + 1) (result - after) }
    ensures unpassed { find (λ e. not (has_passed table.now.stamps e)) (numbers_from (after + 1) (next - (after + 1))) ≡ next_below (result + 1) next }
{
    let mut last = after;
    let mut after_it = next;
    while last + 1 < after_it {
        let middle = last + (after_it - last) / 2;
        if table.passed(middle) {
            last = middle;
        } else {
            after_it = middle;
        }
    }
    last
}

/// The records that came to the outputs of a plan, by epoch. Contracts see them as the core machine does: as a bag.
///
/// An epoch's records are pushed into one list, and sorted once, when they are taken.
#[derive(Drop)]
pub struct Outputs {
    epochs: BTreeMap<u64, Vec<Output>>,
    alloc: Global,
}

impl Model for Outputs {
    ghost use Rattle.std.specs.Prelude.{List};
    ghost use Rattle.std.specs.List.Sorted.{IsStrictlySortedBy};
    ghost use Rattle.std.specs.Map.{keys_of};
    ghost use Rattle.std.specs.Ordering.{nat_cmp};
    ghost use Rattle.td_machine.specs.declared.records.OutputAt.{OutputAt};
    ghost use Rattle.td_core.specs.Came.{came};

    ghost Value = { List OutputAt };

    ghost view = { λ o. came (λ v. v.items) o.epochs.entries };

    ghost invariant = { λ o. IsStrictlySortedBy nat_cmp (keys_of o.epochs.entries) };
}

impl Outputs {
    /// Nothing came, in a map that allocates with `alloc`.
    pub fn new(alloc: Global) -> Outputs
        ensures { result ≡ [] }
    {
        Outputs {
            epochs: BTreeMap::new(alloc),
            alloc,
        }
    }

    /// These records came to an output in an epoch. Refusal: `Memory`, with nothing changed.
    pub fn come(&mut self, epoch: u64, vertex: u8, recs: &[Rec]) -> Result<(), HallError>
        ensures ok { OnOk result (self.new ≡ join output_at_cmp (map (output_at epoch vertex) recs.now) self.old) }
        ensures err { OnErr result (self.new ≡ self.old) }
    {
        bags_of_states();
        if recs.is_empty() {
            return Ok(());
        }
        match self.epochs.get_mut(&epoch) {
            Some(outputs) => push_outputs(outputs, vertex, recs),
            None => {
                let mut outputs = Vec::new(self.alloc);
                push_outputs(&mut outputs, vertex, recs)?;
                self.epochs.insert(epoch, outputs)?;
                Ok(())
            }
        }
    }

    /// Takes the outputs of an epoch. Takes no memory.
    pub fn take(&mut self, epoch: u64) -> EpochOut
        ensures epoch { result.epoch ≡ epoch }
        ensures recs { result.recs ≡ came_at epoch self.old }
        ensures left { self.new ≡ filter (λ o. not (o.epoch == epoch)) self.old }
    {
        bags_of_states();
        let outputs = match self.epochs.remove(&epoch) {
            Some(outputs) => outputs,
            None => Vec::new(self.alloc),
        };
        EpochOut {
            epoch,
            recs: Bag::from_vec(self.alloc, outputs),
        }
    }

    /// Lets go what came in epochs up to this one. Takes no memory.
    pub fn let_go(&mut self, epoch: u64)
        ensures { self.new ≡ later_than epoch self.old }
    {
        bags_of_states();
        self.epochs.retain(|came_in, _outputs| epoch < *came_in);
    }
}

/// Puts records that come to an output at the end of a list. Refusal: `Memory`, with nothing changed.
fn push_outputs(outputs: &mut Vec<Output>, vertex: u8, recs: &[Rec]) -> Result<(), HallError>
    ensures ok { OnOk result (outputs.new.items ≡ outputs.old.items ++ map (output_of vertex) recs.now) }
    ensures err { OnErr result (outputs.new.items ≡ outputs.old.items) }
{
    outputs.reserve(recs.len())?;
    for rec in recs {
        outputs.push_reserved(Output { vertex, rec: *rec });
    }
    Ok(())
}
