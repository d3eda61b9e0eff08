//! One epoch.
ghost use Rattle.std.specs.Prelude.{◌≡◌, ◌+◌, ◌∷◌, ◌++◌, [], None, true, IfOk, OnOk, length, map};
ghost use Rattle.td_stamp.specs.States.{StateList, state_of};
ghost use Rattle.td_plan.specs.Lines.{Vertex};
ghost use Rattle.td_calls.specs.Callbacks.{arrivals};
ghost use Rattle.td_batch.specs.Meaning.{emitted, emission, epoch_bags, outputs_at, outputs_in};
ghost use Rattle.td_batch.specs.Steps.Emitted.{input_of};
ghost use Rattle.td_batch.specs.Steps.Epoch.{IsAt, IsOuter};
ghost use Rattle.td_batch.specs.Changes.{changes_by, epoch_changes};
ghost use Rattle.td_batch.specs.Steps.Tree.{nodes_of, reads, AreAlike};

use crate::changes::Change;
use crate::emission::{Given, emission_if_asked, keep};
use crate::emitted::{Before, Emitted};
use crate::kept::KeptStates;
use crate::rounds::go_round;
use crate::tree::Tree;
use std::alloc::Global;
use td_calls::{Closures, Law};
use td_plan::Vertex;
use td_stamp::{Output, StampError as BatchError};

/// What an epoch brings: its outputs, in no order, and the states that folds are to keep. The states are changed at the end, in
/// place. So each key is asked with its state before the epoch, and an epoch costs what it touches.
#[derive(Drop)]
pub(crate) struct Brought {
    pub outputs: Vec<Output>,
    pub changes: Vec<Change>,
}

/// What an epoch brings. Each bag is let go when its last reader has had it, and none is made for which nobody asks.
/// Refusal: `Memory`.
pub(crate) fn bring<'a, L: Law, C: Closures<L>, S: KeptStates>(
    alloc: Global,
    given: &Given<'a, C, S>,
    tree: &Tree,
) -> Result<Brought, BatchError>
    requires { IsOuter (C.stored given.now.calls.now) 0 (nodes_of tree.now) }
    ensures outs { IfOk result (λ brought. brought.outputs.items ≡
        outputs_in (emitted (epoch_bags (input_of L.answers (S.states given.now.states.now) given.now.batch.now) (nodes_of tree.now))) (nodes_of tree.now)) }
    ensures changes { IfOk result (λ brought. brought.changes.items ≡
        epoch_changes (input_of L.answers (S.states given.now.states.now) given.now.batch.now) (nodes_of tree.now)) }
{
    let before = Before::first_turn(alloc);
    let mut brought = Brought {
        outputs: Vec::new(alloc),
        changes: Vec::new(alloc),
    };
    let mut bags = Vec::new(alloc);
    let mut left = tree;
    loop {
        match left {
            Tree::Done => return Ok(brought),
            Tree::Then(vertex, rest) => {
                step::<L, C, S>(alloc, given, &before, vertex, rest, &mut bags, &mut brought)?;
                left = rest;
            }
            Tree::Loop(bound, body, rest) => {
                go_round::<L, C, S>(alloc, given, true, *bound, body, rest, &[], &mut bags)?;
                left = rest;
            }
        }
    }
}

/// Has a vertex outside loops emit its bag. What it brings comes after what was brought so far. Refusal: `Memory`.
fn step<'b, 'a, L: Law, C: Closures<L>, S: KeptStates>(
    alloc: Global,
    given: &Given<'a, C, S>,
    before: &'b Before<'a>,
    vertex: &Vertex,
    rest: &Tree,
    bags: &mut Vec<Emitted<'a>>,
    brought: &mut Brought,
) -> Result<(), BatchError>
    requires first { before.now ≡ None }
    requires here { IsAt (C.stored given.now.calls.now) (length bags.old.items) vertex.now.vertex }
    ensures length { OnOk result (length bags.new.items ≡ length bags.old.items + 1) }
    ensures alike { OnOk result (AreAlike (reads true (nodes_of rest.now)) bags.new.items
        (bags.old.items ++ emission (input_of L.answers (S.states given.now.states.now) given.now.batch.now) None bags.old.items vertex.now.vertex ∷ [])) }
    ensures outs { OnOk result (brought.new.outputs.items ≡ brought.old.outputs.items
        ++ outputs_at (λ _. emission (input_of L.answers (S.states given.now.states.now) given.now.batch.now) None bags.old.items vertex.now.vertex) vertex.now.vertex vertex.now.vertex.kind) }
    ensures changes { OnOk result (brought.new.changes.items ≡ brought.old.changes.items
        ++ changes_by L.answers (state_of (S.states given.now.states.now) vertex.now.vertex.number) vertex.now.vertex.number vertex.now.vertex.kind
        (arrivals (map (emitted bags.old.items) vertex.now.vertex.sources))) }
{
    let bag = emission_if_asked::<L, C, S>(
        alloc,
        given,
        before,
        bags.as_slice(),
        vertex,
        rest,
        &[],
        &mut brought.changes,
    )?;
    if vertex.is_output() {
        put_out(&mut brought.outputs, vertex.number(), &bag)?;
    }
    keep(alloc, bags, bag, vertex, rest, true, &[])?;
    Ok(())
}

/// Appends the records of an output vertex. Refusal: `Memory`.
fn put_out(outputs: &mut Vec<Output>, vertex: u8, records: &Emitted<'_>) -> Result<(), BatchError>
    ensures { OnOk result (outputs.new.items ≡ outputs.old.items ++ map (λ r. record { vertex = vertex; rec = r }) records.now) }
{
    for rec in records.list() {
        outputs.push(Output { vertex, rec })?;
    }
    Ok(())
}
