//! The turns of a loop. A loop ends when nothing returns. Later turns emit nothing (`laws::quiet_turns`), so that is the
//! definition's answer.
ghost use Rattle.std.specs.Prelude.{ℕ, ◌≡◌, ◌==◌, ◌+◌, ◌^◌, ◌≤◌, ◌<◌, ◌∷◌, ◌++◌, [], None, List, true, false, IfOk};
ghost use Rattle.std.specs.Prelude.{OnOk, is_none, length, map};
ghost use Rattle.std.specs.List.{list_any};
ghost use Rattle.td_stamp.specs.Orders.{rec_cmp};
ghost use Rattle.td_stamp.specs.Bag.{bag_of};
ghost use Rattle.td_plan.specs.Tree.{size};
ghost use Rattle.td_batch.specs.Meaning.{emission, emitted, turn, turns, over_turns};
ghost use Rattle.td_batch.specs.Quiet.{fed_back, IsLoopBody};
ghost use Rattle.td_batch.specs.Steps.Emitted.{input_of};
ghost use Rattle.td_batch.specs.Steps.Epoch.{IsAt, IsInner};
ghost use Rattle.td_batch.specs.Steps.Tree.{nodes_of, reads, AreAlike};

use crate::emission::{Given, emission_if_asked, is_needed, keep};
use crate::emitted::{Before, Emitted};
use crate::kept::KeptStates;
use crate::tree::Tree;
use std::alloc::Global;
use std::marker::Model;
use td_calls::{Closures, Law};
use td_plan::Vertex;
use td_stamp::{Bag, Rec, StampError as BatchError};

/// Records that are collected over the turns of a loop, and sorted once.
#[derive(Drop)]
pub(crate) struct Collected {
    recs: Vec<Rec>,
}

impl Model for Collected {
    ghost use Rattle.std.specs.Prelude.{List};
    ghost use Rattle.td_stamp.specs.declared.values.Rec.{Rec};

    ghost Value = { List Rec };

    ghost view = { λ c. c.recs.items };
}

/// One turn of a block in a loop: after the bags so far come those of its vertices, of which the ones are kept that `need`
/// has. Refusal: `Memory`.
#[cycle(turns)]
pub(crate) fn walk<'b, 'a, L: Law, C: Closures<L>, S: KeptStates>(
    alloc: Global,
    given: &Given<'a, C, S>,
    before: &'b Before<'a>,
    nodes: &Tree,
    need: &[usize],
    bags: &mut Vec<Emitted<'a>>,
) -> Result<(), BatchError>
    requires { IsInner (C.stored given.now.calls.now) (length bags.old.items) (nodes_of nodes.now) }
    ensures length { OnOk result (length bags.new.items ≡ length bags.old.items + size (nodes_of nodes.now)) }
    ensures alike { OnOk result (AreAlike need.now bags.new.items
        (turn (input_of L.answers (S.states given.now.states.now) given.now.batch.now) (nodes_of nodes.now) before.now bags.old.items)) }
{
    match nodes {
        Tree::Done => Ok(()),
        Tree::Then(vertex, rest) => {
            emit::<L, C, S>(alloc, given, before, vertex, rest, need, bags)?;
            walk::<L, C, S>(alloc, given, before, rest, need, bags)?;
            Ok(())
        }
        Tree::Loop(bound, body, rest) => {
            go_round::<L, C, S>(
                alloc,
                given,
                before.is_first(),
                *bound,
                body,
                rest,
                need,
                bags,
            )?;
            walk::<L, C, S>(alloc, given, before, rest, need, bags)?;
            Ok(())
        }
    }
}

/// Has a vertex of a loop emit its bag. Refusal: `Memory`.
fn emit<'b, 'a, L: Law, C: Closures<L>, S: KeptStates>(
    alloc: Global,
    given: &Given<'a, C, S>,
    before: &'b Before<'a>,
    vertex: &Vertex,
    rest: &Tree,
    need: &[usize],
    bags: &mut Vec<Emitted<'a>>,
) -> Result<(), BatchError>
    requires { IsAt (C.stored given.now.calls.now) (length bags.old.items) vertex.now.vertex }
    ensures length { OnOk result (length bags.new.items ≡ length bags.old.items + 1) }
    ensures alike { OnOk result (AreAlike (reads (is_none before.now) (nodes_of rest.now) ++ need.now) bags.new.items
        (bags.old.items ++ emission (input_of L.answers (S.states given.now.states.now) given.now.batch.now) before.now bags.old.items vertex.now.vertex ∷ [])) }
{
    // Folds stand outside loops: none of these is to keep a state.
    let mut none = Vec::new(alloc);
    let bag = emission_if_asked::<L, C, S>(
        alloc,
        given,
        &*before,
        bags.as_slice(),
        vertex,
        rest,
        need,
        &mut none,
    )?;
    keep(alloc, bags, bag, vertex, rest, before.is_first(), need)?;
    Ok(())
}

/// All turns of a loop, until nothing comes back: after the bags so far come those of its vertices over all turns, of
/// which the ones are kept that a later vertex of the block reads, or `need` has. Refusal: `Memory`.
#[cycle(turns)]
pub(crate) fn go_round<'a, L: Law, C: Closures<L>, S: KeptStates>(
    alloc: Global,
    given: &Given<'a, C, S>,
    is_first: bool,
    bound: u16,
    body: &Tree,
    rest: &Tree,
    need: &[usize],
    bags: &mut Vec<Emitted<'a>>,
) -> Result<(), BatchError>
    requires body { (outer : List ℕ) × IsLoopBody outer (length bags.old.items) (nodes_of body.now) }
    requires inner { IsInner (C.stored given.now.calls.now) (length bags.old.items) (nodes_of body.now) }
    requires bound { 1 ≤ bound }
    ensures length { OnOk result (length bags.new.items ≡ length bags.old.items + size (nodes_of body.now)) }
    ensures alike { OnOk result (AreAlike (reads is_first (nodes_of rest.now) ++ need.now) bags.new.items
        (bags.old.items ++ over_turns (turns (λ earlier. turn (input_of L.answers (S.states given.now.states.now) given.now.batch.now) (nodes_of body.now) earlier bags.old.items) bound None)
        (length bags.old.items) (size (nodes_of body.now)))) }
{
    let first = bags.len();
    let inside = needed_inside(alloc, is_first, body, rest, need)?;
    let mut before = Before::first_turn(alloc);
    let mut collected = Vec::new(alloc);
    let mut left = bound;
    while left > 0 {
        walk::<L, C, S>(alloc, given, &before, body, inside.as_slice(), bags)?;
        let made = bags.split_off(first)?;
        collect(
            alloc,
            &mut collected,
            first,
            made.as_slice(),
            rest,
            is_first,
            need,
        )?;
        before = Before::of(first, made);
        left = if body.is_quiet(&before) { 0 } else { left - 1 };
    }
    push_collected(alloc, bags, collected)?;
    Ok(())
}

/// The numbers of the vertices whose bags are read after a turn of a loop: by the vertices after the loop, by its
/// feedbacks, and in its later turns. Refusal: `Memory`.
fn needed_inside(
    alloc: Global,
    is_first: bool,
    body: &Tree,
    rest: &Tree,
    need: &[usize],
) -> Result<Vec<usize>, BatchError>
    ensures { IfOk result (λ numbers. numbers.items ≡ (reads is_first (nodes_of rest.now) ++ need.now) ++ (fed_back (nodes_of body.now) ++ reads false (nodes_of body.now))) }
{
    let mut numbers = Vec::new(alloc);
    rest.push_reads(is_first, &mut numbers)?;
    numbers.extend_from_slice(need)?;
    body.push_fed_back(&mut numbers)?;
    body.push_reads(false, &mut numbers)?;
    Ok(numbers)
}

/// Appends the bags of a turn that are read after the loop to what is collected. Refusal: `Memory`.
fn collect(
    alloc: Global,
    collected: &mut Vec<Collected>,
    first: usize,
    made: &[Emitted<'_>],
    rest: &Tree,
    is_first: bool,
    need: &[usize],
) -> Result<(), BatchError>
    requires fits { first + length made.now < 2 ^ 64 }
    requires few { length collected.old.items ≤ length made.now }
    ensures length { OnOk result (length collected.new.items ≡ length made.now) }
    ensures each { OnOk result ((i : ℕ) → list_any (λ s. s == first + i) (reads is_first (nodes_of rest.now) ++ need.now) ≡ true
        → emitted collected.new.items i ≡ emitted collected.old.items i ++ emitted made.now i) }
{
    while collected.len() < made.len() {
        collected.push(Collected {
            recs: Vec::new(alloc),
        })?;
    }
    for (place, bag) in made.iter().enumerate() {
        if is_needed(rest, is_first, need, first + place) {
            append_at(collected, place, bag)?;
        }
    }
    Ok(())
}

/// Appends the records of a bag to what is collected at a place. Refusal: `Memory`.
fn append_at(
    collected: &mut Vec<Collected>,
    place: usize,
    bag: &Emitted<'_>,
) -> Result<(), BatchError>
    requires { place < length collected.old.items }
    ensures length { OnOk result (length collected.new.items ≡ length collected.old.items) }
    ensures put { OnOk result (emitted collected.new.items place ≡ emitted collected.old.items place ++ bag.now) }
    ensures others { OnOk result ((i : ℕ) → (i ≡ place → ⊥) → emitted collected.new.items i ≡ emitted collected.old.items i) }
{
    append(&mut collected[place], bag)
}

/// Appends the records of a bag. Refusal: `Memory`.
fn append(collected: &mut Collected, bag: &Emitted<'_>) -> Result<(), BatchError>
    ensures { OnOk result (collected.new ≡ collected.old ++ bag.now) }
{
    for rec in bag.list() {
        collected.recs.push(rec)?;
    }
    Ok(())
}

/// Appends the bags of what was collected. Refusal: `Memory`.
fn push_collected(
    alloc: Global,
    bags: &mut Vec<Emitted<'_>>,
    collected: Vec<Collected>,
) -> Result<(), BatchError>
    ensures { OnOk result (bags.new.items ≡ bags.old.items ++ map (bag_of rec_cmp) collected.items) }
{
    for each in collected {
        bags.push(Emitted::own(Bag::from_vec(alloc, each.recs)))?;
    }
    Ok(())
}
