//! What a vertex emits in a turn of its block.
//!
//! A bag stands as long as a vertex still reads it. What is kept only has to be alike for those who read it
//! (`specs/Steps/Tree.antt`), and a turn depends on nothing else (`proofs/Alike.antt`). Readers are looked for over the rest of
//! the tree, for each vertex and each of its sources. In a turn that is at most the square of the loop's edges.
ghost use Rattle.std.specs.Prelude.{ℕ, ◌≡◌, ◌==◌, ◌+◌, ◌∷◌, ◌++◌, [], ◌||◌, None, true, false, IsTrue, IfOk, OnOk, is_none, length, map};
ghost use Rattle.std.specs.List.{list_any};
ghost use Rattle.td_stamp.specs.States.{state_of};
ghost use Rattle.td_plan.specs.Faults.{is_fold, is_output};
ghost use Rattle.td_calls.specs.Fits.{lacking_code};
ghost use Rattle.td_calls.specs.Callbacks.{arrivals};
ghost use Rattle.td_batch.specs.Meaning.{emitted, bags_read, emission};
ghost use Rattle.td_batch.specs.Steps.Emitted.{input_of};
ghost use Rattle.td_batch.specs.Changes.{changes_by};
ghost use Rattle.td_batch.specs.Steps.Tree.{nodes_of, reads, AreAlike};

use crate::arrivals::{arriving, only_bag};
use crate::changes::Change;
use crate::emitted::{Before, Emitted};
use crate::kept::KeptStates;
use crate::sent::{answer_one, answer_several};
use crate::tree::Tree;
use std::alloc::Global;
use td_calls::{Closures, Law};
use td_plan::{Kind, Vertex};
use td_stamp::{Batch, StampError as BatchError};

/// What an epoch is computed from.
#[derive(Drop)]
pub(crate) struct Given<'g, C, S> {
    pub calls: &'g C,
    pub states: &'g S,
    pub batch: &'g Batch,
}

/// What a vertex emits, where somebody asks for it: else it emits nothing, and its closure is not called. Refusal: `Memory`.
/// Closures answer a law, so nobody can see the difference.
pub(crate) fn emission_if_asked<'b, 'a, L: Law, C: Closures<L>, S: KeptStates>(
    alloc: Global,
    given: &Given<'a, C, S>,
    before: &'b Before<'a>,
    bags: &'b [Emitted<'a>],
    vertex: &Vertex,
    rest: &Tree,
    need: &[usize],
    changes: &mut Vec<Change>,
) -> Result<Emitted<'a>, BatchError>
    requires stored { lacking_code (C.stored given.now.calls.now) vertex.now.vertex.kind ≡ None }
    ensures read { IfOk result (λ bag. list_any (λ s. s == vertex.now.vertex.number) (reads (is_none before.now) (nodes_of rest.now) ++ need.now) ≡ true
        → bag ≡ emission (input_of L.answers (S.states given.now.states.now) given.now.batch.now) before.now bags.now vertex.now.vertex) }
    ensures put_out { IfOk result (λ bag. is_output vertex.now.vertex.kind ≡ true
        → bag ≡ emission (input_of L.answers (S.states given.now.states.now) given.now.batch.now) before.now bags.now vertex.now.vertex) }
    ensures kept { OnOk result (changes.new.items ≡ changes.old.items
        ++ changes_by L.answers (state_of (S.states given.now.states.now) vertex.now.vertex.number) vertex.now.vertex.number vertex.now.vertex.kind
        (arrivals (map (emitted (bags_read vertex.now.vertex.kind before.now bags.now)) vertex.now.vertex.sources))) }
{
    if is_idle(vertex, rest, before.is_first(), need) {
        return Ok(Emitted::nothing(alloc));
    }
    emission::<L, C, S>(alloc, given, before, bags, vertex, changes)
}

/// Whether nobody asks for what a vertex emits: neither is it read, nor put out, nor is a fold asked for its states.
fn is_idle(vertex: &Vertex, rest: &Tree, is_first: bool, need: &[usize]) -> bool
    ensures unread { IsTrue result → list_any (λ s. s == vertex.now.vertex.number) (reads is_first (nodes_of rest.now) ++ need.now) ≡ false }
    ensures no_output { IsTrue result → is_output vertex.now.vertex.kind ≡ false }
    ensures no_fold { IsTrue result → is_fold vertex.now.vertex.kind ≡ false }
    ensures all_others { is_output vertex.now.vertex.kind ≡ false → is_fold vertex.now.vertex.kind ≡ false
        → list_any (λ s. s == vertex.now.vertex.number) (reads is_first (nodes_of rest.now) ++ need.now) ≡ false → IsTrue result }
{
    match vertex.kind() {
        Kind::Fold(_) => false,
        Kind::Output => false,
        _ => !is_needed(rest, is_first, need, usize::from(vertex.number())),
    }
}

/// What a vertex emits, from the bags so far in this turn of its block, and those of the turn before. What a fold is to
/// keep comes after the `changes` so far. Refusal: `Memory`.
fn emission<'b, 'a, L: Law, C: Closures<L>, S: KeptStates>(
    alloc: Global,
    given: &Given<'a, C, S>,
    before: &'b Before<'a>,
    bags: &'b [Emitted<'a>],
    vertex: &Vertex,
    changes: &mut Vec<Change>,
) -> Result<Emitted<'a>, BatchError>
    requires stored { lacking_code (C.stored given.now.calls.now) vertex.now.vertex.kind ≡ None }
    ensures sent { IfOk result (λ bag. bag ≡ emission (input_of L.answers (S.states given.now.states.now) given.now.batch.now) before.now bags.now vertex.now.vertex) }
    ensures kept { OnOk result (changes.new.items ≡ changes.old.items
        ++ changes_by L.answers (state_of (S.states given.now.states.now) vertex.now.vertex.number) vertex.now.vertex.number vertex.now.vertex.kind
        (arrivals (map (emitted (bags_read vertex.now.vertex.kind before.now bags.now)) vertex.now.vertex.sources))) }
{
    let kind = vertex.kind();
    let number = vertex.number();
    if vertex.is_input() {
        return Ok(Emitted::given(alloc, given.batch, number));
    }
    let (calls, states) = (given.calls, given.states);
    let sent = match only_bag(before, bags, vertex) {
        Some(bag) => answer_one::<L, C, S>(alloc, calls, states, number, kind, bag, changes)?,
        None => {
            let arrived = arriving(alloc, before, bags, vertex)?;
            answer_several::<L, C, S>(alloc, calls, states, number, kind, arrived, changes)?
        }
    };
    Ok(Emitted::own(sent))
}

/// Keeps the bag that a vertex emitted, where a later vertex of its turn reads it or `need` has it, and lets go of those
/// that it was the last to read. Refusal: `Memory`.
pub(crate) fn keep<'a>(
    alloc: Global,
    bags: &mut Vec<Emitted<'a>>,
    bag: Emitted<'a>,
    vertex: &Vertex,
    rest: &Tree,
    is_first: bool,
    need: &[usize],
) -> Result<(), BatchError>
    requires { vertex.now.vertex.number ≡ length bags.old.items }
    ensures length { OnOk result (length bags.new.items ≡ length bags.old.items + 1) }
    ensures alike { OnOk result (AreAlike (reads is_first (nodes_of rest.now) ++ need.now) bags.new.items (bags.old.items ++ bag.entry ∷ [])) }
{
    let kept = if is_needed(rest, is_first, need, usize::from(vertex.number())) {
        bag
    } else {
        Emitted::nothing(alloc)
    };
    bags.push(kept)?;
    for source in vertex.sources() {
        if !is_needed(rest, is_first, need, usize::from(*source)) {
            let_go(alloc, bags, *source);
        }
    }
    Ok(())
}

/// Lets go of the bag of a source.
fn let_go(alloc: Global, bags: &mut Vec<Emitted<'_>>, source: u8)
    ensures length { length bags.new.items ≡ length bags.old.items }
    ensures others { (s : ℕ) → (s ≡ source → ⊥) → emitted bags.new.items s ≡ emitted bags.old.items s }
{
    let place = usize::from(source);
    if place < bags.len() {
        bags[place] = Emitted::nothing(alloc);
    }
}

/// Whether the bag of a source is still read: by one of these vertices, or because `need` has it.
pub(crate) fn is_needed(rest: &Tree, is_first: bool, need: &[usize], source: usize) -> bool
    ensures { result ≡ list_any (λ s. s == source) (reads is_first (nodes_of rest.now) ++ need.now) }
{
    rest.is_read(is_first, source) || need.contains(&source)
}
