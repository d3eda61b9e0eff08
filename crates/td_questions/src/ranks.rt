//! The first of some entries, in one of two orders.
//!
//! They are kept in a set of no more than are wanted, so that entries may come in any order. One that stands behind all of a full set
//! costs a comparison, and each other one a step in a small tree.
ghost use Rattle.std.specs.Prelude.{◌≡◌, ◌≤◌, map, length, IfOk, OnOk};
ghost use Rattle.std.specs.Bool.{OnTrue};
ghost use Rattle.td_stamp.specs.Bag.{set_insert, set_of};
ghost use Rattle.td_stamp.specs.BagLaws.{SetLaws};
ghost use Rattle.td_questions.specs.Asked.{at_most, kept_by};
ghost use Rattle.td_questions.specs.Ranks.{order_of, ranked_cmp};
ghost use Rattle.td_questions.specs.Weighed.{weight_of, ranked, entry_of, IsFew};

use crate::answers::Entry;
use std::alloc::Global;
use std::collections::BTreeSet;
use td_shard::StatesAfter;
use td_stamp::{StampError as QuestionError, State};

/// An order of entries: of one a from the least key on.
#[derive(Clone, Copy, Debug, PartialEq, Eq)]
pub(crate) enum Order {
    /// From the least a on.
    FromLeast,
    /// From the greatest a on.
    FromGreatest,
}

impl Order {
    /// What is less for an entry that stands before: a, or what falls as a rises. It gives a back, too.
    fn weight(self, a: i64) -> i64
        ensures { result ≡ weight_of self a }
    {
        match self {
            Order::FromLeast => a,
            Order::FromGreatest => -1 - a,
        }
    }
}

/// An entry by its place in an order.
#[derive(Clone, Copy, Debug, PartialEq, Eq, PartialOrd, Ord)]
pub(crate) struct Ranked {
    weight: i64,
    place: (u8, u64),
    b: i64,
}

impl Ranked {
    fn of(order: Order, place: (u8, u64), state: State) -> Ranked
        ensures { result ≡ ranked order (place, state) }
    {
        Ranked {
            weight: order.weight(state.a),
            place,
            b: state.b,
        }
    }

    /// The entry.
    fn entry(&self, order: Order) -> Entry
        ensures { result ≡ entry_of order self.now }
    {
        let state = State {
            a: order.weight(self.weight),
            b: self.b,
        };
        (self.place, state)
    }
}

/// The first entries of a vertex in an order, so many where a number is given. Of no more it takes memory. The states come as they lie,
/// and each costs O(log n) with n wanted. Refusal: `Memory`.
pub(crate) fn first_entries(
    alloc: Global,
    states: &StatesAfter<'_>,
    vertex: u8,
    order: Order,
    count: Option<u64>,
) -> Result<Vec<Entry>, QuestionError>
    ensures { IfOk result (λ entries. entries.items ≡ at_most count (set_of (order_of order) (kept_by vertex states.now))) }
{
    rank_laws();
    let mut first = BTreeSet::new(alloc);
    for (place, state) in states.unordered() {
        if place.0 == vertex {
            keep_first(&mut first, Ranked::of(order, place, state), count)?;
        }
    }
    entries_of(alloc, order, &first)
}

/// Keeps one more, and no more than are wanted: the first. Refusal: `Memory`.
fn keep_first(
    first: &mut BTreeSet<Ranked>,
    one: Ranked,
    count: Option<u64>,
) -> Result<(), QuestionError>
    requires few { IsFew count first.old.keys }
    ensures kept { OnOk result (first.new.keys ≡ at_most count (set_insert ranked_cmp one first.old.keys)) }
    ensures few { OnOk result (IsFew count first.new.keys) }
{
    if is_behind(first, &one, count) {
        return Ok(());
    }
    first.insert(one)?;
    if let Some(most) = count
        && most < first.len() as u64
    {
        first.pop_last();
    }
    Ok(())
}

/// Whether as many as are wanted stand before it, or one that is the same among them.
fn is_behind(first: &BTreeSet<Ranked>, one: &Ranked, count: Option<u64>) -> bool
    requires few { IsFew count first.now.keys }
    ensures { OnTrue result (at_most count (set_insert ranked_cmp one.now first.now.keys) ≡ first.now.keys) }
{
    match (count, first.last()) {
        (Some(most), Some(last)) => most <= first.len() as u64 && last.cmp(one).is_le(),
        _ => false,
    }
}

/// The entries of a set, in its order. Refusal: `Memory`.
fn entries_of(
    alloc: Global,
    order: Order,
    first: &BTreeSet<Ranked>,
) -> Result<Vec<Entry>, QuestionError>
    ensures { IfOk result (λ entries. entries.items ≡ map (entry_of order) first.now.keys) }
{
    let mut entries = Vec::new(alloc);
    for one in first.iter() {
        entries.push(one.entry(order))?;
    }
    Ok(entries)
}

/// The laws of sets of ranked entries.
fn rank_laws()
    ensures { SetLaws ranked_cmp }
{
    td_stamp::laws::sets_by_any_order::<Ranked>();
}
