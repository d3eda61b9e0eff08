//! Kept states in order alone.
ghost use Rattle.std.specs.Prelude.{◌≡◌, ◌↔◌, ◌≤◌, ◌∷◌, ◌++◌, OnOk, OnErr, IfOk, IsTrue, [], length, vec_capacity};
ghost use Rattle.std.specs.Iterator.{at_most, YieldsFirst};
ghost use Rattle.td_stamp.specs.States.{AreStates};

use crate::error::StampError;
use crate::states::States;
use crate::values::State;
use std::alloc::Global;
use std::collections::{BTreeSet, HashMap};
use std::marker::Model;

/// The states that folds keep, in the order of vertex and key: for who lists, copies and compares them. Each takes 32 bytes, and some 90 in
/// `States`, which finds it by its hash.
#[derive(Debug, Drop)]
pub struct OrderedStates {
    entries: Vec<((u8, u64), State)>,
}

impl Model for OrderedStates {
    ghost use Rattle.td_stamp.specs.States.{StateList, AreStates};

    ghost Value = { StateList };

    ghost view = { λ s. s.entries.items };

    ghost invariant = { λ s. AreStates s.entries.items };
}

impl OrderedStates {
    /// No states, in a list that allocates with `alloc`.
    pub fn new(alloc: Global) -> Self
        ensures { result ≡ [] }
    {
        OrderedStates {
            entries: Vec::new(alloc),
        }
    }

    /// The same states as others, in memory of their own. Refusal: `Memory`.
    pub fn of(alloc: Global, states: &States) -> Result<OrderedStates, StampError>
        ensures { IfOk result (λ ordered. ordered ≡ states.now) }
    {
        let mut entries = Vec::with_capacity(alloc, states.len())?;
        for entry in states.list() {
            entries.push(entry)?;
        }
        Ok(OrderedStates { entries })
    }

    /// The same states as others, in memory that was taken for them before. Takes no memory.
    pub fn in_room(room: Vec<((u8, u64), State)>, states: &States) -> OrderedStates
        requires empty { room.items ≡ [] }
        requires enough { length states.now ≤ vec_capacity room }
        ensures { result ≡ states.now }
    {
        let mut entries = room;
        for state in states.list() {
            entries.push_reserved(state);
        }
        OrderedStates { entries }
    }

    /// How many states there are.
    pub fn len(&self) -> usize
        ensures { result ≡ length self.now }
    {
        self.entries.len()
    }

    /// Whether there is no state.
    pub fn is_empty(&self) -> bool
        ensures { IsTrue result ↔ (self.now ≡ []) }
    {
        self.entries.is_empty()
    }

    /// Puts one more state behind all others. Refusal: `Memory`, with the states unchanged.
    pub fn push(&mut self, vertex: u8, key: u64, state: State) -> Result<(), StampError>
        requires { AreStates (self.old ++ ((vertex, key), state) ∷ []) }
        ensures ok { OnOk result (self.new ≡ self.old ++ ((vertex, key), state) ∷ []) }
        ensures err { OnErr result (self.new ≡ self.old) }
    {
        self.entries.push(((vertex, key), state))?;
        Ok(())
    }

    /// The same states, in memory of their own. Refusal: `Memory`.
    pub fn copy(&self) -> Result<OrderedStates, StampError>
        ensures { IfOk result (λ states. states ≡ self.now) }
    {
        let entries = self.entries.clone()?;
        Ok(OrderedStates { entries })
    }

    /// The same states, each found by its hash too, in memory of their own. Refusal: `Memory`.
    pub fn to_states(&self, alloc: Global) -> Result<States, StampError>
        ensures { IfOk result (λ states. states ≡ self.now) }
    {
        let order: BTreeSet<(u8, u64)> = self.entries.iter().map(|entry| entry.0).collect(alloc)?;
        let mut kept = HashMap::with_capacity(alloc, self.len())?;
        for (place, state) in self.list() {
            kept.insert(place, state)?;
        }
        Ok(States { kept, order })
    }

    /// Whether these are the same states as others. Takes no memory.
    pub fn are(&self, other: &States) -> bool
        ensures { IsTrue result ↔ (self.now ≡ other.now) }
    {
        if self.len() != other.len() {
            return false;
        }
        let mut others = other.list();
        for own in self.list() {
            if others.next() != Some(own) {
                return false;
            }
        }
        true
    }

    /// The states in the order of (vertex, key), each as ((vertex, key), state). Takes no memory.
    pub fn list(&self) -> OrderedStatesIterator<'_>
        ensures all { result ≡ self.now }
        ensures ordered { AreStates self.now }
    {
        OrderedStatesIterator {
            rest: self.entries.as_slice(),
        }
    }
}

/// An iterator over kept states in the order of (vertex, key).
#[derive(Drop)]
pub struct OrderedStatesIterator<'a> {
    rest: &'a [((u8, u64), State)],
}

impl<'a> Model for OrderedStatesIterator<'a> {
    ghost use Rattle.td_stamp.specs.States.{StateList};

    ghost Value = { StateList };

    ghost view = { λ s. s.rest.now };
}

impl<'a> Iterator for OrderedStatesIterator<'a> {
    type Item = ((u8, u64), State);

    ghost next_gives = { YieldsFirst (λ s. s) };

    ghost remaining = { λ s. at_most (length s) };

    fn next(&mut self) -> Option<((u8, u64), State)> {
        let (first, rest) = self.rest.split_first()?;
        self.rest = rest;
        Some(*first)
    }
}
