//! The states that the folds of a plan keep.
ghost use Rattle.std.specs.Prelude.{◌≡◌, ◌↔◌, OnOk, OnErr, IfOk, IsTrue, Some, [], length};
ghost use Rattle.std.specs.Iterator.{at_most, YieldsFirst};
ghost use Rattle.std.specs.List.{All};
ghost use Rattle.std.specs.Map.{keys_of};
ghost use Rattle.td_stamp.specs.Bag.{set_of};
ghost use Rattle.td_stamp.specs.Orders.{state_key_cmp};
ghost use Rattle.td_stamp.specs.States.{state_of, with_state, without_state, replaced, AreStates};

use crate::error::StampError;
use crate::values::State;
use std::alloc::Global;
use std::collections::{BTreeSet, HashMap, btree_set, hash_map};
use std::marker::Model;

/// The states that folds keep, by vertex and key. A state is found by the hash of these, at a cost that does not grow with how many
/// there are; the vertices and keys stand in order beside, so that the states can be listed in it.
///
/// A fold finds a state twice in an epoch, to read it and to put it in its place. A descent in an ordered map of many keys costs
/// several times as much as a look-up by hash. Only a key that comes or goes finds its way in the ordered set.
///
/// The hash has a fixed seed. Somebody who chooses keys can choose many that meet, and each of them then costs O(n). A service
/// that takes keys from strangers needs keys that are hashed with a secret of its own. std's `RandomState` wants random bytes,
/// which no call here has, and two runs would differ.
#[derive(Debug, Drop)]
pub struct States {
    pub(crate) kept: HashMap<(u8, u64), State>,
    pub(crate) order: BTreeSet<(u8, u64)>,
}

impl Model for States {
    ghost use Rattle.std.specs.Prelude.{ℕ, ◌≡◌, is_some};
    ghost use Rattle.std.specs.HashMap.{get};
    ghost use Rattle.std.specs.BTreeSet.{contains, IsOrdered};
    ghost use Rattle.td_stamp.specs.Orders.{state_key_cmp};
    ghost use Rattle.td_stamp.specs.States.{StateList, same_place, listed};

    ghost Value = { StateList };

    ghost view = { λ s. listed s.order.keys (get same_place s.kept) };

    ghost invariant = { λ s. IsOrdered state_key_cmp s.order × ((p : ℕ × ℕ) → contains state_key_cmp s.order p ≡ is_some (get same_place s.kept p)) };
}

impl States {
    /// No states, in maps that allocate with `alloc`.
    pub fn new(alloc: Global) -> Self
        ensures { result ≡ [] }
    {
        States {
            kept: HashMap::new(alloc),
            order: BTreeSet::new(alloc),
        }
    }

    /// How many states there are.
    pub fn len(&self) -> usize
        ensures count { result ≡ length self.now }
        ensures ordered { AreStates self.now }
    {
        self.order.len()
    }

    /// Whether there is no state.
    pub fn is_empty(&self) -> bool
        ensures { IsTrue result ↔ (self.now ≡ []) }
    {
        self.order.is_empty()
    }

    /// The state that `vertex` keeps for `key`, if any.
    pub fn get(&self, vertex: u8, key: u64) -> Option<State>
        ensures { result ≡ state_of self.now vertex key }
    {
        self.kept.get(&(vertex, key)).copied()
    }

    /// Has `vertex` keep `state` for `key`, and hands out the one that it kept before, if any. Refusal: `Memory`, with the states
    /// unchanged.
    pub fn set(&mut self, vertex: u8, key: u64, state: State) -> Result<Option<State>, StampError>
        ensures ok { OnOk result (self.new ≡ with_state self.old vertex key state) }
        ensures before { IfOk result (λ before. before ≡ state_of self.old vertex key) }
        ensures err { OnErr result (self.new ≡ self.old) }
        ensures ordered { AreStates self.old }
    {
        let place = (vertex, key);
        let before = self.kept.insert(place, state)?;
        if before.is_some() {
            return Ok(before);
        }
        if let Err(refused) = self.order.insert(place) {
            self.kept.remove(&place);
            return Err(refused.into());
        }
        Ok(before)
    }

    /// Has `vertex` keep another state for a `key` for which it keeps one; else nothing changes. Takes no memory.
    pub fn replace(&mut self, vertex: u8, key: u64, state: State)
        ensures { self.new ≡ replaced self.old vertex key state }
    {
        let place = (vertex, key);
        if self.kept.contains_key(&place) {
            // Only a new key may be refused.
            let Ok(_before) = self.kept.insert(place, state) else {
                unreachable!();
            };
        }
    }

    /// Takes away the state that `vertex` keeps for `key`, and hands it out. Takes no memory.
    pub fn remove(&mut self, vertex: u8, key: u64) -> Option<State>
        ensures removed { result ≡ state_of self.old vertex key }
        ensures rest { self.new ≡ without_state self.old vertex key }
    {
        let place = (vertex, key);
        self.order.remove(&place);
        self.kept.remove(&place)
    }

    /// The same states, in memory of their own. Refusal: `Memory`.
    pub fn copy(&self) -> Result<States, StampError>
        ensures { IfOk result (λ states. states ≡ self.now) }
    {
        let kept = self.kept.clone()?;
        let order = self.order.clone()?;
        Ok(States { kept, order })
    }

    /// The states in the order of (vertex, key), each as ((vertex, key), state). Takes no memory.
    pub fn list(&self) -> StatesIterator<'_>
        ensures all { result ≡ self.now }
        ensures ordered { AreStates self.now }
    {
        StatesIterator {
            places: self.order.iter(),
            kept: &self.kept,
        }
    }

    /// The states as they lie in memory, each as ((vertex, key), state): in no order, and without a look-up. Takes no memory.
    pub fn unordered(&self) -> UnorderedStates<'_>
        ensures found { All (λ e. state_of self.now e.0.0 e.0.1 ≡ Some e.1) result }
        ensures all { set_of state_key_cmp (keys_of result) ≡ keys_of self.now }
    {
        // Its contract says that the vertices and keys stand in order.
        let _in_order = self.order.iter();
        UnorderedStates {
            entries: self.kept.iter(),
        }
    }
}

/// An iterator over kept states in the order of (vertex, key).
#[derive(Drop)]
pub struct StatesIterator<'a> {
    places: btree_set::Iter<'a, (u8, u64)>,
    kept: &'a HashMap<(u8, u64), State>,
}

impl<'a> Model for StatesIterator<'a> {
    ghost use Rattle.std.specs.HashMap.{get};
    ghost use Rattle.td_stamp.specs.States.{StateList, same_place, listed};

    ghost Value = { StateList };

    ghost view = { λ s. listed s.places (get same_place s.kept.now) };
}

impl<'a> Iterator for StatesIterator<'a> {
    type Item = ((u8, u64), State);

    ghost next_gives = { YieldsFirst (λ s. s) };

    ghost remaining = { λ s. at_most (length s) };

    fn next(&mut self) -> Option<((u8, u64), State)> {
        let place = *self.places.next()?;
        let state = self
            .kept
            .get(&place)
            .copied()
            .unwrap_or(State { a: 0, b: 0 });
        Some((place, state))
    }
}

/// An iterator over kept states in no order.
#[derive(Drop)]
pub struct UnorderedStates<'a> {
    entries: hash_map::Iter<'a, (u8, u64), State>,
}

impl<'a> Model for UnorderedStates<'a> {
    ghost use Rattle.td_stamp.specs.States.{StateList};

    ghost Value = { StateList };

    ghost view = { λ s. s.entries };
}

impl<'a> Iterator for UnorderedStates<'a> {
    type Item = ((u8, u64), State);

    ghost next_gives = { YieldsFirst (λ s. s) };

    ghost remaining = { λ s. at_most (length s) };

    fn next(&mut self) -> Option<((u8, u64), State)> {
        let (place, state) = self.entries.next()?;
        Some((*place, *state))
    }
}
