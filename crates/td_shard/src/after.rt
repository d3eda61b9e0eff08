//! The states after an epoch, read where they are kept.
//!
//! A state is looked up at its place. To list all, the places of the base and those for which folds left a state are gone through
//! side by side, each list in its order. So the base is not copied: only what folds left since is gathered in order.
ghost use Rattle.std.specs.Prelude.{◌≡◌, ◌∷◌, [], length, drop, Some, IfOk, MatchOption};
ghost use Rattle.std.specs.Iterator.{at_most, YieldsFirst};
ghost use Rattle.std.specs.List.{All};
ghost use Rattle.std.specs.Map.{keys_of};
ghost use Rattle.td_stamp.specs.Bag.{set_of};
ghost use Rattle.td_stamp.specs.BagLaws.{SetLaws};
ghost use Rattle.td_stamp.specs.Orders.{state_key_cmp};
ghost use Rattle.td_stamp.specs.States.{state_of, AreStates};
ghost use Rattle.td_shard.specs.After.{states_after};

use crate::versions::{LatestOfEach, Versions};
use std::cmp::Ordering;
use std::marker::Model;
use td_stamp::{StampError as ShardError, State, States, StatesIterator, UnorderedStates};

/// The states after an epoch: those of a base, and then what folds left up to the epoch. Contracts see them as their list.
#[derive(Drop)]
pub struct StatesAfter<'a> {
    versions: &'a Versions,
    base: &'a States,
    epoch: u64,
}

impl<'a> Model for StatesAfter<'a> {
    ghost use Rattle.td_stamp.specs.States.{StateList};
    ghost use Rattle.td_shard.specs.After.{states_after};

    ghost Value = { StateList };

    ghost view = { λ s. states_after s.epoch s.base.now s.versions.now };
}

impl<'a> StatesAfter<'a> {
    /// The states after an epoch, of those of a base and of what folds left above it.
    pub fn new(versions: &'a Versions, base: &'a States, epoch: u64) -> StatesAfter<'a>
        ensures { result ≡ states_after epoch base.now versions.now }
    {
        StatesAfter {
            versions,
            base,
            epoch,
        }
    }

    /// The state that a vertex keeps for a key, if any. Costs O(log v) with v versions of this key, where its hash is met by few
    /// others. Takes no memory.
    pub fn get(&self, vertex: u8, key: u64) -> Option<State>
        ensures { result ≡ state_of self.now vertex key }
    {
        self.versions.state_at(self.epoch, vertex, key, self.base)
    }

    /// The states as they lie, each as ((vertex, key), state): in no order, and one for which a fold left something may come twice. One
    /// of the base costs a look-up among what folds left, and each other one O(log v) with its v versions. Takes no memory.
    pub fn unordered(&self) -> UnorderedAfter<'a>
        ensures found { All (λ e. state_of self.now e.0.0 e.0.1 ≡ Some e.1) result }
        ensures all { set_of state_key_cmp (keys_of result) ≡ keys_of self.now }
        ensures ordered { AreStates self.now }
    {
        place_laws();
        let (versions, base) = (self.versions, self.base);
        // Its contract says that the states stand in order.
        let _in_order = base.list();
        UnorderedAfter {
            versions,
            base,
            epoch: self.epoch,
            kept: base.unordered(),
            left: versions.latest_of_each(self.epoch),
        }
    }

    /// The same states, to be listed. What folds left is gathered in order: O(v log v) with v keys for which they did. Refusal:
    /// `Memory`.
    pub fn in_order(&self) -> Result<StatesInOrder<'a>, ShardError>
        ensures { IfOk result (λ states. states ≡ self.now) }
    {
        let versions = self.versions;
        let left = versions.states_at(self.epoch, States::new(versions.allocator()))?;
        Ok(StatesInOrder {
            versions,
            base: self.base,
            epoch: self.epoch,
            left,
        })
    }
}

/// The states after an epoch, with those that folds left in order beside. Contracts see their list.
#[derive(Drop)]
pub struct StatesInOrder<'a> {
    versions: &'a Versions,
    base: &'a States,
    epoch: u64,
    left: States,
}

impl<'a> Model for StatesInOrder<'a> {
    ghost use Rattle.std.specs.Prelude.{[], ◌≡◌};
    ghost use Rattle.td_stamp.specs.States.{StateList};
    ghost use Rattle.td_shard.specs.After.{states_after};

    ghost Value = { StateList };

    ghost view = { λ s. states_after s.epoch s.base.now s.versions.now };

    ghost invariant = { λ s. s.left ≡ states_after s.epoch [] s.versions.now };
}

impl<'a> StatesInOrder<'a> {
    /// The states in the order of (vertex, key), each as ((vertex, key), state). Each costs a step in one of two lists and a
    /// look-up. Takes no memory.
    pub fn list(&self) -> StatesAfterIterator<'_>
        ensures all { result ≡ self.now }
        ensures ordered { AreStates self.now }
    {
        place_laws();
        StatesAfterIterator {
            versions: self.versions,
            base: self.base,
            epoch: self.epoch,
            places: Places {
                base: Ahead::of(self.base.list()),
                left: Ahead::of(self.left.list()),
            },
        }
    }
}

/// An iterator over the states after an epoch, in the order of (vertex, key).
#[derive(Drop)]
pub struct StatesAfterIterator<'a> {
    versions: &'a Versions,
    base: &'a States,
    epoch: u64,
    places: Places<'a>,
}

impl<'a> Model for StatesAfterIterator<'a> {
    ghost use Rattle.td_stamp.specs.States.{StateList};
    ghost use Rattle.td_shard.specs.After.{states_after, entries_at};

    ghost Value = { StateList };

    ghost view = { λ s. entries_at (states_after s.epoch s.base.now s.versions.now) s.places };
}

impl<'a> Iterator for StatesAfterIterator<'a> {
    type Item = ((u8, u64), State);

    ghost next_gives = { YieldsFirst (λ s. s) };

    ghost remaining = { λ s. at_most (length s) };

    fn next(&mut self) -> Option<((u8, u64), State)> {
        while let Some(place) = self.places.take_first() {
            let found = self
                .versions
                .state_at(self.epoch, place.0, place.1, self.base);
            if let Some(state) = found {
                return Some((place, state));
            }
        }
        None
    }
}

/// An iterator over the states after an epoch, in no order: at the places of the base, and then at those for which folds left something.
#[derive(Drop)]
pub struct UnorderedAfter<'a> {
    versions: &'a Versions,
    base: &'a States,
    epoch: u64,
    kept: UnorderedStates<'a>,
    left: LatestOfEach<'a>,
}

impl<'a> Model for UnorderedAfter<'a> {
    ghost use Rattle.std.specs.Prelude.{◌++◌};
    ghost use Rattle.std.specs.Map.{keys_of};
    ghost use Rattle.td_stamp.specs.States.{StateList};
    ghost use Rattle.td_shard.specs.After.{states_after, entries_at, AreParts};

    ghost Value = { StateList };

    ghost view = { λ s. entries_at (states_after s.epoch s.base.now s.versions.now) (keys_of s.kept ++ keys_of s.left) };

    ghost invariant = { λ s. AreParts s.epoch s.base.now s.versions.now s.kept s.left };
}

impl<'a> Iterator for UnorderedAfter<'a> {
    type Item = ((u8, u64), State);

    ghost next_gives = { YieldsFirst (λ s. s) };

    ghost remaining = { λ s. at_most (length s) };

    fn next(&mut self) -> Option<((u8, u64), State)> {
        while let Some((place, kept)) = self.kept.next() {
            let found = match self.versions.latest_at(self.epoch, place.0, place.1) {
                Some(version) => version.state,
                None => Some(kept),
            };
            if let Some(state) = found {
                return Some((place, state));
            }
        }
        while let Some((place, latest)) = self.left.next() {
            let found = match latest {
                Some(version) => version.state,
                None => self.base.get(place.0, place.1),
            };
            if let Some(state) = found {
                return Some((place, state));
            }
        }
        None
    }
}

/// The places of two lists of states that stand in order, each once, in order.
#[derive(Drop)]
struct Places<'a> {
    base: Ahead<'a>,
    left: Ahead<'a>,
}

impl<'a> Model for Places<'a> {
    ghost use Rattle.std.specs.Prelude.{ℕ, List, ◌++◌};
    ghost use Rattle.std.specs.List.Sorted.{IsStrictlySortedBy};
    ghost use Rattle.td_stamp.specs.Bag.{set_of};
    ghost use Rattle.td_stamp.specs.Orders.{state_key_cmp};

    ghost Value = { List (ℕ × ℕ) };

    ghost view = { λ p. set_of state_key_cmp (p.base ++ p.left) };

    ghost invariant = { λ p. IsStrictlySortedBy state_key_cmp p.base × IsStrictlySortedBy state_key_cmp p.left };
}

impl<'a> Places<'a> {
    /// Takes the first place, if there is one.
    fn take_first(&mut self) -> Option<(u8, u64)>
        ensures { MatchOption result ((self.old ≡ []) × (self.new ≡ [])) (λ p. self.old ≡ p ∷ self.new) }
    {
        place_laws();
        match (self.base.first(), self.left.first()) {
            (Some(base), Some(left)) => match base.cmp(&left) {
                Ordering::Less => self.base.next(),
                Ordering::Equal => {
                    self.left.next();
                    self.base.next()
                }
                Ordering::Greater => self.left.next(),
            },
            (Some(_), None) => self.base.next(),
            (None, _) => self.left.next(),
        }
    }
}

/// The places of a list of states, the first of them read ahead.
#[derive(Drop)]
struct Ahead<'a> {
    first: Option<(u8, u64)>,
    rest: StatesIterator<'a>,
}

impl<'a> Model for Ahead<'a> {
    ghost use Rattle.std.specs.Prelude.{ℕ, List, [], ◌≡◌, IfNone};
    ghost use Rattle.std.specs.List.{cons_option};
    ghost use Rattle.std.specs.Map.{keys_of};

    ghost Value = { List (ℕ × ℕ) };

    ghost view = { λ a. cons_option a.first (keys_of a.rest) };

    ghost invariant = { λ a. IfNone a.first (a.rest ≡ []) };
}

impl<'a> Ahead<'a> {
    /// The places of these states.
    fn of(states: StatesIterator<'a>) -> Ahead<'a>
        ensures { result ≡ keys_of states.entry }
    {
        let mut rest = states;
        let first = rest.next().map(|(place, _)| place);
        Ahead { first, rest }
    }

    /// The first place, if there is one.
    fn first(&self) -> Option<(u8, u64)>
        ensures { MatchOption result (self.now ≡ []) (λ p. self.now ≡ p ∷ drop 1 self.now) }
    {
        self.first
    }
}

impl<'a> Iterator for Ahead<'a> {
    type Item = (u8, u64);

    ghost next_gives = { YieldsFirst (λ s. s) };

    ghost remaining = { λ s. at_most (length s) };

    fn next(&mut self) -> Option<(u8, u64)> {
        let first = self.first;
        self.first = self.rest.next().map(|(place, _)| place);
        first
    }
}

/// The laws of sets of places.
fn place_laws()
    ensures { SetLaws state_key_cmp }
{
    td_stamp::laws::sets_by_any_order::<(u8, u64)>();
}
