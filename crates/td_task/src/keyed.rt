//! What a notification is given: keys with their items and states, in lists that are kept end to end.
ghost use Rattle.std.specs.Prelude.{◌≡◌, ◌↔◌, IsTrue, ◌<◌, ◌^◌, ◌∷◌, ◌++◌, ◌+◌, ◌≤◌, [], false, map, OnOk, OnErr, IfOk, IfErr, Option, length, slice_get, slice_set, Some, None, true, vec_len, vec_capacity, slice_range};
ghost use Rattle.td_stamp.specs.Bag.{IsBag, bag_of};
ghost use Rattle.td_stamp.specs.Groups.{groups};
ghost use Rattle.td_stamp.specs.Orders.{arrival_cmp};
ghost use Rattle.td_machine.specs.State.{KeyItems as AnyKey};
ghost use Rattle.td_task.specs.Arriving.{is_key, keys_after, with_arrival_by};
ghost use Rattle.td_task.specs.KeyAts.{key_items};
ghost use Rattle.td_task.specs.KeyLists.{with_items, with_state, without_state};
ghost use Rattle.td_task.specs.declared.error.TaskError.TheVariants.{Memory};
ghost use Rattle.std.specs.List.{flat_map};
ghost use Rattle.std.specs.Option.{option_map};
ghost use Rattle.td_task.specs.Cuts.{start_of, with_last};

use crate::error::TaskError;
use std::alloc::Global;
use std::marker::Model;
use td_stamp::{Arrival, Item, State, is_in_order, laws, sort};

/// A key, and the state that is kept for it.
#[derive(Clone, Copy, Debug, PartialEq, Eq)]
pub(crate) struct Key {
    pub key: u64,
    pub state: Option<State>,
}

/// A key that is notified.
#[derive(Clone, Copy, Debug)]
pub struct KeyAt<'a> {
    pub key: u64,
    /// The items that wait for it, sorted.
    pub items: &'a [Item],
    /// The state that is kept for it.
    pub state: Option<State>,
}

/// The keys of a notification in order, each with its sorted items and the state that is kept for it. The items stand
/// end to end, so that no key costs an allocation.
#[derive(Drop)]
pub struct KeyedItems {
    keys: Vec<Key>,
    items: Lists<Item>,
}

impl Model for KeyedItems {
    ghost use Rattle.std.specs.Prelude.{◌≡◌, List, length};
    ghost use Rattle.td_machine.specs.State.{KeyItems};
    ghost use Rattle.td_task.specs.KeyLists.{with_items};

    ghost Value = { List KeyItems };

    ghost view = { λ k. with_items k.keys.items k.items.lists };

    ghost invariant = { λ k. length k.keys.items ≡ length k.items.lists };
}

impl KeyedItems {
    /// No keys, in lists that allocate with `alloc`.
    pub fn new(alloc: Global) -> KeyedItems
        ensures { result ≡ [] }
    {
        KeyedItems {
            keys: Vec::new(alloc),
            items: Lists::new(alloc),
        }
    }

    /// The keys of some arrivals in order, each with its sorted items and no state. It takes memory three times whatever their number:
    /// the keys are counted first. Arrivals that come in no order are copied and sorted before. Refusal: `Memory`.
    pub fn grouped(alloc: Global, arrivals: &[Arrival]) -> Result<KeyedItems, TaskError>
        ensures keys { IfOk result (λ made. made ≡ map without_state (groups arrivals.now)) }
        ensures memory { IfErr result (λ e. e ≡ Memory) }
    {
        laws::groups_of_a_bag();
        laws::bags::<Arrival>();
        if is_in_order(arrivals) {
            return KeyedItems::of_runs(alloc, arrivals);
        }
        let mut sorted = Vec::from_slice(alloc, arrivals)?;
        sort(alloc, sorted.as_mut_slice());
        KeyedItems::of_runs(alloc, sorted.as_slice())
    }

    /// The same of arrivals that come in order. It goes over them twice.
    fn of_runs(alloc: Global, arrivals: &[Arrival]) -> Result<KeyedItems, TaskError>
        requires { IsBag arrival_cmp arrivals.now }
        ensures keys { IfOk result (λ made. made ≡ map without_state (groups arrivals.now)) }
        ensures memory { IfErr result (λ e. e ≡ Memory) }
    {
        laws::groups_are_runs();
        let count = key_count(arrivals);
        let mut keys = Vec::with_capacity(alloc, count)?;
        let mut items = Lists::with_capacity(alloc, count, arrivals.len())?;
        let mut last = None;
        for arrival in arrivals {
            put(&mut keys, &mut items, is_key(last, arrival.key), *arrival);
            last = Some(arrival.key);
        }
        Ok(KeyedItems { keys, items })
    }

    /// How many keys there are.
    pub fn len(&self) -> usize
        ensures { result ≡ length self.now }
    {
        self.keys.len()
    }

    /// One more key, after the others. Refusal: `Memory`, with no key changed.
    pub fn add(&mut self, key: u64, items: &[Item], state: Option<State>) -> Result<(), TaskError>
        ensures ok { OnOk result (self.new ≡ self.old ++ record { key = key; items = items.now; state = state } ∷ []) }
        ensures err { OnErr result (self.new ≡ self.old) }
        ensures memory { IfErr result (λ e. e ≡ Memory) }
    {
        self.keys.reserve(1)?;
        self.items.add(items)?;
        self.keys.push_reserved(Key { key, state });
        Ok(())
    }

    /// The key at a place, with its items and its state.
    pub fn at(&self, index: usize) -> KeyAt<'_>
        requires { index < length self.now }
        ensures { Some (key_items result) ≡ slice_get self.now index }
    {
        let key = &self.keys[index];
        let Some(items) = self.items.get(index) else {
            unreachable!();
        };
        KeyAt {
            key: key.key,
            items,
            state: key.state,
        }
    }

    /// Keeps another state for the key at a place. Takes no memory.
    pub fn set_state(&mut self, index: usize, state: Option<State>)
        requires { index < length self.old }
        ensures { (k : AnyKey) → slice_get self.old index ≡ Some k → self.new ≡ slice_set self.old index (with_state k state) }
    {
        self.keys[index].state = state;
    }

    /// Whether two have the same keys with the same items and states, in the same order.
    pub fn same(&self, other: &KeyedItems) -> bool
        ensures { IsTrue result ↔ (self.now ≡ other.now) }
    {
        same_keys(self.keys.as_slice(), other.keys.as_slice()) && self.items.same(&other.items)
    }
}

/// Whether two lists have the same keys with the same states.
fn same_keys(keys: &[Key], others: &[Key]) -> bool
    ensures { IsTrue result ↔ (keys.now ≡ others.now) }
{
    keys == others
}

/// How many keys some arrivals have that come in order.
fn key_count(arrivals: &[Arrival]) -> usize
    ensures { result ≡ keys_after None arrivals.now }
{
    let mut count = 0;
    let mut last = None;
    for arrival in arrivals {
        if !is_key(last, arrival.key) {
            count += 1;
        }
        last = Some(arrival.key);
    }
    count
}

/// Whether a key is the last one.
fn is_key(last: Option<u64>, key: u64) -> bool
    ensures { result ≡ is_key last key }
{
    match last {
        Some(last) => last == key,
        None => false,
    }
}

/// One more arrival: under the last key, if that is its key, or else under one of its own. Takes no memory.
fn put(keys: &mut Vec<Key>, items: &mut Lists<Item>, is_last: bool, arrival: Arrival)
    requires same { length keys.old.items ≡ length items.old.lists }
    requires some { is_last ≡ true → 0 < length items.old.lists }
    requires key { is_last ≡ false → vec_len keys.old < vec_capacity keys.old }
    requires list { is_last ≡ false → 0 < items.old.more_lists }
    requires member { 0 < items.old.more_members }
    ensures keys { with_items keys.new.items items.new.lists ≡ with_arrival_by is_last (with_items keys.old.items items.old.lists) arrival }
    ensures same { length keys.new.items ≡ length items.new.lists }
    ensures capacity { vec_capacity keys.new ≡ vec_capacity keys.old }
    ensures lists { length items.old.lists + items.old.more_lists ≤ length items.new.lists + items.new.more_lists }
    ensures members { items.old.more_members ≤ items.new.more_members + 1 }
{
    if is_last {
        items.put_into_last(arrival.item);
    } else {
        keys.push_reserved(Key {
            key: arrival.key,
            state: None,
        });
        items.put(&[arrival.item]);
    }
}

/// A list of lists, in two pieces of memory whatever their number.
#[derive(Drop)]
pub(crate) struct Lists<T: Copy + Drop> {
    all: Vec<T>,
    // Where each list ends in `all`; it begins where the one before ends.
    ends: Vec<usize>,
}

impl<T: Copy + Drop> Model for Lists<T> {
    ghost use Rattle.std.specs.Prelude.{◌-◌, length, vec_len, vec_capacity};
    ghost use Rattle.td_task.specs.Cuts.{cut, EndsAt, Roomy};

    ghost Value = { Roomy T };

    ghost view = { λ l. record { lists = cut 0 l.ends.items l.all.items; more_lists = vec_capacity l.ends - vec_len l.ends; more_members = vec_capacity l.all - vec_len l.all } };

    ghost invariant = { λ l. EndsAt 0 l.ends.items (length l.all.items) };
}

impl<T: Copy + Drop> Lists<T> {
    /// No lists, with room for so many, and for so many members of all of them. Refusal: `Memory`.
    pub(crate) fn with_capacity(
        alloc: Global,
        lists: usize,
        members: usize,
    ) -> Result<Lists<T>, TaskError>
        ensures empty { IfOk result (λ made. made.lists ≡ []) }
        ensures lists { IfOk result (λ made. made.more_lists ≡ lists) }
        ensures members { IfOk result (λ made. made.more_members ≡ members) }
        ensures memory { IfErr result (λ e. e ≡ Memory) }
    {
        Ok(Lists {
            all: Vec::with_capacity(alloc, members)?,
            ends: Vec::with_capacity(alloc, lists)?,
        })
    }

    /// No lists, and no memory for any.
    pub(crate) fn new(alloc: Global) -> Lists<T>
        ensures { result.lists ≡ [] }
    {
        Lists {
            all: Vec::new(alloc),
            ends: Vec::new(alloc),
        }
    }

    /// How many lists there are.
    pub(crate) fn len(&self) -> usize
        ensures { result ≡ length self.now.lists }
    {
        self.ends.len()
    }

    /// The members of all lists, one list after another.
    pub(crate) fn all(&self) -> &[T]
        ensures { result.now ≡ flat_map (λ list. list) self.now.lists }
    {
        self.all.as_slice()
    }

    /// One more list, after the others. Refusal: `Memory`, with no list changed.
    pub(crate) fn add(&mut self, members: &[T]) -> Result<(), TaskError>
        ensures ok { OnOk result (self.new.lists ≡ self.old.lists ++ members.now ∷ []) }
        ensures err { OnErr result (self.new.lists ≡ self.old.lists) }
        ensures memory { IfErr result (λ e. e ≡ Memory) }
    {
        self.ends.reserve(1)?;
        self.all.reserve(members.len())?;
        self.put(members);
        Ok(())
    }

    /// One more list, after the others, where there is room for it. Takes no memory.
    pub(crate) fn put(&mut self, members: &[T])
        requires list { 0 < self.old.more_lists }
        requires members { length members.now ≤ self.old.more_members }
        ensures lists { self.new.lists ≡ self.old.lists ++ members.now ∷ [] }
        ensures more_lists { self.old.more_lists ≤ self.new.more_lists + 1 }
        ensures more_members { self.old.more_members ≤ self.new.more_members + length members.now }
    {
        append(&mut self.all, members);
        self.ends.push_reserved(self.all.len());
    }

    /// One more member of the last list, where there is room for it. Takes no memory.
    pub(crate) fn put_into_last(&mut self, member: T)
        requires some { 0 < length self.old.lists }
        requires room { 0 < self.old.more_members }
        ensures lists { self.new.lists ≡ with_last self.old.lists member }
        ensures more_lists { self.new.more_lists ≡ self.old.more_lists }
        ensures more_members { self.old.more_members ≡ self.new.more_members + 1 }
    {
        self.all.push_reserved(member);
        let last = self.ends.len() - 1;
        self.ends[last] = self.all.len();
    }

    /// The list at a place, if there is one.
    pub(crate) fn get(&self, index: usize) -> Option<&[T]>
        ensures { option_map (λ list. list.now) result ≡ slice_get self.now.lists index }
    {
        let ends = self.ends.as_slice();
        match end_of(ends, index) {
            Some(end) => Some(part(self.all.as_slice(), start_of(ends, index), end)),
            None => None,
        }
    }
}

/// Puts members at the end of a list, where there is room for them.
fn append<T: Copy + Drop>(all: &mut Vec<T>, members: &[T])
    requires { vec_len all.old + length members.now ≤ vec_capacity all.old }
    ensures items { all.new.items ≡ all.old.items ++ members.now }
    ensures capacity { vec_capacity all.old ≤ vec_capacity all.new }
{
    let Ok(()) = all.extend_from_slice(members) else {
        unreachable!();
    };
}

/// Where the list at a place ends, if there is one.
fn end_of(ends: &[usize], index: usize) -> Option<usize>
    ensures { result ≡ slice_get ends.now index }
{
    ends.get(index).copied()
}

/// Where the list at a place begins, from the ends of all.
fn start_of(ends: &[usize], index: usize) -> usize
    requires { index < length ends.now }
    ensures { result ≡ start_of 0 index ends.now }
{
    match index.checked_sub(1) {
        Some(before) => ends[before],
        None => 0,
    }
}

/// A part of a list.
fn part<T>(all: &[T], start: usize, end: usize) -> &[T]
    requires begins { start ≤ end }
    requires ends { end ≤ length all.now }
    ensures { result.now ≡ slice_range all.now start end }
{
    &all[start..end]
}

impl Lists<Item> {
    /// Whether two have the same lists.
    pub(crate) fn same(&self, other: &Lists<Item>) -> bool
        ensures { IsTrue result ↔ (self.now.lists ≡ other.now.lists) }
    {
        same_ends(self.ends.as_slice(), other.ends.as_slice())
            && same_items(self.all.as_slice(), other.all.as_slice())
    }
}

/// Whether two lists have the same items in the same order.
fn same_items(items: &[Item], others: &[Item]) -> bool
    ensures { IsTrue result ↔ (items.now ≡ others.now) }
{
    items == others
}

/// Whether two lists have the same ends.
fn same_ends(ends: &[usize], others: &[usize]) -> bool
    ensures { IsTrue result ↔ (ends.now ≡ others.now) }
{
    ends == others
}
