//! Bags; their members in order; and how many members are sorted at once, where they stand, in a fraction of the time and room
//! that a tree takes.
ghost use Rattle.std.specs.Prelude.{◌≡◌, ◌↔◌, ◌++◌, ◌∷◌, OnOk, OnErr, IfOk, IsTrue, [], length, IfSome, map, if◌then◌else◌};
ghost use Rattle.td_stamp.specs.Bag.{bag_insert, bag_of, join, members, IsBag};
ghost use Rattle.std.specs.Iterator.{at_most, YieldsFirst};

use crate::error::StampError;
use crate::member::Member;
use crate::repeats::{count_in, count_one};
use std::alloc::Global;
use std::collections::BTreeMap;
use std::collections::btree_map::Iter;
use std::marker::Model;

/// A bag: a finite list whose order has no meaning and whose repeats count. Contracts see it as its sorted list.
///
/// Members that come in order are kept in a list, at O(1) each on average. The first that belongs before another moves them into
/// a tree, once; from then on each costs O(log n), wherever it belongs. Either way n members take O(n) memory. Records that come
/// in order, as an epoch's outputs do, stay in the list. In both forms members can be listed in order, and two bags compared,
/// without memory.
#[derive(Debug, Drop)]
pub struct Bag<T: Member> {
    // The members in order, as long as none came that belongs before another.
    in_order: Vec<T>,
    // From then on how often each stands in the bag, which may be 0 after a refusal. One of the two has no members.
    counts: BTreeMap<T, u64>,
    len: usize,
    alloc: Global,
}

impl<T: Member> Model for Bag<T> {
    ghost use Rattle.std.specs.Prelude.{List, [], ◌++◌, ◌+◌, length, ◌≡◌, ◌⊎◌};
    ghost use Rattle.td_stamp.specs.Bag.{members, IsBag};

    ghost Value = { List T };

    ghost view = { λ b. b.in_order.items ++ members b.counts.entries };

    ghost invariant = { λ b. (b.len ≡ length b.in_order.items + length (members b.counts.entries)) × ((b.in_order.items ≡ []) ⊎ (members b.counts.entries ≡ [])) × IsBag T.cmp b.in_order.items };
}

impl<T: Member> Bag<T> {
    /// An empty bag, which allocates with `alloc`.
    pub fn new(alloc: Global) -> Self
        ensures { result ≡ [] }
    {
        Bag {
            in_order: Vec::new(alloc),
            counts: BTreeMap::new(alloc),
            len: 0,
            alloc,
        }
    }

    /// The bag of these members, which may come in any order: O(n) where they come in order, else O(n log n). They are
    /// sorted where they stand. Many with small numbers take 8 bytes each meanwhile, if there is room, and are sorted
    /// faster.
    pub fn from_vec(alloc: Global, members: Vec<T>) -> Self
        ensures { result ≡ bag_of T.cmp members.items }
    {
        let mut in_order = members;
        sort(alloc, in_order.as_mut_slice());
        let len = in_order.len();
        Bag {
            in_order,
            counts: BTreeMap::new(alloc),
            len,
            alloc,
        }
    }

    /// How many members it has, repeats counted.
    pub fn len(&self) -> usize
        ensures { result ≡ length self.now }
    {
        self.len
    }

    /// Whether it has no members.
    pub fn is_empty(&self) -> bool
        ensures { IsTrue result ↔ (self.now ≡ []) }
    {
        self.len == 0
    }

    /// Adds one `member`. Refusal: `Memory`, with the bag unchanged; a bag of 2^64 - 1 members refuses as well.
    pub fn add(&mut self, member: T) -> Result<(), StampError>
        ensures ok { OnOk result (self.new ≡ bag_insert T.cmp member self.old) }
        ensures err { OnErr result (self.new ≡ self.old) }
    {
        let Some(len) = self.len.checked_add(1) else {
            return Err(StampError::Memory);
        };
        if self.in_order.len() == self.len && belongs_last(self.in_order.as_slice(), &member) {
            self.in_order.push(member)?;
        } else {
            count_in(self.alloc, &mut self.in_order, &mut self.counts)?;
            count_one(&mut self.counts, member)?;
        }
        self.len = len;
        Ok(())
    }

    /// What the bag allocates with.
    pub(crate) fn allocator(&self) -> Global {
        self.alloc
    }

    /// The members that stand in order, and those that are counted.
    pub(crate) fn parts(&self) -> (&[T], Iter<'_, T, u64>)
        ensures all { result.0.now ++ members result.1 ≡ self.now }
        ensures in_order { IsBag T.cmp result.0.now }
        ensures sorted { IsBag T.cmp self.now }
    {
        (self.in_order.as_slice(), self.counts.iter())
    }

    /// The members in order, a repeated one as often as it stands in the bag. Takes no memory.
    pub fn list(&self) -> Members<'_, T>
        ensures all { result ≡ self.now }
        ensures sorted { IsBag T.cmp self.now }
    {
        let (in_order, counts) = self.parts();
        Members::of(in_order, counts)
    }

    /// Adds the members of `other`, by a merge of the two lists in order: O(n + m) for n and m members. An empty `other`
    /// costs nothing. Refusal: `Memory`, with the bag unchanged.
    pub fn join(&mut self, other: &Bag<T>) -> Result<(), StampError>
        ensures ok { OnOk result (self.new ≡ join T.cmp other.now self.old) }
        ensures err { OnErr result (self.new ≡ self.old) }
    {
        if !other.is_empty() {
            *self = self.merged(other)?;
        }
        Ok(())
    }

    /// A bag of the members of both. Refusal: `Memory`. Its members stand in a list, in order. A map in its place would cost a
    /// look-up for each member.
    fn merged(&self, other: &Bag<T>) -> Result<Bag<T>, StampError>
        ensures { IfOk result (λ bag. bag ≡ join T.cmp other.now self.now) }
    {
        let mut in_order = Vec::new(self.alloc);
        append(&mut in_order, self)?;
        append(&mut in_order, other)?;
        // Two runs in order: the sort finds them and merges them.
        in_order.sort()?;
        let len = in_order.len();
        Ok(Bag {
            in_order,
            counts: BTreeMap::new(self.alloc),
            len,
            alloc: self.alloc,
        })
    }

    /// The same bag, in memory of its own. Refusal: `Memory`.
    pub fn copy(&self) -> Result<Bag<T>, StampError>
        ensures { IfOk result (λ bag. bag ≡ self.now) }
    {
        Ok(Bag {
            in_order: self.in_order.clone()?,
            counts: self.counts.clone()?,
            len: self.len,
            alloc: self.alloc,
        })
    }
}

/// Puts the members of a bag at the end of a list. Refusal: `Memory`.
fn append<T: Member>(list: &mut Vec<T>, bag: &Bag<T>) -> Result<(), StampError>
    ensures all { OnOk result (list.new.items ≡ list.old.items ++ bag.now) }
    ensures sorted { OnOk result (IsBag T.cmp bag.now) }
{
    list.reserve(bag.len)?;
    for member in bag.list() {
        list.push(member)?;
    }
    Ok(())
}

/// Whether a member belongs after all these, which stand in order.
fn belongs_last<T: Member>(in_order: &[T], member: &T) -> bool
    requires { IsBag T.cmp in_order.now }
    ensures { IsTrue result → bag_insert T.cmp member.now in_order.now ≡ in_order.now ++ member.now ∷ [] }
{
    match in_order.last() {
        Some(last) => last.cmp(member).is_le(),
        None => true,
    }
}

/// An iterator over the members of a bag in order, a repeated one as often as it stands in the bag.
#[derive(Drop)]
pub struct Members<'a, T: Member> {
    in_order: &'a [T],
    current: Option<(T, u64)>,
    rest: Iter<'a, T, u64>,
}

impl<'a, T: Member> Model for Members<'a, T> {
    ghost use Rattle.std.specs.Prelude.{List, ◌++◌};
    ghost use Rattle.td_stamp.specs.Bag.{members};
    ghost use Rattle.td_stamp.specs.Steps.{repeats};

    ghost Value = { List T };

    ghost view = { λ m. m.in_order.now ++ repeats m.current ++ members m.rest };
}

impl<'a, T: Member> Members<'a, T> {
    /// Those that stand in order, and those that are counted.
    pub(crate) fn of(in_order: &'a [T], counts: Iter<'a, T, u64>) -> Self
        ensures { result ≡ in_order.now ++ members counts.entry }
    {
        Members {
            in_order,
            current: None,
            rest: counts,
        }
    }
}

impl<'a, T: Member> Iterator for Members<'a, T> {
    type Item = T;

    ghost next_gives = { YieldsFirst (λ s. s) };

    ghost remaining = { λ s. at_most (length s) };

    fn next(&mut self) -> Option<T> {
        if let Some((member, others)) = self.in_order.split_first() {
            self.in_order = others;
            return Some(*member);
        }
        loop {
            if let Some((member, left)) = self.current
                && left > 0
            {
                self.current = Some((member, left - 1));
                return Some(member);
            }
            let (member, count) = self.rest.next()?;
            self.current = Some((*member, *count));
        }
    }
}

/// How many members there are at least where they are sorted as numbers.
const MANY: usize = 32;

/// Sorts members: those in order are left as they are, in one pass. Many are sorted as numbers, where all have one and there is
/// room. A member has a number where its value fits 32 bits and its key is below 2^28, or below 2^32 of a record alone. An
/// arrival's port is below 16, and all vertices are of one block of 16. The numbers take 8 bytes each meanwhile. Without room for
/// them the members are sorted as they are, so there is no refusal.
pub fn sort<T: Member>(alloc: Global, members: &mut [T])
    ensures { members.new ≡ bag_of T.cmp members.old }
{
    if !is_in_order(members) && !sort_as_numbers(alloc, members) {
        members.sort_unstable();
    }
}

/// Whether members come in order. It goes over them once.
pub fn is_in_order<T: Member>(members: &[T]) -> bool
    ensures { IsTrue result ↔ IsBag T.cmp members.now }
{
    members.is_sorted()
}

/// Sorts many members as numbers, or leaves them as they are: where they are few, one has no number, or there is no room.
fn sort_as_numbers<T: Member>(alloc: Global, members: &mut [T]) -> bool
    ensures { members.new ≡ (if result then bag_of T.cmp members.old else members.old) }
{
    if members.len() < MANY {
        return false;
    }
    let first = members[0];
    let Some(mut numbers) = pack_all(alloc, members, &first) else {
        return false;
    };
    numbers.sort_unstable();
    unpack_all(numbers.as_slice(), members, &first);
    true
}

/// The numbers of all members. None: one has no number, or there is no room.
fn pack_all<T: Member>(alloc: Global, members: &[T], first: &T) -> Option<Vec<u64>>
    ensures { IfSome result (λ numbers. map (T.of_number first.now) numbers.items ≡ members.now) }
{
    let mut numbers = Vec::with_capacity(alloc, members.len()).ok()?;
    for member in members {
        numbers.push(member.pack(first)?).ok()?;
    }
    Some(numbers)
}

/// Puts the members of as many numbers in place of these.
fn unpack_all<T: Member>(numbers: &[u64], members: &mut [T], first: &T)
    requires { length numbers.now ≡ length members.old }
    ensures { members.new ≡ map (T.of_number first.now) numbers.now }
{
    for i in 0..numbers.len() {
        members[i] = T::unpack(numbers[i], first);
    }
}
