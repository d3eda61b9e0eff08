//! What distincts have seen, those of all shards together.
ghost use Rattle.std.specs.Prelude.{◌≡◌, ◌<◌, ◌≤◌, ◌++◌, ◌∷◌, [], List, cond, filter, length, nat_lt, IfOk, OnOk};
ghost use Rattle.std.specs.Prelude.{OnErr, vec_len, vec_capacity};
ghost use Rattle.td_stamp.specs.declared.values.Rec.{Rec as AnyRec};
ghost use Rattle.td_stamp.specs.Orders.{rec_cmp};
ghost use Rattle.td_stamp.specs.Bag.{bag_insert, has, join};
ghost use Rattle.td_machine.specs.State.{stamped_cmp};
ghost use Rattle.td_machine.specs.AtOnce.{fresh, stamped_at};
ghost use Rattle.td_shard.specs.Seen.{fresh_recs, with_fresh};

use crate::place::Place;
use std::alloc::Global;
use std::collections::{BTreeMap, BTreeSet};
use std::marker::Model;
use td_stamp::laws::bags_by_any_order;
use td_stamp::{Rec, StampError as ShardError, Time};

/// The records that distincts have seen, each at a vertex and a time. Contracts see them as a list in order, each once.
///
/// They stand in a set for each vertex and time: the records of a task are put into one set, which is looked up once.
#[derive(Drop)]
pub struct Seen {
    sets: BTreeMap<Place, BTreeSet<Rec>>,
    alloc: Global,
}

impl Model for Seen {
    ghost use Rattle.std.specs.Prelude.{List};
    ghost use Rattle.td_machine.specs.declared.records.Stamped.{Stamped};
    ghost use Rattle.td_shard.specs.Seen.{seen_of};

    ghost Value = { List Stamped };

    ghost view = { λ s. seen_of s.sets.entries };

    ghost use Rattle.std.specs.Map.{keys_of};
    ghost use Rattle.std.specs.List.Sorted.{IsStrictlySortedBy};
    ghost use Rattle.td_shard.specs.Seen.{place_cmp};

    ghost invariant = { λ s. IsStrictlySortedBy place_cmp (keys_of s.sets.entries) };
}

impl Seen {
    /// Nothing was seen yet. What will be is kept in memory from `alloc`.
    pub fn new(alloc: Global) -> Seen
        ensures { result ≡ [] }
    {
        Seen {
            sets: BTreeMap::new(alloc),
            alloc,
        }
    }

    /// Whether a record was seen at a vertex and time. It takes no memory.
    pub fn has(&self, vertex: u8, time: &Time, rec: &Rec) -> bool
        ensures { result ≡ has stamped_cmp (stamped_at vertex time.now rec.now) self.now }
    {
        let time = time.copy();
        match self.sets.get(&Place { vertex, time }) {
            Some(set) => set.contains(rec),
            None => false,
        }
    }

    /// Of records that come to a vertex at a time those that were not seen there before, each once, in the order in which they
    /// come. They are seen from now on. It costs O(log p) with p vertices and times, and O(log s) for each record with s that
    /// were seen there. Refusal: `Memory`, with nothing changed.
    pub fn see(&mut self, vertex: u8, time: &Time, recs: &[Rec]) -> Result<Vec<Rec>, ShardError>
        ensures answer { IfOk result (λ new. new.items ≡ fresh self.old vertex time.now recs.now) }
        ensures ok { OnOk result (self.new ≡ with_fresh self.old vertex time.now recs.now) }
        ensures err { OnErr result (self.new ≡ self.old) }
    {
        let mut new = Vec::with_capacity(self.alloc, recs.len())?;
        let time = time.copy();
        let place = Place { vertex, time };
        match self.sets.get_mut(&place) {
            Some(set) => put_in(set, recs, &mut new)?,
            None => {
                let mut set = BTreeSet::new(self.alloc);
                put_in(&mut set, recs, &mut new)?;
                self.sets.insert(place, set)?;
            }
        }
        Ok(new)
    }

    /// Lets go of what was seen at epochs up to this one. It takes no memory, and costs O(n) with n records that are let go and
    /// vertices and times that are left.
    pub fn let_go(&mut self, epoch: u64)
        ensures { self.new ≡ filter (λ x. nat_lt epoch x.time.epoch) self.old }
    {
        self.sets.retain(|place, _set| epoch < place.time.epoch());
    }
}

/// Puts records into a set, and those that were not there at the end of `new`. Refusal: `Memory`, with the set unchanged. What
/// was put in is then taken out again, which needs no memory.
fn put_in(set: &mut BTreeSet<Rec>, recs: &[Rec], new: &mut Vec<Rec>) -> Result<(), ShardError>
    requires none { new.old.items ≡ [] }
    requires room { length recs.now ≤ vec_capacity new.old }
    ensures answer { OnOk result (new.new.items ≡ fresh_recs set.old.keys recs.now) }
    ensures ok { OnOk result (set.new.keys ≡ join rec_cmp (fresh_recs set.old.keys recs.now) set.old.keys) }
    ensures err { OnErr result (set.new.keys ≡ set.old.keys) }
{
    bags_by_any_order::<Rec>();
    for rec in recs {
        if let Err(refused) = put_in_one(set, *rec, new) {
            take_out(set, new);
            return Err(refused);
        }
    }
    Ok(())
}

/// Puts a record into a set, and if it was not there at the end of `new`. Refusal: `Memory`, with nothing changed.
fn put_in_one(set: &mut BTreeSet<Rec>, rec: Rec, new: &mut Vec<Rec>) -> Result<(), ShardError>
    requires { vec_len new.old < vec_capacity new.old }
    ensures answer { OnOk result (new.new.items ≡ new.old.items ++ cond (has rec_cmp rec set.old.keys) [] (rec ∷ [])) }
    ensures ok { OnOk result (set.new.keys ≡ cond (has rec_cmp rec set.old.keys) set.old.keys (bag_insert rec_cmp rec set.old.keys)) }
    ensures err_new { OnErr result (new.new.items ≡ new.old.items) }
    ensures err_set { OnErr result (set.new.keys ≡ set.old.keys) }
    ensures capacity { vec_capacity new.new ≡ vec_capacity new.old }
{
    if set.insert(rec)? {
        new.push_reserved(rec);
    }
    Ok(())
}

/// Takes out of a set what was put in.
fn take_out(set: &mut BTreeSet<Rec>, recs: &[Rec])
    ensures { (keys : List AnyRec) → set.old.keys ≡ join rec_cmp recs.now keys → set.new.keys ≡ keys }
{
    bags_by_any_order::<Rec>();
    for rec in recs {
        let _ = set.remove(rec);
    }
}
