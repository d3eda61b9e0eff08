//! What waits at the groups and folds of a shard, and the notifications that it asked for.
ghost use Rattle.std.specs.Prelude.{◌≡◌, ◌++◌, ◌<◌, [], length, map, is_some, OnOk, OnErr, refl};
ghost use Rattle.std.specs.Option.{option_copied, option_map};
ghost use Rattle.td_stamp.specs.Bag.{bag_of};
ghost use Rattle.td_stamp.specs.Groups.{arrival_of};
ghost use Rattle.td_stamp.specs.Orders.{arrival_cmp};
ghost use Rattle.td_shard.specs.Asked.{items_at, with_items, without_items, noted_cmp};
ghost use Rattle.std.specs.Ordering.{as_partial_cmp, eq_by_cmp};
ghost use Rattle.std.specs.Cmp.{partial_equiv_from_equiv, partial_order_from_total};
ghost use Rattle.td_shard.specs.ProvedOrders.{noted_total, noted_equiv};

use std::alloc::Global;
use std::cmp::Ordering;
use std::collections::BTreeMap;
use std::collections::btree_map::Keys;
use std::marker::Model;
use td_stamp::laws::{bags, joins};
use td_stamp::{Arrival, Rec, StampError as ShardError, Time, sort};

/// The items that wait for notifications, and the notifications that are asked for (Naiad, section 2.2: NotifyAt). Contracts
/// see the notifications in their order, each with the bag of its items.
///
/// The items of a vertex and time are pushed into one list, and stand there as they came. They are sorted once, where they stand,
/// when the notification is taken.
#[derive(Drop)]
pub struct Waiting {
    asked: BTreeMap<Noted, Vec<Arrival>>,
    alloc: Global,
}

impl Model for Waiting {
    ghost use Rattle.std.specs.Prelude.{map};
    ghost use Rattle.td_stamp.specs.Bag.{bag_of};
    ghost use Rattle.td_stamp.specs.Orders.{arrival_cmp};
    ghost use Rattle.td_shard.specs.Asked.{AskedList};

    ghost Value = { AskedList };

    ghost view = { λ w. map (λ e. (e.0, bag_of arrival_cmp e.1.items)) w.asked.entries };
}

impl Waiting {
    /// Nothing waits, in a map that allocates with `alloc`.
    pub fn new(alloc: Global) -> Waiting
        ensures { result ≡ [] }
    {
        Waiting {
            asked: BTreeMap::new(alloc),
            alloc,
        }
    }

    /// How many notifications are asked for.
    pub fn len(&self) -> usize
        ensures { result ≡ length self.now }
    {
        self.asked.len()
    }

    /// Whether the notification of a vertex at a time is asked for.
    pub fn is_asked(&self, vertex: u8, time: &Time) -> bool
        ensures { result ≡ is_some (items_at self.now vertex time.now) }
    {
        let time = time.copy();
        self.asked.contains_key(&Noted { time, vertex })
    }

    /// The notifications that are asked for, in order. Takes no memory.
    pub fn asked(&self) -> Keys<'_, Noted, Vec<Arrival>>
        ensures { result ≡ map (λ w. w.0) self.now }
    {
        self.asked.keys()
    }

    /// The items that wait at a vertex and time, in some order, where its notification is asked for. Takes no memory.
    pub fn items(&self, vertex: u8, time: &Time) -> Option<&[Arrival]>
        ensures { option_map (bag_of arrival_cmp) (option_copied result) ≡ items_at self.now vertex time.now }
    {
        let time = time.copy();
        match self.asked.get(&Noted { time, vertex }) {
            Some(items) => Some(items.as_slice()),
            None => None,
        }
    }

    /// Sorts the items that wait at a vertex and time, where they stand. Many with small numbers take 8 bytes each meanwhile, if there
    /// is room. Contracts do not see the order; a test does. Where it is left out, a task's items are copied once more.
    pub fn sort(&mut self, vertex: u8, time: &Time)
        ensures { self.new ≡ self.old }
    {
        bags::<Arrival>();
        let time = time.copy();
        if let Some(items) = self.asked.get_mut(&Noted { time, vertex }) {
            sort(self.alloc, items.as_mut_slice());
        }
    }

    /// Keeps these records, of which there is one at least, as items that wait at a vertex and time. The notification is asked
    /// for at the first. Refusal: `Memory`, with nothing changed.
    pub fn wait(
        &mut self,
        vertex: u8,
        time: &Time,
        port: u8,
        recs: &[Rec],
    ) -> Result<(), ShardError>
        requires { 0 < length recs.now }
        ensures ok { OnOk result (self.new ≡ with_items self.old vertex time.now (map (arrival_of port) recs.now)) }
        ensures err { OnErr result (self.new ≡ self.old) }
    {
        bags::<Arrival>();
        joins::<Arrival>();
        let time = time.copy();
        let noted = Noted { time, vertex };
        match self.asked.get_mut(&noted) {
            Some(items) => push_items(items, port, recs),
            None => {
                let mut items = Vec::new(self.alloc);
                push_items(&mut items, port, recs)?;
                self.asked.insert(noted, items)?;
                Ok(())
            }
        }
    }

    /// Lets go the notification of a vertex and time, and the items that wait for it. Takes no memory.
    pub fn forget(&mut self, vertex: u8, time: &Time)
        ensures left { self.new ≡ without_items self.old vertex time.now }
    {
        let time = time.copy();
        let _items = self.asked.remove(&Noted { time, vertex });
    }
}

/// Puts records that come to a port at the end of some items. Refusal: `Memory`, with nothing changed.
fn push_items(items: &mut Vec<Arrival>, port: u8, recs: &[Rec]) -> Result<(), ShardError>
    ensures ok { OnOk result (items.new.items ≡ items.old.items ++ map (arrival_of port) recs.now) }
    ensures err { OnErr result (items.new.items ≡ items.old.items) }
{
    items.reserve(recs.len())?;
    for rec in recs {
        items.push_reserved(Arrival::new(port, *rec));
    }
    Ok(())
}

/// A notification of a vertex, at a time. Notifications are ordered by epoch, then by counters as a list from the outermost,
/// then by vertex.
#[derive(Debug, Drop)]
pub struct Noted {
    pub time: Time,
    pub vertex: u8,
}

impl PartialEq for Noted {
    ghost eq = { eq_by_cmp noted_cmp };

    ghost laws = { partial_equiv_from_equiv noted_equiv };

    fn eq(&self, other: &Noted) -> bool {
        self.cmp(other).is_eq()
    }
}

impl Eq for Noted {
    ghost laws = { noted_equiv };
}

impl PartialOrd for Noted {
    ghost partial_cmp = { as_partial_cmp noted_cmp };

    ghost laws = { partial_order_from_total noted_total };

    fn partial_cmp(&self, other: &Noted) -> Option<Ordering> {
        Some(self.cmp(other))
    }
}

impl Ord for Noted {
    ghost cmp = { noted_cmp };

    ghost total = { noted_total };

    ghost matches_partial_cmp = { λ m n. refl };

    ghost matches_eq = { λ m n. refl };

    fn cmp(&self, other: &Noted) -> Ordering {
        let times = self.time.total_cmp(&other.time);
        times.then(self.vertex.cmp(&other.vertex))
    }
}
