//! The arrivals at a vertex, by key. An arrival is kept as its key and its item. So the derived order puts the items of a key
//! together, and sorts them. Items have a port, and records have none: so `groups` is a call of the bag of arrivals.
ghost use Rattle.std.specs.Prelude.{◌≡◌, ◌∷◌, ◌++◌, [], IfOk, OnOk, IsSome};
ghost use Rattle.td_stamp.specs.Groups.{groups};
ghost use Rattle.td_stamp.specs.Steps.{last_key, with_last_item};

use crate::bag::Bag;
use crate::error::StampError;
use crate::values::{Arrival, Item};
use std::alloc::Global;
use std::marker::Model;

/// A key with the items that arrived for it, sorted by (port, val).
#[derive(Debug, Drop)]
pub struct Group {
    key: u64,
    items: Vec<Item>,
}

impl Model for Group {
    ghost use Rattle.std.specs.Prelude.{ℕ, List};
    ghost use Rattle.td_stamp.specs.declared.values.Item.{Item};

    ghost Value = { ℕ × List Item };

    ghost view = { λ g. (g.key, g.items.items) };
}

impl Group {
    /// The key.
    pub fn key(&self) -> u64
        ensures { result ≡ self.now.0 }
    {
        self.key
    }

    /// The items, sorted by (port, val). There is one at least.
    pub fn items(&self) -> &[Item]
        ensures { result.now ≡ self.now.1 }
    {
        self.items.as_slice()
    }
}

impl Bag<Arrival> {
    /// Each key that occurs, in order, with its sorted items. Refusal: `Memory`.
    pub fn groups(&self) -> Result<Vec<Group>, StampError>
        ensures { IfOk result (λ all. all.items ≡ groups self.now) }
    {
        let mut groups = Vec::new(self.allocator());
        for arrival in self.list() {
            if last_key(&groups) == Some(arrival.key) {
                extend_last(&mut groups, arrival.item)?;
            } else {
                begin(&mut groups, self.allocator(), arrival)?;
            }
        }
        Ok(groups)
    }
}

/// The key of the last group, if any.
fn last_key(groups: &Vec<Group>) -> Option<u64>
    ensures { result ≡ last_key groups.now.items }
{
    let group = groups.last()?;
    Some(group.key)
}

/// One more item in the last group.
fn extend_last(groups: &mut Vec<Group>, item: Item) -> Result<(), StampError>
    requires { IsSome (last_key groups.old.items) }
    ensures { OnOk result (groups.new.items ≡ with_last_item groups.old.items item) }
{
    let last = groups.as_slice().len() - 1;
    let group = &mut groups[last];
    group.items.push(item)?;
    Ok(())
}

/// One more group, of one arrival.
fn begin(groups: &mut Vec<Group>, alloc: Global, arrival: Arrival) -> Result<(), StampError>
    ensures { OnOk result (groups.new.items ≡ groups.old.items ++ (arrival.key, arrival.item ∷ []) ∷ []) }
{
    let mut items = Vec::new(alloc);
    items.push(arrival.item)?;
    let key = arrival.key;
    groups.push(Group { key, items })?;
    Ok(())
}
