//! The arrivals at a vertex, key by key.
ghost use Rattle.std.specs.Prelude.{◌≡◌, IfOk};
ghost use Rattle.td_stamp.specs.Orders.{arrival_cmp};
ghost use Rattle.td_stamp.specs.Bag.{IsBag};
ghost use Rattle.td_stamp.specs.Groups.{groups};
ghost use Rattle.td_batch.specs.Steps.Sent.{with_group};

use crate::arrivals::Arrived;
use std::marker::Model;
use td_stamp::{Arrival, Item, StampError as BatchError, laws};

/// The keys of some arrivals, in order, each with its sorted items. One arrival is read ahead.
#[derive(Drop)]
pub(crate) struct Groups<'a> {
    ahead: Option<Arrival>,
    rest: Arrived<'a>,
}

impl<'a> Model for Groups<'a> {
    ghost use Rattle.std.specs.Prelude.{ℕ, List};
    ghost use Rattle.td_stamp.specs.declared.values.Item.{Item};
    ghost use Rattle.td_batch.specs.Steps.Sent.{runs_from};

    ghost Value = { List (ℕ × List Item) };

    ghost view = { λ g. runs_from g.ahead g.rest };
}

impl<'a> Groups<'a> {
    /// The groups of these arrivals, which come in order. It takes no memory.
    pub(crate) fn of(arrived: Arrived<'a>) -> Groups<'a>
        requires { IsBag arrival_cmp arrived }
        ensures { result ≡ groups arrived.entry }
    {
        laws::groups_are_runs();
        let mut rest = arrived;
        let ahead = rest.next();
        Groups { ahead, rest }
    }

    /// The next key, with its items in place of what `items` has. Refusal: `Memory`.
    pub(crate) fn next(&mut self, items: &mut Vec<Item>) -> Result<Option<u64>, BatchError>
        ensures { IfOk result (λ key. self.old ≡ with_group key items.new.items self.new) }
    {
        let Some(first) = self.ahead else {
            return Ok(None);
        };
        items.clear();
        items.push(first.item)?;
        loop {
            match self.rest.next() {
                Some(arrival) if arrival.key == first.key => items.push(arrival.item)?,
                other => {
                    self.ahead = other;
                    return Ok(Some(first.key));
                }
            }
        }
    }
}
