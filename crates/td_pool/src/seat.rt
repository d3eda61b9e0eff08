//! The seats of a pool.
ghost use Rattle.std.specs.Prelude.{◌≡◌, ◌+◌, ℕ, true};
ghost use Rattle.crossbeam_utils.specs.Padded.{padded_value};
ghost use Rattle.td_pool.specs.Counts.{counts};
ghost use Rattle.td_pool.specs.Hands.{is_empty, held_in};

use crate::hand::Hand;
use crossbeam_utils::CachePadded;
use std::marker::Brand;
use std::sync::ledger::{Ledger, Share};
use td_calls::Law;

/// The name of one pool, with the number of its shards, how many tasks were given to its hall before, and which course the pool
/// keeps, if it keeps one. A pool, its seats and the moments of its course bear it in their types, so that none goes with another pool.
pub trait Crew: Ledger {
    ghost use Rattle.logbook.specs.Pages.{Book};

    /// How many shards, and seats.
    ghost shards: { ℕ };

    /// How many tasks were given before.
    ghost start: { ℕ };

    /// Which course.
    ghost course: { Book };
}

impl Crew for Brand {
    ghost shards = { 0 };

    ghost start = { 0 };

    ghost course = { record { number = 0; log_name = 0; cells_name = 0 } };
}

/// The right to take and give tasks of one shard, with a count of its gives. It cannot be copied. What it holds between a take
/// and the give stays in it, also where a call of `work` ends by a refusal. By its type each task that was taken from it was given, is in
/// its hand, or is one of its strays: none is dropped.
#[derive(Drop)]
pub struct Seat<K: Crew, L: Law> {
    pub(crate) shard: u8,
    pub(crate) hand: Hand<L>,
    /// The count, alone on its cache lines: each worker writes its own.
    pub(crate) gives: CachePadded<u64>,
    /// How many tasks may be out that no seat holds: the first seat has those that were out when the pool was made, and each those of its
    /// own that the hall did not know. These may be 2^64, as far as types know.
    pub(crate) strays: u128,
    pub(crate) share: Share<K>,
    ghost part: { share.parts ≡ 1 },
    ghost counted: { share.amount ≡ counts (padded_value gives) (padded_value gives + strays + held_in hand) },
}

impl<K: Crew, L: Law> Seat<K, L> {
    /// A seat of a shard, which holds nothing and has given nothing, and has so many strays.
    pub(crate) fn new(shard: u8, strays: u64, share: Share<K>) -> Self
        requires part { share.parts ≡ 1 }
        requires takes { share.amount ≡ counts 0 strays }
        ensures shard { result.shard ≡ shard }
        ensures empty { is_empty result.hand ≡ true }
        ensures gives { padded_value result.gives ≡ 0 }
        ensures strays { result.strays ≡ strays }
    {
        Seat {
            shard,
            hand: Hand::Empty,
            gives: CachePadded::new(0),
            strays: u128::from(strays),
            share,
        }
    }

    /// The number of its shard.
    pub fn shard(&self) -> u8
        ensures { result ≡ self.now.shard }
    {
        self.shard
    }

    /// How many tasks were given from it.
    pub fn gives(&self) -> u64
        ensures { result ≡ padded_value self.now.gives }
    {
        *self.gives
    }

    /// How many tasks may be out that no seat holds, as far as this one knows: the first seat has those that were out when the pool was
    /// made, and each seat those of its own that the hall refused as a stranger's.
    pub fn strays(&self) -> u128
        ensures { result ≡ self.now.strays }
    {
        self.strays
    }

    /// What it holds.
    pub fn hand(&self) -> &Hand<L>
        ensures { result.now ≡ self.now.hand }
    {
        &self.hand
    }
}
