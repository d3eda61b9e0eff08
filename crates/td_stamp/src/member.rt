//! What a bag may have as its members.
ghost use Rattle.std.specs.FinMap.{IsAntisymmetric};
ghost use Rattle.std.specs.Ordering.{is_gt};
ghost use Rattle.td_stamp.specs.Numbers.{rec_of_number, arrival_of_number, entry_of_number, output_of_number};
ghost use Rattle.td_stamp.specs.ProvedOrders.{rec_apart, item_apart, arrival_apart, entry_apart, output_apart};
ghost use Rattle.td_stamp.specs.ProvedNumbers.{recs_rise, items_rise, arrivals_rise, entries_rise, outputs_rise};
ghost use Rattle.std.specs.Prelude.{◌≡◌, ◌≤◌, ℕ, IfSome, false};

use crate::numbers::{pack_arrival, pack_at, pack_rec, unpack_arrival, unpack_at, unpack_rec};
use crate::values::{Arrival, Entry, Item, Output, Rec};

/// A plain value that may be a member of a bag: its order tells different values apart, and a copy is the same value.
///
/// Many members are sorted as numbers where each has one: numbers in order stand for members in order.
///
/// Records, arrivals, entries and outputs are members: a `Batch` is a `Bag<Entry>`, and an `EpochOut` has a `Bag<Output>`. So the
/// records of an epoch come in order by their type alone.
pub trait Member: Ord + Copy {
    ghost of_number: { Self → ℕ → Self };

    /// The number of the member, beside the `first` of the members that are sorted. None: it has none there.
    fn pack(&self, first: &Self) -> Option<u64>
        ensures { IfSome result (λ n. of_number first.now n ≡ self.now) };

    /// The member of a number.
    fn unpack(number: u64, first: &Self) -> Self
        ensures { result ≡ of_number first.now number };

    ghost told_apart: { IsAntisymmetric Self.cmp };

    ghost copies: { (x y : Self) → Self.is_clone x y → y ≡ x };

    ghost rises: { (first : Self) (m n : ℕ) → m ≤ n → is_gt (Self.cmp (of_number first m) (of_number first n)) ≡ false };
}

impl Member for Rec {
    ghost of_number = { λ first n. rec_of_number n };

    fn pack(&self, _first: &Rec) -> Option<u64> {
        pack_rec(self)
    }

    fn unpack(number: u64, _first: &Rec) -> Rec {
        unpack_rec(number)
    }

    ghost told_apart = { rec_apart };

    ghost copies = { λ x y e. e };

    ghost rises = { λ first m n le. recs_rise m n le };
}

/// No bag of items is made of a list: they have no numbers.
impl Member for Item {
    ghost of_number = { λ first n. first };

    fn pack(&self, _first: &Item) -> Option<u64> {
        None
    }

    fn unpack(_number: u64, first: &Item) -> Item {
        *first
    }

    ghost told_apart = { item_apart };

    ghost copies = { λ x y e. e };

    ghost rises = { items_rise };
}

impl Member for Arrival {
    ghost of_number = { λ first n. arrival_of_number n };

    fn pack(&self, _first: &Arrival) -> Option<u64> {
        pack_arrival(self)
    }

    fn unpack(number: u64, _first: &Arrival) -> Arrival {
        unpack_arrival(number)
    }

    ghost told_apart = { arrival_apart };

    ghost copies = { λ x y e. e };

    ghost rises = { λ first m n le. arrivals_rise m n le };
}

impl Member for Entry {
    ghost of_number = { entry_of_number };

    fn pack(&self, first: &Entry) -> Option<u64> {
        pack_at(first.input, self.input, &self.rec)
    }

    fn unpack(number: u64, first: &Entry) -> Entry {
        let (input, rec) = unpack_at(first.input, number);
        Entry { input, rec }
    }

    ghost told_apart = { entry_apart };

    ghost copies = { λ x y e. e };

    ghost rises = { entries_rise };
}

impl Member for Output {
    ghost of_number = { output_of_number };

    fn pack(&self, first: &Output) -> Option<u64> {
        pack_at(first.vertex, self.vertex, &self.rec)
    }

    fn unpack(number: u64, first: &Output) -> Output {
        let (vertex, rec) = unpack_at(first.vertex, number);
        Output { vertex, rec }
    }

    ghost told_apart = { output_apart };

    ghost copies = { λ x y e. e };

    ghost rises = { outputs_rise };
}
