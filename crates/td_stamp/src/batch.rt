//! Batches.
ghost use Rattle.std.specs.Prelude.{◌≡◌, ◌<◌, ◌≤◌, ◌++◌, All, length};
ghost use Rattle.std.specs.Iterator.{at_most, YieldsFirst};
ghost use Rattle.std.specs.List.Sorted.{IsNonDecreasingBy};
ghost use Rattle.td_stamp.specs.declared.values.Entry.{Entry as AnyEntry};
ghost use Rattle.td_stamp.specs.Orders.{entry_cmp, rec_cmp};
ghost use Rattle.td_stamp.specs.Bag.{bag_of, IsBag};
ghost use Rattle.td_stamp.specs.Batch.{records_for};

use crate::bag::{Bag, Members};
use crate::values::{Entry, Rec};
use std::marker::Model;

/// The entries that one epoch brings to the inputs of a plan.
pub type Batch = Bag<Entry>;

/// An iterator over the records that a batch gives one input, in order.
#[derive(Drop)]
pub struct Records<'a> {
    entries: Members<'a, Entry>,
    input: u8,
}

impl<'a> Model for Records<'a> {
    ghost use Rattle.std.specs.Prelude.{List};
    ghost use Rattle.td_stamp.specs.declared.values.Rec.{Rec};
    ghost use Rattle.td_stamp.specs.Batch.{records_for};

    ghost Value = { List Rec };

    ghost view = { λ r. records_for r.input r.entries };
}

impl Bag<Entry> {
    /// The bag of the records that the batch gives `input`, in order: they are found by search, in O(log n), in a batch whose
    /// entries came in order. Takes no memory. In a batch whose entries came out of order they are picked out as it is listed. By
    /// contract they come sorted, so no caller sorts or copies them.
    pub fn records(&self, input: u8) -> Records<'_>
        ensures all { result ≡ records_for input self.now }
        ensures bag { result ≡ bag_of rec_cmp (records_for input self.now) }
    {
        let (in_order, counts) = self.parts();
        Records {
            entries: Members::of(entries_of(in_order, input), counts),
            input,
        }
    }
}

/// Of entries in order, those of an input.
fn entries_of(in_order: &[Entry], input: u8) -> &[Entry]
    requires { IsBag entry_cmp in_order.now }
    ensures { records_for input result.now ≡ records_for input in_order.now }
{
    let (_, own_and_later) = split_at_input(in_order, u16::from(input));
    let (own, _) = split_at_input(own_and_later, u16::from(input) + 1);
    own
}

/// Those before the first entry of this input or a later one, and the others.
fn split_at_input(in_order: &[Entry], input: u16) -> (&[Entry], &[Entry])
    requires { IsNonDecreasingBy (λ (e : AnyEntry). e.input) in_order.now }
    ensures both { result.0.now ++ result.1.now ≡ in_order.now }
    ensures before { All (λ (e : AnyEntry). e.input < input) result.0.now }
    ensures others { All (λ (e : AnyEntry). input ≤ e.input) result.1.now }
    ensures in_order { IsNonDecreasingBy (λ (e : AnyEntry). e.input) result.1.now }
{
    let start = in_order.partition_point(|entry| u16::from(entry.input) < input);
    in_order.split_at(start)
}

impl<'a> Iterator for Records<'a> {
    type Item = Rec;

    ghost next_gives = { YieldsFirst (λ s. s) };

    ghost remaining = { λ s. at_most (length s) };

    fn next(&mut self) -> Option<Rec> {
        loop {
            let entry = self.entries.next()?;
            if entry.input == self.input {
                return Some(entry.rec);
            }
        }
    }
}
