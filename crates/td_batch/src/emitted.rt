//! The bag that a vertex emitted.
ghost use Rattle.std.specs.Prelude.{◌≡◌, [], None, false, is_none, length};
ghost use Rattle.std.specs.Iterator.{at_most, YieldsFirst};
ghost use Rattle.td_stamp.specs.Orders.{rec_cmp};
ghost use Rattle.td_stamp.specs.Bag.{bag_of, IsBag};
ghost use Rattle.td_stamp.specs.Batch.{records_for};
ghost use Rattle.td_batch.specs.Meaning.{emitted, returned};
ghost use Rattle.td_batch.specs.Steps.Emitted.{bag_or_none, bags_before};

use std::alloc::Global;
use std::marker::Model;
use td_stamp::{Bag, Batch, Members, Rec, Records, laws};

/// The bag that a vertex emitted. That of an input is lent by the batch; every other stands here.
#[derive(Drop)]
pub(crate) struct Emitted<'a> {
    given: Option<(&'a Batch, u8)>,
    own: Bag<Rec>,
}

impl<'a> Model for Emitted<'a> {
    ghost use Rattle.std.specs.Prelude.{List};
    ghost use Rattle.td_stamp.specs.declared.values.Rec.{Rec};
    ghost use Rattle.td_batch.specs.Steps.Emitted.{emitted_bag};

    ghost Value = { List Rec };

    ghost view = { λ e. emitted_bag e.given e.own };
}

impl<'a> Emitted<'a> {
    /// Nothing.
    pub(crate) fn nothing(alloc: Global) -> Emitted<'a>
        ensures { result ≡ [] }
    {
        Emitted::own(Bag::new(alloc))
    }

    /// A bag of its own.
    pub(crate) fn own(own: Bag<Rec>) -> Emitted<'a>
        ensures { result ≡ own }
    {
        Emitted { given: None, own }
    }

    /// The records that a batch gives an input.
    pub(crate) fn given(alloc: Global, batch: &'a Batch, input: u8) -> Emitted<'a>
        ensures { result ≡ bag_of rec_cmp (records_for input batch.now) }
    {
        Emitted {
            given: Some((batch, input)),
            own: Bag::new(alloc),
        }
    }

    /// The records in order. It takes no memory.
    pub(crate) fn list(&self) -> Listed<'_>
        ensures all { result ≡ self.now }
        ensures sorted { IsBag rec_cmp self.now }
    {
        laws::bags::<Rec>();
        let given = match &self.given {
            Some((batch, input)) => Some(batch.records(*input)),
            None => None,
        };
        Listed {
            given,
            own: self.own.list(),
        }
    }
}

/// An iterator over the records of a bag, in order.
#[derive(Drop)]
pub(crate) struct Listed<'a> {
    given: Option<Records<'a>>,
    own: Members<'a, Rec>,
}

impl<'a> Model for Listed<'a> {
    ghost use Rattle.std.specs.Prelude.{List};
    ghost use Rattle.td_stamp.specs.declared.values.Rec.{Rec};
    ghost use Rattle.td_batch.specs.Steps.Emitted.{listed_records};

    ghost Value = { List Rec };

    ghost view = { λ l. listed_records l.given l.own };
}

impl<'a> Iterator for Listed<'a> {
    type Item = Rec;

    ghost next_gives = { YieldsFirst (λ s. s) };

    ghost remaining = { λ s. at_most (length s) };

    fn next(&mut self) -> Option<Rec> {
        match &mut self.given {
            Some(records) => records.next(),
            None => self.own.next(),
        }
    }
}

/// The bags that the vertices of a loop emitted in the turn before, from its first vertex on; or none, in the first turn.
#[derive(Drop)]
pub(crate) struct Before<'a> {
    is_first: bool,
    first: usize,
    bags: Vec<Emitted<'a>>,
}

impl<'a> Model for Before<'a> {
    ghost use Rattle.std.specs.Prelude.{Option};
    ghost use Rattle.td_batch.specs.Meaning.{Bags};
    ghost use Rattle.td_batch.specs.Steps.Emitted.{bags_before};

    ghost Value = { Option Bags };

    ghost view = { λ b. bags_before b.is_first b.first b.bags.items };
}

impl<'a> Before<'a> {
    /// In the first turn.
    pub(crate) fn first_turn(alloc: Global) -> Before<'a>
        ensures { result ≡ None }
    {
        Before {
            is_first: true,
            first: 0,
            bags: Vec::new(alloc),
        }
    }

    /// The bags of the vertices from `first` on.
    pub(crate) fn of(first: usize, bags: Vec<Emitted<'a>>) -> Before<'a>
        ensures { result ≡ bags_before false first bags.entry.items }
    {
        Before {
            is_first: false,
            first,
            bags,
        }
    }

    /// Whether this is the first turn.
    pub(crate) fn is_first(&self) -> bool
        ensures { result ≡ is_none self.now }
    {
        self.is_first
    }

    /// The bag that a vertex of the loop emitted in the turn before, if there was one.
    pub(crate) fn get(&self, vertex: u8) -> Option<&Emitted<'a>>
        ensures { bag_or_none result ≡ emitted (returned self.now) vertex }
    {
        if self.is_first {
            return None;
        }
        let place = usize::from(vertex).checked_sub(self.first)?;
        self.bags.get(place)
    }
}
