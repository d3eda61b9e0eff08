//! What arrives at a vertex.
//!
//! One bag is in order, and so are its records as they arrive at port 0. So a group of an input goes over the batch itself. What
//! arrives from several bags is put into one list, port by port, and sorted once.
ghost use Rattle.std.specs.Prelude.{◌≡◌, ◌≤◌, ◌++◌, IfOk, IfSome, OnOk, map, length};
ghost use Rattle.std.specs.Iterator.{at_most, YieldsFirst};
ghost use Rattle.td_stamp.specs.Orders.{arrival_cmp};
ghost use Rattle.td_stamp.specs.Bag.{IsBag};
ghost use Rattle.td_stamp.specs.Groups.{arrival_of};
ghost use Rattle.td_calls.specs.Callbacks.{arrivals};
ghost use Rattle.td_batch.specs.Meaning.{emitted, bags_read};
ghost use Rattle.td_batch.specs.Steps.Emitted.{bag_or_none};

use crate::emitted::{Before, Emitted, Listed};
use std::alloc::Global;
use std::marker::Model;
use td_plan::{Kind, Vertex};
use td_stamp::{Arrival, Bag, Members, StampError as BatchError};

/// An iterator over what arrives at a vertex, in order: the records of one bag at port 0, where they stand, or those of
/// several.
#[derive(Drop)]
pub(crate) struct Arrived<'b> {
    one: Option<Listed<'b>>,
    several: Option<Members<'b, Arrival>>,
}

impl<'b> Model for Arrived<'b> {
    ghost use Rattle.std.specs.Prelude.{List};
    ghost use Rattle.td_stamp.specs.declared.values.Arrival.{Arrival};
    ghost use Rattle.td_batch.specs.Steps.Sent.{arrivals_left};

    ghost Value = { List Arrival };

    ghost view = { λ a. arrivals_left a.one a.several };
}

impl<'b> Arrived<'b> {
    /// The records of one bag, as they arrive at port 0. It takes no memory.
    pub(crate) fn one(bag: &'b Emitted<'_>) -> Arrived<'b>
        ensures all { result ≡ map (arrival_of 0) bag.now }
        ensures in_order { IsBag arrival_cmp (map (arrival_of 0) bag.now) }
    {
        Arrived {
            one: Some(bag.list()),
            several: None,
        }
    }

    /// These arrivals. It takes no memory.
    pub(crate) fn several(arrived: &'b Bag<Arrival>) -> Arrived<'b>
        ensures all { result ≡ arrived.now }
        ensures in_order { IsBag arrival_cmp arrived.now }
    {
        Arrived {
            one: None,
            several: Some(arrived.list()),
        }
    }
}

impl<'b> Iterator for Arrived<'b> {
    type Item = Arrival;

    ghost next_gives = { YieldsFirst (λ s. s) };

    ghost remaining = { λ s. at_most (length s) };

    fn next(&mut self) -> Option<Arrival> {
        if let Some(records) = &mut self.one {
            return match records.next() {
                Some(rec) => Some(Arrival::new(0, rec)),
                None => None,
            };
        }
        match &mut self.several {
            Some(arrived) => arrived.next(),
            None => None,
        }
    }
}

/// The bag that a vertex reads, where it has one source and that has a bag.
pub(crate) fn only_bag<'b, 'a>(
    before: &'b Before<'a>,
    bags: &'b [Emitted<'a>],
    vertex: &Vertex,
) -> Option<&'b Emitted<'a>>
    ensures { IfSome result (λ bag. map (arrival_of 0) bag.now ≡
        arrivals (map (emitted (bags_read vertex.now.vertex.kind before.now bags.now)) vertex.now.vertex.sources)) }
{
    let (source, others) = vertex.sources().split_first()?;
    if others.is_empty() {
        bag_read(vertex.kind(), before, bags, *source)
    } else {
        None
    }
}

/// What arrives at a vertex, port by port, from the bags so far in this turn of its block, and those of the turn before.
/// Refusal: `Memory`.
pub(crate) fn arriving<'b, 'a>(
    alloc: Global,
    before: &'b Before<'a>,
    bags: &'b [Emitted<'a>],
    vertex: &Vertex,
) -> Result<Vec<Arrival>, BatchError>
    ensures { IfOk result (λ arrived. arrived.items ≡
        arrivals (map (emitted (bags_read vertex.now.vertex.kind before.now bags.now)) vertex.now.vertex.sources)) }
{
    // Read for its contract alone.
    let _few = vertex.source_count();
    let kind = vertex.kind();
    let mut arrived = Vec::new(alloc);
    let mut port = 0;
    let mut left = vertex.sources();
    while let Some((source, later)) = left.split_first() {
        if let Some(bag) = bag_read(kind, before, bags, *source) {
            push_arrivals(port, bag, &mut arrived)?;
        }
        port += 1;
        left = later;
    }
    Ok(arrived)
}

/// The bag that a source has for a vertex of this kind, if it has one.
fn bag_read<'b, 'a>(
    kind: Kind,
    before: &'b Before<'a>,
    bags: &'b [Emitted<'a>],
    source: u8,
) -> Option<&'b Emitted<'a>>
    ensures { bag_or_none result ≡ emitted (bags_read kind before.now bags.now) source }
{
    match kind {
        Kind::Enter if !before.is_first() => None,
        Kind::Feedback => before.get(source),
        _ => bags.get(usize::from(source)),
    }
}

/// Appends the records of a bag as they arrive at a port. Refusal: `Memory`.
fn push_arrivals(
    port: u8,
    records: &Emitted<'_>,
    arrived: &mut Vec<Arrival>,
) -> Result<(), BatchError>
    ensures { OnOk result (arrived.new.items ≡ arrived.old.items ++ map (arrival_of port) records.now) }
{
    for rec in records.list() {
        arrived.push(Arrival::new(port, rec))?;
    }
    Ok(())
}
