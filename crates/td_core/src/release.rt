//! Releasing a batch into the inputs, and closing these.
ghost use Rattle.std.specs.Prelude.{◌≡◌, ◌+◌, ◌^◌, ◌<◌, ◌≤◌, ◌++◌, false, true, ℕ, map, flat_map, length, IfOk, IfErr, OnOk, OnErr};
ghost use Rattle.td_stamp.specs.Batch.{records_for};
ghost use Rattle.td_progress.specs.Bag.{input_stamp, IsSameBag, occurrences};
ghost use Rattle.td_machine.specs.Steps.{accepts, ends, release_step, close_step};
ghost use Rattle.td_machine.specs.Steps.Answer.{has_released, has_closed};
ghost use Rattle.td_core.specs.Parts.{IsHall};
ghost use Rattle.td_core.specs.Posted.{IsPosted, IsRoomier};
ghost use Rattle.td_core.specs.Refusals.{IsRefused};
ghost use Rattle.td_core.specs.Released.{IsIn, IsAsBefore, HaveRoomForLoads, load_of, loads_in, messages_of, changes_of};
ghost use Rattle.td_shard.specs.Messages.{AreApart};
ghost use Rattle.td_core.specs.Routes.{outlets_in};
ghost use Rattle.td_core.specs.declared.error.HallError.TheVariants.{Memory};
ghost use Rattle.td_reach.specs.declared.stamp.Stamp.{Stamp as AnyStamp};

use crate::error::HallError;
use crate::hall::{Hall, Parts, Routes};
use crate::known::known;
use crate::post::{Change, Counts, add_all, changes_on, count, make_room_for, post};
use std::alloc::{AllocError, Global};
use td_calls::Law;
use td_machine::laws::reached;
use td_progress::Table;
use td_progress::laws::counted;
use td_reach::{Place, Stamp};
use td_shard::Shard;
use td_stamp::laws::bags_by_any_order;
use td_stamp::{Batch, EPOCHS_END, Entry, Rec, Time};

/// The records that a batch gives an input.
#[derive(Drop)]
pub(crate) struct Load {
    pub input: u8,
    pub recs: Vec<Rec>,
}

impl<L: Law> Hall<L> {
    /// Releases a batch, and answers its epoch: at the time of that epoch each entry's record goes out on every edge out of its
    /// input (Naiad, section 2.2, SendBy of an input). The messages are O(n) for n entries, and so is what they cost.
    ///
    /// Refusals, with the batch handed back and nothing changed: `Closed`, where the inputs are; else `Epochs`, where the last
    /// number of an epoch, 2^63 - 1, is used; and `Memory`. `Memory` has a clause of its own, since the crates above need not
    /// take it apart from the others.
    pub fn release(&mut self, batch: Batch) -> Result<u64, (HallError, Batch)>
        requires { accepts self.old.plan batch ≡ true }
        ensures released { IfOk result (λ epoch. release_step self.old batch ≡ (has_released epoch, self.new)) }
        ensures refused { IfErr result (λ e. IsRefused (release_step self.old batch) self.old e.0) }
        ensures memory_last { IfErr result (λ e. e.0 ≡ Memory → (self.old.closed ≡ false) × (self.old.next < ends)) }
        ensures err { OnErr result (self.new ≡ self.old) }
        ensures back { IfErr result (λ e. e.1 ≡ batch) }
    {
        known::<L>();
        if self.parts.closed {
            return Err((HallError::Closed, batch));
        }
        if self.parts.next == EPOCHS_END {
            return Err((HallError::Epochs, batch));
        }
        match bring_in::<L>(&mut self.parts, &batch) {
            Ok(epoch) => {
                self.parts.batches.push_back_reserved(batch);
                Ok(epoch)
            }
            Err(error) => Err((error, batch)),
        }
    }
}

/// Brings a batch in, but for its own place among the batches, for which it makes room; and answers its epoch. All growth comes
/// first, and the pointstamps are the last that may be refused. Refusal: `Memory`, with nothing changed but for more room.
fn bring_in<L: Law>(parts: &mut Parts, batch: &Batch) -> Result<u64, HallError>
    requires hall { IsHall L.answers parts.old }
    requires accepted { accepts parts.old.table.plan batch.now ≡ true }
    requires open { parts.old.closed ≡ false }
    requires below { parts.old.next < 2 ^ 63 }
    ensures epoch { IfOk result (λ epoch. epoch ≡ parts.old.next) }
    ensures ok { OnOk result (IsIn batch.now parts.old parts.new) }
    ensures err { OnErr result (IsAsBefore parts.old parts.new) }
    ensures memory { IfErr result (λ e. e ≡ Memory) }
{
    known::<L>();
    bags_by_any_order::<Entry>();
    let _ = batch.list();
    let epoch = parts.next;
    let loads = loads_of(parts.alloc, parts.inputs.as_slice(), batch)?;
    let changes = changes_in(parts.alloc, &parts.routes, loads.as_slice(), epoch)?;
    make_room_for_loads(&mut parts.shards, &parts.routes, loads.as_slice())?;
    parts.batches.reserve(1)?;
    add_all(&mut parts.table, changes.as_slice())?;
    post_loads(&mut parts.shards, &parts.routes, loads.as_slice(), epoch);
    take_off_inputs(&mut parts.table, parts.inputs.as_slice(), epoch);
    parts.next += 1;
    Ok(epoch)
}

/// The records that a batch gives each of some inputs. Refusal: out of memory.
fn loads_of(alloc: Global, inputs: &[u8], batch: &Batch) -> Result<Vec<Load>, AllocError>
    ensures { IfOk result (λ loads. map load_of loads.items ≡ loads_in inputs.now batch.now) }
{
    let mut loads = Vec::with_capacity(alloc, inputs.len())?;
    for input in inputs {
        loads.push_reserved(Load {
            input: *input,
            recs: records_of(alloc, batch, *input)?,
        });
    }
    Ok(loads)
}

/// The records that a batch gives an input. Refusal: out of memory.
fn records_of(alloc: Global, batch: &Batch, input: u8) -> Result<Vec<Rec>, AllocError>
    ensures { IfOk result (λ recs. recs.items ≡ records_for input batch.now) }
{
    batch.records(input).collect(alloc)
}

/// Makes room for loads on every edge out of the input of each. Refusal: `Memory`, with nothing changed but for more room.
fn make_room_for_loads(
    shards: &mut Vec<Shard>,
    routes: &Routes,
    loads: &[Load],
) -> Result<(), HallError>
    requires some { 1 ≤ length shards.old.items }
    requires few { length shards.old.items ≤ 16 }
    ensures same { IsRoomier shards.old.items shards.new.items }
    ensures room { OnOk result (HaveRoomForLoads routes.now (map load_of loads.now) shards.new.items) }
    ensures memory { IfErr result (λ e. e ≡ Memory) }
{
    let workers = shards.len() as u8;
    let mut counts = Counts::new();
    for load in loads {
        let edges = routes.outlets(load.input).len();
        count(&mut counts, load.recs.as_slice(), edges, workers)?;
    }
    make_room_for(shards, &counts)
}

/// What occurs more often when loads come in at an epoch: their messages, and their inputs at the next epoch. Refusal: `Memory`.
fn changes_in(
    alloc: Global,
    routes: &Routes,
    loads: &[Load],
    epoch: u64,
) -> Result<Vec<Change>, HallError>
    requires { epoch < 2 ^ 63 }
    ensures changes { IfOk result (λ changes. changes.items ≡ flat_map (changes_of routes.now epoch) (map load_of loads.now)) }
    ensures memory { IfErr result (λ e. e ≡ Memory) }
{
    let time = Time::new(epoch);
    let mut changes = Vec::new(alloc);
    for load in loads {
        let outlets = routes.outlets(load.input);
        let mut more = changes_on(alloc, outlets, &time, load.recs.len() as u64)?;
        changes.append(&mut more)?;
        changes.push(change_of_input(load.input, epoch + 1))?;
    }
    Ok(changes)
}

/// An input occurs once more, at an epoch.
fn change_of_input(input: u8, epoch: u64) -> Change
    ensures { result ≡ record { stamp = input_stamp epoch input; times = 1 } }
{
    Change {
        stamp: Stamp {
            time: Time::new(epoch),
            place: Place::Vertex(input),
        },
        times: 1,
    }
}

/// Posts loads at an epoch, input by input, to every edge out of each. Takes no memory: room was made.
fn post_loads(shards: &mut Vec<Shard>, routes: &Routes, loads: &[Load], epoch: u64)
    requires some { 1 ≤ length shards.old.items }
    requires few { length shards.old.items ≤ 16 }
    requires apart { (v : ℕ) → AreApart (outlets_in routes.now v) }
    requires room { HaveRoomForLoads routes.now (map load_of loads.now) shards.old.items }
    ensures { IsPosted (flat_map (messages_of routes.now epoch) (map load_of loads.now)) shards.old.items shards.new.items }
{
    let time = Time::new(epoch);
    for load in loads {
        post(
            shards,
            routes.outlets(load.input),
            &time,
            load.recs.as_slice(),
        );
    }
}

impl<L: Law> Hall<L> {
    /// Closes the inputs: no batch is released any more. It takes no memory.
    pub fn close(&mut self)
        ensures { close_step self.old ≡ (has_closed, self.new) }
    {
        reached::<L>();
        counted();
        if !self.parts.closed {
            let inputs = self.parts.inputs.as_slice();
            take_off_inputs(&mut self.parts.table, inputs, self.parts.next);
            self.parts.closed = true;
        }
    }
}

/// The inputs are no longer active at an epoch.
pub(crate) fn take_off_inputs(table: &mut Table, inputs: &[u8], epoch: u64)
    requires { (p : AnyStamp) → occurrences p (map (input_stamp epoch) inputs.now) ≤ occurrences p table.old.stamps }
    ensures plan { table.new.plan ≡ table.old.plan }
    ensures stamps { IsSameBag table.old.stamps (map (input_stamp epoch) inputs.now ++ table.new.stamps) }
{
    counted();
    for input in inputs {
        table.take_off(&Stamp {
            time: Time::new(epoch),
            place: Place::Vertex(*input),
        });
    }
}
