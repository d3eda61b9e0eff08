//! The mailbox of a shard, and how records are put behind the others.
ghost use Rattle.std.specs.Prelude.{◌≡◌, ◌*◌, ◌-◌, ◌<◌, ◌≤◌, ◌++◌, [], length, max, IfOk, OnOk, OnErr, ◌+◌, ◌^◌, cond, map, Some, IsTrue, false, ℕ};
ghost use Rattle.td_shard.specs.Messages.{task_at, left_at, on_each, AreApart};
ghost use Rattle.td_machine.specs.Steps.{coming};
ghost use Rattle.std.specs.Option.{option_map};
ghost use Rattle.std.specs.HashMap.{get, spare};
ghost use Rattle.td_shard.specs.Runs.{lane_eq, last_on, AreLinked, AreAppended, AreUpTo, on_lane, numbered, to_each};
ghost use Rattle.td_shard.specs.declared.runs.Lane.{Lane as AnyLane};

use crate::outlet::Outlet;
use crate::runs::{Lane, Runs};
use crate::take::{let_go, read_task, take_task};
use std::alloc::Global;
use std::collections::HashMap;
use std::marker::Model;
use td_machine::TASK_SIZE;
use td_stamp::{Rec, StampError as ShardError, Time};

/// The messages of a task: records that come to a port of a vertex, all at one time.
#[derive(Debug, Drop)]
pub struct Taken {
    pub vertex: u8,
    pub port: u8,
    pub time: Time,
    pub recs: Vec<Rec>,
}

/// The messages of a shard that wait to be taken, in the order in which they were posted (Naiad, section 2.3).
///
/// They stand in runs: one run has what was posted on one edge and of one time, with nothing else between. Its edge and time are
/// kept once, and of each message only the record and its number, in one list for all runs. What is posted to several edges at once
/// stands in a run for each, and its messages come in the order of the records' numbers. A run knows how far ahead the next of its
/// edge and time stands, and a hash map knows the last of each: messages are posted by two look-ups at most for each edge, however
/// many, and by none where they go on with the last run; a task's records are found without one.
#[derive(Drop)]
pub struct Mailbox {
    runs: Runs,
    // The number of the last run of each lane. Runs are numbered in the order posted.
    lasts: HashMap<Lane, usize>,
    // How many messages wait.
    len: usize,
    // The number of the record that is posted next.
    next: usize,
    alloc: Global,
}

impl Model for Mailbox {
    ghost use Rattle.td_shard.specs.Messages.{Mailboxed};

    ghost Value = { Mailboxed };

    ghost use Rattle.td_shard.specs.Runs.{messages_of};
    ghost use Rattle.td_shard.specs.Kept.{IsMailbox};

    ghost view = { λ m. record { runs = m.runs.runs; room = m.runs.room; messages = messages_of m.runs.parts } };

    ghost invariant = { IsMailbox };
}

impl Mailbox {
    /// A mailbox with no messages and no room, which allocates with `alloc`.
    pub fn new(alloc: Global) -> Mailbox
        ensures { result ≡ record { runs = 0; room = 0; messages = [] } }
    {
        Mailbox {
            runs: Runs::new(alloc),
            lasts: HashMap::new(alloc),
            len: 0,
            next: 0,
            alloc,
        }
    }

    /// How many messages wait.
    pub fn len(&self) -> usize
        ensures { result ≡ length self.now.messages }
    {
        self.len
    }

    /// Makes room for `room` more messages, in `runs` runs of one edge and time. Room that there is already counts. Refusal:
    /// `Memory`, with the mailbox unchanged.
    pub fn reserve(&mut self, runs: usize, room: usize) -> Result<(), ShardError>
        ensures ok { OnOk result (self.new ≡ record self.old { runs = max self.old.runs runs; room = max self.old.room room }) }
        ensures err { OnErr result (self.new ≡ self.old) }
    {
        let Some(_messages) = self.len.checked_add(room) else {
            return Err(ShardError::Memory);
        };
        let Some(_numbers) = self.next.checked_add(room) else {
            return Err(ShardError::Memory);
        };
        self.lasts.reserve(runs)?;
        self.runs.reserve(runs, room)
    }

    /// Posts these records to a port of a vertex, at a time. Takes no memory: room was made by `reserve`.
    pub fn post(&mut self, vertex: u8, port: u8, time: &Time, recs: &[Rec])
        requires runs { 0 < self.old.runs }
        requires room { length recs.now ≤ self.old.room }
        ensures messages { self.new.messages ≡ self.old.messages ++ coming vertex port time.now recs.now }
        ensures runs { self.new.runs ≡ self.old.runs - 1 }
        ensures room { self.new.room ≡ self.old.room - length recs.now }
    {
        if recs.is_empty() {
            self.runs.give_up_runs(1);
        } else {
            let time = time.copy();
            self.post_run(Lane { vertex, port, time }, recs);
        }
    }

    /// Posts these records to each of some outlets at a time: record by record, and then outlet by outlet. It uses a run for each outlet.
    /// Takes no memory: room was made by `reserve`.
    pub fn post_each(&mut self, outlets: &[Outlet], time: &Time, recs: &[Rec])
        requires apart { AreApart outlets.now }
        requires runs { length outlets.now ≤ self.old.runs }
        requires room { length recs.now * length outlets.now ≤ self.old.room }
        ensures messages { self.new.messages ≡ self.old.messages ++ on_each outlets.now time.now recs.now }
        ensures runs { self.new.runs ≡ self.old.runs - length outlets.now }
        ensures room { self.new.room ≡ self.old.room - length recs.now * length outlets.now }
    {
        if outlets.len() == 1 {
            self.post(outlets[0].reader, outlets[0].port, time, recs);
        } else if recs.is_empty() {
            self.runs.give_up_runs(outlets.len());
        } else if !outlets.is_empty() {
            let next = self.next;
            append_each(&mut self.runs, &mut self.lasts, outlets, time, next, recs);
            self.len += recs.len() * outlets.len();
            self.next += recs.len();
        }
    }

    /// The task of the message at `pick`, in the order posted: that message, and then the first of the others on its edge and of
    /// its time, 64 messages at most. They stay where they are. With pick 0 it costs O(1) for each message, and for each run that
    /// was posted with the first; another pick looks at all runs, once more for each bit of how many records were posted with it.
    /// Refusal: `Memory`.
    pub fn task(&self, pick: usize) -> Result<Taken, ShardError>
        requires { pick < length self.now.messages }
        ensures { IfOk result (λ t. coming t.vertex t.port t.time t.recs.items ≡ task_at pick self.now.messages) }
    {
        let mut recs = Vec::with_capacity(self.alloc, TASK_SIZE)?;
        let Lane { vertex, port, time } = read_task(&self.runs, self.next, pick, &mut recs);
        Ok(Taken {
            vertex,
            port,
            time,
            recs,
        })
    }

    /// Removes the messages of the task of the message at `pick`. It costs what `task` does, and takes no memory.
    pub fn remove(&mut self, pick: usize)
        requires { pick < length self.old.messages }
        ensures { self.new ≡ record self.old { messages = left_at pick self.old.messages } }
    {
        self.len -= take_task(&mut self.runs, self.next, pick);
        let_go(&mut self.runs, &mut self.lasts);
        if self.len == 0 {
            self.next = 0;
        }
    }

    /// Posts these records, of which there is one at least.
    fn post_run(&mut self, lane: Lane, recs: &[Rec])
        requires some { 0 < length recs.now }
        requires runs { 0 < self.old.runs }
        requires room { length recs.now ≤ self.old.room }
        ensures messages { self.new.messages ≡ self.old.messages ++ coming lane.vertex lane.port lane.time recs.now }
        ensures runs { self.new.runs ≡ self.old.runs - 1 }
        ensures room { self.new.room ≡ self.old.room - length recs.now }
    {
        put(&mut self.runs, &mut self.lasts, lane, self.next, recs);
        self.len += recs.len();
        self.next += recs.len();
    }
}

/// Puts a run at the end for each of some outlets, all with these records, numbered from a number on.
pub(crate) fn append_each(
    runs: &mut Runs,
    lasts: &mut HashMap<Lane, usize>,
    outlets: &[Outlet],
    time: &Time,
    number: usize,
    recs: &[Rec],
)
    requires some { 0 < length recs.now }
    requires linked { AreLinked lane_eq runs.old.parts }
    requires lasts { (q : AnyLane) → get lane_eq lasts.old q ≡ option_map (λ i. runs.old.first + i) (last_on lane_eq q runs.old.parts) }
    requires runs { length outlets.now ≤ runs.old.runs }
    requires spare { length outlets.now ≤ spare lasts.old }
    requires room { length recs.now * length outlets.now ≤ runs.old.room }
    requires numbers { number + length recs.now < 2 ^ 64 }
    ensures linked { AreLinked lane_eq runs.new.parts }
    ensures lasts { (q : AnyLane) → get lane_eq lasts.new q ≡ option_map (λ i. runs.new.first + i) (last_on lane_eq q runs.new.parts) }
    ensures appended { AreAppended number (length recs.now) (to_each time.now number recs.now outlets.now) runs.old runs.new }
    ensures up_to { AreUpTo number runs.old.parts → AreUpTo number runs.new.parts }
    ensures runs { runs.new.runs ≡ runs.old.runs - length outlets.now }
    ensures room { runs.new.room ≡ runs.old.room - length recs.now * length outlets.now }
    ensures spare { spare lasts.old ≤ spare lasts.new + length outlets.now }
{
    for outlet in outlets {
        append_one(runs, lasts, Lane::to(outlet, time), number, recs);
    }
}

/// Puts records at the end, numbered from a number on: behind those of the last run, where it is on this lane, else as a run of
/// their own.
pub(crate) fn put(
    runs: &mut Runs,
    lasts: &mut HashMap<Lane, usize>,
    lane: Lane,
    number: usize,
    recs: &[Rec],
)
    requires some { 0 < length recs.now }
    requires linked { AreLinked lane_eq runs.old.parts }
    requires lasts { (q : AnyLane) → get lane_eq lasts.old q ≡ option_map (λ i. runs.old.first + i) (last_on lane_eq q runs.old.parts) }
    requires runs { 0 < runs.old.runs }
    requires spare { 0 < spare lasts.old }
    requires room { length recs.now ≤ runs.old.room }
    requires numbers { number + length recs.now < 2 ^ 64 }
    ensures linked { AreLinked lane_eq runs.new.parts }
    ensures lasts { (q : AnyLane) → get lane_eq lasts.new q ≡ option_map (λ i. runs.new.first + i) (last_on lane_eq q runs.new.parts) }
    ensures appended { AreAppended number (length recs.now) (map (on_lane lane) (numbered number recs.now)) runs.old runs.new }
    ensures runs { runs.new.runs ≡ runs.old.runs - 1 }
    ensures room { runs.new.room ≡ runs.old.room - length recs.now }
    ensures spare { spare lasts.old ≤ spare lasts.new + 1 }
{
    if !extend(runs, &lane, number, recs) {
        append_one(runs, lasts, lane, number, recs);
    }
}

/// Puts one more run at the end, with these records, numbered from a number on. It is the last of its lane then.
fn append_one(
    runs: &mut Runs,
    lasts: &mut HashMap<Lane, usize>,
    lane: Lane,
    number: usize,
    recs: &[Rec],
)
    requires some { 0 < length recs.now }
    requires linked { AreLinked lane_eq runs.old.parts }
    requires lasts { (q : AnyLane) → get lane_eq lasts.old q ≡ option_map (λ i. runs.old.first + i) (last_on lane_eq q runs.old.parts) }
    requires runs { 0 < runs.old.runs }
    requires spare { 0 < spare lasts.old }
    requires room { length recs.now ≤ runs.old.room }
    requires numbers { number + length recs.now < 2 ^ 64 }
    ensures linked { AreLinked lane_eq runs.new.parts }
    ensures lasts { (q : AnyLane) → get lane_eq lasts.new q ≡ option_map (λ i. runs.new.first + i) (last_on lane_eq q runs.new.parts) }
    ensures appended { AreAppended number (length recs.now) (map (on_lane lane) (numbered number recs.now)) runs.old runs.new }
    ensures up_to { AreUpTo number runs.old.parts → AreUpTo number runs.new.parts }
    ensures runs { runs.new.runs ≡ runs.old.runs - 1 }
    ensures room { runs.new.room ≡ runs.old.room - length recs.now }
    ensures spare { spare lasts.old ≤ spare lasts.new + 1 }
{
    let first = runs.first();
    let last = last_place(lasts, first, &lane);
    let place = first + runs.len();
    let _ = lasts.insert(lane.copy(), place);
    append(runs, lane, last, number, recs);
}

/// The place of the last run of a lane, if any, by its number, where `first` is that of the first run.
fn last_place(lasts: &HashMap<Lane, usize>, first: usize, lane: &Lane) -> Option<usize>
    requires { (number : ℕ) → get lane_eq lasts.now lane.now ≡ Some number → first ≤ number }
    ensures { option_map (λ place. first + place) result ≡ get lane_eq lasts.now lane.now }
{
    let number = lasts.get(lane)?;
    Some(*number - first)
}

/// Puts one more run at the end. `last` is the place of the last of its lane, if any.
fn append(runs: &mut Runs, lane: Lane, last: Option<usize>, number: usize, recs: &[Rec])
    requires some { 0 < length recs.now }
    requires last { last ≡ last_on lane_eq lane runs.old.parts }
    requires linked { AreLinked lane_eq runs.old.parts }
    requires runs { 0 < runs.old.runs }
    requires room { length recs.now ≤ runs.old.room }
    requires numbers { number + length recs.now < 2 ^ 64 }
    ensures linked { AreLinked lane_eq runs.new.parts }
    ensures lasts { (q : AnyLane) → last_on lane_eq q runs.new.parts ≡ cond (lane_eq lane q) (Some (length runs.old.parts)) (last_on lane_eq q runs.old.parts) }
    ensures appended { AreAppended number (length recs.now) (map (on_lane lane) (numbered number recs.now)) runs.old runs.new }
    ensures up_to { AreUpTo number runs.old.parts → AreUpTo number runs.new.parts }
    ensures runs { runs.new.runs ≡ runs.old.runs - 1 }
    ensures room { runs.new.room ≡ runs.old.room - length recs.now }
{
    if let Some(at) = last {
        let ahead = runs.len() - at;
        runs.link(at, ahead);
    }
    runs.push(lane, number, recs);
}

/// Puts records, numbered from a number on, behind those of the last run, where it is on this lane. Answers whether it did.
fn extend(runs: &mut Runs, lane: &Lane, number: usize, recs: &[Rec]) -> bool
    requires some { 0 < length recs.now }
    requires linked { AreLinked lane_eq runs.old.parts }
    requires runs { 0 < runs.old.runs }
    requires room { length recs.now ≤ runs.old.room }
    requires numbers { number + length recs.now < 2 ^ 64 }
    ensures linked { AreLinked lane_eq runs.new.parts }
    ensures lasts { (q : AnyLane) → last_on lane_eq q runs.new.parts ≡ last_on lane_eq q runs.old.parts }
    ensures unchanged { result ≡ false → runs.new ≡ runs.old }
    ensures appended { IsTrue result → AreAppended number (length recs.now) (map (on_lane lane.now) (numbered number recs.now)) runs.old runs.new }
    ensures runs { IsTrue result → runs.new.runs ≡ runs.old.runs - 1 }
    ensures room { IsTrue result → runs.new.room ≡ runs.old.room - length recs.now }
{
    runs.extend_last(lane, number, recs)
}
