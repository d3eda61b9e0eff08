//! The runs of messages of a mailbox, and their records in one list.
//!
//! Runs are linked, and not a map of queues ordered by their heads: std cannot reserve for such a map, and links need no growth.
//! So a post after `reserve` cannot be refused, and what contracts see is the list of messages itself.
//!
//! A message that is picked in the middle of its run is first moved before the run's others. A run whose records are all taken
//! stays until it is the first. A message costs 24 bytes, and a run 72 beside.
ghost use Rattle.std.specs.Prelude.{◌≡◌, ◌+◌, ◌-◌, ◌^◌, ◌<◌, ◌≤◌, ◌++◌, [], ℕ, length, take, drop, max, vec_len, vec_capacity, ◌↔◌, OnOk, OnErr, IsTrue, false, map};
ghost use Rattle.std.specs.List.{HoldsAt, remove};
ghost use Rattle.std.specs.VecDeque.{deque_len, deque_capacity};
ghost use Rattle.td_shard.specs.Runs.{InOrder, BeginsAt, begin_of, taken_of, part, changed_at, extended, linked_to, pushed, rec_of, with_first, without_front, lane_to, numbered};

use crate::outlet::Outlet;
use std::alloc::Global;
use std::collections::VecDeque;
use std::marker::Model;
use td_machine::TASK_SIZE;
use td_stamp::{Rec, StampError as ShardError, Time};

/// For how many records memory is kept where none waits, at least: 1.5 MiB.
const MANY: usize = 65_536;

/// Records that were posted together on one lane. Their places in the list of all are numbered.
#[derive(Debug, Drop)]
pub(crate) struct Run {
    pub lane: Lane,
    /// The number of the first record that was posted with it.
    pub base: usize,
    /// The place of the first that waits, and the one past the last.
    pub at: usize,
    pub end: usize,
    /// How many runs ahead the next of its lane stands; 0 where there is none.
    pub ahead: usize,
}

/// Runs of messages in the order posted. The records of all stand in one list.
#[derive(Drop)]
pub(crate) struct Runs {
    runs: VecDeque<Run>,
    recs: VecDeque<Numbered>,
    // The number of the first run, and the place of the first record.
    first: usize,
    start: usize,
    // How many more runs and records may be posted.
    runs_room: usize,
    room: usize,
}

impl Model for Runs {
    ghost use Rattle.std.specs.Prelude.{map};
    ghost use Rattle.td_shard.specs.Runs.{Parts, part};
    ghost use Rattle.td_shard.specs.KeptRuns.{IsRuns};

    ghost Value = { Parts };

    ghost view = { λ m. record { first = m.first; parts = map (part m.start m.recs.items) m.runs.items; runs = m.runs_room; room = m.room } };

    ghost invariant = { IsRuns };
}

impl Runs {
    /// No runs, and no room.
    pub fn new(alloc: Global) -> Runs
        ensures { result ≡ record { first = 0; parts = []; runs = 0; room = 0 } }
    {
        Runs {
            runs: VecDeque::new(alloc),
            recs: VecDeque::new(alloc),
            first: 0,
            start: 0,
            runs_room: 0,
            room: 0,
        }
    }

    /// How many runs there are.
    pub fn len(&self) -> usize
        ensures { result ≡ length self.now.parts }
    {
        self.runs.len()
    }

    /// The number of the first run.
    pub fn first(&self) -> usize
        ensures number { result ≡ self.now.first }
        ensures fits { self.now.first + length self.now.parts < 2 ^ 64 }
    {
        let _runs = self.runs.len();
        self.first
    }

    /// The lane of the run at a place.
    pub fn lane(&self, place: usize) -> &Lane
        requires { place < length self.now.parts }
        ensures lane { HoldsAt (λ p. result.now ≡ p.lane) self.now.parts place }
        ensures fits { length self.now.parts < 2 ^ 64 }
    {
        &self.runs[place].lane
    }

    /// How many runs ahead the next of its lane stands; 0 where there is none.
    pub fn ahead(&self, place: usize) -> usize
        requires { place < length self.now.parts }
        ensures { HoldsAt (λ p. result ≡ p.ahead) self.now.parts place }
    {
        self.runs[place].ahead
    }

    /// The number of the first record that was posted with the run at a place.
    pub fn base(&self, place: usize) -> usize
        requires { place < length self.now.parts }
        ensures { HoldsAt (λ p. result ≡ p.base) self.now.parts place }
    {
        self.runs[place].base
    }

    /// The number of a record that waits in the run at a place.
    pub fn number(&self, place: usize, offset: usize) -> usize
        requires place { place < length self.now.parts }
        requires offset { HoldsAt (λ p. offset < length p.recs) self.now.parts place }
        ensures { HoldsAt (λ p. HoldsAt (λ r. result ≡ r.number) p.recs offset) self.now.parts place }
    {
        let begin = self.runs[place].at - self.start;
        self.recs[begin + offset].number
    }

    /// How many records of the run at a place wait.
    pub fn waiting(&self, place: usize) -> usize
        requires { place < length self.now.parts }
        ensures count { HoldsAt (λ p. result ≡ length p.recs) self.now.parts place }
        ensures fits { length self.now.parts < 2 ^ 64 }
    {
        let run = &self.runs[place];
        run.end - run.at
    }

    /// Reads the records of the run at a place from one that waits to another, until the task is full.
    pub fn read(&self, place: usize, from: usize, to: usize, recs: &mut Vec<Rec>)
        requires place { place < length self.now.parts }
        requires range { from ≤ to }
        requires within { HoldsAt (λ p. to ≤ length p.recs) self.now.parts place }
        requires few { vec_len recs.old ≤ 64 }
        requires room { vec_capacity recs.old ≡ 64 }
        ensures recs { HoldsAt (λ p. recs.new.items ≡ recs.old.items ++ map rec_of (take (64 - vec_len recs.old) (take (to - from) (drop from p.recs)))) self.now.parts place }
        ensures capacity { vec_capacity recs.new ≡ vec_capacity recs.old }
    {
        let begin = self.runs[place].at - self.start + from;
        let many = (to - from).min(TASK_SIZE - recs.len());
        read_rows(&self.recs, begin, begin + many, recs);
    }

    /// Lets the run at a place know how far ahead the next of its lane stands.
    pub fn link(&mut self, place: usize, ahead: usize)
        requires { place < length self.old.parts }
        ensures { self.new ≡ record self.old { parts = changed_at (linked_to ahead) place self.old.parts } }
    {
        let run = &mut self.runs[place];
        run.ahead = ahead;
    }

    /// Takes the first records of the run at a place. Those of the first run are let go of.
    pub fn advance(&mut self, place: usize, count: usize)
        requires place { place < length self.old.parts }
        requires count { HoldsAt (λ p. count ≤ length p.recs) self.old.parts place }
        ensures { self.new ≡ record self.old { parts = changed_at (without_front count) place self.old.parts } }
    {
        let run = &mut self.runs[place];
        run.at += count;
        trim(&self.runs, &mut self.start, &mut self.recs);
    }

    /// Moves a record of the run at a place before its others.
    pub fn bring_to_front(&mut self, place: usize, offset: usize)
        requires place { place < length self.old.parts }
        requires offset { HoldsAt (λ p. offset < length p.recs) self.old.parts place }
        ensures { self.new ≡ record self.old { parts = changed_at (with_first offset) place self.old.parts } }
    {
        let to = self.runs[place].at - self.start;
        move_down(&mut self.recs, to, offset);
    }

    /// Puts one more run at the end, with records that are numbered from a number on. Takes no memory.
    pub fn push(&mut self, lane: Lane, number: usize, recs: &[Rec])
        requires runs { 0 < self.old.runs }
        requires room { length recs.now ≤ self.old.room }
        requires numbers { number + length recs.now < 2 ^ 64 }
        ensures { self.new ≡ pushed lane number recs.now self.old }
    {
        let at = self.start + self.recs.len();
        let end = at + recs.len();
        push_rows(&mut self.recs, number, recs);
        self.runs.push_back_reserved(Run {
            lane,
            base: number,
            at,
            end,
            ahead: 0,
        });
        self.runs_room -= 1;
        self.room -= recs.len();
    }

    /// Puts records, numbered from a number on, behind those of the last run, where it is on this lane. Answers whether it did. Takes no
    /// memory.
    pub fn extend_last(&mut self, lane: &Lane, number: usize, recs: &[Rec]) -> bool
        requires runs { 0 < self.old.runs }
        requires room { length recs.now ≤ self.old.room }
        requires numbers { number + length recs.now < 2 ^ 64 }
        ensures unchanged { result ≡ false → self.new ≡ self.old }
        ensures some { IsTrue result → 0 < length self.old.parts }
        ensures lane { IsTrue result → HoldsAt (λ p. p.lane ≡ lane.now) self.old.parts (length self.old.parts - 1) }
        ensures extended { IsTrue result → self.new ≡ extended number recs.now self.old }
    {
        let end = self.start + self.recs.len();
        if !ends_on(&self.runs, lane, end) {
            return false;
        }
        let last = self.runs.len() - 1;
        let run = &mut self.runs[last];
        run.end = end + recs.len();
        push_rows(&mut self.recs, number, recs);
        self.runs_room -= 1;
        self.room -= recs.len();
        true
    }

    /// So many runs fewer may be posted.
    pub fn give_up_runs(&mut self, many: usize)
        requires { many ≤ self.old.runs }
        ensures { self.new ≡ record self.old { runs = self.old.runs - many } }
    {
        self.runs_room -= many;
    }

    /// Lets go of the first run, with all records before the first that waits in the next.
    pub fn pop(&mut self)
        requires { 0 < length self.old.parts }
        ensures { self.new ≡ record self.old { first = self.old.first + 1; parts = drop 1 self.old.parts } }
    {
        let _ = self.runs.pop_front();
        self.first += 1;
        trim(&self.runs, &mut self.start, &mut self.recs);
    }

    /// Numbers the runs from 0 on, where there is none. The memory of a large epoch goes back to the allocator, but for what the room
    /// takes.
    pub fn number_anew(&mut self)
        requires { self.old.parts ≡ [] }
        ensures { self.new ≡ record self.old { first = 0 } }
    {
        self.first = 0;
        let kept = self.recs.len() + self.room;
        if kept.max(MANY) <= self.recs.capacity() / 4 {
            self.recs.shrink_to(kept);
        }
    }

    /// Makes room for `room` more records, in `runs` runs. Refusal: `Memory`, with the runs unchanged.
    pub fn reserve(&mut self, runs: usize, room: usize) -> Result<(), ShardError>
        ensures ok { OnOk result (self.new ≡ record self.old { runs = max self.old.runs runs; room = max self.old.room room }) }
        ensures err { OnErr result (self.new ≡ self.old) }
    {
        let runs = runs.max(self.runs_room);
        let room = room.max(self.room);
        if !can_number(self.first, self.runs.len(), runs) {
            return Err(ShardError::Memory);
        }
        if !can_number(self.start, self.recs.len(), room) {
            return Err(ShardError::Memory);
        }
        self.runs.reserve(runs)?;
        self.recs.reserve(room)?;
        self.runs_room = runs;
        self.room = room;
        Ok(())
    }
}

/// Lets go of the records before the first that waits in the first run. Where there is no run, all go, and records are numbered
/// from 0 on.
fn trim(runs: &VecDeque<Run>, start: &mut usize, recs: &mut VecDeque<Numbered>)
    requires { InOrder start.old runs.now.items (start.old + deque_len recs.old) }
    ensures begins { BeginsAt start.new (deque_len recs.new) runs.now.items }
    ensures ordered { InOrder start.new runs.now.items (start.new + deque_len recs.new) }
    ensures parts { map (part start.new recs.new.items) runs.now.items ≡ map (part start.old recs.old.items) runs.now.items }
    ensures fewer { deque_len recs.new ≤ deque_len recs.old }
    ensures numbers { start.new + deque_len recs.new ≤ start.old + deque_len recs.old }
    ensures capacity { deque_capacity recs.new ≡ deque_capacity recs.old }
{
    let count = taken_rows(runs, *start, recs.len());
    pop_rows(recs, count);
    *start = first_number(runs);
}

/// How many records there are before the first that waits in the first run: all `len` of them, where there is no run.
fn taken_rows(runs: &VecDeque<Run>, start: usize, len: usize) -> usize
    requires { InOrder start runs.now.items (start + len) }
    ensures within { result ≤ len }
    ensures count { result ≡ taken_of start len runs.now.items }
{
    match runs.front() {
        Some(run) => run.at - start,
        None => len,
    }
}

/// The number of the first record that waits in the first run: 0, where there is no run.
fn first_number(runs: &VecDeque<Run>) -> usize
    ensures { result ≡ begin_of runs.now.items }
{
    match runs.front() {
        Some(run) => run.at,
        None => 0,
    }
}

/// Whether the last run is on this lane, and its records end at this number.
fn ends_on(runs: &VecDeque<Run>, lane: &Lane, end: usize) -> bool
    ensures some { IsTrue result → 0 < deque_len runs.now }
    ensures lane { IsTrue result → HoldsAt (λ r. r.lane ≡ lane.now) runs.now.items (deque_len runs.now - 1) }
    ensures end { IsTrue result → HoldsAt (λ r. r.end ≡ end) runs.now.items (deque_len runs.now - 1) }
    ensures found { 0 < deque_len runs.now → HoldsAt (λ r. (r.lane ≡ lane.now) × (r.end ≡ end)) runs.now.items (deque_len runs.now - 1) → IsTrue result }
{
    match runs.back() {
        Some(run) => run.end == end && run.lane == *lane,
        None => false,
    }
}

/// Whether numbers fit, from `first` on, for `len` things and `room` more.
fn can_number(first: usize, len: usize, room: usize) -> bool
    ensures { IsTrue result ↔ (first + (len + room) < 2 ^ 64) }
{
    match len.checked_add(room) {
        Some(many) => first.checked_add(many).is_some(),
        None => false,
    }
}

/// The edge to a port of a vertex, and a time. The hash map compares lanes by the derived `==`, and `laws::edges` says what that
/// means.
#[derive(Debug, Drop, PartialEq, Eq, Hash)]
pub(crate) struct Lane {
    pub vertex: u8,
    pub port: u8,
    pub time: Time,
}

impl Lane {
    /// The lane to an outlet, at a time.
    pub fn to(outlet: &Outlet, time: &Time) -> Lane
        ensures { result ≡ lane_to time.now outlet.now }
    {
        Lane {
            vertex: outlet.reader,
            port: outlet.port,
            time: time.copy(),
        }
    }

    /// The same lane.
    pub fn copy(&self) -> Lane
        ensures { result ≡ self.now }
    {
        Lane {
            vertex: self.vertex,
            port: self.port,
            time: self.time.copy(),
        }
    }
}

/// A record with its number.
#[derive(Clone, Copy, Debug)]
pub(crate) struct Numbered {
    pub number: usize,
    pub rec: Rec,
}

/// Puts records at the end, numbered from a number on. Takes no memory.
pub(crate) fn push_rows(rows: &mut VecDeque<Numbered>, number: usize, recs: &[Rec])
    requires room { deque_len rows.old + length recs.now ≤ deque_capacity rows.old }
    requires numbers { number + length recs.now < 2 ^ 64 }
    ensures items { rows.new.items ≡ rows.old.items ++ numbered number recs.now }
    ensures capacity { deque_capacity rows.new ≡ deque_capacity rows.old }
{
    let mut next = number;
    for rec in recs {
        rows.push_back_reserved(Numbered {
            number: next,
            rec: *rec,
        });
        next += 1;
    }
}

/// Reads the records from one place to another.
pub(crate) fn read_rows(rows: &VecDeque<Numbered>, from: usize, to: usize, recs: &mut Vec<Rec>)
    requires range { from ≤ to }
    requires within { to ≤ deque_len rows.now }
    requires room { vec_len recs.old + (to - from) ≤ vec_capacity recs.old }
    ensures recs { recs.new.items ≡ recs.old.items ++ map rec_of (take (to - from) (drop from rows.now.items)) }
    ensures capacity { vec_capacity recs.new ≡ vec_capacity recs.old }
{
    for place in from..to {
        recs.push_reserved(rows[place].rec);
    }
}

/// Lets go of the first records.
pub(crate) fn pop_rows(rows: &mut VecDeque<Numbered>, count: usize)
    requires { count ≤ deque_len rows.old }
    ensures items { rows.new.items ≡ drop count rows.old.items }
    ensures capacity { deque_capacity rows.new ≡ deque_capacity rows.old }
{
    for _ in 0..count {
        let _ = rows.pop_front();
    }
}

/// Moves the record that stands `count` places after another to the place before that.
pub(crate) fn move_down(rows: &mut VecDeque<Numbered>, to: usize, count: usize)
    requires { to + count < deque_len rows.old }
    ensures items { let rest = drop to rows.old.items in rows.new.items ≡ take to rows.old.items ++ (take 1 (drop count rest) ++ remove rest count) }
    ensures capacity { deque_capacity rows.old ≤ deque_capacity rows.new }
{
    if count > 0 {
        if let Some(rec) = rows.remove(to + count) {
            let _ = rows.insert(to, rec);
        }
    }
}
