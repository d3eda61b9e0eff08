//! Messages come to the mailboxes of the shards, and several pointstamps to the table, all or none. Counts are
//! added to before the last growth that may be refused, and taken off again after a refusal.
ghost use Rattle.std.specs.Prelude.{◌≡◌, ◌+◌, ◌-◌, ◌*◌, ◌≤◌, ◌<◌, ℕ, length, get_or, take, drop, IfErr, OnOk, OnErr, ◌++◌, map, replicate, IfOk};
ghost use Rattle.std.specs.List.{AllByRecursion};
ghost use Rattle.td_stamp.specs.declared.values.Rec.{Rec as AnyRec};
ghost use Rattle.td_machine.specs.State.{shard_of_key};
ghost use Rattle.td_core.specs.Posted.{IsPosted, IsRoomier, HaveRoom, HaveRoomFor, HaveRoomApart, count_of, runs_of, only_in, occurring, stamps_on, stamp_on_outlet};
ghost use Rattle.td_shard.specs.Messages.{on_each, AreApart};
ghost use Rattle.td_core.specs.declared.error.HallError.TheVariants.{Memory};
ghost use Rattle.td_reach.specs.declared.stamp.Stamp.{Stamp as AnyStamp};
ghost use Rattle.td_reach.specs.Paths.{IsOf};
ghost use Rattle.td_progress.specs.Bag.{IsSameBag, occurrences};

use crate::error::HallError;
use std::alloc::Global;
use td_progress::Table;
use td_progress::laws::counted;
use td_reach::{Place, Stamp};
use td_shard::{Outlet, Shard};
use td_stamp::{Rec, Time};

/// The most shards of a hall.
pub(crate) const SHARDS: usize = 16;

/// How many messages come to each shard, and how many runs they make at most.
#[derive(Drop)]
pub(crate) struct Counts {
    messages: [usize; SHARDS],
    runs: [usize; SHARDS],
}

impl Counts {
    /// None.
    pub fn new() -> Counts
        ensures messages { (s : ℕ) → get_or result.messages s 0 ≡ 0 }
        ensures runs { (s : ℕ) → get_or result.runs s 0 ≡ 0 }
    {
        Counts {
            messages: [0; SHARDS],
            runs: [0; SHARDS],
        }
    }
}

/// Makes room for records on each of so many edges, in the shards to which they belong. What room there is counts. Refusal:
/// `Memory`, with nothing changed but for more room.
pub(crate) fn make_room(
    shards: &mut Vec<Shard>,
    recs: &[Rec],
    edges: usize,
) -> Result<(), HallError>
    requires some { 1 ≤ length shards.old.items }
    requires few { length shards.old.items ≤ 16 }
    ensures same { IsRoomier shards.old.items shards.new.items }
    ensures room { OnOk result (HaveRoom recs.now edges shards.new.items) }
    ensures memory { IfErr result (λ e. e ≡ Memory) }
{
    let mut counts = Counts::new();
    count(&mut counts, recs, edges, shards.len() as u8)?;
    make_room_for(shards, &counts)
}

/// Counts the messages of records on each of so many edges, and their runs, beside what was counted. Refusal: `Memory`, where there is
/// no such number.
pub(crate) fn count(
    counts: &mut Counts,
    recs: &[Rec],
    edges: usize,
    workers: u8,
) -> Result<(), HallError>
    requires some { 1 ≤ workers }
    requires few { workers ≤ 16 }
    ensures messages { OnOk result ((s : ℕ) → s < workers → get_or counts.new.messages s 0 ≡ get_or counts.old.messages s 0 + count_of workers recs.now s * edges) }
    ensures runs { OnOk result ((s : ℕ) → s < workers → get_or counts.new.runs s 0 ≡ get_or counts.old.runs s 0 + runs_of workers recs.now edges s) }
    ensures memory { IfErr result (λ e. e ≡ Memory) }
{
    count_each(&mut counts.messages, recs, edges, workers)?;
    if workers == 1 {
        count_once(&mut counts.runs, edges)
    } else {
        count_each(&mut counts.runs, recs, edges, workers)
    }
}

/// Counts so many for each record, at its shard. Refusal: `Memory`, where there is no such number.
fn count_each(
    counts: &mut [usize; SHARDS],
    recs: &[Rec],
    edges: usize,
    workers: u8,
) -> Result<(), HallError>
    requires some { 1 ≤ workers }
    requires few { workers ≤ 16 }
    ensures counts { OnOk result ((s : ℕ) → s < workers → get_or counts.new s 0 ≡ get_or counts.old s 0 + count_of workers recs.now s * edges) }
    ensures memory { IfErr result (λ e. e ≡ Memory) }
{
    for rec in recs {
        let shard = usize::from(rec.shard(workers));
        let Some(more) = counts[shard].checked_add(edges) else {
            return Err(HallError::Memory);
        };
        counts[shard] = more;
    }
    Ok(())
}

/// Counts so many at the first shard. Refusal: `Memory`, where there is no such number.
fn count_once(counts: &mut [usize; SHARDS], edges: usize) -> Result<(), HallError>
    ensures count { OnOk result (get_or counts.new 0 0 ≡ get_or counts.old 0 0 + edges) }
    ensures memory { IfErr result (λ e. e ≡ Memory) }
{
    let Some(more) = counts[0].checked_add(edges) else {
        return Err(HallError::Memory);
    };
    counts[0] = more;
    Ok(())
}

/// Makes room in each shard for what was counted. Refusal: `Memory`, with nothing changed but for more room.
pub(crate) fn make_room_for(shards: &mut Vec<Shard>, counts: &Counts) -> Result<(), HallError>
    requires few { length shards.old.items ≤ 16 }
    ensures same { IsRoomier shards.old.items shards.new.items }
    ensures room { OnOk result (HaveRoomFor (λ s. get_or counts.now.runs s 0) (λ s. get_or counts.now.messages s 0) shards.new.items) }
    ensures memory { IfErr result (λ e. e ≡ Memory) }
{
    for shard in 0..shards.len() {
        let (runs, messages) = (counts.runs[shard], counts.messages[shard]);
        shards[shard].mailbox.reserve(runs, messages)?;
    }
    Ok(())
}

/// Posts records to each of some outlets at a time, record by record. Takes no memory: room was made by `make_room`. Records of one
/// shard that follow one another go to all outlets at once: where there is one shard, these are all.
pub(crate) fn post(shards: &mut Vec<Shard>, outlets: &[Outlet], time: &Time, recs: &[Rec])
    requires some { 1 ≤ length shards.old.items }
    requires few { length shards.old.items ≤ 16 }
    requires apart { AreApart outlets.now }
    requires room { HaveRoom recs.now (length outlets.now) shards.old.items }
    ensures messages { IsPosted (on_each outlets.now time.now recs.now) shards.old.items shards.new.items }
    ensures room { (runs many : ℕ → ℕ)
        → HaveRoomFor (λ s. runs_of (length shards.old.items) recs.now (length outlets.now) s + runs s) (λ s. count_of (length shards.old.items) recs.now s * length outlets.now + many s) shards.old.items
        → HaveRoomFor runs many shards.new.items }
{
    if shards.len() == 1 {
        post_run(shards, 0, outlets, time, recs);
    } else {
        post_runs(shards, outlets, time, recs);
    }
}

/// Posts records to each of some outlets: those of one shard that follow one another at once.
fn post_runs(shards: &mut Vec<Shard>, outlets: &[Outlet], time: &Time, recs: &[Rec])
    requires some { 1 ≤ length shards.old.items }
    requires few { length shards.old.items ≤ 16 }
    requires apart { AreApart outlets.now }
    requires room { HaveRoomApart recs.now (length outlets.now) shards.old.items }
    ensures posted { IsPosted (on_each outlets.now time.now recs.now) shards.old.items shards.new.items }
    ensures room { (runs many : ℕ → ℕ)
        → HaveRoomFor (λ s. count_of (length shards.old.items) recs.now s * length outlets.now + runs s) (λ s. count_of (length shards.old.items) recs.now s * length outlets.now + many s) shards.old.items
        → HaveRoomFor runs many shards.new.items }
{
    let workers = shards.len() as u8;
    let mut done = 0;
    while done < recs.len() {
        let shard = recs[done].shard(workers);
        let end = run_end(recs, done, shard, workers);
        post_run(shards, shard, outlets, time, &recs[done..end]);
        done = end;
    }
}

/// Where the records of a shard end that begin at a place.
fn run_end(recs: &[Rec], begin: usize, shard: u8, workers: u8) -> usize
    requires workers { 1 ≤ workers }
    requires there { begin < length recs.now }
    requires first { (d : AnyRec) → shard_of_key workers (get_or recs.now begin d).key ≡ shard }
    ensures after { begin < result }
    ensures within { result ≤ length recs.now }
    ensures own { AllByRecursion (λ r. shard_of_key workers r.key ≡ shard) (take (result - begin) (drop begin recs.now)) }
{
    for end in begin + 1..recs.len() {
        if recs[end].shard(workers) != shard {
            return end;
        }
    }
    recs.len()
}

/// Posts records of one shard to each of some outlets, in one run on each.
fn post_run(shards: &mut Vec<Shard>, shard: u8, outlets: &[Outlet], time: &Time, recs: &[Rec])
    requires there { shard < length shards.old.items }
    requires own { AllByRecursion (λ r. shard_of_key (length shards.old.items) r.key ≡ shard) recs.now }
    requires apart { AreApart outlets.now }
    requires room { HaveRoomFor (only_in shard (length outlets.now)) (only_in shard (length recs.now * length outlets.now)) shards.old.items }
    ensures posted { IsPosted (on_each outlets.now time.now recs.now) shards.old.items shards.new.items }
    ensures room { (runs many : ℕ → ℕ)
        → HaveRoomFor (λ s. only_in shard (length outlets.now) s + runs s) (λ s. only_in shard (length recs.now * length outlets.now) s + many s) shards.old.items
        → HaveRoomFor runs many shards.new.items }
{
    let shard = &mut shards[usize::from(shard)];
    shard.mailbox.post_each(outlets, time, recs);
}

/// A change of the table: a pointstamp, and how many times more or less it occurs.
#[derive(Drop)]
pub(crate) struct Change {
    pub stamp: Stamp,
    pub times: u64,
}

/// Each of these pointstamps so many times more. Refusal: `Memory`, with as many of each as there were, also where one would
/// occur 2^128 times.
pub(crate) fn add_all(table: &mut Table, changes: &[Change]) -> Result<(), HallError>
    requires { AllByRecursion (λ r. IsOf table.old.plan r.stamp) changes.now }
    ensures plan { table.new.plan ≡ table.old.plan }
    ensures ok { OnOk result (IsSameBag table.new.stamps (occurring changes.now ++ table.old.stamps)) }
    ensures err { OnErr result (IsSameBag table.new.stamps table.old.stamps) }
    ensures memory { IfErr result (λ e. e ≡ Memory) }
{
    counted();
    for (count, change) in changes.iter().enumerate() {
        if let Err(refused) = add_one(table, change) {
            take_off_all(table, &changes[..count]);
            return Err(refused);
        }
    }
    Ok(())
}

/// One of these pointstamps so many times more. Refusal: `Memory`, with the table unchanged, also where it would occur 2^128
/// times.
fn add_one(table: &mut Table, change: &Change) -> Result<(), HallError>
    requires { IsOf table.old.plan change.now.stamp }
    ensures plan { table.new.plan ≡ table.old.plan }
    ensures ok { OnOk result (IsSameBag table.new.stamps (replicate change.now.times change.now.stamp ++ table.old.stamps)) }
    ensures err { OnErr result (table.new ≡ table.old) }
    ensures memory { IfErr result (λ e. e ≡ Memory) }
{
    let before = table.occurrences(&change.stamp);
    if before.checked_add(u128::from(change.times)).is_none() {
        return Err(HallError::Memory);
    }
    table.add_many(&change.stamp, change.times)?;
    Ok(())
}

/// Each of these pointstamps so many times less. It takes no memory.
pub(crate) fn take_off_all(table: &mut Table, changes: &[Change])
    requires { (p : AnyStamp) → occurrences p (occurring changes.now) ≤ occurrences p table.old.stamps }
    ensures plan { table.new.plan ≡ table.old.plan }
    ensures stamps { IsSameBag table.old.stamps (occurring changes.now ++ table.new.stamps) }
{
    counted();
    for change in changes {
        table.take_off_many(&change.stamp, change.times);
    }
}

/// So many messages more on each of some outlets, at a time. Refusal: `Memory`.
pub(crate) fn changes_on(
    alloc: Global,
    outlets: &[Outlet],
    time: &Time,
    times: u64,
) -> Result<Vec<Change>, HallError>
    ensures changes { IfOk result (λ changes. changes.items ≡ map (λ o. record { stamp = stamp_on_outlet time.now o; times = times }) outlets.now) }
    ensures occurring { IfOk result (λ changes. occurring changes.items ≡ stamps_on outlets.now time.now times) }
    ensures memory { IfErr result (λ e. e ≡ Memory) }
{
    let mut changes = Vec::with_capacity(alloc, outlets.len())?;
    for outlet in outlets {
        changes.push_reserved(Change {
            stamp: Stamp {
                time: time.copy(),
                place: Place::Edge(outlet.number),
            },
            times,
        });
    }
    Ok(changes)
}
