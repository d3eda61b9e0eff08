//! Taking tasks.
ghost use Rattle.std.specs.Prelude.{◌≡◌, ◌<◌, ◌≤◌, ◌+◌, ◌-◌, ◌++◌, ◌∷◌, [], ◌↔◌, IsTrue, ℕ, List, HoldsAt, IfOk, IfErr, None};
ghost use Rattle.std.specs.Prelude.{IfSome, OnErr, Some, filter, map, length, nat_le, ◌==◌, ◌⊎◌, false, true};
ghost use Rattle.std.specs.List.{list_any};
ghost use Rattle.td_stamp.specs.Bag.{bag_of};
ghost use Rattle.td_stamp.specs.Groups.{groups};
ghost use Rattle.td_stamp.specs.Orders.{arrival_cmp};
ghost use Rattle.td_stamp.specs.States.{state_of as kept_of};
ghost use Rattle.td_stamp.specs.declared.values.Arrival.{Arrival as AnyArrival};
ghost use Rattle.td_shard.specs.declared.waiting.Noted.{Noted as AnyNoted};
ghost use Rattle.td_calls.specs.Callbacks.{is_notified as is_notified_kind};
ghost use Rattle.td_machine.specs.State.{HallState, Task as AnyTask, is_out, with_left};
ghost use Rattle.td_machine.specs.Steps.{Takes, MayTake, with_state_of, ends};
ghost use Rattle.td_machine.specs.Steps.Answer.{has_taken};
ghost use Rattle.td_task.specs.KeyLists.{with_state, without_state};
ghost use Rattle.td_shard.specs.Asked.{items_at};
ghost use Rattle.td_core.specs.Parts.{state_of, taken_up, IsHall};
ghost use Rattle.td_core.specs.Routes.{IsRoutes};
ghost use Rattle.td_core.specs.Posted.{mails, waits};
ghost use Rattle.td_core.specs.Picks.{IsPick, IsFull};
ghost use Rattle.td_core.specs.Taking.{changed_at, IsThere, IsTakeRefused, IsSame, IsTakenIf, HasRoomBack, IsLastTake};
ghost use Rattle.td_core.specs.Taking.{asked_at, AreAsked, AreReady, IsNextReady, comes_after, comes_before, earlier, asked_of};
ghost use Rattle.td_core.specs.Taking.{IsReadyAt, IsPlaceOf, IsPicked, IsTaskFor, mails_without, room_of, IsTakenFor};
ghost use Rattle.td_core.specs.Taking.{IsPickTaken, IsChosen, IsPickRefused, IsReordered};
ghost use Rattle.td_core.specs.declared.take.Candidate.TheVariants.{Message, Notification};
ghost use Rattle.td_core.specs.declared.error.HallError.TheVariants.{Memory};

use crate::error::HallError;
use crate::hall::{Hall, Parts, Routes};
use crate::known::known;
use std::alloc::Global;
use std::sync::Arc;
use td_calls::Law;
use td_machine::laws::{bags_of_states, reached_in_order};
use td_plan::Kind;
use td_progress::Table;
use td_progress::laws::counted;
use td_reach::{Place, Stamp};
use td_shard::laws::tasks;
use td_shard::{Noted, Shard, Versions, Waiting};
use td_stamp::laws::{groups_of_a_bag, time_list_order};
use td_stamp::{Arrival, States, Time};
use td_task::{KeyedItems, Task, Work};

/// Tasks are numbered up to this.
const MOST_TASKS: u64 = 1 << 63;

/// What may be taken of a shard.
#[derive(Debug, Drop)]
pub(crate) enum Candidate {
    /// The message at this place, in the order posted.
    Message(usize),
    Notification(Noted),
}

impl<L: Law> Hall<L> {
    /// Takes a task of a shard, if it has one: messages, or a notification that is in the frontier (Naiad, section 2.3). The
    /// candidates are the shard's messages in the order posted, then its notifications in the frontier by epoch, counters and
    /// vertex; the one at place `pick` is taken, counted round, and a message with the others of its edge and time in the order
    /// posted, 64 at most. With pick 0 it costs O(1) for each message, and notifications are looked for only where no message
    /// waits, among the pointstamps that are in the frontier: what that costs does not grow with the open epochs. A shard that the
    /// hall does not have has no task.
    ///
    /// Refusals, with nothing changed: `Busy`, where a task of the shard is out; `Spent`, where there is a candidate and all
    /// numbers of tasks are used; and `Memory`.
    pub fn take(&mut self, shard: u8, pick: u64) -> Result<Option<Task>, HallError>
        ensures taken { IfOk result (λ task. Takes self.old shard (has_taken task) self.new) }
        ensures picked { IfOk result (λ task. IfSome task (IsPick self.old shard pick)) }
        ensures full { IfOk result (λ task. IfSome task (IsFull self.old shard)) }
        ensures refused { IfErr result (IsTakeRefused self.old shard) }
        ensures memory_last { IfErr result (λ e. e ≡ Memory → (is_out self.old shard ≡ false) × (self.old.taken < ends)) }
        ensures err { OnErr result (self.new ≡ self.old) }
    {
        take_task::<L>(&mut self.parts, shard, pick)
    }

    /// Whether a shard at which no task is out has one that may be taken: a message that waits there, or a notification in the
    /// frontier. It takes no memory, and what it costs does not grow with the open epochs.
    pub fn has_task(&self, shard: u8) -> bool
        ensures { IsTrue result ↔ ((is_out self.now shard ≡ false) × ((task : AnyTask) × MayTake self.now shard task)) }
    {
        has_task_at::<L>(&self.parts, shard)
    }
}

/// Takes a task of a shard, if it has one. Refusals, with nothing changed: `Busy`, `Spent` and `Memory`.
pub(crate) fn take_task<L: Law>(
    parts: &mut Parts,
    shard: u8,
    pick: u64,
) -> Result<Option<Task>, HallError>
    requires hall { IsHall L.answers parts.old }
    ensures taken { IfOk result (λ task. Takes (state_of parts.old) shard (has_taken task) (state_of parts.new)) }
    ensures picked { IfOk result (λ task. IfSome task (IsPick (state_of parts.old) shard pick)) }
    ensures full { IfOk result (λ task. IfSome task (IsFull (state_of parts.old) shard)) }
    ensures refused { IfErr result (IsTakeRefused (state_of parts.old) shard) }
    ensures memory_last { IfErr result (λ e. e ≡ Memory → (is_out (state_of parts.old) shard ≡ false) × (parts.old.taken < ends)) }
    ensures hall { IsHall L.answers parts.new }
    ensures fields { IfOk result (IsTakenIf parts.old parts.new) }
    ensures err { OnErr result (IsSame parts.old parts.new) }
{
    known::<L>();
    if is_busy(parts.out.as_slice(), shard) {
        return Err(HallError::Busy);
    }
    if usize::from(shard) >= parts.shards.len() {
        return Ok(None);
    }
    take_there(parts, shard, pick)
}

/// Whether a shard at which no task is out has one that may be taken.
fn has_task_at<L: Law>(parts: &Parts, shard: u8) -> bool
    requires hall { IsHall L.answers parts.now }
    ensures { IsTrue result ↔ ((is_out (state_of parts.now) shard ≡ false) × ((task : AnyTask) × MayTake (state_of parts.now) shard task)) }
{
    known::<L>();
    if is_busy(parts.out.as_slice(), shard) {
        return false;
    }
    if usize::from(shard) >= parts.shards.len() {
        return false;
    }
    first_candidate(parts, shard).is_some()
}

/// The first candidate of a shard, if there is one.
fn first_candidate(parts: &Parts, shard: u8) -> Option<Candidate>
    requires within { shard < length parts.now.shards.items }
    requires routes { IsRoutes parts.now.table.plan parts.now.routes }
    requires asked { HoldsAt (λ s. AreAsked parts.now.table (asked_at s)) parts.now.shards.items shard }
    ensures { HoldsAt (λ s. IsPicked parts.now.table s 0 result) parts.now.shards.items shard }
{
    let there = &parts.shards[usize::from(shard)];
    picked(&parts.table, &parts.routes, there, 0)
}

/// Whether a task is out at a shard.
fn is_busy(out: &[Task], shard: u8) -> bool
    ensures { result ≡ list_any (λ t. t.shard == shard) out.now }
{
    out.iter().any(|task| task.shard() == shard)
}

/// Takes the task that a pick names, of a shard at which none is out. Refusals, with nothing changed: `Spent` and `Memory`. A
/// task is read before its messages are removed, since nothing that may be refused comes after the mailbox has changed.
fn take_there(parts: &mut Parts, shard: u8, pick: u64) -> Result<Option<Task>, HallError>
    requires within { shard < length parts.old.shards.items }
    requires asked { HoldsAt (λ s. AreAsked parts.old.table (asked_at s)) parts.old.shards.items shard }
    requires routes { IsRoutes parts.old.table.plan parts.old.routes }
    requires numbers { parts.old.taken ≤ ends }
    ensures taken { IfOk result (IsPickTaken shard pick parts.old parts.new) }
    ensures refused { IfErr result (IsPickRefused shard pick parts.old) }
    ensures err { OnErr result (IsSame parts.old parts.new) }
{
    let Some((candidate, task)) = chosen(parts, shard, pick)? else {
        return Ok(None);
    };
    let Ok(kept) = task.copy() else {
        return Err(HallError::Memory);
    };
    parts.out.reserve(1)?;
    remove(&mut parts.shards, shard, &candidate);
    parts.out.push_reserved(kept);
    parts.taken += 1;
    Ok(Some(task))
}

/// The candidate of a shard that a pick names, with its task, if there is one. Refusals: `Spent` and `Memory`. What waits for a
/// notification is sorted where it stands, before it is copied by key.
fn chosen(parts: &mut Parts, shard: u8, pick: u64) -> Result<Option<(Candidate, Task)>, HallError>
    requires within { shard < length parts.old.shards.items }
    requires asked { HoldsAt (λ s. AreAsked parts.old.table (asked_at s)) parts.old.shards.items shard }
    requires routes { IsRoutes parts.old.table.plan parts.old.routes }
    requires numbers { parts.old.taken ≤ ends }
    ensures chosen { IfOk result (IsChosen shard pick parts.old) }
    ensures none { IfOk result (λ found. found ≡ None → parts.new ≡ parts.old) }
    ensures refused { IfErr result (IsPickRefused shard pick parts.old) }
    ensures same { IsReordered parts.old parts.new }
{
    let there = &parts.shards[usize::from(shard)];
    let Some(candidate) = picked(&parts.table, &parts.routes, there, pick) else {
        return Ok(None);
    };
    if parts.taken == MOST_TASKS {
        return Err(HallError::Spent);
    }
    sort_items(&mut parts.shards, shard, &candidate);
    let task = task_at(parts, shard, &candidate)?;
    Ok(Some((candidate, task)))
}

/// A task for a candidate of the shard with this number. Refusal: `Memory`.
fn task_at(parts: &Parts, shard: u8, candidate: &Candidate) -> Result<Task, HallError>
    requires within { shard < length parts.now.shards.items }
    requires routes { IsRoutes parts.now.table.plan parts.now.routes }
    requires numbers { parts.now.taken < ends }
    requires there { HoldsAt (λ s. IsThere s candidate.now) parts.now.shards.items shard }
    ensures ok { IfOk result (λ task. HoldsAt (λ s. IsTaskFor parts.now shard s candidate.now task) parts.now.shards.items shard) }
    ensures memory { IfErr result (λ e. e ≡ Memory) }
{
    task_for(parts, &parts.shards[usize::from(shard)], shard, candidate)
}

/// Sorts what waits for the notification of a candidate, where it stands.
fn sort_items(shards: &mut Vec<Shard>, shard: u8, candidate: &Candidate)
    requires within { shard < length shards.old.items }
    ensures { shards.new.items ≡ shards.old.items }
{
    if let Candidate::Notification(noted) = candidate {
        shards[usize::from(shard)]
            .waiting
            .sort(noted.vertex, &noted.time);
    }
}

/// The candidate of a shard that a pick names, if there is one. Where the pick is below the number of its messages, the
/// notifications are not looked at.
fn picked(table: &Table, routes: &Routes, shard: &Shard, pick: u64) -> Option<Candidate>
    requires asked { AreAsked table.now (asked_at shard.now) }
    requires routes { IsRoutes table.now.plan routes.now }
    ensures { IsPicked table.now shard.now pick result }
{
    let messages = shard.mailbox.len() as u64;
    let place = place_of(table, routes, shard, pick);
    if place < messages {
        return Some(Candidate::Message(place as usize));
    }
    match ready_at(table, routes, &shard.waiting, place - messages) {
        Some(noted) => Some(Candidate::Notification(noted)),
        None => None,
    }
}

/// The place that a pick names. Where it is 0, or below the number of messages, it need not be counted round.
fn place_of(table: &Table, routes: &Routes, shard: &Shard, pick: u64) -> u64
    requires asked { AreAsked table.now (asked_at shard.now) }
    requires routes { IsRoutes table.now.plan routes.now }
    ensures { IsPlaceOf table.now shard.now pick result }
{
    let messages = shard.mailbox.len() as u64;
    if pick < messages.max(1) {
        return pick;
    }
    let count = u128::from(messages) + u128::from(ready_count(table, routes, &shard.waiting));
    if count == 0 {
        return pick;
    }
    (u128::from(pick) % count) as u64
}

/// How many notifications of a shard are in the frontier.
fn ready_count(table: &Table, routes: &Routes, waiting: &Waiting) -> u64
    requires asked { AreAsked table.now (map (λ w. w.0) waiting.now) }
    requires routes { IsRoutes table.now.plan routes.now }
    ensures { (ready : List AnyNoted) → AreReady table.now (map (λ w. w.0) waiting.now) ready → result ≡ length ready }
{
    time_list_order();
    counted();
    let _few = waiting.len();
    let mut count = 0;
    for stamp in table.frontier() {
        if asked_of(table, routes, waiting, &stamp).is_some() {
            count += 1;
        }
    }
    count
}

/// The notification at a place among those of a shard that are in the frontier: each place before it costs one more walk over the
/// frontier.
fn ready_at(table: &Table, routes: &Routes, waiting: &Waiting, place: u64) -> Option<Noted>
    requires asked { AreAsked table.now (map (λ w. w.0) waiting.now) }
    requires routes { IsRoutes table.now.plan routes.now }
    ensures { IsReadyAt table.now (map (λ w. w.0) waiting.now) place result }
{
    let mut next = next_ready(table, routes, waiting, &None);
    for _passed in 0..place {
        if next.is_none() {
            return None;
        }
        next = next_ready(table, routes, waiting, &next);
    }
    next
}

/// The first notification of a shard that is in the frontier and comes after another, or the first of all. No list of what is
/// ready is kept for a shard: it would stand in the hall's invariant, with each call's proof. A walk looks once at each place of
/// the plan and at the counters in loops that are active, however many epochs are open.
fn next_ready(
    table: &Table,
    routes: &Routes,
    waiting: &Waiting,
    after: &Option<Noted>,
) -> Option<Noted>
    requires asked { AreAsked table.now (map (λ w. w.0) waiting.now) }
    requires routes { IsRoutes table.now.plan routes.now }
    ensures { IsNextReady table.now (map (λ w. w.0) waiting.now) after.now result }
{
    time_list_order();
    counted();
    let mut first = None;
    for stamp in table.frontier() {
        first = earlier(first, after, asked_of(table, routes, waiting, &stamp));
    }
    first
}

/// The earlier of two notifications, of which the other counts only where it comes after a third.
fn earlier(first: Option<Noted>, after: &Option<Noted>, other: Option<Noted>) -> Option<Noted>
    ensures { result ≡ earlier first after.now other }
{
    let Some(noted) = other else {
        return first;
    };
    if comes_after(after, &noted) && comes_before(&noted, &first) {
        Some(noted)
    } else {
        first
    }
}

/// Whether a notification comes after another, if there is one.
fn comes_after(after: &Option<Noted>, noted: &Noted) -> bool
    ensures { result ≡ comes_after after.now noted.now }
{
    match after {
        Some(after) => after.cmp(noted).is_lt(),
        None => true,
    }
}

/// Whether a notification comes before another, if there is one.
fn comes_before(noted: &Noted, first: &Option<Noted>) -> bool
    ensures { result ≡ comes_before noted.now first.now }
{
    match first {
        Some(first) => noted.cmp(first).is_lt(),
        None => true,
    }
}

/// The notification of a pointstamp, where a shard asked for it. Vertices that have none are not looked up: an input is always in the
/// frontier.
fn asked_of(table: &Table, routes: &Routes, waiting: &Waiting, stamp: &Stamp) -> Option<Noted>
    requires asked { AreAsked table.now (map (λ w. w.0) waiting.now) }
    requires routes { IsRoutes table.now.plan routes.now }
    ensures { result ≡ asked_of waiting.now stamp.now.place stamp.now.time }
{
    time_list_order();
    let Place::Vertex(vertex) = stamp.place else {
        return None;
    };
    if !is_notified(routes.kind(vertex)) {
        return None;
    }
    if !waiting.is_asked(vertex, &stamp.time) {
        return None;
    }
    Some(Noted {
        time: stamp.time.copy(),
        vertex,
    })
}

/// Whether a vertex of this kind has notifications.
fn is_notified(kind: Kind) -> bool
    ensures { result ≡ is_notified_kind kind }
{
    matches!(kind, Kind::Group(_) | Kind::Fold(_))
}

/// A task for a candidate of a shard. Refusal: `Memory`.
fn task_for(
    parts: &Parts,
    there: &Shard,
    shard: u8,
    candidate: &Candidate,
) -> Result<Task, HallError>
    requires routes { IsRoutes parts.now.table.plan parts.now.routes }
    requires numbers { parts.now.taken < ends }
    requires there { IsThere there.now candidate.now }
    ensures ok { IfOk result (IsTaskFor parts.now shard there.now candidate.now) }
    ensures memory { IfErr result (λ e. e ≡ Memory) }
{
    match candidate {
        Candidate::Message(place) => messages_task(parts, there, shard, *place),
        Candidate::Notification(noted) => notification_task(parts, there, shard, noted),
    }
}

/// The task of the message at a place of a shard. Refusal: `Memory`.
fn messages_task(parts: &Parts, there: &Shard, shard: u8, place: usize) -> Result<Task, HallError>
    requires routes { IsRoutes parts.now.table.plan parts.now.routes }
    requires numbers { parts.now.taken < ends }
    requires place { place < length there.now.mailbox.messages }
    ensures ok { IfOk result (IsTaskFor parts.now shard there.now (Message place)) }
    ensures memory { IfErr result (λ e. e ≡ Memory) }
{
    tasks();
    let taken = there.mailbox.task(place)?;
    let kind = parts.routes.kind(taken.vertex);
    let work = Arc::new(parts.alloc, Work::Messages(taken.port, taken.recs))?;
    Ok(Task::new(shard, parts.taken + 1, taken.vertex, kind, taken.time, work))
}

/// The task of a notification of a shard. Refusal: `Memory`.
fn notification_task(
    parts: &Parts,
    there: &Shard,
    shard: u8,
    noted: &Noted,
) -> Result<Task, HallError>
    requires routes { IsRoutes parts.now.table.plan parts.now.routes }
    requires numbers { parts.now.taken < ends }
    ensures ok { IfOk result (IsTaskFor parts.now shard there.now (Notification noted.now)) }
    ensures memory { IfErr result (λ e. e ≡ Memory) }
{
    let mut items = grouped(parts.alloc, items_of(&there.waiting, noted))?;
    let before = noted.time.epoch().saturating_sub(1);
    set_states(
        &parts.versions,
        &parts.states,
        before,
        noted.vertex,
        &mut items,
    );
    let kind = parts.routes.kind(noted.vertex);
    let work = Arc::new(parts.alloc, Work::Notification(items))?;
    Ok(Task::new(
        shard,
        parts.taken + 1,
        noted.vertex,
        kind,
        noted.time.copy(),
        work,
    ))
}

/// What waits for a notification, in some order; nothing, where that is not asked for.
fn items_of<'a>(waiting: &'a Waiting, noted: &Noted) -> &'a [Arrival]
    ensures { (items : List AnyArrival) → items_at waiting.now noted.now.vertex noted.now.time ≡ Some items → bag_of arrival_cmp result.now ≡ items }
{
    waiting.items(noted.vertex, &noted.time).unwrap_or(&[])
}

/// What waits, by key. Refusal: `Memory`.
fn grouped(alloc: Global, items: &[Arrival]) -> Result<KeyedItems, HallError>
    ensures ok { IfOk result (λ keyed. keyed ≡ map without_state (groups (bag_of arrival_cmp items.now))) }
    ensures memory { IfErr result (λ e. e ≡ Memory) }
{
    groups_of_a_bag();
    match KeyedItems::grouped(alloc, items) {
        Ok(keyed) => Ok(keyed),
        Err(_) => Err(HallError::Memory),
    }
}

/// Gives each key the state that a vertex kept for it after an epoch.
fn set_states(versions: &Versions, base: &States, epoch: u64, vertex: u8, items: &mut KeyedItems)
    ensures { items.new ≡ map (λ k. with_state k (kept_of (with_left base.now (filter (λ k. nat_le k.epoch epoch) versions.now)) vertex k.key)) items.old }
{
    for index in 0..items.len() {
        let state = versions.state_at(epoch, vertex, items.at(index).key, base);
        items.set_state(index, state);
    }
}

/// Removes the messages of a candidate from a shard. What waits for a notification stays until that is given.
fn remove(shards: &mut Vec<Shard>, shard: u8, candidate: &Candidate)
    requires within { shard < length shards.old.items }
    requires there { HoldsAt (λ s. IsThere s candidate.now) shards.old.items shard }
    ensures mails { mails shards.new.items ≡ mails_without candidate.now shard (mails shards.old.items) }
    ensures waiting { waits shards.new.items ≡ waits shards.old.items }
    ensures room { map room_of shards.new.items ≡ map room_of shards.old.items }
{
    if let Candidate::Message(place) = candidate {
        shards[usize::from(shard)].mailbox.remove(*place);
    }
}

/// Puts back what was taken last, of this shard, whose mailbox has room for it: the hall is as it was before that take, but for
/// the order in which messages stand. It takes no memory.
pub(crate) fn put_back<L: Law>(parts: &mut Parts, shard: u8)
    requires hall { IsHall L.answers parts.old }
    requires within { shard < length parts.old.shards.items }
    requires room { HoldsAt HasRoomBack parts.old.shards.items shard }
    ensures back { (S : HallState) (task : AnyTask) → IsLastTake L.answers S shard task (state_of parts.old) → state_of parts.new ≡ S }
    ensures hall { (S : HallState) (task : AnyTask) → IsLastTake L.answers S shard task (state_of parts.old) → IsHall L.answers parts.new }
{
    reached_in_order::<L>();
    bags_of_states();
    let Some(task) = parts.out.pop() else {
        return;
    };
    post_back(&mut parts.shards, shard, &task);
    parts.taken -= 1;
}

/// Posts the messages of a task to a shard once more.
fn post_back(shards: &mut Vec<Shard>, shard: u8, task: &Task)
    requires within { shard < length shards.old.items }
    requires room { HoldsAt HasRoomBack shards.old.items shard }
    ensures mails { mails shards.new.items ≡ changed_at (λ ms. ms ++ taken_up task.now.vertex task.now.time task.now.content) shard (mails shards.old.items) }
    ensures waiting { waits shards.new.items ≡ waits shards.old.items }
{
    match task.work() {
        Work::Messages(port, recs) => {
            let mailbox = &mut shards[usize::from(shard)].mailbox;
            mailbox.post(task.vertex(), *port, task.time(), recs.as_slice());
        }
        Work::Notification(_) => {}
    }
}
