//! What a task does to the hall: its records are delivered to their vertex, or its notification is answered.
ghost use Rattle.std.specs.Prelude.{◌≡◌, ◌≤◌, ◌<◌, ◌++◌, ◌∷◌, [], ℕ, length, map, Contains, IfErr, OnOk, OnErr, IfOk};
ghost use Rattle.std.specs.List.{AllByRecursion, enumerate_from};
ghost use Rattle.td_stamp.specs.Groups.{arrival_of};
ghost use Rattle.td_reach.specs.declared.stamp.Stamp.{Stamp as AnyStamp};
ghost use Rattle.td_reach.specs.Paths.{IsOf};
ghost use Rattle.td_progress.specs.Bag.{occurrences, IsSameBag};
ghost use Rattle.td_machine.specs.Active.{stamp_at};
ghost use Rattle.td_machine.specs.ByEdge.{times_from};
ghost use Rattle.td_machine.specs.State.Content.{messages, notification};
ghost use Rattle.td_core.specs.Parts.{IsHall};
ghost use Rattle.td_core.specs.Delivered.{IsDelivered, IsSentOn, IsSentNew, IsComeOut, IsNoted, CanSend};
ghost use Rattle.td_core.specs.Given.{IsUntouched, IsNotified, outlets_for, waiting_without};
ghost use Rattle.td_core.specs.Posted.{HaveRoom, IsRoomier, stamp_on_outlet, stamps_on, mails, occurring, waits};
ghost use Rattle.td_core.specs.declared.error.HallError.TheVariants.{Memory};
ghost use Rattle.td_stamp.specs.Bag.{join};
ghost use Rattle.td_machine.specs.State.{left_cmp};
ghost use Rattle.td_task.specs.Answered.{left_for};

use crate::error::HallError;
use crate::hall::{Parts, Routes};
use crate::known::known;
use crate::post::{Change, add_all, changes_on, make_room, post, take_off_all};
use std::alloc::{AllocError, Global};
use td_calls::Law;
use td_machine::StateLeft;
use td_machine::laws::in_parts;
use td_plan::Kind;
use td_progress::Table;
use td_progress::laws::counted;
use td_reach::{Place, Stamp};
use td_shard::{Outlet, Shard, Versions};
use td_stamp::{Rec, State, Time};
use td_task::{Done, KeyedItems, Task};

/// Has the records of a task that is out come to its vertex (Naiad, section 2.2: OnRecv): what they send is posted, and what
/// they add is added. The task is still out. Refusal: `Memory`, with nothing changed but for more room.
pub(crate) fn deliver<L: Law>(
    parts: &mut Parts,
    done: &Done<L>,
    port: u8,
    recs: &[Rec],
) -> Result<(), HallError>
    requires hall { IsHall L.answers parts.old }
    requires out { Contains parts.old.out.items done.now }
    requires content { done.now.content ≡ messages port recs.now }
    ensures ok { OnOk result (IsDelivered L.answers done.now port recs.now parts.old parts.new) }
    ensures err { OnErr result (IsUntouched parts.old parts.new) }
    ensures memory { IfErr result (λ e. e ≡ Memory) }
{
    known::<L>();
    let task = done.task();
    let (vertex, time) = (task.vertex(), task.time());
    match task.kind() {
        Kind::Input => Ok(()),
        Kind::Map(_) => send(parts, vertex, time, done.sent()),
        Kind::Distinct => send_new(parts, vertex, time, recs),
        Kind::Group(_) | Kind::Fold(_) => keep(parts, task.shard(), vertex, time, port, recs),
        Kind::Enter | Kind::Feedback | Kind::Leave => send(parts, vertex, time, recs),
        Kind::Output => come_out(parts, vertex, time, recs),
    }
}

/// Sends records from a vertex in answer to a time. Refusal: `Memory`, with nothing changed but for more room.
pub(crate) fn send(
    parts: &mut Parts,
    vertex: u8,
    time: &Time,
    recs: &[Rec],
) -> Result<(), HallError>
    requires { CanSend vertex time.now parts.old }
    ensures ok { OnOk result (IsSentOn vertex time.now recs.now parts.old parts.new) }
    ensures err { OnErr result (IsUntouched parts.old parts.new) }
    ensures memory { IfErr result (λ e. e ≡ Memory) }
{
    counted();
    in_parts();
    let Some(later) = parts.routes.sending_time(vertex, time) else {
        return Ok(());
    };
    let outlets = parts.routes.outlets(vertex);
    prepare(
        &mut parts.table,
        &mut parts.shards,
        parts.alloc,
        outlets,
        &later,
        recs,
    )?;
    post(&mut parts.shards, outlets, &later, recs);
    Ok(())
}

/// Sends those of some records that are new to a distinct at a time, and has it have seen them. Refusal: `Memory`, with
/// nothing changed but for more room.
fn send_new(parts: &mut Parts, vertex: u8, time: &Time, recs: &[Rec]) -> Result<(), HallError>
    requires can { CanSend vertex time.now parts.old }
    requires plain { times_from parts.old.table.plan vertex time.now ≡ time.now ∷ [] }
    ensures ok { OnOk result (IsSentNew vertex time.now recs.now parts.old parts.new) }
    ensures err { OnErr result (IsUntouched parts.old parts.new) }
    ensures memory { IfErr result (λ e. e ≡ Memory) }
{
    counted();
    in_parts();
    let outlets = parts.routes.outlets(vertex);
    prepare(
        &mut parts.table,
        &mut parts.shards,
        parts.alloc,
        outlets,
        time,
        recs,
    )?;
    let Ok(new) = parts.seen.see(vertex, time, recs) else {
        take_off_on(&mut parts.table, outlets, time, recs.len() as u64);
        return Err(HallError::Memory);
    };
    let surplus = recs.len() - new.len();
    take_off_on(&mut parts.table, outlets, time, surplus as u64);
    post(&mut parts.shards, outlets, time, new.as_slice());
    Ok(())
}

/// Has records come out at an output in an epoch, and sends them. Refusal: `Memory`, with nothing changed but for more room.
fn come_out(parts: &mut Parts, vertex: u8, time: &Time, recs: &[Rec]) -> Result<(), HallError>
    requires can { CanSend vertex time.now parts.old }
    requires plain { times_from parts.old.table.plan vertex time.now ≡ time.now ∷ [] }
    ensures ok { OnOk result (IsComeOut vertex time.now recs.now parts.old parts.new) }
    ensures err { OnErr result (IsUntouched parts.old parts.new) }
    ensures memory { IfErr result (λ e. e ≡ Memory) }
{
    counted();
    in_parts();
    let outlets = parts.routes.outlets(vertex);
    prepare(
        &mut parts.table,
        &mut parts.shards,
        parts.alloc,
        outlets,
        time,
        recs,
    )?;
    if parts.outputs.come(time.epoch(), vertex, recs).is_err() {
        take_off_on(&mut parts.table, outlets, time, recs.len() as u64);
        return Err(HallError::Memory);
    }
    post(&mut parts.shards, outlets, time, recs);
    Ok(())
}

/// Keeps records as items that wait at a vertex and time in a shard. Their notification is active from the first on. Refusal:
/// `Memory`, with nothing changed but for more room.
fn keep(
    parts: &mut Parts,
    shard: u8,
    vertex: u8,
    time: &Time,
    port: u8,
    recs: &[Rec],
) -> Result<(), HallError>
    requires there { shard < length parts.old.shards.items }
    requires some { 0 < length recs.now }
    requires of_plan { IsOf parts.old.table.plan (stamp_at vertex time.now) }
    ensures ok { OnOk result (IsNoted shard vertex time.now (map (arrival_of port) recs.now) parts.old parts.new) }
    ensures err { OnErr result (IsUntouched parts.old parts.new) }
    ensures memory { IfErr result (λ e. e ≡ Memory) }
{
    counted();
    let waiting = &mut parts.shards[usize::from(shard)].waiting;
    let times = if waiting.is_asked(vertex, time) { 0 } else { 1 };
    let asked = [Change {
        stamp: Stamp {
            time: time.copy(),
            place: Place::Vertex(vertex),
        },
        times,
    }];
    add_all(&mut parts.table, &asked)?;
    if waiting.wait(vertex, time, port, recs).is_err() {
        take_off_all(&mut parts.table, &asked);
        return Err(HallError::Memory);
    }
    Ok(())
}

/// Makes room for records on each of some outlets at a time, and has them active there. Refusal: `Memory`, with nothing
/// changed but for more room.
pub(crate) fn prepare(
    table: &mut Table,
    shards: &mut Vec<Shard>,
    alloc: Global,
    outlets: &[Outlet],
    time: &Time,
    recs: &[Rec],
) -> Result<(), HallError>
    requires some { 1 ≤ length shards.old.items }
    requires few { length shards.old.items ≤ 16 }
    requires of_plan { AllByRecursion (λ o. IsOf table.old.plan (stamp_on_outlet time.now o)) outlets.now }
    ensures plan { table.new.plan ≡ table.old.plan }
    ensures stamps { OnOk result (IsSameBag table.new.stamps (stamps_on outlets.now time.now (length recs.now) ++ table.old.stamps)) }
    ensures room { OnOk result (HaveRoom recs.now (length outlets.now) shards.new.items) }
    ensures shards { IsRoomier shards.old.items shards.new.items }
    ensures err { OnErr result (IsSameBag table.new.stamps table.old.stamps) }
    ensures memory { IfErr result (λ e. e ≡ Memory) }
{
    make_room(shards, recs, outlets.len())?;
    let changes = changes_on(alloc, outlets, time, recs.len() as u64)?;
    add_all(table, changes.as_slice())
}

/// So many messages less on each of some outlets, at a time. It takes no memory.
pub(crate) fn take_off_on(table: &mut Table, outlets: &[Outlet], time: &Time, times: u64)
    requires { (p : AnyStamp) → occurrences p (stamps_on outlets.now time.now times) ≤ occurrences p table.old.stamps }
    ensures plan { table.new.plan ≡ table.old.plan }
    ensures stamps { IsSameBag table.old.stamps (stamps_on outlets.now time.now times ++ table.new.stamps) }
{
    counted();
    for outlet in outlets {
        let stamp = Stamp {
            time: time.copy(),
            place: Place::Edge(outlet.number),
        };
        table.take_off_many(&stamp, times);
    }
}

/// Answers a notification that is out: what its vertex sends is posted, what a fold leaves is kept, and the items and the
/// notification wait no more (Naiad, section 2.2: OnNotify). The task is still out. Refusal: `Memory`, with nothing changed
/// but for more room.
pub(crate) fn notify<L: Law>(
    parts: &mut Parts,
    done: &Done<L>,
    items: &KeyedItems,
) -> Result<(), HallError>
    requires hall { IsHall L.answers parts.old }
    requires out { Contains parts.old.out.items done.now }
    requires content { done.now.content ≡ notification items.now }
    ensures ok { OnOk result (IsNotified L.answers done.now items.now parts.old parts.new) }
    ensures err { OnErr result (IsUntouched parts.old parts.new) }
    ensures memory { IfErr result (λ e. e ≡ Memory) }
{
    known::<L>();
    let task = done.task();
    let sent = done.sent();
    let outlets = outlets_for(&parts.routes, task.vertex(), sent);
    make_room(&mut parts.shards, sent, outlets.len())?;
    let changes = changes_on(parts.alloc, outlets, task.time(), sent.len() as u64)?;
    let left = left_for(parts.alloc, task, items, done.states())?;
    add_all_and_leave(
        &mut parts.table,
        &mut parts.versions,
        changes.as_slice(),
        left.as_slice(),
    )?;
    post(&mut parts.shards, outlets, task.time(), sent);
    take_waiting(&mut parts.shards, task);
    Ok(())
}

/// The edges on which records are sent from a vertex: none where there are no records.
fn outlets_for<'a>(routes: &'a Routes, vertex: u8, recs: &[Rec]) -> &'a [Outlet]
    ensures { result.now ≡ outlets_for routes.now vertex recs.now }
{
    if recs.is_empty() {
        &[]
    } else {
        routes.outlets(vertex)
    }
}

/// What a fold leaves for the keys of a notification: these states. Refusal: out of memory.
fn left_for(
    alloc: Global,
    task: &Task,
    items: &KeyedItems,
    states: &[Option<State>],
) -> Result<Vec<StateLeft>, AllocError>
    requires { length states.now ≤ length items.now }
    ensures { IfOk result (λ left. left.items ≡ left_for task.now.time.epoch task.now.vertex items.now states.now) }
{
    let mut left = Vec::with_capacity(alloc, states.len())?;
    for (index, state) in states.iter().enumerate() {
        left.push_reserved(StateLeft {
            epoch: task.time().epoch(),
            vertex: task.vertex(),
            key: items.at(index).key,
            state: *state,
        });
    }
    Ok(left)
}

/// Adds pointstamps, and keeps what a fold left. Refusal: `Memory`, with neither done.
fn add_all_and_leave(
    table: &mut Table,
    versions: &mut Versions,
    changes: &[Change],
    left: &[StateLeft],
) -> Result<(), HallError>
    requires { AllByRecursion (λ r. IsOf table.old.plan r.stamp) changes.now }
    ensures plan { table.new.plan ≡ table.old.plan }
    ensures added { OnOk result (IsSameBag table.new.stamps (occurring changes.now ++ table.old.stamps)) }
    ensures left { OnOk result (versions.new ≡ join left_cmp left.now versions.old) }
    ensures none_added { OnErr result (IsSameBag table.new.stamps table.old.stamps) }
    ensures none_left { OnErr result (versions.new ≡ versions.old) }
    ensures memory { IfErr result (λ e. e ≡ Memory) }
{
    counted();
    add_all(table, changes)?;
    if versions.leave(left).is_err() {
        take_off_all(table, changes);
        return Err(HallError::Memory);
    }
    Ok(())
}

/// The items that wait for a notification, and the notification, wait no more in its shard. It takes no memory.
fn take_waiting(shards: &mut Vec<Shard>, task: &Task)
    requires { task.now.shard < length shards.old.items }
    ensures mails { mails shards.new.items ≡ mails shards.old.items }
    ensures waits { waits shards.new.items ≡ map (waiting_without task.now) (enumerate_from 0 shards.old.items) }
{
    let shard = &mut shards[usize::from(task.shard())];
    shard.waiting.forget(task.vertex(), task.time());
}
