//! Giving a task back that was run; and draining: all that can be taken is taken, run and given.
//!
//! A task whose run or give is refused is put back, and room for that is made before each take. So no task is out after a
//! refusal, and a later drain goes on.
ghost use Rattle.std.specs.Prelude.{◌≡◌, ◌↔◌, ◌<◌, ◌∷◌, [], ℕ, length, true, None, IsTrue, HoldsAt, IfOk, IfErr, OnOk, OnErr, IsErrAnd, ◌≤◌, ◌⊎◌, List, Some, Contains, slice_get, IfSome};
ghost use Rattle.td_plan.specs.Blocks.{vertices};
ghost use Rattle.td_calls.specs.Fits.{first_lack};
ghost use Rattle.td_machine.specs.Active.{has_passed, unpassed, kind_of};
ghost use Rattle.td_machine.specs.Steps.{Takes, effect, is_given, Refusal, Gives, ends};
ghost use Rattle.td_machine.specs.Steps.Answer.{has_taken, has_given, refused};
ghost use Rattle.td_machine.specs.Tally.{records_in, notes_in};
ghost use Rattle.td_core.specs.Parts.{state_of, IsHall};
ghost use Rattle.td_core.specs.Given.{IsUntouched, IsAnswered, IsEnded, took};
ghost use Rattle.td_core.specs.Posted.{IsRoomier};
ghost use Rattle.td_core.specs.Taking.{HasRoomBack};
ghost use Rattle.td_core.specs.Drained.{Works, IsKept, IsWhy, IsExact, IsExactFresh, IsTurnIf, IsIdle, IsFurther, HasNone};
ghost use Rattle.td_core.specs.declared.error.HallError.TheVariants.{Busy, Memory};
ghost use Rattle.td_stamp.specs.declared.values.Rec.{Rec as AnyRec};
ghost use Rattle.td_reach.specs.declared.stamp.Stamp.{Stamp as AnyStamp};
ghost use Rattle.td_progress.specs.Bag.{occurrences};
ghost use Rattle.td_machine.specs.State.Content.{messages};
ghost use Rattle.td_machine.specs.InOrder.{OneAShard};
ghost use Rattle.td_machine.specs.Moves.{gone_given};
ghost use Rattle.td_core.specs.Refusals.{error_of};
ghost use Rattle.td_core.specs.Routes.{IsRoutes, edge_in};

use crate::deliver::{deliver, notify};
use crate::error::HallError;
use crate::hall::{Hall, Parts, Routes};
use crate::known::known;
use crate::post::Change;
use crate::take::{put_back, take_task};
use td_calls::{Closures, Law};
use td_machine::TASK_SIZE;
use td_machine::laws::{in_parts, plays_join, reached_in_order};
use td_progress::laws::counted;
use td_reach::{Place, Stamp};
use td_shard::Shard;
use td_task::{Done, Task, TaskError, Work};

/// What a drain delivered.
#[derive(Clone, Copy, Debug, PartialEq, Eq)]
pub struct Drained {
    /// How many records.
    pub messages: u128,
    /// How many notifications.
    pub notes: u64,
}

impl<L: Law> Hall<L> {
    /// Takes, runs and gives tasks until no shard has one: then every released epoch has passed. It tells how many records
    /// and notifications it delivered: those of the batch meaning, less what was given before. Refusals: `Busy` where a
    /// task is out, with nothing changed; `Memory`, and `Spent` where there is something to take and all numbers of tasks
    /// are used, with no task out and nothing lost: what was given so far stays given, and a later drain goes on from there.
    pub fn drain<C: Closures<L>>(&mut self, calls: &C) -> Result<Drained, HallError>
        requires fits { first_lack (C.stored calls.now) (vertices self.old.plan) ≡ None }
        ensures busy { IsErrAnd result (λ e. e ≡ Busy) ↔ (0 < length self.old.out) }
        ensures same { 0 < length self.old.out → self.new ≡ self.old }
        ensures worked { self.old.out ≡ [] → (records : ℕ) × (notifications : ℕ) × Works L.answers self.old records notifications self.new }
        ensures none_out { self.old.out ≡ [] → self.new.out ≡ [] }
        ensures kept { IsKept self.old self.new }
        ensures refused { self.old.out ≡ [] → IfErr result (IsWhy self.new) }
        ensures delivered { IfOk result (λ drained. Works L.answers self.old drained.messages drained.notes self.new) }
        ensures none_left { OnOk result (HasNone self.new) }
        ensures passed { OnOk result ((epoch : ℕ) → epoch < self.new.next → has_passed self.new epoch ≡ true) }
        ensures unpassed { OnOk result (unpassed self.new ≡ None) }
        ensures exact { IfOk result (λ drained. IsExact L.answers self.old drained.messages drained.notes) }
        ensures fresh { IfOk result (λ drained. IsExactFresh L.answers self.old drained.messages drained.notes) }
    {
        known::<L>();
        if !self.parts.out.is_empty() {
            return Err(HallError::Busy);
        }
        let mut drained = Drained {
            messages: 0,
            notes: 0,
        };
        drain_parts::<L, C>(&mut self.parts, calls, &mut drained)?;
        Ok(drained)
    }

    /// Takes the first task of a shard, runs it and gives it, where the shard has one, and tells what it delivered; None where it has
    /// none. So a caller can drain a hall task by task, and stop after any. Refusals, with nothing changed: `Memory`; and `Spent`, where
    /// there is something to take and all numbers of tasks are used.
    pub fn run_one<C: Closures<L>>(
        &mut self,
        calls: &C,
        shard: u8,
    ) -> Result<Option<Drained>, HallError>
        requires fits { first_lack (C.stored calls.now) (vertices self.old.plan) ≡ None }
        requires none_out { self.old.out ≡ [] }
        requires within { shard < self.old.workers }
        ensures turn { IfOk result (λ delivered. IsTurnIf L.answers self.old shard delivered self.new) }
        ensures none_out { self.new.out ≡ [] }
        ensures kept { IsKept self.old self.new }
        ensures unchanged { OnErr result (self.new ≡ self.old) }
        ensures refused { IfErr result (IsWhy self.new) }
    {
        advance::<L, C>(&mut self.parts, calls, shard)
    }
}

/// Goes round all shards until none has a task, and counts what is delivered. Refusals: `Memory` and `Spent`.
fn drain_parts<L: Law, C: Closures<L>>(
    parts: &mut Parts,
    calls: &C,
    drained: &mut Drained,
) -> Result<(), HallError>
    requires fits { first_lack (C.stored calls.now) (vertices parts.old.table.plan) ≡ None }
    requires idle { IsIdle L.answers parts.old drained.old }
    ensures further { IsFurther L.answers parts.old drained.old parts.new drained.new }
    ensures none_left { OnOk result (HasNone (state_of parts.new)) }
    ensures refused { IfErr result (IsWhy (state_of parts.new)) }
{
    reached_in_order::<L>();
    loop {
        let taken = parts.taken;
        go_round::<L, C>(parts, calls, drained)?;
        if is_still(parts, taken) {
            return Ok(());
        }
    }
}

/// Whether no task was taken since so many were.
fn is_still(parts: &Parts, taken: u64) -> bool
    ensures { IsTrue result ↔ (parts.now.taken ≡ taken) }
{
    parts.taken == taken
}

/// Clears each shard in turn. Refusals: `Memory` and `Spent`.
fn go_round<L: Law, C: Closures<L>>(
    parts: &mut Parts,
    calls: &C,
    drained: &mut Drained,
) -> Result<(), HallError>
    requires fits { first_lack (C.stored calls.now) (vertices parts.old.table.plan) ≡ None }
    requires idle { IsIdle L.answers parts.old drained.old }
    ensures further { IsFurther L.answers parts.old drained.old parts.new drained.new }
    ensures none_left { OnOk result (parts.new.taken ≡ parts.old.taken → HasNone (state_of parts.new)) }
    ensures refused { IfErr result (IsWhy (state_of parts.new)) }
{
    for shard in 0..parts.shards.len() as u8 {
        clear::<L, C>(parts, calls, shard, drained)?;
    }
    Ok(())
}

/// Takes, runs and gives tasks of a shard until it has none. Refusals: `Memory` and `Spent`.
fn clear<L: Law, C: Closures<L>>(
    parts: &mut Parts,
    calls: &C,
    shard: u8,
    drained: &mut Drained,
) -> Result<(), HallError>
    requires fits { first_lack (C.stored calls.now) (vertices parts.old.table.plan) ≡ None }
    requires idle { IsIdle L.answers parts.old drained.old }
    requires within { shard < length parts.old.shards.items }
    ensures further { IsFurther L.answers parts.old drained.old parts.new drained.new }
    ensures none_left { OnOk result (Takes (state_of parts.new) shard (has_taken None) (state_of parts.new)) }
    ensures refused { IfErr result (IsWhy (state_of parts.new)) }
{
    plays_join::<L>();
    reached_in_order::<L>();
    while let Some(delivered) = advance::<L, C>(parts, calls, shard)? {
        drained.messages += delivered.messages;
        drained.notes += delivered.notes;
    }
    Ok(())
}

/// Takes a task of a shard, runs it and gives it, if the shard has one, and tells what it delivered. Refusals, with the
/// state as it was: `Memory` and `Spent`.
fn advance<L: Law, C: Closures<L>>(
    parts: &mut Parts,
    calls: &C,
    shard: u8,
) -> Result<Option<Drained>, HallError>
    requires fits { first_lack (C.stored calls.now) (vertices parts.old.table.plan) ≡ None }
    requires hall { IsHall L.answers parts.old }
    requires none_out { parts.old.out.items ≡ [] }
    requires within { shard < length parts.old.shards.items }
    ensures hall { IsHall L.answers parts.new }
    ensures turn { IfOk result (λ delivered. IsTurnIf L.answers (state_of parts.old) shard delivered (state_of parts.new)) }
    ensures err { OnErr result (state_of parts.new ≡ state_of parts.old) }
    ensures refused { IfErr result (IsWhy (state_of parts.new)) }
{
    make_room_back(&mut parts.shards, shard)?;
    let Some(task) = take_task::<L>(parts, shard, 0)? else {
        return Ok(None);
    };
    let delivered = delivery(&task);
    match run_and_give::<L, C>(parts, calls, task) {
        Ok(()) => Ok(Some(delivered)),
        Err(error) => {
            put_back::<L>(parts, shard);
            Err(error)
        }
    }
}

/// Runs the one task that is out, and gives it. Refusal: `Memory`, with the task still out and nothing changed but for more
/// room.
fn run_and_give<L: Law, C: Closures<L>>(
    parts: &mut Parts,
    calls: &C,
    task: Task,
) -> Result<(), HallError>
    requires fits { first_lack (C.stored calls.now) (vertices parts.old.table.plan) ≡ None }
    requires hall { IsHall L.answers parts.old }
    requires out { parts.old.out.items ≡ task ∷ [] }
    requires kind { task.kind ≡ kind_of parts.old.table.plan task.vertex }
    ensures state { OnOk result (state_of parts.new ≡ is_given (effect L.answers (state_of parts.old) task task.content) task) }
    ensures hall { OnOk result (IsHall L.answers parts.new) }
    ensures err { OnErr result (IsUntouched parts.old parts.new) }
    ensures memory { IfErr result (λ e. e ≡ Memory) }
{
    match task.run::<L, C>(parts.alloc, calls) {
        Ok(done) => give_task::<L>(parts, 0, &done),
        Err((TaskError::Memory, _task)) => Err(HallError::Memory),
        // The calls fit the plan.
        Err((TaskError::NoCall(..), _task)) => unreachable!(),
    }
}

/// What a task delivers: its records, or its notification.
fn delivery(task: &Task) -> Drained
    ensures messages { result.messages ≡ records_in task.now.content }
    ensures notes { result.notes ≡ notes_in task.now.content }
{
    match task.work() {
        Work::Messages(_port, recs) => Drained {
            messages: recs.len() as u128,
            notes: 0,
        },
        Work::Notification(_items) => Drained {
            messages: 0,
            notes: 1,
        },
    }
}

/// Makes room in the mailbox of a shard for the messages of a task, so that it can be put back. Refusal: `Memory`, with
/// nothing changed.
fn make_room_back(shards: &mut Vec<Shard>, shard: u8) -> Result<(), HallError>
    requires { shard < length shards.old.items }
    ensures same { IsRoomier shards.old.items shards.new.items }
    ensures room { OnOk result (HoldsAt HasRoomBack shards.new.items shard) }
    ensures memory { IfErr result (λ e. e ≡ Memory) }
{
    shards[shard as usize].mailbox.reserve(1, TASK_SIZE)?;
    Ok(())
}

impl<L: Law> Hall<L> {
    /// Takes a task back that was run: what its vertex answers is posted, kept and asked for, and what it took up is active
    /// no more (Naiad, section 2.3). Refusals, with nothing changed and the task handed back: `Stranger` where it is no task
    /// that is out, also where it was given before or is of another hall, and `Memory`.
    ///
    /// It costs a few look-ups for the task, and O(1) for each record that is sent, but for what a distinct, a fold or an
    /// output keeps.
    pub fn give(&mut self, done: Done<L>) -> Result<(), (HallError, Done<L>)>
        ensures given { OnOk result (Gives L.answers self.old done has_given self.new) }
        ensures refused { IfErr result (λ e. (e.0 ≡ Memory) ⊎ ((r : Refusal) × (e.0 ≡ error_of r) × Gives L.answers self.old done (refused r) self.old)) }
        ensures memory_last { IfErr result (λ e. e.0 ≡ Memory → Contains self.old.out done) }
        ensures err { OnErr result (self.new ≡ self.old) }
        ensures back { IfErr result (λ e. e.1 ≡ done) }
    {
        let Some(place) = place_of(self.parts.out.as_slice(), done.task()) else {
            return Err((HallError::Stranger, done));
        };
        match give_task::<L>(&mut self.parts, place, &done) {
            Ok(()) => Ok(()),
            Err(error) => Err((error, done)),
        }
    }
}

/// The place of a task among those that are out.
fn place_of(out: &[Task], task: &Task) -> Option<usize>
    ensures there { IfSome result (λ place. slice_get out.now place ≡ Some task.now) }
    ensures missing { result ≡ None → Contains out.now task.now → ⊥ }
{
    out.iter().position(|other| other.same(task))
}

/// Takes back the task that stands at a place of those that are out. Refusal: `Memory`, with nothing changed but for more
/// room.
pub(crate) fn give_task<L: Law>(
    parts: &mut Parts,
    place: usize,
    done: &Done<L>,
) -> Result<(), HallError>
    requires hall { IsHall L.answers parts.old }
    requires there { slice_get parts.old.out.items place ≡ Some done.now }
    ensures state { OnOk result (state_of parts.new ≡ is_given (effect L.answers (state_of parts.old) done.now done.now.content) done.now) }
    ensures hall { OnOk result (IsHall L.answers parts.new) }
    ensures err { OnErr result (IsUntouched parts.old parts.new) }
    ensures memory { IfErr result (λ e. e ≡ Memory) }
{
    known::<L>();
    answer::<L>(parts, done)?;
    end(parts, place, done.task());
    Ok(())
}

/// Answers a task that is out, which is still out then. Refusal: `Memory`, with nothing changed but for more room.
fn answer<L: Law>(parts: &mut Parts, done: &Done<L>) -> Result<(), HallError>
    requires hall { IsHall L.answers parts.old }
    requires out { Contains parts.old.out.items done.now }
    ensures ok { OnOk result (IsAnswered L.answers done.now done.now.content parts.old parts.new) }
    ensures err { OnErr result (IsUntouched parts.old parts.new) }
    ensures memory { IfErr result (λ e. e ≡ Memory) }
{
    match done.task().work() {
        Work::Messages(port, recs) => deliver::<L>(parts, done, *port, recs.as_slice()),
        Work::Notification(items) => notify::<L>(parts, done, items),
    }
}

/// The task at a place of those that are out is out no more. It takes no memory.
pub(crate) fn end(parts: &mut Parts, place: usize, task: &Task)
    requires there { slice_get parts.old.out.items place ≡ Some task.now }
    requires one_a_shard { OneAShard parts.old.out.items }
    requires active { (p : AnyStamp) → occurrences p (gone_given (state_of parts.old) task.now task.now.content) ≤ occurrences p parts.old.table.stamps }
    requires routes { IsRoutes parts.old.table.plan parts.old.routes }
    requires given { parts.old.given < ends }
    ensures { IsEnded task.now parts.old parts.new }
{
    in_parts();
    counted();
    // Their contracts say that there is a record in a task of records, and that the pointstamps are of a plan, which is lawful.
    let _some = task.work();
    let _lawful = parts.table.plan().vertices();
    let took = took(&parts.routes, task);
    parts.table.take_off_many(&took.stamp, took.times);
    parts.out.remove(place);
    parts.given += 1;
}

/// The pointstamp of what a task took up, and how often it occurs for it.
fn took(routes: &Routes, task: &Task) -> Change
    requires { (port : ℕ) (recs : List AnyRec) → task.now.content ≡ messages port recs → edge_in routes.now task.now.vertex port < 256 }
    ensures { result ≡ took routes.now task.now task.now.content }
{
    let time = task.time().copy();
    match task.work() {
        Work::Messages(port, recs) => Change {
            stamp: Stamp {
                time,
                place: Place::Edge(routes.edge(task.vertex(), *port)),
            },
            times: recs.len() as u64,
        },
        Work::Notification(_) => Change {
            stamp: Stamp {
                time,
                place: Place::Vertex(task.vertex()),
            },
            times: 1,
        },
    }
}
