//! Runs of a program on a disk, each a stint of a life.
ghost use Rattle.std.specs.Prelude.{◌≡◌, ◌≤◌, ◌↔◌, [], ◌∷◌, ◌++◌, Option, IfSome};
ghost use Rattle.td_head.specs.Layout.{size_of};
ghost use Rattle.td_store.specs.standing.Standing.{nothing_told};
ghost use Rattle.td_store.specs.standing.Tells.{Keeps, first_head};
ghost use Rattle.td_watch.specs.View.{View};
ghost use Rattle.td_keeper.specs.Driven.{Driven};
ghost use Rattle.td_theorem.specs.Life.{IsRun};

use crate::laws::{lives_go_on, watches_come_and_go};
use std::alloc::Global;
use std::sync::Wait;
use td_calls::Law;
use td_disk::Disk;
use td_head::Shape;
use td_keeper::laws::{each_disk_holds, each_is_kept};
use td_keeper::{Command, Keeper, Reply};
use td_plan::Plan;
use td_pool::{Crew, Pool};
use td_watch::Writer;

/// A RUN IS A STINT: a disk is recovered, and its keeper obeys commands beside the workers of a pool. Whatever it is told then, each command with its
/// reply (`Keeper::drive`: `driven`), and whatever a crash leaves since, in the middle of a write too: that makes a stint of the run. None where
/// a call refused.
pub fn recover_and_drive<D: Disk + Drop, L: Law, K: Crew, R: Wait>(
    alloc: Global,
    rt: &R,
    pool: &Pool<K, L>,
    disk: D,
    plan: &Plan,
    commands: Vec<Command>,
) -> Option<(Vec<Reply>, Keeper<D, L>)>
    ensures { IfSome result (λ run. (D.view disk).lawful
        → IsRun D.view L.answers plan.now disk commands.items run.0.items run.1) }
{
    watches_come_and_go::<D, L>();
    let Ok(mut keeper) = Keeper::recover(alloc, disk, plan) else {
        return None;
    };
    each_is_kept(&keeper);
    let Ok(replies) = keeper.drive(rt, pool, commands) else {
        return None;
    };
    each_disk_holds(&keeper);
    Some((replies, keeper))
}

/// So is one in which a watch is attached between two commands: the writer of a new one.
pub fn recover_and_watch<D: Disk + Drop, L: Law, K: Crew, R: Wait>(
    alloc: Global,
    rt: &R,
    pool: &Pool<K, L>,
    disk: D,
    plan: &Plan,
    before: Vec<Command>,
    writer: Writer,
    after: Vec<Command>,
) -> Option<(Vec<Reply>, Vec<Reply>, Keeper<D, L>)>
    requires { writer.words ≡ 0 ∷ 0 ∷ 0 ∷ [] }
    ensures { IfSome result (λ run. (D.view disk).lawful
        → IsRun D.view L.answers plan.now disk (before.items ++ after.items) (run.0.items ++ run.1.items) run.2) }
{
    watches_come_and_go::<D, L>();
    let Ok(mut keeper) = Keeper::recover(alloc, disk, plan) else {
        return None;
    };
    each_is_kept(&keeper);
    let Ok(replies) = keeper.drive(rt, pool, before) else {
        return None;
    };
    let mut keeper = watched(keeper, writer);
    let Some(others) = replies_to(rt, pool, &mut keeper, after) else {
        return None;
    };
    each_disk_holds(&keeper);
    Some((replies, others, keeper))
}

/// A keeper with the writer of a new watch, by which it has published how far it has come.
fn watched<D: Disk, L: Law>(keeper: Keeper<D, L>, writer: Writer) -> Keeper<D, L>
    requires { writer.words ≡ 0 ∷ 0 ∷ 0 ∷ [] }
    ensures { (view : Option View) × (result ≡ record keeper { watch = view }) }
{
    let mut writer = writer;
    let mut keeper = keeper;
    each_is_kept(&keeper);
    writer.publish([keeper.last_epoch(), keeper.collected(), keeper.kept()]);
    keeper.attach(writer);
    keeper
}

/// What a keeper replies to commands. None where there is no room for the replies.
fn replies_to<D: Disk + Drop, L: Law, K: Crew, R: Wait>(
    rt: &R,
    pool: &Pool<K, L>,
    keeper: &mut Keeper<D, L>,
    asked: Vec<Command>,
) -> Option<Vec<Reply>>
    ensures driven { IfSome result (λ replies. Driven D.view L.answers asked.items replies.items keeper.old keeper.new) }
    ensures lawful { (D.view keeper.old.device).lawful ↔ (D.view keeper.new.device).lawful }
{
    let Ok(replies) = keeper.drive(rt, pool, asked) else {
        return None;
    };
    Some(replies)
}

/// A LIFE BEGINS, whatever stood on the disk, what a stopped format left too: a disk is formatted, and its keeper obeys commands. That makes a
/// stint on the disk as it was formatted. None where a call refused.
pub fn format_and_drive<D: Disk + Drop, L: Law, K: Crew, R: Wait>(
    alloc: Global,
    rt: &R,
    pool: &Pool<K, L>,
    disk: D,
    plan: &Plan,
    shape: Shape,
    first: Vec<Command>,
) -> Option<(Vec<Reply>, Keeper<D, L>)>
    requires { size_of shape ≤ (D.view disk).capacity }
    ensures { IfSome result (λ run. (D.view disk).lawful
        → (formatted : D) × Keeps plan.now (first_head shape) 0 nothing_told (D.view formatted).state
        × IsRun D.view L.answers plan.now formatted first.items run.0.items run.1) }
{
    lives_go_on::<D>();
    watches_come_and_go::<D, L>();
    let Ok(mut keeper) = Keeper::format(alloc, disk, plan, shape) else {
        return None;
    };
    each_is_kept(&keeper);
    let Ok(said) = keeper.drive(rt, pool, first) else {
        return None;
    };
    each_disk_holds(&keeper);
    Some((said, keeper))
}
