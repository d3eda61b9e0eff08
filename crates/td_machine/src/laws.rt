//! Laws of the definitions. Each is the contract of a function that does nothing, or calls the laws that it follows
//! from.
//!
//! The invariant is a history of the play: what arrived, was sent and was notified, and what folds left (`proofs/History.antt`).
//! The lists of a state follow from it, and what a vertex sent answers what arrived. At a passed epoch such a history solves the
//! flat equations of the batch meaning, which have one solution. It says nothing of what is still to arrive.
ghost use Rattle.std.specs.Prelude.{◌≡◌, ◌+◌, ◌≤◌, ◌++◌, ℕ, List, true};
ghost use Rattle.std.specs.List.{AllByRecursion};
ghost use Rattle.td_stamp.specs.States.{StateList, AreStates};
ghost use Rattle.td_plan.specs.Lines.{Line};
ghost use Rattle.td_plan.specs.Faults.{IsPlan};
ghost use Rattle.td_calls.specs.Callbacks.{is_notified};
ghost use Rattle.td_reach.specs.Paths.{IsOf};
ghost use Rattle.td_machine.specs.State.{HallState, Content};
ghost use Rattle.td_machine.specs.Active.{active, kind_of, has_passed};
ghost use Rattle.td_machine.specs.Steps.{Event, Answer, Step, Plays, opened};
ghost use Rattle.td_machine.specs.Exact.{ExactWork, ExactWorkDrained};
ghost use Rattle.td_machine.specs.Sound.{Sound, Confluence, EachIsSound, NeverStuck, batches_of};
ghost use Rattle.td_machine.specs.Reached.{IsReached};
ghost use Rattle.td_machine.specs.Tally.{tally};
ghost use Rattle.td_machine.specs.Below.{Below};
ghost use Rattle.td_stamp.specs.BagLaws.{BagLaws, SetLaws};
ghost use Rattle.td_machine.specs.State.{message_cmp, stamped_cmp, left_cmp, output_at_cmp, notification_cmp};
ghost use Rattle.td_machine.specs.AtOnce.{DeliveredAtOnce, FreshByMembers, FreshOfShard};
ghost use Rattle.td_machine.specs.InOrder.{ListsInOrder, TasksInOrder, NumbersInOrder};
ghost use Rattle.td_machine.specs.Moves.{StampsMove};
ghost use Rattle.td_machine.specs.NoneLeft.{NoneToTake, FirstUnpassed};
ghost use Rattle.td_machine.specs.Waits.{WaitsByPlace, WhatWaits, AskedPassing};
ghost use Rattle.td_machine.specs.Sends.{TasksOfPlan, ComeOfPlan, TurnsOfPlan, SentOfPlan};
ghost use Rattle.td_machine.specs.ByEdge.{PostsByEdge, StampsByEdge, BatchByEdge, BatchStampsByEdge, StampsOfTask, OutputsAtOnce, AsksOnce};

use crate::records::{Message, Notification, OutputAt, Stamped, StateLeft};
use td_calls::Law;
use td_stamp::{Arrival, Output, Rec};

/// What the laws of the crates below say of what stands here.
fn laws_below()
    ensures { Below }
{
    td_stamp::laws::bags_by_any_order::<Message>();
    td_stamp::laws::bags_by_any_order::<Stamped>();
    td_stamp::laws::bags_by_any_order::<StateLeft>();
    td_stamp::laws::bags_by_any_order::<OutputAt>();
    td_stamp::laws::bags_by_any_order::<Output>();
    td_stamp::laws::bags_by_any_order::<Rec>();
    td_stamp::laws::bags_by_any_order::<Arrival>();
    td_stamp::laws::sets_by_any_order::<Notification>();
    td_stamp::laws::sets_by_any_order::<Rec>();
    td_stamp::laws::sets_by_any_order::<u64>();
    td_stamp::laws::groups_in_any_order();
    td_stamp::laws::groups_of_a_bag();
    td_plan::laws::trees();
    td_plan::laws::well_placed();
    td_plan::laws::stands_at();
    td_plan::laws::read_there();
    td_plan::laws::edges_by_number();
    td_plan::laws::laid();
    td_reach::laws::could_order();
    td_reach::laws::some_least();
    td_batch::laws::arrivals_in_any_order();
    td_batch::laws::one_meaning();
    td_batch::laws::turns_solve();
    td_batch::laws::one_flow();
}

/// The lists of a state are bags, and the asked notifications a set.
pub fn bags_of_states()
    ensures messages { BagLaws message_cmp }
    ensures stamped { BagLaws stamped_cmp }
    ensures left { BagLaws left_cmp }
    ensures outputs { BagLaws output_at_cmp }
    ensures notifications { SetLaws notification_cmp }
{
    laws_below();
}

/// Confluence: whatever order the takes and gives fall in, with any number of shards, the outputs that a play collects
/// are the first outputs of the batch meaning of what it released, and its cuts have the batch meaning's states.
pub fn confluence<L: Law>()
    ensures { Confluence L.answers }
{
    laws_below();
}

/// Each state of a play is sound: the outputs of its passed epochs that were not collected, and the states at its
/// passed epochs, are those of the batch meaning of what was released since its base, from the states of the base.
pub fn each_is_sound<L: Law>()
    ensures { EachIsSound L.answers }
{
    laws_below();
}

/// Never stuck: where each shard answers that it has no task, so that none is out either, every released epoch has
/// passed.
pub fn never_stuck<L: Law>()
    ensures { NeverStuck L.answers }
{
    laws_below();
}

/// Exact work: where every released epoch has passed, a play has given as many records and notifications as the batch
/// meaning of what it released has, with any number of shards, in whatever order the takes and gives fell.
pub fn exact_work<L: Law>()
    ensures { ExactWork L.answers }
{
    laws_below();
}

/// And so it has where each shard answers that it has no task.
pub fn exact_work_drained<L: Law>()
    ensures { ExactWorkDrained L.answers }
{
    never_stuck::<L>();
    exact_work::<L>();
}

/// Plays after one another: a play from where another ends is one play with it, which released what both released, and
/// gave what both gave.
pub fn plays_join<L: Law>()
    ensures joined { (S T U : HallState) (events more : List Event) (replies others : List Answer)
        → Plays L.answers S events replies T → Plays L.answers T more others U
        → Plays L.answers S (events ++ more) (replies ++ others) U }
    ensures released { (S T : HallState) (events more : List Event) (replies others : List Answer)
        → Plays L.answers S events replies T
        → batches_of (events ++ more) (replies ++ others) ≡ batches_of events replies ++ batches_of more others }
    ensures given { (count : Content → ℕ) (S T : HallState) (events more : List Event) (replies others : List Answer)
        → Plays L.answers S events replies T
        → tally count (events ++ more) (replies ++ others) ≡ tally count events replies + tally count more others }
{}

/// The states that plays reach: an opening is one, each step from one leads to one, and each is sound.
pub fn reached<L: Law>()
    ensures opened { (plan : List Line) (states : StateList) (first workers : ℕ)
        → IsPlan plan → AreStates states → 1 ≤ first → 1 ≤ workers
        → IsReached L.answers (opened plan states first workers) }
    ensures step { (S T : HallState) (event : Event) (answer : Answer)
        → IsReached L.answers S → Step L.answers S event answer T → IsReached L.answers T }
    ensures sound { (S : HallState) → IsReached L.answers S → Sound L.answers S }
{
    each_is_sound::<L>();
}

/// In each state that plays reach the epochs up to its base have passed.
pub fn base_has_passed<L: Law>()
    ensures { (S : HallState) → IsReached L.answers S → has_passed S S.base ≡ true }
{
    laws_below();
}

/// A task's records may be answered all at once: in each state where they are messages, that is the same as one after
/// another, by callbacks that each see what the ones before kept.
pub fn delivered_at_once<L: Law>()
    ensures { DeliveredAtOnce L.answers }
{
    laws_below();
}

/// What is new to a distinct depends only on which of the records it has seen at their vertex and time, and so, for the
/// records of a shard, only on what was seen in the shard.
pub fn new_records()
    ensures members { FreshByMembers }
    ensures shard { FreshOfShard }
{
    laws_below();
}

/// The lists of a state that is reached are bags and sets in their orders; what the tasks took up that are out is still
/// there, each of a shard of its own; and as many tasks were taken as were given or are out.
pub fn reached_in_order<L: Law>()
    ensures lists { (S : HallState) → IsReached L.answers S → ListsInOrder S }
    ensures tasks { (S : HallState) → IsReached L.answers S → TasksInOrder S }
    ensures numbers { (S : HallState) → IsReached L.answers S → NumbersInOrder S }
{
    laws_below();
}

/// Each step from a state that is reached changes the bag of active pointstamps by what comes with it and what goes with
/// it: messages that are posted and answered, notifications that are asked for and given, and the inputs, which go from
/// one epoch to the next.
pub fn stamps_move<L: Law>()
    ensures { StampsMove L.answers }
{
    laws_below();
}

/// What steps do, in the parts in which it is done: the messages that a vertex sends, and those of a batch, edge by edge,
/// and their pointstamps; the pointstamps of a task's own records; what these leave at an output; and the one
/// notification for which they ask.
pub fn in_parts()
    ensures posts { PostsByEdge }
    ensures stamps { StampsByEdge }
    ensures batch { BatchByEdge }
    ensures batch_stamps { BatchStampsByEdge }
    ensures own_stamps { StampsOfTask }
    ensures outputs { OutputsAtOnce }
    ensures asked { AsksOnce }
{
    laws_below();
}

/// What a notification is taken with is what waits for it in its shard, group by group, and when it is given, what waits
/// for others is left; of what is asked for, those that pass a test are the set of those that pass.
pub fn what_waits()
    ensures place { WaitsByPlace }
    ensures items { WhatWaits }
    ensures asked { AskedPassing }
{
    laws_below();
}

/// A shard of which no message is there, and none of whose notifications is in the frontier, has no task; and where the
/// first so many epochs after the base have passed, and no other, the next one is the least that has not.
pub fn none_left()
    ensures task { NoneToTake }
    ensures epoch { FirstUnpassed }
{}

/// Each active pointstamp of a state that is reached is of the plan: its place is one of the plan's, and its time is in as
/// many loops as are open there.
pub fn active_of_plan<L: Law>()
    ensures { (S : HallState) → IsReached L.answers S → AllByRecursion (IsOf S.plan) (active S) }
{
    laws_below();
}

/// A state that is reached has asked for notifications at groups and folds alone.
pub fn asked_where_notified<L: Law>()
    ensures { (S : HallState) → IsReached L.answers S → AllByRecursion (λ a. is_notified (kind_of S.plan a.vertex) ≡ true) S.asked }
{
    laws_below();
}

/// The vertex and the time of a task that is out are of the plan, and so is what its vertex sends in answer to that time, on
/// each edge out of it; and the task's epoch was released after the base.
pub fn sends_of_plan<L: Law>()
    ensures { TasksOfPlan L.answers }
{
    laws_below();
}

/// The pointstamps that come with a step from a state that is reached are of the plan.
pub fn come_of_plan<L: Law>()
    ensures { ComeOfPlan L.answers }
{
    laws_below();
}

/// Where a vertex and a time are of a plan, the vertex can send at the times that its kind turns it into: into a fourth loop
/// no enter leads, a leave and a feedback stand in a loop, and a loop has a bound from 1 to 1,000.
pub fn turns_of_plan()
    ensures { TurnsOfPlan }
{
    laws_below();
}

/// And what it sends at these times is of the plan, on each edge out of it.
pub fn sent_of_plan()
    ensures { SentOfPlan }
{
    laws_below();
}
