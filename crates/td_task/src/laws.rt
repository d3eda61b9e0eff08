//! What a hall that is given a task knows of its answers. Each law is the contract of a function that does nothing.
ghost use Rattle.std.specs.Prelude.{◌≡◌, ℕ, List, [], length};
ghost use Rattle.std.specs.List.{flat_map};
ghost use Rattle.td_stamp.specs.declared.values.Rec.{Rec as AnyRec};
ghost use Rattle.td_stamp.specs.Groups.{arrival_of};
ghost use Rattle.td_plan.specs.declared.vertex.Kind.TheVariants.{Map};
ghost use Rattle.td_calls.specs.Callbacks.{Kept, on_arrival};
ghost use Rattle.td_machine.specs.State.{KeyItems as AnyKey, Task as AnyTask};
ghost use Rattle.td_machine.specs.State.Content.{messages, notification};
ghost use Rattle.td_machine.specs.Steps.{notified_sends, leaves};
ghost use Rattle.td_task.specs.Answered.{answers_of, states_for, answer_count, state_count, left_for};

use td_calls::Law;

/// What is sent for the records that come to a map is what its callbacks send, one after another, whatever its vertex has
/// kept.
pub fn a_map_sends<L: Law>()
    ensures { (task : AnyTask) (code port : ℕ) (recs : List AnyRec) (kept : Kept) → task.kind ≡ Map code → task.content ≡ messages port recs
        → flat_map (λ sent. sent) (answers_of L.answers task) ≡ flat_map (λ r. (on_arrival L.answers task.kind kept (arrival_of port r)).sent) recs }
{}

/// What is sent for a notification is what the machine sends; that is nothing but for a group and a fold.
pub fn a_notification_sends<L: Law>()
    ensures { (task : AnyTask) (items : List AnyKey) → task.content ≡ notification items
        → flat_map (λ sent. sent) (answers_of L.answers task) ≡ notified_sends L.answers task.kind items }
{}

/// The states that a notification leaves are the task's, key by key; there are none but for a fold.
pub fn a_notification_leaves<L: Law>()
    ensures { (task : AnyTask) (epoch vertex : ℕ) (items : List AnyKey) → task.content ≡ notification items
        → leaves L.answers task.kind epoch vertex items ≡ left_for epoch vertex items (states_for L.answers task) }
{}

/// How many answers a task has, and how many states.
pub fn counts<L: Law>()
    ensures answers { (task : AnyTask) → length (answers_of L.answers task) ≡ answer_count task.kind task.content }
    ensures states { (task : AnyTask) → length (states_for L.answers task) ≡ state_count task.kind task.content }
{}
