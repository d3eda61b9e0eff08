//! Laws of the definitions. Each is the contract of a function that does nothing.
ghost use Rattle.std.specs.Prelude.{◌≡◌, ◌<◌, ◌≤◌, ◌↔◌, ◌⊎◌, ◌++◌, ℕ, List, Some, true, length};
ghost use Rattle.std.specs.List.{AllByRecursion, slice_get};
ghost use Rattle.td_stamp.specs.Bag.{bag_of};
ghost use Rattle.td_machine.specs.declared.records.Message.{Message as AnyMessage};
ghost use Rattle.td_machine.specs.State.{message_cmp};
ghost use Rattle.td_machine.specs.Steps.{task_size};
ghost use Rattle.td_shard.specs.Messages.{IsBeside, same_edge, task_at, left_at};

use td_machine::Message;
use td_stamp::laws::bags_by_any_order;

/// What is taken as a task and what is left are all the messages; the picked one comes first in the task, and the others of
/// the task are on its edge and of its time. A task has 64 messages, or all that there are on its edge and of its time.
pub fn tasks()
    ensures parted { (ms : List AnyMessage) (pick : ℕ) → pick < length ms → bag_of message_cmp (task_at pick ms ++ left_at pick ms) ≡ bag_of message_cmp ms }
    ensures picked { (ms : List AnyMessage) (pick : ℕ) → pick < length ms → slice_get (task_at pick ms) 0 ≡ slice_get ms pick }
    ensures some { (ms : List AnyMessage) (pick : ℕ) → pick < length ms → 0 < length (task_at pick ms) }
    ensures few { (ms : List AnyMessage) (pick : ℕ) → length (task_at pick ms) ≤ task_size }
    ensures beside { (ms : List AnyMessage) (pick : ℕ) (c : AnyMessage) → slice_get ms pick ≡ Some c → AllByRecursion (IsBeside c) (task_at pick ms) }
    ensures full { (ms : List AnyMessage) (pick : ℕ) (c : AnyMessage) → slice_get ms pick ≡ Some c
        → (length (task_at pick ms) ≡ task_size) ⊎ AllByRecursion (λ d. IsBeside c d → ⊥) (left_at pick ms) }
{
    bags_by_any_order::<Message>();
}

/// Whether messages are on one edge and bear one time.
pub fn edges()
    ensures { (c d : AnyMessage) → (same_edge c d ≡ true) ↔ IsBeside c d }
{}
