//! Laws of the definitions. Each is the contract of a function that does nothing.
ghost use Rattle.std.specs.Prelude.{◌≡◌, ◌++◌, ◌<◌, ◌≤◌, List, [], length, ℕ, true, false, None};
ghost use Rattle.td_gate.specs.Reading.{Each};
ghost use Rattle.td_stamp.specs.declared.values.Entry.{Entry as AnyEntry};
ghost use Rattle.td_stamp.specs.States.{StateList};
ghost use Rattle.td_plan.specs.Lines.{Line};
ghost use Rattle.td_plan.specs.Faults.{IsPlan};
ghost use Rattle.td_head.specs.declared.head.Head.{Head as AnyHead};
ghost use Rattle.td_journal.specs.declared.payload.Submitted.{Submitted as AnySubmitted};
ghost use Rattle.td_journal.specs.Numbers.{greatest};
ghost use Rattle.td_store.specs.standing.Standing.{Standing};
ghost use Rattle.td_store.specs.standing.Stops.{Stands};
ghost use Rattle.td_store.specs.standing.Tells.{Tells};
ghost use Rattle.td_store.specs.standing.Read.{MayStand};
ghost use Rattle.td_orders.specs.Orders.{orders_of, submitted_by, new_after};
ghost use Rattle.td_orders.specs.Scripts.{script_of};
ghost use Rattle.td_orders.specs.Placed.{placed};
ghost use Rattle.td_report.specs.Dumped.{dump_text, placed_dump, AsksFor, BringsOn, FitsLines};

/// WHAT WAS DUMPED IS FED. The text of a standing that may stand on a disk asks for the epochs of that standing, each under its
/// request number. Those that a disk tells are all new after its checkpoint; so a disk that stands for the history up to the
/// checkpoint stands, once it was fed that text, for the whole.
pub fn dumps_are_fed()
    ensures asks { (plan : List Line) (head : AnyHead) (side : ℕ) (s : Standing) → IsPlan plan → MayStand plan head side s
        → Each FitsLines s.submitted → AsksFor plan (dump_text head.shape s) s.submitted }
    ensures new { (plan : List Line) (head : AnyHead) (side : ℕ) (s : Standing) (image : List ℕ) → Tells plan head side s image
        → new_after s.last s.submitted ≡ s.submitted }
    ensures whole { (run : StateList → List (List AnyEntry) → StateList) (plan : List Line) (input : List ℕ) (s : Standing)
        (history : List AnySubmitted) → AsksFor plan input s.submitted → new_after s.last s.submitted ≡ s.submitted
        → (stands : Stands run s history)
        → stands.before ++ new_after (greatest 0 stands.before) (submitted_by (orders_of plan input)) ≡ history }
{
    td_journal::laws::batches_are_in_order();
    td_journal::laws::told_numbers_rise();
    td_store::standing::laws::inputs_are_accepted();
}

/// WHAT WAS DUMPED WITH PLACES BRINGS A DISK ON: one that stands for a beginning of the history for which the standing stands, which has the
/// checkpoint's epoch, stands for the whole once it was fed that text. To one that has fewer epochs the text submits nothing.
pub fn placed_dumps_bring_on()
    ensures brings { (run : StateList → List (List AnyEntry) → StateList) (plan : List Line) (head : AnyHead) (side : ℕ) (s : Standing) (image : List ℕ)
        (history : List AnySubmitted) → IsPlan plan → MayStand plan head side s → Each FitsLines s.submitted → Tells plan head side s image → Stands run s history
        → (n : ℕ) → s.epoch ≤ n → n ≤ length history → BringsOn plan (placed_dump head.shape s) history n }
    ensures behind { (plan : List Line) (head : AnyHead) (side : ℕ) (s : Standing) → IsPlan plan → MayStand plan head side s → Each FitsLines s.submitted
        → (told last : ℕ) → told < s.epoch → (placed false told last (script_of true false false false None plan (placed_dump head.shape s))).orders ≡ [] }
{
    td_journal::laws::batches_are_in_order();
    td_journal::laws::told_numbers_rise();
    td_store::standing::laws::inputs_are_accepted();
}
