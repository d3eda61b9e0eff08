//! Laws of the definitions. Each is the contract of a function that calls the laws that it follows from.
ghost use Rattle.std.specs.Prelude.{◌≡◌, ℕ, [], false, Option};
ghost use Rattle.td_stamp.specs.declared.values.State.{State};
ghost use Rattle.td_plan.specs.declared.vertex.Kind.{Kind};
ghost use Rattle.td_calls.specs.Answers.{Answers};
ghost use Rattle.td_calls.specs.Callbacks.{Kept, sends, is_notified};
ghost use Rattle.td_calls.specs.Laws.{SendsOneByOne, SendsBySeveral, SendsOneMore, SendsWhenNotified, SendsByKeys, SendsInAnyOrder};

use td_stamp::{Arrival, Rec, laws};

/// What a vertex sends of what arrives is what its callbacks send: of one record and the rest, of several and the rest, and of a
/// record that arrives after others. An engine may count from either end. `one_more` holds only where no notification is waited
/// for. What a group sends of its records is not the sum of what it sends of each.
pub fn arrivals()
    ensures one { (answers : Answers) (state : ℕ → Option State) (kind : Kind) → SendsOneByOne answers state kind }
    ensures several { (answers : Answers) (state : ℕ → Option State) (kind : Kind) → SendsBySeveral answers state kind }
    ensures one_more { (answers : Answers) (state : ℕ → Option State) (kind : Kind) → SendsOneMore answers state kind }
{
    laws::member_order::<Rec>();
    laws::joins::<Rec>();
    laws::bags::<Rec>();
    laws::groups_in_any_order();
}

/// Where nothing more arrives, a vertex sends what its notifications send, in whatever parts its keys are notified. A vertex
/// of a kind that is not notified sends nothing more.
pub fn notifications()
    ensures all { (answers : Answers) (state : ℕ → Option State) (kind : Kind) → SendsWhenNotified answers state kind }
    ensures by_keys { (answers : Answers) (state : ℕ → Option State) (kind : Kind) → SendsByKeys answers state kind }
    ensures others { (answers : Answers) (state : ℕ → Option State) (kind : Kind) (kept : Kept) →
        is_notified kind ≡ false → sends answers state kind kept [] ≡ [] }
{
    laws::joins::<Rec>();
    laws::bags::<Rec>();
}

/// What a vertex sends depends on which records it has seen, on the bag of what it keeps, and on the bag of what arrives.
pub fn in_any_order()
    ensures { (answers : Answers) (state : ℕ → Option State) (kind : Kind) → SendsInAnyOrder answers state kind }
{
    laws::bags::<Rec>();
    laws::bags::<Arrival>();
    laws::joins::<Arrival>();
    laws::bags_of_parts::<Arrival, Rec>();
    laws::sets::<Rec>();
    laws::groups_of_a_bag();
}
