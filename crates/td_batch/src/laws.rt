//! Laws of the definitions. Each is the contract of a function that does nothing, or calls the laws that it follows from.
ghost use Rattle.std.specs.Prelude.{◌≡◌, ◌≤◌, true, [], ◌∷◌, ◌++◌, ℕ, List, Option, flat_map, fold, length};
ghost use Rattle.td_stamp.specs.declared.values.Arrival.{Arrival};
ghost use Rattle.td_stamp.specs.declared.values.Entry.{Entry};
ghost use Rattle.td_stamp.specs.Orders.{arrival_cmp, output_cmp};
ghost use Rattle.td_stamp.specs.Bag.{bag_of, IsBag};
ghost use Rattle.td_stamp.specs.States.{StateList};
ghost use Rattle.td_plan.specs.declared.vertex.Kind.{Kind};
ghost use Rattle.td_plan.specs.Lines.{Vertex, Line};
ghost use Rattle.td_plan.specs.Tree.{Nodes, tree_of};
ghost use Rattle.td_plan.specs.Faults.{IsPlan};
ghost use Rattle.td_plan.specs.Placed.{IsPlacedTree};
ghost use Rattle.td_batch.specs.Meaning.{EpochInput, Bags, emitted, answer, turn, turns, states_by, run, epoch_result, result_of};
ghost use Rattle.td_batch.specs.Quiet.{IsLoopBody, NothingEnters, NothingReturns};
ghost use Rattle.td_batch.specs.Flow.{Flow, Solves};
ghost use Rattle.td_batch.specs.SameFlow.{ReadAlike};
ghost use Rattle.td_batch.specs.BagAt.{bag_at};
ghost use Rattle.td_batch.specs.Folds.{folds_of, are_kept_by};
ghost use Rattle.td_batch.specs.Changes.{epoch_changes, with_change, from_states, AgreeAt};

use td_calls::Law;
use td_calls::laws::in_any_order;
use td_stamp::{Output, Rec, laws};

/// Epochs after one another: the later ones go on from the states that the earlier ones leave.
pub fn run_joins<L: Law>()
    ensures states { (nodes : Nodes) (states : StateList) (x y : List (List Entry)) →
        (run L.answers nodes states (x ++ y)).states ≡ (run L.answers nodes (run L.answers nodes states x).states y).states }
    ensures outs { (nodes : Nodes) (states : StateList) (x y : List (List Entry)) →
        (run L.answers nodes states (x ++ y)).outs ≡ (run L.answers nodes states x).outs ++ (run L.answers nodes (run L.answers nodes states x).states y).outs }
{}

/// What a vertex emits, and the states that a fold keeps, are the same in whatever order records arrive: each may as well
/// arrive first, and all depends on the bag of the arrivals alone.
pub fn arrivals_in_any_order()
    ensures sent { (epoch : EpochInput) (v : ℕ) (kind : Kind) (xs : List Arrival) (a : Arrival) (ys : List Arrival) →
        answer epoch v kind (xs ++ a ∷ ys) ≡ answer epoch v kind (a ∷ xs ++ ys) }
    ensures states { (epoch : EpochInput) (v : Vertex) (kind : Kind) (xs : List Arrival) (a : Arrival) (ys : List Arrival) (states : StateList) →
        states_by epoch v kind (xs ++ a ∷ ys) states ≡ states_by epoch v kind (a ∷ xs ++ ys) states }
    ensures sent_alike { (epoch : EpochInput) (v : ℕ) (kind : Kind) (xs ys : List Arrival) →
        bag_of arrival_cmp xs ≡ bag_of arrival_cmp ys → answer epoch v kind xs ≡ answer epoch v kind ys }
    ensures states_alike { (epoch : EpochInput) (v : Vertex) (kind : Kind) (xs ys : List Arrival) (states : StateList) →
        bag_of arrival_cmp xs ≡ bag_of arrival_cmp ys →
        states_by epoch v kind xs states ≡ states_by epoch v kind ys states }
{
    laws::joins::<Rec>();
    laws::bags::<Rec>();
    laws::sets::<Rec>();
    laws::groups_in_any_order();
    laws::groups_of_a_bag();
    in_any_order();
}

/// Where bags at all times answer one another, as those of an engine do that passes messages, an epoch gives what they
/// give: every solution of the flat equations is the batch meaning, of every plan whose sources are read where their
/// readers read.
pub fn one_meaning()
    ensures { (epoch : EpochInput) (nodes : Nodes) (flow : Flow) → IsPlacedTree nodes → Solves epoch flow [] nodes →
        epoch_result epoch nodes ≡ result_of epoch nodes (λ v. flow v []) }
{}

/// Two solutions of the flat equations are the same to all readers: in each turn of its block, each vertex of the plan
/// reads the same in both.
pub fn one_flow()
    ensures { (epoch : EpochInput) (nodes : Nodes) (f g : Flow) → IsPlacedTree nodes →
        Solves epoch f [] nodes → Solves epoch g [] nodes → ReadAlike f g [] nodes }
{}

/// The bags of the nested turns, at all times, solve the flat equations of every plan whose sources are read where their
/// readers read.
pub fn turns_solve()
    ensures { (epoch : EpochInput) (nodes : Nodes) → IsPlacedTree nodes → Solves epoch (bag_at epoch nodes) [] nodes }
{}

/// A turn of a loop into which nothing enters and nothing comes back emits nothing, where the sources of its vertices are
/// read where their readers read, and no input is among them; nor does any turn after it.
pub fn quiet_turns()
    ensures turn { (epoch : EpochInput) (body : Nodes) (outer : List ℕ) (before : Option Bags) (bags : Bags)
        → IsLoopBody outer (length bags) body → NothingEnters before bags body → NothingReturns before body
        → (v : ℕ) → length bags ≤ v → emitted (turn epoch body before bags) v ≡ [] }
    ensures later { (epoch : EpochInput) (body : Nodes) (outer : List ℕ) (before : Option Bags) (bags : Bags)
        → IsLoopBody outer (length bags) body → NothingEnters before bags body → NothingReturns before body
        → (count v : ℕ) → length bags ≤ v → flat_map (λ each. emitted each v) (turns (λ earlier. turn epoch body earlier bags) count before) ≡ [] }
{}

/// A plan without faults has its sources read where their readers read: the laws on such trees hold of each plan.
pub fn plans_are_well_placed()
    ensures { (plan : List Line) → IsPlan plan → IsPlacedTree (tree_of plan) }
{
    td_plan::laws::well_placed();
}

/// The outputs of an epoch are a bag: its sorted list.
pub fn outputs_are_sorted()
    ensures { (epoch : EpochInput) (nodes : Nodes) → IsBag output_cmp (epoch_result epoch nodes).outs }
{
    laws::bags::<Output>();
}

/// The batch meaning of a plan keeps states of its folds alone.
pub fn states_of_folds<L: Law>()
    ensures { (plan : List Line) (states : StateList) (batches : List (List Entry)) → IsPlan plan → are_kept_by (folds_of plan) states ≡ true
        → are_kept_by (folds_of plan) (run L.answers (tree_of plan) states batches).states ≡ true }
{
    td_plan::laws::trees();
}

/// An epoch asks for no state but those of its changes: from other states that agree there it puts out the same, and the same changes
/// make of them what it leaves. So it is enough to hand it those of the keys that it touches.
pub fn epochs_are_local()
    ensures outs { (plan : List Line) (epoch : EpochInput) (others : StateList) → IsPlan plan → AgreeAt (epoch_changes epoch (tree_of plan)) epoch.states others →
        (epoch_result (from_states epoch others) (tree_of plan)).outs ≡ (epoch_result epoch (tree_of plan)).outs }
    ensures states { (plan : List Line) (epoch : EpochInput) (others : StateList) → IsPlan plan → AgreeAt (epoch_changes epoch (tree_of plan)) epoch.states others →
        (epoch_result (from_states epoch others) (tree_of plan)).states ≡ fold with_change others (epoch_changes epoch (tree_of plan)) }
{
    td_plan::laws::well_placed();
    td_plan::laws::stands_well();
}
