//! Laws of the definitions. Each is the contract of a function that does nothing, or calls the laws that it follows from.
//!
//! The orders of counters are laws of td_stamp. What follows of a plan without a fault is a law of td_plan, and
//! `proofs/Lawful.antt` proves some of it once more.
ghost use Rattle.std.specs.Prelude.{[], ◌≡◌, ◌≤◌, ◌<◌, ◌↔◌, ℕ, List, length, Some, true};
ghost use Rattle.std.specs.List.{slice_get};
ghost use Rattle.td_stamp.specs.Time.{Timestamp, IsAtMost};
ghost use Rattle.td_plan.specs.declared.vertex.Edge.{Edge as AnyEdge};
ghost use Rattle.td_plan.specs.Lines.{Line};
ghost use Rattle.td_plan.specs.Blocks.{kind_at, read_loops_at};
ghost use Rattle.td_plan.specs.Faults.{IsPlan};
ghost use Rattle.td_plan.specs.Times.{sent_by};
ghost use Rattle.td_reach.specs.declared.stamp.Place.{Place as AnyPlace};
ghost use Rattle.td_reach.specs.declared.stamp.Stamp.{Stamp as AnyStamp};
ghost use Rattle.td_reach.specs.Paths.{adjust, Could, HasDepth, HasPlace, IsEdge, IsOf, Leads};
ghost use Rattle.td_reach.specs.Laws.{IsLeast};
ghost use Rattle.td_reach.specs.Positions.{Below, position};
ghost use Rattle.td_reach.specs.Tables.{could_test, leads_test};

use td_stamp::laws::{counter_order, time_order};

/// A path keeps the epoch, and the order of times.
pub fn paths()
    ensures epoch { (plan : List Line) (path : List ℕ) (t : Timestamp) → (adjust plan path t).epoch ≡ t.epoch }
    ensures order { (plan : List Line) (path : List ℕ) (t u : Timestamp) → IsAtMost t u → IsAtMost (adjust plan path t) (adjust plan path u) }
{}

/// Could-result-in is an order: a pointstamp of the plan could result in itself, what it could result in could result in
/// what it could, and of two different ones not each could result in the other: no path with edges leads from one back to
/// itself. What one could result in has no earlier epoch.
pub fn could_order()
    ensures reflexive { (plan : List Line) (p : AnyStamp) → IsOf plan p → Could plan p p }
    ensures transitive { (plan : List Line) (p q r : AnyStamp) → Could plan p q → Could plan q r → Could plan p r }
    ensures antisymmetric { (plan : List Line) → IsPlan plan → (p q : AnyStamp) → IsOf plan p → IsOf plan q
        → Could plan p q → Could plan q p → p ≡ q }
    ensures no_way_back { (plan : List Line) → IsPlan plan → (p : AnyStamp) → IsOf plan p → (k : Could plan p p) → k.path ≡ [] }
    ensures epochs { (plan : List Line) (p q : AnyStamp) → Could plan p q → p.time.epoch ≤ q.time.epoch }
{
    counter_order();
    time_order();
}

/// Where one pointstamp could result in another, some path leads from its place to the other's; and a plan that has a
/// pointstamp has its place.
pub fn could_leads()
    ensures leads { (plan : List Line) (p q : AnyStamp) → Could plan p q → Leads plan p.place q.place }
    ensures has_place { (plan : List Line) (p : AnyStamp) → IsOf plan p → HasPlace plan p.place }
{}

/// Could-result-in has a test, a value of truth, by which pointstamps are counted that could result in another; and so has
/// whether any path leads from one place to another.
pub fn could_tested()
    ensures leads { (plan : List Line) → IsPlan plan → (from to : AnyPlace) → HasPlace plan from → HasPlace plan to
        → (leads_test plan from to ≡ true) ↔ Leads plan from to }
    ensures could { (plan : List Line) → IsPlan plan → (p q : AnyStamp) → IsOf plan p → IsOf plan q
        → (could_test plan p q ≡ true) ↔ Could plan p q }
{
    counter_order();
    time_order();
}

/// Along each edge the position in the schedule rises: that at which the source sends comes before that at which the
/// reader sends what it makes of it.
pub fn positions()
    ensures { (plan : List Line) → IsPlan plan → (e : ℕ) (edge : AnyEdge) (t : Timestamp) → IsEdge plan e edge
        → HasDepth plan (read_loops_at plan edge.source) t → Below (position plan edge.source t) (position plan edge.reader (sent_by (kind_at plan edge.reader) t)) }
{}

/// Of some pointstamps of a plan there is one that no other of them could result in.
pub fn some_least()
    ensures { (plan : List Line) → IsPlan plan → (all : List AnyStamp) → 0 < length all
        → ((i : ℕ) (p : AnyStamp) → slice_get all i ≡ Some p → IsOf plan p) → (p : AnyStamp) × IsLeast plan all p }
{
    counter_order();
    time_order();
}
