//! Laws of the definitions. Each is the contract of a function that does nothing, or calls the laws that it follows from.
ghost use Rattle.std.specs.Prelude.{◌≡◌, ◌+◌, ◌<◌, ◌≤◌, ◌↔◌, ◌++◌, ℕ, List, Contains, true};
ghost use Rattle.td_stamp.specs.Time.{depth};
ghost use Rattle.td_plan.specs.Lines.{Line};
ghost use Rattle.td_plan.specs.Faults.{IsPlan};
ghost use Rattle.td_reach.specs.declared.stamp.Stamp.{Stamp as AnyStamp};
ghost use Rattle.td_reach.specs.Paths.{Could, IsOf, Leads};
ghost use Rattle.td_reach.specs.Frontier.{Frontier, has_passed};
ghost use Rattle.td_progress.specs.Bag.{is_stamp, occurrences, IsSameBag};

use td_plan::laws::{edges_by_number, read_there, stands_at};
use td_reach::laws::paths;

/// Occurrences are counted: a pointstamp occurs as often in two lists together as in the one and the other, and stands in a
/// list exactly where it occurs in it at all.
pub fn counted()
    ensures same { (p q : AnyStamp) → (is_stamp p q ≡ true) ↔ (p ≡ q) }
    ensures append { (p : AnyStamp) (xs ys : List AnyStamp) → occurrences p (xs ++ ys) ≡ occurrences p xs + occurrences p ys }
    ensures contains { (p : AnyStamp) (xs : List AnyStamp) → Contains xs p ↔ (0 < occurrences p xs) }
{}

/// The frontier and the passed epochs are those of the bag, in whatever order its members stand.
pub fn in_any_order()
    ensures frontier { (plan : List Line) (xs ys : List AnyStamp) (p : AnyStamp) → IsSameBag xs ys → Frontier plan xs p → Frontier plan ys p }
    ensures passed { (xs ys : List AnyStamp) (epoch : ℕ) → IsSameBag xs ys → has_passed xs epoch ≡ has_passed ys epoch }
{}

/// In no loop a path is enough: where some path leads from the place of one pointstamp to that of another in no loop, the first could
/// result in the other, unless its epoch is later.
pub fn in_no_loop()
    ensures { (plan : List Line) → IsPlan plan → (p q : AnyStamp) → IsOf plan p → IsOf plan q → depth q.time ≡ 0
        → p.time.epoch ≤ q.time.epoch → Leads plan p.place q.place → Could plan p q }
{
    paths();
    edges_by_number();
    read_there();
    stands_at();
}
