//! Laws of the definitions. Each is the contract of a function that does nothing. Laws of bags are generic over the members,
//! since a clause cannot speak of every type.
ghost use Rattle.std.specs.Prelude.{◌≡◌, ◌+◌, ◌<◌, ◌≤◌, ◌⊎◌, ◌↔◌, ℕ, Bool, List, [], ◌∷◌, ◌++◌, length, filter, true};
ghost use Rattle.std.specs.List.{flat_map};
ghost use Rattle.std.specs.List.Sorted.{IsPermutation, IsSorted};
ghost use Rattle.std.specs.Cmp.{IsTotalOrder};
ghost use Rattle.std.specs.Ordering.{is_le, MatchOrdering};
ghost use Rattle.std.specs.FinMap.{IsAntisymmetric};
ghost use Rattle.std.specs.declared.cmp.Ordering.{Ordering};
ghost use Rattle.td_stamp.specs.declared.values.Rec.{Rec as AnyRec};
ghost use Rattle.td_stamp.specs.declared.values.Item.{Item as AnyItem};
ghost use Rattle.td_stamp.specs.declared.values.Arrival.{Arrival as AnyArrival};
ghost use Rattle.td_stamp.specs.declared.values.Entry.{Entry as AnyEntry};
ghost use Rattle.td_stamp.specs.declared.values.Output.{Output as AnyOutput};
ghost use Rattle.td_stamp.specs.Orders.{rec_cmp, item_cmp, arrival_cmp, entry_cmp, output_cmp, state_key_cmp};
ghost use Rattle.td_stamp.specs.Bag.{bag_insert, bag_remove, bag_of, join, set_insert, set_of, set_has, has, IsBag};
ghost use Rattle.td_stamp.specs.BagLaws.{BagLaws, SetLaws};
ghost use Rattle.td_stamp.specs.Groups.{groups, runs};
ghost use Rattle.td_stamp.specs.Time.{Timestamp, depth, enter, leave, rounds, counters_cmp, time_le, time_cmp};
ghost use Rattle.td_stamp.specs.Time.{AreEarlier, AreNotLater, IsAtMost};

use crate::member::Member;
use crate::values::{Arrival, Entry, Item, Output, Rec};

/// The derived orders are those of the definitions.
pub fn orders()
    ensures recs { (x y : AnyRec) → ⟦<Rec as Ord>⟧.cmp x y ≡ rec_cmp x y }
    ensures items { (x y : AnyItem) → ⟦<Item as Ord>⟧.cmp x y ≡ item_cmp x y }
    ensures arrivals { (x y : AnyArrival) → ⟦<Arrival as Ord>⟧.cmp x y ≡ arrival_cmp x y }
    ensures entries { (x y : AnyEntry) → ⟦<Entry as Ord>⟧.cmp x y ≡ entry_cmp x y }
    ensures outputs { (x y : AnyOutput) → ⟦<Output as Ord>⟧.cmp x y ≡ output_cmp x y }
{}

/// The order of what a bag holds is total, and only equal members tie.
pub fn member_order<T: Member>()
    ensures total { IsTotalOrder T.cmp }
    ensures told_apart { IsAntisymmetric T.cmp }
{}

/// So is that of the keys of kept states.
pub fn state_key_order()
    ensures total { IsTotalOrder state_key_cmp }
    ensures told_apart { IsAntisymmetric state_key_cmp }
{}

/// Putting bags together.
pub fn joins<T: Member>()
    ensures associative { (x y z : List T) → join T.cmp (join T.cmp x y) z ≡ join T.cmp x (join T.cmp y z) }
    ensures commutative { (x y : List T) → IsBag T.cmp x → IsBag T.cmp y → join T.cmp x y ≡ join T.cmp y x }
    ensures swaps { (x y z : List T) → join T.cmp x (join T.cmp y z) ≡ join T.cmp y (join T.cmp x z) }
    ensures left_unit { (x : List T) → join T.cmp [] x ≡ x }
    ensures right_unit { (x : List T) → IsBag T.cmp x → join T.cmp x [] ≡ x }
    ensures cancels { (x y z : List T) → join T.cmp x y ≡ join T.cmp x z → y ≡ z }
    ensures gives_a_bag { (x y : List T) → IsBag T.cmp y → IsBag T.cmp (join T.cmp x y) }
    ensures size { (x y : List T) → length (join T.cmp x y) ≡ length x + length y }
{}

/// Bags of lists.
pub fn bags<T: Member>()
    ensures gives_a_bag { (xs : List T) → IsBag T.cmp (bag_of T.cmp xs) }
    ensures append { (xs ys : List T) → bag_of T.cmp (xs ++ ys) ≡ join T.cmp xs (bag_of T.cmp ys) }
    ensures any_place { (xs ys : List T) (x : T) → bag_of T.cmp (xs ++ x ∷ ys) ≡ bag_insert T.cmp x (bag_of T.cmp (xs ++ ys)) }
    ensures inserts_swap { (x y : T) (zs : List T) → bag_insert T.cmp x (bag_insert T.cmp y zs) ≡ bag_insert T.cmp y (bag_insert T.cmp x zs) }
    ensures removes { (x : T) (ys : List T) → bag_remove T.cmp x (bag_insert T.cmp x ys) ≡ ys }
    ensures filtered { (p : T → Bool) (xs : List T) → IsBag T.cmp xs → IsBag T.cmp (filter p xs) }
{}

/// The bag of a list is its sorted permutation, of which there is one.
pub fn sorted_permutation<T: Member>()
    ensures sorted { (xs : List T) → IsSorted T.cmp (bag_of T.cmp xs) }
    ensures permutation { (xs : List T) → IsPermutation xs (bag_of T.cmp xs) }
    ensures only_one { (xs ys : List T) → IsPermutation xs ys → IsSorted T.cmp ys → ys ≡ bag_of T.cmp xs }
{}

/// What the members of a bag give, put together.
pub fn bags_of_parts<T: Member, U: Member>()
    ensures { (parts : T → List U) (x : T) (ys : List T)
        → bag_of U.cmp (flat_map parts (bag_insert T.cmp x ys)) ≡ join U.cmp (parts x) (bag_of U.cmp (flat_map parts ys)) }
{}

/// Sets of lists.
pub fn sets<T: Member>()
    ensures any_place { (xs ys : List T) (x : T) → set_of T.cmp (xs ++ x ∷ ys) ≡ set_insert T.cmp x (set_of T.cmp (xs ++ ys)) }
    ensures inserts_swap { (x y : T) (zs : List T) → set_insert T.cmp x (set_insert T.cmp y zs) ≡ set_insert T.cmp y (set_insert T.cmp x zs) }
    ensures found { (x : T) (xs : List T) → set_has T.cmp x (set_of T.cmp xs) ≡ has T.cmp x xs }
{}

/// Bags over any total order in which only equal members tie, also of values that no code has.
pub fn bags_by_any_order<T>()
    ensures { (cmp : T → T → Ordering) → IsTotalOrder cmp → IsAntisymmetric cmp → BagLaws cmp }
{}

/// Sets over such an order.
pub fn sets_by_any_order<T>()
    ensures { (cmp : T → T → Ordering) → IsTotalOrder cmp → IsAntisymmetric cmp → SetLaws cmp }
{}

/// What the members of a bag over such an order give, put together.
pub fn parts_by_any_order<T, U>()
    ensures { (cmp : T → T → Ordering) → IsTotalOrder cmp → IsAntisymmetric cmp
        → (part_cmp : U → U → Ordering) → IsTotalOrder part_cmp → IsAntisymmetric part_cmp
        → (parts : T → List U) (x : T) (ys : List T)
        → bag_of part_cmp (flat_map parts (bag_insert cmp x ys))
        ≡ join part_cmp (parts x) (bag_of part_cmp (flat_map parts ys)) }
{}

/// Groups do not depend on the order in which records arrive.
pub fn groups_in_any_order()
    ensures { (xs ys : List AnyArrival) (a : AnyArrival) → groups (xs ++ a ∷ ys) ≡ groups (a ∷ xs ++ ys) }
{}

/// The groups of arrivals that come in order are their runs of one key.
pub fn groups_are_runs()
    ensures { (xs : List AnyArrival) → IsBag arrival_cmp xs → groups xs ≡ runs xs }
{}

/// The groups of arrivals are those of their bag.
pub fn groups_of_a_bag()
    ensures { (xs : List AnyArrival) → groups (bag_of arrival_cmp xs) ≡ groups xs }
{}

/// The order of times.
pub fn time_order()
    ensures reflexive { (t : Timestamp) → IsAtMost t t }
    ensures transitive { (t u v : Timestamp) → IsAtMost t u → IsAtMost u v → IsAtMost t v }
    ensures antisymmetric { (t u : Timestamp) → IsAtMost t u → IsAtMost u t → t ≡ u }
    ensures total { (t u : Timestamp) → depth t ≡ depth u → t.epoch ≡ u.epoch → IsAtMost t u ⊎ IsAtMost u t }
    ensures tested { (t u : Timestamp) → depth t ≡ depth u → (time_le t u ≡ true) ↔ IsAtMost t u }
{}

/// What a time becomes at the edge of a loop, and round it, keeps the order.
pub fn time_steps()
    ensures entered { (t u : Timestamp) → IsAtMost t u → IsAtMost (enter t) (enter u) }
    ensures left { (t u : Timestamp) → IsAtMost t u → IsAtMost (leave t) (leave u) }
    ensures again { (n : ℕ) (t u : Timestamp) → IsAtMost t u → IsAtMost (rounds n t) (rounds n u) }
    ensures more_rounds { (m n : ℕ) (t : Timestamp) → m ≤ n → IsAtMost (rounds m t) (rounds n t) }
    ensures added_rounds { (m n : ℕ) (t : Timestamp) → rounds n (rounds m t) ≡ rounds (m + n) t }
{}

/// The order of counters, by which times of one epoch are compared: both lists have the innermost first.
pub fn counter_order()
    ensures transitive { (bs cs ds : List ℕ) → AreNotLater bs cs → AreNotLater cs ds → AreNotLater bs ds }
    ensures antisymmetric { (bs cs : List ℕ) → AreNotLater bs cs → AreNotLater cs bs → bs ≡ cs }
    ensures compared { (bs cs : List ℕ) → length bs ≡ length cs → MatchOrdering (counters_cmp bs cs) (AreEarlier bs cs) (bs ≡ cs) (AreEarlier cs bs) }
{}

/// The total order of times, in which one that is at most another of its depth does not come after it.
pub fn time_list_order()
    ensures total { IsTotalOrder time_cmp }
    ensures told_apart { IsAntisymmetric time_cmp }
    ensures keeps { (t u : Timestamp) → depth t ≡ depth u → IsAtMost t u → is_le (time_cmp t u) ≡ true }
{}
