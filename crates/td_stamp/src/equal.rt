//! Equality of bags and of kept states. It takes no memory. A clause of its own says of `==` that it is true exactly where the
//! two are the same. Two of different lengths differ at once.
ghost use Rattle.std.specs.Prelude.{◌≡◌, ◌↔◌, ◌&&◌, IsTrue};
ghost use Rattle.std.specs.Cmp.Lexicographic.{pointwise, lists_per, lists_equiv};
ghost use Rattle.td_stamp.specs.States.{same_entry};
ghost use Rattle.td_stamp.specs.ProvedOrders.{same_entry_equiv};
ghost use Rattle.std.specs.Cmp.{partial_equiv_from_equiv};

use crate::bag::Bag;
use crate::member::Member;
use crate::states::States;

/// Two bags are equal where each member stands in both as often.
impl<T: Member> PartialEq for Bag<T> {
    ghost eq = { pointwise T.eq };

    ghost laws = { lists_per T.PartialEq.laws };

    fn eq(&self, other: &Self) -> bool
        ensures gives { result ≡ pointwise T.eq self.now other.now }
        ensures same { IsTrue result ↔ (self.now ≡ other.now) }
    {
        if self.len() != other.len() {
            return false;
        }
        let mut theirs = other.list();
        for mine in self.list() {
            if theirs.next() != Some(mine) {
                return false;
            }
        }
        true
    }
}

impl<T: Member> Eq for Bag<T> {
    ghost laws = { lists_equiv T.Eq.laws };
}

/// Kept states are equal where each vertex keeps the same state for the same keys.
impl PartialEq for States {
    ghost eq = { pointwise same_entry };

    ghost laws = { lists_per (partial_equiv_from_equiv same_entry_equiv) };

    fn eq(&self, other: &Self) -> bool
        ensures gives { result ≡ pointwise same_entry self.now other.now }
        ensures same { IsTrue result ↔ (self.now ≡ other.now) }
    {
        if self.len() != other.len() {
            return false;
        }
        let mut others = other.list();
        for own in self.list() {
            if others.next() != Some(own) {
                return false;
            }
        }
        true
    }
}

impl Eq for States {
    ghost laws = { lists_equiv same_entry_equiv };
}
