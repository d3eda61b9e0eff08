//! The records that one call answers: eight at most.
ghost use Rattle.std.specs.Prelude.{◌≡◌, ◌≤◌, pos, [], fold, option_to_list};
ghost use Rattle.td_formula.specs.Room.{with_record};

use td_stamp::{Few, Rec};

/// The records that go out, and how many were lost.
pub(crate) struct Outgoing {
    pub(crate) few: Few,
    pub(crate) lost: i128,
}

impl Outgoing {
    /// None.
    pub(crate) fn new() -> Self
        ensures few { result.few.items ≡ [] }
        ensures lost { result.lost ≡ pos 0 }
    {
        Outgoing {
            few: Few::new(),
            lost: 0,
        }
    }

    /// One record more, if there is one. It goes out where fewer than `room` do by now, and else it is lost. The count of those
    /// stops at the end of its type, as each step does.
    pub(crate) fn add(&mut self, room: usize, rec: Option<Rec>)
        requires { room ≤ 8 }
        ensures { (self.new.few.items, self.new.lost) ≡ fold (with_record room) (self.old.few.items, self.old.lost) (option_to_list rec) }
    {
        let Some(rec) = rec else { return };
        if self.few.len() < room {
            self.few.push(rec);
        } else {
            self.lost = self.lost.saturating_add(1);
        }
    }
}
