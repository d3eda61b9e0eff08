//! What the lines of a closure do.
ghost use Rattle.std.specs.Prelude.{◌≡◌, ◌≤◌, fold};
ghost use Rattle.td_formula.specs.Environments.{named};
ghost use Rattle.td_formula.specs.Closures.{assigned, with_lets, with_changes, record_of, records_of, state_of};
ghost use Rattle.td_formula.specs.Room.{with_record};

use crate::closure::{Assignment, Pair};
use crate::environment::Environment;
use crate::numbers::{fitting_key, fitting_value, holds};
use crate::outgoing::Outgoing;
use td_stamp::{Rec, State};

impl Assignment {
    /// Gives its name another number, where its condition holds: both are computed where the names stand for what they did `before`.
    fn assign(&self, before: &Environment, after: &mut Environment)
        ensures { named after.new ≡ assigned (named before.now) (named after.old) self.now }
    {
        if holds(self.when.value(before)) {
            after.set(self.name, self.value.value(before));
        }
    }
}

/// The registers at the start: each line sees those before it. It is so in all three kinds.
pub(crate) fn with_lets(lines: &[Assignment], start: Environment) -> Environment
    ensures { named result ≡ with_lets lines.now (named start) }
{
    let mut at = start;
    for line in lines {
        let before = at.copy();
        line.assign(&before, &mut at);
    }
    at
}

/// The changes at an item: each line sees what was before the item.
pub(crate) fn with_changes(lines: &[Assignment], before: &Environment) -> Environment
    ensures { named result ≡ with_changes lines.now (named before.now) }
{
    let mut after = before.copy();
    for line in lines {
        line.assign(before, &mut after);
    }
    after
}

impl Pair {
    /// The record, where its condition holds.
    fn record(&self, at: &Environment) -> Option<Rec>
        ensures { result ≡ record_of (named at.now) self.now }
    {
        if holds(self.when.value(at)) {
            Some(Rec {
                key: fitting_key(self.first.value(at)),
                val: fitting_value(self.second.value(at)),
            })
        } else {
            None
        }
    }

    /// The state, where its condition holds.
    pub(crate) fn state(&self, at: &Environment) -> Option<State>
        ensures { result ≡ state_of self.now (named at.now) }
    {
        if holds(self.when.value(at)) {
            Some(State {
                a: fitting_value(self.first.value(at)),
                b: fitting_value(self.second.value(at)),
            })
        } else {
            None
        }
    }
}

/// Sends the records of these lines, as far as there is room.
pub(crate) fn send(lines: &[Pair], at: &Environment, room: usize, out: &mut Outgoing)
    requires { room ≤ 8 }
    ensures { (out.new.few.items, out.new.lost) ≡ fold (with_record room) (out.old.few.items, out.old.lost) (records_of lines.now (named at.now)) }
{
    for line in lines {
        out.add(room, line.record(at));
    }
}
