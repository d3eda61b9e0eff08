//! What a closure keeps and sends.
ghost use Rattle.std.specs.Prelude.{◌≡◌, ◌≤◌, None, take, length};
ghost use Rattle.td_formula.specs.Environments.{named};
ghost use Rattle.td_formula.specs.Closures.{with_changes, with_item, with_state, at_first, after_item, after_items, sends, room, at_end, answer, map_sent, group_sent, fold_sent};
ghost use Rattle.td_formula.specs.Room.{settled};

use crate::closure::{Closure, Pair};
use crate::environment::Environment;
use crate::expression::Name;
use crate::lines::{send, with_changes, with_lets};
use crate::outgoing::Outgoing;
use td_stamp::{FEW, Few, Item, Rec, State};

/// The first eight lines, or all where there are no more. The reader of a text refuses more.
fn first_eight(lines: &[Pair]) -> &[Pair]
    ensures { result.now ≡ take 8 lines.now }
{
    if lines.len() > FEW {
        &lines[..FEW]
    } else {
        lines
    }
}

/// At a port and a value.
fn set_item(port: u8, val: i64, at: &mut Environment)
    ensures { named at.new ≡ with_item port val (named at.old) }
{
    at.set(Name::Val, i128::from(val));
    at.set(Name::Port, i128::from(port));
}

/// What the names stand for at first, of a key with this state and so many items.
fn at_first(key: u64, state: Option<State>, items: usize) -> Environment
    ensures { named result ≡ at_first key state items }
{
    let mut at = Environment::new();
    at.set(Name::Key, i128::from(key));
    at.set(Name::Items, items as i128);
    if let Some(state) = state {
        at.set(Name::A, i128::from(state.a));
        at.set(Name::B, i128::from(state.b));
        at.set(Name::BeforeA, i128::from(state.a));
        at.set(Name::BeforeB, i128::from(state.b));
        at.set(Name::Known, 1);
    }
    at
}

impl Closure {
    /// What the names stand for after an item.
    fn after_item(&self, at: &mut Environment, item: Item)
        ensures { named at.new ≡ with_changes self.now.changes.items (with_item item.port item.val (named at.old)) }
    {
        set_item(item.port, item.val, at);
        let after = with_changes(&self.changes, at);
        *at = after;
    }

    /// What the names stand for after the items, and what `each` sent, as far as there is room.
    fn after_items(
        &self,
        start: Environment,
        room: usize,
        items: &[Item],
    ) -> (Environment, Outgoing)
        requires { room ≤ 8 }
        ensures names { named result.0 ≡ (after_items self.now (named start) items.now).0 }
        ensures sent { (result.1.few.items, result.1.lost) ≡ settled room (after_items self.now (named start) items.now).1 }
    {
        let mut at = with_lets(&self.lets, start);
        let mut out = Outgoing::new();
        for item in items {
            self.after_item(&mut at, *item);
            send(&self.each, &at, room, &mut out);
        }
        (at, out)
    }

    /// What it keeps and sends, where the names stand for this at first. `keep` stands in every closure: a fold without such a
    /// line keeps `a` and `b`, and a map and a group do not use it.
    fn answer(&self, start: Environment, items: &[Item]) -> (Option<State>, Few)
        ensures { (result.0, result.1.items) ≡ answer self.now (named start) items.now }
    {
        let sends = first_eight(&self.sends);
        let room = FEW - sends.len();
        let (mut at, mut out) = self.after_items(start, room, items);
        at.set(Name::Lost, out.lost);
        send(sends, &at, FEW, &mut out);
        let Outgoing { few, lost: _ } = out;
        (self.keep.state(&at), few)
    }

    /// What it sends, as a map, of a record that arrives at `port`.
    pub fn map_sent(&self, port: u8, rec: Rec) -> Few
        ensures { result.items ≡ map_sent self.now port rec }
    {
        let mut at = at_first(rec.key, None, 0);
        set_item(port, rec.val, &mut at);
        self.answer(at, &[]).1
    }

    /// What it sends, as a group, of a key and its sorted items.
    pub fn group_sent(&self, key: u64, items: &[Item]) -> Few
        ensures { result.items ≡ group_sent self.now key items.now }
    {
        self.answer(at_first(key, None, items.len()), items).1
    }

    /// What it keeps and sends, as a fold, of a key, which had `state`, and its sorted items.
    pub fn fold_sent(&self, key: u64, state: Option<State>, items: &[Item]) -> (Option<State>, Few)
        ensures { (result.0, result.1.items) ≡ fold_sent self.now key state items.now }
    {
        self.answer(at_first(key, state, items.len()), items)
    }
}
