//! Closures of this program's own, and the law that they answer.
ghost use Rattle.std.specs.Prelude.{◌≡◌, [], ◌∷◌};
ghost use Rattle.example_closures.specs.Rooms.{rooms, rooms_few};

use td_calls::{Coded, FoldCall, GroupCall, Law, MapCall};
use td_stamp::{Few, Item, Rec, State};

/// The law: a map brings a reading to its room, a group tells the coldest.
pub struct Rooms;

impl Law for Rooms {
    ghost answers = { rooms };

    ghost few = { rooms_few };
}

/// Map 1: the reading of a sensor becomes one of the room in which it stands.
#[derive(Debug, Drop)]
pub struct InRoom;

impl Coded for InRoom {
    ghost code_of = { λ _. 1 };

    fn code(&self) -> u16 {
        1
    }
}

impl MapCall<Rooms> for InRoom {
    fn call(&self, _port: u8, rec: Rec) -> Few {
        only(rec.key / 10, rec.val)
    }
}

/// Group 2: the coldest reading of a room. Items come sorted, so it is the first.
#[derive(Debug, Drop)]
pub struct Coldest;

impl Coded for Coldest {
    ghost code_of = { λ _. 2 };

    fn code(&self) -> u16 {
        2
    }
}

impl GroupCall<Rooms> for Coldest {
    fn call(&self, room: u64, items: &[Item]) -> Few {
        match items.first() {
            Some(item) => only(room, item.val),
            None => Few::new(),
        }
    }
}

/// Stands for folds, of which this program has none: it keeps what there was, and sends nothing.
#[derive(Debug, Drop)]
pub struct NoFold;

impl Coded for NoFold {
    ghost code_of = { λ _. 0 };

    fn code(&self) -> u16 {
        0
    }
}

impl FoldCall<Rooms> for NoFold {
    fn call(&self, _key: u64, state: Option<State>, _items: &[Item]) -> (Option<State>, Few) {
        (state, Few::new())
    }
}

/// One record.
fn only(key: u64, val: i64) -> Few
    ensures { result.items ≡ record { key = key; val = val } ∷ [] }
{
    let mut few = Few::new();
    few.push(Rec { key, val });
    few
}
