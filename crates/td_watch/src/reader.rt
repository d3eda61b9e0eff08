//! A reader of a watch.
//!
//! No clause says how recent a read is. An atomic step could say it only by a note from the writer, and no call hands one on. So
//! a body that answers its last words again, where these are in order, is refused by a test in one thread alone.
ghost use Rattle.std.specs.Prelude.{◌≡◌};
ghost use Rattle.td_watch.specs.Words.{IsAtMost, KeepsOrder};
ghost use Rattle.td_watch.specs.View.{view_of};

use crate::rule::{ACKED, DONE, KEPT, LoadWord, WatchSeat, WatchTable};
use std::marker::Model;
use std::sync::Arc;

/// One that reads the words of a watch. Contracts see it as a `View`: its watch, and the words that it last read.
#[derive(Drop)]
pub struct Reader {
    pub(crate) table: Arc<WatchTable>,
    pub(crate) seat: WatchSeat,
    pub(crate) last: [u64; 3],
}

impl Model for Reader {
    ghost use Rattle.std.specs.Arc.{arc_value};
    ghost use Rattle.td_watch.specs.Rule.{reader_seat, IsSeatOf};
    ghost use Rattle.td_watch.specs.View.{View, view_of};

    ghost Value = { View };

    ghost view = { λ r. view_of r.seat.table_id r.last };

    ghost invariant = { λ r. IsSeatOf (arc_value r.table).shared.table_id r.seat.table_id r.seat.me (reader_seat r.last) };
}

impl Reader {
    /// Loads kept, then done, then acked, and answers (acked, done, kept). Takes no memory and waits for nobody. How recent the words are is not promised.
    pub fn read(&mut self) -> [u64; 3]
        ensures ordered { KeepsOrder result }
        ensures rises { IsAtMost self.old.words result }
        ensures view { self.new ≡ view_of self.old.watch result }
    {
        let Reader { table, seat, last } = self;
        let shared = &table.shared;
        let kept = shared.load::<LoadWord>(seat, KEPT);
        let done = shared.load::<LoadWord>(seat, DONE);
        let acked = shared.load::<LoadWord>(seat, ACKED);
        *last = [acked, done, kept];
        [acked, done, kept]
    }
}
