//! The writer of a watch.
ghost use Rattle.std.specs.Prelude.{◌≡◌, IfOk};
ghost use Rattle.td_watch.specs.Words.{IsAtMost, KeepsOrder};
ghost use Rattle.td_watch.specs.View.{view_of};

use crate::reader::Reader;
use crate::rule::{
    ACKED, CompareJoined, DONE, JoinReader, KEPT, SplitReader, StoreWord, WatchSeat, WatchTable,
};
use std::alloc::{AllocError, Global};
use std::marker::Model;
use std::sync::Arc;

/// The one that writes the words of a watch. Contracts see it as a `View`: its watch, and the watch's words.
#[derive(Drop)]
pub struct Writer {
    table: Arc<WatchTable>,
    seat: WatchSeat,
}

impl Model for Writer {
    ghost use Rattle.std.specs.Arc.{arc_value};
    ghost use Rattle.td_watch.specs.Rule.{writer_seat, IsSeatOf};
    ghost use Rattle.td_watch.specs.View.{View, view_of};

    ghost Value = { View };

    ghost view = { λ w. view_of w.seat.table_id w.seat.me.0.words };

    ghost invariant = { λ w. IsSeatOf (arc_value w.table).shared.table_id w.seat.table_id w.seat.me (writer_seat w.seat.me.0.words) };
}

impl Writer {
    // The writer of a new table of these words.
    pub(crate) fn new(alloc: Global, words: [u64; 3]) -> Result<Writer, AllocError>
        requires { KeepsOrder words }
        ensures { IfOk result (λ w. w.words ≡ words) }
    {
        let (table, seat) = WatchTable::of_words(alloc, &words, &words)?;
        let table = Arc::new(alloc, table)?;
        Ok(Writer { table, seat })
    }

    // A reader that has seen the writer's words. They are passed, since the writer keeps them for proofs alone.
    pub(crate) fn new_reader(&mut self, words: [u64; 3]) -> Result<Reader, AllocError>
        requires { words ≡ self.old.words }
        ensures reader { IfOk result (λ r. r ≡ self.old) }
        ensures same { self.new ≡ self.old }
    {
        let Writer { table, seat } = self;
        let shared = Arc::try_clone(table)?;
        let split = shared.shared.split_seat::<SplitReader>(seat);
        Ok(Reader {
            table: shared,
            seat: split,
            last: words,
        })
    }

    /// Stores acked, then done, then kept, which are given as (acked, done, kept). Takes no memory and waits for nobody.
    pub fn publish(&mut self, words: [u64; 3])
        requires ordered { KeepsOrder words }
        requires rises { IsAtMost self.old.words words }
        ensures { self.new ≡ view_of self.old.watch words }
    {
        let Writer { table, seat } = self;
        let shared = &table.shared;
        shared.store::<StoreWord>(seat, ACKED, words[ACKED]);
        shared.store::<StoreWord>(seat, DONE, words[DONE]);
        shared.store::<StoreWord>(seat, KEPT, words[KEPT]);
    }

    /// Takes back a reader of the same watch, and answers the words (acked, done, kept) that it last read. Takes no memory and waits for nobody.
    pub fn meet(&mut self, reader: Reader) -> [u64; 3]
        requires { reader.watch ≡ self.old.watch }
        ensures seen { result ≡ reader.words }
        ensures below { IsAtMost result self.new.words }
        ensures same { self.new ≡ self.old }
    {
        let Writer { table, seat } = self;
        let Reader {
            table: _,
            seat: other,
            last,
        } = reader;
        let shared = &table.shared;
        shared.join_seat::<JoinReader>(seat, other);
        // A join tells nothing of the words; a load does.
        shared.load::<CompareJoined>(seat, ACKED);
        last
    }
}
