//! The table of the three words: the rule that it keeps at all times, and the kinds of step on it.
//!
//! Beside stores by the writer and loads by readers there are three kinds of step. A new reader's seat is split from the
//! writer's. A seat that comes back is joined to it. A join says nothing of the words, so the writer's view keeps what was joined
//! until its next load compares that.
use atomic_table::{Join, Play, Seat, Split, Table, TableRule};
use std::alloc::Global;
use std::collections::LinkedList;

/// The place of acked, in the table as in every array of the three words.
pub const ACKED: usize = 0;

/// The place of done.
pub const DONE: usize = 1;

/// The place of kept.
pub const KEPT: usize = 2;

/// What the table knows of a seat. No value of it is made. The table wants a Rust type for views, and a clause reads
/// `LinkedList<u64>` as a plain list: it costs no memory and no code.
pub struct SeatView {
    /// Whether the seat is the writer's.
    pub is_writer: bool,
    /// The words that the seat last stored or loaded.
    pub words: LinkedList<u64>,
    /// The words of the reader's seat that was joined last, until they are compared.
    pub joined: LinkedList<u64>,
}

/// The words keep their order, the writer's view is the words, and each reader's view is at most the words.
pub struct WatchRule;

impl TableRule<(), SeatView, [u64; 3]> for WatchRule {
    ghost use Rattle.td_watch.specs.Rule.{KeepsRule, writer_seat};

    ghost holds = { λ _ s. KeepsRule s };

    ghost first = { writer_seat };
}

/// A reader loads one word.
pub struct LoadWord;

impl Play<(), SeatView> for LoadWord {
    ghost use Rattle.td_watch.specs.Rule.{LoadsWord};

    ghost then = { LoadsWord };
}

/// The writer stores one word.
pub struct StoreWord;

impl Play<(), SeatView> for StoreWord {
    ghost use Rattle.td_watch.specs.Rule.{StoresWord};

    ghost then = { StoresWord };
}

/// The writer learns, at a load, that the words of the seat that it joined are at most its own.
pub struct CompareJoined;

impl Play<(), SeatView> for CompareJoined {
    ghost use Rattle.td_watch.specs.Rule.{ComparesJoined};

    ghost then = { ComparesJoined };
}

/// A reader is split from the writer, and has seen the writer's words.
pub struct SplitReader;

impl Split<SeatView> for SplitReader {
    ghost use Rattle.td_watch.specs.Rule.{reader_seat};

    ghost left = { λ v. v };

    ghost right = { λ v. reader_seat v.words };
}

/// A reader's seat is joined to the writer's.
pub struct JoinReader;

impl Join<SeatView> for JoinReader {
    ghost use Rattle.td_watch.specs.Rule.{joined_seat, spent_seat};

    ghost both = { joined_seat };

    ghost spent = { spent_seat };
}

/// The three words, with no slot.
pub type WatchTable = Table<(), SeatView, [u64; 3], WatchRule, Global>;

/// By which the writer or a reader steps on the table, and which carries its view.
pub type WatchSeat = Seat<(), SeatView>;
