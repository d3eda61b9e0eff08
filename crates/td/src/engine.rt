//! The engines of the program that want closures.

use std::rt::Stderr;
use td_disk::{FileDisk, ReadAhead};
use td_formula::Closure;
use td_plan::Plan;

/// Which engine is to answer: the plain evaluator, or a hall of so many shards; `Sim` takes tasks by these picks. `Feed` works on a disk
/// for a plan. `Stream` does so as the input comes: on a disk at this path, with these options; and it tells how far it has come, as it
/// is asked to. Each has closures in text beside the catalogue's.
#[derive(Drop)]
pub(crate) enum Engine<'a> {
    Batch(Vec<Closure>),
    Run(u8, Vec<Closure>),
    Sim(u8, Vec<u64>, Vec<Closure>),
    Feed(ReadAhead<FileDisk>, Plan, u8, Vec<Closure>),
    Stream(ReadAhead<FileDisk>, &'a str, Plan, u8, StreamOptions<'a>, Telling<'a>, Vec<Closure>),
}

/// After how many epochs a stream cuts, how many tasks each of its epochs may take, whether it marks them, whether it refuses those with
/// a fault and goes on, whether lines name their places, whether it holds their outputs until they were seen, and whether it answers
/// questions; and the folder in which it makes copies, if there is one.
#[derive(Clone, Copy, Debug, Drop)]
pub(crate) struct StreamOptions<'a> {
    pub cut_every: Option<u32>,
    pub most: Option<u64>,
    pub marks: bool,
    pub refuse: bool,
    pub at: bool,
    pub hold: bool,
    pub ask: bool,
    pub copies: Option<&'a str>,
}

/// What is told of a stream: lines on standard error of how far it has come, and of its room too, and, where outputs are held, which epoch was
/// seen last; and a status file.
#[derive(Clone, Copy)]
pub(crate) struct Telling<'a> {
    pub stderr: Stderr,
    pub progress: bool,
    pub room: bool,
    pub hold: bool,
    pub status: Option<&'a str>,
}

impl<'a> Telling<'a> {
    /// Whether anything is told.
    pub(crate) fn is_any(&self) -> bool {
        self.progress || self.has_room()
    }

    /// Whether it is told what room the disk has.
    pub(crate) fn has_room(&self) -> bool {
        self.room || self.status.is_some()
    }
}
