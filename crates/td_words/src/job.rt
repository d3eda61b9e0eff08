//! What the program can be asked for.

/// What is asked for. A list of picks and the names of files are as they were given. Where there is a file `closures`, the closures of
/// its text stand beside the catalogue's.
#[derive(Drop)]
pub enum Job<'a> {
    /// To run a batch from standard input to standard output.
    Batch {
        closures: Option<&'a str>,
    },
    /// The same by a hall of so many shards.
    Run {
        workers: u8,
        closures: Option<&'a str>,
    },
    /// The same by a hall of so many shards that take turns, with this list of picks, which is not read yet.
    Sim {
        workers: u8,
        picks: &'a str,
        closures: Option<&'a str>,
    },
    /// To make the file `disk` and format it for the plan in the file `plan`, with `m` records a cell, `n` cells and `k` states
    /// a slot; these are not compared with their limits yet. The closures of the disk are those of the file `closures`, if there is one.
    Format {
        disk: &'a str,
        plan: &'a str,
        m: u32,
        n: u32,
        k: u32,
        closures: Option<&'a str>,
    },
    /// To feed the epochs of standard input to the disk `disk`, by a hall of so many shards.
    Feed {
        disk: &'a str,
        plan: &'a str,
        workers: u8,
    },
    /// To write what the disk `disk` tells, beside a process that writes it, if `live`.
    Show {
        disk: &'a str,
        plan: &'a str,
        live: bool,
    },
    /// To write the epochs after the checkpoint of the disk `disk` as lines that a feed takes, beside a process that writes it, if `live`; each
    /// with its place, if `at`, as a stream with places takes it.
    Dump {
        disk: &'a str,
        plan: &'a str,
        live: bool,
        at: bool,
    },
    /// To raise the disk `disk` to version 2 of the format, which has request numbers.
    Upgrade {
        disk: &'a str,
        plan: &'a str,
    },
    /// To make the file `new` and put on it what the disk `disk` tells, with `m` records a cell, `n` cells and `k` states a slot;
    /// these are not compared with their limits yet. Of the epochs those up to `until` alone, if there is such a number.
    Copy {
        disk: &'a str,
        plan: &'a str,
        new: &'a str,
        m: u32,
        n: u32,
        k: u32,
        until: Option<u64>,
    },
    /// To write the checkpoint of the disk `disk` as text.
    States {
        disk: &'a str,
        plan: &'a str,
    },
    /// To make the file `new` and put on it the checkpoint that standard input spells, for the plan in the file `plan`, with `m` records a
    /// cell, `n` cells and `k` states a slot; these are not compared with their limits yet. The list `map` of renamed vertices is not read
    /// yet, if there is one. The closures of the disk are those of the file `closures`, if there is one.
    Load {
        new: &'a str,
        plan: &'a str,
        m: u32,
        n: u32,
        k: u32,
        map: Option<&'a str>,
        closures: Option<&'a str>,
    },
    /// To feed the epochs of standard input to the disk `disk` as they come, by a hall of so many shards, with a cut after each
    /// `cut_every` epochs, if there is such a number; to stop where epochs take more than `most` deliveries on average, if there is such
    /// a number; to tell how far it has come, if `progress`; to mark the end of each epoch, if `marks`; to refuse an epoch with a fault
    /// and go on, if `refuse`; to take lines that name the places of epochs, if `at`; to hold the outputs until they were seen, if `hold`, which
    /// stands only with `marks`; to tell its room too, if `room`; to answer questions, if `ask`; to write how far it is to the file `status`
    /// each second, if there is one; and to take lines that ask for copies, in the folder `copies`, if there is one.
    Stream {
        disk: &'a str,
        plan: &'a str,
        workers: u8,
        cut_every: Option<u32>,
        most: Option<u64>,
        progress: bool,
        marks: bool,
        refuse: bool,
        at: bool,
        hold: bool,
        room: bool,
        ask: bool,
        status: Option<&'a str>,
        copies: Option<&'a str>,
    },
    /// To write the lines of the plan in the file `plan` with what its closures are in words, or a picture of it, if `dot`.
    Plan {
        plan: &'a str,
        dot: bool,
        closures: Option<&'a str>,
    },
    /// To print this text.
    Help(String),
    /// To print the program's name and version.
    Version,
    /// To print the text that explains each fault.
    Faults,
    /// To print the text on closures in text.
    Language,
}

/// Why nothing can be done for the words.
#[derive(Clone, Copy, Debug, PartialEq, Eq, thiserror::Error)]
pub enum WordsError {
    /// The words do not parse.
    #[error("words")]
    Words,
    /// An allocation was refused.
    #[error("memory")]
    Memory,
}
