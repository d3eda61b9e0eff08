//! The subcommands as a table: a row for each, with its arguments in the order in which help lists them.
//!
//! `commands::command` makes clap's commands of the rows. Names and rules are those of `specs/Command.antt`, row by row. No proof ties
//! the name of a value or a text of help to what the program does.
ghost use Rattle.std.specs.Prelude.{◌≡◌, map};
ghost use Rattle.td_words.specs.Command.{batch_to_sim, format_to_upgrade, copy_to_load, stream_and_plan};
ghost use Rattle.td_words.specs.Table.{subcommand_in};

use crate::help::Details;

/// An argument, by its id, by the name of its value in help, and by what help says of it.
#[derive(Clone, Copy)]
pub(crate) enum Argument {
    /// A word that has to stand there.
    Word(&'static str, &'static str, &'static str),
    /// A number of 32 bits that has to stand there.
    Number(&'static str, &'static str, &'static str),
    /// `--workers W`, a number of 1 to 16, and 1 where it is not given.
    Workers,
    /// `--picks LIST`, and `0` where it is not given.
    Picks,
    /// An option with a number of `least` to `most`, which may be left out.
    NumberOption {
        id: &'static str,
        value: &'static str,
        help: &'static str,
        least: u64,
        most: u64,
    },
    /// An option with a text, as the name of a file, which may be left out.
    TextOption(&'static str, &'static str, &'static str),
    /// A flag, which has no value.
    Flag(&'static str, &'static str),
}

/// A subcommand, and what help says of it in one line and at its end.
#[derive(Clone, Copy)]
pub(crate) struct Row {
    pub(crate) name: &'static str,
    pub(crate) about: &'static str,
    pub(crate) details: Details,
    pub(crate) arguments: &'static [Argument],
}

/// The greatest epoch, and the greatest count of deliveries.
pub(crate) const GREATEST: u64 = 9_223_372_036_854_775_807;

// Arguments of several subcommands.
const DISK: Argument = Argument::Word("disk", "DISK", "A file that td format made for this plan");

const PLAN: Argument = Argument::Word("plan", "PLAN", "A file with the lines of a plan");

const NEW: Argument = Argument::Word(
    "new",
    "NEW",
    "The file to make; one that is there is refused",
);

const RECORDS: Argument = Argument::Number(
    "m",
    "M",
    "How many records an epoch may have, 1 to 65536",
);

const CELLS: Argument = Argument::Number(
    "n",
    "N",
    "How many epochs there may be after a cut, 1 to 65536",
);

const STATES: Argument = Argument::Number("k", "K", "How many states a cut may keep, 1 to 1048576");

const LIVE: Argument = Argument::Flag("live", "Read DISK beside a td that writes it");

const CLOSURES: Argument = Argument::TextOption(
    "closures",
    "FILE",
    "A file with closures in text, which have codes from 10000 on; see 'td help closures'",
);

/// The rows of `batch`, `run` and `sim`. The table stands in parts, since the proof of a part costs the square of its length.
pub(crate) fn batch_to_sim() -> &'static [Row]
    ensures { map subcommand_in result.now ≡ batch_to_sim }
{
    &BATCH_TO_SIM
}

/// The rows of `format`, `feed`, `show`, `dump` and `upgrade`.
pub(crate) fn format_to_upgrade() -> &'static [Row]
    ensures { map subcommand_in result.now ≡ format_to_upgrade }
{
    &FORMAT_TO_UPGRADE
}

/// The rows of `copy`, `states` and `load`.
pub(crate) fn copy_to_load() -> &'static [Row]
    ensures { map subcommand_in result.now ≡ copy_to_load }
{
    &COPY_TO_LOAD
}

/// The rows of `stream` and `plan`.
pub(crate) fn stream_and_plan() -> &'static [Row]
    ensures { map subcommand_in result.now ≡ stream_and_plan }
{
    &STREAM_AND_PLAN
}

const BATCH_TO_SIM: [Row; 3] = [
    Row {
        name: "batch",
        about: "Reads a plan and its epochs from standard input, and writes the output records of each epoch to standard output",
        details: Details::Batch,
        arguments: &[CLOSURES],
    },
    Row {
        name: "run",
        about: "Does what batch does, by an engine that passes messages between shards",
        details: Details::Batch,
        arguments: &[Argument::Workers, CLOSURES],
    },
    Row {
        name: "sim",
        about: "Does what run does, shard by shard in turn, and writes the notifications before the output records",
        details: Details::Sim,
        arguments: &[Argument::Workers, Argument::Picks, CLOSURES],
    },
];

const FORMAT_TO_UPGRADE: [Row; 5] = [
    Row {
        name: "format",
        about: "Makes a disk, a file for the epochs and the states of a plan, with none on it yet",
        details: Details::Format,
        arguments: &[
            Argument::Word(
                "disk",
                "DISK",
                "The file to make; one that is there is written anew",
            ),
            PLAN,
            RECORDS,
            CELLS,
            STATES,
            Argument::TextOption(
                "closures",
                "FILE",
                "A file with closures in text, which becomes DISK.closures",
            ),
        ],
    },
    Row {
        name: "feed",
        about: "Puts epochs from standard input on a disk, and writes the output records of each epoch to standard output",
        details: Details::Feed,
        arguments: &[DISK, PLAN, Argument::Workers],
    },
    Row {
        name: "show",
        about: "Writes what a disk has: the states that the last cut kept, and the epochs after it",
        details: Details::Show,
        arguments: &[DISK, PLAN, LIVE],
    },
    Row {
        name: "dump",
        about: "Writes the epochs of a disk after the last cut, in lines that feed takes",
        details: Details::Dump,
        arguments: &[
            DISK,
            PLAN,
            LIVE,
            Argument::Flag(
                "at",
                "Write 'at EPOCH' before each epoch, as 'td stream --at' takes it",
            ),
        ],
    },
    Row {
        name: "upgrade",
        about: "Raises a disk to version 2 of its format, which has request numbers",
        details: Details::Upgrade,
        arguments: &[DISK, PLAN],
    },
];

const COPY_TO_LOAD: [Row; 3] = [
    Row {
        name: "copy",
        about: "Makes a disk of another shape, which has what a disk has",
        details: Details::Copy,
        arguments: &[
            DISK,
            PLAN,
            NEW,
            RECORDS,
            CELLS,
            STATES,
            Argument::NumberOption {
                id: "until",
                value: "E",
                help: "Copy what DISK has up to epoch E",
                least: 0,
                most: GREATEST,
            },
        ],
    },
    Row {
        name: "states",
        about: "Writes the states of a disk as text, which load takes",
        details: Details::States,
        arguments: &[DISK, PLAN],
    },
    Row {
        name: "load",
        about: "Makes a disk of the states that standard input has as text",
        details: Details::Load,
        arguments: &[
            NEW,
            PLAN,
            RECORDS,
            CELLS,
            STATES,
            Argument::TextOption(
                "map",
                "LIST",
                "The states of vertex V become those of vertex W: V=W, several of them joined by commas",
            ),
            Argument::TextOption(
                "closures",
                "FILE",
                "A file with closures in text, which becomes NEW.closures",
            ),
        ],
    },
];

const STREAM_AND_PLAN: [Row; 2] = [
    Row {
        name: "stream",
        about: "Does what feed does, epoch by epoch as standard input comes",
        details: Details::Stream,
        arguments: &[
            DISK,
            PLAN,
            Argument::Workers,
            Argument::NumberOption {
                id: "cut-every",
                value: "E",
                help: "Cut after each E epochs, 1 to 65536",
                least: 1,
                most: 65_536,
            },
            Argument::NumberOption {
                id: "most",
                value: "R",
                help: "Stop where epochs take more than R deliveries on average",
                least: 1,
                most: GREATEST,
            },
            Argument::Flag(
                "progress",
                "Write how far it has come to standard error, each second",
            ),
            Argument::Flag(
                "marks",
                "Write 'done EPOCH' after the output lines of each epoch",
            ),
            Argument::Flag(
                "refuse",
                "Refuse an epoch with a fault, and go on: write 'no REQUEST LINE: WHAT' at its '.'",
            ),
            Argument::Flag(
                "at",
                "Take lines 'at EPOCH': an epoch is put on DISK where it is that one",
            ),
            Argument::Flag(
                "hold",
                "With --marks: keep each epoch until a line 'seen EPOCH' says that its outputs are stored",
            ),
            Argument::Flag(
                "room",
                "Do what --progress does, and write how much room is used",
            ),
            Argument::Flag(
                "ask",
                "Between epochs: answer lines 'get VERTEX KEY', 'list VERTEX', 'top VERTEX COUNT' and others",
            ),
            Argument::TextOption(
                "status",
                "FILE",
                "A file that is written anew each second, with numbers as Prometheus reads them",
            ),
            Argument::TextOption(
                "copies",
                "FOLDER",
                "Between epochs: at a line 'copy NEW M N K', copy DISK to a new disk NEW in FOLDER, as td copy",
            ),
        ],
    },
    Row {
        name: "plan",
        about: "Writes a plan with what each of its closures is in words, or a picture of it",
        details: Details::Plan,
        arguments: &[
            Argument::Word(
                "plan",
                "PLAN",
                "A file with the lines of a plan, or with an input of td batch, of which the plan is taken",
            ),
            Argument::Flag("dot", "Write a picture, in the language of Graphviz"),
            CLOSURES,
        ],
    },
];
