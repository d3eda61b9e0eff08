//! How far a stream has come, and how much of its disk it uses, as lines and as a text for a monitoring service.

use std::alloc::Global;
use std::fmt;
use std::fmt::{Display, Formatter, Write};
use std::rt::Stderr;
use td_console::Fault;
use td_head::Shape;

/// How many of a disk's cells and states are used, and how many there are.
#[derive(Clone, Copy, Debug, PartialEq, Eq)]
pub(crate) struct Room {
    cells: Used,
    states: Used,
}

/// So many are used, of so many.
#[derive(Clone, Copy, Debug, PartialEq, Eq)]
struct Used {
    used: u64,
    of: u64,
}

impl Used {
    /// Whether four fifths of them are used.
    fn is_little_left(&self) -> bool {
        self.of.saturating_mul(4) <= self.used.saturating_mul(5)
    }
}

impl Room {
    /// The room of a disk of this shape with so many epochs after its checkpoint, and so many states in that.
    pub(crate) fn of(shape: Shape, epochs: u64, states: u64) -> Room {
        Room {
            cells: Used {
                used: epochs,
                of: u64::from(shape.cells()),
            },
            states: Used {
                used: states,
                of: u64::from(shape.states()),
            },
        }
    }
}

impl Display for Room {
    fn fmt<W: Write>(&self, f: &mut Formatter<W>) -> fmt::Result {
        let Room { cells, states } = self;
        write!(f, "cells {} of {}", cells.used, cells.of)?;
        write!(f, " states {} of {}", states.used, states.of)
    }
}

/// What was said of little room.
#[derive(Clone, Copy, Debug, PartialEq, Eq)]
pub(crate) struct Warned {
    of_cells: bool,
    of_states: bool,
}

impl Warned {
    /// Nothing was said.
    pub(crate) fn new() -> Warned {
        Warned {
            of_cells: false,
            of_states: false,
        }
    }

    /// Says that four fifths of the cells or of the states are used, where that was not said before. On a terminal each line begins with
    /// `before`.
    pub(crate) fn warn(&mut self, stderr: Stderr, room: Room, before: &str) {
        let Room { cells, states } = room;
        if !self.of_cells && cells.is_little_left() {
            self.of_cells = true;
            let Used { used, of } = cells;
            let _ = eprintln!(stderr; "{before}td: little room: cells {used} of {of}");
        }
        if !self.of_states && states.is_little_left() {
            self.of_states = true;
            let Used { used, of } = states;
            let _ = eprintln!(stderr; "{before}td: little room: states {used} of {of}");
        }
    }
}

/// What a status file says.
#[derive(Clone, Copy, Debug, PartialEq, Eq)]
pub(crate) struct Status {
    pub acked: u64,
    pub done: u64,
    pub kept: u64,
    pub seen: Option<u64>,
    pub room: Room,
    pub records: u64,
    pub epochs_in_a_second: u64,
    pub seconds_since_cut: u64,
    pub is_running: bool,
}

/// What each status file begins with.
pub(crate) const FIRST: &str = "# HELP td_acked_epoch ";

/// How many bytes that has.
pub(crate) const FIRST_LEN: usize = 22;

impl Status {
    /// The text of a status file, in the form that Prometheus reads; each number has this label. Refusal: `Memory`.
    pub(crate) fn text(&self, alloc: Global, label: &str) -> Result<String, Fault> {
        let Room { cells, states } = self.room;
        let is_running = u64::from(self.is_running);
        let mut numbers = Numbers {
            text: String::new(alloc),
            label,
        };
        numbers.push("td_acked_epoch", "The last epoch on the disk", self.acked)?;
        numbers.push("td_done_epoch", "The last epoch computed", self.done)?;
        numbers.push("td_kept_epoch", "The epoch of the last cut", self.kept)?;
        if let Some(seen) = self.seen {
            numbers.push("td_seen_epoch", SEEN, seen)?;
        }
        numbers.push("td_cells_used", "Epochs after the last cut", cells.used)?;
        numbers.push("td_cells_limit", "Epochs that find room", cells.of)?;
        numbers.push("td_states_used", "States of the last cut", states.used)?;
        numbers.push("td_states_limit", "States that find room", states.of)?;
        numbers.push("td_records_total", RECORDS, self.records)?;
        numbers.push("td_epochs_per_second", EPOCHS, self.epochs_in_a_second)?;
        numbers.push("td_seconds_since_cut", SECONDS, self.seconds_since_cut)?;
        numbers.push("td_running", "1, and 0 at the end", is_running)?;
        let Numbers { text, label: _ } = numbers;
        Ok(text)
    }
}

const SEEN: &str = "The last epoch that the consumer has stored";

const RECORDS: &str = "Records that the stream has put on the disk";

const EPOCHS: &str = "Epochs that it has put there in the last second";

const SECONDS: &str = "Seconds since the last cut, or the start";

/// The numbers of a status file as a text, with the label of each.
#[derive(Drop)]
struct Numbers<'a> {
    text: String,
    label: &'a str,
}

impl<'a> Numbers<'a> {
    /// Appends the lines of a number: what it is, its kind, and itself. Refusal: `Memory`.
    fn push(&mut self, name: &str, help: &str, number: u64) -> Result<(), Fault> {
        let label = self.label;
        let kind = if name.ends_with("_total") {
            "counter"
        } else {
            "gauge"
        };
        writeln!(self.text, "# HELP {name} {help}.")?;
        writeln!(self.text, "# TYPE {name} {kind}")?;
        writeln!(self.text, "{name}{label} {number}")?;
        Ok(())
    }
}
