//! What can go wrong, and what is printed of it.
//!
//! A fault's text is a hand-written `Display`, pinned by a contract. The texts of refusals of lower crates are derived, and
//! tested.
ghost use Rattle.std.specs.Prelude.{◌≡◌, ◌++◌, [], ◌∷◌, IfOk, codes, string_bytes, Some};
ghost use Rattle.td_console.specs.declared.faults.Fault.TheVariants.{Memory};
ghost use Rattle.td_console.specs.Refusals.{number_of, fault_text, line_fault_text, keeper_fault, make_fault};

use std::alloc::{AllocError, AllocFailed, Global};
use std::error::Error;
use std::fmt;
use td_disk::MakeError;
use td_plan::PlanError;
use td_stamp::StampError;
use td_store::standing::KeeperError;

/// What is wrong with a data line.
#[derive(Clone, Copy, Debug, PartialEq, Eq)]
pub enum LineFault {
    /// It has none of the forms of a data line.
    Syntax,
    /// Its input is no input vertex of the plan.
    NoSuchInput,
    /// Records stand after the last line that closes an epoch.
    NotClosed,
    /// An epoch is said to have been seen whose output lines are not written yet.
    NotOut,
    /// An epoch is said to have been seen that comes before the last one of which this was said.
    SeenBefore,
    /// The disk lacks an epoch before the one that a line names.
    Gap,
    /// A question is to a vertex that is no fold of the plan.
    NoSuchFold,
}

impl fmt::Display for LineFault {
    ghost output = { λ f. Some (line_fault_text f) };

    fn fmt<W: fmt::Write>(&self, f: &mut fmt::Formatter<W>) -> fmt::Result {
        match self {
            LineFault::Syntax => write!(f, "syntax"),
            LineFault::NoSuchInput => write!(f, "no such input"),
            LineFault::NotClosed => write!(f, "epoch not closed"),
            LineFault::NotOut => write!(f, "outputs not written yet"),
            LineFault::SeenBefore => write!(f, "a later epoch was seen"),
            LineFault::Gap => write!(f, "gap"),
            LineFault::NoSuchFold => write!(f, "no such fold"),
        }
    }
}

/// Why an input has no answer, or the answer was not written.
#[derive(Clone, Copy, Debug, PartialEq, Eq)]
pub enum Fault {
    /// The plan text spells no plan.
    Plan(PlanError),
    /// The vertex with this number has a closure code for which no closure is stored.
    NoCall(u8, u16),
    /// A data line, by its number in the whole input, from 1.
    Line(u64, LineFault),
    /// The reader failed, or did not come to an end.
    Input,
    /// The writer failed.
    Output,
    /// An allocation was refused.
    Memory,
    /// A list of picks has another shape than numbers joined by commas.
    Picks,
    /// A file cannot be made, opened or read.
    File,
    /// A shape out of its limits, or too large for its disk.
    Shape,
    /// A keeper refused; want of memory is `Memory` in its place.
    Keeper(KeeperError),
    /// There is something to take, and a hall has used all numbers of tasks.
    Spent,
}

impl Fault {
    /// The fault's number: 1 to 6 and 8 to 12, in the order in which they are declared. 7 is not used.
    pub fn number(&self) -> u8
        ensures { result ≡ number_of self.now }
    {
        match self {
            Fault::Plan(_) => 1,
            Fault::NoCall(..) => 2,
            Fault::Line(..) => 3,
            Fault::Input => 4,
            Fault::Output => 5,
            Fault::Memory => 6,
            Fault::Picks => 8,
            Fault::File => 9,
            Fault::Shape => 10,
            Fault::Keeper(_) => 11,
            Fault::Spent => 12,
        }
    }
}

impl fmt::Display for Fault {
    ghost output = { λ f. Some (fault_text f) };

    fn fmt<W: fmt::Write>(&self, f: &mut fmt::Formatter<W>) -> fmt::Result {
        match self {
            Fault::Plan(error) => write!(f, "{error}"),
            Fault::NoCall(vertex, code) => write!(f, "vertex {vertex}: no closure {code}"),
            Fault::Line(line, fault) => write!(f, "line {line}: {fault}"),
            Fault::Input => write!(f, "input"),
            Fault::Output => write!(f, "output"),
            Fault::Memory => write!(f, "memory"),
            Fault::Picks => write!(f, "picks"),
            Fault::File => write!(f, "file"),
            Fault::Shape => write!(f, "shape"),
            Fault::Keeper(error) => write!(f, "{error}"),
            Fault::Spent => write!(f, "spent"),
        }
    }
}

impl Error for Fault {}

impl From<AllocError> for Fault {
    ghost from_gives = { λ _ f. f ≡ Memory };

    fn from(_error: AllocError) -> Fault {
        Fault::Memory
    }
}

impl<T: Drop> From<AllocFailed<T>> for Fault {
    ghost from_gives = { λ _ f. f ≡ Memory };

    fn from(_failed: AllocFailed<T>) -> Fault {
        Fault::Memory
    }
}

impl From<StampError> for Fault {
    ghost from_gives = { λ _ f. f ≡ Memory };

    fn from(_error: StampError) -> Fault {
        Fault::Memory
    }
}

impl From<KeeperError> for Fault {
    ghost from_gives = { λ e f. f ≡ keeper_fault e };

    fn from(error: KeeperError) -> Fault {
        match error {
            KeeperError::Memory => Fault::Memory,
            _ => Fault::Keeper(error),
        }
    }
}

impl From<MakeError> for Fault {
    ghost from_gives = { λ e f. f ≡ make_fault e };

    fn from(error: MakeError) -> Fault {
        match error {
            MakeError::Memory => Fault::Memory,
            MakeError::File => Fault::File,
        }
    }
}

/// A text in memory is all that this crate formats, so that fails for want of memory alone.
impl From<fmt::Error> for Fault {
    ghost from_gives = { λ _ f. f ≡ Memory };

    fn from(_error: fmt::Error) -> Fault {
        Fault::Memory
    }
}

/// The line that a program prints of a fault: `td: `, the fault's text, and a line feed.
pub fn fault_line(alloc: Global, fault: Fault) -> Result<String, AllocError>
    ensures { IfOk result (λ line. string_bytes line ≡ codes "td: " ++ fault_text fault ++ 10 ∷ []) }
{
    format!(in alloc; "td: {fault}\n")
}
