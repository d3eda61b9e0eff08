//! Why a text is no plan.
ghost use Rattle.std.specs.Prelude.{◌≡◌, Some};
ghost use Rattle.td_plan.specs.declared.error.PlanError.TheVariants.{Memory};
ghost use Rattle.td_plan.specs.Refusals.{number_of, refusal_text};

use std::alloc::{AllocError, AllocFailed};
use std::error::Error;
use std::fmt;

/// Why a text is no plan, in the order in which the faults of one line count, with the number of the line, from 1.
#[derive(Clone, Copy, Debug, PartialEq, Eq)]
pub enum PlanError {
    /// The line has none of the forms of a line, or a loop is ended that is not open, is empty, or is never ended.
    Syntax(u64),
    /// The vertex's number is not the count of vertices before it.
    Number(u64),
    /// A source does not stand before its reader, or that of an enter not before the loop.
    Order(u64),
    /// The kind does not belong in this block, or a source is not read on the block on which the vertex reads.
    Nest(u64),
    /// The bound of a loop is not 1 to 1,000.
    Bound(u64),
    /// A fold stands in a loop.
    FoldInLoop(u64),
    /// A feedback has not one source, or its source is not read on its block.
    Again(u64),
    /// One vertex, loop level, source or edge too many.
    TooMany(u64),
    /// The plan has no input or no output.
    NoInputOrOutput,
    /// A growth was refused.
    Memory,
}

impl PlanError {
    /// The refusal's number, 1 to 10, in the order in which they are declared.
    pub fn number(&self) -> u8
        ensures { result ≡ number_of self.now }
    {
        match self {
            PlanError::Syntax(_) => 1,
            PlanError::Number(_) => 2,
            PlanError::Order(_) => 3,
            PlanError::Nest(_) => 4,
            PlanError::Bound(_) => 5,
            PlanError::FoldInLoop(_) => 6,
            PlanError::Again(_) => 7,
            PlanError::TooMany(_) => 8,
            PlanError::NoInputOrOutput => 9,
            PlanError::Memory => 10,
        }
    }
}

// The texts are written by hand. What the derive of `thiserror` writes has no contract, and the program's contract cites these
// (`specs/Refusals.antt`): so each text stands once.
impl fmt::Display for PlanError {
    ghost output = { λ e. Some (refusal_text e) };

    fn fmt<W: fmt::Write>(&self, f: &mut fmt::Formatter<W>) -> fmt::Result {
        match self {
            PlanError::Syntax(line) => write!(f, "plan line {line}: syntax"),
            PlanError::Number(line) => write!(f, "plan line {line}: number"),
            PlanError::Order(line) => write!(f, "plan line {line}: order"),
            PlanError::Nest(line) => write!(f, "plan line {line}: nest"),
            PlanError::Bound(line) => write!(f, "plan line {line}: bound"),
            PlanError::FoldInLoop(line) => write!(f, "plan line {line}: fold in loop"),
            PlanError::Again(line) => write!(f, "plan line {line}: again"),
            PlanError::TooMany(line) => write!(f, "plan line {line}: too many"),
            PlanError::NoInputOrOutput => write!(f, "plan: no input or output"),
            PlanError::Memory => write!(f, "memory"),
        }
    }
}

impl Error for PlanError {}

impl From<AllocError> for PlanError {
    ghost from_gives = { λ _ e. e ≡ Memory };

    fn from(_error: AllocError) -> PlanError {
        PlanError::Memory
    }
}

impl<T: Drop> From<AllocFailed<T>> for PlanError {
    ghost from_gives = { λ _ e. e ≡ Memory };

    fn from(_failed: AllocFailed<T>) -> PlanError {
        PlanError::Memory
    }
}

/// A text in memory is all that this crate writes to, so a write fails for want of memory alone.
impl From<fmt::Error> for PlanError {
    ghost from_gives = { λ _ e. e ≡ Memory };

    fn from(_error: fmt::Error) -> PlanError {
        PlanError::Memory
    }
}
