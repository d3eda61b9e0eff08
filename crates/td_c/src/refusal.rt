//! Why a call was refused, and the numbers by which C is told.
ghost use Rattle.std.specs.Prelude.{◌≡◌};
ghost use Rattle.td_stamp.specs.declared.error.StampError.{StampError as AnyStampError};
ghost use Rattle.td_c.specs.declared.refusal.Refusal.TheVariants.{Plan, Memory};
ghost use Rattle.td_c.specs.Refusals.{number_of, number_of_wrong, place_of, line_of, line_of_wrong};

use std::alloc::{AllocError, AllocFailed};
use td_calls::CallsError;
use td_closures::{Fault, Wrong};
use td_plan::PlanError;
use td_stamp::StampError;

/// Why a call was refused.
#[derive(Clone, Copy, Debug, PartialEq, Eq)]
pub enum Refusal {
    /// The text spells no plan; the place is its line, or 0.
    Plan(PlanError),
    /// The text is no UTF-8.
    Text,
    /// A vertex lacks its closure; the place is its number.
    Closure(CallsError),
    /// A record does not name an input of the plan; the place is its index.
    Input(usize),
    /// There are more states than the array has places.
    Count,
    /// A state does not name a fold of the plan; the place is its index.
    Fold(usize),
    /// An earlier state has the same vertex and key; the place is the index of the later one.
    Doubled(usize),
    /// The states or the outputs after the epoch are more than the arrays have places.
    Room,
    /// The text of closures spells none; the place is its first line with a fault, or 0.
    Closures(Fault),
    /// The text of closures is no UTF-8.
    ClosuresText,
    /// An allocation was refused.
    Memory,
}

impl Refusal {
    /// Its number: 1 to 9 are those of the faults of a plan.
    pub(crate) fn number(self) -> u32
        ensures { result ≡ number_of self }
    {
        match self {
            Refusal::Plan(error) => u32::from(error.number()),
            Refusal::Text => 11,
            Refusal::Closure(_) => 12,
            Refusal::Input(_) => 13,
            Refusal::Count => 14,
            Refusal::Fold(_) => 15,
            Refusal::Doubled(_) => 16,
            Refusal::Room => 17,
            Refusal::Closures(fault) => number_of_wrong(fault.wrong),
            Refusal::ClosuresText => 23,
            Refusal::Memory => 10,
        }
    }

    /// Its place.
    pub(crate) fn place(self) -> u64
        ensures { result ≡ place_of self }
    {
        match self {
            Refusal::Plan(error) => line(error),
            Refusal::Closure(CallsError::NoCall(vertex, _code)) => u64::from(vertex),
            Refusal::Closures(fault) => line_of_wrong(fault),
            Refusal::Input(index) | Refusal::Fold(index) | Refusal::Doubled(index) => index as u64,
            _ => 0,
        }
    }
}

/// The line of a fault of a plan, or 0.
fn line(error: PlanError) -> u64
    ensures { result ≡ line_of error }
{
    match error {
        PlanError::Syntax(line)
        | PlanError::Number(line)
        | PlanError::Order(line)
        | PlanError::Nest(line)
        | PlanError::Bound(line)
        | PlanError::FoldInLoop(line)
        | PlanError::Again(line)
        | PlanError::TooMany(line) => line,
        _ => 0,
    }
}

/// The number of what is wrong with a line of closures.
fn number_of_wrong(wrong: Wrong) -> u32
    ensures { result ≡ number_of_wrong wrong }
{
    match wrong {
        Wrong::Syntax => 18,
        Wrong::Name => 19,
        Wrong::Code => 20,
        Wrong::TooMany => 21,
        Wrong::Deep => 22,
        Wrong::Memory => 10,
    }
}

/// The line of closures that is wrong, or 0 where memory was refused.
fn line_of_wrong(fault: Fault) -> u64
    ensures { result ≡ line_of_wrong fault.line fault.wrong }
{
    match fault.wrong {
        Wrong::Memory => 0,
        _ => fault.line,
    }
}

impl From<StampError> for Refusal {
    ghost from_gives = { λ _ e. e ≡ Memory };

    fn from(_error: StampError) -> Refusal {
        Refusal::Memory
    }
}

impl From<AllocError> for Refusal {
    ghost from_gives = { λ _ e. e ≡ Memory };

    fn from(_error: AllocError) -> Refusal {
        Refusal::Memory
    }
}

impl<T: Drop> From<AllocFailed<T>> for Refusal {
    ghost from_gives = { λ _ e. e ≡ Memory };

    fn from(_failed: AllocFailed<T>) -> Refusal {
        Refusal::Memory
    }
}
