// Why a text spells no checkpoint.
ghost use Rattle.std.specs.Prelude.{◌≡◌};
ghost use Rattle.td_states.specs.declared.error.StatesError.TheVariants.{Memory};

use std::alloc::{AllocError, AllocFailed};
use td_stamp::StampError;
use thiserror::Error;

/// What is wrong with a line of a checkpoint in text.
#[derive(Clone, Copy, Debug, PartialEq, Eq, Error)]
pub enum StatesFault {
    /// It has none of the forms of such a line, or stands where it may not.
    #[error("syntax")]
    Syntax,
    /// Its vertex, once it is renamed, is no fold of the plan.
    #[error("no such fold")]
    NoSuchFold,
    /// It does not come after the state before it, by vertex and key.
    #[error("order")]
    Order,
}

/// Why a text was not read as a checkpoint, or a list as renamings.
#[derive(Clone, Copy, Debug, PartialEq, Eq, Error)]
pub enum StatesError {
    /// A line, by its number from 1.
    #[error("line {0}: {1}")]
    Line(u64, StatesFault),
    /// A list of renamed vertices has another shape.
    #[error("map")]
    Map,
    /// The reader failed, or did not come to an end.
    #[error("input")]
    Input,
    /// An allocation was refused.
    #[error("memory")]
    Memory,
}

impl From<AllocError> for StatesError {
    ghost from_gives = { λ _ e. e ≡ Memory };

    fn from(_error: AllocError) -> StatesError {
        StatesError::Memory
    }
}

impl<T: Drop> From<AllocFailed<T>> for StatesError {
    ghost from_gives = { λ _ e. e ≡ Memory };

    fn from(_failed: AllocFailed<T>) -> StatesError {
        StatesError::Memory
    }
}

impl From<StampError> for StatesError {
    ghost from_gives = { λ _ e. e ≡ Memory };

    fn from(_error: StampError) -> StatesError {
        StatesError::Memory
    }
}
