//! The refusals.
ghost use Rattle.std.specs.Prelude.{◌≡◌};
ghost use Rattle.td_core.specs.Refusals.{number_of};
ghost use Rattle.td_core.specs.declared.error.HallError.TheVariants.{Memory};

use std::alloc::{AllocError, AllocFailed};
use td_stamp::StampError;
use thiserror::Error;

/// Why a call of a hall was refused.
///
/// `Memory` comes of arithmetic alone in nine places: `Bag::add`, three numbers of `Mailbox::reserve`, `post::count`,
/// `add_one`, `Answers::room`, `Task::copy`, and td_progress' `Held::come`. Each needs 2^57 things at least, in memory, in one
/// bag, or posted to one mailbox that was never empty in between. How much memory there is no contract knows.
#[derive(Clone, Copy, Debug, PartialEq, Eq, Error)]
pub enum HallError {
    /// The Done that is given is not of the task that is out at its shard.
    #[error("stranger")]
    Stranger,
    /// A task is out at the shard.
    #[error("busy")]
    Busy,
    /// The least released epoch that has not passed.
    #[error("epoch {0} has not passed")]
    NotPassed(u64),
    /// The inputs are closed.
    #[error("closed")]
    Closed,
    /// All numbers of epochs are used.
    #[error("epochs")]
    Epochs,
    /// An allocation was refused.
    #[error("memory")]
    Memory,
    /// There is something to take, and all numbers of tasks are used.
    #[error("spent")]
    Spent,
}

impl HallError {
    /// The refusal's number. 5 is not used.
    pub fn number(&self) -> u8
        ensures { result ≡ number_of self.now }
    {
        match self {
            HallError::Stranger => 1,
            HallError::Busy => 2,
            HallError::NotPassed(_) => 3,
            HallError::Closed => 4,
            HallError::Epochs => 6,
            HallError::Memory => 7,
            HallError::Spent => 8,
        }
    }
}

impl From<AllocError> for HallError {
    ghost from_gives = { λ _ e. e ≡ Memory };

    fn from(_error: AllocError) -> HallError {
        HallError::Memory
    }
}

impl<T: Drop> From<AllocFailed<T>> for HallError {
    ghost from_gives = { λ _ e. e ≡ Memory };

    fn from(_failed: AllocFailed<T>) -> HallError {
        HallError::Memory
    }
}

impl From<StampError> for HallError {
    ghost from_gives = { λ _ e. e ≡ Memory };

    fn from(_error: StampError) -> HallError {
        HallError::Memory
    }
}
