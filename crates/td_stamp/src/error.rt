//! The one refusal.
ghost use Rattle.std.specs.Prelude.{◌≡◌};
ghost use Rattle.td_stamp.specs.declared.error.StampError.TheVariants.{Memory};

use std::alloc::{AllocError, AllocFailed};
use thiserror::Error;

/// Why a call that grows was refused.
#[derive(Clone, Copy, Debug, PartialEq, Eq, Error)]
pub enum StampError {
    /// An allocation was refused.
    #[error("memory")]
    Memory,
}

impl StampError {
    /// The refusal's number: 1 for want of memory.
    pub fn number(&self) -> u8
        ensures { result ≡ 1 }
    {
        match self {
            StampError::Memory => 1,
        }
    }
}

impl From<AllocError> for StampError {
    ghost from_gives = { λ _ e. e ≡ Memory };

    fn from(_error: AllocError) -> StampError {
        StampError::Memory
    }
}

impl<T: Drop> From<AllocFailed<T>> for StampError {
    ghost from_gives = { λ _ e. e ≡ Memory };

    fn from(_error: AllocFailed<T>) -> StampError {
        StampError::Memory
    }
}
