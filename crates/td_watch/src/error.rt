//! The one refusal.
ghost use Rattle.std.specs.Prelude.{◌≡◌};
ghost use Rattle.td_watch.specs.declared.error.WatchError.TheVariants.{Memory};

use std::alloc::{AllocError, AllocFailed};
use thiserror::Error;

/// Why [`Watch::new`](crate::Watch::new) made no watch.
#[derive(Clone, Copy, Debug, PartialEq, Eq, Error)]
pub enum WatchError {
    /// An allocation was refused.
    #[error("memory")]
    Memory,
}

impl WatchError {
    /// The refusal's number: 1 for want of memory.
    pub fn number(&self) -> u8
        ensures { result ≡ 1 }
    {
        match self {
            WatchError::Memory => 1,
        }
    }
}

impl From<AllocError> for WatchError {
    ghost from_gives = { λ _ e. e ≡ Memory };

    fn from(_error: AllocError) -> WatchError {
        WatchError::Memory
    }
}

impl<T: Drop> From<AllocFailed<T>> for WatchError {
    ghost from_gives = { λ _ e. e ≡ Memory };

    fn from(_error: AllocFailed<T>) -> WatchError {
        WatchError::Memory
    }
}
