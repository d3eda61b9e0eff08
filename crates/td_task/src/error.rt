//! The refusals.
ghost use Rattle.std.specs.Prelude.{◌≡◌};
ghost use Rattle.td_task.specs.Refusals.{number_of};
ghost use Rattle.td_task.specs.declared.error.TaskError.TheVariants.{Memory};

use std::alloc::{AllocError, AllocFailed};
use thiserror::Error;

/// Why a task was not run, or not made.
#[derive(Clone, Copy, Debug, PartialEq, Eq, Error)]
pub enum TaskError {
    /// The task's vertex, whose number this is, has a kind and a code for which no closure is stored.
    #[error("vertex {0}: no closure {1}")]
    NoCall(u8, u16),
    /// An allocation was refused.
    #[error("memory")]
    Memory,
}

impl TaskError {
    /// The refusal's number: 1 for a vertex without its closure, 2 for want of memory.
    pub fn number(&self) -> u8
        ensures { result ≡ number_of self.now }
    {
        match self {
            TaskError::NoCall(..) => 1,
            TaskError::Memory => 2,
        }
    }
}

impl From<AllocError> for TaskError {
    ghost from_gives = { λ _ e. e ≡ Memory };

    fn from(_error: AllocError) -> TaskError {
        TaskError::Memory
    }
}

impl<T: Drop> From<AllocFailed<T>> for TaskError {
    ghost from_gives = { λ _ e. e ≡ Memory };

    fn from(_error: AllocFailed<T>) -> TaskError {
        TaskError::Memory
    }
}
