//! The refusals.
ghost use Rattle.std.specs.Prelude.{◌≡◌};
ghost use Rattle.td_pool.specs.Refusals.{number_of, of_run};

use td_core::HallError;
use td_task::TaskError;
use thiserror::Error;

/// Why a pool refused.
#[derive(Clone, Copy, Debug, PartialEq, Eq, Error)]
pub enum PoolError {
    /// Seats are missing, or one holds a task, or a task that was run and not given.
    #[error("not all seats are there and free")]
    NotAll,
    /// The vertex of a task, whose number this is, has a kind and a code for which no closure is stored.
    #[error("vertex {0}: no closure {1}")]
    NoCall(u8, u16),
    /// The hall refused a take or a give.
    #[error("hall: {0}")]
    Hall(HallError),
    /// An allocation was refused.
    #[error("memory")]
    Memory,
}

impl PoolError {
    /// The refusal's number.
    pub fn number(&self) -> u8
        ensures { result ≡ number_of self.now }
    {
        match self {
            PoolError::NotAll => 1,
            PoolError::NoCall(..) => 2,
            PoolError::Hall(_) => 3,
            PoolError::Memory => 4,
        }
    }
}

impl From<TaskError> for PoolError {
    ghost from_gives = { λ refused e. e ≡ of_run refused };

    fn from(error: TaskError) -> PoolError {
        match error {
            TaskError::NoCall(vertex, code) => PoolError::NoCall(vertex, code),
            TaskError::Memory => PoolError::Memory,
        }
    }
}
