//! The refusals.
ghost use Rattle.std.specs.Prelude.{◌≡◌};
ghost use Rattle.td_calls.specs.Refusals.{number_of};

use thiserror::Error;

/// Why closures were not stored, or do not fit a plan.
#[derive(Clone, Copy, Debug, PartialEq, Eq, Error)]
pub enum CallsError {
    /// A closure of that kind and code is stored already.
    #[error("code used")]
    CodeUsed,
    /// The vertex with this number has a kind and a code for which no closure is stored.
    #[error("vertex {0}: no closure {1}")]
    NoCall(u8, u16),
    /// An allocation was refused.
    #[error("memory")]
    Memory,
}

impl CallsError {
    /// The refusal's number: 1 for a used code, 2 for a vertex without its closure, 3 for want of memory.
    pub fn number(&self) -> u8
        ensures { result ≡ number_of self.now }
    {
        match self {
            CallsError::CodeUsed => 1,
            CallsError::NoCall(..) => 2,
            CallsError::Memory => 3,
        }
    }
}
