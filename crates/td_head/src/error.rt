// The refusals of heads.
ghost use Rattle.std.specs.Prelude.{◌≡◌};
ghost use Rattle.td_head.specs.declared.error.HeadError.TheVariants.{Device as DeviceFailed, Memory as OutOfMemory};
ghost use Rattle.td_head.specs.HeadError.{number_of, of_gate};

use std::alloc::AllocError;
use td_disk::Fault;
use td_gate::GateError;
use thiserror::Error;

/// Why a head was not read or written.
#[derive(Clone, Copy, Debug, PartialEq, Eq, Error)]
pub enum HeadError {
    /// No head is open that has the format's first four bytes, or the disk is too small for two heads.
    #[error("not formatted")]
    NotFormatted,
    /// The head has a field that no formatted disk has.
    #[error("damaged: head")]
    Damaged,
    /// The disk was formatted for another plan.
    #[error("another plan")]
    WrongPlan,
    /// The device failed, and its count of failures rose.
    #[error("device")]
    Device,
    /// Memory ran out.
    #[error("memory")]
    Memory,
    /// No generation follows that of the head, which is 2^64 - 1.
    #[error("last generation")]
    LastGeneration,
}

impl HeadError {
    /// The refusal's number.
    pub fn number(&self) -> u8
        ensures { result ≡ number_of self.now }
    {
        match self {
            HeadError::NotFormatted => 1,
            HeadError::Damaged => 2,
            HeadError::WrongPlan => 3,
            HeadError::Device => 4,
            HeadError::Memory => 5,
            HeadError::LastGeneration => 6,
        }
    }
}

impl From<Fault> for HeadError {
    ghost from_gives = { λ _ e. e ≡ DeviceFailed };

    fn from(_fault: Fault) -> HeadError {
        HeadError::Device
    }
}

impl From<AllocError> for HeadError {
    ghost from_gives = { λ _ e. e ≡ OutOfMemory };

    fn from(_error: AllocError) -> HeadError {
        HeadError::Memory
    }
}

impl From<GateError> for HeadError {
    ghost from_gives = { λ d e. e ≡ of_gate d };

    fn from(error: GateError) -> HeadError {
        match error {
            GateError::Device => HeadError::Device,
            GateError::Memory => HeadError::Memory,
        }
    }
}
