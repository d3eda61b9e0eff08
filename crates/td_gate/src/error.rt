// The refusals of reading a region.
ghost use Rattle.std.specs.Prelude.{◌≡◌};
ghost use Rattle.td_gate.specs.GateError.{number_of};
ghost use Rattle.td_gate.specs.declared.error.GateError.TheVariants.{Device as DeviceFailed, Memory as OutOfMemory};

use std::alloc::AllocError;
use td_disk::Fault;
use thiserror::Error;

/// Why a region could not be read.
#[derive(Clone, Copy, Debug, PartialEq, Eq, Error)]
pub enum GateError {
    /// The device failed, and its count of failures rose.
    #[error("device")]
    Device,
    /// Memory ran out.
    #[error("memory")]
    Memory,
}

impl GateError {
    /// The refusal's number.
    pub fn number(&self) -> u8
        ensures { result ≡ number_of self.now }
    {
        match self {
            GateError::Device => 1,
            GateError::Memory => 2,
        }
    }
}

impl From<Fault> for GateError {
    ghost from_gives = { λ _ e. e ≡ DeviceFailed };

    fn from(_fault: Fault) -> GateError {
        GateError::Device
    }
}

impl From<AllocError> for GateError {
    ghost from_gives = { λ _ e. e ≡ OutOfMemory };

    fn from(_error: AllocError) -> GateError {
        GateError::Memory
    }
}
