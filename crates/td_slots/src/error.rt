// The refusals of slots.
ghost use Rattle.std.specs.Prelude.{◌≡◌};
ghost use Rattle.td_slots.specs.declared.error.SlotsError.TheVariants.{Device as DeviceFailed, Memory as OutOfMemory};
ghost use Rattle.td_slots.specs.SlotsError.{number_of, of_gate};

use std::alloc::AllocError;
use td_disk::Fault;
use td_gate::GateError;
use td_stamp::StampError;
use thiserror::Error;

/// Why a slot was not read or written.
#[derive(Clone, Copy, Debug, PartialEq, Eq, Error)]
pub enum SlotsError {
    /// There are more states than a slot holds.
    #[error("too many keys")]
    TooManyKeys,
    /// The slot is open and holds no states of the plan.
    #[error("damaged: slot {0}")]
    Damaged(u8),
    /// No slot is open.
    #[error("damaged: no slot")]
    NoSlot,
    /// The device failed, and its count of failures rose.
    #[error("device")]
    Device,
    /// Memory ran out.
    #[error("memory")]
    Memory,
}

impl SlotsError {
    /// The refusal's number.
    pub fn number(&self) -> u8
        ensures { result ≡ number_of self.now }
    {
        match self {
            SlotsError::TooManyKeys => 1,
            SlotsError::Damaged(_) => 2,
            SlotsError::NoSlot => 3,
            SlotsError::Device => 4,
            SlotsError::Memory => 5,
        }
    }
}

impl From<Fault> for SlotsError {
    ghost from_gives = { λ _ e. e ≡ DeviceFailed };

    fn from(_fault: Fault) -> SlotsError {
        SlotsError::Device
    }
}

impl From<AllocError> for SlotsError {
    ghost from_gives = { λ _ e. e ≡ OutOfMemory };

    fn from(_error: AllocError) -> SlotsError {
        SlotsError::Memory
    }
}

impl From<GateError> for SlotsError {
    ghost from_gives = { λ d e. e ≡ of_gate d };

    fn from(error: GateError) -> SlotsError {
        match error {
            GateError::Device => SlotsError::Device,
            GateError::Memory => SlotsError::Memory,
        }
    }
}

impl From<StampError> for SlotsError {
    ghost from_gives = { λ _ e. e ≡ OutOfMemory };

    fn from(_error: StampError) -> SlotsError {
        SlotsError::Memory
    }
}
