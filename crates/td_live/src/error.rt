// Why there is no snapshot.
ghost use Rattle.std.specs.Prelude.{◌≡◌};
ghost use Rattle.td_live.specs.declared.error.LiveError.TheVariants.{Memory as OfMemory, Device as OfDevice};

use std::alloc::AllocError;
use td_disk::Fault;
use thiserror::Error;

/// Why no snapshot of a disk was taken.
#[derive(Clone, Copy, Debug, PartialEq, Eq, Error)]
pub enum LiveError {
    /// No readings one after another gave the same bytes: the disk changes while it is read.
    #[error("busy")]
    Busy,
    /// Memory ran out.
    #[error("memory")]
    Memory,
    /// A read of the disk failed.
    #[error("device")]
    Device,
}

impl From<AllocError> for LiveError {
    ghost from_gives = { λ _ e. e ≡ OfMemory };

    fn from(_error: AllocError) -> LiveError {
        LiveError::Memory
    }
}

impl From<Fault> for LiveError {
    ghost from_gives = { λ _ e. e ≡ OfDevice };

    fn from(_fault: Fault) -> LiveError {
        LiveError::Device
    }
}
