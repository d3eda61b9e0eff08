// The refusals of a disk's calls and of making one.
ghost use Rattle.std.specs.Prelude.{◌≡◌};
ghost use Rattle.std.specs.IoError.{error_kind};
ghost use Rattle.td_disk.specs.MakeError.{number_of, refusal_of};
ghost use Rattle.td_disk.specs.declared.error.MakeError.TheVariants.{Memory};

use std::alloc::AllocError;
use std::io;
use thiserror::Error;

/// Why a call of a disk failed.
#[derive(Clone, Copy, Debug, PartialEq, Eq, Error)]
pub enum Fault {
    /// The device failed, and the disk's count of failures rose.
    #[error("device")]
    Device,
}

impl Fault {
    /// The refusal's number.
    pub fn number(&self) -> u8
        ensures { result ≡ 1 }
    {
        match self {
            Fault::Device => 1,
        }
    }
}

/// Why no disk was made.
///
/// No clause of std says which errors a file gives, so none here says when `create` and `open` refuse which.
#[derive(Clone, Copy, Debug, PartialEq, Eq, Error)]
pub enum MakeError {
    /// The file could not be made, opened, sized, synced or measured, or another has locked it.
    #[error("file")]
    File,
    /// Memory ran out.
    #[error("memory")]
    Memory,
}

impl MakeError {
    /// The refusal's number.
    pub fn number(&self) -> u8
        ensures { result ≡ number_of self.now }
    {
        match self {
            MakeError::File => 1,
            MakeError::Memory => 2,
        }
    }
}

impl From<AllocError> for MakeError {
    ghost from_gives = { λ _ e. e ≡ Memory };

    fn from(_error: AllocError) -> MakeError {
        MakeError::Memory
    }
}

/// What an error of the operating system of this kind is here.
fn of_kind(kind: io::ErrorKind) -> MakeError
    ensures { result ≡ refusal_of kind }
{
    match kind {
        io::ErrorKind::OutOfMemory => MakeError::Memory,
        _ => MakeError::File,
    }
}

impl From<io::Error> for MakeError {
    ghost from_gives = { λ e made. made ≡ refusal_of (error_kind e) };

    fn from(error: io::Error) -> MakeError {
        of_kind(error.kind())
    }
}
