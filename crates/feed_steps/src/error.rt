//! Why a command was not done.
use std::alloc::{AllocError, AllocFailed};
use std::io;
use td_console::Fault;
use td_disk::MakeError;
use td_stamp::StampError;
use td_store::standing::KeeperError;

/// Why a command was not done.
#[derive(Debug, Drop)]
pub(crate) enum StepError {
    /// An allocation was refused: the command may be done again.
    Memory,
    /// There is no line `--`, no plan before it, or a line after it is no command.
    Syntax,
    /// There is no disk.
    NoDisk,
    /// A keeper or an engine refused: an answer.
    Refused(Fault),
    /// Standard input or standard output failed.
    Stream,
}

impl From<AllocError> for StepError {
    fn from(_error: AllocError) -> StepError {
        StepError::Memory
    }
}

impl<T: Drop> From<AllocFailed<T>> for StepError {
    fn from(_failed: AllocFailed<T>) -> StepError {
        StepError::Memory
    }
}

impl From<StampError> for StepError {
    fn from(_error: StampError) -> StepError {
        StepError::Memory
    }
}

/// A disk in memory that was made for this fails where its record of calls may not grow.
impl From<td_disk::Fault> for StepError {
    fn from(_fault: td_disk::Fault) -> StepError {
        StepError::Memory
    }
}

impl From<MakeError> for StepError {
    fn from(_error: MakeError) -> StepError {
        StepError::Memory
    }
}

impl From<KeeperError> for StepError {
    fn from(refusal: KeeperError) -> StepError {
        match refusal {
            KeeperError::Memory => StepError::Memory,
            refusal => StepError::Refused(Fault::Keeper(refusal)),
        }
    }
}

impl From<Fault> for StepError {
    fn from(fault: Fault) -> StepError {
        match fault {
            Fault::Memory => StepError::Memory,
            fault => StepError::Refused(fault),
        }
    }
}

impl From<io::Error> for StepError {
    fn from(error: io::Error) -> StepError {
        match error.kind() {
            io::ErrorKind::OutOfMemory => StepError::Memory,
            _ => StepError::Stream,
        }
    }
}
