//! Why a command was not done.
use std::alloc::{AllocError, AllocFailed};
use std::io;
use td_core::HallError;
use td_disk::{Fault, MakeError};
use td_gate::GateError;
use td_journal::JournalError;
use td_stamp::StampError;
use td_store::standing::KeeperError;
use td_task::TaskError;
use td_watch::WatchError;

/// Why a command was not done. That a call was refused is an answer.
#[derive(Debug, Drop)]
pub(crate) enum StepError {
    /// An allocation was refused: the command may be done again.
    Memory,
    /// There is no line `--`, no plan before it, or a line after it is no command.
    Syntax,
    /// No hall was opened.
    NoHall,
    /// There is no disk.
    NoDisk,
    /// No keeper has the disk.
    NoKeeper,
    /// No ring was opened.
    NoRing,
    /// No table was opened.
    NoTable,
    /// A hall refused.
    Hall(HallError),
    /// A task was not run.
    Task(TaskError),
    /// A keeper refused.
    Keeper(KeeperError),
    /// A region was not read.
    Region(GateError),
    /// A ring refused.
    Ring(JournalError),
    /// What a call answered is not what it was asked for.
    Unlike,
    /// Standard input or standard output failed.
    Stream,
}

impl From<AllocError> for StepError {
    fn from(_error: AllocError) -> StepError {
        StepError::Memory
    }
}

impl<T: Drop> From<AllocFailed<T>> for StepError {
    fn from(_failed: AllocFailed<T>) -> StepError {
        StepError::Memory
    }
}

impl From<StampError> for StepError {
    fn from(_error: StampError) -> StepError {
        StepError::Memory
    }
}

impl From<HallError> for StepError {
    fn from(error: HallError) -> StepError {
        match error {
            HallError::Memory => StepError::Memory,
            error => StepError::Hall(error),
        }
    }
}

impl From<TaskError> for StepError {
    fn from(error: TaskError) -> StepError {
        match error {
            TaskError::Memory => StepError::Memory,
            error => StepError::Task(error),
        }
    }
}

impl From<KeeperError> for StepError {
    fn from(refusal: KeeperError) -> StepError {
        match refusal {
            KeeperError::Memory => StepError::Memory,
            refusal => StepError::Keeper(refusal),
        }
    }
}

impl From<GateError> for StepError {
    fn from(error: GateError) -> StepError {
        match error {
            GateError::Memory => StepError::Memory,
            error => StepError::Region(error),
        }
    }
}

impl From<JournalError> for StepError {
    fn from(error: JournalError) -> StepError {
        match error {
            JournalError::Memory => StepError::Memory,
            error => StepError::Ring(error),
        }
    }
}

/// A disk in memory that was made for this fails where its record of calls may not grow.
impl From<Fault> for StepError {
    fn from(_fault: Fault) -> StepError {
        StepError::Memory
    }
}

impl From<WatchError> for StepError {
    fn from(_error: WatchError) -> StepError {
        StepError::Memory
    }
}

impl From<MakeError> for StepError {
    fn from(_error: MakeError) -> StepError {
        StepError::Memory
    }
}

impl From<io::Error> for StepError {
    fn from(error: io::Error) -> StepError {
        match error.kind() {
            io::ErrorKind::OutOfMemory => StepError::Memory,
            _ => StepError::Stream,
        }
    }
}
