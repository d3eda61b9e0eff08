//! What is told of a command that failed. The commands that td had from the first tell the fault alone, with one status; `stream`, `dump`,
//! `copy`, `states`, `load` and `show --live` tell its place and its cause too, where these are known, and these and `plan` have a status for each who is to do something.

use std::alloc::{AllocError, AllocFailed, Global};
use td_closures::Fault as ClosuresFault;
use td_console::Fault;
use td_disk::{Disk, FileFailure};
use td_plan::Plan;
use td_states::StatesError;
use td_store::copy::CopyError;
use td_store::standing::{KeeperError, recover_device};

/// Why a command failed.
#[derive(Debug, Drop)]
pub(crate) enum Refusal {
    /// The fault alone.
    Plain(Fault),
    /// The fault, and after it its place and its cause.
    At(Fault, String),
    /// The fault of closures in text, and after it the file and the line.
    Closures(ClosuresFault, String),
    /// What a copy has no room for, or that there is no such epoch, which its text says.
    Copy(CopyError),
    /// The fault of the new disk of a copy or a load.
    New(Fault),
    /// The fault of a line of a checkpoint in text, or of a list of renamed vertices.
    States(StatesError),
    /// A disk changes while it is read, as the place says, and is never at rest for long enough.
    Busy(String),
    /// The epochs under way take more work than a stream may do, of which this one is the first.
    TooMuchWork(u64),
}

impl From<Fault> for Refusal {
    fn from(fault: Fault) -> Refusal {
        Refusal::Plain(fault)
    }
}

impl From<AllocError> for Refusal {
    fn from(_error: AllocError) -> Refusal {
        Refusal::Plain(Fault::Memory)
    }
}

impl<T: Drop> From<AllocFailed<T>> for Refusal {
    fn from(_failed: AllocFailed<T>) -> Refusal {
        Refusal::Plain(Fault::Memory)
    }
}

impl From<CopyError> for Refusal {
    fn from(error: CopyError) -> Refusal {
        match error {
            CopyError::Keeper(error) => Refusal::Plain(Fault::from(error)),
            CopyError::New(error) => Refusal::New(Fault::from(error)),
            CopyError::Shape => Refusal::New(Fault::Shape),
            _ => Refusal::Copy(error),
        }
    }
}

impl From<StatesError> for Refusal {
    fn from(error: StatesError) -> Refusal {
        match error {
            StatesError::Line(..) | StatesError::Map => Refusal::States(error),
            StatesError::Input => Refusal::Plain(Fault::Input),
            StatesError::Memory => Refusal::Plain(Fault::Memory),
        }
    }
}

impl Refusal {
    /// A fault with its place and cause; alone, where there is no memory for these.
    pub(crate) fn at(alloc: Global, fault: Fault, cause: &str) -> Refusal {
        match String::from_str(alloc, cause) {
            Ok(cause) => Refusal::At(fault, cause),
            Err(_) => Refusal::Plain(fault),
        }
    }

    /// The line that is told.
    pub(crate) fn line(&self, alloc: Global) -> Result<String, AllocError> {
        let words = self.words(alloc)?;
        format!(in alloc; "td: {words}\n")
    }

    /// What is told, in which a control character, as a path may have, is a question mark.
    pub(crate) fn words(&self, alloc: Global) -> Result<String, AllocError> {
        let text = self.text(alloc)?;
        let mut words = String::new(alloc);
        for each in text.chars() {
            words.push(if each.is_control() { '?' } else { each })?;
        }
        Ok(words)
    }

    /// The same with control characters.
    fn text(&self, alloc: Global) -> Result<String, AllocError> {
        match self {
            Refusal::Plain(fault) | Refusal::New(fault) => format!(in alloc; "{fault}"),
            Refusal::At(fault, cause) => format!(in alloc; "{fault}: {cause}"),
            Refusal::Closures(fault, place) => format!(in alloc; "{fault}: {place}"),
            Refusal::Copy(error) => format!(in alloc; "{error}"),
            Refusal::States(error) => format!(in alloc; "{error}"),
            Refusal::Busy(place) => format!(in alloc; "busy: {place}"),
            Refusal::TooMuchWork(epoch) => format!(in alloc; "too much work: epoch {epoch}"),
        }
    }

    /// The exit status of a command that tells who is to do something: 3 the device failed, 4 an operator is wanted, 5 a line of
    /// the input, of the plan or of closures in text, 6 a standard stream, 7 a file, 8 too much work; 1 for all else. A supervisor
    /// that starts a stream again whatever its status would go on after a failed sync.
    pub(crate) fn status(&self) -> u8 {
        match self {
            Refusal::Plain(fault) | Refusal::New(fault) | Refusal::At(fault, _) => status_of(
                *fault,
            ),
            Refusal::Closures(..) | Refusal::States(_) => LINE,
            Refusal::Copy(_) => OPERATOR,
            Refusal::Busy(_) => ELSE,
            Refusal::TooMuchWork(_) => TOO_MUCH_WORK,
        }
    }

    /// The same with the path of the plan's file, where the plan's text is at fault.
    pub(crate) fn in_plan(self, alloc: Global, path: &str) -> Refusal {
        match self {
            Refusal::Plain(Fault::Plan(error)) => Refusal::at(alloc, Fault::Plan(error), path),
            refusal => refusal,
        }
    }

    /// The same with the path of the disk's file, where the disk is at fault; and where the device is, with the call of the file that
    /// failed and how, if that is known.
    pub(crate) fn on_disk(
        self,
        alloc: Global,
        path: &str,
        failure: Option<FileFailure>,
    ) -> Refusal {
        let Refusal::Plain(Fault::Keeper(error)) = self else {
            return self;
        };
        if !is_of_disk(error) {
            return Refusal::Plain(Fault::Keeper(error));
        }
        match failure {
            Some(failure) if error == KeeperError::Device => {
                match format!(in alloc; "{path}: {failure}") {
                    Ok(place) => Refusal::At(Fault::Keeper(error), place),
                    Err(_) => Refusal::Plain(Fault::Keeper(error)),
                }
            }
            _ => Refusal::at(alloc, Fault::Keeper(error), path),
        }
    }

    /// The same with what the disk has room for, where that is the cause.
    pub(crate) fn for_room<D: Disk>(self, alloc: Global, disk: &mut D, plan: &Plan) -> Refusal {
        let Refusal::Plain(Fault::Keeper(error)) = self else {
            return self;
        };
        match room_on(alloc, error, disk, plan) {
            Some(room) => Refusal::At(Fault::Keeper(error), room),
            None => Refusal::Plain(Fault::Keeper(error)),
        }
    }
}

/// The exit statuses of a fault, by who is to do something.
const ELSE: u8 = 1;

const DEVICE: u8 = 3;

const OPERATOR: u8 = 4;

const LINE: u8 = 5;

const STREAM: u8 = 6;

const FILE: u8 = 7;

const TOO_MUCH_WORK: u8 = 8;

/// The exit status of a fault.
fn status_of(fault: Fault) -> u8 {
    match fault {
        Fault::Keeper(error) => status_of_keeper(error),
        Fault::Shape => OPERATOR,
        Fault::Plan(_) | Fault::NoCall(..) | Fault::Line(..) | Fault::Picks => LINE,
        Fault::Input | Fault::Output => STREAM,
        Fault::File => FILE,
        Fault::Memory | Fault::Spent => ELSE,
    }
}

/// The exit status of a keeper's refusal.
fn status_of_keeper(error: KeeperError) -> u8 {
    match error {
        KeeperError::Device | KeeperError::Broken => DEVICE,
        KeeperError::TooManyRecords | KeeperError::NoSuchInput => LINE,
        KeeperError::NotFormatted
        | KeeperError::WrongPlan
        | KeeperError::Damaged(_)
        | KeeperError::Full
        | KeeperError::TooManyKeys
        | KeeperError::Epochs
        | KeeperError::OldVersion
        | KeeperError::LastGeneration => OPERATOR,
        KeeperError::Foreign
        | KeeperError::NotPassed(_)
        | KeeperError::CutWaiting
        | KeeperError::Memory => ELSE,
    }
}

/// Whether a keeper refused for its disk as it stands.
fn is_of_disk(error: KeeperError) -> bool {
    matches!(
        error,
        KeeperError::NotFormatted
            | KeeperError::WrongPlan
            | KeeperError::Damaged(_)
            | KeeperError::Device
    )
}

/// What a disk has room for, of that which a keeper refused; the disk is read for it.
fn room_on<D: Disk>(
    alloc: Global,
    error: KeeperError,
    disk: &mut D,
    plan: &Plan,
) -> Option<String> {
    if !matches!(
        error,
        KeeperError::Full | KeeperError::TooManyRecords | KeeperError::TooManyKeys
    ) {
        return None;
    }
    let Ok((_plan, told)) = recover_device(alloc, disk, plan) else {
        return None;
    };
    let shape = told.head.shape;
    let epochs = told.submitted.len() as u64;
    let next = told
        .checkpoint
        .epoch
        .saturating_add(epochs)
        .saturating_add(1);
    let records = shape.records();
    let cells = shape.cells();
    let states = shape.states();
    match error {
        KeeperError::Full => format!(in alloc; "epoch {next}, N is {cells}").ok(),
        KeeperError::TooManyRecords => format!(in alloc; "epoch {next}, M is {records}").ok(),
        _ => format!(in alloc; "K is {states}").ok(),
    }
}
