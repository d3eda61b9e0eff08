// The refusals of a keeper.
ghost use Rattle.std.specs.Prelude.{◌≡◌, Some};
ghost use Rattle.td_store.specs.standing.Refusals.{number_of, part_text, refusal_text, of_head, of_slots, of_journal};
ghost use Rattle.td_store.specs.declared.standing.error.KeeperError.TheVariants.{Memory as OutOfMemory, Device as DeviceFailed};

use std::alloc::{AllocError, AllocFailed};
use std::error::Error;
use std::fmt;
use td_disk::Fault;
use td_head::HeadError;
use td_journal::JournalError;
use td_slots::SlotsError;
use td_stamp::StampError;

/// A part of a disk.
#[derive(Clone, Copy, Debug, PartialEq, Eq)]
pub enum Part {
    /// The head.
    Head,
    /// Both slots: none is open.
    NoSlot,
    /// A slot.
    Slot(u8),
    /// A cell.
    Cell(u32),
}

impl fmt::Display for Part {
    ghost output = { λ p. Some (part_text p) };

    fn fmt<W: fmt::Write>(&self, f: &mut fmt::Formatter<W>) -> fmt::Result {
        match self {
            Part::Head => write!(f, "head"),
            Part::NoSlot => write!(f, "no slot"),
            Part::Slot(side) => write!(f, "slot {side}"),
            Part::Cell(cell) => write!(f, "cell {cell}"),
        }
    }
}

/// Why a keeper refused.
#[derive(Clone, Copy, Debug, PartialEq, Eq)]
pub enum KeeperError {
    /// The disk has no head, or is too small for one.
    NotFormatted,
    /// The disk was formatted for another plan.
    WrongPlan,
    /// A part of the disk has what no keeper writes there.
    Damaged(Part),
    /// No cell of the journal is free.
    Full,
    /// The batch has more records than a cell holds.
    TooManyRecords,
    /// A record of the batch names no input of the plan.
    NoSuchInput,
    /// The hall is not one of this keeper's.
    Foreign,
    /// This released epoch has not passed.
    NotPassed(u64),
    /// A cut waits to be written.
    CutWaiting,
    /// There are more states than a slot holds.
    TooManyKeys,
    /// The device failed in an earlier call that writes.
    Broken,
    /// The device failed, and its count of failures rose.
    Device,
    /// Memory ran out.
    Memory,
    /// The greatest epoch is reached.
    Epochs,
    /// The disk is of version 1 of the format, which has no request numbers.
    OldVersion,
    /// No generation follows that of the head.
    LastGeneration,
}

impl KeeperError {
    /// The refusal's number, 1 to 16, in the order in which they are declared.
    pub fn number(&self) -> u8
        ensures { result ≡ number_of self.now }
    {
        match self {
            KeeperError::NotFormatted => 1,
            KeeperError::WrongPlan => 2,
            KeeperError::Damaged(_) => 3,
            KeeperError::Full => 4,
            KeeperError::TooManyRecords => 5,
            KeeperError::NoSuchInput => 6,
            KeeperError::Foreign => 7,
            KeeperError::NotPassed(_) => 8,
            KeeperError::CutWaiting => 9,
            KeeperError::TooManyKeys => 10,
            KeeperError::Broken => 11,
            KeeperError::Device => 12,
            KeeperError::Memory => 13,
            KeeperError::Epochs => 14,
            KeeperError::OldVersion => 15,
            KeeperError::LastGeneration => 16,
        }
    }
}

impl fmt::Display for KeeperError {
    ghost output = { λ e. Some (refusal_text e) };

    fn fmt<W: fmt::Write>(&self, f: &mut fmt::Formatter<W>) -> fmt::Result {
        match self {
            KeeperError::NotFormatted => write!(f, "not formatted"),
            KeeperError::WrongPlan => write!(f, "another plan"),
            KeeperError::Damaged(part) => write!(f, "damaged: {part}"),
            KeeperError::Full => write!(f, "journal full"),
            KeeperError::TooManyRecords => write!(f, "too many records"),
            KeeperError::NoSuchInput => write!(f, "no such input"),
            KeeperError::Foreign => write!(f, "foreign hall"),
            KeeperError::NotPassed(epoch) => write!(f, "epoch {epoch} not passed"),
            KeeperError::CutWaiting => write!(f, "cut waiting"),
            KeeperError::TooManyKeys => write!(f, "too many keys"),
            KeeperError::Broken => write!(f, "broken"),
            KeeperError::Device => write!(f, "device"),
            KeeperError::Memory => write!(f, "memory"),
            KeeperError::Epochs => write!(f, "no more epochs"),
            KeeperError::OldVersion => write!(f, "old version"),
            KeeperError::LastGeneration => write!(f, "last generation"),
        }
    }
}

impl Error for KeeperError {}

impl From<Fault> for KeeperError {
    ghost from_gives = { λ _ e. e ≡ DeviceFailed };

    fn from(_fault: Fault) -> KeeperError {
        KeeperError::Device
    }
}

impl From<AllocError> for KeeperError {
    ghost from_gives = { λ _ e. e ≡ OutOfMemory };

    fn from(_error: AllocError) -> KeeperError {
        KeeperError::Memory
    }
}

impl<T: Drop> From<AllocFailed<T>> for KeeperError {
    ghost from_gives = { λ _ e. e ≡ OutOfMemory };

    fn from(_failed: AllocFailed<T>) -> KeeperError {
        KeeperError::Memory
    }
}

impl From<StampError> for KeeperError {
    ghost from_gives = { λ _ e. e ≡ OutOfMemory };

    fn from(_error: StampError) -> KeeperError {
        KeeperError::Memory
    }
}

impl From<HeadError> for KeeperError {
    ghost from_gives = { λ d e. e ≡ of_head d };

    fn from(error: HeadError) -> KeeperError {
        match error {
            HeadError::NotFormatted => KeeperError::NotFormatted,
            HeadError::Damaged => KeeperError::Damaged(Part::Head),
            HeadError::WrongPlan => KeeperError::WrongPlan,
            HeadError::Device => KeeperError::Device,
            HeadError::Memory => KeeperError::Memory,
            HeadError::LastGeneration => KeeperError::LastGeneration,
        }
    }
}

impl From<SlotsError> for KeeperError {
    ghost from_gives = { λ d e. e ≡ of_slots d };

    fn from(error: SlotsError) -> KeeperError {
        match error {
            SlotsError::TooManyKeys => KeeperError::TooManyKeys,
            SlotsError::Damaged(side) => KeeperError::Damaged(Part::Slot(side)),
            SlotsError::NoSlot => KeeperError::Damaged(Part::NoSlot),
            SlotsError::Device => KeeperError::Device,
            SlotsError::Memory => KeeperError::Memory,
        }
    }
}

impl From<JournalError> for KeeperError {
    ghost from_gives = { λ d e. e ≡ of_journal d };

    fn from(error: JournalError) -> KeeperError {
        match error {
            JournalError::Full => KeeperError::Full,
            JournalError::TooManyRecords => KeeperError::TooManyRecords,
            JournalError::Damaged(cell) => KeeperError::Damaged(Part::Cell(cell)),
            JournalError::Device => KeeperError::Device,
            JournalError::Memory => KeeperError::Memory,
        }
    }
}
