//! What stands around a stream beside its disk, its input and its output.
//!
//! A stream knows no files and no threads. What it has to say beside its lines, and where a copy of its disk goes, is its host's. So
//! clauses say of any host which copies it is given to keep.
ghost use Rattle.std.specs.Prelude.{◌≡◌, ℕ, [], ◌∷◌, List, Option, Some, None};
ghost use Rattle.td_feed.specs.Copied.{Copied, with_copies, why_text};

use std::alloc::{AllocError, AllocFailed, Global};
use std::fmt;
use td_disk::{Disk, MemoryDisk};
use td_orders::{CopyTo, FileName};
use td_store::copy::CopyError;

/// Why a copy was not made.
#[derive(Debug, Drop)]
pub enum Why {
    /// An allocation was refused.
    Memory,
    /// What this text says.
    Because(String),
}

impl From<AllocError> for Why {
    fn from(_error: AllocError) -> Why {
        Why::Memory
    }
}

impl<T: Drop> From<AllocFailed<T>> for Why {
    fn from(_failed: AllocFailed<T>) -> Why {
        Why::Memory
    }
}

impl fmt::Display for Why {
    ghost output = { λ w. Some (why_text w) };

    fn fmt<W: fmt::Write>(&self, f: &mut fmt::Formatter<W>) -> fmt::Result {
        match self {
            Why::Memory => write!(f, "memory"),
            Why::Because(text) => write!(f, "{text}"),
        }
    }
}

/// What a stream is told by and asks of the program that runs it. It is told which epoch the consumer saw last, and keeps copies of the
/// disk.
pub trait Host {
    /// The disk of a copy.
    type New: Disk + Drop;

    /// The last epoch that it was told to be seen, if it was told one.
    ghost seen: { Self → Option ℕ };

    /// The copies that it keeps, where they are known.
    ghost copies: { Self → Option (List (Copied Self.New)) };

    /// The consumer has seen all epochs up to this one.
    fn tell_seen(&mut self, epoch: u64)
        ensures seen { seen self.new ≡ Some epoch }
        ensures copies { copies self.new ≡ copies self.old };

    /// Makes the disk of a copy, in a file of its name, where there is none. Refusal: why not.
    fn make(&mut self, alloc: Global, copy: &CopyTo) -> Result<Self::New, Why>
        ensures seen { seen self.new ≡ seen self.old }
        ensures copies { copies self.new ≡ copies self.old };

    /// Keeps a copy that was made: its disk has what the stream's has up to this epoch.
    fn keep(&mut self, name: &FileName, epoch: u64, disk: Self::New)
        ensures seen { seen self.new ≡ seen self.old }
        ensures copies { copies self.new ≡ with_copies (copies self.old) (record { name = name.now; epoch = epoch; disk = disk } ∷ []) };

    /// Takes away the disk of a copy that was made last, and refused what was put on it. Answers why, in words.
    fn give_up(&mut self, alloc: Global, refusal: CopyError) -> Why
        ensures seen { seen self.new ≡ seen self.old }
        ensures copies { copies self.new ≡ copies self.old };
}

/// No host: nobody is told what was seen, and no copies are made.
#[derive(Drop)]
pub struct NoHost {
    seen: Option<u64>,
}

impl NoHost {
    /// Nothing was told.
    pub fn new() -> NoHost {
        NoHost { seen: None }
    }
}

impl Host for NoHost {
    type New = MemoryDisk;

    ghost seen = { λ h. h.seen };

    ghost copies = { λ _. None };

    fn tell_seen(&mut self, epoch: u64) {
        self.seen = Some(epoch);
    }

    fn make(&mut self, alloc: Global, _copy: &CopyTo) -> Result<MemoryDisk, Why> {
        Err(Why::Because(String::from_str(alloc, "no folder")?))
    }

    fn keep(&mut self, _name: &FileName, _epoch: u64, _disk: MemoryDisk) {}

    fn give_up(&mut self, alloc: Global, _refusal: CopyError) -> Why {
        Why::Because(String::new(alloc))
    }
}
