//! What a reading of a ring keeps of an epoch.
//!
//! One loop reads a ring (`read_each`), and one sweep a payload, with the last record alone in its hand. What takes the records
//! is a type parameter. So what is valid, which refusal comes first and where the list ends is written and proved once. All
//! answers are functions of one definition's list (`told_after`).
ghost use Rattle.std.specs.Prelude.{◌≡◌};
ghost use Rattle.td_journal.specs.Counts.{counts_of};

use crate::payload::{Counts, Submitted};
use std::alloc::{AllocError, Global};
use td_gate::fields::Front;
use td_stamp::{Bag, Entry};

/// What takes the records of an epoch, one after the other, and makes of them what is kept of it.
pub(crate) trait Keeping: Drop {
    ghost use Rattle.std.specs.Prelude.{◌≡◌, ◌++◌, [], ◌∷◌, List, length, true, IfOk, OnOk};
    ghost use Rattle.td_stamp.specs.declared.values.Entry.{Entry};
    ghost use Rattle.td_journal.specs.declared.payload.Submitted.{Submitted};
    ghost use Rattle.td_journal.specs.Parsed.{are_in_order};

    /// What is kept of an epoch.
    type Kept: Drop;

    /// What that is of what was submitted.
    ghost kept_of: { Submitted → Self.Kept };

    /// These records were taken.
    ghost Took: { Self → List Entry → Type 0 };

    /// Before the first of so many records. It refuses want of memory alone.
    fn begin(alloc: Global, count: u32) -> Result<Self, AllocError>
        ensures { IfOk result (λ keeping. Took keeping []) };

    /// Takes one record more. It refuses want of memory alone.
    fn take(&mut self, entry: Entry) -> Result<(), AllocError>
        ensures { OnOk result ((es : List Entry) → Took self.old es → Took self.new (es ++ entry ∷ [])) };

    /// What is kept, after the last of the records of this front, which came in order.
    fn end(self, alloc: Global, front: &Front) -> Self::Kept
        ensures { (es : List Entry) → Took self es → are_in_order es ≡ true → length es ≡ front.now.count
            → result ≡ kept_of (record { request = front.now.request; batch = es }) };

    /// The request number of what is kept.
    fn request(kept: &Self::Kept) -> u64
        ensures { (s : Submitted) → kept_of s ≡ kept.now → result ≡ s.request };
}

/// Keeps what was submitted: these are the records taken so far.
impl Keeping for Vec<Entry> {
    type Kept = Submitted;

    ghost kept_of = { λ s. s };

    ghost Took = { λ taken es. taken.items ≡ es };

    fn begin(alloc: Global, count: u32) -> Result<Self, AllocError> {
        Vec::with_capacity(alloc, count as usize)
    }

    fn take(&mut self, entry: Entry) -> Result<(), AllocError> {
        self.push(entry)?;
        Ok(())
    }

    fn end(self, alloc: Global, front: &Front) -> Submitted {
        let batch = Bag::from_vec(alloc, self);
        Submitted {
            request: front.request,
            batch,
        }
    }

    fn request(kept: &Submitted) -> u64 {
        kept.request
    }
}

/// Keeps the counts alone.
#[derive(Drop)]
pub(crate) struct Counting;

impl Keeping for Counting {
    type Kept = Counts;

    ghost kept_of = { counts_of };

    ghost Took = { λ _ _. Unit {0} };

    fn begin(_alloc: Global, _count: u32) -> Result<Self, AllocError> {
        Ok(Counting)
    }

    fn take(&mut self, _entry: Entry) -> Result<(), AllocError> {
        Ok(())
    }

    fn end(self, _alloc: Global, front: &Front) -> Counts {
        Counts {
            request: front.request,
            records: front.count,
        }
    }

    fn request(kept: &Counts) -> u64 {
        kept.request
    }
}
