//! A ring of cells.
ghost use Rattle.std.specs.Prelude.{◌≡◌, ◌↔◌, ◌+◌, ◌-◌, ◌^◌, ◌<◌, ◌≤◌, length, OnOk, IfOk, IfErr, IfSome, IsErrOf, IsTrue};
ghost use Rattle.td_disk.specs.Calls.{KeepsDevice};
ghost use Rattle.td_disk.specs.Disk.{CountsDevice};
ghost use Rattle.td_gate.specs.Reads.{IsRead};
ghost use Rattle.td_gate.specs.Reading.{Each};
ghost use Rattle.td_gate.specs.Steps.{WritesNothing, ReadsAsBefore, StaysDurable};
ghost use Rattle.td_journal.specs.Cell.{cell_of, cell_len, ring_len, cell_bytes, FitsEntry};
ghost use Rattle.td_journal.specs.Counts.{counts_of};
ghost use Rattle.td_journal.specs.Ring.{found};
ghost use Rattle.td_journal.specs.Parsed.{IsKept, IsDamage, Told};
ghost use Rattle.td_journal.specs.Refusals.{IsFailureOr, IsMemory, IsMemoryOrDevice};
ghost use Rattle.td_journal.specs.Steps.{HasRing, MayReadFrom, FitsRing, MayBeTold, RingTells, RingRefuses, IsKeptOfRing};
ghost use Rattle.td_journal.specs.Steps.{HasRing, ClearsSafely, LeavesGone, PutsEpoch, RefusesAppend};

use crate::error::JournalError;
use crate::kept::{Counting, Keeping};
use crate::payload::{Counts, ENTRY_LEN, Submitted, cell_payload, floor_past, kept_by};
use std::alloc::Global;
use td_disk::Disk;
use td_gate::Region;
use td_gate::fields::{FRONT_LEN, u64_at};
use td_stamp::{Batch, EPOCHS_END, Entry};

/// `n` cells from the offset `at` on, each for a batch of at most `m` records. Epoch e stands in cell `e mod n`. The
/// epochs up to `kept` may be overwritten.
#[derive(Clone, Copy, Debug, PartialEq, Eq)]
pub struct Journal {
    pub at: u64,
    pub m: u32,
    pub n: u32,
    pub kept: u64,
}

impl Journal {
    /// From now on the epochs up to this one may be overwritten, by `append`.
    pub fn keep(&mut self, epoch: u64)
        requires { self.old.kept ≤ epoch }
        ensures { self.new ≡ record self.old { kept = epoch } }
    {
        self.kept = epoch;
    }

    /// The cell of an epoch.
    pub fn cell_of(&self, epoch: u64) -> Region
        requires { HasRing self.now (2 ^ 64) }
        ensures region { result ≡ cell_of self.now epoch }
        ensures within { result.at + result.len + 1 ≤ self.now.at + ring_len self.now.m self.now.n }
    {
        let len = (FRONT_LEN + ENTRY_LEN * self.m as usize) as u64;
        Region {
            at: self.at + epoch % u64::from(self.n) * (len + 1),
            len,
        }
    }

    /// What is written into the cell of an epoch for its request number (0 for none) and its batch, which has to have
    /// at most `m` records. It refuses `Memory` alone.
    pub fn payload(
        &self,
        alloc: Global,
        epoch: u64,
        request: u64,
        batch: &Batch,
    ) -> Result<Vec<u8>, JournalError>
        requires records { self.now.m ≤ 65536 }
        requires few { length batch.now ≤ self.now.m }
        ensures ok { IfOk result (λ payload. payload.items ≡ cell_bytes self.now.m epoch request batch.now) }
        ensures fits { IfOk result (λ _. Each FitsEntry batch.now) }
        ensures err { IfErr result (λ e. e ≡ JournalError.Memory) }
    {
        Ok(cell_payload(alloc, self.m, epoch, request, batch)?)
    }

    /// Closes the cell of an epoch where it is open and bears that epoch, and writes nothing else. Of the cell it reads
    /// the gate and the epoch's eight bytes. It refuses `Memory` before it has written, and `Device`.
    ///
    /// A cell that bears the epoch after the next one would count once the next one is put. No run from a format leaves such a
    /// cell, but a lawful disk may hold it. So a caller that puts an epoch clears the cell behind first, valid or not: one that
    /// is not valid would make the disk damaged. It is no part of `append`, whose clause is on one cell and whose want of memory
    /// comes before any write.
    pub fn clear<D: Disk>(
        &self,
        alloc: Global,
        device: &mut D,
        epoch: u64,
    ) -> Result<(), JournalError>
        requires ring { HasRing self.now (D.view device.old).capacity }
        ensures refusals { IfErr result IsMemoryOrDevice }
        ensures device { KeepsDevice D.view JournalError.Device result device.old device.new }
        ensures crash_safe { ClearsSafely D.view self.now epoch device.old device.new }
        ensures unwritten { IsErrOf result JournalError.Memory → WritesNothing D.view device.old device.new }
        ensures same { IsErrOf result JournalError.Memory → ReadsAsBefore D.view device.old device.new }
        ensures durable { IfErr result IsMemory → StaysDurable D.view device.old device.new }
        ensures gone { OnOk result (LeavesGone D.view self.now epoch device.old device.new) }
    {
        if EPOCHS_END <= epoch {
            return Ok(());
        }
        let _size = device.size();
        let cell = self.cell_of(epoch);
        let Some(number) = cell.get_start(alloc, device, 8)? else {
            return Ok(());
        };
        if u64_at(&number, 0) != epoch {
            return Ok(());
        }
        cell.shut(device)?;
        Ok(())
    }

    /// What is kept of what the ring has for an epoch, where the epochs before it have this floor: of what was submitted
    /// as it, or nothing. `bytes` has room for a cell's payload and its gate, and any bytes before and after. It refuses `Damaged`,
    /// `Device` and `Memory`.
    fn kept_at<K: Keeping, D: Disk>(
        &self,
        alloc: Global,
        device: &mut D,
        inputs: &[u8],
        floor: Option<u64>,
        epoch: u64,
        bytes: &mut [u8],
    ) -> Result<Option<K::Kept>, JournalError>
        requires ring { HasRing self.now (D.view device.old).capacity }
        requires len { length bytes.old ≡ cell_len self.now.m + 1 }
        ensures found { IfOk result (λ kept. IsKept K.kept_of inputs.now
            (λ f. (D.view device.old).lawful → found inputs.now self.now (D.view device.old).state.bytes floor epoch ≡ f) kept) }
        ensures small { IfOk result (λ kept. IfSome kept (λ _. epoch < 2 ^ 63)) }
        ensures refused { IfErr result (λ e. IsFailureOr ((D.view device.old).lawful
            → IsDamage e (found inputs.now self.now (D.view device.old).state.bytes floor epoch)) e) }
        ensures failures { CountsDevice result JournalError.Device (D.view device.old).failures (D.view device.new).failures }
        ensures read { IsRead D.view device.old device.new }
    {
        if EPOCHS_END <= epoch {
            return Ok(None);
        }
        let _size = device.size();
        let cell = self.cell_of(epoch);
        // One call reads the whole cell, also one that is closed or bears another epoch: such a cell ends the list, so that a recovery
        // reads one of them at most.
        if !cell.get_into(device, bytes)? {
            return Ok(None);
        }
        let payload = &bytes[..cell.len as usize];
        if u64_at(payload, 0) != epoch {
            return Ok(None);
        }
        match kept_by::<K>(alloc, inputs, floor, self.m, payload)? {
            Some(kept) => Ok(Some(kept)),
            None => Err(JournalError::Damaged((epoch % u64::from(self.n)) as u32)),
        }
    }

    /// What is kept of what was submitted as the epochs after a checkpoint's: of what `read_from` gives, whose refusals
    /// it has.
    fn read_each<K: Keeping, D: Disk>(
        &self,
        alloc: Global,
        device: &mut D,
        inputs: &[u8],
        checkpoint: u64,
        floor: Option<u64>,
    ) -> Result<Vec<K::Kept>, JournalError>
        requires ring { MayReadFrom self.now (D.view device.old).capacity checkpoint }
        ensures told { IfOk result (λ kept. IsKeptOfRing D.view K.kept_of inputs.now self.now floor checkpoint kept.items device.old) }
        ensures fits { IfOk result (λ kept. FitsRing self.now checkpoint (length kept.items)) }
        ensures refused { IfErr result (λ e. RingRefuses D.view inputs.now self.now floor checkpoint e device.old) }
        ensures failures { CountsDevice result JournalError.Device (D.view device.old).failures (D.view device.new).failures }
        ensures read { IsRead D.view device.old device.new }
    {
        td_gate::laws::reads_in_turn::<D>();
        let mut bytes = vec![in alloc; 0; FRONT_LEN + ENTRY_LEN * self.m as usize + 1]?;
        let mut told = Vec::new(alloc);
        let mut greatest = floor;
        for i in 0..self.n {
            let epoch = checkpoint + 1 + u64::from(i);
            match self.kept_at::<K, D>(alloc, device, inputs, greatest, epoch, &mut bytes) {
                Ok(Some(kept)) => {
                    greatest = floor_past(greatest, K::request(&kept));
                    told.push(kept)?;
                }
                Ok(None) => return Ok(told),
                Err(refusal) => return Err(refusal),
            }
        }
        Ok(told)
    }

    /// What was submitted as the epochs after a checkpoint's, as long as each stands in its cell: at most `n` epochs,
    /// each with its request number. `inputs` are the numbers of the plan's inputs. `floor` is the greatest request
    /// number up to the checkpoint, and `None` in version 1 of the format, which has no such numbers.
    ///
    /// A cell that is closed or bears another epoch ends the list, and no cell after it is read. It refuses
    /// `Damaged(cell)` where a cell bears its epoch and is not valid: its count is above `m`, its zeros are not 0, a
    /// record names no input or falls, or its request number is not 0 and not above the floor and those before it
    /// (without a floor: not 0). Then `Device` and `Memory`.
    pub fn read_from<D: Disk>(
        &self,
        alloc: Global,
        device: &mut D,
        inputs: &[u8],
        checkpoint: u64,
        floor: Option<u64>,
    ) -> Result<Vec<Submitted>, JournalError>
        requires ring { MayReadFrom self.now (D.view device.old).capacity checkpoint }
        ensures told { IfOk result (λ w. RingTells D.view inputs.now self.now floor checkpoint (Told w.items) device.old) }
        ensures may_be { IfOk result (λ w. MayBeTold inputs.now self.now checkpoint w.items) }
        ensures refused { IfErr result (λ e. RingRefuses D.view inputs.now self.now floor checkpoint e device.old) }
        ensures failures { CountsDevice result JournalError.Device (D.view device.old).failures (D.view device.new).failures }
        ensures read { IsRead D.view device.old device.new }
    {
        self.read_each::<Vec<Entry>, D>(alloc, device, inputs, checkpoint, floor)
    }

    /// The counts of what `read_from` gives, whose refusals it has: each payload is read and found valid as there, and none of
    /// its records is kept. Beside the answer it takes memory for one cell.
    pub fn read_counts<D: Disk>(
        &self,
        alloc: Global,
        device: &mut D,
        inputs: &[u8],
        checkpoint: u64,
        floor: Option<u64>,
    ) -> Result<Vec<Counts>, JournalError>
        requires ring { MayReadFrom self.now (D.view device.old).capacity checkpoint }
        ensures told { IfOk result (λ w. IsKeptOfRing D.view counts_of inputs.now self.now floor checkpoint w.items device.old) }
        ensures fits { IfOk result (λ w. FitsRing self.now checkpoint (length w.items)) }
        ensures refused { IfErr result (λ e. RingRefuses D.view inputs.now self.now floor checkpoint e device.old) }
        ensures failures { CountsDevice result JournalError.Device (D.view device.old).failures (D.view device.new).failures }
        ensures read { IsRead D.view device.old device.new }
    {
        self.read_each::<Counting, D>(alloc, device, inputs, checkpoint, floor)
    }

    /// Whether as many epochs as there are cells stand after the kept one, before this epoch.
    fn is_full(&self, epoch: u64) -> bool
        requires { self.now.kept < epoch }
        ensures { IsTrue result ↔ (self.now.n < epoch - self.now.kept) }
    {
        u64::from(self.n) < epoch - self.kept
    }

    /// Puts an epoch's request number (0 for none) and batch into its cell. It refuses `Full` where as many epochs as
    /// there are cells stand after the kept one, then `TooManyRecords` where the batch has more than `m`, then
    /// `Memory`, and in these cases has not called the disk; then `Device`.
    ///
    /// It stands for one who keeps a ring alone. A keeper weighs `Full` and `TooManyRecords` itself, and calls
    /// `payload`, `clear` and `Region::put` in turn, since the cell behind is to be closed between the first and the last.
    ///
    /// It looks at no request number: that one is above those before is asked by `laws::next_is_put`. Nor does it at the epoch: one
    /// of 2^63 or above may be put, and no reading looks for it.
    pub fn append<D: Disk>(
        &self,
        alloc: Global,
        device: &mut D,
        epoch: u64,
        request: u64,
        batch: &Batch,
    ) -> Result<(), JournalError>
        requires ring { HasRing self.now (D.view device.old).capacity }
        requires later { self.now.kept < epoch }
        ensures refused { RefusesAppend self.now epoch batch.now result device.old device.new }
        ensures device { KeepsDevice D.view JournalError.Device result device.old device.new }
        ensures few { OnOk result (length batch.now ≤ self.now.m) }
        ensures put { PutsEpoch D.view self.now epoch request batch.now result device.old device.new }
    {
        if self.is_full(epoch) {
            return Err(JournalError::Full);
        }
        if (self.m as usize) < batch.len() {
            return Err(JournalError::TooManyRecords);
        }
        let _size = device.size();
        let payload = cell_payload(alloc, self.m, epoch, request, batch)?;
        self.cell_of(epoch).put(device, &payload)?;
        Ok(())
    }
}
