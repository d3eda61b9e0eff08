// A disk that is read a block at a time until it is written. It is lawful where the inner one is.
//
// It is a disk over a disk, and no part of `FileDisk`, of which nothing is proved. A block that is answered after it was written
// over would be lost data. A recovery reads much, one piece after another, and writes nothing. What is read later is a gate or
// two before each write, for which a block would be read, and let go at that write.
ghost use Rattle.std.specs.Prelude.{◌≡◌, ◌+◌, ◌≤◌, ◌↔◌, [], length, false, true, IfSome};
ghost use Rattle.td_disk.specs.Disk.{bytes_at, NoNewImages, TimePasses};

use crate::{Disk, Fault};
use std::alloc::Global;

/// How many bytes a block has, where the disk has as many from its place on.
const BLOCK: u64 = 1 << 16;

/// How many bytes a read has at most for which a block is read. Where a block ends in the middle of what is asked for, the next
/// one begins there anew, so a sixteenth of all is read twice at most. No block goes back for what stands before the gate that is
/// read first: the payload of a head is longer than this, and there are two slots.
const SMALL: usize = 1 << 12;

/// A disk that is read a block at a time until something is written. A read of few bytes is answered from the block that begins at
/// its place or at one before, which is read with one call of the inner disk. The first write lets the block go, and its memory,
/// and from then on each read is one of the inner disk. A sync that fails lets it go, too. A longer read that does not stand in the block
/// is one of the inner disk, and so is each where memory for a block is refused or the block cannot be read.
#[derive(Drop)]
pub struct ReadAhead<D: Disk> {
    alloc: Global,
    inner: D,
    block: Vec<u8>,
    start: u64,
    is_written: bool,
    failures: u64,
    ghost current: { (D.view inner).lawful → block.items ≡ bytes_at start (length block.items) (D.view inner).state.bytes },
    ghost let_go: { is_written ≡ true → block.items ≡ [] },
}

impl<D: Disk> ReadAhead<D> {
    ghost use Rattle.td_disk.specs.Ahead.{inner_of};

    /// The disk of this one, no call of which has failed. Blocks are allocated with `alloc`.
    pub fn new(alloc: Global, inner: D) -> ReadAhead<D>
        ensures inner { inner_of result ≡ inner }
        ensures failures { (⟦<ReadAhead<D> as Disk>⟧.view result).failures ≡ 0 }
    {
        ReadAhead {
            alloc,
            inner,
            block: Vec::new(alloc),
            start: 0,
            is_written: false,
            failures: 0,
        }
    }

    /// The disk that is read a block at a time.
    pub fn inner(&self) -> &D
        ensures { result.now ≡ inner_of self.now }
    {
        &self.inner
    }

    // Where so many bytes from the offset `at` on begin in the block, if it has them.
    fn place_of(&self, at: u64, len: usize) -> Option<usize>
        ensures { IfSome result (λ first. (self.now.start + first ≡ at) × (first + len ≤ length self.now.block.items)) }
    {
        let first = at.checked_sub(self.start)? as usize;
        if first <= self.block.len() && len <= self.block.len() - first {
            Some(first)
        } else {
            None
        }
    }

    // Reads the block from an offset on where nothing was written, and so many bytes are few and do not stand in the block.
    fn look_ahead(&mut self, at: u64, len: usize)
        requires { at ≤ (D.view self.old.inner).capacity }
        ensures size { (D.view self.new.inner).capacity ≡ (D.view self.old.inner).capacity }
        ensures lawful { (D.view self.old.inner).lawful ↔ (D.view self.new.inner).lawful }
        ensures failures { self.new.failures ≡ self.old.failures }
        ensures later { (D.view self.old.inner).failures ≤ (D.view self.new.inner).failures }
        ensures same { (D.view self.old.inner).lawful → (D.view self.new.inner).state.bytes ≡ (D.view self.old.inner).state.bytes }
        ensures images { (D.view self.old.inner).lawful → NoNewImages (D.view self.old.inner).state (D.view self.new.inner).state }
        ensures time { (D.view self.old.inner).lawful → TimePasses (D.view self.old.inner).state (D.view self.new.inner).state }
    {
        if !self.is_written && len <= SMALL && self.place_of(at, len).is_none() {
            self.take_block(at);
        }
    }

    // Reads the block from an offset on, or lets the block go.
    fn take_block(&mut self, at: u64)
        requires place { at ≤ (D.view self.old.inner).capacity }
        requires unwritten { self.old.is_written ≡ false }
        ensures size { (D.view self.new.inner).capacity ≡ (D.view self.old.inner).capacity }
        ensures lawful { (D.view self.old.inner).lawful ↔ (D.view self.new.inner).lawful }
        ensures failures { self.new.failures ≡ self.old.failures }
        ensures later { (D.view self.old.inner).failures ≤ (D.view self.new.inner).failures }
        ensures same { (D.view self.old.inner).lawful → (D.view self.new.inner).state.bytes ≡ (D.view self.old.inner).state.bytes }
        ensures images { (D.view self.old.inner).lawful → NoNewImages (D.view self.old.inner).state (D.view self.new.inner).state }
        ensures time { (D.view self.old.inner).lawful → TimePasses (D.view self.old.inner).state (D.view self.new.inner).state }
    {
        let len = BLOCK.min(self.inner.size() - at) as usize;
        // (a block of this length is read over as it stands, and not filled with zeros first)
        if self.block.len() != len {
            self.block.clear();
            if self.block.resize(len, 0).is_err() {
                return;
            }
        }
        self.start = at;
        if self.inner.read(at, &mut self.block).is_err() {
            self.block.clear();
        }
    }
}

impl<D: Disk> Disk for ReadAhead<D> {
    ghost use Rattle.td_disk.specs.Ahead.{FailsWithInner, IsPassedOn};

    ghost view = { λ r. record { capacity = (D.view r.inner).capacity; failures = r.failures; lawful = (D.view r.inner).lawful; state = (D.view r.inner).state } };

    ghost read_gives = { λ r _ _ result q. FailsWithInner D.view r.failures result r q };

    ghost write_gives = { λ r at bytes result q. IsPassedOn (D.write_gives r.inner at bytes) r.failures result q };

    ghost sync_gives = { λ r result q. IsPassedOn (D.sync_gives r.inner) r.failures result q };

    ghost reads_image = { λ r lawful. D.reads_image r.inner lawful };

    ghost image_size = { λ r c lawful image. D.image_size r.inner c lawful image };

    ghost counts_now = { λ r t c lawful le image. D.counts_now r.inner t c lawful le image };

    ghost only_now = { λ r c lawful left. D.only_now r.inner c lawful left };

    fn size(&self) -> u64 {
        self.inner.size()
    }

    fn read(&mut self, at: u64, bytes: &mut [u8]) -> Result<(), Fault> {
        if self.failures == u64::MAX {
            return Err(Fault::Device);
        }
        self.look_ahead(at, bytes.len());
        if let Some(first) = self.place_of(at, bytes.len()) {
            bytes.copy_from_slice(&self.block[first..first + bytes.len()]);
            return Ok(());
        }
        let answer = self.inner.read(at, bytes);
        if answer.is_err() {
            self.failures += 1;
        }
        answer
    }

    fn write(&mut self, at: u64, bytes: &[u8]) -> Result<(), Fault> {
        self.is_written = true;
        self.block = Vec::new(self.alloc);
        if self.failures == u64::MAX {
            return Err(Fault::Device);
        }
        let answer = self.inner.write(at, bytes);
        if answer.is_err() {
            self.failures += 1;
        }
        answer
    }

    fn sync(&mut self) -> Result<(), Fault> {
        if self.failures == u64::MAX {
            return Err(Fault::Device);
        }
        let answer = self.inner.sync();
        if answer.is_err() {
            self.block.clear();
            self.failures += 1;
        }
        answer
    }
}
