// A disk in memory. Its record of calls answers for every moment.
ghost use Rattle.std.specs.Prelude.{◌≡◌, ◌+◌, ◌-◌, ◌^◌, ◌<◌, ◌≤◌, ◌↔◌, ◌++◌, [], ◌∷◌, ℕ, length, replicate, Vec, refl};
ghost use Rattle.std.specs.Prelude.{OnOk, OnErr, IfOk, IsErr, IsOk, IsOkUnless};
ghost use Rattle.std.specs.declared.alloc.Global.{Global as AnyGlobal};
ghost use Rattle.std.proofs.Common.{◌∙◌, ap, sym};
ghost use Rattle.td_disk.specs.Disk.{IsDurable};
ghost use Rattle.td_disk.specs.Record.{Contents, overwritten, after_call, replay, synced, IsImage, state_after};
ghost use Rattle.td_disk.specs.Record.{written, crash_image, Reads, Writes, Syncs};
ghost use Rattle.td_disk.specs.RecordProofs.{reads, image_size, counts, only};

use crate::{Disk, Fault, MakeError};
use std::alloc::{AllocError, Global};

/// A call that was done: a write with its offset and bytes, or a sync.
#[derive(Drop)]
enum Call {
    Write(usize, Vec<u8>),
    Sync,
}

/// What a crash makes of the ranges that were written since the last sync.
#[derive(Clone, Copy, Debug, PartialEq, Eq)]
pub enum Fill {
    /// No write reached the disk.
    Old,
    /// Each write reached the disk.
    New,
    /// Each range holds this byte all over.
    All(u8),
}

/// A disk in memory. It keeps a record of all its calls, and a refused growth of that record is a failure of the disk. A call of
/// it that failed changes nothing, though the law of a disk allows it.
#[derive(Drop)]
pub struct MemoryDisk {
    alloc: Global,
    initial: Vec<u8>,
    calls: Vec<Call>,
    bytes: Vec<u8>,
    failures: u64,
    ghost replayed: { bytes.items ≡ (replay (synced initial.items) calls.items).bytes },
}

/// Writes over a range.
fn overwrite(image: &mut [u8], at: usize, bytes: &[u8])
    requires { at + length bytes.now ≤ length image.old }
    ensures { image.new ≡ overwritten at bytes.now image.old }
{
    image[at..at + bytes.len()].copy_from_slice(bytes);
}

/// Notes a write in the record.
fn note_write(
    alloc: Global,
    calls: &mut Vec<Call>,
    at: usize,
    bytes: &[u8],
) -> Result<(), AllocError>
    ensures ok { OnOk result ((v : Vec ℕ AnyGlobal) × (v.items ≡ bytes.now) × (calls.new.items ≡ calls.old.items ++ Call.Write at v ∷ [])) }
    ensures err { OnErr result (calls.new.items ≡ calls.old.items) }
{
    let copy = bytes.to_vec(alloc)?;
    calls.push(Call::Write(at, copy))?;
    Ok(())
}

/// Notes a sync in the record.
fn note_sync(calls: &mut Vec<Call>) -> Result<(), AllocError>
    ensures ok { OnOk result (calls.new.items ≡ calls.old.items ++ Call.Sync ∷ []) }
    ensures err { OnErr result (calls.new.items ≡ calls.old.items) }
{
    calls.push(Call::Sync)?;
    Ok(())
}

impl MemoryDisk {
    ghost use Rattle.td_disk.specs.MemoryDisk.{contents_of};

    /// A disk of `size` bytes, all of them 0. It refuses `Memory` alone.
    pub fn new(alloc: Global, size: u64) -> Result<MemoryDisk, MakeError>
        ensures zeros { IfOk result (λ d. contents_of d ≡ synced (replicate size 0)) }
        ensures size { IfOk result (λ d. (⟦<MemoryDisk as Disk>⟧.view d).capacity ≡ size) }
        ensures durable { IfOk result (λ d. IsDurable ((⟦<MemoryDisk as Disk>⟧.view d).state)) }
        ensures failures { IfOk result (λ d. (⟦<MemoryDisk as Disk>⟧.view d).failures ≡ 0) }
        ensures memory { IsOkUnless result MakeError.Memory }
    {
        let bytes = vec![in alloc; 0; size as usize]?;
        let initial = bytes.to_vec(alloc)?;
        Ok(MemoryDisk {
            alloc,
            initial,
            calls: Vec::new(alloc),
            bytes,
            failures: 0,
        })
    }
}

impl Disk for MemoryDisk {
    ghost use Rattle.td_disk.specs.MemoryDisk.{contents_of};

    ghost view = { λ m. record { capacity = length m.bytes.items; failures = m.failures; lawful = Unit {0}; state = state_after m.initial.items m.calls.items } };

    ghost read_gives = { λ m _ _ result n. Reads m.failures result (contents_of m) (contents_of n) };

    ghost write_gives = { λ m at bytes result n. Writes at bytes result (contents_of m) (contents_of n) };

    ghost sync_gives = { λ m result n. Syncs result (contents_of m) (contents_of n) };

    ghost reads_image = { λ m _. reads (synced m.initial.items) m.calls.items refl };

    ghost image_size = { λ m c _ is. image_size m.initial.items m.calls.items c is ∙ ap length (sym m.replayed) };

    ghost counts_now = { λ m t c _ le is. counts m.initial.items m.calls.items t c le is };

    ghost only_now = { λ m c _ left. only m.initial.items m.calls.items c left };

    fn size(&self) -> u64 {
        self.bytes.len() as u64
    }

    fn read(&mut self, at: u64, bytes: &mut [u8]) -> Result<(), Fault> {
        if self.failures == u64::MAX {
            return Err(Fault::Device);
        }
        let at = at as usize;
        bytes.copy_from_slice(&self.bytes[at..at + bytes.len()]);
        Ok(())
    }

    fn write(&mut self, at: u64, bytes: &[u8]) -> Result<(), Fault> {
        if self.failures == u64::MAX {
            return Err(Fault::Device);
        }
        match note_write(self.alloc, &mut self.calls, at as usize, bytes) {
            Ok(()) => {
                overwrite(&mut self.bytes, at as usize, bytes);
                Ok(())
            }
            Err(_) => {
                self.failures += 1;
                Err(Fault::Device)
            }
        }
    }

    fn sync(&mut self) -> Result<(), Fault> {
        if self.failures == u64::MAX {
            return Err(Fault::Device);
        }
        match note_sync(&mut self.calls) {
            Ok(()) => Ok(()),
            Err(_) => {
                self.failures += 1;
                Err(Fault::Device)
            }
        }
    }
}

// The same, and nothing where the range does not fit.
fn overwrite_within(image: &mut [u8], at: usize, bytes: &[u8])
    ensures { image.new ≡ overwritten at bytes.now image.old }
{
    if at <= image.len() && bytes.len() <= image.len() - at {
        overwrite(image, at, bytes);
    }
}

fn fill_within(image: &mut [u8], at: usize, len: usize, byte: u8)
    ensures { image.new ≡ overwritten at (replicate len byte) image.old }
{
    if at <= image.len() && len <= image.len() - at {
        image[at..at + len].fill(byte);
    }
}

// What a crash after a write leaves of what a crash before it would have left.
fn leave_write(left: &mut [u8], at: usize, bytes: &[u8], fill: Fill)
    ensures { (k : Contents) → left.old ≡ crash_image fill k
        → left.new ≡ crash_image fill (written at bytes.now k) }
{
    match fill {
        Fill::Old => {}
        Fill::New => overwrite_within(left, at, bytes),
        Fill::All(byte) => fill_within(left, at, bytes.len(), byte),
    }
}

// One call more: what is read, and what a crash leaves.
fn replay_call(
    call: &Call,
    read: &mut Vec<u8>,
    left: &mut Vec<u8>,
    fill: Fill,
) -> Result<(), AllocError>
    ensures { OnOk result ((k : Contents) → read.old.items ≡ k.bytes
        → left.old.items ≡ crash_image fill k
        → (read.new.items ≡ (after_call k call.now).bytes) × (left.new.items ≡ crash_image fill (after_call k call.now))) }
{
    match call {
        Call::Write(at, bytes) => {
            overwrite_within(read, *at, bytes);
            leave_write(left, *at, bytes, fill);
            Ok(())
        }
        Call::Sync => {
            left.clear();
            left.extend_from_slice(read)
        }
    }
}

fn bytes_left(
    alloc: Global,
    initial: &[u8],
    calls: &[Call],
    fill: Fill,
) -> Result<Vec<u8>, AllocError>
    ensures { IfOk result (λ v. v.items ≡ crash_image fill (replay (synced initial.now) calls.now)) }
{
    let mut read = initial.to_vec(alloc)?;
    let mut left = initial.to_vec(alloc)?;
    for call in calls {
        replay_call(call, &mut read, &mut left, fill)?;
    }
    Ok(left)
}

impl MemoryDisk {
    ghost use Rattle.td_disk.specs.MemoryDisk.{contents_of};

    /// The disk as it is found after a crash now. It refuses `Memory` alone.
    pub fn crash(&self, fill: Fill) -> Result<MemoryDisk, MakeError>
        ensures left { IfOk result (λ d. contents_of d ≡ synced (crash_image fill (contents_of self.now))) }
        ensures image { IfOk result (λ d. ((⟦<MemoryDisk as Disk>⟧.view self.now).state).images ((⟦<MemoryDisk as Disk>⟧.view d).state).bytes) }
        ensures durable { IfOk result (λ d. IsDurable ((⟦<MemoryDisk as Disk>⟧.view d).state)) }
        ensures size { IfOk result (λ d. (⟦<MemoryDisk as Disk>⟧.view d).capacity ≡ (⟦<MemoryDisk as Disk>⟧.view self.now).capacity) }
        ensures failures { IfOk result (λ d. (⟦<MemoryDisk as Disk>⟧.view d).failures ≡ 0) }
        ensures memory { IsOkUnless result MakeError.Memory }
    {
        let bytes = bytes_left(self.alloc, &self.initial, &self.calls, fill)?;
        let initial = bytes.to_vec(self.alloc)?;
        Ok(MemoryDisk {
            alloc: self.alloc,
            initial,
            calls: Vec::new(self.alloc),
            bytes,
            failures: 0,
        })
    }
}
