//! Disks in memory that can be made to stop or to fail.
use crate::error::StepError;
use std::alloc::Global;
use td_disk::{Disk, FailDisk, FuseDisk, MemoryDisk};

/// A disk in memory that stops at one of its calls, or one of whose calls fails.
pub(crate) type Device = FailDisk<FuseDisk<MemoryDisk>>;

/// So many calls a disk is never called.
const NEVER: u64 = u64::MAX;

/// A disk no call of which fails.
pub(crate) fn sound(memory: MemoryDisk) -> Device {
    stopping(memory, NEVER)
}

/// A disk that stops at its k-th write or sync.
pub(crate) fn stopping(memory: MemoryDisk, k: u64) -> Device {
    FailDisk::fail_at(FuseDisk::stop_at(memory, k), 0)
}

/// A disk whose k-th read, write or sync fails.
pub(crate) fn failing(memory: MemoryDisk, k: u64) -> Device {
    FailDisk::fail_at(FuseDisk::stop_at(memory, NEVER), k)
}

/// The disk in memory.
pub(crate) fn memory_of(device: Device) -> MemoryDisk {
    device.into_inner().into_inner()
}

/// Puts another byte there, to stay. Refusals: `Syntax`, where the disk is smaller, and `Memory`.
pub(crate) fn set_byte(memory: &mut MemoryDisk, at: u64, byte: u8) -> Result<(), StepError> {
    if memory.size() <= at {
        return Err(StepError::Syntax);
    }
    memory.write(at, &[byte])?;
    Ok(memory.sync()?)
}

/// A disk of so many bytes: those of a disk, and zeros behind them. Refusal: `Memory`.
pub(crate) fn resized(
    alloc: Global,
    memory: &mut MemoryDisk,
    bytes: u64,
) -> Result<MemoryDisk, StepError> {
    let kept = bytes.min(memory.size());
    let mut image = vec![in alloc; 0; kept as usize]?;
    memory.read(0, &mut image)?;
    let mut resized = MemoryDisk::new(alloc, bytes)?;
    resized.write(0, &image)?;
    resized.sync()?;
    Ok(resized)
}
