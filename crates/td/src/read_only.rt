//! The commands that only read a disk. Its file is opened to be read, under a lock that readers share; with `--live` under none, and what
//! is read is a snapshot.

use crate::disk::{file_refusal, hold_streams, plan_at, plan_or_tell};
use crate::file_cause::why_not_opened_to_read;
use crate::lock::opened;
use crate::refusal::Refusal;
use crate::streams::Awaited;
use std::fs::File;
use std::io;
use std::rt::Files;
use std::sync::Wait;
use td_console::{Fault, StdWriter};
use td_disk::{Disk, FileFailure, MakeError, ReadAhead};
use td_live::{LiveError, ReadOnlyFile, Snapshot, take_snapshot};
use td_plan::Plan;
use td_report::{dump, dump_placed, show};
use td_store::standing::KeeperError;

/// How many readings of a disk there are at most before it is said to be busy.
const READINGS: u32 = 16;

/// Writes what the disk in the file at `disk` tells to standard output.
pub(crate) fn show_disk<R: Files<File = File> + Print + AllocGlobal + Wait>(
    rt: &R,
    disk: &str,
    plan: &str,
    wait: u32,
) -> Result<(), Fault> {
    let held = hold_streams(rt)?;
    let plan = plan_at(rt, plan)?;
    let file = opened(rt, disk, wait, || ReadOnlyFile::open_shared(rt, disk))?;
    drop(held);
    let mut disk = ReadAhead::new(rt.alloc(), file);
    let mut writer = StdWriter(Awaited::new(rt, io::writer(rt)));
    show(rt.alloc(), &mut disk, &plan, &mut writer)
}

/// The same beside a process that writes the disk.
pub(crate) fn show_live<R: Files<File = File> + Print + AllocGlobal + Wait>(
    rt: &R,
    path: &str,
    plan: &str,
) -> Result<(), Refusal> {
    let (mut disk, plan) = snapshot_of(rt, path, plan)?;
    let mut writer = StdWriter(Awaited::new(rt, io::writer(rt)));
    match show(rt.alloc(), &mut disk, &plan, &mut writer) {
        Ok(()) => Ok(()),
        Err(fault) => Err(Refusal::Plain(fault).on_disk(rt.alloc(), path, None)),
    }
}

/// Writes the epochs after the checkpoint of the disk in the file at `path` to standard output, as lines that a feed takes; with `at` each
/// with its place, as a stream with places takes them.
pub(crate) fn dump_disk<R: Files<File = File> + Print + AllocGlobal + Wait>(
    rt: &R,
    path: &str,
    plan: &str,
    at: bool,
    wait: u32,
) -> Result<(), Refusal> {
    let (mut disk, plan) = open_to_read_or_tell(rt, path, plan, wait)?;
    match print_dump(rt, &mut disk, &plan, at) {
        Ok(()) => Ok(()),
        Err(fault) => {
            let failure = disk.inner().last_failure();
            Err(Refusal::Plain(fault).on_disk(rt.alloc(), path, failure))
        }
    }
}

/// The same beside a process that writes the disk.
pub(crate) fn dump_live<R: Files<File = File> + Print + AllocGlobal + Wait>(
    rt: &R,
    path: &str,
    plan: &str,
    at: bool,
) -> Result<(), Refusal> {
    let (mut disk, plan) = snapshot_of(rt, path, plan)?;
    match print_dump(rt, &mut disk, &plan, at) {
        Ok(()) => Ok(()),
        Err(fault) => Err(Refusal::Plain(fault).on_disk(rt.alloc(), path, None)),
    }
}

/// Writes the epochs after the checkpoint of a disk to standard output, with `at` each with its place.
fn print_dump<D: Disk, R: Print + AllocGlobal + Wait>(
    rt: &R,
    disk: &mut D,
    plan: &Plan,
    at: bool,
) -> Result<(), Fault> {
    let mut writer = StdWriter(Awaited::new(rt, io::writer(rt)));
    if at {
        dump_placed(rt.alloc(), disk, plan, &mut writer)
    } else {
        dump(rt.alloc(), disk, plan, &mut writer)
    }
}

/// The disk in the file at `path`, to be read a block at a time, and the plan in the file at `plan`; where one cannot be had, why.
pub(crate) fn open_to_read_or_tell<R: Files<File = File> + AllocGlobal + Wait>(
    rt: &R,
    path: &str,
    plan: &str,
    wait: u32,
) -> Result<(ReadAhead<ReadOnlyFile>, Plan), Refusal> {
    let held = hold_streams(rt)?;
    let plan = plan_or_tell(rt, plan)?;
    let file = file_to_read_or_tell(rt, path, wait)?;
    drop(held);
    Ok((ReadAhead::new(rt.alloc(), file), plan))
}

/// The file at `path`, to be read beside others who read it, or why it cannot be had.
pub(crate) fn file_to_read_or_tell<R: Files<File = File> + AllocGlobal + Wait>(
    rt: &R,
    path: &str,
    wait: u32,
) -> Result<ReadOnlyFile, Refusal> {
    let made = opened(rt, path, wait, || ReadOnlyFile::open_shared(rt, path));
    file_or_tell(rt, path, made)
}

/// A file that was opened to be read, or why it was not.
fn file_or_tell<R: Files<File = File> + AllocGlobal>(
    rt: &R,
    path: &str,
    made: Result<ReadOnlyFile, MakeError>,
) -> Result<ReadOnlyFile, Refusal> {
    match made {
        Ok(file) => Ok(file),
        Err(error) => match Fault::from(error) {
            Fault::File => Err(file_refusal(rt, path, why_not_opened_to_read(rt, path))?),
            fault => Err(Refusal::Plain(fault)),
        },
    }
}

/// A snapshot of the disk in the file at `path`, which another process may write meanwhile, and the plan in the file at `plan`; where one
/// cannot be had, why.
fn snapshot_of<R: Files<File = File> + AllocGlobal>(
    rt: &R,
    path: &str,
    plan: &str,
) -> Result<(Snapshot, Plan), Refusal> {
    let held = hold_streams(rt)?;
    let plan = plan_or_tell(rt, plan)?;
    let mut file = file_or_tell(rt, path, ReadOnlyFile::open_beside(rt, path))?;
    drop(held);
    match take_snapshot(rt.alloc(), &mut file, READINGS) {
        Ok(disk) => Ok((disk, plan)),
        Err(error) => Err(no_snapshot(rt, path, error, file.last_failure())?),
    }
}

/// Why there is no snapshot of the disk in the file at `path`, of which this call failed, if one did.
fn no_snapshot<R: AllocGlobal>(
    rt: &R,
    path: &str,
    error: LiveError,
    failure: Option<FileFailure>,
) -> Result<Refusal, Refusal> {
    match error {
        LiveError::Busy => {
            let place = format!(in rt.alloc(); "{path} changes while it is read")?;
            Ok(Refusal::Busy(place))
        }
        LiveError::Memory => Ok(Refusal::Plain(Fault::Memory)),
        LiveError::Device => {
            let device = Refusal::Plain(Fault::Keeper(KeeperError::Device));
            Ok(device.on_disk(rt.alloc(), path, failure))
        }
    }
}
