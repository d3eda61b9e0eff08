//! The commands over a disk in a file. The plan's file is read before the disk is made or opened.

use crate::disk_closures::{
    put_closures, put_new_closures, read_text, remove_closures, text_of_disk,
};
use crate::file_cause::{make_empty, why_not_opened, why_not_read};
use crate::lock::opened;
use crate::read_only::file_to_read_or_tell;
use crate::refusal::Refusal;
use crate::streams;
use crate::streams::Awaited;
use std::fs::File;
use std::rt::Files;
use std::sync::Wait;
use std::{fs, io};
use td_calls::Stock;
use td_console::{Fault, StdReader, StdWriter};
use td_disk::{Disk, FileDisk, FileFailure, ReadAhead};
use td_feed::upgrade;
use td_head::Shape;
use td_plan::Plan;
use td_report::{format, read_plan, shape_of};
use td_store::copy::copy;

/// Makes a disk of this shape in the file at `disk`, formatted for the plan in the file at `plan`. Its closures in text are those of the
/// file at `closures`, if there is one; else it has none.
pub(crate) fn format_disk<R: Files<File = File> + AllocGlobal + Wait>(
    rt: &R,
    disk: &str,
    plan: &str,
    m: u32,
    n: u32,
    k: u32,
    closures: Option<&str>,
    wait: u32,
) -> Result<(), Refusal> {
    let held = hold_streams(rt)?;
    let plan = plan_at(rt, plan)?;
    let closures = read_text(rt, closures)?;
    let shape = shape_of(m, n, k)?;
    let create = || FileDisk::create(rt, disk, shape.bytes());
    let mut file = opened(rt, disk, wait, create).map_err(Fault::from)?;
    put_closures(rt, disk, &closures)?;
    drop(held);
    Ok(format(rt.alloc(), &mut file, &plan, shape)?)
}

/// Raises the disk in the file at `disk` to the version of the format that has request numbers.
pub(crate) fn upgrade_disk<R: Files<File = File> + Print + AllocGlobal + Wait>(
    rt: &R,
    disk: &str,
    plan: &str,
    wait: u32,
) -> Result<(), Fault> {
    let (disk, plan) = open_disk(rt, disk, plan, wait)?;
    let mut writer = StdWriter(Awaited::new(rt, io::writer(rt)));
    upgrade::<_, Stock, _>(rt.alloc(), disk, &plan, &mut writer).1
}

/// Makes a disk of this shape in a file at `new`, where there is none, and puts on it what the disk in the file at `disk` tells; up to
/// the epoch `until`, if it is given. It has that disk's closures in text. Where that fails, the files that were made go away again.
pub(crate) fn copy_disk<R: Files<File = File> + AllocGlobal + Wait>(
    rt: &R,
    path: &str,
    plan: &str,
    new: &str,
    m: u32,
    n: u32,
    k: u32,
    until: Option<u64>,
    wait: u32,
) -> Result<(), Refusal> {
    let alloc = rt.alloc();
    let held = hold_streams(rt)?;
    let plan = plan_or_tell(rt, plan)?;
    let shape = shape_or_tell(rt, m, n, k)?;
    let mut disk = ReadAhead::new(alloc, file_to_read_or_tell(rt, path, wait)?);
    let closures = text_of_disk(rt, path)?;
    let make = || make_disk_with(rt, new, shape, &closures);
    let copied = copy(alloc, &mut disk, &plan, shape, until, make);
    drop(held);
    match copied {
        Ok(_new) => Ok(()),
        Err(Refusal::New(fault)) => {
            Err(remove_disk(rt, new, closures.is_some(), Refusal::New(fault)))
        }
        Err(refusal) => {
            let failure = disk.inner().last_failure();
            Err(refusal.on_disk(alloc, path, failure))
        }
    }
}

/// Takes away the file of a new disk that was refused, and that of its closures in text, where it has them; the refusal with its place
/// and cause.
pub(crate) fn remove_disk<R: Files<File = File> + AllocGlobal>(
    rt: &R,
    path: &str,
    has_closures: bool,
    refusal: Refusal,
) -> Refusal {
    let failure = match refusal {
        Refusal::New(_) => why_not_written(rt, path),
        _ => None,
    };
    let _ = fs::remove_file(rt, path);
    if has_closures {
        remove_closures(rt, path);
    }
    match refusal {
        Refusal::New(fault) => Refusal::Plain(fault).on_disk(rt.alloc(), path, failure),
        refusal => refusal,
    }
}

/// A disk for a shape, in a file at `path`, where there is none, and beside it closures of this text, or none.
pub(crate) fn make_disk_with<R: Files<File = File> + AllocGlobal>(
    rt: &R,
    path: &str,
    shape: Shape,
    closures: &Option<Vec<u8>>,
) -> Result<FileDisk, Refusal> {
    let disk = make_disk(rt, path, shape)?;
    if let Err(refusal) = put_new_closures(rt, path, closures) {
        let _ = fs::remove_file(rt, path);
        return Err(refusal);
    }
    Ok(disk)
}

/// A disk for a shape, in a file at `path`, where there is none.
fn make_disk<R: Files<File = File> + AllocGlobal>(
    rt: &R,
    path: &str,
    shape: Shape,
) -> Result<FileDisk, Refusal> {
    if let Err(cause) = make_empty(rt, path) {
        return Err(file_refusal(rt, path, cause)?);
    }
    match FileDisk::create(rt, path, shape.bytes()) {
        Ok(disk) => Ok(disk),
        Err(error) => {
            let _ = fs::remove_file(rt, path);
            match Fault::from(error) {
                Fault::File => Err(file_refusal(rt, path, "cannot be made")?),
                fault => Err(Refusal::Plain(fault)),
            }
        }
    }
}

/// Why the file of a new disk cannot be written, as a second look at its last bytes finds: they are written anew, and synced.
fn why_not_written<R: Files<File = File>>(rt: &R, path: &str) -> Option<FileFailure> {
    let mut disk = FileDisk::open(rt, path).ok()?;
    let zeros = [0; 4096];
    let at = disk.size().checked_sub(4096)?;
    let _ = disk.write(at, &zeros);
    let _ = disk.sync();
    disk.last_failure()
}

/// The shape of a disk, or which of its numbers is out of its limits.
pub(crate) fn shape_or_tell<R: AllocGlobal>(
    rt: &R,
    m: u32,
    n: u32,
    k: u32,
) -> Result<Shape, Refusal> {
    let alloc = rt.alloc();
    match shape_of(m, n, k) {
        Ok(shape) => Ok(shape),
        Err(fault) => {
            let (name, number, most) = if m < 1 || 65_536 < m {
                ("M", m, 65_536)
            } else if n < 1 || 65_536 < n {
                ("N", n, 65_536)
            } else {
                ("K", k, 1_048_576)
            };
            let cause = format!(in alloc; "{name} is {number}, not 1 to {most}")?;
            Err(Refusal::At(fault, cause))
        }
    }
}

/// The disk in the file at `path`, which is read a block at a time, and the plan in the file at `plan`; where one cannot be had, why.
pub(crate) fn open_disk_or_tell<R: Files<File = File> + AllocGlobal + Wait>(
    rt: &R,
    path: &str,
    plan: &str,
    wait: u32,
) -> Result<(ReadAhead<FileDisk>, Plan), Refusal> {
    let held = hold_streams(rt)?;
    let plan = plan_or_tell(rt, plan)?;
    let disk = disk_or_tell(rt, path, wait)?;
    drop(held);
    Ok((ReadAhead::new(rt.alloc(), disk), plan))
}

/// The plan in the file at `path`, or why it cannot be had.
pub(crate) fn plan_or_tell<R: Files<File = File> + AllocGlobal>(
    rt: &R,
    path: &str,
) -> Result<Plan, Refusal> {
    match plan_at(rt, path) {
        Ok(plan) => Ok(plan),
        Err(Fault::File) => Err(file_refusal(rt, path, why_not_read(rt, path))?),
        Err(fault) => Err(Refusal::Plain(fault).in_plan(rt.alloc(), path)),
    }
}

/// The disk in the file at `path`, or why it cannot be had.
fn disk_or_tell<R: Files<File = File> + AllocGlobal + Wait>(
    rt: &R,
    path: &str,
    wait: u32,
) -> Result<FileDisk, Refusal> {
    match opened(rt, path, wait, || FileDisk::open(rt, path)) {
        Ok(disk) => Ok(disk),
        Err(error) => match Fault::from(error) {
            Fault::File => Err(file_refusal(rt, path, why_not_opened(rt, path))?),
            fault => Err(Refusal::Plain(fault)),
        },
    }
}

/// The refusal for a file that cannot be had, with its path and the cause.
pub(crate) fn file_refusal<R: AllocGlobal>(
    rt: &R,
    path: &str,
    cause: &str,
) -> Result<Refusal, Refusal> {
    let place = format!(in rt.alloc(); "{path}: {cause}")?;
    Ok(Refusal::At(Fault::File, place))
}

/// The disk in the file at `disk`, which is read a block at a time, and the plan in the file at `plan`.
pub(crate) fn open_disk<R: Files<File = File> + AllocGlobal + Wait>(
    rt: &R,
    disk: &str,
    plan: &str,
    wait: u32,
) -> Result<(ReadAhead<FileDisk>, Plan), Fault> {
    let held = hold_streams(rt)?;
    let plan = plan_at(rt, plan)?;
    let disk = opened(rt, disk, wait, || FileDisk::open(rt, disk))?;
    drop(held);
    Ok((ReadAhead::new(rt.alloc(), disk), plan))
}

/// The plan in the file at `path`.
pub(crate) fn plan_at<R: Files<File = File> + AllocGlobal>(
    rt: &R,
    path: &str,
) -> Result<Plan, Fault> {
    let file = open_to_read(rt, path)?;
    read_plan(rt.alloc(), &mut StdReader(file))
}

/// Takes the numbers of the standard streams for as long as the answer is held, where one of them is closed.
pub(crate) fn hold_streams<R: Files<File = File>>(rt: &R) -> Result<Option<[File; 3]>, Fault> {
    match streams::hold_streams(rt) {
        Ok(held) => Ok(held),
        Err(error) => Err(fault_of(&error)),
    }
}

/// The file at `path`, to be read. Refusals: `File`, `Memory`.
pub(crate) fn open_to_read<R: Files<File = File>>(rt: &R, path: &str) -> Result<File, Fault> {
    match File::open(rt, path) {
        Ok(file) => Ok(file),
        Err(error) => Err(fault_of(&error)),
    }
}

/// The fault for a file that cannot be opened.
fn fault_of(error: &io::Error) -> Fault {
    match error.kind() {
        io::ErrorKind::OutOfMemory => Fault::Memory,
        _ => Fault::File,
    }
}
