//! The closures in text of a disk: a file beside it, whose name is the disk's with `.closures` behind it. A disk without such a file has
//! the catalogue's closures alone. The file is on the device before the disk's head is, so a disk that is formatted has it.

use crate::closures::{closures_at, closures_of_bytes};
use crate::disk::file_refusal;
use crate::plan::text_at;
use crate::refusal::Refusal;
use std::fs;
use std::fs::File;
use std::io::ErrorKind;
use std::rt::Files;
use td_console::Fault;
use td_disk::{Disk, FileDisk};
use td_formula::Closure;
use td_store::standing::KeeperError;

/// The closures in text of the disk in the file at `disk`; none, where it has no such file.
pub(crate) fn closures_of_disk<R: Files<File = File> + AllocGlobal>(
    rt: &R,
    disk: &str,
) -> Result<Vec<Closure>, Refusal> {
    let path = path_beside(rt, disk)?;
    if is_there(rt, path.as_str()) {
        closures_at(rt, Some(path.as_str()))
    } else {
        Ok(Vec::new(rt.alloc()))
    }
}

/// The bytes of their file, where there is one.
pub(crate) fn text_of_disk<R: Files<File = File> + AllocGlobal>(
    rt: &R,
    disk: &str,
) -> Result<Option<Vec<u8>>, Refusal> {
    let path = path_beside(rt, disk)?;
    if is_there(rt, path.as_str()) {
        Ok(Some(text_at(rt, path.as_str())?))
    } else {
        Ok(None)
    }
}

/// The bytes of the file at `path`, if there is such a path, once they are read as closures.
pub(crate) fn read_text<R: Files<File = File> + AllocGlobal>(
    rt: &R,
    path: Option<&str>,
) -> Result<Option<Vec<u8>>, Refusal> {
    let Some(path) = path else {
        return Ok(None);
    };
    let bytes = text_at(rt, path)?;
    closures_of_bytes(rt.alloc(), path, &bytes)?;
    Ok(Some(bytes))
}

/// Gives the disk in the file at `disk` closures of this text, or none, in place of those that it had.
pub(crate) fn put_closures<R: Files<File = File> + AllocGlobal>(
    rt: &R,
    disk: &str,
    text: &Option<Vec<u8>>,
) -> Result<(), Refusal> {
    let path = path_beside(rt, disk)?;
    match text {
        Some(text) => write_text(rt, path.as_str(), text),
        None if is_there(rt, path.as_str()) => {
            // Emptied first, which is synced: the name may come back after a crash.
            write_text(rt, path.as_str(), &[])?;
            let _ = fs::remove_file(rt, path.as_str());
            Ok(())
        }
        None => Ok(()),
    }
}

/// Gives the new disk in the file at `disk` closures of this text, or none. A file that is there is refused, and left as it is.
pub(crate) fn put_new_closures<R: Files<File = File> + AllocGlobal>(
    rt: &R,
    disk: &str,
    text: &Option<Vec<u8>>,
) -> Result<(), Refusal> {
    let path = path_beside(rt, disk)?;
    if is_there(rt, path.as_str()) {
        return Err(file_refusal(rt, path.as_str(), "is there")?);
    }
    let put = put_closures(rt, disk, text);
    if put.is_err() {
        let _ = fs::remove_file(rt, path.as_str());
    }
    put
}

/// Takes away the file of the closures of the disk in the file at `disk`, where there is one.
pub(crate) fn remove_closures<R: Files<File = File> + AllocGlobal>(rt: &R, disk: &str) {
    if let Ok(path) = path_beside(rt, disk) {
        let _ = fs::remove_file(rt, path.as_str());
    }
}

/// Writes the file at `path` anew. It is synced, and so is its folder.
fn write_text<R: Files<File = File> + AllocGlobal>(
    rt: &R,
    path: &str,
    text: &[u8],
) -> Result<(), Refusal> {
    let mut file = match FileDisk::create(rt, path, text.len() as u64) {
        Ok(file) => file,
        Err(error) => {
            return match Fault::from(error) {
                Fault::File => Err(file_refusal(rt, path, "cannot be made")?),
                fault => Err(Refusal::Plain(fault)),
            };
        }
    };
    if file.write(0, text).is_ok() && file.sync().is_ok() {
        return Ok(());
    }
    let failed = Refusal::Plain(Fault::Keeper(KeeperError::Device));
    Err(failed.on_disk(rt.alloc(), path, file.last_failure()))
}

/// The path of the file of the closures of the disk in the file at `disk`.
fn path_beside<R: AllocGlobal>(rt: &R, disk: &str) -> Result<String, Refusal> {
    Ok(format!(in rt.alloc(); "{disk}.closures")?)
}

/// Whether something has the name `path`; also where it cannot be read.
fn is_there<R: Files<File = File>>(rt: &R, path: &str) -> bool {
    match File::open(rt, path) {
        Ok(_) => true,
        Err(error) => !matches!(error.kind(), ErrorKind::NotFound | ErrorKind::NotADirectory),
    }
}
