//! Why a file cannot be had, as a second look at it finds. A disk's own call answers `File` alone. What a file was at the first
//! look, where somebody changed it in between, is not known.

use std::fs;
use std::fs::{File, OpenOptions, TryLockError};
use std::io::ErrorKind;
use std::rt::Files;

/// Why the file of a plan cannot be read.
pub(crate) fn why_not_read<R: Files<File = File>>(rt: &R, path: &str) -> &'static str {
    match File::open(rt, path) {
        Ok(file) => match file.metadata() {
            Ok(found) if found.is_dir() => "a folder",
            _ => "cannot be read",
        },
        Err(error) => open_cause(error.kind()),
    }
}

/// Why the file of a disk cannot be opened.
pub(crate) fn why_not_opened<R: Files<File = File>>(rt: &R, path: &str) -> &'static str {
    let mut options = OpenOptions::new();
    options.read(true).write(true);
    match options.open(rt, path) {
        Ok(file) if !is_regular(&file) => "no file",
        Ok(file) => match file.try_lock() {
            Ok(()) => "cannot be opened",
            Err(TryLockError::WouldBlock) => "locked by another process",
            Err(TryLockError::Error(_)) => "cannot be locked",
        },
        Err(error) => open_cause(error.kind()),
    }
}

/// Why the file of a disk cannot be opened to be read beside others who read it. A pipe would be waited for, so it is looked at first.
pub(crate) fn why_not_opened_to_read<R: Files<File = File>>(rt: &R, path: &str) -> &'static str {
    match fs::metadata(rt, path) {
        Ok(found) if found.is_dir() => "a folder",
        Ok(found) if !found.is_file() => "no file",
        Ok(_) => why_not_read_beside(rt, path),
        Err(error) => open_cause(error.kind()),
    }
}

/// The same of a file that is there.
fn why_not_read_beside<R: Files<File = File>>(rt: &R, path: &str) -> &'static str {
    match File::open(rt, path) {
        Ok(file) => match file.try_lock_shared() {
            Ok(()) => "cannot be opened",
            Err(TryLockError::WouldBlock) => "locked by another process",
            Err(TryLockError::Error(_)) => "cannot be locked",
        },
        Err(error) => open_cause(error.kind()),
    }
}

/// Whether another process has locked a file.
pub(crate) fn is_locked<R: Files<File = File>>(rt: &R, path: &str) -> bool {
    match fs::metadata(rt, path) {
        Ok(found) if found.is_file() => is_file_locked(rt, path),
        _ => false,
    }
}

/// The same of a file that is there.
fn is_file_locked<R: Files<File = File>>(rt: &R, path: &str) -> bool {
    match File::open(rt, path) {
        Ok(file) => matches!(file.try_lock(), Err(TryLockError::WouldBlock)),
        Err(_) => false,
    }
}

/// Whether a file is none but a file: no folder, no device, no pipe.
fn is_regular(file: &File) -> bool {
    match file.metadata() {
        Ok(found) => found.is_file(),
        Err(_) => false,
    }
}

/// Makes an empty file, where there is none of that name; else why it cannot be made.
pub(crate) fn make_empty<R: Files<File = File>>(rt: &R, path: &str) -> Result<(), &'static str> {
    let mut options = OpenOptions::new();
    options.write(true).create_new(true);
    match options.open(rt, path) {
        Ok(_file) => Ok(()),
        Err(error) => Err(make_cause(error.kind())),
    }
}

/// Why a file that should be there cannot be opened.
fn open_cause(kind: ErrorKind) -> &'static str {
    match kind {
        ErrorKind::NotFound | ErrorKind::NotADirectory => "no such file",
        ErrorKind::PermissionDenied => "permission denied",
        ErrorKind::IsADirectory => "a folder",
        ErrorKind::ReadOnlyFilesystem => "read-only file system",
        _ => "cannot be opened",
    }
}

/// Why a file that should not be there cannot be made.
fn make_cause(kind: ErrorKind) -> &'static str {
    match kind {
        ErrorKind::AlreadyExists => "is there",
        ErrorKind::NotFound | ErrorKind::NotADirectory => "no such folder",
        ErrorKind::PermissionDenied => "permission denied",
        ErrorKind::ReadOnlyFilesystem => "read-only file system",
        _ => "cannot be made",
    }
}

/// Why a file that may be there cannot be written.
pub(crate) fn write_cause(kind: ErrorKind) -> &'static str {
    match kind {
        ErrorKind::IsADirectory => "a folder",
        ErrorKind::OutOfMemory => "memory",
        ErrorKind::StorageFull => "no space left on device",
        kind => make_cause(kind),
    }
}
