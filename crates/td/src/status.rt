//! The status file of a stream.
//!
//! It is written beside its place, and then renamed into it, so that who reads it finds a whole one. A file that a stream did not write is
//! never written over: a disk, for example, that stands under the name by mistake.

use crate::file_cause::write_cause;
use crate::meter::Counts;
use crate::refusal::Refusal;
use crate::room::{FIRST, FIRST_LEN, Room, Status};
use std::alloc::{AllocError, Global};
use std::fs::File;
use std::io::{ErrorKind, Read};
use std::rt::{Files, Stderr};
use std::{fs, io};
use td_console::Fault;

/// What a status file is written by. A thread has a file system by it, since it has no types of its own: those of `Files` may not go to
/// another thread.
pub(crate) trait Places {
    /// Finds nothing at `path`, or a status file; else why not.
    fn check_own(&self, path: &str) -> Result<(), &'static str>;

    /// Writes a text to the file at `new_path`, and renames it to `path`.
    fn put_in_place(&self, new_path: &str, path: &str, text: &str) -> io::Result<()>;
}

impl Places for HostRuntime {
    fn check_own(&self, path: &str) -> Result<(), &'static str> {
        check_own(self, path)
    }

    fn put_in_place(&self, new_path: &str, path: &str, text: &str) -> io::Result<()> {
        put_in_place(self, new_path, path, text)
    }
}

/// A status file, and what its numbers are computed of.
#[derive(Drop)]
pub(crate) struct StatusFile {
    alloc: Global,
    path: String,
    new_path: String,
    label: String,
    has_failed: bool,
    kept: Option<u64>,
    epochs: u64,
    seconds: u64,
}

impl StatusFile {
    /// The status file at `path` of the stream of the disk at `disk`. It is not written yet.
    pub(crate) fn new(alloc: Global, path: &str, disk: &str) -> Result<StatusFile, AllocError> {
        Ok(StatusFile {
            alloc,
            path: String::from_str(alloc, path)?,
            new_path: format!(in alloc; "{path}.new")?,
            label: label_of(alloc, disk)?,
            has_failed: false,
            kept: None,
            epochs: 0,
            seconds: 0,
        })
    }

    /// What is to be written, of a stream that has come so far; it is called once a second.
    pub(crate) fn status(
        &mut self,
        acked: u64,
        done: u64,
        kept: u64,
        seen: Option<u64>,
        room: Room,
        counts: Counts,
        is_last: bool,
    ) -> Status {
        if self.kept == Some(kept) {
            self.seconds = self.seconds.saturating_add(u64::from(!is_last));
        } else {
            self.kept = Some(kept);
            self.seconds = 0;
        }
        let epochs_in_a_second = counts.epochs.saturating_sub(self.epochs);
        self.epochs = counts.epochs;
        Status {
            acked,
            done,
            kept,
            seen,
            room,
            records: counts.records,
            epochs_in_a_second,
            seconds_since_cut: self.seconds,
            is_running: !is_last,
        }
    }

    /// Writes it. Where that fails, it says so on standard error, the first time, on a line that begins with `before`.
    pub(crate) fn write<R: Places>(
        &mut self,
        rt: &R,
        stderr: Stderr,
        status: Status,
        before: &str,
    ) {
        let Err((path, cause)) = self.put(rt, status) else {
            return;
        };
        let line = said(self.alloc, path, cause);
        if self.has_failed {
            return;
        }
        self.has_failed = true;
        let _ = stderr.eprint(before);
        let _ = match &line {
            Ok(line) => stderr.eprint(line.as_str()),
            Err(_) => stderr.eprint("td: memory\n"),
        };
    }

    /// Writes it, or answers which file cannot be written, and why.
    fn put<R: Places>(&self, rt: &R, status: Status) -> Result<(), (&str, &'static str)> {
        let (path, new_path) = (self.path.as_str(), self.new_path.as_str());
        let Ok(text) = status.text(self.alloc, self.label.as_str()) else {
            return Err((path, "memory"));
        };
        for each in [path, new_path] {
            if let Err(cause) = rt.check_own(each) {
                return Err((each, cause));
            }
        }
        match rt.put_in_place(new_path, path, text.as_str()) {
            Ok(()) => Ok(()),
            Err(error) => Err((path, write_cause(error.kind()))),
        }
    }
}

/// Writes a text to the file at `new_path`, and renames it to `path`.
fn put_in_place<R: Files<File = File>>(
    rt: &R,
    new_path: &str,
    path: &str,
    text: &str,
) -> io::Result<()> {
    fs::write(rt, new_path, text)?;
    fs::rename(rt, new_path, path)
}

/// The label of the disk at `disk`: two disks may have status files in one folder.
fn label_of(alloc: Global, disk: &str) -> Result<String, AllocError> {
    let mut label = String::from_str(alloc, "{disk=\"")?;
    for each in disk.chars() {
        match each {
            '\n' => label.push_str("\\n")?,
            '"' | '\\' => {
                label.push('\\')?;
                label.push(each)?;
            }
            _ => label.push(each)?,
        }
    }
    label.push_str("\"}")?;
    Ok(label)
}

/// The line that says why the file at `path` cannot be written.
fn said(alloc: Global, path: &str, cause: &str) -> Result<String, AllocError> {
    let place = format!(in alloc; "{path}: {cause}")?;
    Refusal::At(Fault::File, place).line(alloc)
}

/// Finds nothing at `path`, or a file that begins as a status file does; also one that was cut off as it was written. Else why not.
fn check_own<R: Files<File = File>>(rt: &R, path: &str) -> Result<(), &'static str> {
    match fs::metadata(rt, path) {
        Ok(found) if !found.is_file() => return Err("is there, and no status file"),
        Ok(_) => {}
        Err(error) if error.kind() == ErrorKind::NotFound => return Ok(()),
        Err(error) => return Err(write_cause(error.kind())),
    }
    let mut start = [0; FIRST_LEN];
    let count = match File::open(rt, path) {
        Ok(mut file) => file.read(&mut start),
        Err(error) => return Err(write_cause(error.kind())),
    };
    match count {
        Ok(count) if FIRST.as_bytes().starts_with(&start[..count]) => Ok(()),
        Ok(_) => Err("is there, and no status file"),
        Err(error) => Err(write_cause(error.kind())),
    }
}
