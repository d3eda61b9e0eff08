//! The program's standard streams. One that another program made non-blocking is waited for.
ghost use Rattle.std.specs.Prelude.{ℕ, List, Option};

use std::fs::File;
use std::io::{ErrorKind, Read, Write};
use std::rt::Files;
use std::sync::Wait;
use std::thread::Parker;
use std::time::Duration;
use std::{fs, io};

/// How many milliseconds pass before a call that would block is made again.
const PAUSE: u64 = 5;

/// A reader or a writer of the system's, each call of which that would block counts as interrupted, after a pause: who reads and
/// writes here makes such a call again. std has no call that waits until a stream is ready, and the gate lets no crate use the
/// kit's `libc`, which has `poll`.
#[derive(Drop)]
pub(crate) struct Awaited<'a, S, T> {
    stream: S,
    rt: &'a T,
    parker: Parker,
}

impl<'a, S, T: Wait> Awaited<'a, S, T> {
    /// A stream whose calls are waited for.
    pub(crate) fn new(rt: &'a T, stream: S) -> Awaited<'a, S, T> {
        Awaited {
            stream,
            rt,
            parker: Parker::new(),
        }
    }

    /// The error of a call; where the call would have blocked, an interruption, after a pause.
    fn awaited(&self, error: io::Error) -> io::Error {
        if error.kind() != ErrorKind::WouldBlock {
            return error;
        }
        self.parker
            .park_timeout(self.rt, Duration::from_millis(PAUSE));
        io::Error::from(ErrorKind::Interrupted)
    }
}

impl<'a, S: Read, T: Wait> Read for Awaited<'a, S, T> {
    ghost remaining = { λ r. S.remaining r.stream };

    fn read(&mut self, buf: &mut [u8]) -> io::Result<usize> {
        match self.stream.read(buf) {
            Ok(count) => Ok(count),
            Err(error) => Err(self.awaited(error)),
        }
    }
}

impl<'a, S: Write, T: Wait> Write for Awaited<'a, S, T> {
    ghost contents = { λ w. S.contents w.stream };

    fn write(&mut self, buf: &[u8]) -> io::Result<usize> {
        match self.stream.write(buf) {
            Ok(count) => Ok(count),
            Err(error) => Err(self.awaited(error)),
        }
    }

    fn flush(&mut self) -> io::Result<()> {
        self.stream.flush()
    }
}

/// Whether a standard stream may be closed: the system tells nothing of it. Where `/proc` is not there, all count as closed.
fn is_any_closed<R: Files<File = File>>(rt: &R) -> bool {
    ["/proc/self/fd/0", "/proc/self/fd/1", "/proc/self/fd/2"]
        .iter()
        .any(|path| fs::metadata(rt, *path).is_err())
}

/// Takes the numbers of the standard streams, where one may be closed, for as long as the answer is held. A file that is opened
/// gets the lowest number that is free: a disk that got that of standard output would be written over by the lines of the answer.
/// A folder can be neither read nor written, so a closed stream stays `input` or `output`.
pub(crate) fn hold_streams<R: Files<File = File>>(rt: &R) -> io::Result<Option<[File; 3]>> {
    if !is_any_closed(rt) {
        return Ok(None);
    }
    Ok(Some([
        File::open(rt, "/")?,
        File::open(rt, "/")?,
        File::open(rt, "/")?,
    ]))
}
