// Which call of a file failed, and how.
ghost use Rattle.std.specs.Prelude.{◌≡◌};
ghost use Rattle.std.specs.IoError.{error_kind, raw_os_error};

use std::fmt::{Display, Formatter};
use std::io::ErrorKind;
use std::{fmt, io};

/// The error's number for a device that failed, as Linux numbers it.
const EIO: i32 = 5;

/// A call of a file that a disk makes.
#[derive(Clone, Copy, Debug, PartialEq, Eq)]
pub enum FileCall {
    Read,
    Write,
    Sync,
}

impl Display for FileCall {
    fn fmt<W: fmt::Write>(&self, f: &mut Formatter<W>) -> fmt::Result {
        f.write_str(match self {
            FileCall::Read => "read",
            FileCall::Write => "write",
            FileCall::Sync => "sync",
        })
    }
}

/// A call of a file that failed: what the operating system said of it. Its text is the call and the cause, as `write: no space left on
/// device`.
///
/// `Fault::Device` has no cause, since a disk is not always a file. A full file system and a failed sync need opposite deeds of
/// an operator.
#[derive(Clone, Copy, Debug, PartialEq, Eq)]
pub struct FileFailure {
    /// The call.
    pub call: FileCall,
    /// What sort of failure it was.
    pub kind: ErrorKind,
    /// The operating system's number of the error, if it gave one.
    pub number: Option<i32>,
}

impl FileFailure {
    /// The failure of a call that ended with this error.
    pub fn of(call: FileCall, error: &io::Error) -> FileFailure
        ensures call { result.call ≡ call }
        ensures kind { result.kind ≡ error_kind error.now }
        ensures number { result.number ≡ raw_os_error error.now }
    {
        FileFailure {
            call,
            kind: error.kind(),
            number: error.raw_os_error(),
        }
    }
}

impl Display for FileFailure {
    fn fmt<W: fmt::Write>(&self, f: &mut Formatter<W>) -> fmt::Result {
        self.call.fmt(f)?;
        f.write_str(": ")?;
        match self.kind {
            ErrorKind::StorageFull => f.write_str("no space left on device"),
            ErrorKind::UnexpectedEof => f.write_str("the file has become shorter"),
            _ if self.number == Some(EIO) => f.write_str("input/output error"),
            kind => kind.fmt(f),
        }
    }
}
