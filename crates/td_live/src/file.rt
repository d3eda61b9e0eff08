// A file as a disk that is only read. It claims no law.
ghost use Rattle.std.specs.Prelude.{◌≡◌, ◌-◌, ◌^◌, ◌<◌, ◌≤◌, ◌↔◌, ◌⊎◌, [], ℕ, IfOk, IsErr, IsOk, IsTrue, false};
ghost use Rattle.std.specs.Fs.{metadata_len};
ghost use Rattle.td_disk.specs.Disk.{Rises};
ghost use Rattle.td_live.specs.Files.{TakesNoSync};

use std::fs::File;
use std::io::ErrorKind;
use std::os::unix::fs::FileExt;
use std::rt::Files;
use std::{fs, io};
use td_disk::{Disk, Fault, FileCall, FileFailure, MakeError};

/// A file as a disk that is only read. It needs no right to write the file, which may stand on a medium that nobody can write. As with
/// `FileDisk`, it is lawful where the operating system, the device and whoever writes the file make it so, which no contract claims, and a
/// sync that failed is final.
#[derive(Drop)]
pub struct ReadOnlyFile {
    file: File,
    size: u64,
    failures: u64,
    has_failed_sync: bool,
    last_failure: Option<FileFailure>,
}

/// Opens a file to be read. A folder, a device or a pipe is no file here; a pipe would be waited for, so it is looked at first.
fn open_file<R: Files<File = File>>(rt: &R, path: &str) -> Result<File, MakeError> {
    if !fs::metadata(rt, path)?.is_file() {
        return Err(MakeError::File);
    }
    let file = File::open(rt, path)?;
    if !file.metadata()?.is_file() {
        return Err(MakeError::File);
    }
    Ok(file)
}

impl ReadOnlyFile {
    ghost use Rattle.td_live.specs.Files.{has_failed_sync, last_failure, MayRead};
    ghost use Rattle.td_disk.specs.FileDisk.{IsOf};

    /// Opens a file that stands there to be read, for the size that it has now, and locks it as readers do: many of them may have it
    /// open, and none who writes it. It refuses `File` where the file cannot be opened to be read, or measured, or it is no file but a
    /// folder, a device or a pipe, or somebody who writes it has locked it, and `Memory`.
    pub fn open_shared<R: Files<File = File>>(rt: &R, path: &str) -> Result<ReadOnlyFile, MakeError>
        ensures failures { IfOk result (λ d. (⟦<ReadOnlyFile as Disk>⟧.view d).failures ≡ 0) }
        ensures no_failed_sync { IfOk result (λ d. has_failed_sync d ≡ false) }
    {
        let file = open_file(rt, path)?;
        file.try_lock_shared().map_err(io::Error::from)?;
        let measured = file.metadata()?;
        Ok(ReadOnlyFile::of_file(file, measured.len()))
    }

    /// The same without a lock, so that another process may write the file meanwhile.
    pub fn open_beside<R: Files<File = File>>(rt: &R, path: &str) -> Result<ReadOnlyFile, MakeError>
        ensures failures { IfOk result (λ d. (⟦<ReadOnlyFile as Disk>⟧.view d).failures ≡ 0) }
        ensures no_failed_sync { IfOk result (λ d. has_failed_sync d ≡ false) }
    {
        let file = open_file(rt, path)?;
        let measured = file.metadata()?;
        Ok(ReadOnlyFile::of_file(file, measured.len()))
    }

    // A disk of this file, no call of which has failed.
    fn of_file(file: File, size: u64) -> ReadOnlyFile
        ensures size { result.size ≡ size }
        ensures failures { result.failures ≡ 0 }
        ensures no_failed_sync { result.has_failed_sync ≡ false }
    {
        ReadOnlyFile {
            file,
            size,
            failures: 0,
            has_failed_sync: false,
            last_failure: None,
        }
    }

    /// The last call of the file that failed, and how; none where none has. A write is no call of the file.
    pub fn last_failure(&self) -> Option<FileFailure>
        ensures { result ≡ last_failure self.now }
    {
        self.last_failure
    }

    // Whether the file may still be called.
    fn may_read(&self) -> bool
        ensures { IsTrue result ↔ MayRead self.now }
    {
        !self.has_failed_sync && self.failures < u64::MAX
    }

    // Counts a failure, and answers it.
    fn count_failure(&mut self) -> Fault
        ensures later { self.old.failures ≤ self.new.failures }
        ensures rises { Rises self.old.failures self.new.failures }
        ensures bound { self.new.failures < 2 ^ 64 }
        ensures size { self.new.size ≡ self.old.size }
        ensures has_failed_sync { self.new.has_failed_sync ≡ self.old.has_failed_sync }
        ensures last_failure { self.new.last_failure ≡ self.old.last_failure }
    {
        self.failures = self.failures.saturating_add(1);
        Fault::Device
    }

    // Whether a call of the file was done. One that failed is kept, with its cause.
    fn is_done(&mut self, call: FileCall, answer: io::Result<()>) -> bool
        ensures done { IsTrue result ↔ IsOk answer }
        ensures failures { self.new.failures ≡ self.old.failures }
        ensures size { self.new.size ≡ self.old.size }
        ensures has_failed_sync { self.new.has_failed_sync ≡ self.old.has_failed_sync }
        ensures told { IsErr answer → IsOf call self.new.last_failure }
    {
        match answer {
            Ok(()) => true,
            Err(error) => {
                self.last_failure = Some(FileFailure::of(call, &error));
                false
            }
        }
    }
}

/// The answer of a sync, but of one that the medium does not take: nothing can be written there, so nothing waits to be.
fn unless_none_is_taken(answer: io::Result<()>) -> io::Result<()>
    ensures { IsErr result → result ≡ answer }
{
    match answer {
        Err(error) if takes_no_sync(error.kind()) => Ok(()),
        answer => answer,
    }
}

/// Whether an error of this kind says that a medium takes no sync.
fn takes_no_sync(kind: ErrorKind) -> bool
    ensures { IsTrue result ↔ TakesNoSync kind }
{
    matches!(
        kind,
        ErrorKind::InvalidInput | ErrorKind::ReadOnlyFilesystem
    )
}

impl Disk for ReadOnlyFile {
    ghost use Rattle.td_live.specs.Files.{FileReads, FileRests, FileTakesNoWrite};

    ghost view = { λ f. record { capacity = f.size; failures = f.failures; lawful = ⊥; state = record { bytes = []; images = λ _. ⊥; since = λ _ _. ⊥; moment = 0 } } };

    ghost read_gives = { λ f _ _ result g. FileReads result f g };

    ghost write_gives = { λ f _ _ result g. FileTakesNoWrite result f g };

    ghost sync_gives = { λ f result g. FileRests result f g };

    ghost reads_image = { λ _ no. absurd no };

    ghost image_size = { λ _ _ no _. absurd no };

    ghost counts_now = { λ _ _ _ no _ _. absurd no };

    ghost only_now = { λ _ _ no _. absurd no };

    fn size(&self) -> u64 {
        self.size
    }

    fn read(&mut self, at: u64, bytes: &mut [u8]) -> Result<(), Fault> {
        if self.may_read() {
            let answer = self.file.read_exact_at(bytes, at);
            if self.is_done(FileCall::Read, answer) {
                return Ok(());
            }
        }
        Err(self.count_failure())
    }

    fn write(&mut self, _at: u64, _bytes: &[u8]) -> Result<(), Fault> {
        Err(self.count_failure())
    }

    fn sync(&mut self) -> Result<(), Fault> {
        if self.may_read() {
            let answer = unless_none_is_taken(self.file.sync_all());
            if self.is_done(FileCall::Sync, answer) {
                return Ok(());
            }
        }
        self.has_failed_sync = true;
        Err(self.count_failure())
    }
}
