// A file as a disk. It claims no law.
ghost use Rattle.std.specs.Prelude.{◌≡◌, ◌-◌, ◌^◌, ◌<◌, ◌≤◌, ◌↔◌, [], ℕ, IfOk, IsErr, IsOk, IsTrue, false};
ghost use Rattle.std.specs.Fs.{metadata_len};
ghost use Rattle.td_disk.specs.Disk.{Rises};

use crate::{Disk, Fault, FileCall, FileFailure, MakeError};
use std::fs::{File, Metadata, OpenOptions};
use std::os::unix::fs::FileExt;
use std::rt::Files;
use std::{fs, io};

/// A file as a disk, locked so that no other `FileDisk` has it at the same time. It is lawful where
/// the operating system, the device below it and whoever else writes the file make it so, which no
/// contract claims. A sync that failed is final, and every later call fails: the system may have
/// dropped what was not yet on the device, and would answer the next sync with success.
///
/// A new `FileDisk` of the file begins anew. It may read the system's memory of bytes that the device does not have, until the
/// machine is started again. Nothing in a program can know that. So the documents say what an operator has to do before the file
/// is used again.
#[derive(Drop)]
pub struct FileDisk {
    file: File,
    size: u64,
    failures: u64,
    has_failed_sync: bool,
    last_failure: Option<FileFailure>,
}

/// Opens a file as it stands to be read and written, and locks it. A folder, a device or a pipe is no file here: a sync of one
/// fails, or says nothing. The lock keeps out only those who ask for it.
fn open_locked<R: Files<File = File>>(
    rt: &R,
    path: &str,
    options: &OpenOptions,
) -> Result<File, MakeError> {
    let file = options.open(rt, path)?;
    if !file.metadata()?.is_file() {
        return Err(MakeError::File);
    }
    file.try_lock().map_err(io::Error::from)?;
    Ok(file)
}

/// The folder in which the file of a path stands, behind all links of the path.
fn folder_of<R: Files<File = File> + AllocGlobal>(rt: &R, path: &str) -> Result<File, MakeError> {
    let file = fs::canonicalize(rt, path)?;
    match file.parent() {
        Some(folder) => Ok(File::open(rt, folder)?),
        None => Err(MakeError::File),
    }
}

impl FileDisk {
    ghost use Rattle.td_disk.specs.FileDisk.{has_failed_sync, last_failure, MayCall, IsOf};

    /// Makes the file with `size` bytes, all of them 0, and writes one that stands there anew. The
    /// file is synced, and so is the folder in which it stands, behind links too: until then a crash may leave
    /// it without the file's name. The folder is opened before a file that stands there is cut.
    ///
    /// It refuses `File` where the file cannot be made, sized or synced, or its folder cannot be
    /// opened, or it is no file but a folder, a device or a pipe, or another has locked it (in the last three it is
    /// left as it stands), and `Memory`.
    pub fn create<R: Files<File = File> + AllocGlobal>(
        rt: &R,
        path: &str,
        size: u64,
    ) -> Result<FileDisk, MakeError>
        ensures size { IfOk result (λ d. (⟦<FileDisk as Disk>⟧.view d).capacity ≡ size) }
        ensures too_large { 2 ^ 63 ≤ size → IsErr result }
        ensures failures { IfOk result (λ d. (⟦<FileDisk as Disk>⟧.view d).failures ≡ 0) }
        ensures no_failed_sync { IfOk result (λ d. has_failed_sync d ≡ false) }
    {
        let mut options = OpenOptions::new();
        options.read(true).write(true).create(true);
        let file = open_locked(rt, path, &options)?;
        let folder = folder_of(rt, path)?;
        file.set_len(0)?;
        file.set_len(size)?;
        file.sync_all()?;
        folder.sync_all()?;
        Ok(FileDisk::new(file, size))
    }

    /// Opens a file that stands there, for the size that it has now. It refuses `File` where the
    /// file cannot be opened to be read and written, or measured, or it is no file but a folder, a device or a
    /// pipe, or another has locked it, and `Memory`.
    pub fn open<R: Files<File = File>>(rt: &R, path: &str) -> Result<FileDisk, MakeError>
        ensures failures { IfOk result (λ d. (⟦<FileDisk as Disk>⟧.view d).failures ≡ 0) }
        ensures no_failed_sync { IfOk result (λ d. has_failed_sync d ≡ false) }
    {
        let mut options = OpenOptions::new();
        options.read(true).write(true);
        let file = open_locked(rt, path, &options)?;
        let measured = file.metadata()?;
        Ok(FileDisk::of_measured(file, &measured))
    }

    // A disk of this file, as large as it was measured.
    fn of_measured(file: File, measured: &Metadata) -> FileDisk
        ensures size { result.size ≡ metadata_len measured.now }
        ensures failures { result.failures ≡ 0 }
        ensures no_failed_sync { result.has_failed_sync ≡ false }
    {
        FileDisk::new(file, measured.len())
    }

    // A disk of this file, no call of which has failed.
    fn new(file: File, size: u64) -> FileDisk
        ensures size { result.size ≡ size }
        ensures failures { result.failures ≡ 0 }
        ensures no_failed_sync { result.has_failed_sync ≡ false }
    {
        FileDisk {
            file,
            size,
            failures: 0,
            has_failed_sync: false,
            last_failure: None,
        }
    }

    /// The last call of the file that failed, and how; none where none has. A call that is refused since a sync failed before it
    /// is no call of the file.
    pub fn last_failure(&self) -> Option<FileFailure>
        ensures { result ≡ last_failure self.now }
    {
        self.last_failure
    }

    // Whether the file may still be called.
    fn may_call(&self) -> bool
        ensures { IsTrue result ↔ MayCall self.now }
    {
        !self.has_failed_sync && self.failures < u64::MAX
    }

    // Counts a failure, and answers it.
    fn count_failure(&mut self) -> Fault
        ensures later { self.old.failures ≤ self.new.failures }
        ensures rises { Rises self.old.failures self.new.failures }
        ensures bound { self.new.failures < 2 ^ 64 }
        ensures size { self.new.size ≡ self.old.size }
        ensures has_failed_sync { self.new.has_failed_sync ≡ self.old.has_failed_sync }
        ensures last_failure { self.new.last_failure ≡ self.old.last_failure }
    {
        self.failures = self.failures.saturating_add(1);
        Fault::Device
    }

    // Whether a call of the file was done. One that failed is kept, with its cause.
    fn is_done(&mut self, call: FileCall, answer: io::Result<()>) -> bool
        ensures done { IsTrue result ↔ IsOk answer }
        ensures failures { self.new.failures ≡ self.old.failures }
        ensures size { self.new.size ≡ self.old.size }
        ensures has_failed_sync { self.new.has_failed_sync ≡ self.old.has_failed_sync }
        ensures told { IsErr answer → IsOf call self.new.last_failure }
    {
        match answer {
            Ok(()) => true,
            Err(error) => {
                self.last_failure = Some(FileFailure::of(call, &error));
                false
            }
        }
    }
}

impl Disk for FileDisk {
    ghost use Rattle.td_disk.specs.FileDisk.{FileCalls, FileSyncs};
    ghost use Rattle.td_disk.specs.declared.file_failure.FileCall.TheVariants.{Read, Write};

    ghost view = { λ f. record { capacity = f.size; failures = f.failures; lawful = ⊥; state = record { bytes = []; images = λ _. ⊥; since = λ _ _. ⊥; moment = 0 } } };

    ghost read_gives = { λ f _ _ result g. FileCalls Read result f g };

    ghost write_gives = { λ f _ _ result g. FileCalls Write result f g };

    ghost sync_gives = { λ f result g. FileSyncs result f g };

    ghost reads_image = { λ _ no. absurd no };

    ghost image_size = { λ _ _ no _. absurd no };

    ghost counts_now = { λ _ _ _ no _ _. absurd no };

    ghost only_now = { λ _ _ no _. absurd no };

    fn size(&self) -> u64 {
        self.size
    }

    fn read(&mut self, at: u64, bytes: &mut [u8]) -> Result<(), Fault> {
        if self.may_call() {
            let answer = self.file.read_exact_at(bytes, at);
            if self.is_done(FileCall::Read, answer) {
                return Ok(());
            }
        }
        Err(self.count_failure())
    }

    fn write(&mut self, at: u64, bytes: &[u8]) -> Result<(), Fault> {
        if self.may_call() {
            let answer = self.file.write_all_at(bytes, at);
            if self.is_done(FileCall::Write, answer) {
                return Ok(());
            }
        }
        Err(self.count_failure())
    }

    fn sync(&mut self) -> Result<(), Fault> {
        if self.may_call() {
            let answer = self.file.sync_all();
            if self.is_done(FileCall::Sync, answer) {
                return Ok(());
            }
        }
        self.has_failed_sync = true;
        Err(self.count_failure())
    }
}
