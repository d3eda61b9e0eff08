//! A file of the system as a disk, which no contract speaks of.
use std::fs::{self, OpenOptions};
use std::test::Fail;
use std::{env, process};
use td_disk::{Disk, Fault, FileCall, FileDisk, MakeError};

/// The calls of the sequence, by number from 1, on a disk of four bytes.
fn make_call<D: Disk>(disk: &mut D, number: u64) -> Result<(), Fault> {
    if disk.size() != 4 {
        return Err(Fault::Device);
    }
    match number {
        1 => disk.write(1, &[1, 2]),
        3 => disk.write(2, &[3, 4]),
        4 => disk.write(0, &[5]),
        _ => disk.sync(),
    }
}

fn bytes_read<D: Disk>(disk: &mut D) -> Result<[u8; 4], Fault> {
    if disk.size() != 4 {
        return Err(Fault::Device);
    }
    let mut bytes = [0; 4];
    disk.read(0, &mut bytes)?;
    Ok(bytes)
}

#[test]
fn texts_of_refusals(rt: HostRuntime) -> Result<(), Fail> {
    assert_eq!(rt; Fault::Device.number(), 1);
    assert_eq!(rt; Fault::Device.to_string(rt.alloc())?.as_str(), "device");
    assert_eq!(rt; MakeError::File.to_string(rt.alloc())?.as_str(), "file");
    assert_eq!(rt; MakeError::Memory.to_string(rt.alloc())?.as_str(), "memory");
    Ok(())
}

/// The path of a file of this test alone.
fn file_path(rt: &HostRuntime, name: &str) -> Result<String, Fail> {
    let name = format!(in rt.alloc(); "td_disk-{}-{name}", process::id(rt.process()))?;
    let path = env::temp_dir(rt)?.join(rt.alloc(), name.as_str())?;
    Ok(path.into_string())
}

/// Why no disk was made of a file, opened or created: the numbers, and 0 where one was made.
fn refusals(rt: &HostRuntime, path: &str) -> (u8, u8) {
    let opened = FileDisk::open(rt, path).map_or_else(|e| e.number(), |_disk| 0);
    let created = FileDisk::create(rt, path, 4).map_or_else(|e| e.number(), |_disk| 0);
    (opened, created)
}

/// What is told of the last call of a file that failed.
fn cause_told(rt: &HostRuntime, disk: &FileDisk) -> Result<String, Fail> {
    match disk.last_failure() {
        Some(failure) => Ok(failure.to_string(rt.alloc())?),
        None => Ok(String::new(rt.alloc())),
    }
}

#[test]
fn a_file_is_made_locked_opened_and_cut_short(rt: HostRuntime) -> Result<(), Fail> {
    let path = file_path(&rt, "again")?;
    fs::write(&rt, path.as_str(), "what stood there before")?;
    let mut disk = FileDisk::create(&rt, path.as_str(), 4)?;
    assert_eq!(rt; bytes_read(&mut disk)?, [0, 0, 0, 0]);
    for number in 1..6 {
        make_call(&mut disk, number)?;
    }
    assert_eq!(rt; refusals(&rt, path.as_str()), (1, 1));
    drop(disk);

    let mut opened = FileDisk::open(&rt, path.as_str())?;
    assert_eq!(rt; bytes_read(&mut opened)?, [5, 1, 3, 4]);
    let mut options = OpenOptions::new();
    options.write(true);
    options.open(&rt, path.as_str())?.set_len(3)?;
    assert_eq!(rt; bytes_read(&mut opened), Err(Fault::Device));
    assert_eq!(rt;
        cause_told(&rt, &opened)?.as_str(),
        "read: the file has become shorter"
    );
    assert_eq!(rt; opened.size(), 4);
    fs::remove_file(&rt, path.as_str())?;

    let missing = file_path(&rt, "missing/file")?;
    assert_eq!(rt; refusals(&rt, missing.as_str()), (1, 1));
    assert_eq!(rt; refusals(&rt, "/"), (1, 1));
    assert_eq!(rt; refusals(&rt, "/dev/null"), (1, 1));
    Ok(())
}

#[test]
fn a_long_write_into_a_file(rt: HostRuntime) -> Result<(), Fail> {
    let path = file_path(&rt, "long")?;
    let mut disk = FileDisk::create(&rt, path.as_str(), 100_000)?;
    let sevens = vec![in rt.alloc(); 7; 100_000]?;
    disk.write(0, &sevens)?;
    let mut bytes = vec![in rt.alloc(); 0; 100_000]?;
    disk.read(0, &mut bytes)?;
    assert!(rt; bytes == sevens);
    fs::remove_file(&rt, path.as_str())?;
    Ok(())
}

// The system syncs no file of /proc. Reads and writes of no bytes would succeed, had no sync failed.
#[test]
fn a_sync_that_failed_is_final(rt: HostRuntime) -> Result<(), Fail> {
    let mut disk = FileDisk::open(&rt, "/proc/self/comm")?;
    disk.write(0, &[])?;
    assert!(rt; disk.last_failure().is_none());
    assert_eq!(rt; disk.sync(), Err(Fault::Device));
    assert!(rt;
        disk.last_failure()
            .is_some_and(|it| it.call == FileCall::Sync)
    );
    assert_eq!(rt; disk.read(0, &mut []), Err(Fault::Device));
    assert_eq!(rt; disk.write(0, &[]), Err(Fault::Device));
    Ok(())
}
