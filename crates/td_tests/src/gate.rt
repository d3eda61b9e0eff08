//! A region of a file, of which `bench/put_calls.py` counts the calls.
use std::alloc::Global;
use std::fs::{self, OpenOptions};
use std::test::Fail;
use std::{env, process};
use td_disk::{Disk, Fault, FileDisk};
use td_gate::{GateError, Region};

const REGION: Region = Region { at: 2, len: 3 };

/// Puts a payload into the region of a disk of eight bytes.
fn put<D: Disk>(disk: &mut D, payload: &[u8; 3]) -> Result<(), Fault> {
    if disk.size() != 8 {
        return Err(Fault::Device);
    }
    REGION.put(disk, payload)
}

/// What the region has.
fn get<D: Disk>(alloc: Global, disk: &mut D) -> Result<Option<Vec<u8>>, GateError> {
    if disk.size() != 8 {
        return Err(GateError::Device);
    }
    REGION.get(alloc, disk)
}

/// The three steps of a put, each by its own call, a read of two bytes, and a last closing.
fn steps_and_shut<D: Disk>(alloc: Global, disk: &mut D) -> Result<Option<Vec<u8>>, Fail> {
    if disk.size() != 8 {
        return Err(Fail::from("size"));
    }
    let closed = match REGION.close(disk) {
        Ok(closed) => closed,
        Err((fault, _disk)) => return Err(Fail::from(fault)),
    };
    let filled = match closed.fill(b"xyz") {
        Ok(filled) => filled,
        Err((fault, _disk)) => return Err(Fail::from(fault)),
    };
    let disk = match filled.open() {
        Ok(disk) => disk,
        Err((fault, _disk)) => return Err(Fail::from(fault)),
    };
    let start = REGION.get_start(alloc, disk, 2)?;
    REGION.shut(disk)?;
    Ok(start)
}

/// All bytes of the disk.
fn bytes_of<D: Disk>(disk: &mut D) -> Result<[u8; 8], Fault> {
    if disk.size() != 8 {
        return Err(Fault::Device);
    }
    let mut bytes = [0; 8];
    disk.read(0, &mut bytes)?;
    Ok(bytes)
}

#[test]
fn a_region_of_a_file(rt: HostRuntime) -> Result<(), Fail> {
    let name = format!(in rt.alloc(); "td_gate-{}", process::id(rt.process()))?;
    let path = env::temp_dir(&rt)?
        .join(rt.alloc(), name.as_str())?
        .into_string();
    let mut disk = FileDisk::create(&rt, path.as_str(), 8)?;
    assert!(rt; get(rt.alloc(), &mut disk)?.is_none());
    put(&mut disk, b"abc")?;
    assert_eq!(rt; bytes_of(&mut disk)?, *b"\0\0abc\xA5\0\0");
    let payload = get(rt.alloc(), &mut disk)?.ok_or("closed")?;
    assert_eq!(rt; payload.as_slice(), b"abc".as_slice());
    put(&mut disk, b"xyz")?;
    let start = steps_and_shut(rt.alloc(), &mut disk)?.ok_or("closed")?;
    assert_eq!(rt; start.as_slice(), b"xy".as_slice());
    assert_eq!(rt; bytes_of(&mut disk)?, *b"\0\0xyz\0\0\0");

    let mut options = OpenOptions::new();
    options.write(true);
    options.open(&rt, path.as_str())?.set_len(5)?;
    assert_eq!(rt; get(rt.alloc(), &mut disk).err(), Some(GateError::Device));
    assert_eq!(rt; put(&mut disk, b"xyz"), Err(Fault::Device));
    fs::remove_file(&rt, path.as_str())?;
    Ok(())
}
