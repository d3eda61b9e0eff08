//! Readers and writers that are slow, that fail in mid-stream or that are interrupted: what no contract says, and no row
//! on the program shows.
use std::alloc::Global;
use std::io::{Error, ErrorKind, Read, Write};
use std::test::Fail;
use td_calls::{Calls, Stock, StockCalls};
use td_console::{Fault, StdReader, StdWriter, batch};

const INPUT: &str = "0 input\n1 output 0\n--\n0 9 -2\n0 7 1\n.\n";

const OUTPUT: &str = "1 1 7 1\n1 1 9 -2\n";

/// A slice and a vector.
#[test]
fn bytes_in_memory(rt: HostRuntime) -> Result<(), Fail> {
    let calls: StockCalls = Calls::new(rt.alloc());
    let mut written = Vec::new(rt.alloc());
    let mut reader = INPUT.as_bytes();
    batch::<_, _, Stock, StockCalls>(rt.alloc(), &mut reader, &mut written, &calls)?;
    assert_eq!(rt; written.as_slice(), OUTPUT.as_bytes());
    Ok(())
}

/// A reader that gives one byte at a time, each after an interruption, and at the end fails or not.
#[derive(Drop)]
struct Slow<'a> {
    bytes: &'a [u8],
    is_interrupted: bool,
    fails: bool,
}

impl Read for Slow<'_> {
    fn read(&mut self, buf: &mut [u8]) -> std::io::Result<usize> {
        if buf.is_empty() {
            return Ok(0);
        }
        self.is_interrupted = !self.is_interrupted;
        if self.is_interrupted {
            return Err(Error::from(ErrorKind::Interrupted));
        }
        match self.bytes.split_first() {
            Some((first, rest)) => {
                buf[0] = *first;
                self.bytes = rest;
                Ok(1)
            }
            None if self.fails => Err(Error::from(ErrorKind::BrokenPipe)),
            None => Ok(0),
        }
    }
}

/// A writer that takes one byte at a time, and fails when it is full.
#[derive(Drop)]
struct Narrow {
    bytes: Vec<u8>,
    room: usize,
}

impl Write for Narrow {
    fn write(&mut self, buf: &[u8]) -> std::io::Result<usize> {
        if buf.is_empty() {
            return Ok(0);
        }
        if self.room == 0 {
            return Err(Error::from(ErrorKind::StorageFull));
        }
        if self.bytes.push(buf[0]).is_err() {
            return Err(Error::from(ErrorKind::OutOfMemory));
        }
        self.room -= 1;
        Ok(1)
    }

    fn flush(&mut self) -> std::io::Result<()> {
        Ok(())
    }
}

#[test]
fn slow_and_failing_streams(rt: HostRuntime) -> Result<(), Fail> {
    let calls: StockCalls = Calls::new(rt.alloc());
    for (fails, room, want, written) in [
        (false, 17, Ok(()), OUTPUT),
        (true, 17, Err(Fault::Input), ""),
        (false, 7, Err(Fault::Output), "1 1 7 1"),
    ] {
        let mut reader = StdReader(Slow {
            bytes: INPUT.as_bytes(),
            is_interrupted: false,
            fails,
        });
        let mut writer = StdWriter(Narrow {
            bytes: Vec::new(rt.alloc()),
            room,
        });
        let answer = batch::<_, _, Stock, StockCalls>(rt.alloc(), &mut reader, &mut writer, &calls);
        assert_eq!(rt; answer, want);
        let StdWriter(Narrow { bytes, room: _ }) = writer;
        assert_eq!(rt; bytes.as_slice(), written.as_bytes());
    }
    Ok(())
}
