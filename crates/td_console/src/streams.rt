//! Readers and writers, with words for those that do not fail, for which std has none. An interruption is no failure: such a read
//! is made again, and counts as one.
ghost use Rattle.std.specs.Prelude.{ℕ, suc, zero, ◌<◌, List, Option, None, Some, length, ◌+◌, ◌≤◌, vec_len, vec_capacity};
ghost use Rattle.std.specs.Io.{ReadsAtMost};
ghost use Rattle.std.specs.Io.KnownBytes.{ReadConsumes, Appends};
ghost use Rattle.td_console.specs.Streams.{never, EndsOr};
ghost use Rattle.td_console.specs.StreamProofs.{not_below};
ghost use Rattle.std.specs.Result.{OnOk, IsOk};

use std::io::{Error, ErrorKind, Read, Result, Write};

/// A reader, and what is known of it.
pub trait Source {
    /// The bytes that it will give from here on, where they are known.
    ghost remaining: { Self → Option (List ℕ) };

    /// The end comes within so many reads from here on, and none of them fails but for an interruption.
    ghost EndsWithin: { Self → ℕ → Type 0 };

    /// The end is told by a read.
    ghost some_read: { (s : Self) → EndsWithin s zero → ⊥ };

    /// Reads some bytes into `buf`, and answers how many: 0 at the end alone, where `buf` has room.
    fn read_piece(&mut self, buf: &mut [u8]) -> Result<usize>
        ensures bound { ReadsAtMost result buf.new }
        ensures bytes { ReadConsumes (remaining self.old) (remaining self.new) result buf.new }
        ensures steady { (n : ℕ) → EndsWithin self.old (suc n) → 0 < length buf.old → EndsOr (EndsWithin self.new n) result };
}

impl Source for &[u8] {
    ghost remaining = { λ s. Some s.now };

    ghost EndsWithin = { λ s n. length s.now < n };

    ghost some_read = { λ s e. not_below e };

    fn read_piece(&mut self, buf: &mut [u8]) -> Result<usize> {
        self.read(buf)
    }
}

/// Any reader of std's. When it fails is not known.
#[derive(Drop)]
pub struct StdReader<R>(pub R);

impl<R: Read> Source for StdReader<R> {
    ghost remaining = { λ r. R.remaining r.0 };

    ghost EndsWithin = { λ _. never };

    ghost some_read = { λ _ e. e };

    fn read_piece(&mut self, buf: &mut [u8]) -> Result<usize> {
        self.0.read(buf)
    }
}

/// A writer, and what is known of it.
pub trait Sink {
    /// The bytes that it holds, where they are known.
    ghost contents: { Self → Option (List ℕ) };

    /// It does not fail at so many bytes.
    ghost HasRoom: { Self → ℕ → Type 0 };

    /// Writes all bytes of `text`, and hands them on.
    fn write_text(&mut self, text: &[u8]) -> Result<()>
        ensures bytes { OnOk result (Appends (contents self.old) (contents self.new) text.now) }
        ensures room { HasRoom self.old (length text.now) → IsOk result };
}

/// It has room for what its capacity holds beyond its bytes.
impl Sink for Vec<u8> {
    ghost contents = { λ v. Some v.items };

    ghost HasRoom = { λ v n. vec_len v + n ≤ vec_capacity v };

    fn write_text(&mut self, text: &[u8]) -> Result<()> {
        match self.extend_from_slice(text) {
            Ok(()) => Ok(()),
            Err(_) => Err(Error::from(ErrorKind::OutOfMemory)),
        }
    }
}

/// Any writer of std's. When it fails is not known.
#[derive(Drop)]
pub struct StdWriter<W>(pub W);

impl<W: Write> Sink for StdWriter<W> {
    ghost contents = { λ w. W.contents w.0 };

    ghost HasRoom = { λ _. never };

    fn write_text(&mut self, text: &[u8]) -> Result<()> {
        self.0.write_all(text)?;
        self.0.flush()
    }
}
