//! The lines of a reader, as they come.
//!
//! A line is lent where it was read, with its line feed, and is passed over afterwards. So it is not copied, and a plain one is read in one
//! pass.
ghost use Rattle.std.specs.Prelude.{◌≡◌, ◌⊎◌, ◌≤◌, ◌<◌, ◌++◌, [], All, false, ◌==◌, Some, true, OnOk, IfOk, IfErr, IfSome, IfNone, length, take, drop};
ghost use Rattle.std.specs.Io.KnownBytes.{Consumes, IsAtEnd, Keeps};
ghost use Rattle.td_orders.specs.Lines.{EndsLine, FindsLine, IsOverlong, line_in, unread};
ghost use Rattle.td_orders.specs.Scripts.{is_of_reader};

use std::alloc::Global;
use std::io::ErrorKind;
use std::marker::Model;
use td_console::{Fault, LineFault, Source, first_line};

/// How many bytes are read at a time, at most.
// That is what a pipe holds, so a group may be as large.
const PIECE: usize = 65_536;

/// How many bytes a line may have. A line that says anything has fewer than a hundred.
const LINE: usize = 4_096;

/// How many reads one line may take.
const READS: u64 = 1 << 32;

/// Bytes that were read and are in no line yet. Contracts see these alone.
#[derive(Drop)]
struct Unread {
    bytes: Vec<u8>,
    start: usize,
}

impl Model for Unread {
    ghost use Rattle.std.specs.Prelude.{List, ℕ, ◌≤◌, drop, length};

    ghost Value = { List ℕ };

    ghost view = { λ u. drop u.start u.bytes.items };

    ghost invariant = { λ u. u.start ≤ length u.bytes.items };
}

impl Unread {
    /// The bytes.
    fn as_slice(&self) -> &[u8]
        ensures { result.now ≡ self.now }
    {
        &self.bytes[self.start..]
    }

    /// Where the first line ends, behind its line feed; None where it does not stand whole in these bytes.
    fn line_end(&self) -> Option<usize>
        ensures some { IfSome result (EndsLine self.now) }
        ensures none { IfNone result (All (λ b. (b == 10) ≡ false) self.now) }
    {
        let end = self.as_slice().iter().position(|b| *b == b'\n')?;
        Some(end + 1)
    }

    /// Passes over the first bytes.
    fn pass(&mut self, count: usize)
        requires { count ≤ length self.old }
        ensures { self.new ≡ drop count self.old }
    {
        self.start += count;
    }

    /// Takes in bytes that were read, behind those that are left. Refusal: `Memory`.
    fn take_in(&mut self, alloc: Global, piece: &[u8]) -> Result<(), Fault>
        ensures ok { OnOk result (self.new ≡ self.old ++ piece.now) }
        ensures err { IfErr result (λ f. f ≡ Fault.Memory) }
    {
        if self.start < self.bytes.len() {
            self.bytes = Vec::from_slice(alloc, &self.bytes[self.start..])?;
        } else {
            self.bytes.clear();
        }
        self.start = 0;
        self.bytes.extend_from_slice(piece)?;
        Ok(())
    }
}

/// A reader whose lines are taken one by one. Of the input it holds a piece that was read, what is left of the one before, and no more.
#[derive(Drop)]
pub(crate) struct Lines<I: Source> {
    reader: I,
    unread: Unread,
    // What a read fills: room for a piece, once there was a read.
    piece: Vec<u8>,
}

impl<I: Source> Lines<I> {
    /// The lines of a reader.
    pub(crate) fn new(alloc: Global, reader: I) -> Lines<I>
        ensures { unread (I.remaining result.reader) result.unread ≡ I.remaining reader }
    {
        Lines {
            reader,
            unread: Unread {
                bytes: Vec::new(alloc),
                start: 0,
            },
            piece: Vec::new(alloc),
        }
    }

    /// How many bytes the next line has, its line feed too, of which this is the number: it stands in front then; None at the end. It waits
    /// for no more of the input than the line. Refusals: `Input`, `Memory`; and `Syntax` of this line, where it is longer than a line may
    /// be, once so much of it was read.
    pub(crate) fn next_line(&mut self, alloc: Global, number: u64) -> Result<Option<usize>, Fault>
        ensures line { IfOk result (FindsLine (I.remaining self.new.reader) self.new.unread) }
        ensures same { IfOk result (λ _. Keeps (unread (I.remaining self.old.reader) self.old.unread) (unread (I.remaining self.new.reader) self.new.unread)) }
        ensures overlong { IfErr result (IsOverlong (unread (I.remaining self.old.reader) self.old.unread)) }
        ensures err { IfErr result (λ f. is_of_reader f ≡ true) }
    {
        for _read in 0..READS {
            if let Some(end) = self.unread.line_end() {
                return if end <= LINE + 1 {
                    Ok(Some(end))
                } else {
                    Err(Fault::Line(number, LineFault::Syntax))
                };
            }
            let begun = self.unread.as_slice().len();
            if LINE < begun {
                return Err(Fault::Line(number, LineFault::Syntax));
            }
            if self.is_at_end(alloc)? {
                return Ok(if begun == 0 { None } else { Some(begun) });
            }
        }
        Err(Fault::Input)
    }

    /// The same, where the input has given all of the line already and it is no longer than a line may be; else None. It waits for nothing.
    pub(crate) fn given_line(&self) -> Option<usize>
        ensures { IfSome result (λ end. FindsLine (I.remaining self.now.reader) self.now.unread (Some end)) }
    {
        let end = self.unread.line_end()?;
        if end <= LINE + 1 { Some(end) } else { None }
    }

    /// The bytes in front: those of a line that was found.
    pub(crate) fn front(&self, count: usize) -> &[u8]
        requires { count ≤ length self.now.unread }
        ensures { result.now ≡ take count self.now.unread }
    {
        &self.unread.as_slice()[..count]
    }

    /// Passes over the bytes in front.
    pub(crate) fn pass(&mut self, count: usize)
        requires { count ≤ length self.old.unread }
        ensures unread { self.new.unread ≡ drop count self.old.unread }
        ensures reader { self.new.reader ≡ self.old.reader }
    {
        self.unread.pass(count);
    }

    /// Reads some bytes behind those that are left, and answers whether the input has ended instead. Refusals: `Input`, `Memory`.
    fn is_at_end(&mut self, alloc: Global) -> Result<bool, Fault>
        ensures same { IfOk result (λ _. Keeps (unread (I.remaining self.old.reader) self.old.unread) (unread (I.remaining self.new.reader) self.new.unread)) }
        ensures ended { IfOk result (λ ended. ended ≡ true → IsAtEnd (I.remaining self.new.reader) × (self.new.unread ≡ self.old.unread)) }
        ensures err { IfErr result (λ f. (f ≡ Fault.Input) ⊎ (f ≡ Fault.Memory)) }
    {
        make_room(&mut self.piece)?;
        match self.reader.read_piece(&mut self.piece) {
            Ok(count) => {
                self.unread.take_in(alloc, &self.piece[..count])?;
                Ok(count == 0)
            }
            Err(error) if error.kind() == ErrorKind::Interrupted => Ok(false),
            Err(_) => Err(Fault::Input),
        }
    }
}

/// The line that a text begins with, without its line feed.
pub(crate) fn line_in(text: &[u8]) -> &[u8]
    ensures { result.now ≡ line_in text.now }
{
    match first_line(text) {
        Some((line, _)) => line,
        None => &text[..0],
    }
}

/// Room for a piece, where there is none yet. Refusal: `Memory`.
fn make_room(piece: &mut Vec<u8>) -> Result<(), Fault>
    ensures some { OnOk result (0 < length piece.new.items) }
    ensures err { IfErr result (λ f. f ≡ Fault.Memory) }
{
    if piece.is_empty() {
        piece.resize(PIECE, 0)?;
    }
    Ok(())
}
