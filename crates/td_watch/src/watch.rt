//! A watch as it is made.
ghost use Rattle.std.specs.Prelude.{◌≡◌, vec_len, IfOk, All};
ghost use Rattle.td_watch.specs.Words.{KeepsOrder};

use crate::error::WatchError;
use crate::reader::Reader;
use crate::writer::Writer;
use std::alloc::Global;

/// A watch's one writer and its readers, each of which may move to a thread of its own.
///
/// Nothing else belongs to a watch. The table of words is shared by these, and goes with the last of them.
#[derive(Drop)]
pub struct Watch {
    pub writer: Writer,
    pub readers: Vec<Reader>,
}

impl Watch {
    /// A watch of the words (acked, done, kept) with this many readers, of which there may be none. The writer and each reader have seen these words.
    ///
    /// Refuses with [`WatchError::Memory`] where an allocation is refused. No later call takes memory.
    pub fn new(alloc: Global, words: [u64; 3], readers: u8) -> Result<Watch, WatchError>
        requires { KeepsOrder words }
        ensures words { IfOk result (λ w. w.writer.words ≡ words) }
        ensures count { IfOk result (λ w. vec_len w.readers ≡ readers) }
        ensures readers { IfOk result (λ w. All (λ r. r ≡ w.writer) w.readers.items) }
    {
        let mut writer = Writer::new(alloc, words)?;
        let mut all = Vec::with_capacity(alloc, usize::from(readers))?;
        for _ in 0..readers {
            all.push(writer.new_reader(words)?)?;
        }
        Ok(Watch {
            writer,
            readers: all,
        })
    }
}
