//! A watch: three words, acked, done and kept, which one writer stores and readers in other
//! threads load, with no lock. They stand in this order everywhere, and keep
//! `kept <= done <= acked`.
//!
//! Its contract: what a reader reads never goes back, word by word, and never passes the writer.
//!
//! A reader waits for nobody, so a follower cannot hold the writer up. Each word is an atomic of a table, and a rule of the table
//! bounds each reader's words by the writer's. The writer stores acked first and kept last, and a reader loads them the other way
//! round. So what is read is in order, also in the middle of a publish. After `[5, 3, 2]`, for example, a reader may see
//! `[6, 3, 2]` while `[6, 4, 2]` is published.
#![tactic(auto)]

mod error;
mod reader;
mod rule;
mod watch;
mod writer;

pub use error::WatchError;
pub use reader::Reader;
pub use watch::Watch;
pub use writer::Writer;
