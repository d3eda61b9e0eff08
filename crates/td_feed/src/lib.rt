//! Feeding and streaming to a disk, over any disk, reader and writer. Their one contract: a feed or a stream that answers Ok leaves a disk that
//! stands for what it stood for before and each epoch of the input that is new to it, once.
//!
//! They are a crate of their own above `td_orders`, which reads the input, `td_console` and the keeper, apart from the program's words
//! (`td_words`). So a check of either loads nothing of the other. Disk, reader and writer are type parameters, and what is proved of a feed
//! holds over any lawful disk. What is written is said by the keeper's replies, so its contract carries over to the lines. `feed`,
//! `stream` and `upgrade` take the disk and hand it back, since a keeper has it meanwhile.
//!
//! For example a feed of `0 7 1` and `.` submits one record as the next epoch, and writes `ack 1` on a new disk.
#![tactic(auto)]

mod copy;
mod feeder;
mod host;
pub mod laws;
mod reply_lines;
mod session;
mod under_way;
mod version;

pub use feeder::Fed;
pub use host::{Host, NoHost, Why};
pub use reply_lines::{Marked, Voice};
pub use session::{Session, StreamOptions};
pub use version::upgrade;
