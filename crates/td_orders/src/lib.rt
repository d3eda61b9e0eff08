//! What the input of a feed or a stream asks for: its lines, the orders that they spell, and which of these are taken at once.
//!
//! It knows no disk and no keeper: what a disk has so far is handed in (`Room`). So it is proved beside them, and clauses speak of an input
//! alone: of its orders up to its first fault (`script_of`), and of the same at a disk, where epochs name their places (`placed`).
//!
//! For example `0 7 1`, `.` and `cut` are two orders: to submit a batch of one record as the next epoch, and to cut.
#![tactic(auto)]

mod epoch;
mod excerpt;
mod file_name;
pub mod laws;
mod line_reader;
mod note;
mod order;
mod source;

pub use excerpt::Excerpt;
pub use file_name::FileName;
pub use note::{Cause, Flaw, Note, write_note};
pub use order::{CopyTo, FeedLine, Order, Place, read_orders};
pub use source::{Asked, Asking, Listed, Room, Streamed};
