//! A ring of cells on a disk, in which what was submitted as an epoch stands until its cell is used again. The one contract is
//! that of [`Journal::append`]: in every later image the epochs before it are told as before, and it after them or not.
//!
//! Epoch e stands in cell `e mod n`, and bears its number. So the ring ends where a cell is closed or bears another number, and
//! no counter on the disk has to be kept true. A cut frees cells without writing them. For example the last epoch is 12 and the
//! checkpoint's is 8, of ten cells. A reading begins at cell 9 and ends at cell 3, which is closed or bears 3.
#![tactic(auto)]

mod error;
mod journal;
mod kept;
pub mod laws;
mod payload;

pub use error::JournalError;
pub use journal::Journal;
pub use payload::{Counts, Submitted, greatest_counted, greatest_request};
