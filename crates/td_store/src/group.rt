//! A group of epochs that is put on a disk's ring at once: each image since the start of the call tells what was told before, or that and the
//! whole group. And cells that no told epoch uses, which are closed at once.
//!
//! A ring counts up to the first cell that is closed or bears another epoch. So a group is opened by one gate, that of its first
//! cell. Until that is open nothing of the group counts, whatever a crash left of the cells behind. With the gates of all cells
//! opened before one sync a stop could leave any beginning of the group. All or nothing leaves less to think of, and its syncs do
//! not grow with its size.
//!
//! Of three epochs, for example, the first payload is written, and then the second and third cell with their gates by one write;
//! one sync does for all. Then the first gate is opened, and synced; with the same sync the cell of the next epoch is closed, where
//! it is open and no told epoch uses it.
mod cells;
mod free;
pub mod laws;
mod submit;

pub use cells::ring_of;
pub use free::close_free;
pub use submit::{NextCell, submit_group};
