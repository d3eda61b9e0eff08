//! A disk that is made to tell what another one tells, all of it or up to an epoch, on a disk of another shape. That is its
//! checkpoint, the greatest request number up to that, and the epochs after it. The one contract is that of [`copy`]. The new
//! disk stands for what the old one stands for up to there. A stop in the middle leaves it not formatted, or telling that.
//!
//! It reads, weighs, makes and writes, in this order, and the head last: until that is there nothing reads the file as a disk.
//! So no stop in the middle needs a rule of its own.
//!
//! For example a journal of 100 cells that is always full becomes one of 1,000, by a copy between two feeds.
mod disk;
mod epochs;
mod error;
pub mod laws;
mod room;
mod told;
mod until;
mod zeros;

pub use disk::copy;
pub use error::CopyError;
pub use room::check_room;
pub use told::write_told;
pub use until::keep_until;
