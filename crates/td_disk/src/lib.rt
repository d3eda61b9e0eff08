//! A disk of a fixed number of bytes, as code above is proved against it. Between two syncs a crash may leave any bytes in each
//! range that was written, and nothing else changes. The one contract is that of the trait [`Disk`]. [`MemoryDisk`] keeps it and
//! can be crashed at every moment. [`FuseDisk`] keeps it where its inner disk does and stops at a chosen call. [`FailDisk`]
//! likewise, and one of its calls fails. [`ReadAhead`] likewise, and is read a block at a time until its first write. [`FileDisk`]
//! is a file: no contract claims that one keeps it.
//!
//! The law bounds images from above: it says what a crash may leave, and not what it does. So it holds of more disks, and what is
//! proved over it holds of each. A write of two bytes, for example, may leave both, either, or any other two, until a sync
//! succeeds.
#![tactic(auto)]

mod ahead;
mod disk;
mod error;
mod fail;
mod file;
mod file_failure;
mod fuse;
pub mod laws;
mod memory;

pub use ahead::ReadAhead;
pub use disk::Disk;
pub use error::{Fault, MakeError};
pub use fail::FailDisk;
pub use file::FileDisk;
pub use file_failure::{FileCall, FileFailure};
pub use fuse::FuseDisk;
pub use memory::{Fill, MemoryDisk};
