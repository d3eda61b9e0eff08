//! A disk that is read beside the process that writes it. [`take_snapshot`] reads it over and over into memory, until several readings one after
//! another gave the same bytes, and [`Snapshot`] is a disk of these bytes that nothing changes: what is read of it is of one moment.
//! [`ReadOnlyFile`] is a file that is opened to be read alone, under a lock that readers share, or under none.
//!
//! It is a crate of its own below all that reads disks: it knows nothing of what the bytes mean. That equal readings are one moment of a
//! disk rests on how the disk is written, and docs/LIVE.md says why. Of a disk that nobody writes the contract of [`take_snapshot`] says that
//! the bytes are the disk's.
#![tactic(auto)]

mod error;
mod file;
mod snapshot;
mod take;

pub use error::LiveError;
pub use file::ReadOnlyFile;
pub use snapshot::Snapshot;
pub use take::take_snapshot;
