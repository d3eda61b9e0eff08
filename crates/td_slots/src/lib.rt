//! Two slots on a disk, of which the newest holds the kept states after an epoch. The one contract is that of
//! [`Slots::write`]: each later image has the newest slot of before, or the one that is written.
//!
//! There are two, so that the one that counts is never written over. A write goes into the other, and the greater epoch counts:
//! no pointer on the disk has to be switched. The first write of a disk that was formatted, for example, goes into slot 1.
#![tactic(auto)]

mod error;
pub mod laws;
mod payload;
mod slots;

pub use error::SlotsError;
pub use slots::{Checkpoint, Slots};
