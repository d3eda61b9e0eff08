//! What a disk stands for: what it tells after a stop, and how a submit and a checkpoint change that. Each image since a
//! call's start tells a beginning of what was submitted that holds every epoch acknowledged.
//!
//! A standing is a checkpoint with the batches after it. What a disk tells is a function of its bytes (`specs/standing/Told.antt`). So a
//! crash needs no rule of its own: of a disk that is kept, each image tells a standing, and a law says which.
//!
//! Nothing here speaks of a hall, so the laws and the wrong bodies of the calls that write are checked without the engine. For
//! example a stop in the middle of a submit of epoch 7 leaves a disk with the epochs up to 6, or 7.
mod error;
mod format;
pub mod laws;
mod parts;
mod steps;

pub use error::{KeeperError, Part};
pub use format::format_device;
pub use parts::{Counted, Recovered, count_device, read_parts, recover_device, slots_of};
pub use steps::{raise_head, submit_batch, write_states};
