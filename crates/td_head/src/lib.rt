//! The head of a formatted disk: what a disk was formatted for. The one contract is that of [`read`]: the version,
//! generation and shape that the heads of the disk tell for a plan, or why they tell none.
//!
//! Two heads stand on a disk, and the greater generation counts: so a head is raised without touching the one that counts. A head
//! has the canonical text of the plan and the shape. So a disk is never read by another plan, and every place on it follows from
//! its head. For example, from records, cells and states of a shape `Shape::bytes` gives the size of the file that `td format`
//! makes.
#![tactic(auto)]

mod error;
mod format;
mod head;
pub mod laws;
mod put;
mod shape;

pub use error::HeadError;
pub use format::wipe;
pub use head::{Head, read};
pub use put::{put_first, raise};
pub use shape::{Shape, head_region};
