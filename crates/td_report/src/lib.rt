//! What a disk tells, in lines: `show` writes what it keeps, and `dump` its epochs as a feed takes them. Beside them `format`, which makes a disk,
//! and `read_plan`, which reads a plan from a file of its own.
//!
//! None of it needs a keeper, hence no law and no closures: a disk is read, and nothing is written to it. What was dumped is fed: that is
//! a law over `td_orders`, which reads the lines again. For example an epoch of one record is dumped as its line and a `.`.
#![tactic(auto)]

mod disk_lines;
mod epoch_lines;
pub mod laws;
mod new_disk;
mod placed_lines;
mod plan_text;

pub use disk_lines::show;
pub use epoch_lines::dump;
pub use new_disk::{format, shape_of};
pub use placed_lines::dump_placed;
pub use plan_text::read_plan;
