//! The keeper: submits epochs to a disk, lets halls work on them, hands out what they collect, and writes their cuts. Its one
//! contract is the crash clause. In each image since a call's start the disk tells a beginning of what was submitted that holds
//! every epoch that was acknowledged.
//!
//! A keeper runs no task. It has the durable side alone, and a hall is lent to it call by call. So the same keeper serves one
//! thread (`Engine`) and the workers of a pool (`PoolEngine`, `drive`). What it knows of its disk is what the disk tells, so a recovery knows
//! it again. After a failed call that writes it is broken, and writes nothing more.
//!
//! For example `submit`, `release`, a drain of the hall, `collect` and `next_out` bring one epoch from its batch to its outputs.
#![tactic(auto)]

mod answer;
mod beside;
mod close_free;
mod collect;
mod command;
mod cut;
mod drive;
mod engine;
mod keeper;
pub mod laws;
mod obey;
mod pool_engine;
mod progress;
mod receipt;
mod release;
mod submit;
mod submit_all;
mod upgrade;
mod write_cut;

pub use command::{Command, Reply};
pub use engine::Engine;
pub use keeper::Keeper;
pub use obey::Obey;
pub use pool_engine::PoolEngine;
pub use receipt::Receipt;
pub use submit_all::{Group, GroupError};
pub use td_store::standing::{KeeperError, Part};
