//! Tasks: what a shard of a hall takes up at once, run apart from the hall with the closures that a plan calls for.
//!
//! A callback must not see the hall, so that it may run outside the lock and in any thread. So a task has its own records, or the
//! keys of its notification with their items and states. `Task::run` calls the closures and gives a `Done`, whose answers are by
//! its type those of the law. A hall takes a `Done` alone: nobody can give it anything else.
//!
//! A task takes all its memory before the first closure is called, so no closure is called in vain. For example a map's task has
//! up to 64 records of one edge and time, and its `Done` what the map sends of each.
#![tactic(auto)]

mod error;
mod keyed;
pub mod laws;
mod run;
mod task;

pub use error::TaskError;
pub use keyed::{KeyAt, KeyedItems};
pub use run::Done;
pub use task::{Task, Work};
