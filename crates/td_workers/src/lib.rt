//! Work beside the workers of a pool: makes the pool over a hall, runs a worker in a thread of its own from each seat and the work in
//! the thread of the caller, and stops the workers when the work has ended. Its contract is that of the work, passed on through threads, and
//! with what a worker may have been refused.
//!
//! It stands above `td_pool` and knows no keeper, since services differ in what they do beside. A hall at a keeper's checkpoint
//! is a few lines of each. A pool has its name in its type, and only a proof file can pick one. So the one call that picks it
//! stands here, and a service has no proof file. For example `example_service` takes requests in by a keeper while three workers
//! run tasks.
#![tactic(auto)]

mod allowance;
mod beside;
mod workers;

pub use allowance::Allowance;
pub use beside::Beside;
pub use workers::{beside_workers, beside_workers_within};
