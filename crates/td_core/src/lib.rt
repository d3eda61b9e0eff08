//! The hall: the engine itself, on one thread.
//!
//! A hall takes batches epoch by epoch, gives out tasks, takes them back, and hands out the outputs of epochs that have passed.
//! Each call is a step of the core machine (`td_machine`), and by its type a hall is in a state that plays reach. So what a
//! reached state has right follows from laws and not from this code. Outputs and states are those of the batch meaning, whatever
//! order tasks fall in.
//!
//! A call refuses before it changes anything, and a drain between two tasks. It makes room first, adds to occurrence counts by the
//! most that may come, and makes its one other growth last; what follows takes no memory. So a call that was refused can be made
//! again.
//!
//! For example with one shard `release`, `drain` and `collect` in turn run a plan epoch by epoch, as `td run` does.
#![tactic(auto)]

mod collect;
mod cut;
mod deliver;
mod drain;
mod error;
mod hall;
mod known;
pub mod laws;
mod post;
mod release;
mod states;
mod take;

pub use cut::Cut;
pub use drain::Drained;
pub use error::HallError;
pub use hall::Hall;
