//! The words of the program `td`. Its one contract: what is asked for is what clap makes of them.
//!
//! It is a crate of its own, since it alone of the program's crates stands on `clap`, and its proofs compute whole lists of
//! words. Help, the order of options and what a missing word means are clap's. What clap does not say is proved here: which job
//! the parsed words are. For example `run --workers 4` is `Job::Run(4)`.
#![tactic(auto)]

mod commands;
mod help;
mod job;
mod parse;
mod table;
mod wait;

pub use job::{Job, WordsError};
pub use parse::words;
pub use wait::wait_of;
