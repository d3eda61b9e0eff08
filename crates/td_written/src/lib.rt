//! The engines of commands with closures in text beside others: those have the codes below 10,000, those of the text the codes from
//! there on. `batch`, `run` and `sim` are those of `td_console`, `feed` and `stream` those of `td_feed`.
#![tactic(auto)]

mod durable;
mod engine;
mod text;

pub use durable::{feed, stream};
pub use engine::{batch, run, sim};
pub use td_feed::StreamOptions;
pub use text::text_in;
