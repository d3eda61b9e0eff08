//! The theorem: what a disk tells at the end of a life, in which any number of keepers stood on it, one after another.
//! Definitions and laws.
//!
//! A contract of a keeper's call speaks of that call. A user asks what is left after many runs, each stopped anywhere. So a life
//! is a list of stints, each found on what the last one left. One law says what is then so of the disk (`laws`). It is a crate of
//! its own, since it stands on every promise and nothing stands on it. `run.rt` ties it to code: a run of a program is a stint.
//!
//! A life of two stints, for example: a program was killed while it fed a disk, and was started again on what that left.
#![tactic(auto)]

pub mod feeds;
pub mod held;
pub mod laws;
pub mod run;
