//! Tests of the crates below, of what no clause says, a module for each. They stand together above all of them, since a
//! crate with tests is proved twice: so each of those crates is proved once.
#![tactic(auto)]

#[cfg(test)]
mod closures;
#[cfg(test)]
mod console;
#[cfg(test)]
mod disk;
#[cfg(test)]
mod errors;
#[cfg(test)]
mod gate;
#[cfg(test)]
mod keeper;
#[cfg(test)]
mod plan;
#[cfg(test)]
mod questions;
#[cfg(test)]
mod shard;
#[cfg(test)]
mod stamp;
#[cfg(test)]
mod task;
#[cfg(test)]
mod watch;
#[cfg(test)]
mod watch_beside;
