//! The catalogue of closures that the program has: a first shelf, which `td_calls` has, and a second one with the codes 1000 to
//! 9999. Its closures are for everyday tasks, and have their parameter in their code.
//!
//! It is a crate of its own, with a law of its own. `td_calls` and all that stands on it know closures by a law, and need no
//! other one. A code has its parameter in decimal digits, as `map 5042` for values above 42. So a plan text needs no new form,
//! and can be read.
#![tactic(auto)]

mod fold_step;
mod group_step;
pub mod laws;
mod map_step;
mod shelves;
mod values;

pub use fold_step::FoldStep;
pub use group_step::GroupStep;
pub use map_step::MapStep;
pub use shelves::{Catalogue, Shelves};
