//! A checkpoint as text: what `states` writes of a disk, and what `load` makes a disk of.
//!
//! The states of a plan's folds outlive the plan: they go to another plan, or come from elsewhere, as lines `state VERTEX KEY A B`. The one
//! contract is that the two are each other's inverse: what [`write_states`] wrote, [`read_states`] reads as the same checkpoint, and
//! [`load`] makes a disk that has it, and nothing else. A text of another origin is read as the checkpoint that it spells, or its first
//! fault is told.
//!
//! It is a crate of its own beside the keeper, as `td_store` is, by which it writes: it needs no hall, no law and no closures.
//!
//! For example the text `kept 4` and `state 1 7 5 1` spells, for a plan whose vertex 1 is a fold, the states of epoch 4 in which fold 1 keeps
//! 5 and 1 for the key 7.
#![tactic(auto)]

mod draft;
mod error;
pub mod laws;
mod line;
mod new_disk;
mod read;
mod rename;
mod write;

pub use error::{StatesError, StatesFault};
pub use line::{StatesLine, read_line};
pub use new_disk::load;
pub use read::{read_states, read_text};
pub use rename::{Rename, read_renames};
pub use write::write_states;
