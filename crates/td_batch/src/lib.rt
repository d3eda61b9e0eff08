//! The batch meaning of a plan, and its plain evaluator. Its one contract: `evaluate` answers exactly the batch meaning.
//!
//! The meaning has no messages, no notifications and no order. Whole bags go down the tree of the plan, one turn of a block after
//! another. Every engine is measured by it. It may not copy an engine's loop, so it is a definition of its own
//! (`specs/Meaning.antt`), short enough to be read aloud.
//!
//! The evaluator follows the definition, and saves what nobody can see. A bag is dropped after its last reader, a vertex that
//! nobody reads is not called, and a loop ends once nothing returns. So it also serves as the engine of `td batch`.
//!
//! For example `0 input`, `1 distinct 0`, `2 output 1` means each record of an epoch, once.
#![tactic(auto)]

mod arrivals;
mod built;
mod changes;
mod emission;
mod emitted;
mod epoch;
mod evaluator;
mod groups;
mod kept;
pub mod laws;
mod rounds;
mod sent;
mod tree;

pub use changes::{Change, EpochChanges};
pub use evaluator::{Evaluator, evaluate};
pub use kept::KeptStates;
pub use td_stamp::StampError as BatchError;
