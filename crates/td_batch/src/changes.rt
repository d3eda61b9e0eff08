//! What an epoch gives, where nothing is kept yet.
use td_stamp::{Bag, Output, State};

/// What a fold is to keep for a key after the epoch: a state, or none.
#[derive(Clone, Copy, Debug, PartialEq, Eq, Drop)]
pub struct Change {
    pub vertex: u8,
    pub key: u64,
    pub state: Option<State>,
}

/// What an epoch puts out, in order, and what becomes of each state that it asked for.
#[derive(Drop)]
pub struct EpochChanges {
    pub outputs: Bag<Output>,
    pub changes: Vec<Change>,
}
