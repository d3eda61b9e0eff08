//! What comes out of an epoch.
use crate::bag::Bag;
use crate::values::Output;

/// The records that an epoch brought to the outputs of a plan, as the bag of pairs of output vertex and record: its
/// list is sorted by (vertex, key, val).
#[derive(Debug, Drop)]
pub struct EpochOut {
    pub epoch: u64,
    pub recs: Bag<Output>,
}
