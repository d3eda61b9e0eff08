//! A region of a disk behind a gate: a payload, and a gate byte that says whether the payload counts. The one contract is that of
//! [`Region::put`]. After a crash at any moment the region has the old payload, none, or the new one, and no other byte has
//! changed.
//!
//! A crash may leave any bytes where a write was not synced, in the gate too. So a payload is written only while its gate is
//! closed, and synced before the gate is opened. Putting is three steps, each a write and a sync: close, fill, open. The steps
//! are types (`Closed`, `Filled`), so no call can leave one out. For example a stop while the payload is written leaves a closed
//! region, and a reader finds none there.
#![tactic(auto)]

mod error;
pub mod fields;
pub mod laws;
mod region;

pub use error::GateError;
pub use region::{Closed, Filled, OPEN, Region};
