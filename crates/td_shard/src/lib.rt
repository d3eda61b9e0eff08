//! A shard of a hall: what waits there for the vertices of a plan, and what they keep.
//!
//! Messages wait in a mailbox, in the order posted, and items wait for notifications beside. After `reserve` a post takes no
//! memory, so that a hall can refuse a call before it has changed anything. What distincts have seen and folds left is found by
//! record and key, and stands once for all shards of a hall. For example of four shards the second has the records whose keys
//! leave 1 when divided by 4.
#![tactic(auto)]

mod after;
pub mod laws;
mod mailbox;
mod outlet;
mod place;
mod runs;
mod seen;
mod shard;
mod take;
mod versions;
mod waiting;

pub use after::{StatesAfter, StatesAfterIterator, StatesInOrder, UnorderedAfter};
pub use mailbox::{Mailbox, Taken};
pub use outlet::Outlet;
pub use seen::Seen;
pub use shard::Shard;
pub use td_stamp::StampError as ShardError;
pub use versions::Versions;
pub use waiting::{Noted, Waiting};
