//! Records, timestamps, bags and kept states: the values of which the rest of the engine speaks.
//!
//! A bag has no order, since workers may deliver records in any. Contracts see it as its sorted list, so that equal bags are
//! equal lists. Records, arrivals, entries and outputs all stand in bags, so `Bag<T>` is generic over its members. Kept states
//! are a map from vertex and key to two numbers.
//!
//! The crate has no plan and no closures. Its laws of bags and times are contracts of the functions in `laws`, for the crates
//! above. For example the bag of 2, 1, 2 and that of 1, 2, 2 are one list.
#![tactic(auto)]

mod bag;
mod batch;
mod epoch_out;
mod equal;
mod error;
mod groups;
pub mod laws;
mod member;
mod numbers;
mod ordered;
mod repeats;
mod states;
mod time;
mod values;

pub use bag::{Bag, Members, is_in_order, sort};
pub use batch::{Batch, Records};
pub use epoch_out::EpochOut;
pub use error::StampError;
pub use groups::Group;
pub use member::Member;
pub use ordered::{OrderedStates, OrderedStatesIterator};
pub use states::{States, StatesIterator, UnorderedStates};
pub use time::{EPOCHS_END, LEVELS, Time};
pub use values::{Arrival, Entry, FEW, Few, Item, Output, Rec, State};
