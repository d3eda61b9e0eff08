//! Closures that are stored by their codes, each of which answers what a law says for its code; and the catalogue of
//! closures that the program has, with its law.
//!
//! A law is what the closure of each code answers. An engine is proved for any law, and knows of closures that they are stored
//! and answer it (`Closures<L>`). A closure is pure by that: what it answers depends on its arguments alone. So an engine may
//! call it in any order, in any thread, or not at all where nobody asks for its answer.
//!
//! `specs/Callbacks.antt` says what a vertex of each kind does with a record and a notification. Laws tie that to what a vertex
//! sends all in all, which the batch meaning uses. For example the catalogue's law says that map 2 sends a record with its value
//! less 1.
#![tactic(auto)]

mod calls;
mod closures;
mod error;
mod law;
pub mod laws;
pub mod stock;
mod stored;

pub use calls::{Calls, Closures};
pub use closures::{FoldBox, GroupBox, MapBox, StockCalls, StockFold, StockGroup, StockMap};
pub use error::CallsError;
pub use law::{Coded, FoldCall, GroupCall, Law, MapCall};
pub use stock::Stock;
pub use stored::Stored;
