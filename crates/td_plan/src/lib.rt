//! Plans of a dataflow, and their text. Its one contract: `Plan::read` accepts exactly the texts that spell a plan, and refuses
//! each other text for its first fault.
//!
//! A plan is its list of lines for contracts: what a text spells is then a relation between two lists. A reader passes over the
//! lines once, and over the feedbacks once more, since a feedback alone may read what stands after it. `Plan::text` prints the
//! canonical text, by which a disk knows its plan.
//!
//! `0 input`, `1 map 3 0` and `2 output 1` are the lines of a plan with three vertices. A canonical text has at most 3,948 bytes.
#![tactic(auto)]

mod error;
mod extents;
pub mod laws;
mod line;
mod mark;
mod plan;
mod printer;
mod reader;
mod same;
mod scope;
pub mod text;
mod vertex;

pub use error::PlanError;
pub use extents::Block;
pub use mark::Mark;
pub use plan::Plan;
pub use printer::{print_name, print_vertex};
pub use vertex::{EDGES, Edge, Kind, LEVELS, Loop, MOST_TURNS, SOURCES, VERTICES, Vertex};
