//! Closures that a user writes as text: the reader of the text, from the tokens of a line and the expressions among them up.
//!
//! What a text spells is a relation, as of a plan. A line is its tokens, an expression its tree, a closure what its lines say.
//! The reader is a loop over what stands before an expression, so a text takes no stack, and 64 levels bound its memory. What can
//! be counted in a text has a limit that a user can count too: bytes, closures, numbers and names.
//!
//! For example `map 10000` and `send key, val * 2` spell a map that doubles a value.
#![tactic(auto)]

mod closures;
mod context;
mod draft;
mod expression;
mod fault;
pub mod laws;
mod line;
mod printer;
mod token;
mod words;

pub use closures::read_closures;
pub use expression::read_expression;
pub use fault::{Fault, Wrong};
pub use printer::{closures_text, print_closure};
pub use token::{Token, Verb};
pub use words::{Registers, Scope, line_tokens};
