//! Closures that a user writes as formulas: expressions over names, what a closure of each kind does with them, and the calls.
//!
//! A program proved once runs closures that are known only when it starts. So their law has them as a type parameter
//! (`Formulas`). It is the meaning of the formulas, and the calls answer it for whatever a user wrote. A formula cannot fail.
//! Each step is an integer of 128 bits that stops at its ends, and a quotient by 0 is 0. Eight records go out at most. For
//! example `send key, val * 2` doubles a value, as far as one fits.
#![tactic(auto)]

mod answer;
mod beside;
mod closure;
mod environment;
mod expression;
mod lines;
mod numbers;
mod outgoing;
mod value;
mod written;

pub use beside::{Beside, BesideCalls};
pub use closure::{Assignment, Closure, ClosureKind, Pair};
pub use environment::Environment;
pub use expression::{Expression, Name, Operator, Sign};
pub use written::{Formulas, Written, WrittenCalls};
