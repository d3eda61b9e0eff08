//! The engines behind commands of the program `td`, over any reader and writer. Their one contract:
//! `batch`, `run` and `sim` write exactly the answer text of what they read, `sim` after its notes, or answer its first fault.
//!
//! Each engine reads all, computes one text, and writes it: so a fault leaves nothing written. Reader and writer are type
//! parameters, so that the answer is proved for any. What they may do wrong has words in their traits (`Source`, `Sink`). Over a
//! slice of fewer than 2^32 bytes and a vector with room for the answer, nothing of `batch` stays open but want of memory.
//!
//! For example `1 input` in place of `0 input` as the first line of a plan is the fault `plan line 1: number`.
#![tactic(auto)]

mod answer;
mod data_line;
mod engine;
mod epochs;
mod faults;
mod hall;
pub mod laws;
mod number;
mod parts;
mod picks;
mod question;
mod streams;
mod turns;

pub use answer::{print_epoch, write_answer};
pub use data_line::{DataLine, is_input, plain_record, read_data_line};
pub use engine::{batch, read_all, run, sim};
pub use faults::{Fault, LineFault, fault_line};
pub use number::integer;
pub use parts::{ascii_text, first_line};
pub use picks::read_picks;
pub use question::{lack_fault, plan_fault};
pub use streams::{Sink, Source, StdReader, StdWriter};
