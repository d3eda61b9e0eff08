//! Texts of a plan for those who look at it: its lines with what each closure is in words, and a picture in the language of
//! Graphviz.
//!
//! What a closure is in words stands in a table of this crate, above the catalogue and below the program alone. A law says that
//! exactly the codes of the catalogue have words (`laws::words_are_the_catalogue`). No proof ties the words to what a closure
//! answers.
//!
//! Numbers and kinds are printed here anew, since `td_plan` prints whole lines and keeps its printer to itself. For example
//! `1 map 2 0` is listed behind a line `# value - 1`.
#![tactic(auto)]

mod drawing;
mod edges;
pub mod laws;
mod listing;
mod nodes;
mod table;
mod words;

pub use drawing::drawn;
pub use listing::listed;
pub use table::{FOLDS, Form, GROUPS, MAPS, Row};
pub use words::UNKNOWN;
