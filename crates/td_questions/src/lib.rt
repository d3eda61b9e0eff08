//! Questions to the states that folds keep, and their answers.
//!
//! A question is the words of a line: `get V KEY`, `list V [FROM [COUNT]]`, `top V COUNT`, `least V COUNT` or `rank V P`, for a fold V of
//! the plan. It is answered by entries of the states after an epoch, which a hall lends (`td_core`'s `Hall::states_at`). The one
//! contract is that these are exactly the entries of which the definition speaks (`specs/Asked.antt`), in its order.
//!
//! The crate needs no disk, no law and no closures, and copies no states: a look-up is one, a list is made while the states are gone
//! through, and of a top no more is held than is asked for.
//!
//! For example `top 3 2` of the states (3, 1) with 5, (3, 2) with 9 and (3, 4) with 7 is answered by those of the keys 2 and 4.
#![tactic(auto)]

mod answers;
mod entries;
mod lines;
mod question;
mod ranks;

pub use answers::{Entry, answer};
pub use entries::Entries;
pub use lines::print_answer;
pub use question::{Question, Wanted, fold_of, read_question};
pub use td_stamp::StampError as QuestionError;
