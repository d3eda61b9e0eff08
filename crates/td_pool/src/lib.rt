//! The pool: a hall behind a lock, and a seat for each of its shards. From a seat a worker in a thread of its own takes tasks,
//! runs them outside the lock and gives them back. Its contract: the gives of the hall rose by the sum of the seats' counts, and
//! no task that was taken is lost.
//!
//! No contract can say what a thread did to a hall under a lock. So the counts are tokens: each give and take adds to a seat's
//! part of a ledger, and `gather` has the sum of all parts. The hall itself is sealed, and lent call by call. A pool may keep its
//! course: by it who comes back under the lock knows by a number that nobody else released, collected or cut meanwhile.
//!
//! No contract says that a worker is woken, since std has no clause on a notification. A flag that is wrong is proved too, and
//! rows with workers then do not end. A hall of four shards, for example, is worked on from four seats, by four workers at most.
#![tactic(auto)]

mod any_hall;
mod course;
mod error;
mod gate;
mod hand;
mod held;
pub mod laws;
mod pool;
mod seat;
mod work;

pub use any_hall::AnyHall;
pub use course::{ByLength, Moment, NewCourse};
pub use error::PoolError;
pub use gate::{Gate, OpenGate};
pub use hand::Hand;
pub use held::Held;
pub use pool::Pool;
pub use seat::{Crew, Seat};
