//! What a seat holds between a take and its give.
ghost use Rattle.std.specs.Prelude.{◌≡◌};
ghost use Rattle.td_pool.specs.Hands.{is_empty};

use td_calls::Law;
use td_task::{Done, Task};

/// What a seat holds.
#[derive(Drop)]
pub enum Hand<L: Law> {
    /// Nothing.
    Empty,
    /// A task that was taken, and not run.
    Taken(Task),
    /// A task that was run, and not given.
    Ready(Done<L>),
}

impl<L: Law> Hand<L> {
    /// Whether it holds nothing.
    pub fn is_empty(&self) -> bool
        ensures { result ≡ is_empty self.now }
    {
        match self {
            Hand::Empty => true,
            Hand::Taken(_) => false,
            Hand::Ready(_) => false,
        }
    }
}
