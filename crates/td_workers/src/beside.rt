//! What is done beside workers.

use td_calls::Law;
use td_pool::{Crew, Pool};

/// What a thread does while the workers of a pool work in threads of their own: it releases batches into the pool's hall, settles,
/// collects and cuts, itself or by a keeper. `R` is the handle of the runtime, so that it may wait, print or take memory.
///
/// It is a type with a method over every name. A closure has one type, and would have to be written for every name too.
///
/// It goes in by value, and comes back in the answer or the refusal. A closure of a scope says nothing of what it leaves behind a
/// reference. What it borrows stays with its owner, of which is then known what its type says.
pub trait Beside<L: Law, R> {
    /// What it comes to.
    type Answer;

    /// Whether it may come to this answer. A service that claims nothing of its own leaves it out.
    ghost gives: { Self → Self.Answer → Type 0 } = { λ _ _. Unit {0} };

    /// Does it, on a pool of whatever name. A pool that is stopped meanwhile is one of which a worker was refused.
    fn run<K: Crew + Send + Sync>(self, rt: &R, pool: &Pool<K, L>) -> Self::Answer
        ensures { gives self result };
}
