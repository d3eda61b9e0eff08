//! How many tasks the workers of a pool may run.
//!
//! Tasks are what a hall counts. Whether an epoch takes too many is known only when it was tried. So what is allowed is a number of tasks for
//! each epoch that is under way, and who works beside the workers says how many epochs these are.

use std::sync::Wait;
use std::sync::atomic::{AtomicU64, Ordering};
use td_calls::Law;
use td_pool::{Crew, Gate, Pool};

/// How many tasks workers may run: so many for each epoch. The tasks of a hall are counted from 1, so it is a number up to which tasks may be
/// run. Before the first call of `allow` every task may.
#[derive(Drop)]
pub struct Allowance {
    of_an_epoch: u64,
    taken: AtomicU64,
    up_to: AtomicU64,
}

impl Allowance {
    /// So many tasks for each epoch.
    pub fn new(of_an_epoch: u64) -> Allowance {
        Allowance {
            of_an_epoch,
            taken: AtomicU64::new(0),
            up_to: AtomicU64::new(u64::MAX),
        }
    }

    /// Allows what so many epochs may take, beyond the tasks that were taken. It is called where no epoch is under way.
    pub fn allow(&self, epochs: u64) {
        let more = self.of_an_epoch.saturating_mul(epochs);
        let taken = self.taken.load(Ordering::SeqCst);
        self.up_to
            .store(taken.saturating_add(more), Ordering::SeqCst);
    }

    /// Notes that the task with this number was taken, and answers whether it may be run.
    fn admits(&self, number: u64) -> bool {
        self.taken.fetch_max(number, Ordering::SeqCst);
        number <= self.up_to.load(Ordering::SeqCst)
    }
}

/// What workers pass before each task: it stops their pool at the first task beyond what is allowed.
#[derive(Drop)]
pub(crate) struct Within<'a, K: Crew, L: Law> {
    pub(crate) allowance: &'a Allowance,
    pub(crate) pool: &'a Pool<K, L>,
}

impl<'a, K: Crew, L: Law, R: Wait> Gate<R> for Within<'a, K, L> {
    fn enter(&self, rt: &R, _shard: u8, number: u64) {
        if !self.allowance.admits(number) {
            self.pool.stop(rt);
        }
    }
}
