//! The gate that workers pass between a take and the run of its task.
use std::sync::atomic::{AtomicBool, Ordering};
use std::thread;
use std::time::{Clock, Duration};
use td_pool::Gate;

/// What a worker does at a gate.
#[derive(Clone, Copy)]
pub(crate) enum Passage {
    /// `open`: nothing.
    Open,
    /// `sleep MILLISECONDS`: it sleeps.
    Sleep(u64),
    /// `meet`: with the hall's first task it waits until a worker has come with another, for at most 10,000 turns of a millisecond.
    Meet,
}

/// A gate, and whether workers met at it.
#[derive(Drop)]
pub(crate) struct RowGate {
    passage: Passage,
    has_come: AtomicBool,
    has_met: AtomicBool,
}

impl RowGate {
    /// A gate at which nobody has been.
    pub(crate) fn new(passage: Passage) -> RowGate {
        RowGate {
            passage,
            has_come: AtomicBool::new(false),
            has_met: AtomicBool::new(false),
        }
    }

    /// Whether a worker came with another task while one waited with the first.
    pub(crate) fn has_met(&self) -> bool {
        self.has_met.load(Ordering::SeqCst)
    }

    /// Waits with the first task until another has come.
    fn meet(&self, rt: &impl Clock, number: u64) {
        if number != 1 {
            self.has_come.store(true, Ordering::SeqCst);
            return;
        }
        for _turn in 0..10_000u32 {
            if self.has_come.load(Ordering::SeqCst) {
                self.has_met.store(true, Ordering::SeqCst);
                return;
            }
            thread::sleep(rt, Duration::from_millis(1));
        }
    }
}

impl<R: Clock> Gate<R> for RowGate {
    fn enter(&self, rt: &R, _shard: u8, number: u64) {
        match self.passage {
            Passage::Open => {}
            Passage::Sleep(milliseconds) => thread::sleep(rt, Duration::from_millis(milliseconds)),
            Passage::Meet => self.meet(rt, number),
        }
    }
}
