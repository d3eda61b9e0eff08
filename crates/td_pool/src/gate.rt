//! What a worker passes between a take and the run of its task.

/// Called by a worker after each take and before the task is run, without the lock. `number` is the task's, counted from 1 over all
/// tasks of the hall. `R` is the handle of the runtime, so that a gate may wait or sleep.
pub trait Gate<R> {
    fn enter(&self, rt: &R, shard: u8, number: u64);
}

/// A gate that does nothing.
#[derive(Drop)]
pub struct OpenGate;

impl<R> Gate<R> for OpenGate {
    fn enter(&self, _rt: &R, _shard: u8, _number: u64) {}
}
