//! What a submit under a request number comes to.

/// What a submit under a request number comes to.
#[derive(Clone, Copy, Debug, PartialEq, Eq)]
pub enum Receipt {
    /// The batch is acknowledged as this epoch.
    New(u64),
    /// The number is not above this one, the greatest that the disk has: nothing was written.
    Already(u64),
}
