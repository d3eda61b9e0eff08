//! What crosses to C.

/// A record of an epoch, where `vertex` is the input that it comes to, or of its outputs, where `vertex` is the output.
#[derive(Clone, Copy, Debug, PartialEq, Eq)]
#[repr(C)]
pub struct TdRecord {
    pub vertex: u64,
    pub key: u64,
    pub val: i64,
}

/// What a fold keeps for a key.
#[derive(Clone, Copy, Debug, PartialEq, Eq)]
#[repr(C)]
pub struct TdState {
    pub vertex: u64,
    pub key: u64,
    pub a: i64,
    pub b: i64,
}

/// What becomes of the state that a fold keeps for a key: `is_kept` is 1 where it keeps `a` and `b` after the epoch, and 0 where it keeps
/// none, and they are 0.
#[derive(Clone, Copy, Debug, PartialEq, Eq)]
#[repr(C)]
pub struct TdChange {
    pub vertex: u64,
    pub key: u64,
    pub is_kept: u64,
    pub a: i64,
    pub b: i64,
}

/// How many states, or changes of states, and outputs there are.
#[derive(Clone, Copy, Debug, PartialEq, Eq)]
#[repr(C)]
pub struct TdCounts {
    pub states: usize,
    pub outputs: usize,
}
