//! What a hall keeps of records and notifications, each with its place and time.

use td_stamp::{Output, Rec, State, Time};

/// The most records of a task.
pub const TASK_SIZE: usize = 64;

/// A record at a port of a vertex and a time: a message on the edge to that port, or an item that waits there for a
/// notification (Naiad, section 2.2).
#[derive(Debug, Drop, PartialEq, Eq)]
pub struct Message {
    pub vertex: u8,
    pub port: u8,
    pub time: Time,
    pub rec: Rec,
}

/// A record at a vertex and a time: one that a distinct has seen, or one that a vertex sends in answer to that time.
#[derive(Debug, Drop, PartialEq, Eq)]
pub struct Stamped {
    pub vertex: u8,
    pub time: Time,
    pub rec: Rec,
}

/// A notification of a time, for which a vertex asked in a shard (Naiad, section 2.2).
#[derive(Debug, Drop, PartialEq, Eq)]
pub struct Notification {
    pub shard: u8,
    pub vertex: u8,
    pub time: Time,
}

/// What a fold left for a key at an epoch: a state, or none.
#[derive(Clone, Copy, Debug, PartialEq, Eq)]
pub struct StateLeft {
    pub epoch: u64,
    pub vertex: u8,
    pub key: u64,
    pub state: Option<State>,
}

/// A record that came to an output in an epoch.
#[derive(Clone, Copy, Debug, PartialEq, Eq)]
pub struct OutputAt {
    pub epoch: u64,
    pub output: Output,
}
