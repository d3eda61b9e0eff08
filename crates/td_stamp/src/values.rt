//! The plain values.
ghost use Rattle.std.specs.Prelude.{◌≡◌, ◌%◌, ◌<◌};
ghost use Rattle.td_stamp.specs.Groups.{arrival_of, rec_of};

use arrayvec::ArrayVec;

/// The most records that one call of a closure answers.
pub const FEW: usize = 8;

/// A record: a key and a value. Records are ordered by (key, val).
#[derive(Clone, Copy, Debug, Default, PartialEq, Eq, PartialOrd, Ord, Hash)]
pub struct Rec {
    pub key: u64,
    pub val: i64,
}

impl Rec {
    /// The shard that the record belongs to, where the work is split among `workers` shards: they are numbered from 0.
    pub fn shard(&self, workers: u8) -> u8
        requires { 0 < workers }
        ensures { result ≡ self.now.key % workers }
    {
        // (no division, where there is one shard)
        if workers == 1 {
            return 0;
        }
        (self.key % u64::from(workers)) as u8
    }
}

/// The records that one call of a closure answers.
pub type Few = ArrayVec<Rec, FEW>;

/// What a fold keeps for a key from epoch to epoch.
#[derive(Clone, Copy, Debug, Default, PartialEq, Eq)]
pub struct State {
    pub a: i64,
    pub b: i64,
}

/// A value with the port at which it arrived. Items are ordered by (port, val).
#[derive(Clone, Copy, Debug, PartialEq, Eq, PartialOrd, Ord, Hash)]
pub struct Item {
    pub port: u8,
    pub val: i64,
}

/// A record as it arrives at a vertex: its key, and its value with the port. Arrivals are ordered by (key, port, val).
#[derive(Clone, Copy, Debug, PartialEq, Eq, PartialOrd, Ord, Hash)]
pub struct Arrival {
    pub key: u64,
    pub item: Item,
}

impl Arrival {
    /// A record that arrives at a port.
    pub fn new(port: u8, rec: Rec) -> Arrival
        ensures { result ≡ arrival_of port rec }
    {
        Arrival {
            key: rec.key,
            item: Item { port, val: rec.val },
        }
    }

    /// The record that arrived.
    pub fn rec(&self) -> Rec
        ensures { result ≡ rec_of self.now }
    {
        Rec {
            key: self.key,
            val: self.item.val,
        }
    }
}

/// A record that a batch gives an input vertex. Entries are ordered by (input, key, val).
#[derive(Clone, Copy, Debug, PartialEq, Eq, PartialOrd, Ord, Hash)]
pub struct Entry {
    pub input: u8,
    pub rec: Rec,
}

/// A record of an epoch's output, with the output vertex. They are ordered by (vertex, key, val).
#[derive(Clone, Copy, Debug, PartialEq, Eq, PartialOrd, Ord, Hash)]
pub struct Output {
    pub vertex: u8,
    pub rec: Rec,
}
