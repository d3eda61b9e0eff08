//! Timestamps.
ghost use Rattle.std.specs.Prelude.{◌≡◌, ◌+◌, ◌-◌, ◌^◌, ◌<◌, ◌≤◌, ◌↔◌, [], length, reverse, IsTrue};
ghost use Rattle.td_stamp.specs.Time.{depth, innermost, enter, leave, again, time_le, time_cmp, IsAtMost};

use arrayvec::ArrayVec;
use std::cmp::Ordering;
use std::marker::Model;

/// The most loops that a time is in.
pub const LEVELS: usize = 3;

/// The end of the numbers of epochs: they begin at 1 and stay below it.
pub const EPOCHS_END: u64 = 1 << 63;

/// A timestamp: an epoch, and a counter for each loop that it is in.
///
/// The counters stand in the order in which they are printed, the outermost first. Contracts see them with the
/// innermost first.
///
/// The fields are private, so no time has four counters. There is no `Ord`: its `<=` would be `total_cmp`, and would be taken for
/// `le`.
#[derive(Debug, Drop, PartialEq, Eq, Hash)]
pub struct Time {
    epoch: u64,
    turns: ArrayVec<u32, LEVELS>,
}

impl Model for Time {
    ghost use Rattle.std.specs.Prelude.{reverse};
    ghost use Rattle.td_stamp.specs.Time.{Timestamp};

    ghost Value = { Timestamp };

    ghost view = { λ t. record { epoch = t.epoch; turns = reverse t.turns.items } };

    ghost inverse = { λ t. record { epoch = t.epoch; turns = record { items = reverse t.turns } } };

    ghost use Rattle.std.proofs.lemmas.List.{reverse-reverse};

    ghost inverse_ok = { λ t h i. record { epoch = t.epoch; turns = record { items = reverse-reverse t.turns.items i } } };
}

impl Time {
    /// The time of an epoch outside all loops.
    pub fn new(epoch: u64) -> Self
        ensures { result ≡ record { epoch = epoch; turns = [] } }
    {
        Time {
            epoch,
            turns: ArrayVec::new(),
        }
    }

    /// The epoch.
    pub fn epoch(&self) -> u64
        ensures { result ≡ self.now.epoch }
    {
        self.epoch
    }

    /// The counters, the outermost first.
    pub fn turns(&self) -> &[u32]
        ensures { result.now ≡ reverse self.now.turns }
    {
        self.turns.as_slice()
    }

    /// How many loops the time is in.
    pub fn depth(&self) -> usize
        ensures value { result ≡ depth self.now }
        ensures fits { result ≤ 3 }
    {
        self.turns.len()
    }

    /// The same time. It stands in place of `Clone`, which in this toolchain may be refused memory.
    pub fn copy(&self) -> Self
        ensures { result ≡ self.now }
    {
        let mut turns = ArrayVec::new();
        for turn in self.turns.as_slice() {
            turns.push(*turn);
        }
        Time {
            epoch: self.epoch,
            turns,
        }
    }

    /// The same counters in another epoch.
    pub fn at(&self, epoch: u64) -> Self
        ensures { result ≡ record self.now { epoch = epoch } }
    {
        let mut time = self.copy();
        time.epoch = epoch;
        time
    }

    /// Whether this time is at most `other`, a time of the same depth: its epoch is not later, and its counters are not
    /// later in lexicographic order. Of two times, it may be that neither is at most the other.
    pub fn le(&self, other: &Time) -> bool
        requires { depth self.now ≡ depth other.now }
        ensures value { result ≡ time_le self.now other.now }
        ensures meaning { IsTrue result ↔ IsAtMost self.now other.now }
    {
        self.epoch <= other.epoch && self.turns().cmp(&other.turns()).is_le()
    }

    /// The order in which lists of times are kept: by epoch, then by the counters as a list from the outermost, as slices are
    /// compared, so that `1<0,0>` comes before `1<1>`. It is total; `le` orders fewer times, and none the other way.
    /// Notifications come in this order.
    pub fn total_cmp(&self, other: &Time) -> Ordering
        ensures { result ≡ time_cmp self.now other.now }
    {
        match self.epoch.cmp(&other.epoch) {
            Ordering::Equal => self.turns().cmp(&other.turns()),
            apart => apart,
        }
    }

    /// The time in a loop that is entered now: one more counter, 0.
    pub fn enter(&self) -> Self
        requires { depth self.now < 3 }
        ensures { result ≡ enter self.now }
    {
        let mut time = self.copy();
        time.turns.push(0);
        time
    }

    /// The time outside the innermost loop: without its counter.
    pub fn leave(&self) -> Self
        requires { 0 < depth self.now }
        ensures { result ≡ leave self.now }
    {
        let mut time = self.copy();
        let _ = time.turns.pop();
        time
    }

    /// The time once more round the innermost loop: its counter rises by 1.
    pub fn again(&self) -> Self
        requires inside { 0 < depth self.now }
        requires fits { innermost self.now.turns < 2 ^ 32 - 1 }
        ensures { result ≡ again self.now }
    {
        let mut time = self.copy();
        if let Some(turn) = time.turns.pop() {
            time.turns.push(turn + 1);
        }
        time
    }
}
