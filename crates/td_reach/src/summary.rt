//! What a path does to the counters of a time.
ghost use Rattle.std.specs.Prelude.{◌≡◌, ◌≤◌, ◌^◌, length};
ghost use Rattle.std.specs.Ordering.{is_le};
ghost use Rattle.td_stamp.specs.Time.{depth, time_le};
ghost use Rattle.td_reach.specs.Summaries.{apply, nothing, effect_of, and_then, effect_cmp, IsSmall};

use crate::counters::{Counters, changed, copied, wide};
use arrayvec::ArrayVec;
use std::cmp::Ordering;
use std::marker::Model;
use td_plan::Kind;
use td_stamp::Time;

/// What a path does to the counters of a time, in short: it drops the innermost ones, as many as `drops`, adds `adds` to
/// the innermost that is left, and puts fresh ones on, here the outermost first.
///
/// The numbers have room for those of any path that the table knows: each round at most doubles them, and there are 64.
#[derive(Debug, Drop)]
pub(crate) struct Summary {
    drops: u8,
    adds: u128,
    fresh: Counters,
}

impl Model for Summary {
    ghost use Rattle.std.specs.Prelude.{reverse};
    ghost use Rattle.td_reach.specs.Summaries.{Effect};

    ghost Value = { Effect };

    ghost view = { λ s. record { drops = s.drops; adds = s.adds; fresh = reverse s.fresh.items } };
}

impl Summary {
    /// Of the empty path, and of a vertex that keeps times as they are.
    pub(crate) fn nothing() -> Summary
        ensures { result ≡ nothing }
    {
        Summary {
            drops: 0,
            adds: 0,
            fresh: ArrayVec::new(),
        }
    }

    /// Of an edge from a vertex of this kind.
    pub(crate) fn of(kind: Kind) -> Summary
        ensures { result ≡ effect_of kind }
    {
        match kind {
            Kind::Enter => {
                let mut fresh = ArrayVec::new();
                fresh.push(0);
                Summary {
                    drops: 0,
                    adds: 0,
                    fresh,
                }
            }
            Kind::Leave => Summary {
                drops: 1,
                adds: 0,
                fresh: ArrayVec::new(),
            },
            Kind::Feedback => Summary {
                drops: 0,
                adds: 1,
                fresh: ArrayVec::new(),
            },
            _ => Summary::nothing(),
        }
    }

    /// The same.
    pub(crate) fn copy(&self) -> Summary
        ensures { result ≡ self.now }
    {
        Summary {
            drops: self.drops,
            adds: self.adds,
            fresh: copied(self.fresh.as_slice()),
        }
    }

    /// Of a path and then another one.
    pub(crate) fn and_then(&self, next: &Summary) -> Summary
        requires small { IsSmall (2 ^ 64) self.now }
        requires next_small { IsSmall (2 ^ 64) next.now }
        requires room { length (and_then self.now next.now).fresh ≤ 3 }
        ensures { result ≡ and_then self.now next.now }
    {
        let put_on = self.fresh.len();
        let dropped = usize::from(next.drops);
        match dropped.cmp(&put_on) {
            Ordering::Less => Summary {
                drops: self.drops,
                adds: self.adds,
                fresh: changed(
                    self.fresh.as_slice(),
                    next.drops,
                    next.adds,
                    next.fresh.as_slice(),
                ),
            },
            Ordering::Equal => Summary {
                drops: self.drops,
                adds: self.adds + next.adds,
                fresh: copied(next.fresh.as_slice()),
            },
            Ordering::Greater => Summary {
                drops: self.drops + (dropped - put_on) as u8,
                adds: next.adds,
                fresh: copied(next.fresh.as_slice()),
            },
        }
    }

    /// Whether it comes first, or neither does. Of paths between the same vertices, the one that comes first gives the
    /// earlier times.
    pub(crate) fn is_first(&self, other: &Summary) -> bool
        ensures { result ≡ is_le (effect_cmp self.now other.now) }
    {
        let drops = self.drops.cmp(&other.drops);
        let adds = self.adds.cmp(&other.adds);
        let counters = self.fresh.as_slice().cmp(&other.fresh.as_slice());
        drops.then(adds.then(counters)).is_le()
    }

    /// Whether it turns one time into one that is at most the other.
    pub(crate) fn turns_to(&self, from: &Time, to: &Time) -> bool
        requires small { IsSmall (2 ^ 65) self.now }
        requires few { depth from.now ≤ 3 }
        requires to_few { depth to.now ≤ 3 }
        requires deep { length (apply self.now from.now.turns) ≡ depth to.now }
        ensures { result ≡ time_le (record from.now { turns = apply self.now from.now.turns }) to.now }
    {
        if from.epoch() > to.epoch() {
            return false;
        }
        let counters = wide(from.turns());
        let turned = changed(
            counters.as_slice(),
            self.drops,
            self.adds,
            self.fresh.as_slice(),
        );
        let wanted = wide(to.turns());
        turned.as_slice().cmp(&wanted.as_slice()).is_le()
    }
}
