//! The calls of a keeper that work on the hall of a pool, beside its workers.
ghost use Rattle.std.specs.Prelude.{◌≡◌, ◌⊎◌, true, Some, None};
ghost use Rattle.td_machine.specs.Active.{unpassed};
ghost use Rattle.td_machine.specs.Reached.{IsReached};
ghost use Rattle.td_keeper.specs.Driven.{Releases, Settles, Collects, Cuts, Asks, released, settled, collected, cut, answered};

use crate::keeper::Keeper;
use std::sync::Wait;
use td_calls::Law;
use td_disk::Disk;
use td_pool::laws::each_is_sound;
use td_pool::{AnyHall, Crew, Pool};
use td_questions::{Entries, Wanted};
use td_store::standing::KeeperError;

/// Each of these is done under one hold of the pool's lock. Between two of them the hall is any that workers may leave.
impl<D: Disk, L: Law> Keeper<D, L> {
    /// Releases into the pool's hall the epochs on the journal that it lacks, as `release`, and answers how many these are. The
    /// workers that wait are woken. Refusals: `Foreign` and `Memory`.
    pub fn release_in<K: Crew, R: Wait>(
        &self,
        rt: &R,
        pool: &Pool<K, L>,
    ) -> Result<u64, KeeperError>
        ensures { Releases D.view L.answers (released result) self.now self.now }
    {
        let mut held = pool.hall(rt);
        let count = self.release_lent(&mut *held);
        drop(held);
        pool.wake();
        count
    }

    /// Waits, with the lock let go, until every epoch that was released into the pool's hall has passed. Refusal: `NotPassed` of
    /// the first that has not, where the pool was stopped before.
    pub fn settle_in<K: Crew, R: Wait>(&self, rt: &R, pool: &Pool<K, L>) -> Result<(), KeeperError>
        ensures { Settles D.view L.answers (settled result) self.now self.now }
    {
        match unpassed_in(&*pool.settle(rt)) {
            None => Ok(()),
            Some(epoch) => Err(KeeperError::NotPassed(epoch)),
        }
    }

    /// Takes into the queue what has come to the outputs of the pool's hall for epochs that have passed, as `collect`, and answers
    /// for how many epochs. Refusals: `Foreign` and `Memory`.
    pub fn collect_in<K: Crew, R: Wait>(
        &mut self,
        rt: &R,
        pool: &Pool<K, L>,
    ) -> Result<u64, KeeperError>
        ensures { Collects D.view L.answers (collected result) self.old self.new }
    {
        self.collect_lent(&mut *pool.hall(rt))
    }

    /// Cuts the pool's hall, as `cut`, and answers at which epoch: the cut waits to be written. Refusals: those of `cut`.
    pub fn cut_in<K: Crew, R: Wait>(
        &mut self,
        rt: &R,
        pool: &Pool<K, L>,
    ) -> Result<u64, KeeperError>
        ensures { Cuts D.view L.answers None (cut result) self.old self.new }
    {
        self.cut_lent(&mut *pool.hall(rt), None)
    }

    /// Cuts the pool's hall, as `cut_up_to`, and answers at which epoch: the cut waits to be written. Refusals: those of `cut`.
    pub fn cut_up_to_in<K: Crew, R: Wait>(
        &mut self,
        rt: &R,
        pool: &Pool<K, L>,
        epoch: u64,
    ) -> Result<u64, KeeperError>
        ensures { Cuts D.view L.answers (Some epoch) (cut result) self.old self.new }
    {
        self.cut_lent(&mut *pool.hall(rt), Some(epoch))
    }

    /// The entries that answer what is wanted of a fold, of the states after the last epoch on the journal, and that epoch, from the
    /// pool's hall. Refusals: `Foreign`, where the hall is none of this keeper's; `NotPassed` of the first epoch that has not
    /// passed in it; and `Memory`.
    pub fn answer_in<K: Crew, R: Wait>(
        &self,
        rt: &R,
        pool: &Pool<K, L>,
        vertex: u8,
        wanted: Wanted,
    ) -> Result<(u64, Entries), KeeperError>
        ensures { Asks D.view L.answers vertex wanted (answered result) self.now self.now }
    {
        self.answer_lent(&*pool.hall(rt), vertex, wanted)
    }
}

/// The first released epoch that has not passed in a hall that is lent, if there is one. Every one has passed, or its pool is stopped.
fn unpassed_in<L: Law, H: AnyHall<L>>(hall: &H) -> Option<u64>
    requires settled { (H.stopped hall.now ≡ true) ⊎ (unpassed (H.state hall.now) ≡ None) }
    ensures reached { IsReached L.answers (H.state hall.now) }
    ensures unpassed { result ≡ unpassed (H.state hall.now) }
{
    each_is_sound(hall);
    hall.hall().unpassed()
}
