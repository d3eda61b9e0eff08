//! A keeper and the hall of a pool, as one value.
ghost use Rattle.std.specs.Prelude.{◌≡◌, ◌↔◌, ◌+◌, ◌≤◌, false, [], ◌∷◌, Some, None, Ok, IsTrue, IfErr, OnOk};
ghost use Rattle.td_disk.specs.Calls.{KeepsDevice};
ghost use Rattle.td_store.specs.standing.Standing.{last_epoch, last_request, submission};
ghost use Rattle.td_store.specs.declared.standing.error.KeeperError.TheVariants.{Device};
ghost use Rattle.td_keeper.specs.Calls.{LeavesAtCrash, outcome};
ghost use Rattle.td_keeper.specs.Halls.{IsOwn};
ghost use Rattle.td_keeper.specs.declared.submit_all.GroupError.TheVariants.{Keeper as ByKeeper};
ghost use Rattle.td_keeper.specs.declared.command.Command.TheVariants.{Submit, SubmitAs, SubmitAll, WriteCut, CloseFree};
ghost use Rattle.td_keeper.specs.declared.command.Reply.TheVariants.{Out};
ghost use Rattle.td_keeper.specs.Driven.{Releases, Settles, Collects, HandsOut, Cuts, Asks, Obeys, submitted, submitted_as, submitted_all, released, settled, collected, cut, answered, written, closed};

use crate::keeper::Keeper;
use crate::laws::each_is_kept;
use crate::receipt::Receipt;
use crate::submit_all::{Group, GroupError};
use std::marker::Model;
use std::sync::Wait;
use td_batch::laws::run_joins;
use td_calls::Law;
use td_disk::Disk;
use td_pool::laws::each_is_sound;
use td_pool::{AnyHall, Crew, Held, Moment, Pool};
use td_questions::{Entries, Wanted};
use td_stamp::{Batch, EpochOut};
use td_store::standing::KeeperError;

/// A keeper, and the pool whose hall works on its epochs. Contracts see the keeper.
///
/// What is done with the hall is done under one hold of the pool's lock for each call. Between two holds the hall is any that workers
/// may leave. Where the pool keeps its course (`Pool::keep_course`) the hall is known by a number to be as it was left here, so a
/// release and a collect cost what is new, however many states and epochs there are. Where others released, collected or cut
/// meanwhile, or the pool keeps no course, all is compared, as in `Keeper::release`.
#[derive(Drop)]
pub struct PoolEngine<'p, D: Disk, K: Crew, L: Law> {
    keeper: Keeper<D, L>,
    pool: &'p Pool<K, L>,
    /// When the hall was this keeper's own.
    known: Option<Moment<K, L>>,
}

impl<'p, D: Disk, K: Crew, L: Law> Model for PoolEngine<'p, D, K, L> {
    ghost use Rattle.std.specs.Prelude.{IfSome};
    ghost use Rattle.td_keeper.specs.Keeping.{Keeping};
    ghost use Rattle.td_keeper.specs.Halls.{IsOwn};

    ghost Value = { Keeping D };

    ghost view = { λ e. e.keeper };

    ghost invariant = { λ e. IfSome e.known (IsOwn e.keeper) };
}

impl<'p, D: Disk, K: Crew, L: Law> PoolEngine<'p, D, K, L> {
    /// A keeper beside the workers of a pool. Whether the hall is this keeper's is found out at the first call that works on it.
    pub fn new(keeper: Keeper<D, L>, pool: &'p Pool<K, L>) -> PoolEngine<'p, D, K, L>
        ensures { result ≡ keeper }
    {
        PoolEngine {
            keeper,
            pool,
            known: None,
        }
    }

    /// The keeper, to read.
    pub fn keeper(&self) -> &Keeper<D, L>
        ensures { result.now ≡ self.now }
    {
        &self.keeper
    }

    /// The keeper.
    pub fn into_keeper(self) -> Keeper<D, L>
        ensures { result ≡ self.entry }
    {
        let PoolEngine {
            keeper,
            pool: _,
            known: _,
        } = self;
        keeper
    }

    /// Releases into the hall the epochs on the journal that it lacks, and answers how many these are. The workers that wait are
    /// woken. Refusals: `Foreign` and `Memory`.
    pub fn release<R: Wait>(&mut self, rt: &R) -> Result<u64, KeeperError>
        ensures { Releases D.view L.answers (released result) self.old self.new }
    {
        let pool = self.pool;
        let mut held = pool.hall(rt);
        let released = self.release_held(&mut *held);
        drop(held);
        pool.wake();
        released
    }

    /// Waits, with the lock let go, until every epoch that was released has passed. Refusal: `NotPassed` of the first that has not, where
    /// the pool was stopped before.
    pub fn settle<R: Wait>(&self, rt: &R) -> Result<(), KeeperError>
        ensures { Settles D.view L.answers (settled result) self.now self.now }
    {
        self.keeper.settle_in(rt, self.pool)
    }

    /// Takes into the queue what has come to the outputs of the hall for epochs that have passed, and answers for how many epochs.
    /// Refusals: `Foreign` and `Memory`.
    pub fn collect<R: Wait>(&mut self, rt: &R) -> Result<u64, KeeperError>
        ensures { Collects D.view L.answers (collected result) self.old self.new }
    {
        let pool = self.pool;
        self.collect_held(&mut *pool.hall(rt))
    }

    /// Cuts the hall, and answers at which epoch: the cut waits to be written. Refusals: those of `Keeper::cut`.
    pub fn cut<R: Wait>(&mut self, rt: &R) -> Result<u64, KeeperError>
        ensures { Cuts D.view L.answers None (cut result) self.old self.new }
    {
        let pool = self.pool;
        self.cut_held(&mut *pool.hall(rt), None)
    }

    /// Cuts the hall at no epoch above this one, and answers at which: the cut waits to be written. Refusals: those of `Keeper::cut`.
    pub fn cut_up_to<R: Wait>(&mut self, rt: &R, epoch: u64) -> Result<u64, KeeperError>
        ensures { Cuts D.view L.answers (Some epoch) (cut result) self.old self.new }
    {
        let pool = self.pool;
        self.cut_held(&mut *pool.hall(rt), Some(epoch))
    }

    /// The entries that answer what is wanted of a fold, of the states after the last epoch on the journal, and that epoch. Refusals:
    /// `Foreign`; `NotPassed` of the first epoch that has not passed; and `Memory`.
    pub fn answer<R: Wait>(
        &self,
        rt: &R,
        vertex: u8,
        wanted: Wanted,
    ) -> Result<(u64, Entries), KeeperError>
        ensures { Asks D.view L.answers vertex wanted (answered result) self.now self.now }
    {
        self.answer_held(&*self.pool.hall(rt), vertex, wanted)
    }

    /// Hands out the outputs of the first epoch of those that were collected and not yet handed out; None where there is none.
    pub fn next_out(&mut self) -> Option<EpochOut>
        ensures { HandsOut D.view L.answers (Out result) self.old self.new }
    {
        self.keeper.next_out()
    }

    /// Puts a batch on the journal, as `Keeper::submit`, whose refusals it has.
    pub fn submit(&mut self, batch: Batch) -> Result<u64, (KeeperError, Batch)>
        ensures submitted { Obeys D.view L.answers (Submit batch) (submitted result) self.old self.new }
        ensures device { KeepsDevice D.view Device (outcome result) self.old.device self.new.device }
    {
        each_is_kept(&self.keeper);
        self.keeper.submit(batch)
    }

    /// Puts a batch on the journal under a request number, as `Keeper::submit_as`, whose refusals it has.
    pub fn submit_as(&mut self, request: u64, batch: Batch) -> Result<Receipt, (KeeperError, Batch)>
        ensures submitted { Obeys D.view L.answers (SubmitAs request batch) (submitted_as result) self.old self.new }
        ensures back { IfErr result (λ e. e.1 ≡ batch) }
        ensures crash { LeavesAtCrash D.view L.answers (submission request batch ∷ []) self.old self.new }
        ensures device { KeepsDevice D.view Device (outcome result) self.old.device self.new.device }
        ensures never_falls { last_request self.old.standing ≤ last_request self.new.standing }
        ensures kept { OnOk result (request ≤ last_request self.new.standing) }
    {
        each_is_kept(&self.keeper);
        self.keeper.submit_as(request, batch)
    }

    /// Puts a group of batches on the journal, as `Keeper::submit_all`, whose refusals it has.
    pub fn submit_all(&mut self, group: Group) -> Result<u64, (GroupError, Group)>
        ensures submitted { Obeys D.view L.answers (SubmitAll group) (submitted_all (last_epoch self.new.standing + 1) result) self.old self.new }
        ensures device { KeepsDevice D.view (ByKeeper Device) (outcome result) self.old.device self.new.device }
    {
        each_is_kept(&self.keeper);
        self.keeper.submit_all(group)
    }

    /// Writes the cut that waits, and answers its epoch, as `Keeper::write_cut`, whose refusals it has.
    pub fn write_cut(&mut self) -> Result<Option<u64>, KeeperError>
        ensures written { Obeys D.view L.answers WriteCut (written result) self.old self.new }
        ensures none { (result ≡ Ok None) ↔ ((self.old.broken ≡ false) × (self.old.waiting ≡ false)) }
        ensures crash { LeavesAtCrash D.view L.answers [] self.old self.new }
        ensures device { KeepsDevice D.view Device result self.old.device self.new.device }
        ensures last_request { last_request self.new.standing ≡ last_request self.old.standing }
    {
        each_is_kept(&self.keeper);
        self.keeper.write_cut()
    }

    /// Closes cells of the journal that no epoch uses, as `Keeper::close_free`, whose refusals it has.
    pub fn close_free(&mut self, most: u64) -> Result<(), KeeperError>
        ensures closed { Obeys D.view L.answers (CloseFree most) (closed result) self.old self.new }
        ensures device { KeepsDevice D.view Device result self.old.device self.new.device }
    {
        each_is_kept(&self.keeper);
        self.keeper.close_free(most)
    }

    /// Whether the hall is this keeper's: by a number where it stands as it was left here, else by all that is kept.
    fn owns(&self, held: &Held<K, L>) -> bool
        ensures { IsTrue result ↔ IsOwn self.now held.now.hall }
    {
        match &self.known {
            Some(moment) if held.is_at(moment) => true,
            _ => self.keeper.owns(held),
        }
    }

    /// As `release`, with the lock held.
    fn release_held(&mut self, held: &mut Held<K, L>) -> Result<u64, KeeperError>
        ensures { Releases D.view L.answers (released result) self.old self.new }
    {
        each_is_sound(held);
        if held.hall().is_closed() || !self.owns(held) {
            return Err(KeeperError::Foreign);
        }
        let released = self.keeper.release_own(held);
        self.known = held.moment();
        released
    }

    /// As `collect`, with the lock held.
    fn collect_held(&mut self, held: &mut Held<K, L>) -> Result<u64, KeeperError>
        ensures { Collects D.view L.answers (collected result) self.old self.new }
    {
        run_joins::<L>();
        each_is_kept(&self.keeper);
        each_is_sound(held);
        if !self.owns(held) {
            return Err(KeeperError::Foreign);
        }
        let collected = self.keeper.bring_in(held);
        self.known = held.moment();
        collected
    }

    /// As `cut`, or as `cut_up_to` where an epoch is given, with the lock held.
    fn cut_held(&mut self, held: &mut Held<K, L>, most: Option<u64>) -> Result<u64, KeeperError>
        ensures { Cuts D.view L.answers most (cut result) self.old self.new }
    {
        run_joins::<L>();
        each_is_kept(&self.keeper);
        each_is_sound(held);
        if !self.owns(held) {
            return Err(KeeperError::Foreign);
        }
        let cut = self.keeper.cut_own(held, most);
        self.known = held.moment();
        cut
    }

    /// As `answer`, with the lock held.
    fn answer_held(
        &self,
        held: &Held<K, L>,
        vertex: u8,
        wanted: Wanted,
    ) -> Result<(u64, Entries), KeeperError>
        ensures { Asks D.view L.answers vertex wanted (answered result) self.now self.now }
    {
        each_is_sound(held);
        if !self.owns(held) {
            return Err(KeeperError::Foreign);
        }
        self.keeper.answer_own(held, vertex, wanted)
    }
}
