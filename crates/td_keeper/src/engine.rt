//! A keeper and a hall of its own, as one value.
ghost use Rattle.std.specs.Prelude.{◌≡◌, ◌+◌, true, None, IfOk, IfErr};
ghost use Rattle.td_plan.specs.Blocks.{vertices};
ghost use Rattle.td_calls.specs.Fits.{first_lack};
ghost use Rattle.td_machine.specs.Steps.{opened};
ghost use Rattle.td_core.specs.Drained.{IsKept};
ghost use Rattle.td_keeper.specs.Driven.{Releases, Settles, Collects, Cuts, Asks, released, settled, collected, cut, answered};
ghost use Rattle.td_store.specs.declared.standing.error.KeeperError.TheVariants.{Memory};

use crate::keeper::Keeper;
use crate::laws::each_is_kept;
use crate::obey::Obey;
use crate::receipt::Receipt;
use crate::submit_all::{Group, GroupError};
use std::alloc::Global;
use std::marker::Model;
use td_batch::laws::run_joins;
use td_calls::{Closures, Law};
use td_core::{Hall, HallError};
use td_disk::Disk;
use td_questions::{Entries, Wanted};
use td_stamp::{Batch, EpochOut};
use td_store::standing::KeeperError;

/// A keeper with a hall of its own, and the closures by which the hall's tasks are run, in whatever thread calls it. Contracts see
/// the keeper and the hall.
///
/// By its type the hall is the keeper's: its plan, its base and what was collected are the keeper's, and its batches are a beginning
/// of the keeper's since that base. So nothing is compared: a release and a collect cost what is new, however many states and epochs
/// there are. A cut copies the kept states.
///
/// Its hall has one shard: on one thread more of them would only cost. `Obey` is what it has in common with a keeper beside a
/// pool, so a feed is written once over both.
#[derive(Drop)]
pub struct Engine<'a, D: Disk, L: Law, C: Closures<L>> {
    keeper: Keeper<D, L>,
    hall: Hall<L>,
    calls: &'a C,
    /// How many tasks an epoch may take, and how many may have been taken.
    tasks_of_an_epoch: u64,
    up_to: u64,
    /// Why a task was not run, where one was refused.
    refusal: Option<HallError>,
}

impl<'a, D: Disk, L: Law, C: Closures<L>> Model for Engine<'a, D, L, C> {
    ghost use Rattle.std.specs.Prelude.{◌≡◌, None};
    ghost use Rattle.td_plan.specs.Blocks.{vertices};
    ghost use Rattle.td_calls.specs.Fits.{first_lack};
    ghost use Rattle.td_keeper.specs.Halls.{KeeperAndHall, IsAtHome};

    ghost Value = { KeeperAndHall D };

    ghost view = { λ e. record { keeping = e.keeper; hall = e.hall } };

    ghost invariant = { λ e. IsAtHome e.keeper e.hall
        × (first_lack (C.stored e.calls.now) (vertices e.keeper.plan) ≡ None) };
}

impl<'a, D: Disk, L: Law, C: Closures<L>> Engine<'a, D, L, C> {
    /// A keeper that has collected nothing since its base, with a hall of one shard at that base. No task may be run yet (`allow`), and an
    /// epoch may take so many. Refusal: `Memory`, with the keeper handed back.
    pub fn open(
        alloc: Global,
        keeper: Keeper<D, L>,
        calls: &'a C,
        tasks_of_an_epoch: u64,
    ) -> Result<Engine<'a, D, L, C>, (KeeperError, Keeper<D, L>)>
        requires fits { first_lack (C.stored calls.now) (vertices keeper.plan) ≡ None }
        requires collected { keeper.collected ≡ keeper.base }
        ensures same { IfOk result (λ engine. engine.keeping ≡ keeper) }
        ensures opened { IfOk result (λ engine. engine.hall ≡ opened keeper.plan keeper.base_states (keeper.base + 1) 1) }
        ensures refused { IfErr result (λ e. (e.0 ≡ Memory) × (e.1 ≡ keeper)) }
    {
        match keeper.hall_at_base(alloc) {
            Ok(hall) => Ok(Engine {
                keeper,
                hall,
                calls,
                tasks_of_an_epoch,
                up_to: 0,
                refusal: None,
            }),
            Err(refusal) => Err((refusal, keeper)),
        }
    }

    /// The keeper, and why a task was not run, where one was refused.
    pub fn into_keeper(self) -> (Keeper<D, L>, Option<HallError>)
        ensures { result.0 ≡ self.entry.keeping }
    {
        let Engine {
            keeper,
            hall: _,
            calls: _,
            tasks_of_an_epoch: _,
            up_to: _,
            refusal,
        } = self;
        (keeper, refusal)
    }

    /// Runs tasks of the hall, one after another, until none is left, as many were taken as may be, or one is refused.
    fn run_tasks(&mut self)
        ensures same { self.new.keeping ≡ self.old.keeping }
        ensures kept { IsKept self.old.hall self.new.hall }
    {
        for _task in self.hall.taken()..self.up_to {
            match self.hall.run_one(self.calls, 0) {
                Ok(Some(_delivered)) => {}
                Ok(None) => return,
                Err(refusal) => {
                    self.refusal = Some(refusal);
                    return;
                }
            }
        }
    }
}

impl<'a, D: Disk, L: Law, C: Closures<L>, R> Obey<D, L, R> for Engine<'a, D, L, C> {
    ghost keeping = { λ e. e.keeping };

    ghost alone = { true };

    ghost hall = { λ e. e.hall };

    fn keeper(&self) -> &Keeper<D, L> {
        &self.keeper
    }

    fn allow(&mut self, epochs: u64) {
        let more = self.tasks_of_an_epoch.saturating_mul(epochs);
        self.up_to = self.hall.taken().saturating_add(more);
    }

    fn submit(&mut self, batch: Batch) -> Result<u64, (KeeperError, Batch)> {
        each_is_kept(&self.keeper);
        self.keeper.submit(batch)
    }

    fn submit_as(&mut self, request: u64, batch: Batch) -> Result<Receipt, (KeeperError, Batch)> {
        each_is_kept(&self.keeper);
        self.keeper.submit_as(request, batch)
    }

    fn submit_all(&mut self, group: Group) -> Result<u64, (GroupError, Group)> {
        each_is_kept(&self.keeper);
        self.keeper.submit_all(group)
    }

    fn release(&mut self, _rt: &R) -> Result<u64, KeeperError> {
        td_core::laws::each_is_sound(&self.hall);
        self.keeper.release_own(&mut self.hall)
    }

    fn settle(&mut self, _rt: &R) -> Result<(), KeeperError> {
        self.run_tasks();
        td_core::laws::each_is_sound(&self.hall);
        match self.hall.unpassed() {
            None => Ok(()),
            Some(epoch) => Err(KeeperError::NotPassed(epoch)),
        }
    }

    fn collect(&mut self, _rt: &R) -> Result<u64, KeeperError> {
        run_joins::<L>();
        each_is_kept(&self.keeper);
        td_core::laws::each_is_sound(&self.hall);
        self.keeper.bring_in(&mut self.hall)
    }

    fn cut(&mut self, _rt: &R, most: Option<u64>) -> Result<u64, KeeperError> {
        run_joins::<L>();
        each_is_kept(&self.keeper);
        td_core::laws::each_is_sound(&self.hall);
        self.keeper.cut_own(&mut self.hall, most)
    }

    fn answer(&self, _rt: &R, vertex: u8, wanted: Wanted) -> Result<(u64, Entries), KeeperError> {
        td_core::laws::each_is_sound(&self.hall);
        self.keeper.answer_own(&self.hall, vertex, wanted)
    }

    fn next_out(&mut self) -> Option<EpochOut> {
        self.keeper.next_out()
    }

    fn write_cut(&mut self) -> Result<Option<u64>, KeeperError> {
        each_is_kept(&self.keeper);
        self.keeper.write_cut()
    }

    fn close_free(&mut self, most: u64) -> Result<(), KeeperError> {
        each_is_kept(&self.keeper);
        self.keeper.close_free(most)
    }
}

impl<D: Disk, L: Law> Keeper<D, L> {
    /// A hall of one shard at this keeper's base. Refusal: `Memory`.
    fn hall_at_base(&self, alloc: Global) -> Result<Hall<L>, KeeperError>
        ensures opened { IfOk result (λ hall. hall ≡ opened self.now.plan self.now.base_states (self.now.base + 1) 1) }
        ensures memory { IfErr result (λ e. e ≡ Memory) }
    {
        each_is_kept(self);
        let (epoch, states) = self.base();
        let states = states.to_states(alloc)?;
        match Hall::open(alloc, &self.plan, states, epoch + 1, 1) {
            Ok(hall) => Ok(hall),
            Err(_memory) => Err(KeeperError::Memory),
        }
    }
}
