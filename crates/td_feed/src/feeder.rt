//! A feed before its first order, and what is left of it: it goes in by value and comes back, also through the threads of its workers.
//!
//! A stream on one thread reads no line while tasks run, so a second thread would only wait in turn. A feed starts its workers in
//! threads whatever their number. What goes through their scope must be droppable: the disk, the writer and the host.
ghost use Rattle.std.specs.Prelude.{◌≡◌, ◌⊎◌, ◌↔◌, ◌+◌, ◌^◌, ◌≤◌, ℕ, true, false, None, [], Ok, Err, IsTrue, IfOk, IfErr, OnOk};
ghost use Rattle.td_plan.specs.Blocks.{vertices};
ghost use Rattle.td_calls.specs.Fits.{first_lack};
ghost use Rattle.td_machine.specs.Steps.{opened};
ghost use Rattle.td_pool.specs.declared.error.PoolError.{PoolError as AnyPoolError};
ghost use Rattle.td_store.specs.declared.standing.error.KeeperError.TheVariants.{Epochs, NotPassed};
ghost use Rattle.td_feed.specs.Fed.{pool_fault};
ghost use Rattle.td_feed.specs.Served.{Serves, script_at};

use crate::host::Host;
use crate::reply_lines::Voice;
use crate::under_way::{Feeding, Pace};
use std::alloc::Global;
use std::sync::Wait;
use std::thread::Threads;
use td_calls::{Closures, Law};
use td_console::Fault;
use td_core::{Hall, HallError};
use td_disk::Disk;
use td_keeper::{Engine, Group, GroupError, Keeper, Obey, PoolEngine, Receipt};
use td_orders::Asking;
use td_plan::Plan;
use td_pool::{Crew, Pool, PoolError};
use td_questions::{Entries, Wanted};
use td_stamp::{Batch, EPOCHS_END, EpochOut};
use td_store::standing::KeeperError;
use td_watch::Writer;
use td_workers::{Allowance, Beside, beside_workers_within};

/// A feed before its first order: its keeper, at which pace it goes, how many tasks an epoch may take, what is asked for, where its lines
/// go, and its host.
#[derive(Drop)]
pub(crate) struct Feeder<D: Disk, L: Law, S, W, H> {
    pub(crate) keeper: Keeper<D, L>,
    pub(crate) pace: Pace,
    pub(crate) tasks: u64,
    pub(crate) orders: S,
    pub(crate) writer: W,
    pub(crate) host: H,
    ghost whole: { keeper.broken ≡ false },
}

/// What is left of a feed, and how it ended.
#[derive(Drop)]
pub(crate) struct Served<D: Disk, L: Law, W, H> {
    pub(crate) keeper: Keeper<D, L>,
    pub(crate) writer: W,
    pub(crate) host: H,
    pub(crate) ended: Result<(), Fault>,
}

/// What a feed or a stream leaves: the disk, the writer, the host, and the writer of a watch where one was given; and how it ended.
#[derive(Drop)]
pub struct Fed<D, W, H> {
    pub disk: D,
    pub writer: W,
    pub host: H,
    pub watch: Option<Writer>,
    pub ended: Result<(), Fault>,
}

impl<
    D: Disk + Drop,
    L: Law + Send + Sync,
    S: Asking + Drop,
    W: Voice + Drop,
    H: Host + Drop,
> Feeder<D, L, S, W, H> {
    /// Serves the orders by a hall of the keeper's own, in this thread, and settles: so nothing is locked, lent or compared. Refusals:
    /// `Epochs`, where the checkpoint's epoch is the last that there can be; those of what asks for the orders, of the keeper, of the tasks
    /// and of the writer; and `Memory`.
    pub(crate) fn serve_alone<C: Closures<L>, R: Wait>(
        self,
        rt: &R,
        alloc: Global,
        calls: &C,
    ) -> Served<D, L, W, H>
        requires fits { first_lack (C.stored calls.now) (vertices self.keeper.plan) ≡ None }
        requires collected { self.keeper.collected ≡ self.keeper.base }
        ensures { Serves D.view L.answers W.marks W.contents W.HasRoom H.New.view H.copies H.seen true self.pace (S.overlong self.orders)
            (script_at S.script self.keeper self.orders) result.ended self.keeper result.keeper self.writer result.writer self.host result.host }
    {
        if is_at_last_number(&self.keeper) {
            return self.refused(Fault::Keeper(KeeperError::Epochs));
        }
        let Feeder {
            keeper,
            pace,
            tasks,
            mut orders,
            writer,
            mut host,
        } = self;
        let engine = match Engine::open(alloc, keeper, calls, tasks) {
            Ok(engine) => engine,
            Err((_memory, keeper)) => {
                return Served {
                    keeper,
                    writer,
                    host,
                    ended: Err(Fault::Memory),
                };
            }
        };
        let mut feeding = Feeding::new(rt, alloc, engine, writer);
        let obeyed = feeding.serve(pace, &mut orders, &mut host);
        let (engine, writer) = feeding.into_parts();
        let (keeper, refusal) = engine.into_keeper();
        Served {
            keeper,
            writer,
            host,
            ended: ended_as(obeyed, worked_until(refusal)),
        }
    }

    /// Serves the orders by a hall of so many shards on which workers work, and settles. Refusals: those of the hall; those of what asks for
    /// the orders, of the keeper and of the writer; that of a worker, in place of epochs that did not pass for it; and `Memory`, also where a
    /// thread could not be made.
    pub(crate) fn serve_by_workers<C: Closures<L> + Sync, R: Threads + Wait + Sync>(
        self,
        rt: &R,
        alloc: Global,
        plan: &Plan,
        workers: u8,
        calls: &C,
    ) -> Served<D, L, W, H>
        requires some { 1 ≤ workers }
        requires most { workers ≤ 16 }
        ensures { Serves D.view L.answers W.marks W.contents W.HasRoom H.New.view H.copies H.seen false self.pace (S.overlong self.orders)
            (script_at S.script self.keeper self.orders) result.ended self.keeper result.keeper self.writer result.writer self.host result.host }
    {
        let hall = match open(alloc, &self.keeper, plan, workers) {
            Ok(hall) => hall,
            Err(fault) => return self.refused(fault),
        };
        let allowance = Allowance::new(self.tasks);
        let work = FeederBeside {
            alloc,
            allowance: &allowance,
            feeder: self,
        };
        match beside_workers_within(rt, alloc, hall, calls, &allowance, work) {
            Ok((served, worked)) => {
                let ended = ended_as(served.ended, worked);
                Served { ended, ..served }
            }
            Err((_memory, work)) => work.feeder.refused(Fault::Memory),
        }
    }

    /// What is left where nothing was done, for this cause.
    fn refused(self, fault: Fault) -> Served<D, L, W, H>
        ensures keeper { result.keeper ≡ self.keeper }
        ensures writer { result.writer ≡ self.writer }
        ensures host { result.host ≡ self.host }
        ensures ended { result.ended ≡ Err fault }
    {
        Served {
            keeper: self.keeper,
            writer: self.writer,
            host: self.host,
            ended: Err(fault),
        }
    }
}

/// How the tasks ended: as what one of them was refused, if it was.
fn worked_until(refusal: Option<HallError>) -> Result<(), PoolError> {
    match refusal {
        Some(error) => Err(PoolError::Hall(error)),
        None => Ok(()),
    }
}

/// A feed beside workers, and what their tasks may take.
#[derive(Drop)]
struct FeederBeside<'a, D: Disk, L: Law, S, W, H> {
    alloc: Global,
    allowance: &'a Allowance,
    feeder: Feeder<D, L, S, W, H>,
}

impl<'a, D: Disk, L: Law, S: Asking + Drop, W: Voice, H: Host, R: Wait> Beside<L, R>
    for FeederBeside<'a, D, L, S, W, H> {
    type Answer = Served<D, L, W, H>;

    ghost gives = { λ b served. Serves D.view L.answers W.marks W.contents W.HasRoom H.New.view H.copies H.seen false b.feeder.pace (S.overlong b.feeder.orders)
        (script_at S.script b.feeder.keeper b.feeder.orders) served.ended b.feeder.keeper served.keeper b.feeder.writer served.writer b.feeder.host served.host };

    /// Obeys each order by the keeper at the pool. Nobody else releases, collects or cuts, so nothing is compared.
    fn run<K: Crew + Send + Sync>(self, rt: &R, pool: &Pool<K, L>) -> Served<D, L, W, H> {
        let Feeder {
            keeper,
            pace,
            tasks: _,
            mut orders,
            writer,
            mut host,
        } = self.feeder;
        let engine = PoolEngine::new(keeper, pool);
        let at_pool = AtPool {
            engine,
            allowance: self.allowance,
        };
        let mut feeding = Feeding::new(rt, self.alloc, at_pool, writer);
        let ended = feeding.serve(pace, &mut orders, &mut host);
        let (engine, writer) = feeding.into_parts();
        Served {
            keeper: engine.engine.into_keeper(),
            writer,
            host,
            ended,
        }
    }
}

/// A keeper and the pool whose hall its workers' tasks are of, with what these tasks may take.
#[derive(Drop)]
struct AtPool<'a, 'p, D: Disk, K: Crew, L: Law> {
    engine: PoolEngine<'p, D, K, L>,
    allowance: &'a Allowance,
}

impl<'a, 'p, D: Disk, K: Crew, L: Law, R: Wait> Obey<D, L, R> for AtPool<'a, 'p, D, K, L> {
    ghost keeping = { λ e. e.engine };

    ghost alone = { false };

    ghost hall = { λ e. opened [] [] 1 1 };

    fn keeper(&self) -> &Keeper<D, L> {
        self.engine.keeper()
    }

    fn allow(&mut self, epochs: u64) {
        self.allowance.allow(epochs);
    }

    fn submit(&mut self, batch: Batch) -> Result<u64, (KeeperError, Batch)> {
        self.engine.submit(batch)
    }

    fn submit_as(&mut self, request: u64, batch: Batch) -> Result<Receipt, (KeeperError, Batch)> {
        self.engine.submit_as(request, batch)
    }

    fn submit_all(&mut self, group: Group) -> Result<u64, (GroupError, Group)> {
        self.engine.submit_all(group)
    }

    fn release(&mut self, rt: &R) -> Result<u64, KeeperError> {
        self.engine.release(rt)
    }

    fn settle(&mut self, rt: &R) -> Result<(), KeeperError> {
        self.engine.settle(rt)
    }

    fn collect(&mut self, rt: &R) -> Result<u64, KeeperError> {
        self.engine.collect(rt)
    }

    fn cut(&mut self, rt: &R, most: Option<u64>) -> Result<u64, KeeperError> {
        match most {
            Some(epoch) => self.engine.cut_up_to(rt, epoch),
            None => self.engine.cut(rt),
        }
    }

    fn answer(&self, rt: &R, vertex: u8, wanted: Wanted) -> Result<(u64, Entries), KeeperError> {
        self.engine.answer(rt, vertex, wanted)
    }

    fn next_out(&mut self) -> Option<EpochOut> {
        self.engine.next_out()
    }

    fn write_cut(&mut self) -> Result<Option<u64>, KeeperError> {
        self.engine.write_cut()
    }

    fn close_free(&mut self, most: u64) -> Result<(), KeeperError> {
        self.engine.close_free(most)
    }
}

/// A hall of so many shards at a keeper's checkpoint. Refusals: `Memory`; and `Epochs` of the keeper's, where the checkpoint's epoch is the
/// last that there can be.
fn open<D: Disk, L: Law>(
    alloc: Global,
    keeper: &Keeper<D, L>,
    plan: &Plan,
    workers: u8,
) -> Result<Hall<L>, Fault>
    requires some { 1 ≤ workers }
    requires most { workers ≤ 16 }
    ensures plan { IfOk result (λ hall. hall.plan ≡ plan.now) }
    ensures workers { IfOk result (λ hall. hall.workers ≡ workers) }
    ensures refused { IfErr result (λ f. (f ≡ Fault.Memory) ⊎ ((f ≡ Fault.Keeper Epochs) × (2 ^ 63 ≤ keeper.now.standing.epoch + 1))) }
{
    if is_at_last_number(keeper) {
        return Err(Fault::Keeper(KeeperError::Epochs));
    }
    let states = keeper.kept_states()?;
    match Hall::open(alloc, plan, states, keeper.kept() + 1, workers) {
        Ok(hall) => Ok(hall),
        Err(_memory) => Err(Fault::Memory),
    }
}

/// Whether the checkpoint's epoch is the last that there can be.
pub(crate) fn is_at_last_number<D: Disk, L: Law>(keeper: &Keeper<D, L>) -> bool
    ensures { IsTrue result ↔ (2 ^ 63 ≤ keeper.now.standing.epoch + 1) }
{
    EPOCHS_END - 1 <= keeper.kept()
}

/// How a feed ended: as what hindered the tasks says, in place of epochs that did not pass for it.
pub(crate) fn ended_as(
    obeyed: Result<(), Fault>,
    worked: Result<(), PoolError>,
) -> Result<(), Fault>
    ensures ok { OnOk result ((obeyed ≡ Ok tt) × (worked ≡ Ok tt)) }
    ensures err { IfErr result (λ f. (obeyed ≡ Err f) ⊎ (((obeyed ≡ Ok tt) ⊎ ((e : ℕ) × (obeyed ≡ Err (Fault.Keeper (NotPassed e))))) × ((r : AnyPoolError) × (worked ≡ Err r) × (f ≡ pool_fault r)))) }
{
    match (obeyed, worked) {
        (Ok(()) | Err(Fault::Keeper(KeeperError::NotPassed(_))), Err(refusal)) => {
            Err(fault_of(refusal))
        }
        (obeyed, _) => obeyed,
    }
}

/// The fault for what hindered the tasks.
fn fault_of(refusal: PoolError) -> Fault
    ensures { result ≡ pool_fault refusal }
{
    match refusal {
        PoolError::NoCall(vertex, code) => Fault::NoCall(vertex, code),
        PoolError::Memory | PoolError::Hall(HallError::Memory) => Fault::Memory,
        PoolError::Hall(HallError::Spent) => Fault::Spent,
        PoolError::Hall(_) | PoolError::NotAll => Fault::Keeper(KeeperError::Foreign),
    }
}
