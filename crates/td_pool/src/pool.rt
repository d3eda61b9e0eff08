//! Making pools, lending their halls, and gathering their seats.
ghost use Rattle.std.specs.Prelude.{◌≡◌, ◌⊎◌, ◌+◌, ◌*◌, ◌≤◌, ◌<◌, ◌&&◌, ◌==◌, true, None, map, sum, length, All, IfOk, IfErr, is_ok};
ghost use Rattle.std.specs.List.{list_all};
ghost use Rattle.std.specs.Sync.Mutex.{mutex_guard_value};
ghost use Rattle.crossbeam_utils.specs.Padded.{padded_value};
ghost use Rattle.td_batch.specs.Flow.{numbers_from};
ghost use Rattle.td_machine.specs.Active.{unpassed};
ghost use Rattle.td_pool.specs.Counts.{take_weight};
ghost use Rattle.td_pool.specs.Hands.{is_empty};
ghost use Rattle.td_pool.specs.declared.error.PoolError.TheVariants.{NotAll, Memory};

use crate::course::NewCourse;
use crate::error::PoolError;
use crate::held::{Held, TAKE_WEIGHT};
use crate::seat::{Crew, Seat};
use std::alloc::{AllocError, Global};
use std::sync::ledger::{Blank, Book, Share};
use std::sync::{Condvar, Mutex, MutexGuard, Wait};
use td_calls::Law;
use td_core::Hall;
use td_core::laws::each_is_sound;
use td_machine::laws::reached_in_order;

/// A hall behind a lock, on which workers in threads of their own work, each from a seat of this pool.
///
/// A worker that is to wait sets its flag under the lock. A give then wakes those alone whose shards have a task: one that brings
/// nobody a task wakes nobody. A worker that finds nothing to take while all released epochs have passed wakes `settle`.
#[derive(Drop)]
pub struct Pool<K: Crew, L: Law> {
    pub(crate) held: Mutex<Held<K, L>>,
    /// Of each shard: there may be something to take, or the pool was stopped.
    has_work: Vec<Condvar>,
    /// All released epochs have passed, or the pool was stopped.
    pub(crate) has_rest: Condvar,
    shards: u8,
    ghost shards_is: { shards ≡ K.shards },
}

impl<K: Crew, L: Law> Pool<K, L> {
    /// A pool over a hall, and a seat for each of its shards, in order. `blank` is the name of the pool and its seats, with a
    /// part for each shard. The tasks that are out are strays of the first seat. Refusal, with the hall handed back: `Memory`.
    /// The caller makes `blank` and picks the name `K`, and gathers in a function that is generic in it.
    pub fn new(
        alloc: Global,
        hall: Hall<L>,
        blank: Blank,
    ) -> Result<(Pool<K, L>, Vec<Seat<K, L>>), (PoolError, Hall<L>)>
        requires name { blank.name ≡ K.name }
        requires parts { (blank.parts ≡ K.parts) × (K.parts ≡ K.shards) }
        requires hall { (hall.workers ≡ K.shards) × (hall.given ≡ K.start) }
        ensures seats { IfOk result (λ made. length made.1.items ≡ K.shards) }
        ensures shards { IfOk result (λ made. map (λ s. s.shard) made.1.items ≡ numbers_from 0 K.shards) }
        ensures free { IfOk result (λ made. All (λ s. (is_empty s.hand ≡ true) × (padded_value s.gives ≡ 0)) made.1.items) }
        ensures strays { IfOk result (λ made. sum (map (λ s. s.strays) made.1.items) ≡ length hall.out) }
        ensures back { IfErr result (λ e. (e.0 ≡ Memory) × (e.1 ≡ hall)) }
    {
        let shards = hall.workers();
        let (mut book, mut rest) = blank.open::<K>();
        let Ok(mut seats) = Vec::with_capacity(alloc, shards as usize) else {
            return Err((PoolError::Memory, hall));
        };
        let Ok(has_work) = bells(alloc, shards) else {
            return Err((PoolError::Memory, hall));
        };
        let Ok(sleeps) = Vec::from_elem(alloc, false, shards as usize) else {
            return Err((PoolError::Memory, hall));
        };
        let mut strays = how_many_out(&hall);
        for shard in 0..shards {
            let mut share = rest.split_off(1, 0);
            count_takes(&mut book, &mut share, strays);
            seats.push_reserved(Seat::new(shard, strays, share));
            strays = 0;
        }
        let pool = Pool {
            held: Mutex::new(Held::new(hall, sleeps, book, rest)),
            has_work,
            has_rest: Condvar::new(),
            shards,
        };
        Ok((pool, seats))
    }

    /// Keeps the course of the hall from here on, so that who holds the lock knows it again by a number (`Held::is_at`). It is called
    /// before the pool is shared.
    pub fn keep_course(&mut self, course: NewCourse<L>)
        requires { course ≡ K.course }
    {
        self.held.get_mut().keep_course(course);
    }

    /// The hall, under the lock. It is any hall that workers may have left: what is known of it is what its type says.
    pub fn hall<R: Wait>(&self, rt: &R) -> MutexGuard<'_, Held<K, L>> {
        self.held.lock(rt)
    }

    /// Wakes the workers that wait for something to take, as is to be done after a release. It wakes all, without the lock: a
    /// guard cannot signal a condition beside its own lock, and several batches may be released under one.
    pub fn wake(&self) {
        for has_work in &self.has_work {
            has_work.notify_all();
        }
    }

    /// Waits, with the lock let go, until there may be something to take of a shard.
    pub(crate) fn wait_for_work<'a, R: Wait>(
        &'a self,
        rt: &R,
        mut held: MutexGuard<'a, Held<K, L>>,
        shard: u8,
    ) -> MutexGuard<'a, Held<K, L>> {
        let Some(has_work) = self.has_work.get(usize::from(shard)) else {
            return held;
        };
        held.set_asleep(shard, true);
        let mut held = has_work.wait(rt, held);
        held.set_asleep(shard, false);
        held
    }

    /// Wakes those of the workers that wait for whose shards there is something to take.
    pub(crate) fn wake_for_tasks(&self, held: &mut Held<K, L>)
        ensures { held.new ≡ held.old }
    {
        for shard in 0..self.shards {
            if held.rouses(shard) {
                self.wake_worker(shard);
            }
        }
    }

    /// Wakes the worker of a shard, where it waits.
    fn wake_worker(&self, shard: u8) {
        if let Some(has_work) = self.has_work.get(usize::from(shard)) {
            has_work.notify_all();
        }
    }

    /// Stops the workers: each ends its `work` once it has given what it holds.
    pub fn stop<R: Wait>(&self, rt: &R) {
        let mut held = self.held.lock(rt);
        held.is_stopped = true;
        drop(held);
        self.wake();
        self.has_rest.notify_all();
    }

    /// Waits until every released epoch has passed or the pool is stopped, and lends the hall. It lets the lock go while it waits.
    pub fn settle<R: Wait>(&self, rt: &R) -> MutexGuard<'_, Held<K, L>>
        ensures { let held = mutex_guard_value result in (held.stopped ≡ true) ⊎ (unpassed held.hall ≡ None) }
    {
        let mut held = self.held.lock(rt);
        for _turn in rt.forever() {
            if held.is_stopped() || held.hall().unpassed().is_none() {
                return held;
            }
            held = self.has_rest.wait(rt, held);
        }
        unreachable!()
    }

    /// The hall, where all seats are there and free. Since the pool was made as many tasks were given to it as the seats have
    /// counted, and no more tasks are out than the seats have as strays. Refusal, with the pool and the seats handed back:
    /// `NotAll`, exactly where seats are missing, or one holds a task, or a task that was run and not given. It owns the pool, so
    /// it takes the lock without waiting.
    pub fn gather(
        self,
        seats: Vec<Seat<K, L>>,
    ) -> Result<Hall<L>, (PoolError, Pool<K, L>, Vec<Seat<K, L>>)>
        requires { K.parts ≡ K.shards }
        ensures gives { IfOk result (λ hall. hall.given ≡ K.start + sum (map (λ s. padded_value s.gives) seats.items)) }
        ensures out { IfOk result (λ hall. length hall.out ≤ sum (map (λ s. s.strays) seats.items)) }
        ensures exact { is_ok result ≡ (length seats.items == K.shards && list_all (λ s. is_empty s.hand) seats.items) }
        ensures back { IfErr result (λ e. (e.0 ≡ NotAll) × (e.2.items ≡ seats.items)) }
    {
        if !are_all(seats.as_slice(), self.shards) {
            return Err((PoolError::NotAll, self, seats));
        }
        let Pool {
            held,
            has_work: _,
            has_rest: _,
            shards: _,
        } = self;
        let (hall, mut book, mut all) = held.into_inner().into_parts();
        for seat in seats {
            let Seat {
                shard: _,
                hand: _,
                gives: _,
                strays: _,
                share,
            } = seat;
            all.merge(share);
        }
        book.audit(&mut all);
        reached_in_order::<L>();
        each_is_sound(&hall);
        Ok(hall)
    }
}

/// How many tasks of a hall are out.
fn how_many_out<L: Law>(hall: &Hall<L>) -> u64
    ensures out { result ≡ length hall.now.out }
    ensures numbers { hall.now.given + result ≡ hall.now.taken }
    ensures workers { 1 ≤ hall.now.workers }
{
    reached_in_order::<L>();
    each_is_sound(hall);
    hall.taken() - hall.given()
}

/// Counts so many takes more.
fn count_takes<K: Crew>(book: &mut Book<K>, share: &mut Share<K>, takes: u64)
    requires { 0 < share.old.parts }
    ensures total { book.new.total ≡ book.old.total + take_weight * takes }
    ensures amount { share.new.amount ≡ share.old.amount + take_weight * takes }
    ensures parts { share.new.parts ≡ share.old.parts }
{
    for _take in 0..takes {
        book.add(share, TAKE_WEIGHT);
    }
}

/// One for each shard. Refusal: `AllocError`.
fn bells(alloc: Global, shards: u8) -> Result<Vec<Condvar>, AllocError> {
    let mut bells = Vec::new(alloc);
    for _shard in 0..shards {
        bells.push(Condvar::new())?;
    }
    Ok(bells)
}

/// Whether these are so many seats, none of which holds anything.
fn are_all<K: Crew, L: Law>(seats: &[Seat<K, L>], shards: u8) -> bool
    ensures { result ≡ (length seats.now == shards && list_all (λ s. is_empty s.hand) seats.now) }
{
    seats.len() == shards as usize && are_free(seats)
}

/// Whether no seat holds anything.
fn are_free<K: Crew, L: Law>(seats: &[Seat<K, L>]) -> bool
    ensures { result ≡ list_all (λ s. is_empty s.hand) seats.now }
{
    seats.iter().all(|seat| seat.hand().is_empty())
}
