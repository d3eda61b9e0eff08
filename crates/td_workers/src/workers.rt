//! Workers in threads, and work beside them.
//!
//! A thread that cannot be made refuses before the work begins: with fewer workers than shards the tasks of some shard would wait
//! for ever.
ghost use Rattle.std.specs.Prelude.{◌≡◌, All, IfOk, IfErr};
ghost use Rattle.td_calls.specs.Fits.{lacking_code};
ghost use Rattle.td_pool.specs.declared.error.PoolError.TheVariants.{Memory};
ghost use Rattle.td_workers.specs.Ended.{MayRefuse};

use crate::allowance::{Allowance, Within};
use crate::beside::Beside;
use std::alloc::{AllocError, Global};
use std::marker::{Brand, PhantomData};
use std::snapshot::Snapshot;
use std::sync::Wait;
use std::sync::ledger::Blank;
use std::thread;
use std::thread::{Promise, PromisedHandle, Scope, Threads};
use td_calls::{Closures, Law};
use td_core::Hall;
use td_pool::{Crew, NewCourse, Pool, PoolError, Seat};

/// What is known of a worker's end: where it was refused, it is as these closures may have it refused.
#[derive(Drop)]
struct EndsBy<L, C> {
    calls: Snapshot<C>,
    law: PhantomData<L>,
}

impl<L: Law, C: Closures<L>> Promise<Result<(), PoolError>> for EndsBy<L, C> {
    ghost kept_by = { λ by ended. let calls = by.calls.value in IfErr ended (MayRefuse (lacking_code (C.stored calls))) };
}

/// A thread that works.
type Worker<L, C> = PromisedHandle<Result<(), PoolError>, EndsBy<L, C>>;

/// Makes a pool over a hall, which keeps its course, with a worker in a thread of its own for each of its shards, does the work beside them in this thread,
/// and then stops the pool and waits until each worker has ended; the hall goes with its pool. Answers what the work came to, and the
/// refusal of the first worker in order that was refused: such a worker stops the pool, so that the work does not wait for it.
///
/// Refusal: `Memory`, also where a thread cannot be made, with nothing of the work done: it comes back when the workers that were made
/// have ended.
pub fn beside_workers<
    L: Law + Send + Sync,
    C: Closures<L> + Sync,
    W: Beside<L, R> + Drop,
    R: Threads + Wait + Sync,
>(
    rt: &R,
    alloc: Global,
    hall: Hall<L>,
    calls: &C,
    work: W,
) -> Result<(W::Answer, Result<(), PoolError>), (PoolError, W)>
    ensures gives { IfOk result (λ ended. W.gives work ended.0) }
    ensures worked { let lacks = lacking_code (C.stored calls.now) in IfOk result (λ ended. IfErr ended.1 (MayRefuse lacks)) }
    ensures refused { IfErr result (λ e. (e.0 ≡ Memory) × (e.1 ≡ work)) }
{
    beside_workers_within(rt, alloc, hall, calls, &Allowance::new(u64::MAX), work)
}

/// As `beside_workers`, where the workers may run no more tasks than are allowed: at the first task beyond these the pool is stopped, so that an
/// epoch that takes more does not pass. The task that was taken is run all the same.
pub fn beside_workers_within<
    L: Law + Send + Sync,
    C: Closures<L> + Sync,
    W: Beside<L, R> + Drop,
    R: Threads + Wait + Sync,
>(
    rt: &R,
    alloc: Global,
    hall: Hall<L>,
    calls: &C,
    allowance: &Allowance,
    work: W,
) -> Result<(W::Answer, Result<(), PoolError>), (PoolError, W)>
    ensures gives { IfOk result (λ ended. W.gives work ended.0) }
    ensures worked { let lacks = lacking_code (C.stored calls.now) in IfOk result (λ ended. IfErr ended.1 (MayRefuse lacks)) }
    ensures refused { IfErr result (λ e. (e.0 ≡ Memory) × (e.1 ≡ work)) }
{
    let blank = blank_for(&hall);
    let course = NewCourse::new();
    in_pool::<L, C, W, Brand, R>(rt, alloc, hall, blank, course, calls, allowance, work)
}

/// A name that no pool has yet, with a part for each shard of a hall.
fn blank_for<L: Law>(hall: &Hall<L>) -> Blank
    ensures { result.parts ≡ hall.now.workers }
{
    Blank::new(u64::from(hall.workers()))
}

/// As `beside_workers`, in a pool of this name.
fn in_pool<
    L: Law + Send + Sync,
    C: Closures<L> + Sync,
    W: Beside<L, R> + Drop,
    K: Crew + Send + Sync,
    R: Threads + Wait + Sync,
>(
    rt: &R,
    alloc: Global,
    hall: Hall<L>,
    blank: Blank,
    course: NewCourse<L>,
    calls: &C,
    allowance: &Allowance,
    work: W,
) -> Result<(W::Answer, Result<(), PoolError>), (PoolError, W)>
    requires name { blank.name ≡ K.name }
    requires course { course ≡ K.course }
    requires parts { (blank.parts ≡ K.parts) × (K.parts ≡ K.shards) }
    requires hall { (hall.workers ≡ K.shards) × (hall.given ≡ K.start) }
    ensures gives { IfOk result (λ ended. W.gives work ended.0) }
    ensures worked { let lacks = lacking_code (C.stored calls.now) in IfOk result (λ ended. IfErr ended.1 (MayRefuse lacks)) }
    ensures refused { IfErr result (λ e. (e.0 ≡ Memory) × (e.1 ≡ work)) }
{
    match Pool::<K, L>::new(alloc, hall, blank) {
        Ok((mut pool, seats)) => {
            pool.keep_course(course);
            in_scope(rt, alloc, &pool, seats, calls, allowance, work)
        }
        Err((refusal, _hall)) => Err((refusal, work)),
    }
}

/// As `beside_workers`, on this pool.
fn in_scope<
    L: Law + Send + Sync,
    C: Closures<L> + Sync,
    W: Beside<L, R> + Drop,
    K: Crew + Send + Sync,
    R: Threads + Wait + Sync,
>(
    rt: &R,
    alloc: Global,
    pool: &Pool<K, L>,
    seats: Vec<Seat<K, L>>,
    calls: &C,
    allowance: &Allowance,
    work: W,
) -> Result<(W::Answer, Result<(), PoolError>), (PoolError, W)>
    ensures gives { IfOk result (λ ended. W.gives work ended.0) }
    ensures worked { let lacks = lacking_code (C.stored calls.now) in IfOk result (λ ended. IfErr ended.1 (MayRefuse lacks)) }
    ensures refused { IfErr result (λ e. (e.0 ≡ Memory) × (e.1 ≡ work)) }
{
    thread::scope(
        thread::scope_env(),
        rt,
        move |scope| -> Result<(W::Answer, Result<(), PoolError>), (PoolError, W)>
            ensures gives { IfOk result (λ ended. W.gives work ended.0) }
            ensures worked { let lacks = lacking_code (C.stored calls.entry.now) in IfOk result (λ ended. IfErr ended.1 (MayRefuse lacks)) }
            ensures refused { IfErr result (λ e. (e.0 ≡ Memory) × (e.1 ≡ work)) }
        {
            let Ok(workers) = start_all(scope, rt, alloc, pool, seats, calls, allowance) else {
                pool.stop(rt);
                return Err((PoolError::Memory, work));
            };
            let answer = work.run(rt, pool);
            pool.stop(rt);
            Ok((answer, join_all(rt, workers, calls)))
        },
    )
}

/// Starts a worker from each seat. Refusal: want of memory, also where a thread cannot be made, with some of them started.
fn start_all<
    's,
    E,
    L: Law + Send + Sync,
    C: Closures<L> + Sync,
    K: Crew + Send + Sync,
    R: Threads + Wait + Sync,
>(
    scope: &Scope<'s, E>,
    rt: &'s R,
    alloc: Global,
    pool: &'s Pool<K, L>,
    seats: Vec<Seat<K, L>>,
    calls: &'s C,
    allowance: &'s Allowance,
) -> Result<Vec<Worker<L, C>>, AllocError>
    ensures { IfOk result (λ workers. All (λ worker. worker.promise.calls.value ≡ calls.now) workers.items) }
{
    let mut workers = Vec::new(alloc);
    for seat in seats {
        let ends = EndsBy {
            calls: Snapshot::of(calls),
            law: PhantomData,
        };
        workers.push(scope.spawn_with(
            ends,
            move || serve(rt, alloc, pool, seat, calls, allowance),
        )?)?;
    }
    Ok(workers)
}

/// Waits until each worker has ended. Refusal: that of the first in order that was refused.
fn join_all<L: Law, C: Closures<L>, R: Threads>(
    rt: &R,
    workers: Vec<Worker<L, C>>,
    calls: &C,
) -> Result<(), PoolError>
    requires { All (λ worker. worker.promise.calls.value ≡ calls.now) workers.items }
    ensures { IfErr result (MayRefuse (lacking_code (C.stored calls.now))) }
{
    let mut ended = Ok(());
    for worker in workers {
        let worked = worker.join(rt);
        if ended.is_ok() {
            ended = worked;
        }
    }
    ended
}

/// Works from a seat until the pool is stopped, as it is at the first task beyond the allowance. Where the work ends by a refusal, it stops the pool.
fn serve<L: Law, C: Closures<L>, K: Crew, R: Wait>(
    rt: &R,
    alloc: Global,
    pool: &Pool<K, L>,
    mut seat: Seat<K, L>,
    calls: &C,
    allowance: &Allowance,
) -> Result<(), PoolError>
    ensures { IfErr result (MayRefuse (lacking_code (C.stored calls.now))) }
{
    let within = Within { allowance, pool };
    let worked = pool.work(rt, alloc, &mut seat, calls, &within);
    if worked.is_err() {
        pool.stop(rt);
    }
    worked
}
