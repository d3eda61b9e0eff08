//! Workers, each in a thread of its own, and a keeper that is driven beside them.
use crate::catalogue::Catalogue;
use crate::device::Device;
use crate::error::StepError;
use crate::gate::RowGate;
use std::alloc::Global;
use std::sync::Wait;
use std::thread;
use std::thread::{JoinHandle, Scope, Threads};
use std::time::Clock;
use td_calls::Stock;
use td_keeper::{Command, Keeper, Reply};
use td_pool::{Crew, Pool, PoolError, Seat};
use td_store::standing::KeeperError;

/// What a keeper answers to commands.
pub(crate) type Replies = Result<Vec<Reply>, (KeeperError, Vec<Command>)>;

/// A worker's seat, and how its work ended.
#[derive(Drop)]
pub(crate) struct Served<K: Crew> {
    pub seat: Seat<K, Stock>,
    pub ended: Result<(), PoolError>,
}

/// Works from a seat until the pool is stopped. Where the work ends by a refusal, it stops the pool.
fn serve<K: Crew, R: Wait + Clock>(
    rt: &R,
    alloc: Global,
    pool: &Pool<K, Stock>,
    mut seat: Seat<K, Stock>,
    calls: &Catalogue,
    gate: &RowGate,
) -> Served<K> {
    let ended = pool.work(rt, alloc, &mut seat, calls, gate);
    if ended.is_err() {
        pool.stop(rt);
    }
    Served { seat, ended }
}

/// Drives a keeper by commands beside a worker for each seat, and stops the workers. Refusal: `Memory`, also where a thread could
/// not be made.
pub(crate) fn beside<K: Crew + Send + Sync, R: Threads + Wait + Clock + Sync>(
    rt: &R,
    alloc: Global,
    keeper: &mut Keeper<Device, Stock>,
    pool: &Pool<K, Stock>,
    seats: Vec<Seat<K, Stock>>,
    calls: &Catalogue,
    gate: &RowGate,
    commands: Vec<Command>,
) -> Result<(Replies, Vec<Served<K>>), StepError> {
    thread::scope(thread::scope_env(), rt, |scope| {
        let workers = start_each(scope, rt, alloc, pool, seats, calls, gate);
        drive_and_join(rt, alloc, keeper, pool, workers, commands)
    })
}

/// Starts a worker in a thread for each seat. Refusal: `Memory`, with some of them started.
fn start_each<'s, E, K: Crew + Send + Sync, R: Threads + Wait + Clock + Sync>(
    scope: &Scope<'s, E>,
    rt: &'s R,
    alloc: Global,
    pool: &'s Pool<K, Stock>,
    seats: Vec<Seat<K, Stock>>,
    calls: &'s Catalogue,
    gate: &'s RowGate,
) -> Result<Vec<JoinHandle<Served<K>>>, StepError> {
    let mut workers = Vec::new(alloc);
    for seat in seats {
        workers.reserve(1)?;
        match scope.spawn(move || serve(rt, alloc, pool, seat, calls, gate)) {
            Ok(worker) => workers.push_reserved(worker),
            Err(_) => return Err(StepError::Memory),
        }
    }
    Ok(workers)
}

/// Drives a keeper beside workers, if all were started; stops them, and waits for them.
fn drive_and_join<K: Crew, R: Threads + Wait>(
    rt: &R,
    alloc: Global,
    keeper: &mut Keeper<Device, Stock>,
    pool: &Pool<K, Stock>,
    workers: Result<Vec<JoinHandle<Served<K>>>, StepError>,
    commands: Vec<Command>,
) -> Result<(Replies, Vec<Served<K>>), StepError> {
    let Ok(workers) = workers else {
        pool.stop(rt);
        return Err(StepError::Memory);
    };
    let replies = keeper.drive(rt, pool, commands);
    pool.stop(rt);
    Ok((replies, join_each(rt, alloc, workers)?))
}

fn join_each<K: Crew, R: Threads + Wait>(
    rt: &R,
    alloc: Global,
    workers: Vec<JoinHandle<Served<K>>>,
) -> Result<Vec<Served<K>>, StepError> {
    let mut served = Vec::new(alloc);
    for worker in workers {
        served.push(worker.join(rt))?;
    }
    Ok(served)
}
