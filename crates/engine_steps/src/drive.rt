//! Driving a keeper beside a pool of a hall.
ghost use Rattle.std.specs.Prelude.{◌≡◌};

use crate::catalogue::Catalogue;
use crate::device::Device;
use crate::error::StepError;
use crate::gate::{Passage, RowGate};
use crate::replies::{print_ended, print_replies};
use crate::worker::{Replies, Served, beside};
use std::alloc::Global;
use std::marker::Brand;
use std::sync::Wait;
use std::sync::ledger::Blank;
use std::thread::Threads;
use std::time::Clock;
use td_calls::Stock;
use td_core::Hall;
use td_keeper::{Command, Keeper};
use td_pool::{Crew, Pool, PoolError, Seat};

/// Why a pool was not gathered, with the pool and the seats.
type Refused<K> = (PoolError, Pool<K, Stock>, Vec<Seat<K, Stock>>);

/// Makes a pool of a hall, drives a keeper by commands beside its workers, which pass such a gate, and gathers. Prints the replies,
/// what became of the workers and their seats, and whether workers met at the gate; answers the hall, if it was gathered.
pub(crate) fn drive<R: Print + Threads + Wait + Clock + Sync>(
    rt: &R,
    alloc: Global,
    keeper: &mut Keeper<Device, Stock>,
    hall: Hall<Stock>,
    calls: &Catalogue,
    passage: Passage,
    commands: Vec<Command>,
) -> Result<Option<Hall<Stock>>, StepError> {
    let blank = Blank::new(u64::from(hall.workers()));
    let gate = RowGate::new(passage);
    let driven = drive_pool::<Brand, _>(rt, alloc, keeper, hall, blank, calls, &gate, commands);
    print_met(rt, &gate)?;
    print_memory(rt, driven)
}

/// Drives a keeper beside the workers of a pool of this name.
fn drive_pool<K: Crew + Send + Sync, R: Print + Threads + Wait + Clock + Sync>(
    rt: &R,
    alloc: Global,
    keeper: &mut Keeper<Device, Stock>,
    hall: Hall<Stock>,
    blank: Blank,
    calls: &Catalogue,
    gate: &RowGate,
    commands: Vec<Command>,
) -> Result<Option<Hall<Stock>>, StepError>
    requires name { blank.name ≡ K.name }
    requires parts { (blank.parts ≡ K.parts) × (K.parts ≡ K.shards) }
    requires hall { (hall.workers ≡ K.shards) × (hall.given ≡ K.start) }
{
    let Ok((pool, seats)) = Pool::<K, Stock>::new(alloc, hall, blank) else {
        return Err(StepError::Memory);
    };
    match beside(rt, alloc, keeper, &pool, seats, calls, gate, commands) {
        Ok((replies, served)) => gather_served(rt, alloc, pool, replies, served),
        Err(error) => Err(error),
    }
}

/// Prints the replies, and what became of the workers and their seats, and gathers.
fn gather_served<K: Crew>(
    rt: &impl Print,
    alloc: Global,
    pool: Pool<K, Stock>,
    replies: Replies,
    served: Vec<Served<K>>,
) -> Result<Option<Hall<Stock>>, StepError>
    requires { K.parts ≡ K.shards }
{
    print_replies(rt, replies)?;
    let seats = seats_of(rt, alloc, served)?;
    gather(rt, pool, seats)
}

/// `met`, where workers met at a gate.
fn print_met(rt: &impl Print, gate: &RowGate) -> Result<(), StepError> {
    if gate.has_met() {
        println!(rt; "met")?;
    }
    Ok(())
}

/// The hall that is left. For want of memory, which is an answer here, there is none.
fn print_memory(
    rt: &impl Print,
    driven: Result<Option<Hall<Stock>>, StepError>,
) -> Result<Option<Hall<Stock>>, StepError> {
    match driven {
        Err(StepError::Memory) => {
            println!(rt; "refused: memory")?;
            Ok(None)
        }
        driven => driven,
    }
}

/// The seats of workers. Prints how those that were refused ended.
fn seats_of<K: Crew>(
    rt: &impl Print,
    alloc: Global,
    served: Vec<Served<K>>,
) -> Result<Vec<Seat<K, Stock>>, StepError> {
    let mut seats = Vec::new(alloc);
    for Served { seat, ended } in served {
        print_ended(rt, seat.shard(), ended)?;
        seats.push(seat)?;
    }
    Ok(seats)
}

/// Tries to gather with a seat missing, and then gathers with all. Prints each refusal, and between them how many tasks the seats
/// gave; answers the hall, if it was gathered.
fn gather<K: Crew>(
    rt: &impl Print,
    pool: Pool<K, Stock>,
    seats: Vec<Seat<K, Stock>>,
) -> Result<Option<Hall<Stock>>, StepError>
    requires { K.parts ≡ K.shards }
{
    let (refusal, pool, seats) = gather_without_last(pool, seats)?;
    println!(rt; "refused: {refusal}\ngave {}", gives_of(seats.as_slice()))?;
    print_gathered(rt, pool.gather(seats))
}

/// Tries to gather with the last seat missing: why it is refused, and the pool and all seats.
fn gather_without_last<K: Crew>(
    pool: Pool<K, Stock>,
    mut seats: Vec<Seat<K, Stock>>,
) -> Result<Refused<K>, StepError>
    requires { K.parts ≡ K.shards }
{
    let last = seats.pop().ok_or(StepError::Unlike)?;
    match pool.gather(seats) {
        Ok(_hall) => Err(StepError::Unlike),
        Err(refused) => with_last(refused, last),
    }
}

/// With the seat that was missing.
fn with_last<K: Crew>(refused: Refused<K>, last: Seat<K, Stock>) -> Result<Refused<K>, StepError> {
    let (refusal, pool, mut seats) = refused;
    seats.push(last)?;
    Ok((refusal, pool, seats))
}

/// The hall, if it was gathered; else prints why not.
fn print_gathered<K: Crew>(
    rt: &impl Print,
    gathered: Result<Hall<Stock>, Refused<K>>,
) -> Result<Option<Hall<Stock>>, StepError> {
    match gathered {
        Ok(hall) => Ok(Some(hall)),
        Err((refusal, _pool, _seats)) => {
            println!(rt; "refused: {refusal}")?;
            Ok(None)
        }
    }
}

/// How many tasks the seats gave.
fn gives_of<K: Crew>(seats: &[Seat<K, Stock>]) -> u64 {
    let mut gives = 0u64;
    for seat in seats {
        gives = gives.wrapping_add(seat.gives());
    }
    gives
}
