//! A run of the service: the keeper's loop beside the workers of a pool, and a producer and a follower in threads of their own.
use crate::visits::Visits;
use crossbeam_channel::{Receiver, Sender, bounded};
use std::alloc::Global;
use std::sync::Wait;
use std::sync::atomic::{AtomicBool, Ordering};
use std::thread::{JoinHandle, Scope, Threads};
use std::time::{Clock, Duration};
use std::{io, thread};
use td_core::Hall;
use td_disk::FileDisk;
use td_keeper::{Keeper, KeeperError, PoolEngine, Receipt};
use td_plan::Plan;
use td_pool::{Crew, Pool, PoolError};
use td_stamp::{Bag, Batch, EPOCHS_END, Entry, EpochOut, Rec, StampError};
use td_watch::{Reader, Watch};
use td_workers::{Beside, beside_workers};

/// How many shards the hall has, each with a worker in a thread of its own.
const WORKERS: u8 = 3;

/// A cut is written when so many epochs stand after the checkpoint.
const CUT: u64 = 50;

/// How many requests may wait for the keeper.
const INBOX: usize = 16;

pub(crate) type VisitsKeeper = Keeper<FileDisk, Visits>;

/// A batch on its way from the producer to the keeper, under its request number.
#[derive(Drop)]
struct Request {
    number: u64,
    batch: Batch,
}

/// What is done beside the workers: by which keeper, where its requests come from, and where outputs go.
#[derive(Drop)]
struct Intake<'a> {
    keeper: VisitsKeeper,
    inbox: Receiver<Request>,
    outs: &'a mut Vec<EpochOut>,
}

impl<R: Wait> Beside<Visits, R> for Intake<'_> {
    /// The keeper, and how many requests were on the disk already, or why the keeper refused one.
    type Answer = (VisitsKeeper, Result<u64, KeeperError>);

    fn run<K: Crew>(self, rt: &R, pool: &Pool<K, Visits>) -> Self::Answer {
        let Intake {
            keeper,
            inbox,
            outs,
        } = self;
        let mut engine = PoolEngine::new(keeper, pool);
        let taken_in = take_in(rt, &mut engine, &inbox, outs);
        (engine.into_keeper(), taken_in)
    }
}

/// Puts each request on the disk and releases it to the workers, until the producer has gone; and writes a cut when `CUT` epochs
/// stand after the checkpoint. Answers how many requests were on the disk already. Refusals: those of the keeper.
fn take_in<K: Crew, R: Wait>(
    rt: &R,
    engine: &mut PoolEngine<'_, FileDisk, K, Visits>,
    inbox: &Receiver<Request>,
    outs: &mut Vec<EpochOut>,
) -> Result<u64, KeeperError> {
    let mut already = 0u64;
    engine.release(rt)?;
    for Request { number, batch } in inbox.iter(rt) {
        let received = engine.submit_as(number, batch);
        let Receipt::New(epoch) = received.map_err(|(refusal, _)| refusal)? else {
            already = already.saturating_add(1);
            continue;
        };
        engine.release(rt)?;
        if epoch.saturating_sub(engine.keeper().kept()) >= CUT {
            hand_out(rt, engine, outs)?;
            engine.cut(rt)?;
            engine.write_cut()?;
        }
    }
    hand_out(rt, engine, outs)?;
    Ok(already)
}

/// Waits until all that was released has passed, and puts the outputs of the epochs that `outs` lacks behind it: after a start
/// those since the checkpoint come again. Refusals: those of the keeper. It goes by their count: a loop over `next_out` would
/// need a measure in a proof file.
fn hand_out<K: Crew, R: Wait>(
    rt: &R,
    engine: &mut PoolEngine<'_, FileDisk, K, Visits>,
    outs: &mut Vec<EpochOut>,
) -> Result<(), KeeperError> {
    engine.settle(rt)?;
    for _epoch in 0..engine.collect(rt)? {
        match engine.next_out() {
            Some(out) if (outs.len() as u64) < out.epoch => outs.push(out)?,
            _ => {}
        }
    }
    Ok(())
}

/// What a run needs beside its keeper.
#[derive(Drop)]
struct Prepared {
    hall: Hall<Visits>,
    reader: Reader,
    requests: Sender<Request>,
    inbox: Receiver<Request>,
}

/// Takes in so many requests of a producer, puts behind `outs` the outputs of the epochs that it lacks, and says what came of it; then
/// the keeper goes, and its disk. Refusals: those of the keeper, of the workers and of the threads.
pub(crate) fn run<R: Print + Threads + Wait + Clock + AllocGlobal + Sync>(
    rt: &R,
    mut keeper: VisitsKeeper,
    plan: &Plan,
    count: u32,
    outs: &mut Vec<EpochOut>,
) -> anyhow::Result<()> {
    match prepare(rt, &mut keeper, plan) {
        Ok(prepared) => {
            let (keeper, already, seen) = serve(rt, keeper, prepared, count, outs)?;
            print_end(rt, &keeper, count, already, outs.len(), seen)
        }
        Err(error) => Err(error),
    }
}

/// Says what came of a run. The keeper is lent, so that no refusal has to drop it.
fn print_end(
    rt: &impl Print,
    keeper: &VisitsKeeper,
    count: u32,
    already: u64,
    epochs: usize,
    seen: u64,
) -> anyhow::Result<()> {
    let (epoch, kept, request) = (keeper.last_epoch(), keeper.kept(), keeper.last_request());
    println!(rt; "{count} requests, {already} of them already there; outputs of {epochs} epochs")?;
    println!(rt; "the follower saw epoch {seen} done")?;
    println!(rt; "the disk has epoch {epoch}, kept {kept}, last request {request}")?;
    Ok(())
}

/// A watch of a keeper, a channel, and a hall at its checkpoint. Refusals: those of the keeper and of the hall.
fn prepare<R: AllocGlobal>(
    rt: &R,
    keeper: &mut VisitsKeeper,
    plan: &Plan,
) -> anyhow::Result<Prepared> {
    let reader = watched(rt, keeper)?;
    let (requests, inbox) = bounded(rt.alloc(), INBOX)?;
    let hall = hall_at(rt, keeper, plan)?;
    Ok(Prepared {
        hall,
        reader,
        requests,
        inbox,
    })
}

/// A hall for a plan, at the keeper's checkpoint. Refusals: those of the keeper and of the hall.
fn hall_at<R: AllocGlobal>(
    rt: &R,
    keeper: &VisitsKeeper,
    plan: &Plan,
) -> anyhow::Result<Hall<Visits>> {
    let kept = keeper.kept();
    if EPOCHS_END - 1 <= kept {
        return Err(KeeperError::Epochs.into());
    }
    let states = keeper.kept_states()?;
    Ok(Hall::open(rt.alloc(), plan, states, kept + 1, WORKERS)?)
}

/// Attaches the writer of a fresh watch to the keeper, and answers its reader. Refusal: `Memory`.
fn watched<R: AllocGlobal>(rt: &R, keeper: &mut VisitsKeeper) -> anyhow::Result<Reader> {
    let Watch {
        writer,
        mut readers,
    } = Watch::new(rt.alloc(), [0, 0, 0], 1)?;
    let Some(reader) = readers.pop() else {
        unreachable!()
    };
    keeper.attach(writer);
    Ok(reader)
}

/// Takes requests in by a hall, beside the threads. Answers the keeper, how many requests were on the disk already, and which epoch the
/// follower saw done. The flag ends the follower: a reader cannot know that its writer has gone.
fn serve<R: Threads + Wait + Clock + AllocGlobal + Sync>(
    rt: &R,
    keeper: VisitsKeeper,
    prepared: Prepared,
    count: u32,
    outs: &mut Vec<EpochOut>,
) -> anyhow::Result<(VisitsKeeper, u64, u64)> {
    let Prepared {
        hall,
        reader,
        requests,
        inbox,
    } = prepared;
    let intake = Intake {
        keeper,
        inbox,
        outs,
    };
    let is_over = &AtomicBool::new(false);
    thread::scope(thread::scope_env(), rt, |scope| {
        let (producer, follower) = match start(scope, rt, requests, count, reader, is_over) {
            Ok(threads) => threads,
            Err(error) => return Err(unserved(hall, intake, error)),
        };
        let ended = match beside_workers(rt, rt.alloc(), hall, &Visits, intake) {
            Ok(ended) => Ok(ended),
            Err(refused) => Err(not_begun(refused)),
        };
        is_over.store(true, Ordering::SeqCst);
        let (produced, seen) = (producer.join(rt), follower.join(rt));
        match outcome(ended, produced) {
            Ok((keeper, already)) => Ok((keeper, already, seen)),
            Err(error) => Err(error),
        }
    })
}

/// Starts the producer and the follower.
fn start<'s, E, R: Threads + Wait + Clock + AllocGlobal + Sync>(
    scope: &Scope<'s, E>,
    rt: &'s R,
    requests: Sender<Request>,
    count: u32,
    reader: Reader,
    is_over: &'s AtomicBool,
) -> io::Result<(JoinHandle<anyhow::Result<()>>, JoinHandle<u64>)> {
    let producer = scope.spawn(move || produce(rt, requests, count))?;
    let follower = scope.spawn(move || follow(rt, reader, is_over))?;
    Ok((producer, follower))
}

/// The hall and the intake go, and this is why. That they go is proved here, and not in the scope.
fn unserved(_hall: Hall<Visits>, _intake: Intake<'_>, error: io::Error) -> anyhow::Error {
    error.into()
}

/// The intake goes, whose work was not begun, and this is why.
fn not_begun(refused: (PoolError, Intake<'_>)) -> PoolError {
    let (refusal, _intake) = refused;
    refusal
}

/// How the work beside the workers ended: the keeper, and what it came to.
type Ended = Result<
    (
        (VisitsKeeper, Result<u64, KeeperError>),
        Result<(), PoolError>,
    ),
    PoolError,
>;

/// The keeper, and how many requests were on the disk already, by how the work beside the workers and the producer ended.
fn outcome(ended: Ended, produced: anyhow::Result<()>) -> anyhow::Result<(VisitsKeeper, u64)> {
    let ((keeper, taken_in), worked) = ended?;
    match already_there(taken_in, worked, produced) {
        Ok(already) => Ok((keeper, already)),
        Err(error) => Err(error),
    }
}

/// How many requests were on the disk already.
fn already_there(
    taken_in: Result<u64, KeeperError>,
    worked: Result<(), PoolError>,
    produced: anyhow::Result<()>,
) -> anyhow::Result<u64> {
    if let Ok(_) | Err(KeeperError::NotPassed(_)) = taken_in {
        // Where a worker was refused, that is why an epoch did not pass.
        worked?;
    }
    produced?;
    Ok(taken_in?)
}

/// Sends so many requests, from the first on. It ends early where nobody takes them any more. Refusal: `Memory`.
fn produce<R: Wait + AllocGlobal>(
    rt: &R,
    requests: Sender<Request>,
    count: u32,
) -> anyhow::Result<()> {
    for visitor in 1..=count {
        let batch = visits_of(rt.alloc(), visitor)?;
        let number = 1000 + u64::from(visitor);
        if requests.send(rt, Request { number, batch }).is_err() {
            break;
        }
    }
    Ok(())
}

/// Two visits of page 1 and one of page 2. Refusal: `Memory`.
fn visits_of(alloc: Global, visitor: u32) -> Result<Batch, StampError> {
    let val = i64::from(visitor);
    let mut batch = Bag::new(alloc);
    for key in [1, 1, 2] {
        let rec = Rec { key, val };
        batch.add(Entry { input: 0, rec })?;
    }
    Ok(batch)
}

/// Follows a watch until the run is over, and answers the last epoch that it saw done.
fn follow<R: Wait + Clock>(rt: &R, mut reader: Reader, is_over: &AtomicBool) -> u64 {
    for _turn in rt.forever() {
        // Asked before the words are read: after a run that is over these are the last.
        let ends = is_over.load(Ordering::SeqCst);
        let [_acked, done, _kept] = reader.read();
        if ends {
            return done;
        }
        thread::sleep(rt, Duration::from_millis(1));
    }
    unreachable!()
}
