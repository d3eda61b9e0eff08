//! The answers of a hall.
use crate::error::StepError;
use crate::hands::Hands;
use td_calls::Stock;
use td_core::{Cut, Hall, HallError};
use td_stamp::{Batch, EpochOut, Rec, State, States, Time};
use td_task::{Done, KeyAt, KeyedItems, Task, Work};

/// Why a batch came back, and its entries.
pub(crate) fn print_back(
    rt: &impl Print,
    error: HallError,
    batch: &Batch,
) -> Result<(), StepError> {
    print!(rt; "refused: {error}, back came")?;
    print_entries(rt, batch)
}

/// ` (INPUT KEY VAL)` for each, and the end of the line.
pub(crate) fn print_entries(rt: &impl Print, batch: &Batch) -> Result<(), StepError> {
    for entry in batch.list() {
        print!(rt; " ({} {} {})", entry.input, entry.rec.key, entry.rec.val)?;
    }
    Ok(println!(rt; "")?)
}

/// `none`: there is none of what was asked for.
pub(crate) fn print_none(rt: &impl Print) -> Result<(), StepError> {
    Ok(println!(rt; "none")?)
}

/// The task that was taken, which stands last; or `none`.
pub(crate) fn print_taken(rt: &impl Print, taken: bool, hands: &Hands) -> Result<(), StepError> {
    match hands.tasks.back() {
        Some(task) if taken => print_task(rt, task),
        _ => print_none(rt),
    }
}

/// `task NUMBER: shard SHARD, vertex VERTEX, time TIME`, and what it is to do.
fn print_task(rt: &impl Print, task: &Task) -> Result<(), StepError> {
    let number = task.number();
    let shard = task.shard();
    let vertex = task.vertex();
    print!(rt; "task {number}: shard {shard}, vertex {vertex}, time ")?;
    print_time(rt, task.time())?;
    match task.work() {
        Work::Messages(port, recs) => {
            print!(rt; ", port {port}:")?;
            print_recs(rt, recs.as_slice())?;
        }
        Work::Notification(items) => print_keys(rt, items)?,
    }
    Ok(println!(rt; "")?)
}

/// `1`, `1<0>` or `1<0,1>`: an epoch, and the counters, the outermost loop's first.
fn print_time(rt: &impl Print, time: &Time) -> Result<(), StepError> {
    let epoch = time.epoch();
    print!(rt; "{epoch}")?;
    let Some((first, inner)) = time.turns().split_first() else {
        return Ok(());
    };
    print!(rt; "<{first}")?;
    for counter in inner {
        print!(rt; ",{counter}")?;
    }
    Ok(print!(rt; ">")?)
}

/// ` (KEY VAL)` for each.
fn print_recs(rt: &impl Print, recs: &[Rec]) -> Result<(), StepError> {
    for rec in recs {
        print!(rt; " ({} {})", rec.key, rec.val)?;
    }
    Ok(())
}

fn print_keys(rt: &impl Print, items: &KeyedItems) -> Result<(), StepError> {
    for index in 0..items.len() {
        print_key(rt, items.at(index))?;
    }
    Ok(())
}

/// `, key KEY:`, and ` (PORT VAL)` for each of its items.
fn print_key(rt: &impl Print, at: KeyAt<'_>) -> Result<(), StepError> {
    print!(rt; ", key {}:", at.key)?;
    for item in at.items {
        print!(rt; " ({} {})", item.port, item.val)?;
    }
    Ok(())
}

/// What the task that was run sends, which stands last; or `none`.
pub(crate) fn print_run(rt: &impl Print, run: bool, hands: &Hands) -> Result<(), StepError> {
    match hands.dones.back() {
        Some(done) if run => print_done(rt, done),
        _ => print_none(rt),
    }
}

fn print_done(rt: &impl Print, done: &Done<Stock>) -> Result<(), StepError> {
    print!(rt; "sends")?;
    print_recs(rt, done.sent())?;
    Ok(println!(rt; "")?)
}

/// `given`, or `none` where none was run.
pub(crate) fn print_given(rt: &impl Print, given: bool) -> Result<(), StepError> {
    let answer = if given { "given" } else { "none" };
    Ok(println!(rt; "{answer}")?)
}

/// The outputs of each epoch; or `none`.
pub(crate) fn print_epochs(rt: &impl Print, epochs: &[EpochOut]) -> Result<(), StepError> {
    if epochs.is_empty() {
        println!(rt; "none")?;
    }
    for epoch in epochs {
        print_epoch(rt, epoch)?;
    }
    Ok(())
}

/// `epoch EPOCH:` and ` (VERTEX KEY VAL)` for each record.
pub(crate) fn print_epoch(rt: &impl Print, out: &EpochOut) -> Result<(), StepError> {
    print!(rt; "epoch {}:", out.epoch)?;
    for told in out.recs.list() {
        print!(rt; " ({} {} {})", told.vertex, told.rec.key, told.rec.val)?;
    }
    Ok(println!(rt; "")?)
}

/// `cut EPOCH:`, and the states.
pub(crate) fn print_cut(rt: &impl Print, cut: &Cut) -> Result<(), StepError> {
    print!(rt; "cut {}:", cut.epoch)?;
    for (place, state) in cut.states.list() {
        print_state(rt, place, state)?;
    }
    Ok(println!(rt; "")?)
}

/// ` (VERTEX KEY A B)` for each, and the end of the line.
pub(crate) fn print_states(rt: &impl Print, states: &States) -> Result<(), StepError> {
    for (place, state) in states.list() {
        print_state(rt, place, state)?;
    }
    Ok(println!(rt; "")?)
}

fn print_state(rt: &impl Print, place: (u8, u64), state: State) -> Result<(), StepError> {
    let (vertex, key) = place;
    Ok(print!(rt; " ({vertex} {key} {} {})", state.a, state.b)?)
}

/// `unpassed EPOCH`, or `none`.
pub(crate) fn print_unpassed(rt: &impl Print, epoch: Option<u64>) -> Result<(), StepError> {
    match epoch {
        Some(epoch) => Ok(println!(rt; "unpassed {epoch}")?),
        None => print_none(rt),
    }
}

/// `shards N, batches N, collected EPOCH, given N, open, base EPOCH:`, and the states of the base.
pub(crate) fn print_hall(rt: &impl Print, hall: &Hall<Stock>) -> Result<(), StepError> {
    let (base, states) = hall.base();
    let closed = if hall.is_closed() { "closed" } else { "open" };
    print!(rt;
        "shards {}, batches {}, ",
        hall.workers(),
        hall.inputs().len()
    )?;
    print!(rt;
        "collected {}, given {}, {closed}, base {base}:",
        hall.collected(),
        hall.given()
    )?;
    print_states(rt, states)
}
