//! The coldest reading of each room, epoch by epoch, by closures of its own: an example of a program over the engine.
//!
//! What such a program needs is a law, closures that answer it, and calls of the engine. The proof that they answer it is the
//! check's own, without a proof file. `docs/CLOSURES.md` goes through it.
#![tactic(auto)]

mod closures;

use crate::closures::{Coldest, InRoom, NoFold, Rooms};
use std::alloc::Global;
use td_batch::evaluate;
use td_calls::{Calls, Closures};
use td_plan::Plan;
use td_stamp::{Bag, Batch, Entry, EpochOut, Rec, States};

/// The closures of this program: no folds.
type Own = Calls<InRoom, Coldest, NoFold>;

/// Sensors' readings go to their rooms; then the coldest of each room is told.
const PLAN: &str = "0 input\n1 map 1 0\n2 group 2 1\n3 output 2\n";

/// Two epochs of readings: (sensor, degrees).
const FIRST: [(u64, i64); 4] = [(11, 21), (12, 18), (13, 19), (20, 25)];

const SECOND: [(u64, i64); 2] = [(12, 20), (21, -3)];

fn main(rt: HostRuntime) -> anyhow::Result<()> {
    let plan = Plan::read(rt.alloc(), PLAN)?;
    let mut calls: Own = Calls::new(rt.alloc());
    calls.add_map(InRoom).map_err(|(error, _)| error)?;
    calls.add_group(Coldest).map_err(|(error, _)| error)?;

    let batches = [batch(rt.alloc(), &FIRST)?, batch(rt.alloc(), &SECOND)?];
    for out in outputs(rt.alloc(), &plan, &calls, &batches)? {
        for told in out.recs.list() {
            println!(rt;
                "epoch {}: room {} at {} degrees",
                out.epoch, told.rec.key, told.rec.val
            )?;
        }
    }
    Ok(())
}

/// The outputs of epochs from the first on: first it is asked whether each vertex has its closure, and whether each batch
/// names inputs of the plan alone.
fn outputs(
    alloc: Global,
    plan: &Plan,
    calls: &Own,
    batches: &[Batch],
) -> anyhow::Result<Vec<EpochOut>> {
    calls.fits(plan)?;
    if !plan.accepts_all(batches) {
        anyhow::bail!("a reading names no input");
    }
    let states = States::new(alloc);
    let (_, outs) = evaluate::<Rooms, _>(alloc, plan, calls, &states, 1, batches)?;
    Ok(outs)
}

/// Readings as a batch for input 0.
fn batch(alloc: Global, readings: &[(u64, i64)]) -> anyhow::Result<Batch> {
    let mut batch: Batch = Bag::new(alloc);
    for &(key, val) in readings {
        batch.add(Entry {
            input: 0,
            rec: Rec { key, val },
        })?;
    }
    Ok(batch)
}
