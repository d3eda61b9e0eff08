//! Counts the visits of pages, as a service: a keeper with its disk in a file, and beside it workers, a producer and a follower, each in
//! a thread of its own. It is stopped after 120 requests and started again; the producer then sends 200, from the first on.
//!
//! One thread owns the keeper, and requests reach it through a bounded channel. So no lock is held while the disk is written, and
//! the producer waits where the keeper is behind. `docs/SERVICE.md` goes through it.
#![tactic(auto)]

mod service;
mod visits;

use crate::service::{VisitsKeeper, run};
use crate::visits::Visits;
use std::fs::File;
use std::io;
use std::rt::Files;
use std::sync::Wait;
use std::thread::Threads;
use std::time::Clock;
use td_calls::Closures;
use td_disk::FileDisk;
use td_head::Shape;
use td_plan::Plan;
use td_stamp::EpochOut;

/// A fold counts the visits of each page.
const PLAN: &str = "0 input\n1 fold 1 0\n2 output 1\n";

/// The disk, a file in the folder in which the program runs.
const DISK: &str = "service.disk";

fn main(rt: HostRuntime) -> anyhow::Result<()> {
    let plan = Plan::read(rt.alloc(), PLAN)?;
    serve_plan(&rt, &plan)
}

/// Starts the service for a plan, with an empty list of outputs. What has an owner here is lent to what may be refused: so no refusal
/// has to drop it, and the proof has one exit to drop it at.
fn serve_plan<R: Files<File = File> + Print + Threads + Wait + Clock + AllocGlobal + Sync>(
    rt: &R,
    plan: &Plan,
) -> anyhow::Result<()> {
    Visits.fits(plan)?;
    let Some(shape) = Shape::new(8, 128, 16) else {
        anyhow::bail!("no such shape");
    };
    let _streams = hold_streams(rt)?;
    let mut outs = Vec::new(rt.alloc());
    start_twice(rt, plan, shape, &mut outs)
}

/// Starts the service on a new disk, and again on what it left there.
fn start_twice<R: Files<File = File> + Print + Threads + Wait + Clock + AllocGlobal + Sync>(
    rt: &R,
    plan: &Plan,
    shape: Shape,
    outs: &mut Vec<EpochOut>,
) -> anyhow::Result<()> {
    // The first start makes the disk anew.
    let disk = FileDisk::create(rt, DISK, shape.bytes())?;
    let made = VisitsKeeper::format(rt.alloc(), disk, plan, shape);
    run(rt, made.map_err(|(refusal, _)| refusal)?, plan, 120, outs)?;

    // The second finds it as the first left it.
    let disk = FileDisk::open(rt, DISK)?;
    let found = VisitsKeeper::recover(rt.alloc(), disk, plan);
    run(rt, found.map_err(|(refusal, _)| refusal)?, plan, 200, outs)?;
    tell_last(rt, outs)
}

/// Takes the numbers of standard streams that are closed: a file gets the lowest that is free, and what is printed would go to the disk.
fn hold_streams<R: Files<File = File>>(rt: &R) -> io::Result<[File; 3]> {
    Ok([
        File::open(rt, "/")?,
        File::open(rt, "/")?,
        File::open(rt, "/")?,
    ])
}

/// The outputs of the last epoch.
fn tell_last(rt: &impl Print, outs: &[EpochOut]) -> anyhow::Result<()> {
    if let Some(last) = outs.last() {
        for told in last.recs.list() {
            let (page, visits) = (told.rec.key, told.rec.val);
            println!(rt; "epoch {}: page {page} has {visits} visits", last.epoch)?;
        }
    }
    Ok(())
}
