//! Formatting disks in memory, each write and sync failing in turn, and the laws that a program may call.
use std::alloc::Global;
use std::test::Fail;
use td_calls::Stock;
use td_disk::{Disk, FuseDisk, MemoryDisk};
use td_head::Shape;
use td_keeper::Keeper;
use td_keeper::laws::each_is_kept;
use td_plan::Plan;
use td_store::standing::{KeeperError, Part, laws};

const TOTAL: &str = "0 input\n1 fold 40 0\n2 output 1\n";

/// How large a disk with M = 4, N = 2 and K = 3 is.
const SIZE: u64 = 8_742;

fn format<D: Disk>(
    alloc: Global,
    disk: D,
    plan: &Plan,
) -> Result<Keeper<D, Stock>, (KeeperError, D)> {
    match Shape::new(4, 2, 3) {
        Some(shape) if shape.bytes() <= disk.size() => Keeper::format(alloc, disk, plan, shape),
        _ => Err((KeeperError::NotFormatted, disk)),
    }
}

/// A disk that is formatted.
fn formatted(alloc: Global, plan: &Plan) -> Result<MemoryDisk, Fail> {
    match format(alloc, MemoryDisk::new(alloc, SIZE)?, plan) {
        Ok(keeper) => Ok(keeper.into_disk()),
        Err((refusal, _disk)) => Err(Fail::from(refusal)),
    }
}

/// What a disk tells for a plan, in words.
fn told(alloc: Global, disk: MemoryDisk, plan: &Plan) -> Result<String, Fail> {
    match Keeper::<MemoryDisk, Stock>::recover(alloc, disk, plan) {
        Ok(keeper) => {
            each_is_kept(&keeper);
            let (epoch, states, batches) = keeper.opening()?;
            let (states, batches) = (states.len(), batches.len());
            Ok(format!(in alloc; "epoch {epoch}, {states} states, {batches} batches")?)
        }
        Err((refusal, _disk)) => Ok(format!(in alloc; "{refusal}")?),
    }
}

// After each, the disk that comes back is of use.
#[test]
fn each_write_and_sync_fails_in_turn(rt: HostRuntime) -> Result<(), Fail> {
    let alloc = rt.alloc();
    let plan = Plan::read(alloc, TOTAL)?;
    for k in 1..=15u64 {
        let fuse = FuseDisk::stop_at(formatted(alloc, &plan)?, k);
        match format(alloc, fuse, &plan) {
            Ok(_keeper) => assert_eq!(rt; k, 15),
            Err((refusal, fuse)) => {
                assert_eq!(rt; refusal, KeeperError::Device);
                assert!(rt; format(alloc, fuse.into_inner(), &plan).is_ok());
            }
        }
    }
    let fresh = told(alloc, formatted(alloc, &plan)?, &plan)?;
    assert_eq!(rt; fresh.as_str(), "epoch 0, 0 states, 0 batches");
    Ok(())
}

#[test]
fn texts_and_laws(rt: HostRuntime) -> Result<(), Fail> {
    let (waits, cell) = (KeeperError::NotPassed(2), Part::Cell(1));
    let texts = format!(in rt.alloc(); "{waits}, {cell}, {}", KeeperError::CutWaiting.number())?;
    assert_eq!(rt; texts.as_str(), "epoch 2 not passed, cell 1, 9");
    laws::advance_stands::<Stock>();
    laws::standings_advance::<Stock>();
    laws::advances_join::<Stock>();
    laws::last_request_never_falls::<Stock>();
    laws::parts_are_apart();
    laws::told_in_parts();
    laws::told_refused();
    laws::write_cut_is_safe::<MemoryDisk>();
    laws::submit_is_safe::<MemoryDisk>();
    laws::recovered::<MemoryDisk>();
    laws::formatted();
    Ok(())
}
