//! Numbers and texts of refusals that no row shows.
use std::test::Fail;
use td_batch::BatchError;
use td_calls::CallsError;
use td_gate::GateError;
use td_progress::ProgressError;
use td_reach::ReachError;
use td_shard::ShardError;
use td_stamp::StampError;
use td_task::TaskError;
use td_watch::WatchError;

#[test]
fn refusals_have_numbers_and_texts(rt: HostRuntime) -> Result<(), Fail> {
    let (batch, progress, reach) = (
        BatchError::Memory,
        ProgressError::Memory,
        ReachError::Memory,
    );
    let (stamp, gate) = (StampError::Memory, GateError::Memory);
    let (shard, task, calls, watch) = (
        ShardError::Memory,
        TaskError::NoCall(2, 41),
        CallsError::CodeUsed,
        WatchError::Memory,
    );
    assert_eq!(rt;
        (batch.number(), progress.number(), reach.number()),
        (1, 1, 1)
    );
    assert_eq!(rt; (stamp.number(), gate.number()), (1, 2));
    assert_eq!(rt;
        (
            shard.number(),
            task.number(),
            calls.number(),
            watch.number()
        ),
        (1, 1, 1, 1)
    );
    let texts = format!(in rt.alloc();
        "{stamp}, {gate}, {batch}, {progress}, {reach}, {shard}, {task}, {calls}, {watch}"
    )?;
    assert_eq!(rt;
        texts.as_str(),
        "memory, memory, memory, memory, memory, memory, vertex 2: no closure 41, code used, memory"
    );
    Ok(())
}
