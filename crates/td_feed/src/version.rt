//! Raising a disk to the version of the format that has request numbers.
ghost use Rattle.std.specs.Prelude.{List, IfErr, OnOk};
ghost use Rattle.std.specs.Io.KnownBytes.{Appends};
ghost use Rattle.td_journal.specs.declared.payload.Submitted.{Submitted as AnySubmitted};
ghost use Rattle.td_store.specs.declared.standing.error.KeeperError.TheVariants.{Device};
ghost use Rattle.td_gate.specs.Steps.{SameUnless};
ghost use Rattle.td_feed.specs.Fed.{EachTellsHistory};
ghost use Rattle.td_feed.specs.Session.{KeepsDisk};
ghost use Rattle.td_feed.specs.Upgraded.{version_line, IsNumbered};

use std::alloc::Global;
use td_calls::Law;
use td_console::{Fault, Sink, write_answer};
use td_disk::Disk;
use td_keeper::Keeper;
use td_keeper::laws::each_disk_holds;
use td_plan::Plan;
use td_store::standing::laws;

/// Recovers a disk, raises it to version 2 of the format, which has request numbers, and writes `version 2`, also where it was of
/// version 2 before. What it tells stays as it was.
///
/// Refusals: what the disk refuses as it is recovered; `LastGeneration` of the keeper's; `Memory`; and the keeper's `Device`.
/// With these nothing is written to the writer. Where the writer failed, `Output`, and the disk is of version 2. So it may be
/// called before each feed.
pub fn upgrade<D: Disk, L: Law, W: Sink>(
    alloc: Global,
    disk: D,
    plan: &Plan,
    writer: &mut W,
) -> (D, Result<(), Fault>)
    ensures disk { KeepsDisk D.view result.1 disk result.0 }

    // A DISK THAT STOOD FOR A HISTORY, whatever a crash had left of it, stands for it at any answer.
    ensures same { (D.view disk).lawful → (history : List AnySubmitted) → EachTellsHistory L.answers plan.now history (D.view disk).state
        → EachTellsHistory L.answers plan.now history (D.view result.0).state }

    // After Ok it is of version 2, whatever a crash leaves of it, and that is written.
    ensures raised { OnOk result.1 ((D.view disk).lawful → IsNumbered plan.now (D.view result.0).state) }
    ensures said { OnOk result.1 (Appends (W.contents writer.old) (W.contents writer.new) version_line) }
    ensures unsaid { IfErr result.1 (λ f. SameUnless Fault.Output f writer.old writer.new) }
{
    laws::told_in_parts();
    let mut keeper = match Keeper::<D, L>::recover(alloc, disk, plan) {
        Ok(keeper) => keeper,
        Err((refusal, disk)) => return (disk, Err(Fault::from(refusal))),
    };
    match keeper.upgrade() {
        Ok(_was_raised) => {
            each_disk_holds(&keeper);
            (keeper.into_disk(), write_answer(writer, "version 2\n"))
        }
        Err(refusal) => (keeper.into_disk(), Err(Fault::from(refusal))),
    }
}
