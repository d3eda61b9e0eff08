//! Making a disk of a checkpoint.
ghost use Rattle.std.specs.Prelude.{◌≡◌, ◌↔◌, IfErr, OnOk};
ghost use Rattle.td_store.specs.standing.Tells.{Keeps, first_head};
ghost use Rattle.td_store.specs.copy.Refusals.{IsNotPut};
ghost use Rattle.td_states.specs.Written.{MayBeLoaded, loaded, LoadsOrNot};

use std::alloc::Global;
use td_disk::Disk;
use td_head::{Head, Shape};
use td_plan::Plan;
use td_slots::Checkpoint;
use td_store::copy::{CopyError, write_told};
use td_store::standing::Recovered;

/// Makes a disk of this shape, which has no head, one that has a checkpoint, and no epochs after it. It begins with a sync.
///
/// Refusals: `TooManyKeys`, where the checkpoint has more states than a slot of the shape holds, and `Shape`, where the disk has fewer bytes
/// than the shape takes; with these the disk is not called. `Formatted`, where a head is open, with nothing written. `New` of a keeper's
/// `Memory` and `Device`.
pub fn load<D: Disk>(
    alloc: Global,
    device: &mut D,
    plan: &Plan,
    shape: Shape,
    checkpoint: Checkpoint,
) -> Result<(), CopyError>
    requires { MayBeLoaded plan.now checkpoint }
    ensures size { (D.view device.new).capacity ≡ (D.view device.old).capacity }
    ensures lawful { (D.view device.old).lawful ↔ (D.view device.new).lawful }
    // AFTER OK A LAWFUL DISK TELLS THE CHECKPOINT, and no epochs, whatever a crash leaves of it.
    ensures loaded { OnOk result ((D.view device.old).lawful → Keeps plan.now (first_head shape) 0 (loaded checkpoint) (D.view device.new).state) }
    ensures refused { IfErr result (IsNotPut D.view shape (loaded checkpoint) device.old device.new) }
    ensures stopped { (D.view device.old).lawful → LoadsOrNot plan.now checkpoint (D.view device.old).state (D.view device.new).state }
{
    let told = Recovered {
        head: Head {
            version: 2,
            side: 0,
            generation: 1,
            shape,
        },
        checkpoint,
        submitted: Vec::new(alloc),
    };
    write_told(alloc, device, plan, shape, &told)
}
