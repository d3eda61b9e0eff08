//! Formatting a disk.
ghost use Rattle.std.specs.Prelude.{◌≡◌, ◌≤◌, [], IfOk, IfErr};
ghost use Rattle.td_disk.specs.Calls.{KeepsDevice};
ghost use Rattle.td_head.specs.Layout.{size_of};
ghost use Rattle.td_store.specs.standing.Standing.{standing_from, nothing_told};
ghost use Rattle.td_store.specs.standing.Refusals.{IsMemoryOrDevice};
ghost use Rattle.td_store.specs.standing.Steps.{KeepsNothing};

use crate::standing::error::KeeperError;
use crate::standing::laws;
use crate::standing::parts::slots_of;
use std::alloc::Global;
use td_disk::Disk;
use td_head::Shape;
use td_plan::Plan;
use td_slots::Checkpoint;
use td_stamp::OrderedStates;

/// Formats a disk, and gives what its keeper has in memory: a copy of the plan, and the checkpoint of no epochs.
pub fn format_device<D: Disk>(
    alloc: Global,
    device: &mut D,
    plan: &Plan,
    shape: Shape,
) -> Result<(Plan, Checkpoint), KeeperError>
    requires { size_of shape ≤ (D.view device.old).capacity }
    ensures device { KeepsDevice D.view KeeperError.Device result device.old device.new }
    ensures plan { IfOk result (λ r. r.0 ≡ plan.now) }
    ensures slot { IfOk result (λ r. r.1.slot ≡ 0) }
    ensures standing { IfOk result (λ r. standing_from r.1 [] ≡ nothing_told) }
    ensures kept { IfOk result (λ _. KeepsNothing D.view plan.now shape device.old device.new) }
    ensures refusals { IfErr result IsMemoryOrDevice }
{
    let _vertices = plan.vertices();
    let Ok(copy) = plan.copy() else {
        return Err(KeeperError::Memory);
    };
    let states = OrderedStates::new(alloc);
    laws::formatted();
    laws::parts_are_apart();
    td_gate::laws::put_leaves_others();
    td_gate::laws::durable_is_settled::<D>();
    let _bytes = shape.bytes();
    let slots = slots_of(&shape);
    td_head::wipe(device, shape)?;
    slots.write(alloc, device, 1, 0, 0, &states)?;
    td_head::put_first(alloc, device, plan, shape)?;
    Ok((
        copy,
        Checkpoint {
            slot: 0,
            epoch: 0,
            last: 0,
            states,
        },
    ))
}
