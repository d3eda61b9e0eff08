//! Formatting a disk.
ghost use Rattle.std.specs.Prelude.{◌≡◌, ◌⊎◌, ◌↔◌, ◌≤◌, true, false, IfOk, IfErr, OnOk};
ghost use Rattle.td_disk.specs.Disk.{Rises};
ghost use Rattle.td_head.specs.Layout.{size_of, is_shape};
ghost use Rattle.td_store.specs.standing.Standing.{nothing_told};
ghost use Rattle.td_store.specs.standing.Tells.{Keeps, first_head};
ghost use Rattle.td_store.specs.declared.standing.error.KeeperError.TheVariants.{Device};

use std::alloc::Global;
use td_console::Fault;
use td_disk::Disk;
use td_head::Shape;
use td_plan::Plan;
use td_store::standing::format_device;

/// The shape of a disk: `m` records a cell, `n` cells, and `k` states a slot. Refusal: `Shape`, where one of them is out of
/// its limits.
pub fn shape_of(m: u32, n: u32, k: u32) -> Result<Shape, Fault>
    ensures made { IfOk result (λ s. (s ≡ record { m = m; n = n; k = k }) × (is_shape s ≡ true)) }
    ensures refused { IfErr result (λ f. (f ≡ Fault.Shape) × (is_shape (record { m = m; n = n; k = k }) ≡ false)) }
{
    Shape::new(m, n, k).ok_or(Fault::Shape)
}

/// Formats a disk for a plan: all that stood on it is gone, and it tells no epochs. Refusals: `Shape`, where the disk has
/// fewer bytes than the shape takes, with nothing written; `Memory`; and `Device` of the keeper's.
pub fn format<D: Disk>(alloc: Global, disk: &mut D, plan: &Plan, shape: Shape) -> Result<(), Fault>
    ensures size { (D.view disk.new).capacity ≡ (D.view disk.old).capacity }
    ensures lawful { (D.view disk.old).lawful ↔ (D.view disk.new).lawful }
    ensures fits { OnOk result (size_of shape ≤ (D.view disk.old).capacity) }
    ensures formatted { OnOk result ((D.view disk.old).lawful → Keeps plan.now (first_head shape) 0 nothing_told (D.view disk.new).state) }
    ensures refused { IfErr result (λ f. ((f ≡ Fault.Shape) × (size_of shape ≤ (D.view disk.old).capacity → ⊥) × (disk.new ≡ disk.old))
        ⊎ ((f ≡ Fault.Memory) ⊎ ((f ≡ Fault.Keeper Device) × Rises (D.view disk.old).failures (D.view disk.new).failures))) }
{
    if disk.size() < shape.bytes() {
        return Err(Fault::Shape);
    }
    format_device(alloc, disk, plan, shape)?;
    Ok(())
}
