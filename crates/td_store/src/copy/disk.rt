//! Copying a disk. A disk with a head is refused, since nobody can mean to lose it.
ghost use Rattle.std.specs.Prelude.{◌≡◌, ◌↔◌, IfErr, IfOk};
ghost use Rattle.td_gate.specs.Steps.{WritesNothing};
ghost use Rattle.td_store.specs.copy.Copied.{CopiesTold};
ghost use Rattle.td_store.specs.copy.Refusals.{RefusesCopy};

use crate::copy::error::CopyError;
use crate::copy::room::check_room;
use crate::copy::told::write_told;
use crate::copy::until::keep_until;
use crate::standing::{laws, recover_device};
use std::alloc::Global;
use td_disk::Disk;
use td_head::Shape;
use td_plan::Plan;

/// Puts what a disk tells for a plan, up to an epoch where one is named, on a new disk of this shape, which `make` makes once the old
/// disk is read and it is known that a disk of this shape has room for that. It begins with a sync of the old disk, and writes nothing there.
///
/// Refusals, before anything is made: what the old disk refuses, as `Keeper`; `Until`, where it has no such epoch; and those of
/// `check_room` of what is told up to that. Then that of `make`, and those of `write_told`.
pub fn copy<D: Disk, E: Disk + Drop, X: From<CopyError>, F: FnOnce() -> Result<E, X>>(
    alloc: Global,
    disk: &mut D,
    plan: &Plan,
    shape: Shape,
    until: Option<u64>,
    make: F,
) -> Result<E, X>
    requires { F.IsAlwaysCallable make }
    ensures size { (D.view disk.new).capacity ≡ (D.view disk.old).capacity }
    ensures lawful { (D.view disk.old).lawful ↔ (D.view disk.new).lawful }

    // THE NEW DISK TELLS WHAT THE OLD ONE TELLS up to that epoch, whatever a crash leaves of them; it has a head of this shape.
    ensures copied { IfOk result (λ new. CopiesTold D.view E.view plan.now until shape disk.old disk.new new) }

    // REFUSED, in this order: what the old disk refuses, what there is no room for, what `make` answers, what the disk that it made refuses.
    ensures refused { IfErr result (λ x. RefusesCopy D.view E.view X.from_gives (F.post make) plan.now until shape disk.old disk.new x) }

    // The old disk stays as it is.
    ensures crash_safe { WritesNothing D.view disk.old disk.new }
{
    laws::told_in_parts();
    td_journal::laws::numbers();
    td_journal::laws::told_numbers_rise();
    let (_plan, mut told) = match recover_device(alloc, disk, plan) {
        Ok(read) => read,
        Err(error) => return Err(X::from(CopyError::Keeper(error))),
    };
    keep_until(&mut told, until)?;
    check_room(shape, &told)?;
    let mut new = make()?;
    write_told(alloc, &mut new, plan, shape, &told)?;
    Ok(new)
}
