//! Whether a disk of another shape has room for what a disk tells.
ghost use Rattle.std.specs.Prelude.{◌≡◌, ◌+◌, ◌^◌, ◌<◌, length, None, Some, OnOk, IfErr, IsErrOf};
ghost use Rattle.td_store.specs.declared.standing.error.KeeperError.TheVariants.{Device};
ghost use Rattle.td_store.specs.standing.Read.{standing_of};
ghost use Rattle.td_store.specs.copy.Room.{room_fault, large_epoch};

use crate::copy::error::CopyError;
use crate::standing::Recovered;
use td_head::Shape;
use td_journal::Submitted;

/// Whether a disk of this shape has room for what was read of one. Refusals: `TooManyKeys`, where the checkpoint has more states
/// than a slot holds; then `Full`, where there are more epochs after it than cells; then `TooManyRecords` of the first epoch that has
/// more records than a cell holds.
pub fn check_room(shape: Shape, told: &Recovered) -> Result<(), CopyError>
    requires small { told.now.checkpoint.epoch + length told.now.submitted.items < 2 ^ 63 }
    ensures room { OnOk result (room_fault shape (standing_of told.now) ≡ None) }
    ensures refused { IfErr result (λ e. room_fault shape (standing_of told.now) ≡ Some e) }
    ensures no_device { IsErrOf result (CopyError.New Device) → ⊥ }
{
    let states = told.checkpoint.states.len();
    if (shape.states() as usize) < states {
        return Err(CopyError::TooManyKeys {
            states: states as u64,
            most: shape.states(),
        });
    }
    let epochs = told.submitted.len();
    if (shape.cells() as usize) < epochs {
        return Err(CopyError::Full {
            epochs: epochs as u64,
            most: shape.cells(),
        });
    }
    check_records(
        shape.records(),
        told.checkpoint.epoch + 1,
        told.submitted.as_slice(),
    )
}

/// Whether each of some epochs has at most so many records; the first of them has this number.
fn check_records(most: u32, first: u64, submitted: &[Submitted]) -> Result<(), CopyError>
    requires small { first + length submitted.now < 2 ^ 64 }
    ensures room { OnOk result (large_epoch most first submitted.now ≡ None) }
    ensures refused { IfErr result (λ e. large_epoch most first submitted.now ≡ Some e) }
    ensures no_device { IsErrOf result (CopyError.New Device) → ⊥ }
{
    let mut epoch = first;
    for each in submitted {
        let records = each.batch.len();
        if (most as usize) < records {
            return Err(CopyError::TooManyRecords {
                epoch,
                records: records as u64,
                most,
            });
        }
        epoch += 1;
    }
    Ok(())
}
