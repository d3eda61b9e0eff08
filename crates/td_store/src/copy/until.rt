//! What a disk tells up to an epoch.
//!
//! So an epoch that no evaluator gets past, and those after it, can be left out. No epoch below the checkpoint's can be named,
//! since a checkpoint is not taken apart.
ghost use Rattle.std.specs.Prelude.{◌≡◌, ◌+◌, ◌^◌, ◌<◌, length, None, Some, OnOk, IfErr};
ghost use Rattle.td_store.specs.standing.Read.{standing_of};
ghost use Rattle.td_store.specs.copy.Until.{told_until, until_fault};

use crate::copy::error::CopyError;
use crate::standing::Recovered;

/// Leaves of what was read what is told up to an epoch, or all, where none is named. Refusal: `Until`, where that is an epoch before the
/// checkpoint's, or after the last one.
pub fn keep_until(told: &mut Recovered, until: Option<u64>) -> Result<(), CopyError>
    requires small { told.old.checkpoint.epoch + length told.old.submitted.items < 2 ^ 63 }
    ensures rest { (told.new.head ≡ told.old.head) × (told.new.checkpoint ≡ told.old.checkpoint) }
    ensures kept { OnOk result (standing_of told.new ≡ told_until until (standing_of told.old)) }
    ensures told { OnOk result (until_fault until (standing_of told.old) ≡ None) }
    ensures refused { IfErr result (λ e. (until_fault until (standing_of told.old) ≡ Some e) × (told.new ≡ told.old)) }
{
    let Some(until) = until else {
        return Ok(());
    };
    let kept = told.checkpoint.epoch;
    let last = kept + told.submitted.len() as u64;
    if until < kept || last < until {
        return Err(CopyError::Until {
            until,
            kept,
            told: last,
        });
    }
    told.submitted.truncate((until - kept) as usize);
    Ok(())
}
