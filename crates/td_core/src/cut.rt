//! Cutting: the states after an epoch become the base, and what belongs to the epochs up to it is let go.
ghost use Rattle.std.specs.Prelude.{◌≡◌, ◌-◌, ◌≤◌, ◌<◌, true, None, drop, IfOk, IfErr, OnOk, OnErr};
ghost use Rattle.td_machine.specs.Active.{has_passed, unpassed};
ghost use Rattle.td_machine.specs.Sound.{run_states};
ghost use Rattle.td_machine.specs.Steps.{cut_by, cut_at_by};
ghost use Rattle.td_machine.specs.Steps.Answer.{has_cut};
ghost use Rattle.td_core.specs.Cuts.{IsCutAt, states_after};
ghost use Rattle.td_core.specs.Refusals.{IsRefused};
ghost use Rattle.td_core.specs.declared.error.HallError.TheVariants.{Memory};

use crate::error::HallError;
use crate::hall::{Hall, Parts};
use std::collections::VecDeque;
use td_calls::Law;
use td_machine::laws::{base_has_passed, reached, reached_in_order};
use td_progress::laws::in_any_order;
use td_stamp::{Batch, OrderedStates};

/// The states that folds keep after an epoch.
#[derive(Debug, Drop)]
pub struct Cut {
    pub epoch: u64,
    pub states: OrderedStates,
}

impl<L: Law> Hall<L> {
    /// Cuts at the last released epoch: the states after it become the base, and the batches, what folds left and what
    /// distincts have seen in the epochs up to it are let go (Naiad, section 3.4, Checkpoint). The states are those of the
    /// batch meaning of the batches that were released since the old base. It costs one copy of them, and a change for each key for
    /// which a fold left a state. Refusals, with nothing changed: `NotPassed` with the least released epoch that has not passed, and
    /// `Memory`.
    pub fn cut(&mut self) -> Result<Cut, HallError>
        ensures cut { IfOk result (λ cut. cut_by self.old (unpassed self.old) (self.old.next - 1) ≡ (has_cut cut.epoch cut.states, self.new)) }
        ensures meaning { IfOk result (λ cut. cut.states ≡ run_states L.answers self.old cut.epoch) }
        ensures refused { IfErr result (IsRefused (cut_by self.old (unpassed self.old) (self.old.next - 1)) self.old) }
        ensures memory_last { IfErr result (λ e. e ≡ Memory → unpassed self.old ≡ None) }
        ensures err { OnErr result (self.new ≡ self.old) }
    {
        reached::<L>();
        reached_in_order::<L>();
        base_has_passed::<L>();
        match self.unpassed() {
            Some(epoch) => Err(HallError::NotPassed(epoch)),
            None => {
                let last = self.parts.next - 1;
                cut_parts(&mut self.parts, last)
            }
        }
    }

    /// Cuts at the last released epoch as `cut` does, and hands no states out. So it costs a change for each key for which a fold left
    /// a state, and no copy. Refusals as of `cut`.
    pub fn rebase(&mut self) -> Result<(), HallError>
        ensures cut { OnOk result (cut_by self.old (unpassed self.old) (self.old.next - 1) ≡ (has_cut (self.old.next - 1) (run_states L.answers self.old (self.old.next - 1)), self.new)) }
        ensures refused { IfErr result (IsRefused (cut_by self.old (unpassed self.old) (self.old.next - 1)) self.old) }
        ensures memory_last { IfErr result (λ e. e ≡ Memory → unpassed self.old ≡ None) }
        ensures err { OnErr result (self.new ≡ self.old) }
    {
        reached::<L>();
        reached_in_order::<L>();
        base_has_passed::<L>();
        match self.unpassed() {
            Some(epoch) => Err(HallError::NotPassed(epoch)),
            None => {
                let last = self.parts.next - 1;
                rebase_parts(&mut self.parts, last)
            }
        }
    }

    /// Cuts at an epoch that is released, and not before the base. Refusals, with nothing changed: `NotPassed` with the least
    /// released epoch that has not passed, where the epoch has not, and `Memory`.
    pub fn cut_at(&mut self, epoch: u64) -> Result<Cut, HallError>
        requires after { self.old.base ≤ epoch }
        requires released { epoch < self.old.next }
        ensures cut { IfOk result (λ cut. cut_at_by self.old (has_passed self.old epoch) epoch ≡ (has_cut cut.epoch cut.states, self.new)) }
        ensures meaning { IfOk result (λ cut. cut.states ≡ run_states L.answers self.old cut.epoch) }
        ensures refused { IfErr result (IsRefused (cut_at_by self.old (has_passed self.old epoch) epoch) self.old) }
        ensures memory_last { IfErr result (λ e. e ≡ Memory → has_passed self.old epoch ≡ true) }
        ensures err { OnErr result (self.new ≡ self.old) }
    {
        reached::<L>();
        in_any_order();
        if self.parts.table.passed(epoch) {
            cut_parts(&mut self.parts, epoch)
        } else {
            Err(HallError::NotPassed(self.unpassed().unwrap_or(epoch)))
        }
    }
}

/// Cuts a hall's parts at an epoch. Refusal: `Memory`, with nothing changed: the memory of the copy that is handed out is taken
/// first.
fn cut_parts(parts: &mut Parts, epoch: u64) -> Result<Cut, HallError>
    requires { parts.old.base ≤ epoch }
    ensures epoch { IfOk result (λ cut. cut.epoch ≡ epoch) }
    ensures states { IfOk result (λ cut. cut.states ≡ states_after parts.old epoch) }
    ensures ok { OnOk result (IsCutAt epoch parts.old parts.new) }
    ensures err { OnErr result (parts.new ≡ parts.old) }
    ensures memory { IfErr result (λ e. e ≡ Memory) }
{
    let Some(most) = parts.states.len().checked_add(parts.versions.places()) else {
        return Err(HallError::Memory);
    };
    let room = Vec::with_capacity(parts.alloc, most)?;
    rebase_parts(parts, epoch)?;
    Ok(Cut {
        epoch,
        states: OrderedStates::in_room(room, &parts.states),
    })
}

/// Cuts a hall's parts at an epoch, and hands nothing out. Refusal: `Memory`, with nothing changed.
fn rebase_parts(parts: &mut Parts, epoch: u64) -> Result<(), HallError>
    requires { parts.old.base ≤ epoch }
    ensures ok { OnOk result (IsCutAt epoch parts.old parts.new) }
    ensures err { OnErr result (parts.new ≡ parts.old) }
    ensures memory { IfErr result (λ e. e ≡ Memory) }
{
    parts.versions.bring_up(epoch, &mut parts.states)?;
    drop_first(&mut parts.batches, epoch - parts.base);
    parts.seen.let_go(epoch);
    parts.versions.let_go(epoch);
    parts.base = epoch;
    Ok(())
}

/// Lets go so many of the first batches.
fn drop_first(batches: &mut VecDeque<Batch>, count: u64)
    ensures { batches.new.items ≡ drop count batches.old.items }
{
    for _each in 0..count {
        batches.pop_front();
    }
}
