//! The states after an epoch that has passed, read where the hall keeps them.
ghost use Rattle.std.specs.Prelude.{◌≡◌, ◌≤◌, ◌<◌, true, false, unwrap_or, IfOk, IfErr, OnOk};
ghost use Rattle.td_machine.specs.Active.{has_passed, unpassed};
ghost use Rattle.td_machine.specs.Sound.{run_states};
ghost use Rattle.td_core.specs.declared.error.HallError.TheVariants.{NotPassed};

use crate::error::HallError;
use crate::hall::Hall;
use td_calls::Law;
use td_machine::laws::reached;
use td_progress::laws::in_any_order;
use td_shard::StatesAfter;

impl<L: Law> Hall<L> {
    /// The states after an epoch that has passed, as a cut there has them: those of the batch meaning. They are borrowed, and the hall
    /// goes on from where it is. Takes no memory. Refusal: `NotPassed` with the least released epoch that has not passed, where the
    /// epoch has not.
    pub fn states_at(&self, epoch: u64) -> Result<StatesAfter<'_>, HallError>
        requires after { self.now.base ≤ epoch }
        requires released { epoch < self.now.next }
        ensures meaning { IfOk result (λ states. states ≡ run_states L.answers self.now epoch) }
        ensures passed { OnOk result (has_passed self.now epoch ≡ true) }
        ensures refused { IfErr result (λ e. (e ≡ NotPassed (unwrap_or (unpassed self.now) epoch)) × (has_passed self.now epoch ≡ false)) }
    {
        reached::<L>();
        in_any_order();
        if self.parts.table.passed(epoch) {
            let parts = &self.parts;
            Ok(StatesAfter::new(&parts.versions, &parts.states, epoch))
        } else {
            Err(HallError::NotPassed(self.unpassed().unwrap_or(epoch)))
        }
    }
}
