//! Halls, and what lends them.
ghost use Rattle.std.specs.Prelude.{◌≡◌, ◌-◌, ◌<◌, ◌≤◌, Bool, true, false, None, IfOk, IfErr, OnOk, OnErr};
ghost use Rattle.td_machine.specs.Active.{has_passed, unpassed};
ghost use Rattle.td_machine.specs.Sound.{run_states};
ghost use Rattle.td_machine.specs.State.{HallState};
ghost use Rattle.td_machine.specs.Steps.{accepts, ends, release_step, collect_step, cut_by, cut_at_by, close_step};
ghost use Rattle.td_machine.specs.Steps.Answer.{has_released, has_collected, has_cut, has_closed};
ghost use Rattle.td_core.specs.Meant.{IsMeant};
ghost use Rattle.td_core.specs.Refusals.{IsRefused};
ghost use Rattle.td_core.specs.declared.error.HallError.TheVariants.{Memory};

use td_calls::Law;
use td_core::{Cut, Hall, HallError};
use td_stamp::{Batch, EpochOut};

/// A hall, or what lends one for as long as it is held, as the guard of a pool does: what may be done with it by who does not work
/// in it. Each call is the hall's own.
///
/// The hall is not lent whole: `&mut Hall` could be exchanged for another, and given to without the seats' counts. There is no
/// take: a worker takes by `Pool::work`, whose seat holds what was taken.
pub trait AnyHall<L: Law> {
    /// The state of the hall.
    ghost state: { Self → HallState };

    /// Whether the pool that lends it is stopped; a hall that is not lent by a pool is not.
    ghost stopped: { Self → Bool };

    /// The hall, to read.
    fn hall(&self) -> &Hall<L>
        ensures { result.now ≡ state self.now };

    /// Releases a batch, and answers its epoch, as `Hall::release` does. The workers of a pool are to be woken after it, by
    /// `Pool::wake`.
    fn release_batch(&mut self, batch: Batch) -> Result<u64, (HallError, Batch)>
        requires { accepts (state self.old).plan batch ≡ true }
        ensures released { IfOk result (λ epoch. release_step (state self.old) batch ≡ (has_released epoch, state self.new)) }
        ensures refused { IfErr result (λ e. IsRefused (release_step (state self.old) batch) (state self.old) e.0) }
        ensures memory_last { IfErr result (λ e. e.0 ≡ Memory → ((state self.old).closed ≡ false) × ((state self.old).next < ends)) }
        ensures err { OnErr result (state self.new ≡ state self.old) }
        ensures back { IfErr result (λ e. e.1 ≡ batch) }
        ensures stopped { stopped self.new ≡ stopped self.old };

    /// The outputs of the epochs that have passed since the last that was collected, as `Hall::collect` answers them.
    fn collect_outputs(&mut self) -> Result<Vec<EpochOut>, HallError>
        ensures ok { IfOk result (λ outs. collect_step (state self.old) ≡ (has_collected outs.items, state self.new)) }
        ensures meaning { IfOk result (λ outs. IsMeant L.answers (state self.old) outs.items) }
        ensures err { OnErr result (state self.new ≡ state self.old) }
        ensures memory { IfErr result (λ e. e ≡ Memory) }
        ensures stopped { stopped self.new ≡ stopped self.old };

    /// Cuts at the last released epoch, as `Hall::cut` does.
    fn cut_at_last(&mut self) -> Result<Cut, HallError>
        ensures cut { IfOk result (λ cut. cut_by (state self.old) (unpassed (state self.old)) ((state self.old).next - 1) ≡ (has_cut cut.epoch cut.states, state self.new)) }
        ensures meaning { IfOk result (λ cut. cut.states ≡ run_states L.answers (state self.old) cut.epoch) }
        ensures refused { IfErr result (IsRefused (cut_by (state self.old) (unpassed (state self.old)) ((state self.old).next - 1)) (state self.old)) }
        ensures memory_last { IfErr result (λ e. e ≡ Memory → unpassed (state self.old) ≡ None) }
        ensures err { OnErr result (state self.new ≡ state self.old) }
        ensures stopped { stopped self.new ≡ stopped self.old };

    /// Cuts at an epoch, as `Hall::cut_at` does.
    fn cut_at_epoch(&mut self, epoch: u64) -> Result<Cut, HallError>
        requires after { (state self.old).base ≤ epoch }
        requires released { epoch < (state self.old).next }
        ensures cut { IfOk result (λ cut. cut_at_by (state self.old) (has_passed (state self.old) epoch) epoch ≡ (has_cut cut.epoch cut.states, state self.new)) }
        ensures meaning { IfOk result (λ cut. cut.states ≡ run_states L.answers (state self.old) cut.epoch) }
        ensures refused { IfErr result (IsRefused (cut_at_by (state self.old) (has_passed (state self.old) epoch) epoch) (state self.old)) }
        ensures memory_last { IfErr result (λ e. e ≡ Memory → has_passed (state self.old) epoch ≡ true) }
        ensures err { OnErr result (state self.new ≡ state self.old) }
        ensures stopped { stopped self.new ≡ stopped self.old };

    /// Closes the inputs, as `Hall::close` does.
    fn close_inputs(&mut self)
        ensures closed { close_step (state self.old) ≡ (has_closed, state self.new) }
        ensures stopped { stopped self.new ≡ stopped self.old };
}

impl<L: Law> AnyHall<L> for Hall<L> {
    ghost state = { λ S. S };

    ghost stopped = { λ S. false };

    fn hall(&self) -> &Hall<L> {
        self
    }

    fn release_batch(&mut self, batch: Batch) -> Result<u64, (HallError, Batch)> {
        self.release(batch)
    }

    fn collect_outputs(&mut self) -> Result<Vec<EpochOut>, HallError> {
        self.collect()
    }

    fn cut_at_last(&mut self) -> Result<Cut, HallError> {
        self.cut()
    }

    fn cut_at_epoch(&mut self, epoch: u64) -> Result<Cut, HallError> {
        self.cut_at(epoch)
    }

    fn close_inputs(&mut self) {
        self.close();
    }
}
