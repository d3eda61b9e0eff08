//! Taking cuts. A cut's states are never copied here: they are the keeper's base, and become the checkpoint's when they are
//! written.
ghost use Rattle.std.specs.Prelude.{◌≡◌, ◌⊎◌, ◌-◌, ◌≤◌, Some, None, IfOk, IfErr};
ghost use Rattle.td_plan.specs.Tree.{tree_of};
ghost use Rattle.td_batch.specs.Meaning.{states_after};
ghost use Rattle.td_machine.specs.Steps.{collect_step};
ghost use Rattle.td_machine.specs.Reached.{IsReached};
ghost use Rattle.td_machine.specs.Sound.{outs_by};
ghost use Rattle.td_store.specs.standing.Standing.{batches_of};
ghost use Rattle.td_keeper.specs.Refused.{cut_refusal};
ghost use Rattle.td_keeper.specs.Halls.{IsOwn, StaysOwn, with_collected, with_cut, collected_hall, cut_hall, cut_hall_up_to, last_passed, cut_place, place_between, meant_outs};
ghost use Rattle.td_store.specs.declared.standing.error.KeeperError.TheVariants.{Foreign, Memory};

use crate::keeper::{Keeper, Taken};
use td_batch::laws::run_joins;
use td_calls::Law;
use td_core::{Cut, Hall};
use td_disk::Disk;
use td_machine::laws::base_has_passed;
use td_pool::AnyHall;
use td_pool::laws::each_is_sound;
use td_store::standing::KeeperError;

impl<D: Disk, L: Law> Keeper<D, L> {
    /// Cuts a hall at the last released epoch up to which all have passed, and answers that epoch: the cut is the base of the
    /// hall and of this keeper, and waits for `write_cut`. Its states are those of the batch meaning of what this keeper stands
    /// for. Where nothing was released since the base, it cuts there again. Before, what `collect` would bring is brought into
    /// the queue.
    ///
    /// Refusals, the first that holds: `Foreign`, where the hall is none of this keeper's, with nothing changed; `NotPassed` of
    /// the first epoch after the base, where that was released and has not passed; `CutWaiting`, where an earlier cut waits to
    /// be written; and `Memory`. What was collected stays.
    pub fn cut(&mut self, hall: &mut Hall<L>) -> Result<u64, KeeperError>
        ensures own { IfOk result (λ _. IsOwn self.old hall.old × (cut_refusal self.old hall.old ≡ None)) }
        ensures cut { IfOk result (λ epoch. (epoch ≡ last_passed hall.old) × (hall.new ≡ cut_hall (collected_hall hall.old))
            × (self.new ≡ with_cut (with_collected self.old hall.old) hall.new)) }
        ensures base { IfOk result (λ epoch. self.new.base ≡ epoch) }
        ensures meaning { IfOk result (λ epoch. self.new.base_states ≡ states_after L.answers (tree_of self.old.plan) self.old.standing.states (batches_of self.old.standing.submitted) (epoch - self.old.standing.epoch)) }
        ensures foreign { IfErr result (λ e. e ≡ Foreign → (IsOwn self.old hall.old → ⊥) × (self.new ≡ self.old) × (hall.new ≡ hall.old)) }
        ensures refused { IfErr result (λ e. (e ≡ Foreign)
            ⊎ (IsOwn self.old hall.old × ((cut_refusal self.old hall.old ≡ Some e) ⊎ (e ≡ Memory)))) }
        ensures collected { IfErr result (λ e. ((e ≡ Foreign) ⊎ (e ≡ Memory) × (self.new ≡ self.old) × (hall.new ≡ hall.old))
            ⊎ ((self.new ≡ with_collected self.old hall.old) × (hall.new ≡ collected_hall hall.old))) }

        // What is brought into the queue before is the batch meaning's.
        ensures outs { IsOwn self.old hall.old → outs_by (collect_step hall.old).0 ≡ meant_outs self.old L.answers self.old.collected (collect_step hall.old).1.collected }
    {
        self.cut_lent(hall, None)
    }

    /// As `cut`, at no epoch above this one: at the last of these up to which all have passed, or at the base where that is above it. The
    /// epochs after it stand, and those up to it are free once the cut is written. Refusals: those of `cut`.
    pub fn cut_up_to(&mut self, hall: &mut Hall<L>, most: u64) -> Result<u64, KeeperError>
        ensures own { IfOk result (λ _. IsOwn self.old hall.old × (cut_refusal self.old hall.old ≡ None)) }
        ensures cut { IfOk result (λ epoch. (epoch ≡ cut_place (Some most) hall.old) × (hall.new ≡ cut_hall_up_to (Some most) (collected_hall hall.old))
            × (self.new ≡ with_cut (with_collected self.old hall.old) hall.new)) }
        ensures base { IfOk result (λ epoch. self.new.base ≡ epoch) }
        ensures meaning { IfOk result (λ epoch. self.new.base_states ≡ states_after L.answers (tree_of self.old.plan) self.old.standing.states (batches_of self.old.standing.submitted) (epoch - self.old.standing.epoch)) }
        ensures foreign { IfErr result (λ e. e ≡ Foreign → (IsOwn self.old hall.old → ⊥) × (self.new ≡ self.old) × (hall.new ≡ hall.old)) }
        ensures refused { IfErr result (λ e. (e ≡ Foreign)
            ⊎ (IsOwn self.old hall.old × ((cut_refusal self.old hall.old ≡ Some e) ⊎ (e ≡ Memory)))) }
        ensures collected { IfErr result (λ e. ((e ≡ Foreign) ⊎ (e ≡ Memory) × (self.new ≡ self.old) × (hall.new ≡ hall.old))
            ⊎ ((self.new ≡ with_collected self.old hall.old) × (hall.new ≡ collected_hall hall.old))) }

        // What is brought into the queue before is the batch meaning's.
        ensures outs { IsOwn self.old hall.old → outs_by (collect_step hall.old).0 ≡ meant_outs self.old L.answers self.old.collected (collect_step hall.old).1.collected }
    {
        self.cut_lent(hall, Some(most))
    }

    /// As `cut`, or as `cut_up_to` where an epoch is given, of a hall that is lent.
    pub(crate) fn cut_lent<H: AnyHall<L>>(
        &mut self,
        hall: &mut H,
        most: Option<u64>,
    ) -> Result<u64, KeeperError>
        ensures reached { IsReached L.answers (H.state hall.old) }
        ensures own { IfOk result (λ _. IsOwn self.old (H.state hall.old) × (cut_refusal self.old (H.state hall.old) ≡ None)) }
        ensures cut { IfOk result (λ epoch. (epoch ≡ cut_place most (H.state hall.old)) × (H.state hall.new ≡ cut_hall_up_to most (collected_hall (H.state hall.old)))
            × (self.new ≡ with_cut (with_collected self.old (H.state hall.old)) (H.state hall.new))) }
        ensures base { IfOk result (λ epoch. self.new.base ≡ epoch) }
        ensures meaning { IfOk result (λ epoch. self.new.base_states ≡ states_after L.answers (tree_of self.old.plan) self.old.standing.states (batches_of self.old.standing.submitted) (epoch - self.old.standing.epoch)) }
        ensures foreign { IfErr result (λ e. e ≡ Foreign → (IsOwn self.old (H.state hall.old) → ⊥) × (self.new ≡ self.old) × (H.state hall.new ≡ H.state hall.old)) }
        ensures refused { IfErr result (λ e. (e ≡ Foreign)
            ⊎ (IsOwn self.old (H.state hall.old) × ((cut_refusal self.old (H.state hall.old) ≡ Some e) ⊎ (e ≡ Memory)))) }
        ensures collected { IfErr result (λ e. ((e ≡ Foreign) ⊎ (e ≡ Memory) × (self.new ≡ self.old) × (H.state hall.new ≡ H.state hall.old))
            ⊎ ((self.new ≡ with_collected self.old (H.state hall.old)) × (H.state hall.new ≡ collected_hall (H.state hall.old)))) }

        // What is brought into the queue before is the batch meaning's.
        ensures outs { IsOwn self.old (H.state hall.old) → outs_by (collect_step (H.state hall.old)).0 ≡ meant_outs self.old L.answers self.old.collected (collect_step (H.state hall.old)).1.collected }
    {
        run_joins::<L>();
        base_has_passed::<L>();
        each_is_sound(hall);
        if self.owns(hall) {
            self.cut_own(hall, most)
        } else {
            Err(KeeperError::Foreign)
        }
    }

    /// As `cut_lent`, of a hall that is known to be this keeper's, and is so after it too. Refusals: `NotPassed`, `CutWaiting` and `Memory`.
    pub(crate) fn cut_own<H: AnyHall<L>>(
        &mut self,
        hall: &mut H,
        most: Option<u64>,
    ) -> Result<u64, KeeperError>
        requires { IsOwn self.old (H.state hall.old) }
        ensures accepted { IfOk result (λ _. cut_refusal self.old (H.state hall.old) ≡ None) }
        ensures cut { IfOk result (λ epoch. (epoch ≡ cut_place most (H.state hall.old)) × (H.state hall.new ≡ cut_hall_up_to most (collected_hall (H.state hall.old)))
            × (self.new ≡ with_cut (with_collected self.old (H.state hall.old)) (H.state hall.new))) }
        ensures base { IfOk result (λ epoch. self.new.base ≡ epoch) }
        ensures meaning { IfOk result (λ epoch. self.new.base_states ≡ states_after L.answers (tree_of self.old.plan) self.old.standing.states (batches_of self.old.standing.submitted) (epoch - self.old.standing.epoch)) }
        ensures refused { IfErr result (λ e. (cut_refusal self.old (H.state hall.old) ≡ Some e) ⊎ (e ≡ Memory)) }
        ensures collected { IfErr result (λ e. ((e ≡ Memory) × (self.new ≡ self.old) × (H.state hall.new ≡ H.state hall.old))
            ⊎ ((self.new ≡ with_collected self.old (H.state hall.old)) × (H.state hall.new ≡ collected_hall (H.state hall.old)))) }

        // What is brought into the queue before is the batch meaning's.
        ensures outs { outs_by (collect_step (H.state hall.old)).0 ≡ meant_outs self.old L.answers self.old.collected (collect_step (H.state hall.old)).1.collected }
        ensures stays { StaysOwn self.new (H.state hall.old) (H.state hall.new) }
    {
        run_joins::<L>();
        base_has_passed::<L>();
        each_is_sound(hall);
        self.collects_what_is_meant(hall);
        self.bring_in(hall)?;
        each_is_sound(hall);
        let last = match self.place_of_cut(hall, most) {
            Ok(last) => last,
            Err(refusal) => return Err(refusal),
        };
        let Ok(Cut { epoch, states }) = hall.cut_at_epoch(last) else {
            return Err(KeeperError::Memory);
        };
        self.taken = Some(Taken {
            epoch,
            states,
            waits: true,
        });
        Ok(epoch)
    }

    /// What a hall of this keeper's collects is the batch meaning's, and goes as far as all has passed.
    fn collects_what_is_meant<H: AnyHall<L>>(&self, hall: &H)
        requires { IsOwn self.now (H.state hall.now) }
        ensures outs { outs_by (collect_step (H.state hall.now)).0 ≡ meant_outs self.now L.answers self.now.collected (collect_step (H.state hall.now)).1.collected }
        ensures far { last_passed (H.state hall.now) ≤ (collect_step (H.state hall.now)).1.collected }
    {
        run_joins::<L>();
        base_has_passed::<L>();
        each_is_sound(hall);
        // Read for its contract alone.
        let _collected = self.collected;
    }

    /// At which epoch a hall of this keeper's is to be cut, up to one if it is given. Refusals: `NotPassed`, then `CutWaiting`.
    fn place_of_cut<H: AnyHall<L>>(&self, hall: &H, most: Option<u64>) -> Result<u64, KeeperError>
        requires { IsOwn self.now (H.state hall.now) }
        ensures accepted { IfOk result (λ _. cut_refusal self.now (H.state hall.now) ≡ None) }
        ensures epoch { IfOk result (λ epoch. epoch ≡ cut_place most (H.state hall.now)) }
        ensures refused { IfErr result (λ e. cut_refusal self.now (H.state hall.now) ≡ Some e) }
    {
        each_is_sound(hall);
        let waits = match &self.taken {
            Some(taken) => taken.waits,
            None => false,
        };
        let base = self.base().0;
        let last = match hall.hall().unpassed() {
            Some(epoch) if epoch <= base + 1 => return Err(KeeperError::NotPassed(epoch)),
            Some(epoch) => epoch - 1,
            None => base + hall.hall().inputs().len() as u64,
        };
        if waits {
            Err(KeeperError::CutWaiting)
        } else {
            Ok(place_between(base, last, most))
        }
    }
}

/// Where to cut between a base and the last epoch up to which all have passed, up to an epoch if one is given.
fn place_between(base: u64, last: u64, most: Option<u64>) -> u64
    ensures { result ≡ place_between base last most }
{
    match most {
        Some(most) => base.max(most.min(last)),
        None => last,
    }
}
