//! Releasing epochs into halls, and whether a hall works on a keeper's epochs.
//!
//! A hall is compared by what it holds, without a copy and without memory, but each time anew. The type of the next hall says
//! only that it is sound, and shared pointers cannot be compared by address. So a call costs all states of the base and the
//! records since. A caller that releases when as much is new as was compared before pays for twice the records in all.
ghost use Rattle.std.specs.Prelude.{◌≡◌, ◌⊎◌, ◌+◌, ◌^◌, ◌≤◌, ℕ, length, take, drop, false, true, All, IfOk, IfErr, ◌++◌, ◌-◌, ◌↔◌, List, map, IsTrue};
ghost use Rattle.td_journal.specs.Cell.{is_batch};
ghost use Rattle.td_store.specs.standing.Standing.{batches_of};
ghost use Rattle.td_store.specs.standing.Told.{inputs_of};
ghost use Rattle.td_machine.specs.Reached.{IsReached};
ghost use Rattle.td_keeper.specs.Keeping.{since_base};
ghost use Rattle.td_keeper.specs.Halls.{IsOwn, StaysOwn, lacking, with_released, Begin};
ghost use Rattle.td_store.specs.declared.standing.error.KeeperError.TheVariants.{Foreign, Memory};
ghost use Rattle.td_stamp.specs.declared.values.Entry.{Entry};

use crate::keeper::Keeper;
use std::collections::VecDeque;
use td_calls::Law;
use td_core::Hall;
use td_disk::Disk;
use td_journal::Submitted;
use td_machine::laws::reached_in_order;
use td_plan::laws::look_ups;
use td_pool::AnyHall;
use td_pool::laws::each_is_sound;
use td_stamp::{Batch, OrderedStates};
use td_store::standing::KeeperError;

impl<D: Disk, L: Law> Keeper<D, L> {
    /// Releases into a hall the epochs on the journal that it lacks, and answers how many these are: the hall then has all
    /// batches of this keeper's since its base. Each batch is copied once.
    ///
    /// Refusals: `Foreign`, with nothing changed, where the hall is none of this keeper's, or is closed; and `Memory`, after
    /// which some of them were released, and the next call goes on.
    pub fn release(&self, hall: &mut Hall<L>) -> Result<u64, KeeperError>
        ensures own { IfOk result (λ _. IsOwn self.now hall.old × (hall.old.closed ≡ false)) }
        ensures released { IfOk result (λ n. (n ≡ length (lacking self.now hall.old)) × (hall.new ≡ with_released hall.old (lacking self.now hall.old))) }
        ensures all { IfOk result (λ _. hall.new.batches ≡ since_base self.now) }
        ensures foreign { IfErr result (λ e. e ≡ Foreign → (IsOwn self.now hall.old → hall.old.closed ≡ false → ⊥) × (hall.new ≡ hall.old)) }
        ensures refused { IfErr result (λ e. (e ≡ Foreign)
            ⊎ ((e ≡ Memory) × (IsOwn self.now hall.old × (hall.old.closed ≡ false)))) }
        ensures some { IfErr result (λ e. (n : ℕ) × (hall.new ≡ with_released hall.old (take n (lacking self.now hall.old)))) }
    {
        self.release_lent(hall)
    }

    /// As `release`, of a hall that is lent.
    pub(crate) fn release_lent<H: AnyHall<L>>(&self, hall: &mut H) -> Result<u64, KeeperError>
        ensures reached { IsReached L.answers (H.state hall.old) }
        ensures own { IfOk result (λ _. IsOwn self.now (H.state hall.old) × ((H.state hall.old).closed ≡ false)) }
        ensures released { IfOk result (λ n. (n ≡ length (lacking self.now (H.state hall.old))) × (H.state hall.new ≡ with_released (H.state hall.old) (lacking self.now (H.state hall.old)))) }
        ensures all { IfOk result (λ _. (H.state hall.new).batches ≡ since_base self.now) }
        ensures foreign { IfErr result (λ e. e ≡ Foreign → (IsOwn self.now (H.state hall.old) → (H.state hall.old).closed ≡ false → ⊥) × (H.state hall.new ≡ H.state hall.old)) }
        ensures refused { IfErr result (λ e. (e ≡ Foreign)
            ⊎ ((e ≡ Memory) × (IsOwn self.now (H.state hall.old) × ((H.state hall.old).closed ≡ false)))) }
        ensures some { IfErr result (λ e. (n : ℕ) × (H.state hall.new ≡ with_released (H.state hall.old) (take n (lacking self.now (H.state hall.old))))) }
    {
        each_is_sound(hall);
        if hall.hall().is_closed() || !self.owns(hall) {
            return Err(KeeperError::Foreign);
        }
        self.release_own(hall)
    }

    /// As `release`, of an open hall that is known to be this keeper's. Nothing is compared, so it costs what is new; and it is this
    /// keeper's after it too, also at a refusal. Refusal: `Memory`.
    pub(crate) fn release_own<H: AnyHall<L>>(&self, hall: &mut H) -> Result<u64, KeeperError>
        requires own { IsOwn self.now (H.state hall.old) }
        requires not_closed { (H.state hall.old).closed ≡ false }
        ensures released { IfOk result (λ n. (n ≡ length (lacking self.now (H.state hall.old))) × (H.state hall.new ≡ with_released (H.state hall.old) (lacking self.now (H.state hall.old)))) }
        ensures all { IfOk result (λ _. (H.state hall.new).batches ≡ since_base self.now) }
        ensures memory { IfErr result (λ e. e ≡ Memory) }
        ensures some { IfErr result (λ e. (n : ℕ) × (H.state hall.new ≡ with_released (H.state hall.old) (take n (lacking self.now (H.state hall.old))))) }
        ensures stays { StaysOwn self.now (H.state hall.old) (H.state hall.new) }
    {
        each_is_sound(hall);
        let submitted = &self.submitted;
        let has = self.past() + hall.hall().inputs().len();
        release_after::<L, H>(hall, submitted, has)
    }
}

/// Releases into a hall copies of the batches that were submitted after the first so many, one after another, and answers how
/// many. Refusal: `Memory`, after which some of them were released. A hall that is open and has numbers left for all of them
/// refuses nothing else.
fn release_after<L: Law, H: AnyHall<L>>(
    hall: &mut H,
    submitted: &VecDeque<Submitted>,
    has: usize,
) -> Result<u64, KeeperError>
    requires within { has ≤ length submitted.now.items }
    requires not_closed { (H.state hall.old).closed ≡ false }
    requires numbers { (H.state hall.old).next + length (drop has submitted.now.items) ≤ 2 ^ 63 }
    requires batches { All (λ s. is_batch (inputs_of (H.state hall.old).plan) s.batch ≡ true) submitted.now.items }
    ensures released { IfOk result (λ n. (n ≡ length (drop has submitted.now.items))
        × (H.state hall.new ≡ with_released (H.state hall.old) (batches_of (drop has submitted.now.items)))) }
    ensures some { IfErr result (λ e. (n : ℕ) × (H.state hall.new ≡ with_released (H.state hall.old) (take n (batches_of (drop has submitted.now.items))))) }
    ensures memory { IfErr result (λ e. e ≡ Memory) }
{
    look_ups();
    reached_in_order::<L>();
    each_is_sound(hall);
    let mut released = 0;
    for at in has..submitted.len() {
        let batch = submitted[at].batch.copy()?;
        match hall.release_batch(batch) {
            Ok(_epoch) => released += 1,
            Err(_memory) => return Err(KeeperError::Memory),
        }
    }
    Ok(released)
}

impl<D: Disk, L: Law> Keeper<D, L> {
    /// Whether what is lent is one of this keeper's halls.
    pub(crate) fn owns<H: AnyHall<L>>(&self, hall: &H) -> bool
        ensures { IsTrue result ↔ IsOwn self.now (H.state hall.now) }
    {
        self.is_own(hall.hall())
    }

    /// Whether a hall is one of this keeper's: its plan, its base and the last epoch that was collected are the keeper's, and its
    /// batches are a beginning of the keeper's since that base. It takes no memory.
    fn is_own(&self, hall: &Hall<L>) -> bool
        ensures { IsTrue result ↔ IsOwn self.now hall.now }
    {
        let (epoch, states) = self.base();
        let (of_hall, states_of_hall) = hall.base();
        if of_hall != epoch || hall.collected() != self.collected {
            return false;
        }
        if !states.are(states_of_hall) {
            return false;
        }
        let same_plan = hall.plan().same(&self.plan);
        if !same_plan {
            return false;
        }
        begin(hall.inputs(), &self.submitted, self.past())
    }

    /// The epoch of the keeper's base, and its states.
    pub(crate) fn base(&self) -> (u64, &OrderedStates)
        ensures epoch { result.0 ≡ self.now.base }
        ensures states { result.1.now ≡ self.now.base_states }
    {
        match &self.taken {
            Some(taken) => (taken.epoch, &taken.states),
            None => (self.checkpoint.epoch, &self.checkpoint.states),
        }
    }

    /// How many of the epochs after the checkpoint are not after the base.
    pub(crate) fn past(&self) -> usize
        ensures { result ≡ self.now.base - self.now.standing.epoch }
    {
        (self.base().0 - self.checkpoint.epoch) as usize
    }
}

/// Whether batches are a beginning of those that were submitted after the first so many.
fn begin(batches: &VecDeque<Batch>, submitted: &VecDeque<Submitted>, past: usize) -> bool
    requires { past ≤ length submitted.now.items }
    ensures { IsTrue result ↔ Begin batches.now.items (drop past (batches_of submitted.now.items)) }
{
    if submitted.len() - past < batches.len() {
        return false;
    }
    for at in 0..batches.len() {
        let same = submitted[past + at].batch == batches[at];
        if !same {
            return false;
        }
    }
    true
}
