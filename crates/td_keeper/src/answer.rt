//! Answering questions to what folds keep. The hall is only read, so nothing is cut and no states are copied.
ghost use Rattle.std.specs.Prelude.{◌≡◌, ◌⊎◌, ℕ, IfOk, IfErr};
ghost use Rattle.td_machine.specs.Reached.{IsReached};
ghost use Rattle.td_questions.specs.Asked.{answer_to};
ghost use Rattle.td_store.specs.standing.Standing.{last_epoch};
ghost use Rattle.td_keeper.specs.Halls.{IsOwn, last_states, LacksLast};
ghost use Rattle.td_store.specs.declared.standing.error.KeeperError.TheVariants.{Foreign, Memory, NotPassed};

use crate::keeper::Keeper;
use crate::laws::each_is_kept;
use td_batch::laws::run_joins;
use td_calls::Law;
use td_core::HallError;
use td_disk::Disk;
use td_pool::AnyHall;
use td_pool::laws::each_is_sound;
use td_questions::{Entries, Wanted, answer};
use td_store::standing::KeeperError;

impl<D: Disk, L: Law> Keeper<D, L> {
    /// The entries that answer what is wanted of a fold, of the states after the last epoch on the journal, and that epoch, from a hall that
    /// is lent. Refusals: `Foreign`, where the hall is none of this keeper's; `NotPassed` of the first epoch that has not passed in it;
    /// and `Memory`.
    pub(crate) fn answer_lent<H: AnyHall<L>>(
        &self,
        hall: &H,
        vertex: u8,
        wanted: Wanted,
    ) -> Result<(u64, Entries), KeeperError>
        ensures reached { IsReached L.answers (H.state hall.now) }
        ensures own { IfOk result (λ _. IsOwn self.now (H.state hall.now)) }
        ensures answer { IfOk result (λ a. (a.0 ≡ last_epoch self.now.standing) × (a.1 ≡ answer_to vertex wanted (last_states self.now L.answers))) }
        ensures foreign { IfErr result (λ e. e ≡ Foreign → IsOwn self.now (H.state hall.now) → ⊥) }
        ensures refused { IfErr result (λ e. (e ≡ Foreign) ⊎ (IsOwn self.now (H.state hall.now)
            × ((e ≡ Memory) ⊎ ((n : ℕ) × (e ≡ NotPassed n) × LacksLast self.now (H.state hall.now))))) }
    {
        each_is_sound(hall);
        if self.owns(hall) {
            self.answer_own(hall, vertex, wanted)
        } else {
            Err(KeeperError::Foreign)
        }
    }

    /// As `answer_lent`, of a hall that is known to be this keeper's. Refusals: `NotPassed` and `Memory`.
    pub(crate) fn answer_own<H: AnyHall<L>>(
        &self,
        hall: &H,
        vertex: u8,
        wanted: Wanted,
    ) -> Result<(u64, Entries), KeeperError>
        requires { IsOwn self.now (H.state hall.now) }
        ensures answer { IfOk result (λ a. (a.0 ≡ last_epoch self.now.standing) × (a.1 ≡ answer_to vertex wanted (last_states self.now L.answers))) }
        ensures refused { IfErr result (λ e. (e ≡ Memory) ⊎ ((n : ℕ) × (e ≡ NotPassed n) × LacksLast self.now (H.state hall.now))) }
    {
        run_joins::<L>();
        each_is_kept(self);
        each_is_sound(hall);
        let last = self.last_epoch();
        let released = self.base().0 + hall.hall().inputs().len() as u64;
        if released < last {
            return Err(KeeperError::NotPassed(released + 1));
        }
        match hall.hall().states_at(last) {
            Ok(states) => match answer(self.alloc, &states, vertex, wanted) {
                Ok(entries) => Ok((last, Entries::from_vec(entries))),
                Err(_memory) => Err(KeeperError::Memory),
            },
            Err(HallError::NotPassed(epoch)) => Err(KeeperError::NotPassed(epoch)),
            Err(_) => unreachable!(),
        }
    }
}
