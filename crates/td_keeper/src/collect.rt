//! Collecting outputs, and handing them out.
ghost use Rattle.std.specs.Prelude.{◌≡◌, ◌⊎◌, ◌+◌, ◌∷◌, length, None, [], IfOk, IfErr, IfSome, IfNone, OnErr, ◌≤◌, ◌++◌};
ghost use Rattle.td_machine.specs.Steps.{collect_step};
ghost use Rattle.td_machine.specs.Reached.{IsReached};
ghost use Rattle.td_machine.specs.Sound.{outs_by};
ghost use Rattle.td_keeper.specs.Halls.{IsOwn, with_collected, collected_hall, meant_outs};
ghost use Rattle.td_store.specs.declared.standing.error.KeeperError.TheVariants.{Foreign, Memory};
ghost use Rattle.std.specs.VecDeque.{deque_len, deque_capacity};

use crate::keeper::Keeper;
use crate::progress::{publish, words_at};
use std::collections::VecDeque;
use td_batch::laws::run_joins;
use td_calls::Law;
use td_core::Hall;
use td_disk::Disk;
use td_pool::AnyHall;
use td_pool::laws::each_is_sound;
use td_stamp::EpochOut;
use td_store::standing::KeeperError;

impl<D: Disk, L: Law> Keeper<D, L> {
    /// Brings into the queue the outputs of the epochs that have passed in a hall since the last that was collected, and answers
    /// how many epochs these are. They are those of the batch meaning of what this keeper stands for, each epoch's once. A
    /// writer that is attached publishes how far they come.
    ///
    /// Refusals, with nothing changed: `Foreign`, where the hall is none of this keeper's, and `Memory`.
    pub fn collect(&mut self, hall: &mut Hall<L>) -> Result<u64, KeeperError>
        ensures own { IfOk result (λ _. IsOwn self.old hall.old) }
        ensures collected { IfOk result (λ n. (self.new ≡ with_collected self.old hall.old) × (hall.new ≡ collected_hall hall.old)
            × (n ≡ length (outs_by (collect_step hall.old).0))) }
        ensures meaning { IfOk result (λ n. outs_by (collect_step hall.old).0 ≡ meant_outs self.old L.answers self.old.collected (self.old.collected + n)) }
        ensures foreign { IfErr result (λ e. e ≡ Foreign → IsOwn self.old hall.old → ⊥) }
        ensures refused { IfErr result (λ e. (e ≡ Foreign) ⊎ ((e ≡ Memory) × IsOwn self.old hall.old)) }
        ensures unchanged { OnErr result ((self.new ≡ self.old) × (hall.new ≡ hall.old)) }
    {
        self.collect_lent(hall)
    }

    /// As `collect`, of a hall that is lent.
    pub(crate) fn collect_lent<H: AnyHall<L>>(&mut self, hall: &mut H) -> Result<u64, KeeperError>
        ensures reached { IsReached L.answers (H.state hall.old) }
        ensures own { IfOk result (λ _. IsOwn self.old (H.state hall.old)) }
        ensures collected { IfOk result (λ n. (self.new ≡ with_collected self.old (H.state hall.old)) × (H.state hall.new ≡ collected_hall (H.state hall.old))
            × (n ≡ length (outs_by (collect_step (H.state hall.old)).0))) }
        ensures meaning { IfOk result (λ n. outs_by (collect_step (H.state hall.old)).0 ≡ meant_outs self.old L.answers self.old.collected (self.old.collected + n)) }
        ensures foreign { IfErr result (λ e. e ≡ Foreign → IsOwn self.old (H.state hall.old) → ⊥) }
        ensures refused { IfErr result (λ e. (e ≡ Foreign) ⊎ ((e ≡ Memory) × IsOwn self.old (H.state hall.old))) }
        ensures unchanged { OnErr result ((self.new ≡ self.old) × (H.state hall.new ≡ H.state hall.old)) }
    {
        each_is_sound(hall);
        if self.owns(hall) {
            self.bring_in(hall)
        } else {
            Err(KeeperError::Foreign)
        }
    }

    /// Brings into the queue what a hall of this keeper's collects, for which room is made first, and answers how many epochs
    /// that is. Refusal: `Memory`, with nothing changed.
    pub(crate) fn bring_in<H: AnyHall<L>>(&mut self, hall: &mut H) -> Result<u64, KeeperError>
        requires { IsOwn self.old (H.state hall.old) }
        ensures collected { IfOk result (λ n. (self.new ≡ with_collected self.old (H.state hall.old)) × (H.state hall.new ≡ collected_hall (H.state hall.old))
            × (n ≡ length (outs_by (collect_step (H.state hall.old)).0))) }
        ensures meaning { IfOk result (λ n. outs_by (collect_step (H.state hall.old)).0 ≡ meant_outs self.old L.answers self.old.collected (self.old.collected + n)) }
        ensures memory { IfErr result (λ e. e ≡ Memory) }
        ensures unchanged { OnErr result ((self.new ≡ self.old) × (H.state hall.new ≡ H.state hall.old)) }
    {
        run_joins::<L>();
        each_is_sound(hall);
        self.queue.reserve(hall.hall().inputs().len())?;
        let Ok(outs) = hall.collect_outputs() else {
            return Err(KeeperError::Memory);
        };
        let count = outs.len() as u64;
        append(&mut self.queue, outs);
        self.collected += count;
        let words = words_at(&self.checkpoint, &self.submitted, self.collected);
        publish(&mut self.watch, words);
        Ok(count)
    }

    /// Hands out the outputs of the first epoch of those that were collected and not yet handed out; None where there is none. It
    /// takes no memory.
    pub fn next_out(&mut self) -> Option<EpochOut>
        ensures some { IfSome result (λ out. self.old.queue ≡ out ∷ self.new.queue) }
        ensures none { IfNone result (self.old.queue ≡ []) }
        ensures same { self.new ≡ record self.old { queue = self.new.queue } }
        ensures none_same { IfNone result (self.new ≡ self.old) }
    {
        self.queue.pop_front()
    }
}

/// Puts what comes next at the end of a queue that has room for it.
pub(crate) fn append<T: Drop>(queue: &mut VecDeque<T>, next: Vec<T>)
    requires { deque_len queue.old + length next.items ≤ deque_capacity queue.old }
    ensures { queue.new.items ≡ queue.old.items ++ next.items }
{
    for each in next {
        queue.push_back_reserved(each);
    }
}
