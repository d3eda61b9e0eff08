//! What a worker does.
//!
//! A turn takes or finishes, and each of the two says by its contract that no task is lost. So the loop has nothing to lose.
ghost use Rattle.std.specs.Prelude.{◌≡◌, ◌⊎◌, ◌+◌, ◌≤◌, ◌<◌, true, false, not, Some, OnOk, OnErr, IfOk, IfErr, IsErrAnd};
ghost use Rattle.crossbeam_utils.specs.Padded.{padded_value};
ghost use Rattle.td_calls.specs.Fits.{lacking_code};
ghost use Rattle.td_machine.specs.State.{Task as AnyTask};
ghost use Rattle.td_core.specs.declared.error.HallError.TheVariants.{Stranger, Busy, Spent};
ghost use Rattle.td_pool.specs.Hands.{is_empty, is_ready, held_in, task_of, Stays, Strays};
ghost use Rattle.td_pool.specs.declared.error.PoolError.TheVariants.{Hall as OfHall, Memory};

use crate::error::PoolError;
use crate::gate::Gate;
use crate::hand::Hand;
use crate::pool::Pool;
use crate::seat::{Crew, Seat};
use std::alloc::Global;
use std::mem;
use std::sync::Wait;
use td_calls::{Closures, Law};
use td_core::HallError;
use td_task::TaskError;

impl<K: Crew, L: Law> Pool<K, L> {
    /// Works from a seat until the pool is stopped: takes a task of the seat's shard, passes the gate, runs the task outside the
    /// lock, and gives it. Where there is nothing to take, it waits for a give, a release or the stop, and uses no processor.
    ///
    /// Refusals: `NoCall`, with the task left in the seat; `Memory`, with whatever the seat held left there; `Hall` with `Busy` or
    /// `Spent` of a take, and with `Stranger` of a give, whose task is dropped. What is left in the seat is what the next call takes
    /// up first, also in a pool that is stopped.
    pub fn work<C: Closures<L>, G: Gate<R>, R: Wait>(
        &self,
        rt: &R,
        alloc: Global,
        seat: &mut Seat<K, L>,
        calls: &C,
        gate: &G,
    ) -> Result<(), PoolError>
        ensures shard { seat.new.shard ≡ seat.old.shard }
        ensures rises { padded_value seat.old.gives ≤ padded_value seat.new.gives }
        ensures ok { OnOk result (is_empty seat.new.hand ≡ true) }
        ensures strays { OnOk result (seat.new.strays ≡ seat.old.strays) }
        ensures lost { IfErr result (λ e. Strays e seat.old.strays seat.new.strays) }
        ensures stays { let lacks = lacking_code (C.stored calls.now) in IfErr result (λ e. Stays lacks e seat.new.hand) }
        ensures kept { (held : AnyTask) → task_of seat.old.hand ≡ Some held
            → (padded_value seat.old.gives < padded_value seat.new.gives) ⊎ (IsErrAnd result (λ e. e ≡ OfHall Stranger) ⊎ (task_of seat.new.hand ≡ Some held)) }
    {
        for _turn in rt.forever() {
            if !seat.hand().is_empty() {
                self.finish(rt, alloc, seat, calls, gate)?;
            } else if !self.take(rt, seat, gate)? {
                return Ok(());
            }
        }
        unreachable!()
    }

    /// Waits for a task of the seat's shard, takes it into the seat, and passes the gate with it. Answers false, with nothing taken,
    /// where the pool is stopped. Refusals, with nothing taken: `Memory`, and `Hall` with `Busy` or `Spent`.
    fn take<G: Gate<R>, R: Wait>(
        &self,
        rt: &R,
        seat: &mut Seat<K, L>,
        gate: &G,
    ) -> Result<bool, PoolError>
        requires { is_empty seat.old.hand ≡ true }
        ensures same { (seat.new.shard ≡ seat.old.shard) × (padded_value seat.new.gives ≡ padded_value seat.old.gives) × (seat.new.strays ≡ seat.old.strays) }
        ensures taken { IfOk result (λ taken. is_empty seat.new.hand ≡ not taken) }
        ensures err { OnErr result (is_empty seat.new.hand ≡ true) }
        ensures refused { IfErr result (λ e. (e ≡ Memory) ⊎ ((e ≡ OfHall Busy) ⊎ (e ≡ OfHall Spent))) }
    {
        let is_taken = self.next_task(rt, seat)?;
        pass(rt, seat.hand(), gate);
        Ok(is_taken)
    }

    /// Waits for a task of the seat's shard, and takes it into the seat; false where the pool is stopped. Refusals, with nothing taken:
    /// `Memory`, and `Hall` with `Busy` or `Spent`.
    fn next_task<R: Wait>(&self, rt: &R, seat: &mut Seat<K, L>) -> Result<bool, PoolError>
        requires { is_empty seat.old.hand ≡ true }
        ensures same { (seat.new.shard ≡ seat.old.shard) × (padded_value seat.new.gives ≡ padded_value seat.old.gives) × (seat.new.strays ≡ seat.old.strays) }
        ensures taken { IfOk result (λ taken. is_empty seat.new.hand ≡ not taken) }
        ensures err { OnErr result (is_empty seat.new.hand ≡ true) }
        ensures refused { IfErr result (λ e. (e ≡ Memory) ⊎ ((e ≡ OfHall Busy) ⊎ (e ≡ OfHall Spent))) }
    {
        let mut held = self.held.lock(rt);
        for _turn in rt.forever() {
            if held.is_stopped() {
                return Ok(false);
            }
            match held.take(seat) {
                Ok(true) => return Ok(true),
                Ok(false) => {}
                Err(HallError::Memory) => return Err(PoolError::Memory),
                Err(error) => return Err(PoolError::Hall(error)),
            }
            if held.hall().unpassed().is_none() {
                self.has_rest.notify_all();
            }
            held = self.wait_for_work(rt, held, seat.shard);
        }
        unreachable!()
    }

    /// Runs the task that a seat holds, if it was not run yet, and gives it; then it passes the gate with the next one, if there is
    /// one. Refusals: `NoCall` and `Memory`, with the task left in the seat, and `Hall` with `Stranger`, with the task dropped.
    fn finish<C: Closures<L>, G: Gate<R>, R: Wait>(
        &self,
        rt: &R,
        alloc: Global,
        seat: &mut Seat<K, L>,
        calls: &C,
        gate: &G,
    ) -> Result<(), PoolError>
        requires { is_empty seat.old.hand ≡ false }
        ensures shard { seat.new.shard ≡ seat.old.shard }
        ensures counted { OnOk result (padded_value seat.new.gives ≡ padded_value seat.old.gives + 1) }
        ensures same { OnErr result (padded_value seat.new.gives ≡ padded_value seat.old.gives) }
        ensures strays { OnOk result (seat.new.strays ≡ seat.old.strays) }
        ensures lost { IfErr result (λ e. Strays e seat.old.strays seat.new.strays) }
        ensures stays { let lacks = lacking_code (C.stored calls.now) in IfErr result (λ e. Stays lacks e seat.new.hand) }
        ensures kept { IfErr result (λ e. (e ≡ OfHall Stranger) ⊎ (task_of seat.new.hand ≡ task_of seat.old.hand)) }
    {
        run(alloc, &mut seat.hand, calls)?;
        self.give(rt, seat)?;
        pass(rt, seat.hand(), gate);
        Ok(())
    }

    /// Gives the task that a seat holds, and takes the next one of its shard into it, if there is one, under one hold of the lock, and
    /// wakes those of the workers that wait for which there is something to take now. What hinders the take is told by the next one.
    /// Refusals: `Memory`, with the task left in the seat, and `Hall` with `Stranger`, with the task dropped.
    fn give<R: Wait>(&self, rt: &R, seat: &mut Seat<K, L>) -> Result<(), PoolError>
        requires { is_ready seat.old.hand ≡ true }
        ensures shard { seat.new.shard ≡ seat.old.shard }
        ensures counted { OnOk result (padded_value seat.new.gives ≡ padded_value seat.old.gives + 1) }
        ensures same { OnErr result (padded_value seat.new.gives ≡ padded_value seat.old.gives) }
        ensures strays { OnOk result (seat.new.strays ≡ seat.old.strays) }
        ensures lost { IfErr result (λ e. Strays e seat.old.strays seat.new.strays) }
        ensures refused { IfErr result (λ e. ((e ≡ Memory) × (seat.new.hand ≡ seat.old.hand)) ⊎ ((e ≡ OfHall Stranger) × (is_empty seat.new.hand ≡ true))) }
    {
        let mut held = self.held.lock(rt);
        match held.give_held(seat) {
            Ok(()) => {
                held.next(seat);
                self.wake_for_tasks(&mut held);
                Ok(())
            }
            Err(HallError::Memory) => Err(PoolError::Memory),
            Err(error) => Err(PoolError::Hall(error)),
        }
    }
}

/// Runs the task that a hand holds, if it was not run yet. Refusals, with the task left in the hand: those of `Task::run`.
fn run<L: Law, C: Closures<L>>(
    alloc: Global,
    hand: &mut Hand<L>,
    calls: &C,
) -> Result<(), PoolError>
    requires { is_empty hand.old ≡ false }
    ensures task { task_of hand.new ≡ task_of hand.old }
    ensures held { is_empty hand.new ≡ false }
    ensures ready { OnOk result (is_ready hand.new ≡ true) }
    ensures stays { let lacks = lacking_code (C.stored calls.now) in IfErr result (λ e. Stays lacks e hand.new × (held_in hand.new ≡ 1)) }
{
    let (ran, left) = match mem::replace(hand, Hand::Empty) {
        Hand::Taken(task) => match task.run::<L, C>(alloc, calls) {
            Ok(done) => (Ok(()), Hand::Ready(done)),
            Err((error, task)) => (Err(PoolError::from(error)), Hand::Taken(task)),
        },
        other => (Ok(()), other),
    };
    *hand = left;
    ran
}

/// Passes the gate with what a seat holds, if it is a task to run.
fn pass<L: Law, G: Gate<R>, R: Wait>(rt: &R, hand: &Hand<L>, gate: &G) {
    if let Hand::Taken(task) = hand {
        gate.enter(rt, task.shard(), task.number());
    }
}
