//! What lies under a pool's lock.
ghost use Rattle.std.specs.Prelude.{◌≡◌, ◌⊎◌, ◌+◌, ◌-◌, ◌<◌, ◌≤◌, IsTrue, true, false, not, None, Some, Contains, IfOk, IfSome, IfErr, OnOk, OnErr};
ghost use Rattle.crossbeam_utils.specs.Padded.{padded_value};
ghost use Rattle.td_machine.specs.Active.{has_passed, unpassed};
ghost use Rattle.td_machine.specs.Sound.{run_states};
ghost use Rattle.td_machine.specs.State.{Task as AnyTask};
ghost use Rattle.td_machine.specs.Steps.{Refusal, Gives, Takes, MayTake, accepts, ends, release_step, collect_step, cut_at_by, cut_by, close_step};
ghost use Rattle.td_machine.specs.Steps.Answer.{refused, has_released, has_taken, has_given, has_collected, has_cut, has_closed};
ghost use Rattle.td_core.specs.Refusals.{IsRefused, error_of};
ghost use Rattle.td_core.specs.Meant.{IsMeant};
ghost use Rattle.td_core.specs.Picks.{IsPick};
ghost use Rattle.td_core.specs.Taking.{IsTakeRefused};
ghost use Rattle.td_core.specs.declared.error.HallError.TheVariants.{Memory, Stranger};
ghost use Rattle.td_pool.specs.Counts.{IsCounted};
ghost use Rattle.td_pool.specs.Hands.{is_empty, is_ready, task_of};
ghost use Rattle.td_pool.specs.Lents.{lent};
ghost use Rattle.td_pool.specs.Stands.{StandsAs};

use crate::any_hall::AnyHall;
use crate::course::{Course, Moment, NewCourse, note};
use crate::hand::Hand;
use crate::seat::{Crew, Seat};
use std::marker::Model;
use std::mem;
use std::sync::ledger::{Book, Share};
use td_calls::Law;
use td_core::laws::each_is_sound;
use td_core::{Cut, Hall, HallError};
use td_machine::laws::reached_in_order;
use td_stamp::{Batch, EpochOut};
use td_task::Done;

/// What a take counts for in the ledger, where a give counts 1.
///
/// That is more than all gives of a hall. So the sum of all seats says both, and a seat alone shows that its gives fit a `u64`. A
/// second ledger would be one more type parameter. No field has the takes of a seat: they are its gives, its strays and what it
/// holds.
pub(crate) const TAKE_WEIGHT: u64 = u64::MAX;

/// The hall of a pool, for as long as its lock is held. Contracts see the hall's state, and whether the pool is stopped. By its
/// type it stays the hall with which the pool was made, to which as many tasks were given since as its seats have counted, and of
/// which no more are out than its seats hold or have lost: it cannot be exchanged, and `give` alone gives to it. A public hall
/// would be tied to the pool by its counts alone, and another one with the same counts could take its place. What does not count
/// gives stands at `AnyHall` alone, so its clauses are not stated a third time.
#[derive(Drop)]
pub struct Held<K: Crew, L: Law> {
    hall: Hall<L>,
    pub(crate) is_stopped: bool,
    /// Of each shard, whether its worker waits for something to take.
    sleeps: Vec<bool>,
    /// What was done to the hall, where that is kept.
    course: Option<Course<K, L>>,
    pub(crate) book: Book<K>,
    pub(crate) rest: Share<K>,
}

impl<K: Crew, L: Law> Model for Held<K, L> {
    ghost use Rattle.std.specs.Prelude.{◌≡◌, IfSome};
    ghost use Rattle.td_pool.specs.Counts.{IsCounted};
    ghost use Rattle.td_pool.specs.Lents.{Lent, lent};
    ghost use Rattle.td_pool.specs.Stands.{StandsAs};

    ghost Value = { Lent };

    ghost view = { λ h. lent h.hall h.is_stopped };

    ghost invariant = { λ h. IsCounted K.start h.hall h.book.total × (h.rest.parts ≡ 0) × (h.rest.amount ≡ 0) × IfSome h.course (λ course. StandsAs course h.hall) };
}

impl<K: Crew, L: Law> Held<K, L> {
    /// A hall whose gives and takes are those of the book.
    pub(crate) fn new(hall: Hall<L>, sleeps: Vec<bool>, book: Book<K>, rest: Share<K>) -> Self
        requires counted { IsCounted K.start hall book.total }
        requires rest { (rest.parts ≡ 0) × (rest.amount ≡ 0) }
        ensures { result ≡ lent hall false }
    {
        Held {
            hall,
            is_stopped: false,
            sleeps,
            course: None,
            book,
            rest,
        }
    }

    /// Keeps a course from here on, which begins with the hall as it is.
    pub(crate) fn keep_course(&mut self, course: NewCourse<L>)
        requires { course ≡ K.course }
        ensures { self.new ≡ self.old }
    {
        self.course = Course::begin(course, &self.hall);
    }

    /// The moment at which the hall stands, to be known again later (`is_at`); None where the pool keeps no course.
    pub fn moment(&self) -> Option<Moment<K, L>>
        ensures { IfSome result (λ moment. StandsAs moment self.now.hall) }
    {
        match &self.course {
            Some(course) => Some(course.moment()),
            None => None,
        }
    }

    /// Whether the hall stands as at a moment of this pool: nothing was released, collected, cut or closed since. It compares two
    /// numbers. Where the pool keeps no course it is false.
    pub fn is_at(&self, moment: &Moment<K, L>) -> bool
        ensures { IsTrue result → StandsAs moment.now self.now.hall }
    {
        match &self.course {
            Some(course) => course.is_at(moment),
            None => false,
        }
    }

    /// The hall, and the book with all that no seat has.
    pub(crate) fn into_parts(self) -> (Hall<L>, Book<K>, Share<K>)
        ensures hall { result.0 ≡ self.hall }
        ensures counted { IsCounted K.start result.0 result.1.total }
        ensures rest { (result.2.parts ≡ 0) × (result.2.amount ≡ 0) }
    {
        let Held {
            hall,
            is_stopped: _,
            sleeps: _,
            course: _,
            book,
            rest,
        } = self;
        (hall, book, rest)
    }

    /// The hall, to read.
    pub fn hall(&self) -> &Hall<L>
        ensures { result.now ≡ self.now.hall }
    {
        &self.hall
    }

    /// Whether the pool is stopped.
    pub fn is_stopped(&self) -> bool
        ensures { result ≡ self.now.stopped }
    {
        self.is_stopped
    }

    /// Notes whether the worker of a shard waits for something to take.
    pub(crate) fn set_asleep(&mut self, shard: u8, is_asleep: bool)
        ensures { self.new ≡ self.old }
    {
        if let Some(sleeps) = self.sleeps.get_mut(usize::from(shard)) {
            *sleeps = is_asleep;
        }
    }

    /// Whether the worker of a shard waits and has something to take; it is then no longer said to wait.
    pub(crate) fn rouses(&mut self, shard: u8) -> bool
        ensures same { self.new ≡ self.old }
        ensures due { IsTrue result → (task : AnyTask) × MayTake self.old.hall shard task }
    {
        let is_due = self.is_asleep(shard) && self.hall.has_task(shard);
        if is_due {
            self.set_asleep(shard, false);
        }
        is_due
    }

    /// Whether the worker of a shard waits for something to take.
    fn is_asleep(&self, shard: u8) -> bool {
        match self.sleeps.get(usize::from(shard)) {
            Some(is_asleep) => *is_asleep,
            None => false,
        }
    }

    /// Takes a task of a seat's shard, its first, into the seat, and answers whether there is one.
    pub(crate) fn take(&mut self, seat: &mut Seat<K, L>) -> Result<bool, HallError>
        requires { is_empty seat.old.hand ≡ true }
        ensures taken { IfOk result (λ _. Takes self.old.hall seat.old.shard (has_taken (task_of seat.new.hand)) self.new.hall) }
        ensures hand { IfOk result (λ is_taken. is_empty seat.new.hand ≡ not is_taken) }
        ensures first { IfSome (task_of seat.new.hand) (IsPick self.old.hall seat.old.shard 0) }
        ensures refused { IfErr result (IsTakeRefused self.old.hall seat.old.shard) }
        ensures err { OnErr result ((self.new ≡ self.old) × (is_empty seat.new.hand ≡ true)) }
        ensures stopped { self.new.stopped ≡ self.old.stopped }
        ensures seat { (seat.new.shard ≡ seat.old.shard) × (padded_value seat.new.gives ≡ padded_value seat.old.gives) × (seat.new.strays ≡ seat.old.strays) }
    {
        let Some(task) = self.hall.take(seat.shard, 0)? else {
            return Ok(false);
        };
        self.book.add(&mut seat.share, TAKE_WEIGHT);
        seat.hand = Hand::Taken(task);
        Ok(true)
    }

    /// Takes the next task of a seat's shard into the seat, if there is one that can be taken and the pool is not stopped.
    pub(crate) fn next(&mut self, seat: &mut Seat<K, L>)
        requires { is_empty seat.old.hand ≡ true }
        ensures rests { self.old.stopped ≡ true → is_empty seat.new.hand ≡ true }
        ensures none { is_empty seat.new.hand ≡ true → self.new ≡ self.old }
        ensures some { IfSome (task_of seat.new.hand) (λ task. Takes self.old.hall seat.old.shard (has_taken (Some task)) self.new.hall) }
        ensures stopped { self.new.stopped ≡ self.old.stopped }
        ensures seat { (seat.new.shard ≡ seat.old.shard) × (padded_value seat.new.gives ≡ padded_value seat.old.gives) × (seat.new.strays ≡ seat.old.strays) }
    {
        if self.is_stopped {
            return;
        }
        let _ = self.take(seat);
    }

    /// Takes a task back that was run, as `Hall::give` does. Nothing else raises the hall's count of gives, but for a worker's give of what
    /// its seat holds, and the seat's rises with it. Refusals, with nothing changed and the task handed back: `Stranger` and `Memory`.
    pub fn give(&mut self, seat: &mut Seat<K, L>, done: Done<L>) -> Result<(), (HallError, Done<L>)>
        ensures given { OnOk result (Gives L.answers self.old.hall done has_given self.new.hall) }
        ensures counted { OnOk result (padded_value seat.new.gives ≡ padded_value seat.old.gives + 1) }
        ensures refused { IfErr result (λ e. (e.0 ≡ Memory) ⊎ ((r : Refusal) × (e.0 ≡ error_of r) × Gives L.answers self.old.hall done (refused r) self.old.hall)) }
        ensures memory_last { IfErr result (λ e. e.0 ≡ Memory → Contains self.old.hall.out done) }
        ensures err { OnErr result ((self.new ≡ self.old) × (padded_value seat.new.gives ≡ padded_value seat.old.gives)) }
        ensures back { IfErr result (λ e. e.1 ≡ done) }
        ensures stopped { self.new.stopped ≡ self.old.stopped }
        ensures seat { (seat.new.shard ≡ seat.old.shard) × (seat.new.hand ≡ seat.old.hand) }
        ensures strays { seat.new.strays ≡ seat.old.strays }
    {
        reached_in_order::<L>();
        let Held {
            hall,
            is_stopped: _,
            sleeps: _,
            course: _,
            book,
            rest: _,
        } = self;
        let Seat {
            shard: _,
            gives: count,
            strays: _,
            hand: _,
            share,
        } = seat;
        book.audit(share);
        each_is_sound(hall);
        hall.give(done)?;
        book.add(share, 1);
        // Whoever gives what no seat holds has taken it elsewhere.
        book.add(share, TAKE_WEIGHT);
        **count += 1;
        Ok(())
    }

    /// Takes back what a seat holds, which was run, as `Hall::give` does. Refusals, with the hall unchanged: `Memory`, with the task left
    /// in the seat, and `Stranger`, with the task dropped, which is a stray of the seat from then on.
    pub(crate) fn give_held(&mut self, seat: &mut Seat<K, L>) -> Result<(), HallError>
        requires { is_ready seat.old.hand ≡ true }
        ensures given { OnOk result (IfSome (task_of seat.old.hand) (λ done. Gives L.answers self.old.hall done has_given self.new.hall)) }
        ensures counted { OnOk result ((padded_value seat.new.gives ≡ padded_value seat.old.gives + 1) × (is_empty seat.new.hand ≡ true)) }
        ensures kept { OnOk result (seat.new.strays ≡ seat.old.strays) }
        ensures refused { IfErr result (λ e. (e ≡ Memory) ⊎ (e ≡ Stranger)) }
        ensures memory { IfErr result (λ e. e ≡ Memory → (seat.new.hand ≡ seat.old.hand) × (seat.new.strays ≡ seat.old.strays)) }
        ensures memory_last { IfErr result (λ e. e ≡ Memory → IfSome (task_of seat.old.hand) (Contains self.old.hall.out)) }
        ensures stray { IfErr result (λ e. e ≡ Stranger → (is_empty seat.new.hand ≡ true) × (seat.new.strays ≡ seat.old.strays + 1)) }
        ensures err { OnErr result ((self.new ≡ self.old) × (padded_value seat.new.gives ≡ padded_value seat.old.gives)) }
        ensures stopped { self.new.stopped ≡ self.old.stopped }
        ensures shard { seat.new.shard ≡ seat.old.shard }
    {
        reached_in_order::<L>();
        let Held {
            hall,
            is_stopped: _,
            sleeps: _,
            course: _,
            book,
            rest: _,
        } = self;
        let Seat {
            shard: _,
            gives,
            strays,
            hand,
            share: own,
        } = seat;
        book.audit(own);
        each_is_sound(hall);
        let Hand::Ready(done) = mem::replace(hand, Hand::Empty) else {
            unreachable!()
        };
        match hall.give(done) {
            Ok(()) => {
                book.add(own, 1);
                **gives += 1;
                Ok(())
            }
            Err((HallError::Memory, done)) => {
                *hand = Hand::Ready(done);
                Err(HallError::Memory)
            }
            Err((error, _stranger)) => {
                *strays += 1;
                Err(error)
            }
        }
    }
}

impl<K: Crew, L: Law> AnyHall<L> for Held<K, L> {
    ghost use Rattle.td_pool.specs.Lents.{Lent};

    ghost state = { λ h. h.hall };

    ghost stopped = { λ h. h.stopped };

    fn hall(&self) -> &Hall<L> {
        self.hall()
    }

    fn release_batch(&mut self, batch: Batch) -> Result<u64, (HallError, Batch)> {
        let Held { hall, course, .. } = self;
        let released = hall.release(batch);
        note(course, hall);
        released
    }

    fn collect_outputs(&mut self) -> Result<Vec<EpochOut>, HallError> {
        let Held { hall, course, .. } = self;
        let collected = hall.collect();
        note(course, hall);
        collected
    }

    fn cut_at_last(&mut self) -> Result<Cut, HallError> {
        let Held { hall, course, .. } = self;
        let cut = hall.cut();
        note(course, hall);
        cut
    }

    fn cut_at_epoch(&mut self, epoch: u64) -> Result<Cut, HallError> {
        let Held { hall, course, .. } = self;
        let cut = hall.cut_at(epoch);
        note(course, hall);
        cut
    }

    fn close_inputs(&mut self) {
        let Held { hall, course, .. } = self;
        hall.close();
        note(course, hall);
    }
}
