//! What was done to a pool's hall, known by a number.
//!
//! Under a lock lies any hall that its type admits: who held the lock before may have released, collected, cut or closed. Who has to
//! know that nobody did would compare all that a hall keeps. With a course he compares two numbers.
//!
//! A course is the history of a hall: what it was after each of these calls. The entries exist in the proofs alone. At run time there
//! is its length, and two beginnings of one history that are as long are the same (`Moment::is`).
ghost use Rattle.std.specs.Prelude.{◌≡◌, [], IfSome, IsTrue};
ghost use Rattle.td_pool.specs.Courses.{head_of};
ghost use Rattle.td_pool.specs.Stands.{StandsAs};

use crate::seat::Crew;
use logbook::{Gain, Offer, Plain, Play, Rule, Seen, Start, Word};
use std::marker::{Model, PhantomData};
use td_calls::Law;
use td_core::Hall;

/// The rule of a course: its one word is its length.
pub struct ByLength;

impl<L: Law> Rule<Hall<L>, u64> for ByLength {
    ghost use Rattle.std.specs.Prelude.{[]};
    ghost use base.Fml.{ftrue};
    ghost use Rattle.td_pool.specs.Courses.{IsKept};

    ghost holds = { λ cells log. IsKept cells log };

    ghost first = { [] };

    ghost hinted = { λ n log. Unit {0} };

    ghost shows = { λ log. [] };

    ghost keeps = { λ names log. ftrue };

    ghost moves = { λ ask before after answer. Unit {0} };
}

/// Who adds an entry trades nothing.
struct Nothing;

impl<L: Law> Gain<Hall<L>, u64> for Nothing {
    ghost use base.Fml.{ftrue};

    ghost after = { λ names about answer. ftrue };
}

/// A step that adds an entry: the hall as it is.
struct Adds;

impl<L: Law> Play<Hall<L>, u64> for Adds {
    ghost use Rattle.td_pool.specs.Courses.{Adds};

    ghost then = { Adds };
}

impl<L: Law> Plain<Hall<L>, Hall<L>, u64> for Adds {
    ghost use Rattle.std.specs.Prelude.{None};

    ghost ask = { λ hall. hall };

    ghost state = { λ hall. None };
}

/// A course without an entry, for a pool that is to keep it (`Pool::keep_course`). Contracts see which one it is.
#[derive(Drop)]
pub struct NewCourse<L: Law> {
    head: Word<Hall<L>, u64, ByLength>,
    seen: Seen<Hall<L>, u64, ByLength>,
}

impl<L: Law> Model for NewCourse<L> {
    ghost use Rattle.std.specs.Prelude.{◌≡◌, []};
    ghost use Rattle.logbook.specs.Pages.{Book};
    ghost use Rattle.td_pool.specs.Courses.{head_of};

    ghost Value = { Book };

    ghost view = { λ c. c.seen.book };

    ghost invariant = { λ c. (c.head ≡ head_of c.seen.book) × (c.seen.log ≡ []) };
}

impl<L: Law> NewCourse<L> {
    /// A course that is no other's.
    pub fn new() -> NewCourse<L> {
        let (seen, mut first, _second) = Seen::open(Start::alone(), 0, 0);
        NewCourse {
            head: Word::tracked(0, &mut first),
            seen,
        }
    }
}

/// A moment of a pool's course. Contracts see the hall as it was then.
#[derive(Drop)]
pub struct Moment<K: Crew, L: Law> {
    /// How many entries the course had.
    entries: u64,
    seen: Seen<Hall<L>, u64, ByLength>,
    of: PhantomData<K>,
}

impl<K: Crew, L: Law> Model for Moment<K, L> {
    ghost use Rattle.std.specs.Prelude.{◌≡◌, length};
    ghost use Rattle.td_machine.specs.State.{HallState};
    ghost use Rattle.td_pool.specs.Courses.{last_of};

    ghost Value = { HallState };

    ghost view = { λ m. last_of m.seen.log };

    ghost invariant = { λ m. (m.entries ≡ length m.seen.log) × (m.seen.book ≡ K.course) };
}

impl<K: Crew, L: Law> Moment<K, L> {
    /// A copy.
    fn again(&self) -> Moment<K, L>
        ensures { result ≡ self.now }
    {
        Moment {
            entries: self.entries,
            seen: self.seen.again(),
            of: PhantomData,
        }
    }

    /// Whether both are one moment.
    fn is(&self, other: &Moment<K, L>) -> bool
        ensures { IsTrue result → self.now ≡ other.now }
    {
        let mut both = self.seen.again();
        both.learn(&other.seen);
        self.entries == other.entries
    }
}

/// A pool's course, which it alone makes longer. Contracts see its last entry.
#[derive(Drop)]
pub(crate) struct Course<K: Crew, L: Law> {
    head: Word<Hall<L>, u64, ByLength>,
    last: Moment<K, L>,
    ghost head_is: { head ≡ head_of K.course },
}

impl<K: Crew, L: Law> Model for Course<K, L> {
    ghost use Rattle.td_machine.specs.State.{HallState};

    ghost Value = { HallState };

    ghost view = { λ c. c.last };
}

impl<K: Crew, L: Law> Course<K, L> {
    /// A course that begins with a hall, as `then`.
    pub(crate) fn begin(course: NewCourse<L>, hall: &Hall<L>) -> Option<Course<K, L>>
        requires { course ≡ K.course }
        ensures { IfSome result (λ course. course ≡ hall.now) }
    {
        let NewCourse { head, seen } = course;
        let last = Moment {
            entries: 0,
            seen,
            of: PhantomData,
        };
        Course { head, last }.then(hall)
    }

    /// The course with the hall as it is now as one more entry. None, and then the course is not kept any more, where it has no number
    /// left. That it is longer than its pool knows is told apart too: nobody else has its word, which the logbook's contract does not say.
    pub(crate) fn then(self, hall: &Hall<L>) -> Option<Course<K, L>>
        ensures { IfSome result (λ course. course ≡ hall.now) }
    {
        let Course { head, last } = self;
        let Moment {
            entries,
            mut seen,
            of,
        } = last;
        let more = entries.checked_add(1)?;
        let mut offer: Offer<Hall<L>, u64, ByLength, Nothing> = seen.plain::<
            Nothing,
            Hall<L>,
            Adds,
        >(hall);
        let mut pen = seen.no_pen();
        let found = head.compare_exchange::<Adds, Nothing>(
            entries, more, &mut seen, &mut offer, &mut pen,
        );
        if found != entries {
            return None;
        }
        let last = Moment {
            entries: more,
            seen,
            of,
        };
        Some(Course { head, last })
    }

    /// Its last moment.
    pub(crate) fn moment(&self) -> Moment<K, L>
        ensures { result ≡ self.now }
    {
        self.last.again()
    }

    /// Whether its last moment is this one.
    pub(crate) fn is_at(&self, moment: &Moment<K, L>) -> bool
        ensures { IsTrue result → self.now ≡ moment.now }
    {
        self.last.is(moment)
    }
}

/// Puts the hall as it is now behind its course, where one is kept.
pub(crate) fn note<K: Crew, L: Law>(course: &mut Option<Course<K, L>>, hall: &Hall<L>)
    ensures { IfSome course.new (λ course. StandsAs course hall.now) }
{
    *course = match course.take() {
        Some(course) => course.then(hall),
        None => None,
    };
}
