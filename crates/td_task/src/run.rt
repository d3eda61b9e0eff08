//! Tasks that are run, and what closures answer them.
//!
//! Memory is taken by `Answers::room`, eight records for each answer, and `answer` works in it and has no refusal. Records that
//! arrive at other kinds than a map have no answers: the hall passes them on or keeps them.
ghost use Rattle.std.specs.Prelude.{◌≡◌, ◌*◌, ◌≤◌, [], None, IsTrue, IfOk, IfErr, map, length, vec_capacity, OnOk, slice_get};
ghost use Rattle.td_calls.specs.Fits.{lacking_code};
ghost use Rattle.td_plan.specs.declared.vertex.Kind.TheVariants.{Group, Fold};
ghost use Rattle.td_task.specs.Answered.{sent_of, states_of, sent_for_keys, kept_for_keys, answer_count, state_count, answers_of, states_for};
ghost use Rattle.td_task.specs.Contents.{content_of};
ghost use Rattle.td_task.specs.declared.error.TaskError.TheVariants.{Memory};
ghost use Rattle.std.specs.List.{flat_map};
ghost use Rattle.std.specs.Option.{option_map};
ghost use Rattle.td_task.specs.Refusals.{refusal};

use crate::error::TaskError;
use crate::keyed::{KeyedItems, Lists};
use crate::task::{Task, Work};
use std::alloc::Global;
use std::marker::{Model, PhantomData};
use td_calls::{Closures, Law};
use td_plan::Kind;
use td_stamp::{FEW, Rec, State};

/// What is sent answer by answer, and the states that a fold keeps.
#[derive(Drop)]
pub(crate) struct Answers {
    pub sent: Lists<Rec>,
    pub states: Vec<Option<State>>,
}

impl Answers {
    /// No answers, and the room for those to this work at a vertex of this kind: all the memory that they take. Refusal:
    /// `Memory`.
    pub(crate) fn room(alloc: Global, kind: Kind, work: &Work) -> Result<Answers, TaskError>
        ensures sent { IfOk result (λ room. room.sent.lists ≡ []) }
        ensures states { IfOk result (λ room. room.states.items ≡ []) }
        ensures answers { IfOk result (λ room. answer_count kind (content_of work.now) ≤ room.sent.more_lists) }
        ensures records { IfOk result (λ room. answer_count kind (content_of work.now) * 8 ≤ room.sent.more_members) }
        ensures kept { IfOk result (λ room. state_count kind (content_of work.now) ≤ vec_capacity room.states) }
        ensures memory { IfErr result (λ e. e ≡ Memory) }
    {
        let answers = answer_count(kind, work);
        let Some(records) = answers.checked_mul(FEW) else {
            return Err(TaskError::Memory);
        };
        Ok(Answers {
            sent: Lists::with_capacity(alloc, answers, records)?,
            states: Vec::with_capacity(alloc, state_count(kind, work))?,
        })
    }
}

/// How many answers there are to this work at a vertex of this kind.
fn answer_count(kind: Kind, work: &Work) -> usize
    ensures { result ≡ answer_count kind (content_of work.now) }
{
    match (kind, work) {
        (Kind::Map(_), Work::Messages(_, recs)) => recs.len(),
        (Kind::Group(_) | Kind::Fold(_), Work::Notification(items)) => items.len(),
        _ => 0,
    }
}

/// How many states are kept with them.
fn state_count(kind: Kind, work: &Work) -> usize
    ensures { result ≡ state_count kind (content_of work.now) }
{
    match (kind, work) {
        (Kind::Fold(_), Work::Notification(items)) => items.len(),
        _ => 0,
    }
}

/// The answers to this work at a vertex of this kind, in the room that was taken for them. Takes no memory.
pub(crate) fn answer<L: Law, C: Closures<L>>(
    calls: &C,
    kind: Kind,
    work: &Work,
    answers: &mut Answers,
)
    requires stored { lacking_code (C.stored calls.now) kind ≡ None }
    requires sent { answers.old.sent.lists ≡ [] }
    requires states { answers.old.states.items ≡ [] }
    requires lists { answer_count kind (content_of work.now) ≤ answers.old.sent.more_lists }
    requires records { answer_count kind (content_of work.now) * 8 ≤ answers.old.sent.more_members }
    requires kept { state_count kind (content_of work.now) ≤ vec_capacity answers.old.states }
    ensures sent { answers.new.sent.lists ≡ sent_of L.answers kind (content_of work.now) }
    ensures states { answers.new.states.items ≡ states_of L.answers kind (content_of work.now) }
{
    match (kind, work) {
        (Kind::Map(code), Work::Messages(port, recs)) => {
            run_map::<L, C>(calls, code, *port, recs.as_slice(), &mut answers.sent);
        }
        (Kind::Group(code), Work::Notification(items)) => {
            run_group::<L, C>(calls, code, items, &mut answers.sent);
        }
        (Kind::Fold(code), Work::Notification(items)) => {
            run_fold::<L, C>(calls, code, items, &mut answers.sent, &mut answers.states);
        }
        _ => {}
    }
}

/// What a map sends for each record that comes to a port. Takes no memory.
fn run_map<L: Law, C: Closures<L>>(
    calls: &C,
    code: u16,
    port: u8,
    recs: &[Rec],
    sent: &mut Lists<Rec>,
)
    requires stored { IsTrue ((C.stored calls.now).map code) }
    requires none { sent.old.lists ≡ [] }
    requires lists { length recs.now ≤ sent.old.more_lists }
    requires records { length recs.now * 8 ≤ sent.old.more_members }
    ensures { sent.new.lists ≡ map (L.answers.emit code port) recs.now }
{
    for rec in recs {
        let Some(few) = calls.map(code, port, *rec) else {
            unreachable!();
        };
        sent.put(few.as_slice());
    }
}

/// What a group sends for each key. Takes no memory.
fn run_group<L: Law, C: Closures<L>>(
    calls: &C,
    code: u16,
    items: &KeyedItems,
    sent: &mut Lists<Rec>,
)
    requires stored { IsTrue ((C.stored calls.now).group code) }
    requires none { sent.old.lists ≡ [] }
    requires lists { length items.now ≤ sent.old.more_lists }
    requires records { length items.now * 8 ≤ sent.old.more_members }
    ensures { sent.new.lists ≡ sent_for_keys L.answers (Group code) items.now }
{
    for index in 0..items.len() {
        let at = items.at(index);
        let Some(few) = calls.group(code, at.key, at.items) else {
            unreachable!();
        };
        sent.put(few.as_slice());
    }
}

/// What a fold sends and keeps for each key. Takes no memory.
fn run_fold<L: Law, C: Closures<L>>(
    calls: &C,
    code: u16,
    items: &KeyedItems,
    sent: &mut Lists<Rec>,
    states: &mut Vec<Option<State>>,
)
    requires stored { IsTrue ((C.stored calls.now).fold code) }
    requires none { sent.old.lists ≡ [] }
    requires no_states { states.old.items ≡ [] }
    requires lists { length items.now ≤ sent.old.more_lists }
    requires records { length items.now * 8 ≤ sent.old.more_members }
    requires states { length items.now ≤ vec_capacity states.old }
    ensures sent { sent.new.lists ≡ sent_for_keys L.answers (Fold code) items.now }
    ensures states { states.new.items ≡ kept_for_keys L.answers (Fold code) items.now }
{
    for index in 0..items.len() {
        let at = items.at(index);
        let Some((state, few)) = calls.fold(code, at.key, at.state, at.items) else {
            unreachable!();
        };
        sent.put(few.as_slice());
        states.push_reserved(state);
    }
}

impl Task {
    /// Runs the task: calls the closure of its vertex for each record, where that is a map, or for each key of a
    /// notification, where it is a group or a fold. The records that come to other kinds have no answers. It takes all
    /// memory before the first call of a closure: two allocations, three for a fold. Refusals, with the task handed back: `NoCall` with the vertex and the
    /// code where a map, a group or a fold lacks its closure, and `Memory`.
    pub fn run<L: Law, C: Closures<L>>(
        self,
        alloc: Global,
        calls: &C,
    ) -> Result<Done<L>, (TaskError, Task)>
        ensures done { IfOk result (λ done. done ≡ self) }
        ensures stored { OnOk result (lacking_code (C.stored calls.now) self.kind ≡ None) }
        ensures refused { IfErr result (λ e. e.0 ≡ refusal self.vertex (lacking_code (C.stored calls.now) self.kind)) }
        ensures back { IfErr result (λ e. e.1 ≡ self) }
    {
        if let Some(code) = calls.lacking_code(self.kind()) {
            return Err((TaskError::NoCall(self.vertex(), code), self));
        }
        match Answers::room(alloc, self.kind(), self.work()) {
            Ok(mut answers) => {
                answer::<L, C>(calls, self.kind(), self.work(), &mut answers);
                Ok(Done {
                    task: self,
                    answers,
                    law: PhantomData,
                })
            }
            Err(error) => Err((error, self)),
        }
    }
}

/// A task that was run, with exactly the law's answers for it. Contracts see the task: its answers are those that the law has for
/// it. A `Task` has no law in its type, since it holds no answers.
#[derive(Drop)]
pub struct Done<L: Law> {
    task: Task,
    answers: Answers,
    law: PhantomData<L>,
}

impl<L: Law> Model for Done<L> {
    ghost use Rattle.std.specs.Prelude.{◌≡◌};
    ghost use Rattle.td_machine.specs.State.{Task as TaskOut};
    ghost use Rattle.td_task.specs.Answered.{answers_of, states_for};

    ghost Value = { TaskOut };

    ghost view = { λ d. d.task };

    ghost invariant = { λ d. (d.answers.sent.lists ≡ answers_of L.answers d.task) × (d.answers.states.items ≡ states_for L.answers d.task) };
}

impl<L: Law> Done<L> {
    /// The task.
    pub fn task(&self) -> &Task
        ensures { result.now ≡ self.now }
    {
        &self.task
    }

    /// How many answers there are.
    pub fn len(&self) -> usize
        ensures { result ≡ length (answers_of L.answers self.now) }
    {
        self.answers.sent.len()
    }

    /// What is sent, one answer after another.
    pub fn sent(&self) -> &[Rec]
        ensures { result.now ≡ flat_map (λ sent. sent) (answers_of L.answers self.now) }
    {
        self.answers.sent.all()
    }

    /// What one answer sends, if there is such an answer.
    pub fn answer(&self, index: usize) -> Option<&[Rec]>
        ensures { option_map (λ sent. sent.now) result ≡ slice_get (answers_of L.answers self.now) index }
    {
        self.answers.sent.get(index)
    }

    /// What a fold keeps from then on, for one key after another; nothing of other kinds.
    pub fn states(&self) -> &[Option<State>]
        ensures { result.now ≡ states_for L.answers self.now }
    {
        self.answers.states.as_slice()
    }

    /// Hands the task back, without its answers.
    pub fn into_task(self) -> Task
        ensures { result ≡ self }
    {
        self.task
    }
}
