//! Tasks.
ghost use Rattle.std.specs.Prelude.{◌≡◌, ◌↔◌, IsTrue, IfOk, IfErr};
ghost use Rattle.std.specs.Arc.{arc_value};
ghost use Rattle.td_task.specs.Contents.{content_of, IsSized};
ghost use Rattle.td_task.specs.declared.error.TaskError.TheVariants.{Memory};

use crate::error::TaskError;
use crate::keyed::KeyedItems;
use std::marker::Model;
use std::sync::Arc;
use td_plan::Kind;
use td_stamp::{Rec, Time, laws};

/// What a task is to do.
#[derive(Drop)]
pub enum Work {
    /// To give its vertex, at this port, the record that was picked, and then others of the same edge and time in the
    /// order in which they were posted: 64 at most.
    Messages(u8, Vec<Rec>),
    /// To notify its vertex of a time: the keys that wait for it.
    Notification(KeyedItems),
}

/// What a shard takes up at once. Contracts see it as the core machine does. What it is to do may have several owners, so that
/// the one that keeps a task to compare and the one that runs it have its records and items once.
#[derive(Drop)]
pub struct Task {
    shard: u8,
    number: u64,
    vertex: u8,
    kind: Kind,
    time: Time,
    work: Arc<Work>,
}

impl Model for Task {
    ghost use Rattle.std.specs.Arc.{arc_value};
    ghost use Rattle.td_machine.specs.State.{Task as TaskOut};
    ghost use Rattle.td_task.specs.Contents.{content_of, IsSized};

    ghost Value = { TaskOut };

    ghost view = { λ t. record { shard = t.shard; number = t.number; vertex = t.vertex; kind = t.kind; time = t.time; content = content_of (arc_value t.work) } };

    ghost invariant = { λ t. IsSized (content_of (arc_value t.work)) };
}

impl Task {
    /// The task with this number of a shard, for a vertex with its kind and a time. The caller makes the `Arc`, and gets the work
    /// back where that is refused: so there is no refusal here. That records are 1 to 64 is a fact of the type. A drain's count
    /// rests on it, and the room to put a task back.
    pub fn new(shard: u8, number: u64, vertex: u8, kind: Kind, time: Time, work: Arc<Work>) -> Task
        requires sized { IsSized (content_of (arc_value work)) }
        ensures { result ≡ record { shard = shard; number = number; vertex = vertex; kind = kind; time = time; content = content_of (arc_value work) } }
    {
        Task {
            shard,
            number,
            vertex,
            kind,
            time,
            work,
        }
    }

    /// The same task once more: what it is to do is shared and not copied. Takes no memory. Refusal: `Memory`, where what it
    /// is to do has 2^63 owners.
    pub fn copy(&self) -> Result<Task, TaskError>
        ensures same { IfOk result (λ task. task ≡ self.now) }
        ensures memory { IfErr result (λ e. e ≡ Memory) }
    {
        Ok(Task {
            shard: self.shard,
            number: self.number,
            vertex: self.vertex,
            kind: self.kind,
            time: self.time.copy(),
            work: Arc::try_clone(&self.work)?,
        })
    }

    /// The shard that took it.
    pub fn shard(&self) -> u8
        ensures { result ≡ self.now.shard }
    {
        self.shard
    }

    /// Its number among the tasks of its hall, which are counted from 1.
    pub fn number(&self) -> u64
        ensures { result ≡ self.now.number }
    {
        self.number
    }

    /// Its vertex.
    pub fn vertex(&self) -> u8
        ensures { result ≡ self.now.vertex }
    {
        self.vertex
    }

    /// The kind of its vertex, with the code of its closure.
    pub fn kind(&self) -> Kind
        ensures { result ≡ self.now.kind }
    {
        self.kind
    }

    /// The time of its records, or of its notification.
    pub fn time(&self) -> &Time
        ensures { result.now ≡ self.now.time }
    {
        &self.time
    }

    /// What it is to do.
    pub fn work(&self) -> &Work
        ensures content { content_of result.now ≡ self.now.content }
        ensures sized { IsSized self.now.content }
    {
        &self.work
    }

    /// Whether two tasks are the same: in shard, number, kind and code, place, time and what they are to do.
    pub fn same(&self, other: &Task) -> bool
        ensures { IsTrue result ↔ (self.now ≡ other.now) }
    {
        if self.number != other.number || self.shard != other.shard {
            return false;
        }
        if self.vertex != other.vertex
            || self.kind != other.kind
            || !same_time(&self.time, &other.time)
        {
            return false;
        }
        self.work.same(&other.work)
    }
}

impl Work {
    /// Whether two tasks are to do the same.
    fn same(&self, other: &Work) -> bool
        ensures { IsTrue result ↔ (content_of self.now ≡ content_of other.now) }
    {
        match (self, other) {
            (Work::Messages(port, recs), Work::Messages(other_port, others)) => {
                port == other_port && same_recs(recs.as_slice(), others.as_slice())
            }
            (Work::Notification(items), Work::Notification(others)) => items.same(others),
            _ => false,
        }
    }
}

/// Whether two times are the same.
fn same_time(time: &Time, other: &Time) -> bool
    ensures { IsTrue result ↔ (time.now ≡ other.now) }
{
    laws::time_list_order();
    time.total_cmp(other).is_eq()
}

/// Whether two lists have the same records in the same order.
fn same_recs(recs: &[Rec], others: &[Rec]) -> bool
    ensures { IsTrue result ↔ (recs.now ≡ others.now) }
{
    recs == others
}
