//! The answer text of a plan and batches, by a hall whose shards take turns.
ghost use Rattle.std.specs.Prelude.{◌≡◌, ◌⊎◌, ◌++◌, ◌+◌, ◌==◌, ◌≤◌, ◌<◌, ◌^◌, if◌then◌else◌, ℕ, [], Some, None, false};
ghost use Rattle.std.specs.Prelude.{IfOk, IfErr, OnOk, IsTrue, All, true, reverse};
ghost use Rattle.std.specs.Prelude.{length, string_bytes};
ghost use Rattle.std.specs.Bool.{OnTrue};
ghost use Rattle.std.specs.List.{list_all};
ghost use Rattle.td_plan.specs.Blocks.{vertices};
ghost use Rattle.td_plan.specs.Inputs.{is_input_of};
ghost use Rattle.td_calls.specs.Fits.{first_lack};
ghost use Rattle.td_machine.specs.Active.{has_passed};
ghost use Rattle.td_machine.specs.State.{Task as AnyTask};
ghost use Rattle.td_machine.specs.Steps.{opened, Takes};
ghost use Rattle.td_machine.specs.Steps.Answer.{has_taken};
ghost use Rattle.td_console.specs.Answer.{lines_of_run};
ghost use Rattle.td_console.specs.Turns.{all_released, IsSimulated, IsTurn, Played, note_by, note_line, notes_of, note_of, time_text};

use crate::faults::Fault;
use crate::hall::{hall_fault, open_hall, print_collected, release_all};
use std::alloc::Global;
use std::fmt::Write;
use td_calls::{Closures, Law};
use td_core::Hall;
use td_machine::laws::never_stuck;
use td_plan::Plan;
use td_stamp::{Batch, Time};
use td_task::{Task, TaskError, Work};

/// The notes of a simulation by so many shards, and then the output lines of a run from no states, the epochs numbered from
/// 1. Refusals: `Memory`; `Spent`.
pub(crate) fn sim_text<L: Law, C: Closures<L>>(
    alloc: Global,
    plan: &Plan,
    calls: &C,
    batches: Vec<Batch>,
    workers: u8,
    picks: &[u64],
) -> Result<String, Fault>
    requires fits { first_lack (C.stored calls.now) (vertices plan.now) ≡ None }
    requires accepted { All (λ batch. IsTrue (list_all (λ e. is_input_of plan.now e.input) batch)) batches.items }
    requires few { length batches.items < 2 ^ 63 }
    requires some { 1 ≤ workers }
    requires most { workers ≤ 16 }
    requires picks { 0 < length picks.now }
    ensures ok { IfOk result (λ text. (turns : _) × IsSimulated L.answers plan.now batches.items workers turns
        × (string_bytes text ≡ notes_of turns ++ lines_of_run L.answers plan.now batches.items)) }
    ensures err { IfErr result (λ f. (f ≡ Fault.Memory) ⊎ (f ≡ Fault.Spent)) }
{
    let mut hall = open_hall::<L>(alloc, plan, workers)?;
    simulate::<L, C>(alloc, plan, &mut hall, calls, batches, workers, picks)
}

/// The same by a hall that was opened for it (as in `text_of_epochs`). Refusals: `Memory`; `Spent`.
fn simulate<L: Law, C: Closures<L>>(
    alloc: Global,
    plan: &Plan,
    hall: &mut Hall<L>,
    calls: &C,
    batches: Vec<Batch>,
    workers: u8,
    picks: &[u64],
) -> Result<String, Fault>
    requires fits { first_lack (C.stored calls.now) (vertices plan.now) ≡ None }
    requires accepted { All (λ batch. IsTrue (list_all (λ e. is_input_of plan.now e.input) batch)) batches.items }
    requires few { length batches.items < 2 ^ 63 }
    requires some { 1 ≤ workers }
    requires most { workers ≤ 16 }
    requires picks { 0 < length picks.now }
    requires opened { hall.old ≡ opened plan.now [] 1 workers }
    ensures ok { IfOk result (λ text. (turns : _) × IsSimulated L.answers plan.now batches.items workers turns
        × (string_bytes text ≡ notes_of turns ++ lines_of_run L.answers plan.now batches.items)) }
    ensures err { IfErr result (λ f. (f ≡ Fault.Memory) ⊎ (f ≡ Fault.Spent)) }
{
    never_stuck::<L>();
    // Read for its contract alone.
    let _lawful = plan.vertices();
    release_all(hall, batches)?;
    let mut text = String::new(alloc);
    play::<L, C>(alloc, hall, calls, workers, picks, &mut text)?;
    print_collected::<L>(&mut text, hall)?;
    Ok(text)
}

/// Turn after turn, each at the next shard and with the next pick, until as many in a row as there are shards had no task.
/// Appends the notes. Refusals: `Memory`; `Spent`.
fn play<L: Law, C: Closures<L>>(
    alloc: Global,
    hall: &mut Hall<L>,
    calls: &C,
    workers: u8,
    picks: &[u64],
    text: &mut String,
) -> Result<(), Fault>
    requires fits { first_lack (C.stored calls.now) (vertices hall.old.plan) ≡ None }
    requires some { 1 ≤ workers }
    requires most { workers ≤ 16 }
    requires picks { 0 < length picks.now }
    requires none_out { hall.old.out ≡ [] }
    ensures ok { OnOk result (Played L.answers workers workers (string_bytes text.old) (string_bytes text.new) hall.old hall.new) }
    ensures err { IfErr result (λ f. (f ≡ Fault.Memory) ⊎ (f ≡ Fault.Spent)) }
{
    let mut idle = 0;
    let mut shard = 0;
    let mut place = 0;
    while idle < workers {
        let worked = turn::<L, C>(alloc, hall, calls, shard, picks[place], text)?;
        idle = idle_after(idle, worked);
        shard = shard_after(shard, workers);
        place = place_after(place, picks.len());
    }
    Ok(())
}

/// How many turns in a row had no task, after one more.
fn idle_after(idle: u8, worked: bool) -> u8
    requires { idle < 16 }
    ensures { result ≡ (if worked then 0 else (idle + 1)) }
{
    if worked { 0 } else { idle + 1 }
}

/// The next shard of so many; the first comes after the last.
fn shard_after(shard: u8, workers: u8) -> u8
    requires within { shard < workers }
    requires most { workers ≤ 16 }
    ensures next { result ≡ (if (shard + 1) == workers then 0 else (shard + 1)) }
    ensures within { result < workers }
{
    if shard + 1 == workers { 0 } else { shard + 1 }
}

/// The next place of so many; the first comes after the last.
fn place_after(place: usize, count: usize) -> usize
    requires { place < count }
    ensures { result < count }
{
    if place + 1 == count { 0 } else { place + 1 }
}

/// One turn at a shard: takes a task, runs it and gives it, and appends its note. Answers whether there was a task. Refusals:
/// `Memory`; `Spent`.
fn turn<L: Law, C: Closures<L>>(
    alloc: Global,
    hall: &mut Hall<L>,
    calls: &C,
    shard: u8,
    pick: u64,
    text: &mut String,
) -> Result<bool, Fault>
    requires fits { first_lack (C.stored calls.now) (vertices hall.old.plan) ≡ None }
    requires none_out { hall.old.out ≡ [] }
    ensures none { IfOk result (λ worked. worked ≡ false → IsTurn L.answers shard hall.old None hall.new × (string_bytes text.new ≡ string_bytes text.old)) }
    ensures worked { IfOk result (λ worked. worked ≡ true → (task : AnyTask) × IsTurn L.answers shard hall.old (Some task) hall.new
        × (string_bytes text.new ≡ string_bytes text.old ++ note_by task task.content)) }
    ensures err { IfErr result (λ f. (f ≡ Fault.Memory) ⊎ (f ≡ Fault.Spent)) }
{
    let task = match hall.take(shard, pick) {
        Ok(Some(task)) => task,
        Ok(None) => return Ok(false),
        Err(error) => return Err(hall_fault(error)),
    };
    print_note(text, &task)?;
    let done = match task.run::<L, C>(alloc, calls) {
        Ok(done) => done,
        Err((error, _task)) => return Err(task_fault(error)),
    };
    match hall.give(done) {
        Ok(()) => Ok(true),
        Err((error, _done)) => Err(hall_fault(error)),
    }
}

/// The fault for a refusal of a task whose closure is stored.
fn task_fault(error: TaskError) -> Fault
    requires { error ≡ TaskError.Memory }
    ensures { result ≡ Fault.Memory }
{
    match error {
        TaskError::Memory => Fault::Memory,
        TaskError::NoCall(..) => unreachable!(),
    }
}

/// Appends the line of a task, if it is a notification: `note SHARD VERTEX TIME`. Refusal: `Memory`.
fn print_note(text: &mut String, task: &Task) -> Result<(), Fault>
    ensures ok { OnOk result (string_bytes text.new ≡ string_bytes text.old ++ note_by task.now task.now.content) }
    ensures err { IfErr result (λ f. f ≡ Fault.Memory) }
{
    match task.work() {
        Work::Messages(..) => Ok(()),
        Work::Notification(_) => print_notification(text, task),
    }
}

/// Appends the line of a notification. Refusal: `Memory`.
fn print_notification(text: &mut String, task: &Task) -> Result<(), Fault>
    ensures ok { OnOk result (string_bytes text.new ≡ string_bytes text.old ++ note_line task.now) }
    ensures err { IfErr result (λ f. f ≡ Fault.Memory) }
{
    let shard = task.shard();
    let vertex = task.vertex();
    write!(text, "note {shard} {vertex} ")?;
    print_time(text, task.time())?;
    writeln!(text)?;
    Ok(())
}

/// Appends a time: `1`, `1<0>` or `1<0,1>`, with the counter of the outermost loop first. Refusal: `Memory`.
fn print_time(text: &mut String, time: &Time) -> Result<(), Fault>
    ensures ok { OnOk result (string_bytes text.new ≡ string_bytes text.old ++ time_text time.now) }
    ensures err { IfErr result (λ f. f ≡ Fault.Memory) }
{
    let epoch = time.epoch();
    write!(text, "{epoch}")?;
    let Some((first, inner)) = time.turns().split_first() else {
        return Ok(());
    };
    write!(text, "<{first}")?;
    for counter in inner {
        write!(text, ",{counter}")?;
    }
    write!(text, ">")?;
    Ok(())
}
