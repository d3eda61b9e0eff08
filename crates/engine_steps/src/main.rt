//! Halls and a keeper driven step by step: a plan and then commands come on standard input, and each command has its answer on
//! standard output. So rows of data test the calls of a hall, those of a keeper on a disk in memory that stops, fails and
//! crashes, and those of parts of which they are made: gated regions, rings of cells and tables of pointstamps (`rows/README.md`
//! has the commands). A command to which memory was refused says so, and is done once more.
#![tactic(auto)]

mod catalogue;
mod device;
mod drive;
mod error;
mod gate;
mod hall_calls;
mod hands;
mod inputs;
mod keeper_calls;
mod keeper_lines;
mod lines;
mod region_calls;
mod replies;
mod ring_calls;
mod stage;
mod stamp_words;
mod store;
mod table_calls;
mod told;
mod watch;
mod words;
mod worker;

use crate::error::StepError;
use crate::stage::Stage;
use crate::words::until_end;
use std::alloc::Global;
use std::io;
use std::sync::Wait;
use std::thread::Threads;
use std::time::Clock;
use td_plan::{Plan, PlanError};

fn main(rt: HostRuntime) -> Result<(), StepError> {
    let input = io::read_to_string(rt.alloc(), rt.reader())?;
    let Some((text, commands)) = input.as_str().split_once("--\n") else {
        return Err(StepError::Syntax);
    };
    let plan = plan_of(rt.alloc(), text)?;
    perform(&rt, rt.alloc(), plan, commands)
}

/// Does the commands of a text on a stage of its own. (The end of a stage is long to prove: so it stands in a function that does nothing else.)
fn perform<R: Print + Threads + Wait + Clock + Sync>(
    rt: &R,
    alloc: Global,
    plan: Plan,
    commands: &str,
) -> Result<(), StepError> {
    let mut stage = Stage::new(alloc, plan);
    play(rt, &mut stage, commands)
}

/// The plan of a text.
fn plan_of(alloc: Global, text: &str) -> Result<Plan, StepError> {
    match Plan::read(alloc, text) {
        Ok(plan) => Ok(plan),
        Err(PlanError::Memory) => Err(StepError::Memory),
        Err(_) => Err(StepError::Syntax),
    }
}

/// Does the commands of the lines of a text, one after another. A line that is empty or begins with `#` is passed over.
fn play<R: Print + Threads + Wait + Clock + Sync>(
    rt: &R,
    stage: &mut Stage,
    commands: &str,
) -> Result<(), StepError> {
    let mut rest = commands;
    for _line in 0..commands.len() {
        if rest.is_empty() {
            break;
        }
        let (line, others) = rest.split_once('\n').unwrap_or((rest, ""));
        rest = others;
        if !line.is_empty() && !line.starts_with('#') {
            let (name, words) = line.split_once(' ').unwrap_or((line, ""));
            let (lines, others) = lines_of(name, rest).ok_or(StepError::Syntax)?;
            rest = others;
            step(rt, stage, name, words, lines)?;
        }
    }
    Ok(())
}

/// The lines of a command of this name that are its own, those up to a line `end`, and the lines behind them.
fn lines_of<'a>(name: &str, rest: &'a str) -> Option<(&'a str, &'a str)> {
    if name == "drive" {
        until_end(rest)
    } else {
        Some(("", rest))
    }
}

/// Does a command, a second time where memory was refused.
fn step<R: Print + Threads + Wait + Clock + Sync>(
    rt: &R,
    stage: &mut Stage,
    name: &str,
    words: &str,
    lines: &str,
) -> Result<(), StepError> {
    match stage.step(rt, name, words, lines) {
        Err(StepError::Memory) => {
            println!(rt; "refused: memory")?;
            print_refusal(rt, stage.step(rt, name, words, lines))
        }
        answer => print_refusal(rt, answer),
    }
}

/// `refused: ..`, where a call was refused.
fn print_refusal(rt: &impl Print, answer: Result<(), StepError>) -> Result<(), StepError> {
    match answer {
        Err(StepError::Hall(refusal)) => Ok(println!(rt; "refused: {refusal}")?),
        Err(StepError::Task(refusal)) => Ok(println!(rt; "refused: {refusal}")?),
        Err(StepError::Keeper(refusal)) => Ok(println!(rt; "refused: {refusal}")?),
        Err(StepError::Region(refusal)) => Ok(println!(rt; "refused: {refusal}")?),
        Err(StepError::Ring(refusal)) => Ok(println!(rt; "refused: {refusal}")?),
        answer => answer,
    }
}
