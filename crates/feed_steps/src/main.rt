//! Feeds of a disk in memory that stops and crashes: a plan and then commands come on standard input, and each command has its
//! answer on standard output. So rows of data test what a feed leaves on such a disk (`rows/README.md` has the commands). A command
//! to which memory was refused says so, and is done once more, but a feed.
#![tactic(auto)]

mod catalogue;
mod command;
mod error;
mod lines;
mod meeting;
mod stage;

use crate::command::{Command, next_command};
use crate::error::StepError;
use crate::stage::Stage;
use std::alloc::Global;
use std::io;
use std::sync::Wait;
use std::thread::Threads;
use td_plan::{Plan, PlanError};

fn main(rt: HostRuntime) -> Result<(), StepError> {
    let input = io::read_to_string(rt.alloc(), rt.reader())?;
    let Some((text, commands)) = input.as_str().split_once("--\n") else {
        return Err(StepError::Syntax);
    };
    let plan = plan_of(rt.alloc(), text)?;
    let mut stage = Stage::new(rt.alloc(), plan);
    play(&rt, &mut stage, commands)
}

/// The plan of a text.
fn plan_of(alloc: Global, text: &str) -> Result<Plan, StepError> {
    match Plan::read(alloc, text) {
        Ok(plan) => Ok(plan),
        Err(PlanError::Memory) => Err(StepError::Memory),
        Err(_) => Err(StepError::Syntax),
    }
}

/// Does the commands of the lines of a text, one after another. A line that is empty or begins with `#` is passed over.
fn play<R: Print + Threads + Wait + Sync>(
    rt: &R,
    stage: &mut Stage,
    commands: &str,
) -> Result<(), StepError> {
    let mut rest = commands;
    for _line in 0..commands.len() {
        if rest.is_empty() {
            break;
        }
        let (line, others) = rest.split_once('\n').unwrap_or((rest, ""));
        rest = others;
        if !line.is_empty() && !line.starts_with('#') {
            let (command, others) = next_command(line, rest).ok_or(StepError::Syntax)?;
            rest = others;
            step(rt, stage, command)?;
        }
    }
    Ok(())
}

/// Does a command, a second time where memory was refused.
fn step<R: Print + Threads + Wait + Sync>(
    rt: &R,
    stage: &mut Stage,
    command: Command<'_>,
) -> Result<(), StepError> {
    match stage.step(rt, command) {
        Err(StepError::Memory) => {
            println!(rt; "refused: memory")?;
            print_refusal(rt, stage.step(rt, command))
        }
        answer => print_refusal(rt, answer),
    }
}

/// `refused: ..`, which is an answer.
fn print_refusal(rt: &impl Print, answer: Result<(), StepError>) -> Result<(), StepError> {
    match answer {
        Err(StepError::Refused(fault)) => Ok(println!(rt; "refused: {fault}")?),
        answer => answer,
    }
}
