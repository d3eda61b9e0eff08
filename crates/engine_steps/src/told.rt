//! Commands of a keeper beside the workers of a pool.
use crate::error::StepError;
use crate::gate::Passage;
use crate::words::{batch_of, group_of, numbered};
use std::alloc::Global;
use td_keeper::Command;
use td_questions::read_question;

/// The passage of the words `open`, `sleep MILLISECONDS` or `meet`.
pub(crate) fn passage_of(text: &str) -> Option<Passage> {
    match text.split_once(' ').unwrap_or((text, "")) {
        ("open", "") => Some(Passage::Open),
        ("sleep", milliseconds) => Some(Passage::Sleep(milliseconds.parse().ok()?)),
        ("meet", "") => Some(Passage::Meet),
        _ => None,
    }
}

/// The commands of the lines of a text. A line that is empty or begins with `#` is passed over. Refusals: `Syntax`, where another
/// is no command, and `Memory`.
pub(crate) fn commands_of(alloc: Global, text: &str) -> Result<Vec<Command>, StepError> {
    let mut commands = Vec::new(alloc);
    for line in text.lines() {
        if !line.is_empty() && !line.starts_with('#') {
            commands.push(command_of(alloc, line)?)?;
        }
    }
    Ok(commands)
}

/// The command of a line.
fn command_of(alloc: Global, line: &str) -> Result<Command, StepError> {
    match line.split_once(' ').unwrap_or((line, "")) {
        ("submit", entries) => Ok(Command::Submit(batch_of(alloc, entries)?)),
        ("submit_as", words) => {
            let (request, entries) = numbered(words).ok_or(StepError::Syntax)?;
            Ok(Command::SubmitAs(request, batch_of(alloc, entries)?))
        }
        ("submit_all", group) => Ok(Command::SubmitAll(group_of(alloc, group)?)),
        ("release", "") => Ok(Command::Release),
        ("settle", "") => Ok(Command::Settle),
        ("collect", "") => Ok(Command::Collect),
        ("next_out", "") => Ok(Command::NextOut),
        ("cut", "") => Ok(Command::Cut),
        ("answer", question) => answer_to(question),
        ("write_cut", "") => Ok(Command::WriteCut),
        ("close_free", most) => Ok(Command::CloseFree(
            most.parse().map_err(|_| StepError::Syntax)?,
        )),
        _ => Err(StepError::Syntax),
    }
}

/// The command to answer a question.
fn answer_to(question: &str) -> Result<Command, StepError> {
    let question = read_question(question).ok_or(StepError::Syntax)?;
    match u8::try_from(question.vertex) {
        Ok(vertex) => Ok(Command::Answer(vertex, question.wanted)),
        Err(_) => Err(StepError::Syntax),
    }
}
