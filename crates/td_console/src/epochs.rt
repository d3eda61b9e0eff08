//! The epochs of the data lines of an input.
ghost use Rattle.std.specs.Prelude.{◌≡◌, [], ◌⊎◌, ◌+◌, ◌<◌, ◌≤◌, ◌^◌, All, IsTrue, IfOk, IfErr, OnOk, MatchOption};
ghost use Rattle.std.specs.Prelude.{Some, None, Ok, Err, length};
ghost use Rattle.std.specs.List.{list_all};
ghost use Rattle.td_plan.specs.Text.{text_lines};
ghost use Rattle.td_plan.specs.Inputs.{is_input_of};
ghost use Rattle.td_console.specs.Data.{data_line_of, batches_of, data_fault};
ghost use Rattle.td_console.specs.CodeSteps.{IsFirstLine, no_epochs, with_data_line, closed_batches, read_from, IsOfInput};

use crate::data_line::{DataLine, is_input, plain_record, read_data_line};
use crate::faults::{Fault, LineFault};
use std::alloc::Global;
use std::marker::Model;
use std::mem;
use td_plan::Plan;
use td_plan::text::next_line;
use td_stamp::{Batch, Entry, Rec};

/// Epochs that were read so far.
#[derive(Drop)]
struct Epochs {
    // The batches of those that are closed, and the entries of the one which is not, in the order of their lines.
    closed: Vec<Batch>,
    current: Vec<Entry>,
    alloc: Global,
}

impl Model for Epochs {
    ghost use Rattle.td_console.specs.CodeSteps.{Epochs};

    ghost Value = { Epochs };

    ghost view = { λ e. record { closed = e.closed.items; current = e.current.items } };
}

impl Epochs {
    /// None.
    fn new(alloc: Global) -> Epochs
        ensures { result ≡ no_epochs }
    {
        Epochs {
            closed: Vec::new(alloc),
            current: Vec::new(alloc),
            alloc,
        }
    }

    /// Takes in what a line says, which has this number. Refusals: its fault; `Memory`.
    fn add(&mut self, plan: &Plan, number: u64, said: Option<DataLine>) -> Result<(), Fault>
        ensures ok { OnOk result (with_data_line plan.now number self.old said ≡ Ok self.new) }
        ensures few { OnOk result (length self.new.closed ≤ length self.old.closed + 1) }
        ensures err { IfErr result (λ f. (f ≡ Fault.Memory) ⊎ (with_data_line plan.now number self.old said ≡ Err f)) }
        ensures own { IfErr result IsOfInput }
    {
        match said {
            None => Err(Fault::Line(number, LineFault::Syntax)),
            Some(DataLine::PassedOver) => Ok(()),
            Some(DataLine::Close) => self.close(),
            Some(DataLine::Record(input, rec)) => self.add_record(plan, number, input, rec),
        }
    }

    /// Closes the one that is not. Refusal: `Memory`.
    fn close(&mut self) -> Result<(), Fault>
        ensures ok { OnOk result (with_data_line [] 0 self.old (Some DataLine.Close) ≡ Ok self.new) }
        ensures few { OnOk result (length self.new.closed ≤ length self.old.closed + 1) }
        ensures err { IfErr result (λ f. f ≡ Fault.Memory) }
    {
        let current = mem::replace(&mut self.current, Vec::new(self.alloc));
        self.closed.push(Batch::from_vec(self.alloc, current))?;
        Ok(())
    }

    /// Takes in a record. Refusals: `NoSuchInput`; `Memory`.
    fn add_record(&mut self, plan: &Plan, number: u64, input: u32, rec: Rec) -> Result<(), Fault>
        ensures ok { OnOk result (with_data_line plan.now number self.old (Some (DataLine.Record input rec)) ≡ Ok self.new) }
        ensures few { OnOk result (length self.new.closed ≤ length self.old.closed + 1) }
        ensures err { IfErr result (λ f. (f ≡ Fault.Memory) ⊎ (with_data_line plan.now number self.old (Some (DataLine.Record input rec)) ≡ Err f)) }
        ensures own { IfErr result IsOfInput }
    {
        if !is_input(plan, input) {
            return Err(Fault::Line(number, LineFault::NoSuchInput));
        }
        let input = input as u8;
        self.current.push(Entry { input, rec })?;
        Ok(())
    }

    /// The batches, where every epoch is closed. Refusal: `NotClosed` at the line with this number.
    fn finish(self, number: u64) -> Result<Vec<Batch>, Fault>
        ensures ok { IfOk result (λ batches. closed_batches number self.closed self.current ≡ Ok batches.items) }
        ensures same { IfOk result (λ batches. batches.items ≡ self.closed) }
        ensures err { IfErr result (λ f. closed_batches number self.closed self.current ≡ Err f) }
        ensures own { IfErr result IsOfInput }
    {
        if self.current.is_empty() {
            Ok(self.closed)
        } else {
            Err(Fault::Line(number, LineFault::NotClosed))
        }
    }
}

/// What the first line of a text says, if it has a form, and the text after that line.
fn first_data_line(text: &str) -> Option<(Option<DataLine>, &str)>
    ensures { MatchOption result (text_lines text.now ≡ []) (λ p. IsFirstLine text.now p.0 p.1.now) }
{
    match plain_record(text.as_bytes()) {
        Some((input, rec, others)) => {
            let (_line, rest) = text.split_at(text.len() - others.len());
            Some((Some(DataLine::Record(input, rec)), rest))
        }
        None => {
            let (line, rest) = next_line(text)?;
            Some((read_data_line(line), rest))
        }
    }
}

/// The batches of the epochs that data lines close, of which the first has the number `first`. Refusals: the first
/// fault; `Memory`.
pub(crate) fn read_batches(
    alloc: Global,
    plan: &Plan,
    text: &str,
    first: u64,
) -> Result<Vec<Batch>, Fault>
    requires fits { first + length text.now < 2 ^ 64 }
    ensures ok { IfOk result (λ batches. batches.items ≡ batches_of (text_lines text.now)) }
    ensures faultless { OnOk result (data_fault plan.now first (text_lines text.now) ≡ None) }
    ensures accepted { IfOk result (λ batches. All (λ batch. IsTrue (list_all (λ e. is_input_of plan.now e.input) batch)) batches.items) }
    ensures few { IfOk result (λ batches. length batches.items ≤ length text.now) }
    ensures err { IfErr result (λ f. (f ≡ Fault.Memory) ⊎ (data_fault plan.now first (text_lines text.now) ≡ Some f)) }
    ensures own { IfErr result IsOfInput }
{
    read_each(alloc, plan, text, first)
}

/// The same, line by line. It stands apart, since it answers by the code's own steps; that these come to the batches and
/// the first fault of all lines is what `read_batches` adds.
fn read_each(alloc: Global, plan: &Plan, text: &str, first: u64) -> Result<Vec<Batch>, Fault>
    requires fits { first + length text.now < 2 ^ 64 }
    ensures ok { IfOk result (λ batches. read_from plan.now first no_epochs (text_lines text.now) ≡ Ok batches.items) }
    ensures few { IfOk result (λ batches. length batches.items ≤ length text.now) }
    ensures err { IfErr result (λ f. (f ≡ Fault.Memory) ⊎ (read_from plan.now first no_epochs (text_lines text.now) ≡ Err f)) }
    ensures own { IfErr result IsOfInput }
{
    let mut epochs = Epochs::new(alloc);
    let mut number = first;
    let mut rest = text;
    while let Some((said, others)) = first_data_line(rest) {
        epochs.add(plan, number, said)?;
        number += 1;
        rest = others;
    }
    epochs.finish(number)
}
