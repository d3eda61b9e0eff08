//! The reader of plan texts: a pass over the lines, and one over the feedbacks.
//!
//! The functions compute `answer_of` of `specs/Steps/Reading.antt`, word by word and line by line. Laws show that this is the one
//! answer of the relations that say what a plan's text and its fault are. No definition of a plan rests on `specs/Steps`.
//!
//! A feedback's source may be any number until the second pass. So a draft keeps sources as they are written. After that pass
//! each source is the number of a vertex, and a plan is made of the draft.
ghost use Rattle.std.specs.Prelude.{◌≡◌, ◌⊎◌, ◌++◌, None, Ok, Err, true, IfOk, OnOk, IfErr, find, option_map};
ghost use Rattle.std.specs.List.{list_any};
ghost use Rattle.td_plan.specs.Lines.{has_form};
ghost use Rattle.td_plan.specs.Lines.Line.{vertex, loop, end};
ghost use Rattle.td_plan.specs.Blocks.{scope_of, vertices};
ghost use Rattle.td_plan.specs.Faults.{fault_of, has_ends, is_input, is_output};
ghost use Rattle.td_plan.specs.Texts.{PlanText, PlanFault};
ghost use Rattle.td_plan.specs.Steps.Reading.{Answers, error_of, no_draft, feedback_of, is_stray_at, line_or_fault};
ghost use Rattle.td_plan.specs.Steps.Reading.{with_text, with_line, first_pass, second_pass, stray_line, answer_of};
ghost use Rattle.td_plan.specs.Steps.Written.{written_line};

use crate::error::PlanError;
use crate::line::{Written, WrittenLine, read_line};
use crate::mark::Mark;
use crate::scope::{Scope, Standing};
use crate::text::{is_passed_over, next_line};
use crate::vertex::Loop;
use std::alloc::Global;
use std::marker::Model;

/// A feedback, by the number of its line in the text and its own number.
#[derive(Clone, Copy, Debug)]
pub(crate) struct Feedback {
    pub line: u64,
    pub number: u32,
}

/// The lines of a plan that were read so far, without a fault that the first pass tells.
#[derive(Drop)]
pub(crate) struct Draft {
    pub marks: Vec<Mark>,
    pub scope: Scope,
    pub loops: Vec<Loop>,
    pub feedbacks: Vec<Feedback>,
}

impl Model for Draft {
    ghost use Rattle.td_plan.specs.Steps.Reading.{Draft as AnyDraft};

    ghost Value = { AnyDraft };

    ghost use Rattle.td_plan.specs.Marks.{lines_of_marks};
    ghost use Rattle.td_plan.specs.Steps.Inside.{AreRead};

    ghost view = { λ d. record { lines = lines_of_marks d.marks.items d.scope.vertices; feedbacks = d.feedbacks.items } };

    ghost invariant = { λ d. AreRead (lines_of_marks d.marks.items d.scope.vertices) d.marks.items d.scope d.loops.items };
}

impl Draft {
    /// No lines.
    fn new(alloc: Global) -> Draft
        ensures { result ≡ no_draft }
    {
        Draft {
            marks: Vec::new(alloc),
            scope: Scope::new(alloc),
            loops: Vec::new(alloc),
            feedbacks: Vec::new(alloc),
        }
    }

    /// With what line `number` of the text adds. Refusals: its first fault; `Memory`.
    fn with_text(self, alloc: Global, number: u64, text: &str) -> Result<Draft, PlanError>
        ensures { Answers result (with_text self number text.now) }
    {
        if is_passed_over(text) {
            return Ok(self);
        }
        match read_line(alloc, text)? {
            Some(line) => self.with_line(number, line),
            None => Err(PlanError::Syntax(number)),
        }
    }

    /// The first fault of a further line, which is line `number` of the text.
    fn fault(&self, number: u64, line: &WrittenLine) -> Option<PlanError>
        ensures { result ≡ option_map (λ fault. error_of fault number) (fault_of (scope_of self.now.lines) (written_line line.now)) }
    {
        self.scope.fault(number, line)
    }

    /// With one line more, which is line `number` of the text. Refusals: its first fault; `Memory`.
    fn with_line(self, number: u64, line: WrittenLine) -> Result<Draft, PlanError>
        requires { has_form (written_line line) ≡ true }
        ensures { Answers result (with_line self number (written_line line)) }
    {
        if let Some(fault) = self.fault(number, &line) {
            return Err(fault);
        }
        match line {
            WrittenLine::Vertex(written) => self.with_vertex(number, written),
            WrittenLine::Loop(bound) => self.with_head(number, bound),
            WrittenLine::End => self.with_end(number),
        }
    }

    /// With a vertex that has no fault. Refusal: `Memory`.
    fn with_vertex(self, number: u64, written: Written) -> Result<Draft, PlanError>
        requires form { has_form (vertex written) ≡ true }
        requires faultless { fault_of (scope_of self.lines) (vertex written) ≡ None }
        ensures { Answers result (line_or_fault self number (vertex written) None) }
    {
        let Draft {
            mut marks,
            scope,
            loops,
            mut feedbacks,
        } = self;
        add_feedback(&mut feedbacks, number, &written)?;
        marks.push(Mark::Vertex)?;
        let scope = scope.with_vertex(written)?;
        Ok(Draft {
            marks,
            scope,
            loops,
            feedbacks,
        })
    }

    /// With the head of a loop, which has no fault. Refusal: `Memory`.
    fn with_head(self, number: u64, bound: u32) -> Result<Draft, PlanError>
        requires form { has_form (loop bound) ≡ true }
        requires faultless { fault_of (scope_of self.lines) (loop bound) ≡ None }
        ensures { Answers result (line_or_fault self number (loop bound) None) }
    {
        let Draft {
            mut marks,
            scope,
            mut loops,
            feedbacks,
        } = self;
        let opened = scope.opened(bound);
        loops.push(opened)?;
        marks.push(Mark::Loop(opened.bound))?;
        Ok(Draft {
            marks,
            scope: scope.in_loop(opened),
            loops,
            feedbacks,
        })
    }

    /// With the end of a loop, which has no fault. Refusal: `Memory`.
    fn with_end(self, number: u64) -> Result<Draft, PlanError>
        requires { fault_of (scope_of self.lines) end ≡ None }
        ensures { Answers result (line_or_fault self number end None) }
    {
        let Draft {
            mut marks,
            scope,
            loops,
            feedbacks,
        } = self;
        marks.push(Mark::End)?;
        Ok(Draft {
            marks,
            scope: scope.around_loop(),
            loops,
            feedbacks,
        })
    }

    /// The line of the first feedback whose source is no vertex, or is not read on the feedback's block.
    fn stray_line(&self) -> Option<u64>
        ensures { result ≡ stray_line self.now }
    {
        first_stray(&self.scope, self.feedbacks.as_slice())
    }

    /// The second pass. Refusals: `Again`, for the first feedback whose source is not read on its block;
    /// `NoInputOrOutput`.
    fn checked(self) -> Result<Draft, PlanError>
        ensures ok { IfOk result (λ draft. second_pass self ≡ Ok draft.lines) }
        ensures refused { IfErr result (λ e. second_pass self ≡ Err e) }
    {
        if let Some(line) = self.stray_line() {
            return Err(PlanError::Again(line));
        }
        if !self.has_ends() {
            return Err(PlanError::NoInputOrOutput);
        }
        Ok(self)
    }

    /// Whether some vertex is an input, and some an output.
    fn has_ends(&self) -> bool
        ensures { result ≡ has_ends (vertices self.now.lines) }
    {
        has_input(self.scope.vertices()) && has_output(self.scope.vertices())
    }
}

/// The line of the first of these feedbacks whose source is no vertex, or is not read on the feedback's block.
fn first_stray(scope: &Scope, feedbacks: &[Feedback]) -> Option<u64>
    ensures { result ≡ option_map (λ f. f.line) (find (λ f. is_stray_at scope.now.vertices f.number) feedbacks.now) }
{
    for feedback in feedbacks {
        if scope.is_stray(feedback.number) {
            return Some(feedback.line);
        }
    }
    None
}

fn has_input(vertices: &[Standing]) -> bool
    ensures { result ≡ list_any (λ p. is_input p.vertex.kind) vertices.now }
{
    vertices.iter().any(|v| v.written().kind().is_input())
}

fn has_output(vertices: &[Standing]) -> bool
    ensures { result ≡ list_any (λ p. is_output p.vertex.kind) vertices.now }
{
    vertices.iter().any(|v| v.written().kind().is_output())
}

/// Adds a vertex, whose line is line `line` of the text, if it is a feedback. Refusal: `Memory`.
fn add_feedback(
    feedbacks: &mut Vec<Feedback>,
    line: u64,
    written: &Written,
) -> Result<(), PlanError>
    ensures ok { OnOk result (feedbacks.new.items ≡ feedbacks.old.items ++ feedback_of line (vertex written.now)) }
    ensures err { IfErr result (λ e. e ≡ PlanError.Memory) }
{
    if written.kind().is_feedback() {
        feedbacks.push(Feedback {
            line,
            number: written.number(),
        })?;
    }
    Ok(())
}

/// The first pass. Refusals: the first fault of a line; `Syntax`, where a loop is open at the end; `Memory`.
fn read_each(alloc: Global, text: &str) -> Result<Draft, PlanError>
    ensures { Answers result (first_pass text.now) }
{
    let mut draft = Draft::new(alloc);
    let mut number: u64 = 0;
    let mut rest = text;
    while let Some((line, others)) = next_line(rest) {
        number += 1;
        draft = draft.with_text(alloc, number, line)?;
        rest = others;
    }
    if draft.scope.is_in_loop() {
        return Err(PlanError::Syntax(number + 1));
    }
    Ok(draft)
}

/// The lines of the plan that a text spells. Refusals: why it spells none; `Memory`.
pub(crate) fn read_draft(alloc: Global, text: &str) -> Result<Draft, PlanError>
    ensures ok { IfOk result (λ draft. PlanText text.now draft.lines) }
    ensures refused { IfErr result (λ e. (e ≡ PlanError.Memory) ⊎ PlanFault text.now e) }
{
    read_both(alloc, text)
}

fn read_both(alloc: Global, text: &str) -> Result<Draft, PlanError>
    ensures ok { IfOk result (λ draft. answer_of text.now ≡ Ok draft.lines) }
    ensures refused { IfErr result (λ e. (e ≡ PlanError.Memory) ⊎ (answer_of text.now ≡ Err e)) }
{
    read_each(alloc, text)?.checked()
}
