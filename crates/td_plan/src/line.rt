//! One line of a plan text.
ghost use Rattle.std.specs.Prelude.{◌≡◌, nat_le, true, IfOk, IfErr, IfSome, option_map};
ghost use Rattle.std.specs.List.{list_any};
ghost use Rattle.td_plan.specs.Text.{words};
ghost use Rattle.td_plan.specs.Lines.{has_form, has_arity};
ghost use Rattle.td_plan.specs.Steps.Words.{line_of, head_of, end_of, with_kind, kind_of, code_of, plain_kind, coded_kind, numbers_of};
ghost use Rattle.td_plan.specs.Steps.Written.{written_line, kind_words, rest_words};

use crate::error::PlanError;
use crate::text::{next_word, number};
use crate::vertex::Kind;
use std::alloc::Global;
use std::marker::Model;

/// A vertex as its line has it: with any number and any sources.
#[derive(Drop)]
pub(crate) struct Written {
    number: u32,
    kind: Kind,
    sources: Vec<u32>,
}

impl Model for Written {
    ghost use Rattle.td_plan.specs.Lines.{Vertex};

    ghost Value = { Vertex };

    ghost view = { λ w. record { number = w.number; kind = w.kind; sources = w.sources.items } };
}

impl Written {
    pub(crate) fn number(&self) -> u32
        ensures { result ≡ self.now.number }
    {
        self.number
    }

    pub(crate) fn kind(&self) -> Kind
        ensures { result ≡ self.now.kind }
    {
        self.kind
    }

    pub(crate) fn sources(&self) -> &[u32]
        ensures { result.now ≡ self.now.sources }
    {
        self.sources.as_slice()
    }

    /// Whether some source is this number, or a greater one.
    pub(crate) fn has_source_from(&self, number: u32) -> bool
        ensures { result ≡ list_any (λ s. nat_le number s) self.now.sources }
    {
        self.sources.iter().any(|source| *source >= number)
    }
}

/// A line as it is written.
#[derive(Drop)]
pub(crate) enum WrittenLine {
    Vertex(Written),
    Loop(u32),
    End,
}

/// The line that is written here, if it has one of the forms. Refusal: `Memory`.
pub(crate) fn read_line(alloc: Global, line: &str) -> Result<Option<WrittenLine>, PlanError>
    ensures exact { IfOk result (λ read. option_map written_line read ≡ line_of (words line.now)) }
    ensures form { IfOk result (λ read. IfSome read (λ w. has_form (written_line w) ≡ true)) }
    ensures err { IfErr result (λ e. e ≡ PlanError.Memory) }
{
    read_words(alloc, line)
}

fn read_words(alloc: Global, line: &str) -> Result<Option<WrittenLine>, PlanError>
    ensures ok { IfOk result (λ read. option_map written_line read ≡ line_of (words line.now)) }
    ensures err { IfErr result (λ e. e ≡ PlanError.Memory) }
{
    let Some((word, rest)) = next_word(line) else {
        return Ok(None);
    };
    if word == "loop" {
        return Ok(read_head(rest));
    }
    if word == "end" {
        return Ok(read_end(rest));
    }
    match number(word) {
        Some(number) => read_vertex(alloc, number, rest),
        None => Ok(None),
    }
}

/// The head of a loop, from what follows its name.
fn read_head(rest: &str) -> Option<WrittenLine>
    ensures { option_map written_line result ≡ head_of (words rest.now) }
{
    let (word, rest) = next_word(rest)?;
    match next_word(rest) {
        None => Some(WrittenLine::Loop(number(word)?)),
        Some(_) => None,
    }
}

/// The end of a loop, where no word is left.
fn read_end(rest: &str) -> Option<WrittenLine>
    ensures { option_map written_line result ≡ end_of (words rest.now) }
{
    match next_word(rest) {
        None => Some(WrittenLine::End),
        Some(_) => None,
    }
}

/// A vertex, from what follows its number. Refusal: `Memory`.
fn read_vertex(alloc: Global, number: u32, rest: &str) -> Result<Option<WrittenLine>, PlanError>
    ensures ok { IfOk result (λ read. option_map written_line read ≡ with_kind number (kind_of (words rest.now))) }
    ensures err { IfErr result (λ e. e ≡ PlanError.Memory) }
{
    let Some((kind, rest)) = read_kind(rest) else {
        return Ok(None);
    };
    match read_sources(alloc, rest)? {
        Some(sources) if has_arity(kind, sources.len()) => {
            Ok(Some(WrittenLine::Vertex(Written {
                number,
                kind,
                sources,
            })))
        }
        _ => Ok(None),
    }
}

/// The kind that the next words write, and what follows them.
fn read_kind(line: &str) -> Option<(Kind, &str)>
    ensures { option_map kind_words result ≡ kind_of (words line.now) }
{
    let (name, rest) = next_word(line)?;
    if let Some(kind) = plain_kind(name) {
        return Some((kind, rest));
    }
    let (code, rest) = read_code(rest)?;
    Some((coded_kind(name, code)?, rest))
}

/// The kind of this name, of those without a code.
fn plain_kind(name: &str) -> Option<Kind>
    ensures { result ≡ plain_kind name.now }
{
    if name == "input" {
        return Some(Kind::Input);
    }
    if name == "distinct" {
        return Some(Kind::Distinct);
    }
    if name == "enter" {
        return Some(Kind::Enter);
    }
    if name == "feedback" {
        return Some(Kind::Feedback);
    }
    if name == "leave" {
        return Some(Kind::Leave);
    }
    if name == "output" {
        return Some(Kind::Output);
    }
    None
}

/// The kind of this name and code, of those with one.
fn coded_kind(name: &str, code: u16) -> Option<Kind>
    ensures { result ≡ coded_kind name.now code }
{
    if name == "map" {
        return Some(Kind::Map(code));
    }
    if name == "group" {
        return Some(Kind::Group(code));
    }
    if name == "fold" {
        return Some(Kind::Fold(code));
    }
    None
}

/// The code that is the first word left, and what follows it.
fn read_code(rest: &str) -> Option<(u16, &str)>
    ensures { option_map rest_words result ≡ code_of (words rest.now) }
{
    let (word, rest) = next_word(rest)?;
    let code = number(word)?;
    if code <= 65535 {
        Some((code as u16, rest))
    } else {
        None
    }
}

/// The numbers that all words left write. Refusal: `Memory`.
fn read_sources(alloc: Global, rest: &str) -> Result<Option<Vec<u32>>, PlanError>
    ensures ok { IfOk result (λ read. option_map (λ sources. sources.items) read ≡ numbers_of (words rest.now)) }
    ensures err { IfErr result (λ e. e ≡ PlanError.Memory) }
{
    let mut sources = Vec::new(alloc);
    let mut left = rest;
    while let Some((word, others)) = next_word(left) {
        let Some(source) = number(word) else {
            return Ok(None);
        };
        sources.push(source)?;
        left = others;
    }
    Ok(Some(sources))
}

/// Whether the form of a kind has so many sources.
fn has_arity(kind: Kind, count: usize) -> bool
    ensures { result ≡ has_arity kind count }
{
    match kind {
        Kind::Input => count == 0,
        Kind::Enter | Kind::Leave => count == 1,
        Kind::Feedback => true,
        Kind::Map(_) | Kind::Distinct | Kind::Group(_) | Kind::Fold(_) | Kind::Output => count > 0,
    }
}
