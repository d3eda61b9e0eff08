//! What a text says up to a line, and what a line more adds.
ghost use Rattle.std.specs.Prelude.{◌≡◌, ◌++◌, true, map, option_map, option_to_list, IfOk, IfErr, OnOk, Some, Ok, Err};
ghost use Rattle.td_formula.specs.Written.{is_kind};
ghost use Rattle.td_closures.specs.Words.{is_blank, is_fold, has_items};
ghost use Rattle.td_closures.specs.Drafts.{no_draft, new_closure, closures_of, has_closure, with_head, with_lets, with_item, with_each, with_send, with_keep, is_keep, with_part, in_last, with_line, kind_of, is_long, is_node, nodes_in};
ghost use Rattle.td_closures.specs.Texts.{says_nothing, with_tokens, with_text, at_line};
ghost use Rattle.td_closures.specs.Kept.{Answers, Leaves, LeavesText, assigned_by, paired_by, said_by, line_by, draft_by};
ghost use Rattle.td_closures.specs.declared.fault.Wrong.TheVariants.{Memory};

use crate::fault::{Fault, Wrong};
use crate::line::{WrittenLine, read_line};
use crate::token::Token;
use crate::words::{Registers, is_blank, line_scope, spaced, text_tokens};
use std::alloc::Global;
use std::mem;
use td_formula::{Assignment, Closure, ClosureKind, Expression, Name, Pair};

/// How many bytes all lines have at most, each with a line feed.
const TEXT: usize = 1_048_577;

/// How many bytes a line has at most.
const LINE: usize = 4_096;

/// How many numbers, names and operators a text has at most.
const NODES: usize = 4_096;

/// How many closures a text has at most.
const CLOSURES: usize = 256;

/// How many lines `send` a closure has at most.
const SENDS: usize = 8;

/// The closures before the last one, and that one: whether it has its line `keep`, and its registers; and how many bytes and how
/// many nodes are left.
#[derive(Drop)]
pub(crate) struct Draft {
    done: Vec<Closure>,
    last: Option<Closure>,
    kept: bool,
    registers: Registers,
    bytes: usize,
    nodes: usize,
}

/// Whether two kinds are the same.
fn is_kind(wanted: ClosureKind, kind: ClosureKind) -> bool
    ensures { result ≡ is_kind wanted kind }
{
    match (wanted, kind) {
        (ClosureKind::Map, ClosureKind::Map) => true,
        (ClosureKind::Group, ClosureKind::Group) => true,
        (ClosureKind::Fold, ClosureKind::Fold) => true,
        _ => false,
    }
}

/// Whether a closure of this kind and code is among these.
fn has_closure(kind: ClosureKind, code: u16, closures: &[Closure]) -> bool
    ensures { result ≡ has_closure kind code (map said_by closures.now) }
{
    let mut rest = closures;
    while let [closure, others @ ..] = rest {
        if is_kind(kind, closure.kind) && closure.code == code {
            return true;
        }
        rest = others;
    }
    false
}

/// A closure of which only the head is read. It takes no memory.
fn new_closure(alloc: Global, kind: ClosureKind, code: u16) -> Closure
    ensures { said_by result ≡ new_closure kind code }
{
    Closure {
        kind,
        code,
        lets: Vec::new(alloc),
        changes: Vec::new(alloc),
        each: Vec::new(alloc),
        sends: Vec::new(alloc),
        keep: Pair {
            first: Expression::Named(Name::A),
            second: Expression::Named(Name::B),
            when: Expression::Number(1),
        },
    }
}

/// Whether a closure has items.
fn has_items(kind: ClosureKind) -> bool
    ensures { result ≡ has_items (Some kind) }
{
    match kind {
        ClosureKind::Map => false,
        ClosureKind::Group | ClosureKind::Fold => true,
    }
}

/// Whether a closure has a state.
fn is_fold(kind: ClosureKind) -> bool
    ensures { result ≡ is_fold (Some kind) }
{
    match kind {
        ClosureKind::Map | ClosureKind::Group => false,
        ClosureKind::Fold => true,
    }
}

/// The closure goes, and this is why. That it goes is proved here alone, and not where each line is refused.
fn refuse(_closure: Closure, wrong: Wrong) -> Result<Closure, Wrong>
    ensures { result ≡ Err wrong }
{
    Err(wrong)
}

/// With these registers. Refusal: `Memory`.
fn with_lets(closure: Closure, lets: Vec<Assignment>) -> Result<Closure, Wrong>
    ensures ok { IfOk result (λ c. said_by c ≡ with_lets (said_by closure) (map assigned_by lets.items)) }
    ensures err { IfErr result (λ w. w ≡ Memory) }
{
    let mut closure = closure;
    let mut lets = lets;
    match closure.lets.append(&mut lets) {
        Ok(()) => Ok(closure),
        Err(_) => refuse(closure, Wrong::Memory),
    }
}

/// With these changes. Refusals: `Syntax`, in a map; `Memory`.
fn with_item(closure: Closure, changes: Vec<Assignment>) -> Result<Closure, Wrong>
    ensures { Answers said_by result (with_item (said_by closure) (map assigned_by changes.items)) }
{
    if !has_items(closure.kind) {
        return refuse(closure, Wrong::Syntax);
    }
    let mut closure = closure;
    let mut changes = changes;
    match closure.changes.append(&mut changes) {
        Ok(()) => Ok(closure),
        Err(_) => refuse(closure, Wrong::Memory),
    }
}

/// With a record at each item. Refusals: `Syntax`, in a map; `Memory`.
fn with_each(closure: Closure, pair: Pair) -> Result<Closure, Wrong>
    ensures { Answers said_by result (with_each (said_by closure) (paired_by pair)) }
{
    if !has_items(closure.kind) {
        return refuse(closure, Wrong::Syntax);
    }
    let mut closure = closure;
    match closure.each.push(pair) {
        Ok(()) => Ok(closure),
        Err(_) => refuse(closure, Wrong::Memory),
    }
}

/// With a record at the end. Refusals: `TooMany`, for the ninth; `Memory`.
fn with_send(closure: Closure, pair: Pair) -> Result<Closure, Wrong>
    ensures { Answers said_by result (with_send (said_by closure) (paired_by pair)) }
{
    if closure.sends.len() >= SENDS {
        return refuse(closure, Wrong::TooMany);
    }
    let mut closure = closure;
    match closure.sends.push(pair) {
        Ok(()) => Ok(closure),
        Err(_) => refuse(closure, Wrong::Memory),
    }
}

/// With a state at the end. Refusals: `Syntax`, where it is no fold; `TooMany`, for the second.
fn with_keep(closure: Closure, kept: bool, pair: Pair) -> Result<Closure, Wrong>
    ensures { Answers said_by result (with_keep (said_by closure) kept (paired_by pair)) }
{
    if !is_fold(closure.kind) {
        return refuse(closure, Wrong::Syntax);
    }
    if kept {
        return refuse(closure, Wrong::TooMany);
    }
    let mut closure = closure;
    closure.keep = pair;
    Ok(closure)
}

impl WrittenLine {
    /// Whether it is a line `keep`.
    fn is_keep(&self) -> bool
        ensures { result ≡ is_keep (line_by self.now) }
    {
        match self {
            WrittenLine::Keep(_) => true,
            WrittenLine::Head(_, _)
            | WrittenLine::Let(_)
            | WrittenLine::Item(_)
            | WrittenLine::Each(_)
            | WrittenLine::Send(_) => false,
        }
    }
}

/// With a line that is no head. Refusals as of those.
fn with_part(closure: Closure, kept: bool, line: WrittenLine) -> Result<Closure, Wrong>
    ensures { Answers said_by result (with_part (said_by closure) kept (line_by line)) }
{
    match line {
        WrittenLine::Head(_, _) => refuse(closure, Wrong::Syntax),
        WrittenLine::Let(lets) => with_lets(closure, lets),
        WrittenLine::Item(changes) => with_item(closure, changes),
        WrittenLine::Each(pair) => with_each(closure, pair),
        WrittenLine::Send(pair) => with_send(closure, pair),
        WrittenLine::Keep(pair) => with_keep(closure, kept, pair),
    }
}

/// All closures, the last one too. Refusal: `Memory`.
fn with_last(done: Vec<Closure>, last: Option<Closure>) -> Result<Vec<Closure>, Wrong>
    ensures ok { IfOk result (λ all. map said_by all.items ≡ map said_by done.items ++ option_to_list (option_map said_by last)) }
    ensures err { IfErr result (λ w. w ≡ Memory) }
{
    let mut all = done;
    if let Some(closure) = last {
        all.push(closure)?;
    }
    Ok(all)
}

impl Token {
    /// Whether it is a number, a name or an operator.
    fn is_node(self) -> bool
        ensures { result ≡ is_node self }
    {
        match self {
            Token::Number(_)
            | Token::Named(_)
            | Token::Infix(_)
            | Token::Prefix(_)
            | Token::Call(_)
            | Token::If => true,
            _ => false,
        }
    }
}

/// How many numbers, names and operators there are.
fn count_nodes(tokens: &[Token]) -> usize
    ensures { result ≡ nodes_in tokens.now }
{
    tokens.iter().filter(|token| token.is_node()).count()
}

/// Whether a line has no words.
fn says_nothing(tokens: &[Token]) -> bool
    ensures { result ≡ says_nothing tokens.now }
{
    match tokens {
        [token] => matches!(token, Token::End),
        _ => false,
    }
}

impl Draft {
    /// Nothing.
    pub(crate) fn new(alloc: Global) -> Draft
        ensures { draft_by result ≡ no_draft }
    {
        Draft {
            done: Vec::new(alloc),
            last: None,
            kept: false,
            registers: Registers::new(alloc),
            bytes: TEXT,
            nodes: NODES,
        }
    }

    /// The closures. Refusal: `Memory`.
    pub(crate) fn into_closures(self) -> Result<Vec<Closure>, Wrong>
        ensures ok { IfOk result (λ all. map said_by all.items ≡ closures_of (draft_by self)) }
        ensures err { IfErr result (λ w. w ≡ Memory) }
    {
        with_last(self.done, self.last)
    }

    /// The kind of the last closure.
    fn kind(&self) -> Option<ClosureKind>
        ensures { result ≡ kind_of (draft_by self.now) }
    {
        match &self.last {
            Some(closure) => Some(closure.kind),
            None => None,
        }
    }

    /// With the head of a closure. Refusals: `Code`, for one that is there; `TooMany`, for the 257th; `Memory`.
    fn with_head(self, alloc: Global, kind: ClosureKind, code: u16) -> Result<Draft, Wrong>
        ensures { Answers draft_by result (with_head (draft_by self) kind code) }
    {
        let Draft {
            done,
            last,
            kept: _,
            registers: _,
            bytes,
            nodes,
        } = self;
        let all = with_last(done, last)?;
        if has_closure(kind, code, all.as_slice()) {
            return Err(Wrong::Code);
        }
        if all.len() >= CLOSURES {
            return Err(Wrong::TooMany);
        }
        Ok(Draft {
            done: all,
            last: Some(new_closure(alloc, kind, code)),
            kept: false,
            registers: Registers::new(alloc),
            bytes,
            nodes,
        })
    }

    /// With a line of the last closure. Refusals: `Syntax`, where none has begun; as `with_part`.
    fn in_last(self, line: WrittenLine) -> Result<Draft, Wrong>
        ensures { Answers draft_by result (in_last (draft_by self) (draft_by self).last (line_by line)) }
    {
        let Draft {
            done,
            last,
            kept,
            registers,
            bytes,
            nodes,
        } = self;
        let Some(closure) = last else {
            return Err(Wrong::Syntax);
        };
        let is_keep = line.is_keep();
        let closure = with_part(closure, kept, line)?;
        Ok(Draft {
            done,
            last: Some(closure),
            kept: kept || is_keep,
            registers,
            bytes,
            nodes,
        })
    }

    /// With one line more. Refusals as of those two.
    fn with_line(self, alloc: Global, line: WrittenLine) -> Result<Draft, Wrong>
        ensures { Answers draft_by result (with_line (draft_by self) (line_by line)) }
    {
        match line {
            WrittenLine::Head(kind, code) => self.with_head(alloc, kind, code),
            part => self.in_last(part),
        }
    }

    /// With the line of these tokens. Refusals: `TooMany`, for a node too many; as `read_line` and `with_line`.
    fn with_tokens(self, alloc: Global, tokens: &[Token]) -> Result<Draft, Wrong>
        ensures { Answers draft_by result (with_tokens (draft_by self) tokens.now) }
    {
        if says_nothing(tokens) {
            return Ok(self);
        }
        let nodes = count_nodes(tokens);
        if nodes > self.nodes {
            return Err(Wrong::TooMany);
        }
        let line = read_line(alloc, tokens)?;
        let mut draft = self;
        draft.nodes -= nodes;
        draft.with_line(alloc, line)
    }

    /// Whether a line is too long.
    fn is_long(&self, line: &str) -> bool
        ensures { result ≡ is_long (draft_by self.now) line.now }
    {
        line.len() > LINE || line.len() >= self.bytes
    }

    /// With a line of the text. Refusals: `TooMany`, where it is too long; as `with_tokens`.
    fn with_text(self, alloc: Global, line: &str) -> Result<Draft, Wrong>
        ensures { Answers draft_by result (with_text (draft_by self) line.now) }
    {
        if self.is_long(line) {
            return Err(Wrong::TooMany);
        }
        let text = spaced(alloc, line.as_bytes())?;
        let scope = line_scope(self.kind(), text.as_str());
        let Draft {
            done,
            last,
            kept,
            registers,
            bytes,
            nodes,
        } = self;
        let (tokens, registers) = text_tokens(alloc, scope, registers, text.as_str())?;
        let draft = Draft {
            done,
            last,
            kept,
            registers,
            bytes: (bytes - line.len()).saturating_sub(1),
            nodes,
        };
        draft.with_tokens(alloc, tokens.as_slice())
    }

    /// With a line of no words, which takes its bytes alone. Refusal: `TooMany`, where it is too long.
    fn pass_over(&mut self, line: &str) -> Result<(), Wrong>
        requires { is_blank line.now ≡ true }
        ensures ok { OnOk result (with_text (draft_by self.old) line.now ≡ Ok (draft_by self.new)) }
        ensures err { IfErr result (λ w. with_text (draft_by self.old) line.now ≡ Err w) }
    {
        if self.is_long(line) {
            return Err(Wrong::TooMany);
        }
        self.bytes = (self.bytes - line.len()).saturating_sub(1);
        Ok(())
    }

    /// Adds a line of the text. Refusals as `with_text`. A text may have a million lines of no words: for these the draft stays
    /// where it is. Of the others it has 4,096 at most, since each has a node.
    fn add_text(&mut self, alloc: Global, line: &str) -> Result<(), Wrong>
        ensures { Leaves (draft_by self.new) result (with_text (draft_by self.old) line.now) }
    {
        if is_blank(line.as_bytes()) {
            return self.pass_over(line);
        }
        *self = mem::replace(self, Draft::new(alloc)).with_text(alloc, line)?;
        Ok(())
    }

    /// Adds line `number` of the text. Refusals: its fault; `Memory`.
    pub(crate) fn add_line(&mut self, alloc: Global, number: u64, line: &str) -> Result<(), Fault>
        ensures { LeavesText (draft_by self.new) result (at_line number (with_text (draft_by self.old) line.now)) }
    {
        match self.add_text(alloc, line) {
            Ok(()) => Ok(()),
            Err(wrong) => Err(Fault {
                line: number,
                wrong,
            }),
        }
    }
}
