//! The lines of a closure, from their tokens.
ghost use Rattle.std.specs.Prelude.{◌≡◌, [], map};
ghost use Rattle.td_closures.specs.Reading.{expression_of, when_of, after_comma, ended, pair_of, assigned_of, condition_of, change_of, after_change, changes_of, head_at, head_of, verb_line, line_of};
ghost use Rattle.td_closures.specs.Lines.{target_of, may_change};
ghost use Rattle.td_closures.specs.Kept.{Answers, expression_by, name_by, next_by, paired_by, assigned_by, change_by, line_by};

use crate::expression::read_expression;
use crate::fault::Wrong;
use crate::token::{Token, Verb};
use std::alloc::Global;
use td_formula::{Assignment, ClosureKind, Expression, Name, Operator, Pair};

/// A line as it is read.
#[derive(Drop)]
pub(crate) enum WrittenLine {
    Head(ClosureKind, u16),
    Let(Vec<Assignment>),
    Item(Vec<Assignment>),
    Each(Pair),
    Send(Pair),
    Keep(Pair),
}

/// How many names a line gives a value at most. The reader of them calls itself.
const CHANGES: usize = 64;

/// An expression, and what follows it. Refusals as `read_expression`.
fn expression(alloc: Global, tokens: &[Token]) -> Result<(Expression, &[Token]), Wrong>
    ensures { Answers expression_by result (expression_of tokens.now) }
{
    read_expression(alloc, tokens)
}

/// A condition, which is 1 without `when`, and what follows it. Refusals as `read_expression`.
fn condition(alloc: Global, tokens: &[Token]) -> Result<(Expression, &[Token]), Wrong>
    ensures { Answers expression_by result (when_of tokens.now) }
{
    match tokens {
        [Token::When, rest @ ..] => expression(alloc, rest),
        _ => Ok((Expression::Number(1), tokens)),
    }
}

/// What follows a comma.
fn after_comma(tokens: &[Token]) -> Result<&[Token], Wrong>
    ensures { Answers (λ r. r.now) result (after_comma tokens.now) }
{
    match tokens {
        [Token::Comma, rest @ ..] => Ok(rest),
        _ => Err(Wrong::Syntax),
    }
}

/// Refuses all but the end of the line.
fn check_end(tokens: &[Token]) -> Result<(), Wrong>
    ensures { result ≡ ended tokens.now }
{
    match tokens {
        [Token::End] => Ok(()),
        _ => Err(Wrong::Syntax),
    }
}

/// Two values and their condition, to the end of the line. Refusals: `Syntax`, and as `read_expression`.
fn read_pair(alloc: Global, tokens: &[Token]) -> Result<Pair, Wrong>
    ensures { Answers paired_by result (pair_of tokens.now) }
{
    let (first, others) = expression(alloc, tokens)?;
    let after = after_comma(others)?;
    let (second, more) = expression(alloc, after)?;
    let (when, rest) = condition(alloc, more)?;
    check_end(rest)?;
    Ok(Pair {
        first,
        second,
        when,
    })
}

/// Whether an item may change what a name stands for.
fn may_change(name: Name) -> bool
    ensures { result ≡ may_change name }
{
    matches!(name, Name::A | Name::B | Name::Register(_))
}

/// The register that a `let` names. Refusals: `TooMany`, for the ninth; `Name`; `Syntax`. A `let` names what is new.
fn new_target(token: Token) -> Result<Name, Wrong>
    ensures { result ≡ target_of Verb.Let token }
{
    match token {
        Token::New(register) if register < 8 => Ok(Name::Register(register)),
        Token::New(_) => Err(Wrong::TooMany),
        Token::Named(_) | Token::Unknown => Err(Wrong::Name),
        _ => Err(Wrong::Syntax),
    }
}

/// The name that an item changes. Refusals: `Name`; `Syntax`.
fn changed_target(token: Token) -> Result<Name, Wrong>
    ensures { result ≡ target_of Verb.Item token }
{
    match token {
        Token::Named(name) if may_change(name) => Ok(name),
        Token::Named(_) | Token::New(_) | Token::Unknown => Err(Wrong::Name),
        _ => Err(Wrong::Syntax),
    }
}

/// The name that a line gives a value. Refusals as of those two.
fn target(verb: Verb, token: Token) -> Result<Name, Wrong>
    ensures { result ≡ target_of verb token }
{
    match verb {
        Verb::Let => new_target(token),
        Verb::Item => changed_target(token),
        Verb::Each | Verb::Send | Verb::Keep => match token {
            Token::Named(_) | Token::New(_) | Token::Unknown => Err(Wrong::Name),
            _ => Err(Wrong::Syntax),
        },
    }
}

/// The name before a `=`, and what follows it. Refusals as `target`.
fn assigned(verb: Verb, tokens: &[Token]) -> Result<(Name, &[Token]), Wrong>
    ensures { Answers name_by result (assigned_of verb tokens.now) }
{
    match tokens {
        [token, Token::Infix(Operator::Equal), rest @ ..] => Ok((target(verb, *token)?, rest)),
        _ => Err(Wrong::Syntax),
    }
}

/// The condition of a change, which a `let` does not have, and what follows it. Refusals as `read_expression`.
fn change_condition(
    alloc: Global,
    verb: Verb,
    tokens: &[Token],
) -> Result<(Expression, &[Token]), Wrong>
    ensures { Answers expression_by result (condition_of verb tokens.now) }
{
    match verb {
        Verb::Item => condition(alloc, tokens),
        _ => Ok((Expression::Number(1), tokens)),
    }
}

/// A name, its value and its condition, and what follows them. Refusals as `target` and `read_expression`.
fn read_change(alloc: Global, verb: Verb, tokens: &[Token]) -> Result<(Assignment, &[Token]), Wrong>
    ensures { Answers change_by result (change_of verb tokens.now) }
{
    let (name, others) = assigned(verb, tokens)?;
    let (value, more) = expression(alloc, others)?;
    let (when, rest) = change_condition(alloc, verb, more)?;
    let change = Assignment { name, value, when };
    Ok((change, rest))
}

/// What follows a comma, if one follows; else the line ends.
fn after_change(tokens: &[Token]) -> Result<Option<&[Token]>, Wrong>
    ensures { Answers next_by result (after_change tokens.now) }
{
    match tokens {
        [Token::Comma, rest @ ..] => Ok(Some(rest)),
        [Token::End] => Ok(None),
        _ => Err(Wrong::Syntax),
    }
}

/// So many changes at most, with commas between them, to the end of the line, after those that are done.
/// Refusals: `TooMany`; `Syntax`; as `read_change`.
fn more_changes(
    alloc: Global,
    verb: Verb,
    most: usize,
    tokens: &[Token],
    done: Vec<Assignment>,
) -> Result<Vec<Assignment>, Wrong>
    ensures { Answers (λ v. map assigned_by v.items) result (changes_of verb most tokens.now (map assigned_by done.items)) }
{
    if most == 0 {
        return Err(Wrong::TooMany);
    }
    let (change, rest) = read_change(alloc, verb, tokens)?;
    let mut changes = done;
    changes.push(change)?;
    let after = after_change(rest)?;
    match after {
        Some(others) => more_changes(alloc, verb, most - 1, others, changes),
        None => Ok(changes),
    }
}

/// The changes of a line. Refusals as `more_changes`, of 64.
fn read_changes(alloc: Global, verb: Verb, tokens: &[Token]) -> Result<Vec<Assignment>, Wrong>
    ensures { Answers (λ v. map assigned_by v.items) result (changes_of verb 64 tokens.now []) }
{
    more_changes(alloc, verb, CHANGES, tokens, Vec::new(alloc))
}

/// The head of a closure, from its code. Refusal: `Code`.
fn head(kind: ClosureKind, code: i128) -> Result<WrittenLine, Wrong>
    ensures { Answers line_by result (head_at kind code) }
{
    if 10_000 <= code && code <= 65_535 {
        Ok(WrittenLine::Head(kind, code as u16))
    } else {
        Err(Wrong::Code)
    }
}

/// The head of a closure, from what follows its kind. Refusals: `Code`; `Syntax`.
fn read_head(kind: ClosureKind, tokens: &[Token]) -> Result<WrittenLine, Wrong>
    ensures { Answers line_by result (head_of kind tokens.now) }
{
    match tokens {
        [Token::Number(code), Token::End] => head(kind, *code),
        _ => Err(Wrong::Syntax),
    }
}

/// A line, from what follows its first word. Refusals as `read_changes` and `read_pair`.
fn read_verb(alloc: Global, verb: Verb, tokens: &[Token]) -> Result<WrittenLine, Wrong>
    ensures { Answers line_by result (verb_line verb tokens.now) }
{
    Ok(match verb {
        Verb::Let => WrittenLine::Let(read_changes(alloc, verb, tokens)?),
        Verb::Item => WrittenLine::Item(read_changes(alloc, verb, tokens)?),
        Verb::Each => WrittenLine::Each(read_pair(alloc, tokens)?),
        Verb::Send => WrittenLine::Send(read_pair(alloc, tokens)?),
        Verb::Keep => WrittenLine::Keep(read_pair(alloc, tokens)?),
    })
}

/// The line that these tokens spell. Refusals: `Syntax`; `Code`; `Name`; `TooMany`; `Deep`; `Memory`.
pub(crate) fn read_line(alloc: Global, tokens: &[Token]) -> Result<WrittenLine, Wrong>
    ensures { Answers line_by result (line_of tokens.now) }
{
    match tokens {
        [Token::Kind(kind), rest @ ..] => read_head(*kind, rest),
        [Token::Verb(verb), rest @ ..] => read_verb(alloc, *verb, rest),
        _ => Err(Wrong::Syntax),
    }
}
