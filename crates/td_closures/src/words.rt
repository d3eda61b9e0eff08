//! The words of a line, and their tokens.
ghost use Rattle.std.specs.Prelude.{◌≡◌, ◌≤◌, ◌<◌, [], map, length, slice_index, IfOk, IfErr, IfSome};
ghost use Rattle.std.specs.String.{string_bytes};
ghost use Rattle.td_closures.specs.declared.fault.Wrong.TheVariants.{Memory};
ghost use Rattle.td_plan.specs.Text.{words};
ghost use Rattle.td_closures.specs.Words.{is_letter, is_of_word, is_of_test, are_joined, shown, spaced, is_blank, head_word, plain_word, test_word, sum_word, name_word, is_fold, has_items, is_there, name_token, register_from, new_word, register_word, token_of, with_register, verb_scope, token_scope, scope_of, tokens_of, registers_after};

use crate::fault::Wrong;
use crate::token::{Token, Verb};
use std::alloc::Global;
use std::marker::Model;
use td_formula::{ClosureKind, Name, Operator, Sign};
use td_plan::text::{natural, next_word};

/// What names stand for something on a line.
#[derive(Clone, Copy, Debug)]
pub struct Scope {
    /// The kind of the closure, if one has begun.
    pub kind: Option<ClosureKind>,
    /// Whether the line says what is done at the end: `lost` is there.
    pub at_end: bool,
    /// Whether the line may name registers.
    pub may_name: bool,
}

/// Whether a character is a letter or `_`.
fn is_letter(b: u8) -> bool
    ensures { result ≡ is_letter b }
{
    (97 <= b && b <= 122) || (65 <= b && b <= 90) || b == 95
}

/// Whether a character is a letter, a digit or `_`.
fn is_of_word(b: u8) -> bool
    ensures { result ≡ is_of_word b }
{
    is_letter(b) || (48 <= b && b <= 57)
}

/// Whether two characters that stand beside each other are of one word.
fn are_joined(b: u8, c: u8) -> bool
    ensures { result ≡ are_joined b c }
{
    (is_of_word(b) && is_of_word(c)) || ((b == 60 || b == 62 || b == 33) && c == 61)
}

/// A character, or `?` for one that is not printable ASCII. That is in no word.
fn shown(b: u8) -> u8
    ensures shown { result ≡ shown b }
    ensures ascii { result < 128 }
{
    if 32 <= b && b <= 126 { b } else { 63 }
}

/// A line up to its comment, with a space after each word. Refusal: `Memory`.
pub(crate) fn spaced(alloc: Global, line: &[u8]) -> Result<String, Wrong>
    ensures ok { IfOk result (λ s. string_bytes s ≡ spaced line.now) }
    ensures err { IfErr result (λ w. w ≡ Memory) }
{
    let mut out = String::new(alloc);
    let mut rest = line;
    while let [b, others @ ..] = rest {
        if *b == b'#' {
            return Ok(out);
        }
        out.push(char::from(shown(*b)))?;
        if let [c, ..] = others {
            if !are_joined(*b, *c) {
                out.push(' ')?;
            }
        }
        rest = others;
    }
    Ok(out)
}

/// Whether a line has no words: spaces stand up to its end, or up to its comment.
pub(crate) fn is_blank(line: &[u8]) -> bool
    ensures { result ≡ is_blank line.now }
{
    let mut rest = line;
    while let [b, others @ ..] = rest {
        if *b != b' ' {
            return *b == b'#';
        }
        rest = others;
    }
    true
}

/// What a line begins with.
fn head_word(word: &str) -> Option<Token>
    ensures { result ≡ head_word word.now }
{
    if word == "map" {
        return Some(Token::Kind(ClosureKind::Map));
    }
    if word == "group" {
        return Some(Token::Kind(ClosureKind::Group));
    }
    if word == "fold" {
        return Some(Token::Kind(ClosureKind::Fold));
    }
    if word == "let" {
        return Some(Token::Verb(Verb::Let));
    }
    if word == "item" {
        return Some(Token::Verb(Verb::Item));
    }
    if word == "each" {
        return Some(Token::Verb(Verb::Each));
    }
    if word == "send" {
        return Some(Token::Verb(Verb::Send));
    }
    if word == "keep" {
        return Some(Token::Verb(Verb::Keep));
    }
    None
}

/// The other words.
fn plain_word(word: &str) -> Option<Token>
    ensures { result ≡ plain_word word.now }
{
    if word == "if" {
        return Some(Token::If);
    }
    if word == "then" {
        return Some(Token::Then);
    }
    if word == "else" {
        return Some(Token::Else);
    }
    if word == "when" {
        return Some(Token::When);
    }
    if word == "not" {
        return Some(Token::Prefix(Sign::Not));
    }
    if word == "abs" {
        return Some(Token::Prefix(Sign::Absolute));
    }
    if word == "min" {
        return Some(Token::Call(Operator::Least));
    }
    if word == "max" {
        return Some(Token::Call(Operator::Most));
    }
    None
}

/// `or`, `and` and the tests.
fn test_word(word: &str) -> Option<Token>
    ensures { result ≡ test_word word.now }
{
    if word == "or" {
        return Some(Token::Infix(Operator::Or));
    }
    if word == "and" {
        return Some(Token::Infix(Operator::And));
    }
    if word == "=" {
        return Some(Token::Infix(Operator::Equal));
    }
    if word == "!=" {
        return Some(Token::Infix(Operator::Unequal));
    }
    if word == "<" {
        return Some(Token::Infix(Operator::Less));
    }
    if word == "<=" {
        return Some(Token::Infix(Operator::AtMost));
    }
    if word == ">" {
        return Some(Token::Infix(Operator::Greater));
    }
    if word == ">=" {
        return Some(Token::Infix(Operator::AtLeast));
    }
    None
}

/// Sums, products, parentheses and commas.
fn sum_word(word: &str) -> Option<Token>
    ensures { result ≡ sum_word word.now }
{
    if word == "+" {
        return Some(Token::Infix(Operator::Plus));
    }
    if word == "-" {
        return Some(Token::Infix(Operator::Minus));
    }
    if word == "*" {
        return Some(Token::Infix(Operator::Times));
    }
    if word == "/" {
        return Some(Token::Infix(Operator::Quotient));
    }
    if word == "%" {
        return Some(Token::Infix(Operator::Remainder));
    }
    if word == "(" {
        return Some(Token::Open);
    }
    if word == ")" {
        return Some(Token::Close);
    }
    if word == "," {
        return Some(Token::Comma);
    }
    None
}

/// The names that are no registers.
fn name_word(word: &str) -> Option<Name>
    ensures { result ≡ name_word word.now }
{
    if word == "key" {
        return Some(Name::Key);
    }
    if word == "val" {
        return Some(Name::Val);
    }
    if word == "port" {
        return Some(Name::Port);
    }
    if word == "a" {
        return Some(Name::A);
    }
    if word == "b" {
        return Some(Name::B);
    }
    if word == "before_a" {
        return Some(Name::BeforeA);
    }
    if word == "before_b" {
        return Some(Name::BeforeB);
    }
    if word == "known" {
        return Some(Name::Known);
    }
    if word == "items" {
        return Some(Name::Items);
    }
    if word == "lost" {
        return Some(Name::Lost);
    }
    None
}

impl Scope {
    /// Whether a name stands for something.
    fn is_there(self, name: Name) -> bool
        ensures { result ≡ is_there self name }
    {
        match name {
            Name::Key | Name::Val | Name::Port | Name::Register(_) => true,
            Name::Items => matches!(self.kind, Some(ClosureKind::Group | ClosureKind::Fold)),
            Name::Lost => self.at_end,
            Name::A | Name::B | Name::BeforeA | Name::BeforeB | Name::Known => {
                matches!(self.kind, Some(ClosureKind::Fold))
            }
        }
    }

    /// The token of a name that is no register.
    fn name_token(self, name: Name) -> Token
        ensures { result ≡ name_token self name }
    {
        if self.is_there(name) {
            Token::Named(name)
        } else {
            Token::Unknown
        }
    }
}

/// Whether a word begins with a letter or `_`.
fn starts_with_letter(word: &[u8]) -> bool
    ensures { result ≡ is_letter (slice_index word.now 0) }
{
    match word {
        [] => false,
        [b, ..] => is_letter(*b),
    }
}

/// The number of the register of this name.
fn number_of(registers: &[String], word: &str) -> Option<usize>
    requires { length registers.now ≤ 8 }
    ensures found { result ≡ register_from 0 (map string_bytes registers.now) word.now }
    ensures below { IfSome result (λ r. r < 8) }
{
    let mut i = 0;
    let mut rest = registers;
    while let [register, others @ ..] = rest {
        if register.as_str() == word {
            return Some(i);
        }
        i += 1;
        rest = others;
    }
    None
}

/// The registers that a closure names so far: eight at most. A contract sees their names. A register is there from the word on by
/// which its line names it, and is 0 until its value is computed.
#[derive(Drop)]
pub struct Registers {
    names: Vec<String>,
}

impl Model for Registers {
    ghost use Rattle.std.specs.Prelude.{ℕ, List, ◌≤◌, map, vec_len};
    ghost use Rattle.std.specs.String.{string_bytes};

    ghost Value = { List (List ℕ) };

    ghost view = { λ r. map string_bytes r.names.items };

    ghost invariant = { λ r. vec_len r.names ≤ 8 };
}

impl Registers {
    /// None.
    pub fn new(alloc: Global) -> Self
        ensures { result ≡ [] }
    {
        Registers {
            names: Vec::new(alloc),
        }
    }

    /// The number of the register of this name.
    fn number(&self, word: &str) -> Option<usize>
        ensures found { result ≡ register_from 0 self.now word.now }
        ensures below { IfSome result (λ r. r < 8) }
    {
        number_of(self.names.as_slice(), word)
    }

    /// A word that names no register yet.
    fn new_word(&self, scope: Scope, word: &str) -> Token
        ensures { result ≡ new_word scope (length self.now) word.now }
    {
        if scope.may_name && starts_with_letter(word.as_bytes()) {
            Token::New(self.names.len() as u8)
        } else {
            Token::Unknown
        }
    }

    /// A word that is none of the fixed ones.
    fn free_word(&self, scope: Scope, word: &str) -> Token
        ensures { result ≡ register_word scope (length self.now) word.now (register_from 0 self.now word.now) }
    {
        if let Some(r) = self.number(word) {
            return Token::Named(Name::Register(r as u8));
        }
        match natural(word) {
            Some(number) => Token::Number(i128::from(number)),
            None => self.new_word(scope, word),
        }
    }

    /// The token of a word.
    pub fn token(&self, scope: Scope, word: &str) -> Token
        ensures { result ≡ token_of scope self.now word.now }
    {
        if let Some(token) = head_word(word) {
            return token;
        }
        if let Some(token) = plain_word(word) {
            return token;
        }
        if let Some(token) = test_word(word) {
            return token;
        }
        if let Some(token) = sum_word(word) {
            return token;
        }
        match name_word(word) {
            Some(name) => scope.name_token(name),
            None => self.free_word(scope, word),
        }
    }

    /// With a register that a line names, where fewer than eight are there. Refusal: `Memory`.
    fn with(self, alloc: Global, word: &str, token: Token) -> Result<Registers, Wrong>
        ensures ok { IfOk result (λ r. r ≡ with_register self word.now token) }
        ensures err { IfErr result (λ w. w ≡ Memory) }
    {
        let Registers { mut names } = self;
        if let Token::New(_) = token {
            if names.len() < 8 {
                names.push(String::from_str(alloc, word)?)?;
            }
        }
        Ok(Registers { names })
    }
}

/// What names stand for something on a line of an open closure that begins with this verb.
fn verb_scope(kind: Option<ClosureKind>, verb: Verb) -> Scope
    ensures { result ≡ verb_scope kind verb }
{
    match verb {
        Verb::Let => Scope {
            kind,
            at_end: false,
            may_name: true,
        },
        Verb::Send | Verb::Keep => Scope {
            kind,
            at_end: true,
            may_name: false,
        },
        Verb::Item | Verb::Each => Scope {
            kind,
            at_end: false,
            may_name: false,
        },
    }
}

/// The same, of a line that begins with this token.
fn token_scope(kind: Option<ClosureKind>, token: Token) -> Scope
    ensures { result ≡ token_scope kind token }
{
    match token {
        Token::Verb(verb) => verb_scope(kind, verb),
        _ => verb_scope(kind, Verb::Item),
    }
}

/// The same, of a line with a space after each word.
pub(crate) fn line_scope(kind: Option<ClosureKind>, text: &str) -> Scope
    ensures { result ≡ scope_of kind (words text.now) }
{
    let Some((word, _)) = next_word(text) else {
        return verb_scope(kind, Verb::Item);
    };
    match head_word(word) {
        Some(token) => token_scope(kind, token),
        None => verb_scope(kind, Verb::Item),
    }
}

/// The tokens of a line with a space after each word, and the registers after it. Refusal: `Memory`.
pub(crate) fn text_tokens(
    alloc: Global,
    scope: Scope,
    registers: Registers,
    text: &str,
) -> Result<(Vec<Token>, Registers), Wrong>
    ensures tokens { IfOk result (λ r. r.0.items ≡ tokens_of scope registers (words text.now)) }
    ensures registers { IfOk result (λ r. r.1 ≡ registers_after scope registers (words text.now)) }
    ensures err { IfErr result (λ w. w ≡ Memory) }
{
    let mut registers = registers;
    let mut tokens = Vec::new(alloc);
    let mut rest = text;
    while let Some((word, others)) = next_word(rest) {
        let token = registers.token(scope, word);
        registers = registers.with(alloc, word, token)?;
        tokens.push(token)?;
        rest = others;
    }
    tokens.push(Token::End)?;
    Ok((tokens, registers))
}

/// The tokens of a line, and the registers after it: a word stands for a register from the place on at which the line names it.
/// Refusal: `Memory`.
pub fn line_tokens(
    alloc: Global,
    scope: Scope,
    registers: Registers,
    line: &str,
) -> Result<(Vec<Token>, Registers), Wrong>
    ensures tokens { IfOk result (λ r. r.0.items ≡ tokens_of scope registers (words (spaced line.now))) }
    ensures registers { IfOk result (λ r. r.1 ≡ registers_after scope registers (words (spaced line.now))) }
    ensures err { IfErr result (λ w. w ≡ Memory) }
{
    let text = spaced(alloc, line.as_bytes())?;
    text_tokens(alloc, scope, registers, text.as_str())
}
