//! The tokens of a line.
use td_formula::{ClosureKind, Name, Operator, Sign};

/// What a line of a closure begins with.
#[derive(Clone, Copy, Debug, PartialEq, Eq)]
pub enum Verb {
    Let,
    Item,
    Each,
    Send,
    Keep,
}

/// A word of a line.
#[derive(Clone, Copy, Debug, PartialEq, Eq)]
pub enum Token {
    /// A number.
    Number(i128),
    /// A name that stands for something here.
    Named(Name),
    /// A register that the line names first.
    New(u8),
    /// A word that is none of the others.
    Unknown,
    /// `map`, `group` or `fold`.
    Kind(ClosureKind),
    /// `let`, `item`, `each`, `send` or `keep`.
    Verb(Verb),
    /// An operator between two expressions. `-` may stand before one too.
    Infix(Operator),
    /// `not` or `abs`.
    Prefix(Sign),
    /// `min` or `max`.
    Call(Operator),
    If,
    Then,
    Else,
    When,
    Open,
    Close,
    Comma,
    /// The end of the line.
    End,
}
