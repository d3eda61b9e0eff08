//! Expressions: numbers, names, and what is computed of them.

/// What a name stands for.
#[derive(Clone, Copy, Debug, PartialEq, Eq)]
pub enum Name {
    /// The key of a record, or of the items.
    Key,
    /// The value of a record, or of the item.
    Val,
    /// The port at which the record, or the item, arrived.
    Port,
    /// The first number of a fold's state.
    A,
    /// The second one.
    B,
    /// The first number of the state as it was at the call's start.
    BeforeA,
    /// The second one.
    BeforeB,
    /// 1 where the key had a state, else 0.
    Known,
    /// How many items there are.
    Items,
    /// How many records of `each` did not go out.
    Lost,
    /// A register that the closure names: there are 8, and a number counts modulo 8.
    Register(u8),
}

/// What is computed of one number.
#[derive(Clone, Copy, Debug, PartialEq, Eq)]
pub enum Sign {
    /// 1 where the number is 0, else 0.
    Not,
    /// The number with the other sign.
    Negative,
    /// The number without its sign.
    Absolute,
}

/// What is computed of two numbers. A number that is not 0 holds; a test gives 1 where it holds, else 0.
#[derive(Clone, Copy, Debug, PartialEq, Eq)]
pub enum Operator {
    /// Whether one of them holds.
    Or,
    /// Whether both hold.
    And,
    /// Whether they are equal.
    Equal,
    /// Whether they differ.
    Unequal,
    /// Whether the first is less.
    Less,
    /// Whether the first is less, or they are equal.
    AtMost,
    /// Whether the first is greater.
    Greater,
    /// Whether the first is greater, or they are equal.
    AtLeast,
    /// The sum.
    Plus,
    /// The difference.
    Minus,
    /// The product.
    Times,
    /// The quotient whose remainder is not negative; 0 where the second is 0.
    Quotient,
    /// That remainder; the first where the second is 0.
    Remainder,
    /// The lesser one.
    Least,
    /// The greater one.
    Most,
}

/// An expression.
#[derive(Drop)]
pub enum Expression {
    /// A number.
    Number(i128),
    /// What a name stands for.
    Named(Name),
    /// What is computed of one expression.
    One(Sign, Box<Expression>),
    /// What is computed of two.
    Two(Operator, Box<Expression>, Box<Expression>),
    /// The second where the first holds, else the third.
    If(Box<Expression>, Box<Expression>, Box<Expression>),
}
