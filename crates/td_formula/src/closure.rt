//! Closures: their lines.
use crate::expression::{Expression, Name};

/// What a closure is called for.
#[derive(Clone, Copy, Debug, PartialEq, Eq)]
pub enum ClosureKind {
    /// A record that arrives.
    Map,
    /// A key's items of an epoch.
    Group,
    /// A key's items of an epoch, and its state.
    Fold,
}

/// A line that gives a name another value, where its condition holds.
#[derive(Drop)]
pub struct Assignment {
    pub name: Name,
    pub value: Expression,
    pub when: Expression,
}

/// A line of two values, where its condition holds: the key and the value of a record, or the two numbers of a state.
#[derive(Drop)]
pub struct Pair {
    pub first: Expression,
    pub second: Expression,
    pub when: Expression,
}

/// A closure. A map is a group without items: so there is one meaning for the three kinds. A line without a condition has one
/// that is 1, so the meaning knows lines of one form.
#[derive(Drop)]
pub struct Closure {
    pub kind: ClosureKind,
    pub code: u16,
    /// `let`: the registers at the start. Each may use those before it.
    pub lets: Vec<Assignment>,
    /// `item`: what changes at each item. Each right side sees the values from before the item.
    pub changes: Vec<Assignment>,
    /// `each`: what is sent at each item, after its changes.
    pub each: Vec<Pair>,
    /// `send`: what is sent at the end, eight lines at most.
    pub sends: Vec<Pair>,
    /// `keep`: the state that a fold keeps at the end.
    pub keep: Pair,
}
