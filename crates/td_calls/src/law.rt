//! What closures answer, and closures that answer it.
//!
//! A kind of closure is a trait whose one call keeps the law. There is no one struct of boxed closures for every law: its fact on
//! what the box answers could not speak of a type parameter. So boxes stand in structs of one law, as `StockMap`, and `Calls` is
//! generic over these.
ghost use Rattle.std.specs.Prelude.{◌≡◌, ℕ};
ghost use Rattle.td_calls.specs.Answers.{Answers, AnswerFew};

use td_stamp::{Few, Item, Rec, State};

/// What the closure of each code answers.
pub trait Law {
    /// The answers of maps, of groups and of folds, by code.
    ghost answers: { Answers };

    /// No closure sends more than eight records.
    ghost few: { AnswerFew answers };
}

/// A closure that is stored under a code.
///
/// A closure has its code itself, and it is no argument of a call that stores it. That a closure answers the law is a fact on
/// this one code, and a code that is passed beside could be another.
pub trait Coded {
    ghost code_of: { Self → ℕ };

    /// The closure's code.
    fn code(&self) -> u16
        ensures { result ≡ code_of self.now };
}

/// A map's closure that answers the law for its code. What it sends is at most eight records (`Few`).
pub trait MapCall<L: Law>: Coded {
    /// What it sends for a record that arrives at `port`.
    fn call(&self, port: u8, rec: Rec) -> Few
        ensures { result.items ≡ L.answers.emit (Self.code_of self.now) port rec };
}

/// A group's closure that answers the law for its code.
pub trait GroupCall<L: Law>: Coded {
    /// What it sends for a key and its sorted items.
    fn call(&self, key: u64, items: &[Item]) -> Few
        ensures { result.items ≡ L.answers.group (Self.code_of self.now) key items.now };
}

/// A fold's closure that answers the law for its code.
pub trait FoldCall<L: Law>: Coded {
    /// The state that it keeps for a key, which had `state`, at these sorted items, and what it sends. `None` removes the
    /// key's state.
    fn call(&self, key: u64, state: Option<State>, items: &[Item]) -> (Option<State>, Few)
        ensures { (result.0, result.1.items) ≡ L.answers.fold (Self.code_of self.now) key state items.now };
}
