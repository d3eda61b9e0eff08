//! What the names of a closure stand for.
ghost use Rattle.std.specs.Prelude.{◌≡◌, ◌<◌};
ghost use Rattle.td_formula.specs.Names.{place, with_name, no_names};
ghost use Rattle.td_formula.specs.Environments.{named};

use crate::expression::Name;
use std::marker::Model;

/// How many names there are.
const NAMES: usize = 18;

impl Name {
    /// Its place among the numbers of an environment. A register counts modulo 8, so that each number is a register's.
    fn place(self) -> usize
        ensures place { result ≡ place self }
        ensures within { result < 18 }
    {
        match self {
            Name::Key => 0,
            Name::Val => 1,
            Name::Port => 2,
            Name::A => 3,
            Name::B => 4,
            Name::BeforeA => 5,
            Name::BeforeB => 6,
            Name::Known => 7,
            Name::Items => 8,
            Name::Lost => 9,
            Name::Register(r) => 10 + usize::from(r % 8),
        }
    }
}

/// What each name stands for: a contract sees the numbers in the order of the names' places, and `named` reads them. It is no
/// function there, since what a contract sees of a struct cannot be one.
#[derive(Drop)]
pub struct Environment {
    numbers: [i128; NAMES],
}

impl Model for Environment {
    ghost use Rattle.std.specs.Prelude.{List, ℤ};

    ghost Value = { List ℤ };

    ghost view = { λ e. e.numbers };
}

#[tactic(auto, unfolding(crate::specs::Environments::named, crate::specs::Names::with_name, crate::specs::Names::no_names))]
impl Environment {
    /// Each name stands for 0.
    pub fn new() -> Self
        ensures { named result ≡ no_names }
    {
        Environment {
            numbers: [0; NAMES],
        }
    }

    /// What a name stands for.
    pub fn get(&self, name: Name) -> i128
        ensures { result ≡ named self.now name }
    {
        self.numbers[name.place()]
    }

    /// The name stands for this number from now on.
    pub fn set(&mut self, name: Name, number: i128)
        ensures { named self.new ≡ with_name (named self.old) name number }
    {
        self.numbers[name.place()] = number;
    }

    /// The same once more.
    pub fn copy(&self) -> Self
        ensures { result ≡ self.now }
    {
        Environment {
            numbers: self.numbers,
        }
    }
}
