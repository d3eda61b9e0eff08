//! Why a text spells no closures.
ghost use Rattle.std.specs.Prelude.{◌≡◌, Some};
ghost use Rattle.td_closures.specs.declared.fault.Wrong.TheVariants.{Memory};
ghost use Rattle.td_closures.specs.Refusals.{fault_text};

use std::alloc::{AllocError, AllocFailed};
use std::error::Error;
use std::fmt;

/// What is wrong with a line.
#[derive(Clone, Copy, Debug, PartialEq, Eq)]
pub enum Wrong {
    /// It has none of the forms of a line.
    Syntax,
    /// A name is unknown, or is not there in this kind of closure.
    Name,
    /// A code is not 10,000 to 65,535, or stands twice in its kind.
    Code,
    /// One closure, register, line `send`, node or byte too many.
    TooMany,
    /// An expression is nested more than 64 deep.
    Deep,
    /// A growth was refused.
    Memory,
}

impl From<AllocError> for Wrong {
    ghost from_gives = { λ _ e. e ≡ Memory };

    fn from(_error: AllocError) -> Wrong {
        Wrong::Memory
    }
}

impl<T: Drop> From<AllocFailed<T>> for Wrong {
    ghost from_gives = { λ _ e. e ≡ Memory };

    fn from(_failed: AllocFailed<T>) -> Wrong {
        Wrong::Memory
    }
}

/// Why a text spells no closures: the number of its first line with a fault, from 1, and what is wrong with it. A refusal for
/// want of memory has a line too.
#[derive(Clone, Copy, Debug, PartialEq, Eq)]
pub struct Fault {
    pub line: u64,
    pub wrong: Wrong,
}

impl fmt::Display for Fault {
    ghost output = { λ fault. Some (fault_text fault) };

    fn fmt<W: fmt::Write>(&self, f: &mut fmt::Formatter<W>) -> fmt::Result {
        let line = self.line;
        match self.wrong {
            Wrong::Syntax => write!(f, "closures line {line}: syntax"),
            Wrong::Name => write!(f, "closures line {line}: name"),
            Wrong::Code => write!(f, "closures line {line}: code"),
            Wrong::TooMany => write!(f, "closures line {line}: too many"),
            Wrong::Deep => write!(f, "closures line {line}: deep"),
            Wrong::Memory => write!(f, "memory"),
        }
    }
}

impl Error for Fault {}
