//! What answers a question, as one value.
ghost use Rattle.std.specs.Prelude.{◌≡◌};

use crate::answers::Entry;
use std::marker::Model;

/// The entries that answer a question, in order. Contracts see it as their list.
#[derive(Debug, Drop)]
pub struct Entries {
    entries: Vec<Entry>,
}

impl Model for Entries {
    ghost use Rattle.td_stamp.specs.States.{StateList};

    ghost Value = { StateList };

    ghost view = { λ e. e.entries.items };
}

impl Entries {
    /// These, in this order.
    pub fn from_vec(entries: Vec<Entry>) -> Entries
        ensures { result ≡ entries.items }
    {
        Entries { entries }
    }

    /// The entries, in order.
    pub fn as_slice(&self) -> &[Entry]
        ensures { result.now ≡ self.now }
    {
        self.entries.as_slice()
    }
}
