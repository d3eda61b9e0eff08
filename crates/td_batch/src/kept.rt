//! States that are kept before an epoch, wherever they stand.
ghost use Rattle.std.specs.Prelude.{◌≡◌};
ghost use Rattle.td_stamp.specs.States.{StateList, state_of};

use std::collections::BTreeMap;
use td_stamp::{State, States};

/// States that are kept before an epoch, wherever they stand. An epoch asks for those of the keys at which its records arrive, and for
/// no others.
pub trait KeptStates {
    /// The states.
    ghost states: { Self → StateList };

    /// The state that `vertex` keeps for `key`, if any.
    fn state(&self, vertex: u8, key: u64) -> Option<State>
        ensures { result ≡ state_of (states self.now) vertex key };
}

impl KeptStates for States {
    ghost states = { λ kept. kept };

    fn state(&self, vertex: u8, key: u64) -> Option<State> {
        self.get(vertex, key)
    }
}

impl KeptStates for BTreeMap<(u8, u64), State> {
    ghost states = { λ kept. kept.entries };

    fn state(&self, vertex: u8, key: u64) -> Option<State> {
        self.get(&(vertex, key)).copied()
    }
}
