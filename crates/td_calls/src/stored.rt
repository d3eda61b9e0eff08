//! Closures of one kind, by their codes.
ghost use Rattle.std.specs.Prelude.{◌≡◌, ◌↔◌, ◌⊎◌, [], IsTrue, OnOk, OnErr, IfErr, IfSome, IsErrAnd, is_some};
ghost use Rattle.std.specs.Option.{option_copied};
ghost use Rattle.td_calls.specs.Codes.{call_at, has_code, GainsCode};

use crate::error::CallsError;
use crate::law::Coded;
use std::alloc::Global;
use std::collections::BTreeMap;
use std::marker::Model;

/// Closures of one kind, each under its code.
#[derive(Drop)]
pub struct Stored<C> {
    calls: BTreeMap<u16, C>,
}

impl<C> Model for Stored<C> {
    ghost use Rattle.std.specs.Prelude.{ℕ, List};

    ghost Value = { List (ℕ × C) };

    ghost view = { λ s. s.calls.entries };
}

impl<C> Stored<C> {
    /// No closures, in a map that allocates with `alloc`.
    pub fn new(alloc: Global) -> Self
        ensures { result ≡ [] }
    {
        Stored {
            calls: BTreeMap::new(alloc),
        }
    }

    /// The closure of this code, if one is stored. It takes O(log n) time and no memory.
    pub fn find(&self, code: u16) -> Option<&C>
    where
        C: Coded,
        ensures found { is_some result ≡ has_code C.code_of self.now code }
        ensures code { IfSome result (λ call. C.code_of call.now ≡ code) }
    {
        // A closure stands under its own code. The type does not say so, since it says nothing of its parameter.
        let call = self.calls.get(&code)?;
        if call.code() == code {
            Some(call)
        } else {
            None
        }
    }

    /// Stores a closure under its code. Refusals, with the closure handed back and nothing changed: `CodeUsed` where
    /// one of its code is stored, and `Memory`.
    pub fn add(&mut self, call: C) -> Result<(), (CallsError, C)>
    where
        C: Coded + Drop,
        ensures ok { OnOk result (GainsCode C.code_of self.old self.new (C.code_of call)) }
        ensures stored { OnOk result (call_at self.new (C.code_of call) ≡ Some call) }
        ensures used { IsErrAnd result (λ e. e.0 ≡ CallsError.CodeUsed) ↔ IsTrue (has_code C.code_of self.old (C.code_of call)) }
        ensures refusals { IfErr result (λ e. (e.0 ≡ CallsError.CodeUsed) ⊎ (e.0 ≡ CallsError.Memory)) }
        ensures back { IfErr result (λ e. e.1 ≡ call) }
        ensures err { OnErr result (self.new ≡ self.old) }
    {
        let code = call.code();
        if self.find(code).is_some() {
            return Err((CallsError::CodeUsed, call));
        }
        match self.calls.insert(code, call) {
            Ok(_) => Ok(()),
            Err(failed) => Err((CallsError::Memory, failed.value.1)),
        }
    }
}
