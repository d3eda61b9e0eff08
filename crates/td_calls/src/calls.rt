//! Closures of all three kinds, and what the crates above know of them.
ghost use Rattle.std.specs.Prelude.{◌≡◌, ◌↔◌, ◌⊎◌, [], IsTrue, OnOk, OnErr, IfErr, IfSome, IsErrAnd, is_some};
ghost use Rattle.td_plan.specs.Blocks.{vertices};
ghost use Rattle.td_calls.specs.Codes.{has_code, GainsCode};
ghost use Rattle.td_calls.specs.Fits.{lacking_code, first_lack};
ghost use Rattle.td_calls.specs.Stored.{Codes};

use crate::error::CallsError;
use crate::law::{Coded, FoldCall, GroupCall, Law, MapCall};
use crate::stored::Stored;
use std::alloc::Global;
use td_plan::{Kind, Plan};
use td_stamp::{Few, Item, Rec, State};

/// Closures that answer a law, whatever keeps them. Each kind has its own codes. How they are kept is hidden from the crates
/// above. `fits` is provided, so every keeper of closures has it with its contract.
pub trait Closures<L: Law> {
    /// The codes of which a closure is stored, of each kind.
    ghost stored: { Self → Codes };

    /// What the map's closure of this code sends for a record that arrives at `port`; none where no such closure is stored.
    fn map(&self, code: u16, port: u8, rec: Rec) -> Option<Few>
        ensures found { is_some result ≡ (stored self.now).map code }
        ensures law { IfSome result (λ sent. sent.items ≡ L.answers.emit code port rec) };

    /// What the group's closure of this code sends for a key and its sorted items.
    fn group(&self, code: u16, key: u64, items: &[Item]) -> Option<Few>
        ensures found { is_some result ≡ (stored self.now).group code }
        ensures law { IfSome result (λ sent. sent.items ≡ L.answers.group code key items.now) };

    /// The state that the fold's closure of this code keeps for a key, which had `state`, at these sorted items, and what it sends.
    fn fold(
        &self,
        code: u16,
        key: u64,
        state: Option<State>,
        items: &[Item],
    ) -> Option<(Option<State>, Few)>
        ensures found { is_some result ≡ (stored self.now).fold code }
        ensures law { IfSome result (λ answer. (answer.0, answer.1.items) ≡ L.answers.fold code key state items.now) };

    /// Whether a map's closure of this code is stored.
    fn contains_map(&self, code: u16) -> bool
        ensures { result ≡ (stored self.now).map code };

    /// The same of a group's closure.
    fn contains_group(&self, code: u16) -> bool
        ensures { result ≡ (stored self.now).group code };

    /// The same of a fold's closure.
    fn contains_fold(&self, code: u16) -> bool
        ensures { result ≡ (stored self.now).fold code };

    /// Whether each vertex of a plan has a closure of its kind and code. Refusal: `NoCall` with the lowest vertex that
    /// lacks its closure, and the code. It takes no memory.
    fn fits(&self, plan: &Plan) -> Result<(), CallsError>
        ensures ok { OnOk result (first_lack (stored self.now) (vertices plan.now) ≡ None) }
        ensures err { IfErr result (λ e. first_lack (stored self.now) (vertices plan.now) ≡ Some e) }
    {
        for vertex in plan.vertices() {
            if let Some(code) = self.lacking_code(vertex.kind()) {
                return Err(CallsError::NoCall(vertex.number(), code));
            }
        }
        Ok(())
    }

    /// The code for which a vertex of this kind lacks a closure.
    fn lacking_code(&self, kind: Kind) -> Option<u16>
        ensures { result ≡ lacking_code (stored self.now) kind }
    {
        match kind {
            Kind::Map(code) if !self.contains_map(code) => Some(code),
            Kind::Group(code) if !self.contains_group(code) => Some(code),
            Kind::Fold(code) if !self.contains_fold(code) => Some(code),
            _ => None,
        }
    }
}

/// Stored closures of all three kinds. Each kind has its own codes.
///
/// There is no type for no closures of a kind. A type without values makes functions that no call can reach, which the gate
/// refuses. A type with values cannot answer a law that it does not know. So a program writes a closure that sends nothing, as
/// `example_closures` does.
#[derive(Drop)]
pub struct Calls<M, G, F> {
    pub maps: Stored<M>,
    pub groups: Stored<G>,
    pub folds: Stored<F>,
}

impl<M, G, F> Calls<M, G, F> {
    /// No closures, in maps that allocate with `alloc`.
    pub fn new(alloc: Global) -> Self
        ensures maps { result.maps ≡ [] }
        ensures groups { result.groups ≡ [] }
        ensures folds { result.folds ≡ [] }
    {
        Calls {
            maps: Stored::new(alloc),
            groups: Stored::new(alloc),
            folds: Stored::new(alloc),
        }
    }

    /// Stores a map's closure under its code. Refusals, with the closure handed back and nothing changed: `CodeUsed`
    /// where a map's closure of its code is stored, and `Memory`.
    pub fn add_map(&mut self, call: M) -> Result<(), (CallsError, M)>
    where
        M: Coded + Drop,
        ensures ok { OnOk result (GainsCode M.code_of self.old.maps self.new.maps (M.code_of call)) }
        ensures used { IsErrAnd result (λ e. e.0 ≡ CallsError.CodeUsed) ↔ IsTrue (has_code M.code_of self.old.maps (M.code_of call)) }
        ensures refusals { IfErr result (λ e. (e.0 ≡ CallsError.CodeUsed) ⊎ (e.0 ≡ CallsError.Memory)) }
        ensures back { IfErr result (λ e. e.1 ≡ call) }
        ensures err { OnErr result (self.new ≡ self.old) }
        ensures other_groups { self.new.groups ≡ self.old.groups }
        ensures other_folds { self.new.folds ≡ self.old.folds }
    {
        self.maps.add(call)
    }

    /// Stores a group's closure under its code, as `add_map` does a map's.
    pub fn add_group(&mut self, call: G) -> Result<(), (CallsError, G)>
    where
        G: Coded + Drop,
        ensures ok { OnOk result (GainsCode G.code_of self.old.groups self.new.groups (G.code_of call)) }
        ensures used { IsErrAnd result (λ e. e.0 ≡ CallsError.CodeUsed) ↔ IsTrue (has_code G.code_of self.old.groups (G.code_of call)) }
        ensures refusals { IfErr result (λ e. (e.0 ≡ CallsError.CodeUsed) ⊎ (e.0 ≡ CallsError.Memory)) }
        ensures back { IfErr result (λ e. e.1 ≡ call) }
        ensures err { OnErr result (self.new ≡ self.old) }
        ensures other_maps { self.new.maps ≡ self.old.maps }
        ensures other_folds { self.new.folds ≡ self.old.folds }
    {
        self.groups.add(call)
    }

    /// Stores a fold's closure under its code, as `add_map` does a map's.
    pub fn add_fold(&mut self, call: F) -> Result<(), (CallsError, F)>
    where
        F: Coded + Drop,
        ensures ok { OnOk result (GainsCode F.code_of self.old.folds self.new.folds (F.code_of call)) }
        ensures used { IsErrAnd result (λ e. e.0 ≡ CallsError.CodeUsed) ↔ IsTrue (has_code F.code_of self.old.folds (F.code_of call)) }
        ensures refusals { IfErr result (λ e. (e.0 ≡ CallsError.CodeUsed) ⊎ (e.0 ≡ CallsError.Memory)) }
        ensures back { IfErr result (λ e. e.1 ≡ call) }
        ensures err { OnErr result (self.new ≡ self.old) }
        ensures other_maps { self.new.maps ≡ self.old.maps }
        ensures other_groups { self.new.groups ≡ self.old.groups }
    {
        self.folds.add(call)
    }
}

impl<L: Law, M: MapCall<L>, G: GroupCall<L>, F: FoldCall<L>> Closures<L> for Calls<M, G, F> {
    ghost stored = { λ c. record { map = has_code M.code_of c.maps; group = has_code G.code_of c.groups; fold = has_code F.code_of c.folds } };

    fn map(&self, code: u16, port: u8, rec: Rec) -> Option<Few> {
        let call = self.maps.find(code)?;
        Some(call.call(port, rec))
    }

    fn group(&self, code: u16, key: u64, items: &[Item]) -> Option<Few> {
        let call = self.groups.find(code)?;
        Some(call.call(key, items))
    }

    fn fold(
        &self,
        code: u16,
        key: u64,
        state: Option<State>,
        items: &[Item],
    ) -> Option<(Option<State>, Few)> {
        let call = self.folds.find(code)?;
        Some(call.call(key, state, items))
    }

    fn contains_map(&self, code: u16) -> bool {
        self.maps.find(code).is_some()
    }

    fn contains_group(&self, code: u16) -> bool {
        self.groups.find(code).is_some()
    }

    fn contains_fold(&self, code: u16) -> bool {
        self.folds.find(code).is_some()
    }
}
