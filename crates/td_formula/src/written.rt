//! The law of closures that are written as formulas, and the calls that answer it.
ghost use Rattle.std.specs.Prelude.{◌≡◌, List, [], is_some};
ghost use Rattle.std.specs.Option.{option_copied};
ghost use Rattle.td_formula.specs.declared.closure.Closure.{Closure};
ghost use Rattle.td_formula.specs.declared.closure.ClosureKind.{ClosureKind};
ghost use Rattle.td_formula.specs.Stored.{codes_of};
ghost use Rattle.td_formula.specs.Written.{is_kind, is_at, closure_at, answers_of};
ghost use Rattle.td_formula.specs.ProvedWritten.{few_of};

use crate::closure::{Closure, ClosureKind};
use std::marker::{Brand, PhantomData};
use td_calls::{Closures, Law};
use td_stamp::{Few, Item, Rec, State};

/// Closures that are known at run time: a type parameter stands for them. At `Brand` a call picks them.
pub trait Formulas {
    ghost closures: { List Closure };
}

impl Formulas for Brand {
    ghost closures = { [] };
}

/// The law of these closures.
#[derive(Drop)]
pub struct Written<F> {
    of: PhantomData<F>,
}

impl<F: Formulas> Law for Written<F> {
    ghost answers = { answers_of F.closures };

    ghost few = { few_of F.closures };
}

impl ClosureKind {
    /// Whether it is this kind.
    fn is_kind(self, kind: ClosureKind) -> bool
        ensures { result ≡ is_kind self kind }
    {
        match (self, kind) {
            (ClosureKind::Map, ClosureKind::Map) => true,
            (ClosureKind::Group, ClosureKind::Group) => true,
            (ClosureKind::Fold, ClosureKind::Fold) => true,
            _ => false,
        }
    }
}

/// The closure of this kind and code, of those from 10,000 on.
fn closure_at(kind: ClosureKind, closures: &[Closure], code: u16) -> Option<&Closure>
    ensures { option_copied result ≡ closure_at kind closures.now code }
{
    if code < 10_000 {
        return None;
    }
    for closure in closures {
        if kind.is_kind(closure.kind) && closure.code == code {
            return Some(closure);
        }
    }
    None
}

/// These closures, which answer their law. A call takes O(n) time for n closures, beside what it computes, and no memory.
#[derive(Drop)]
pub struct WrittenCalls<F: Formulas> {
    closures: Vec<Closure>,
    of: PhantomData<F>,
    ghost stand: { closures.items ≡ F.closures },
}

impl<F: Formulas> WrittenCalls<F> {
    /// The calls of these closures.
    pub fn new(closures: Vec<Closure>) -> Self
        requires { closures.items ≡ F.closures }
    {
        WrittenCalls {
            closures,
            of: PhantomData,
        }
    }
}

impl<F: Formulas> Closures<Written<F>> for WrittenCalls<F> {
    ghost stored = { λ calls. codes_of F.closures };

    fn map(&self, code: u16, port: u8, rec: Rec) -> Option<Few> {
        let closure = closure_at(ClosureKind::Map, &self.closures, code)?;
        Some(closure.map_sent(port, rec))
    }

    fn group(&self, code: u16, key: u64, items: &[Item]) -> Option<Few> {
        let closure = closure_at(ClosureKind::Group, &self.closures, code)?;
        Some(closure.group_sent(key, items))
    }

    fn fold(
        &self,
        code: u16,
        key: u64,
        state: Option<State>,
        items: &[Item],
    ) -> Option<(Option<State>, Few)> {
        let closure = closure_at(ClosureKind::Fold, &self.closures, code)?;
        Some(closure.fold_sent(key, state, items))
    }

    fn contains_map(&self, code: u16) -> bool {
        closure_at(ClosureKind::Map, &self.closures, code).is_some()
    }

    fn contains_group(&self, code: u16) -> bool {
        closure_at(ClosureKind::Group, &self.closures, code).is_some()
    }

    fn contains_fold(&self, code: u16) -> bool {
        closure_at(ClosureKind::Fold, &self.closures, code).is_some()
    }
}
