//! Closures that are written as formulas beside others: those have the codes below 10,000, these the codes from there on.
ghost use Rattle.std.specs.Prelude.{◌≡◌};
ghost use Rattle.td_formula.specs.Beside.{beside, beside_few};
ghost use Rattle.td_formula.specs.ProvedWritten.{few_of};
ghost use Rattle.td_formula.specs.Stored.{codes_beside, codes_of};
ghost use Rattle.td_formula.specs.Written.{answers_of};

use crate::written::{Formulas, Written, WrittenCalls};
use std::marker::PhantomData;
use td_calls::{Closures, Law};
use td_stamp::{Few, Item, Rec, State};

/// The law: what `L` says of a code below 10,000, and what the closures that are written say of the others.
#[derive(Drop)]
pub struct Beside<L, F> {
    below: PhantomData<L>,
    above: PhantomData<F>,
}

impl<L: Law, F: Formulas> Law for Beside<L, F> {
    ghost answers = { beside L.answers (answers_of F.closures) };

    ghost few = { beside_few L.answers (answers_of F.closures) L.few (few_of F.closures) };
}

/// The closures of both.
#[derive(Drop)]
pub struct BesideCalls<C, F: Formulas> {
    pub below: C,
    pub above: WrittenCalls<F>,
}

impl<L: Law, C: Closures<L>, F: Formulas> Closures<Beside<L, F>> for BesideCalls<C, F> {
    ghost stored = { λ calls. codes_beside (C.stored calls.below) (codes_of F.closures) };

    fn map(&self, code: u16, port: u8, rec: Rec) -> Option<Few> {
        if code < 10_000 {
            Closures::<L>::map(&self.below, code, port, rec)
        } else {
            Closures::<Written<F>>::map(&self.above, code, port, rec)
        }
    }

    fn group(&self, code: u16, key: u64, items: &[Item]) -> Option<Few> {
        if code < 10_000 {
            Closures::<L>::group(&self.below, code, key, items)
        } else {
            Closures::<Written<F>>::group(&self.above, code, key, items)
        }
    }

    fn fold(
        &self,
        code: u16,
        key: u64,
        state: Option<State>,
        items: &[Item],
    ) -> Option<(Option<State>, Few)> {
        if code < 10_000 {
            Closures::<L>::fold(&self.below, code, key, state, items)
        } else {
            Closures::<Written<F>>::fold(&self.above, code, key, state, items)
        }
    }

    fn contains_map(&self, code: u16) -> bool {
        if code < 10_000 {
            Closures::<L>::contains_map(&self.below, code)
        } else {
            Closures::<Written<F>>::contains_map(&self.above, code)
        }
    }

    fn contains_group(&self, code: u16) -> bool {
        if code < 10_000 {
            Closures::<L>::contains_group(&self.below, code)
        } else {
            Closures::<Written<F>>::contains_group(&self.above, code)
        }
    }

    fn contains_fold(&self, code: u16) -> bool {
        if code < 10_000 {
            Closures::<L>::contains_fold(&self.below, code)
        } else {
            Closures::<Written<F>>::contains_fold(&self.above, code)
        }
    }
}
