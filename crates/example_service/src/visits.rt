//! The closure of this program, and the law that it answers.
//!
//! It counts records and adds up no values: a fold without a loop needs no proof file. `stock.rt` of td_calls has folds with one.
ghost use Rattle.std.specs.Prelude.{◌==◌, false};
ghost use Rattle.example_service.specs.Visits.{visits, visits_few};

use td_calls::{Closures, Law};
use td_stamp::{Few, Item, Rec, State};

/// The code of the fold.
const FOLD: u16 = 1;

/// The law, that a fold keeps how many visits each page has had and sends it; and the closure that answers it.
pub(crate) struct Visits;

impl Law for Visits {
    ghost answers = { visits };

    ghost few = { visits_few };
}

impl Closures<Visits> for Visits {
    ghost stored = { λ _. record { map = λ _. false; group = λ _. false; fold = λ code. code == 1 } };

    fn map(&self, _code: u16, _port: u8, _rec: Rec) -> Option<Few> {
        None
    }

    fn group(&self, _code: u16, _key: u64, _items: &[Item]) -> Option<Few> {
        None
    }

    fn fold(
        &self,
        code: u16,
        page: u64,
        state: Option<State>,
        items: &[Item],
    ) -> Option<(Option<State>, Few)> {
        if code != FOLD {
            return None;
        }
        let before = state.unwrap_or(State { a: 0, b: 0 });
        let visits = before.a.saturating_add_unsigned(items.len() as u64);
        let mut sent = Few::new();
        sent.push(Rec {
            key: page,
            val: visits,
        });
        Some((Some(State { a: visits, b: 0 }), sent))
    }

    fn contains_map(&self, _code: u16) -> bool {
        false
    }

    fn contains_group(&self, _code: u16) -> bool {
        false
    }

    fn contains_fold(&self, code: u16) -> bool {
        code == FOLD
    }
}
