//! The closures of the catalogue that the rows' plans call for.
use td_calls::{Closures, Stock, stock};
use td_stamp::{Few, Item, Rec, State};

/// These closures, or none.
#[derive(Clone, Copy)]
pub(crate) struct Catalogue {
    pub is_there: bool,
}

impl Closures<Stock> for Catalogue {
    ghost use Rattle.feed_steps.specs.Codes.{codes};

    ghost stored = { codes };

    fn map(&self, code: u16, port: u8, rec: Rec) -> Option<Few> {
        match code {
            1 if self.is_there => Some(stock::same(port, rec)),
            _ => None,
        }
    }

    fn group(&self, code: u16, key: u64, items: &[Item]) -> Option<Few> {
        match code {
            20 if self.is_there => Some(stock::count(key, items)),
            _ => None,
        }
    }

    fn fold(
        &self,
        code: u16,
        key: u64,
        state: Option<State>,
        items: &[Item],
    ) -> Option<(Option<State>, Few)> {
        match code {
            40 if self.is_there => Some(stock::totalled(key, state, items)),
            41 if self.is_there => Some(stock::toggled(key, state, items)),
            _ => None,
        }
    }

    fn contains_map(&self, code: u16) -> bool {
        self.is_there && code == 1
    }

    fn contains_group(&self, code: u16) -> bool {
        self.is_there && code == 20
    }

    fn contains_fold(&self, code: u16) -> bool {
        self.is_there && (code == 40 || code == 41)
    }
}
