//! The closures of the catalogue, of both shelves, with their law. None is stored: each is made of its code at each call.
ghost use Rattle.std.specs.Prelude.{◌≡◌, IfSome, is_some};
ghost use Rattle.td_plan.specs.declared.vertex.Kind.TheVariants.{Map, Group, Fold};
ghost use Rattle.td_calls.specs.Stock.{stock, map_answers, group_answers, fold_answers};
ghost use Rattle.td_catalogue.specs.Catalogue.{catalogue};
ghost use Rattle.td_catalogue.specs.ProvedCatalogue.{catalogue_few};
ghost use Rattle.td_catalogue.specs.Shelves.{codes, in_catalogue, is_first};

use crate::fold_step::FoldStep;
use crate::group_step::GroupStep;
use crate::map_step::MapStep;
use td_calls::{Closures, Law, stock};
use td_stamp::{Few, Item, Rec, State};

/// The law of the catalogue: what the second shelf answers for its codes, and the first for all others.
pub struct Catalogue;

impl Law for Catalogue {
    ghost answers = { catalogue };

    ghost few = { catalogue_few };
}

/// The closures of the catalogue.
#[derive(Clone, Copy, Debug)]
pub struct Shelves;

impl Closures<Catalogue> for Shelves {
    ghost stored = { λ _. codes };

    fn map(&self, code: u16, port: u8, rec: Rec) -> Option<Few> {
        match MapStep::of(code) {
            Some(step) => Some(step.sent(rec)),
            None => first_map(code, port, rec),
        }
    }

    fn group(&self, code: u16, key: u64, items: &[Item]) -> Option<Few> {
        match GroupStep::of(code) {
            Some(step) => Some(step.sent(key, items)),
            None => first_group(code, key, items),
        }
    }

    fn fold(
        &self,
        code: u16,
        key: u64,
        state: Option<State>,
        items: &[Item],
    ) -> Option<(Option<State>, Few)> {
        match FoldStep::of(code) {
            Some(step) => Some(step.sent(key, state, items)),
            None => first_fold(code, key, state, items),
        }
    }

    fn contains_map(&self, code: u16) -> bool {
        let any = Rec { key: 0, val: 0 };
        Closures::<Catalogue>::map(self, code, 0, any).is_some()
    }

    fn contains_group(&self, code: u16) -> bool {
        Closures::<Catalogue>::group(self, code, 0, &[]).is_some()
    }

    fn contains_fold(&self, code: u16) -> bool {
        Closures::<Catalogue>::fold(self, code, 0, None, &[]).is_some()
    }
}

/// What a map of the first shelf sends.
fn first_map(code: u16, port: u8, rec: Rec) -> Option<Few>
    ensures found { is_some result ≡ is_first map_answers code }
    ensures law { IfSome result (λ sent. sent.items ≡ stock.emit code port rec) }
{
    let sent = match code {
        1 => stock::same(port, rec),
        2 => stock::less(port, rec),
        3 => stock::even(port, rec),
        4 => stock::odd(port, rec),
        5 => stock::halved_key(port, rec),
        6 => stock::twice(port, rec),
        7 => stock::port(port, rec),
        8 => stock::above_zero(port, rec),
        9 => stock::next_key(port, rec),
        _ => return None,
    };
    Some(sent)
}

/// What a group of the first shelf sends.
fn first_group(code: u16, key: u64, items: &[Item]) -> Option<Few>
    ensures found { is_some result ≡ is_first group_answers code }
    ensures law { IfSome result (λ sent. sent.items ≡ stock.group code key items.now) }
{
    let sent = match code {
        20 => stock::count(key, items),
        21 => stock::sum(key, items),
        22 => stock::least(key, items),
        23 => stock::greatest(key, items),
        24 => stock::join_least(key, items),
        _ => return None,
    };
    Some(sent)
}

/// What a fold of the first shelf keeps and sends.
fn first_fold(
    code: u16,
    key: u64,
    state: Option<State>,
    items: &[Item],
) -> Option<(Option<State>, Few)>
    ensures found { is_some result ≡ is_first fold_answers code }
    ensures law { IfSome result (λ answer. (answer.0, answer.1.items) ≡ stock.fold code key state items.now) }
{
    let answer = match code {
        40 => stock::totalled(key, state, items),
        41 => stock::toggled(key, state, items),
        _ => return None,
    };
    Some(answer)
}
