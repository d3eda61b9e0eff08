//! The folds of the second shelf: which one a code is, what it keeps and what it sends.
ghost use Rattle.std.specs.Prelude.{◌≡◌, ◌≤◌, ◌<◌, ◌^◌, ◌+◌, Option, ℤ, pos, fold, length, unwrap_or, flat_map, option_to_list};
ghost use Rattle.std.specs.List.{range_with_len};
ghost use Rattle.td_stamp.specs.declared.values.State.{State};
ghost use Rattle.td_calls.specs.Stock.{saturating_add};
ghost use Rattle.td_catalogue.specs.Folds.{fold_of, fold_sent, value_of, kept, average_so_far, two_greatest, amount, visited, lowest, state_of};
ghost use Rattle.td_catalogue.specs.Values.{higher, lower, later, chosen, with_third, balanced, with_visit, joined_at, eight_from};

use crate::group_step::{averaged, under_value};
use crate::values::{count_at, higher, latest, lower, nth_at, single, sum_at, sum_from, with_one};
use td_stamp::{Few, Item, Rec, State};

/// A fold.
#[derive(Clone, Copy, Debug, PartialEq, Eq)]
pub enum FoldStep {
    /// The greatest value so far.
    GreatestSoFar,
    /// The least value so far.
    LeastSoFar,
    /// The last value: the greatest of the last epoch, where there is one source.
    LastValue,
    /// How many items there are so far.
    CountSoFar,
    /// The sum of the values so far divided by their number, rounded down.
    AverageSoFar,
    /// The two greatest values so far.
    TwoGreatest,
    /// The sum of the values so far, which never falls below 0.
    Balance,
    /// The sum of the values of port 0, times the last value of port 1 so far.
    Amount,
    /// Of each item of port 0 the last value of port 1 so far, under the item's value as the key: of these those of the numbers 8 P to
    /// 8 P + 7.
    Joined(u8),
    /// How many sessions there are so far: one begins at the first value, and at each that is more than P above the greatest before it.
    Sessions(u16),
}

impl FoldStep {
    /// The fold of this code, if the second shelf has one.
    pub fn of(code: u16) -> Option<FoldStep>
        ensures { result ≡ fold_of code }
    {
        match code {
            9200 => Some(FoldStep::GreatestSoFar),
            9201 => Some(FoldStep::LeastSoFar),
            9202 => Some(FoldStep::LastValue),
            9203 => Some(FoldStep::CountSoFar),
            9204 => Some(FoldStep::AverageSoFar),
            9205 => Some(FoldStep::TwoGreatest),
            9206 => Some(FoldStep::Balance),
            9207 => Some(FoldStep::Amount),
            9210..=9219 => Some(FoldStep::Joined((code - 9210) as u8)),
            9300..=9399 => Some(FoldStep::Sessions(code - 9300)),
            _ => None,
        }
    }

    /// The state that it keeps of a key, which had `state`, at these sorted items, and what it sends.
    pub fn sent(self, key: u64, state: Option<State>, items: &[Item]) -> (Option<State>, Few)
        ensures { (result.0, result.1.items) ≡ fold_sent self key state items.now }
    {
        let before = value_of(state);
        match self {
            FoldStep::GreatestSoFar => kept(key, greatest_so_far(before, items)),
            FoldStep::LeastSoFar => kept(key, least_so_far(before, items)),
            FoldStep::LastValue => kept(key, last_value(before, items)),
            FoldStep::CountSoFar => kept(key, Some(counted(before.unwrap_or(0), items))),
            FoldStep::AverageSoFar => {
                average_so_far(key, state.unwrap_or(State { a: 0, b: 0 }), items)
            }
            FoldStep::TwoGreatest => two_greatest(key, greatest_two(state, items)),
            FoldStep::Balance => kept(key, Some(balanced(before.unwrap_or(0), items))),
            FoldStep::Amount => {
                let last = latest(before, items);
                (state_of(last), amount(key, last, items))
            }
            FoldStep::Joined(i) => {
                let last = latest(before, items);
                (state_of(last), joined(i, last, items))
            }
            FoldStep::Sessions(gap) => visited(key, visits(gap, state, items)),
        }
    }
}

/// The value of a state.
fn value_of(state: Option<State>) -> Option<i64>
    ensures { result ≡ value_of state }
{
    state.map(|state| state.a)
}

/// A state of a value alone.
fn state_of(value: Option<i64>) -> Option<State>
    ensures { result ≡ state_of value }
{
    value.map(|a| State { a, b: 0 })
}

/// The value is kept and sent; nothing where there is none.
fn kept(key: u64, value: Option<i64>) -> (Option<State>, Few)
    ensures { (result.0, result.1.items) ≡ kept key value }
{
    match value {
        Some(a) => (Some(State { a, b: 0 }), single(key, a)),
        None => (None, Few::new()),
    }
}

/// The greatest of the values and the one before them, if there is one.
fn greatest_so_far(before: Option<i64>, items: &[Item]) -> Option<i64>
    ensures { result ≡ chosen higher before items.now }
{
    let mut high = before;
    for item in items {
        high = Some(higher(high, item.val));
    }
    high
}

/// The least of the values and the one before them, if there is one.
fn least_so_far(before: Option<i64>, items: &[Item]) -> Option<i64>
    ensures { result ≡ chosen lower before items.now }
{
    let mut low = before;
    for item in items {
        low = Some(lower(low, item.val));
    }
    low
}

/// The value of the last item, or the one before, if there is one.
fn last_value(before: Option<i64>, items: &[Item]) -> Option<i64>
    ensures { result ≡ chosen later before items.now }
{
    let mut last = before;
    for item in items {
        last = Some(item.val);
    }
    last
}

/// So many items more.
fn counted(before: i64, items: &[Item]) -> i64
    ensures { result ≡ saturating_add before (pos (length items.now)) }
{
    before.saturating_add_unsigned(items.len() as u64)
}

/// The sum of the values so far, and their number; the average is sent.
fn average_so_far(key: u64, before: State, items: &[Item]) -> (Option<State>, Few)
    ensures { (result.0, result.1.items) ≡ average_so_far key before items.now }
{
    let a = sum_from(before.a, items);
    let b = counted(before.b, items);
    (Some(State { a, b }), averaged(key, a, b))
}

/// The two greatest values so far, from these on, or from none.
fn greatest_two(state: Option<State>, items: &[Item]) -> State
    ensures { result ≡ fold (λ two i. with_third two i.val) (unwrap_or state (record { a = lowest; b = lowest })) items.now }
{
    let none = State {
        a: i64::MIN,
        b: i64::MIN,
    };
    let mut two = state.unwrap_or(none);
    for item in items {
        two = with_third(two, item.val);
    }
    two
}

/// The two greatest of three values.
fn with_third(two: State, val: i64) -> State
    ensures { result ≡ with_third two val }
{
    if two.a < val {
        State { a: val, b: two.a }
    } else if two.b < val {
        State { a: two.a, b: val }
    } else {
        two
    }
}

/// The two values are kept and sent; a second one that is the least of all stands for none. A state is two numbers, and has no
/// third one for how many there are.
fn two_greatest(key: u64, two: State) -> (Option<State>, Few)
    ensures { (result.0, result.1.items) ≡ two_greatest key two }
{
    let mut few = single(key, two.a);
    if i64::MIN < two.b {
        few.push(Rec { key, val: two.b });
    }
    (Some(two), few)
}

/// A balance, which never falls below 0.
fn balanced(before: i64, items: &[Item]) -> i64
    ensures { result ≡ balanced before items.now }
{
    let mut balance = before;
    for item in items {
        balance = balance.saturating_add(item.val).max(0);
    }
    balance
}

/// The sum of port 0's values times the last value of port 1, where there are both.
fn amount(key: u64, last: Option<i64>, items: &[Item]) -> Few
    ensures { result.items ≡ amount key last items.now }
{
    match last {
        Some(last) if count_at(0, items) > 0 => {
            single(key, sum_at(0, items).saturating_mul(last))
        }
        _ => Few::new(),
    }
}

/// The values of port 0 of the numbers 8 i to 8 i + 7, each as a key with the last value of port 1. An item before the first
/// value of port 1 is not joined, and not kept for later: a state is two numbers, and no list.
fn joined(i: u8, last: Option<i64>, items: &[Item]) -> Few
    ensures { result.items ≡ eight_from i (joined_at last items.now) }
{
    let first = 8 * usize::from(i);
    let mut few = Few::new();
    for k in first..first + 8 {
        few = with_one(few, joined_at(k, last, items));
    }
    few
}

/// The item of number `k` of port 0, under its value with this one, if there is one.
fn joined_at(k: usize, last: Option<i64>, items: &[Item]) -> Option<Rec>
    ensures { result ≡ joined_at last items.now k }
{
    let last = last?;
    let item = nth_at(0, k, items)?;
    Some(under_value(last, item))
}

/// The greatest value so far, and how many sessions there are.
fn visits(gap: u16, state: Option<State>, items: &[Item]) -> Option<State>
    ensures { result ≡ fold (λ s i. Some (with_visit gap s i.val)) state items.now }
{
    let mut visits = state;
    for item in items {
        visits = Some(with_visit(gap, visits, item.val));
    }
    visits
}

/// One value more.
fn with_visit(gap: u16, state: Option<State>, val: i64) -> State
    ensures { result ≡ with_visit gap state val }
{
    let Some(before) = state else {
        return State { a: val, b: 1 };
    };
    let a = before.a.max(val);
    if before.a.saturating_add(i64::from(gap)) < val {
        State {
            a,
            b: before.b.saturating_add(1),
        }
    } else {
        State { a, b: before.b }
    }
}

/// What is kept is sent: how many sessions there are.
fn visited(key: u64, visits: Option<State>) -> (Option<State>, Few)
    ensures { (result.0, result.1.items) ≡ visited key visits }
{
    match visits {
        Some(state) => (visits, single(key, state.b)),
        None => (None, Few::new()),
    }
}
