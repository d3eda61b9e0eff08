//! The catalogue of closures that the program has, and the functions that do their work.
ghost use Rattle.std.specs.Prelude.{◌≡◌, [], ◌∷◌, pos, length, min, ◌-◌, ◌^◌};
ghost use Rattle.td_calls.specs.Stock.{stock, single, record_if, sum_from, is_even, at_port};
ghost use Rattle.td_calls.specs.ProvedStock.{stock_few};
ghost use Rattle.td_calls.specs.Steps.{least_of, greatest_of, lower, last_of};

use crate::law::Law;
use td_stamp::{Few, Item, Rec, State};

/// The law of the catalogue: maps 1 to 9, groups 20 to 24, folds 40 and 41.
pub struct Stock;

impl Law for Stock {
    ghost answers = { stock };

    ghost few = { stock_few };
}

/// The one record.
fn single(key: u64, val: i64) -> Few
    ensures { result.items ≡ single key val }
{
    let mut few = Few::new();
    few.push(Rec { key, val });
    few
}

/// The record where `test` holds, else nothing.
fn record_if(test: bool, rec: Rec) -> Few
    ensures { result.items ≡ record_if test rec }
{
    let mut few = Few::new();
    if test {
        few.push(rec);
    }
    few
}

/// Whether 2 divides it.
fn is_even(val: i64) -> bool
    ensures { result ≡ is_even val }
{
    val % 2 == 0
}

/// Map 1: the record.
pub fn same(_port: u8, rec: Rec) -> Few
    ensures { result.items ≡ stock.emit 1 _port rec }
{
    single(rec.key, rec.val)
}

/// Map 2: one less.
pub fn less(_port: u8, rec: Rec) -> Few
    ensures { result.items ≡ stock.emit 2 _port rec }
{
    single(rec.key, rec.val.saturating_add(-1))
}

/// Map 3: the record where its val is even.
pub fn even(_port: u8, rec: Rec) -> Few
    ensures { result.items ≡ stock.emit 3 _port rec }
{
    record_if(is_even(rec.val), rec)
}

/// Map 4: the record where its val is odd.
pub fn odd(_port: u8, rec: Rec) -> Few
    ensures { result.items ≡ stock.emit 4 _port rec }
{
    record_if(!is_even(rec.val), rec)
}

/// Map 5: under half of its key, rounded down.
pub fn halved_key(_port: u8, rec: Rec) -> Few
    ensures { result.items ≡ stock.emit 5 _port rec }
{
    single(rec.key / 2, rec.val)
}

/// Map 6: the record twice.
pub fn twice(port: u8, rec: Rec) -> Few
    ensures { result.items ≡ stock.emit 6 port rec }
{
    let mut few = same(port, rec);
    few.push(rec);
    few
}

/// Map 7: the port at which it arrived, under its key.
pub fn port(port: u8, rec: Rec) -> Few
    ensures { result.items ≡ stock.emit 7 port rec }
{
    single(rec.key, i64::from(port))
}

/// Map 8: the record where its val is above 0.
pub fn above_zero(_port: u8, rec: Rec) -> Few
    ensures { result.items ≡ stock.emit 8 _port rec }
{
    record_if(rec.val > 0, rec)
}

/// Map 9: under the next of the keys 0 to 3, after 3 comes 0.
pub fn next_key(_port: u8, rec: Rec) -> Few
    ensures { result.items ≡ stock.emit 9 _port rec }
{
    single((rec.key % 4 + 1) % 4, rec.val)
}

/// The number of items, at most the greatest i64.
fn counted(items: &[Item]) -> i64
    ensures { result ≡ pos (min (length items.now) (2 ^ 63 - 1)) }
{
    items.len().min(i64::MAX as usize) as i64
}

/// `start`, continued by the vals in order; it stops at the ends of i64.
fn sum_from(start: i64, items: &[Item]) -> i64
    ensures { result ≡ sum_from start items.now }
{
    let mut sum = start;
    for item in items {
        sum = sum.saturating_add(item.val);
    }
    sum
}

/// The least val, where there is one.
fn least_of(items: &[Item]) -> Option<i64>
    ensures { result ≡ least_of items.now }
{
    let (first, others) = items.split_first()?;
    let mut low = first.val;
    for item in others {
        low = low.min(item.val);
    }
    Some(low)
}

/// The greatest val, where there is one.
fn greatest_of(items: &[Item]) -> Option<i64>
    ensures { result ≡ greatest_of items.now }
{
    let (first, others) = items.split_first()?;
    let mut high = first.val;
    for item in others {
        high = high.max(item.val);
    }
    Some(high)
}

/// The least val of one port, where there is one.
fn least_at(port: u8, items: &[Item]) -> Option<i64>
    ensures { result ≡ least_of (at_port port items.now) }
{
    let mut low = None;
    for item in items {
        if item.port == port {
            low = Some(lower(low, item.val));
        }
    }
    low
}

/// The lower of a val and the least one before it, where there is one.
fn lower(low: Option<i64>, val: i64) -> i64
    ensures { result ≡ lower low val }
{
    match low {
        Some(low) => low.min(val),
        None => val,
    }
}

/// Group 20: the number of items.
pub fn count(key: u64, items: &[Item]) -> Few
    ensures { result.items ≡ stock.group 20 key items.now }
{
    single(key, counted(items))
}

/// Group 21: the sum of the vals.
pub fn sum(key: u64, items: &[Item]) -> Few
    ensures { result.items ≡ stock.group 21 key items.now }
{
    single(key, sum_from(0, items))
}

/// Group 22: the least val.
pub fn least(key: u64, items: &[Item]) -> Few
    ensures { result.items ≡ stock.group 22 key items.now }
{
    match least_of(items) {
        Some(val) => single(key, val),
        None => Few::new(),
    }
}

/// Group 23: the greatest val.
pub fn greatest(key: u64, items: &[Item]) -> Few
    ensures { result.items ≡ stock.group 23 key items.now }
{
    match greatest_of(items) {
        Some(val) => single(key, val),
        None => Few::new(),
    }
}

/// Group 24: the sum of the least vals of ports 0 and 1, where both have items.
pub fn join_least(key: u64, items: &[Item]) -> Few
    ensures { result.items ≡ stock.group 24 key items.now }
{
    match (least_at(0, items), least_at(1, items)) {
        (Some(left), Some(right)) => single(key, left.saturating_add(right)),
        _ => Few::new(),
    }
}

/// The val of the last item, where there is one.
fn last_of(items: &[Item]) -> Option<i64>
    ensures { result ≡ last_of items.now }
{
    items.last().map(|item| item.val)
}

/// Fold 40: the sum of the vals so far, and the number of items so far; it sends the sum.
pub fn totalled(key: u64, state: Option<State>, items: &[Item]) -> (Option<State>, Few)
    ensures { (result.0, result.1.items) ≡ stock.fold 40 key state items.now }
{
    let before = state.unwrap_or(State { a: 0, b: 0 });
    let a = sum_from(before.a, items);
    let b = before.b.saturating_add_unsigned(items.len() as u64);
    (Some(State { a, b }), single(key, a))
}

/// Fold 41: the last val, kept at every other time; it sends whether it is kept.
pub fn toggled(key: u64, state: Option<State>, items: &[Item]) -> (Option<State>, Few)
    ensures { (result.0, result.1.items) ≡ stock.fold 41 key state items.now }
{
    if state.is_some() {
        return (None, single(key, 0));
    }
    match last_of(items) {
        Some(a) => (Some(State { a, b: 0 }), single(key, 1)),
        None => (None, Few::new()),
    }
}
