//! What the closures find in the items of a key.
ghost use Rattle.std.specs.Prelude.{◌≡◌, ◌+◌, ◌<◌, [], ◌∷◌, ◌++◌, pos, length, Option, option_to_list};
ghost use Rattle.std.specs.List.{slice_get};
ghost use Rattle.td_calls.specs.Stock.{sum_from, at_port, single, record_if};
ghost use Rattle.td_catalogue.specs.Values.{divisor, count_of, runs, with_run, higher, lower, latest};

use td_stamp::{Few, Item, Rec};

/// What divides: P, and 1,000 where P is 0.
pub(crate) fn divisor(p: u16) -> u16
    ensures value { result ≡ divisor p }
    ensures positive { 0 < result }
{
    if p == 0 { 1000 } else { p }
}

/// The one record.
pub(crate) fn single(key: u64, val: i64) -> Few
    ensures { result.items ≡ single key val }
{
    let mut few = Few::new();
    few.push(Rec { key, val });
    few
}

/// The record where `test` holds, else nothing.
pub(crate) fn record_if(test: bool, rec: Rec) -> Few
    ensures { result.items ≡ record_if test rec }
{
    let mut few = Few::new();
    if test {
        few.push(rec);
    }
    few
}

/// The number of items, at most the greatest i64.
pub(crate) fn count_of(items: &[Item]) -> i64
    ensures { result ≡ count_of items.now }
{
    items.len().min(i64::MAX as usize) as i64
}

/// `start`, continued by the values in order; it stops at the ends of i64.
pub(crate) fn sum_from(start: i64, items: &[Item]) -> i64
    ensures { result ≡ sum_from start items.now }
{
    let mut sum = start;
    for item in items {
        sum = sum.saturating_add(item.val);
    }
    sum
}

/// The sum of one port's values.
pub(crate) fn sum_at(port: u8, items: &[Item]) -> i64
    ensures { result ≡ sum_from (pos 0) (at_port port items.now) }
{
    let mut sum = 0i64;
    for item in items {
        if item.port == port {
            sum = sum.saturating_add(item.val);
        }
    }
    sum
}

/// How many items one port has.
pub(crate) fn count_at(port: u8, items: &[Item]) -> usize
    ensures { result ≡ length (at_port port items.now) }
{
    let mut count = 0usize;
    for item in items {
        if item.port == port {
            count += 1;
        }
    }
    count
}

/// The item of number `k` of one port, from 0, if there is one. It takes O(n) time.
pub(crate) fn nth_at(port: u8, k: usize, items: &[Item]) -> Option<Item>
    ensures { result ≡ slice_get (at_port port items.now) k }
{
    let mut left = k;
    for item in items {
        if item.port == port {
            if left == 0 {
                return Some(*item);
            }
            left -= 1;
        }
    }
    None
}

/// The last value of port 1, or the one before, if there is one.
pub(crate) fn latest(before: Option<i64>, items: &[Item]) -> Option<i64>
    ensures { result ≡ latest before items.now }
{
    let mut last = before;
    for item in items {
        if item.port == 1 {
            last = Some(item.val);
        }
    }
    last
}

/// The higher of a value and the one before it, if there is one.
pub(crate) fn higher(before: Option<i64>, val: i64) -> i64
    ensures { result ≡ higher before val }
{
    match before {
        Some(before) => before.max(val),
        None => val,
    }
}

/// The lower of a value and the one before it, if there is one.
pub(crate) fn lower(before: Option<i64>, val: i64) -> i64
    ensures { result ≡ lower before val }
{
    match before {
        Some(before) => before.min(val),
        None => val,
    }
}

/// A value after those before it: the last one, and how many runs of equal values there are so far.
fn with_run(seen: (Option<i64>, i64), val: i64) -> (Option<i64>, i64)
    ensures { result ≡ with_run seen val }
{
    let runs = match seen.0 {
        Some(before) if before == val => seen.1,
        _ => seen.1.saturating_add(1),
    };
    (Some(val), runs)
}

/// How many runs of equal values, one after another, the items have.
pub(crate) fn runs(items: &[Item]) -> i64
    ensures { result ≡ runs items.now }
{
    let mut seen = (None, 0i64);
    for item in items {
        seen = with_run(seen, item.val);
    }
    seen.1
}

/// One record more, if there is one.
pub(crate) fn with_one(few: Few, rec: Option<Rec>) -> Few
    requires { length few.items < 8 }
    ensures { result.items ≡ few.items ++ option_to_list rec }
{
    let mut few = few;
    if let Some(rec) = rec {
        few.push(rec);
    }
    few
}
