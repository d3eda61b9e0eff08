//! The groups of the second shelf: which one a code is, and what it sends.
//!
//! Groups speak of items as they come: the last ones have the greatest values of one source. To sort the values of several
//! sources anew would take memory, which a closure does not have. A `map 1` before the group makes one source of several.
ghost use Rattle.std.specs.Prelude.{◌≡◌, ◌≤◌, ◌<◌, ◌^◌, ◌+◌, length, map, min, flat_map, option_to_list};
ghost use Rattle.std.specs.List.{range_with_len};
ghost use Rattle.td_catalogue.specs.Groups.{group_of, group_sent};
ghost use Rattle.td_catalogue.specs.Values.{averaged, last_items, pair_at, eight_from, under_value};

use crate::values::{count_at, count_of, nth_at, runs, single, sum_from, with_one};
use td_stamp::{Few, Item, Rec};

/// A group. Items come sorted by (port, value): what is said of values is said of one source.
#[derive(Clone, Copy, Debug, PartialEq, Eq)]
pub enum GroupStep {
    /// How many values differ.
    DistinctValues,
    /// The P greatest values, or all where there are no more; 8 at most.
    GreatestValues(u8),
    /// The sum of the values divided by their number, rounded down.
    Average,
    /// Of each item of port 0 and each of port 1 the value of the first, under that of the second as the key: of all such pairs those of
    /// the numbers 8 P to 8 P + 7.
    Pairs(u8),
}

impl GroupStep {
    /// The group of this code, if the second shelf has one.
    pub fn of(code: u16) -> Option<GroupStep>
        ensures { result ≡ group_of code }
    {
        match code {
            9100 => Some(GroupStep::DistinctValues),
            9101..=9108 => Some(GroupStep::GreatestValues((code - 9100) as u8)),
            9109 => Some(GroupStep::Average),
            9110..=9119 => Some(GroupStep::Pairs((code - 9110) as u8)),
            _ => None,
        }
    }

    /// What it sends of a key and its sorted items.
    pub fn sent(self, key: u64, items: &[Item]) -> Few
        ensures { result.items ≡ group_sent self key items.now }
    {
        match self {
            GroupStep::DistinctValues => single(key, runs(items)),
            GroupStep::GreatestValues(n) => greatest(n, key, items),
            GroupStep::Average => averaged(key, sum_from(0, items), count_of(items)),
            GroupStep::Pairs(i) => pairs(i, items),
        }
    }
}

/// The values of the last `n` items, 8 at most.
fn greatest(n: u8, key: u64, items: &[Item]) -> Few
    ensures { result.items ≡ map (λ i. record { key = key; val = i.val }) (last_items (min n 8) items.now) }
{
    let first = items.len().saturating_sub(usize::from(n.min(8)));
    let mut few = Few::new();
    for item in &items[first..] {
        few.push(Rec { key, val: item.val });
    }
    few
}

/// The sum divided by how many there are, rounded down; nothing of none.
pub(crate) fn averaged(key: u64, sum: i64, count: i64) -> Few
    ensures { result.items ≡ averaged key sum count }
{
    if count > 0 {
        single(key, sum.div_euclid(count))
    } else {
        Few::new()
    }
}

/// The pairs of the numbers 8 i to 8 i + 7. A closure answers at most eight records, so a plan that needs more pairs has several
/// groups. Pairs behind the last group of a plan are left out, and nothing says so.
fn pairs(i: u8, items: &[Item]) -> Few
    ensures { result.items ≡ eight_from i (pair_at items.now) }
{
    let first = 8 * usize::from(i);
    let mut few = Few::new();
    for k in first..first + 8 {
        few = with_one(few, pair_at(k, items));
    }
    few
}

/// The pair of number `k`, if there is one. It takes O(n) time.
fn pair_at(k: usize, items: &[Item]) -> Option<Rec>
    ensures { result ≡ pair_at items.now k }
{
    let seconds = count_at(1, items);
    if seconds == 0 {
        return None;
    }
    let first = nth_at(0, k / seconds, items)?;
    let second = nth_at(1, k % seconds, items)?;
    Some(under_value(first.val, second))
}

/// The item's value as a key, with this value.
pub(crate) fn under_value(val: i64, item: Item) -> Rec
    ensures { result ≡ under_value val item }
{
    Rec {
        key: item.val.cast_unsigned(),
        val,
    }
}
