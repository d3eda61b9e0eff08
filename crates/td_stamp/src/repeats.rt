//! Bags that are kept as a tree, with how often each member stands in them.
ghost use Rattle.std.specs.Prelude.{◌≡◌, ◌+◌, ◌^◌, ◌<◌, ◌++◌, ◌⊎◌, OnOk, OnErr, IfOk, [], length};
ghost use Rattle.td_stamp.specs.Bag.{bag_insert, bag_of, members, IsBag};

use crate::error::StampError;
use crate::member::Member;
use std::alloc::Global;
use std::collections::BTreeMap;

/// Counts one `member` more. Refusal: `Memory`, with as many of each as before.
pub(crate) fn count_one<T: Member>(
    counts: &mut BTreeMap<T, u64>,
    member: T,
) -> Result<(), StampError>
    requires fits { length (members counts.old.entries) + 1 < 2 ^ 64 }
    ensures ok { OnOk result (members counts.new.entries ≡ bag_insert T.cmp member (members counts.old.entries)) }
    ensures err { OnErr result (members counts.new.entries ≡ members counts.old.entries) }
{
    let count = counts.get(&member).copied().unwrap_or(0);
    counts.insert(member, count + 1)?;
    Ok(())
}

/// Puts the members that stand in order into the counts, if there are any. Refusal: `Memory`, with nothing changed.
pub(crate) fn count_in<T: Member>(
    alloc: Global,
    in_order: &mut Vec<T>,
    counts: &mut BTreeMap<T, u64>,
) -> Result<(), StampError>
    requires bag { IsBag T.cmp in_order.old.items }
    requires fits { length in_order.old.items < 2 ^ 64 }
    requires apart { (in_order.old.items ≡ []) ⊎ (members counts.old.entries ≡ []) }
    ensures ok { OnOk result (in_order.new.items ≡ []) }
    ensures all { OnOk result (members counts.new.entries ≡ in_order.old.items ++ members counts.old.entries) }
    ensures err { OnErr result ((in_order.new.items ≡ in_order.old.items) × (members counts.new.entries ≡ members counts.old.entries)) }
{
    if !in_order.is_empty() {
        *counts = counted(alloc, in_order.as_slice())?;
        *in_order = Vec::new(alloc);
    }
    Ok(())
}

/// How often each of these stands in their bag. Refusal: `Memory`.
fn counted<T: Member>(alloc: Global, list: &[T]) -> Result<BTreeMap<T, u64>, StampError>
    requires { length list.now < 2 ^ 64 }
    ensures { IfOk result (λ counts. members counts.entries ≡ bag_of T.cmp list.now) }
{
    let mut counts = BTreeMap::new(alloc);
    for member in list {
        count_one(&mut counts, *member)?;
    }
    Ok(counts)
}
