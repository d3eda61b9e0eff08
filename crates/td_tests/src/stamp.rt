//! What the program does not call, and many members.
use std::test::Fail;
use td_stamp::{Arrival, Bag, Item, Rec};

fn rec(key: u64, val: i64) -> Rec {
    Rec { key, val }
}

#[test]
fn bags_are_joined_and_copied(rt: HostRuntime) -> Result<(), Fail> {
    let mut left = Bag::new(rt.alloc());
    assert!(rt; left.is_empty());
    left.add(rec(7, 1))?;
    let mut right = Bag::from_vec(rt.alloc(), [rec(9, 0), rec(7, 1)].to_vec(rt.alloc())?);
    right.join(&left)?;
    assert!(rt; right == right.copy()? && right != left);
    assert_eq!(rt; right.len(), 3);
    assert_eq!(rt; right.list().next(), Some(rec(7, 1)));
    Ok(())
}

#[test]
fn arrivals_are_grouped_by_key(rt: HostRuntime) -> Result<(), Fail> {
    let item = Item { port: 0, val: 9 };
    let mut bag = Bag::new(rt.alloc());
    bag.add(Arrival { key: 8, item })?;
    let groups = bag.groups()?;
    assert_eq!(rt; groups.len(), 1);
    assert_eq!(rt; (groups[0].key(), groups[0].items().len()), (8, 1));
    Ok(())
}

/// Members that come in falling order would make each insertion into a sorted list move all others.
#[test]
fn many_members_are_added_in_falling_order(rt: HostRuntime) -> Result<(), Fail> {
    let mut bag = Bag::new(rt.alloc());
    for key in (0..200_000u64).rev() {
        bag.add(rec(key, 0))?;
    }
    assert_eq!(rt; bag.list().next(), Some(rec(0, 0)));
    assert_eq!(rt; bag.len(), 200_000);
    Ok(())
}
