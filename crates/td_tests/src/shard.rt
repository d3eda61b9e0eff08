//! What the program does not call of a shard: whether a distinct has seen a record, and the states after an epoch. What no contract
//! sees: the order in which items wait.
use std::test::Fail;
use td_machine::StateLeft;
use td_shard::{Seen, Versions, Waiting};
use td_stamp::{Rec, State, States, Time, is_in_order};

#[test]
fn a_record_is_seen_until_it_is_let_go(rt: HostRuntime) -> Result<(), Fail> {
    let mut seen = Seen::new(rt.alloc());
    let time = Time::new(1);
    let rec = Rec { key: 7, val: 1 };
    assert_eq!(rt; seen.see(2, &time, &[rec, rec])?.len(), 1);
    assert!(rt; seen.has(2, &time, &rec));
    seen.let_go(1);
    assert!(rt; !seen.has(2, &time, &rec));
    Ok(())
}

#[test]
fn the_last_version_counts(rt: HostRuntime) -> Result<(), Fail> {
    let left = |epoch, a| StateLeft {
        epoch,
        vertex: 4,
        key: 7,
        state: Some(State { a, b: 0 }),
    };
    let base = States::new(rt.alloc());
    let mut versions = Versions::new(rt.alloc());
    versions.leave(&[left(2, 20), left(3, 31), left(3, 30)])?;
    assert_eq!(rt;
        versions.state_at(2, 4, 7, &base),
        Some(State { a: 20, b: 0 })
    );
    assert_eq!(rt;
        versions.states_at(3, base)?.get(4, 7),
        Some(State { a: 31, b: 0 })
    );
    versions.let_go(3);
    Ok(())
}

#[test]
fn items_are_sorted_where_they_wait(rt: HostRuntime) -> Result<(), Fail> {
    let mut waiting = Waiting::new(rt.alloc());
    let time = Time::new(1);
    waiting.wait(
        2,
        &time,
        0,
        &[Rec { key: 7, val: 1 }, Rec { key: 3, val: 5 }],
    )?;
    assert!(rt;
        !waiting
            .items(2, &time)
            .is_some_and(|items| is_in_order(items))
    );
    waiting.sort(2, &time);
    assert!(rt;
        waiting
            .items(2, &time)
            .is_some_and(|items| is_in_order(items))
    );
    Ok(())
}
