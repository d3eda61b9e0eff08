//! A task that was run is handed back, and so is one whose closure is not there.
use std::alloc::Global;
use std::sync::Arc;
use std::test::Fail;
use td_calls::{Calls, MapBox, Stock, StockCalls, StockMap, stock};
use td_plan::Kind;
use td_stamp::{Arrival, Item, Rec, Time, is_in_order, sort};
use td_task::{KeyedItems, Task, TaskError, Work};

/// The last of the records of `task`.
const LAST: Rec = Rec { key: 63, val: -4 };

/// A task of 64 records for the closure 6.
fn task(alloc: Global) -> Result<Task, Fail> {
    let recs = [LAST; 64].to_vec(alloc)?;
    let work = Arc::new(alloc, Work::Messages(1, recs))?;
    Ok(Task::new(1, 5, 2, Kind::Map(6), Time::new(3), work))
}

#[test]
fn a_task_without_its_closure_comes_back(rt: HostRuntime) -> Result<(), Fail> {
    let calls: StockCalls = Calls::new(rt.alloc());
    let task = task(rt.alloc())?;
    let copy = task.copy()?;
    let Err((refusal, back)) = task.run::<Stock, StockCalls>(rt.alloc(), &calls) else {
        return Err("a closure that is not there")?;
    };
    assert_eq!(rt; refusal, TaskError::NoCall(2, 6));
    assert!(rt; back.same(&copy));
    Ok(())
}

#[test]
fn a_task_that_was_run_is_handed_back(rt: HostRuntime) -> Result<(), Fail> {
    let mut calls: StockCalls = Calls::new(rt.alloc());
    let twice: MapBox = Box::new(rt.alloc(), |port: u8, rec: Rec| stock::twice(port, rec))?;
    assert!(rt; calls.add_map(StockMap::new(6, twice)).is_ok());
    let run = task(rt.alloc())?.run::<Stock, StockCalls>(rt.alloc(), &calls);
    let done = run.map_err(|(refusal, _)| refusal)?;
    assert_eq!(rt; (done.len(), done.sent().len()), (64, 128));
    assert_eq!(rt; done.answer(63), Some([LAST, LAST].as_slice()));
    let task = done.into_task();
    assert_eq!(rt; (task.shard(), task.number()), (1, 5));
    assert_eq!(rt; (task.vertex(), task.kind()), (2, Kind::Map(6)));
    Ok(())
}

#[test]
fn keys_are_added(rt: HostRuntime) -> Result<(), Fail> {
    let mut items = KeyedItems::new(rt.alloc());
    items.add(4, &[Item { port: 0, val: 1 }], None)?;
    assert_eq!(rt; items.len(), 1);
    Ok(())
}

/// Arrivals that come in order are not copied, and others are: the keys are the same.
#[test]
fn keys_are_those_of_arrivals_in_any_order(rt: HostRuntime) -> Result<(), Fail> {
    let arrivals = [arrival(7, 2), arrival(3, 5), arrival(7, 1)];
    let mut sorted = arrivals;
    sort(rt.alloc(), &mut sorted);
    assert!(rt; is_in_order(&sorted));
    assert!(rt; !is_in_order(&arrivals));
    let keys = KeyedItems::grouped(rt.alloc(), &arrivals)?;
    assert_eq!(rt; keys.len(), 2);
    assert!(rt; keys.same(&KeyedItems::grouped(rt.alloc(), &sorted)?));
    Ok(())
}

/// A value that arrives at port 0.
fn arrival(key: u64, val: i64) -> Arrival {
    Arrival {
        key,
        item: Item { port: 0, val },
    }
}
