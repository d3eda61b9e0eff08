//! What a plan hands out that the program does not ask for, and its canonical text.
use std::test::Fail;
use td_plan::{Block, Plan, Vertex};
use td_stamp::{Bag, Batch};

/// In how many loops what a vertex sends is read; None where nothing reads it.
fn read_in(vertex: &Vertex) -> Option<usize> {
    vertex.read_on().map(|loops| loops.len())
}

#[test]
fn what_a_plan_hands_out(rt: HostRuntime) -> Result<(), Fail> {
    let plan = Plan::read(
        rt.alloc(),
        "# x\n 0  input\n\nloop 7\n1 enter 0\n2 leave 1\nend\n3 output 2 0",
    )?;
    assert_eq!(rt;
        plan.text()?.as_str(),
        "0 input\nloop 7\n1 enter 0\n2 leave 1\nend\n3 output 2 0\n"
    );
    let rows = [Some(0), Some(1), Some(0), None];
    assert_eq!(rt; plan.vertices().len(), rows.len());
    for (vertex, wanted) in plan.vertices().iter().zip(rows) {
        assert_eq!(rt; read_in(vertex), wanted);
    }
    let block = Block {
        first: 1,
        end: 3,
        bound: 7,
    };
    assert_eq!(rt; plan.blocks()?.as_slice(), [block].as_slice());
    Ok(())
}

#[test]
fn a_batch_without_entries_is_accepted(rt: HostRuntime) -> Result<(), Fail> {
    let plan = Plan::read(rt.alloc(), "0 input\n1 output 0\n")?;
    let batches: [Batch; 1] = [Bag::new(rt.alloc())];
    assert!(rt; plan.accepts(&batches[0]) && plan.accepts_all(&batches));
    Ok(())
}
