//! Questions: which lines have a form, and their answers in lines.
use std::alloc::Global;
use std::test::Fail;
use td_machine::StateLeft;
use td_plan::Plan;
use td_questions::{Wanted, answer, fold_of, print_answer, read_question};
use td_shard::{StatesAfter, Versions};
use td_stamp::{State, States};

/// What a fold leaves for a key of vertex 3: a state without b, or none.
fn left(epoch: u64, key: u64, a: Option<i64>) -> StateLeft {
    StateLeft {
        epoch,
        vertex: 3,
        key,
        state: a.map(|a| State { a, b: 0 }),
    }
}

/// The lines that answer a line at epoch 2.
fn answered(alloc: Global, states: &StatesAfter<'_>, line: &str) -> Result<String, Fail> {
    let mut text = String::new(alloc);
    if let Some(question) = read_question(line) {
        let vertex = (question.vertex % 256) as u8;
        let entries = answer(alloc, states, vertex, question.wanted)?;
        print_answer(&mut text, 2, vertex, question.wanted, entries.as_slice())?;
    }
    Ok(text)
}

#[test]
fn answers_at_an_epoch(rt: HostRuntime) -> Result<(), Fail> {
    let mut base = States::new(rt.alloc());
    let mut versions = Versions::new(rt.alloc());
    for (vertex, key, a) in [(3, 1, 5), (3, 2, 9), (3, 4, 7), (4, 9, -1)] {
        base.set(vertex, key, State { a, b: 0 })?;
    }
    versions.leave(&[left(2, 2, None), left(2, 5, Some(7)), left(3, 1, Some(8))])?;
    let states = StatesAfter::new(&versions, &base, 2);
    let rows = [
        ("get 3 5", "state 2 3 5 7 0\nasked 2\n"),
        ("get 3 2", "none 2 3 2\nasked 2\n"),
        (
            "list 3",
            "state 2 3 1 5 0\nstate 2 3 4 7 0\nstate 2 3 5 7 0\nasked 2\n",
        ),
        ("list 3 2", "state 2 3 4 7 0\nstate 2 3 5 7 0\nasked 2\n"),
        ("list 3 0 1", "state 2 3 1 5 0\nasked 2\n"),
        ("list 4", "state 2 4 9 -1 0\nasked 2\n"),
        ("list 2", "asked 2\n"),
        ("top 3 2", "state 2 3 4 7 0\nstate 2 3 5 7 0\nasked 2\n"),
        ("top 3 0", "asked 2\n"),
        ("least 3 2", "state 2 3 1 5 0\nstate 2 3 4 7 0\nasked 2\n"),
        ("rank 3 0", "state 2 3 1 5 0\nasked 2\n"),
        ("rank 3 33", "state 2 3 1 5 0\nasked 2\n"),
        ("rank 3 34", "state 2 3 4 7 0\nasked 2\n"),
        ("rank 3 100", "state 2 3 5 7 0\nasked 2\n"),
        ("rank 5 50", "asked 2\n"),
    ];
    for (line, wanted) in rows {
        assert_eq!(rt;
            answered(rt.alloc(), &states, line)?.as_str(),
            wanted,
            "{line}"
        );
    }
    Ok(())
}

#[test]
fn lines_without_a_form(rt: HostRuntime) {
    let lines = [
        "",
        "list",
        "get 3",
        "top 3",
        "get 3 x",
        "get -1 1",
        "list 3 1 2 3",
        "top 3 1 2",
        "rank 3 101",
        "state 3 1",
        "get 3 18446744073709551616",
    ];
    for line in lines {
        assert_eq!(rt; read_question(line), None, "{line}");
    }
    let last = read_question("rank 300 100").map(|question| (question.vertex, question.wanted));
    assert_eq!(rt; last, Some((300, Wanted::Rank(100))));
}

#[test]
fn folds_of_a_plan(rt: HostRuntime) -> Result<(), Fail> {
    let plan = Plan::read(rt.alloc(), "0 input\n1 fold 1 0\n2 output 1\n")?;
    assert_eq!(rt; fold_of(&plan, 1), Some(1));
    assert_eq!(rt; fold_of(&plan, 0), None);
    assert_eq!(rt; fold_of(&plan, 257), None);
    Ok(())
}
