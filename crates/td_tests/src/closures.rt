//! Expressions and texts whose values and refusals were worked out by hand.
use std::alloc::Global;
use std::test::Fail;
use td_closures::{Fault, Registers, Scope, Wrong, line_tokens, read_closures, read_expression};
use td_formula::{ClosureKind, Environment};

/// The value of an expression where each name stands for 0.
fn value(alloc: Global, text: &str) -> Result<i128, Wrong> {
    let scope = Scope {
        kind: Some(ClosureKind::Fold),
        at_end: true,
        may_name: false,
    };
    let (tokens, _registers) = line_tokens(alloc, scope, Registers::new(alloc), text)?;
    let (expression, _rest) = read_expression(alloc, tokens.as_slice())?;
    Ok(expression.value(&Environment::new()))
}

#[test]
fn values(rt: HostRuntime) {
    let values = [
        ("7 - 2 - 1", 4),
        ("2 + 3 * 4", 14),
        ("(2+3)*4", 20),
        ("-7 / 2", -4),
        ("-7 % 2", 1),
        ("1 or 0 and 0", 1),
        ("not 1 = 2", 1),
        ("1 - -1", 2),
        ("min(3, 5) + max(3, 5)", 8),
        ("abs(2 - 9)", 7),
        ("if 0 then 1 else if 1 then 2 else 3", 2),
        ("1<=1", 1),
        ("1 != 1", 0),
        ("2>=3", 0),
        ("2 > 1", 1),
        ("2 < 1", 0),
        ("3 < 2 < 1", 1),
        ("3 % 0", 3),
        ("3 / 0", 0),
        ("18446744073709551615 * 2", 36893488147419103230),
        ("before_a + lost # and more", 0),
    ];
    for (text, wanted) in values {
        assert_eq!(rt; value(rt.alloc(), text), Ok(wanted), "{text}");
    }
}

#[test]
fn refusals(rt: HostRuntime) {
    let refusals = [
        ("", Wrong::Syntax),
        ("1 +", Wrong::Syntax),
        ("1 2", Wrong::Syntax),
        ("(1", Wrong::Syntax),
        ("1)", Wrong::Syntax),
        ("min(1)", Wrong::Syntax),
        ("1 + not 2", Wrong::Syntax),
        ("1 + if 1 then 2 else 3", Wrong::Syntax),
        ("total", Wrong::Name),
        ("1 + 18446744073709551616", Wrong::Name),
        ("1 < ?", Wrong::Name),
    ];
    for (text, wanted) in refusals {
        assert_eq!(rt; value(rt.alloc(), text), Err(wanted), "{text}");
    }
}

/// A closure of each kind, with each line that it may have.
const TEXT: &str = "# three closures
map 10000   # dollars, of payments above a limit
  let day = key / 86400
  send day, val / 100 when val > 5000
group 10001
  let total = 0, n = 0
  item total = total + val, n = n + 1
  send key, total / n

fold 10001
  let closed = 0
  item a = a + val when port = 0, closed = 1 when port = 1
  each key, val when port = 2
  send key, a when a > 1000 and before_a <= 1000
  keep a, b when closed = 0
";

#[test]
fn texts(rt: HostRuntime) -> Result<(), Fail> {
    let closures = read_closures(rt.alloc(), TEXT)?;
    let counts = [(1, 0, 0, 1), (2, 2, 0, 1), (1, 2, 1, 1)];
    assert_eq!(rt; closures.len(), counts.len());
    for (closure, wanted) in closures.iter().zip(counts) {
        let found = (
            closure.lets.len(),
            closure.changes.len(),
            closure.each.len(),
            closure.sends.len(),
        );
        assert_eq!(rt; found, wanted, "{}", closure.code);
    }
    Ok(())
}

#[test]
fn faults(rt: HostRuntime) {
    let faults = [
        ("map 9999", 1, Wrong::Code),
        ("map 10000\nfold 10000\nmap 10000", 3, Wrong::Code),
        ("group 65536", 1, Wrong::Code),
        ("map", 1, Wrong::Syntax),
        ("send key, val", 1, Wrong::Syntax),
        ("map 10000\nsend key", 2, Wrong::Syntax),
        ("map 10000\n\neach key, val", 3, Wrong::Syntax),
        ("group 10000\nkeep key, val", 2, Wrong::Syntax),
        ("map 10000\nlet x = 1 when val", 2, Wrong::Syntax),
        ("map 10000\nitem x = 1", 2, Wrong::Name),
        ("group 10000\neach key, lost", 2, Wrong::Name),
        ("group 10000\nsend key, a", 2, Wrong::Name),
        ("map 10000\nlet x = 1, x = 2", 2, Wrong::Name),
        (
            "map 10000\nlet a1=1,a2=1,a3=1,a4=1,a5=1,a6=1,a7=1,a8=1,a9=1",
            2,
            Wrong::TooMany,
        ),
        ("fold 10000\nkeep a, b\nkeep b, a", 3, Wrong::TooMany),
        (
            "map 10000\nsend 1,1\nsend 2,2\nsend 3,3\nsend 4,4\nsend 5,5\nsend 6,6\nsend 7,7\nsend 8,8\nsend 9,9",
            10,
            Wrong::TooMany,
        ),
    ];
    for (text, line, wrong) in faults {
        let found = read_closures(rt.alloc(), text).err();
        assert_eq!(rt; found, Some(Fault { line, wrong }), "{text}");
    }
}
