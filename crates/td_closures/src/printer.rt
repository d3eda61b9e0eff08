//! The canonical text of closures: a line for each thing that a closure does, and the fewest parentheses.
ghost use Rattle.std.specs.Prelude.{◌≡◌, ◌≤◌, ◌<◌, ◌++◌, map, codes, string_bytes, IfOk, OnOk, IfErr};
ghost use Rattle.td_closures.specs.Phrase.{tree_of};
ghost use Rattle.td_closures.specs.Lines.Line.{head, each, send};
ghost use Rattle.td_closures.specs.Canonical.{name_text, sign_text, operator_text, parenthesis, placed_text, expression_text, is_one, when_text, change_text, pair_text, line_text, is_unchanged, let_line, item_line, keep_lines, lines_text, closure_text, closures_text};
ghost use Rattle.td_closures.specs.Kept.{assigned_by, paired_by, said_by};
ghost use Rattle.td_closures.specs.declared.fault.Wrong.TheVariants.{Memory};

use crate::context::{operator_level, sign_level};
use crate::fault::Wrong;
use std::alloc::Global;
use std::fmt::Write;
use td_formula::{Assignment, Closure, ClosureKind, Expression, Name, Operator, Pair, Sign};

/// The word of a name: a register has its number. Refusal: `Memory`.
fn print_name(text: &mut String, name: Name) -> Result<(), Wrong>
    ensures ok { OnOk result (string_bytes text.new ≡ string_bytes text.old ++ name_text name) }
    ensures err { IfErr result (λ w. w ≡ Memory) }
{
    match name {
        Name::Key => text.push_str("key")?,
        Name::Val => text.push_str("val")?,
        Name::Port => text.push_str("port")?,
        Name::A => text.push_str("a")?,
        Name::B => text.push_str("b")?,
        Name::BeforeA => text.push_str("before_a")?,
        Name::BeforeB => text.push_str("before_b")?,
        Name::Known => text.push_str("known")?,
        Name::Items => text.push_str("items")?,
        Name::Lost => text.push_str("lost")?,
        Name::Register(register) => write!(text, "r{register}")?,
    }
    Ok(())
}

/// A sign, with the space after a word.
fn sign_text(sign: Sign) -> &'static str
    ensures { result.now ≡ sign_text sign }
{
    match sign {
        Sign::Not => "not ",
        Sign::Negative => "-",
        Sign::Absolute => "abs ",
    }
}

/// The word of an operator.
fn operator_text(operator: Operator) -> &'static str
    ensures { result.now ≡ operator_text operator }
{
    match operator {
        Operator::Or => "or",
        Operator::And => "and",
        Operator::Equal => "=",
        Operator::Unequal => "!=",
        Operator::Less => "<",
        Operator::AtMost => "<=",
        Operator::Greater => ">",
        Operator::AtLeast => ">=",
        Operator::Plus => "+",
        Operator::Minus => "-",
        Operator::Times => "*",
        Operator::Quotient => "/",
        Operator::Remainder => "%",
        Operator::Least => "min",
        Operator::Most => "max",
    }
}

/// A parenthesis, where an expression of this level must bind tighter than it does. Refusal: `Memory`.
fn print_parenthesis(text: &mut String, level: u8, least: u8, mark: char) -> Result<(), Wrong>
    requires { mark < 128 }
    ensures ok { OnOk result (string_bytes text.new ≡ string_bytes text.old ++ parenthesis level least mark) }
    ensures err { IfErr result (λ w. w ≡ Memory) }
{
    if level < least {
        text.push(mark)?;
    }
    Ok(())
}

/// An expression, as it stands where it must bind at least so tight. Refusal: `Memory`.
fn print_expression(text: &mut String, least: u8, e: &Expression) -> Result<(), Wrong>
    requires { least ≤ 8 }
    ensures ok { OnOk result (string_bytes text.new ≡ string_bytes text.old ++ placed_text least (tree_of e.now)) }
    ensures err { IfErr result (λ w. w ≡ Memory) }
{
    match e {
        Expression::Number(number) => {
            write!(text, "{number}")?;
            Ok(())
        }
        Expression::Named(name) => print_name(text, *name),
        Expression::One(sign, e) => {
            let level = sign_level(*sign);
            print_parenthesis(text, level, least, '(')?;
            text.push_str(sign_text(*sign))?;
            print_expression(text, level, e)?;
            print_parenthesis(text, level, least, ')')
        }
        Expression::Two(operator, e, f) => {
            let level = operator_level(*operator);
            if level > 8 {
                text.push_str(operator_text(*operator))?;
                text.push_str("(")?;
                print_expression(text, 0, e)?;
                text.push_str(", ")?;
                print_expression(text, 0, f)?;
                text.push_str(")")?;
                return Ok(());
            }
            print_parenthesis(text, level, least, '(')?;
            print_expression(text, level, e)?;
            text.push_str(" ")?;
            text.push_str(operator_text(*operator))?;
            text.push_str(" ")?;
            print_expression(text, level + 1, f)?;
            print_parenthesis(text, level, least, ')')
        }
        Expression::If(test, e, f) => {
            print_parenthesis(text, 0, least, '(')?;
            text.push_str("if ")?;
            print_expression(text, 0, test)?;
            text.push_str(" then ")?;
            print_expression(text, 0, e)?;
            text.push_str(" else ")?;
            print_expression(text, 0, f)?;
            print_parenthesis(text, 0, least, ')')
        }
    }
}

/// An expression where anything may stand. Refusal: `Memory`.
fn print_whole(text: &mut String, e: &Expression) -> Result<(), Wrong>
    ensures ok { OnOk result (string_bytes text.new ≡ string_bytes text.old ++ expression_text (tree_of e.now)) }
    ensures err { IfErr result (λ w. w ≡ Memory) }
{
    print_expression(text, 0, e)
}

/// Whether an expression is the number 1.
fn is_one(e: &Expression) -> bool
    ensures { result ≡ is_one (tree_of e.now) }
{
    match e {
        Expression::Number(number) => *number == 1,
        _ => false,
    }
}

/// A condition, unless it is 1. Refusal: `Memory`.
fn print_when(text: &mut String, when: &Expression) -> Result<(), Wrong>
    ensures ok { OnOk result (string_bytes text.new ≡ string_bytes text.old ++ when_text (tree_of when.now)) }
    ensures err { IfErr result (λ w. w ≡ Memory) }
{
    if is_one(when) {
        return Ok(());
    }
    text.push_str(" when ")?;
    print_whole(text, when)
}

/// A name, its value and its condition. Refusal: `Memory`.
fn print_change(text: &mut String, change: &Assignment) -> Result<(), Wrong>
    ensures ok { OnOk result (string_bytes text.new ≡ string_bytes text.old ++ change_text (assigned_by change.now)) }
    ensures err { IfErr result (λ w. w ≡ Memory) }
{
    print_name(text, change.name)?;
    text.push_str(" = ")?;
    print_whole(text, &change.value)?;
    print_when(text, &change.when)
}

/// Two values and their condition. Refusal: `Memory`.
fn print_pair(text: &mut String, pair: &Pair) -> Result<(), Wrong>
    ensures ok { OnOk result (string_bytes text.new ≡ string_bytes text.old ++ pair_text (paired_by pair.now)) }
    ensures err { IfErr result (λ w. w ≡ Memory) }
{
    print_whole(text, &pair.first)?;
    text.push_str(", ")?;
    print_whole(text, &pair.second)?;
    print_when(text, &pair.when)
}

/// A line `let`. Refusal: `Memory`.
fn print_let(text: &mut String, change: &Assignment) -> Result<(), Wrong>
    ensures ok { OnOk result (string_bytes text.new ≡ string_bytes text.old ++ (line_text (let_line (assigned_by change.now)) ++ codes "\n")) }
    ensures err { IfErr result (λ w. w ≡ Memory) }
{
    text.push_str("  let ")?;
    print_change(text, change)?;
    text.push_str("\n")?;
    Ok(())
}

/// A line `item`. Refusal: `Memory`.
fn print_item(text: &mut String, change: &Assignment) -> Result<(), Wrong>
    ensures ok { OnOk result (string_bytes text.new ≡ string_bytes text.old ++ (line_text (item_line (assigned_by change.now)) ++ codes "\n")) }
    ensures err { IfErr result (λ w. w ≡ Memory) }
{
    text.push_str("  item ")?;
    print_change(text, change)?;
    text.push_str("\n")?;
    Ok(())
}

/// A line `each`. Refusal: `Memory`.
fn print_each(text: &mut String, pair: &Pair) -> Result<(), Wrong>
    ensures ok { OnOk result (string_bytes text.new ≡ string_bytes text.old ++ (line_text (each (paired_by pair.now)) ++ codes "\n")) }
    ensures err { IfErr result (λ w. w ≡ Memory) }
{
    text.push_str("  each ")?;
    print_pair(text, pair)?;
    text.push_str("\n")?;
    Ok(())
}

/// A line `send`. Refusal: `Memory`.
fn print_send(text: &mut String, pair: &Pair) -> Result<(), Wrong>
    ensures ok { OnOk result (string_bytes text.new ≡ string_bytes text.old ++ (line_text (send (paired_by pair.now)) ++ codes "\n")) }
    ensures err { IfErr result (λ w. w ≡ Memory) }
{
    text.push_str("  send ")?;
    print_pair(text, pair)?;
    text.push_str("\n")?;
    Ok(())
}

/// Whether a state stays as it is.
fn is_unchanged(pair: &Pair) -> bool
    ensures { result ≡ is_unchanged (paired_by pair.now) }
{
    matches!(&pair.first, Expression::Named(Name::A))
        && matches!(&pair.second, Expression::Named(Name::B))
        && is_one(&pair.when)
}

/// The line `keep`, unless the state stays as it is. Refusal: `Memory`.
fn print_keep(text: &mut String, pair: &Pair) -> Result<(), Wrong>
    ensures ok { OnOk result (string_bytes text.new ≡ string_bytes text.old ++ lines_text (keep_lines (paired_by pair.now))) }
    ensures err { IfErr result (λ w. w ≡ Memory) }
{
    if is_unchanged(pair) {
        return Ok(());
    }
    text.push_str("  keep ")?;
    print_pair(text, pair)?;
    text.push_str("\n")?;
    Ok(())
}

/// The lines `let`. Refusal: `Memory`.
fn print_lets(text: &mut String, changes: &[Assignment]) -> Result<(), Wrong>
    ensures ok { OnOk result (string_bytes text.new ≡ string_bytes text.old ++ lines_text (map let_line (map assigned_by changes.now))) }
    ensures err { IfErr result (λ w. w ≡ Memory) }
{
    let mut rest = changes;
    while let [change, others @ ..] = rest {
        print_let(text, change)?;
        rest = others;
    }
    Ok(())
}

/// The lines `item`. Refusal: `Memory`.
fn print_items(text: &mut String, changes: &[Assignment]) -> Result<(), Wrong>
    ensures ok { OnOk result (string_bytes text.new ≡ string_bytes text.old ++ lines_text (map item_line (map assigned_by changes.now))) }
    ensures err { IfErr result (λ w. w ≡ Memory) }
{
    let mut rest = changes;
    while let [change, others @ ..] = rest {
        print_item(text, change)?;
        rest = others;
    }
    Ok(())
}

/// The lines `each`. Refusal: `Memory`.
fn print_all_each(text: &mut String, pairs: &[Pair]) -> Result<(), Wrong>
    ensures ok { OnOk result (string_bytes text.new ≡ string_bytes text.old ++ lines_text (map each (map paired_by pairs.now))) }
    ensures err { IfErr result (λ w. w ≡ Memory) }
{
    let mut rest = pairs;
    while let [pair, others @ ..] = rest {
        print_each(text, pair)?;
        rest = others;
    }
    Ok(())
}

/// The lines `send`. Refusal: `Memory`.
fn print_sends(text: &mut String, pairs: &[Pair]) -> Result<(), Wrong>
    ensures ok { OnOk result (string_bytes text.new ≡ string_bytes text.old ++ lines_text (map send (map paired_by pairs.now))) }
    ensures err { IfErr result (λ w. w ≡ Memory) }
{
    let mut rest = pairs;
    while let [pair, others @ ..] = rest {
        print_send(text, pair)?;
        rest = others;
    }
    Ok(())
}

/// The head of a closure. Refusal: `Memory`.
fn print_head(text: &mut String, kind: ClosureKind, code: u16) -> Result<(), Wrong>
    ensures ok { OnOk result (string_bytes text.new ≡ string_bytes text.old ++ (line_text (head kind code) ++ codes "\n")) }
    ensures err { IfErr result (λ w. w ≡ Memory) }
{
    match kind {
        ClosureKind::Map => write!(text, "map {code}\n")?,
        ClosureKind::Group => write!(text, "group {code}\n")?,
        ClosureKind::Fold => write!(text, "fold {code}\n")?,
    }
    Ok(())
}

/// Appends the canonical text of a closure. Refusal: `Memory`.
pub fn print_closure(text: &mut String, closure: &Closure) -> Result<(), Wrong>
    ensures ok { OnOk result (string_bytes text.new ≡ string_bytes text.old ++ closure_text (said_by closure.now)) }
    ensures err { IfErr result (λ w. w ≡ Memory) }
{
    print_head(text, closure.kind, closure.code)?;
    print_lets(text, closure.lets.as_slice())?;
    print_items(text, closure.changes.as_slice())?;
    print_all_each(text, closure.each.as_slice())?;
    print_sends(text, closure.sends.as_slice())?;
    print_keep(text, &closure.keep)
}

/// The canonical text of closures, in their order. Refusal: `Memory`.
pub fn closures_text(alloc: Global, closures: &[Closure]) -> Result<String, Wrong>
    ensures ok { IfOk result (λ text. string_bytes text ≡ closures_text (map said_by closures.now)) }
    ensures err { IfErr result (λ w. w ≡ Memory) }
{
    let mut text = String::new(alloc);
    let mut rest = closures;
    while let [closure, others @ ..] = rest {
        print_closure(&mut text, closure)?;
        rest = others;
    }
    Ok(text)
}
