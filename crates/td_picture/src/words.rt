//! What the closures of the catalogue are, in words.
ghost use Rattle.std.specs.Prelude.{◌≡◌, ◌≤◌, ◌<◌, ◌^◌, ◌++◌, OnOk, IfErr, IfSome, map, option_map, string_bytes, unwrap_or};
ghost use Rattle.std.specs.Option.{option_copied};
ghost use Rattle.td_picture.specs.Words.{has_closure, told_of, told_between, words_at, words_in, row_at, unknown, count_in, eight_from};

use crate::table::{FOLDS, Form, GROUPS, MAPS, Row};
use std::fmt::Write;
use td_plan::{Kind, PlanError};

/// What is told of a closure that the catalogue does not have.
pub const UNKNOWN: &str = "no closure of the catalogue";

/// Appends what is told of the closure of a kind, between two texts; nothing for a kind without one. Refusal: `Memory`.
pub(crate) fn print_between(
    text: &mut String,
    before: &str,
    after: &str,
    kind: Kind,
) -> Result<(), PlanError>
    ensures ok { OnOk result (string_bytes text.new ≡ string_bytes text.old ++ told_between before.now after.now kind) }
    ensures err { IfErr result (λ e. e ≡ PlanError.Memory) }
{
    if has_closure(kind) {
        text.push_str(before)?;
        print_words(text, kind)?;
        text.push_str(after)?;
    }
    Ok(())
}

/// Whether a kind has a closure.
fn has_closure(kind: Kind) -> bool
    ensures { result ≡ has_closure kind }
{
    matches!(kind, Kind::Map(_) | Kind::Group(_) | Kind::Fold(_))
}

/// Appends what is told of the closure of a kind. Refusal: `Memory`.
fn print_words(text: &mut String, kind: Kind) -> Result<(), PlanError>
    ensures ok { OnOk result (string_bytes text.new ≡ string_bytes text.old ++ told_of kind) }
    ensures err { IfErr result (λ e. e ≡ PlanError.Memory) }
{
    match kind {
        Kind::Map(code) => print_of(text, &MAPS, code)?,
        Kind::Group(code) => print_of(text, &GROUPS, code)?,
        Kind::Fold(code) => print_of(text, &FOLDS, code)?,
        _ => text.push_str(UNKNOWN)?,
    }
    Ok(())
}

/// Appends what is told of the closure of a code, by the rows of its kind. Refusal: `Memory`.
fn print_of(text: &mut String, rows: &[Row], code: u16) -> Result<(), PlanError>
    ensures ok { OnOk result (string_bytes text.new ≡ string_bytes text.old ++ unwrap_or (words_at (map (λ r. (r.0, r.1, r.2, r.3.now, r.4.now)) rows.now) code) unknown) }
    ensures err { IfErr result (λ e. e ≡ PlanError.Memory) }
{
    match row_at(rows, code) {
        Some(row) => print_in(text, row.2, row.3, row.4, code - row.0)?,
        None => text.push_str(UNKNOWN)?,
    }
    Ok(())
}

/// The row that has a code.
fn row_at(rows: &[Row], code: u16) -> Option<&Row>
    ensures row { option_map (λ r. (r.0, r.1, r.2, r.3.now, r.4.now)) (option_copied result) ≡ row_at (map (λ r. (r.0, r.1, r.2, r.3.now, r.4.now)) rows.now) code }
    ensures above { IfSome result (λ row. row.now.0 ≤ code) }
{
    let mut rest = rows;
    while let [row, others @ ..] = rest {
        if row.0 <= code && code <= row.1 {
            return Some(row);
        }
        rest = others;
    }
    None
}

/// Appends the words of a form and two texts, for a code that is `p` above the first of its row. Refusal: `Memory`.
fn print_in(text: &mut String, form: Form, front: &str, back: &str, p: u16) -> Result<(), PlanError>
    ensures ok { OnOk result (string_bytes text.new ≡ string_bytes text.old ++ words_in form front.now back.now p) }
    ensures err { IfErr result (λ e. e ≡ PlanError.Memory) }
{
    match form {
        Form::Plain => text.push_str(front)?,
        Form::Number => write!(text, "{front}{p}{back}")?,
        Form::Divisor => {
            let divisor = if p == 0 { 1000 } else { p };
            write!(text, "{front}{divisor}")?;
        }
        Form::Count => print_count(text, front, back, u32::from(p))?,
        Form::Eight => print_eight(text, front, u32::from(p))?,
    }
    Ok(())
}

/// Appends how many there are, one more than `p`, between two texts; these alone for one. Refusal: `Memory`.
fn print_count(text: &mut String, front: &str, back: &str, p: u32) -> Result<(), PlanError>
    requires { p < 2 ^ 16 }
    ensures ok { OnOk result (string_bytes text.new ≡ string_bytes text.old ++ count_in front.now back.now p) }
    ensures err { IfErr result (λ e. e ≡ PlanError.Memory) }
{
    if p == 0 {
        write!(text, "{front}{back}")?;
    } else {
        let count = p + 1;
        write!(text, "{front}{count} {back}s")?;
    }
    Ok(())
}

/// Appends which eight of those in front an eight is. Refusal: `Memory`.
fn print_eight(text: &mut String, front: &str, eight: u32) -> Result<(), PlanError>
    requires { eight < 2 ^ 16 }
    ensures ok { OnOk result (string_bytes text.new ≡ string_bytes text.old ++ eight_from front.now eight) }
    ensures err { IfErr result (λ e. e ≡ PlanError.Memory) }
{
    let first = 8 * eight + 1;
    let last = 8 * eight + 8;
    text.push_str(front)?;
    write!(text, ", from number {first} to {last}")?;
    Ok(())
}
