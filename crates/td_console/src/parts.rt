//! The two parts of an input: the plan text, and the data lines after a line `--`.
ghost use Rattle.std.specs.Prelude.{◌≡◌, ◌==◌, ◌⊎◌, ◌+◌, ◌++◌, ◌∷◌, [], ◌<◌, ◌≤◌, ◌^◌};
ghost use Rattle.std.specs.Prelude.{Some, true, false, is_some, length, MatchOption, IfSome};
ghost use Rattle.std.specs.List.{list_all, position_or_len};
ghost use Rattle.std.specs.Char.{is_ascii};
ghost use Rattle.td_plan.specs.Text.{text_lines, words};
ghost use Rattle.td_console.specs.Parts.{is_separator, plan_text, data_lines, first_data_line, wide_fault, wide_fault_at};
ghost use Rattle.td_console.specs.CodeSteps.{IsOfInput};

use crate::faults::{Fault, LineFault};
use td_plan::PlanError;
use td_plan::text::{is_printable, next_line, next_word};

/// The parts of an input.
#[derive(Clone, Copy, Drop)]
pub(crate) struct Parts<'a> {
    pub plan: &'a str,
    pub lines: &'a str,
    /// The number of the first data line.
    pub first: u64,
}

/// The parts of an input: what stands before and after the first line whose only word is `--`. Without one the whole
/// is the plan.
pub(crate) fn split_input(input: &str) -> Parts<'_>
    requires bound { length input.now + 2 < 2 ^ 64 }
    ensures plan { result.plan.now ≡ plan_text input.now }
    ensures lines { text_lines result.lines.now ≡ data_lines input.now }
    ensures first { result.first ≡ first_data_line input.now }
    ensures bytes { result.first + length result.lines.now ≤ length input.now + 2 }
{
    let mut number: u64 = 0;
    let mut rest = input;
    while let Some((line, others)) = next_line(rest) {
        if is_separator(line) {
            let (plan, _) = input.split_at(input.len() - rest.len());
            return Parts {
                plan,
                lines: others,
                first: number + 2,
            };
        }
        number += 1;
        rest = others;
    }
    Parts {
        plan: input,
        lines: "",
        first: number + 2,
    }
}

/// Whether a line is printable, and its only word is `--`.
fn is_separator(line: &str) -> bool
    ensures { result ≡ is_separator line.now }
{
    if !is_printable(line) {
        return false;
    }
    match next_word(line) {
        Some((word, rest)) => word == "--" && next_word(rest).is_none(),
        None => false,
    }
}

/// The fault of the first line with a byte above 127, of which there is one: one of the plan before the first separator, and of
/// the data after it. The lines are looked at only where a byte of the whole input is above 127.
pub(crate) fn find_wide_fault(input: &[u8]) -> Fault
    requires bound { length input.now < 2 ^ 64 }
    requires wide { list_all is_ascii input.now ≡ false }
    ensures first { wide_fault input.now ≡ Some result }
    ensures own { IsOfInput result }
{
    let mut number: u64 = 0;
    let mut in_data = false;
    let mut rest = input;
    while let Some((line, others)) = first_line(rest) {
        number += 1;
        let Some(text) = ascii_text(line) else {
            return wide_fault_at(number, in_data);
        };
        in_data = in_data || is_separator(text);
        rest = others;
    }
    unreachable!()
}

/// The fault of a byte above 127 in a line with this number.
fn wide_fault_at(number: u64, in_data: bool) -> Fault
    ensures fault { result ≡ wide_fault_at in_data number }
    ensures own { IsOfInput result }
{
    if in_data {
        Fault::Line(number, LineFault::Syntax)
    } else {
        Fault::Plan(PlanError::Syntax(number))
    }
}

/// The text of some bytes, if they are ASCII.
pub fn ascii_text(bytes: &[u8]) -> Option<&str>
    ensures some { IfSome result (λ text. text.now ≡ bytes.now) }
    ensures ascii { is_some result ≡ list_all is_ascii bytes.now }
{
    if is_ascii(bytes) {
        std::str::from_utf8(bytes).ok()
    } else {
        None
    }
}

/// Whether all bytes are ASCII. It looks at each: a loop without an exit takes many at a time.
fn is_ascii(bytes: &[u8]) -> bool
    ensures { result ≡ list_all is_ascii bytes.now }
{
    let mut bits = 0;
    for byte in bytes {
        bits |= *byte;
    }
    bits < 128
}

/// The first line of some bytes, without its line feed, and the bytes after it.
pub fn first_line(bytes: &[u8]) -> Option<(&[u8], &[u8])>
    ensures lines { MatchOption result (text_lines bytes.now ≡ []) (λ p. text_lines bytes.now ≡ p.0.now ∷ text_lines p.1.now) }
    ensures shorter { IfSome result (λ p. length p.1.now < length bytes.now) }
{
    let end = line_end(bytes);
    if end < bytes.len() {
        return Some((&bytes[..end], &bytes[end + 1..]));
    }
    if bytes.is_empty() {
        return None;
    }
    Some((bytes, &[]))
}

/// The place of the first line feed, or how many bytes there are.
fn line_end(bytes: &[u8]) -> usize
    ensures place { result ≡ position_or_len (λ b. b == 10) bytes.now }
    ensures bound { result ≤ length bytes.now }
{
    let mut end = 0;
    while end < bytes.len() {
        if bytes[end] == b'\n' {
            return end;
        }
        end += 1;
    }
    end
}
