//! How a line begins, and why it has no form.
ghost use Rattle.std.specs.Prelude.{◌≡◌, ◌<◌, Some, nat_lt, slice_index, take, IfOk, IfErr};
ghost use Rattle.std.specs.List.{list_all};
ghost use Rattle.std.specs.Char.{is_ascii_digit};
ghost use Rattle.td_plan.specs.Text.{words};
ghost use Rattle.td_orders.specs.Noted.{shown, excerpt, is_from, is_too_large, is_too_large_value, has_large, cause_of};

use crate::note::Cause;
use std::alloc::Global;
use std::fmt;
use std::marker::Model;
use td_console::{Fault, LineFault, ascii_text};
use td_plan::text::{natural, next_word};

/// How many characters of a line are shown.
const SHOWN: usize = 80;

/// The first 80 characters of a line, with `?` in the place of each that is no printable ASCII character.
#[derive(Debug, Drop)]
pub struct Excerpt {
    text: String,
}

impl Model for Excerpt {
    ghost use Rattle.std.specs.Prelude.{List, ℕ, string_bytes};

    ghost Value = { List ℕ };

    ghost view = { λ e. string_bytes e.text };
}

impl Excerpt {
    /// How a line begins. Refusal: `Memory`.
    pub(crate) fn of(alloc: Global, line: &[u8]) -> Result<Excerpt, Fault>
        ensures ok { IfOk result (λ text. text ≡ excerpt line.now) }
        ensures err { IfErr result (λ f. f ≡ Fault.Memory) }
    {
        let mut text = String::new(alloc);
        let mut rest = beginning(line);
        while let [byte, others @ ..] = rest {
            text.push(char::from(shown(*byte)))?;
            rest = others;
        }
        Ok(Excerpt { text })
    }
}

impl fmt::Display for Excerpt {
    ghost output = { λ e. Some e };

    fn fmt<W: fmt::Write>(&self, f: &mut fmt::Formatter<W>) -> fmt::Result {
        write!(f, "{}", self.text)
    }
}

/// The bytes of a line of which characters are shown.
fn beginning(line: &[u8]) -> &[u8]
    ensures { result.now ≡ take 80 line.now }
{
    match line.split_at_checked(SHOWN) {
        Some((beginning, _)) => beginning,
        None => line,
    }
}

/// A byte as it is shown: `?` for one that is no printable ASCII character.
fn shown(byte: u8) -> u8
    ensures exact { result ≡ shown byte }
    ensures small { result < 128 }
{
    if byte >= 32 && byte <= 126 {
        byte
    } else {
        b'?'
    }
}

/// Why a line has no form.
pub(crate) fn cause_of(line: &[u8]) -> Cause
    ensures { result ≡ cause_of line.now }
{
    if line.contains(&b'\r') {
        return Cause::CarriageReturn;
    }
    match ascii_text(line) {
        None => Cause::NotAscii,
        Some(text) if has_large(text) => Cause::NumberTooLarge,
        Some(_) => Cause::Line(LineFault::Syntax),
    }
}

/// Whether the words of a line have a number that is too large: an input's, a key, a value, or a request number.
fn has_large(line: &str) -> bool
    ensures { result ≡ has_large (words line.now) }
{
    let Some((first, rest)) = next_word(line) else {
        return false;
    };
    let Some((second, rest)) = next_word(rest) else {
        return false;
    };
    match next_word(rest) {
        None => first == "req" && is_too_large(18_446_744_073_709_551_616, second),
        Some((third, rest)) => {
            next_word(rest).is_none()
                && (is_too_large(1_000_000_000, first)
                    || is_too_large(18_446_744_073_709_551_616, second)
                    || is_too_large_value(third))
        }
    }
}

/// Whether a value, perhaps with a minus sign, is too large for an `i64`, of which there is one more below 0 than above.
fn is_too_large_value(word: &str) -> bool
    ensures { result ≡ is_too_large_value word.now }
{
    match word.strip_prefix('-') {
        Some(digits) => is_too_large(9_223_372_036_854_775_809, digits),
        None => is_too_large(9_223_372_036_854_775_808, word),
    }
}

/// Whether a word is digits, of which the first is not 0, that write a number of this size or above.
fn is_too_large(limit: u128, word: &str) -> bool
    ensures { result ≡ is_too_large limit word.now }
{
    if !begins_above_zero(word.as_bytes()) || !are_digits(word.as_bytes()) {
        return false;
    }
    is_from(limit, natural(word))
}

fn are_digits(word: &[u8]) -> bool
    ensures { result ≡ list_all is_ascii_digit word.now }
{
    word.iter().all(|byte| byte.is_ascii_digit())
}

/// Whether the first byte is above the digit 0.
fn begins_above_zero(word: &[u8]) -> bool
    ensures { result ≡ nat_lt 48 (slice_index word.now 0) }
{
    match word.split_first() {
        Some((byte, _)) => *byte > b'0',
        None => false,
    }
}

/// Whether a number is not below this one; none is above all.
fn is_from(limit: u128, number: Option<u64>) -> bool
    ensures { result ≡ is_from limit number }
{
    match number {
        Some(number) => limit <= u128::from(number),
        None => true,
    }
}
