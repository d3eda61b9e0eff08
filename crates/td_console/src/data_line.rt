//! One data line. Most are plain, three numbers with one space between them and a line feed, and are read from their bytes in one
//! pass.
ghost use Rattle.std.specs.Prelude.{◌≡◌, Some, [], ◌∷◌, ◌==◌, ◌&&◌, ◌||◌, not, nat_lt, ◌<◌, ◌≤◌, ◌^◌, true, length, take, slice_index, IfSome};
ghost use Rattle.std.specs.Bool.{OnTrue};
ghost use Rattle.td_plan.specs.Text.{words};
ghost use Rattle.td_plan.specs.Faults.{most_vertices};
ghost use Rattle.td_plan.specs.Inputs.{is_input_of};
ghost use Rattle.td_console.specs.Data.{data_line_of, spelled};
ghost use Rattle.std.specs.List.{list_all};
ghost use Rattle.std.specs.Char.{is_ascii_digit};
ghost use Rattle.std.specs.Str.Parse.{digits_value};
ghost use Rattle.td_console.specs.Plain.{IsPlain, IsFrontNumber, IsFrontInteger};

use crate::number::integer;
use td_plan::Plan;
use td_plan::text::{is_passed_over, natural, next_word, number};
use td_stamp::Rec;

/// What a data line says.
#[derive(Clone, Copy, Debug, PartialEq, Eq)]
pub enum DataLine {
    /// Nothing: it is blank, or a comment.
    PassedOver,
    /// A record for an input, which has a number of at most nine digits.
    Record(u32, Rec),
    /// The end of the epoch.
    Close,
}

/// What a data line says, if it has a form.
pub fn read_data_line(line: &str) -> Option<DataLine>
    ensures { result ≡ data_line_of line.now }
{
    if is_passed_over(line) {
        return Some(DataLine::PassedOver);
    }
    read_words(line)
}

/// What the words of a line spell: `.`, or `INPUT KEY VAL`. It stands apart, so that a line without words is answered by `?`.
fn read_words(line: &str) -> Option<DataLine>
    ensures { result ≡ spelled (words line.now) }
{
    let (first, rest) = next_word(line)?;
    match next_word(rest) {
        Some((second, rest)) => read_record(first, second, rest),
        None => read_close(first),
    }
}

/// The end of the epoch, from the one word of a line.
fn read_close(word: &str) -> Option<DataLine>
    ensures { result ≡ spelled (word.now ∷ []) }
{
    if word == "." {
        Some(DataLine::Close)
    } else {
        None
    }
}

/// A record, from the first two words of a line, and the line after them.
fn read_record(input: &str, key: &str, rest: &str) -> Option<DataLine>
    ensures { result ≡ spelled (input.now ∷ key.now ∷ words rest.now) }
{
    let (val, rest) = next_word(rest)?;
    if next_word(rest).is_some() {
        return None;
    }
    let input = number(input)?;
    let key = natural(key)?;
    let val = integer(val)?;
    Some(DataLine::Record(input, Rec { key, val }))
}

/// How many digits the numbers of a plain line have at most: so many never pass what an input's number, a key and a value can be.
const INPUT_DIGITS: usize = 9;

const KEY_DIGITS: usize = 19;

const VALUE_DIGITS: usize = 18;

/// The record that the first line of some bytes spells, and the bytes after that line, where it is plain: the digits of an
/// input, of a key and of a value, at most 9, 19 and 18, of which the last may have a minus sign before them; with one space
/// between them, no leading zeros, and a line feed after them. None says nothing of the line: then `read_data_line` tells.
pub fn plain_record(bytes: &[u8]) -> Option<(u32, Rec, &[u8])>
    ensures { IfSome result (λ r. IsPlain bytes.now r.0 r.1 r.2.now) }
{
    let (input, rest) = front_number(bytes, INPUT_DIGITS)?;
    let (key, rest) = front_number(after(rest, b' ')?, KEY_DIGITS)?;
    let (val, rest) = front_integer(after(rest, b' ')?)?;
    let rest = after(rest, b'\n')?;
    Some((input as u32, Rec { key, val }, rest))
}

/// The number that digits at the front of some bytes write, at most so many, and the bytes after them.
fn front_number(bytes: &[u8], most: usize) -> Option<(u64, &[u8])>
    requires { most ≤ 19 }
    ensures { IfSome result (λ r. IsFrontNumber bytes.now most r.0 r.1.now) }
{
    let (number, count) = digits(bytes, most);
    let (word, rest) = bytes.split_at(count);
    if has_no_leading_zero(word) {
        Some((number, rest))
    } else {
        None
    }
}

/// What the digits at the front of some bytes write, at most so many, and how many there are.
fn digits(bytes: &[u8], most: usize) -> (u64, usize)
    requires { most ≤ 19 }
    ensures bound { result.1 ≤ length bytes.now }
    ensures digits { list_all is_ascii_digit (take result.1 bytes.now) ≡ true }
    ensures value { result.0 ≡ digits_value 10 (take result.1 bytes.now) }
    ensures most { result.1 ≤ most }
{
    let end = most.min(bytes.len());
    let mut number: u64 = 0;
    let mut count = 0;
    while count < end {
        let byte = bytes[count];
        if !byte.is_ascii_digit() {
            return (number, count);
        }
        number = number * 10 + u64::from(byte - b'0');
        count += 1;
    }
    (number, count)
}

/// Whether there is a digit, and the first is 0 only where it is the only one.
fn has_no_leading_zero(digits: &[u8]) -> bool
    ensures { result ≡ (nat_lt 0 (length digits.now) && (not (slice_index digits.now 0 == 48) || (length digits.now == 1))) }
{
    if digits.is_empty() {
        return false;
    }
    if digits[0] == b'0' {
        return digits.len() == 1;
    }
    true
}

/// The same as `number`, with a minus sign before the digits of a number that is not 0, or with none.
fn front_integer(bytes: &[u8]) -> Option<(i64, &[u8])>
    ensures { IfSome result (λ r. IsFrontInteger bytes.now r.0 r.1.now) }
{
    match after(bytes, b'-') {
        Some(digits) => negative(digits),
        None => positive(bytes),
    }
}

/// A number with no sign.
fn positive(bytes: &[u8]) -> Option<(i64, &[u8])>
    ensures { IfSome result (λ r. IsFrontInteger bytes.now r.0 r.1.now) }
{
    let (number, rest) = front_number(bytes, VALUE_DIGITS)?;
    Some((number as i64, rest))
}

/// The number whose digits follow a minus sign.
fn negative(digits: &[u8]) -> Option<(i64, &[u8])>
    ensures { IfSome result (λ r. IsFrontInteger (45 ∷ digits.now) r.0 r.1.now) }
{
    let (number, rest) = front_number(digits, VALUE_DIGITS)?;
    if number == 0 {
        return None;
    }
    Some((-(number as i64), rest))
}

/// The bytes after the first, where that is this one.
fn after(bytes: &[u8], byte: u8) -> Option<&[u8]>
    ensures { IfSome result (λ rest. bytes.now ≡ byte ∷ rest.now) }
{
    match bytes.split_first() {
        Some((first, rest)) if *first == byte => Some(rest),
        _ => None,
    }
}

/// Whether a number is that of an input vertex.
pub fn is_input(plan: &Plan, number: u32) -> bool
    ensures exact { result ≡ is_input_of plan.now number }
    ensures small { OnTrue result (number < most_vertices) }
{
    match plan.vertices().get(number as usize) {
        Some(vertex) => vertex.is_input(),
        None => false,
    }
}
