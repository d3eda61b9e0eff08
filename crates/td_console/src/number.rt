//! Signed numbers in a text.
ghost use Rattle.std.specs.Prelude.{◌≡◌, ℤ, Some, IfSome, IfNone, FitsSigned};
ghost use Rattle.std.specs.Int.{w64};
ghost use Rattle.std.specs.Fmt.{signed_decimal};
ghost use Rattle.td_console.specs.Number.{integer_of, positive, negative};

use td_plan::text::natural;

/// The number that a word writes: digits with no leading zeros, or a minus sign directly before those of a number that
/// is not 0; -9223372036854775808 to 9223372036854775807.
pub fn integer(word: &str) -> Option<i64>
    ensures exact { result ≡ integer_of word.now }
    // What is read is what that number prints, and what a number prints is read.
    ensures printed { IfSome result (λ z. word.now ≡ signed_decimal z) }
    ensures none { IfNone result ((z : ℤ) → FitsSigned w64 z → word.now ≡ signed_decimal z → ⊥) }
{
    match word.strip_prefix('-') {
        Some(digits) => negative(natural(digits)?),
        None => positive(natural(word)?),
    }
}

/// A number with no sign.
fn positive(number: u64) -> Option<i64>
    ensures { result ≡ positive (Some number) }
{
    if number < 9_223_372_036_854_775_808 {
        Some(number as i64)
    } else {
        None
    }
}

/// A number after a minus sign.
fn negative(number: u64) -> Option<i64>
    ensures { result ≡ negative (Some number) }
{
    if number == 0 {
        return None;
    }
    let less = number - 1;
    if less < 9_223_372_036_854_775_808 {
        Some(-1 - (less as i64))
    } else {
        None
    }
}
