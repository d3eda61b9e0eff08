//! What is computed of numbers.
ghost use Rattle.std.specs.Prelude.{◌≡◌};
ghost use Rattle.std.specs.Int.{saturate_signed, saturate_unsigned, w64};
ghost use Rattle.td_formula.specs.Meaning.{holds, truth, quotient, remainder, of_one, of_two};

use crate::expression::{Operator, Sign};

/// Whether a number holds: it does where it is not 0.
pub(crate) fn holds(number: i128) -> bool
    ensures { result ≡ holds number }
{
    number != 0
}

/// 1 where a test holds, else 0.
fn truth(test: bool) -> i128
    ensures { result ≡ truth test }
{
    if test { 1 } else { 0 }
}

/// The quotient whose remainder is not negative; 0 where the divisor is 0.
fn quotient(number: i128, divisor: i128) -> i128
    ensures { result ≡ quotient number divisor }
{
    if divisor == 0 {
        0
    } else if divisor == -1 {
        number.saturating_neg()
    } else {
        number.div_euclid(divisor)
    }
}

/// The remainder that is not negative; the number itself where the divisor is 0.
fn remainder(number: i128, divisor: i128) -> i128
    ensures { result ≡ remainder number divisor }
{
    if divisor == 0 {
        number
    } else if divisor == -1 {
        0
    } else {
        number.rem_euclid(divisor)
    }
}

impl Sign {
    /// What is computed of a number.
    pub fn of(self, number: i128) -> i128
        ensures { result ≡ of_one self number }
    {
        match self {
            Sign::Not => truth(!holds(number)),
            Sign::Negative => number.saturating_neg(),
            Sign::Absolute => number.saturating_abs(),
        }
    }
}

impl Operator {
    /// What is computed of two numbers.
    pub fn of(self, first: i128, second: i128) -> i128
        ensures { result ≡ of_two self first second }
    {
        match self {
            Operator::Or => truth(holds(first) || holds(second)),
            Operator::And => truth(holds(first) && holds(second)),
            Operator::Equal => truth(first == second),
            Operator::Unequal => truth(first != second),
            Operator::Less => truth(first < second),
            Operator::AtMost => truth(first <= second),
            Operator::Greater => truth(first > second),
            Operator::AtLeast => truth(first >= second),
            Operator::Plus => first.saturating_add(second),
            Operator::Minus => first.saturating_sub(second),
            Operator::Times => first.saturating_mul(second),
            Operator::Quotient => quotient(first, second),
            Operator::Remainder => remainder(first, second),
            Operator::Least => first.min(second),
            Operator::Most => first.max(second),
        }
    }
}

/// A number as a key: one that does not fit is brought to the end.
pub(crate) fn fitting_key(number: i128) -> u64
    ensures { result ≡ saturate_unsigned w64 number }
{
    if number < 0 {
        0
    } else if number > i128::from(u64::MAX) {
        u64::MAX
    } else {
        number as u64
    }
}

/// A number as a value: one that does not fit is brought to the end.
pub(crate) fn fitting_value(number: i128) -> i64
    ensures { result ≡ saturate_signed w64 number }
{
    if number < i128::from(i64::MIN) {
        i64::MIN
    } else if number > i128::from(i64::MAX) {
        i64::MAX
    } else {
        number as i64
    }
}
