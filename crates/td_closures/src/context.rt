//! What stands before an expression that is being read.
//!
//! An expression is put together as soon as what follows binds no tighter. So a chain, as `1 + 2 + 3`, is not nested.
ghost use Rattle.std.specs.Prelude.{◌≡◌, nat_lt, IfOk, IfErr};
ghost use Rattle.td_closures.specs.declared.fault.Wrong.TheVariants.{Memory};
ghost use Rattle.td_closures.specs.Phrase.{tree_of, prefix, infix', choice, operator_level, sign_level};
ghost use Rattle.td_closures.specs.Machine.{depth, place, settled};
ghost use Rattle.td_closures.specs.Context.{around_of};

use crate::fault::Wrong;
use std::alloc::Global;
use td_formula::{Expression, Operator, Sign};

/// What stands before an expression, the innermost first.
#[derive(Drop)]
pub(crate) enum Context {
    /// Nothing.
    Whole,
    /// A parenthesis.
    Paren(Box<Context>),
    /// `not`, `-` or `abs`.
    Signed(Sign, Box<Context>),
    /// An operator, and what stands left of it.
    Left(Operator, Expression, Box<Context>),
    /// `min` or `max`, whose parenthesis is still wanted.
    Called(Operator, Box<Context>),
    /// `min(` or `max(`.
    First(Operator, Box<Context>),
    /// The same with the first number and the comma.
    Second(Operator, Expression, Box<Context>),
    /// `if`.
    Test(Box<Context>),
    /// `if .. then`.
    Chosen(Expression, Box<Context>),
    /// `if .. then .. else`.
    Otherwise(Expression, Expression, Box<Context>),
}

/// How tight an operator binds. All tests are of one level.
pub(crate) fn operator_level(operator: Operator) -> u8
    ensures { result ≡ operator_level operator }
{
    match operator {
        Operator::Or => 1,
        Operator::And => 2,
        Operator::Equal
        | Operator::Unequal
        | Operator::Less
        | Operator::AtMost
        | Operator::Greater
        | Operator::AtLeast => 4,
        Operator::Plus | Operator::Minus => 5,
        Operator::Times | Operator::Quotient | Operator::Remainder => 6,
        Operator::Least | Operator::Most => 9,
    }
}

/// How tight a sign binds. `abs` is a sign, and its parentheses are those of any expression.
pub(crate) fn sign_level(sign: Sign) -> u8
    ensures { result ≡ sign_level sign }
{
    match sign {
        Sign::Not => 3,
        Sign::Negative => 7,
        Sign::Absolute => 8,
    }
}

/// A sign before an expression. Refusal: `Memory`.
fn signed(alloc: Global, sign: Sign, e: Expression) -> Result<Expression, Wrong>
    ensures ok { IfOk result (λ r. tree_of r ≡ prefix sign (tree_of e)) }
    ensures err { IfErr result (λ w. w ≡ Memory) }
{
    Ok(Expression::One(sign, Box::new(alloc, e)?))
}

/// An operator between two expressions. Refusal: `Memory`.
pub(crate) fn joined(
    alloc: Global,
    operator: Operator,
    e: Expression,
    f: Expression,
) -> Result<Expression, Wrong>
    ensures ok { IfOk result (λ r. tree_of r ≡ infix' operator (tree_of e) (tree_of f)) }
    ensures err { IfErr result (λ w. w ≡ Memory) }
{
    let e = Box::new(alloc, e)?;
    Ok(Expression::Two(operator, e, Box::new(alloc, f)?))
}

/// A choice. Refusal: `Memory`.
fn chosen(
    alloc: Global,
    test: Expression,
    e: Expression,
    f: Expression,
) -> Result<Expression, Wrong>
    ensures ok { IfOk result (λ r. tree_of r ≡ choice (tree_of test) (tree_of e) (tree_of f)) }
    ensures err { IfErr result (λ w. w ≡ Memory) }
{
    let test = Box::new(alloc, test)?;
    let e = Box::new(alloc, e)?;
    Ok(Expression::If(test, e, Box::new(alloc, f)?))
}

impl Context {
    /// Whether fewer than `most` stand there.
    pub(crate) fn is_below(&self, most: u8) -> bool
        ensures { result ≡ nat_lt (depth (around_of self.now)) most }
    {
        if most == 0 {
            return false;
        }
        match self {
            Context::Whole => true,
            Context::Paren(around)
            | Context::Signed(_, around)
            | Context::Left(_, _, around)
            | Context::Called(_, around)
            | Context::First(_, around)
            | Context::Second(_, _, around)
            | Context::Test(around)
            | Context::Chosen(_, around)
            | Context::Otherwise(_, _, around) => around.is_below(most - 1),
        }
    }

    /// How tight an expression that stands here must bind.
    pub(crate) fn place(&self) -> u8
        ensures { result ≡ place (around_of self.now) }
    {
        match self {
            Context::Signed(sign, _) => sign_level(*sign),
            Context::Left(operator, _, _) => operator_level(*operator) + 1,
            Context::Called(_, _) => 9,
            _ => 0,
        }
    }

    /// What binds at least so tight is put together. Refusal: `Memory`.
    pub(crate) fn settled(
        self,
        alloc: Global,
        level: u8,
        e: Expression,
    ) -> Result<(Context, Expression), Wrong>
        ensures ok { IfOk result (λ r. (around_of r.0, tree_of r.1) ≡ settled level (around_of self) (tree_of e)) }
        ensures err { IfErr result (λ w. w ≡ Memory) }
    {
        match self {
            Context::Signed(sign, around) if level <= sign_level(sign) => {
                let e = signed(alloc, sign, e)?;
                Box::into_inner(around).settled(alloc, level, e)
            }
            Context::Left(operator, before, around) if level <= operator_level(operator) => {
                let e = joined(alloc, operator, before, e)?;
                Box::into_inner(around).settled(alloc, level, e)
            }
            Context::Otherwise(test, before, around) if level == 0 => {
                let e = chosen(alloc, test, before, e)?;
                Box::into_inner(around).settled(alloc, level, e)
            }
            around => Ok((around, e)),
        }
    }
}
