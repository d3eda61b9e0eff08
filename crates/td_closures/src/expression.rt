//! Expressions are read token by token.
ghost use Rattle.std.specs.Prelude.{◌≡◌, ◌⊎◌, List, IfOk, IfErr, Err};
ghost use Rattle.td_closures.specs.Phrase.{Phrase, IsRead, tree_of};
ghost use Rattle.td_closures.specs.Machine.{place_checked, deeper_checked, placed, pushed, opened, minus, prefixed, begun, gone_on, with_infix, with_then, with_else, with_close, with_comma, with_end, with_token, signed, test, paren, called, there, wanted, left, whole, run};
ghost use Rattle.td_closures.specs.Context.{around_of, Steps, Fronts, reading_of};
ghost use Rattle.td_closures.specs.declared.fault.Wrong.TheVariants.{Memory};
ghost use Rattle.td_closures.specs.declared.token.Token.{Token};

use crate::context::{Context, joined, operator_level, sign_level};
use crate::fault::Wrong;
use crate::token::Token;
use std::alloc::Global;
use td_formula::{Expression, Operator, Sign};

/// What is known of an expression by now.
#[derive(Drop)]
pub(crate) enum Progress {
    /// It is wanted there.
    Wanted(Context),
    /// It is there.
    There(Context, Expression),
    /// It is read.
    Read(Expression),
}

/// How deep an expression may be nested.
const DEEPEST: u8 = 64;

/// Refuses an expression that binds too loosely to stand here.
fn check_place(around: &Context, level: u8) -> Result<(), Wrong>
    ensures { result ≡ place_checked level (around_of around.now) }
{
    if around.place() <= level {
        Ok(())
    } else {
        Err(Wrong::Syntax)
    }
}

/// Refuses the same, and one level of nesting too many.
fn check_deeper(around: &Context, level: u8) -> Result<(), Wrong>
    ensures { result ≡ deeper_checked level (around_of around.now) }
{
    check_place(around, level)?;
    if around.is_below(DEEPEST) {
        Ok(())
    } else {
        Err(Wrong::Deep)
    }
}

/// What stands before goes, and this is why. That it goes is proved here alone, and not where each step is refused.
fn refuse(_around: Context, wrong: Wrong) -> Result<Progress, Wrong>
    ensures { result ≡ Err wrong }
{
    Err(wrong)
}

/// The same with an expression.
fn refuse_both(_around: Context, _e: Expression, wrong: Wrong) -> Result<Progress, Wrong>
    ensures { result ≡ Err wrong }
{
    Err(wrong)
}

/// An operand.
fn operand(around: Context, e: Expression) -> Result<Progress, Wrong>
    ensures { Steps result (placed 8 (around_of around) (there (around_of around) (tree_of e))) }
{
    match check_place(&around, 8) {
        Ok(()) => Ok(Progress::There(around, e)),
        Err(wrong) => refuse_both(around, e, wrong),
    }
}

/// A sign. Refusal: `Memory`.
fn sign(alloc: Global, around: Context, level: u8, sign: Sign) -> Result<Progress, Wrong>
    ensures { Steps result (pushed level (around_of around) (signed sign (around_of around))) }
{
    match check_deeper(&around, level) {
        Ok(()) => Ok(Progress::Wanted(Context::Signed(sign, Box::new(alloc, around)?))),
        Err(wrong) => refuse(around, wrong),
    }
}

/// `if`. It is the loosest form, and may not stand behind an operator. So no `else` reaches further than it seems to.
fn begin_test(alloc: Global, around: Context) -> Result<Progress, Wrong>
    ensures { Steps result (pushed 0 (around_of around) (test (around_of around))) }
{
    match check_deeper(&around, 0) {
        Ok(()) => Ok(Progress::Wanted(Context::Test(Box::new(alloc, around)?))),
        Err(wrong) => refuse(around, wrong),
    }
}

/// `min` or `max`.
fn begin_call(alloc: Global, around: Context, operator: Operator) -> Result<Progress, Wrong>
    ensures { Steps result (pushed 8 (around_of around) (called operator (around_of around))) }
{
    match check_deeper(&around, 8) {
        Ok(()) => Ok(Progress::Wanted(Context::Called(operator, Box::new(alloc, around)?))),
        Err(wrong) => refuse(around, wrong),
    }
}

/// An opening parenthesis.
fn open(alloc: Global, around: Context) -> Result<Progress, Wrong>
    ensures { Steps result (opened (around_of around)) }
{
    match around {
        Context::Called(operator, around) => Ok(Progress::Wanted(Context::First(operator, around))),
        around => begin_parenthesis(alloc, around),
    }
}

/// A parenthesis that is not that of `min` or `max`.
fn begin_parenthesis(alloc: Global, around: Context) -> Result<Progress, Wrong>
    ensures { Steps result (pushed 8 (around_of around) (paren (around_of around))) }
{
    match check_deeper(&around, 8) {
        Ok(()) => Ok(Progress::Wanted(Context::Paren(Box::new(alloc, around)?))),
        Err(wrong) => refuse(around, wrong),
    }
}

/// An operator where an expression is wanted: `-` alone may stand there.
fn minus(alloc: Global, around: Context, operator: Operator) -> Result<Progress, Wrong>
    ensures { Steps result (minus operator (around_of around)) }
{
    match operator {
        Operator::Minus => sign(alloc, around, 7, Sign::Negative),
        _ => refuse(around, Wrong::Syntax),
    }
}

/// `not` or `abs`.
fn prefix(alloc: Global, around: Context, s: Sign) -> Result<Progress, Wrong>
    ensures { Steps result (prefixed s (around_of around)) }
{
    match s {
        Sign::Negative => refuse(around, Wrong::Syntax),
        Sign::Not | Sign::Absolute => sign(alloc, around, sign_level(s), s),
    }
}

/// A token where an expression is wanted.
fn begin(alloc: Global, around: Context, token: Token) -> Result<Progress, Wrong>
    ensures { Steps result (begun (around_of around) token) }
{
    match token {
        Token::Number(number) => operand(around, Expression::Number(number)),
        Token::Named(name) => operand(around, Expression::Named(name)),
        Token::New(_) | Token::Unknown => refuse(around, Wrong::Name),
        Token::Infix(operator) => minus(alloc, around, operator),
        Token::Prefix(s) => prefix(alloc, around, s),
        Token::Call(operator) => begin_call(alloc, around, operator),
        Token::If => begin_test(alloc, around),
        Token::Open => open(alloc, around),
        _ => refuse(around, Wrong::Syntax),
    }
}

/// An operator after an expression.
fn infix(
    alloc: Global,
    operator: Operator,
    around: Context,
    e: Expression,
) -> Result<Progress, Wrong>
    ensures { Steps result (with_infix operator (around_of around, tree_of e)) }
{
    let level = operator_level(operator);
    if level > 8 {
        return refuse_both(around, e, Wrong::Syntax);
    }
    match check_deeper(&around, level) {
        Ok(()) => Ok(Progress::Wanted(Context::Left(operator, e, Box::new(alloc, around)?))),
        Err(wrong) => refuse_both(around, e, wrong),
    }
}

/// `then`.
fn then(around: Context, e: Expression) -> Result<Progress, Wrong>
    ensures { Steps result (with_then (around_of around, tree_of e)) }
{
    match around {
        Context::Test(around) => Ok(Progress::Wanted(Context::Chosen(e, around))),
        around => refuse_both(around, e, Wrong::Syntax),
    }
}

/// `else`.
fn otherwise(around: Context, e: Expression) -> Result<Progress, Wrong>
    ensures { Steps result (with_else (around_of around, tree_of e)) }
{
    match around {
        Context::Chosen(test, around) => {
            Ok(Progress::Wanted(Context::Otherwise(test, e, around)))
        }
        around => refuse_both(around, e, Wrong::Syntax),
    }
}

/// A closing parenthesis. Refusal: `Memory`.
fn close(alloc: Global, around: Context, e: Expression) -> Result<Progress, Wrong>
    ensures { Steps result (with_close (around_of around, tree_of e)) }
{
    match around {
        Context::Paren(around) => Ok(Progress::There(Box::into_inner(around), e)),
        Context::Second(operator, before, around) => {
            let e = joined(alloc, operator, before, e)?;
            Ok(Progress::There(Box::into_inner(around), e))
        }
        around => refuse_both(around, e, Wrong::Syntax),
    }
}

/// A comma.
fn comma(around: Context, e: Expression) -> Result<Progress, Wrong>
    ensures { Steps result (with_comma (around_of around, tree_of e)) }
{
    match around {
        Context::First(operator, around) => {
            Ok(Progress::Wanted(Context::Second(operator, e, around)))
        }
        Context::Whole => Ok(Progress::Read(e)),
        around => refuse_both(around, e, Wrong::Syntax),
    }
}

/// The end of an expression.
fn end(around: Context, e: Expression) -> Result<Progress, Wrong>
    ensures { Steps result (with_end (around_of around, tree_of e)) }
{
    match around {
        Context::Whole => Ok(Progress::Read(e)),
        around => refuse_both(around, e, Wrong::Syntax),
    }
}

/// A token after an expression.
fn go_on(alloc: Global, around: Context, e: Expression, token: Token) -> Result<Progress, Wrong>
    ensures { Steps result (gone_on (around_of around) (tree_of e) token) }
{
    let level = match token {
        Token::Infix(operator) => operator_level(operator),
        _ => 0,
    };
    let (around, e) = around.settled(alloc, level, e)?;
    match token {
        Token::Infix(operator) => infix(alloc, operator, around, e),
        Token::Then => then(around, e),
        Token::Else => otherwise(around, e),
        Token::Close => close(alloc, around, e),
        Token::Comma => comma(around, e),
        Token::When | Token::End => end(around, e),
        _ => refuse_both(around, e, Wrong::Syntax),
    }
}

impl Progress {
    /// With one token more.
    fn with(self, alloc: Global, token: Token) -> Result<Progress, Wrong>
        ensures { Steps result (with_token (reading_of self) token) }
    {
        match self {
            Progress::Wanted(around) => begin(alloc, around, token),
            Progress::There(around, e) => go_on(alloc, around, e, token),
            Progress::Read(e) => Ok(Progress::Read(e)),
        }
    }
}

/// The same, by the steps.
fn run(alloc: Global, tokens: &[Token]) -> Result<(Expression, &[Token]), Wrong>
    ensures { Fronts result (run (wanted whole) tokens.now) }
{
    let mut progress = Progress::Wanted(Context::Whole);
    let mut rest = tokens;
    while let [token, others @ ..] = rest {
        progress = progress.with(alloc, *token)?;
        match progress {
            Progress::Read(e) => return Ok((e, rest)),
            more => progress = more,
        }
        rest = others;
    }
    Err(Wrong::Syntax)
}

/// The expression at the front of these tokens, and those from the one that ends it on: a comma, `when` or the end of the line.
/// Refusals: `Syntax`, `Name`, `Deep`, `Memory`.
pub fn read_expression(alloc: Global, tokens: &[Token]) -> Result<(Expression, &[Token]), Wrong>
    ensures steps { Fronts result (run (wanted whole) tokens.now) }
    ensures ok { IfOk result (λ r. IsRead tokens.now (tree_of r.0) r.1.now) }
    ensures refused { IfErr result (λ w. (w ≡ Memory) ⊎ ((tree : Phrase) (rest : List Token) → IsRead tokens.now tree rest → ⊥)) }
{
    run(alloc, tokens)
}
