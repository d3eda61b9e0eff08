//! The value of an expression.
ghost use Rattle.std.specs.Prelude.{◌≡◌};
ghost use Rattle.td_formula.specs.Meaning.{value};
ghost use Rattle.td_formula.specs.Environments.{named};

use crate::environment::Environment;
use crate::expression::Expression;
use crate::numbers::holds;

impl Expression {
    /// The value, where the names stand for these numbers. It takes no memory.
    pub fn value(&self, at: &Environment) -> i128
        ensures { result ≡ value self.now (named at.now) }
    {
        match self {
            Expression::Number(number) => *number,
            Expression::Named(name) => at.get(*name),
            Expression::One(sign, e) => sign.of(e.value(at)),
            Expression::Two(operator, e, f) => operator.of(e.value(at), f.value(at)),
            Expression::If(test, e, f) => {
                if holds(test.value(at)) {
                    e.value(at)
                } else {
                    f.value(at)
                }
            }
        }
    }
}
