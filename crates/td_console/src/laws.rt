//! Laws of the definitions. Each is the contract of a function that does nothing.
ghost use Rattle.std.specs.Prelude.{◌≡◌, ℕ, List, Result};
ghost use Rattle.td_console.specs.declared.faults.Fault.{Fault as AnyFault};
ghost use Rattle.td_calls.specs.Stored.{Stored};
ghost use Rattle.td_console.specs.Answer.{IsAnswer};

use td_plan::laws::one_answer as one_plan_answer;

/// An input has one answer, an output text or a fault, and no other.
pub fn one_answer()
    ensures some { (stored : Stored) (input : List ℕ) → (answer : Result (List ℕ) AnyFault) × IsAnswer stored input answer }
    ensures no_other { (stored : Stored) (input : List ℕ) (a b : Result (List ℕ) AnyFault)
        → IsAnswer stored input a → IsAnswer stored input b → a ≡ b }
{
    one_plan_answer();
}
