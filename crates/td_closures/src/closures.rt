//! The reader of closures in text. A contract sees a list of closures as what each says.
ghost use Rattle.std.specs.Prelude.{◌≡◌, ◌⊎◌, List, map, IfOk, IfErr};
ghost use Rattle.td_plan.specs.Text.{text_lines};
ghost use Rattle.td_closures.specs.Drafts.{Said, no_draft};
ghost use Rattle.td_closures.specs.Texts.{lines_from, answer_of, ClosuresText, IsFirstFault};
ghost use Rattle.td_closures.specs.Kept.{AnswersText, said_by, draft_by};
ghost use Rattle.td_closures.specs.declared.fault.Wrong.TheVariants.{Memory};

use crate::draft::Draft;
use crate::fault::Fault;
use std::alloc::Global;
use td_formula::Closure;
use td_plan::text::next_line;

/// The closures that a text spells, in its order. Refusals: its first line with a fault, and why; `Memory`, only where a growth was
/// refused.
pub fn read_closures(alloc: Global, text: &str) -> Result<Vec<Closure>, Fault>
    ensures ok { IfOk result (λ v. ClosuresText text.now (map said_by v.items)) }
    ensures refused { IfErr result (λ fault. (fault.wrong ≡ Memory) ⊎ IsFirstFault text.now fault) }
    ensures none { IfErr result (λ fault. (fault.wrong ≡ Memory) ⊎ ((closures : List Said) → ClosuresText text.now closures → ⊥)) }
{
    read_all(alloc, text)
}

/// What the lines of a text add up to, and how many there are. Refusals: the first fault; `Memory`.
fn read_lines(alloc: Global, text: &str) -> Result<(Draft, u64), Fault>
    ensures { AnswersText (λ r. draft_by r.0) result (lines_from no_draft 0 (text_lines text.now)) }
{
    let mut draft = Draft::new(alloc);
    let mut number: u64 = 0;
    let mut rest = text;
    while let Some((line, others)) = next_line(rest) {
        number += 1;
        draft.add_line(alloc, number, line)?;
        rest = others;
    }
    Ok((draft, number))
}

/// The closures of these lines. Refusals: the first fault; `Memory`.
fn read_all(alloc: Global, text: &str) -> Result<Vec<Closure>, Fault>
    ensures { AnswersText (λ v. map said_by v.items) result (answer_of text.now) }
{
    let (draft, line) = read_lines(alloc, text)?;
    match draft.into_closures() {
        Ok(closures) => Ok(closures),
        Err(wrong) => Err(Fault { line, wrong }),
    }
}
