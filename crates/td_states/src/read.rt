//! Reading a checkpoint from a text.
ghost use Rattle.std.specs.Prelude.{◌≡◌, ◌≢◌, ◌⊎◌, ◌^◌, ◌<◌, [], length, IfOk, IfErr, OnOk, IfSome};
ghost use Rattle.td_store.specs.standing.Told.{folds_of};
ghost use Rattle.td_states.specs.Spelled.{StatesText, StatesTextFault};
ghost use Rattle.td_states.specs.Written.{MayBeLoaded};

use crate::draft::with_line;
use crate::error::{StatesError, StatesFault};
use crate::line::read_line;
use crate::rename::Rename;
use std::alloc::{AllocError, Global};
use td_console::{Fault, Source, first_line, read_all};
use td_plan::{Kind, Plan};
use td_slots::Checkpoint;

/// The checkpoint that the text of a reader spells for a plan: `kept E`, `last Q` where there are request numbers, and lines
/// `state VERTEX KEY A B`, which rise strictly by vertex and key once the vertices are renamed. Lines without words, and those whose first
/// word begins with `#`, are passed over.
///
/// Refusals: the first fault of the lines, which are counted from 1; `Memory`; `Input`, where a read failed or the end did not come
/// within 2^32 reads of at most 4,096 bytes.
pub fn read_states<R: Source>(
    alloc: Global,
    plan: &Plan,
    renames: &[Rename],
    reader: &mut R,
) -> Result<Checkpoint, StatesError>
    ensures ok { IfOk result (λ c. IfSome (R.remaining reader.old) (λ text. StatesText plan.now renames.now text c)) }
    ensures lawful { IfOk result (MayBeLoaded plan.now) }
    ensures fault { IfErr result (λ e. (e ≡ StatesError.Input) ⊎ ((e ≡ StatesError.Memory)
        ⊎ IfSome (R.remaining reader.old) (λ text. StatesTextFault plan.now renames.now text e))) }
    // It has read all.
    ensures end { OnOk result (IfSome (R.remaining reader.new) (λ rest. rest ≡ [])) }
    ensures steady { R.EndsWithin reader.old (2 ^ 32) → IfErr result (λ e. e ≢ StatesError.Input) }
{
    let text = read_input(alloc, reader)?;
    read_text(alloc, plan, renames, &text)
}

/// All that a reader gives. Refusals: `Input`, as of `read_states`; `Memory`.
fn read_input<R: Source>(alloc: Global, reader: &mut R) -> Result<Vec<u8>, StatesError>
    ensures ok { IfOk result (λ bytes. IfSome (R.remaining reader.old) (λ text. bytes.items ≡ text)) }
    ensures end { OnOk result (IfSome (R.remaining reader.new) (λ rest. rest ≡ [])) }
    ensures few { IfOk result (λ bytes. length bytes.items < 2 ^ 63) }
    ensures err { IfErr result (λ e. (e ≡ StatesError.Input) ⊎ (e ≡ StatesError.Memory)) }
    ensures steady { R.EndsWithin reader.old (2 ^ 32) → IfErr result (λ e. e ≡ StatesError.Memory) }
{
    match read_all(alloc, reader) {
        Ok(text) => Ok(text),
        Err(Fault::Input) => Err(StatesError::Input),
        Err(_) => Err(StatesError::Memory),
    }
}

/// The checkpoint that a text spells for a plan. Refusals: its first fault; `Memory`.
pub fn read_text(
    alloc: Global,
    plan: &Plan,
    renames: &[Rename],
    text: &[u8],
) -> Result<Checkpoint, StatesError>
    requires bound { length text.now < 2 ^ 63 }
    ensures ok { IfOk result (StatesText plan.now renames.now text.now) }
    ensures lawful { IfOk result (MayBeLoaded plan.now) }
    ensures fault { IfErr result (λ e. (e ≡ StatesError.Memory) ⊎ StatesTextFault plan.now renames.now text.now e) }
{
    let folds = folds(alloc, plan)?;
    let mut read = None;
    let mut number: u64 = 0;
    let mut rest = text;
    while let Some((line, others)) = first_line(rest) {
        number += 1;
        read = with_line(alloc, &folds, renames, number, read, read_line(line))?;
        rest = others;
    }
    match read {
        Some(draft) => Ok(draft.finish()),
        None => Err(StatesError::Line(number + 1, StatesFault::Syntax)),
    }
}

/// The numbers of a plan's folds.
fn folds(alloc: Global, plan: &Plan) -> Result<Vec<u8>, AllocError>
    ensures { IfOk result (λ v. v.items ≡ folds_of plan.now) }
{
    plan.vertices()
        .iter()
        .filter(|v| matches!(v.kind(), Kind::Fold(_)))
        .map(|v| v.number())
        .collect(alloc)
}
