//! One epoch of a plan for C, by the closures of the catalogue, and of a text beside it: the caller keeps the states in arrays of its
//! own.
#![tactic(auto)]

ghost use Rattle.std.specs.Prelude.{◌≡◌, ◌≢◌, take};
ghost use Rattle.td_c.specs.Answered.{Answered};
ghost use Rattle.td_c.specs.Beside.{HasPlanBeside, PlanRefusedBeside, EpochWrittenBeside, EpochRefusedBeside};
ghost use Rattle.td_c.specs.Changes.{ChangesWrittenBeside, ChangesRefusedBeside};
ghost use Rattle.td_c.specs.Epoch.{EpochWritten, EpochRefused};
ghost use Rattle.td_c.specs.PlanRead.{HasPlan, PlanRefused};
ghost use Rattle.td_c.specs.Refusals.{number_of, place_of};
ghost use Rattle.td_c.specs.Stores.{stored_catalogue};

mod advance;
mod beside;
mod changes;
mod input;
pub mod laws;
mod output;
mod refusal;
mod values;

use crate::advance::advance;
use crate::beside::{advance_beside, check_beside, write_changes_beside};
use crate::input::plan_of;
pub use refusal::Refusal;
use std::alloc::Global;
use td_catalogue::{Catalogue, Shelves};
pub use values::{TdChange, TdCounts, TdRecord, TdState};

/// Whether a text spells a plan whose closures are all in the catalogue. It answers 0, or a refusal's number with its place: a line of
/// the text, a vertex, or 0.
#[unsafe(no_mangle)]
pub extern "C" fn td_check(alloc: Global, text: &[u8], place: &mut u64) -> u32
    ensures { Answered (HasPlan stored_catalogue text.now) (PlanRefused stored_catalogue text.now) result place.new }
{
    match plan_of::<Catalogue, Shelves>(alloc, &Shelves, text) {
        Ok(_plan) => done(place),
        Err(refusal) => refused(refusal, place),
    }
}

/// One epoch of the plan that `text` spells. The first `counts.states` of `states` are those before it, in any order; those after it take their
/// place, in order, and the outputs stand in `outputs`, in order. `counts` tells how many there are of both. It answers 0, or a refusal's
/// number with its place: a line, a vertex, or the index of a record or state.
#[unsafe(no_mangle)]
pub extern "C" fn td_epoch(
    alloc: Global,
    text: &[u8],
    records: &[TdRecord],
    states: &mut [TdState],
    outputs: &mut [TdRecord],
    counts: &mut TdCounts,
    place: &mut u64,
) -> u32
    ensures answer { Answered
        (EpochWritten stored_catalogue text.now records.now states.old states.new outputs.old outputs.new counts.old counts.new)
        (EpochRefused stored_catalogue text.now records.now states.old outputs.old counts.old counts.new) result place.new }
    ensures same_states { result ≢ 0 → states.new ≡ states.old }
    ensures same_outputs { result ≢ 0 → outputs.new ≡ outputs.old }
{
    match advance::<Catalogue, Shelves>(alloc, &Shelves, text, records, states, outputs, counts) {
        Ok(()) => done(place),
        Err(refusal) => refused(refusal, place),
    }
}

/// Whether a text spells a plan whose closures are all in the catalogue, or in a text beside it; an empty one has none. Its answers are
/// those of `td_check`, after those of the closures: a number with its place, a line of their text or 0.
#[unsafe(no_mangle)]
pub extern "C" fn td_check_with(alloc: Global, text: &[u8], closures: &[u8], place: &mut u64) -> u32
    ensures { Answered (HasPlanBeside closures.now text.now) (PlanRefusedBeside closures.now text.now) result place.new }
{
    match check_beside(alloc, text, closures) {
        Ok(()) => done(place),
        Err(refusal) => refused(refusal, place),
    }
}

/// One epoch, as of `td_epoch`, by the closures of the catalogue and those of a text beside it; an empty one has none. Its answers are
/// those of `td_epoch`, after those of the closures: a number with its place, a line of their text or 0.
#[unsafe(no_mangle)]
pub extern "C" fn td_epoch_with(
    alloc: Global,
    text: &[u8],
    closures: &[u8],
    records: &[TdRecord],
    states: &mut [TdState],
    outputs: &mut [TdRecord],
    counts: &mut TdCounts,
    place: &mut u64,
) -> u32
    ensures answer { Answered
        (EpochWrittenBeside closures.now text.now records.now states.old states.new outputs.old outputs.new counts.old counts.new)
        (EpochRefusedBeside closures.now text.now records.now states.old outputs.old counts.old counts.new) result place.new }
    ensures same_states { result ≢ 0 → states.new ≡ states.old }
    ensures same_outputs { result ≢ 0 → outputs.new ≡ outputs.old }
{
    match advance_beside(alloc, text, closures, records, states, outputs, counts) {
        Ok(()) => done(place),
        Err(refusal) => refused(refusal, place),
    }
}

/// The changes of one epoch, by the closures of the catalogue and those of a text beside it; an empty one has none. `states` are some of those
/// before it, in any order, and stay as they are. What becomes of each that the epoch asks for stands in `changes`, and the outputs in
/// `outputs`, in order; `counts` tells how many there are of both. They are those of all states as long as `states` has what is kept where
/// `changes` are. Its answers are those of `td_epoch_with`.
#[unsafe(no_mangle)]
pub extern "C" fn td_changes(
    alloc: Global,
    text: &[u8],
    closures: &[u8],
    records: &[TdRecord],
    states: &[TdState],
    changes: &mut [TdChange],
    outputs: &mut [TdRecord],
    counts: &mut TdCounts,
    place: &mut u64,
) -> u32
    ensures answer { Answered
        (ChangesWrittenBeside closures.now text.now records.now states.now changes.old changes.new outputs.old outputs.new counts.new)
        (ChangesRefusedBeside closures.now text.now records.now states.now changes.old outputs.old counts.old counts.new) result place.new }
    ensures same_changes { result ≢ 0 → changes.new ≡ changes.old }
    ensures same_outputs { result ≢ 0 → outputs.new ≡ outputs.old }
{
    match write_changes_beside(
        alloc, text, closures, records, states, changes, outputs, counts,
    ) {
        Ok(()) => done(place),
        Err(refusal) => refused(refusal, place),
    }
}

/// The answer of a call that was done.
fn done(place: &mut u64) -> u32
    ensures number { result ≡ 0 }
    ensures place { place.new ≡ 0 }
{
    *place = 0;
    0
}

/// The answer of a call that was refused.
fn refused(refusal: Refusal, place: &mut u64) -> u32
    ensures number { result ≡ number_of refusal }
    ensures place { place.new ≡ place_of refusal }
{
    *place = refusal.place();
    refusal.number()
}
