//! A checkpoint of which some lines were read.
ghost use Rattle.std.specs.Prelude.{◌≡◌, ◌&&◌, ◌==◌, nat_lt, is_none, Some};
ghost use Rattle.td_slots.specs.Parsed.{last_place, may_come_after};
ghost use Rattle.td_states.specs.Spelled.{first_fault, next_fault, state_fault, takes_last, unless};
ghost use Rattle.td_states.specs.Steps.{begun, first_read, next_read, or_fault, with_held, with_last, with_line, Gives};

use crate::error::{StatesError, StatesFault};
use crate::line::StatesLine;
use crate::rename::{Rename, renamed};
use std::alloc::Global;
use std::marker::Model;
use td_gate::fields::named;
use td_slots::Checkpoint;
use td_stamp::{EPOCHS_END, OrderedStates, State};

/// A checkpoint of which some lines were read, and where the last of its states is kept. Contracts see the checkpoint.
#[derive(Drop)]
pub(crate) struct Draft {
    checkpoint: Checkpoint,
    place: Option<(u8, u64)>,
}

impl Model for Draft {
    ghost use Rattle.td_slots.specs.declared.slots.Checkpoint.{Checkpoint};
    ghost use Rattle.td_states.specs.Steps.{EndsAt};

    ghost Value = { Checkpoint };

    ghost view = { λ d. d.checkpoint };

    ghost invariant = { λ d. EndsAt d.checkpoint d.place };
}

impl Draft {
    /// The checkpoint of an epoch, with no states yet.
    fn new(alloc: Global, epoch: u64) -> Draft
        ensures { result ≡ begun epoch }
    {
        Draft {
            checkpoint: Checkpoint {
                slot: 0,
                epoch,
                last: 0,
                states: OrderedStates::new(alloc),
            },
            place: None,
        }
    }

    /// The checkpoint, once all lines were read.
    pub(crate) fn finish(self) -> Checkpoint
        ensures { result ≡ self }
    {
        self.checkpoint
    }

    /// With a request number. Refusal: `Syntax` of the line with this number, where it is 0, or one or a state is there already.
    fn with_last(self, number: u64, request: u64) -> Result<Option<Draft>, StatesError>
        ensures { Gives result (or_fault number (Some (with_last self request)) (unless (takes_last self request) StatesFault.Syntax)) }
    {
        let Draft { checkpoint, place } = self;
        if !takes_last(checkpoint.last, place, request) {
            return Err(StatesError::Line(number, StatesFault::Syntax));
        }
        let Checkpoint {
            slot,
            epoch,
            last: _,
            states,
        } = checkpoint;
        let checkpoint = Checkpoint {
            slot,
            epoch,
            last: request,
            states,
        };
        Ok(Some(Draft { checkpoint, place }))
    }

    /// With a state of a vertex more. Refusals, of the line with this number: `NoSuchFold`; `Order`, where it does not come after the last
    /// one; and `Memory`.
    fn with_state(
        self,
        folds: &[u8],
        number: u64,
        vertex: u64,
        key: u64,
        state: State,
    ) -> Result<Option<Draft>, StatesError>
        ensures { Gives result (or_fault number (Some (with_held self ((vertex, key), state))) (state_fault folds.now self.states (vertex, key))) }
    {
        match named(folds, vertex) {
            Some(fold) => self.with_fold(number, fold, key, state),
            None => Err(StatesError::Line(number, StatesFault::NoSuchFold)),
        }
    }

    /// The same for a fold. Refusals: `Order`; `Memory`.
    fn with_fold(
        self,
        number: u64,
        fold: u8,
        key: u64,
        state: State,
    ) -> Result<Option<Draft>, StatesError>
        ensures { Gives result (or_fault number (Some (with_held self ((fold, key), state)))
            (unless (may_come_after (last_place self.states) (fold, key)) StatesFault.Order)) }
    {
        let Draft {
            mut checkpoint,
            place,
        } = self;
        td_slots::laws::states_are_in_order();
        if !may_come(place, (fold, key)) {
            return Err(StatesError::Line(number, StatesFault::Order));
        }
        checkpoint.states.push(fold, key, state)?;
        Ok(Some(Draft {
            checkpoint,
            place: Some((fold, key)),
        }))
    }

    /// With what a line says, which has this number. Refusals: its fault; `Memory`.
    fn with_said(
        self,
        folds: &[u8],
        renames: &[Rename],
        number: u64,
        said: StatesLine,
    ) -> Result<Option<Draft>, StatesError>
        ensures { Gives result (or_fault number (Some (next_read renames.now self said)) (next_fault folds.now renames.now self said)) }
    {
        match said {
            StatesLine::PassedOver => Ok(Some(self)),
            StatesLine::Kept(_) => Err(StatesError::Line(number, StatesFault::Syntax)),
            StatesLine::Last(request) => self.with_last(number, request),
            StatesLine::Held(vertex, key, state) => {
                self.with_state(folds, number, renamed(renames, vertex), key, state)
            }
        }
    }
}

/// Whether a request number may come after this one and a last state: it is not 0, and there is none of both.
fn takes_last(last: u64, place: Option<(u8, u64)>, request: u64) -> bool
    ensures { result ≡ (nat_lt 0 request && ((last == 0) && is_none place)) }
{
    0 < request && (last == 0 && place.is_none())
}

/// Whether a state kept there may come after the last one.
fn may_come(last: Option<(u8, u64)>, place: (u8, u64)) -> bool
    ensures { result ≡ may_come_after last place }
{
    match last {
        Some(last) => last.cmp(&place).is_lt(),
        None => true,
    }
}

/// What was read with a line more, of which this is said and this the number, if it has a form. Refusals: its fault; `Memory`.
pub(crate) fn with_line(
    alloc: Global,
    folds: &[u8],
    renames: &[Rename],
    number: u64,
    read: Option<Draft>,
    said: Option<StatesLine>,
) -> Result<Option<Draft>, StatesError>
    ensures { Gives result (with_line folds.now renames.now number read said) }
{
    let Some(said) = said else {
        return Err(StatesError::Line(number, StatesFault::Syntax));
    };
    match read {
        Some(draft) => draft.with_said(folds, renames, number, said),
        None => first_said(alloc, number, said),
    }
}

/// The same for the first line that says anything.
fn first_said(alloc: Global, number: u64, said: StatesLine) -> Result<Option<Draft>, StatesError>
    ensures { Gives result (or_fault number (first_read said) (first_fault said)) }
{
    match said {
        StatesLine::PassedOver => Ok(None),
        StatesLine::Kept(epoch) if epoch < EPOCHS_END => Ok(Some(Draft::new(alloc, epoch))),
        _ => Err(StatesError::Line(number, StatesFault::Syntax)),
    }
}
