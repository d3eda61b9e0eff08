//! What C gets back: states, changes and outputs in its arrays.
ghost use Rattle.std.specs.Prelude.{◌≡◌, ◌≤◌, take, drop, length, map};
ghost use Rattle.td_c.specs.Rows.{state_row, output_row};
ghost use Rattle.td_c.specs.Changes.{change_row};

use crate::values::{TdChange, TdRecord, TdState};
use td_batch::Change;
use td_stamp::{Bag, Output, State, States};

/// Puts states into the first places of an array.
pub(crate) fn put_states(rows: &mut [TdState], states: &States)
    requires { length states.now ≤ length rows.old }
    ensures written { take (length states.now) rows.new ≡ map state_row states.now }
    ensures others { drop (length states.now) rows.new ≡ drop (length states.now) rows.old }
{
    let mut at = 0;
    for (place, state) in states.list() {
        rows[at] = TdState {
            vertex: u64::from(place.0),
            key: place.1,
            a: state.a,
            b: state.b,
        };
        at += 1;
    }
}

/// Puts changes into the first places of an array.
pub(crate) fn put_changes(rows: &mut [TdChange], changes: &[Change])
    requires { length changes.now ≤ length rows.old }
    ensures written { take (length changes.now) rows.new ≡ map change_row changes.now }
    ensures others { drop (length changes.now) rows.new ≡ drop (length changes.now) rows.old }
{
    for (at, change) in changes.iter().enumerate() {
        rows[at] = row_of(*change);
    }
}

/// The row of a change.
fn row_of(change: Change) -> TdChange
    ensures { result ≡ change_row change }
{
    let Change { vertex, key, state } = change;
    let vertex = u64::from(vertex);
    match state {
        Some(State { a, b }) => TdChange {
            vertex,
            key,
            is_kept: 1,
            a,
            b,
        },
        None => TdChange {
            vertex,
            key,
            is_kept: 0,
            a: 0,
            b: 0,
        },
    }
}

/// Puts outputs into the first places of an array.
pub(crate) fn put_outputs(rows: &mut [TdRecord], outputs: &Bag<Output>)
    requires { length outputs.now ≤ length rows.old }
    ensures written { take (length outputs.now) rows.new ≡ map output_row outputs.now }
    ensures others { drop (length outputs.now) rows.new ≡ drop (length outputs.now) rows.old }
{
    let mut at = 0;
    for output in outputs.list() {
        rows[at] = TdRecord {
            vertex: u64::from(output.vertex),
            key: output.rec.key,
            val: output.rec.val,
        };
        at += 1;
    }
}
