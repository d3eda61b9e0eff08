// The payload of a slot: made, and looked at, whole before any of its states is taken up.
ghost use Rattle.std.specs.Prelude.{◌≡◌, ◌++◌, ◌≤◌, flat_map, length, OnOk, IfOk, ◌==◌, ◌+◌, true, false, drop, IfSome, IfNone};
ghost use Rattle.td_gate.specs.Reading.{Each};
ghost use Rattle.td_slots.specs.Slot.{state_bytes, slot_bytes, FitsState, are_states as are_states_of, is_front as is_front_of, is_slot as is_slot_of, states_in, state_in, slot_len};
ghost use Rattle.std.specs.List.{list_any};
ghost use Rattle.td_gate.specs.Fields.{front_in};
ghost use Rattle.td_slots.specs.Parsed.{may_come_after};

use std::alloc::{AllocError, Global};
use td_gate::fields::{FRONT_LEN, Front, i64_at, named, push_i64, push_u64, u64_at};
use td_stamp::{EPOCHS_END, OrderedStates, StampError, State};

/// How many bytes a kept state has.
pub(crate) const STATE_LEN: usize = 32;

/// Puts a kept state at the end.
fn push_state(payload: &mut Vec<u8>, vertex: u8, key: u64, state: State) -> Result<(), AllocError>
    ensures ok { OnOk result (payload.new.items ≡ payload.old.items ++ state_bytes ((vertex, key), state)) }
    ensures fits { FitsState ((vertex, key), state) }
{
    push_u64(payload, u64::from(vertex))?;
    push_u64(payload, key)?;
    push_i64(payload, state.a)?;
    push_i64(payload, state.b)
}

/// Puts kept states at the end.
fn push_states(payload: &mut Vec<u8>, states: &OrderedStates) -> Result<(), AllocError>
    ensures ok { OnOk result (payload.new.items ≡ payload.old.items ++ flat_map state_bytes states.now) }
    ensures fits { OnOk result (Each FitsState states.now) }
{
    for (place, state) in states.list() {
        push_state(payload, place.0, place.1, state)?;
    }
    Ok(())
}

/// What is written for the states after an epoch into a slot for `k` of them, made in one piece of memory.
pub(crate) fn slot_payload(
    alloc: Global,
    k: u32,
    epoch: u64,
    last: u64,
    states: &OrderedStates,
) -> Result<Vec<u8>, AllocError>
    requires limit { k ≤ 1048576 }
    requires few { length states.now ≤ k }
    ensures ok { IfOk result (λ payload. payload.items ≡ slot_bytes k epoch last states.now) }
    ensures fits { IfOk result (λ _. Each FitsState states.now) }
{
    let len = FRONT_LEN + STATE_LEN * k as usize;
    let mut payload = Vec::with_capacity(alloc, len)?;
    let front = Front {
        epoch,
        request: last,
        count: states.len() as u32,
        zeros: 0,
    };
    front.push(&mut payload)?;
    push_states(&mut payload, states)?;
    payload.resize(len, 0)?;
    Ok(payload)
}

/// Where the state at a place of a payload is kept, if by a fold.
fn kept_at(folds: &[u8], payload: &[u8], at: usize) -> Option<(u8, u64)>
    requires { at + 32 ≤ length payload.now }
    ensures some { IfSome result (λ place. place ≡ (state_in (drop at payload.now)).0) }
    ensures named { IfSome result (λ place.
        list_any (λ v. v == (state_in (drop at payload.now)).0.0) folds.now ≡ true) }
    ensures none { IfNone result (list_any (λ v. v == (state_in (drop at payload.now)).0.0) folds.now ≡ false) }
{
    match named(folds, u64_at(payload, at)) {
        Some(fold) => Some((fold, u64_at(payload, at + 8))),
        None => None,
    }
}

/// The state at a place of a payload.
fn state_at(payload: &[u8], at: usize) -> State
    requires { at + 32 ≤ length payload.now }
    ensures { result ≡ (state_in (drop at payload.now)).1 }
{
    State {
        a: i64_at(payload, at + 16),
        b: i64_at(payload, at + 24),
    }
}

/// Whether a state kept there may come after the last one.
fn may_come(last: Option<(u8, u64)>, place: (u8, u64)) -> bool
    ensures { result ≡ may_come_after last place }
{
    match last {
        Some(last) => last.cmp(&place).is_lt(),
        None => true,
    }
}

/// Whether what stands before the states is such as a slot for `k` of them has.
fn is_front(version: u32, k: u32, payload: &[u8]) -> bool
    requires { 24 ≤ length payload.now }
    ensures { result ≡ is_front_of version k (front_in payload.now) }
{
    let front = Front::read(payload);
    let is_last = 2 <= version || front.request == 0;
    front.epoch < EPOCHS_END && (is_last && front.is_plain(k))
}

/// Whether the counted states are kept by folds and rise strictly by vertex and key.
fn are_states(folds: &[u8], payload: &[u8]) -> bool
    requires { slot_len (front_in payload.now).count ≤ length payload.now }
    ensures { result ≡ are_states_of folds.now (states_in payload.now) }
{
    let mut last = None;
    for i in 0..Front::read(payload).count {
        let Some(place) = kept_at(folds, payload, FRONT_LEN + STATE_LEN * i as usize) else {
            return false;
        };
        if !may_come(last, place) {
            return false;
        }
        last = Some(place);
    }
    true
}

/// Whether a payload is that of the states after an epoch, in a slot for `k` of them.
pub(crate) fn is_slot(version: u32, folds: &[u8], k: u32, payload: &[u8]) -> bool
    requires { length payload.now ≡ slot_len k }
    ensures { result ≡ is_slot_of version folds.now k payload.now }
{
    is_front(version, k, payload) && are_states(folds, payload)
}

/// The states of a payload that is valid.
pub(crate) fn states_of(
    alloc: Global,
    folds: &[u8],
    payload: &[u8],
) -> Result<OrderedStates, StampError>
    requires room { slot_len (front_in payload.now).count ≤ length payload.now }
    requires valid { are_states_of folds.now (states_in payload.now) ≡ true }
    ensures { IfOk result (λ states. states ≡ states_in payload.now) }
{
    let mut states = OrderedStates::new(alloc);
    for i in 0..Front::read(payload).count {
        let at = FRONT_LEN + STATE_LEN * i as usize;
        if let Some(place) = kept_at(folds, payload, at) {
            states.push(place.0, place.1, state_at(payload, at))?;
        }
    }
    Ok(states)
}
