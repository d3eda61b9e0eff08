//! What vertices send of the records that arrive at them. It is a list, sorted once when all is sent.
ghost use Rattle.std.specs.Prelude.{◌≡◌, ◌++◌, [], None, false, IsTrue, IfOk, OnOk, map, flat_map, filter, not};
ghost use Rattle.td_stamp.specs.Orders.{arrival_cmp, rec_cmp};
ghost use Rattle.td_stamp.specs.Bag.{bag_of, set_of, has, IsBag};
ghost use Rattle.td_stamp.specs.Groups.{arrival_of, rec_of};
ghost use Rattle.td_stamp.specs.States.{state_of};
ghost use Rattle.td_plan.specs.Faults.{is_input};
ghost use Rattle.td_calls.specs.Fits.{lacking_code};
ghost use Rattle.td_calls.specs.Callbacks.{sends, nothing_kept};
ghost use Rattle.td_batch.specs.Changes.{changes_by};
ghost use Rattle.td_batch.specs.Steps.Sent.{is_repeat};

use crate::arrivals::Arrived;
use crate::changes::Change;
use crate::emitted::Emitted;
use crate::groups::Groups;
use crate::kept::KeptStates;
use std::alloc::Global;
use td_calls::laws::in_any_order;
use td_calls::{Closures, Law};
use td_plan::Kind;
use td_stamp::{Arrival, Bag, Rec, StampError as BatchError, laws};

/// What a vertex sends of the records of one bag, which arrive at its port 0, in an epoch before which these states are
/// kept. They are read where they stand. What a fold is to keep comes after the `changes` so far. Refusal: `Memory`.
pub(crate) fn answer_one<L: Law, C: Closures<L>, S: KeptStates>(
    alloc: Global,
    calls: &C,
    states: &S,
    vertex: u8,
    kind: Kind,
    bag: &Emitted<'_>,
    changes: &mut Vec<Change>,
) -> Result<Bag<Rec>, BatchError>
    requires stored { lacking_code (C.stored calls.now) kind ≡ None }
    requires other { is_input kind ≡ false }
    ensures sent { IfOk result (λ sent. sent ≡ sends L.answers (state_of (S.states states.now) vertex) kind nothing_kept (map (arrival_of 0) bag.now)) }
    ensures kept { OnOk result (changes.new.items ≡ changes.old.items ++ changes_by L.answers (state_of (S.states states.now) vertex) vertex kind (map (arrival_of 0) bag.now)) }
{
    let arrived = Arrived::one(bag);
    answer::<L, C, S>(alloc, calls, states, vertex, kind, arrived, changes)
}

/// What a vertex sends of records that arrive from several bags. What a fold is to keep comes after the `changes` so far.
/// Refusal: `Memory`.
pub(crate) fn answer_several<L: Law, C: Closures<L>, S: KeptStates>(
    alloc: Global,
    calls: &C,
    states: &S,
    vertex: u8,
    kind: Kind,
    arrived: Vec<Arrival>,
    changes: &mut Vec<Change>,
) -> Result<Bag<Rec>, BatchError>
    requires stored { lacking_code (C.stored calls.now) kind ≡ None }
    requires other { is_input kind ≡ false }
    ensures sent { IfOk result (λ sent. sent ≡ sends L.answers (state_of (S.states states.now) vertex) kind nothing_kept arrived.items) }
    ensures kept { OnOk result (changes.new.items ≡ changes.old.items ++ changes_by L.answers (state_of (S.states states.now) vertex) vertex kind arrived.items) }
{
    laws::bags::<Arrival>();
    laws::groups_of_a_bag();
    in_any_order();
    let in_order = Bag::from_vec(alloc, arrived);
    let arrived = Arrived::several(&in_order);
    answer::<L, C, S>(alloc, calls, states, vertex, kind, arrived, changes)
}

/// What a vertex sends of what arrives, in order. What a fold is to keep comes after the `changes` so far. Refusal: `Memory`.
fn answer<L: Law, C: Closures<L>, S: KeptStates>(
    alloc: Global,
    calls: &C,
    states: &S,
    vertex: u8,
    kind: Kind,
    arrived: Arrived<'_>,
    changes: &mut Vec<Change>,
) -> Result<Bag<Rec>, BatchError>
    requires stored { lacking_code (C.stored calls.now) kind ≡ None }
    requires other { is_input kind ≡ false }
    requires in_order { IsBag arrival_cmp arrived }
    ensures sent { IfOk result (λ sent. sent ≡ sends L.answers (state_of (S.states states.now) vertex) kind nothing_kept arrived.entry) }
    ensures kept { OnOk result (changes.new.items ≡ changes.old.items ++ changes_by L.answers (state_of (S.states states.now) vertex) vertex kind arrived.entry) }
{
    match kind {
        Kind::Map(code) => mapped::<L, C>(alloc, calls, code, arrived),
        Kind::Distinct => distinct(alloc, arrived),
        Kind::Group(code) => grouped::<L, C>(alloc, calls, code, Groups::of(arrived)),
        Kind::Fold(code) => {
            let keys = Groups::of(arrived);
            folded::<L, C, S>(alloc, calls, states, vertex, code, keys, changes)
        }
        _ => passed(alloc, arrived),
    }
}

/// What a map sends. Refusal: `Memory`.
fn mapped<L: Law, C: Closures<L>>(
    alloc: Global,
    calls: &C,
    code: u16,
    arrived: Arrived<'_>,
) -> Result<Bag<Rec>, BatchError>
    requires stored { IsTrue ((C.stored calls.now).map code) }
    ensures { IfOk result (λ sent. sent ≡ bag_of rec_cmp (flat_map (λ a. L.answers.emit code a.item.port (rec_of a)) arrived.entry)) }
{
    let mut sent = Vec::new(alloc);
    for arrival in arrived {
        let Some(few) = calls.map(code, arrival.item.port, arrival.rec()) else {
            unreachable!();
        };
        sent.extend_from_slice(few.as_slice())?;
    }
    Ok(Bag::from_vec(alloc, sent))
}

/// The records that arrive, as an enter, a leave, a feedback and an output pass them on. Refusal: `Memory`.
fn passed(alloc: Global, arrived: Arrived<'_>) -> Result<Bag<Rec>, BatchError>
    ensures { IfOk result (λ sent. sent ≡ bag_of rec_cmp (map rec_of arrived.entry)) }
{
    let recs = records(alloc, arrived)?;
    Ok(Bag::from_vec(alloc, recs))
}

/// Each record that arrives, once. Refusal: `Memory`.
fn distinct(alloc: Global, arrived: Arrived<'_>) -> Result<Bag<Rec>, BatchError>
    ensures { IfOk result (λ sent. sent ≡ filter (λ r. not (has rec_cmp r [])) (set_of rec_cmp (map rec_of arrived.entry))) }
{
    laws::member_order::<Rec>();
    laws::bags::<Rec>();
    let all = passed(alloc, arrived)?;
    let mut sent = Vec::new(alloc);
    let mut last = None;
    for rec in all.list() {
        if !is_repeat(last, rec) {
            sent.push(rec)?;
        }
        last = Some(rec);
    }
    Ok(Bag::from_vec(alloc, sent))
}

/// Whether a record is the same as the last one.
fn is_repeat(last: Option<Rec>, rec: Rec) -> bool
    ensures { result ≡ is_repeat last rec }
{
    match last {
        Some(last) => rec.cmp(&last).is_eq(),
        None => false,
    }
}

/// The records of arrivals. Refusal: `Memory`.
fn records(alloc: Global, arrived: Arrived<'_>) -> Result<Vec<Rec>, BatchError>
    ensures { IfOk result (λ recs. recs.items ≡ map rec_of arrived.entry) }
{
    let mut recs = Vec::new(alloc);
    for arrival in arrived {
        recs.push(arrival.rec())?;
    }
    Ok(recs)
}

/// What a group sends. Refusal: `Memory`.
fn grouped<L: Law, C: Closures<L>>(
    alloc: Global,
    calls: &C,
    code: u16,
    mut keys: Groups<'_>,
) -> Result<Bag<Rec>, BatchError>
    requires stored { IsTrue ((C.stored calls.now).group code) }
    ensures { IfOk result (λ sent. sent ≡ bag_of rec_cmp (flat_map (λ g. L.answers.group code g.0 g.1) keys.entry)) }
{
    let mut items = Vec::new(alloc);
    let mut sent = Vec::new(alloc);
    while let Some(key) = keys.next(&mut items)? {
        let Some(few) = calls.group(code, key, items.as_slice()) else {
            unreachable!();
        };
        sent.extend_from_slice(few.as_slice())?;
    }
    Ok(Bag::from_vec(alloc, sent))
}

/// What a fold sends: each key is asked once, with its state before the epoch. What it is to keep comes after the
/// `changes` so far. Refusal: `Memory`.
fn folded<L: Law, C: Closures<L>, S: KeptStates>(
    alloc: Global,
    calls: &C,
    states: &S,
    vertex: u8,
    code: u16,
    mut keys: Groups<'_>,
    changes: &mut Vec<Change>,
) -> Result<Bag<Rec>, BatchError>
    requires stored { IsTrue ((C.stored calls.now).fold code) }
    ensures sent { IfOk result (λ sent. sent ≡ bag_of rec_cmp (flat_map (λ g. (L.answers.fold code g.0 (state_of (S.states states.now) vertex g.0) g.1).1) keys.entry)) }
    ensures kept { OnOk result (changes.new.items ≡ changes.old.items
        ++ map (λ g. record { vertex = vertex; key = g.0; state = (L.answers.fold code g.0 (state_of (S.states states.now) vertex g.0) g.1).0 }) keys.entry) }
{
    let mut items = Vec::new(alloc);
    let mut sent = Vec::new(alloc);
    while let Some(key) = keys.next(&mut items)? {
        let before = states.state(vertex, key);
        let Some((state, few)) = calls.fold(code, key, before, items.as_slice()) else {
            unreachable!();
        };
        sent.extend_from_slice(few.as_slice())?;
        changes.push(Change { vertex, key, state })?;
    }
    Ok(Bag::from_vec(alloc, sent))
}
