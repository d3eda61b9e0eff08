//! Where the orders of a feed come from, and what is asked for at once, as much as a keeper takes.
//!
//! A stream is a feed whose orders come from a reader, at a pace. One loop obeys both, and clauses speak of the script that is
//! left, where it is known. A fault of a line that was read ahead waits until the epochs before it are on the disk and their
//! lines are written.
//!
//! A feed has its epochs up to the next `cut` at once, and a stream those that stand whole in what the input has given. A group
//! ends before an epoch that would be refused or repeated. That one goes alone, so a refusal and an `again Q` come after all that
//! was acknowledged. So does an epoch that names its place: it is compared with the disk when it is asked for, after those before.
//!
//! A line and an open epoch have limits here, since a producer that closes neither would fill the memory. An epoch whose request
//! number is on the disk already has no limit, since it is not put there again.
ghost use Rattle.std.specs.Prelude.{◌≡◌, ◌==◌, ◌⊎◌, ◌+◌, ◌<◌, ◌≤◌, ◌++◌, ℕ, Bool, List, [], Option, Some, None, true, false, length, option_map, OnOk, IfOk, IfErr, IfSome, IfNone, ◌∷◌, IsTrue};
ghost use Rattle.td_store.specs.group.Groups.{may_follow};
ghost use Rattle.td_orders.specs.declared.order.Order.{Order as AnyOrder};
ghost use Rattle.td_orders.specs.declared.source.Asked.TheVariants.{One};
ghost use Rattle.td_orders.specs.Lines.{has_overlong, LosesLines};
ghost use Rattle.td_orders.specs.Orders.{is_between, submissions, notes_in};
ghost use Rattle.td_orders.specs.Scripts.{Script, script_left, script_of, script_in, place, SameScript, is_given, HaveNoPlace, SeeNothing, Asks, IsOf, FitsRoom, AllFit, TellsLine, ComesTo, fault_at_end, may_end, is_of_lines, is_of_reader, FitsOne, IsNext};
ghost use Rattle.td_orders.specs.Placed.{StandsAt, IsGapAt, at_disk, gap_at, not_in_place, placed, told_by, last_by};
ghost use Rattle.td_journal.specs.Numbers.{may_come};
ghost use Rattle.td_store.specs.standing.Standing.{last_epoch, last_request};

use crate::epoch::Reading;
use crate::line_reader::Lines;
use crate::note::Note;
use crate::order::{Order, Place};
use std::alloc::Global;
use std::collections::VecDeque;
use std::marker::Model;
use td_console::{Fault, LineFault, Source};
use td_journal::Submitted;
use td_plan::Plan;
use td_store::standing::KeeperError;

/// How many lines one order may take.
const LINES: u64 = 1 << 32;

/// What is asked for, order by order, or several at once.
pub trait Asking {
    /// The orders that come, up to the first fault or to the end, where they are known, at a disk with this last epoch and this greatest
    /// request number.
    ghost script: { ℕ → ℕ → Self → Option Script };

    /// Whether a line may come that is too long.
    ghost overlong: { Self → Bool };

    /// The next order, or a group of epochs that are at hand and find this room; None at the end. Refusals: those of a reader; the first
    /// fault of the lines; `TooManyRecords` of an epoch that is open; `Memory`.
    fn next_asked(&mut self, alloc: Global, room: &Room) -> Result<Option<Asked>, Fault>
        ensures asked { IfOk result (λ asked. Asks (script room.now.told room.now.last self.old) (script (told_by room.now.told room.now.last asked) (last_by room.now.last asked) self.new) asked) }
        ensures fits { IfOk result (FitsRoom room.now) }
        ensures fault { IfErr result (TellsLine (overlong self.old) (script room.now.told room.now.last self.old)) }
        ensures overlong { IfOk result (λ _. overlong self.new ≡ true → overlong self.old ≡ true) }
        ensures err { IfErr result (λ f. is_of_reader f ≡ true) };
}

/// Orders that were read before.
#[derive(Drop)]
pub struct Listed(pub VecDeque<Order>);

impl Asking for Listed {
    ghost script = { λ told last l. Some (record { orders = l.0.items; fault = None }) };

    ghost overlong = { λ _. false };

    fn next_asked(&mut self, alloc: Global, room: &Room) -> Result<Option<Asked>, Fault> {
        Ok(take_asked(alloc, &mut self.0, room))
    }
}

/// Takes the first orders, as many as submit epochs that together find this room, and else one; None where there is none.
fn take_asked(alloc: Global, orders: &mut VecDeque<Order>, room: &Room) -> Option<Asked>
    ensures some { IfSome result (λ asked. (taken : List AnyOrder) × IsOf asked taken × (orders.old.items ≡ taken ++ orders.new.items)) }
    ensures none { IfNone result ((orders.old.items ≡ []) × (orders.new.items ≡ [])) }
    ensures fits { FitsRoom room.now result }
{
    let group = take_group(alloc, orders, room);
    if !group.is_empty() {
        return Some(Asked::Epochs(group));
    }
    Some(Asked::One(orders.pop_front()?))
}

/// Takes the first orders, as many as submit epochs that together find this room; fewer where memory runs out.
fn take_group(alloc: Global, orders: &mut VecDeque<Order>, room: &Room) -> Vec<Submitted>
    ensures taken { (taken : List AnyOrder) × (orders.old.items ≡ taken ++ orders.new.items) × (submissions taken ≡ result.items) × (notes_in taken ≡ []) × HaveNoPlace taken × SeeNothing taken }
    ensures none { result.items ≡ [] → orders.new.items ≡ orders.old.items }
    ensures rising { may_follow (Some room.now.last) result.items ≡ true }
    ensures few { length result.items ≤ room.now.epochs }
    ensures fits { AllFit room.now result.items }
{
    let mut group = Vec::new(alloc);
    let mut last = room.last;
    for _epoch in 0..room.epochs {
        if group.reserve(1).is_err() {
            break;
        }
        let Some(submitted) = take_fitting(orders, room, last) else {
            break;
        };
        last = last.max(submitted.request);
        group.push_reserved(submitted);
    }
    group
}

/// What is asked for where the disk has these epochs. Refusal: `Gap`, as that of `at_disk`.
fn asked_at_disk(asked: Option<Asked>, refuses: bool, room: &Room) -> Result<Option<Asked>, Fault>
    ensures ok { IfOk result (StandsAt refuses room.now.told asked) }
    ensures fits { IfOk result (λ there. FitsRoom room.now asked → FitsRoom room.now there) }
    ensures refused { IfErr result (IsGapAt refuses room.now.told asked) }
{
    match asked {
        Some(Asked::One(order)) => Ok(Some(Asked::One(at_disk(order, refuses, room)?))),
        other => Ok(other),
    }
}

/// An order where the disk has these epochs: one in its place, or a note that it is there already. Refusal: `Gap`, where the disk lacks an epoch
/// before it; a note of that, where epochs are refused.
fn at_disk(order: Order, refuses: bool, room: &Room) -> Result<Order, Fault>
    ensures ok { IfOk result (λ o. at_disk refuses room.now.told order ≡ Some o) }
    ensures refused { IfErr result (λ f. (at_disk refuses room.now.told order ≡ None) × (f ≡ gap_at order)) }
{
    match order {
        Order::SubmitAt(place, request, batch) => {
            if is_next(place, room.told) {
                Ok(Order::SubmitAt(place, request, batch))
            } else {
                not_in_place(place, refuses, room.told)
            }
        }
        _ => Ok(order),
    }
}

/// Whether a place is that of the epoch after this one.
fn is_next(place: Place, told: u64) -> bool
    ensures { result ≡ (place.epoch == told + 1) }
{
    told < place.epoch && place.epoch - told == 1
}

/// The same of one that is not in its place.
fn not_in_place(place: Place, refuses: bool, told: u64) -> Result<Order, Fault>
    ensures ok { IfOk result (λ o. not_in_place refuses told place.epoch ≡ Some o) }
    ensures refused { IfErr result (λ f. (not_in_place refuses told place.epoch ≡ None) × (f ≡ Fault.Line place.line LineFault.Gap)) }
{
    if place.epoch <= told {
        return Ok(Order::Say(Note::There(place.epoch)));
    }
    if refuses {
        return Ok(Order::Say(Note::Gap(place.epoch)));
    }
    Err(Fault::Line(place.line, LineFault::Gap))
}

/// The orders of a reader's lines. Those whose lines the input has given already are read ahead, up to the first line with a fault; each
/// other one is read when it is asked for. Contracts see what is left of the input, where it is known, and what was read of it.
#[derive(Drop)]
pub struct Streamed<'a, I: Source> {
    lines: Lines<I>,
    reading: Reading<'a>,
    ahead: VecDeque<Order>,
    stopped: Option<(u64, LineFault)>,
    refuses: bool,
}

impl<'a, I: Source> Model for Streamed<'a, I> {
    ghost use Rattle.std.specs.Prelude.{◌≡◌, []};
    ghost use Rattle.td_orders.specs.Lines.{unread};
    ghost use Rattle.td_orders.specs.Scripts.{Streaming, place};

    ghost Value = { Streaming };

    ghost view = { λ s. record { rest = unread (I.remaining s.lines.reader) s.lines.unread; place = place s.reading; ahead = s.ahead.items; stopped = s.stopped; refuses = s.refuses } };

    ghost invariant = { λ s. s.reading.read.orders ≡ [] };
}

impl<'a, I: Source> Streamed<'a, I> {
    /// The orders of a reader's lines, of which those that submit an epoch may have places. Where outputs are held, lines may say which were
    /// seen; where questions are answered, lines may ask; where copies are made, for one. Where a limit is given, an epoch with more records
    /// than that, with a faulty line, or after a gap, is refused.
    pub fn new(
        alloc: Global,
        plan: &'a Plan,
        placing: bool,
        hold: bool,
        questions: bool,
        copies: bool,
        limit: Option<usize>,
        reader: I,
    ) -> Streamed<'a, I>
        ensures script { script_in result ≡ option_map (script_of placing hold questions copies limit plan.now) (I.remaining reader) }
        ensures refuses { result.refuses ≡ is_given limit }
        ensures rest { result.rest ≡ I.remaining reader }
    {
        Streamed {
            lines: Lines::new(alloc, reader),
            reading: Reading::new(alloc, plan, placing, hold, questions, copies, limit),
            ahead: VecDeque::new(alloc),
            stopped: None,
            refuses: limit.is_some(),
        }
    }

    /// Whether an order stands ahead. Where none does, it waits for the next one; false at the end. Refusals: the fault after those
    /// that stood ahead; those of a reader; a line's fault; `Memory`.
    fn is_any_ahead(&mut self, alloc: Global, room: &Room) -> Result<bool, Fault>
        ensures some { IfOk result (λ any. any ≡ true → (0 < length self.new.ahead) × SameScript (script_in self.old) (script_in self.new)) }
        ensures none { IfOk result (λ any. any ≡ false → Asks (script_in self.old) (script_in self.new) None) }
        ensures refuses { self.new.refuses ≡ self.old.refuses }
        ensures overlong { OnOk result (LosesLines self.old.rest self.new.rest) }
        ensures fault { IfErr result (TellsLine (has_overlong self.old.rest) (script_in self.old)) }
        ensures err { IfErr result (λ f. is_of_reader f ≡ true) }
    {
        if !self.ahead.is_empty() {
            return Ok(true);
        }
        if let Some((number, fault)) = self.stopped {
            return Err(Fault::Line(number, fault));
        }
        let Some(order) = self.next_order(alloc, room)? else {
            return Ok(false);
        };
        self.ahead.push_back(order)?;
        Ok(true)
    }

    /// Waits for the lines of the next order, which it reads. None at the end. Refusals: those of a reader; a line's fault; `Memory`;
    /// and `TooManyRecords`, once the epoch that is open has more records than a cell holds.
    fn next_order(&mut self, alloc: Global, room: &Room) -> Result<Option<Order>, Fault>
        ensures order { IfOk result (λ order. Asks (script_left self.old.rest self.old.place) (script_left self.new.rest self.new.place) (option_map One order)) }
        ensures same { (self.new.ahead ≡ self.old.ahead) × (self.new.stopped ≡ self.old.stopped) × (self.new.refuses ≡ self.old.refuses) }
        ensures overlong { OnOk result (LosesLines self.old.rest self.new.rest) }
        ensures fault { IfErr result (TellsLine (has_overlong self.old.rest) (script_left self.old.rest self.old.place)) }
        ensures err { IfErr result (λ f. is_of_reader f ≡ true) }
    {
        for _line in 0..LINES {
            if self.reading.has_too_many(room) {
                return Err(Fault::Keeper(KeeperError::TooManyRecords));
            }
            let Some(end) = self.lines.next_line(alloc, self.reading.number())? else {
                return self.ended();
            };
            let read = self.reading.with_line(alloc, self.lines.front(end));
            self.lines.pass(end);
            if let Some(order) = read? {
                return Ok(Some(order));
            }
        }
        Err(Fault::Input)
    }

    /// Reads the lines that the input has given already, until as many orders stand ahead as find room, or a line has a fault, or the
    /// epoch that is open has too many records. Refusal: `Memory`, and `Input` after more lines than can be numbered.
    fn read_ahead(&mut self, alloc: Global, room: &Room) -> Result<(), Fault>
        ensures same { OnOk result (SameScript (script_in self.old) (script_in self.new)) }
        ensures grows { OnOk result (length self.old.ahead ≤ length self.new.ahead) }
        ensures refuses { self.new.refuses ≡ self.old.refuses }
        ensures overlong { OnOk result (LosesLines self.old.rest self.new.rest) }
        ensures err { IfErr result (λ f. (f ≡ Fault.Memory) ⊎ (f ≡ Fault.Input)) }
    {
        for _line in 0..LINES {
            if self.stopped.is_some()
                || room.epochs <= self.ahead.len() as u64
                || self.reading.has_too_many(room)
                || !self.add_given(alloc)?
            {
                return Ok(());
            }
        }
        Ok(())
    }

    /// Reads one line that the input has given already, if it has: puts ahead the order that it completes, if it does; or notes the line's
    /// fault. Refusals: `Memory`; `Input` after more lines than can be numbered.
    fn add_given(&mut self, alloc: Global) -> Result<bool, Fault>
        requires { self.old.stopped ≡ None }
        ensures same { OnOk result (SameScript (script_in self.old) (script_in self.new)) }
        ensures grows { OnOk result (length self.old.ahead ≤ length self.new.ahead) }
        ensures refuses { self.new.refuses ≡ self.old.refuses }
        ensures overlong { OnOk result (LosesLines self.old.rest self.new.rest) }
        ensures err { IfErr result (λ f. (f ≡ Fault.Memory) ⊎ (f ≡ Fault.Input)) }
    {
        let Some(end) = self.lines.given_line() else {
            return Ok(false);
        };
        let read = self.reading.with_line(alloc, self.lines.front(end));
        self.lines.pass(end);
        match read {
            Ok(Some(order)) => self.ahead.push_back(order)?,
            Ok(None) => {}
            Err(fault) => self.stopped = Some(stop_at(fault)?),
        }
        Ok(true)
    }

    /// At the end. Refusal: `NotClosed`, where an epoch has begun.
    fn ended(&self) -> Result<Option<Order>, Fault>
        ensures none { IfOk result (λ o. (o ≡ None) × (fault_at_end self.now.place.number (may_end self.now.place.flaw (is_between self.now.place.read)) ≡ None)) }
        ensures err { IfErr result (λ f. fault_at_end self.now.place.number (may_end self.now.place.flaw (is_between self.now.place.read)) ≡ Some f) }
    {
        if self.reading.is_between() {
            Ok(None)
        } else {
            Err(Fault::Line(self.reading.number(), LineFault::NotClosed))
        }
    }
}

/// The line at which reading ahead stops for a fault, and what is wrong with it. Refusal: the fault, where it is not a line's.
fn stop_at(fault: Fault) -> Result<(u64, LineFault), Fault>
    requires { is_of_lines fault ≡ true }
    ensures ok { IfOk result (λ stop. fault ≡ Fault.Line stop.0 stop.1) }
    ensures err { IfErr result (λ f. (f ≡ Fault.Memory) ⊎ (f ≡ Fault.Input)) }
{
    match fault {
        Fault::Line(number, fault) => Ok((number, fault)),
        Fault::Memory => Err(Fault::Memory),
        _ => Err(Fault::Input),
    }
}

impl<'a, I: Source> Asking for Streamed<'a, I> {
    ghost script = { λ told last s. option_map (placed s.refuses told last) (script_in s) };

    ghost overlong = { λ s. has_overlong s.rest };

    fn next_asked(&mut self, alloc: Global, room: &Room) -> Result<Option<Asked>, Fault> {
        if !self.is_any_ahead(alloc, room)? {
            return Ok(None);
        }
        self.read_ahead(alloc, room)?;
        let asked = take_asked(alloc, &mut self.ahead, room);
        asked_at_disk(asked, self.refuses, room)
    }
}

/// What is asked for at once.
#[derive(Debug, Drop)]
pub enum Asked {
    /// One order.
    One(Order),
    /// Epochs that are put on the disk as a group.
    Epochs(Vec<Submitted>),
}

impl Asked {
    /// How many epochs it submits, or 1.
    pub fn epochs(&self) -> u64 {
        match self {
            Asked::One(_) => 1,
            Asked::Epochs(group) => group.len() as u64,
        }
    }
}

/// How much a disk takes at once, after what it has.
#[derive(Clone, Copy, Debug, Drop)]
pub struct Room {
    /// The last epoch so far.
    pub told: u64,
    /// The greatest request number so far, 0 for none.
    pub last: u64,
    /// Whether its format has request numbers.
    pub is_numbered: bool,
    /// How many epochs a group may have.
    pub epochs: u64,
    /// How many records an epoch may have.
    pub records: usize,
}

impl Room {
    /// Whether an epoch with this request number, 0 for none, would be put on the disk next: it is no repetition, and the disk has
    /// request numbers if it has one.
    fn takes_number(&self, request: u64) -> bool {
        request == 0 || self.is_numbered && self.last < request
    }

    /// Whether an epoch with this place, if it has one, and this request number, 0 for none, may be put on the disk, next or after others:
    /// it is no repetition, and the disk has no epoch at its place.
    pub(crate) fn takes(&self, place: Option<Place>, request: u64) -> bool {
        match place {
            Some(place) => self.told < place.epoch && self.takes_number(request),
            None => self.takes_number(request),
        }
    }

    /// Whether an order submits an epoch that finds room, after this greatest request number.
    fn fits(&self, order: &Order, last: u64) -> bool
        ensures { IsTrue result → IsNext self.now last order.now }
    {
        match order {
            Order::Submit(batch) => batch.len() <= self.records,
            Order::SubmitAs(request, batch) => {
                self.is_numbered && last < *request && batch.len() <= self.records
            }
            Order::SubmitAt(..)
            | Order::Cut
            | Order::Say(_)
            | Order::Seen { .. }
            | Order::Answer { .. }
            | Order::Copy(_) => false,
        }
    }
}

/// Takes the first order, where it submits an epoch that finds room after this greatest request number.
pub(crate) fn take_fitting(
    orders: &mut VecDeque<Order>,
    room: &Room,
    last: u64,
) -> Option<Submitted>
    ensures some { IfSome result (λ s. (order : AnyOrder) × (orders.old.items ≡ order ∷ orders.new.items)
        × (submissions (order ∷ []) ≡ s ∷ []) × (notes_in (order ∷ []) ≡ []) × (may_come (Some last) s.request ≡ true) × HaveNoPlace (order ∷ []) × FitsOne room.now s) }
    ensures none { IfNone result (orders.new ≡ orders.old) }
{
    if !room.fits(orders.front()?, last) {
        return None;
    }
    match orders.pop_front() {
        Some(Order::Submit(batch)) => Some(Submitted { request: 0, batch }),
        Some(Order::SubmitAs(request, batch)) => Some(Submitted { request, batch }),
        Some(
            Order::SubmitAt(..)
            | Order::Cut
            | Order::Say(_)
            | Order::Seen { .. }
            | Order::Answer { .. }
            | Order::Copy(_),
        )
        | None => unreachable!(),
    }
}
