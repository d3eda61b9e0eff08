//! The lines of a stream, one after another, and the epochs that it refuses.
//!
//! An epoch is refused for its first flaw, and answered at its `.`, as each other one is. So each `.` has one answer, and the
//! request number may stand below the flaw. What was read of the epoch is let go at the flaw.
ghost use Rattle.std.specs.Prelude.{◌≡◌, [], true, Ok, Err, IfOk, IfErr, length};
ghost use Rattle.td_orders.specs.Orders.{with_line, is_between, is_of_input, no_orders, numbered, Gives};
ghost use Rattle.td_orders.specs.Noted.{flaw_of, cause_in};
ghost use Rattle.td_orders.specs.Lines.{line_in};
ghost use Rattle.td_orders.specs.Scripts.{place, at_start, with_said, judged, passed_over, first_number, refused, unless_refused, is_over, may_end, Completes, FaultOfNext, is_of_lines};

use crate::excerpt::cause_of;
use crate::line_reader::line_in;
use crate::note::{Cause, Flaw, Note};
use crate::order::{
    FeedLine, Order, Orders, has_too_many, is_between, no_orders, numbered, read_stream_text,
    records_in, request_in, taken_out, with_line, with_note,
};
use crate::source::Room;
use std::alloc::Global;
use std::mem;
use td_console::{DataLine, Fault, LineFault};
use td_plan::Plan;

/// Where a stream is in its input: the number of the next line, what was read, and why the epoch that is open is refused, if it is. Where
/// epochs are refused, one may have so many records. Where epochs may have places, lines say which; where outputs are held, which were
/// seen; where questions are answered, lines may ask; and where copies are made, for one.
#[derive(Drop)]
pub(crate) struct Reading<'a> {
    plan: &'a Plan,
    placing: bool,
    hold: bool,
    questions: bool,
    copies: bool,
    limit: Option<usize>,
    number: u64,
    flaw: Option<(u64, Flaw)>,
    read: Orders,
}

impl<'a> Reading<'a> {
    /// Before the first line.
    pub(crate) fn new(
        alloc: Global,
        plan: &'a Plan,
        placing: bool,
        hold: bool,
        questions: bool,
        copies: bool,
        limit: Option<usize>,
    ) -> Reading<'a>
        ensures { place result ≡ at_start placing hold questions copies limit plan.now }
    {
        Reading {
            plan,
            placing,
            hold,
            questions,
            copies,
            limit,
            number: 1,
            flaw: None,
            read: no_orders(alloc),
        }
    }

    /// The number of the next line.
    pub(crate) fn number(&self) -> u64
        ensures { result ≡ self.now.number }
    {
        self.number
    }

    /// Whether the epoch that is open has more records than fit, where it would be put on the disk if it were closed.
    pub(crate) fn has_too_many(&self, room: &Room) -> bool {
        has_too_many(&self.read, room)
    }

    /// Whether no epoch has begun.
    pub(crate) fn is_between(&self) -> bool
        ensures { result ≡ may_end self.now.flaw (is_between self.now.read) }
    {
        self.flaw.is_none() && is_between(&self.read)
    }

    /// The order that one line more completes, if it does: the line that this text begins with. Refusals: the line's fault; `Memory`; `Input`
    /// after more lines than can be numbered.
    pub(crate) fn with_line(&mut self, alloc: Global, text: &[u8]) -> Result<Option<Order>, Fault>
        requires ready { self.old.read.orders ≡ [] }
        ensures order { IfOk result (Completes (place self.old) (place self.new) (line_in text.now)) }
        ensures fault { IfErr result (FaultOfNext (place self.old) (line_in text.now)) }
        ensures none_left { self.new.read.orders ≡ [] }
        ensures err { IfErr result (λ f. is_of_lines f ≡ true) }
    {
        let Some(next) = self.number.checked_add(1) else {
            return Err(Fault::Input);
        };
        let words = read_stream_text(
            alloc,
            self.placing,
            self.hold,
            self.questions,
            self.copies,
            text,
        )?;
        let read = mem::replace(&mut self.read, no_orders(alloc));
        let flaw = self.flaw.take();
        let said = with_said(
            alloc,
            self.plan,
            self.limit,
            self.number,
            flaw,
            read,
            text,
            words,
        )?;
        let (order, read) = taken_out(said.1);
        self.flaw = said.0;
        self.read = read;
        self.number = next;
        Ok(order)
    }
}

/// What was read, and what one line more adds, which this text begins with, and which has this number and says this, if it has a form; or why
/// the epoch is refused. Refusals: the line's fault, where epochs are not refused; `Memory`.
fn with_said(
    alloc: Global,
    plan: &Plan,
    limit: Option<usize>,
    number: u64,
    flaw: Option<(u64, Flaw)>,
    read: Orders,
    text: &[u8],
    said: Option<FeedLine>,
) -> Result<(Option<(u64, Flaw)>, Orders), Fault>
    requires ready { read.orders ≡ [] }
    ensures gives { Gives result (with_said plan.now limit number flaw read (line_in text.now) said) }
    ensures of_input { IfErr result (λ f. is_of_input f ≡ true) }
{
    match flaw {
        Some(flaw) => passed_over(alloc, read, flaw, said),
        None => judged(alloc, plan, limit, number, read, text, said),
    }
}

/// The same, where the epoch was not refused before.
fn judged(
    alloc: Global,
    plan: &Plan,
    limit: Option<usize>,
    number: u64,
    read: Orders,
    text: &[u8],
    said: Option<FeedLine>,
) -> Result<(Option<(u64, Flaw)>, Orders), Fault>
    requires ready { read.orders ≡ [] }
    ensures gives { Gives result (judged limit number (line_in text.now) read (with_line plan.now number read said)) }
    ensures of_input { IfErr result (λ f. is_of_input f ≡ true) }
{
    let request = request_in(&read);
    match with_line(alloc, plan, read, number, said) {
        Ok(next) => {
            if is_over(limit, &next) {
                return refused(alloc, number, request, Cause::TooManyRecords, text);
            }
            Ok((None, next))
        }
        Err(fault) => refused_for(alloc, limit, number, request, fault, text),
    }
}

/// What was read, where the epoch with this request number is refused for a fault of the line with this number. Refusal: the fault, where
/// epochs are not refused, and want of memory.
fn refused_for(
    alloc: Global,
    limit: Option<usize>,
    number: u64,
    request: u64,
    fault: Fault,
    text: &[u8],
) -> Result<(Option<(u64, Flaw)>, Orders), Fault>
    requires of_input { is_of_input fault ≡ true }
    ensures gives { Gives result (unless_refused number (line_in text.now) (numbered request no_orders) fault limit) }
    ensures memory { fault ≡ Fault.Memory → result ≡ Err Fault.Memory }
    ensures of_input { IfErr result (λ f. is_of_input f ≡ true) }
{
    let Some(_most) = limit else {
        return Err(fault);
    };
    match fault {
        Fault::Line(_, fault) => refused(alloc, number, request, cause_in(fault, text), text),
        Fault::Memory => Err(Fault::Memory),
        _ => unreachable!(),
    }
}

/// Whether the epoch that is open has more records than it may have.
fn is_over(limit: Option<usize>, read: &Orders) -> bool
    ensures { result ≡ is_over limit (length read.now.current) }
{
    match limit {
        Some(limit) => limit < records_in(read),
        None => false,
    }
}

/// The cause of a line's fault.
fn cause_in(fault: LineFault, text: &[u8]) -> Cause
    ensures { result ≡ cause_in (line_in text.now) fault }
{
    match fault {
        LineFault::Syntax => cause_of(line_in(text)),
        LineFault::NoSuchInput
        | LineFault::NotClosed
        | LineFault::NotOut
        | LineFault::SeenBefore
        | LineFault::Gap
        | LineFault::NoSuchFold => Cause::Line(fault),
    }
}

/// What was read, where the epoch with this request number is refused for the line with this number. Refusal: `Memory`.
fn refused(
    alloc: Global,
    number: u64,
    request: u64,
    cause: Cause,
    text: &[u8],
) -> Result<(Option<(u64, Flaw)>, Orders), Fault>
    ensures ok { IfOk result (λ next. next ≡ refused number (numbered request no_orders) (flaw_of cause (line_in text.now))) }
    ensures err { IfErr result (λ f. f ≡ Fault.Memory) }
{
    let flaw = Flaw::new(alloc, cause, line_in(text))?;
    let none = numbered(alloc, no_orders(alloc), request);
    Ok((Some((number, flaw)), none))
}

/// What was read, with one line more of an epoch that is refused. Refusal: `Memory`.
fn passed_over(
    alloc: Global,
    read: Orders,
    flaw: (u64, Flaw),
    said: Option<FeedLine>,
) -> Result<(Option<(u64, Flaw)>, Orders), Fault>
    ensures gives { Gives result (Ok (passed_over flaw read said)) }
    ensures of_input { IfErr result (λ f. is_of_input f ≡ true) }
{
    let request = request_in(&read);
    match said {
        Some(FeedLine::Data(DataLine::Close)) => {
            let note = Note::Refused {
                request,
                line: flaw.0,
                flaw: flaw.1,
            };
            Ok((None, with_note(alloc, read, note)?))
        }
        Some(FeedLine::Request(number)) => {
            let request = first_number(request, number);
            Ok((Some(flaw), numbered(alloc, read, request)))
        }
        Some(
            FeedLine::Data(DataLine::PassedOver | DataLine::Record(..))
            | FeedLine::At(_)
            | FeedLine::Cut
            | FeedLine::Seen(_)
            | FeedLine::Ask(_)
            | FeedLine::Copy(_),
        )
        | None => Ok((Some(flaw), numbered(alloc, read, request))),
    }
}

/// A request number, or this one where there is none yet.
fn first_number(request: u64, number: u64) -> u64
    ensures { result ≡ first_number request number }
{
    if request == 0 { number } else { request }
}
