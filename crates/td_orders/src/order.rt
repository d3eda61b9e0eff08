//! What the input of a feed asks for, line by line.
//!
//! A request number is a line of its own, so a data line is the same in all inputs.
ghost use Rattle.std.specs.Prelude.{◌≡◌, ◌⊎◌, ◌↔◌, ◌<◌, ◌^◌, ◌++◌, [], true, false, All, IfOk, IfErr, IfSome, IfNone, MatchOption, Some, None, Ok, Err, length};
ghost use Rattle.std.specs.Bool.{OnTrue};
ghost use Rattle.std.specs.Option.{IsSome, option_to_list};
ghost use Rattle.td_plan.specs.Text.{text_lines, words};
ghost use Rattle.td_orders.specs.Orders.{is_cut, request_of, positive, place_of, seen_of, feed_line_of, held_line_of, stream_line_of, session_line_of, service_line_of, shape_in, copy_named, copy_of, has_no_number, may_be_placed, is_between, numbered, order_for, order_at, with_order, with_cut, with_request, with_place, with_seen, with_question, with_copy, with_line};
ghost use Rattle.td_orders.specs.Lines.{line_in};
ghost use Rattle.td_orders.specs.Orders.{no_orders, orders_of, is_of_input, IsAccepted, IsFirstLine, Gives};

use crate::file_name::FileName;
use crate::line_reader::line_in;
use crate::note::Note;
use crate::source::Room;
use std::alloc::Global;
use std::marker::Model;
use td_console::{
    DataLine, Fault, LineFault, ascii_text, first_line, is_input, plain_record, read_data_line,
};
use td_head::Shape;
use td_plan::Plan;
use td_plan::text::{natural, next_word, number};
use td_questions::{Question, Wanted, fold_of, read_question};
use td_stamp::{Batch, Entry, Rec};

/// What a line says.
#[derive(Debug, Drop)]
pub enum FeedLine {
    /// What data lines say in every input.
    Data(DataLine),
    /// `req Q`: the epoch that begins has this request number.
    Request(u64),
    /// `at E`: the epoch that begins is this one, or is not put on the disk.
    At(u64),
    /// `cut`.
    Cut,
    /// `seen E`: the consumer has stored the output lines of all epochs up to this one.
    Seen(u64),
    /// A question to what folds keep.
    Ask(Question),
    /// `copy NEW M N K`.
    Copy(CopyTo),
}

/// A new disk on which a copy is put: the name of its file, and its shape.
#[derive(Debug, Drop)]
pub struct CopyTo {
    pub name: FileName,
    pub shape: Shape,
}

/// The place of an epoch: which one it is to be, as the line with this number says.
#[derive(Clone, Copy, Debug, PartialEq, Eq, Drop)]
pub struct Place {
    pub epoch: u64,
    pub line: u64,
}

/// What the input asks for.
#[derive(Debug, Drop)]
pub enum Order {
    /// The next epoch, with this batch.
    Submit(Batch),
    /// The next epoch, with this request number and this batch, unless it was submitted before.
    SubmitAs(u64, Batch),
    /// The same of an epoch that has this place; its request number is 0 for none. The place is compared before this is obeyed.
    SubmitAt(Place, u64, Batch),
    /// To settle, cut, and write the cut.
    Cut,
    /// To write a note.
    Say(Note),
    /// To keep epochs up to this one from now on, where outputs are held: the line with this number says that they were seen.
    Seen { line: u64, epoch: u64 },
    /// To answer what is wanted of a fold, of the states after the last epoch.
    Answer { vertex: u8, wanted: Wanted },
    /// To copy the disk, up to the last epoch.
    Copy(CopyTo),
}

/// Orders that were read, and of the epoch that is not closed its place, its request number, 0 for none, and its entries in the order of
/// their lines.
#[derive(Drop)]
pub(crate) struct Orders {
    pub(crate) orders: Vec<Order>,
    place: Option<Place>,
    request: u64,
    current: Vec<Entry>,
}

impl Model for Orders {
    ghost use Rattle.td_orders.specs.Orders.{Orders};

    ghost Value = { Orders };

    ghost view = { λ r. record { orders = r.orders.items; place = r.place; request = r.request; current = r.current.items } };
}

/// What an input asks for, in order. A line is a data line; or, where neither a record nor a request number stands in the current
/// epoch, `cut` or `req Q`. Refusals: the first fault of the lines, which are counted from 1; `Memory`.
pub fn read_orders(alloc: Global, plan: &Plan, input: &[u8]) -> Result<Vec<Order>, Fault>
    requires bound { length input.now < 2 ^ 63 }
    ensures ok { IfOk result (λ orders. orders_of plan.now input.now ≡ Ok orders.items) }
    ensures accepted { IfOk result (λ orders. All (IsAccepted plan.now) orders.items) }
    ensures err { IfErr result (λ f. (f ≡ Fault.Memory) ⊎ (orders_of plan.now input.now ≡ Err f)) }
    ensures of_input { IfErr result (λ f. is_of_input f ≡ true) }
{
    let mut read = no_orders(alloc);
    let mut number: u64 = 1;
    let mut rest = input;
    while let Some((said, others)) = first_feed_line(rest) {
        read = with_line(alloc, plan, read, number, said)?;
        number += 1;
        rest = others;
    }
    if is_between(&read) {
        Ok(read.orders)
    } else {
        Err(Fault::Line(number, LineFault::NotClosed))
    }
}

/// Before the first line.
pub(crate) fn no_orders(alloc: Global) -> Orders
    ensures { result ≡ no_orders }
{
    Orders {
        orders: Vec::new(alloc),
        place: None,
        request: 0,
        current: Vec::new(alloc),
    }
}

/// What was read, and what one line more adds, which has this number and says this, if it has a form. Refusals: its fault; `Memory`.
pub(crate) fn with_line(
    alloc: Global,
    plan: &Plan,
    read: Orders,
    number: u64,
    said: Option<FeedLine>,
) -> Result<Orders, Fault>
    ensures gives { Gives result (with_line plan.now number read said) }
    ensures of_input { IfErr result (λ f. is_of_input f ≡ true) }
{
    let said = match said {
        Some(FeedLine::Data(said)) => said,
        Some(FeedLine::Request(request)) => return with_request(read, number, request),
        Some(FeedLine::At(epoch)) => return with_place(read, number, epoch),
        Some(FeedLine::Cut) => return with_cut(read, number),
        Some(FeedLine::Seen(epoch)) => return with_seen(read, number, epoch),
        Some(FeedLine::Ask(question)) => return with_question(plan, read, number, question),
        Some(FeedLine::Copy(copy)) => return with_copy(read, number, copy),
        None => return Err(Fault::Line(number, LineFault::Syntax)),
    };
    match said {
        DataLine::PassedOver => Ok(read),
        DataLine::Close => close(alloc, read),
        DataLine::Record(input, rec) => with_record(plan, read, number, input, rec),
    }
}

/// The request number of the epoch that is open, 0 for none.
pub(crate) fn request_in(read: &Orders) -> u64
    ensures { result ≡ read.now.request }
{
    read.request
}

/// How many records the epoch that is open has.
pub(crate) fn records_in(read: &Orders) -> usize
    ensures { result ≡ length read.now.current }
{
    read.current.len()
}

/// With this request number, and without the place and the records of the epoch that is open.
pub(crate) fn numbered(alloc: Global, read: Orders, request: u64) -> Orders
    ensures { result ≡ numbered request read }
{
    Orders {
        orders: read.orders,
        place: None,
        request,
        current: Vec::new(alloc),
    }
}

/// With a note that is to be written in the place of the epoch that is open. Refusal: `Memory`.
pub(crate) fn with_note(alloc: Global, read: Orders, note: Note) -> Result<Orders, Fault>
    ensures ok { IfOk result (λ next. next ≡ with_order (Order.Say note) read) }
    ensures err { IfErr result (λ f. f ≡ Fault.Memory) }
{
    let Orders {
        mut orders,
        place: _,
        request: _,
        current: _,
    } = read;
    orders.push(Order::Say(note))?;
    Ok(Orders {
        orders,
        place: None,
        request: 0,
        current: Vec::new(alloc),
    })
}

/// The last order that was read, taken out, and the others.
pub(crate) fn taken_out(read: Orders) -> (Option<Order>, Orders)
    ensures parts { read.orders ≡ result.1.orders ++ option_to_list result.0 }
    ensures some { IsSome result.0 ↔ (0 < length read.orders) }
    ensures same { result.1 ≡ record { orders = result.1.orders; place = read.place; request = read.request; current = read.current } }
{
    let Orders {
        mut orders,
        place,
        request,
        current,
    } = read;
    let order = orders.pop();
    let others = Orders {
        orders,
        place,
        request,
        current,
    };
    (order, others)
}

/// Whether an epoch has not begun: neither a record nor a place nor a request number stands in it.
pub(crate) fn is_between(read: &Orders) -> bool
    ensures { result ≡ is_between read.now }
{
    read.place.is_none() && has_no_number(read)
}

/// Whether neither a record nor a request number stands in the epoch.
fn has_no_number(read: &Orders) -> bool
    ensures { result ≡ has_no_number read.now }
{
    read.request == 0 && read.current.is_empty()
}

/// Whether neither a record nor a place stands in the epoch.
fn may_be_placed(read: &Orders) -> bool
    ensures { result ≡ may_be_placed read.now }
{
    read.place.is_none() && read.current.is_empty()
}

/// Whether the epoch that is open has more records than fit, where it would be put on the disk if it were closed.
pub(crate) fn has_too_many(read: &Orders, room: &Room) -> bool {
    room.takes(read.place, read.request) && room.records < read.current.len()
}

/// With a request number for the epoch that begins. Refusal: `Syntax` where it has one, or a record.
fn with_request(read: Orders, number: u64, request: u64) -> Result<Orders, Fault>
    ensures gives { Gives result (with_request number request read (has_no_number read)) }
    ensures of_input { IfErr result (λ f. is_of_input f ≡ true) }
{
    if !has_no_number(&read) {
        return Err(Fault::Line(number, LineFault::Syntax));
    }
    Ok(Orders { request, ..read })
}

/// With a place for the epoch that begins. Refusal: `Syntax` where it has one, or a record.
fn with_place(read: Orders, number: u64, epoch: u64) -> Result<Orders, Fault>
    ensures gives { Gives result (with_place number epoch read (may_be_placed read)) }
    ensures of_input { IfErr result (λ f. is_of_input f ≡ true) }
{
    if !may_be_placed(&read) {
        return Err(Fault::Line(number, LineFault::Syntax));
    }
    let place = Some(Place {
        epoch,
        line: number,
    });
    Ok(Orders { place, ..read })
}

/// With a cut. Refusals: `Syntax` where an epoch has begun; `Memory`.
fn with_cut(read: Orders, number: u64) -> Result<Orders, Fault>
    ensures gives { Gives result (with_cut number read (is_between read)) }
    ensures of_input { IfErr result (λ f. is_of_input f ≡ true) }
{
    if !is_between(&read) {
        return Err(Fault::Line(number, LineFault::Syntax));
    }
    let Orders {
        mut orders,
        place,
        request,
        current,
    } = read;
    orders.push(Order::Cut)?;
    Ok(Orders {
        orders,
        place,
        request,
        current,
    })
}

/// With an epoch that was seen. Refusals: `Syntax` where an epoch has begun; `Memory`.
fn with_seen(read: Orders, number: u64, epoch: u64) -> Result<Orders, Fault>
    ensures gives { Gives result (with_seen number epoch read (is_between read)) }
    ensures of_input { IfErr result (λ f. is_of_input f ≡ true) }
{
    if !is_between(&read) {
        return Err(Fault::Line(number, LineFault::Syntax));
    }
    let Orders {
        mut orders,
        place,
        request,
        current,
    } = read;
    orders.push(Order::Seen {
        line: number,
        epoch,
    })?;
    Ok(Orders {
        orders,
        place,
        request,
        current,
    })
}

/// With the answer to a question. Refusals: `Syntax` where an epoch has begun; `NoSuchFold`; `Memory`.
fn with_question(
    plan: &Plan,
    read: Orders,
    number: u64,
    question: Question,
) -> Result<Orders, Fault>
    ensures gives { Gives result (with_question plan.now number question read (is_between read)) }
    ensures of_input { IfErr result (λ f. is_of_input f ≡ true) }
{
    if !is_between(&read) {
        return Err(Fault::Line(number, LineFault::Syntax));
    }
    let Some(vertex) = fold_of(plan, question.vertex) else {
        return Err(Fault::Line(number, LineFault::NoSuchFold));
    };
    let Orders {
        mut orders,
        place,
        request,
        current,
    } = read;
    orders.push(Order::Answer {
        vertex,
        wanted: question.wanted,
    })?;
    Ok(Orders {
        orders,
        place,
        request,
        current,
    })
}

/// With a copy. Refusals: `Syntax` where an epoch has begun; `Memory`.
fn with_copy(read: Orders, number: u64, copy: CopyTo) -> Result<Orders, Fault>
    ensures gives { Gives result (with_copy number copy read (is_between read)) }
    ensures of_input { IfErr result (λ f. is_of_input f ≡ true) }
{
    if !is_between(&read) {
        return Err(Fault::Line(number, LineFault::Syntax));
    }
    let Orders {
        mut orders,
        place,
        request,
        current,
    } = read;
    orders.push(Order::Copy(copy))?;
    Ok(Orders {
        orders,
        place,
        request,
        current,
    })
}

/// With the current epoch closed. Refusal: `Memory`.
fn close(alloc: Global, read: Orders) -> Result<Orders, Fault>
    ensures ok { IfOk result (λ closed. Ok closed ≡ with_line [] 0 read (Some (FeedLine.Data DataLine.Close))) }
    ensures err { IfErr result (λ f. f ≡ Fault.Memory) }
{
    let Orders {
        mut orders,
        place,
        request,
        current,
    } = read;
    orders.push(order_at(place, request, Batch::from_vec(alloc, current)))?;
    Ok(Orders {
        orders,
        place: None,
        request: 0,
        current: Vec::new(alloc),
    })
}

/// What submits a batch under a request number, or without one where that is 0; and at a place, if there is one.
fn order_at(place: Option<Place>, request: u64, batch: Batch) -> Order
    ensures { result ≡ order_at place request batch }
{
    match place {
        Some(place) => Order::SubmitAt(place, request, batch),
        None => order_for(request, batch),
    }
}

/// What submits a batch under a request number, or without one where that is 0.
fn order_for(request: u64, batch: Batch) -> Order
    ensures { result ≡ order_for request batch }
{
    if request == 0 {
        Order::Submit(batch)
    } else {
        Order::SubmitAs(request, batch)
    }
}

/// With one record more. Refusals: `NoSuchInput`; `Memory`.
fn with_record(
    plan: &Plan,
    read: Orders,
    number: u64,
    input: u32,
    rec: Rec,
) -> Result<Orders, Fault>
    ensures gives { Gives result (with_line plan.now number read (Some (FeedLine.Data (DataLine.Record input rec)))) }
    ensures of_input { IfErr result (λ f. is_of_input f ≡ true) }
{
    if !is_input(plan, input) {
        return Err(Fault::Line(number, LineFault::NoSuchInput));
    }
    let input = input as u8;
    let Orders {
        orders,
        place,
        request,
        mut current,
    } = read;
    current.push(Entry { input, rec })?;
    Ok(Orders {
        orders,
        place,
        request,
        current,
    })
}

/// What the first line of some bytes says, if it has a form, and the bytes after that line. Most lines are plain, and are read in
/// one pass.
fn first_feed_line(bytes: &[u8]) -> Option<(Option<FeedLine>, &[u8])>
    ensures { MatchOption result (text_lines bytes.now ≡ []) (λ p. IsFirstLine bytes.now p.0 p.1.now) }
{
    match plain_record(bytes) {
        Some((input, rec, others)) => {
            let said = FeedLine::Data(DataLine::Record(input, rec));
            Some((Some(said), others))
        }
        None => {
            let (line, others) = first_line(bytes)?;
            Some((read_feed_line(line), others))
        }
    }
}

/// What the first line of a text says in a stream, if it has a form. Most lines are plain, and are read in one pass. Refusal: `Memory`.
pub(crate) fn read_stream_text(
    alloc: Global,
    placing: bool,
    hold: bool,
    questions: bool,
    copies: bool,
    text: &[u8],
) -> Result<Option<FeedLine>, Fault>
    ensures ok { IfOk result (λ said. said ≡ service_line_of placing hold questions copies (line_in text.now)) }
    ensures err { IfErr result (λ f. f ≡ Fault.Memory) }
{
    match plain_record(text) {
        Some((input, rec, _)) => Ok(Some(FeedLine::Data(DataLine::Record(input, rec)))),
        None => read_service_line(alloc, placing, hold, questions, copies, line_in(text)),
    }
}

/// What a line of a stream says, if it has a form: where copies are made, also which. Refusal: `Memory`.
fn read_service_line(
    alloc: Global,
    placing: bool,
    hold: bool,
    questions: bool,
    copies: bool,
    line: &[u8],
) -> Result<Option<FeedLine>, Fault>
    ensures ok { IfOk result (λ said. said ≡ service_line_of placing hold questions copies line.now) }
    ensures err { IfErr result (λ f. f ≡ Fault.Memory) }
{
    if !copies {
        return Ok(read_session_line(placing, hold, questions, line));
    }
    let Some(text) = ascii_text(line) else {
        return Ok(None);
    };
    match read_copy(alloc, text)? {
        Some(copy) => Ok(Some(FeedLine::Copy(copy))),
        None => Ok(read_session_line(placing, hold, questions, line)),
    }
}

/// The same where no copies are made: where questions are answered, also what the line asks.
fn read_session_line(placing: bool, hold: bool, questions: bool, line: &[u8]) -> Option<FeedLine>
    ensures { result ≡ session_line_of placing hold questions line.now }
{
    if !questions {
        return read_stream_line(placing, hold, line);
    }
    match read_question(ascii_text(line)?) {
        Some(question) => Some(FeedLine::Ask(question)),
        None => read_stream_line(placing, hold, line),
    }
}

/// The same where no questions are answered: where epochs may have places, also the place of one; and where outputs are held, which epoch
/// was seen.
fn read_stream_line(placing: bool, hold: bool, line: &[u8]) -> Option<FeedLine>
    ensures { result ≡ stream_line_of placing hold line.now }
{
    if !placing {
        return read_held_line(hold, line);
    }
    match read_place(ascii_text(line)?) {
        Some(epoch) => Some(FeedLine::At(epoch)),
        None => read_held_line(hold, line),
    }
}

/// The same where epochs have no places.
fn read_held_line(hold: bool, line: &[u8]) -> Option<FeedLine>
    ensures { result ≡ held_line_of hold line.now }
{
    if !hold {
        return read_feed_line(line);
    }
    match read_seen(ascii_text(line)?) {
        Some(epoch) => Some(FeedLine::Seen(epoch)),
        None => read_feed_line(line),
    }
}

/// What a line of a feed says, if it has a form. A line that begins with a digit is a data line, or has no form.
fn read_feed_line(line: &[u8]) -> Option<FeedLine>
    ensures { result ≡ feed_line_of line.now }
{
    let text = ascii_text(line)?;
    if begins_with_digit(line) {
        return Some(FeedLine::Data(read_data_line(text)?));
    }
    if is_cut(text) {
        return Some(FeedLine::Cut);
    }
    match read_request(text) {
        Some(request) => Some(FeedLine::Request(request)),
        None => Some(FeedLine::Data(read_data_line(text)?)),
    }
}

/// Whether the first byte of a line is a digit: then it is neither `cut` nor `req Q`.
fn begins_with_digit(line: &[u8]) -> bool
    ensures no_cut { OnTrue result (is_cut (words line.now) ≡ false) }
    ensures no_request { OnTrue result (request_of (words line.now) ≡ None) }
{
    match line.split_first() {
        Some((byte, _)) => byte.is_ascii_digit(),
        None => false,
    }
}

/// The number that a line `req Q` gives, from 1 on, where it is one.
fn read_request(line: &str) -> Option<u64>
    ensures { result ≡ request_of (words line.now) }
{
    let (word, rest) = next_word(line)?;
    let (number, rest) = next_word(rest)?;
    if word != "req" || next_word(rest).is_some() {
        return None;
    }
    positive(natural(number))
}

/// The epoch that a line `at E` gives, from 1 on, where it is one.
fn read_place(line: &str) -> Option<u64>
    ensures { result ≡ place_of (words line.now) }
{
    let (word, rest) = next_word(line)?;
    let (number, rest) = next_word(rest)?;
    if word != "at" || next_word(rest).is_some() {
        return None;
    }
    positive(natural(number))
}

/// The epoch that a line `seen E` gives, where it is one.
fn read_seen(line: &str) -> Option<u64>
    ensures { result ≡ seen_of (words line.now) }
{
    let (word, rest) = next_word(line)?;
    let (number, rest) = next_word(rest)?;
    if word != "seen" || next_word(rest).is_some() {
        return None;
    }
    natural(number)
}

/// The copy for which a line `copy NEW M N K` asks, where it is one. Refusal: `Memory`.
fn read_copy(alloc: Global, line: &str) -> Result<Option<CopyTo>, Fault>
    ensures ok { IfOk result (λ copy. copy ≡ copy_of (words line.now)) }
    ensures err { IfErr result (λ f. f ≡ Fault.Memory) }
{
    let Some((name, shape)) = copy_words(line) else {
        return Ok(None);
    };
    match FileName::of(alloc, name)? {
        Some(name) => Ok(Some(CopyTo { name, shape })),
        None => Ok(None),
    }
}

/// The word for the name of a copy, and the shape, of a line `copy NEW M N K`, where it is one.
fn copy_words(line: &str) -> Option<(&str, Shape)>
    ensures some { IfSome result (λ w. copy_of (words line.now) ≡ copy_named w.0.now (Some w.1)) }
    ensures none { IfNone result (copy_of (words line.now) ≡ None) }
{
    let (word, rest) = next_word(line)?;
    let (name, rest) = next_word(rest)?;
    if word != "copy" {
        return None;
    }
    Some((name, read_shape(rest)?))
}

/// The shape that three numbers give, where they are all of a text and each keeps its limits.
fn read_shape(text: &str) -> Option<Shape>
    ensures { result ≡ shape_in (words text.now) }
{
    let (m, rest) = next_word(text)?;
    let (n, rest) = next_word(rest)?;
    let (k, rest) = next_word(rest)?;
    if next_word(rest).is_some() {
        return None;
    }
    Shape::new(number(m)?, number(n)?, number(k)?)
}

/// A number, where it is not 0.
fn positive(number: Option<u64>) -> Option<u64>
    ensures { result ≡ positive number }
{
    match number {
        Some(0) | None => None,
        Some(number) => Some(number),
    }
}

/// Whether the one word of a line is `cut`.
fn is_cut(line: &str) -> bool
    ensures { result ≡ is_cut (words line.now) }
{
    match next_word(line) {
        Some((word, rest)) => word == "cut" && next_word(rest).is_none(),
        None => false,
    }
}
