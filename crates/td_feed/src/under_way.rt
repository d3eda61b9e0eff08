//! A feed under way.
//!
//! The `ack` lines of a group are written at once, and a stream's outputs after them. A stream settles after each order and reads
//! no line meanwhile, so outputs come before the next `ack`.
ghost use Rattle.std.specs.Prelude.{◌≡◌, ◌⊎◌, ℕ, Option, Some, [], ◌∷◌, length, true, false, IfOk, IfSome, IfNone, IfErr, OnOk, Err, string_bytes};
ghost use Rattle.std.specs.Io.KnownBytes.{Appends};
ghost use Rattle.td_store.specs.standing.Standing.{last_epoch, last_request, submission};
ghost use Rattle.td_store.specs.declared.standing.error.KeeperError.TheVariants.{Device};
ghost use Rattle.td_keeper.specs.declared.command.Command.TheVariants.{SubmitAll, NextOut};
ghost use Rattle.td_keeper.specs.declared.command.Reply.TheVariants.{Out};
ghost use Rattle.td_keeper.specs.Keeping.{since_base};
ghost use Rattle.td_keeper.specs.Halls.{IsDone, place_between};
ghost use Rattle.td_keeper.specs.Driven.{Driven};
ghost use Rattle.td_orders.specs.declared.source.Asked.TheVariants.{One};
ghost use Rattle.td_orders.specs.Noted.Aside.{to_answer};
ghost use Rattle.td_orders.specs.Scripts.{is_of_reader, MayFollow};
ghost use Rattle.td_feed.specs.Carried.{new_to, IsRising, Carries};
ghost use Rattle.td_feed.specs.Caused.{IsOfAsked, IsOfWriter};
ghost use Rattle.td_feed.specs.Groups.{room_of};
ghost use Rattle.td_feed.specs.Held.{SameBase, KeepsTo, seen_at, seen_with, told_seen};
ghost use Rattle.td_feed.specs.Served.{Serves, script_at};
ghost use Rattle.td_feed.specs.Session.{KeepsDisk, Feeds, FeedsNoting};
ghost use Rattle.td_feed.specs.Stepping.{IsKnown, EachComes, EachRests, faulted, IsQuiet, Stays, IsSettled, IsCheckpointed, HasCut, IsInTime, KeepsPace, Steps, Does};

use crate::copy::copy_aloud;
use crate::host::Host;
use crate::reply_lines::{Voice, print_out, say, say_answer, say_full};
use std::alloc::Global;
use std::marker::PhantomData;
use std::sync::Wait;
use td_calls::Law;
use td_console::{Fault, LineFault, Sink, write_answer};
use td_disk::Disk;
use td_keeper::laws::{each_at_work_is_kept, each_disk_holds, each_is_told, others_rest};
use td_keeper::{Group, Keeper, Obey, Reply};
use td_orders::{Asked, Asking, Order, Room, write_note};
use td_questions::Wanted;
use td_stamp::{Batch, EPOCHS_END, EpochOut};
use td_store::standing::{KeeperError, laws};

/// Output lines are written where they have so many bytes.
const PIECE: usize = 65_536;

/// How many epochs a group has at most, and how many bytes their cells take together.
const EPOCHS: u64 = 256;

// A cell is written whole, so from 21,845 records a cell on each epoch goes alone.
const BYTES: u64 = 1 << 20;

/// The bytes of a cell beside its records, its gate too, and those of a record.
const CELL: u64 = 25;

const RECORD: u64 = 24;

/// The first version of the format that has request numbers.
const NUMBERED: u32 = 2;

/// When outputs are written, and cuts are taken that no order asks for.
#[derive(Clone, Copy, Debug, PartialEq, Eq)]
pub(crate) enum Pace {
    /// Outputs at a cut and at the end.
    AtEnd,
    /// Outputs after each order; and a cut where `every` epochs stand on the journal, if a number is given, and where it is full. Where outputs
    /// are held, no cut is taken beyond the last epoch that was seen.
    Live { every: Option<u32>, hold: bool },
}

impl Pace {
    /// How many epochs may be submitted at once at this pace: as many as stand on the journal up to the next cut that no order asks
    /// for, if it is known.
    fn epochs_at_once<D: Disk, L: Law>(self, keeper: &Keeper<D, L>) -> u64 {
        match self {
            Pace::Live {
                every: Some(every),
                ..
            } => u64::from(every).saturating_sub(open_epochs(keeper)),
            Pace::AtEnd | Pace::Live { every: None, .. } => u64::MAX,
        }
    }

    /// The last epoch that was seen before the first order, where outputs are held: what the disk keeps.
    fn first_seen<D: Disk, L: Law>(self, keeper: &Keeper<D, L>) -> Option<u64>
        ensures { result ≡ seen_at self keeper.now.standing.epoch }
    {
        match self {
            Pace::Live { hold: true, .. } => Some(keeper.kept()),
            Pace::AtEnd | Pace::Live { hold: false, .. } => None,
        }
    }
}

/// A keeper at work, where its lines go, and how many cells the last cut freed, which may be open yet.
#[derive(Drop)]
pub(crate) struct Feeding<'a, D: Disk, L: Law, R, E: Obey<D, L, R>, W> {
    rt: &'a R,
    alloc: Global,
    engine: E,
    writer: W,
    freed: u64,
    disk: PhantomData<D>,
    law: PhantomData<L>,
}

impl<'a, D: Disk, L: Law, R: Wait, E: Obey<D, L, R>, W: Voice> Feeding<'a, D, L, R, E, W> {
    /// Before the first order.
    pub(crate) fn new(rt: &'a R, alloc: Global, engine: E, writer: W) -> Feeding<'a, D, L, R, E, W>
        ensures engine { result.engine ≡ engine }
        ensures writer { result.writer ≡ writer }
    {
        Feeding {
            rt,
            alloc,
            engine,
            writer,
            freed: 0,
            disk: PhantomData,
            law: PhantomData,
        }
    }

    /// The keeper at work, and the writer.
    pub(crate) fn into_parts(self) -> (E, W)
        ensures engine { result.0 ≡ self.entry.engine }
        ensures writer { result.1 ≡ self.entry.writer }
    {
        (self.engine, self.writer)
    }

    /// Does what is asked for in turn, at a pace, and settles. Refusals: those of what asks for the orders, of the keeper and of the writer.
    pub(crate) fn serve<S: Asking, H: Host>(
        &mut self,
        pace: Pace,
        orders: &mut S,
        host: &mut H,
    ) -> Result<(), Fault>
        requires whole { (E.keeping self.old.engine).broken ≡ false }
        ensures { Serves D.view L.answers W.marks W.contents W.HasRoom H.New.view H.copies H.seen E.alone pace (S.overlong orders.old) (script_at S.script (E.keeping self.old.engine) orders.old)
            result (E.keeping self.old.engine) (E.keeping self.new.engine) self.old.writer self.new.writer host.old host.new }
    {
        let mut seen = pace.first_seen(self.engine.keeper());
        tell_seen(host, seen);
        self.engine.allow(open_epochs(self.engine.keeper()));
        self.keep_pace(pace, seen)?;
        let rt = self.rt;
        for _asked in rt.forever() {
            let keeper = self.engine.keeper();
            let most = pace.epochs_at_once(keeper);
            let room = room_of(keeper, most);
            let Some(asked) = orders.next_asked(self.alloc, &room)? else {
                return self.settle();
            };
            let next = seen_with(seen, &asked, self.engine.keeper())?;
            seen = next;
            tell_seen(host, seen);
            self.engine.allow(asked.epochs());
            self.obey(pace, seen, asked, host)?;
        }
        unreachable!()
    }

    /// Does what is asked for, and what is due after it at this pace.
    fn obey<H: Host>(
        &mut self,
        pace: Pace,
        seen: Option<u64>,
        asked: Asked,
        host: &mut H,
    ) -> Result<(), Fault>
        requires whole { (E.keeping self.old.engine).broken ≡ false }
        requires rising { MayFollow (last_request (E.keeping self.old.engine).standing) (Some asked) }
        ensures does { Does D.view L.answers W.marks W.HasRoom H.New.view seen result (W.contents self.old.writer) (W.contents self.new.writer) (H.copies host.old) (H.copies host.new)
            (E.keeping self.old.engine) (E.keeping self.new.engine) asked }
        ensures in_time { E.alone ≡ true → OnOk result (KeepsPace pace seen (E.keeping self.new.engine)) }
        ensures seen { H.seen host.new ≡ H.seen host.old }
    {
        match asked {
            Asked::Epochs(group) => {
                self.submit_all(Group::from_vec(group))?;
                self.keep_pace(pace, seen)
            }
            Asked::One(order) => {
                self.obey_one(seen, order, host)?;
                self.keep_pace(pace, seen)
            }
        }
    }

    /// Does what one order asks for. Refusals: those of the keeper and of the writer.
    fn obey_one<H: Host>(
        &mut self,
        seen: Option<u64>,
        order: Order,
        host: &mut H,
    ) -> Result<(), Fault>
        requires whole { (E.keeping self.old.engine).broken ≡ false }
        ensures does { Does D.view L.answers W.marks W.HasRoom H.New.view seen result (W.contents self.old.writer) (W.contents self.new.writer) (H.copies host.old) (H.copies host.new)
            (E.keeping self.old.engine) (E.keeping self.new.engine) (One order) }
        ensures seen { H.seen host.new ≡ H.seen host.old }
    {
        match order {
            Order::Submit(batch) => self.submit(batch),
            Order::SubmitAs(request, batch) => self.submit_as(request, batch),
            Order::SubmitAt(_, 0, batch) => self.submit(batch),
            Order::SubmitAt(_, request, batch) => self.submit_as(request, batch),
            Order::Cut => self.cut(seen),
            Order::Say(note) => write_note(self.alloc, &note, &mut self.writer),
            Order::Seen { .. } => Ok(()),
            Order::Answer { vertex, wanted } => self.answer(vertex, wanted),
            Order::Copy(copy) => {
                let keeper = self.engine.keeper();
                copy_aloud(self.alloc, keeper, &copy, host, &mut self.writer)
            }
        }
    }

    /// Puts a batch on the disk, and writes `ack E`.
    fn submit(&mut self, batch: Batch) -> Result<(), Fault>
        requires whole { (E.keeping self.old.engine).broken ≡ false }
        ensures { (seen : Option ℕ) → Steps D.view L.answers W.marks W.HasRoom seen result (W.contents self.old.writer) (W.contents self.new.writer)
            (E.keeping self.old.engine) (E.keeping self.new.engine) (new_to (E.keeping self.old.engine) (submission 0 batch ∷ [])) }
    {
        known(&self.engine);
        let reply = Reply::of_submit(self.engine.submit(batch));
        known(&self.engine);
        say(self.alloc, 0, reply, &mut self.writer)
    }

    /// Puts a batch on the disk under a request number, and writes `ack E`, or `again Q` where it was there.
    fn submit_as(&mut self, request: u64, batch: Batch) -> Result<(), Fault>
        requires whole { (E.keeping self.old.engine).broken ≡ false }
        ensures { (seen : Option ℕ) → Steps D.view L.answers W.marks W.HasRoom seen result (W.contents self.old.writer) (W.contents self.new.writer)
            (E.keeping self.old.engine) (E.keeping self.new.engine) (new_to (E.keeping self.old.engine) (submission request batch ∷ [])) }
    {
        known(&self.engine);
        let reply = Reply::of_submit_as(self.engine.submit_as(request, batch));
        known(&self.engine);
        say(self.alloc, request, reply, &mut self.writer)
    }

    /// Puts a group of batches on the disk, and writes `ack E` of each.
    fn submit_all(&mut self, group: Group) -> Result<(), Fault>
        requires whole { (E.keeping self.old.engine).broken ≡ false }
        requires rising { IsRising (E.keeping self.old.engine) (SubmitAll group) }
        ensures { (seen : Option ℕ) → Steps D.view L.answers W.marks W.HasRoom seen result (W.contents self.old.writer) (W.contents self.new.writer)
            (E.keeping self.old.engine) (E.keeping self.new.engine) (new_to (E.keeping self.old.engine) group) }
    {
        known(&self.engine);
        let submitted = self.engine.submit_all(group);
        known(&self.engine);
        let reply = Reply::of_submit_all(submitted, self.engine.keeper().last_epoch() + 1);
        say(self.alloc, 0, reply, &mut self.writer)
    }

    /// Answers what is wanted of a fold, and writes the lines of the answer.
    fn answer(&mut self, vertex: u8, wanted: Wanted) -> Result<(), Fault>
        requires whole { (E.keeping self.old.engine).broken ≡ false }
        ensures engine { self.new.engine ≡ self.old.engine }
        ensures steps { FeedsNoting D.view L.answers W.marks result (W.contents self.old.writer) (W.contents self.new.writer) (E.keeping self.old.engine) (E.keeping self.new.engine) [] (to_answer vertex wanted ∷ []) }
        ensures no_device { result ≡ Err (Fault.Keeper Device) → ⊥ }
        ensures fault { IfErr result (IsOfWriter W.HasRoom) }
    {
        known(&self.engine);
        let answer = self.engine.answer(self.rt, vertex, wanted);
        say_answer(self.alloc, vertex, wanted, answer, &mut self.writer)
    }

    /// Does what is due after an order, at this pace: releases the epochs that the hall lacks; or settles, and cuts where it is time, closes
    /// the cells that come next, and says where the journal is full all the same.
    fn keep_pace(&mut self, pace: Pace, seen: Option<u64>) -> Result<(), Fault>
        requires whole { (E.keeping self.old.engine).broken ≡ false }
        ensures steps { Steps D.view L.answers W.marks W.HasRoom seen result (W.contents self.old.writer) (W.contents self.new.writer) (E.keeping self.old.engine) (E.keeping self.new.engine) [] }
        ensures in_time { E.alone ≡ true → OnOk result (KeepsPace pace seen (E.keeping self.new.engine)) }
    {
        match pace {
            Pace::AtEnd => release(self.rt, &mut self.engine),
            Pace::Live { every, .. } => {
                self.cut_or_settle(every, seen)?;
                self.close_freed()?;
                self.tell_full(seen)
            }
        }
    }

    /// Settles, and cuts where it is time.
    fn cut_or_settle(&mut self, every: Option<u32>, seen: Option<u64>) -> Result<(), Fault>
        requires whole { (E.keeping self.old.engine).broken ≡ false }
        ensures steps { Steps D.view L.answers W.marks W.HasRoom seen result (W.contents self.old.writer) (W.contents self.new.writer) (E.keeping self.old.engine) (E.keeping self.new.engine) [] }
        ensures in_time { E.alone ≡ true → OnOk result (IsInTime every seen (E.keeping self.new.engine)) }
    {
        if is_cut_due(self.engine.keeper(), every, seen) {
            self.cut(seen)
        } else {
            self.settle()
        }
    }

    /// Lets all epochs pass, and writes the output lines that were not written before. What the disk has stays.
    fn settle(&mut self) -> Result<(), Fault>
        requires whole { (E.keeping self.old.engine).broken ≡ false }
        ensures steps { (seen : Option ℕ) → Steps D.view L.answers W.marks W.HasRoom seen result (W.contents self.old.writer) (W.contents self.new.writer) (E.keeping self.old.engine) (E.keeping self.new.engine) [] }
        ensures stays { Stays L.answers (E.keeping self.old.engine) (E.keeping self.new.engine) }
        ensures settled { E.alone ≡ true → OnOk result (IsSettled (E.keeping self.new.engine) (E.hall self.new.engine)) }
    {
        release(self.rt, &mut self.engine)?;
        pass(self.rt, &mut self.engine)?;
        collect(self.rt, &mut self.engine)?;
        self.write_outs()
    }

    /// Writes the output lines of the epochs that were collected, and lets these go.
    fn write_outs(&mut self) -> Result<(), Fault>
        requires whole { (E.keeping self.old.engine).broken ≡ false }
        ensures disk { KeepsDisk D.view result (E.keeping self.old.engine).device (E.keeping self.new.engine).device }
        ensures fed { Feeds D.view L.answers W.marks result (W.contents self.old.writer) (W.contents self.new.writer) (E.keeping self.old.engine) (E.keeping self.new.engine) [] }
        ensures stays { Stays L.answers (E.keeping self.old.engine) (E.keeping self.new.engine) }
        ensures collected { (E.keeping self.new.engine).collected ≡ (E.keeping self.old.engine).collected }
        ensures none_left { OnOk result ((E.keeping self.new.engine).queue ≡ []) }
        ensures own { E.alone ≡ true → E.hall self.new.engine ≡ E.hall self.old.engine }
        ensures fault { IfErr result (IsOfWriter W.HasRoom) }
    {
        let marks = self.writer.is_marking();
        let mut text = String::new(self.alloc);
        while let Some(out) = next_out(&mut self.engine) {
            print_out(&mut text, &out, marks)?;
            write_piece(&mut self.writer, &mut text)?;
        }
        if text.is_empty() {
            return Ok(());
        }
        write_answer(&mut self.writer, text.as_str())
    }

    /// Settles, cuts, no further than what was seen where outputs are held, writes the cut to the disk, and writes `cut E`. The cells of the
    /// epochs up to it are free from then on. With no epochs since the last cut it writes that one again.
    fn cut(&mut self, seen: Option<u64>) -> Result<(), Fault>
        requires whole { (E.keeping self.old.engine).broken ≡ false }
        ensures steps { Steps D.view L.answers W.marks W.HasRoom seen result (W.contents self.old.writer) (W.contents self.new.writer) (E.keeping self.old.engine) (E.keeping self.new.engine) [] }
        ensures written { OnOk result ((E.keeping self.new.engine).waiting ≡ false) }
        ensures cut { E.alone ≡ true → OnOk result (HasCut seen (E.keeping self.new.engine)) }
    {
        self.settle()?;
        take_cut(self.rt, &mut self.engine, seen)?;
        let keeper = self.engine.keeper();
        self.freed = seen
            .unwrap_or(keeper.last_epoch())
            .saturating_sub(keeper.kept());
        self.write_cut()
    }

    /// Writes the cut that waits to the disk, and `cut E`.
    fn write_cut(&mut self) -> Result<(), Fault>
        requires whole { (E.keeping self.old.engine).broken ≡ false }
        requires waits { (E.keeping self.old.engine).waiting ≡ true }
        ensures steps { (seen : Option ℕ) → Steps D.view L.answers W.marks W.HasRoom seen result (W.contents self.old.writer) (W.contents self.new.writer)
            (E.keeping self.old.engine) (E.keeping self.new.engine) [] }
        ensures written { OnOk result (IsCheckpointed L.answers (E.keeping self.old.engine) (E.keeping self.new.engine)) }
    {
        known(&self.engine);
        let reply = Reply::of_write_cut(self.engine.write_cut());
        known(&self.engine);
        say(self.alloc, 0, reply, &mut self.writer)
    }

    /// Closes as many cells as the last cut freed, of those that come next, so that a submit finds its cell closed.
    fn close_freed(&mut self) -> Result<(), Fault>
        requires whole { (E.keeping self.old.engine).broken ≡ false }
        ensures writer { self.new.writer ≡ self.old.writer }
        ensures quiet { IsQuiet D.view L.answers result (E.keeping self.old.engine) (E.keeping self.new.engine) }
        ensures base { SameBase (E.keeping self.old.engine) (E.keeping self.new.engine) }
        ensures stands { OnOk result ((E.keeping self.new.engine).standing ≡ (E.keeping self.old.engine).standing) }
    {
        if self.freed == 0 {
            return Ok(());
        }
        known(&self.engine);
        let closed = self.engine.close_free(self.freed);
        known(&self.engine);
        self.freed = 0;
        answered(closed)
    }

    /// Writes `full E`, where outputs are held and the journal is full up to its epoch E: then nothing more was seen than the disk keeps.
    fn tell_full(&mut self, seen: Option<u64>) -> Result<(), Fault>
        requires whole { (E.keeping self.old.engine).broken ≡ false }
        ensures engine { self.new.engine ≡ self.old.engine }
        ensures steps { Steps D.view L.answers W.marks W.HasRoom seen result (W.contents self.old.writer) (W.contents self.new.writer) (E.keeping self.old.engine) (E.keeping self.old.engine) [] }
    {
        let keeper = self.engine.keeper();
        if seen.is_none() || !keeper.is_full() {
            return Ok(());
        }
        let last = keeper.last_epoch();
        say_full(self.alloc, last, &mut self.writer)
    }
}

/// What is known of each keeper at work, and what comes of a command that it is told, by its reply. It does nothing.
fn known<D: Disk, L: Law, R, E: Obey<D, L, R>>(engine: &E)
    ensures keeper { IsKnown D.view L.answers (E.keeping engine.now) }
    ensures comes { EachComes D.view L.answers }
    ensures resting { EachRests D.view L.answers }
{
    laws::advance_stands::<L>();
    laws::standings_advance::<L>();
    others_rest::<D, L>();
    each_is_told::<D, L>();
    each_at_work_is_kept(engine);
    each_disk_holds(engine.keeper());
}

/// What a keeper answered, as a feed answers it.
fn answered<T: Copy>(answer: Result<T, KeeperError>) -> Result<(), Fault>
    ensures { result ≡ faulted answer }
{
    match answer {
        Ok(_) => Ok(()),
        Err(error) => Err(Fault::from(error)),
    }
}

/// Releases the epochs that the hall lacks.
fn release<D: Disk, L: Law, R, E: Obey<D, L, R>>(rt: &R, engine: &mut E) -> Result<(), Fault>
    requires whole { (E.keeping engine.old).broken ≡ false }
    ensures quiet { IsQuiet D.view L.answers result (E.keeping engine.old) (E.keeping engine.new) }
    ensures stays { Stays L.answers (E.keeping engine.old) (E.keeping engine.new) }
    ensures own { E.alone ≡ true → OnOk result ((E.hall engine.new).batches ≡ since_base (E.keeping engine.new)) }
{
    known(&*engine);
    let released = engine.release(rt);
    known(&*engine);
    answered(released)
}

/// Lets all epochs pass that were released.
fn pass<D: Disk, L: Law, R, E: Obey<D, L, R>>(rt: &R, engine: &mut E) -> Result<(), Fault>
    requires whole { (E.keeping engine.old).broken ≡ false }
    ensures quiet { IsQuiet D.view L.answers result (E.keeping engine.old) (E.keeping engine.new) }
    ensures stays { Stays L.answers (E.keeping engine.old) (E.keeping engine.new) }
    ensures done { E.alone ≡ true → (E.hall engine.old).batches ≡ since_base (E.keeping engine.old) → OnOk result (IsDone (E.keeping engine.new) (E.hall engine.new)) }
{
    known(&*engine);
    let passed = engine.settle(rt);
    known(&*engine);
    answered(passed)
}

/// Collects the outputs of the epochs that have passed.
fn collect<D: Disk, L: Law, R, E: Obey<D, L, R>>(rt: &R, engine: &mut E) -> Result<(), Fault>
    requires whole { (E.keeping engine.old).broken ≡ false }
    ensures quiet { IsQuiet D.view L.answers result (E.keeping engine.old) (E.keeping engine.new) }
    ensures stays { Stays L.answers (E.keeping engine.old) (E.keeping engine.new) }
    ensures all { E.alone ≡ true → IsDone (E.keeping engine.old) (E.hall engine.old)
        → OnOk result (((E.keeping engine.new).collected ≡ last_epoch (E.keeping engine.new).standing) × IsDone (E.keeping engine.new) (E.hall engine.new)) }
{
    known(&*engine);
    let collected = engine.collect(rt);
    known(&*engine);
    answered(collected)
}

/// Cuts the hall, no further than what was seen where outputs are held.
fn take_cut<D: Disk, L: Law, R, E: Obey<D, L, R>>(
    rt: &R,
    engine: &mut E,
    seen: Option<u64>,
) -> Result<(), Fault>
    requires whole { (E.keeping engine.old).broken ≡ false }
    ensures quiet { IsQuiet D.view L.answers result (E.keeping engine.old) (E.keeping engine.new) }
    ensures rests { Carries L.answers (E.keeping engine.old) (E.keeping engine.new) [] }
    ensures held { KeepsTo seen (E.keeping engine.old) (E.keeping engine.new) }
    ensures waits { OnOk result ((E.keeping engine.new).waiting ≡ true) }
    ensures place { E.alone ≡ true → IsDone (E.keeping engine.old) (E.hall engine.old)
        → OnOk result ((E.keeping engine.new).base ≡ place_between (E.keeping engine.old).base (last_epoch (E.keeping engine.new).standing) seen) }
{
    known(&*engine);
    let cut = engine.cut(rt, seen);
    known(&*engine);
    answered(cut)
}

/// Writes the lines that are held, where they are long enough, and lets them go.
fn write_piece<W: Sink>(writer: &mut W, text: &mut String) -> Result<(), Fault>
    ensures ok { OnOk result ((Appends (W.contents writer.old) (W.contents writer.new) (string_bytes text.old) × (string_bytes text.new ≡ []))
        ⊎ ((writer.new ≡ writer.old) × (text.new ≡ text.old))) }
    ensures fault { IfErr result (IsOfWriter W.HasRoom) }
    ensures err { IfErr result (λ f. f ≡ Fault.Output) }
{
    if text.len() < PIECE {
        return Ok(());
    }
    write_answer(writer, text.as_str())?;
    text.clear();
    Ok(())
}

/// The outputs of the first epoch of those that were collected; None where there is none.
fn next_out<D: Disk, L: Law, R, E: Obey<D, L, R>>(engine: &mut E) -> Option<EpochOut>
    requires whole { (E.keeping engine.old).broken ≡ false }
    ensures device { (E.keeping engine.new).device ≡ (E.keeping engine.old).device }
    ensures stays { Stays L.answers (E.keeping engine.old) (E.keeping engine.new) }
    ensures collected { (E.keeping engine.new).collected ≡ (E.keeping engine.old).collected }
    ensures own { E.alone ≡ true → E.hall engine.new ≡ E.hall engine.old }
    ensures some { IfSome result (λ out. (E.keeping engine.old).queue ≡ out ∷ (E.keeping engine.new).queue) }
    ensures none { IfNone result ((E.keeping engine.new).queue ≡ []) }
    ensures driven { Driven D.view L.answers (NextOut ∷ []) (Out result ∷ []) (E.keeping engine.old) (E.keeping engine.new) }
{
    known(&*engine);
    let out = engine.next_out();
    known(&*engine);
    out
}

/// Tells a host the last epoch that was seen, where outputs are held.
fn tell_seen<H: Host>(host: &mut H, seen: Option<u64>)
    ensures seen { H.seen host.new ≡ told_seen (H.seen host.old) seen }
    ensures copies { H.copies host.new ≡ H.copies host.old }
{
    if let Some(epoch) = seen {
        host.tell_seen(epoch);
    }
}

/// The last epoch that was seen, with what is asked for, where outputs are held. Refusals, of a line that says what was seen:
/// `SeenBefore`, where a later epoch was seen; `NotOut`, where the outputs of all epochs up to it have not been written.
fn seen_with<D: Disk, L: Law>(
    seen: Option<u64>,
    asked: &Asked,
    keeper: &Keeper<D, L>,
) -> Result<Option<u64>, Fault>
    ensures ok { IfOk result (λ next. next ≡ seen_with seen asked.now) }
    ensures err { IfErr result (λ f. is_of_reader f ≡ true) }
    ensures fault { IfErr result (IsOfAsked asked.now) }
{
    let (Some(last), Asked::One(Order::Seen { line, epoch })) = (seen, asked) else {
        return Ok(seen);
    };
    if *epoch < last {
        return Err(Fault::Line(*line, LineFault::SeenBefore));
    }
    if keeper.collected() < *epoch {
        return Err(Fault::Line(*line, LineFault::NotOut));
    }
    Ok(Some(last.max(*epoch)))
}

/// How many epochs stand on the journal.
fn open_epochs<D: Disk, L: Law>(keeper: &Keeper<D, L>) -> u64
    ensures { result ≡ length keeper.now.standing.submitted }
{
    keeper.last_epoch().saturating_sub(keeper.kept())
}

/// Whether it is time for a cut: so many epochs stand on the journal, or it is full; and where outputs are held, more was seen than the
/// disk keeps.
fn is_cut_due<D: Disk, L: Law>(keeper: &Keeper<D, L>, every: Option<u32>, seen: Option<u64>) -> bool
    ensures { result ≡ false → IsInTime every seen keeper.now }
{
    match seen {
        Some(epoch) if epoch <= keeper.kept() => return false,
        Some(_) | None => {}
    }
    if keeper.is_full() {
        return true;
    }
    match every {
        Some(every) => u64::from(every) <= open_epochs(keeper),
        None => false,
    }
}

/// The room that a keeper has, for at most so many epochs: for 256, for 1 MiB of cells, for as many as find a free cell, and for as many as
/// there are numbers of epochs left.
fn room_of<D: Disk, L: Law>(keeper: &Keeper<D, L>, most: u64) -> Room
    ensures { result ≡ room_of keeper.now most }
{
    let records = u64::from(keeper.records());
    let numbers = (EPOCHS_END - 1).saturating_sub(keeper.last_epoch());
    Room {
        told: keeper.last_epoch(),
        last: keeper.last_request(),
        is_numbered: keeper.version() >= NUMBERED,
        epochs: most
            .min(EPOCHS)
            .min(BYTES / (CELL + RECORD * records))
            .min(keeper.free())
            .min(numbers),
        records: keeper.records() as usize,
    }
}
