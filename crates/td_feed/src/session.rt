//! Sessions: disks that are fed, one after another, for a plan by its closures.
//!
//! A feed has read its whole input before it begins, and a stream takes it line by line. The caller makes the watch of a stream and
//! follows it, so no clock is needed here. Its writer begins with zeros, which are above no keeper's words.
ghost use Rattle.std.specs.Prelude.{◌≡◌, ◌⊎◌, ◌≤◌, ◌==◌, [], ◌∷◌, Option, option_map, true, false, None, All, OnOk, IfOk, IfErr, IfSome, Ok, Err};
ghost use Rattle.td_plan.specs.Blocks.{vertices};
ghost use Rattle.td_calls.specs.Fits.{first_lack};
ghost use Rattle.td_watch.specs.View.{View};
ghost use Rattle.td_console.specs.Answer.{lack_fault};
ghost use Rattle.td_keeper.specs.Calls.{HoldsStanding};
ghost use Rattle.td_keeper.specs.Keeping.{IsSameWatch, HasPublished, words_of};
ghost use Rattle.td_orders.specs.Lines.{has_overlong};
ghost use Rattle.td_orders.specs.Orders.{orders_of, submitted_by, IsAccepted};
ghost use Rattle.td_orders.specs.Scripts.{is_of_lines};
ghost use Rattle.td_feed.specs.Carried.{new_to};
ghost use Rattle.td_feed.specs.Caused.{RefusesFor, IsRefusedFor};
ghost use Rattle.td_feed.specs.Said.{epochs_alone};
ghost use Rattle.td_feed.specs.Served.{Serves};
ghost use Rattle.td_feed.specs.Session.{lack_of, limit_of, pace_of, asked_at, KeepsDisk, Feeds, FeedsDisk, StreamsCopying, TellsAround};

use crate::feeder::{Fed, Feeder, Served};
use crate::host::{Host, NoHost};
use crate::reply_lines::Voice;
use crate::under_way::Pace;
use std::alloc::Global;
use std::collections::VecDeque;
use std::marker::PhantomData;
use std::sync::Wait;
use std::thread::Threads;
use td_calls::{Closures, Law};
use td_console::{Fault, Source, lack_fault, read_all};
use td_disk::Disk;
use td_keeper::Keeper;
use td_keeper::laws::{
    driven_advances, driven_keeps_to_its_base, driven_publishes, each_disk_holds, each_is_kept,
    each_keeps_to_its_base,
};
use td_orders::{Listed, Order, Streamed, read_orders};
use td_plan::Plan;
use td_store::standing::laws;
use td_watch::Writer;

/// How a stream goes about its input.
#[derive(Clone, Copy, Debug, PartialEq, Eq)]
pub struct StreamOptions {
    /// A cut is taken where so many epochs stand after the last one, if that is given.
    pub cut_every: Option<u32>,
    /// The stream ends with `NotPassed` of the first epoch that has not passed, once the epochs that were released together have taken more
    /// than so many tasks each, if that is given. A task has up to 64 records of one edge and time, or is a notification. What stands on
    /// the disk stays there.
    pub most: Option<u64>,
    /// Whether an epoch with a faulty line, with more records than a cell of the disk holds, or after a gap, is refused, and the stream goes
    /// on. It is not put on the disk: at its `.` a line `no Q L: WHAT: TEXT` is written, with its request number Q, or `-`, the number L of
    /// the line and its beginning.
    pub refuse: bool,
    /// Whether epochs may have places: a line `at E` before an epoch's records says that it is the epoch E. It is put on the disk where the
    /// last epoch there is E - 1. Else it is not: where the disk has E already, a line `there E` is written at its `.`. Where the disk lacks
    /// an epoch before E, the stream ends with `Gap` of the line `at E`; or it writes `gap E` and goes on, where epochs are refused.
    pub placing: bool,
    /// Whether outputs are held: a line `seen E` between two epochs says that the outputs of all epochs up to E were stored. No cut is taken
    /// beyond the last epoch that was seen, at first the one that the disk keeps; so a later stream of the disk writes again the outputs of
    /// each epoch that was not seen. Where the journal is full and nothing more was seen, `full E` is written, with its last epoch E.
    pub hold: bool,
    /// Whether questions are answered: a line between two epochs may ask for what a fold keeps (`td_questions`). It is answered at once, of
    /// the states after the last epoch on the disk, which has passed: `state E V KEY A B` of each state that answers, or `none E V KEY`,
    /// and `asked E` at the end.
    pub questions: bool,
    /// Whether copies are made: a line `copy NEW M N K` between two epochs asks for one. What the disk tells is put on a new disk of that
    /// shape, which the host makes and keeps, and `copied NEW E` is written, with the last epoch E. Where it has no room for that, or the
    /// host or the new disk refuses, `not copied NEW: WHAT` is written, and the stream goes on.
    pub copies: bool,
}

/// Threads, memory, a plan, 1 to 16 workers, and closures: what is the same for each disk.
#[derive(Drop)]
pub struct Session<'a, L: Law, C: Closures<L>, R> {
    pub rt: &'a R,
    pub alloc: Global,
    pub plan: &'a Plan,
    pub workers: u8,
    pub calls: &'a C,
    pub law: PhantomData<L>,
    ghost few: { (1 ≤ workers) × (workers ≤ 16) },
}

impl<'a, L: Law + Send + Sync, C: Closures<L> + Sync, R: Threads + Wait + Sync> Session<
    'a,
    L,
    C,
    R,
> {
    /// A session of 1 to 16 workers, each in a thread of its own.
    pub fn new(
        rt: &'a R,
        alloc: Global,
        plan: &'a Plan,
        workers: u8,
        calls: &'a C,
    ) -> Session<'a, L, C, R>
        requires some { 1 ≤ workers }
        requires most { workers ≤ 16 }
        ensures plan { result.plan.now ≡ plan.now }
        ensures workers { result.workers ≡ workers }
        ensures calls { result.calls.now ≡ calls.now }
    {
        Session {
            rt,
            alloc,
            plan,
            workers,
            calls,
            law: PhantomData,
        }
    }

    /// Recovers a disk, and does what the input asks for, line by line: each epoch is put on the disk, `ack E` is written, and it
    /// is released into a hall of so many shards, each with a worker in a thread of its own. An epoch whose request number is not
    /// above all on the disk is passed over, and `again Q` is written for it. A line `cut`, and the end of the input,
    /// settle and write the output lines of the epochs after the disk's checkpoint that were not written before; a `cut` then cuts,
    /// writes the cut to the disk, and prints `cut E`. What was written before a refusal stays written, and nothing more is written
    /// after it. The workers have ended when the disk comes back.
    ///
    /// Refusals: a missing closure, before anything else; what the disk refuses as it is recovered; with the whole input read, its
    /// first fault; and then what the keeper or the writer refuse, line by line. Where a worker refused, the others stop, and what it
    /// refused is answered in place of epochs that then do not pass. `Memory` also where a thread could not be made.
    pub fn feed<D: Disk + Drop, I: Source, W: Voice + Drop>(
        &self,
        disk: D,
        reader: &mut I,
        writer: W,
    ) -> Fed<D, W, NoHost>
        ensures disk { KeepsDisk D.view result.ended disk result.disk }

        // A missing closure comes first: nothing was read or written.
        ensures lack { IfSome (lack_of (C.stored self.now.calls.now) self.now.plan.now) (λ lack.
            (result.ended ≡ Err (lack_fault lack)) × (result.disk ≡ disk) × (reader.new ≡ reader.old) × (result.writer ≡ writer)) }
        ensures fits { OnOk result.ended (lack_of (C.stored self.now.calls.now) self.now.plan.now ≡ None) }

        // A line's fault is the input's first, with nothing written; a writer with room does not fail. After Ok the disk has what it had and each
        // epoch of the input that is new to it, at a refusal a beginning of them; and so at each moment, whatever a crash leaves.
        ensures fault { IfSome (I.remaining reader.old) (λ input. RefusesFor W.HasRoom self.now.plan.now input result.ended writer result.writer) }
        ensures fed { lack_of (C.stored self.now.calls.now) self.now.plan.now ≡ None → IfSome (I.remaining reader.old) (λ input.
            FeedsDisk D.view L.answers W.marks result.ended self.now.plan.now false disk result.disk (W.contents writer) (W.contents result.writer) (epochs_alone (submitted_by (orders_of self.now.plan.now input)))) }
    {
        laws::told_in_parts();
        laws::advance_stands::<L>();
        driven_advances::<D, L>();
        let host = NoHost::new();
        if let Err(lack) = self.calls.fits(self.plan) {
            return Fed {
                disk,
                writer,
                host,
                watch: None,
                ended: Err(lack_fault(lack)),
            };
        }
        let keeper = match Keeper::<D, L>::recover(self.alloc, disk, self.plan) {
            Ok(keeper) => keeper,
            Err((refusal, disk)) => {
                return Fed {
                    disk,
                    writer,
                    host,
                    watch: None,
                    ended: Err(Fault::from(refusal)),
                };
            }
        };
        each_is_kept(&keeper);
        let served = self.serve_input(keeper, reader, writer, host);
        Fed {
            disk: served.keeper.into_disk(),
            writer: served.writer,
            host: served.host,
            watch: None,
            ended: served.ended,
        }
    }

    /// Does what `feed` does, order by order as the input comes. The output lines of the epochs that the disk tells are written first.
    /// When an epoch is closed it is put on the disk, and with it, as one group, those behind it that the input has given already: all or
    /// none of a group is there after any stop. `ack E` of each is written, or `again Q`, and once they have passed their output lines
    /// are written, all before more of the input is waited for. A cut is taken and written at a line `cut`; where `cut_every` epochs
    /// stand after the last one, if that is given; and where the journal is full, so that one more epoch finds room wherever the cut's
    /// states do. A group ends at a cut, at 256 epochs, at 1 MiB of cells, and before an epoch that is refused or repeated. Of the input no
    /// more is in memory than a piece of 64 KiB, a line, the epoch that it is in, and those that were read ahead of a piece: a line has at
    /// most 4,096 bytes, and an epoch is refused once it has more records than a cell of the disk holds. How far it has
    /// come is published by the writer of a watch, where one is given: first once the disk is recovered, and then as `Keeper::attach` says.
    /// The host is told each epoch of a line `seen E`. What else a line may ask for stands at `StreamOptions`. To refuse an epoch that takes
    /// too many tasks before it is on the disk, its `ack` would wait for its tasks: so a stream ends at `most` after the put.
    ///
    /// Refusals: a missing closure, before anything else; what the disk refuses as it is recovered; and then the first of what a line,
    /// the reader, the keeper, a worker or the writer refuse, after all that was asked for before it; but want of memory, where epochs are
    /// read ahead, may come before these are put on the disk. What was written stays written. `Memory` also where a thread could not be
    /// made.
    pub fn stream<D: Disk + Drop, I: Source + Drop, W: Voice + Drop, H: Host + Drop>(
        &self,
        disk: D,
        options: StreamOptions,
        reader: I,
        writer: W,
        watch: Option<Writer>,
        host: H,
    ) -> Fed<D, W, H>
        requires unpublished { IfSome watch (λ w. w.words ≡ 0 ∷ 0 ∷ 0 ∷ []) }
        ensures disk { KeepsDisk D.view result.ended disk result.disk }

        // A missing closure comes first: nothing was written.
        ensures lack { IfSome (lack_of (C.stored self.now.calls.now) self.now.plan.now) (λ lack. (result.ended ≡ Err (lack_fault lack)) × (result.disk ≡ disk) × (result.writer ≡ writer) × (result.host ≡ host) × (result.watch ≡ watch)) }

        // A line's fault is the input's, and a writer with room does not fail.
        ensures fault { IfSome (I.remaining reader) (λ input. IsRefusedFor D.view L.answers W.HasRoom options result.ended self.now.plan.now disk input) }

        // After Ok the disk has what it had and each epoch of the input that is new to it, at a refusal a beginning of them; and so at each moment, whatever
        // a crash leaves. By one worker all outputs went out. The host is told what was seen, and the watch how far the disk has come.
        ensures fed { lack_of (C.stored self.now.calls.now) self.now.plan.now ≡ None → IfSome (I.remaining reader) (λ input. StreamsCopying D.view L.answers W.marks H.New.view options result.ended self.now.plan.now (self.now.workers == 1) disk result.disk (W.contents writer) (W.contents result.writer) (H.copies host) (H.copies result.host) input) }
        ensures told { lack_of (C.stored self.now.calls.now) self.now.plan.now ≡ None → IfSome (I.remaining reader) (λ input. TellsAround D.view options result.ended self.now.plan.now disk result.disk (H.seen host) (H.seen result.host) watch result.watch input) }
    {
        laws::told_in_parts();
        laws::advance_stands::<L>();
        driven_advances::<D, L>();
        driven_keeps_to_its_base::<D, L>();
        driven_publishes::<D, L>();
        if let Err(lack) = self.calls.fits(self.plan) {
            return Fed {
                disk,
                writer,
                host,
                watch,
                ended: Err(lack_fault(lack)),
            };
        }
        let keeper = match Keeper::<D, L>::recover(self.alloc, disk, self.plan) {
            Ok(keeper) => keeper,
            Err((refusal, disk)) => {
                return Fed {
                    disk,
                    writer,
                    host,
                    watch,
                    ended: Err(Fault::from(refusal)),
                };
            }
        };
        let keeper = watched(keeper, watch);
        each_is_kept(&keeper);
        let served = self.serve_lines(keeper, options, reader, writer, host);
        each_keeps_to_its_base(&served.keeper);
        let (disk, watch) = disk_and_watch(served.keeper);
        Fed {
            disk,
            writer: served.writer,
            host: served.host,
            watch,
            ended: served.ended,
        }
    }

    /// Does what an input asks for, by a keeper of the plan, which comes back. Refusals: those of the reader, with nothing written; the
    /// input's first fault, with nothing written; and those of the hall, of the keeper, of the workers and of the writer.
    fn serve_input<D: Disk + Drop, I: Source, W: Voice + Drop>(
        &self,
        keeper: Keeper<D, L>,
        reader: &mut I,
        writer: W,
        host: NoHost,
    ) -> Served<D, L, W, NoHost>
        requires whole { keeper.broken ≡ false }
        ensures disk { KeepsDisk D.view result.ended keeper.device result.keeper.device }
        ensures fault { IfSome (I.remaining reader.old) (λ input. RefusesFor W.HasRoom self.now.plan.now input result.ended writer result.writer) }
        ensures fed { IfSome (I.remaining reader.old) (λ input. Feeds D.view L.answers W.marks result.ended (W.contents writer) (W.contents result.writer) keeper result.keeper (new_to keeper (submitted_by (orders_of self.now.plan.now input)))) }
    {
        match orders_in(self.alloc, self.plan, reader) {
            Ok(orders) => {
                let feeder = Feeder {
                    keeper,
                    pace: Pace::AtEnd,
                    tasks: u64::MAX,
                    orders: Listed(VecDeque::from(orders)),
                    writer,
                    host,
                };
                feeder.serve_by_workers(self.rt, self.alloc, self.plan, self.workers, self.calls)
            }
            Err(fault) => Served {
                keeper,
                writer,
                host,
                ended: Err(fault),
            },
        }
    }

    /// Does what an input asks for as it comes, by a keeper of the plan, which comes back. Refusals: those of the hall, of the reader and of
    /// its lines, of the keeper, of the workers and of the writer.
    fn serve_lines<D: Disk + Drop, I: Source + Drop, W: Voice + Drop, H: Host + Drop>(
        &self,
        keeper: Keeper<D, L>,
        options: StreamOptions,
        reader: I,
        writer: W,
        host: H,
    ) -> Served<D, L, W, H>
        requires whole { keeper.broken ≡ false }
        requires fits { first_lack (C.stored self.now.calls.now) (vertices keeper.plan) ≡ None }
        requires collected { keeper.collected ≡ keeper.base }
        ensures { Serves D.view L.answers W.marks W.contents W.HasRoom H.New.view H.copies H.seen (self.now.workers == 1) (pace_of options) (has_overlong (I.remaining reader))
            (option_map (asked_at options self.now.plan.now keeper) (I.remaining reader)) result.ended keeper result.keeper writer result.writer host result.host }
    {
        let pace = Pace::Live {
            every: options.cut_every,
            hold: options.hold,
        };
        let limit = limit_of(options.refuse, &keeper);
        let orders = Streamed::new(
            self.alloc,
            self.plan,
            options.placing,
            options.hold,
            options.questions,
            options.copies,
            limit,
            reader,
        );
        let feeder = Feeder {
            keeper,
            pace,
            tasks: options.most.unwrap_or(u64::MAX),
            orders,
            writer,
            host,
        };
        if self.workers == 1 {
            feeder.serve_alone(self.rt, self.alloc, self.calls)
        } else {
            feeder.serve_by_workers(self.rt, self.alloc, self.plan, self.workers, self.calls)
        }
    }
}

/// What an input asks for. Refusals: those of the reader; and the input's first fault.
fn orders_in<I: Source>(alloc: Global, plan: &Plan, reader: &mut I) -> Result<Vec<Order>, Fault>
    ensures orders { IfOk result (λ orders. IfSome (I.remaining reader.old) (λ input. orders_of plan.now input ≡ Ok orders.items)) }
    ensures plain { IfOk result (λ orders. All (IsAccepted plan.now) orders.items) }
    ensures fault { IfErr result (λ f. IfSome (I.remaining reader.old) (λ input. (f ≡ Fault.Input) ⊎ ((f ≡ Fault.Memory) ⊎ (orders_of plan.now input ≡ Err f)))) }
    ensures of_lines { IfErr result (λ f. is_of_lines f ≡ true) }
{
    let input = read_all(alloc, reader)?;
    read_orders(alloc, plan, &input)
}

/// The disk of a keeper, and the writer that is attached to it.
fn disk_and_watch<D: Disk, L: Law>(keeper: Keeper<D, L>) -> (D, Option<Writer>)
    ensures disk { result.0 ≡ keeper.device }
    ensures held { HoldsStanding D.view L.answers keeper }
    ensures watch { result.1 ≡ keeper.watch }
{
    let mut keeper = keeper;
    each_disk_holds(&keeper);
    let watch = keeper.detach();
    (keeper.into_disk(), watch)
}

/// A keeper with the writer of a watch attached, where there is one, by which it has published how far it has come.
fn watched<D: Disk, L: Law>(keeper: Keeper<D, L>, watch: Option<Writer>) -> Keeper<D, L>
    requires unpublished { IfSome watch (λ w. w.words ≡ 0 ∷ 0 ∷ 0 ∷ []) }
    requires unwatched { keeper.watch ≡ None }
    ensures watch { IsSameWatch watch result.watch }
    ensures published { HasPublished result.watch (words_of result) }
    ensures device { result.device ≡ keeper.device }
    ensures whole { result.broken ≡ keeper.broken }
    ensures aside { (view : Option View) × (result ≡ record keeper { watch = view }) }
{
    let Some(mut writer) = watch else {
        return keeper;
    };
    let mut keeper = keeper;
    each_is_kept(&keeper);
    writer.publish([keeper.last_epoch(), keeper.collected(), keeper.kept()]);
    keeper.attach(writer);
    keeper
}

/// How many records an epoch may have, where epochs are refused.
fn limit_of<D: Disk, L: Law>(refuse: bool, keeper: &Keeper<D, L>) -> Option<usize>
    ensures { result ≡ limit_of refuse keeper.now.head.shape.m }
{
    if refuse {
        Some(keeper.records() as usize)
    } else {
        None
    }
}
