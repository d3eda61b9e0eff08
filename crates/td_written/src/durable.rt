//! `feed` and `stream` of `td_feed` at the law of others and of closures in text.
ghost use Rattle.std.specs.Prelude.{◌≡◌, ◌≤◌, ◌==◌, [], ◌∷◌, IfSome};
ghost use Rattle.td_calls.specs.Stored.{stored_in};
ghost use Rattle.td_formula.specs.Stored.{stored_beside};
ghost use Rattle.td_written.specs.Durable.{FeedsBy, StreamsBy};

use std::alloc::Global;
use std::marker::Brand;
use std::sync::Wait;
use std::thread::Threads;
use td_calls::{Closures, Law};
use td_console::Source;
use td_disk::Disk;
use td_feed::{Fed, Host, NoHost, Session, StreamOptions, Voice};
use td_formula::{Beside, BesideCalls, Closure, Formulas, WrittenCalls};
use td_plan::Plan;
use td_watch::Writer;

/// Feeds a disk from what it reads, as `td_feed::Session::feed` does, by the law of `below` and of these closures beside it.
pub fn feed<
    D: Disk + Drop,
    I: Source,
    W: Voice + Drop,
    L: Law + Send + Sync,
    C: Closures<L> + Sync + Drop,
    R: Threads + Wait + Sync,
>(
    rt: &R,
    alloc: Global,
    disk: D,
    plan: &Plan,
    workers: u8,
    reader: &mut I,
    writer: W,
    below: C,
    closures: Vec<Closure>,
) -> Fed<D, W, NoHost>
    requires some { 1 ≤ workers }
    requires most { workers ≤ 16 }
    ensures { FeedsBy (stored_beside (stored_in L.answers (C.stored below)) closures.items) D.view I.remaining
        W.contents W.HasRoom W.marks plan.now disk result.disk reader.old reader.new writer result.writer result.ended }
{
    feed_by::<Brand, D, I, W, L, C, R>(
        rt, alloc, disk, plan, workers, reader, writer, below, closures,
    )
}

/// Does what `feed` does as the input comes, as `td_feed::Session::stream` does.
pub fn stream<
    D: Disk + Drop,
    I: Source + Drop,
    W: Voice + Drop,
    H: Host + Drop,
    L: Law + Send + Sync,
    C: Closures<L> + Sync + Drop,
    R: Threads + Wait + Sync,
>(
    rt: &R,
    alloc: Global,
    disk: D,
    plan: &Plan,
    workers: u8,
    options: StreamOptions,
    reader: I,
    writer: W,
    watch: Option<Writer>,
    host: H,
    below: C,
    closures: Vec<Closure>,
) -> Fed<D, W, H>
    requires some { 1 ≤ workers }
    requires most { workers ≤ 16 }
    requires unpublished { IfSome watch (λ w. w.words ≡ 0 ∷ 0 ∷ 0 ∷ []) }
    ensures { StreamsBy (stored_beside (stored_in L.answers (C.stored below)) closures.items) D.view I.remaining
        W.contents W.HasRoom W.marks H.New.view H.copies H.seen plan.now options (workers == 1) disk result.disk reader writer result.writer host result.host watch result.watch result.ended }
{
    stream_by::<Brand, D, I, W, H, L, C, R>(
        rt, alloc, disk, plan, workers, options, reader, writer, watch, host, below, closures,
    )
}

/// `feed`, where a type parameter stands for the closures.
fn feed_by<
    F: Formulas + Send + Sync,
    D: Disk + Drop,
    I: Source,
    W: Voice + Drop,
    L: Law + Send + Sync,
    C: Closures<L> + Sync + Drop,
    R: Threads + Wait + Sync,
>(
    rt: &R,
    alloc: Global,
    disk: D,
    plan: &Plan,
    workers: u8,
    reader: &mut I,
    writer: W,
    below: C,
    closures: Vec<Closure>,
) -> Fed<D, W, NoHost>
    requires stand { closures.items ≡ F.closures }
    requires some { 1 ≤ workers }
    requires most { workers ≤ 16 }
    ensures { FeedsBy (stored_beside (stored_in L.answers (C.stored below)) F.closures) D.view I.remaining
        W.contents W.HasRoom W.marks plan.now disk result.disk reader.old reader.new writer result.writer result.ended }
{
    let above = WrittenCalls::<F>::new(closures);
    let calls = BesideCalls { below, above };
    Session::<Beside<L, F>, BesideCalls<C, F>, R>::new(rt, alloc, plan, workers, &calls).feed(
        disk, reader, writer,
    )
}

/// `stream`, where a type parameter stands for the closures.
fn stream_by<
    F: Formulas + Send + Sync,
    D: Disk + Drop,
    I: Source + Drop,
    W: Voice + Drop,
    H: Host + Drop,
    L: Law + Send + Sync,
    C: Closures<L> + Sync + Drop,
    R: Threads + Wait + Sync,
>(
    rt: &R,
    alloc: Global,
    disk: D,
    plan: &Plan,
    workers: u8,
    options: StreamOptions,
    reader: I,
    writer: W,
    watch: Option<Writer>,
    host: H,
    below: C,
    closures: Vec<Closure>,
) -> Fed<D, W, H>
    requires stand { closures.items ≡ F.closures }
    requires some { 1 ≤ workers }
    requires most { workers ≤ 16 }
    requires unpublished { IfSome watch (λ w. w.words ≡ 0 ∷ 0 ∷ 0 ∷ []) }
    ensures { StreamsBy (stored_beside (stored_in L.answers (C.stored below)) F.closures) D.view I.remaining
        W.contents W.HasRoom W.marks H.New.view H.copies H.seen plan.now options (workers == 1) disk result.disk reader writer result.writer host result.host watch result.watch result.ended }
{
    let above = WrittenCalls::<F>::new(closures);
    let calls = BesideCalls { below, above };
    Session::<Beside<L, F>, BesideCalls<C, F>, R>::new(rt, alloc, plan, workers, &calls).stream(
        disk, options, reader, writer, watch, host,
    )
}
