//! `batch`, `run` and `sim` of `td_console` at the law of others and of closures in text.
ghost use Rattle.std.specs.Prelude.{◌≡◌, ◌≤◌, ◌<◌, length};
ghost use Rattle.td_calls.specs.Stored.{stored_in};
ghost use Rattle.td_console.specs.Answer.{WritesAnswer, LacksRoom, IsFaultAt, IsHallFaultAt};
ghost use Rattle.td_console.specs.Simulated.{WritesSimulated, LacksRoomSimulated};
ghost use Rattle.td_formula.specs.Stored.{stored_beside};
ghost use Rattle.td_written.specs.Promises.{Promises};

use std::alloc::Global;
use std::marker::Brand;
use td_calls::{Closures, Law};
use td_console as console;
use td_console::{Fault, Sink, Source};
use td_formula::{Beside, BesideCalls, Closure, Formulas, WrittenCalls};

/// Writes the answer text of what it reads, as `td_console::batch` does, by the law of `below` and of these closures beside it.
pub fn batch<R: Source, W: Sink, L: Law, C: Closures<L> + Drop>(
    alloc: Global,
    reader: &mut R,
    writer: &mut W,
    below: C,
    closures: Vec<Closure>,
) -> Result<(), Fault>
    ensures { Promises (WritesAnswer (stored_beside (stored_in L.answers (C.stored below)) closures.items))
        (LacksRoom (stored_beside (stored_in L.answers (C.stored below)) closures.items))
        (IsFaultAt (stored_beside (stored_in L.answers (C.stored below)) closures.items))
        R.remaining R.EndsWithin W.contents W.HasRoom reader.old reader.new writer.old writer.new result }
{
    batch_by::<Brand, R, W, L, C>(alloc, reader, writer, below, closures)
}

/// The same by a hall of so many shards, as `td_console::run` does.
pub fn run<R: Source, W: Sink, L: Law, C: Closures<L> + Drop>(
    alloc: Global,
    reader: &mut R,
    writer: &mut W,
    below: C,
    closures: Vec<Closure>,
    workers: u8,
) -> Result<(), Fault>
    requires some { 1 ≤ workers }
    requires most { workers ≤ 16 }
    ensures { Promises (WritesAnswer (stored_beside (stored_in L.answers (C.stored below)) closures.items))
        (LacksRoom (stored_beside (stored_in L.answers (C.stored below)) closures.items))
        (IsHallFaultAt (stored_beside (stored_in L.answers (C.stored below)) closures.items))
        R.remaining R.EndsWithin W.contents W.HasRoom reader.old reader.new writer.old writer.new result }
{
    run_by::<Brand, R, W, L, C>(alloc, reader, writer, below, closures, workers)
}

/// The same with the notes of a simulation before it, as `td_console::sim` does.
pub fn sim<R: Source, W: Sink, L: Law, C: Closures<L> + Drop>(
    alloc: Global,
    reader: &mut R,
    writer: &mut W,
    below: C,
    closures: Vec<Closure>,
    workers: u8,
    picks: &[u64],
) -> Result<(), Fault>
    requires some { 1 ≤ workers }
    requires most { workers ≤ 16 }
    requires picks { 0 < length picks.now }
    ensures { Promises (WritesSimulated (stored_beside (stored_in L.answers (C.stored below)) closures.items) workers)
        (LacksRoomSimulated (stored_beside (stored_in L.answers (C.stored below)) closures.items) workers)
        (IsHallFaultAt (stored_beside (stored_in L.answers (C.stored below)) closures.items))
        R.remaining R.EndsWithin W.contents W.HasRoom reader.old reader.new writer.old writer.new result }
{
    sim_by::<Brand, R, W, L, C>(alloc, reader, writer, below, closures, workers, picks)
}

/// `batch`, where a type parameter stands for the closures.
fn batch_by<F: Formulas, R: Source, W: Sink, L: Law, C: Closures<L> + Drop>(
    alloc: Global,
    reader: &mut R,
    writer: &mut W,
    below: C,
    closures: Vec<Closure>,
) -> Result<(), Fault>
    requires { closures.items ≡ F.closures }
    ensures { Promises (WritesAnswer (stored_beside (stored_in L.answers (C.stored below)) F.closures))
        (LacksRoom (stored_beside (stored_in L.answers (C.stored below)) F.closures))
        (IsFaultAt (stored_beside (stored_in L.answers (C.stored below)) F.closures))
        R.remaining R.EndsWithin W.contents W.HasRoom reader.old reader.new writer.old writer.new result }
{
    let above = WrittenCalls::<F>::new(closures);
    let calls = BesideCalls { below, above };
    console::batch::<R, W, Beside<L, F>, BesideCalls<C, F>>(alloc, reader, writer, &calls)
}

/// `run`, where a type parameter stands for the closures.
fn run_by<F: Formulas, R: Source, W: Sink, L: Law, C: Closures<L> + Drop>(
    alloc: Global,
    reader: &mut R,
    writer: &mut W,
    below: C,
    closures: Vec<Closure>,
    workers: u8,
) -> Result<(), Fault>
    requires stand { closures.items ≡ F.closures }
    requires some { 1 ≤ workers }
    requires most { workers ≤ 16 }
    ensures { Promises (WritesAnswer (stored_beside (stored_in L.answers (C.stored below)) F.closures))
        (LacksRoom (stored_beside (stored_in L.answers (C.stored below)) F.closures))
        (IsHallFaultAt (stored_beside (stored_in L.answers (C.stored below)) F.closures))
        R.remaining R.EndsWithin W.contents W.HasRoom reader.old reader.new writer.old writer.new result }
{
    let above = WrittenCalls::<F>::new(closures);
    let calls = BesideCalls { below, above };
    console::run::<R, W, Beside<L, F>, BesideCalls<C, F>>(alloc, reader, writer, &calls, workers)
}

/// `sim`, where a type parameter stands for the closures.
fn sim_by<F: Formulas, R: Source, W: Sink, L: Law, C: Closures<L> + Drop>(
    alloc: Global,
    reader: &mut R,
    writer: &mut W,
    below: C,
    closures: Vec<Closure>,
    workers: u8,
    picks: &[u64],
) -> Result<(), Fault>
    requires stand { closures.items ≡ F.closures }
    requires some { 1 ≤ workers }
    requires most { workers ≤ 16 }
    requires picks { 0 < length picks.now }
    ensures { Promises (WritesSimulated (stored_beside (stored_in L.answers (C.stored below)) F.closures) workers)
        (LacksRoomSimulated (stored_beside (stored_in L.answers (C.stored below)) F.closures) workers)
        (IsHallFaultAt (stored_beside (stored_in L.answers (C.stored below)) F.closures))
        R.remaining R.EndsWithin W.contents W.HasRoom reader.old reader.new writer.old writer.new result }
{
    let above = WrittenCalls::<F>::new(closures);
    let calls = BesideCalls { below, above };
    console::sim::<R, W, Beside<L, F>, BesideCalls<C, F>>(
        alloc, reader, writer, &calls, workers, picks,
    )
}
