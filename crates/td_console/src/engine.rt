//! Reads all, computes, writes all.
ghost use Rattle.std.specs.Prelude.{◌≡◌, ◌≢◌, [], ◌⊎◌, ℕ, IfOk, IfErr, OnOk, IfSome, length, ◌≤◌, ◌<◌, ◌^◌, None, IsTrue, All};
ghost use Rattle.std.specs.List.{list_all};
ghost use Rattle.td_plan.specs.Blocks.{vertices};
ghost use Rattle.td_plan.specs.Inputs.{is_input_of};
ghost use Rattle.td_calls.specs.Fits.{first_lack};
ghost use Rattle.td_calls.specs.Stored.{stored_in};
ghost use Rattle.td_console.specs.Answer.{Asks, IsAnswer, WritesAnswer, LacksRoom, IsFaultAt, IsHallFaultAt};
ghost use Rattle.td_console.specs.Simulated.{WritesSimulated, LacksRoomSimulated};
ghost use Rattle.td_console.specs.CodeSteps.{IsOfReading};

use crate::answer::{run_text, write_answer};
use crate::faults::Fault;
use crate::hall::hall_text;
use crate::question::{Question, asked_by};
use crate::streams::{Sink, Source};
use crate::turns::sim_text;
use std::alloc::Global;
use std::io::ErrorKind;
use td_calls::{Closures, Law};

/// How often it reads at most, and how many bytes at a time.
const READS: u64 = 4_294_967_296;

const PIECE: usize = 4096;

/// Writes the answer text of what it reads: an input as `td batch` takes it. Faults, where nothing was written: the
/// first fault of the input; `Memory`; `Input` where a read failed, or the end did not come within 2^32 reads of at
/// most 4,096 bytes. A read that is interrupted counts as one and is tried again. Where the writer failed, `Output`, and
/// some may have been written.
pub fn batch<R: Source, W: Sink, L: Law, C: Closures<L>>(
    alloc: Global,
    reader: &mut R,
    writer: &mut W,
    calls: &C,
) -> Result<(), Fault>
    ensures ok { OnOk result (IfSome (R.remaining reader.old)
        (WritesAnswer (stored_in L.answers (C.stored calls.now)) (W.contents writer.old) (W.contents writer.new))) }
    ensures fault { IfErr result
        (IsFaultAt (stored_in L.answers (C.stored calls.now)) (R.remaining reader.old)) }
    // It has read all.
    ensures end { OnOk result (IfSome (R.remaining reader.new) (λ rest. rest ≡ [])) }
    // Where the end comes within the bound, and no read fails but for an interruption, the fault is none of the reader's.
    ensures input { R.EndsWithin reader.old (2 ^ 32) → IfErr result (λ f. f ≢ Fault.Input) }
    // Where the writer fails, there was an answer, and it had no room for it.
    ensures output { IfErr result (λ f. f ≡ Fault.Output → IfSome (R.remaining reader.old)
        (LacksRoom (stored_in L.answers (C.stored calls.now)) (W.HasRoom writer.old))) }
    // A writer that has room for any text does not fail.
    ensures room { ((n : ℕ) → W.HasRoom writer.old n) → IfErr result (λ f. f ≢ Fault.Output) }
    ensures nothing { IfErr result (λ f. (f ≡ Fault.Output) ⊎ (writer.new ≡ writer.old)) }
{
    let Question { plan, batches } = read_question::<R, L, C>(alloc, reader, calls)?;
    let text = run_text::<L, C>(alloc, &plan, calls, batches)?;
    write_answer(writer, text.as_str())
}

/// Writes the answer text of what it reads, as `batch` does, by a hall of so many shards, which is drained on one thread.
/// Faults as of `batch`; and `Spent`, where nothing was written: the hall used all numbers of tasks.
pub fn run<R: Source, W: Sink, L: Law, C: Closures<L>>(
    alloc: Global,
    reader: &mut R,
    writer: &mut W,
    calls: &C,
    workers: u8,
) -> Result<(), Fault>
    requires some { 1 ≤ workers }
    requires most { workers ≤ 16 }
    ensures ok { OnOk result (IfSome (R.remaining reader.old)
        (WritesAnswer (stored_in L.answers (C.stored calls.now)) (W.contents writer.old) (W.contents writer.new))) }
    ensures fault { IfErr result
        (IsHallFaultAt (stored_in L.answers (C.stored calls.now)) (R.remaining reader.old)) }
    ensures end { OnOk result (IfSome (R.remaining reader.new) (λ rest. rest ≡ [])) }
    ensures input { R.EndsWithin reader.old (2 ^ 32) → IfErr result (λ f. f ≢ Fault.Input) }
    ensures output { IfErr result (λ f. f ≡ Fault.Output → IfSome (R.remaining reader.old)
        (LacksRoom (stored_in L.answers (C.stored calls.now)) (W.HasRoom writer.old))) }
    ensures room { ((n : ℕ) → W.HasRoom writer.old n) → IfErr result (λ f. f ≢ Fault.Output) }
    ensures nothing { IfErr result (λ f. (f ≡ Fault.Output) ⊎ (writer.new ≡ writer.old)) }
{
    let Question { plan, batches } = read_question::<R, L, C>(alloc, reader, calls)?;
    let text = hall_text::<L, C>(alloc, &plan, calls, batches, workers)?;
    write_answer(writer, text.as_str())
}

/// Writes the notes of a simulation and then the answer text of what it reads, as `run` does: all epochs are released into a
/// hall of so many shards; turn i, from 0, takes from shard `i mod workers` with pick `picks[i mod length]`, and what it takes
/// is run and given; it ends when as many turns in a row as there are shards had no task. Faults as of `run`.
pub fn sim<R: Source, W: Sink, L: Law, C: Closures<L>>(
    alloc: Global,
    reader: &mut R,
    writer: &mut W,
    calls: &C,
    workers: u8,
    picks: &[u64],
) -> Result<(), Fault>
    requires some { 1 ≤ workers }
    requires most { workers ≤ 16 }
    requires picks { 0 < length picks.now }
    ensures ok { OnOk result (IfSome (R.remaining reader.old)
        (WritesSimulated (stored_in L.answers (C.stored calls.now)) workers (W.contents writer.old) (W.contents writer.new))) }
    ensures fault { IfErr result
        (IsHallFaultAt (stored_in L.answers (C.stored calls.now)) (R.remaining reader.old)) }
    ensures end { OnOk result (IfSome (R.remaining reader.new) (λ rest. rest ≡ [])) }
    ensures input { R.EndsWithin reader.old (2 ^ 32) → IfErr result (λ f. f ≢ Fault.Input) }
    ensures output { IfErr result (λ f. f ≡ Fault.Output → IfSome (R.remaining reader.old)
        (LacksRoomSimulated (stored_in L.answers (C.stored calls.now)) workers (W.HasRoom writer.old))) }
    ensures room { ((n : ℕ) → W.HasRoom writer.old n) → IfErr result (λ f. f ≢ Fault.Output) }
    ensures nothing { IfErr result (λ f. (f ≡ Fault.Output) ⊎ (writer.new ≡ writer.old)) }
{
    let Question { plan, batches } = read_question::<R, L, C>(alloc, reader, calls)?;
    let text = sim_text::<L, C>(alloc, &plan, calls, batches, workers, picks)?;
    write_answer(writer, text.as_str())
}

/// Reads all of an input, and what it asks. It stands apart, since it knows nothing of how it is answered.
fn read_question<R: Source, L: Law, C: Closures<L>>(
    alloc: Global,
    reader: &mut R,
    calls: &C,
) -> Result<Question, Fault>
    ensures asks { IfOk result (λ asked. IfSome (R.remaining reader.old) (λ input.
        Asks (stored_in L.answers (C.stored calls.now)) input asked.plan asked.batches.items)) }
    ensures fits { IfOk result (λ asked. first_lack (C.stored calls.now) (vertices asked.plan) ≡ None) }
    ensures accepted { IfOk result (λ asked. All (λ batch. IsTrue (list_all (λ e. is_input_of asked.plan e.input) batch)) asked.batches.items) }
    ensures few { IfOk result (λ asked. length asked.batches.items < 2 ^ 63) }
    ensures end { OnOk result (IfSome (R.remaining reader.new) (λ rest. rest ≡ [])) }
    ensures fault { IfErr result (λ f. (f ≡ Fault.Input) ⊎ ((f ≡ Fault.Memory) ⊎ IfSome (R.remaining reader.old) (λ input.
        IsAnswer (stored_in L.answers (C.stored calls.now)) input (Err f)))) }
    ensures own { IfErr result IsOfReading }
    ensures input { R.EndsWithin reader.old (2 ^ 32) → IfErr result (λ f. f ≢ Fault.Input) }
{
    let input = read_all(alloc, reader)?;
    asked_by::<L, C>(alloc, &input, calls)
}

/// All that a reader gives. It stands apart, since it knows nothing of plans.
pub fn read_all<R: Source>(alloc: Global, reader: &mut R) -> Result<Vec<u8>, Fault>
    ensures ok { IfOk result (λ bytes. IfSome (R.remaining reader.old) (λ input. bytes.items ≡ input)) }
    ensures end { OnOk result (IfSome (R.remaining reader.new) (λ rest. rest ≡ [])) }
    ensures few { IfOk result (λ bytes. length bytes.items ≤ 2 ^ 44) }
    ensures err { IfErr result (λ f. (f ≡ Fault.Input) ⊎ (f ≡ Fault.Memory)) }
    ensures steady { R.EndsWithin reader.old (2 ^ 32) → IfErr result (λ f. f ≡ Fault.Memory) }
{
    let mut bytes = Vec::new(alloc);
    let mut piece = [0u8; PIECE];
    for read in 0..READS {
        match reader.read_piece(&mut piece) {
            Ok(0) => return Ok(bytes),
            Ok(n) => {
                if bytes.extend_from_slice(&piece[..n]).is_err() {
                    return Err(Fault::Memory);
                }
            }
            Err(e) => {
                if e.kind() != ErrorKind::Interrupted {
                    return Err(Fault::Input);
                }
            }
        }
    }
    Err(Fault::Input)
}
