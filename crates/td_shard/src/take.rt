//! How a task is read off the runs of a mailbox, and how it is taken out.
ghost use Rattle.std.specs.Prelude.{◌≡◌, ◌+◌, ◌-◌, ◌^◌, ◌<◌, ◌≤◌, ◌++◌, [], ℕ, cond, true, false, ◌==◌, ◌&&◌};
ghost use Rattle.std.specs.Prelude.{IsTrue, Some, None, length, map, take, drop, vec_len};
ghost use Rattle.std.specs.Prelude.{vec_capacity, IsSome};
ghost use Rattle.std.specs.List.{AllByRecursion, HoldsAt};
ghost use Rattle.std.specs.Option.{option_map};
ghost use Rattle.std.specs.HashMap.{get, spare};
ghost use Rattle.td_shard.specs.Messages.{task_at, left_at};
ghost use Rattle.td_machine.specs.Steps.{coming};
ghost use Rattle.td_shard.specs.Order.{at_number, few};
ghost use Rattle.td_shard.specs.Runs.{lane_eq, first_on, last_on, AreLinked, FrontWaits, all_of, messages_of, its, rank, rec_of};
ghost use Rattle.td_shard.specs.Runs.{AreNumbered, AreGrouped, AreOlder, AscendIn};
ghost use Rattle.td_shard.specs.Runs.{changed_at, without_front, without_at, taken_on, lane_recs};
ghost use Rattle.td_shard.specs.declared.runs.Lane.{Lane as AnyLane};

use crate::runs::{Lane, Runs};
use std::collections::HashMap;
use td_machine::TASK_SIZE;
use td_stamp::Rec;

/// The place of the run whose message is at `pick` among those that wait, and how many records of the run are before it. `next` is
/// above all numbers. With pick 0 only runs that were posted together with the first are looked at, and only where records of that
/// were taken before. For another pick all runs are looked at, once more for each bit of how many records were posted with it.
pub(crate) fn place_of(runs: &Runs, next: usize, pick: usize) -> (usize, usize)
    requires pick { pick < length (messages_of runs.now.parts) }
    requires numbered { AreNumbered next runs.now.parts }
    requires front { FrontWaits runs.now.parts }
    requires counted { length (messages_of runs.now.parts) < 2 ^ 64 }
    ensures within { result.0 < length runs.now.parts }
    ensures waits { HoldsAt (λ p. result.1 < length p.recs) runs.now.parts result.0 }
    ensures before { HoldsAt (λ p. HoldsAt (λ r. rank runs.now.parts result.0 r.number ≡ pick) p.recs result.1) runs.now.parts result.0 }
    ensures fits { result.1 + 1 < 2 ^ 64 }
{
    if pick == 0 {
        (first_of(runs), 0)
    } else {
        let number = number_at(runs, next, pick);
        let index = pick - count_below(runs, number);
        place_at(runs, number, index)
    }
}

/// The place of the run that has the first message: the first run, where none of its records was taken before.
fn first_of(runs: &Runs) -> usize
    requires some { 0 < length runs.now.parts }
    requires front { FrontWaits runs.now.parts }
    requires grouped { AreGrouped runs.now.parts }
    requires ascending { AllByRecursion AscendIn runs.now.parts }
    ensures within { result < length runs.now.parts }
    ensures waits { HoldsAt (λ p. 0 < length p.recs) runs.now.parts result }
    ensures first { HoldsAt (λ p. HoldsAt (λ r. rank runs.now.parts result r.number ≡ 0) p.recs 0) runs.now.parts result }
{
    if runs.number(0, 0) == runs.base(0) {
        0
    } else {
        first_among(runs)
    }
}

/// The place of the run that has the first message. It is one of those that were posted together with the first run.
fn first_among(runs: &Runs) -> usize
    requires some { 0 < length runs.now.parts }
    requires front { FrontWaits runs.now.parts }
    requires grouped { AreGrouped runs.now.parts }
    requires ascending { AllByRecursion AscendIn runs.now.parts }
    ensures within { result < length runs.now.parts }
    ensures waits { HoldsAt (λ p. 0 < length p.recs) runs.now.parts result }
    ensures first { HoldsAt (λ p. HoldsAt (λ r. rank runs.now.parts result r.number ≡ 0) p.recs 0) runs.now.parts result }
{
    let base = runs.base(0);
    let mut first = 0;
    let mut least = runs.number(0, 0);
    let mut place = 1;
    while place < runs.len() && runs.base(place) == base {
        if is_lower(runs, place, least) {
            first = place;
            least = runs.number(place, 0);
        }
        place += 1;
    }
    first
}

/// Whether the first record that waits in the run at a place has a lower number.
fn is_lower(runs: &Runs, place: usize, number: usize) -> bool
    requires { place < length runs.now.parts }
    ensures some { IsTrue result → HoldsAt (λ p. 0 < length p.recs) runs.now.parts place }
    ensures lower { IsTrue result → HoldsAt (λ p. HoldsAt (λ r. r.number < number) p.recs 0) runs.now.parts place }
    ensures not_lower { result ≡ false → HoldsAt (λ p. 0 < length p.recs → HoldsAt (λ r. number ≤ r.number) p.recs 0) runs.now.parts place }
{
    runs.waiting(place) > 0 && runs.number(place, 0) < number
}

/// The number of the record of the message at `pick`.
fn number_at(runs: &Runs, next: usize, pick: usize) -> usize
    requires pick { pick < length (messages_of runs.now.parts) }
    requires older { AreOlder next runs.now.parts }
    requires grouped { AreGrouped runs.now.parts }
    requires ascending { AllByRecursion AscendIn runs.now.parts }
    requires counted { length (messages_of runs.now.parts) < 2 ^ 64 }
    ensures low { few result (all_of runs.now.parts) ≤ pick }
    ensures high { pick < few (result + 1) (all_of runs.now.parts) }
{
    let (mut low, mut high) = bounds_of(runs, next, pick);
    while high - low > 1 {
        let middle = low + (high - low) / 2;
        if count_below(runs, middle) <= pick {
            low = middle;
        } else {
            high = middle;
        }
    }
    low
}

/// A number up to that of the record of the message at `pick`, and one above it: between these are the records that were posted with
/// it alone.
fn bounds_of(runs: &Runs, next: usize, pick: usize) -> (usize, usize)
    requires pick { pick < length (messages_of runs.now.parts) }
    requires older { AreOlder next runs.now.parts }
    requires grouped { AreGrouped runs.now.parts }
    requires counted { length (messages_of runs.now.parts) < 2 ^ 64 }
    ensures low { few result.0 (all_of runs.now.parts) ≤ pick }
    ensures high { pick < few result.1 (all_of runs.now.parts) }
{
    let mut low = 0;
    let mut before = 0;
    let mut last = 0;
    for place in 0..runs.len() {
        let base = runs.base(place);
        if place > 0 && base != last {
            if before > pick {
                return (low, base);
            }
            low = base;
        }
        last = base;
        before += runs.waiting(place);
    }
    (low, next)
}

/// How many messages have a record of a lower number.
fn count_below(runs: &Runs, number: usize) -> usize
    requires ascending { AllByRecursion AscendIn runs.now.parts }
    requires counted { length (messages_of runs.now.parts) < 2 ^ 64 }
    ensures { result ≡ few number (all_of runs.now.parts) }
{
    let mut count = 0;
    for place in 0..runs.len() {
        count += below_in(runs, place, number);
    }
    count
}

/// How many records of the run at a place have a lower number.
fn below_in(runs: &Runs, place: usize, number: usize) -> usize
    requires within { place < length runs.now.parts }
    requires ascending { AllByRecursion AscendIn runs.now.parts }
    ensures count { HoldsAt (λ p. result ≡ few number (its p)) runs.now.parts place }
    ensures within { HoldsAt (λ p. result ≤ length p.recs) runs.now.parts place }
    ensures next { HoldsAt (λ p. result < length p.recs → HoldsAt (λ r. number ≤ r.number) p.recs result) runs.now.parts place }
    ensures fits { HoldsAt (λ p. length p.recs < 2 ^ 64) runs.now.parts place }
{
    let mut low = 0;
    let mut high = runs.waiting(place);
    while low < high {
        let middle = low + (high - low) / 2;
        if runs.number(place, middle) < number {
            low = middle + 1;
        } else {
            high = middle;
        }
    }
    low
}

/// The place of the run that has the message of a number that stands behind so many others of that number, and how many records
/// of the run are before it.
fn place_at(runs: &Runs, number: usize, index: usize) -> (usize, usize)
    requires index { index < length (at_number number (all_of runs.now.parts)) }
    requires ascending { AllByRecursion AscendIn runs.now.parts }
    ensures within { result.0 < length runs.now.parts }
    ensures waits { HoldsAt (λ p. result.1 < length p.recs) runs.now.parts result.0 }
    ensures number { HoldsAt (λ p. HoldsAt (λ r. r.number ≡ number) p.recs result.1) runs.now.parts result.0 }
    ensures before { length (at_number number (all_of (take result.0 runs.now.parts))) ≡ index }
    ensures fits { result.1 + 1 < 2 ^ 64 }
{
    let mut left = index;
    let mut place = 0;
    while left > 0 || !has_number(runs, place, number) {
        if has_number(runs, place, number) {
            left -= 1;
        }
        place += 1;
    }
    (place, below_in(runs, place, number))
}

/// Whether a record of a number waits in the run at a place.
fn has_number(runs: &Runs, place: usize, number: usize) -> bool
    requires within { place < length runs.now.parts }
    requires ascending { AllByRecursion AscendIn runs.now.parts }
    ensures count { HoldsAt (λ p. length (at_number number (its p)) ≡ cond result 1 0) runs.now.parts place }
    ensures there { IsTrue result → HoldsAt (λ p. few number (its p) < length p.recs) runs.now.parts place }
    ensures number { IsTrue result → HoldsAt (λ p. HoldsAt (λ r. r.number ≡ number) p.recs (few number (its p))) runs.now.parts place }
    ensures fits { length runs.now.parts < 2 ^ 64 }
{
    let offset = below_in(runs, place, number);
    offset < runs.waiting(place) && runs.number(place, offset) == number
}

/// The place of the first run of a lane.
pub(crate) fn first_place(runs: &Runs, lane: &Lane) -> usize
    requires { IsSome (first_on lane_eq lane.now runs.now.parts) }
    ensures { first_on lane_eq lane.now runs.now.parts ≡ Some result }
{
    let mut place = 0;
    while *lane != *runs.lane(place) {
        place += 1;
    }
    place
}

/// Reads the records of the run at a place without the picked one, which is the one with `offset` before it in the run at the
/// place `picked`, until the task is full. Says how far ahead the next run of its lane is.
fn read_run(runs: &Runs, place: usize, picked: usize, offset: usize, recs: &mut Vec<Rec>) -> usize
    requires within { place < length runs.now.parts }
    requires waits { HoldsAt (λ p. offset < length p.recs) runs.now.parts picked }
    requires few { vec_len recs.old ≤ 64 }
    requires room { vec_capacity recs.old ≡ 64 }
    ensures recs { HoldsAt (λ p. recs.new.items ≡ recs.old.items ++ map rec_of (take (64 - vec_len recs.old) p.recs)) (changed_at (without_at offset) picked runs.now.parts) place }
    ensures ahead { HoldsAt (λ p. result ≡ p.ahead) runs.now.parts place }
    ensures fits { length runs.now.parts < 2 ^ 64 }
    ensures capacity { vec_capacity recs.new ≡ vec_capacity recs.old }
{
    let waiting = runs.waiting(place);
    if place == picked {
        runs.read(place, 0, offset, recs);
        runs.read(place, offset + 1, waiting, recs);
    } else {
        runs.read(place, 0, waiting, recs);
    }
    runs.ahead(place)
}

/// Reads the records of a lane, from its first run on and without the picked one, until the task is full.
fn read_lane(
    runs: &Runs,
    lane: &Lane,
    first: usize,
    picked: usize,
    offset: usize,
    recs: &mut Vec<Rec>,
)
    requires first { first_on lane_eq lane.now runs.now.parts ≡ Some first }
    requires linked { AreLinked lane_eq runs.now.parts }
    requires waits { HoldsAt (λ p. offset < length p.recs) runs.now.parts picked }
    requires some { vec_len recs.old < 64 }
    requires room { vec_capacity recs.old ≡ 64 }
    ensures recs { recs.new.items ≡ recs.old.items ++ map rec_of (take (64 - vec_len recs.old) (lane_recs lane_eq lane.now (changed_at (without_at offset) picked runs.now.parts))) }
{
    let mut place = first;
    let mut ahead = read_run(runs, place, picked, offset, recs);
    while ahead > 0 && recs.len() < TASK_SIZE {
        place += ahead;
        ahead = read_run(runs, place, picked, offset, recs);
    }
}

/// Reads the message at `pick` among those that wait, and then the first of the others of its lane, until the task is full.
/// Answers their lane.
pub(crate) fn read_task(runs: &Runs, next: usize, pick: usize, recs: &mut Vec<Rec>) -> Lane
    requires pick { pick < length (messages_of runs.now.parts) }
    requires numbered { AreNumbered next runs.now.parts }
    requires front { FrontWaits runs.now.parts }
    requires counted { length (messages_of runs.now.parts) < 2 ^ 64 }
    requires linked { AreLinked lane_eq runs.now.parts }
    requires none { recs.old.items ≡ [] }
    requires room { vec_capacity recs.old ≡ 64 }
    ensures task { coming result.vertex result.port result.time recs.new.items ≡ task_at pick (messages_of runs.now.parts) }
{
    let (picked, offset) = place_of(runs, next, pick);
    runs.read(picked, offset, offset + 1, recs);
    let lane = runs.lane(picked);
    let first = first_place(runs, lane);
    read_lane(runs, lane, first, picked, offset, recs);
    lane.copy()
}

/// Takes the first records of the run at a place, until the task is full, and counts them. Says how far ahead the next run of
/// its lane is.
fn take_run(runs: &mut Runs, place: usize, count: &mut usize) -> usize
    requires within { place < length runs.old.parts }
    requires few { count.old ≤ 64 }
    ensures parts { runs.new ≡ record runs.old { parts = changed_at (without_front (64 - count.old)) place runs.old.parts } }
    ensures count { HoldsAt (λ p. count.new ≡ count.old + length (take (64 - count.old) p.recs)) runs.old.parts place }
    ensures ahead { HoldsAt (λ p. result ≡ p.ahead) runs.old.parts place }
    ensures fits { length runs.old.parts < 2 ^ 64 }
{
    let many = runs.waiting(place).min(TASK_SIZE - *count);
    runs.advance(place, many);
    *count += many;
    runs.ahead(place)
}

/// Takes the records of a lane, from its first run on, until the task is full.
fn take_lane(runs: &mut Runs, lane: &Lane, first: usize, count: &mut usize)
    requires first { first_on lane_eq lane.now runs.old.parts ≡ Some first }
    requires linked { AreLinked lane_eq runs.old.parts }
    requires some { count.old < 64 }
    ensures parts { runs.new ≡ record runs.old { parts = taken_on lane_eq lane.now (64 - count.old) runs.old.parts } }
    ensures count { length (all_of runs.new.parts) + count.new ≡ length (all_of runs.old.parts) + count.old }
{
    let mut place = first;
    let mut ahead = take_run(runs, place, count);
    while ahead > 0 && *count < TASK_SIZE {
        place += ahead;
        ahead = take_run(runs, place, count);
    }
}

/// Takes the task of the message at `pick` out of the runs. Answers how many messages it has.
pub(crate) fn take_task(runs: &mut Runs, next: usize, pick: usize) -> usize
    requires pick { pick < length (messages_of runs.old.parts) }
    requires numbered { AreNumbered next runs.old.parts }
    requires front { FrontWaits runs.old.parts }
    requires counted { length (messages_of runs.old.parts) < 2 ^ 64 }
    requires linked { AreLinked lane_eq runs.old.parts }
    ensures linked { AreLinked lane_eq runs.new.parts }
    ensures lasts { (q : AnyLane) → last_on lane_eq q runs.new.parts ≡ last_on lane_eq q runs.old.parts }
    ensures left { messages_of runs.new.parts ≡ left_at pick (messages_of runs.old.parts) }
    ensures numbered { AreNumbered next runs.new.parts }
    ensures count { length (messages_of runs.new.parts) + result ≡ length (messages_of runs.old.parts) }
    ensures first { runs.new.first ≡ runs.old.first }
    ensures runs { runs.new.runs ≡ runs.old.runs }
    ensures room { runs.new.room ≡ runs.old.room }
{
    let (place, offset) = place_of(runs, next, pick);
    let lane = runs.lane(place).copy();
    take_one(runs, place, offset);
    let first = first_place(runs, &lane);
    let mut count = 1;
    take_lane(runs, &lane, first, &mut count);
    count
}

/// Takes one record, which has `offset` before it in the run at a place.
fn take_one(runs: &mut Runs, place: usize, offset: usize)
    requires place { place < length runs.old.parts }
    requires offset { HoldsAt (λ p. offset < length p.recs) runs.old.parts place }
    ensures { runs.new ≡ record runs.old { parts = changed_at (without_at offset) place runs.old.parts } }
{
    runs.bring_to_front(place, offset);
    runs.advance(place, 1);
}

/// Lets go of the runs before the first that waits. Where none waits, runs are numbered from 0 on.
pub(crate) fn let_go(runs: &mut Runs, lasts: &mut HashMap<Lane, usize>)
    requires linked { AreLinked lane_eq runs.old.parts }
    requires lasts { (q : AnyLane) → get lane_eq lasts.old q ≡ option_map (λ i. runs.old.first + i) (last_on lane_eq q runs.old.parts) }
    ensures linked { AreLinked lane_eq runs.new.parts }
    ensures lasts { (q : AnyLane) → get lane_eq lasts.new q ≡ option_map (λ i. runs.new.first + i) (last_on lane_eq q runs.new.parts) }
    ensures front { FrontWaits runs.new.parts }
    ensures anew { runs.new.parts ≡ [] → runs.new.first ≡ 0 }
    ensures messages { all_of runs.new.parts ≡ all_of runs.old.parts }
    ensures numbered { (next : ℕ) → AreNumbered next runs.old.parts → AreNumbered next runs.new.parts }
    ensures runs { runs.new.runs ≡ runs.old.runs }
    ensures room { runs.new.room ≡ runs.old.room }
    ensures spare { spare lasts.old ≤ spare lasts.new }
{
    while front_is_taken(runs) {
        drop_front(runs, lasts);
    }
    if runs.len() == 0 {
        runs.number_anew();
    }
}

/// Whether there is a first run, and it waits no more.
fn front_is_taken(runs: &Runs) -> bool
    ensures waits { result ≡ false → FrontWaits runs.now.parts }
    ensures some { IsTrue result → 0 < length runs.now.parts }
    ensures taken { IsTrue result → HoldsAt (λ p. p.recs ≡ []) runs.now.parts 0 }
{
    runs.len() > 0 && runs.waiting(0) == 0
}

/// Lets go of the first run. Where it is the last of its lane, the lane is forgotten.
fn drop_front(runs: &mut Runs, lasts: &mut HashMap<Lane, usize>)
    requires { 0 < length runs.old.parts }
    ensures runs { runs.new ≡ record runs.old { first = runs.old.first + 1; parts = drop 1 runs.old.parts } }
    ensures lasts { HoldsAt (λ p. (q : AnyLane) → get lane_eq lasts.new q ≡ cond (p.ahead == 0 && lane_eq p.lane q) None (get lane_eq lasts.old q)) runs.old.parts 0 }
    ensures spare { spare lasts.old ≤ spare lasts.new }
{
    if runs.ahead(0) == 0 {
        let _ = lasts.remove(runs.lane(0));
    }
    runs.pop();
}
