//! The active pointstamps of one place and counters; and the frontier, one pointstamp after another.
ghost use Rattle.std.specs.Prelude.{◌≡◌, ◌+◌, ◌-◌, ◌^◌, ◌<◌, ◌≤◌, ◌↔◌, true, false, IsTrue, OnOk, OnErr, Some, [], length, is_none, nat_lt};
ghost use Rattle.std.specs.List.{list_all};
ghost use Rattle.td_progress.specs.Gaps.{within, sum_to, first_from, start_of, changed_from, changed_at, place, has_epoch, count_to, with_epoch, without_epoch, times_at, timed, plus, minus};
ghost use Rattle.td_progress.specs.Cells.{gaps_of};
ghost use Rattle.td_progress.specs.Held.{stepped, first_alone, firsts};
ghost use Rattle.std.specs.Iterator.{at_most, YieldsFirst};

use indexmap::IndexMap;
use indexmap::map::Iter;
use std::alloc::{AllocError, Global};
use std::collections::VecDeque;
use std::marker::Model;
use td_reach::Stamp;

/// By how much a gap changes.
#[derive(Clone, Copy, Debug, PartialEq, Eq)]
pub(crate) enum Step {
    /// By one more.
    Up,
    /// By one less.
    Down,
}

/// An epoch, its gap, and how often its pointstamp occurs.
#[derive(Clone, Copy, Debug, PartialEq, Eq)]
struct Cell {
    epoch: u64,
    gap: u64,
    times: u128,
}

/// The epochs of pointstamps of one place and counters, each with its gap, how many precursors it has that the one before
/// has not, itself counted too; and with how often it occurs. So a pointstamp is in the frontier exactly where it is the first and
/// its gap is one. A gap that changes stops at the ends of a `u64`, and the proof shows that neither end is met.
///
/// Epochs come behind and go in front, so that most are found at one end, and else by halving. What was allocated stays for those
/// to come.
#[derive(Drop)]
pub(crate) struct Chain {
    // The epochs rise.
    cells: VecDeque<Cell>,
}

impl Model for Chain {
    ghost use Rattle.std.specs.Prelude.{ℕ, List};
    ghost use Rattle.td_progress.specs.Gaps.{Mark, AreRising};
    ghost use Rattle.td_progress.specs.Cells.{gaps_of};

    ghost Value = { List (ℕ × Mark) };

    ghost view = { λ c. gaps_of c.cells.items };

    ghost invariant = { λ c. AreRising 0 (gaps_of c.cells.items) };
}

impl Chain {
    /// No pointstamps, in a queue that allocates with `alloc`.
    pub(crate) fn new(alloc: Global) -> Chain
        ensures { result ≡ [] }
    {
        Chain {
            cells: VecDeque::new(alloc),
        }
    }

    /// Whether there are none.
    pub(crate) fn is_empty(&self) -> bool
        ensures { IsTrue result ↔ (self.now ≡ []) }
    {
        self.cells.is_empty()
    }

    /// Whether this is the first epoch, with a gap of one.
    pub(crate) fn is_first(&self, epoch: u64) -> bool
        ensures { IsTrue result ↔ (first_alone self.now ≡ Some epoch) }
    {
        self.first_alone() == Some(epoch)
    }

    /// The first epoch, where its gap is one.
    pub(crate) fn first_alone(&self) -> Option<u64>
        ensures { result ≡ first_alone self.now }
    {
        match self.cells.front() {
            Some(first) if first.gap == 1 => Some(first.epoch),
            _ => None,
        }
    }

    /// Where the first epoch stands, or is to stand, that is not before this one.
    fn place(&self, epoch: u64) -> usize
        ensures is { result ≡ place epoch self.now }
        ensures within { result ≤ length self.now }
    {
        if self.is_before(epoch) {
            return self.cells.len();
        }
        if self.begins_from(epoch) {
            return 0;
        }
        self.cells.partition_point(|cell| cell.epoch < epoch)
    }

    /// Whether all epochs are before this one.
    pub(crate) fn is_before(&self, epoch: u64) -> bool
        ensures { result ≡ is_none (first_from epoch self.now) }
    {
        match self.cells.back() {
            Some(last) => last.epoch < epoch,
            None => true,
        }
    }

    /// Whether all epochs are after this one.
    pub(crate) fn is_after(&self, epoch: u64) -> bool
        ensures { result ≡ list_all (λ g. nat_lt epoch g.0) self.now }
    {
        match self.cells.front() {
            Some(first) => epoch < first.epoch,
            None => true,
        }
    }

    /// Whether no epoch is before this one.
    fn begins_from(&self, epoch: u64) -> bool
        ensures { IsTrue result → place epoch self.now ≡ 0 }
    {
        match self.cells.front() {
            Some(first) => epoch <= first.epoch,
            None => true,
        }
    }

    /// Whether an epoch is there, where it stands or is to stand.
    fn is_at(&self, at: usize, epoch: u64) -> bool
        requires { at ≡ place epoch self.now }
        ensures is { result ≡ has_epoch epoch self.now }
        ensures within { IsTrue result → at < length self.now }
    {
        match self.cells.get(at) {
            Some(cell) => cell.epoch == epoch,
            None => false,
        }
    }

    /// How often the pointstamp of an epoch occurs.
    pub(crate) fn times(&self, epoch: u64) -> u128
        ensures { result ≡ times_at epoch self.now }
    {
        match self.cells.get(self.place(epoch)) {
            Some(cell) if cell.epoch == epoch => cell.times,
            _ => 0,
        }
    }

    /// What the gaps up to an epoch add up to, without one, where the epoch is there.
    pub(crate) fn count_to(&self, epoch: u64) -> Option<u64>
        requires { has_epoch epoch self.now ≡ true → (0 < sum_to epoch self.now) × (sum_to epoch self.now < 2 ^ 64) }
        ensures { result ≡ count_to epoch self.now }
    {
        if self.is_at(self.place(epoch), epoch) {
            Some(self.sum_to(epoch) - 1)
        } else {
            None
        }
    }

    /// The number after the last epoch before this one, or 0 where none is.
    pub(crate) fn start_of(&self, epoch: u64) -> u64
        ensures { result ≡ start_of 0 epoch self.now }
    {
        let place = self.place(epoch);
        if place == 0 {
            return 0;
        }
        match self.cells.get(place - 1) {
            Some(last) => last.epoch + 1,
            None => 0,
        }
    }

    /// How many epochs are in this range.
    pub(crate) fn count(&self, from: u64, upto: u64) -> u64
        requires { from ≤ upto }
        ensures { result ≡ within from upto self.now }
    {
        if self.cells.is_empty() {
            return 0;
        }
        let end = self.place(upto);
        let own = u64::from(self.is_at(end, upto));
        end as u64 + own - self.place(from) as u64
    }

    /// What the gaps up to an epoch add up to.
    fn sum_to(&self, epoch: u64) -> u64
        requires { sum_to epoch self.now < 2 ^ 64 }
        ensures { result ≡ sum_to epoch self.now }
    {
        let mut sum = 0;
        for cell in self.cells.iter() {
            if epoch < cell.epoch {
                break;
            }
            sum += cell.gap;
        }
        sum
    }

    /// Puts an epoch in, whose gap the next one has no more. Refusal: nothing has changed.
    pub(crate) fn put(&mut self, epoch: u64, gap: u64, times: u128) -> Result<(), AllocError>
        requires { has_epoch epoch self.old ≡ false }
        ensures ok { OnOk result (self.new ≡ with_epoch epoch (record { gap = gap; times = times }) self.old) }
        ensures err { OnErr result (self.new ≡ self.old) }
    {
        let place = self.place(epoch);
        self.cells.insert(place, Cell { epoch, gap, times })?;
        lower(&mut self.cells, place + 1, gap);
        Ok(())
    }

    /// The pointstamp of an epoch occurs this many times more.
    pub(crate) fn add(&mut self, epoch: u64, times: u64)
        requires there { has_epoch epoch self.old ≡ true }
        requires fits { times_at epoch self.old + times < 2 ^ 128 }
        ensures { self.new ≡ timed epoch (λ n. n + times) self.old }
    {
        let place = self.place(epoch);
        if let Some(cell) = self.cells.get_mut(place) {
            cell.times += u128::from(times);
        }
    }

    /// The pointstamp of an epoch occurs this many times less.
    pub(crate) fn take_off(&mut self, epoch: u64, times: u64)
        requires there { has_epoch epoch self.old ≡ true }
        requires enough { times ≤ times_at epoch self.old }
        ensures { self.new ≡ timed epoch (λ n. n - times) self.old }
    {
        let place = self.place(epoch);
        if let Some(cell) = self.cells.get_mut(place) {
            cell.times -= u128::from(times);
        }
    }

    /// Takes an epoch out, whose gap the next one has too from then on.
    pub(crate) fn take(&mut self, epoch: u64)
        requires { has_epoch epoch self.old ≡ true }
        ensures { self.new ≡ without_epoch epoch self.old }
    {
        let place = self.place(epoch);
        if let Some(cell) = self.cells.remove(place) {
            raise(&mut self.cells, place, cell.gap);
        }
    }

    /// Changes the first gap that is not before an epoch by one.
    pub(crate) fn step_from(&mut self, epoch: u64, step: Step)
        ensures { self.new ≡ changed_from epoch (stepped step) self.old }
    {
        let place = self.place(epoch);
        match step {
            Step::Up => raise(&mut self.cells, place, 1),
            Step::Down => lower(&mut self.cells, place, 1),
        }
    }
}

/// Adds to the gap at a place, if one is there.
fn raise(cells: &mut VecDeque<Cell>, place: usize, by: u64)
    ensures { gaps_of cells.new.items ≡ changed_at place (plus by) (gaps_of cells.old.items) }
{
    if let Some(cell) = cells.get_mut(place) {
        cell.gap = cell.gap.saturating_add(by);
    }
}

/// Takes from the gap at a place, if one is there.
fn lower(cells: &mut VecDeque<Cell>, place: usize, by: u64)
    ensures { gaps_of cells.new.items ≡ changed_at place (minus by) (gaps_of cells.old.items) }
{
    if let Some(cell) = cells.get_mut(place) {
        cell.gap = cell.gap.saturating_sub(by);
    }
}

/// An iterator over the active pointstamps that no other active one could result in, each once. Contracts see those that are left.
#[derive(Drop)]
pub struct FrontierStamps<'a> {
    chains: Iter<'a, Stamp, Chain>,
}

impl<'a> Model for FrontierStamps<'a> {
    ghost use Rattle.std.specs.Prelude.{List};
    ghost use Rattle.td_reach.specs.declared.stamp.Stamp.{Stamp};
    ghost use Rattle.td_progress.specs.Held.{firsts};

    ghost Value = { List Stamp };

    ghost view = { λ f. firsts f.chains };
}

impl<'a> FrontierStamps<'a> {
    /// The first of each place and counters, where it has nothing but itself in its gap.
    pub(crate) fn of(chains: &'a IndexMap<Stamp, Chain>) -> FrontierStamps<'a>
        ensures { result ≡ firsts chains.now.entries }
    {
        FrontierStamps {
            chains: chains.iter(),
        }
    }
}

impl<'a> Iterator for FrontierStamps<'a> {
    type Item = Stamp;

    ghost next_gives = { YieldsFirst (λ s. s) };

    ghost remaining = { λ s. at_most (length s) };

    fn next(&mut self) -> Option<Stamp> {
        loop {
            let (class, chain) = self.chains.next()?;
            if let Some(epoch) = chain.first_alone() {
                return Some(Stamp {
                    time: class.time.at(epoch),
                    place: class.place,
                });
            }
        }
    }
}
