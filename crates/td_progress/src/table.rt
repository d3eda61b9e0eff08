//! The table of active pointstamps.
ghost use Rattle.std.specs.Prelude.{◌≡◌, ◌+◌, ◌^◌, ◌<◌, ◌≤◌, ◌∷◌, ◌++◌, ◌↔◌};
ghost use Rattle.std.specs.Prelude.{IsTrue, IfOk, IfSome, OnOk, OnErr, None, Contains, map, replicate};
ghost use Rattle.std.specs.List.{AllByRecursion, IsDistinct};
ghost use Rattle.td_reach.specs.declared.stamp.Stamp.{Stamp as AnyStamp};
ghost use Rattle.td_reach.specs.Paths.{IsOf};
ghost use Rattle.td_reach.specs.Frontier.{Frontier, Precursors, has_passed};
ghost use Rattle.td_progress.specs.Bag.{is_stamp, occurrences, IsSameBag, input_stamp};

use crate::chain::FrontierStamps;
use crate::held::Held;
use crate::ways::Ways;
use std::alloc::Global;
use std::marker::Model;
use td_plan::Plan;
use td_reach::laws::{could_order, could_tested};
use td_reach::{Place, Reach, Stamp};
use td_stamp::{StampError as ProgressError, Time};

/// The active pointstamps of a plan, with how often each occurs and how many precursors each has (Naiad, section 2.3).
/// Contracts see the plan, and a list in which each stands as often as it occurs.
///
/// What is stored of a precursor count is its gap: what it has more than that of the same place and counters in the active epoch
/// before, so that the gaps up to a pointstamp add up to its count. One field each with the whole count would have to change in
/// all later epochs whenever a pointstamp comes or goes; a gap changes once in each place and counters downstream.
///
/// With e epochs open, a change costs O(log e) where a pointstamp stays active. Else it costs O(log e) for each place of the plan
/// from which a path leads to its own, or to which one leads, and for each counters in loops that are active. One that comes or
/// goes between two others moves those of its chain on the shorter side. A pointstamp in no loop is found by the number of its
/// place, and one in loops by its hash. Nothing is allocated but for more epochs at a place than there were before, and for new
/// counters. Which place leads to which is found once, by `new`. Whether a pointstamp is in the frontier costs O(1).
#[derive(Drop)]
pub struct Table {
    ways: Ways,
    held: Held,
}

impl Model for Table {
    ghost use Rattle.td_progress.specs.Bag.{Active};
    ghost use Rattle.td_progress.specs.Held.{all_marked, AreHeld};

    ghost Value = { Active };

    ghost view = { λ t. record { plan = t.ways; stamps = all_marked t.held } };

    ghost invariant = { λ t. AreHeld t.ways t.held };
}

impl Table {
    /// The table of a plan whose inputs have the numbers `inputs`, and may be given records of the epoch `first`: each has
    /// its pointstamp of that epoch. Refusal: `Memory`.
    pub fn new(
        alloc: Global,
        reach: Reach,
        inputs: &[u8],
        first: u64,
    ) -> Result<Table, ProgressError>
        requires { AllByRecursion (λ v. IsOf reach (input_stamp first v)) inputs.now }
        ensures plan { IfOk result (λ table. table.plan ≡ reach) }
        ensures inputs { IfOk result (λ table. IsSameBag table.stamps (map (input_stamp first) inputs.now)) }
    {
        let ways = Ways::of(alloc, reach)?;
        let held = Held::new(alloc, &ways)?;
        let mut table = Table { ways, held };
        for input in inputs {
            table.add(&Stamp {
                time: Time::new(first),
                place: Place::Vertex(*input),
            })?;
        }
        Ok(table)
    }

    /// The plan.
    pub fn plan(&self) -> &Plan
        ensures plan { result.now ≡ self.now.plan }
        ensures each { AllByRecursion (IsOf self.now.plan) self.now.stamps }
    {
        let _ = &self.held;
        self.ways.reach().plan()
    }

    /// Whether the plan has the place of a pointstamp, and its time is in as many loops as are open there. Without it and
    /// `occurrences` a caller with a plan from a text could not show the conditions of the other calls.
    pub fn has(&self, stamp: &Stamp) -> bool
        ensures { IsTrue result ↔ IsOf self.now.plan stamp.now }
    {
        self.ways.reach().has(stamp)
    }

    /// How often a pointstamp occurs, 0 where it is not active. It takes no memory.
    pub fn occurrences(&self, stamp: &Stamp) -> u128
        ensures { result ≡ occurrences stamp.now self.now.stamps }
    {
        if self.has(stamp) {
            let index = self.held.position(&self.ways, stamp);
            self.held.times(index, stamp.time.epoch())
        } else {
            0
        }
    }

    /// One pointstamp more. Refusal: `Memory`, with the table unchanged.
    pub fn add(&mut self, stamp: &Stamp) -> Result<(), ProgressError>
        requires of_plan { IsOf self.old.plan stamp.now }
        requires fits { occurrences stamp.now self.old.stamps + 1 < 2 ^ 128 }
        ensures plan { self.new.plan ≡ self.old.plan }
        ensures ok { OnOk result (IsSameBag self.new.stamps (stamp.now ∷ self.old.stamps)) }
        ensures err { OnErr result (self.new ≡ self.old) }
    {
        self.add_many(stamp, 1)
    }

    /// A pointstamp this many times more. Refusal: `Memory`, with the table unchanged. Zero times is nothing.
    pub fn add_many(&mut self, stamp: &Stamp, times: u64) -> Result<(), ProgressError>
        requires of_plan { IsOf self.old.plan stamp.now }
        requires fits { occurrences stamp.now self.old.stamps + times < 2 ^ 128 }
        ensures plan { self.new.plan ≡ self.old.plan }
        ensures ok { OnOk result (IsSameBag self.new.stamps (replicate times stamp.now ++ self.old.stamps)) }
        ensures err { OnErr result (self.new ≡ self.old) }
    {
        if times == 0 {
            return Ok(());
        }
        let index = self.held.position(&self.ways, stamp);
        if self.held.times(index, stamp.time.epoch()) > 0 {
            self.held.add(stamp, index, times);
            return Ok(());
        }
        self.held.come(&self.ways, stamp, index, times)?;
        Ok(())
    }

    /// One pointstamp less. It takes no memory.
    pub fn take_off(&mut self, stamp: &Stamp)
        requires { 0 < occurrences stamp.now self.old.stamps }
        ensures plan { self.new.plan ≡ self.old.plan }
        ensures stamps { IsSameBag self.old.stamps (stamp.now ∷ self.new.stamps) }
    {
        self.take_off_many(stamp, 1);
    }

    /// A pointstamp this many times less. It takes no memory.
    pub fn take_off_many(&mut self, stamp: &Stamp, times: u64)
        requires { times ≤ occurrences stamp.now self.old.stamps }
        ensures plan { self.new.plan ≡ self.old.plan }
        ensures stamps { IsSameBag self.old.stamps (replicate times stamp.now ++ self.new.stamps) }
    {
        if times == 0 {
            return;
        }
        let index = self.held.position(&self.ways, stamp);
        if self.held.times(index, stamp.time.epoch()) > u128::from(times) {
            self.held.take_off(stamp, index, times);
        } else {
            self.held.go(&self.ways, stamp, index, times);
        }
    }

    /// Whether a pointstamp is in the frontier: it is active, and no other active one could result in it. It takes no memory.
    pub fn in_frontier(&self, stamp: &Stamp) -> bool
        requires { IsOf self.now.plan stamp.now }
        ensures { IsTrue result ↔ Frontier self.now.plan self.now.stamps stamp.now }
    {
        could_tested();
        could_order();
        let _plan = self.ways.reach().plan().vertices();
        self.held.is_first(&self.ways, stamp)
    }

    /// The frontier: each active pointstamp that no other active one could result in, once, in no certain order. It takes no memory,
    /// and looks once at each place of the plan, and at each counters in loops that are active, however many epochs are open there.
    pub fn frontier(&self) -> FrontierStamps<'_>
        ensures each { (p : AnyStamp) → Contains result p ↔ Frontier self.now.plan self.now.stamps p }
        ensures once { IsDistinct is_stamp result }
    {
        could_tested();
        could_order();
        let _plan = self.ways.reach().plan().vertices();
        self.held.firsts()
    }

    /// How many other active pointstamps could result in this one, None where it is not active. It takes no memory, and adds up
    /// the gaps of its place and counters.
    pub fn precursors(&self, stamp: &Stamp) -> Option<u64>
        requires { IsOf self.now.plan stamp.now }
        ensures none { result ≡ None ↔ (occurrences stamp.now self.now.stamps ≡ 0) }
        ensures some { IfSome result (Precursors self.now.plan self.now.stamps stamp.now) }
    {
        could_tested();
        could_order();
        let _plan = self.ways.reach().plan().vertices();
        self.held.count(&self.ways, stamp)
    }

    /// Whether an epoch has passed: no active pointstamp has an epoch that is not after it. It takes no memory, and looks once at
    /// each place of the plan, and at each counters in loops that are active, however many epochs are open there.
    pub fn passed(&self, epoch: u64) -> bool
        ensures { result ≡ has_passed self.now.stamps epoch }
    {
        self.held.passed(epoch)
    }
}
