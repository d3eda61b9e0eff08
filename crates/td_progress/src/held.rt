//! The active pointstamps, each with how often it occurs and with what its precursor count is made of.
ghost use Rattle.std.specs.Prelude.{◌≡◌, ◌+◌, ◌-◌, ◌<◌, ◌≤◌, ◌++◌, ◌^◌, ◌↔◌, ◌⊎◌};
ghost use Rattle.std.specs.Prelude.{List, true, false, cond, IsTrue, IfOk, OnOk, OnErr, Some, None, [], length, map, replicate, slice_get, option_map};
ghost use Rattle.std.specs.List.{AllByRecursion, IsDistinct, range_with_len};
ghost use Rattle.std.specs.Option.{unwrap_or};
ghost use Rattle.std.specs.Map.{keys_of, values_of, lookup, remove_entry};
ghost use Rattle.td_stamp.specs.Time.{depth};
ghost use Rattle.td_plan.specs.Lines.{Line};
ghost use Rattle.td_reach.specs.Paths.{IsOf};
ghost use Rattle.td_reach.specs.Frontier.{has_passed};
ghost use Rattle.td_reach.specs.Tables.{could_test};
ghost use Rattle.td_progress.specs.Bag.{is_stamp, occurrences, IsSameBag};
ghost use Rattle.td_progress.specs.Gaps.{has_epoch, start_of, within, without_epoch, timed, times_at};
ghost use Rattle.td_progress.specs.Held.{class_of, held, all_marked, total, between, chain_at, with_stamp, without_stamp, timed_stamp};
ghost use Rattle.td_progress.specs.Held.{stepped, shifted, shifted_at, all_shifted_at, is_ahead, AreHeld, AllTimed, IsFirst, IsCounted, count_of, firsts};
ghost use Rattle.td_progress.specs.Held.{IsOfPlan, IsLaidOut, IsPosition, gaps_at, empty_chains, count_in, count_among, epochs_in, changed_in};
ghost use Rattle.td_progress.specs.Ways.{places_of, number_of, row};
ghost use Rattle.td_progress.specs.declared.ways.Side.TheVariants as Side;

use crate::chain::{Chain, FrontierStamps, Step};
use crate::laws::in_no_loop;
use crate::ways::{Side, Ways};
use indexmap::IndexMap;
use std::alloc::{AllocError, Global};
use std::marker::Model;
use td_reach::laws::{could_leads, could_tested};
use td_reach::{Reach, Stamp};

/// The active pointstamps, each once, by place and counters and then by epoch. Each has its gap, how many precursors it has that
/// the one of the epoch before has not, itself counted too; and how often it occurs.
///
/// The places of the plan stand first, in no loop, at their numbers, and stay there where none of their pointstamps is active: so
/// they are found by number. Those in loops stand behind, where any is active, and are found by one hash. A change looks at the
/// places that lead to its own, or to which it leads, and at the counters in loops that are active, alone. In no loop a path is
/// enough, and which places have one is known: there no effect of a path is asked for.
///
/// One that comes between two others takes its gap from the later one, and one that goes gives it back. A departure counts
/// nothing and takes no memory. An arrival counts its own gap: in each chain that it looks at, the epochs in a range.
///
/// Two other forms were rejected. A part that the places share, added when it is asked for, is quadratic where epochs leave from
/// the middle. First pointstamps alone would have no counts for the others.
#[derive(Drop)]
pub(crate) struct Held {
    // Each place and counters, as the pointstamp of epoch 0.
    chains: IndexMap<Stamp, Chain>,
    active: u64,
    alloc: Global,
}

impl Model for Held {
    ghost use Rattle.std.specs.Prelude.{ℕ, List, ◌≡◌, ◌<◌, ◌^◌};
    ghost use Rattle.td_reach.specs.declared.stamp.Stamp.{Stamp};
    ghost use Rattle.td_progress.specs.Gaps.{Mark};
    ghost use Rattle.td_progress.specs.Held.{total, AllTimed};

    ghost Value = { List (Stamp × List (ℕ × Mark)) };

    ghost view = { λ h. h.chains.entries };

    ghost invariant = { λ h. (h.active ≡ total h.chains.entries) × (total h.chains.entries < 2 ^ 64) × AllTimed h.chains.entries };
}

impl Held {
    /// No pointstamps of a plan, in maps that allocate with `alloc`.
    pub(crate) fn new(alloc: Global, ways: &Ways) -> Result<Held, AllocError>
        ensures kept { IfOk result (AreHeld ways.now) }
        ensures none { IfOk result (λ h. all_marked h ≡ []) }
    {
        Ok(Held {
            chains: laid_out(alloc, ways)?,
            active: 0,
            alloc,
        })
    }

    /// Where the chain of a pointstamp's place and counters stands, if it does. A change asks once, and the calls below take the
    /// answer.
    pub(crate) fn position(&self, ways: &Ways, stamp: &Stamp) -> Option<usize>
        requires kept { AreHeld ways.now self.now }
        requires of_plan { IsOf ways.now stamp.now }
        ensures { IsPosition (class_of stamp.now) self.now result }
    {
        position(ways, &self.chains, &class_of(stamp))
    }

    /// How often the pointstamp of an epoch occurs, of the chain at a position.
    pub(crate) fn times(&self, index: Option<usize>, epoch: u64) -> u128
        ensures is { result ≡ times_at epoch (gaps_at index self.now) }
        ensures timed { AllTimed self.now }
    {
        match chain_in(&self.chains, index) {
            Some(chain) => chain.times(epoch),
            None => 0,
        }
    }

    /// A pointstamp that is active occurs this many times more.
    pub(crate) fn add(&mut self, stamp: &Stamp, index: Option<usize>, times: u64)
        requires position { IsPosition (class_of stamp.now) self.old index }
        requires there { 0 < times_at stamp.now.time.epoch (chain_at (class_of stamp.now) self.old) }
        requires fits { times_at stamp.now.time.epoch (chain_at (class_of stamp.now) self.old) + times < 2 ^ 128 }
        ensures kept { (plan : List Line) → AreHeld plan self.old → AreHeld plan self.new }
        ensures more { IsSameBag (all_marked self.new) (replicate times stamp.now ++ all_marked self.old) }
    {
        let class = class_of(stamp);
        add_at(&mut self.chains, &class, index, stamp.time.epoch(), times);
    }

    /// A pointstamp occurs this many times less, and is active still.
    pub(crate) fn take_off(&mut self, stamp: &Stamp, index: Option<usize>, times: u64)
        requires position { IsPosition (class_of stamp.now) self.old index }
        requires enough { times < times_at stamp.now.time.epoch (chain_at (class_of stamp.now) self.old) }
        ensures kept { (plan : List Line) → AreHeld plan self.old → AreHeld plan self.new }
        ensures less { IsSameBag (all_marked self.old) (replicate times stamp.now ++ all_marked self.new) }
    {
        let class = class_of(stamp);
        take_off_at(&mut self.chains, &class, index, stamp.time.epoch(), times);
    }

    /// A pointstamp becomes active, and occurs this many times. Refusal: nothing has changed.
    pub(crate) fn come(
        &mut self,
        ways: &Ways,
        stamp: &Stamp,
        index: Option<usize>,
        times: u64,
    ) -> Result<(), AllocError>
        requires kept { AreHeld ways.now self.old }
        requires of_plan { IsOf ways.now stamp.now }
        requires position { IsPosition (class_of stamp.now) self.old index }
        requires new { occurrences stamp.now (all_marked self.old) ≡ 0 }
        requires some { 0 < times }
        ensures kept { OnOk result (AreHeld ways.now self.new) }
        ensures ok { OnOk result (IsSameBag (all_marked self.new) (replicate times stamp.now ++ all_marked self.old)) }
        ensures err { OnErr result (self.new ≡ self.old) }
    {
        // `precursors` answers a `u64`, and no machine has the memory for so many.
        let Some(active) = self.active.checked_add(1) else {
            return Err(AllocError);
        };
        let class = class_of(stamp);
        let epoch = stamp.time.epoch();
        let gap = gap_for(ways, &self.chains, &class, index, epoch);
        put(
            self.alloc,
            &mut self.chains,
            &class,
            index,
            epoch,
            gap,
            times,
        )?;
        step_from(ways, &mut self.chains, &class, epoch, Step::Up);
        self.active = active;
        Ok(())
    }

    /// A pointstamp that occurs this many times is active no more.
    pub(crate) fn go(&mut self, ways: &Ways, stamp: &Stamp, index: Option<usize>, times: u64)
        requires kept { AreHeld ways.now self.old }
        requires position { IsPosition (class_of stamp.now) self.old index }
        requires there { 0 < times }
        requires all { occurrences stamp.now (all_marked self.old) ≡ times }
        ensures kept { AreHeld ways.now self.new }
        ensures less { IsSameBag (all_marked self.old) (replicate times stamp.now ++ all_marked self.new) }
    {
        let class = class_of(stamp);
        let epoch = stamp.time.epoch();
        step_from(ways, &mut self.chains, &class, epoch, Step::Down);
        take(&mut self.chains, &class, index, epoch);
        drop_empty(&mut self.chains, &class, index);
        self.active -= 1;
    }

    /// Whether a pointstamp is the first of its place and counters, with nothing but itself in its gap.
    pub(crate) fn is_first(&self, ways: &Ways, stamp: &Stamp) -> bool
        requires kept { AreHeld ways.now self.now }
        requires of_plan { IsOf ways.now stamp.now }
        ensures is { IsTrue result ↔ IsFirst stamp.now self.now }
        ensures timed { AllTimed self.now }
    {
        match self.chain_of(ways, stamp) {
            Some(chain) => chain.is_first(stamp.time.epoch()),
            None => false,
        }
    }

    /// The first of each place and counters, where it has nothing but itself in its gap.
    pub(crate) fn firsts(&self) -> FrontierStamps<'_>
        ensures is { result ≡ firsts self.now }
        ensures timed { AllTimed self.now }
    {
        FrontierStamps::of(&self.chains)
    }

    /// What the gaps up to a pointstamp add up to, without itself, where it is active.
    pub(crate) fn count(&self, ways: &Ways, stamp: &Stamp) -> Option<u64>
        requires kept { AreHeld ways.now self.now }
        requires of_plan { IsOf ways.now stamp.now }
        requires fits { IsCounted stamp.now self.now }
        ensures is { result ≡ count_of stamp.now self.now }
        ensures timed { AllTimed self.now }
    {
        match self.chain_of(ways, stamp) {
            Some(chain) => chain.count_to(stamp.time.epoch()),
            None => None,
        }
    }

    /// Whether no pointstamp has an epoch that is not after this one. It looks at the first of each chain.
    pub(crate) fn passed(&self, epoch: u64) -> bool
        ensures { result ≡ has_passed (all_marked self.now) epoch }
    {
        for (_, chain) in self.chains.iter() {
            if !chain.is_after(epoch) {
                return false;
            }
        }
        true
    }

    /// The chain of a pointstamp's place and counters.
    fn chain_of(&self, ways: &Ways, stamp: &Stamp) -> Option<&Chain>
        requires kept { AreHeld ways.now self.now }
        requires of_plan { IsOf ways.now stamp.now }
        ensures is { unwrap_or (option_map (λ c. c.now) result) [] ≡ chain_at (class_of stamp.now) self.now }
        ensures fits { total self.now < 2 ^ 64 }
        ensures timed { AllTimed self.now }
    {
        let class = class_of(stamp);
        let index = position(ways, &self.chains, &class);
        chain_in(&self.chains, index)
    }
}

/// A pointstamp's place and counters.
fn class_of(stamp: &Stamp) -> Stamp
    ensures { result ≡ class_of stamp.now }
{
    Stamp {
        time: stamp.time.at(0),
        place: stamp.place,
    }
}

/// An empty chain for each place of a plan, in no loop.
fn laid_out(alloc: Global, ways: &Ways) -> Result<IndexMap<Stamp, Chain>, AllocError>
    ensures entries { IfOk result (λ chains. chains.entries ≡ empty_chains ways.now) }
    ensures once { IfOk result (λ chains. IsDistinct is_stamp (keys_of chains.entries)) }
{
    let mut chains = IndexMap::new(alloc);
    for number in 0..ways.places() {
        chains.insert(ways.outside(number), Chain::new(alloc))?;
    }
    Ok(chains)
}

/// Where a place and counters stand, if they do: in no loop at the number of the place.
fn position(ways: &Ways, chains: &IndexMap<Stamp, Chain>, class: &Stamp) -> Option<usize>
    requires class { IsOf ways.now class.now }
    requires zeroth { class.now.time.epoch ≡ 0 }
    requires laid { IsLaidOut ways.now (keys_of chains.now.entries) }
    ensures { IsPosition class.now chains.now.entries result }
{
    could_leads();
    match class.time.depth() {
        0 => Some(ways.number(class.place)),
        _ => chains.get_index_of(class),
    }
}

/// How many of the epochs up to this one could result in a place and counters that could not in the one before.
fn gap_for(
    ways: &Ways,
    chains: &IndexMap<Stamp, Chain>,
    class: &Stamp,
    index: Option<usize>,
    epoch: u64,
) -> u64
    requires class { IsOf ways.now class.now }
    requires each { AllByRecursion (IsOfPlan ways.now) chains.now.entries }
    requires laid { IsLaidOut ways.now (keys_of chains.now.entries) }
    requires fits { total chains.now.entries < 2 ^ 64 }
    ensures { result ≡ between ways.now chains.now.entries class.now (start_of 0 epoch (gaps_at index chains.now.entries)) epoch }
{
    let from = start_in(chains, index, epoch);
    count_within(ways, chains, class, from, epoch)
}

/// The epoch from which a gap counts: after the last in the chain that is before this one.
fn start_in(chains: &IndexMap<Stamp, Chain>, index: Option<usize>, epoch: u64) -> u64
    ensures { result ≡ start_of 0 epoch (gaps_at index chains.now.entries) }
{
    match chain_in(chains, index) {
        Some(chain) => chain.start_of(epoch),
        None => 0,
    }
}

/// The chain at a position.
fn chain_in(chains: &IndexMap<Stamp, Chain>, index: Option<usize>) -> Option<&Chain>
    ensures { unwrap_or (option_map (λ c. c.now) result) [] ≡ gaps_at index chains.now.entries }
{
    let (_, chain) = chains.get_index(index?)?;
    Some(chain)
}

/// How many pointstamps of these epochs could result in a place and counters: those at places that lead there, and those in
/// loops.
fn count_within(
    ways: &Ways,
    chains: &IndexMap<Stamp, Chain>,
    class: &Stamp,
    from: u64,
    upto: u64,
) -> u64
    requires class { IsOf ways.now class.now }
    requires each { AllByRecursion (IsOfPlan ways.now) chains.now.entries }
    requires laid { IsLaidOut ways.now (keys_of chains.now.entries) }
    requires fits { total chains.now.entries < 2 ^ 64 }
    requires forward { from ≤ upto }
    ensures { result ≡ between ways.now chains.now.entries class.now from upto }
{
    could_tested();
    could_leads();
    let _plan = ways.reach().plan().vertices();
    let before = count_before(ways, chains, class, from, upto);
    let in_loops = count_in_loops(ways, chains, class, from, upto);
    before + in_loops
}

/// Those at places that lead there, in no loop.
fn count_before(
    ways: &Ways,
    chains: &IndexMap<Stamp, Chain>,
    class: &Stamp,
    from: u64,
    upto: u64,
) -> u64
    requires class { IsOf ways.now class.now }
    requires each { AllByRecursion (IsOfPlan ways.now) chains.now.entries }
    requires laid { IsLaidOut ways.now (keys_of chains.now.entries) }
    requires fits { total chains.now.entries < 2 ^ 64 }
    requires forward { from ≤ upto }
    ensures { result ≡ count_among ways.now chains.now.entries class.now from upto (row ways.now Side.Before (number_of ways.now class.now.place)) }
{
    match class.time.depth() {
        0 => count_led(ways, chains, class, from, upto),
        _ => count_tested(ways, chains, class, from, upto),
    }
}

/// The same of a place in no loop, where a path is enough.
fn count_led(
    ways: &Ways,
    chains: &IndexMap<Stamp, Chain>,
    class: &Stamp,
    from: u64,
    upto: u64,
) -> u64
    requires class { IsOf ways.now class.now }
    requires outside { depth class.now.time ≡ 0 }
    requires each { AllByRecursion (IsOfPlan ways.now) chains.now.entries }
    requires laid { IsLaidOut ways.now (keys_of chains.now.entries) }
    requires fits { total chains.now.entries < 2 ^ 64 }
    requires forward { from ≤ upto }
    ensures { result ≡ count_among ways.now chains.now.entries class.now from upto (row ways.now Side.Before (number_of ways.now class.now.place)) }
{
    in_no_loop();
    could_tested();
    could_leads();
    let _plan = ways.reach().plan().vertices();
    let mut count = 0;
    for number in ways.row(Side::Before, class.place) {
        count += epochs_at(chains, from, upto, usize::from(*number));
    }
    count
}

/// How many epochs of this range are in the chain at a position.
fn epochs_at(chains: &IndexMap<Stamp, Chain>, from: u64, upto: u64, index: usize) -> u64
    requires { from ≤ upto }
    ensures { result ≡ epochs_in from upto (slice_get chains.now.entries index) }
{
    match chains.get_index(index) {
        Some((_, chain)) => chain.count(from, upto),
        None => 0,
    }
}

/// The same of counters in loops, where of each it is asked whether it could result in them.
fn count_tested(
    ways: &Ways,
    chains: &IndexMap<Stamp, Chain>,
    class: &Stamp,
    from: u64,
    upto: u64,
) -> u64
    requires class { IsOf ways.now class.now }
    requires each { AllByRecursion (IsOfPlan ways.now) chains.now.entries }
    requires laid { IsLaidOut ways.now (keys_of chains.now.entries) }
    requires fits { total chains.now.entries < 2 ^ 64 }
    requires forward { from ≤ upto }
    ensures { result ≡ count_among ways.now chains.now.entries class.now from upto (row ways.now Side.Before (number_of ways.now class.now.place)) }
{
    could_leads();
    let mut count = 0;
    for number in ways.row(Side::Before, class.place) {
        count += count_at(ways, chains, class, from, upto, usize::from(*number));
    }
    count
}

/// Those behind the places in no loop.
fn count_in_loops(
    ways: &Ways,
    chains: &IndexMap<Stamp, Chain>,
    class: &Stamp,
    from: u64,
    upto: u64,
) -> u64
    requires class { IsOf ways.now class.now }
    requires each { AllByRecursion (IsOfPlan ways.now) chains.now.entries }
    requires laid { IsLaidOut ways.now (keys_of chains.now.entries) }
    requires fits { total chains.now.entries < 2 ^ 64 }
    requires forward { from ≤ upto }
    ensures { result ≡ count_among ways.now chains.now.entries class.now from upto (range_with_len (places_of ways.now) (length chains.now.entries - places_of ways.now)) }
{
    let mut count = 0;
    for index in usize::from(ways.places())..chains.len() {
        count += count_at(ways, chains, class, from, upto, index);
    }
    count
}

/// Those of the chain at a position.
fn count_at(
    ways: &Ways,
    chains: &IndexMap<Stamp, Chain>,
    class: &Stamp,
    from: u64,
    upto: u64,
    index: usize,
) -> u64
    requires class { IsOf ways.now class.now }
    requires each { AllByRecursion (IsOfPlan ways.now) chains.now.entries }
    requires forward { from ≤ upto }
    ensures { result ≡ count_in ways.now class.now from upto (slice_get chains.now.entries index) }
{
    match chains.get_index(index) {
        Some((other, chain)) => counted(ways.reach(), other, chain, class, from, upto),
        None => 0,
    }
}

/// Those of one chain.
fn counted(reach: &Reach, other: &Stamp, chain: &Chain, class: &Stamp, from: u64, upto: u64) -> u64
    requires other { 0 < length chain.now → IsOf reach.now other.now }
    requires class { IsOf reach.now class.now }
    requires forward { from ≤ upto }
    ensures { result ≡ cond (could_test reach.now other.now class.now) (within from upto chain.now) 0 }
{
    let count = chain.count(from, upto);
    if count > 0 && could(reach, other, class) {
        count
    } else {
        0
    }
}

/// Whether one pointstamp could result in another, as a value of truth of the definitions.
fn could(reach: &Reach, from: &Stamp, to: &Stamp) -> bool
    requires from { IsOf reach.now from.now }
    requires to { IsOf reach.now to.now }
    ensures { result ≡ could_test reach.now from.now to.now }
{
    could_tested();
    let _plan = reach.plan().vertices();
    reach.could(from, to)
}

/// Puts an epoch into the chain at a position, or into a new one. Refusal: nothing has changed.
fn put(
    alloc: Global,
    chains: &mut IndexMap<Stamp, Chain>,
    class: &Stamp,
    index: Option<usize>,
    epoch: u64,
    gap: u64,
    times: u64,
) -> Result<(), AllocError>
    requires position { IsPosition class.now chains.old.entries index }
    requires new { has_epoch epoch (chain_at class.now chains.old.entries) ≡ false }
    ensures ok { OnOk result (chains.new.entries ≡ with_stamp class.now epoch (record { gap = gap; times = times }) chains.old.entries) }
    ensures once { OnOk result (IsDistinct is_stamp (keys_of chains.new.entries)) }
    ensures err { OnErr result (chains.new.entries ≡ chains.old.entries) }
{
    if let Some(index) = index {
        return put_at(chains, class, index, epoch, gap, times);
    }
    let mut chain = Chain::new(alloc);
    chain.put(epoch, gap, u128::from(times))?;
    chains.insert(class.copy(), chain)?;
    Ok(())
}

/// Puts an epoch into the chain at a position. Refusal: nothing has changed.
fn put_at(
    chains: &mut IndexMap<Stamp, Chain>,
    class: &Stamp,
    index: usize,
    epoch: u64,
    gap: u64,
    times: u64,
) -> Result<(), AllocError>
    requires position { slice_get (keys_of chains.old.entries) index ≡ Some class.now }
    requires new { has_epoch epoch (chain_at class.now chains.old.entries) ≡ false }
    ensures ok { OnOk result (chains.new.entries ≡ with_stamp class.now epoch (record { gap = gap; times = times }) chains.old.entries) }
    ensures once { OnOk result (IsDistinct is_stamp (keys_of chains.new.entries)) }
    ensures err { OnErr result (chains.new.entries ≡ chains.old.entries) }
{
    match chains.get_index_mut(index) {
        Some(chain) => chain.put(epoch, gap, u128::from(times)),
        None => Ok(()),
    }
}

/// The pointstamp of an epoch, of the chain at a position, occurs this many times more.
fn add_at(
    chains: &mut IndexMap<Stamp, Chain>,
    class: &Stamp,
    index: Option<usize>,
    epoch: u64,
    times: u64,
)
    requires position { IsPosition class.now chains.old.entries index }
    requires there { has_epoch epoch (chain_at class.now chains.old.entries) ≡ true }
    requires fits { times_at epoch (chain_at class.now chains.old.entries) + times < 2 ^ 128 }
    ensures { chains.new.entries ≡ timed_stamp class.now epoch (λ n. n + times) chains.old.entries }
{
    let Some(index) = index else {
        return;
    };
    if let Some(chain) = chains.get_index_mut(index) {
        chain.add(epoch, times);
    }
}

/// The pointstamp of an epoch, of the chain at a position, occurs this many times less.
fn take_off_at(
    chains: &mut IndexMap<Stamp, Chain>,
    class: &Stamp,
    index: Option<usize>,
    epoch: u64,
    times: u64,
)
    requires position { IsPosition class.now chains.old.entries index }
    requires there { has_epoch epoch (chain_at class.now chains.old.entries) ≡ true }
    requires enough { times ≤ times_at epoch (chain_at class.now chains.old.entries) }
    ensures { chains.new.entries ≡ timed_stamp class.now epoch (λ n. n - times) chains.old.entries }
{
    let Some(index) = index else {
        return;
    };
    if let Some(chain) = chains.get_index_mut(index) {
        chain.take_off(epoch, times);
    }
}

/// Takes an epoch out of the chain at a position.
fn take(chains: &mut IndexMap<Stamp, Chain>, class: &Stamp, index: Option<usize>, epoch: u64)
    requires position { IsPosition class.now chains.old.entries index }
    requires there { has_epoch epoch (chain_at class.now chains.old.entries) ≡ true }
    ensures once { IsDistinct is_stamp (keys_of chains.new.entries) }
    ensures entries { chains.new.entries ≡ without_stamp class.now epoch chains.old.entries }
{
    let Some(index) = index else {
        return;
    };
    if let Some(chain) = chains.get_index_mut(index) {
        chain.take(epoch);
    }
}

/// Takes the chain at a position out that has no epochs, where it is in a loop.
fn drop_empty(chains: &mut IndexMap<Stamp, Chain>, class: &Stamp, index: Option<usize>)
    requires position { IsPosition class.now chains.old.entries index }
    requires once { IsDistinct is_stamp (keys_of chains.old.entries) }
    ensures entries { (chains.new.entries ≡ chains.old.entries) ⊎ ((0 < depth class.now.time) × (chain_at class.now chains.old.entries ≡ []) × (chains.new.entries ≡ remove_entry (is_stamp class.now) chains.old.entries)) }
    ensures none { 0 < depth class.now.time → chain_at class.now chains.old.entries ≡ [] → lookup (is_stamp class.now) chains.new.entries ≡ None }
    ensures once { IsDistinct is_stamp (keys_of chains.new.entries) }
{
    let Some(index) = index else {
        return;
    };
    if class.time.depth() == 0 {
        return;
    }
    if is_empty_at(chains, index) {
        chains.shift_remove(class);
    }
}

/// Whether the chain at a position has no epochs.
fn is_empty_at(chains: &IndexMap<Stamp, Chain>, index: usize) -> bool
    ensures { IsTrue result ↔ (slice_get (values_of chains.now.entries) index ≡ Some []) }
{
    match chains.get_index(index) {
        Some((_, chain)) => chain.is_empty(),
        None => false,
    }
}

/// Changes each gap by one that a pointstamp counts in: in each chain that it could result in, the first from its epoch on.
fn step_from(
    ways: &Ways,
    chains: &mut IndexMap<Stamp, Chain>,
    class: &Stamp,
    epoch: u64,
    step: Step,
)
    requires class { IsOf ways.now class.now }
    requires zeroth { class.now.time.epoch ≡ 0 }
    requires each { AllByRecursion (IsOfPlan ways.now) chains.old.entries }
    requires laid { IsLaidOut ways.now (keys_of chains.old.entries) }
    ensures { chains.new.entries ≡ map (shifted ways.now class.now epoch (stepped step)) chains.old.entries }
{
    could_tested();
    could_leads();
    let _plan = ways.reach().plan().vertices();
    step_after(ways, chains, class, epoch, step);
    step_in_loops(ways, chains, class, epoch, step);
}

/// The same of the places to which its own leads, in no loop, where a path is enough.
fn step_after(
    ways: &Ways,
    chains: &mut IndexMap<Stamp, Chain>,
    class: &Stamp,
    epoch: u64,
    step: Step,
)
    requires class { IsOf ways.now class.now }
    requires zeroth { class.now.time.epoch ≡ 0 }
    requires each { AllByRecursion (IsOfPlan ways.now) chains.old.entries }
    requires laid { IsLaidOut ways.now (keys_of chains.old.entries) }
    ensures entries { chains.new.entries ≡ all_shifted_at ways.now class.now epoch (stepped step) (row ways.now Side.After (number_of ways.now class.now.place)) chains.old.entries }
    ensures each { AllByRecursion (IsOfPlan ways.now) chains.new.entries }
{
    in_no_loop();
    could_tested();
    could_leads();
    let _plan = ways.reach().plan().vertices();
    for number in ways.row(Side::After, class.place) {
        step_place(chains, epoch, step, usize::from(*number));
    }
}

/// Changes the first gap from an epoch on, in the chain at a position.
fn step_place(chains: &mut IndexMap<Stamp, Chain>, epoch: u64, step: Step, index: usize)
    ensures { chains.new.entries ≡ changed_in epoch (stepped step) index chains.old.entries }
{
    if let Some(chain) = chains.get_index_mut(index) {
        chain.step_from(epoch, step);
    }
}

/// The same of what stands behind the places in no loop.
fn step_in_loops(
    ways: &Ways,
    chains: &mut IndexMap<Stamp, Chain>,
    class: &Stamp,
    epoch: u64,
    step: Step,
)
    requires class { IsOf ways.now class.now }
    requires each { AllByRecursion (IsOfPlan ways.now) chains.old.entries }
    requires laid { places_of ways.now ≤ length chains.old.entries }
    ensures { chains.new.entries ≡ all_shifted_at ways.now class.now epoch (stepped step) (range_with_len (places_of ways.now) (length chains.old.entries - places_of ways.now)) chains.old.entries }
{
    let len = chains.len();
    for index in usize::from(ways.places())..len {
        step_at(ways, chains, class, epoch, step, index);
    }
}

/// The same of one chain, where its pointstamps could be resulted in.
fn step_at(
    ways: &Ways,
    chains: &mut IndexMap<Stamp, Chain>,
    class: &Stamp,
    epoch: u64,
    step: Step,
    index: usize,
)
    requires class { IsOf ways.now class.now }
    requires each { AllByRecursion (IsOfPlan ways.now) chains.old.entries }
    ensures { chains.new.entries ≡ shifted_at ways.now class.now epoch (stepped step) index chains.old.entries }
{
    if leads_on(ways, chains, class, epoch, index) {
        if let Some(chain) = chains.get_index_mut(index) {
            chain.step_from(epoch, step);
        }
    }
}

/// Whether a chain has an epoch that is not before this one, and could be resulted in.
fn leads_on(
    ways: &Ways,
    chains: &IndexMap<Stamp, Chain>,
    class: &Stamp,
    epoch: u64,
    index: usize,
) -> bool
    requires class { IsOf ways.now class.now }
    requires each { AllByRecursion (IsOfPlan ways.now) chains.now.entries }
    ensures { result ≡ is_ahead ways.now class.now epoch (slice_get chains.now.entries index) }
{
    match chains.get_index(index) {
        Some((other, chain)) => { !chain.is_before(epoch) && could(ways.reach(), class, other) }
        None => false,
    }
}
