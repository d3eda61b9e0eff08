//! What folds left for their keys above the base of a hall. The versions of one vertex and key stand in order, so that each is
//! found by halving.
ghost use Rattle.std.specs.Prelude.{◌≡◌, ◌+◌, ℕ, [], false, filter, map, length, nat_le, nat_lt, None, OnOk, OnErr, IfOk, ◌≢◌, ◌≤◌, ◌↔◌, position, take, drop, IsTrue};
ghost use Rattle.std.specs.Iterator.{at_most, YieldsFirst};
ghost use Rattle.std.specs.List.{AllByRecursion};
ghost use Rattle.std.specs.Map.{keys_of};
ghost use Rattle.td_stamp.specs.Bag.{bag_insert, bag_remove, has, join};
ghost use Rattle.td_stamp.specs.BagLaws.{BagLaws};
ghost use Rattle.td_stamp.specs.Orders.{state_key_cmp};
ghost use Rattle.td_stamp.specs.States.{StateList, AreStates, state_of};
ghost use Rattle.td_batch.specs.Meaning.{with_kept};
ghost use Rattle.td_machine.specs.State.{left_cmp, with_left, state_cmp};
ghost use Rattle.td_shard.specs.Versions.{taken_back, IsLatestAt, version_cmp, latest, up_to, AreKept, with_some, set_there, removed_there, with_changes_back};
ghost use Rattle.std.specs.List.Sorted.{IsPartitionPoint};
ghost use Rattle.std.specs.Option.{option_cmp};
ghost use Rattle.std.specs.Ordering.{is_eq, is_gt};
ghost use Rattle.std.specs.declared.cmp.Ordering.TheVariants.{Greater};
ghost use Rattle.td_stamp.specs.Rises.{Rises};

use std::alloc::Global;
use std::cmp::Ordering;
use std::collections::{HashMap, hash_map};
use std::marker::Model;
use td_machine::StateLeft;
use td_stamp::{StampError as ShardError, State, States};

/// What folds left for their keys, above a base. Contracts see it as the core machine has it: in the order of epochs.
///
/// It is kept by the hash of vertex and key, each with its versions in the order of epochs: a look-up finds the last of them up
/// to its epoch by halving. Their order is an invariant of the type, with no condition on a caller.
#[derive(Drop)]
pub struct Versions {
    versions: HashMap<(u8, u64), Vec<Version>>,
    alloc: Global,
}

impl Model for Versions {
    ghost use Rattle.std.specs.Prelude.{List, map};
    ghost use Rattle.std.specs.HashMap.{IsUnique};
    ghost use Rattle.td_stamp.specs.States.{same_place};
    ghost use Rattle.td_machine.specs.declared.records.StateLeft.{StateLeft};
    ghost use Rattle.td_shard.specs.Versions.{left_in, AreKept};

    ghost Value = { List StateLeft };

    ghost view = { λ v. left_in (map (λ e. (e.0, e.1.items)) v.versions.entries) };

    ghost invariant = { λ v. IsUnique same_place v.versions × AreKept (map (λ e. (e.0, e.1.items)) v.versions.entries) };
}

impl Versions {
    /// Nothing was left yet, in a map that allocates with `alloc`.
    pub fn new(alloc: Global) -> Versions
        ensures { result ≡ [] }
    {
        Versions {
            versions: HashMap::new(alloc),
            alloc,
        }
    }

    /// What the map allocates with.
    pub(crate) fn allocator(&self) -> Global {
        self.alloc
    }

    /// The state of a key after an epoch: what was left last up to it, or else that of the base. Costs O(log v) with v versions of
    /// this key, where its hash is met by few others. Takes no memory.
    pub fn state_at(&self, epoch: u64, vertex: u8, key: u64, base: &States) -> Option<State>
        ensures { result ≡ state_of (with_left base.now (filter (λ k. nat_le k.epoch epoch) self.now)) vertex key }
    {
        // Its contract says that the states stand in order.
        let _in_order = base.len();
        match self.latest_at(epoch, vertex, key) {
            Some(version) => version.state,
            None => base.get(vertex, key),
        }
    }

    /// The last version of a key up to an epoch, if there is one. Costs O(log v) with v versions of this key, where its hash is met by
    /// few others. Takes no memory.
    pub(crate) fn latest_at(&self, epoch: u64, vertex: u8, key: u64) -> Option<Version>
        ensures { IsLatestAt epoch self.now (vertex, key) result }
    {
        version_laws();
        let versions = self.versions.get(&(vertex, key))?;
        latest(versions.as_slice(), epoch)
    }

    /// The vertices and keys for which something was left, each with its last version up to an epoch, if there is one: as they lie, in
    /// no order. Each costs O(log v) with its v versions, and no look-up. Takes no memory.
    pub(crate) fn latest_of_each(&self, epoch: u64) -> LatestOfEach<'_>
        ensures latest { AllByRecursion (λ e. IsLatestAt epoch self.now e.0 e.1) result }
        ensures others { (place : ℕ × ℕ) → has state_key_cmp place (keys_of result) ≡ false → IsLatestAt epoch self.now place None }
    {
        version_laws();
        LatestOfEach {
            versions: self.versions.iter(),
            epoch,
        }
    }

    /// Keeps what folds left. Each costs O(log v) with v versions of its own key, and a move of those of later epochs: of none, where a
    /// key's epochs come in order. Refusal: `Memory`, with nothing changed.
    pub fn leave(&mut self, left: &[StateLeft]) -> Result<(), ShardError>
        ensures ok { OnOk result (self.new ≡ join left_cmp left.now self.old) }
        ensures err { OnErr result (self.new ≡ self.old) }
    {
        version_laws();
        for (count, one) in left.iter().enumerate() {
            if let Err(refused) = self.put(one) {
                self.take_back(&left[..count]);
                return Err(refused);
            }
        }
        Ok(())
    }

    /// The states after an epoch, made of those of the base, with one change for each key. Each key costs O(log v) with its v
    /// versions, and a key that comes or goes O(log n) with n states. Refusal: `Memory`.
    pub fn states_at(&self, epoch: u64, base: States) -> Result<States, ShardError>
        ensures { IfOk result (λ states. states ≡ with_left base (filter (λ k. nat_le k.epoch epoch) self.now)) }
    {
        version_laws();
        let mut states = base;
        // Its contract says that the states stand in order.
        let _in_order = states.list();
        for ((vertex, key), versions) in self.versions.iter() {
            if let Some(version) = latest(versions.as_slice(), epoch) {
                keep(&mut states, *vertex, *key, version.state)?;
            }
        }
        Ok(states)
    }

    /// Has states be those after an epoch, where they stand: with one change for each key. Each key costs O(log v) with its v versions, and
    /// one that comes or goes O(log n) with n states. Refusal: `Memory`, with the states unchanged.
    pub fn bring_up(&self, epoch: u64, states: &mut States) -> Result<(), ShardError>
        ensures ok { OnOk result (states.new ≡ with_left states.old (filter (λ k. nat_le k.epoch epoch) self.now)) }
        ensures err { OnErr result (states.new ≡ states.old) }
    {
        version_laws();
        // Its contract says that the states stand in order.
        let _in_order = states.len();
        let mut before = Vec::with_capacity(self.alloc, self.versions.len())?;
        if let Err(refused) = set_all(&self.versions, epoch, states, &mut before) {
            take_changes_back(states, &mut before);
            return Err(refused);
        }
        remove_all(&self.versions, epoch, states);
        Ok(())
    }

    /// How many states more there may be after what was left, at most: one for each key.
    pub fn places(&self) -> usize
        ensures { (epoch : ℕ) (states : StateList) → AreStates states → length (with_left states (filter (λ k. nat_le k.epoch epoch) self.now)) ≤ length states + result }
    {
        version_laws();
        self.versions.len()
    }

    /// Lets go what was left up to an epoch, and each key that has nothing left. Each key costs O(log v) with its v versions, and
    /// where some of them go a move of the others. Takes no memory.
    pub fn let_go(&mut self, epoch: u64)
        ensures { self.new ≡ filter (λ k. nat_lt epoch k.epoch) self.old }
    {
        version_laws();
        self.versions
            .retain(|_, versions| keep_after(versions, epoch));
    }

    /// Keeps one version, in order among those of its key. Refusal: `Memory`, with nothing changed.
    fn put(&mut self, left: &StateLeft) -> Result<(), ShardError>
        ensures ok { OnOk result (self.new ≡ bag_insert left_cmp left.now self.old) }
        ensures err { OnErr result (self.new ≡ self.old) }
    {
        version_laws();
        let (place, version) = placed(left);
        match self.versions.get_mut(&place) {
            Some(versions) => put_in(versions, version),
            None => {
                let mut versions = Vec::with_capacity(self.alloc, 1)?;
                versions.push_reserved(version);
                self.versions.insert(place, versions)?;
                Ok(())
            }
        }
    }

    /// Takes one version out, if it is there, and its key with the last. Costs what it costs to keep one. Takes no memory.
    fn take_one_back(&mut self, left: &StateLeft)
        ensures { self.new ≡ bag_remove left_cmp left.now self.old }
    {
        version_laws();
        let (place, version) = placed(left);
        let Some(versions) = self.versions.get_mut(&place) else {
            return;
        };
        if take_out(versions, version) {
            self.versions.remove(&place);
        }
    }

    /// Takes these versions out. Takes no memory.
    fn take_back(&mut self, left: &[StateLeft])
        ensures { self.new ≡ taken_back self.old left.now }
    {
        for one in left {
            self.take_one_back(one);
        }
    }
}

/// An iterator over the last version of each vertex and key, up to an epoch.
#[derive(Drop)]
pub(crate) struct LatestOfEach<'a> {
    versions: hash_map::Iter<'a, (u8, u64), Vec<Version>>,
    epoch: u64,
}

impl<'a> Model for LatestOfEach<'a> {
    ghost use Rattle.std.specs.Prelude.{ℕ, List, Option, map};
    ghost use Rattle.td_shard.specs.declared.versions.Version.{Version as OneVersion};
    ghost use Rattle.td_shard.specs.Versions.{AreKept, latest, up_to};

    ghost Value = { List ((ℕ × ℕ) × Option OneVersion) };

    ghost view = { λ s. map (λ e. (e.0, latest (up_to s.epoch e.1.items))) s.versions };

    ghost invariant = { λ s. AreKept (map (λ e. (e.0, e.1.items)) s.versions) };
}

impl<'a> Iterator for LatestOfEach<'a> {
    type Item = ((u8, u64), Option<Version>);

    ghost next_gives = { YieldsFirst (λ s. s) };

    ghost remaining = { λ s. at_most (length s) };

    fn next(&mut self) -> Option<((u8, u64), Option<Version>)> {
        let (place, versions) = self.versions.next()?;
        Some((*place, latest(versions.as_slice(), self.epoch)))
    }
}

/// What was left for keys: of each its versions.
type Left = HashMap<(u8, u64), Vec<Version>>;

/// A vertex and key, and the state that was kept there before, if any.
type Before = ((u8, u64), Option<State>);

/// Sets the states of all keys whose last version up to an epoch is one, and puts down what was kept before. Refusal: `Memory`.
fn set_all(
    left: &Left,
    epoch: u64,
    states: &mut States,
    before: &mut Vec<Before>,
) -> Result<(), ShardError>
    requires { AreKept (map (λ e. (e.0, e.1.items)) left.now.entries) }
    ensures ok { OnOk result (states.new ≡ with_some set_there epoch states.old (map (λ e. (e.0, e.1.items)) left.now.entries)) }
    ensures back { with_changes_back states.new before.new.items ≡ with_changes_back states.old before.old.items }
{
    for ((vertex, key), versions) in left.iter() {
        let Some(version) = latest(versions.as_slice(), epoch) else {
            continue;
        };
        if let Some(state) = version.state {
            before.reserve(1)?;
            let was = states.set(*vertex, *key, state)?;
            before.push_reserved(((*vertex, *key), was));
        }
    }
    Ok(())
}

/// Removes the states of all keys whose last version up to an epoch is none. Takes no memory.
fn remove_all(left: &Left, epoch: u64, states: &mut States)
    requires { AreKept (map (λ e. (e.0, e.1.items)) left.now.entries) }
    ensures { states.new ≡ with_some removed_there epoch states.old (map (λ e. (e.0, e.1.items)) left.now.entries) }
{
    for ((vertex, key), versions) in left.iter() {
        if let Some(Version { state: None, .. }) = latest(versions.as_slice(), epoch) {
            states.remove(*vertex, *key);
        }
    }
}

/// Takes changes of states back, the last first. Takes no memory.
fn take_changes_back(states: &mut States, before: &mut Vec<Before>)
    ensures { states.new ≡ with_changes_back states.old before.old.items }
{
    while let Some(((vertex, key), was)) = before.pop() {
        match was {
            Some(was) => states.replace(vertex, key, was),
            None => {
                states.remove(vertex, key);
            }
        }
    }
}

/// The vertex and key for which something was left, and the version.
fn placed(left: &StateLeft) -> ((u8, u64), Version)
    ensures place { result.0 ≡ (left.now.vertex, left.now.key) }
    ensures version { result.1 ≡ record { epoch = left.now.epoch; state = left.now.state } }
{
    let version = Version {
        epoch: left.epoch,
        state: left.state,
    };
    ((left.vertex, left.key), version)
}

/// Has a vertex keep for a key what was left for it: a state, or none. Refusal: `Memory`.
fn keep(states: &mut States, vertex: u8, key: u64, state: Option<State>) -> Result<(), ShardError>
    ensures { OnOk result (states.new ≡ with_kept states.old vertex key state) }
{
    match state {
        Some(state) => {
            let _before = states.set(vertex, key, state)?;
        }
        None => {
            let _before = states.remove(vertex, key);
        }
    }
    Ok(())
}

/// The laws of what was left, as a bag.
fn version_laws()
    ensures { BagLaws left_cmp }
{
    td_stamp::laws::bags_by_any_order::<StateLeft>();
}

/// What a fold left for a key at an epoch.
#[derive(Clone, Copy, Debug, PartialEq, Eq)]
pub(crate) struct Version {
    pub epoch: u64,
    pub state: Option<State>,
}

impl Version {
    /// Versions are ordered by epoch, and then by state: none, and then by its two numbers.
    fn total_cmp(&self, other: &Version) -> Ordering
        ensures { result ≡ version_cmp self.now other.now }
    {
        let epochs = self.epoch.cmp(&other.epoch);
        epochs.then(compare_states(self.state, other.state))
    }
}

/// The order of states, which have none of their own.
fn compare_states(one: Option<State>, other: Option<State>) -> Ordering
    ensures { result ≡ option_cmp state_cmp one other }
{
    match (one, other) {
        (None, None) => Ordering::Equal,
        (None, Some(_)) => Ordering::Less,
        (Some(_), None) => Ordering::Greater,
        (Some(one), Some(other)) => one.a.cmp(&other.a).then(one.b.cmp(&other.b)),
    }
}

/// How many of these versions are up to an epoch: the first of them. Costs O(log n), and O(1) where all are.
fn count_up_to(versions: &[Version], epoch: u64) -> usize
    requires { Rises version_cmp versions.now }
    ensures within { result ≤ length versions.now }
    ensures before { take result versions.now ≡ up_to epoch versions.now }
    ensures behind { drop result versions.now ≡ filter (λ k. nat_lt epoch k.epoch) versions.now }
{
    if are_up_to(versions, epoch) {
        return versions.len();
    }
    versions.partition_point(|version| version.epoch <= epoch)
}

/// Whether all of these versions are up to an epoch.
fn are_up_to(versions: &[Version], epoch: u64) -> bool
    requires { Rises version_cmp versions.now }
    ensures { IsTrue result ↔ AllByRecursion (λ v. v.epoch ≤ epoch) versions.now }
{
    match versions.last() {
        Some(last) => last.epoch <= epoch,
        None => true,
    }
}

/// The last version up to an epoch. Costs O(log n).
pub(crate) fn latest(versions: &[Version], epoch: u64) -> Option<Version>
    requires { Rises version_cmp versions.now }
    ensures { result ≡ latest (up_to epoch versions.now) }
{
    let count = count_up_to(versions, epoch);
    versions[..count].last().copied()
}

/// The place for a version among these: behind all that are below it. Costs O(log n), and O(1) where all are of earlier epochs.
fn place_for(versions: &[Version], version: Version) -> usize
    requires { Rises version_cmp versions.now }
    ensures within { result ≤ length versions.now }
    ensures place { IsPartitionPoint (λ k. version_cmp version k ≡ Greater) (λ k. is_gt (version_cmp version k) ≡ false) versions.now result }
{
    if version.epoch > 0 && are_up_to(versions, version.epoch - 1) {
        return versions.len();
    }
    versions.partition_point(|kept| version.total_cmp(kept).is_gt())
}

/// Where a version stands. Costs O(log n).
fn place_of(versions: &[Version], version: Version) -> Option<usize>
    requires { Rises version_cmp versions.now }
    ensures { result ≡ position (λ k. is_eq (version_cmp version k)) versions.now }
{
    let place = place_for(versions, version);
    let kept = versions.get(place)?;
    version.total_cmp(kept).is_eq().then_some(place)
}

/// Puts a version in at its place. Costs O(log n), and a move of those behind it. Refusal: `Memory`, with nothing changed.
pub(crate) fn put_in(versions: &mut Vec<Version>, version: Version) -> Result<(), ShardError>
    requires { Rises version_cmp versions.old.items }
    ensures ok { OnOk result (versions.new.items ≡ bag_insert version_cmp version versions.old.items) }
    ensures err { OnErr result (versions.new.items ≡ versions.old.items) }
{
    let place = place_for(versions.as_slice(), version);
    versions.insert(place, version)?;
    Ok(())
}

/// Takes a version out, and says whether none is left. Costs O(log n), and a move of those behind it. Takes no memory.
pub(crate) fn take_out(versions: &mut Vec<Version>, version: Version) -> bool
    requires { Rises version_cmp versions.old.items }
    ensures left { versions.new.items ≡ bag_remove version_cmp version versions.old.items }
    ensures none { IsTrue result ↔ (versions.new.items ≡ []) }
{
    if let Some(place) = place_of(versions.as_slice(), version) {
        versions.remove(place);
    }
    versions.is_empty()
}

/// Lets versions go, up to an epoch, and says whether some are left. Costs O(log n), and where some go a move of the others.
/// Takes no memory.
pub(crate) fn keep_after(versions: &mut Vec<Version>, epoch: u64) -> bool
    requires { Rises version_cmp versions.old.items }
    ensures left { versions.new.items ≡ filter (λ k. nat_lt epoch k.epoch) versions.old.items }
    ensures some { IsTrue result ↔ (versions.new.items ≢ []) }
{
    let count = count_up_to(versions.as_slice(), epoch);
    drop(versions.drain(..count));
    !versions.is_empty()
}
