//! The places of a plan by number, and which of them lead to which.
ghost use Rattle.std.specs.Prelude.{◌≡◌, ◌^◌, ◌<◌, IfOk};
ghost use Rattle.td_reach.specs.Paths.{HasPlace};
ghost use Rattle.td_progress.specs.Ways.{places_of, place_at, number_of, outside, is_way, is_on, row, rows};

use std::alloc::{AllocError, Global};
use std::marker::Model;
use td_reach::laws::could_tested;
use td_reach::{Place, Reach, Stamp};
use td_stamp::Time;

/// The places that lead to one, or those to which it leads: itself among both.
#[derive(Clone, Copy, Debug, PartialEq, Eq)]
pub(crate) enum Side {
    /// Those that lead there.
    Before,
    /// Those to which it leads.
    After,
}

/// Numbers of places, in order.
#[derive(Drop)]
struct Numbers {
    numbers: Vec<u16>,
}

impl Model for Numbers {
    ghost use Rattle.std.specs.Prelude.{ℕ, List};

    ghost Value = { List ℕ };

    ghost view = { λ n. n.numbers.items };
}

impl Numbers {
    /// The numbers.
    fn as_slice(&self) -> &[u16]
        ensures { result.now ≡ self.now }
    {
        self.numbers.as_slice()
    }
}

/// A plan, with what could result in what, and with the places that lead to each of its places and those to which it leads.
/// Contracts see the plan.
///
/// A plan has at most 64 vertices and 128 edges, so at most 192 places, each with two rows of numbers of 2 bytes. These are at
/// most 147 KB, and 73,728 look-ups in the table of effects, once for a table of pointstamps.
#[derive(Drop)]
pub(crate) struct Ways {
    reach: Reach,
    before: Vec<Numbers>,
    after: Vec<Numbers>,
}

impl Model for Ways {
    ghost use Rattle.std.specs.Prelude.{List};
    ghost use Rattle.td_plan.specs.Lines.{Line};
    ghost use Rattle.td_progress.specs.Ways.{AreWays};

    ghost Value = { List Line };

    ghost view = { λ w. w.reach };

    ghost invariant = { λ w. AreWays w.reach w.before.items w.after.items };
}

impl Ways {
    /// Those of a plan.
    pub(crate) fn of(alloc: Global, reach: Reach) -> Result<Ways, AllocError>
        ensures { IfOk result (λ ways. ways ≡ reach) }
    {
        let before = rows(alloc, &reach, Side::Before)?;
        let after = rows(alloc, &reach, Side::After)?;
        Ok(Ways {
            reach,
            before,
            after,
        })
    }

    /// The plan, with what could result in what.
    pub(crate) fn reach(&self) -> &Reach
        ensures { result.now ≡ self.now }
    {
        &self.reach
    }

    /// How many places have a number.
    pub(crate) fn places(&self) -> u16
        ensures { result ≡ places_of self.now }
    {
        places(&self.reach)
    }

    /// The pointstamp of epoch 0, in no loop, at the place of a number.
    pub(crate) fn outside(&self, number: u16) -> Stamp
        requires { number < places_of self.now }
        ensures { result ≡ outside self.now number }
    {
        Stamp {
            time: Time::new(0),
            place: place_at(&self.reach, number),
        }
    }

    /// The number of a place.
    pub(crate) fn number(&self, place: Place) -> usize
        requires { HasPlace self.now place }
        ensures is { result ≡ number_of self.now place }
        ensures within { result < places_of self.now }
    {
        number_of(&self.reach, place)
    }

    /// The numbers of the places on one side of a place.
    pub(crate) fn row(&self, side: Side, place: Place) -> &[u16]
        requires { HasPlace self.now place }
        ensures { result.now ≡ row self.now side (number_of self.now place) }
    {
        self.rows(side)[number_of(&self.reach, place)].as_slice()
    }

    /// Those of all places.
    fn rows(&self, side: Side) -> &[Numbers]
        ensures { result.now ≡ rows self.now side }
    {
        match side {
            Side::Before => self.before.as_slice(),
            Side::After => self.after.as_slice(),
        }
    }
}

/// How many places of a plan have a number. Edges are numbered up to 256, as a `u8` names them: the limit of 128 is no clause of
/// td_plan, and none is needed.
fn places(reach: &Reach) -> u16
    ensures { result ≡ places_of reach.now }
{
    let plan = reach.plan();
    plan.vertices().len() as u16 + plan.edges().len().min(256) as u16
}

/// The place of a number.
fn place_at(reach: &Reach, number: u16) -> Place
    requires { number < places_of reach.now }
    ensures is { result ≡ place_at reach.now number }
    ensures there { HasPlace reach.now result }
{
    let vertices = reach.plan().vertices().len() as u16;
    if number < vertices {
        Place::Vertex(number as u8)
    } else {
        Place::Edge((number - vertices) as u8)
    }
}

/// The number of a place.
fn number_of(reach: &Reach, place: Place) -> usize
    requires { HasPlace reach.now place }
    ensures value { result ≡ number_of reach.now place }
    ensures within { result < places_of reach.now }
    ensures fits { result < 2 ^ 16 }
{
    match place {
        Place::Vertex(vertex) => usize::from(vertex),
        Place::Edge(edge) => reach.plan().vertices().len() + usize::from(edge),
    }
}

/// Whether a path leads from the place of one number to that of another.
fn is_way(reach: &Reach, from: u16, to: u16) -> bool
    requires from { from < places_of reach.now }
    requires to { to < places_of reach.now }
    ensures { result ≡ is_way reach.now from to }
{
    could_tested();
    let _plan = reach.plan().vertices();
    reach.leads(place_at(reach, from), place_at(reach, to))
}

/// Whether another place is on this side of one.
fn is_on(reach: &Reach, side: Side, at: u16, other: u16) -> bool
    requires at { at < places_of reach.now }
    requires other { other < places_of reach.now }
    ensures { result ≡ is_on reach.now side at other }
{
    match side {
        Side::Before => is_way(reach, other, at),
        Side::After => is_way(reach, at, other),
    }
}

/// The places on one side of a place.
fn row(alloc: Global, reach: &Reach, side: Side, at: u16) -> Result<Numbers, AllocError>
    requires { at < places_of reach.now }
    ensures { IfOk result (λ r. r ≡ row reach.now side at) }
{
    let mut numbers = Vec::new(alloc);
    for other in 0..places(reach) {
        if is_on(reach, side, at, other) {
            numbers.push(other)?;
        }
    }
    Ok(Numbers { numbers })
}

/// Those of all places.
fn rows(alloc: Global, reach: &Reach, side: Side) -> Result<Vec<Numbers>, AllocError>
    ensures { IfOk result (λ found. found.items ≡ rows reach.now side) }
{
    let mut found = Vec::new(alloc);
    for at in 0..places(reach) {
        found.push(row(alloc, reach, side, at)?)?;
    }
    Ok(found)
}
