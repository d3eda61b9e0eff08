//! Could-result-in.
ghost use Rattle.std.specs.Prelude.{◌≡◌, ◌<◌, ◌↔◌, IsTrue, IfOk, length, Some};
ghost use Rattle.td_plan.specs.Blocks.{vertices, edges};
ghost use Rattle.td_plan.specs.Faults.{IsPlan};
ghost use Rattle.td_reach.specs.Paths.{HasPlace, IsOf, Leads, Could};
ghost use Rattle.td_reach.specs.Tables.{least_effect, first_vertex, last_vertex, effect_to, is_same_edge, could_test};
ghost use Rattle.td_reach.specs.Tables.{leads_test, reading_depth, is_of_test};

use crate::laws::could_tested;
use crate::stamp::{Place, Stamp};
use crate::summary::Summary;
use crate::table::{closed_table, entry_at, over, through};
use std::alloc::Global;
use std::marker::Model;
use td_plan::Plan;
use td_stamp::StampError as ReachError;

/// A plan, with the first effect of the paths from each of its vertices to each. Contracts see the plan.
#[derive(Drop)]
pub struct Reach {
    plan: Plan,
    table: Vec<Option<Summary>>,
}

impl Model for Reach {
    ghost use Rattle.std.specs.Prelude.{List};
    ghost use Rattle.td_plan.specs.Lines.{Line};

    ghost Value = { List Line };

    ghost use Rattle.td_reach.specs.Tables.{IsTableOf};

    ghost view = { λ r. r.plan };

    ghost invariant = { λ r. IsTableOf r.plan r.table.items };
}

impl Reach {
    /// The table of a plan, of which it keeps a copy. Refusal: `Memory`.
    pub fn of(alloc: Global, plan: &Plan) -> Result<Reach, ReachError>
        ensures { IfOk result (λ reach. reach ≡ plan.now) }
    {
        let table = closed_table(alloc, plan)?;
        match plan.copy() {
            Ok(plan) => Ok(Reach { plan, table }),
            Err(_) => Err(ReachError::Memory),
        }
    }

    /// The plan.
    pub fn plan(&self) -> &Plan
        ensures { result.now ≡ self.now }
    {
        &self.plan
    }

    /// Whether the plan has the place of a pointstamp, and its time is in as many loops as are open there. A caller with a plan
    /// from a text cannot show the condition of `could` without it.
    pub fn has(&self, stamp: &Stamp) -> bool
        ensures { IsTrue result ↔ IsOf self.now stamp.now }
    {
        self.fits(stamp)
    }

    /// What the plan's vertices answer to that.
    fn fits(&self, stamp: &Stamp) -> bool
        ensures value { result ≡ is_of_test self.now stamp.now }
        ensures lawful { IsPlan self.now }
    {
        match self.first_vertex(stamp.place) {
            Some(vertex) => match self.reading_depth(vertex) {
                Some(depth) => depth == stamp.time.depth(),
                None => false,
            },
            None => false,
        }
    }

    /// How many loops are open where a vertex reads.
    fn reading_depth(&self, vertex: usize) -> Option<usize>
        ensures { result ≡ reading_depth self.now vertex }
    {
        match self.plan.vertices().get(vertex) {
            Some(vertex) => Some(vertex.reads_on().len()),
            None => None,
        }
    }

    /// Whether some path of the plan leads from one of its places to another. Where none does, no pointstamp at the one could
    /// result in any at the other.
    pub fn leads(&self, from: Place, to: Place) -> bool
        requires from { HasPlace self.now from }
        requires to { HasPlace self.now to }
        ensures { IsTrue result ↔ Leads self.now from to }
    {
        could_tested();
        self.finds(from, to)
    }

    /// What the table answers to that.
    fn finds(&self, from: Place, to: Place) -> bool
        requires from { HasPlace self.now from }
        requires to { HasPlace self.now to }
        ensures value { result ≡ leads_test self.now from to }
        ensures lawful { IsPlan self.now }
    {
        let first = self.first_vertex(from);
        if is_same_edge(from, to) {
            return true;
        }
        match (first, self.last_vertex(to)) {
            (Some(first), Some(last)) => self.least(first, last).is_some(),
            _ => false,
        }
    }

    /// Whether one pointstamp could result in another: some path of the plan turns its time into one that is at most the
    /// other's. It takes no memory. Each is at a vertex or an edge of the plan, and its time is in as many loops as are
    /// open where the vertex reads, or where the edge's source is read.
    pub fn could(&self, from: &Stamp, to: &Stamp) -> bool
        requires from { IsOf self.now from.now }
        requires to { IsOf self.now to.now }
        ensures { IsTrue result ↔ Could self.now from.now to.now }
    {
        could_tested();
        self.answer(from, to)
    }

    /// What the table answers.
    fn answer(&self, from: &Stamp, to: &Stamp) -> bool
        requires from { IsOf self.now from.now }
        requires to { IsOf self.now to.now }
        ensures value { result ≡ could_test self.now from.now to.now }
        ensures lawful { IsPlan self.now }
    {
        let first = self.first_vertex(from.place);
        if is_same_edge(from.place, to.place) && from.time.le(&to.time) {
            return true;
        }
        match first {
            Some(first) => match self.effect_to(first, to) {
                Some(effect) => effect.turns_to(&from.time, &to.time),
                None => false,
            },
            None => false,
        }
    }

    /// The vertex at which paths from a place begin.
    fn first_vertex(&self, place: Place) -> Option<usize>
        ensures value { result ≡ first_vertex self.now place }
        ensures lawful { IsPlan self.now }
    {
        let edges = self.plan.edges();
        match place {
            Place::Vertex(vertex) => Some(usize::from(vertex)),
            Place::Edge(edge) => match edges.get(usize::from(edge)) {
                Some(edge) => Some(usize::from(edge.reader)),
                None => None,
            },
        }
    }

    /// The vertex over which paths to a place end.
    fn last_vertex(&self, place: Place) -> Option<usize>
        ensures { result ≡ last_vertex self.now place }
    {
        match place {
            Place::Vertex(vertex) => Some(usize::from(vertex)),
            Place::Edge(edge) => match self.plan.edges().get(usize::from(edge)) {
                Some(edge) => Some(usize::from(edge.source)),
                None => None,
            },
        }
    }

    /// The first effect of the paths from one vertex to another.
    fn least(&self, from: usize, to: usize) -> Option<Summary>
        requires from { from < length (vertices self.now) }
        requires to { to < length (vertices self.now) }
        ensures { result ≡ least_effect self.now from to }
    {
        entry_at(self.table.as_slice(), self.plan.vertices().len(), from, to)
    }

    /// The first effect of the paths from a vertex to the place of a pointstamp.
    fn effect_to(&self, from: usize, to: &Stamp) -> Option<Summary>
        requires from { from < length (vertices self.now) }
        requires to { IsOf self.now to.now }
        ensures { result ≡ effect_to self.now from to.now.place }
    {
        match to.place {
            Place::Vertex(vertex) => self.least(from, usize::from(vertex)),
            Place::Edge(edge) => match self.plan.edges().get(usize::from(edge)) {
                Some(edge) => {
                    let source = usize::from(edge.source);
                    through(self.least(from, source), Some(over(&self.plan, source)))
                }
                None => None,
            },
        }
    }
}

/// Whether both are places on one edge.
fn is_same_edge(from: Place, to: Place) -> bool
    ensures { result ≡ is_same_edge from to }
{
    match (from, to) {
        (Place::Edge(e), Place::Edge(f)) => e == f,
        _ => false,
    }
}
