//! The hall, what it is made of, and opening one. What is looked up of each vertex of the plan is looked up once then, so a task
//! costs no walk over the plan's edges.
ghost use Rattle.std.specs.Prelude.{◌≡◌, ◌≤◌, IfOk, IfErr, length, replicate, ◌<◌, unwrap_or};
ghost use Rattle.td_machine.specs.Active.{inputs_of};
ghost use Rattle.td_machine.specs.Steps.{opened, ends, sending_times, again_below};
ghost use Rattle.td_core.specs.Parts.{empty_shard};
ghost use Rattle.td_core.specs.declared.error.HallError.TheVariants.{Memory};
ghost use Rattle.std.specs.List.{slice_get};
ghost use Rattle.std.specs.Option.{option_to_list};
ghost use Rattle.td_stamp.specs.Time.{depth, leave};
ghost use Rattle.td_plan.specs.declared.vertex.Kind.TheVariants.{Enter};
ghost use Rattle.td_plan.specs.Blocks.{bounds, edge_at};
ghost use Rattle.td_plan.specs.LookedUp.{IsLookedUp};
ghost use Rattle.td_core.specs.Routes.{IsRoute, IsRoutes, outlets_of, kind_in, bound_in, outlets_in, edge_in};

use crate::collect::Outputs;
use crate::error::HallError;
use std::alloc::{AllocError, Global};
use std::collections::VecDeque;
use std::marker::{Model, PhantomData};
use td_calls::Law;
use td_machine::laws::{active_of_plan, reached};
use td_plan::laws::{edges_by_number, look_ups, read_there};
use td_plan::{Kind, Plan, Vertex};
use td_progress::Table;
use td_reach::Reach;
use td_shard::{Outlet, Seen, Shard, Versions};
use td_stamp::{Batch, States, Time};
use td_task::Task;

/// The engine on one thread: batches are released into it epoch by epoch, its shards' tasks are taken, run and given back in
/// any order, and what came to the outputs of epochs that have passed is collected (Naiad, sections 2.2 and 2.3).
///
/// Contracts see the state of the core machine, and each call is one of its steps. By its type each hall is in a state that plays
/// reach: so its outputs and its states are those of the batch meaning. A step from such a state leads to one
/// (`td_machine::laws::reached`), so a call that keeps its step keeps the invariant.
#[derive(Drop)]
pub struct Hall<L: Law> {
    pub(crate) parts: Parts,
    pub(crate) law: PhantomData<L>,
}

impl<L: Law> Model for Hall<L> {
    ghost use Rattle.td_machine.specs.State.{HallState};
    ghost use Rattle.td_core.specs.Parts.{state_of, IsHall};

    ghost Value = { HallState };

    ghost view = { λ h. state_of h.parts };

    ghost invariant = { λ h. IsHall L.answers h.parts };
}

impl<L: Law> Hall<L> {
    /// The plan.
    pub fn plan(&self) -> &Plan
        ensures { result.now ≡ self.now.plan }
    {
        self.parts.table.plan()
    }

    /// The epoch up to which all is let go, and the states after it.
    pub fn base(&self) -> (u64, &States)
        ensures epoch { result.0 ≡ self.now.base }
        ensures states { result.1.now ≡ self.now.base_states }
    {
        (self.parts.base, &self.parts.states)
    }

    /// The batches that were released since the base.
    pub fn inputs(&self) -> &VecDeque<Batch>
        ensures { result.now.items ≡ self.now.batches }
    {
        &self.parts.batches
    }

    /// The last epoch that was collected.
    pub fn collected(&self) -> u64
        ensures { result ≡ self.now.collected }
    {
        self.parts.collected
    }

    /// How many tasks were taken.
    pub fn taken(&self) -> u64
        ensures { result ≡ self.now.taken }
    {
        self.parts.taken
    }

    /// How many tasks were given.
    pub fn given(&self) -> u64
        ensures { result ≡ self.now.given }
    {
        self.parts.given
    }

    /// How many shards there are.
    pub fn workers(&self) -> u8
        ensures { result ≡ self.now.workers }
    {
        self.parts.shards.len() as u8
    }

    /// Whether the inputs are closed.
    pub fn is_closed(&self) -> bool
        ensures { result ≡ self.now.closed }
    {
        self.parts.closed
    }
}

/// The parts of a hall. `Hall` is these with the law. So what a call does to the parts is a contract on plain values, and the
/// hall's invariant (`IsHall`) is stated once.
#[derive(Drop)]
pub(crate) struct Parts {
    /// The plan, and the active pointstamps.
    pub table: Table,
    /// The ways through its vertices.
    pub routes: Routes,
    /// The numbers of the plan's inputs.
    pub inputs: Vec<u8>,
    /// The epoch up to which all is let go, and the states after it.
    pub base: u64,
    pub states: States,
    /// The batches of the epochs after it.
    pub batches: VecDeque<Batch>,
    /// The number that the next batch gets.
    pub next: u64,
    pub closed: bool,
    pub shards: Vec<Shard>,
    pub seen: Seen,
    pub versions: Versions,
    /// The tasks that are out, by number.
    pub out: Vec<Task>,
    pub outputs: Outputs,
    pub collected: u64,
    /// How many tasks were taken, and how many given.
    pub taken: u64,
    pub given: u64,
    pub alloc: Global,
}

impl<L: Law> Hall<L> {
    /// A hall of this plan, of which it keeps a copy, with so many shards. Nothing is released yet: the first batch gets the
    /// number `first`, and `base` are the states after the epoch before it. Refusal: `Memory`.
    ///
    /// It costs what could-result-in costs: n³ with n vertices.
    pub fn open(
        alloc: Global,
        plan: &Plan,
        base: States,
        first: u64,
        workers: u8,
    ) -> Result<Hall<L>, HallError>
        requires first { 1 ≤ first }
        requires numbers { first ≤ ends }
        requires some { 1 ≤ workers }
        requires few { workers ≤ 16 }
        ensures opened { IfOk result (λ hall. hall ≡ opened plan.now base first workers) }
        ensures memory { IfErr result (λ e. e ≡ Memory) }
    {
        reached::<L>();
        active_of_plan::<L>();
        let _ = plan.vertices();
        let _ = base.list();
        let inputs = inputs_of_plan(alloc, plan)?;
        let reach = Reach::of(alloc, plan)?;
        let routes = Routes::of(alloc, plan)?;
        let table = Table::new(alloc, reach, inputs.as_slice(), first)?;
        let shards = empty_shards(alloc, workers)?;
        Ok(Hall {
            parts: Parts {
                table,
                routes,
                inputs,
                base: first - 1,
                states: base,
                batches: VecDeque::new(alloc),
                next: first,
                closed: false,
                shards,
                seen: Seen::new(alloc),
                versions: Versions::new(alloc),
                out: Vec::new(alloc),
                outputs: Outputs::new(alloc),
                collected: first - 1,
                taken: 0,
                given: 0,
                alloc,
            },
            law: PhantomData,
        })
    }
}

/// The numbers of a plan's inputs.
fn inputs_of_plan(alloc: Global, plan: &Plan) -> Result<Vec<u8>, AllocError>
    ensures { IfOk result (λ inputs. inputs.items ≡ inputs_of plan.now) }
{
    plan.vertices()
        .iter()
        .filter(|v| v.is_input())
        .map(|v| v.number())
        .collect(alloc)
}

/// So many shards in which nothing waits.
fn empty_shards(alloc: Global, workers: u8) -> Result<Vec<Shard>, AllocError>
    ensures { IfOk result (λ shards. shards.items ≡ replicate workers empty_shard) }
{
    let mut shards = Vec::with_capacity(alloc, workers as usize)?;
    for _shard in 0..workers {
        shards.push_reserved(Shard::new(alloc));
    }
    Ok(shards)
}

/// The way through a vertex: what it does to a time, and the edges in and out.
#[derive(Drop)]
pub(crate) struct Route {
    pub kind: Kind,
    /// The bound of the loop in which it stands, 0 outside all loops.
    pub bound: u16,
    /// The number of the edge to its port 0.
    pub first: u8,
    pub outlets: Vec<Outlet>,
}

/// The way through each vertex of a plan, by its number.
#[derive(Drop)]
pub(crate) struct Routes {
    pub by_vertex: Vec<Route>,
    /// How many edges there are.
    pub edges: u8,
}

impl Routes {
    /// What is looked up of a plan. It costs v × e steps, with v vertices and e edges. Refusal: an allocation was refused.
    pub fn of(alloc: Global, plan: &Plan) -> Result<Routes, AllocError>
        ensures { IfOk result (IsRoutes plan.now) }
    {
        look_ups();
        read_there();
        edges_by_number();
        let vertices = plan.vertices();
        let mut routes = Vec::with_capacity(alloc, vertices.len())?;
        let mut first: u8 = 0;
        for vertex in vertices {
            routes.push_reserved(route_of(alloc, plan, vertex, first)?);
            first += vertex.source_count() as u8;
        }
        Ok(Routes {
            by_vertex: routes,
            edges: first,
        })
    }

    /// The kind of a vertex; a number that has none is taken for an input.
    pub fn kind(&self, vertex: u8) -> Kind
        ensures { result ≡ kind_in self.now vertex }
    {
        match self.by_vertex.get(usize::from(vertex)) {
            Some(route) => route.kind,
            None => Kind::Input,
        }
    }

    /// The edges out of a vertex, in the order of their numbers.
    pub fn outlets(&self, vertex: u8) -> &[Outlet]
        ensures { result.now ≡ outlets_in self.now vertex }
    {
        match self.by_vertex.get(usize::from(vertex)) {
            Some(route) => route.outlets.as_slice(),
            None => &[],
        }
    }

    /// The number of the edge to a port of a vertex.
    pub fn edge(&self, vertex: u8, port: u8) -> u8
        requires { edge_in self.now vertex port < 256 }
        ensures { result ≡ edge_in self.now vertex port }
    {
        match self.by_vertex.get(usize::from(vertex)) {
            Some(route) => route.first + port,
            None => self.edges + port,
        }
    }

    /// The time at which a vertex sends what it was given at a time. There is none at a feedback in the last turn of its loop.
    pub fn sending_time(&self, vertex: u8, time: &Time) -> Option<Time>
        requires { kind_in self.now vertex ≡ Enter → depth time.now < 3 }
        ensures { option_to_list result ≡ sending_times (kind_in self.now vertex) (bound_in self.now vertex) time.now }
    {
        match self.kind(vertex) {
            Kind::Enter => Some(time.enter()),
            Kind::Leave => Some(left(time)),
            Kind::Feedback => again_below(self.bound(vertex), time),
            _ => Some(time.copy()),
        }
    }

    /// The bound of the loop in which a vertex stands, 0 outside all loops.
    fn bound(&self, vertex: u8) -> u16
        ensures { result ≡ bound_in self.now vertex }
    {
        match self.by_vertex.get(usize::from(vertex)) {
            Some(route) => route.bound,
            None => 0,
        }
    }
}

/// What is looked up of a vertex of a plan, where `first` is the number of the edge to its port 0.
fn route_of(alloc: Global, plan: &Plan, vertex: &Vertex, first: u8) -> Result<Route, AllocError>
    requires there { IsLookedUp plan.now vertex.now.vertex.number vertex.now }
    requires first { first ≡ edge_at plan.now vertex.now.vertex.number 0 }
    ensures { IfOk result (IsRoute plan.now vertex.now.vertex.number) }
{
    let outlets = outlets_of(alloc, plan, vertex.number())?;
    Ok(Route {
        kind: vertex.kind(),
        bound: bound_of(vertex),
        first,
        outlets,
    })
}

/// The bound of the loop in which a vertex stands, 0 outside all loops.
fn bound_of(vertex: &Vertex) -> u16
    ensures { result ≡ unwrap_or (slice_get (bounds vertex.now.loops) 0) 0 }
{
    match vertex.loops().last() {
        Some(innermost) => innermost.bound,
        None => 0,
    }
}

/// The edges out of a vertex.
fn outlets_of(alloc: Global, plan: &Plan, vertex: u8) -> Result<Vec<Outlet>, AllocError>
    ensures { IfOk result (λ outlets. outlets.items ≡ outlets_of plan.now vertex) }
{
    edges_by_number();
    let _ = plan.vertices();
    let edges = plan.edges();
    let mut outlets = Vec::new(alloc);
    for (number, edge) in edges.iter().enumerate() {
        if edge.source == vertex {
            outlets.push(Outlet {
                number: number as u8,
                reader: edge.reader,
                port: edge.port,
            })?;
        }
    }
    Ok(outlets)
}

/// A time without the counter of its innermost loop, if it is in one.
fn left(time: &Time) -> Time
    ensures { result ≡ leave time.now }
{
    if time.depth() == 0 {
        time.copy()
    } else {
        time.leave()
    }
}

/// A time once more round its innermost loop, if it is in one and this turn is not the last.
fn again_below(bound: u16, time: &Time) -> Option<Time>
    ensures { option_to_list result ≡ again_below bound time.now time.now.turns }
{
    let turn = *time.turns().last()?;
    if turn < u32::from(bound) && turn + 1 < u32::from(bound) {
        Some(time.again())
    } else {
        None
    }
}
