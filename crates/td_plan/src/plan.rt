//! Plans.
ghost use Rattle.std.specs.Prelude.{◌≡◌, ◌≤◌, ◌⊎◌, ◌↔◌, IsTrue, All, length, flat_map, IfOk, IfErr, string_bytes, true};
ghost use Rattle.std.specs.Bool.{OnTrue};
ghost use Rattle.std.specs.List.{list_all};
ghost use Rattle.td_plan.specs.Lines.{text_of};
ghost use Rattle.td_plan.specs.Blocks.{vertices, edges, edges_to, loops};
ghost use Rattle.td_plan.specs.Faults.{most_vertices, IsPlan};
ghost use Rattle.td_plan.specs.Inputs.{is_input_of};
ghost use Rattle.td_plan.specs.Texts.{PlanText, PlanFault};
ghost use Rattle.td_plan.specs.Extents.{blocks_of};
ghost use Rattle.td_plan.specs.Marks.{lines_of_marks, AreMarked};
ghost use Rattle.td_plan.specs.Steps.Inside.{is_narrow};

use crate::error::PlanError;
use crate::extents::{Block, Found};
use crate::mark::Mark;
use crate::printer::print;
use crate::reader::{Draft, read_draft};
use crate::same::{are_same_marks, are_same_vertices};
use crate::scope::Standing;
use crate::vertex::{Edge, Loop, Vertex};
use std::alloc::Global;
use std::marker::Model;
use td_stamp::Batch;

/// A plan: vertices in the order of their numbers, and the loops in which they stand. Contracts see the list of its
/// lines.
///
/// Look-ups go by place: vertex v is the v-th. So the rule on edges is one test, whether the vertex of this number is read on
/// this block.
#[derive(Drop)]
pub struct Plan {
    marks: Vec<Mark>,
    vertices: Vec<Vertex>,
    edges: Vec<Edge>,
    loops: Vec<Loop>,
    alloc: Global,
}

impl Model for Plan {
    ghost use Rattle.std.specs.Prelude.{List, ◌≡◌};
    ghost use Rattle.td_plan.specs.Lines.{Line};

    ghost Value = { List Line };

    ghost use Rattle.td_plan.specs.Marks.{lines_of_marks};
    ghost use Rattle.td_plan.specs.Steps.Inside.{IsKept};

    ghost view = { λ p. lines_of_marks p.marks.items p.vertices.items };

    ghost invariant = { λ p. IsKept (lines_of_marks p.marks.items p.vertices.items) p.marks.items p.vertices.items p.edges.items p.loops.items };
}

impl Plan {
    /// The plan that a text spells. Refusals: why the text spells none; `Memory`, only where a growth was refused.
    pub fn read(alloc: Global, text: &str) -> Result<Plan, PlanError>
        ensures ok { IfOk result (λ plan. PlanText text.now plan) }
        ensures refused { IfErr result (λ e. (e ≡ PlanError.Memory) ⊎ PlanFault text.now e) }
    {
        Plan::of(alloc, read_draft(alloc, text)?)
    }

    /// The plan of which these are the lines. Refusal: `Memory`.
    fn of(alloc: Global, draft: Draft) -> Result<Plan, PlanError>
        requires { IsPlan draft.lines }
        ensures ok { IfOk result (λ plan. plan ≡ draft.lines) }
        ensures err { IfErr result (λ e. e ≡ PlanError.Memory) }
    {
        let Draft {
            marks,
            scope,
            loops,
            feedbacks: _,
        } = draft;
        let vertices = narrow(alloc, scope.vertices())?;
        let edges = edges_to(alloc, vertices.as_slice())?;
        Ok(Plan {
            marks,
            vertices,
            edges,
            loops,
            alloc,
        })
    }

    /// The vertices, in the order of their numbers.
    pub fn vertices(&self) -> &[Vertex]
        ensures all { result.now ≡ vertices self.now }
        ensures lawful { IsPlan self.now }
        ensures few { length result.now ≤ most_vertices }
    {
        self.vertices.as_slice()
    }

    /// The edges, by reader and then port.
    pub fn edges(&self) -> &[Edge]
        ensures { result.now ≡ edges self.now }
    {
        self.edges.as_slice()
    }

    /// The lines of the plan, in order: each mark for a vertex stands for the next of `vertices`.
    pub fn marks(&self) -> &[Mark]
        ensures lines { lines_of_marks result.now (vertices self.now) ≡ self.now }
        ensures marked { AreMarked result.now (vertices self.now) }
    {
        self.marks.as_slice()
    }

    /// The loops, in the order in which they begin.
    pub fn loops(&self) -> &[Loop]
        ensures { result.now ≡ loops self.now }
    {
        self.loops.as_slice()
    }

    /// The blocks of the loops, in the order in which they begin, each with its loop's bound and the vertices that stand in
    /// it. The outermost block is none of them. Refusal: `Memory`.
    pub fn blocks(&self) -> Result<Vec<Block>, PlanError>
        ensures ok { IfOk result (λ blocks. blocks.items ≡ blocks_of self.now) }
        ensures err { IfErr result (λ e. e ≡ PlanError.Memory) }
    {
        let found = Found::of_lines(self.alloc, 0, self.marks(), self.vertices())?;
        Ok(found.into_blocks())
    }

    /// The canonical text, which spells this plan, in at most 3,948 bytes. Refusal: `Memory`.
    pub fn text(&self) -> Result<String, PlanError>
        ensures ok { IfOk result (λ text. string_bytes text ≡ text_of self.now) }
        ensures again { IfOk result (λ text. PlanText (string_bytes text) self.now) }
        ensures err { IfErr result (λ e. e ≡ PlanError.Memory) }
    {
        print(self.alloc, self.marks.as_slice(), self.vertices.as_slice())
    }

    /// The same plan, in memory of its own. Refusal: `Memory`.
    pub fn copy(&self) -> Result<Plan, PlanError>
        ensures ok { IfOk result (λ plan. plan ≡ self.now) }
        ensures err { IfErr result (λ e. e ≡ PlanError.Memory) }
    {
        Ok(Plan {
            marks: Vec::from_slice(self.alloc, self.marks.as_slice())?,
            vertices: copy_vertices(self.alloc, self.vertices.as_slice())?,
            edges: Vec::from_slice(self.alloc, self.edges.as_slice())?,
            loops: Vec::from_slice(self.alloc, self.loops.as_slice())?,
            alloc: self.alloc,
        })
    }

    /// Whether this is the same plan as another: whether they have the same lines. It takes no memory.
    pub fn same(&self, other: &Plan) -> bool
        ensures { IsTrue result ↔ (self.now ≡ other.now) }
    {
        are_same_marks(self.marks.as_slice(), other.marks.as_slice())
            && are_same_vertices(self.vertices.as_slice(), other.vertices.as_slice())
    }

    /// Whether every entry of a batch names an input vertex. It takes no memory.
    pub fn accepts(&self, batch: &Batch) -> bool
        ensures { result ≡ list_all (λ e. is_input_of self.now e.input) batch.now }
    {
        for entry in batch.list() {
            if !self.is_input(entry.input) {
                return false;
            }
        }
        true
    }

    /// Whether every batch is accepted, as `accepts` has it. It takes no memory.
    pub fn accepts_all(&self, batches: &[Batch]) -> bool
        ensures yes { OnTrue result (All (λ batch. IsTrue (list_all (λ e. is_input_of self.now e.input) batch)) batches.now) }
        ensures no { All (λ batch. IsTrue (list_all (λ e. is_input_of self.now e.input) batch)) batches.now → IsTrue result }
    {
        batches.iter().all(|batch| self.accepts(batch))
    }

    /// Whether a number is that of an input vertex.
    fn is_input(&self, number: u8) -> bool
        ensures { result ≡ is_input_of self.now number }
    {
        match self.vertices().get(usize::from(number)) {
            Some(vertex) => vertex.is_input(),
            None => false,
        }
    }
}

/// The same vertices, in memory of their own. Refusal: `Memory`.
fn copy_vertices(alloc: Global, vertices: &[Vertex]) -> Result<Vec<Vertex>, PlanError>
    ensures ok { IfOk result (λ copied. copied.items ≡ vertices.now) }
    ensures err { IfErr result (λ e. e ≡ PlanError.Memory) }
{
    let mut copied = Vec::new(alloc);
    for vertex in vertices {
        copied.push(vertex.copy())?;
    }
    Ok(copied)
}

/// The same vertices, whose numbers are small. Refusal: `Memory`.
fn narrow(alloc: Global, standing: &[Standing]) -> Result<Vec<Vertex>, PlanError>
    requires { list_all is_narrow standing.now ≡ true }
    ensures ok { IfOk result (λ vertices. vertices.items ≡ standing.now) }
    ensures err { IfErr result (λ e. e ≡ PlanError.Memory) }
{
    let mut vertices = Vec::new(alloc);
    for each in standing {
        let written = each.written();
        vertices.push(Vertex::new(
            written.number() as u8,
            written.kind(),
            written.sources(),
            each.loops(),
        ))?;
    }
    Ok(vertices)
}

/// The edges that lead to some vertices. Refusal: `Memory`.
fn edges_to(alloc: Global, vertices: &[Vertex]) -> Result<Vec<Edge>, PlanError>
    ensures ok { IfOk result (λ found. found.items ≡ flat_map edges_to vertices.now) }
    ensures err { IfErr result (λ e. e ≡ PlanError.Memory) }
{
    let mut edges = Vec::new(alloc);
    for vertex in vertices {
        vertex.add_edges(&mut edges)?;
    }
    Ok(edges)
}
