//! What is in scope after some lines of a plan, and the faults of a further line. `Scope` is the scope of the definitions, and
//! the contract of `fault` names each of their rules.
ghost use Rattle.std.specs.Prelude.{◌≡◌, ◌+◌, ◌<◌, ◌≤◌, None, [], ◌∷◌, length, reverse, IfOk, IfErr, option_map, true};
ghost use Rattle.std.specs.Option.{option_copied};
ghost use Rattle.std.specs.List.{slice_get};
ghost use Rattle.td_plan.specs.Lines.Line.{vertex, loop, end};
ghost use Rattle.td_plan.specs.Blocks.{no_scope, scope_after, is_read_on, is_source_on};
ghost use Rattle.td_plan.specs.Faults.{most_vertices, Fault, fault_of, has_fault, enters_from_within, reads_elsewhere};
ghost use Rattle.td_plan.specs.Faults.{is_in_loop, is_stray_feedback};
ghost use Rattle.td_plan.specs.Steps.Reading.{error_of, is_misplaced, is_stray_at};
ghost use Rattle.td_plan.specs.Steps.Written.{written_line};

use crate::error::PlanError;
use crate::line::{Written, WrittenLine};
use crate::vertex::{
    EDGES, Kind, LEVELS, Loop, MOST_TURNS, SOURCES, VERTICES, copy_loops, is_same_block,
};
use arrayvec::ArrayVec;
use std::alloc::Global;
use std::marker::Model;

/// A vertex as its line has it, with the loops in which it stands, the outermost first.
#[derive(Drop)]
pub(crate) struct Standing {
    written: Written,
    loops: ArrayVec<Loop, LEVELS>,
}

impl Model for Standing {
    ghost use Rattle.std.specs.Prelude.{reverse};
    ghost use Rattle.td_plan.specs.Blocks.{PlacedVertex};

    ghost Value = { PlacedVertex };

    ghost view = { λ s. record { vertex = s.written; loops = reverse s.loops.items } };
}

impl Standing {
    pub(crate) fn written(&self) -> &Written
        ensures { result.now ≡ self.now.vertex }
    {
        &self.written
    }

    pub(crate) fn loops(&self) -> &[Loop]
        ensures value { result.now ≡ reverse self.now.loops }
        ensures few { length result.now ≤ 3 }
    {
        self.loops.as_slice()
    }

    /// Whether it is read on this block.
    fn is_read_on(&self, block: &[Loop]) -> bool
        ensures { result ≡ is_read_on (reverse block.now) self.now }
    {
        match self.written.kind().read_on(self.loops.as_slice()) {
            Some(loops) => is_same_block(loops, block),
            None => false,
        }
    }
}

/// The vertices so far, and the loops that are open, the outermost first.
#[derive(Drop)]
pub(crate) struct Scope {
    vertices: Vec<Standing>,
    loops: ArrayVec<Loop, LEVELS>,
    edges: usize,
}

impl Model for Scope {
    ghost use Rattle.std.specs.Prelude.{reverse};
    ghost use Rattle.td_plan.specs.Blocks.{Scope as AnyScope};

    ghost Value = { AnyScope };

    ghost use Rattle.td_plan.specs.Steps.Inside.{IsCounted};

    ghost view = { λ s. record { vertices = s.vertices.items; loops = reverse s.loops.items } };

    ghost invariant = { λ s. IsCounted s.vertices.items s.edges };
}

impl Scope {
    /// Nothing.
    pub(crate) fn new(alloc: Global) -> Scope
        ensures { result ≡ no_scope }
    {
        Scope {
            vertices: Vec::new(alloc),
            loops: ArrayVec::new(),
            edges: 0,
        }
    }

    /// The vertices, in the order of their numbers.
    pub(crate) fn vertices(&self) -> &[Standing]
        ensures all { result.now ≡ self.now.vertices }
        ensures few { length result.now ≤ most_vertices }
    {
        self.vertices.as_slice()
    }

    /// Whether a loop is open.
    pub(crate) fn is_in_loop(&self) -> bool
        ensures { result ≡ is_in_loop self.now.loops }
    {
        !self.loops.is_empty()
    }

    /// The first fault of a further line, which is line `number` of the text.
    pub(crate) fn fault(&self, number: u64, line: &WrittenLine) -> Option<PlanError>
        ensures { result ≡ option_map (λ fault. error_of fault number) (fault_of self.now (written_line line.now)) }
    {
        match line {
            WrittenLine::Vertex(written) => self.vertex_fault(number, written),
            WrittenLine::Loop(bound) => self.head_fault(number, *bound),
            WrittenLine::End => self.end_fault(number),
        }
    }

    fn vertex_fault(&self, number: u64, written: &Written) -> Option<PlanError>
        ensures { result ≡ option_map (λ fault. error_of fault number) (fault_of self.now (vertex written.now)) }
    {
        if written.number() as usize != self.vertices.len() {
            return Some(PlanError::Number(number));
        }
        if self.is_late(written) {
            return Some(PlanError::Order(number));
        }
        if self.is_nested_wrongly(written) {
            return Some(PlanError::Nest(number));
        }
        if written.kind().is_fold() && self.is_in_loop() {
            return Some(PlanError::FoldInLoop(number));
        }
        if written.kind().is_feedback() && written.sources().len() != 1 {
            return Some(PlanError::Again(number));
        }
        if self.is_one_too_many(written) {
            return Some(PlanError::TooMany(number));
        }
        None
    }

    fn head_fault(&self, number: u64, bound: u32) -> Option<PlanError>
        ensures { result ≡ option_map (λ fault. error_of fault number) (fault_of self.now (loop bound)) }
    {
        if bound < 1 || bound > MOST_TURNS {
            return Some(PlanError::Bound(number));
        }
        if self.loops.len() >= LEVELS {
            return Some(PlanError::TooMany(number));
        }
        None
    }

    fn end_fault(&self, number: u64) -> Option<PlanError>
        ensures { result ≡ option_map (λ fault. error_of fault number) (fault_of self.now end) }
    {
        match self.innermost() {
            Some(open) if usize::from(open.first) != self.vertices.len() => None,
            _ => Some(PlanError::Syntax(number)),
        }
    }

    /// The innermost open loop.
    fn innermost(&self) -> Option<&Loop>
        ensures { option_copied result ≡ slice_get self.now.loops 0 }
    {
        self.loops.as_slice().last()
    }

    /// Whether a source does not stand before the vertex, or that of an enter not before the loop.
    fn is_late(&self, written: &Written) -> bool
        ensures { result ≡ has_fault self.now (vertex written.now) Fault.order }
    {
        match written.kind() {
            Kind::Feedback => false,
            Kind::Enter => {
                written.has_source_from(written.number()) || self.enters_from_within(written)
            }
            _ => written.has_source_from(written.number()),
        }
    }

    /// Whether a source stands in the innermost open loop.
    fn enters_from_within(&self, written: &Written) -> bool
        ensures { result ≡ enters_from_within self.now.loops written.now.sources }
    {
        match self.innermost() {
            Some(open) => written.has_source_from(u32::from(open.first)),
            None => false,
        }
    }

    /// Whether the kind does not belong in this block, or a source is not read where the vertex reads.
    #[tactic(auto, using(crate::proofs::SameLoops::twice))]
    fn is_nested_wrongly(&self, written: &Written) -> bool
        ensures { result ≡ has_fault self.now (vertex written.now) Fault.nest }
    {
        let kind = written.kind();
        if self.is_misplaced(kind) {
            return true;
        }
        if kind.is_feedback() || (kind.is_fold() && self.is_in_loop()) {
            return false;
        }
        self.reads_elsewhere(kind.reads_on(self.loops.as_slice()), written.sources())
    }

    /// Whether the kind does not belong in this block.
    fn is_misplaced(&self, kind: Kind) -> bool
        ensures { result ≡ is_misplaced self.now.loops kind }
    {
        if self.is_in_loop() {
            kind.is_of_outermost()
        } else {
            kind.is_of_loops()
        }
    }

    /// Whether some source is not read on this block.
    fn reads_elsewhere(&self, block: &[Loop], sources: &[u32]) -> bool
        ensures { result ≡ reads_elsewhere (reverse block.now) self.now.vertices sources.now }
    {
        for source in sources {
            if !self.is_source_on(block, *source) {
                return true;
            }
        }
        false
    }

    /// Whether this number is that of a vertex which is read on this block.
    fn is_source_on(&self, block: &[Loop], source: u32) -> bool
        ensures { result ≡ is_source_on (reverse block.now) self.now.vertices source }
    {
        match self.vertices.as_slice().get(source as usize) {
            Some(vertex) => vertex.is_read_on(block),
            None => false,
        }
    }

    /// Whether the vertex, one of its sources or an edge that leads to it is one too many.
    fn is_one_too_many(&self, written: &Written) -> bool
        ensures { result ≡ has_fault self.now (vertex written.now) Fault.too_many }
    {
        let sources = written.sources().len();
        if self.vertices.len() >= VERTICES || sources > SOURCES {
            return true;
        }
        self.edges + sources > EDGES
    }

    /// Whether this is the number of a feedback whose source is no vertex, or is not read on the feedback's block. It is said by
    /// the vertex's number, since the second pass knows a feedback by it.
    pub(crate) fn is_stray(&self, number: u32) -> bool
        ensures { result ≡ is_stray_at self.now.vertices number }
    {
        match self.vertices.as_slice().get(number as usize) {
            Some(vertex) => self.is_stray_feedback(vertex),
            None => false,
        }
    }

    #[tactic(auto, using(crate::proofs::SameLoops::twice))]
    fn is_stray_feedback(&self, vertex: &Standing) -> bool
        ensures { result ≡ is_stray_feedback self.now.vertices vertex.now }
    {
        vertex.written().kind().is_feedback()
            && self.reads_elsewhere(vertex.loops(), vertex.written().sources())
    }

    /// With one vertex more. Refusal: `Memory`.
    pub(crate) fn with_vertex(self, written: Written) -> Result<Scope, PlanError>
        requires { fault_of self (vertex written) ≡ None }
        ensures ok { IfOk result (λ scope. scope ≡ scope_after self (vertex written)) }
        ensures err { IfErr result (λ e. e ≡ PlanError.Memory) }
    {
        let Scope {
            mut vertices,
            loops,
            edges,
        } = self;
        let edges = edges + written.sources().len();
        vertices.push(Standing {
            written,
            loops: copy_loops(loops.as_slice()),
        })?;
        Ok(Scope {
            vertices,
            loops,
            edges,
        })
    }

    /// The loop that begins here.
    pub(crate) fn opened(&self, bound: u32) -> Loop
        requires { fault_of self.now (loop bound) ≡ None }
        ensures { result ≡ record { first = length self.now.vertices; bound = bound } }
    {
        Loop {
            first: self.vertices.len() as u8,
            bound: bound as u16,
        }
    }

    /// In a further loop.
    pub(crate) fn in_loop(self, opened: Loop) -> Scope
        requires { length self.loops < 3 }
        ensures { result ≡ record { vertices = self.vertices; loops = opened ∷ self.loops } }
    {
        let Scope {
            vertices,
            mut loops,
            edges,
        } = self;
        loops.push(opened);
        Scope {
            vertices,
            loops,
            edges,
        }
    }

    /// Around the innermost open loop.
    pub(crate) fn around_loop(self) -> Scope
        ensures { result ≡ scope_after self end }
    {
        let Scope {
            vertices,
            mut loops,
            edges,
        } = self;
        let _ = loops.pop();
        Scope {
            vertices,
            loops,
            edges,
        }
    }
}
