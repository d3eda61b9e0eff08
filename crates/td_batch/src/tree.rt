//! The tree of a plan: what stands in a loop is a part of it. The evaluator walks it as the definition does: a loop is a call of
//! the walk of its body for each turn. `built.rt` makes it of the plan's lines, the last one first, as the definition reads them.
ghost use Rattle.std.specs.Prelude.{ℕ, ◌≡◌, ◌==◌, ◌++◌, [], Bool, None, IfOk, OnOk, IsTrue};
ghost use Rattle.std.specs.List.{list_any, AllByRecursion};
ghost use Rattle.td_plan.specs.Tree.{tree_of};
ghost use Rattle.td_plan.specs.Blocks.{vertices};
ghost use Rattle.td_calls.specs.Fits.{first_lack};
ghost use Rattle.td_calls.specs.Stored.{Codes};
ghost use Rattle.td_batch.specs.Quiet.{fed_back, fed_back_by, NothingReturns};
ghost use Rattle.td_batch.specs.Meaning.{emitted, returned};
ghost use Rattle.td_batch.specs.Steps.Emitted.{bag_or_none};
ghost use Rattle.td_batch.specs.Steps.Epoch.{IsOuter};
ghost use Rattle.td_batch.specs.Steps.Tree.{nodes_of, read_by, reads};

use crate::built::Built;
use crate::emitted::{Before, Emitted};
use std::alloc::Global;
use td_plan::{Kind, Plan, Vertex, laws};
use td_stamp::StampError as BatchError;

/// The vertices and loops of a block, in order.
#[derive(Drop)]
pub(crate) enum Tree {
    /// No more of them.
    Done,
    /// A vertex, and what follows it.
    Then(Vertex, Box<Tree>),
    /// A loop with its bound and its body, and what follows it.
    Loop(u16, Box<Tree>, Box<Tree>),
}

impl Tree {
    /// The tree of a plan, whose closures are stored where the plan's are. Refusal: `Memory`.
    pub(crate) fn of(alloc: Global, plan: &Plan) -> Result<Tree, BatchError>
        ensures tree { IfOk result (λ tree. nodes_of tree ≡ tree_of plan.now) }
        ensures outer { IfOk result (λ tree. (stored : Codes) → first_lack stored (vertices plan.now) ≡ None
            → IsOuter stored 0 (nodes_of tree)) }
    {
        laws::trees();
        laws::well_placed();
        laws::stands_well();
        let built = Built::of_lines(alloc, plan.marks(), plan.vertices())?;
        Ok(built.into_tree())
    }

    /// Whether one of these vertices, or of those in their loops, reads a source among the bags of its own turn, which is
    /// the first turn of its block or a later one.
    pub(crate) fn is_read(&self, is_first: bool, source: usize) -> bool
        ensures { result ≡ list_any (λ s. s == source) (reads is_first (nodes_of self.now)) }
    {
        match self {
            Tree::Done => false,
            Tree::Then(vertex, rest) => {
                reads(is_first, vertex, source) || rest.is_read(is_first, source)
            }
            Tree::Loop(_, body, rest) => {
                if body.is_read(true, source) {
                    return true;
                }
                if body.is_fed_back(source) {
                    return true;
                }
                rest.is_read(is_first, source)
            }
        }
    }

    /// Appends the sources that these vertices read among the bags of their own turn. Refusal: `Memory`.
    pub(crate) fn push_reads(
        &self,
        is_first: bool,
        numbers: &mut Vec<usize>,
    ) -> Result<(), BatchError>
        ensures { OnOk result (numbers.new.items ≡ numbers.old.items ++ reads is_first (nodes_of self.now)) }
    {
        match self {
            Tree::Done => Ok(()),
            Tree::Then(vertex, rest) => {
                match vertex.kind() {
                    Kind::Enter if !is_first => {}
                    Kind::Feedback => {}
                    _ => push_all(vertex.sources(), numbers)?,
                }
                rest.push_reads(is_first, numbers)
            }
            Tree::Loop(_, body, rest) => {
                body.push_reads(true, numbers)?;
                body.push_fed_back(numbers)?;
                rest.push_reads(is_first, numbers)
            }
        }
    }

    /// Appends the sources of the feedbacks of this block. Refusal: `Memory`.
    pub(crate) fn push_fed_back(&self, numbers: &mut Vec<usize>) -> Result<(), BatchError>
        ensures { OnOk result (numbers.new.items ≡ numbers.old.items ++ fed_back (nodes_of self.now)) }
    {
        match self {
            Tree::Done => Ok(()),
            Tree::Then(vertex, rest) => {
                if let Kind::Feedback = vertex.kind() {
                    push_all(vertex.sources(), numbers)?;
                }
                rest.push_fed_back(numbers)
            }
            Tree::Loop(_, _, rest) => rest.push_fed_back(numbers),
        }
    }

    /// Whether nothing comes back from the turn before.
    pub(crate) fn is_quiet(&self, before: &Before<'_>) -> bool
        ensures { IsTrue result → NothingReturns before.now (nodes_of self.now) }
    {
        match self {
            Tree::Done => true,
            Tree::Then(vertex, rest) => feeds_nothing(vertex, before) && rest.is_quiet(before),
            Tree::Loop(_, _, rest) => rest.is_quiet(before),
        }
    }

    /// Whether a feedback of this block reads a source.
    pub(crate) fn is_fed_back(&self, source: usize) -> bool
        ensures { result ≡ list_any (λ s. s == source) (fed_back (nodes_of self.now)) }
    {
        match self {
            Tree::Done => false,
            Tree::Then(vertex, rest) => { feeds_back(vertex, source) || rest.is_fed_back(source) }
            Tree::Loop(_, _, rest) => rest.is_fed_back(source),
        }
    }
}

/// Whether a vertex reads a source among the bags of its own turn.
fn reads(is_first: bool, vertex: &Vertex, source: usize) -> bool
    ensures { result ≡ list_any (λ s. s == source) (read_by is_first vertex.now.vertex.kind vertex.now.vertex.sources) }
{
    match vertex.kind() {
        Kind::Enter if !is_first => false,
        Kind::Feedback => false,
        _ => has(vertex.sources(), source),
    }
}

/// Whether a vertex is a feedback that reads a source.
fn feeds_back(vertex: &Vertex, source: usize) -> bool
    ensures { result ≡ list_any (λ s. s == source) (fed_back_by vertex.now.vertex vertex.now.vertex.kind) }
{
    match vertex.kind() {
        Kind::Feedback => has(vertex.sources(), source),
        _ => false,
    }
}

/// Whether a number is among some.
fn has(sources: &[u8], source: usize) -> bool
    ensures { result ≡ list_any (λ s. s == source) sources.now }
{
    sources.iter().any(|s| usize::from(*s) == source)
}

/// Appends some numbers. Refusal: `Memory`.
fn push_all(sources: &[u8], numbers: &mut Vec<usize>) -> Result<(), BatchError>
    ensures { OnOk result (numbers.new.items ≡ numbers.old.items ++ sources.now) }
{
    for source in sources {
        numbers.push(usize::from(*source))?;
    }
    Ok(())
}

/// Whether a vertex, if it is a feedback, passes nothing on.
fn feeds_nothing(vertex: &Vertex, before: &Before<'_>) -> bool
    ensures { IsTrue result → AllByRecursion (λ s. emitted (returned before.now) s ≡ []) (fed_back_by vertex.now.vertex vertex.now.vertex.kind) }
{
    match vertex.kind() {
        Kind::Feedback => are_empty(vertex.sources(), before),
        _ => true,
    }
}

/// Whether none of these emitted anything in the turn before.
fn are_empty(sources: &[u8], before: &Before<'_>) -> bool
    ensures { IsTrue result → AllByRecursion (λ s. emitted (returned before.now) s ≡ []) sources.now }
{
    let mut left = sources;
    while let Some((source, later)) = left.split_first() {
        if !is_empty(before.get(*source)) {
            return false;
        }
        left = later;
    }
    true
}

/// Whether a bag, if there is one, has no records.
fn is_empty(bag: Option<&Emitted<'_>>) -> bool
    ensures { IsTrue result → bag_or_none bag.entry ≡ [] }
{
    match bag {
        Some(bag) => bag.list().next().is_none(),
        None => true,
    }
}
