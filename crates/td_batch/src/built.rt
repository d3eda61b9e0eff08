//! The tree of a plan, built from its lines.
ghost use Rattle.std.specs.Prelude.{◌≡◌, ◌∷◌, [], IfOk};
ghost use Rattle.td_plan.specs.Marks.{lines_of_marks, AreMarked};
ghost use Rattle.td_plan.specs.Tree.{opened, rest_of};
ghost use Rattle.td_plan.specs.Tree.Nodes.{done, node};

use crate::tree::Tree;
use std::alloc::Global;
use std::collections::VecDeque;
use td_plan::{Mark, Vertex};
use td_stamp::StampError as BatchError;

/// What the lines from some line on make of the tree: what stands in the block where they begin, and what follows the
/// ends of that block and of those around it, the innermost first.
#[derive(Drop)]
pub(crate) struct Built {
    inside: Tree,
    after: VecDeque<Tree>,
}

impl Built {
    ghost use Rattle.td_batch.specs.Steps.Built.{rest_built};
    ghost use Rattle.td_batch.specs.Steps.Tree.{nodes_of};

    /// What these lines make, which are marks with the vertices for which they stand. Refusal: `Memory`.
    pub(crate) fn of_lines(
        alloc: Global,
        marks: &[Mark],
        vertices: &[Vertex],
    ) -> Result<Built, BatchError>
        requires { AreMarked marks.now vertices.now }
        ensures { IfOk result (λ built. rest_built built ≡ rest_of (lines_of_marks marks.now vertices.now)) }
    {
        let Some((mark, later)) = marks.split_first() else {
            return Ok(Built::nothing(alloc));
        };
        match mark {
            Mark::Vertex => match vertices.split_first() {
                Some((vertex, others)) => {
                    let built = Built::of_lines(alloc, later, others)?;
                    built.with_vertex(alloc, vertex)
                }
                None => unreachable!(),
            },
            Mark::Loop(bound) => {
                let built = Built::of_lines(alloc, later, vertices)?;
                built.with_head(alloc, *bound)
            }
            Mark::End => {
                let built = Built::of_lines(alloc, later, vertices)?;
                built.with_end()
            }
        }
    }

    /// The tree.
    pub(crate) fn into_tree(self) -> Tree
        ensures { nodes_of result ≡ (rest_built self).inside }
    {
        let Built { inside, after: _ } = self;
        inside
    }

    /// What no lines make.
    fn nothing(alloc: Global) -> Built
        ensures { rest_built result ≡ record { inside = done; after = [] } }
    {
        Built {
            inside: Tree::Done,
            after: VecDeque::new(alloc),
        }
    }

    /// With a vertex before these lines. Refusal: `Memory`.
    fn with_vertex(self, alloc: Global, vertex: &Vertex) -> Result<Built, BatchError>
        ensures { IfOk result (λ built. rest_built built ≡ record (rest_built self) { inside = node vertex.now.vertex (rest_built self).inside }) }
    {
        let Built { inside, after } = self;
        let inside = Tree::Then(vertex.copy(), Box::new(alloc, inside)?);
        Ok(Built { inside, after })
    }

    /// With the head of a loop before these lines. Refusal: `Memory`.
    fn with_head(self, alloc: Global, bound: u16) -> Result<Built, BatchError>
        ensures { IfOk result (λ built. rest_built built ≡ opened bound (rest_built self)) }
    {
        let Built { inside, mut after } = self;
        let next = after.pop_front().unwrap_or(Tree::Done);
        let inside = Tree::Loop(bound, Box::new(alloc, inside)?, Box::new(alloc, next)?);
        Ok(Built { inside, after })
    }

    /// With the end of a loop before these lines. Refusal: `Memory`.
    fn with_end(self) -> Result<Built, BatchError>
        ensures { IfOk result (λ built. rest_built built ≡ record { inside = done; after = (rest_built self).inside ∷ (rest_built self).after }) }
    {
        let Built { inside, mut after } = self;
        after.push_front(inside)?;
        Ok(Built {
            inside: Tree::Done,
            after,
        })
    }
}
