//! The blocks of a plan's loops.
ghost use Rattle.std.specs.Prelude.{◌+◌, ◌≤◌, ◌∷◌, ◌≡◌, [], ℕ, length, IfOk, IfErr};
ghost use Rattle.td_plan.specs.Faults.{most_vertices};
ghost use Rattle.td_plan.specs.Marks.{lines_of_marks, AreMarked};
ghost use Rattle.td_plan.specs.Tree.{Rest, opened, rest_of};
ghost use Rattle.td_plan.specs.Tree.Nodes.{done};

use crate::error::PlanError;
use crate::mark::Mark;
use crate::vertex::Vertex;
use std::alloc::Global;
use std::collections::VecDeque;

/// The block of a loop: the vertices numbered from `first` up to `end`, which is not one of them, and how many turns the
/// loop makes at most.
#[derive(Clone, Copy, Debug, PartialEq, Eq)]
pub struct Block {
    pub first: u8,
    pub end: u8,
    pub bound: u16,
}

/// The blocks of a part of a plan, and the number after that of its last vertex.
#[derive(Drop)]
pub(crate) struct Part {
    pub blocks: Vec<Block>,
    pub end: u8,
}

/// What the lines from some line on tell: of the block where they begin, and of what follows the ends of that block and
/// of those around it, the innermost first.
#[derive(Drop)]
pub(crate) struct Found {
    pub inside: Part,
    pub after: VecDeque<Part>,
}

impl Found {
    ghost use Rattle.td_plan.specs.Steps.Extents.{IsFound};

    /// What these lines tell, which are marks with the vertices for which they stand, after so many vertices. Refusal:
    /// `Memory`.
    pub(crate) fn of_lines(
        alloc: Global,
        before: u8,
        marks: &[Mark],
        vertices: &[Vertex],
    ) -> Result<Found, PlanError>
        requires marked { AreMarked marks.now vertices.now }
        requires few { before + length vertices.now ≤ most_vertices }
        ensures ok { IfOk result (IsFound before (rest_of (lines_of_marks marks.now vertices.now))) }
        ensures err { IfErr result (λ e. e ≡ PlanError.Memory) }
    {
        let Some((mark, later)) = marks.split_first() else {
            return Ok(Found::nothing(alloc, before));
        };
        match mark {
            Mark::Vertex => match vertices.split_first() {
                Some((_, others)) => Found::of_lines(alloc, before + 1, later, others),
                None => unreachable!(),
            },
            Mark::Loop(bound) => {
                let found = Found::of_lines(alloc, before, later, vertices)?;
                found.with_head(before, *bound)
            }
            Mark::End => {
                let found = Found::of_lines(alloc, before, later, vertices)?;
                found.with_end(alloc, before)
            }
        }
    }

    /// The blocks where the lines begin.
    pub(crate) fn into_blocks(self) -> Vec<Block>
        ensures { result.items ≡ self.inside.blocks.items }
    {
        let Found { inside, after: _ } = self;
        inside.blocks
    }

    /// What no lines tell.
    fn nothing(alloc: Global, before: u8) -> Found
        ensures { IsFound before (record { inside = done; after = [] }) result }
    {
        Found {
            inside: Part {
                blocks: Vec::new(alloc),
                end: before,
            },
            after: VecDeque::new(alloc),
        }
    }

    /// With the head of a loop before these lines. Refusal: `Memory`.
    fn with_head(self, before: u8, bound: u16) -> Result<Found, PlanError>
        ensures ok { IfOk result (λ found. (rest : Rest) → IsFound before rest self → IsFound before (opened bound rest) found) }
        ensures err { IfErr result (λ e. e ≡ PlanError.Memory) }
    {
        let Found { inside, mut after } = self;
        let Part { mut blocks, end } = inside;
        blocks.insert(
            0,
            Block {
                first: before,
                end,
                bound,
            },
        )?;
        let inside = match after.pop_front() {
            Some(next) => {
                blocks.extend_from_slice(next.blocks.as_slice())?;
                Part {
                    blocks,
                    end: next.end,
                }
            }
            None => Part { blocks, end },
        };
        Ok(Found { inside, after })
    }

    /// With the end of a loop before these lines. Refusal: `Memory`.
    fn with_end(self, alloc: Global, before: u8) -> Result<Found, PlanError>
        ensures ok { IfOk result (λ found. (rest : Rest) → IsFound before rest self
            → IsFound before (record { inside = done; after = rest.inside ∷ rest.after }) found) }
        ensures err { IfErr result (λ e. e ≡ PlanError.Memory) }
    {
        let Found { inside, mut after } = self;
        after.push_front(inside)?;
        Ok(Found {
            inside: Part {
                blocks: Vec::new(alloc),
                end: before,
            },
            after,
        })
    }
}
