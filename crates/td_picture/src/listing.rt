//! The lines of a plan, with what each closure is in words.
ghost use Rattle.std.specs.Prelude.{◌≡◌, ◌++◌, IfOk, OnOk, IfErr, string_bytes};
ghost use Rattle.td_plan.specs.Lines.Line.{vertex as vertex_line};
ghost use Rattle.td_plan.specs.Texts.{PlanText};
ghost use Rattle.td_picture.specs.Listed.{listing_of, listed_line};
ghost use Rattle.td_picture.specs.Printed.{IsListed};

use crate::laws;
use crate::words::print_between;
use std::alloc::Global;
use std::fmt::Write;
use td_plan::{Mark, Plan, PlanError, Vertex, print_vertex};

/// The canonical text of a plan, with a comment before the line of each map, group and fold, which tells in words what its closure
/// is, or that the catalogue has none of its code. Refusal: `Memory`.
pub fn listed(alloc: Global, plan: &Plan) -> Result<String, PlanError>
    ensures ok { IfOk result (λ text. string_bytes text ≡ listing_of plan.now) }
    // So what is listed is read as the same plan.
    ensures again { IfOk result (λ text. PlanText (string_bytes text) plan.now) }
    ensures err { IfErr result (λ e. e ≡ PlanError.Memory) }
{
    // For the prover alone.
    laws::listings_are_read();
    let mut text = String::new(alloc);
    let mut left = plan.vertices();
    for mark in plan.marks() {
        left = print_line(&mut text, *mark, left)?;
    }
    Ok(text)
}

/// Appends the line of a mark, with its comment, and answers the vertices that are left after it. Refusal: `Memory`.
fn print_line<'a>(
    text: &mut String,
    mark: Mark,
    vertices: &'a [Vertex],
) -> Result<&'a [Vertex], PlanError>
    ensures ok { IfOk result (λ left. IsListed (string_bytes text.old) (string_bytes text.new) mark vertices.now left.now) }
    ensures err { IfErr result (λ e. e ≡ PlanError.Memory) }
{
    match mark {
        Mark::Vertex => {
            if let Some((vertex, left)) = vertices.split_first() {
                list_vertex(text, vertex)?;
                return Ok(left);
            }
        }
        Mark::Loop(bound) => write!(text, "loop {bound}\n")?,
        Mark::End => text.push_str("end\n")?,
    }
    Ok(vertices)
}

/// Appends the line of a vertex, behind its comment. Refusal: `Memory`.
fn list_vertex(text: &mut String, vertex: &Vertex) -> Result<(), PlanError>
    ensures ok { OnOk result (string_bytes text.new ≡ string_bytes text.old ++ listed_line (vertex_line vertex.now.vertex)) }
    ensures err { IfErr result (λ e. e ≡ PlanError.Memory) }
{
    print_between(text, "# ", "\n", vertex.kind())?;
    print_vertex(text, vertex)?;
    Ok(())
}
