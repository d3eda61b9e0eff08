//! The nodes of a picture, and the frames of loops.
ghost use Rattle.std.specs.Prelude.{◌≡◌, ◌≤◌, ◌+◌, ◌<◌, ◌^◌, ◌++◌, IfOk, OnOk, IfErr, string_bytes};
ghost use Rattle.td_picture.specs.Drawn.{head_of, look_of, node_of, turns_of};
ghost use Rattle.td_picture.specs.Printed.{IsDrawn, next_number};

use crate::words::print_between;
use std::fmt::Write;
use td_plan::{Kind, Mark, PlanError, Vertex, print_name};

/// Appends the node of a vertex, the head of a loop of this number, or the end of one, and answers the vertices that are left after
/// it. Refusal: `Memory`.
pub(crate) fn print_line<'a>(
    text: &mut String,
    mark: Mark,
    number: u64,
    vertices: &'a [Vertex],
) -> Result<&'a [Vertex], PlanError>
    ensures ok { IfOk result (λ left. IsDrawn (string_bytes text.old) (string_bytes text.new) number mark vertices.now left.now) }
    ensures err { IfErr result (λ e. e ≡ PlanError.Memory) }
{
    match mark {
        Mark::Vertex => {
            if let Some((vertex, left)) = vertices.split_first() {
                print_node(text, vertex)?;
                return Ok(left);
            }
        }
        Mark::Loop(bound) => print_head(text, number, bound)?,
        Mark::End => text.push_str("}\n")?,
    }
    Ok(vertices)
}

/// The number of the next loop after a line, before which it was this.
pub(crate) fn next_number(number: u64, mark: Mark) -> u64
    requires { number < 2 ^ 63 }
    ensures next { result ≡ next_number number mark }
    ensures most { result ≤ number + 1 }
{
    match mark {
        Mark::Loop(_) => number + 1,
        _ => number,
    }
}

/// Appends the node of a vertex. Refusal: `Memory`.
fn print_node(text: &mut String, vertex: &Vertex) -> Result<(), PlanError>
    ensures ok { OnOk result (string_bytes text.new ≡ string_bytes text.old ++ node_of vertex.now.vertex) }
    ensures err { IfErr result (λ e. e ≡ PlanError.Memory) }
{
    let number = vertex.number();
    let look = look_of(vertex.kind());
    write!(text, "v{number} [{look}, label=\"")?;
    print_name(text, vertex)?;
    print_between(text, "\\n", "", vertex.kind())?;
    text.push_str("\"];\n")?;
    Ok(())
}

/// How the node of a kind looks.
fn look_of(kind: Kind) -> &'static str
    ensures { result.now ≡ look_of kind }
{
    match kind {
        Kind::Input => "shape=cds",
        Kind::Map(_) => "shape=box",
        Kind::Distinct => "shape=box, style=rounded",
        Kind::Group(_) => "shape=box, style=filled",
        Kind::Fold(_) => "shape=cylinder",
        Kind::Enter | Kind::Feedback | Kind::Leave => "shape=circle, fontsize=10",
        Kind::Output => "shape=ellipse",
    }
}

/// Appends the head of the loop of this number. Refusal: `Memory`. The colour lets through what is behind it, so a loop in a loop
/// is darker.
fn print_head(text: &mut String, number: u64, bound: u16) -> Result<(), PlanError>
    ensures ok { OnOk result (string_bytes text.new ≡ string_bytes text.old ++ head_of number bound) }
    ensures err { IfErr result (λ e. e ≡ PlanError.Memory) }
{
    let turns = turns_of(bound);
    write!(text, "subgraph cluster_{number} {{\n")?;
    text.push_str("style=\"rounded,filled\"; fillcolor=\"#0000ff12\"; ")?;
    write!(text, "label=\"loop, at most {bound} {turns}\";\n")?;
    Ok(())
}

/// The word for as many turns.
fn turns_of(bound: u16) -> &'static str
    ensures { result.now ≡ turns_of bound }
{
    if bound == 1 { "turn" } else { "turns" }
}
