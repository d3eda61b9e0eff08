//! The edges of a picture.
ghost use Rattle.std.specs.Prelude.{◌≡◌, ◌++◌, OnOk, IfErr, string_bytes};
ghost use Rattle.td_plan.specs.Faults.{is_feedback};
ghost use Rattle.td_picture.specs.Drawn.{back_of, edge_of, edges_of, port_of};

use std::fmt::Write;
use td_plan::{Kind, PlanError, Vertex};

/// Appends the edges that lead to a vertex, by port. Refusal: `Memory`.
pub(crate) fn print_edges(text: &mut String, vertex: &Vertex) -> Result<(), PlanError>
    ensures ok { OnOk result (string_bytes text.new ≡ string_bytes text.old ++ edges_of vertex.now.vertex) }
    ensures err { IfErr result (λ e. e ≡ PlanError.Memory) }
{
    for (port, source) in vertex.sources().iter().enumerate() {
        print_edge(text, vertex, port, *source)?;
    }
    Ok(())
}

/// Appends the edge that leads from a source to a port of a vertex. Refusal: `Memory`.
fn print_edge(text: &mut String, vertex: &Vertex, port: usize, source: u8) -> Result<(), PlanError>
    ensures ok { OnOk result (string_bytes text.new ≡ string_bytes text.old ++ edge_of vertex.now.vertex (port, source)) }
    ensures err { IfErr result (λ e. e ≡ PlanError.Memory) }
{
    let number = vertex.number();
    write!(text, "v{source} -> v{number}")?;
    print_port(text, vertex, port)?;
    print_back(text, vertex)?;
    text.push_str(";\n")?;
    Ok(())
}

/// Appends the port of an edge, where its reader has more than one source. Refusal: `Memory`.
fn print_port(text: &mut String, vertex: &Vertex, port: usize) -> Result<(), PlanError>
    ensures ok { OnOk result (string_bytes text.new ≡ string_bytes text.old ++ port_of vertex.now.vertex port) }
    ensures err { IfErr result (λ e. e ≡ PlanError.Memory) }
{
    if vertex.source_count() > 1 {
        write!(text, " [headlabel=\"{port}\"]")?;
    }
    Ok(())
}

/// Appends the look of an edge that leads to a feedback. Refusal: `Memory`. Such an edge is dashed, and does not count where the
/// vertices are placed.
fn print_back(text: &mut String, vertex: &Vertex) -> Result<(), PlanError>
    ensures ok { OnOk result (string_bytes text.new ≡ string_bytes text.old ++ back_of vertex.now.vertex) }
    ensures err { IfErr result (λ e. e ≡ PlanError.Memory) }
{
    if is_feedback(vertex.kind()) {
        text.push_str(" [style=dashed, constraint=false]")?;
    }
    Ok(())
}

/// Whether it passes records to the next turn of a loop.
fn is_feedback(kind: Kind) -> bool
    ensures { result ≡ is_feedback kind }
{
    matches!(kind, Kind::Feedback)
}
