//! A picture of a plan.
ghost use Rattle.std.specs.Prelude.{◌≡◌, ◌++◌, IfOk, OnOk, IfErr, string_bytes, flat_map};
ghost use Rattle.td_plan.specs.Blocks.{vertices};
ghost use Rattle.td_picture.specs.Drawn.{edges_of, nodes_of, picture_of};

use crate::edges::print_edges;
use crate::nodes::{next_number, print_line};
use std::alloc::Global;
use td_plan::{Plan, PlanError, Vertex};

/// A picture of a plan in the language of Graphviz: a node for each vertex, a frame round those of each loop, and an edge from each
/// source, with the port where its reader has more than one. Refusal: `Memory`.
pub fn drawn(alloc: Global, plan: &Plan) -> Result<String, PlanError>
    ensures ok { IfOk result (λ text. string_bytes text ≡ picture_of plan.now) }
    ensures err { IfErr result (λ e. e ≡ PlanError.Memory) }
{
    let mut text = String::new(alloc);
    text.push_str("digraph plan {\nrankdir=LR;\n")?;
    print_nodes(&mut text, plan)?;
    print_all_edges(&mut text, plan.vertices())?;
    text.push_str("}\n")?;
    Ok(text)
}

/// Appends the nodes of a plan, in the frames of its loops. Refusal: `Memory`.
fn print_nodes(text: &mut String, plan: &Plan) -> Result<(), PlanError>
    ensures ok { OnOk result (string_bytes text.new ≡ string_bytes text.old ++ nodes_of 1 plan.now) }
    ensures err { IfErr result (λ e. e ≡ PlanError.Memory) }
{
    let mut left = plan.vertices();
    let mut number = 1;
    for mark in plan.marks() {
        left = print_line(text, *mark, number, left)?;
        number = next_number(number, *mark);
    }
    Ok(())
}

/// Appends the edges that lead to some vertices. Refusal: `Memory`.
fn print_all_edges(text: &mut String, vertices: &[Vertex]) -> Result<(), PlanError>
    ensures ok { OnOk result (string_bytes text.new ≡ string_bytes text.old ++ flat_map (λ p. edges_of p.vertex) vertices.now) }
    ensures err { IfErr result (λ e. e ≡ PlanError.Memory) }
{
    for vertex in vertices {
        print_edges(text, vertex)?;
    }
    Ok(())
}
