//! The canonical text of a plan.
ghost use Rattle.std.specs.Prelude.{◌≡◌, ◌++◌, ◌∷◌, [], IfOk, OnOk, IfErr, string_bytes, map, decimal};
ghost use Rattle.td_plan.specs.Lines.{name_of, text_of, text_of_line, words_of_kind};
ghost use Rattle.td_plan.specs.Lines.Line.{vertex as vertex_line};
ghost use Rattle.td_plan.specs.Marks.{lines_of_marks};
ghost use Rattle.td_plan.specs.Steps.Printed.{spaced, IsPrinted};

use crate::error::PlanError;
use crate::mark::Mark;
use crate::vertex::{Kind, Vertex};
use std::alloc::Global;
use std::fmt::Write;

/// The lines for which these marks stand, with their vertices. Refusal: `Memory`.
pub(crate) fn print(alloc: Global, marks: &[Mark], vertices: &[Vertex]) -> Result<String, PlanError>
    ensures ok { IfOk result (λ text. string_bytes text ≡ text_of (lines_of_marks marks.now vertices.now)) }
    ensures err { IfErr result (λ e. e ≡ PlanError.Memory) }
{
    let mut text = String::new(alloc);
    let mut left = vertices;
    for mark in marks {
        left = print_line(&mut text, *mark, left)?;
    }
    Ok(text)
}

/// Appends the line of a mark, and answers the vertices that are left after it. Refusal: `Memory`.
fn print_line<'a>(
    text: &mut String,
    mark: Mark,
    vertices: &'a [Vertex],
) -> Result<&'a [Vertex], PlanError>
    ensures ok { IfOk result (λ left. IsPrinted (string_bytes text.old) (string_bytes text.new) mark vertices.now left.now) }
    ensures err { IfErr result (λ e. e ≡ PlanError.Memory) }
{
    match mark {
        Mark::Vertex => {
            if let Some((vertex, left)) = vertices.split_first() {
                print_vertex(text, vertex)?;
                return Ok(left);
            }
        }
        Mark::Loop(bound) => write!(text, "loop {bound}\n")?,
        Mark::End => text.push_str("end\n")?,
    }
    Ok(vertices)
}

/// Appends the line of a vertex. Refusal: `Memory`.
pub fn print_vertex(text: &mut String, placed: &Vertex) -> Result<(), PlanError>
    ensures ok { OnOk result (string_bytes text.new ≡ string_bytes text.old ++ text_of_line (vertex_line placed.now.vertex)) }
    ensures err { IfErr result (λ e. e ≡ PlanError.Memory) }
{
    print_name(text, placed)?;
    print_sources(text, placed.sources())?;
    text.push('\n')?;
    Ok(())
}

/// Appends the number of a vertex and the words of its kind, with a space between. Refusal: `Memory`.
pub fn print_name(text: &mut String, placed: &Vertex) -> Result<(), PlanError>
    ensures ok { OnOk result (string_bytes text.new ≡ string_bytes text.old ++ name_of placed.now.vertex) }
    ensures err { IfErr result (λ e. e ≡ PlanError.Memory) }
{
    let number = placed.number();
    write!(text, "{number}")?;
    print_kind(text, placed.kind())?;
    Ok(())
}

/// Appends the words of a kind, each after a space. Refusal: `Memory`.
fn print_kind(text: &mut String, kind: Kind) -> Result<(), PlanError>
    ensures ok { OnOk result (string_bytes text.new ≡ string_bytes text.old ++ spaced (words_of_kind kind)) }
    ensures err { IfErr result (λ e. e ≡ PlanError.Memory) }
{
    match kind {
        Kind::Input => text.push_str(" input")?,
        Kind::Map(code) => write!(text, " map {code}")?,
        Kind::Distinct => text.push_str(" distinct")?,
        Kind::Group(code) => write!(text, " group {code}")?,
        Kind::Fold(code) => write!(text, " fold {code}")?,
        Kind::Enter => text.push_str(" enter")?,
        Kind::Feedback => text.push_str(" feedback")?,
        Kind::Leave => text.push_str(" leave")?,
        Kind::Output => text.push_str(" output")?,
    }
    Ok(())
}

/// Appends the numbers of sources, each after a space. Refusal: `Memory`.
fn print_sources(text: &mut String, sources: &[u8]) -> Result<(), PlanError>
    ensures ok { OnOk result (string_bytes text.new ≡ string_bytes text.old ++ spaced (map decimal sources.now)) }
    ensures err { IfErr result (λ e. e ≡ PlanError.Memory) }
{
    for source in sources {
        write!(text, " {source}")?;
    }
    Ok(())
}
