//! Whether two lists are the same, without memory.
ghost use Rattle.std.specs.Prelude.{◌≡◌, ◌↔◌, IsTrue, map};

use crate::mark::Mark;
use crate::vertex::Vertex;

pub(crate) fn are_same_marks(some: &[Mark], others: &[Mark]) -> bool
    ensures { IsTrue result ↔ (some.now ≡ others.now) }
{
    if some.len() != others.len() {
        return false;
    }
    for (i, mark) in some.iter().enumerate() {
        if !mark.same(others[i]) {
            return false;
        }
    }
    true
}

/// Whether these are the same vertices, wherever they stand.
pub(crate) fn are_same_vertices(some: &[Vertex], others: &[Vertex]) -> bool
    ensures { IsTrue result ↔ (map (λ p. p.vertex) some.now ≡ map (λ p. p.vertex) others.now) }
{
    if some.len() != others.len() {
        return false;
    }
    for (i, vertex) in some.iter().enumerate() {
        if !vertex.same(&others[i]) {
            return false;
        }
    }
    true
}
