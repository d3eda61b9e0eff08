//! The lines of a plan, beside its vertices. So a plan's text is printed line by line, and two plans are the same where marks and
//! vertices are.
ghost use Rattle.std.specs.Prelude.{◌≡◌, ◌↔◌, IsTrue};

/// What a line of a plan is, beside the list of its vertices.
#[derive(Clone, Copy, Debug)]
pub enum Mark {
    /// The next vertex.
    Vertex,
    /// The head of a loop, with its bound.
    Loop(u16),
    /// The end of the innermost loop that is open.
    End,
}

impl Mark {
    pub(crate) fn same(self, other: Mark) -> bool
        ensures { IsTrue result ↔ (self ≡ other) }
    {
        match (self, other) {
            (Mark::Vertex, Mark::Vertex) => true,
            (Mark::Loop(bound), Mark::Loop(another)) => bound == another,
            (Mark::End, Mark::End) => true,
            _ => false,
        }
    }
}
