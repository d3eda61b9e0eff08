//! What a plan consists of.
ghost use Rattle.std.specs.Prelude.{◌≡◌, ◌≤◌, ◌++◌, ◌↔◌, IsTrue, OnOk, drop, length, nat_lt, reverse, option_map, true};
ghost use Rattle.std.specs.List.{list_all};
ghost use Rattle.std.specs.Option.{option_copied};
ghost use Rattle.std.specs.Str.{bytes_eq};
ghost use Rattle.td_plan.specs.Blocks.{edges_to, reading_loops, read_loops, firsts};
ghost use Rattle.td_plan.specs.Faults.{most_vertices, is_input, is_output, is_fold, is_feedback, is_of_loops, is_of_outermost};

use arrayvec::ArrayVec;
use std::alloc::AllocError;
use std::marker::Model;

/// The most vertices of a plan.
pub const VERTICES: usize = 64;

/// The most edges of a plan.
pub const EDGES: usize = 128;

/// The most sources of a vertex.
pub const SOURCES: usize = 8;

/// The most loops in which a vertex stands.
pub const LEVELS: usize = 3;

/// The most turns of a loop.
pub const MOST_TURNS: u32 = 1000;

/// What a vertex does. A map, a group and a fold have the code of their closure.
#[derive(Clone, Copy, Debug, PartialEq, Eq)]
pub enum Kind {
    /// Sends the records that a batch gives it.
    Input,
    /// Calls its closure for each record.
    Map(u16),
    /// Sends the first occurrence of each record of a time.
    Distinct,
    /// Calls its closure for each key of a time.
    Group(u16),
    /// As a group, with a state of the key that is kept from epoch to epoch.
    Fold(u16),
    /// Passes records into a loop: an ingress.
    Enter,
    /// Passes records to the next turn of a loop.
    Feedback,
    /// Passes records out of a loop: an egress.
    Leave,
    /// Its arrivals are the epoch's output.
    Output,
}

impl Kind {
    pub(crate) fn is_input(self) -> bool
        ensures { result ≡ is_input self }
    {
        match self {
            Kind::Input => true,
            _ => false,
        }
    }

    pub(crate) fn is_output(self) -> bool
        ensures { result ≡ is_output self }
    {
        match self {
            Kind::Output => true,
            _ => false,
        }
    }

    pub(crate) fn is_fold(self) -> bool
        ensures { result ≡ is_fold self }
    {
        match self {
            Kind::Fold(_) => true,
            _ => false,
        }
    }

    pub(crate) fn is_feedback(self) -> bool
        ensures { result ≡ is_feedback self }
    {
        match self {
            Kind::Feedback => true,
            _ => false,
        }
    }

    /// Whether it stands in loops alone.
    pub(crate) fn is_of_loops(self) -> bool
        ensures { result ≡ is_of_loops self }
    {
        match self {
            Kind::Enter | Kind::Feedback | Kind::Leave => true,
            _ => false,
        }
    }

    /// Whether it stands in no loop. (A fold has a fault of its own there.)
    pub(crate) fn is_of_outermost(self) -> bool
        ensures { result ≡ is_of_outermost self }
    {
        match self {
            Kind::Input | Kind::Output => true,
            _ => false,
        }
    }

    /// The block on which it reads where it stands in these loops.
    pub(crate) fn reads_on(self, loops: &[Loop]) -> &[Loop]
        ensures { result.now ≡ reverse (reading_loops self (reverse loops.now)) }
    {
        match self {
            Kind::Enter => around(loops),
            _ => loops,
        }
    }

    /// The block on which it is read, if it is, where it stands in these loops.
    pub(crate) fn read_on(self, loops: &[Loop]) -> Option<&[Loop]>
        ensures { option_copied result ≡ option_map reverse (read_loops self (reverse loops.now)) }
    {
        match self {
            Kind::Leave => Some(around(loops)),
            Kind::Output => None,
            _ => Some(loops),
        }
    }
}

/// These loops without the innermost.
fn around(loops: &[Loop]) -> &[Loop]
    ensures { result.now ≡ reverse (drop 1 (reverse loops.now)) }
{
    match loops.split_last() {
        Some((_, around)) => around,
        None => loops,
    }
}

/// A loop: the number of the first vertex after its head, and how many turns it makes at most, 1 to 1,000.
#[derive(Clone, Copy, Debug, Default, PartialEq, Eq)]
pub struct Loop {
    pub first: u8,
    pub bound: u16,
}

/// An edge: the vertex whose records go along it, and the vertex and port at which they arrive. The port is the place
/// of the source among the reader's sources, from 0.
#[derive(Clone, Copy, Debug, PartialEq, Eq)]
pub struct Edge {
    pub source: u8,
    pub reader: u8,
    pub port: u8,
}

/// Whether these are the loops of one block: whether they begin at the same vertices.
pub(crate) fn is_same_block(some: &[Loop], others: &[Loop]) -> bool
    ensures { result ≡ bytes_eq (firsts some.now) (firsts others.now) }
{
    if some.len() != others.len() {
        return false;
    }
    for (i, each) in some.iter().enumerate() {
        if each.first != others[i].first {
            return false;
        }
    }
    true
}

/// The same loops, in room of their own.
pub(crate) fn copy_loops(loops: &[Loop]) -> ArrayVec<Loop, LEVELS>
    requires { length loops.now ≤ 3 }
    ensures { result.items ≡ loops.now }
{
    let mut copied = ArrayVec::new();
    for each in loops {
        copied.push(*each);
    }
    copied
}

/// The same numbers, each of which is that of a vertex.
fn narrow_sources(sources: &[u32]) -> ArrayVec<u8, SOURCES>
    requires few { length sources.now ≤ 8 }
    requires small { list_all (λ s. nat_lt s most_vertices) sources.now ≡ true }
    ensures { result.items ≡ sources.now }
{
    let mut narrow = ArrayVec::new();
    for source in sources {
        narrow.push(*source as u8);
    }
    narrow
}

/// A vertex of a plan, with the loops in which it stands. A block is named by the loops that are open in it, here the
/// outermost first: the outermost block by none. Contracts see the innermost first.
#[derive(Debug, Drop)]
pub struct Vertex {
    number: u8,
    kind: Kind,
    sources: ArrayVec<u8, SOURCES>,
    loops: ArrayVec<Loop, LEVELS>,
}

impl Model for Vertex {
    ghost use Rattle.std.specs.Prelude.{reverse};
    ghost use Rattle.td_plan.specs.Blocks.{PlacedVertex};

    ghost Value = { PlacedVertex };

    ghost view = { λ v. record { vertex = record { number = v.number; kind = v.kind; sources = v.sources.items }; loops = reverse v.loops.items } };
}

impl Vertex {
    /// Its number, from 0.
    pub fn number(&self) -> u8
        ensures { result ≡ self.now.vertex.number }
    {
        self.number
    }

    /// What it does.
    pub fn kind(&self) -> Kind
        ensures { result ≡ self.now.vertex.kind }
    {
        self.kind
    }

    /// Whether it is an input.
    pub fn is_input(&self) -> bool
        ensures { result ≡ is_input self.now.vertex.kind }
    {
        self.kind.is_input()
    }

    /// Whether it is an output.
    pub fn is_output(&self) -> bool
        ensures { result ≡ is_output self.now.vertex.kind }
    {
        self.kind.is_output()
    }

    /// The numbers of its sources, by port.
    pub fn sources(&self) -> &[u8]
        ensures { result.now ≡ self.now.vertex.sources }
    {
        self.sources.as_slice()
    }

    /// How many sources it has.
    pub fn source_count(&self) -> usize
        ensures count { result ≡ length self.now.vertex.sources }
        ensures few { result ≤ 8 }
    {
        self.sources.len()
    }

    /// The loops in which it stands, the outermost first. (Contracts have the innermost first.)
    pub fn loops(&self) -> &[Loop]
        ensures { result.now ≡ reverse self.now.loops }
    {
        self.loops.as_slice()
    }

    /// The block on which it reads: the loops that are open there, the outermost first. (Contracts have the innermost
    /// first.)
    pub fn reads_on(&self) -> &[Loop]
        ensures { result.now ≡ reverse (reading_loops self.now.vertex.kind self.now.loops) }
    {
        self.kind.reads_on(self.loops.as_slice())
    }

    /// The block on which it is read, if it is: the loops that are open there, the outermost first. (Contracts have the
    /// innermost first.)
    pub fn read_on(&self) -> Option<&[Loop]>
        ensures { option_copied result ≡ option_map reverse (read_loops self.now.vertex.kind self.now.loops) }
    {
        self.kind.read_on(self.loops.as_slice())
    }

    /// Adds the edges that lead to it. Refusal: `Memory`.
    pub(crate) fn add_edges(&self, edges: &mut Vec<Edge>) -> Result<(), AllocError>
        ensures { OnOk result (edges.new.items ≡ edges.old.items ++ edges_to self.now) }
    {
        let mut port: u8 = 0;
        for source in self.sources.as_slice() {
            edges.push(Edge {
                source: *source,
                reader: self.number,
                port,
            })?;
            port += 1;
        }
        Ok(())
    }

    /// A vertex in these loops.
    pub(crate) fn new(number: u8, kind: Kind, sources: &[u32], loops: &[Loop]) -> Vertex
        requires few_sources { length sources.now ≤ 8 }
        requires small { list_all (λ s. nat_lt s most_vertices) sources.now ≡ true }
        requires few_loops { length loops.now ≤ 3 }
        ensures { result ≡ record { vertex = record { number = number; kind = kind; sources = sources.now }; loops = reverse loops.now } }
    {
        Vertex {
            number,
            kind,
            sources: narrow_sources(sources),
            loops: copy_loops(loops),
        }
    }

    /// Whether it has the number, the kind and the sources of another vertex.
    pub(crate) fn same(&self, other: &Vertex) -> bool
        ensures { IsTrue result ↔ (self.now.vertex ≡ other.now.vertex) }
    {
        other.number == self.number
            && self.kind == other.kind
            && self.sources.as_slice() == other.sources.as_slice()
    }

    /// The same vertex.
    pub fn copy(&self) -> Vertex
        ensures { result ≡ self.now }
    {
        let mut sources = ArrayVec::new();
        for source in self.sources.as_slice() {
            sources.push(*source);
        }
        Vertex {
            number: self.number,
            kind: self.kind,
            sources,
            loops: copy_loops(self.loops.as_slice()),
        }
    }
}
