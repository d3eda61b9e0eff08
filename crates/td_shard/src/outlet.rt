//! Where a vertex sends its records.

/// An edge out of a vertex: its number, and the vertex and port to which it leads.
#[derive(Clone, Copy, Debug, PartialEq, Eq)]
pub struct Outlet {
    pub number: u8,
    pub reader: u8,
    pub port: u8,
}
