//! Edges.

/// A link, by the vertex from which it leads and the slot there that holds its target.
#[derive(Clone, Copy, Debug, PartialEq, Eq)]
pub struct Edge {
    pub vertex: usize,
    pub slot: usize,
}
