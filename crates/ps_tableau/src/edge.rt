//! Edges, which are covers.

use crate::set::Set;
use ps_diagram::Node;

/// An edge from a set of formulas: a cover of them.
#[derive(Debug, Clone, Copy)]
pub struct Edge {
    /// A diagram with a leaf at each letter for which it serves.
    pub guard: Node,
    /// The obligations at the next index.
    pub next: Set,
    /// The untils that it postpones.
    pub postponed: Set,
}
