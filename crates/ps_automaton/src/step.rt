//! One step of an automaton.

/// A state, and the priority of the edge that leads to it.
#[derive(Debug, Clone, Copy, PartialEq, Eq, Hash)]
pub struct Step {
    /// The state.
    pub state: u32,
    /// The edge's priority.
    pub priority: u64,
}
