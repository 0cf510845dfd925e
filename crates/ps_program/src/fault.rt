//! Faults, each reported in one line.

/// A fault with its number and name in docs/FAULTS.md.
#[derive(Drop)]
pub struct FaultLine {
    /// Its number.
    pub number: u8,
    /// Its name.
    pub name: &'static str,
    /// Where it occurs.
    pub place: Place,
}

/// Where a fault occurs. Vertices are named by their ids.
#[derive(Drop)]
pub enum Place {
    /// No place.
    Nowhere,
    /// The offset of a byte in a text, from 0.
    Byte(usize),
    /// Two edges that make an automaton nondeterministic.
    Edges {
        /// Their state's number in the text.
        state: usize,
        /// The index of the earlier one among the state's edges, from 0.
        first: usize,
        /// That of the later one.
        second: usize,
    },
    /// A cycle of vertices.
    Cycle(Vec<u64>),
    /// The move that a certificate or a solution has at a vertex.
    Move {
        vertex: u64,
        /// The successor, if there is a move.
        choice: Option<u64>,
    },
    /// An edge of a game.
    Edge {
        vertex: u64,
        successor: u64,
    },
    /// An edge at which a certificate's counts for a priority are wrong.
    Count {
        vertex: u64,
        successor: u64,
        priority: u64,
    },
}
