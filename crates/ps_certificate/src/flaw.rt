//! What is wrong with a certificate.

ghost use Rattle.std.specs.Prelude.{◌≡◌};

/// The first thing that is wrong with a certificate. Vertices are given by their indices, from 0.
#[derive(Clone, Copy, Debug, PartialEq, Eq)]
pub enum Flaw {
    /// A wrong move: the winner owns the vertex and the move is missing or not a successor, or the loser owns it and
    /// there is a move.
    Move {
        /// The vertex.
        vertex: usize,
        /// The move, or none if it is missing.
        choice: Option<usize>,
    },
    /// The winner's move, or an edge of a vertex that the loser owns, leads to a vertex with the other winner.
    Escape {
        /// The vertex.
        vertex: usize,
        /// The end of the edge, which the other player wins.
        successor: usize,
    },
    /// A remaining edge breaks the rule of counts for a priority that opposes the winner.
    Rank {
        /// The vertex that the edge leaves.
        vertex: usize,
        /// The vertex that it enters.
        successor: usize,
        /// The opposing priority.
        priority: u64,
    },
}

impl Flaw {
    ghost use Rattle.ps_certificate.specs.Faults.{flaw_number, flaw_name};

    /// The flaw's number in psyn's list of faults, docs/FAULTS.md.
    pub fn number(self) -> u8
        ensures { result ≡ flaw_number self }
    {
        match self {
            Flaw::Move { .. } => 50,
            Flaw::Escape { .. } => 51,
            Flaw::Rank { .. } => 52,
        }
    }

    /// The flaw's name.
    pub fn name(self) -> &'static str
        ensures { result.now ≡ flaw_name self }
    {
        match self {
            Flaw::Move { .. } => "Move",
            Flaw::Escape { .. } => "Escape",
            Flaw::Rank { .. } => "Rank",
        }
    }
}
