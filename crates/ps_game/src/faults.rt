//! Why an unfinished game is rejected.

ghost use Rattle.std.specs.Prelude.{◌≡◌};

use thiserror::Error;

/// Why an unfinished game is rejected. Vertices are given by their numbers, from 0.
#[derive(Clone, Copy, Debug, PartialEq, Eq, Error)]
pub enum GameFault {
    /// Some vertex has no successor.
    #[error("vertex {vertex} has no successor")]
    NoSuccessor {
        /// The smallest such vertex.
        vertex: usize,
    },

    /// Some edge leads to a number that is not a vertex.
    #[error("vertex {vertex} has the unknown successor {successor}")]
    UnknownSuccessor {
        /// The smallest vertex with such an edge.
        vertex: usize,
        /// The target of its first such edge.
        successor: usize,
    },

    /// Out of memory.
    #[error("out of memory")]
    OutOfMemory,
}

impl GameFault {
    ghost use Rattle.ps_game.specs.FaultNames.{fault_number, fault_name};

    /// The fault's number in psyn's list of faults.
    pub fn number(self) -> u8
        ensures { result ≡ fault_number self }
    {
        match self {
            GameFault::NoSuccessor { .. } => 31,
            GameFault::UnknownSuccessor { .. } => 32,
            GameFault::OutOfMemory => 24,
        }
    }

    /// The fault's name.
    pub fn name(self) -> &'static str
        ensures { result.now ≡ fault_name self }
    {
        match self {
            GameFault::NoSuccessor { .. } => "NoSuccessor",
            GameFault::UnknownSuccessor { .. } => "UnknownSuccessor",
            GameFault::OutOfMemory => "OutOfMemory",
        }
    }
}
