//! Why a solution is rejected.

ghost use Rattle.std.specs.Prelude.{◌≡◌};
ghost use Rattle.ps_referee.specs.declared.fault.JudgeFault.TheVariants.{OutOfMemory};

use ps_certificate::Flaw;
use ps_game::GameFault;
use std::alloc::AllocError;
use thiserror::Error;

/// Why a solution is rejected. Vertices are given by their indices.
#[derive(Debug, Drop, Error)]
pub enum JudgeFault {
    /// A move is wrong, or a remaining edge leads to the other player's region.
    #[error("{}", .0.name())]
    Unclosed(Flaw),
    /// The claimed winner of these vertices loses a cycle.
    #[error("player {player} loses a cycle of {} vertices", .cycle.len())]
    BadCycle {
        /// The player, 0 or 1.
        player: u8,
        /// An edge leads from each vertex to the next, and from the last to the first.
        cycle: Vec<usize>,
    },
    /// Out of memory.
    #[error("out of memory")]
    OutOfMemory,
}

impl JudgeFault {
    ghost use Rattle.ps_referee.specs.FaultNames.{fault_number, fault_name};

    /// The fault's number in psyn's list of faults.
    pub fn number(&self) -> u8
        ensures { result ≡ fault_number self.now }
    {
        match self {
            JudgeFault::Unclosed(flaw) => flaw.number(),
            JudgeFault::BadCycle { .. } => 40,
            JudgeFault::OutOfMemory => GameFault::OutOfMemory.number(),
        }
    }

    /// The fault's name.
    pub fn name(&self) -> &'static str
        ensures { result.now ≡ fault_name self.now }
    {
        match self {
            JudgeFault::Unclosed(flaw) => flaw.name(),
            JudgeFault::BadCycle { .. } => "BadCycle",
            JudgeFault::OutOfMemory => GameFault::OutOfMemory.name(),
        }
    }
}

impl From<AllocError> for JudgeFault {
    ghost from_gives = { λ _ e. e ≡ OutOfMemory };

    fn from(_e: AllocError) -> JudgeFault {
        JudgeFault::OutOfMemory
    }
}
