//! Why a solver gives no certificate.

ghost use Rattle.std.specs.Prelude.{◌≡◌};
ghost use Rattle.ps_solver.specs.declared.fault.SolveFault.TheVariants.{OutOfMemory};

use ps_certificate::CertCause;
use ps_game::GameFault;
use ps_text::faults::Cause;
use std::alloc::AllocError;
use thiserror::Error;

/// Why a solver gives no certificate.
#[derive(Debug, Drop, Error)]
pub enum SolveFault {
    /// The solver reported a cycle that its moves for a player allow, and that this player loses if a play repeats it
    /// for ever.
    #[error("a cycle that its player loses")]
    BadCycle(Vec<usize>),
    /// The text that the solver was fed is not that of a certificate of the game.
    #[error("{} at byte {offset}", .cause.name())]
    Text {
        /// Why the text is rejected.
        cause: CertCause,
        /// The offset of the error in bytes, from 0.
        offset: usize,
    },
    /// Out of memory.
    #[error("out of memory")]
    OutOfMemory,
}

impl SolveFault {
    ghost use Rattle.ps_solver.specs.FaultNames.{fault_number, fault_name};

    /// The fault's number in psyn's list of faults.
    pub fn number(&self) -> u8
        ensures { result ≡ fault_number self.now }
    {
        match self {
            SolveFault::BadCycle(_) => 40,
            SolveFault::Text { cause, .. } => cause.number(),
            SolveFault::OutOfMemory => GameFault::OutOfMemory.number(),
        }
    }

    /// The fault's name.
    pub fn name(&self) -> &'static str
        ensures { result.now ≡ fault_name self.now }
    {
        match self {
            SolveFault::BadCycle(_) => "BadCycle",
            SolveFault::Text { cause, .. } => cause.name(),
            SolveFault::OutOfMemory => GameFault::OutOfMemory.name(),
        }
    }
}

impl From<AllocError> for SolveFault {
    ghost from_gives = { λ _ e. e ≡ OutOfMemory };

    fn from(_e: AllocError) -> SolveFault {
        SolveFault::OutOfMemory
    }
}
