//! Why no counts are computed for a region.

ghost use Rattle.std.specs.Prelude.{◌≡◌};
ghost use Rattle.ps_measure.specs.declared.fault.MeasureFault.TheVariants.{OutOfMemory};

use ps_game::GameFault;
use std::alloc::{AllocError, AllocFailed};
use thiserror::Error;

/// Why no counts were computed for a region.
#[derive(Debug, Drop, Error)]
pub enum MeasureFault {
    /// The remaining edges within the region have a cycle whose greatest priority has the opponent's parity.
    #[error("the player loses a cycle of {} vertices", .cycle.len())]
    BadCycle {
        /// The cycle's vertices: an edge leads from each to the next, and from the last to the first.
        cycle: Vec<usize>,
    },
    /// Out of memory.
    #[error("out of memory")]
    OutOfMemory,
}

impl MeasureFault {
    ghost use Rattle.ps_measure.specs.FaultNames.{fault_number, fault_name};

    /// The fault's number in psyn's list of faults.
    pub fn number(&self) -> u8
        ensures { result ≡ fault_number self.now }
    {
        match self {
            MeasureFault::BadCycle { .. } => 40,
            MeasureFault::OutOfMemory => GameFault::OutOfMemory.number(),
        }
    }

    /// The fault's name.
    pub fn name(&self) -> &'static str
        ensures { result.now ≡ fault_name self.now }
    {
        match self {
            MeasureFault::BadCycle { .. } => "BadCycle",
            MeasureFault::OutOfMemory => GameFault::OutOfMemory.name(),
        }
    }
}

impl From<AllocError> for MeasureFault {
    ghost from_gives = { λ _ e. e ≡ OutOfMemory };

    fn from(_e: AllocError) -> MeasureFault {
        MeasureFault::OutOfMemory
    }
}

impl<T: Drop> From<AllocFailed<T>> for MeasureFault {
    ghost from_gives = { λ _ e. e ≡ OutOfMemory };

    fn from(_e: AllocFailed<T>) -> MeasureFault {
        MeasureFault::OutOfMemory
    }
}
