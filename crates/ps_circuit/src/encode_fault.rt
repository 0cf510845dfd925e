//! The faults of a builder.

ghost use Rattle.std.specs.Prelude.{◌≡◌};
ghost use Rattle.ps_circuit.specs.declared.encode_fault.EncodeFault.TheVariants.{OutOfMemory};

use crate::fault::AigFault;
use std::alloc::{AllocError, AllocFailed};
use thiserror::Error;

/// Why a builder made no gate, and so a machine gets no circuit.
#[derive(Debug, Clone, Copy, PartialEq, Eq, Error)]
pub enum EncodeFault {
    /// 2147483647 variables exist, and another is needed.
    #[error("the circuit is too large")]
    CircuitTooLarge,
    /// Out of memory.
    #[error("out of memory")]
    OutOfMemory,
}

impl EncodeFault {
    ghost use Rattle.ps_circuit.specs.EncodeFaultNames.{fault_number, fault_name};

    /// Its number in psyn's list of faults, docs/FAULTS.md.
    pub fn number(self) -> u8
        ensures { result ≡ fault_number self }
    {
        match self {
            EncodeFault::CircuitTooLarge => 60,
            EncodeFault::OutOfMemory => AigFault::OutOfMemory.number(),
        }
    }

    /// Its name there.
    pub fn name(self) -> &'static str
        ensures { result.now ≡ fault_name self }
    {
        match self {
            EncodeFault::CircuitTooLarge => "CircuitTooLarge",
            EncodeFault::OutOfMemory => AigFault::OutOfMemory.name(),
        }
    }
}

impl From<AllocError> for EncodeFault {
    ghost from_gives = { λ _ fault. fault ≡ OutOfMemory };

    fn from(_error: AllocError) -> EncodeFault {
        EncodeFault::OutOfMemory
    }
}

impl<T: Drop> From<AllocFailed<T>> for EncodeFault {
    ghost from_gives = { λ _ fault. fault ≡ OutOfMemory };

    fn from(_error: AllocFailed<T>) -> EncodeFault {
        EncodeFault::OutOfMemory
    }
}
