//! The faults of synthesis.

ghost use Rattle.std.specs.Prelude.{◌≡◌};
ghost use Rattle.ps_synthesis.specs.declared.fault.SynthFault.TheVariants.{OutOfMemory};

use ps_aiger::EncodeFault;
use ps_automaton::AutomatonFault;
use ps_certificate::CertCause;
use ps_hoa::{HoaCause, HoaFault};
use ps_text::faults::Cause;
use std::alloc::AllocError;
use thiserror::Error;

/// Why a text gets no report.
#[derive(Debug, Drop, Error)]
pub enum SynthFault {
    /// The HOA text has an error.
    #[error("{} at byte {offset}", .cause.name())]
    Text {
        cause: HoaCause,
        /// The error's offset in bytes, from 0.
        offset: usize,
    },
    /// The HOA text has no error, but psyn does not accept its automaton.
    #[error("{0}")]
    Automaton(AutomatonFault),
    /// The solver's moves for a player allow this cycle of ids, which the player loses.
    #[error("a cycle that its player loses")]
    BadCycle(Vec<u64>),
    /// The text that the solver was fed is no certificate of the game.
    #[error("{} of the certificate at byte {offset}", .cause.name())]
    Certificate {
        cause: CertCause,
        /// The error's offset in bytes, from 0.
        offset: usize,
    },
    /// The solver's certificate does not fit the game, or is not valid.
    #[error("the certificate is not valid")]
    NotCertified,
    /// The circuit needs more variables than AIGER literals can number.
    #[error("the circuit is too large")]
    CircuitTooLarge,
    /// Out of memory.
    #[error("out of memory")]
    OutOfMemory,
}

impl SynthFault {
    ghost use Rattle.ps_synthesis.specs.SynthFaultNames.{fault_number, fault_name};

    /// The fault's number in psyn's list of faults.
    pub fn number(&self) -> u8
        ensures { result ≡ fault_number self.now }
    {
        match self {
            SynthFault::Text { cause, .. } => cause.number(),
            SynthFault::Automaton(fault) => fault.number(),
            SynthFault::BadCycle(_) => 40,
            SynthFault::Certificate { cause, .. } => cause.number(),
            SynthFault::NotCertified => 41,
            SynthFault::CircuitTooLarge => EncodeFault::CircuitTooLarge.number(),
            SynthFault::OutOfMemory => EncodeFault::OutOfMemory.number(),
        }
    }

    /// The fault's name.
    pub fn name(&self) -> &'static str
        ensures { result.now ≡ fault_name self.now }
    {
        match self {
            SynthFault::Text { cause, .. } => cause.name(),
            SynthFault::Automaton(fault) => fault.name(),
            SynthFault::BadCycle(_) => "BadCycle",
            SynthFault::Certificate { cause, .. } => cause.name(),
            SynthFault::NotCertified => "NotCertified",
            SynthFault::CircuitTooLarge => EncodeFault::CircuitTooLarge.name(),
            SynthFault::OutOfMemory => EncodeFault::OutOfMemory.name(),
        }
    }
}

impl From<AllocError> for SynthFault {
    ghost from_gives = { λ _ fault. fault ≡ OutOfMemory };

    fn from(_error: AllocError) -> SynthFault {
        SynthFault::OutOfMemory
    }
}

impl From<HoaFault> for SynthFault {
    ghost use Rattle.ps_synthesis.specs.Stages.{of_text};

    ghost from_gives = { λ given fault. fault ≡ of_text given };

    fn from(fault: HoaFault) -> SynthFault {
        match fault {
            HoaFault::Text { cause, offset } => SynthFault::Text { cause, offset },
            HoaFault::OutOfMemory => SynthFault::OutOfMemory,
        }
    }
}

impl From<AutomatonFault> for SynthFault {
    ghost use Rattle.ps_synthesis.specs.Stages.{of_automaton};

    ghost from_gives = { λ given fault. fault ≡ of_automaton given };

    fn from(fault: AutomatonFault) -> SynthFault {
        match fault {
            AutomatonFault::OutOfMemory => SynthFault::OutOfMemory,
            fault => SynthFault::Automaton(fault),
        }
    }
}

impl From<EncodeFault> for SynthFault {
    ghost use Rattle.ps_synthesis.specs.Stages.{of_circuit};

    ghost from_gives = { λ given fault. fault ≡ of_circuit given };

    fn from(fault: EncodeFault) -> SynthFault {
        match fault {
            EncodeFault::CircuitTooLarge => SynthFault::CircuitTooLarge,
            EncodeFault::OutOfMemory => SynthFault::OutOfMemory,
        }
    }
}
