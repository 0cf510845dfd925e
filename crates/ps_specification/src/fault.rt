//! Faults of specifications.

ghost use Rattle.std.specs.Prelude.{◌≡◌};
ghost use Rattle.ps_specification.specs.declared.fault.SpecificationFault.TheVariants.{OutOfMemory};

use ps_hoa::HoaCause;
use ps_synthesis::SynthFault;
use ps_text::faults::Cause;
use ps_tlsf::{TlsfCause, TlsfFault};
use std::alloc::AllocError;
use thiserror::Error;

/// Why a specification gets no circuit or automaton.
#[derive(Debug, Drop, Error)]
pub enum SpecificationFault {
    /// Its text has an error.
    #[error("{} at byte {offset}", .cause.name())]
    Text {
        /// The error.
        cause: TlsfCause,
        /// Its offset in bytes, from 0.
        offset: usize,
    },
    /// No circuit was proposed; or the translator gave no automaton, or one whose text exceeds a limit of the parser.
    #[error("no circuit or automaton was found for the specification")]
    NotTranslated,
    /// Each circuit that was proposed is wrong by the specification, or the translator's automaton is.
    #[error("what was found for the specification is wrong")]
    NotJudged,
    /// Out of memory.
    #[error("out of memory")]
    OutOfMemory,
}

impl SpecificationFault {
    ghost use Rattle.ps_specification.specs.FaultNames.{fault_name, fault_number};

    /// Its number in docs/FAULTS.md.
    pub fn number(&self) -> u8
        ensures { result ≡ fault_number self.now }
    {
        match self {
            SpecificationFault::Text { cause, .. } => cause.number(),
            SpecificationFault::NotTranslated => 75,
            SpecificationFault::NotJudged => 76,
            SpecificationFault::OutOfMemory => SynthFault::OutOfMemory.number(),
        }
    }

    /// Its name there.
    pub fn name(&self) -> &'static str
        ensures { result.now ≡ fault_name self.now }
    {
        match self {
            SpecificationFault::Text { cause, .. } => cause.name(),
            SpecificationFault::NotTranslated => "NotTranslated",
            SpecificationFault::NotJudged => "NotJudged",
            SpecificationFault::OutOfMemory => SynthFault::OutOfMemory.name(),
        }
    }
}

impl From<AllocError> for SpecificationFault {
    ghost from_gives = { λ _ fault. fault ≡ OutOfMemory };

    fn from(_error: AllocError) -> SpecificationFault {
        SpecificationFault::OutOfMemory
    }
}

impl From<TlsfFault> for SpecificationFault {
    ghost use Rattle.ps_specification.specs.Faults.{fault_of_text};

    ghost from_gives = { λ given fault. fault ≡ fault_of_text given };

    fn from(fault: TlsfFault) -> SpecificationFault {
        match fault {
            TlsfFault::Text { cause, offset } => SpecificationFault::Text { cause, offset },
            TlsfFault::OutOfMemory => SpecificationFault::OutOfMemory,
        }
    }
}

/// A translator's text beyond a limit counts as none; any other fault of it is a mistake.
impl From<SynthFault> for SpecificationFault {
    ghost use Rattle.ps_specification.specs.Faults.{fault_of_synthesis};

    ghost from_gives = { λ given fault. fault ≡ fault_of_synthesis given };

    fn from(fault: SynthFault) -> SpecificationFault {
        match fault {
            SynthFault::Text {
                cause: HoaCause::Limit,
                offset: _,
            } => SpecificationFault::NotTranslated,
            SynthFault::OutOfMemory => SpecificationFault::OutOfMemory,
            _ => SpecificationFault::NotJudged,
        }
    }
}
