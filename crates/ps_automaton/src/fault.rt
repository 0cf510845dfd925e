//! Why no automaton is built from an HOA file.

ghost use Rattle.std.specs.Prelude.{◌≡◌};
ghost use Rattle.ps_automaton.specs.declared.fault.AutomatonFault.TheVariants.{OutOfMemory};

use ps_hoa::HoaFault;
use std::alloc::{AllocError, AllocFailed};
use thiserror::Error;

/// Why no automaton is built from an HOA file.
#[derive(Debug, Clone, Copy, PartialEq, Eq, Error)]
pub enum AutomatonFault {
    /// The acceptance condition contains a complemented set.
    #[error("the condition has a complemented set")]
    ComplementedSet,
    /// The acceptance condition is not a chain.
    #[error("the condition is no chain")]
    NonParity,
    /// Two edges of a state are taken at a common letter, but differ in their targets or their sets.
    #[error("state {state} has edges {first} and {second} that share a letter")]
    Nondeterministic {
        /// The state's number in the text, from 0.
        state: u32,
        /// The index of the earlier edge in the state's row, from 0.
        first: usize,
        /// The index of the later edge.
        second: usize,
    },
    /// Memory ran out.
    #[error("out of memory")]
    OutOfMemory,
}

impl AutomatonFault {
    ghost use Rattle.ps_automaton.specs.FaultNames.{fault_number, fault_name};

    /// The fault's number in psyn's list of faults.
    pub fn number(self) -> u8
        ensures { result ≡ fault_number self }
    {
        match self {
            AutomatonFault::ComplementedSet => 18,
            AutomatonFault::NonParity => 17,
            AutomatonFault::Nondeterministic { .. } => 21,
            AutomatonFault::OutOfMemory => HoaFault::OutOfMemory.number(),
        }
    }

    /// The fault's name.
    pub fn name(self) -> &'static str
        ensures { result.now ≡ fault_name self }
    {
        match self {
            AutomatonFault::ComplementedSet => "ComplementedSet",
            AutomatonFault::NonParity => "NonParity",
            AutomatonFault::Nondeterministic { .. } => "Nondeterministic",
            AutomatonFault::OutOfMemory => HoaFault::OutOfMemory.name(),
        }
    }
}

impl From<AllocError> for AutomatonFault {
    ghost from_gives = { λ _ fault. fault ≡ OutOfMemory };

    fn from(_error: AllocError) -> AutomatonFault {
        AutomatonFault::OutOfMemory
    }
}

impl<T: Drop> From<AllocFailed<T>> for AutomatonFault {
    ghost from_gives = { λ _ fault. fault ≡ OutOfMemory };

    fn from(_error: AllocFailed<T>) -> AutomatonFault {
        AutomatonFault::OutOfMemory
    }
}
