//! The result of comparing an automaton with a formula.

ghost use Rattle.std.specs.Prelude.{◌≡◌};
ghost use Rattle.ps_models.specs.declared.agreement.AgreementFault.TheVariants.{OutOfMemory};

use ps_simulate::LassoFault;
use std::alloc::AllocError;
use thiserror::Error;

/// Letters that are read once, and letters that are then read for ever. Bit p of a letter is proposition p of the
/// formula.
#[derive(Debug, Drop)]
pub struct Lasso {
    /// The letters that are read once.
    pub stem: Vec<u64>,
    /// The letters that repeat for ever, of which there is at least one.
    pub lap: Vec<u64>,
}

/// Whether an automaton accepts exactly the lassos that satisfy a formula.
#[derive(Debug, Drop)]
pub enum Agreement {
    /// The automaton accepts exactly the lassos that satisfy the formula.
    Agrees,
    /// The automaton accepts this lasso, which violates the formula.
    Accepts(Lasso),
    /// The automaton rejects this lasso, which satisfies the formula.
    Rejects(Lasso),
}

/// Why an automaton is not compared with a formula.
#[derive(Clone, Copy, Debug, PartialEq, Eq, Error)]
pub enum AgreementFault {
    /// A proposition of the automaton is none of the formula's, or the formula's proposition of the same name is not of
    /// the same player.
    #[error("the automaton's propositions are not propositions of the formula")]
    Symbols,
    /// Memory ran out.
    #[error("out of memory")]
    OutOfMemory,
}

impl AgreementFault {
    ghost use Rattle.ps_models.specs.AgreementFaultNames.{fault_number, fault_name};

    /// The fault's number in psyn's list of faults.
    pub fn number(self) -> u8
        ensures { result ≡ fault_number self }
    {
        match self {
            AgreementFault::Symbols => LassoFault::Symbols.number(),
            AgreementFault::OutOfMemory => LassoFault::OutOfMemory.number(),
        }
    }

    /// The fault's name.
    pub fn name(self) -> &'static str
        ensures { result.now ≡ fault_name self }
    {
        match self {
            AgreementFault::Symbols => LassoFault::Symbols.name(),
            AgreementFault::OutOfMemory => LassoFault::OutOfMemory.name(),
        }
    }
}

impl From<AllocError> for AgreementFault {
    ghost from_gives = { λ _ e. e ≡ OutOfMemory };

    fn from(_error: AllocError) -> Self {
        AgreementFault::OutOfMemory
    }
}
