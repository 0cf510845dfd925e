//! The errors of AIGER texts.

ghost use Rattle.ps_circuit.specs.CauseNames.{cause_name};
ghost use Rattle.ps_circuit.specs.Causes.{cause_number};

use ps_text::faults::{Cause, Fault};

/// What is wrong with an AIGER text, with sections of the AIGER 1.9 format description. AIGER allows texts with the
/// last two errors, which are limits of psyn.
#[derive(Clone, Copy, Debug, PartialEq, Eq)]
pub enum AigCause {
    /// A byte is not allowed here, the text ends too early, or a symbol's input, latch or output does not exist or
    /// already has a name (AIGER 1.9: ASCII format, symbol table, comments).
    Syntax,
    /// A number is not allowed here: a literal that is too large, or one that should define a variable and is negated
    /// or constant; a reset above 1; or a greatest variable of 2^31 or more (AIGER 1.9: literals).
    Literal,
    /// A variable is defined a second time (AIGER 1.9: literals).
    DefinedTwice,
    /// The variable of a literal is used, but never defined (AIGER 1.9: literals).
    Undefined,
    /// A gate depends on itself (AIGER 1.9: and-gates).
    Cyclic,
    /// A latch's reset is its own literal (AIGER 1.9: reset logic); psyn, which runs circuits, needs a first value.
    UnsetLatch,
    /// One of the header's counts B, C, J and F is not 0: bad states, constraints, justice, fairness.
    Sections,
}

/// An error in the text, or out of memory.
pub type AigFault = Fault<AigCause>;

impl Cause for AigCause {
    ghost number = { cause_number };

    ghost name = { cause_name };

    fn number(self) -> u8 {
        match self {
            AigCause::Syntax => 61,
            AigCause::Literal => 62,
            AigCause::DefinedTwice => 63,
            AigCause::Undefined => 64,
            AigCause::Cyclic => 65,
            AigCause::UnsetLatch => 66,
            AigCause::Sections => 67,
        }
    }

    fn name(self) -> &'static str {
        match self {
            AigCause::Syntax => "Syntax",
            AigCause::Literal => "Literal",
            AigCause::DefinedTwice => "DefinedTwice",
            AigCause::Undefined => "Undefined",
            AigCause::Cyclic => "Cyclic",
            AigCause::UnsetLatch => "UnsetLatch",
            AigCause::Sections => "Sections",
        }
    }
}
