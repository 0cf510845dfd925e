//! The errors of a specification.

ghost use Rattle.ps_tlsf.specs.Causes.{cause_name, cause_number};

use ps_text::faults::{Cause, Fault};

/// Why a specification is rejected; the limits are psyn's own.
#[derive(Clone, Copy, Debug, PartialEq, Eq)]
pub enum TlsfCause {
    /// A token, or the end of the text, is not allowed here; a string or a comment is not closed; a byte begins no
    /// token.
    Syntax,
    /// A name is declared that was declared before or is an operator, or an operand is not declared.
    Name,
    /// An item of `INFO`, or `INPUTS` or `OUTPUTS`, comes a second time.
    Twice,
    /// No `SEMANTICS`, no `TARGET`, or two different orders of moves.
    Order,
    /// A text of more than 16,777,216 bytes, too many names, too many operators and operands, or too deep a nesting.
    Limit,
}

/// An error in the text, with its offset, or out of memory.
pub type TlsfFault = Fault<TlsfCause>;

impl Cause for TlsfCause {
    ghost number = { cause_number };

    ghost name = { cause_name };

    fn number(self) -> u8 {
        match self {
            TlsfCause::Syntax => 80,
            TlsfCause::Name => 81,
            TlsfCause::Twice => 82,
            TlsfCause::Order => 83,
            TlsfCause::Limit => 84,
        }
    }

    fn name(self) -> &'static str {
        match self {
            TlsfCause::Syntax => "Syntax",
            TlsfCause::Name => "Name",
            TlsfCause::Twice => "Twice",
            TlsfCause::Order => "Order",
            TlsfCause::Limit => "Limit",
        }
    }
}
