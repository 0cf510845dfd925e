//! Numbers in a text.

ghost use Rattle.std.specs.Prelude.{◌≡◌, ◌<◌, ◌^◌};
ghost use Rattle.ps_text.specs.declared.faults.Fault.TheVariants as faults;
ghost use Rattle.ps_circuit.specs.Literals.{variable};

use crate::fault::{AigCause, AigFault};
use crate::literal::Literal;

/// A number, and where it is.
#[derive(Clone, Copy)]
pub struct Number {
    /// Its value, or the greatest of 64 bits if it does not fit.
    pub value: u64,
    /// The offset of its first digit.
    pub offset: usize,
}

impl Number {
    /// The literal of this number.
    pub fn literal(self) -> Literal
        requires { self.value < 2 ^ 32 }
        ensures { result ≡ self.value }
    {
        Literal::new(self.value as u32)
    }

    /// Its variable.
    pub fn variable(self) -> u64
        ensures { result ≡ variable self.value }
    {
        self.value / 2
    }

    /// The fault with this cause here.
    pub fn refused(self, cause: AigCause) -> AigFault
        ensures { result ≡ faults.Text cause self.offset }
    {
        AigFault::Text {
            cause,
            offset: self.offset,
        }
    }
}
