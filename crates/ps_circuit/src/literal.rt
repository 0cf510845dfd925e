//! Literals.

ghost use Rattle.std.specs.Prelude.{◌≡◌, ◌<◌, ◌^◌, ◌*◌, if◌then◌else◌};
ghost use Rattle.ps_circuit.specs.Literals.{is_negated, negated, variable};

use std::marker::Model;

/// A variable, negated or not; variable 0 is false. Its number, by which literals are ordered, is twice the variable,
/// plus one if it is negated.
#[derive(Debug, Clone, Copy, PartialEq, Eq, PartialOrd, Ord, Hash)]
pub struct Literal {
    number: u32,
}

impl Model for Literal {
    ghost use Rattle.std.specs.Prelude.{ℕ};

    ghost Value = { ℕ };

    ghost view = { λ l. l.number };

    ghost inverse = { λ n. record { number = n } };
}

impl Literal {
    /// Always false.
    pub const FALSE: Literal = Literal { number: 0 };

    /// Always true.
    pub const TRUE: Literal = Literal { number: 1 };

    /// The literal of this number.
    pub fn new(number: u32) -> Self
        ensures { result ≡ number }
    {
        Literal { number }
    }

    /// A variable, not negated.
    pub fn positive(variable: u32) -> Self
        requires { variable < 2 ^ 31 }
        ensures { result ≡ 2 * variable }
    {
        Literal {
            number: 2 * variable,
        }
    }

    /// Always this value.
    pub fn constant(bit: bool) -> Self
        ensures { result ≡ (if bit then 1 else 0) }
    {
        if bit { Literal::TRUE } else { Literal::FALSE }
    }

    /// Its number, as in an AIGER text.
    pub fn number(self) -> u32
        ensures { result ≡ self }
    {
        self.number
    }

    /// Its variable.
    pub fn variable(self) -> u32
        ensures { result ≡ variable self }
    {
        self.number / 2
    }

    /// Whether it is negated.
    pub fn is_negated(self) -> bool
        ensures { result ≡ is_negated self }
    {
        self.number % 2 == 1
    }

    /// Its negation.
    pub fn negated(self) -> Self
        ensures { result ≡ negated self }
    {
        let number = if self.is_negated() {
            self.number - 1
        } else {
            self.number + 1
        };
        Literal { number }
    }
}
