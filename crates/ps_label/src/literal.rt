//! Literals, and short conjunctions of literals.

ghost use Rattle.std.specs.Prelude.{◌≡◌, ◌/◌, ◌%◌, ◌<◌, ◌≤◌, ◌++◌, ◌∷◌, [], length, nat_eq};

use std::fmt;
use std::marker::Model;

/// The most literals in a `Literals`, which is then as large as a `Vec`.
pub const MOST: usize = 23;

/// A proposition less than 64, or its negation. In contracts, its number in AIGER: twice the proposition, plus 1 if
/// negated.
#[derive(Clone, Copy)]
pub struct Literal {
    code: u8,
}

impl Model for Literal {
    ghost use Rattle.std.specs.Prelude.{ℕ, ◌<◌};
    ghost use Rattle.std.specs.Coded.{coded_ℕ};

    ghost Value = { ℕ };

    ghost coded = { coded_ℕ };

    ghost view = { λ l. l.code };

    ghost invariant = { λ l. l.code < 128 };

    ghost inverse = { λ n. record { code = n } };
}

impl Literal {
    /// The proposition, or its negation.
    pub fn new(proposition: u32, negated: bool) -> Self
        requires { proposition < 64 }
        ensures proposition { result / 2 ≡ proposition }
        ensures negated { nat_eq (result % 2) 1 ≡ negated }
    {
        Literal {
            code: proposition as u8 * 2 + negated as u8,
        }
    }

    /// The proposition.
    pub fn proposition(self) -> u32
        ensures { result ≡ self / 2 }
    {
        (self.code / 2) as u32
    }

    /// Whether the proposition is negated.
    pub fn is_negated(self) -> bool
        ensures { result ≡ nat_eq (self % 2) 1 }
    {
        self.code % 2 == 1
    }
}

impl fmt::Debug for Literal {
    fn fmt<W: fmt::Write>(&self, f: &mut fmt::Formatter<W>) -> fmt::Result {
        let sign = if self.is_negated() { "!" } else { "" };
        let proposition = self.proposition();
        write!(f, "{sign}{proposition}")
    }
}

/// A list of at most 23 literals, which uses no memory outside this value.
#[derive(Drop)]
pub struct Literals {
    count: u8,
    list: [Literal; MOST],
}

impl Model for Literals {
    ghost use Rattle.std.specs.Prelude.{List, ℕ, ◌≤◌, take};
    ghost use Rattle.std.specs.Coded.{coded_list, coded_ℕ};
    ghost use Rattle.ps_label.specs.declared.literal.TheConstants.{MOST};

    ghost Value = { List ℕ };

    ghost coded = { coded_list coded_ℕ };

    ghost view = { λ s. take s.count s.list };

    ghost invariant = { λ s. s.count ≤ MOST };
}

impl Literals {
    /// No literals.
    pub fn new() -> Self
        ensures { result ≡ [] }
    {
        Literals {
            count: 0,
            list: [Literal { code: 0 }; MOST],
        }
    }

    /// The given literal alone.
    pub fn of(literal: Literal) -> Self
        ensures { result ≡ literal ∷ [] }
    {
        let mut literals = Literals::new();
        literals.push(literal);
        literals
    }

    /// Whether there is no space for another literal.
    pub fn is_full(&self) -> bool
        ensures full { result ≡ nat_eq (length self.now) MOST }
        ensures few { length self.now ≤ MOST }
    {
        self.as_slice().len() == MOST
    }

    /// Adds a literal at the end.
    pub fn push(&mut self, literal: Literal)
        requires { length self.old < MOST }
        ensures { self.new ≡ self.old ++ literal ∷ [] }
    {
        self.list[self.count as usize] = literal;
        self.count += 1;
    }

    /// The literals in their order.
    pub fn as_slice(&self) -> &[Literal]
        ensures value { result.now ≡ self.now }
        ensures few { length self.now ≤ MOST }
    {
        &self.list[..self.count as usize]
    }
}

impl fmt::Debug for Literals {
    fn fmt<W: fmt::Write>(&self, f: &mut fmt::Formatter<W>) -> fmt::Result {
        let literals = self.as_slice();
        write!(f, "{literals:?}")
    }
}
