//! Sets of formulas, as numbers.

ghost use Rattle.std.specs.Prelude.{◌≡◌};
ghost use Rattle.std.specs.Cmp.Rules.{hashing};
ghost use Rattle.std.proofs.Common.{rules};
ghost use Rattle.ps_keys.specs.Hashes.{mixed};

use ps_keys::{Hashed, Word, mixed};
use std::marker::Model;

/// A set of formulas of the tableau that made it.
#[derive(Debug, Clone, Copy, PartialEq, Eq)]
pub struct Set {
    pub(crate) number: u32,
}

impl Model for Set {
    ghost use Rattle.std.specs.Prelude.{ℕ};

    ghost Value = { ℕ };

    ghost view = { λ s. s.number };

    ghost inverse = { λ n. record { number = n } };
}

impl Set {
    pub(crate) const EMPTY: Set = Set { number: 0 };

    /// Its number.
    pub fn number(self) -> u32
        ensures { result ≡ self }
    {
        self.number
    }
}

impl Word for Set {
    ghost word = { λ set. set };

    ghost equal = { Prim.search (hashing, rules) };

    #[inline(always)]
    fn word(&self) -> u64 {
        self.number as u64
    }
}

impl Hashed for Set {
    ghost hash = { λ seed set. mixed seed set 0 };

    ghost alike = { Prim.search (hashing, rules) };

    #[inline(always)]
    fn hash(&self, seed: u64) -> u64 {
        mixed(seed, self.number as u64, 0)
    }
}
