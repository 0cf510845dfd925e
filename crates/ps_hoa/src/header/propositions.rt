//! Names of propositions.

ghost use Rattle.std.specs.Prelude.{◌≡◌, ◌++◌, ◌∷◌, [], false, OnOk, OnErr, length, map};
ghost use Rattle.ps_hoa.specs.Grammar.Header.{is_name_among};
ghost use Rattle.ps_hoa.specs.Memory.{bytes_of};

use crate::tokens::is_same;
use std::alloc::{AllocFailed, Global};
use std::marker::Model;

/// The names of the propositions in order, each once. A search compares all, since there are few.
#[derive(Debug, Drop)]
pub struct Propositions {
    names: Vec<Vec<u8>>,
}

impl Model for Propositions {
    ghost use Rattle.std.specs.Prelude.{ℕ, List, map};
    ghost use Rattle.ps_hoa.specs.Memory.{bytes_of};

    ghost Value = { List (List ℕ) };

    ghost view = { λ p. map bytes_of p.names.items };
}

impl Propositions {
    /// No names.
    pub fn new(alloc: Global) -> Self
        ensures { result ≡ [] }
    {
        Propositions {
            names: Vec::new(alloc),
        }
    }

    /// The given names.
    pub(crate) fn of_names(names: Vec<Vec<u8>>) -> Self
        ensures { result ≡ map bytes_of names.items }
    {
        Propositions { names }
    }

    /// The number of propositions.
    pub fn len(&self) -> usize
        ensures { result ≡ length self.now }
    {
        self.names.len()
    }

    /// The names, in order.
    pub fn as_slice(&self) -> &[Vec<u8>]
        ensures { map bytes_of result.now ≡ self.now }
    {
        self.names.as_slice()
    }

    /// Whether a proposition has the given name.
    pub fn has(&self, name: &[u8]) -> bool
        ensures { result ≡ is_name_among name.now self.now }
    {
        is_among(name, &self.names)
    }

    /// Adds a new name. If out of memory, it fails and returns the name.
    pub fn push(&mut self, name: Vec<u8>) -> Result<(), AllocFailed<Vec<u8>>>
        requires { is_name_among name.items self.old ≡ false }
        ensures ok { OnOk result (self.new ≡ self.old ++ name.items ∷ []) }
        ensures err { OnErr result (self.new ≡ self.old) }
    {
        self.names.push(name)?;
        Ok(())
    }
}

fn is_among(name: &[u8], names: &[Vec<u8>]) -> bool
    ensures { result ≡ is_name_among name.now (map bytes_of names.now) }
{
    for other in names {
        if is_same(name, other) {
            return true;
        }
    }
    false
}
