//! Distinct names in order of appearance.

ghost use Rattle.std.specs.Prelude.{◌≡◌, ◌++◌, ◌∷◌, [], None, OnOk, OnErr, length};
ghost use Rattle.ps_hoa.specs.Grammar.Labels.{alias_number};

use std::alloc::{AllocError, Global};
use std::collections::BTreeMap;
use std::marker::Model;

/// Distinct parts of one text, in order of appearance. A tree gives the number of each, so a lookup is fast whatever
/// they are.
#[derive(Drop)]
pub(crate) struct Names<'a> {
    names: Vec<&'a [u8]>,
    numbers: BTreeMap<&'a [u8], usize>,
}

impl<'a> Model for Names<'a> {
    ghost use Rattle.std.specs.BTreeMap.{get_by};
    ghost use Rattle.std.specs.Cmp.Lexicographic.{slice_cmp};
    ghost use Rattle.std.specs.Ordering.{nat_cmp};
    ghost use Rattle.std.specs.Prelude.{ℕ, List, map, ◌≡◌};
    ghost use Rattle.ps_hoa.specs.Grammar.Labels.{alias_number};

    ghost Value = { List (List ℕ) };

    ghost view = { λ n. map (λ name. name.now) n.names.items };

    ghost invariant = { λ n. (name : List ℕ) → get_by (λ k. slice_cmp nat_cmp name k.now) n.numbers ≡ alias_number
        (map (λ k. k.now) n.names.items) name };
}

impl<'a> Names<'a> {
    pub(crate) fn new(alloc: Global) -> Self
        ensures { result ≡ [] }
    {
        Names {
            names: Vec::new(alloc),
            numbers: BTreeMap::new(alloc),
        }
    }

    pub(crate) fn len(&self) -> usize
        ensures { result ≡ length self.now }
    {
        self.names.len()
    }

    /// The number of a name, if it is in the list.
    pub(crate) fn number(&self, name: &[u8]) -> Option<usize>
        ensures { result ≡ alias_number self.now name.now }
    {
        self.numbers.get(name).copied()
    }

    pub(crate) fn push(&mut self, name: &'a [u8]) -> Result<(), AllocError>
        requires { alias_number self.old name.now ≡ None }
        ensures ok { OnOk result (self.new ≡ self.old ++ name.now ∷ []) }
        ensures err { OnErr result (self.new ≡ self.old) }
    {
        self.names.reserve(1)?;
        self.numbers.insert(name, self.names.len())?;
        self.names.push(name).unwrap();
        Ok(())
    }
}

/// What a label may use.
#[derive(Drop)]
pub(crate) struct Scope<'s, 'a> {
    /// The aliases that are defined before it.
    pub(crate) aliases: &'s Names<'a>,
    /// The number of propositions, if it is known.
    pub(crate) propositions: Option<usize>,
}

impl<'s, 'a> Model for Scope<'s, 'a> {
    ghost use Rattle.ps_hoa.specs.Grammar.Labels.{ScopeData};

    ghost Value = { ScopeData };

    ghost view = { λ s. record { names = s.aliases.now; propositions = s.propositions } };
}
