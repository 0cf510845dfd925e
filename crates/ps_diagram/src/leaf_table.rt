//! Lists of leaves, each with a letter.

ghost use Rattle.std.specs.Prelude.{◌≡◌, ◌++◌, ◌∷◌, [], MatchOption, None, OnErr, OnOk};
ghost use Rattle.ps_diagram.specs.Inner.LeafTables.{IsPlace, LacksBefore, place_in};

use ps_keys::KeyList;
use std::alloc::{AllocError, Global};
use std::marker::Model;

/// How many leaves are searched one by one; most diagrams have no more.
const FEW: usize = 8;

/// Different leaves, each with a letter, in the order in which they were added. The first `FEW` are compared, the
/// others found by their hashes.
#[derive(Drop)]
pub(crate) struct LeafTable {
    pairs: Vec<(u64, u64)>,
    /// Those after the first `FEW`.
    others: KeyList<u64>,
}

impl Model for LeafTable {
    ghost use Rattle.std.specs.Prelude.{ℕ, List};
    ghost use Rattle.ps_diagram.specs.Inner.LeafTables.{AreDifferent};

    ghost Value = { List (ℕ × ℕ) };

    ghost view = { λ t. t.pairs.items };

    ghost invariant = { λ t. AreDifferent t.pairs.items t.others };
}

impl LeafTable {
    pub(crate) fn new(alloc: Global) -> Self
        ensures { result ≡ [] }
    {
        LeafTable {
            pairs: Vec::new(alloc),
            others: KeyList::new(alloc),
        }
    }

    pub(crate) fn as_slice(&self) -> &[(u64, u64)]
        ensures { result.now ≡ self.now }
    {
        &self.pairs
    }

    pub(crate) fn into_list(self) -> Vec<(u64, u64)>
        ensures { result.items ≡ self }
    {
        self.pairs
    }

    pub(crate) fn find(&self, leaf: u64) -> Option<usize>
        ensures { result ≡ place_in self.now leaf }
    {
        match early_place(&self.pairs, leaf) {
            Some(place) => Some(place),
            None => match self.others.find(leaf) {
                Some(place) => Some(FEW + place),
                None => None,
            },
        }
    }

    pub(crate) fn push(&mut self, leaf: u64, letter: u64) -> Result<(), AllocError>
        requires { place_in self.old leaf ≡ None }
        ensures ok { OnOk result (self.new ≡ self.old ++ (leaf, letter) ∷ []) }
        ensures err { OnErr result (self.new ≡ self.old) }
    {
        self.pairs.reserve(1)?;
        if self.pairs.len() >= FEW {
            self.others.place_of(leaf)?;
        }
        self.pairs.push_reserved((leaf, letter));
        Ok(())
    }
}

fn early_place(pairs: &[(u64, u64)], leaf: u64) -> Option<usize>
    ensures { MatchOption result (LacksBefore 8 pairs.now leaf) (λ place. IsPlace pairs.now leaf place) }
{
    for place in 0..pairs.len().min(FEW) {
        if pairs[place].0 == leaf {
            return Some(place);
        }
    }
    None
}
