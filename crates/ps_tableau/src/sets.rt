//! A table of sets.

ghost use Rattle.std.specs.Prelude.{◌≡◌, ◌↔◌, ◌∷◌, ℕ, [], Contains, IfOk, IsTrue, MatchOption};
ghost use Rattle.ps_tableau.specs.Inner.SetSteps.{AreBothSets, AreMerged, ArePartsOf, AreSetsWith, ExtendsSets};
ghost use Rattle.ps_tableau.specs.Inner.SetSteps.{IsGreatest, IsNone, IsUnion, IsWithin, MakesSet};
ghost use Rattle.ps_tableau.specs.Sets.{AreSets, IsSet, indices_in};

use crate::set::Set;
use crate::words::Words;
use ps_keys::KeyList;
use std::alloc::{AllocError, Global};
use std::marker::Model;

/// Sets of formulas, which are given by their indices. The set 0 is empty; the set k + 1 is the pair at the index k, of
/// its greatest formula and the set of the others. So equal sets have one number.
#[derive(Debug, Drop)]
pub(crate) struct Sets {
    pairs: KeyList<(u32, Set)>,
    words: Words,
    alloc: Global,
}

impl Model for Sets {
    ghost use Rattle.std.specs.Prelude.{ℕ, List};
    ghost use Rattle.ps_tableau.specs.Sets.{AreSets};

    ghost Value = { List (ℕ × ℕ) };

    ghost view = { λ s. s.pairs };

    ghost invariant = { λ s. AreSets s.pairs };
}

/// A set that is not empty: its greatest formula, and the set of the others.
#[derive(Clone, Copy)]
pub(crate) struct Parts {
    pub greatest: u32,
    pub others: Set,
}

/// The greatest formula of two sets, and both without it.
#[derive(Clone, Copy)]
pub(crate) struct Greatest {
    pub index: u32,
    pub first: Set,
    pub second: Set,
}

/// Two sets, partly taken apart.
#[derive(Drop)]
pub(crate) struct Merged {
    /// Formulas of the sets, in descending order.
    pub taken: Vec<u32>,
    /// The set of their other formulas.
    pub rest: Set,
}

impl Sets {
    /// The empty set alone.
    pub(crate) fn new(alloc: Global) -> Self
        ensures { result ≡ [] }
    {
        Sets {
            pairs: KeyList::new(alloc),
            words: Words::new(alloc),
            alloc,
        }
    }

    /// The parts of a set, unless it is empty.
    pub(crate) fn parts(&self, set: Set) -> Option<Parts>
        requires { IsSet self.now set }
        ensures { MatchOption result (set ≡ 0) (ArePartsOf self.now set) }
    {
        let pairs = self.pairs.as_slice();
        if set == Set::EMPTY {
            return None;
        }
        let pair = pairs[set.number as usize - 1];
        Some(Parts {
            greatest: pair.0,
            others: pair.1,
        })
    }

    /// The set with one more formula, the greatest.
    pub(crate) fn with(&mut self, index: u32, rest: Set) -> Result<Set, AllocError>
        requires { IsSet self.old rest }
        ensures { ExtendsSets self.old self.new result
            (MakesSet self.new (λ is. is ≡ index ∷ indices_in self.old rest)) }
    {
        let place = self.pairs.place_of((index, rest))?;
        self.pairs.keys_are_few();
        self.words.add(place, index, rest)?;
        Ok(Set {
            number: place as u32 + 1,
        })
    }

    pub(crate) fn union(&mut self, a: Set, b: Set) -> Result<Set, AllocError>
        requires { AreBothSets self.old a b }
        ensures { ExtendsSets self.old self.new result (IsUnion self.old a b self.new) }
    {
        self.sets_are_sound();
        let merged = self.merged(a, b)?;
        self.with_all(&merged.taken, merged.rest)
    }

    /// Two sets, taken apart until one is empty.
    fn merged(&self, a: Set, b: Set) -> Result<Merged, AllocError>
        requires { AreBothSets self.now a b }
        ensures { IfOk result (AreMerged self.now a b) }
    {
        let mut first = a;
        let mut second = b;
        let mut taken = Vec::new(self.alloc);
        while let Some(greatest) = self.greatest(first, second) {
            taken.push(greatest.index)?;
            first = greatest.first;
            second = greatest.second;
        }
        let rest = if first == Set::EMPTY { second } else { first };
        Ok(Merged { taken, rest })
    }

    /// Their greatest formula, unless one is empty.
    fn greatest(&self, a: Set, b: Set) -> Option<Greatest>
        requires { AreBothSets self.now a b }
        ensures { MatchOption result (IsNone a b) (IsGreatest self.now a b) }
    {
        let left = self.parts(a)?;
        let right = self.parts(b)?;
        let i = left.greatest;
        let j = right.greatest;
        Some(Greatest {
            index: i.max(j),
            first: if i < j { a } else { left.others },
            second: if j < i { b } else { right.others },
        })
    }

    /// A set with more formulas, each greater than those after it and those of the set.
    pub(crate) fn with_all(&mut self, more: &[u32], set: Set) -> Result<Set, AllocError>
        requires { IsSet self.old set }
        ensures { ExtendsSets self.old self.new result (AreSetsWith self.old more.now set self.new) }
    {
        self.sets_are_sound();
        let mut set = set;
        for place in (0..more.len()).rev() {
            set = self.with(more[place], set)?;
        }
        Ok(set)
    }

    /// A word with a bit for each formula of a set; formulas may share a bit.
    pub(crate) fn word(&self, set: Set) -> u64 {
        self.words.of(set)
    }

    /// Whether a set is known to be reduced.
    pub(crate) fn is_reduced(&self, set: Set) -> bool {
        self.words.is_reduced(set)
    }

    /// A set is reduced: it need not be reduced again.
    pub(crate) fn note_reduced(&mut self, set: Set)
        ensures { self.new ≡ self.old }
    {
        self.words.note_reduced(set);
    }

    /// Each set is made from an earlier one: the prover learns it here.
    fn sets_are_sound(&self)
        ensures { AreSets self.now }
    {
        let _ = &self.pairs;
    }

    /// Whether each formula of a set is in another.
    pub(crate) fn is_within(&self, a: Set, b: Set) -> bool
        requires { AreBothSets self.now a b }
        ensures { IsTrue result → IsWithin self.now a b }
    {
        if self.word(a) & !self.word(b) != 0 {
            return false;
        }
        let mut first = a;
        let mut second = b;
        while first != second {
            let Some(left) = self.parts(first) else {
                return true;
            };
            let Some(right) = self.parts(second) else {
                return false;
            };
            if right.greatest < left.greatest {
                return false;
            }
            if left.greatest == right.greatest {
                first = left.others;
            }
            second = right.others;
        }
        true
    }

    pub(crate) fn contains(&self, set: Set, index: u32) -> bool
        requires { IsSet self.now set }
        ensures { IsTrue result ↔ Contains (indices_in self.now set) index }
    {
        let mut rest = set;
        while let Some(parts) = self.parts(rest) {
            if parts.greatest == index {
                return true;
            }
            rest = parts.others;
        }
        false
    }

    /// The formulas of a set, in descending order.
    pub(crate) fn members(&self, set: Set) -> Result<Vec<u32>, AllocError>
        requires { IsSet self.now set }
        ensures { IfOk result (λ members. members.items ≡ indices_in self.now set) }
    {
        let mut members = Vec::new(self.alloc);
        let mut rest = set;
        while let Some(parts) = self.parts(rest) {
            members.push(parts.greatest)?;
            rest = parts.others;
        }
        Ok(members)
    }
}
