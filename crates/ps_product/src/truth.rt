//! Boolean functions of letters, called truths.

ghost use Rattle.std.specs.Prelude.{◌≡◌, ℕ, ◌^◌, ◌<◌, ◌≤◌, ◌&&◌, not, is_some, IfOk};
ghost use Rattle.ps_label.specs.Truth.{is_in};
ghost use Rattle.ps_diagram.specs.Labels.{IsOneOrNone};
ghost use Rattle.ps_diagram.specs.Table.{IsNode, Table, leaf_of};
ghost use Rattle.ps_product.specs.Truths.{IsTruth, IsVarying, MakesTruth, bit_by_wire, with_sign, truth_at};

use ps_diagram::{Node, Store};
use ps_simulate::Wire;
use std::alloc::AllocError;
use std::marker::Model;

/// A Boolean function of letters.
#[derive(Debug, Clone, Copy)]
pub enum Truth {
    /// True at no letter.
    Never,
    /// True at every letter.
    Always,
    /// Not constant.
    Sometimes {
        /// Whether the node is the negation's.
        is_negated: bool,
        /// The diagram of the function, or of its negation, with a leaf where that is true.
        node: Node,
    },
}

impl Truth {
    /// The same value at every letter.
    pub fn constant(bit: bool) -> Self
        ensures truth { (table : Table) (letter : ℕ) → truth_at table result letter ≡ bit }
        ensures is_truth { (table : Table) → IsTruth table result }
    {
        if bit { Truth::Always } else { Truth::Never }
    }

    /// The negation.
    pub fn negated(self) -> Self
        ensures truth { (table : Table) (letter : ℕ) → truth_at table result letter ≡ not (truth_at table self letter) }
        ensures is_truth { (table : Table) → IsTruth table self → IsTruth table result }
    {
        match self {
            Truth::Never => Truth::Always,
            Truth::Always => Truth::Never,
            Truth::Sometimes { is_negated, node } => Truth::Sometimes {
                is_negated: !is_negated,
                node,
            },
        }
    }

    /// The truth of a literal, by that of its variable.
    pub(crate) fn along(self, wire: Wire) -> Self
        ensures truth { (table : Table) (letter : ℕ) →
            truth_at table result letter ≡ bit_by_wire wire (truth_at table self letter) }
        ensures is_truth { (table : Table) → IsTruth table self → IsTruth table result }
    {
        if wire.is_negated {
            self.negated()
        } else {
            self
        }
    }
}

/// Makes truths of the letters over some propositions. Calls that make one fail if memory runs out.
#[derive(Drop)]
pub struct Truths {
    store: Store,
    none: Node,
    one: Node,
}

impl Model for Truths {
    ghost use Rattle.ps_diagram.specs.Table.{Table};
    ghost use Rattle.ps_product.specs.Inner.Constants.{HasConstants};

    ghost Value = { Table };

    ghost view = { λ t. t.store };

    ghost invariant = { λ t. HasConstants t.store t.none t.one };
}

impl Truths {
    /// A maker, whose diagrams are added to the store.
    pub fn new(mut store: Store) -> Result<Self, AllocError>
        ensures { IfOk result (λ truths. truths.propositions ≡ store.propositions) }
    {
        let none = store.none()?;
        let one = store.leaf(1)?;
        Ok(Truths { store, none, one })
    }

    /// The store with the diagrams.
    pub fn into_store(self) -> Store
        ensures { result ≡ self }
    {
        self.store
    }

    /// True at letters at which the proposition is.
    pub fn proposition(&mut self, proposition: u32) -> Result<Truth, AllocError>
        requires named { proposition < self.old.propositions }
        ensures { MakesTruth self.old self.new result (λ letter. is_in proposition letter) }
    {
        let node = self.store.of_proposition(proposition)?;
        Ok(self.truth_of(node, false))
    }

    /// The conjunction.
    pub fn both(&mut self, first: Truth, second: Truth) -> Result<Truth, AllocError>
        requires first { IsTruth self.old first }
        requires second { IsTruth self.old second }
        ensures { MakesTruth self.old self.new result
            (λ letter. truth_at self.old first letter && truth_at self.old second letter) }
    {
        let (one, one_negated) = match first {
            Truth::Never => return Ok(Truth::Never),
            Truth::Always => return Ok(second),
            Truth::Sometimes { is_negated, node } => (node, is_negated),
        };
        match second {
            Truth::Never => Ok(Truth::Never),
            Truth::Always => Ok(first),
            Truth::Sometimes { is_negated, node } => {
                self.both_varying(one, one_negated, node, is_negated)
            }
        }
    }

    /// The conjunction of two functions that are not constant.
    fn both_varying(
        &mut self,
        one: Node,
        one_negated: bool,
        other: Node,
        other_negated: bool,
    ) -> Result<Truth, AllocError>
        requires one { IsVarying self.old one }
        requires other { IsVarying self.old other }
        ensures { MakesTruth self.old self.new result
            (λ letter. with_sign one_negated (is_some (leaf_of self.old one letter)) &&
            with_sign other_negated (is_some (leaf_of self.old other letter))) }
    {
        // where `one` is false, so is the conjunction: `rest` is false in a diagram that is negated as `other` is
        let rest = if other_negated { self.one } else { self.none };
        let (high, low) = if one_negated {
            (rest, other)
        } else {
            (other, rest)
        };
        let node = self.store.choose(one, high, low)?;
        Ok(self.truth_of(node, other_negated))
    }

    /// The truth of a diagram whose leaves are all 1.
    fn truth_of(&self, node: Node, is_negated: bool) -> Truth
        requires held { IsNode self.now node }
        requires leaves { (letter : ℕ) → IsOneOrNone (leaf_of self.now node letter) }
        ensures is_truth { IsTruth self.now result }
        ensures truth { (letter : ℕ) → letter < 2 ^ self.now.propositions →
            truth_at self.now result letter ≡ with_sign is_negated (is_some (leaf_of self.now node letter)) }
    {
        if self.store.same(node, self.none) {
            return Truth::constant(is_negated);
        }
        if self.store.same(node, self.one) {
            return Truth::constant(!is_negated);
        }
        Truth::Sometimes { is_negated, node }
    }
}
