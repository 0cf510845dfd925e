//! The sides of nodes at the first proposition that they test.

ghost use Rattle.std.specs.Prelude.{◌≡◌, ℕ, ◌+◌, ◌≤◌, ◌<◌, ◌↔◌, IsTrue, MatchOption};
ghost use Rattle.ps_diagram.specs.Tree.{empty};
ghost use Rattle.ps_diagram.specs.Table.{IsNode, IsSoundTable, tree_of};

use crate::store::Store;
use crate::view::{Node, View};

/// What a node is if a proposition is false, and if it is true.
#[derive(Clone, Copy)]
pub(crate) struct Sides {
    pub low: Node,
    pub high: Node,
}

/// The sides of two nodes at the first proposition that one of them tests.
#[derive(Clone, Copy)]
pub(crate) struct Split {
    pub proposition: u32,
    pub left: Sides,
    pub right: Sides,
}

impl Store {
    ghost use Rattle.ps_diagram.specs.Split.{AreConstants, IsSides, IsSplit, root_of};

    /// The first proposition that a node tests, or else the number of propositions.
    pub(crate) fn level(&self, node: Node) -> u32
        requires held { IsNode self.now node }
        ensures root { result ≡ root_of self.now.propositions (tree_of self.now node) }
        ensures within { result ≤ self.now.propositions }
        ensures sound { IsSoundTable self.now }
    {
        match self.cell(node) {
            View::Test { proposition, .. } => proposition,
            _ => self.propositions(),
        }
    }

    /// The sides of a node at a proposition, which comes after none that it tests.
    pub(crate) fn sides(&self, node: Node, proposition: u32) -> Sides
        requires held { IsNode self.now node }
        requires later { proposition ≤ root_of self.now.propositions (tree_of self.now node) }
        requires named { proposition < self.now.propositions }
        ensures sides { IsSides self.now node proposition result.low result.high }
        ensures low_falls { root_of self.now.propositions (tree_of self.now node) ≡ proposition → result.low < node }
        ensures high_falls { root_of self.now.propositions (tree_of self.now node) ≡ proposition → result.high < node }
    {
        let whole = Sides {
            low: node,
            high: node,
        };
        match self.cell(node) {
            View::Test {
                proposition: own,
                low,
                high,
            } => {
                if own == proposition {
                    Sides { low, high }
                } else {
                    whole
                }
            }
            View::Nothing => whole,
            View::Leaf(_) => whole,
        }
    }

    /// These sides, unless neither tests any.
    pub(crate) fn split(&self, first: Node, second: Node) -> Option<Split>
        requires first { IsNode self.now first }
        requires second { IsNode self.now second }
        ensures { MatchOption result
            (AreConstants self.now first second)
            (λ s. IsSplit self.now first second s) }
    {
        let proposition = self.level(first).min(self.level(second));
        if proposition == self.propositions() {
            return None;
        }
        Some(Split {
            proposition,
            left: self.sides(first, proposition),
            right: self.sides(second, proposition),
        })
    }

    /// Whether a node has no leaf at any letter.
    pub(crate) fn is_nothing(&self, node: Node) -> bool
        requires held { IsNode self.now node }
        ensures { IsTrue result ↔ (tree_of self.now node ≡ empty) }
    {
        matches!(self.cell(node), View::Nothing)
    }
}
