//! Replaces the propositions of a diagram by Boolean functions (truths), given as diagrams.

ghost use Rattle.std.specs.Prelude.{◌≡◌, ◌<◌, ◌≤◌, ℕ, All, IfOk, IfSome, OnOk, length, nat_eq};
ghost use Rattle.ps_diagram.specs.Inner.Kept.{result_for};
ghost use Rattle.ps_diagram.specs.Composing.{IsLetterOfTruths};
ghost use Rattle.ps_diagram.specs.Inner.Composed.{IsComposed, IsOnlySide};
ghost use Rattle.ps_diagram.specs.Inner.Known.{Knows};
ghost use Rattle.ps_diagram.specs.Table.{IsNode, MakesNode, MakesTree, leaf_of, tree_of};

use crate::memo::Memo;
use crate::store::Store;
use crate::view::{Node, View};
use std::alloc::AllocError;

impl Store {
    /// The diagram of a node of another store, in which the function `truths[p]`, true where this node has a leaf,
    /// replaces the proposition p: the functions' values form the letter at which that node has the result's leaf.
    pub fn composed_from(
        &mut self,
        other: &Store,
        node: Node,
        truths: &[Node],
    ) -> Result<Node, AllocError>
        requires held { IsNode other.now node }
        requires one_each { other.now.propositions ≤ length truths.now }
        requires truths { All (IsNode self.old) truths.now }
        ensures { MakesNode self.old self.new result
            (λ made. (letter whole : ℕ) → IsLetterOfTruths self.old truths.now letter whole →
            leaf_of self.new made letter ≡ leaf_of other.now node whole) }
    {
        let mut known = Memo::new(self.allocator());
        self.composed_by(other, node, truths, &mut known)
    }

    fn composed_by(
        &mut self,
        other: &Store,
        node: Node,
        truths: &[Node],
        known: &mut Memo<Node>,
    ) -> Result<Node, AllocError>
        requires held { IsNode other.now node }
        requires one_each { other.now.propositions ≤ length truths.now }
        requires truths { All (IsNode self.old) truths.now }
        requires known { Knows (IsComposed self.old truths.now) other.now self.old (result_for nat_eq known.old.table) }
        ensures made { MakesTree self.old self.new result (IsComposed self.old truths.now (tree_of other.now node)) }
        ensures known { OnOk result
            (Knows (IsComposed self.new truths.now) other.now self.new (result_for nat_eq known.new.table)) }
    {
        let (proposition, low, high) = match other.cell(node) {
            View::Nothing => return self.none(),
            View::Leaf(value) => return self.leaf(value),
            View::Test {
                proposition,
                low,
                high,
            } => (proposition, low, high),
        };
        let truth = truths[proposition as usize];
        if let Some(side) = self.only_side(truth, low, high) {
            return self.composed_by(other, side, truths, known);
        }
        if let Some(made) = known.get(node) {
            return Ok(made);
        }
        let low = self.composed_by(other, low, truths, known)?;
        let high = self.composed_by(other, high, truths, known)?;
        let made = self.choose(truth, high, low)?;
        known.put(node, made)?;
        Ok(made)
    }

    /// The only side of a test that is needed: `high` if `truth` is true at every letter, `low` if at none.
    fn only_side(&self, truth: Node, low: Node, high: Node) -> Option<Node>
        requires held { IsNode self.now truth }
        ensures { IfSome result (IsOnlySide self.now truth low high) }
    {
        match self.cell(truth) {
            View::Nothing => Some(low),
            View::Leaf(_) => Some(high),
            View::Test { .. } => None,
        }
    }
}
