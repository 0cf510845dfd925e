//! Disjunctions of diagrams of truth values, which have the leaf 1 for true and none for false.

ghost use Rattle.std.specs.Prelude.{◌≡◌, ℕ, ◌+◌, ◌<◌, IfSome};
ghost use Rattle.ps_diagram.specs.Inner.Kept.{result_for};
ghost use Rattle.ps_diagram.specs.Inner.Known.{KnowsPairs, pair_eq};
ghost use Rattle.ps_diagram.specs.Inner.Unions.{IsTruthTree, IsUnion};
ghost use Rattle.ps_diagram.specs.Labels.{IsOneOrNone};
ghost use Rattle.ps_diagram.specs.Leaves.{either_leaf};
ghost use Rattle.ps_diagram.specs.Split.{AreConstants};
ghost use Rattle.ps_diagram.specs.Table.{IsNode, MakesDiagram, MakesTree, leaf_of, tree_of};

use crate::memo::Memo;
use crate::split::Split;
use crate::store::Store;
use crate::view::{Node, View};
use std::alloc::AllocError;

impl Store {
    /// The disjunction of two nodes.
    pub(crate) fn either(&mut self, first: Node, second: Node) -> Result<Node, AllocError>
        requires first { IsNode self.old first }
        requires second { IsNode self.old second }
        requires first_truth { (letter : ℕ) → IsOneOrNone (leaf_of self.old first letter) }
        requires second_truth { (letter : ℕ) → IsOneOrNone (leaf_of self.old second letter) }
        ensures { MakesDiagram self.old self.new result
            (λ letter. either_leaf (leaf_of self.old first letter) (leaf_of self.old second letter)) }
    {
        let mut known = Memo::new(self.allocator());
        self.united(first, second, &mut known)
    }

    fn united(
        &mut self,
        first: Node,
        second: Node,
        known: &mut Memo<(Node, Node)>,
    ) -> Result<Node, AllocError>
        requires first { IsNode self.old first }
        requires second { IsNode self.old second }
        requires first_truth { IsTruthTree (tree_of self.old first) }
        requires second_truth { IsTruthTree (tree_of self.old second) }
        requires known { KnowsPairs IsUnion self.old (result_for pair_eq known.old.table) }
        ensures made { MakesTree self.old self.new result
            (IsUnion (tree_of self.old first) (tree_of self.old second)) }
        ensures known { KnowsPairs IsUnion self.new (result_for pair_eq known.new.table) }
    {
        if let Some(node) = self.united_at_once(first, second) {
            return Ok(node);
        }
        if let Some(node) = known.get((first, second)) {
            return Ok(node);
        }
        let Some(split) = self.split(first, second) else {
            return Ok(self.united_leaves(first, second));
        };
        let Split {
            proposition,
            left,
            right,
        } = split;
        let low = self.united(left.low, right.low, known)?;
        let high = self.united(left.high, right.high, known)?;
        let node = self.test(proposition, low, high)?;
        known.put((first, second), node)?;
        Ok(node)
    }

    /// The disjunction, if the nodes are equal or one of them tests no proposition.
    fn united_at_once(&self, first: Node, second: Node) -> Option<Node>
        requires first { IsNode self.now first }
        requires second { IsNode self.now second }
        requires first_truth { IsTruthTree (tree_of self.now first) }
        requires second_truth { IsTruthTree (tree_of self.now second) }
        ensures held { IfSome result (λ node. IsNode self.now node) }
        ensures union { IfSome result
            (λ node. IsUnion (tree_of self.now first) (tree_of self.now second) (tree_of self.now node)) }
    {
        if first == second {
            return Some(first);
        }
        match self.cell(first) {
            View::Nothing => return Some(second),
            View::Leaf(_) => return Some(first),
            View::Test { .. } => {}
        }
        match self.cell(second) {
            View::Nothing => Some(first),
            View::Leaf(_) => Some(second),
            View::Test { .. } => None,
        }
    }

    fn united_leaves(&self, first: Node, second: Node) -> Node
        requires { AreConstants self.now first second }
        ensures held { IsNode self.now result }
        ensures union { IsUnion (tree_of self.now first) (tree_of self.now second) (tree_of self.now result) }
    {
        match self.eval(first, 0) {
            Some(_) => first,
            None => second,
        }
    }
}
