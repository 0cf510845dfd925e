//! Overlays two diagrams that never have different leaves at one letter.

ghost use Rattle.std.specs.Prelude.{◌≡◌, ◌≢◌, ℕ, ◌+◌, ◌^◌, ◌<◌, IfOk, IfErr, OnOk, Some};
ghost use Rattle.ps_diagram.specs.Inner.Kept.{result_for};
ghost use Rattle.ps_diagram.specs.Table.{IsNode, MakesDiagram, MakesTree, leaf_of, tree_of};
ghost use Rattle.ps_diagram.specs.Split.{AreConstants};
ghost use Rattle.ps_diagram.specs.Leaves.{AreCompatible, either_leaf};
ghost use Rattle.ps_diagram.specs.Inner.Known.{IsClash, IsOverlay, KnowsPairs, pair_eq};
ghost use Rattle.ps_diagram.specs.Clashes.{TellsClash};

use crate::fault::OverlayError;
use crate::memo::Memo;
use crate::split::Split;
use crate::store::Store;
use crate::view::Node;

impl Store {
    /// The diagram that has, at each letter, the leaf of the first node, or else of the second. Fails if they have
    /// different leaves at some letter, or if out of memory.
    pub fn overlay(&mut self, first: Node, second: Node) -> Result<Node, OverlayError>
        requires first { IsNode self.old first }
        requires second { IsNode self.old second }
        ensures made { MakesDiagram self.old self.new result
            (λ letter. either_leaf (leaf_of self.old first letter) (leaf_of self.old second letter)) }
        ensures alike { OnOk result ((letter : ℕ) → AreCompatible (leaf_of self.old first letter)
            (leaf_of self.old second letter)) }
        ensures clash { IfErr result (TellsClash self.old first second) }
    {
        let mut known = Memo::new(self.allocator());
        self.overlaid(first, second, &mut known)
    }

    fn overlaid(
        &mut self,
        first: Node,
        second: Node,
        known: &mut Memo<(Node, Node)>,
    ) -> Result<Node, OverlayError>
        requires first { IsNode self.old first }
        requires second { IsNode self.old second }
        requires known { KnowsPairs IsOverlay self.old (result_for pair_eq known.old.table) }
        ensures made { MakesTree self.old self.new result
            (IsOverlay (tree_of self.old first) (tree_of self.old second)) }
        ensures known { KnowsPairs IsOverlay self.new (result_for pair_eq known.new.table) }
        ensures clash { IfErr result (IsClash (tree_of self.old first) (tree_of self.old second)) }
    {
        if self.is_nothing(first) {
            return Ok(second);
        }
        if self.is_nothing(second) || first == second {
            return Ok(first);
        }
        if let Some(node) = known.get((first, second)) {
            return Ok(node);
        }
        let Some(split) = self.split(first, second) else {
            return self.overlaid_leaves(first, second);
        };
        let Split {
            proposition,
            left,
            right,
        } = split;
        let low = self.overlaid(left.low, right.low, known)?;
        let high = self.overlaid(left.high, right.high, known)?;
        let node = self.test(proposition, low, high)?;
        known.put((first, second), node)?;
        Ok(node)
    }

    fn overlaid_leaves(&self, first: Node, second: Node) -> Result<Node, OverlayError>
        requires { AreConstants self.now first second }
        ensures held { IfOk result (λ node. IsNode self.now node) }
        ensures leaf { IfOk result
            (λ node. IsOverlay (tree_of self.now first) (tree_of self.now second) (tree_of self.now node)) }
        ensures clash { IfErr result (IsClash (tree_of self.now first) (tree_of self.now second)) }
    {
        let Some(one) = self.eval(first, 0) else {
            return Ok(second);
        };
        let Some(other) = self.eval(second, 0) else {
            return Ok(first);
        };
        if one == other {
            return Ok(first);
        }
        Err(OverlayError::Clash {
            first: one,
            second: other,
        })
    }
}
