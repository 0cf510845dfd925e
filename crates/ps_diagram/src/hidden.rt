//! Hides propositions of a diagram, or fixes the others.

ghost use Rattle.std.specs.Prelude.{◌≡◌, ◌+◌, ◌<◌, OnOk, nat_eq};
ghost use Rattle.ps_diagram.specs.Inner.Bits.{IsWhether};
ghost use Rattle.ps_diagram.specs.Inner.Kept.{result_for};
ghost use Rattle.ps_diagram.specs.Inner.Hiding.{IsHidden, IsHiddenTest};
ghost use Rattle.ps_diagram.specs.Inner.Known.{Knows};
ghost use Rattle.ps_diagram.specs.Inner.Rests.{IsCofactor};
ghost use Rattle.ps_diagram.specs.Table.{IsNode, MakesNode, MakesTree, tree_of};
ghost use Rattle.ps_diagram.specs.Tree.{IsBlind};

use crate::memo::Memo;
use crate::store::Store;
use crate::view::{Node, View};
use std::alloc::AllocError;

impl Store {
    ghost use Rattle.ps_diagram.specs.Hidden.{IsBehind, IsOver, IsProjection};

    /// The diagram with the leaf 1 at a letter if the node has a leaf for some values of the hidden propositions, and
    /// no leaf elsewhere.
    pub fn projected(&mut self, node: Node, hidden: u64) -> Result<Node, AllocError>
        requires held { IsNode self.old node }
        ensures { MakesNode self.old self.new result (IsProjection self.old self.new node hidden) }
    {
        self.table_is_sound();
        self.whether(node, hidden)
    }

    /// The same, in terms of trees.
    pub(crate) fn whether(&mut self, node: Node, hidden: u64) -> Result<Node, AllocError>
        requires held { IsNode self.old node }
        ensures hidden { MakesTree self.old self.new result (IsHidden hidden (tree_of self.old node)) }
        ensures whether { MakesTree self.old self.new result (IsWhether hidden (tree_of self.old node)) }
    {
        let mut known = Memo::new(self.allocator());
        self.hidden_by(node, hidden, &mut known)
    }

    fn hidden_by(
        &mut self,
        node: Node,
        hidden: u64,
        known: &mut Memo<Node>,
    ) -> Result<Node, AllocError>
        requires held { IsNode self.old node }
        requires known { Knows (IsHidden hidden) self.old self.old (result_for nat_eq known.old.table) }
        ensures made { MakesTree self.old self.new result (IsHidden hidden (tree_of self.old node)) }
        ensures known { OnOk result (Knows (IsHidden hidden) self.new self.new (result_for nat_eq known.new.table)) }
    {
        let (proposition, low, high) = match self.cell(node) {
            View::Nothing => return Ok(node),
            View::Leaf(_) => return self.constant(Some(1)),
            View::Test {
                proposition,
                low,
                high,
            } => (proposition, low, high),
        };
        if let Some(made) = known.get(node) {
            return Ok(made);
        }
        let low = self.hidden_by(low, hidden, known)?;
        let high = self.hidden_by(high, hidden, known)?;
        let made = self.hidden_test(proposition, low, high, hidden)?;
        known.put(node, made)?;
        Ok(made)
    }

    /// The same for a test, by the results for its sides.
    fn hidden_test(
        &mut self,
        proposition: u32,
        low: Node,
        high: Node,
        hidden: u64,
    ) -> Result<Node, AllocError>
        requires named { proposition < self.old.propositions }
        requires low_held { IsNode self.old low }
        requires high_held { IsNode self.old high }
        requires low_later { IsBlind (proposition + 1) (tree_of self.old low) }
        requires high_later { IsBlind (proposition + 1) (tree_of self.old high) }
        ensures { MakesTree self.old self.new result
            (IsHiddenTest hidden proposition (tree_of self.old low) (tree_of self.old high)) }
    {
        self.table_is_sound();
        if hidden >> proposition & 1 == 0 {
            return self.test(proposition, low, high);
        }
        self.taken(low, low, high)
    }

    /// The diagram of the node's leaves at letters that have the values of `letter` at the propositions `fixed`.
    pub fn behind(&mut self, node: Node, fixed: u64, letter: u64) -> Result<Node, AllocError>
        requires held { IsNode self.old node }
        requires over { IsOver fixed letter }
        ensures { MakesNode self.old self.new result (IsBehind self.old self.new node fixed letter) }
    {
        self.table_is_sound();
        self.fixed(node, fixed, letter)
    }

    /// The same, in terms of trees and for any letter.
    pub(crate) fn fixed(&mut self, node: Node, mask: u64, letter: u64) -> Result<Node, AllocError>
        requires held { IsNode self.old node }
        ensures { MakesTree self.old self.new result (IsCofactor mask letter (tree_of self.old node)) }
    {
        let mut known = Memo::new(self.allocator());
        self.cofactor(node, mask, letter, &mut known)
    }
}
