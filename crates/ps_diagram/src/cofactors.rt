//! What remains of a diagram after each letter over a few propositions.

ghost use Rattle.std.specs.Prelude.{◌≡◌, ℕ, ◌+◌, ◌^◌, ◌<◌, ◌≤◌, IfOk, IsTrue, nat_eq};
ghost use Rattle.ps_diagram.specs.Inner.Kept.{result_for};
ghost use Rattle.ps_diagram.specs.Tree.{IsBlind};
ghost use Rattle.ps_diagram.specs.Table.{IsNode, Keeps, MakesTree, tree_of};
ghost use Rattle.ps_diagram.specs.Inner.Known.{Knows};
ghost use Rattle.ps_diagram.specs.Inner.Rests.{IsCofactor, IsLent, IsSpread, IsUnread};

use crate::memo::Memo;
use crate::store::Store;
use crate::view::{Node, View};
use std::alloc::AllocError;

impl Store {
    /// The diagram over `split` of the nodes' numbers that remain after its letters, each of which is tried.
    /// Propositions less than `level` are as in `letter`.
    pub(crate) fn spread(
        &mut self,
        other: &Store,
        node: Node,
        split: u64,
        level: u32,
        letter: u64,
    ) -> Result<Node, AllocError>
        requires lent { IsLent self.old other.now node }
        requires kept { Keeps other.now self.old }
        requires within { level ≤ self.old.propositions }
        requires begun { letter < 2 ^ level }
        ensures made { MakesTree self.old self.new result
            (IsSpread self.new split level letter (tree_of other.now node)) }
        ensures blind { IfOk result (λ made. IsBlind level (tree_of self.new made)) }
    {
        let propositions = self.propositions();
        if level == propositions {
            return self.spread_leaf(other, node, split, letter);
        }
        if split >> level & 1 == 1 {
            let low = self.spread(other, node, split, level + 1, letter)?;
            let high = self.spread(other, node, split, level + 1, letter + (1 << level))?;
            return self.test(level, low, high);
        }
        self.spread(other, node, split, level + 1, letter)
    }

    /// The same if `letter` decides all of `split`.
    fn spread_leaf(
        &mut self,
        other: &Store,
        node: Node,
        split: u64,
        letter: u64,
    ) -> Result<Node, AllocError>
        requires lent { IsLent self.old other.now node }
        requires kept { Keeps other.now self.old }
        ensures made { MakesTree self.old self.new result
            (IsSpread self.new split self.old.propositions letter (tree_of other.now node)) }
        ensures blind { IfOk result (λ made. (level : ℕ) → IsBlind level (tree_of self.new made)) }
    {
        other.table_is_sound();
        let mut known = Memo::new(self.allocator());
        let rest = self.cofactor(node, split, letter, &mut known)?;
        self.intern(View::Leaf(rest.place as u64))
    }

    /// The diagram of a node, with the propositions of `split` fixed as in `letter`.
    pub(crate) fn cofactor(
        &mut self,
        node: Node,
        split: u64,
        letter: u64,
        known: &mut Memo<Node>,
    ) -> Result<Node, AllocError>
        requires held { IsNode self.old node }
        requires known { Knows (IsCofactor split letter) self.old self.old (result_for nat_eq known.old.table) }
        ensures made { MakesTree self.old self.new result (IsCofactor split letter (tree_of self.old node)) }
        ensures known { Knows (IsCofactor split letter) self.new self.new (result_for nat_eq known.new.table) }
    {
        if self.is_shared(node, split) {
            return Ok(node);
        }
        match self.cell(node) {
            View::Nothing => self.constant(None),
            View::Leaf(value) => self.constant(Some(value)),
            View::Test {
                proposition,
                low,
                high,
            } => {
                if split >> proposition & 1 == 1 {
                    if letter >> proposition & 1 == 1 {
                        return self.cofactor(high, split, letter, known);
                    }
                    return self.cofactor(low, split, letter, known);
                }
                if let Some(made) = known.get(node) {
                    return Ok(made);
                }
                let low = self.cofactor(low, split, letter, known)?;
                let high = self.cofactor(high, split, letter, known)?;
                let made = self.test(proposition, low, high)?;
                known.put(node, made)?;
                Ok(made)
            }
        }
    }

    /// Whether a node's first test comes after all of `split`.
    pub(crate) fn is_shared(&self, node: Node, split: u64) -> bool
        requires { IsNode self.now node }
        ensures { IsTrue result → IsUnread split (tree_of self.now node) }
    {
        let level = self.level(node);
        level < 64 && split >> level == 0
    }
}
