//! Joins two diagrams: the leaf at a letter is the index of the pair of their leaves.

ghost use Rattle.std.specs.Prelude.{◌≡◌, ℕ, ◌+◌, IfOk, Some};
ghost use Rattle.indexmap.specs.IndexSet.{IsUnique};
ghost use Rattle.ps_diagram.specs.Inner.Kept.{result_for};
ghost use Rattle.ps_diagram.specs.Inner.Chosen.{IsPairOf, Meet};
ghost use Rattle.ps_diagram.specs.Inner.Known.{KnowsPairs, pair_eq};
ghost use Rattle.ps_diagram.specs.Pairs.{Adds, IsPaired, MeetAt};
ghost use Rattle.ps_diagram.specs.Split.{AreConstants};
ghost use Rattle.ps_diagram.specs.Table.{IsNode, MakesNode, MakesTree, leaf_of, tree_of};

use crate::memo::Memo;
use crate::split::Split;
use crate::store::Store;
use crate::view::Node;
use indexmap::IndexSet;
use std::alloc::AllocError;

impl Store {
    /// The diagram whose leaf at a letter is the index, in `pairs`, of the pair of the two nodes' leaves, or none where
    /// either has none. New pairs are appended to `pairs`.
    pub fn both(
        &mut self,
        first: Node,
        second: Node,
        pairs: &mut IndexSet<(u64, u64)>,
    ) -> Result<Node, AllocError>
        requires first { IsNode self.old first }
        requires second { IsNode self.old second }
        ensures made { MakesNode self.old self.new result
            (λ made. (letter : ℕ) → IsPaired pairs.new.keys (leaf_of self.old first letter)
            (leaf_of self.old second letter) (leaf_of self.new made letter)) }
        ensures adds { Adds (MeetAt self.old first second) pairs.old.keys pairs.new.keys }
    {
        let mut known = Memo::new(self.allocator());
        self.paired(first, second, pairs, &mut known)
    }

    fn paired(
        &mut self,
        first: Node,
        second: Node,
        pairs: &mut IndexSet<(u64, u64)>,
        known: &mut Memo<(Node, Node)>,
    ) -> Result<Node, AllocError>
        requires first { IsNode self.old first }
        requires second { IsNode self.old second }
        requires known { KnowsPairs (IsPairOf pairs.old.keys) self.old (result_for pair_eq known.old.table) }
        ensures made { MakesTree self.old self.new result
            (IsPairOf pairs.new.keys (tree_of self.old first) (tree_of self.old second)) }
        ensures adds { Adds (Meet (tree_of self.old first) (tree_of self.old second)) pairs.old.keys pairs.new.keys }
        ensures known { KnowsPairs (IsPairOf pairs.new.keys) self.new (result_for pair_eq known.new.table) }
    {
        if self.is_nothing(first) {
            return Ok(first);
        }
        if self.is_nothing(second) {
            return Ok(second);
        }
        if let Some(made) = known.get((first, second)) {
            return Ok(made);
        }
        let Some(split) = self.split(first, second) else {
            return self.paired_leaves(first, second, pairs);
        };
        let Split {
            proposition,
            left,
            right,
        } = split;
        let low = self.paired(left.low, right.low, pairs, known)?;
        let high = self.paired(left.high, right.high, pairs, known)?;
        pairs_differ(pairs);
        let made = self.test(proposition, low, high)?;
        known.put((first, second), made)?;
        Ok(made)
    }

    fn paired_leaves(
        &mut self,
        first: Node,
        second: Node,
        pairs: &mut IndexSet<(u64, u64)>,
    ) -> Result<Node, AllocError>
        requires { AreConstants self.old first second }
        ensures made { MakesTree self.old self.new result
            (IsPairOf pairs.new.keys (tree_of self.old first) (tree_of self.old second)) }
        ensures adds { Adds (Meet (tree_of self.old first) (tree_of self.old second)) pairs.old.keys pairs.new.keys }
    {
        let Some(one) = self.eval(first, 0) else {
            return Ok(first);
        };
        let Some(other) = self.eval(second, 0) else {
            return Ok(second);
        };
        let (place, _) = pairs.insert_full((one, other))?;
        self.constant(Some(place as u64))
    }
}

/// No pair of the set occurs twice: the prover learns it here.
fn pairs_differ(pairs: &IndexSet<(u64, u64)>)
    ensures { IsUnique pair_eq pairs.now }
{
    pairs.as_slice();
}
