//! The leaves of a node, and the least letter of each.

ghost use Rattle.std.specs.Prelude.{◌≡◌, ℕ, ◌+◌, ◌^◌, ◌<◌, IfOk, OnOk, MatchOption, is_some, nat_eq};
ghost use Rattle.ps_diagram.specs.Inner.Kept.{result_for};
ghost use Rattle.ps_diagram.specs.Letters.{IsLeastLetter};
ghost use Rattle.ps_diagram.specs.Reached.{AreLeaves, Gathers, HaveFound, IsGathered, LeadsToLeaf};
ghost use Rattle.ps_diagram.specs.Split.{root_of};
ghost use Rattle.ps_diagram.specs.Table.{IsNode, tree_of};

use crate::leaf_table::LeafTable;
use crate::memo::Memo;
use crate::store::Store;
use crate::view::{Node, View};
use std::alloc::{AllocError, Global};

/// Tests of this many last propositions are not put into the set of visited nodes: they have at most eight leaves, so
/// that visiting one again takes about as long as finding it.
const LAST: u32 = 3;

impl Store {
    /// The leaves of a node, each with the least letter that leads to it, in the order of these letters.
    pub fn leaves(&self, node: Node) -> Result<Vec<(u64, u64)>, AllocError>
        requires held { IsNode self.now node }
        ensures { IfOk result (λ found. AreLeaves self.now node found.items) }
    {
        let found = self.found_below(node)?;
        Ok(found.into_list())
    }

    /// The least letter that leads from the node to the leaf.
    pub fn path_to(&self, node: Node, leaf: u64) -> Result<Option<u64>, AllocError>
        requires held { IsNode self.now node }
        ensures { IfOk result
            (λ found. MatchOption found ((letter : ℕ) → LeadsToLeaf self.now node leaf letter → ⊥)
            (λ letter. IsLeastLetter (LeadsToLeaf self.now node leaf) letter)) }
    {
        let found = self.found_below(node)?;
        match found.find(leaf) {
            Some(place) => Ok(Some(found.as_slice()[place].1)),
            None => Ok(None),
        }
    }

    /// These leaves as a table.
    pub(crate) fn found_below(&self, node: Node) -> Result<LeafTable, AllocError>
        requires held { IsNode self.now node }
        ensures { IfOk result (λ found. IsGathered self.now node found) }
    {
        let mut seen = Memo::new(self.allocator());
        let mut found = LeafTable::new(self.allocator());
        self.gather(node, 0, &mut seen, &mut found)?;
        Ok(found)
    }

    /// Adds the leaves of a node, to which `letter` leads. All leaves of the nodes in `seen` are found.
    fn gather(
        &self,
        node: Node,
        letter: u64,
        seen: &mut Memo<Node>,
        found: &mut LeafTable,
    ) -> Result<(), AllocError>
        requires held { IsNode self.now node }
        requires begun { letter < 2 ^ root_of self.now.propositions (tree_of self.now node) }
        requires seen { HaveFound self.now (λ q. is_some (result_for nat_eq seen.old.table q)) found.old }
        ensures seen { OnOk result (HaveFound self.now (λ q. is_some (result_for nat_eq seen.new.table q)) found.new) }
        ensures found { OnOk result (Gathers self.now.propositions (tree_of self.now node) letter found.old
            found.new) }
    {
        match self.cell(node) {
            View::Nothing => Ok(()),
            View::Leaf(value) => {
                if found.find(value).is_none() {
                    found.push(value, letter)?;
                }
                Ok(())
            }
            View::Test {
                proposition,
                low,
                high,
            } => {
                let is_kept = proposition + LAST < self.propositions();
                if is_kept && seen.get(node).is_some() {
                    return Ok(());
                }
                self.gather(low, letter, seen, found)?;
                self.gather(high, letter + (1 << proposition), seen, found)?;
                if is_kept {
                    seen.put(node, node)?;
                }
                Ok(())
            }
        }
    }
}
