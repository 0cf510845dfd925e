//! Chooses between two diagrams at each letter.

ghost use Rattle.std.specs.Prelude.{◌≡◌, ℕ, ◌+◌, ◌<◌, IfOk, Some};
ghost use Rattle.ps_diagram.specs.Inner.Kept.{result_for};
ghost use Rattle.ps_diagram.specs.Inner.Chosen.{IsChosen, IsCut, KnowsTriples};
ghost use Rattle.ps_diagram.specs.Inner.Rests.{test_eq};
ghost use Rattle.ps_diagram.specs.Leaves.{chosen};
ghost use Rattle.ps_diagram.specs.Split.{root_of};
ghost use Rattle.ps_diagram.specs.Table.{IsNode, MakesDiagram, MakesTree, leaf_of, tree_of};

use crate::memo::Memo;
use crate::split::Sides;
use crate::store::Store;
use crate::view::{Node, View};
use std::alloc::AllocError;

/// The sides of three nodes at the first proposition that one of them tests: `one` is taken where `truth` has a leaf,
/// and `other` elsewhere.
#[derive(Clone, Copy)]
pub(crate) struct Cut {
    pub proposition: u32,
    pub truth: Sides,
    pub one: Sides,
    pub other: Sides,
}

impl Store {
    /// The diagram that agrees with `one` at letters at which `truth` has a leaf, and with `other` at all others.
    pub fn choose(&mut self, truth: Node, one: Node, other: Node) -> Result<Node, AllocError>
        requires truth { IsNode self.old truth }
        requires one { IsNode self.old one }
        requires other { IsNode self.old other }
        ensures { MakesDiagram self.old self.new result
            (λ letter. chosen (leaf_of self.old truth letter) (leaf_of self.old one letter)
            (leaf_of self.old other letter)) }
    {
        self.taken(truth, one, other)
    }

    /// The same, in terms of trees.
    pub(crate) fn taken(&mut self, truth: Node, one: Node, other: Node) -> Result<Node, AllocError>
        requires truth { IsNode self.old truth }
        requires one { IsNode self.old one }
        requires other { IsNode self.old other }
        ensures { MakesTree self.old self.new result
            (IsChosen (tree_of self.old truth) (tree_of self.old one) (tree_of self.old other)) }
    {
        let mut known = Memo::new(self.allocator());
        self.chosen(truth, one, other, &mut known)
    }

    /// The same, by the results that `known` has.
    fn chosen(
        &mut self,
        truth: Node,
        one: Node,
        other: Node,
        known: &mut Memo<(Node, Node, Node)>,
    ) -> Result<Node, AllocError>
        requires truth { IsNode self.old truth }
        requires one { IsNode self.old one }
        requires other { IsNode self.old other }
        requires known { KnowsTriples self.old (result_for test_eq known.old.table) }
        ensures made { MakesTree self.old self.new result
            (IsChosen (tree_of self.old truth) (tree_of self.old one) (tree_of self.old other)) }
        ensures known { KnowsTriples self.new (result_for test_eq known.new.table) }
    {
        if one == other {
            return Ok(one);
        }
        let first = match self.cell(truth) {
            View::Nothing => return Ok(other),
            View::Leaf(_) => return Ok(one),
            View::Test { proposition, .. } => proposition,
        };
        if let Some(made) = known.get((truth, one, other)) {
            return Ok(made);
        }
        let Cut {
            proposition,
            truth: test,
            one: left,
            other: right,
        } = self.cut(first, truth, one, other);
        let low = self.chosen(test.low, left.low, right.low, known)?;
        let high = self.chosen(test.high, left.high, right.high, known)?;
        let made = self.test(proposition, low, high)?;
        known.put((truth, one, other), made)?;
        Ok(made)
    }

    /// The sides at `first`, which `truth` tests.
    fn cut(&self, first: u32, truth: Node, one: Node, other: Node) -> Cut
        requires truth { IsNode self.now truth }
        requires one { IsNode self.now one }
        requires other { IsNode self.now other }
        requires named { first < self.now.propositions }
        requires first { first ≡ root_of self.now.propositions (tree_of self.now truth) }
        ensures { IsCut self.now truth one other result }
    {
        let proposition = first.min(self.level(one)).min(self.level(other));
        Cut {
            proposition,
            truth: self.sides(truth, proposition),
            one: self.sides(one, proposition),
            other: self.sides(other, proposition),
        }
    }
}
