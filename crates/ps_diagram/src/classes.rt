//! Divides the letters over some of the propositions into classes.

ghost use Rattle.std.specs.Prelude.{◌≡◌, ◌≢◌, ℕ, ◌+◌, ◌^◌, ◌<◌, Bool, All, AllPairs, IfOk, IsSomeAnd, IsTrue, Some};
ghost use Rattle.std.specs.Prelude.{length, nat_eq};
ghost use Rattle.ps_diagram.specs.Inner.Kept.{result_for};
ghost use Rattle.ps_diagram.specs.Tree.{Tree, IsBlind, leaf_at};
ghost use Rattle.ps_diagram.specs.Table.{IsNode, IsSoundTable, Keeps, MakesTree, tree_of};
ghost use Rattle.ps_diagram.specs.Inner.Known.{Knows};
ghost use Rattle.ps_diagram.specs.Split.{AreConstants, IsConstant};
ghost use Rattle.ps_diagram.specs.Classes.{AreClasses};
ghost use Rattle.ps_diagram.specs.Inner.Numbered.{AreOf, AreOfLeaves};
ghost use Rattle.ps_diagram.specs.Inner.Rests.{AreLeading, IsDivided, IsDividedTest, IsLent, IsTested, KnowsTests};
ghost use Rattle.ps_diagram.specs.Inner.Rests.{test_eq};

use crate::leaf_table::LeafTable;
use crate::memo::Memo;
use crate::split::Split;
use crate::store::Store;
use crate::view::{Node, View};
use std::alloc::{AllocError, Global};

/// If `split` has at most this many propositions, each letter over them is tried.
const FEW: u32 = 4;

/// Letters over some propositions that lead to the same leaf, or all to none, whatever the values of the others.
#[derive(Debug, Clone, Copy, PartialEq, Eq)]
pub struct Class {
    /// The least letter of the class.
    pub letter: u64,
    /// What remains after any of its letters: a diagram that tests only the other propositions.
    pub rest: Node,
}

/// The classes of the letters over some propositions.
#[derive(Debug, Drop)]
pub struct Classes {
    /// The classes, in the order of their letters.
    pub list: Vec<Class>,
    /// The diagram whose leaf at a letter is the index of its class.
    pub places: Node,
}

impl Store {
    /// The classes of the letters over the propositions of `split`, for a node, which is read from a copy of the store.
    pub fn classes(&mut self, node: Node, split: u64) -> Result<Classes, AllocError>
        requires held { IsNode self.old node }
        ensures keeps { Keeps self.old self.new }
        ensures classes { IfOk result (λ c. AreClasses self.old self.new node split c.places c.list.items) }
    {
        let lent = self.copy()?;
        let classes = self.classes_in_copy(&lent, node, split)?;
        Ok(classes)
    }

    /// As `classes`, for a node of the store `other`, which this store began as a copy of. A node that depends on no
    /// proposition of `split` is one of this store too, and not made again.
    pub fn classes_in_copy(
        &mut self,
        other: &Store,
        node: Node,
        split: u64,
    ) -> Result<Classes, AllocError>
        requires held { IsNode other.now node }
        requires copy { Keeps other.now self.old }
        ensures keeps { Keeps self.old self.new }
        ensures classes { IfOk result (λ c. AreClasses other.now self.new node split c.places c.list.items) }
    {
        other.table_is_sound();
        let divided = self.rests(other, node, split)?;
        let leaves = self.found_below(divided)?;
        let classes = self.classes_of_leaves(divided, &leaves)?;
        Ok(classes)
    }

    /// A diagram over `split`, whose leaf at a letter is the number of the node that remains after it.
    fn rests(&mut self, other: &Store, node: Node, split: u64) -> Result<Node, AllocError>
        requires lent { IsLent self.old other.now node }
        requires kept { Keeps other.now self.old }
        ensures { MakesTree self.old self.new result (IsDivided self.new split (tree_of other.now node)) }
    {
        if split.count_ones() <= FEW {
            return self.spread(other, node, split, 0, 0);
        }
        let alloc = self.allocator();
        let mut known = Memo::new(alloc);
        let mut tests = Memo::new(alloc);
        self.divided(other, node, split, &mut known, &mut tests)
    }

    /// A class for each leaf, and the diagram of the classes' indices.
    fn classes_of_leaves(
        &mut self,
        divided: Node,
        leaves: &LeafTable,
    ) -> Result<Classes, AllocError>
        requires held { IsNode self.old divided }
        requires leaves { AllPairs (λ a b. a.0 ≢ b.0) leaves.now }
        requires nodes { All (λ pair. IsNode self.old pair.0) leaves.now }
        ensures keeps { Keeps self.old self.new }
        ensures sound { IfOk result (λ _. IsSoundTable self.new) }
        ensures held { IfOk result (λ c. IsNode self.new c.places) }
        ensures classes { IfOk result
            (λ c. AreOfLeaves leaves.now (tree_of self.old divided) (tree_of self.new c.places) c.list.items) }
    {
        self.nodes_are_few();
        let list = listed(self.allocator(), leaves.as_slice())?;
        let places = self.placed(divided, leaves)?;
        self.table_is_sound();
        Ok(Classes { list, places })
    }

    /// As `rests`. The node that remains after x has, at each letter y, the leaf of `node` at the letter that agrees
    /// with x on `split`, and with y elsewhere.
    fn divided(
        &mut self,
        other: &Store,
        node: Node,
        split: u64,
        known: &mut Memo<Node>,
        tests: &mut Memo<(u32, Node, Node)>,
    ) -> Result<Node, AllocError>
        requires lent { IsLent self.old other.now node }
        requires kept { Keeps other.now self.old }
        requires known { Knows (IsDivided self.old split) other.now self.old (result_for nat_eq known.old.table) }
        requires tests { KnowsTests self.old (result_for test_eq tests.old.table) }
        ensures made { MakesTree self.old self.new result (IsDivided self.new split (tree_of other.now node)) }
        ensures known { Knows (IsDivided self.new split) other.now self.new (result_for nat_eq known.new.table) }
        ensures tests { KnowsTests self.new (result_for test_eq tests.new.table) }
    {
        if other.is_shared(node, split) {
            return self.intern(View::Leaf(node.place as u64));
        }
        match other.cell(node) {
            View::Nothing => self.place_of_leaf(None),
            View::Leaf(value) => self.place_of_leaf(Some(value)),
            View::Test {
                proposition,
                low,
                high,
            } => {
                if let Some(made) = known.get(node) {
                    return Ok(made);
                }
                let low = self.divided(other, low, split, known, tests)?;
                let high = self.divided(other, high, split, known, tests)?;
                self.table_is_sound();
                let made = self.divided_test(proposition, low, high, split, tests)?;
                known.put(node, made)?;
                Ok(made)
            }
        }
    }

    /// The diagram whose leaf at every letter is the number of the node `constant(leaf)`.
    fn place_of_leaf(&mut self, leaf: Option<u64>) -> Result<Node, AllocError>
        ensures { MakesTree self.old self.new result (λ made. (mask : ℕ) (tree : Tree) →
            ((f : ℕ → Bool) → leaf_at tree f ≡ leaf) → IsDivided self.new mask tree made) }
    {
        let node = self.constant(leaf)?;
        self.intern(View::Leaf(node.place as u64))
    }

    /// As `divided` for a test, by the results for its sides.
    fn divided_test(
        &mut self,
        proposition: u32,
        low: Node,
        high: Node,
        split: u64,
        tests: &mut Memo<(u32, Node, Node)>,
    ) -> Result<Node, AllocError>
        requires leading { AreLeading self.old proposition low high }
        requires low_later { IsBlind (proposition + 1) (tree_of self.old low) }
        requires high_later { IsBlind (proposition + 1) (tree_of self.old high) }
        requires tests { KnowsTests self.old (result_for test_eq tests.old.table) }
        ensures made { MakesTree self.old self.new result
            (IsDividedTest self.new split proposition (tree_of self.old low) (tree_of self.old high)) }
        ensures tests { KnowsTests self.new (result_for test_eq tests.new.table) }
    {
        self.table_is_sound();
        if split >> proposition & 1 == 1 {
            return self.test(proposition, low, high);
        }
        self.tested(proposition, low, high, tests)
    }

    /// The diagram whose leaf is the number of a test: of the nodes to which `low` and `high` lead a letter, by the
    /// proposition.
    fn tested(
        &mut self,
        proposition: u32,
        low: Node,
        high: Node,
        tests: &mut Memo<(u32, Node, Node)>,
    ) -> Result<Node, AllocError>
        requires leading { AreLeading self.old proposition low high }
        requires tests { KnowsTests self.old (result_for test_eq tests.old.table) }
        ensures made { MakesTree self.old self.new result
            (IsTested self.new proposition (tree_of self.old low) (tree_of self.old high)) }
        ensures tests { KnowsTests self.new (result_for test_eq tests.new.table) }
    {
        if low == high {
            return Ok(low);
        }
        if let Some(made) = tests.get((proposition, low, high)) {
            return Ok(made);
        }
        let Some(split) = self.split(low, high) else {
            return self.tested_leaves(proposition, low, high);
        };
        let Split {
            proposition: first,
            left,
            right,
        } = split;
        let on_low = self.tested(proposition, left.low, right.low, tests)?;
        let on_high = self.tested(proposition, left.high, right.high, tests)?;
        self.table_is_sound();
        let made = self.test(first, on_low, on_high)?;
        tests.put((proposition, low, high), made)?;
        Ok(made)
    }

    fn tested_leaves(&mut self, proposition: u32, low: Node, high: Node) -> Result<Node, AllocError>
        requires leading { AreLeading self.old proposition low high }
        requires constant { AreConstants self.old low high }
        ensures { MakesTree self.old self.new result
            (IsTested self.new proposition (tree_of self.old low) (tree_of self.old high)) }
    {
        let one = self.node_at(low);
        let other = self.node_at(high);
        let made = self.test(proposition, one, other)?;
        self.intern(View::Leaf(made.place as u64))
    }

    /// The node to which a diagram that tests no proposition leads.
    fn node_at(&self, node: Node) -> Node
        requires held { IsNode self.now node }
        requires constant { IsConstant (tree_of self.now node) }
        requires names { (f : ℕ → Bool) → IsSomeAnd (leaf_at (tree_of self.now node) f) (IsNode self.now) }
        ensures { (f : ℕ → Bool) → leaf_at (tree_of self.now node) f ≡ Some result }
    {
        let place = self.eval(node, 0).unwrap();
        self.nodes_are_few();
        Node {
            place: place as u32,
        }
    }
}

fn listed(alloc: Global, leaves: &[(u64, u64)]) -> Result<Vec<Class>, AllocError>
    requires { All (λ pair. pair.0 < 2 ^ 32) leaves.now }
    ensures { IfOk result (λ list. AreOf leaves.now (length leaves.now) list.items) }
{
    let mut list = Vec::with_capacity(alloc, leaves.len())?;
    for pair in leaves {
        let rest = Node {
            place: pair.0 as u32,
        };
        list.push(Class {
            letter: pair.1,
            rest,
        })?;
    }
    Ok(list)
}
