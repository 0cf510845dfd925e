//! Replaces the leaves of diagrams by a rule.

ghost use Rattle.std.specs.Prelude.{◌≡◌, ℕ, ◌+◌, ◌^◌, ◌<◌, ◌≤◌, Bool, Option, Some, None, IfOk, IfSome, length, nat_eq};
ghost use Rattle.std.specs.Prelude.{option_map, option_and_then, unwrap_or, slice_index, is_none, cond};
ghost use Rattle.std.specs.Option.{option_copied};
ghost use Rattle.ps_diagram.specs.Inner.Kept.{result_for};
ghost use Rattle.ps_diagram.specs.Tree.{leaf_at};
ghost use Rattle.ps_diagram.specs.Table.{IsNode, MakesDiagram, MakesTree, leaf_of, tree_of};
ghost use Rattle.ps_diagram.specs.Inner.LeafTables.{place_in};
ghost use Rattle.ps_diagram.specs.Inner.Known.{IsChangeable, IsMapped, Knows};
ghost use Rattle.ps_diagram.specs.Inner.Parts.{IsPart};

use crate::leaf_table::LeafTable;
use crate::memo::Memo;
use crate::store::Store;
use crate::view::{Node, View};
use std::alloc::AllocError;

/// By what each leaf, or a missing one, is replaced.
trait LeafRule {
    ghost fits: { Self → Option ℕ → Type 0 };

    ghost rule: { Self → Option ℕ → Option ℕ };

    fn changed(&self, leaf: Option<u64>) -> Option<u64>
        requires { fits self.now leaf }
        ensures { result ≡ rule self.now leaf };
}

/// Each leaf, by this one.
#[derive(Drop)]
struct Guarded(u64);

impl LeafRule for Guarded {
    ghost fits = { λ _ _. Unit {0} };

    ghost rule = { λ s leaf. option_map (λ _. s.0) leaf };

    fn changed(&self, leaf: Option<u64>) -> Option<u64> {
        match leaf {
            None => None,
            Some(_) => Some(self.0),
        }
    }
}

/// A missing leaf, by this one.
#[derive(Drop)]
struct Filled(u64);

impl LeafRule for Filled {
    ghost fits = { λ _ _. Unit {0} };

    ghost rule = { λ s leaf. Some (unwrap_or leaf s.0) };

    fn changed(&self, leaf: Option<u64>) -> Option<u64> {
        match leaf {
            None => Some(self.0),
            Some(value) => Some(value),
        }
    }
}

/// The leaf k, by the value at the index k.
#[derive(Drop)]
struct Relabelled<'a>(&'a [u64]);

impl LeafRule for Relabelled<'_> {
    ghost fits = { λ s leaf. IfSome leaf (λ k. k < length s.0.now) };

    ghost rule = { λ s leaf. option_map (λ k. slice_index s.0.now k) leaf };

    fn changed(&self, leaf: Option<u64>) -> Option<u64> {
        match leaf {
            None => None,
            Some(k) => Some(self.0[k as usize]),
        }
    }
}

/// The same, and a missing leaf by `other`.
#[derive(Drop)]
struct Replaced<'a> {
    values: &'a [u64],
    other: u64,
}

impl LeafRule for Replaced<'_> {
    ghost fits = { λ s leaf. IfSome leaf (λ k. k < length s.values.now) };

    ghost rule = { λ s leaf. Some (unwrap_or (option_map (λ k. slice_index s.values.now k) leaf) s.other) };

    fn changed(&self, leaf: Option<u64>) -> Option<u64> {
        match leaf {
            None => Some(self.other),
            Some(k) => Some(self.values[k as usize]),
        }
    }
}

/// The leaf k, by its index in the table.
#[derive(Drop)]
struct Placed<'a>(&'a LeafTable);

impl LeafRule for Placed<'_> {
    ghost fits = { λ _ _. Unit {0} };

    ghost rule = { λ s leaf. option_and_then (λ k. place_in s.0.now k) leaf };

    fn changed(&self, leaf: Option<u64>) -> Option<u64> {
        match leaf {
            None => None,
            Some(k) => match self.0.find(k) {
                None => None,
                Some(place) => Some(place as u64),
            },
        }
    }
}

/// A missing leaf by 1, and a leaf by none.
#[derive(Drop)]
struct Negated;

impl LeafRule for Negated {
    ghost use Rattle.ps_diagram.specs.Leaves.{opposite};

    ghost fits = { λ _ _. Unit {0} };

    ghost rule = { λ _ leaf. opposite leaf };

    fn changed(&self, leaf: Option<u64>) -> Option<u64> {
        match leaf {
            None => Some(1),
            Some(_) => None,
        }
    }
}

/// This leaf by 1, and each other by none.
#[derive(Drop)]
struct Selected(u64);

impl LeafRule for Selected {
    ghost use Rattle.ps_diagram.specs.Hidden.{one_for};

    ghost fits = { λ _ _. Unit {0} };

    ghost rule = { λ s leaf. one_for s.0 leaf };

    fn changed(&self, leaf: Option<u64>) -> Option<u64> {
        match leaf {
            Some(value) if value == self.0 => Some(1),
            _ => None,
        }
    }
}

impl Store {
    ghost use Rattle.ps_diagram.specs.Hidden.{one_for};
    ghost use Rattle.ps_diagram.specs.Leaves.{opposite};

    /// The diagram with the leaf `value` where the node has a leaf.
    pub fn guard(&mut self, node: Node, value: u64) -> Result<Node, AllocError>
        requires held { IsNode self.old node }
        ensures { MakesDiagram self.old self.new result
            (λ letter. option_map (λ _. value) (leaf_of self.old node letter)) }
    {
        self.mapped(None, node, &Guarded(value))
    }

    /// The diagram with the node's leaves, and `value` where it has none.
    pub fn fill(&mut self, node: Node, value: u64) -> Result<Node, AllocError>
        requires held { IsNode self.old node }
        ensures { MakesDiagram self.old self.new result
            (λ letter. Some (unwrap_or (leaf_of self.old node letter) value)) }
    {
        self.mapped(None, node, &Filled(value))
    }

    /// The diagram with the leaf `values[k]` where the node has the leaf k.
    pub fn relabel(&mut self, node: Node, values: &[u64]) -> Result<Node, AllocError>
        requires held { IsNode self.old node }
        requires within { (letter : ℕ) → letter < 2 ^ self.old.propositions →
            IfSome (leaf_of self.old node letter) (λ k. k < length values.now) }
        ensures { MakesDiagram self.old self.new result
            (λ letter. option_map (λ k. slice_index values.now k) (leaf_of self.old node letter)) }
    {
        self.table_is_sound();
        self.mapped(None, node, &Relabelled(values))
    }

    /// As `relabel`, but with the leaf `other` where the node has none.
    pub fn relabel_or(&mut self, node: Node, values: &[u64], other: u64) -> Result<Node, AllocError>
        requires held { IsNode self.old node }
        requires within { (letter : ℕ) → letter < 2 ^ self.old.propositions →
            IfSome (leaf_of self.old node letter) (λ k. k < length values.now) }
        ensures { MakesDiagram self.old self.new result
            (λ letter. Some (unwrap_or (option_map (λ k. slice_index values.now k) (leaf_of self.old node letter))
            other)) }
    {
        self.table_is_sound();
        self.mapped(None, node, &Replaced { values, other })
    }

    /// As `relabel`, for a node of another store.
    pub fn relabel_from(
        &mut self,
        other: &Store,
        node: Node,
        values: &[u64],
    ) -> Result<Node, AllocError>
        requires held { IsNode other.now node }
        requires few { other.now.propositions ≤ self.old.propositions }
        requires within { (letter : ℕ) → letter < 2 ^ other.now.propositions
            → IfSome (leaf_of other.now node letter) (λ k. k < length values.now) }
        ensures { MakesDiagram self.old self.new result
            (λ letter. option_map (λ k. slice_index values.now k) (leaf_of other.now node letter)) }
    {
        other.table_is_sound();
        self.mapped(Some(other), node, &Relabelled(values))
    }

    /// The diagram with the leaf 1 where the node has none, and no leaf elsewhere.
    pub fn negated(&mut self, node: Node) -> Result<Node, AllocError>
        requires held { IsNode self.old node }
        ensures { MakesDiagram self.old self.new result (λ letter. opposite (leaf_of self.old node letter)) }
    {
        self.mapped(None, node, &Negated)
    }

    /// The diagram with the leaf 1 where the node has the leaf `value`, and no leaf elsewhere.
    pub fn selected(&mut self, node: Node, value: u64) -> Result<Node, AllocError>
        requires held { IsNode self.old node }
        ensures { MakesDiagram self.old self.new result (λ letter. one_for value (leaf_of self.old node letter)) }
    {
        self.mapped(None, node, &Selected(value))
    }

    /// The diagram of the indices of the node's leaves.
    pub(crate) fn placed(&mut self, node: Node, leaves: &LeafTable) -> Result<Node, AllocError>
        requires held { IsNode self.old node }
        ensures { MakesTree self.old self.new result
            (IsMapped (λ leaf. option_and_then (λ k. place_in leaves.now k) leaf) (tree_of self.old node)) }
    {
        self.mapped(None, node, &Placed(leaves))
    }

    /// A node's diagram, of `other` or else of this store, with its leaves replaced.
    fn mapped<R: LeafRule>(
        &mut self,
        other: Option<&Store>,
        node: Node,
        rule: &R,
    ) -> Result<Node, AllocError>
        requires { IsChangeable (R.fits rule.now) (unwrap_or (option_copied other) self.old) self.old node }
        ensures { MakesTree self.old self.new result
            (IsMapped (R.rule rule.now) (tree_of (unwrap_or (option_copied other.entry) self.old) node)) }
    {
        let mut known = Memo::new(self.allocator());
        self.mapped_by(other, node, rule, &mut known)
    }

    fn mapped_by<R: LeafRule>(
        &mut self,
        other: Option<&Store>,
        node: Node,
        rule: &R,
        known: &mut Memo<Node>,
    ) -> Result<Node, AllocError>
        requires fits { IsChangeable (R.fits rule.now) (unwrap_or (option_copied other) self.old) self.old node }
        requires known { Knows (IsMapped (R.rule rule.now)) (unwrap_or (option_copied other) self.old) self.old
            (result_for nat_eq known.old.table) }
        ensures made { MakesTree self.old self.new result
            (IsMapped (R.rule rule.now) (tree_of (unwrap_or (option_copied other.entry) self.old) node)) }
        ensures known { Knows (IsMapped (R.rule rule.now)) (unwrap_or (option_copied other.entry) self.new) self.new
            (result_for nat_eq known.new.table) }
    {
        match self.cell_of(other, node) {
            View::Nothing => self.constant(rule.changed(None)),
            View::Leaf(value) => self.constant(rule.changed(Some(value))),
            View::Test {
                proposition,
                low,
                high,
            } => {
                if let Some(changed) = known.get(node) {
                    return Ok(changed);
                }
                let low = self.mapped_by(other, low, rule, known)?;
                let high = self.mapped_by(other, high, rule, known)?;
                let changed = self.test(proposition, low, high)?;
                known.put(node, changed)?;
                Ok(changed)
            }
        }
    }

    fn cell_of(&self, other: Option<&Store>, node: Node) -> View
        requires held { IsNode (unwrap_or (option_copied other) self.now) node }
        ensures part { IsPart (unwrap_or (option_copied other.entry) self.now) node result }
    {
        match other {
            Some(store) => store.cell(node),
            None => self.cell(node),
        }
    }

    /// The diagram with this leaf, or none, at every letter.
    pub(crate) fn constant(&mut self, leaf: Option<u64>) -> Result<Node, AllocError>
        ensures { MakesTree self.old self.new result (λ tree. (f : ℕ → Bool) → leaf_at tree f ≡ leaf) }
    {
        match leaf {
            None => self.intern(View::Nothing),
            Some(value) => self.intern(View::Leaf(value)),
        }
    }
}
