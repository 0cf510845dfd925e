//! The table of nodes, and their leaves.

ghost use Rattle.std.specs.Prelude.{◌≡◌, ◌↔◌, IsTrue, ℕ, ◌+◌, ◌^◌, ◌≤◌, ◌<◌, [], IfOk, OnOk, length, slice_index_or};
ghost use Rattle.std.specs.Prelude.{Option, Some, None, cond};
ghost use Rattle.ps_diagram.specs.Tree.{IsBlind, IsFrom, IsReduced, IsTestOf};
ghost use Rattle.ps_diagram.specs.Inner.Parts.{IsPart};
ghost use Rattle.ps_diagram.specs.Table.{Table, IsNode, IsSoundTable, IsCellWithin, MakesDiagram, MakesTree};
ghost use Rattle.ps_diagram.specs.Table.{leaf_of, tree_of, tree_in};
ghost use Rattle.ps_diagram.specs.Views.{Sees};
ghost use Rattle.ps_diagram.specs.declared.view.View.TheVariants.{Nothing};

use crate::interning::Cells;
use crate::view::{Node, View};
use std::alloc::{AllocError, Global};
use std::marker::Model;

/// Diagrams over at most 64 propositions, of which equal ones are one node. Calls that return a `Result` fail if out of
/// memory; `overlay` also if the diagrams have different leaves at some letter.
#[derive(Debug, Drop)]
pub struct Store {
    alloc: Global,
    propositions: u32,
    cells: Cells,
}

impl Model for Store {
    ghost use Rattle.ps_diagram.specs.Table.{Table, IsSoundTable};

    ghost Value = { Table };

    ghost view = { λ s. record { propositions = s.propositions; cells = s.cells } };

    ghost invariant = { λ s. IsSoundTable (record { propositions = s.propositions; cells = s.cells }) };
}

impl Store {
    /// A store without nodes.
    pub fn new(alloc: Global, propositions: u32) -> Self
        requires few { propositions ≤ 64 }
        ensures propositions { result.propositions ≡ propositions }
        ensures empty { result.cells ≡ [] }
    {
        Store {
            alloc,
            propositions,
            cells: Cells::new(alloc),
        }
    }

    /// The number of propositions.
    pub fn propositions(&self) -> u32
        ensures value { result ≡ self.now.propositions }
        ensures few { result ≤ 64 }
        ensures sound { IsSoundTable self.now }
    {
        self.propositions
    }

    /// The number of nodes.
    pub fn len(&self) -> usize
        ensures value { result ≡ length self.now.cells }
        ensures few { result < 2 ^ 32 }
        ensures sound { IsSoundTable self.now }
    {
        self.cells.len()
    }

    /// The diagram with this leaf at every letter.
    pub fn leaf(&mut self, value: u64) -> Result<Node, AllocError>
        ensures { MakesDiagram self.old self.new result (λ _. Some value) }
    {
        self.intern(View::Leaf(value))
    }

    /// The diagram without leaves.
    pub fn none(&mut self) -> Result<Node, AllocError>
        ensures { MakesDiagram self.old self.new result (λ _. None) }
    {
        self.intern(View::Nothing)
    }

    /// The leaf of a node at a letter.
    pub fn eval(&self, node: Node, letter: u64) -> Option<u64>
        requires held { IsNode self.now node }
        ensures { result ≡ leaf_of self.now node letter }
    {
        let mut place = node;
        loop {
            match self.cell(place) {
                View::Nothing => return None,
                View::Leaf(value) => return Some(value),
                View::Test {
                    proposition,
                    low,
                    high,
                } => place = if letter >> proposition & 1 == 1 {
                    high
                } else {
                    low
                },
            }
        }
    }

    pub(crate) fn allocator(&self) -> Global
        ensures sound { IsSoundTable self.now }
    {
        self.alloc
    }

    /// The table is sound: the prover learns it here.
    #[inline(always)]
    pub(crate) fn table_is_sound(&self)
        ensures few { self.now.propositions ≤ 64 }
        ensures sound { IsSoundTable self.now }
    {
        self.propositions();
    }

    /// There are fewer than 2^32 nodes: the prover learns it here.
    #[inline(always)]
    pub(crate) fn nodes_are_few(&self)
        ensures { length self.now.cells < 2 ^ 32 }
    {
        self.len();
    }

    /// Whether they have the same leaf at each letter.
    pub fn same(&self, first: Node, second: Node) -> bool
        requires first { IsNode self.now first }
        requires second { IsNode self.now second }
        ensures { IsTrue result
            ↔ ((letter : ℕ) → letter < 2 ^ self.now.propositions →
            leaf_of self.now first letter ≡ leaf_of self.now second letter) }
    {
        self.table_is_sound();
        first == second
    }

    /// What a node is.
    pub fn view(&self, node: Node) -> View
        requires held { IsNode self.now node }
        ensures { Sees self.now node result }
    {
        self.cell(node)
    }

    /// A store with the same nodes.
    pub fn copy(&self) -> Result<Self, AllocError>
        ensures same { IfOk result (λ store. store ≡ self.now) }
        ensures sound { IsSoundTable self.now }
    {
        let cells = self.cells.copy()?;
        Ok(Store {
            alloc: self.alloc,
            propositions: self.propositions,
            cells,
        })
    }

    /// The cell of a node, whose child nodes are earlier ones.
    pub(crate) fn cell(&self, node: Node) -> View
        requires held { IsNode self.now node }
        ensures sound { IsSoundTable self.now }
        ensures part { IsPart self.now node result }
    {
        self.cells.at(node.place)
    }

    /// The diagram that leads to `low` if the proposition is false, and to `high` if it is true.
    pub(crate) fn test(
        &mut self,
        proposition: u32,
        low: Node,
        high: Node,
    ) -> Result<Node, AllocError>
        requires named { proposition < self.old.propositions }
        requires low_held { IsNode self.old low }
        requires high_held { IsNode self.old high }
        requires low_later { IsBlind (proposition + 1) (tree_of self.old low) }
        requires high_later { IsBlind (proposition + 1) (tree_of self.old high) }
        ensures { MakesTree self.old self.new result
            (IsTestOf proposition (tree_of self.old low) (tree_of self.old high)) }
    {
        self.table_is_sound();
        if low == high {
            return Ok(low);
        }
        self.intern(View::Test {
            proposition,
            low,
            high,
        })
    }

    /// The node with this cell, which is added if it is new.
    pub(crate) fn intern(&mut self, cell: View) -> Result<Node, AllocError>
        requires within { IsCellWithin (length self.old.cells) cell }
        requires ordered { IsFrom 0 self.old.propositions (tree_in self.old.cells cell) }
        requires reduced { IsReduced (tree_in self.old.cells cell) }
        ensures { MakesTree self.old self.new result (λ tree. tree ≡ tree_in self.old.cells cell) }
    {
        let place = self.cells.place_of(cell)?;
        Ok(Node { place })
    }
}
