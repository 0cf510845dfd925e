//! The product of an automaton and a tableau, as a graph.

ghost use Rattle.std.specs.Prelude.{◌≡◌, ◌^◌, ◌<◌, ℕ, All, Contains, IfOk, OnOk, Some, length, map, slice_get};
ghost use Rattle.ps_product.specs.Words.{HasGrown};
ghost use Rattle.ps_tableau_product.specs.JointGraphs.{IsJointSlot, IsJointStored, capped_graph, joint_graph};
ghost use Rattle.ps_tableau_product.specs.JointGraphs.{joint_marks};
ghost use Rattle.ps_tableau_product.specs.JointGraphs.{joint_row, letter_along, marks_at, stored_joint};

use ps_components::Graph;
use ps_fairness::{Edge, Marked};
use ps_keys::KeyList;
use ps_tableau::Tableau;
use std::alloc::{AllocError, Global};
use std::marker::Model;

/// An edge of the product of an automaton and a tableau.
#[derive(Clone, Copy)]
pub(crate) struct JointEdge {
    /// The number of the vertex to which the edge leads.
    pub to: usize,
    /// A letter at which the automaton makes the step, and for which the cover serves.
    pub letter: u64,
    /// The priority of the automaton's step.
    pub priority: u64,
    /// The cover.
    pub cover: ps_tableau::Edge,
}

/// The product of an automaton and a tableau.
#[derive(Drop)]
pub struct JointGraph {
    tableau: Tableau,
    /// The edges of each vertex.
    rows: Vec<Vec<JointEdge>>,
}

impl Model for JointGraph {
    ghost use Rattle.ps_tableau_product.specs.JointGraphs.{IsJointStored, JointData, stored_joint};

    ghost Value = { JointData };

    ghost view = { λ g. stored_joint g.tableau g.rows.items };

    ghost invariant = { λ g. IsJointStored (stored_joint g.tableau g.rows.items) };
}

impl JointGraph {
    /// The product that has the given edges.
    pub(crate) fn new(tableau: Tableau, rows: Vec<Vec<JointEdge>>) -> Self
        requires { IsJointStored (stored_joint tableau rows.items) }
        ensures { result ≡ stored_joint tableau rows.items }
    {
        JointGraph { tableau, rows }
    }

    /// The parts fit: each edge leads to a vertex, and each vertex is reached from the first. The prover learns it here.
    pub fn parts_fit(&self)
        ensures { IsJointStored self.now }
    {
        self.rows.len();
    }

    /// The edge in a slot of a vertex.
    fn edge(&self, vertex: usize, slot: usize) -> JointEdge
        requires vertex { vertex < length self.now.rows }
        requires slot { slot < length (joint_row self.now.rows vertex) }
        ensures { slice_get (joint_row self.now.rows vertex) slot ≡ Some result }
    {
        self.rows[vertex][slot]
    }

    /// The number of untils.
    fn until_count(&self) -> usize
        ensures value { result ≡ length self.now.board.untils.items }
        ensures few { result < 2 ^ 63 }
    {
        self.tableau.untils().len()
    }

    /// Whether the cover of an edge does not postpone an until.
    fn bears(&self, vertex: usize, slot: usize, mark: usize) -> bool
        requires vertex { vertex < length self.now.rows }
        requires slot { slot < length (joint_row self.now.rows vertex) }
        requires mark { mark < length self.now.board.untils.items }
        ensures { result ≡ (joint_marks self.now).has vertex slot mark }
    {
        let cover = self.edge(vertex, slot).cover;
        !self.tableau.postpones(cover, self.tableau.untils()[mark])
    }

    /// The letters of the edges of a walk. Fails if out of memory.
    pub fn letters(&self, alloc: Global, walk: &[Edge]) -> Result<Vec<u64>, AllocError>
        requires { All (IsJointSlot self.now) walk.now }
        ensures { IfOk result (λ letters. letters.items ≡ map (letter_along self.now) walk.now) }
    {
        let mut letters = Vec::new(alloc);
        for edge in walk {
            letters.push(self.edge(edge.vertex, edge.slot).letter)?;
        }
        Ok(letters)
    }

    /// The priorities of the edges, each once. Fails if out of memory.
    pub fn priorities(&self, alloc: Global) -> Result<KeyList<u64>, AllocError>
        ensures { IfOk result (λ priorities. (v k : ℕ) (e : JointEdge) →
            slice_get (joint_row self.now.rows v) k ≡ Some e → Contains priorities e.priority) }
    {
        let mut priorities = KeyList::new(alloc);
        for row in &self.rows {
            add_priorities(row, &mut priorities)?;
        }
        Ok(priorities)
    }
}

/// Adds the priorities of edges to a list that has each of its priorities once. Fails if out of memory.
fn add_priorities(row: &[JointEdge], priorities: &mut KeyList<u64>) -> Result<(), AllocError>
    ensures grown { OnOk result (HasGrown priorities.old priorities.new) }
    ensures has { OnOk result ((k : ℕ) (e : JointEdge) → slice_get row.now k ≡ Some e →
        Contains priorities.new e.priority) }
{
    for edge in row {
        let _place = priorities.place_of(edge.priority)?;
    }
    Ok(())
}

impl Graph for JointGraph {
    ghost graph = { λ g. joint_graph g };

    fn count(&self) -> usize {
        self.rows.len()
    }

    fn degree(&self, item: usize) -> usize {
        self.rows[item].len()
    }

    fn target(&self, item: usize, place: usize) -> Option<usize> {
        Some(self.rows[item][place].to)
    }
}

/// The product without the edges of greater priorities than the given one. An edge bears the mark of each until that
/// its cover does not postpone, and a further mark if it has the given priority.
#[derive(Clone, Copy)]
pub struct Capped<'a> {
    /// The product.
    pub graph: &'a JointGraph,
    /// The priority.
    pub priority: u64,
}

impl<'a> Graph for Capped<'a> {
    ghost graph = { λ c. capped_graph c.graph.now c.priority };

    fn count(&self) -> usize {
        self.graph.count()
    }

    fn degree(&self, item: usize) -> usize {
        self.graph.degree(item)
    }

    fn target(&self, item: usize, place: usize) -> Option<usize> {
        if self.graph.edge(item, place).priority <= self.priority {
            self.graph.target(item, place)
        } else {
            None
        }
    }
}

impl<'a> Marked for Capped<'a> {
    ghost marks = { λ c. marks_at c.graph.now c.priority };

    fn mark_count(&self) -> usize {
        self.graph.until_count() + 1
    }

    fn has_mark(&self, vertex: usize, slot: usize, mark: usize) -> bool {
        if mark < self.graph.until_count() {
            self.graph.bears(vertex, slot, mark)
        } else {
            self.graph.edge(vertex, slot).priority == self.priority
        }
    }
}
