//! Explores the vertices of the product of an automaton and a tableau, breadth first.

ghost use Rattle.std.specs.Prelude.{◌≡◌, ◌+◌, ◌^◌, ◌<◌, ℕ, Contains, IfOk, OnOk, Some, length, slice_get};
ghost use Rattle.ps_automaton.specs.Automata.{auto_of};
ghost use Rattle.ps_formula.specs.Formulas.{Formula};
ghost use Rattle.ps_tableau.specs.Boards.{IsState, IsTableauOf};
ghost use Rattle.ps_tableau_product.specs.Inner.Alphabets.{IsAlphabet};
ghost use Rattle.ps_tableau_product.specs.Inner.Drafts.{IsBlank};
ghost use Rattle.ps_tableau_product.specs.JointGraphs.{IsJointOf};
ghost use Rattle.ps_tableau_product.specs.Inner.Joining.{AddsJointCover, CompletesJoint, ExploresJoint};
ghost use Rattle.ps_tableau_product.specs.Inner.Joining.{IsFullJointDraft};
ghost use Rattle.ps_tableau_product.specs.Inner.Joining.{IsJointExplored, IsJointMadeFor, IsVisit, IsVisitOf};
ghost use Rattle.ps_tableau_product.specs.Inner.Joining.{JoinsUpTo};
ghost use Rattle.ps_tableau_product.specs.Inner.Joining.{joint_covers, joint_draft, pairing_of, visited};
ghost use Rattle.ps_tableau_product.specs.Joints.{read_by};

use crate::alphabet::Alphabet;
use crate::joint::{JointEdge, JointGraph};
use crate::joint_plan::JointPlan;
use crate::states::States;
use ps_automaton::Automaton;
use ps_keys::KeyList;
use ps_tableau::{Edge as Cover, Tableau};
use std::alloc::{AllocError, Global};

/// The product so far: the states and the vertices that were found, some of which have been explored.
#[derive(Drop)]
pub(crate) struct JointDraft {
    /// The states of the tableau.
    pub states: States,
    /// The vertices: a state of the automaton, or its sink, and a state of the tableau.
    pub vertices: KeyList<(u32, u32)>,
    /// The edges of each explored vertex.
    pub rows: Vec<Vec<JointEdge>>,
}

/// A vertex that is explored.
#[derive(Clone, Copy)]
pub(crate) struct Visit {
    /// The state of the automaton, or its sink.
    pub own: u32,
    /// The state of the tableau.
    pub state: u32,
}

impl<'a> JointPlan<'a> {
    /// The product with a tableau, of which all vertices are explored that can be reached from the first one. Fails if
    /// out of memory.
    pub fn product(self, tableau: Tableau) -> Result<JointGraph, AllocError>
        requires { IsState tableau tableau.initial }
        ensures { IfOk result (λ graph. (f : Formula) → IsTableauOf tableau f →
            IsJointOf (auto_of self.entry.automaton.now) (read_by self.entry.places.now) (2 ^ self.entry.count) f
            graph) }
    {
        let mut draft = JointDraft::new(self.alloc, tableau)?;
        match draft.explore_all(self) {
            Ok(()) => Ok(draft.into_graph(self)),
            Err(error) => {
                drop(draft);
                Err(error)
            }
        }
    }
}

impl JointDraft {
    /// A product in the making that has the initial state, and no vertices. Fails if out of memory.
    fn new(alloc: Global, tableau: Tableau) -> Result<JointDraft, AllocError>
        requires { IsState tableau tableau.initial }
        ensures blank { IfOk result (λ draft. IsBlank (joint_draft draft)) }
        ensures board { IfOk result (λ draft. draft.states.tableau ≡ tableau) }
    {
        let states = States::new(alloc, tableau)?;
        Ok(JointDraft {
            states,
            vertices: KeyList::new(alloc),
            rows: Vec::new(alloc),
        })
    }

    /// Finds all vertices and explores them, and finds the edges of all states. Fails if out of memory.
    fn explore_all(&mut self, plan: JointPlan) -> Result<(), AllocError>
        requires { IsBlank (joint_draft self.old) }
        ensures { OnOk result (CompletesJoint (pairing_of plan.entry) (joint_draft self.old) (joint_draft self.new)) }
    {
        self.start(plan)?;
        let mut alphabet = Alphabet::new(plan)?;
        let mut vertex = 0;
        while vertex < self.vertices.len() {
            self.visit(plan, &mut alphabet, vertex)?;
            vertex += 1;
        }
        self.states.reach_all()
    }

    /// Adds the first vertex, whose number is 0. Fails if out of memory.
    fn start(&mut self, plan: JointPlan) -> Result<(), AllocError>
        requires { IsBlank (joint_draft self.old) }
        ensures { OnOk result (ExploresJoint (pairing_of plan.entry) (joint_draft self.old) (joint_draft self.new) 0) }
    {
        let _first = self.vertices.place_of((plan.automaton.start(), 0))?;
        Ok(())
    }

    /// Explores the first vertex that has not been explored. Fails if out of memory.
    fn visit(
        &mut self,
        plan: JointPlan,
        alphabet: &mut Alphabet,
        vertex: usize,
    ) -> Result<(), AllocError>
        requires alphabet { IsAlphabet plan self.old.states.tableau.guards alphabet.old }
        requires explored { IsJointExplored (pairing_of plan) (joint_draft self.old) vertex }
        requires vertex { vertex < length self.old.vertices }
        ensures alphabet { OnOk result (IsAlphabet plan.entry self.new.states.tableau.guards alphabet.new) }
        ensures goes_on { OnOk result (ExploresJoint (pairing_of plan.entry) (joint_draft self.old) (joint_draft self.new)
            (vertex + 1)) }
    {
        let visit = self.reach(plan, vertex)?;
        let row = self.row(plan, alphabet, &visit)?;
        self.rows.push(row)?;
        Ok(())
    }

    /// The vertex with a number, once the tableau's state of it has its edges. Fails if out of memory.
    fn reach(&mut self, plan: JointPlan, vertex: usize) -> Result<Visit, AllocError>
        requires explored { IsJointExplored (pairing_of plan) (joint_draft self.old) vertex }
        requires vertex { vertex < length self.old.vertices }
        ensures goes_on { OnOk result (ExploresJoint (pairing_of plan.entry) (joint_draft self.old) (joint_draft self.new)
            vertex) }
        ensures visit { IfOk result (IsVisitOf (joint_draft self.new) vertex) }
    {
        let (own, state) = self.vertices.as_slice()[vertex];
        self.states.reach(state as usize + 1)?;
        Ok(Visit { own, state })
    }

    /// The edges of a vertex that is explored. Fails if out of memory.
    fn row(
        &mut self,
        plan: JointPlan,
        alphabet: &mut Alphabet,
        visit: &Visit,
    ) -> Result<Vec<JointEdge>, AllocError>
        requires { IsVisit plan (joint_draft self.old) alphabet.old visit.now }
        ensures alphabet { OnOk result (IsAlphabet plan.entry self.new.states.tableau.guards alphabet.new) }
        ensures made { IfOk result (λ row. IsJointMadeFor (pairing_of plan.entry) (joint_draft self.old)
            (joint_draft self.new) (visited visit.now) row.items) }
    {
        let mut row = Vec::new(plan.alloc);
        for k in 0..self.states.edges(visit.state as usize).len() {
            let cover = self.states.edges(visit.state as usize)[k];
            self.add(plan, alphabet, visit, &cover, &mut row)?;
        }
        Ok(row)
    }

    /// Adds the edges of a vertex with one cover to a row of edges. Fails if out of memory.
    fn add(
        &mut self,
        plan: JointPlan,
        alphabet: &mut Alphabet,
        visit: &Visit,
        cover: &Cover,
        row: &mut Vec<JointEdge>,
    ) -> Result<(), AllocError>
        requires visit { IsVisit plan (joint_draft self.old) alphabet.old visit.now }
        requires cover { Contains (joint_covers (joint_draft self.old).states (visited visit.now)) cover.now }
        ensures alphabet { OnOk result (IsAlphabet plan.entry self.new.states.tableau.guards alphabet.new) }
        ensures adds { OnOk result (AddsJointCover (pairing_of plan.entry) (joint_draft self.old)
            (joint_draft self.new) (visited visit.now) cover.now row.old.items row.new.items) }
    {
        plan.automaton.parts_fit();
        let met = alphabet.met(plan, self.states.guards(), cover.guard, visit.own)?;
        if met.is_empty() {
            return Ok(());
        }
        let state = self.states.number_of(cover.next)?;
        join(plan.automaton, &mut self.vertices, &met, state, cover, row)
    }

    /// The product, once it has all its vertices and edges.
    fn into_graph(self, plan: JointPlan) -> JointGraph
        requires { IsFullJointDraft (pairing_of plan) (joint_draft self) }
        ensures { (f : Formula) → IsTableauOf self.states.tableau f →
            IsJointOf (auto_of plan.entry.automaton.now) (read_by plan.entry.places.now) (2 ^ plan.entry.count) f
            result }
    {
        let JointDraft {
            states,
            vertices: _vertices,
            rows,
        } = self;
        JointGraph::new(states.tableau, rows)
    }
}

/// Appends an edge for each of the given leaves and letters to a row of edges: the automaton's step, and a state of the
/// tableau. Vertices that are new get the next numbers. Fails if out of memory.
fn join(
    automaton: &Automaton,
    vertices: &mut KeyList<(u32, u32)>,
    met: &[(u64, u64)],
    state: u32,
    cover: &Cover,
    row: &mut Vec<JointEdge>,
) -> Result<(), AllocError>
    requires { (k leaf letter : ℕ) → slice_get met.now k ≡ Some (leaf, letter) → leaf < length automaton.now.steps }
    ensures { OnOk result (JoinsUpTo automaton.now vertices.old vertices.new met.now state cover.now row.old.items
        row.new.items (length met.now)) }
{
    for (leaf, letter) in met {
        let step = automaton.pair(*leaf);
        let to = vertices.place_of((step.state, state))?;
        row.push(JointEdge {
            to,
            letter: *letter,
            priority: step.priority,
            cover: *cover,
        })?;
    }
    Ok(())
}
