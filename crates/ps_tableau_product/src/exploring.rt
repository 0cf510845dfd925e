//! Explores the vertices of the product, breadth first.

ghost use Rattle.std.specs.Prelude.{◌≡◌, ◌+◌, ◌<◌, IfOk, OnOk, length};
ghost use Rattle.ps_formula.specs.Formulas.{Formula};
ghost use Rattle.ps_tableau.specs.Boards.{IsState, IsTableauOf};
ghost use Rattle.ps_tableau_product.specs.Inner.Drafts.{IsBlank};
ghost use Rattle.ps_tableau_product.specs.Inner.Exploring.{AddsCover, Appends, Completes, Explores, Grew, HasCoversAt};
ghost use Rattle.ps_tableau_product.specs.Inner.Exploring.{IsCoverAt, IsExplored, IsFullDraft, IsMadeRow, IsVisited};
ghost use Rattle.ps_tableau_product.specs.Inner.Exploring.{draft_data};
ghost use Rattle.ps_tableau_product.specs.Graphs.{IsModelGraph};
ghost use Rattle.ps_tableau_product.specs.Plans.{scene_of};

use crate::graph::{ModelGraph, Passage};
use crate::plan::Plan;
use crate::states::States;
use crate::views::View;
use ps_diagram::Store;
use ps_product::{Edge, Evaluator, Numbering, numbers_of};
use ps_tableau::{Edge as Cover, Tableau};
use std::alloc::{AllocError, Global};

/// The product so far: the states and the vertices that were found, some of which have been explored.
#[derive(Drop)]
pub(crate) struct Draft {
    /// The states of the tableau.
    pub states: States,
    /// The vertices.
    pub numbering: Numbering,
    /// The edges of each explored vertex.
    pub rows: Vec<Vec<Passage>>,
}

impl<'a> Plan<'a> {
    /// The product with a tableau, of which all vertices are explored that can be reached from the first one. Fails if
    /// out of memory.
    pub fn product(self, tableau: Tableau) -> Result<ModelGraph<'a>, AllocError>
        requires { IsState tableau tableau.initial }
        ensures { IfOk result (λ graph. (f : Formula) → IsTableauOf tableau f →
            IsModelGraph (scene_of self.entry).names self.entry.circuit.now f graph) }
    {
        let mut draft = Draft::new(self.alloc, tableau)?;
        match draft.explore_all(self) {
            Ok(()) => Ok(draft.into_graph(self)),
            Err(error) => {
                drop(draft);
                Err(error)
            }
        }
    }
}

impl Draft {
    /// A product in the making that has the initial state, and no vertices. Fails if out of memory.
    fn new(alloc: Global, tableau: Tableau) -> Result<Draft, AllocError>
        requires { IsState tableau tableau.initial }
        ensures blank { IfOk result (λ draft. IsBlank (draft_data draft)) }
        ensures board { IfOk result (λ draft. draft.states.tableau ≡ tableau) }
    {
        let states = States::new(alloc, tableau)?;
        Ok(Draft {
            states,
            numbering: Numbering::new(alloc),
            rows: Vec::new(alloc),
        })
    }

    /// Finds all vertices and explores them, and finds the edges of all states. Fails if out of memory.
    fn explore_all(&mut self, plan: Plan) -> Result<(), AllocError>
        requires { IsBlank (draft_data self.old) }
        ensures { OnOk result (Completes (scene_of plan.entry) (draft_data self.old) (draft_data self.new)) }
    {
        self.start(plan)?;
        let mut evaluator = Evaluator::new(plan.alloc, plan.circuit)?;
        let mut store = plan.store();
        let mut vertex = 0;
        while vertex < self.numbering.len() {
            store = self.visit(plan, &mut evaluator, store, vertex)?;
            vertex += 1;
        }
        self.states.reach_all()
    }

    /// Adds the first vertex, whose number is 0. Fails if out of memory.
    fn start(&mut self, plan: Plan) -> Result<(), AllocError>
        requires { IsBlank (draft_data self.old) }
        ensures { OnOk result (Explores (scene_of plan.entry) (draft_data self.old) (draft_data self.new) 0) }
    {
        let first = plan.first()?;
        let _number = self.numbering.number(first)?;
        Ok(())
    }

    /// Explores the first vertex that has not been explored, and returns a store for the next one. Fails if out of
    /// memory.
    fn visit(
        &mut self,
        plan: Plan,
        evaluator: &mut Evaluator,
        store: Store,
        vertex: usize,
    ) -> Result<Store, AllocError>
        requires evaluator { evaluator.old ≡ plan.circuit.now }
        requires store { store.propositions ≡ length plan.names.now }
        requires explored { IsExplored (scene_of plan) (draft_data self.old) vertex }
        requires vertex { vertex < length self.old.numbering }
        ensures evaluator { evaluator.new ≡ evaluator.old }
        ensures goes_on { OnOk result (Explores (scene_of plan.entry) (draft_data self.old) (draft_data self.new)
            (vertex + 1)) }
        ensures store { IfOk result (λ s. s.propositions ≡ length plan.entry.names.now) }
    {
        self.reach(plan, vertex)?;
        let latches = &self.numbering.vertex(vertex).latches;
        let view = plan.view(evaluator, store, latches)?;
        self.explore(plan, view, vertex)
    }

    /// Finds the edges of the state of a vertex. Fails if out of memory.
    fn reach(&mut self, plan: Plan, vertex: usize) -> Result<(), AllocError>
        requires explored { IsExplored (scene_of plan) (draft_data self.old) vertex }
        requires vertex { vertex < length self.old.numbering }
        ensures goes_on { OnOk result (Explores (scene_of plan.entry) (draft_data self.old) (draft_data self.new) vertex) }
        ensures covers { OnOk result (HasCoversAt (draft_data self.new) vertex) }
        ensures same { self.new.numbering ≡ self.old.numbering }
    {
        let state = self.numbering.vertex(vertex).state as usize;
        self.states.reach(state + 1)
    }

    /// Adds the edges of the first vertex that has not been explored, given the diagrams of a step at its latches, and
    /// returns a store for the next vertex. Fails if out of memory.
    fn explore(&mut self, plan: Plan, mut view: View, vertex: usize) -> Result<Store, AllocError>
        requires explored { IsExplored (scene_of plan) (draft_data self.old) vertex }
        requires visited { IsVisited (scene_of plan) (draft_data self.old) vertex view }
        ensures goes_on { OnOk result (Explores (scene_of plan.entry) (draft_data self.old) (draft_data self.new)
            (vertex + 1)) }
        ensures store { IfOk result (λ s. s.propositions ≡ length plan.entry.names.now) }
    {
        let row = self.row(plan, &mut view, vertex)?;
        self.rows.push(row)?;
        Ok(plan.renewed(view.store))
    }

    /// The edges of a vertex, given the diagrams of a step at its latches. Fails if out of memory.
    fn row(
        &mut self,
        plan: Plan,
        view: &mut View,
        vertex: usize,
    ) -> Result<Vec<Passage>, AllocError>
        requires { IsVisited (scene_of plan) (draft_data self.old) vertex view.old }
        ensures made { IfOk result (λ row. IsMadeRow (scene_of plan.entry) (draft_data self.old) (draft_data self.new)
            vertex row.items) }
        ensures store { OnOk result (view.new.store.propositions ≡ length plan.entry.names.now) }
    {
        let state = self.numbering.vertex(vertex).state as usize;
        let mut row = Vec::new(plan.alloc);
        for k in 0..self.states.edges(state).len() {
            let cover = self.states.edges(state)[k];
            self.add(plan, view, vertex, &cover, &mut row)?;
        }
        Ok(row)
    }

    /// Adds the edges of a vertex with one cover to a row of edges. Fails if out of memory.
    fn add(
        &mut self,
        plan: Plan,
        view: &mut View,
        vertex: usize,
        cover: &Cover,
        row: &mut Vec<Passage>,
    ) -> Result<(), AllocError>
        requires visited { IsVisited (scene_of plan) (draft_data self.old) vertex view.old }
        requires cover { IsCoverAt (draft_data self.old) vertex cover.now }
        ensures adds { OnOk result (AddsCover (scene_of plan.entry) (draft_data self.old) (draft_data self.new) vertex
            cover.now row.old.items row.new.items) }
        ensures visited { OnOk result (IsVisited (scene_of plan.entry) (draft_data self.new) vertex view.new) }
    {
        let letters = view.served(self.states.guards(), cover.guard)?;
        if letters.is_empty() {
            return Ok(());
        }
        let state = self.states.number_of(cover.next)?;
        let edges = view.edges_at(plan.alloc, &letters, state)?;
        append(plan.alloc, &mut self.numbering, edges, cover, row)
    }

    /// The product, once it has all its vertices and edges.
    fn into_graph<'a>(self, plan: Plan<'a>) -> ModelGraph<'a>
        requires { IsFullDraft (scene_of plan) (draft_data self) }
        ensures { (f : Formula) → IsTableauOf self.states.tableau f →
            IsModelGraph (scene_of plan.entry).names plan.entry.circuit.now f result }
    {
        let Draft {
            states,
            numbering: _numbering,
            rows,
        } = self;
        ModelGraph::new(states.tableau, rows, &plan.roles.inputs)
    }
}

/// Appends edges with a cover to a row of edges; vertices that are new get the next numbers. Fails if out of memory.
fn append(
    alloc: Global,
    numbering: &mut Numbering,
    edges: Vec<Edge>,
    cover: &Cover,
    row: &mut Vec<Passage>,
) -> Result<(), AllocError>
    ensures { OnOk result (Appends numbering.old numbering.new edges.items cover.now row.old.items row.new.items) }
{
    let numbered = numbers_of(alloc, numbering, edges)?;
    extend(&numbered.numbers, &numbered.letters, cover, row)
}

/// Appends edges with a cover to a row of edges, given the numbers of their vertices and their letters. Fails if out of
/// memory.
fn extend(
    numbers: &[usize],
    letters: &[u64],
    cover: &Cover,
    row: &mut Vec<Passage>,
) -> Result<(), AllocError>
    requires { length letters.now ≡ length numbers.now }
    ensures { OnOk result (Grew numbers.now letters.now cover.now row.old.items row.new.items (length numbers.now)) }
{
    for (k, to) in numbers.iter().enumerate() {
        row.push(Passage {
            to: *to,
            letter: letters[k],
            cover: *cover,
        })?;
    }
    Ok(())
}
