//! The states of a tableau, numbered in the order in which they were met.

ghost use Rattle.std.specs.Prelude.{◌≡◌, ◌+◌, ◌<◌, ◌≤◌, ◌∷◌, [], IfOk, OnOk, length};
ghost use Rattle.ps_tableau.specs.Boards.{IsState};
ghost use Rattle.ps_tableau_product.specs.BoardStates.{edges_of_state};
ghost use Rattle.ps_tableau_product.specs.Inner.States.{AreStates, HaveAllEdges, HaveMoreEdges, IsNumberOfSet};
ghost use Rattle.ps_tableau_product.specs.Inner.States.{states_data};

use ps_diagram::Store;
use ps_keys::KeyList;
use ps_tableau::{Edge, Set, Tableau};
use std::alloc::{AllocError, Global};

/// The states of a tableau that were met. The first ones have their edges.
#[derive(Drop)]
pub(crate) struct States {
    /// The tableau.
    pub tableau: Tableau,
    /// The set of each state.
    pub sets: KeyList<Set>,
    /// The edges of the first states.
    pub edges: Vec<Vec<Edge>>,
}

impl States {
    /// The initial state alone, without its edges. Fails if out of memory.
    pub(crate) fn new(alloc: Global, tableau: Tableau) -> Result<Self, AllocError>
        requires { IsState tableau tableau.initial }
        ensures states { IfOk result (λ s. AreStates (states_data s)) }
        ensures tableau { IfOk result (λ s. s.tableau ≡ tableau) }
        ensures sets { IfOk result (λ s. s.sets ≡ tableau.initial ∷ []) }
    {
        let mut sets = KeyList::new(alloc);
        let _first = sets.place_of(tableau.initial())?;
        Ok(States {
            tableau,
            sets,
            edges: Vec::new(alloc),
        })
    }

    /// The diagrams of guards.
    pub(crate) fn guards(&self) -> &Store
        ensures { result.now ≡ self.now.tableau.guards }
    {
        self.tableau.guards()
    }

    /// The edges of a state.
    pub(crate) fn edges(&self, state: usize) -> &[Edge]
        requires { state < length self.now.edges.items }
        ensures { result.now ≡ edges_of_state (states_data self.now).edges state }
    {
        &self.edges[state]
    }

    /// The number of a set's state; a set that was no state becomes the last one. Fails if out of memory.
    pub(crate) fn number_of(&mut self, set: Set) -> Result<u32, AllocError>
        requires states { AreStates (states_data self.old) }
        requires set { IsState self.old.tableau set }
        ensures { IfOk result (IsNumberOfSet (states_data self.old) set (states_data self.new)) }
    {
        let number = self.sets.place_of(set)?;
        self.sets.keys_are_few();
        Ok(number as u32)
    }

    /// Finds the edges of all states. Fails if out of memory.
    pub(crate) fn reach_all(&mut self) -> Result<(), AllocError>
        requires { AreStates (states_data self.old) }
        ensures { OnOk result (HaveAllEdges (states_data self.old) (states_data self.new)) }
    {
        let count = self.sets.len();
        self.reach(count)
    }

    /// Finds the edges of all states whose numbers are less than `count`. Fails if out of memory.
    pub(crate) fn reach(&mut self, count: usize) -> Result<(), AllocError>
        requires states { AreStates (states_data self.old) }
        requires count { count ≤ length self.old.sets }
        ensures more { OnOk result (HaveMoreEdges (states_data self.old) (states_data self.new)) }
        ensures reached { OnOk result (count ≤ length self.new.edges.items) }
    {
        while self.edges.len() < count {
            self.explore()?;
        }
        Ok(())
    }

    /// Finds the edges of the first state that has none yet. Fails if out of memory.
    fn explore(&mut self) -> Result<(), AllocError>
        requires states { AreStates (states_data self.old) }
        requires some { length self.old.edges.items < length self.old.sets }
        ensures more { OnOk result (HaveMoreEdges (states_data self.old) (states_data self.new)) }
        ensures one { OnOk result (length self.new.edges.items ≡ length self.old.edges.items + 1) }
    {
        let set = self.sets.as_slice()[self.edges.len()];
        let edges = self.tableau.edges(set)?;
        self.edges.push(edges)?;
        Ok(())
    }
}
