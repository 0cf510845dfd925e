//! Edges between components lead as far down as they can.
//!
//! Two states of a product accept the same words if their conditions are equal and in each part as much is owed, whatever
//! has to be met before the next mark, and whose turn it is: a run meets only finitely many letters before it is in
//! either. So an edge that leaves a component may lead to another such state. Each such edge leads to the first one in
//! the lowest component, where components are in an order in which no edge leads upwards; no run then leaves a component
//! more often than there are components. States by which only turns were kept that do not matter are then met no more,
//! or cannot be told apart.

use crate::components::component_numbers;
use crate::machine::{Arc, Machine, NONE};
use crate::parity::edges_of;
use crate::product::Product;
use ps_keys::KeyList;
use ps_parts::column::Column;
use ps_parts::diagrams::{Diagram, Diagrams};
use ps_parts::part::Part;
use ps_parts::stop::{Stop, index, number_of};
use std::alloc::Global;

/// The states of a product by what they accept.
#[derive(Drop)]
struct Descent {
    alloc: Global,
    /// The component of each state.
    components: Column,
    /// What each state accepts, as a number.
    languages: Column,
    /// For each of these numbers, the first state in the lowest component.
    lowest: Column,
    made: Machine,
}

/// The automaton of a product, with edges that lead as far down as they can.
pub(crate) fn descended(
    alloc: Global,
    diagrams: &mut Diagrams,
    product: &Product,
) -> Result<Machine, Stop> {
    let components = components_of(alloc, diagrams, &product.machine)?;
    let mut descent = Descent {
        alloc,
        components,
        languages: Column::new(alloc, NONE),
        lowest: Column::new(alloc, NONE),
        made: Machine::new(alloc),
    };
    descent.tell_apart(product)?;
    descent.run(diagrams, &product.machine)?;
    Ok(descent.into_machine())
}

/// The component of each state.
fn components_of(alloc: Global, diagrams: &Diagrams, machine: &Machine) -> Result<Column, Stop> {
    let edges = edges_of(alloc, diagrams, machine)?;
    component_numbers(alloc, &edges.list)
}

impl Descent {
    /// The automaton.
    fn into_machine(self) -> Machine {
        let Descent { made, .. } = self;
        made
    }

    /// Finds out what each state accepts.
    fn tell_apart(&mut self, product: &Product) -> Result<(), Stop> {
        let mut lists = KeyList::new(self.alloc);
        for state in 0..product.machine.rows.len() {
            let state = index(state)?;
            let language = language_of(&mut lists, product, state)?;
            self.note(language, state)?;
        }
        Ok(())
    }

    /// Notes a state that accepts something.
    fn note(&mut self, language: u32, state: u32) -> Result<(), Stop> {
        self.languages.set(state, language)?;
        let known = self.lowest.get(language);
        if known == NONE || self.components.get(state) < self.components.get(known) {
            self.lowest.set(language, state)?;
        }
        Ok(())
    }

    /// Makes all states.
    fn run(&mut self, diagrams: &mut Diagrams, machine: &Machine) -> Result<(), Stop> {
        for state in 0..machine.rows.len() {
            let state = index(state)?;
            let row = self.row(diagrams, machine, state)?;
            self.made
                .push(row, machine.kind(state), machine.origin(state))?;
        }
        Ok(())
    }

    /// The row of a state.
    fn row(
        &mut self,
        diagrams: &mut Diagrams,
        machine: &Machine,
        state: u32,
    ) -> Result<Diagram, Stop> {
        let row = machine.row(state);
        let ends = diagrams.ends(row)?;
        let leaves = self.leaves(diagrams, machine, state, &ends)?;
        diagrams.replaced(row, &ends, &leaves)
    }

    /// For each end of the row of a state, the leaf of where it leads.
    fn leaves(
        &mut self,
        diagrams: &mut Diagrams,
        machine: &Machine,
        state: u32,
        ends: &[Diagram],
    ) -> Result<Vec<Diagram>, Stop> {
        let mut leaves = Vec::new(self.alloc);
        for end in ends {
            let arc = self.lowered(state, machine.arc(diagrams, *end));
            leaves.push(self.made.leaf(diagrams, arc)?)?;
        }
        Ok(leaves)
    }

    /// Where an arc from a state leads.
    fn lowered(&self, state: u32, arc: Arc) -> Arc {
        let lowest = self.lowest.get(self.languages.get(arc.target));
        if self.components.get(lowest) < self.components.get(state) {
            return Arc {
                target: lowest,
                mark: arc.mark,
            };
        }
        arc
    }
}

/// What a state of a product accepts, as a number: that of the list of the condition and what is owed.
fn language_of(
    lists: &mut KeyList<(u32, u32)>,
    product: &Product,
    state: u32,
) -> Result<u32, Stop> {
    let (condition, list) = product.state(state)?;
    let states = product.states_of(list)?;
    list_of(lists, &product.parts, condition, &states)
}

/// The number of the list of a condition and what is owed in states of parts.
fn list_of(
    lists: &mut KeyList<(u32, u32)>,
    parts: &[Part],
    condition: Diagram,
    states: &[u32],
) -> Result<u32, Stop> {
    let mut list = number_of(lists, (condition, NONE))?;
    for (part, state) in parts.iter().zip(states) {
        list = number_of(lists, (part.lasting(*state)?, list))?;
    }
    Ok(list)
}
