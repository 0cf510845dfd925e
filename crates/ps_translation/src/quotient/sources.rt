//! For each state of an automaton, the states that lead to it.

use crate::machine::Machine;
use ps_parts::column::Column;
use ps_parts::diagrams::{Diagram, Diagrams};
use ps_parts::stop::{Stop, index};
use std::alloc::Global;

/// The end of a list.
const NONE: u32 = u32::MAX;

/// A state that leads to another, and the pair before this one, of those of the same target.
#[derive(Clone, Copy)]
struct Source {
    state: u32,
    earlier: u32,
}

/// The states that lead to each state.
#[derive(Drop)]
pub(crate) struct Sources {
    list: Vec<Source>,
    /// For each state, the last of its sources in the list.
    last: Column,
}

/// The states that lead to each state of an automaton.
pub(crate) fn sources_of(
    alloc: Global,
    diagrams: &mut Diagrams,
    machine: &Machine,
) -> Result<Sources, Stop> {
    let mut sources = Sources {
        list: Vec::new(alloc),
        last: Column::new(alloc, NONE),
    };
    for (state, row) in machine.rows.iter().enumerate() {
        sources.add(diagrams, machine, index(state)?, *row)?;
    }
    Ok(sources)
}

impl Sources {
    /// Adds a state with a row as a source of the states that it leads to.
    fn add(
        &mut self,
        diagrams: &mut Diagrams,
        machine: &Machine,
        state: u32,
        row: Diagram,
    ) -> Result<(), Stop> {
        let ends = diagrams.ends(row)?;
        diagrams.take(ends.len())?;
        for end in &ends {
            self.add_source(machine.arc(diagrams, *end).target, state)?;
        }
        Ok(())
    }

    /// Adds a state as a source of another.
    fn add_source(&mut self, target: u32, state: u32) -> Result<(), Stop> {
        let place = index(self.list.len())?;
        self.list.push(Source {
            state,
            earlier: self.last.get(target),
        })?;
        self.last.set(target, place)
    }

    /// The states that lead to a state; one that does so with several marks is there as often.
    pub(crate) fn of(&self, alloc: Global, state: u32) -> Result<Vec<u32>, Stop> {
        let mut states = Vec::new(alloc);
        let mut place = self.last.get(state);
        for _ in 0..self.list.len() {
            match self.list.get(place as usize) {
                Some(source) => {
                    states.push(source.state)?;
                    place = source.earlier;
                }
                None => break,
            }
        }
        Ok(states)
    }
}
