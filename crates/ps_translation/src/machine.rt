//! Deterministic automata whose edges bear numbers.

use ps_keys::KeyList;
use ps_parts::diagrams::{Diagram, Diagrams, REFUSED, View};
use ps_parts::stop::{Stop, index};
use std::alloc::Global;

/// The most states of an automaton.
pub(crate) const STATES: usize = 65_535;

/// A state that leads nowhere.
pub(crate) const NONE: u32 = u32::MAX;

/// What an edge leads to.
#[derive(Clone, Copy)]
pub(crate) struct Arc {
    pub(crate) target: u32,
    /// The marks of a product, one bit for each part; or the priority.
    pub(crate) mark: u64,
}

/// A deterministic automaton, whose states are numbered from 0, the initial state.
#[derive(Drop)]
pub(crate) struct Machine {
    /// For each state, its row: the number of an arc for each letter that is not refused.
    pub(crate) rows: Vec<Diagram>,
    /// A number for each state; states with different ones are not joined.
    pub(crate) kinds: Vec<u32>,
    /// For each state, the state of the product that it was.
    origins: Vec<u32>,
    arcs: KeyList<(u32, u64)>,
}

impl Machine {
    /// An automaton without states.
    pub(crate) fn new(alloc: Global) -> Self {
        Machine {
            rows: Vec::new(alloc),
            kinds: Vec::new(alloc),
            origins: Vec::new(alloc),
            arcs: KeyList::new(alloc),
        }
    }

    /// Adds a state.
    pub(crate) fn push(&mut self, row: Diagram, kind: u32, origin: u32) -> Result<(), Stop> {
        if self.rows.len() >= STATES {
            return Err(Stop::Limit);
        }
        self.rows.push(row)?;
        self.kinds.push(kind)?;
        self.origins.push(origin)?;
        Ok(())
    }

    /// The leaf of an arc.
    pub(crate) fn leaf(&mut self, diagrams: &mut Diagrams, arc: Arc) -> Result<Diagram, Stop> {
        let place = self.arcs.place_of((arc.target, arc.mark))?;
        let number = index(place)?;
        diagrams.leaf(number)
    }

    /// The arcs, by their numbers.
    pub(crate) fn arcs(&self) -> &[(u32, u64)] {
        self.arcs.as_slice()
    }

    /// The arc of an end of a row.
    pub(crate) fn arc(&self, diagrams: &Diagrams, end: Diagram) -> Arc {
        let number = match diagrams.view(end) {
            View::Leaf(number) => number,
            View::Test(_) => NONE,
        };
        match self.arcs.as_slice().get(number as usize) {
            Some((target, mark)) => Arc {
                target: *target,
                mark: *mark,
            },
            None => Arc {
                target: NONE,
                mark: 0,
            },
        }
    }

    /// The row of a state.
    pub(crate) fn row(&self, state: u32) -> Diagram {
        match self.rows.get(state as usize) {
            Some(row) => *row,
            None => REFUSED,
        }
    }

    /// The kind of a state.
    pub(crate) fn kind(&self, state: u32) -> u32 {
        match self.kinds.get(state as usize) {
            Some(kind) => *kind,
            None => NONE,
        }
    }

    /// The state of the product that a state was.
    pub(crate) fn origin(&self, state: u32) -> u32 {
        match self.origins.get(state as usize) {
            Some(origin) => *origin,
            None => NONE,
        }
    }
}
