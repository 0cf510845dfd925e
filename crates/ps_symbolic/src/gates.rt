//! And-gates, each once.
//!
//! A diagram becomes a choice for each of its nodes (Bryant, "Graph-Based Algorithms for Boolean Function
//! Manipulation", 1986); nodes that are shared become gates that are shared. There are at most 1,048,576 gates.

use ps_circuit::{Gate, Literal};
use ps_keys::{KeyList, KeyMap};
use ps_parts::column::Column;
use ps_parts::diagrams::{self, Diagram, Diagrams, View};
use ps_parts::stop::Stop;
use std::alloc::Global;

/// The number of the literal of a variable that has none, and of a node whose literal is not made.
const UNKNOWN: u32 = u32::MAX;

/// The most gates.
const GATES: usize = 1 << 20;

/// The greatest depth of a diagram.
const DEPTH: u32 = 1024;

/// The gates of a circuit. A literal is a number: twice a variable, plus one if it is negated.
#[derive(Drop)]
pub(crate) struct Gates {
    /// The number of variables of inputs and latches.
    given: u32,
    /// What each gate reads.
    gates: KeyList<(u32, u32)>,
    /// The literal of each variable of the diagrams.
    variables: Column,
    /// The literal of each node.
    nodes: KeyMap<u64, u32>,
}

impl Gates {
    /// No gates.
    pub(crate) fn new(alloc: Global) -> Self {
        Gates {
            given: 0,
            gates: KeyList::new(alloc),
            variables: Column::new(alloc, UNKNOWN),
            nodes: KeyMap::new(alloc),
        }
    }

    /// A new variable of an input or a latch, as a literal.
    pub(crate) fn give(&mut self) -> u32 {
        self.given = self.given.saturating_add(1).min(1 << 20);
        2 * self.given
    }

    /// Sets the literal of a variable of the diagrams.
    pub(crate) fn set(&mut self, variable: u32, literal: u32) -> Result<(), Stop> {
        self.variables.set(variable, literal)
    }

    /// The literal of a variable of the diagrams, if it has one.
    pub(crate) fn literal_of(&self, variable: u32) -> Option<u32> {
        match self.variables.get(variable) {
            UNKNOWN => None,
            literal => Some(literal),
        }
    }

    /// The greatest variable.
    pub(crate) fn most(&self) -> u32 {
        let gates = self.gates.len().min(GATES) as u32;
        self.given.saturating_add(gates)
    }

    /// The gates, each behind those that it reads.
    pub(crate) fn list(&self, alloc: Global) -> Result<Vec<Gate>, Stop> {
        let mut list = Vec::new(alloc);
        for (place, (first, second)) in self.gates.as_slice().iter().enumerate() {
            let variable = self.given.saturating_add(place.min(GATES) as u32);
            list.push(Gate {
                literal: Literal::new(variable.saturating_add(1).saturating_mul(2)),
                first: Literal::new(*first),
                second: Literal::new(*second),
            })?;
        }
        Ok(list)
    }

    /// The literal of a conjunction.
    pub(crate) fn and(&mut self, first: u32, second: u32) -> Result<u32, Stop> {
        let (first, second) = (first.max(second), first.min(second));
        match second {
            0 => return Ok(0),
            1 => return Ok(first),
            _ if first == second => return Ok(first),
            _ if first == second ^ 1 => return Ok(0),
            _ => {}
        }
        let place = self.gates.place_of((first, second))?;
        if place >= GATES {
            return Err(Stop::Limit);
        }
        let variable = self.given.saturating_add(place as u32).saturating_add(1);
        Ok(variable.saturating_mul(2))
    }

    /// The literal of a disjunction.
    fn or(&mut self, first: u32, second: u32) -> Result<u32, Stop> {
        Ok(self.and(first ^ 1, second ^ 1)? ^ 1)
    }

    /// The literal of a choice.
    fn mux(&mut self, truth: u32, high: u32, low: u32) -> Result<u32, Stop> {
        if high == low {
            return Ok(high);
        }
        match (high, low) {
            (1, _) => return self.or(truth, low),
            (0, _) => return self.and(truth ^ 1, low),
            (_, 1) => return self.or(truth ^ 1, high),
            (_, 0) => return self.and(truth, high),
            _ => {}
        }
        let one = self.and(truth, high)?;
        let other = self.and(truth ^ 1, low)?;
        self.or(one, other)
    }

    /// The literal of a diagram.
    pub(crate) fn literal(&mut self, diagrams: &Diagrams, diagram: Diagram) -> Result<u32, Stop> {
        self.literal_at(DEPTH, diagrams, diagram)
    }

    /// Like `literal`, at a depth.
    fn literal_at(
        &mut self,
        depth: u32,
        diagrams: &Diagrams,
        diagram: Diagram,
    ) -> Result<u32, Stop> {
        let View::Test(test) = diagrams.view(diagram) else {
            return Ok(u32::from(diagram == diagrams::TRUE));
        };
        if let Some(known) = self.nodes.get(diagram as u64) {
            return Ok(known);
        }
        if depth == 0 {
            return Err(Stop::Limit);
        }
        let truth = self.literal_of(test.variable).ok_or(Stop::Limit)?;
        let low = self.literal_at(depth - 1, diagrams, test.low)?;
        let high = self.literal_at(depth - 1, diagrams, test.high)?;
        let made = self.mux(truth, high, low)?;
        self.nodes.put(diagram as u64, made)?;
        Ok(made)
    }
}
