//! Fewer latches and gates, where only reached states matter.
//!
//! At the states that the closed loop reaches, and the edges that do not end the play, each function is replaced by a
//! smaller one that agrees there. An output may depend on those before it, and what a latch is in the next state on
//! all. The outputs come first, and then the latches that are needed; a latch that is needed anyway is left out last.

use crate::arena::{Bit, MEMORY};
use crate::functions::{Bounds, Functions, Unknown};
use ps_parts::diagrams::Diagram;
use ps_parts::stop::{Stop, index};

/// What a latch costs, in nodes.
const LATCH: usize = 6;

impl Functions {
    /// Makes the functions smaller, where some states are reached.
    pub(crate) fn shrink(&mut self, reached: Diagram) -> Result<(), Stop> {
        let count = self.unknowns.len();
        let won = self.put_in(count, self.won)?;
        let care = self.diagrams.difference(reached, won)?;
        let edges = self.shrink_outputs(reached)?;
        let edges = self.diagrams.both(edges, care)?;
        for place in 0..count.saturating_add(self.bits.len()) {
            let Some(variable) = self.needed.as_slice().get(place).copied() else {
                break;
            };
            self.shrink_latch(index(variable as usize)?, edges)?;
        }
        Ok(())
    }

    /// Makes the functions of the outputs smaller, which may depend on those before them. Gives the edges from some
    /// states at which the outputs are those of the functions.
    fn shrink_outputs(&mut self, states: Diagram) -> Result<Diagram, Stop> {
        let mut edges = states;
        for place in 0..self.unknowns.len() {
            let Some(unknown) = self.unknowns.get(place).copied() else {
                break;
            };
            if unknown.variable >= 2 * MEMORY {
                let function = self.shrink_unknown(place, unknown, edges)?;
                let output = self.diagrams.variable(unknown.variable)?;
                let differs = self.diagrams.negated(output)?;
                let agrees = self.diagrams.choose(function, output, differs)?;
                edges = self.diagrams.both(edges, agrees)?;
            }
        }
        Ok(edges)
    }

    /// Makes the function of an output or a bit of the next turn smaller, which is to agree at some edges.
    fn shrink_unknown(
        &mut self,
        place: usize,
        unknown: Unknown,
        edges: Diagram,
    ) -> Result<Diagram, Stop> {
        let function = self.smaller(unknown.function, edges, unknown.variable)?;
        if let Some(entry) = self.unknowns.get_mut(place) {
            entry.function = function;
        }
        Ok(function)
    }

    /// Makes the function of a latch smaller.
    fn shrink_latch(&mut self, variable: u32, edges: Diagram) -> Result<(), Stop> {
        for place in 0..self.unknowns.len() {
            if let Some(unknown) = self.unknowns.get(place).copied()
                && unknown.variable < 2 * MEMORY
                && unknown.variable == variable.saturating_add(1)
            {
                self.shrink_unknown(place, unknown, edges)?;
            }
        }
        for place in 0..self.bits.len() {
            let Some(bit) = self.bits.get(place).copied() else {
                break;
            };
            if bit.variable == variable {
                self.shrink_bit(place, bit, edges)?;
            }
        }
        Ok(())
    }

    /// Makes the function of a bit of the state smaller.
    fn shrink_bit(&mut self, place: usize, bit: Bit, edges: Diagram) -> Result<(), Stop> {
        let next = self.smaller(bit.next, edges, bit.variable)?;
        if let Some(bit) = self.bits.get_mut(place) {
            bit.next = next;
        }
        Ok(())
    }

    /// A smaller function that agrees where it matters; what it depends on is needed.
    fn smaller(
        &mut self,
        function: Diagram,
        care: Diagram,
        variable: u32,
    ) -> Result<Diagram, Stop> {
        let must = self.diagrams.both(function, care)?;
        let never = self.diagrams.difference(care, function)?;
        let may = self.diagrams.negated(never)?;
        let bounds = self.without_variables(Bounds { must, may }, variable)?;
        let mut made = self.between(bounds)?;
        if self.cost(function)? < self.cost(made)? {
            made = function;
        }
        for each in &self.diagrams.variables(made)? {
            if self.is_latch(*each) {
                self.needed.place_of(*each as u64)?;
            }
        }
        Ok(made)
    }

    /// What a function costs: nodes, and latches that nothing else needs.
    fn cost(&mut self, function: Diagram) -> Result<usize, Stop> {
        let mut cost = self.diagrams.size(function)?;
        for each in &self.diagrams.variables(function)? {
            if self.is_latch(*each) && self.needed.find(*each as u64).is_none() {
                cost = cost.saturating_add(LATCH);
            }
        }
        Ok(cost)
    }
}
