//! Diagrams with variables replaced, and diagrams in another store.

use crate::column::Column;
use crate::diagrams::{DEPTH, Diagram, Diagrams, View};
use crate::stop::Stop;
use ps_keys::KeyMap;
use std::alloc::Global;

/// What replaces no variable.
const SAME: u32 = u32::MAX;

/// Diagrams that replace variables, all at once; other variables stay. It notes results, so it serves one store only,
/// and the diagrams are set before it is applied.
#[derive(Drop)]
pub struct Substitution {
    made: Column,
    /// The last variable that is replaced.
    last: u32,
    known: KeyMap<u64, Diagram>,
}

impl Substitution {
    /// That of no variables.
    pub fn new(alloc: Global) -> Self {
        Substitution {
            made: Column::new(alloc, SAME),
            last: 0,
            known: KeyMap::new(alloc),
        }
    }

    /// Sets the diagram that replaces a variable.
    pub fn set(&mut self, variable: u32, made: Diagram) -> Result<(), Stop> {
        self.last = self.last.max(variable);
        self.made.set(variable, made)
    }

    /// The diagram with the variables replaced.
    pub fn applied(&mut self, diagrams: &mut Diagrams, diagram: Diagram) -> Result<Diagram, Stop> {
        self.applied_at(DEPTH, diagrams, diagram)
    }

    /// Like `applied`, at a depth.
    fn applied_at(
        &mut self,
        depth: u32,
        diagrams: &mut Diagrams,
        diagram: Diagram,
    ) -> Result<Diagram, Stop> {
        let test = match diagrams.view(diagram) {
            View::Test(test) if test.variable <= self.last => test,
            _ => return Ok(diagram),
        };
        if let Some(known) = self.known.get(diagram as u64) {
            return Ok(known);
        }
        if depth == 0 {
            return Err(Stop::Limit);
        }
        let low = self.applied_at(depth - 1, diagrams, test.low)?;
        let high = self.applied_at(depth - 1, diagrams, test.high)?;
        let made = match self.made.get(test.variable) {
            SAME => diagrams.split(test.variable, low, high)?,
            truth => diagrams.choose(truth, high, low)?,
        };
        self.known.put(diagram as u64, made)?;
        Ok(made)
    }
}

/// Copies of diagrams in another store. It notes them, so it serves one pair of stores only, and variables are set
/// before it copies.
#[derive(Drop)]
pub struct Transfer {
    variables: Column,
    known: KeyMap<u64, Diagram>,
}

impl Transfer {
    /// That to the same variables.
    pub fn new(alloc: Global) -> Self {
        Transfer {
            variables: Column::new(alloc, SAME),
            known: KeyMap::new(alloc),
        }
    }

    /// Sets the variable of the other store that a variable becomes.
    pub fn set(&mut self, variable: u32, other: u32) -> Result<(), Stop> {
        self.variables.set(variable, other)
    }

    /// The diagram of the other store; leaves have the same numbers.
    pub fn copied(
        &mut self,
        from: &Diagrams,
        to: &mut Diagrams,
        diagram: Diagram,
    ) -> Result<Diagram, Stop> {
        self.copied_at(DEPTH, from, to, diagram)
    }

    /// Like `copied`, at a depth.
    fn copied_at(
        &mut self,
        depth: u32,
        from: &Diagrams,
        to: &mut Diagrams,
        diagram: Diagram,
    ) -> Result<Diagram, Stop> {
        let test = match from.view(diagram) {
            View::Leaf(number) => return to.leaf(number),
            View::Test(test) => test,
        };
        if let Some(known) = self.known.get(diagram as u64) {
            return Ok(known);
        }
        if depth == 0 {
            return Err(Stop::Limit);
        }
        let low = self.copied_at(depth - 1, from, to, test.low)?;
        let high = self.copied_at(depth - 1, from, to, test.high)?;
        let variable = match self.variables.get(test.variable) {
            SAME => test.variable,
            other => other,
        };
        let made = to.split(variable, low, high)?;
        self.known.put(diagram as u64, made)?;
        Ok(made)
    }
}
