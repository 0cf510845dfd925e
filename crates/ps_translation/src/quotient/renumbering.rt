//! Rows of states whose targets get new numbers.

use crate::machine::{Arc, Machine};
use ps_keys::KeyMap;
use ps_parts::column::Column;
use ps_parts::diagrams::{Diagram, Diagrams, PROPOSITIONS, REFUSED, Test, View};
use ps_parts::stop::Stop;
use std::alloc::Global;

/// The nodes that were met, with what they become.
#[derive(Drop)]
pub(crate) struct Renumbering {
    known: KeyMap<u64, Diagram>,
}

impl Renumbering {
    /// Of no nodes.
    pub(crate) fn new(alloc: Global) -> Self {
        Renumbering {
            known: KeyMap::new(alloc),
        }
    }

    /// The row of a state of an automaton, in which each arc leads to the number of its target, as an arc of another
    /// automaton. Numbers and automata are the same in all calls.
    pub(crate) fn row(
        &mut self,
        diagrams: &mut Diagrams,
        machine: &Machine,
        numbers: &Column,
        made: &mut Machine,
        state: u32,
    ) -> Result<Diagram, Stop> {
        diagrams.step()?;
        self.node(
            PROPOSITIONS,
            diagrams,
            machine,
            numbers,
            made,
            machine.row(state),
        )
    }

    /// What a node becomes, at a depth.
    fn node(
        &mut self,
        depth: u32,
        diagrams: &mut Diagrams,
        machine: &Machine,
        numbers: &Column,
        made: &mut Machine,
        node: Diagram,
    ) -> Result<Diagram, Stop> {
        if node == REFUSED {
            return Ok(REFUSED);
        }
        if let Some(known) = self.known.get(node as u64) {
            return Ok(known);
        }
        let row = match diagrams.view(node) {
            View::Test(test) if test.variable < PROPOSITIONS && depth > 0 => {
                let low = self.node(depth - 1, diagrams, machine, numbers, made, test.low)?;
                let high = self.node(depth - 1, diagrams, machine, numbers, made, test.high)?;
                let variable = test.variable;
                diagrams.test(Test {
                    variable,
                    low,
                    high,
                })?
            }
            _ => renumbered(diagrams, machine, numbers, made, node)?,
        };
        self.known.put(node as u64, row)?;
        Ok(row)
    }
}

/// What an end becomes.
fn renumbered(
    diagrams: &mut Diagrams,
    machine: &Machine,
    numbers: &Column,
    made: &mut Machine,
    end: Diagram,
) -> Result<Diagram, Stop> {
    let Arc { target, mark } = machine.arc(diagrams, end);
    let target = numbers.get(target);
    made.leaf(diagrams, Arc { target, mark })
}
