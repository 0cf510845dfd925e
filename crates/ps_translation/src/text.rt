//! Automata as texts in the Hanoi Omega-Automata format, version v1, with `controllable-AP:`.

pub mod cover;
pub mod header;
pub mod labels;
pub mod names;
pub mod output;

use crate::parity::Parity;
use crate::text::header::add_header;
use crate::text::labels::Labels;
use crate::text::names::{leave_out_standing, name_of};
use crate::text::output::Output;
use crate::translate::Made;
use ps_parts::diagrams::{Diagram, Diagrams};
use ps_parts::letters::{Letters, Way};
use ps_parts::progression::Progression;
use ps_parts::stop::{Stop, index};
use ps_tlsf::Proposition;
use std::alloc::Global;

/// The most edges of an automaton.
const EDGES: usize = 1 << 20;

/// A text that is written.
#[derive(Drop)]
struct Writer {
    alloc: Global,
    output: Output,
    /// The number of edges.
    count: usize,
    letters: Letters,
    labels: Labels,
}

/// The text of an automaton.
pub(crate) fn text(
    alloc: Global,
    world: &mut Progression,
    made: &mut Made,
    propositions: &[Proposition],
    title: Option<&[u8]>,
) -> Result<Vec<u8>, Stop> {
    let mut writer = Writer {
        alloc,
        output: Output::new(alloc),
        count: 0,
        letters: Letters::new(alloc),
        labels: Labels::new(alloc),
    };
    let text = writer.whole(world, made, propositions, title);
    drop(writer);
    text
}

impl Writer {
    /// The whole text of an automaton.
    fn whole(
        &mut self,
        world: &mut Progression,
        made: &mut Made,
        propositions: &[Proposition],
        title: Option<&[u8]>,
    ) -> Result<Vec<u8>, Stop> {
        add_header(&mut self.output, &made.parity, propositions, title)?;
        self.output.add(b"--BODY--\n")?;
        self.states(world, made, propositions)?;
        self.output.add(b"--END--\n")?;
        Ok(self.output.taken(self.alloc))
    }

    /// Adds the states.
    fn states(
        &mut self,
        world: &mut Progression,
        made: &mut Made,
        propositions: &[Proposition],
    ) -> Result<(), Stop> {
        leave_out_standing(self.alloc, world, &mut made.product)?;
        for state in 0..made.parity.machine.rows.len() {
            let state = index(state)?;
            self.state(world, made, propositions, state)?;
            self.edges(&mut world.diagrams, &made.parity, state)?;
        }
        Ok(())
    }

    /// Adds a state with its name.
    fn state(
        &mut self,
        world: &mut Progression,
        made: &mut Made,
        propositions: &[Proposition],
        state: u32,
    ) -> Result<(), Stop> {
        let origin = made.parity.machine.origin(state);
        let name = name_of(self.alloc, world, &mut made.product, propositions, origin)?;
        self.output
            .add_number_between(b"State: ", state as usize, b" ")?;
        self.output.add_between(b"\"", &name, b"\"\n")
    }

    /// Adds the edges of a state.
    fn edges(&mut self, diagrams: &mut Diagrams, parity: &Parity, state: u32) -> Result<(), Stop> {
        let ways = self.letters.of(diagrams, parity.machine.row(state))?;
        for way in &ways {
            self.edge(diagrams, parity, *way)?;
        }
        Ok(())
    }

    /// Adds an edge.
    fn edge(&mut self, diagrams: &mut Diagrams, parity: &Parity, way: Way) -> Result<(), Stop> {
        self.count = self.count.saturating_add(1);
        if self.count > EDGES {
            return Err(Stop::Limit);
        }
        self.label(diagrams, way.letters)?;
        let arc = parity.machine.arc(diagrams, way.end);
        self.output.add_number(arc.target as usize)?;
        if arc.mark < parity.most as u64 {
            self.output
                .add_number_between(b" {", arc.mark as usize, b"}")?;
        }
        self.output.add(b"\n")
    }

    /// Adds the label of an edge.
    fn label(&mut self, diagrams: &mut Diagrams, letters: Diagram) -> Result<(), Stop> {
        let label = self.labels.label(diagrams, letters)?;
        self.output.add_between(b"[", label, b"] ")
    }
}
