//! Parts that accept the same words, as far as their automata show it.
//!
//! The steps towards the normal form make many formulas that are the same, although their syntax does not show it. So
//! where there would be too many parts, the automaton of each is made as small as it gets: if it is that of another
//! part, but for the numbers of states that are not met, the two are one part.

use crate::machine::Machine;
use crate::parity::Parity;
use crate::translate::of_parts;
use ps_keys::{KeyList, KeyMap};
use ps_parts::diagrams::{self, Diagram, Diagrams, REFUSED, View};
use ps_parts::forms::Form;
use ps_parts::part::{Kind, Part};
use ps_parts::progression::Progression;
use ps_parts::split::Merging;
use ps_parts::stop::{Stop, number_of};
use std::alloc::Global;

/// The end of a list.
const END: u32 = u32::MAX;

/// The automata of parts that were met.
#[derive(Drop)]
pub(crate) struct Shapes {
    alloc: Global,
    /// Lists of numbers: a number, and the list of the rest.
    lists: KeyList<(u32, u32)>,
    /// The diagram of the part with each automaton, which is a list.
    known: KeyMap<u64, Diagram>,
}

impl Shapes {
    /// No automata.
    pub(crate) fn new(alloc: Global) -> Self {
        Shapes {
            alloc,
            lists: KeyList::new(alloc),
            known: KeyMap::new(alloc),
        }
    }

    /// The automaton of a part alone.
    fn automaton(
        &self,
        world: &mut Progression,
        kind: Kind,
        forms: &[Form],
    ) -> Result<Parity, Stop> {
        let parts = self.parts(kind, forms)?;
        let condition = world.diagrams.variable(0)?;
        let made = of_parts(self.alloc, world, parts, condition)?;
        Ok(made.parity)
    }

    /// The part.
    fn parts(&self, kind: Kind, forms: &[Form]) -> Result<Vec<Part>, Stop> {
        let mut parts = Vec::new(self.alloc);
        parts.push(Part::new(self.alloc, kind, forms, false)?)?;
        Ok(parts)
    }

    /// The list of all numbers of an automaton.
    fn list(&mut self, parity: &Parity) -> Result<u32, Stop> {
        let mut list = END;
        for row in &parity.machine.rows {
            list = self.behind(*row, list)?;
        }
        for (target, mark) in parity.machine.arcs() {
            list = self.behind(*target, list)?;
            list = self.behind(u32::try_from(*mark).unwrap_or(END), list)?;
        }
        self.behind(parity.most, list)
    }

    /// The list with a number before a list.
    fn behind(&mut self, number: u32, list: u32) -> Result<u32, Stop> {
        number_of(&mut self.lists, (number, list))
    }
}

impl Merging for Shapes {
    fn diagram(
        &mut self,
        world: &mut Progression,
        kind: Kind,
        forms: &[Form],
        given: Diagram,
    ) -> Result<Diagram, Stop> {
        let parity = self.automaton(world, kind, forms)?;
        if let Some(value) = constant(&world.diagrams, &parity.machine) {
            return Ok(value);
        }
        let list = self.list(&parity)?;
        if let Some(known) = self.known.get(list as u64) {
            return Ok(known);
        }
        self.known.put(list as u64, given)?;
        Ok(given)
    }
}

/// The truth of an automaton with one state, from which all letters lead by one arc, or none does.
fn constant(diagrams: &Diagrams, machine: &Machine) -> Option<Diagram> {
    if machine.rows.len() != 1 {
        return None;
    }
    let row = machine.row(0);
    match diagrams.view(row) {
        View::Leaf(_) if row == REFUSED || machine.arc(diagrams, row).mark % 2 == 1 => {
            Some(diagrams::FALSE)
        }
        View::Leaf(_) => Some(diagrams::TRUE),
        View::Test(_) => None,
    }
}
