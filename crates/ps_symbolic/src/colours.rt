//! What recurs in a play: its colours.
//!
//! The parts that hold if an edge is marked again and again have a colour each, their marked edges. A part that holds
//! if its automaton never fails has none if its failure decides the play. Else its colour is having failed; parts of
//! which it does not matter which have failed share one. There are at most 64 colours (Emerson, Lei, "Modalities for
//! Model Checking: Branching Time Logic Strikes Back", 1987: conditions on what recurs).

use crate::automata::{Automata, Automaton, End};
use ps_keys::KeyMap;
use ps_parts::column::Column;
use ps_parts::diagrams::substitution::{Substitution, Transfer};
use ps_parts::diagrams::{self, Diagram, Diagrams};
use ps_parts::stop::{Stop, index};
use std::alloc::Global;

/// The most colours.
pub(crate) const COLOURS: u32 = 64;

/// The part has no colour.
pub(crate) const NONE: u32 = u32::MAX;

/// The first variable of the skeleton that stands for a colour and not for a part.
const FIRST: u32 = 1 << 16;

/// The colours of the parts.
#[derive(Drop)]
pub(crate) struct Colours {
    alloc: Global,
    /// The colour of each part.
    of_part: Column,
    pub(crate) count: u32,
    /// The colour for each skeleton that is left by a failure.
    of_failure: KeyMap<u64, u32>,
    /// What the variables of parts become.
    meanings: Substitution,
    /// The skeleton where the parts that need no colour hold.
    skeleton: Diagram,
}

impl Colours {
    /// The colours of the parts of a formula.
    pub(crate) fn new(alloc: Global, automata: &mut Automata) -> Result<Self, Stop> {
        let mut colours = Colours {
            alloc,
            of_part: Column::new(alloc, NONE),
            count: 0,
            of_failure: KeyMap::new(alloc),
            meanings: Substitution::new(alloc),
            skeleton: automata.skeleton,
        };
        colours.colour(automata)?;
        Ok(colours)
    }

    /// The colour of a part, or `NONE`.
    pub(crate) fn of(&self, place: usize) -> u32 {
        match u32::try_from(place) {
            Ok(part) => self.of_part.get(part),
            Err(_error) => NONE,
        }
    }

    /// Gives the parts their colours.
    fn colour(&mut self, automata: &mut Automata) -> Result<(), Stop> {
        for place in 0..automata.list.len() {
            let failure = automata.fixed(place, false)?;
            let Some(automaton) = automata.list.get(place) else {
                break;
            };
            if automaton.is_used() {
                let meaning = self.meaning(automaton, failure)?;
                self.set(&mut automata.world.diagrams, place, meaning)?;
            }
        }
        Ok(())
    }

    /// The colour of a part whose failure leaves a skeleton.
    fn meaning(&mut self, automaton: &Automaton, failure: Diagram) -> Result<Meaning, Stop> {
        if !automaton.is_safety() {
            return Ok(Meaning::Recurs(self.fresh()?));
        }
        if automaton.failed != End::Open {
            return Ok(Meaning::Holds);
        }
        if let Some(known) = self.of_failure.get(failure as u64) {
            return Ok(Meaning::Ceases(known));
        }
        let colour = self.fresh()?;
        self.of_failure.put(failure as u64, colour)?;
        Ok(Meaning::Ceases(colour))
    }

    /// A colour that no part has.
    fn fresh(&mut self) -> Result<u32, Stop> {
        let colour = self.count;
        if colour >= COLOURS {
            return Err(Stop::Limit);
        }
        self.count = colour.saturating_add(1);
        Ok(colour)
    }

    /// Notes what a part means.
    fn set(&mut self, diagrams: &mut Diagrams, place: usize, meaning: Meaning) -> Result<(), Stop> {
        let part = index(place)?;
        let made = match meaning {
            Meaning::Holds => diagrams::TRUE,
            Meaning::Recurs(colour) => {
                self.of_part.set(part, colour)?;
                diagrams.variable(FIRST.saturating_add(colour))?
            }
            Meaning::Ceases(colour) => {
                self.of_part.set(part, colour)?;
                let recurs = diagrams.variable(FIRST.saturating_add(colour))?;
                diagrams.negated(recurs)?
            }
        };
        self.meanings.set(part, made)
    }

    /// The condition on the colours that recur, in a store of its own, in which variable i stands for the colour i.
    pub(crate) fn condition(
        &mut self,
        automata: &mut Automata,
        made: &mut Diagrams,
    ) -> Result<Diagram, Stop> {
        let world = &mut automata.world.diagrams;
        let condition = self.meanings.applied(world, self.skeleton)?;
        let mut transfer = Transfer::new(self.alloc);
        for colour in 0..self.count {
            transfer.set(FIRST.saturating_add(colour), colour)?;
        }
        transfer.copied(world, made, condition)
    }
}

/// What it means that a part holds, given which colours recur.
#[derive(Clone, Copy)]
enum Meaning {
    /// It holds.
    Holds,
    /// A colour recurs.
    Recurs(u32),
    /// A colour does not recur.
    Ceases(u32),
}
