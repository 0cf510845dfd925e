//! The product of all automata, as functions of bits and letters.
//!
//! A state is the truth of all bits; in the first one, all are false. A letter is the truth of all propositions. Each
//! bit has a function for its next truth, and each colour one for its edges. The diagrams test a variable for each
//! proposition, and two for each bit: now, and (one behind) in the next state. Before them come those of the memory.

use crate::automata::{Automata, End, Question};
use crate::colours::{Colours, NONE};
use crate::order::Gravity;
use ps_parts::column::Column;
use ps_parts::diagrams::substitution::Transfer;
use ps_parts::diagrams::{self, Diagram, Diagrams, Literal};
use ps_parts::stop::Stop;
use std::alloc::Global;

/// The most bits of the memory; their variables come first, two for each.
pub(crate) const MEMORY: u32 = 16;

/// The variable of a bit of the turn.
pub(crate) fn turn_now(bit: u32) -> u32 {
    bit.saturating_mul(2)
}

/// The variable of a bit of the next turn.
pub(crate) fn turn_next(bit: u32) -> u32 {
    bit.saturating_mul(2).saturating_add(1)
}

/// A bit of the state of an automaton.
#[derive(Clone, Copy)]
pub(crate) struct Bit {
    /// Its variable; the next one is that of its next truth.
    pub(crate) variable: u32,
    /// The function of its next truth.
    pub(crate) next: Diagram,
}

/// The product of all automata.
#[derive(Drop)]
pub(crate) struct Arena {
    alloc: Global,
    pub(crate) diagrams: Diagrams,
    /// Copies diagrams of the automata.
    transfer: Transfer,
    /// The number of propositions.
    pub(crate) propositions: u32,
    /// The variable of each item: a proposition, or behind them a bit.
    pub(crate) variables: Column,
    pub(crate) bits: Vec<Bit>,
    /// The edges at which the controller has lost.
    pub(crate) lost: Diagram,
    /// The edges at which the controller has won.
    pub(crate) won: Diagram,
    /// The edges of each colour.
    pub(crate) colours: Vec<Diagram>,
}

impl Arena {
    /// The product of the automata of a formula.
    pub(crate) fn new(
        alloc: Global,
        automata: &mut Automata,
        colours: &Colours,
        propositions: u32,
        steps: u32,
    ) -> Result<Self, Stop> {
        let diagrams = Diagrams::with_steps(alloc, steps)?;
        let mut arena = Arena {
            alloc,
            diagrams,
            transfer: Transfer::new(alloc),
            propositions,
            variables: Column::new(alloc, NONE),
            bits: Vec::new(alloc),
            lost: diagrams::FALSE,
            won: diagrams::FALSE,
            colours: Vec::new(alloc),
        };
        arena.arrange(automata)?;
        arena.fill(automata, colours)?;
        Ok(arena)
    }

    /// The variable of a proposition.
    pub(crate) fn proposition(&self, proposition: u32) -> u32 {
        self.variables.get(proposition)
    }

    /// Gives propositions and bits their variables.
    fn arrange(&mut self, automata: &Automata) -> Result<(), Stop> {
        let mut gravity = Gravity::new(self.alloc);
        let count = self.weigh(automata, &mut gravity)?;
        let ordered = gravity.ordered(count);
        drop(gravity);
        let mut variable = 2 * MEMORY;
        for item in &ordered? {
            self.variables.set(*item, variable)?;
            if *item < self.propositions {
                self.transfer.set(*item, variable)?;
            }
            variable = variable.saturating_add(2);
        }
        Ok(())
    }

    /// Tells which items belong together, and how many there are.
    fn weigh(&self, automata: &Automata, gravity: &mut Gravity) -> Result<u32, Stop> {
        let mut next = self.propositions;
        for automaton in &automata.list {
            for proposition in 0..self.propositions {
                if automaton.support.checked_shr(proposition).unwrap_or(0) % 2 == 1 {
                    gravity.add(proposition)?;
                }
            }
            if automaton.is_used() {
                for _ in 0..automaton.bits() {
                    gravity.add(next)?;
                    next = next.saturating_add(1);
                }
            }
            gravity.end_group()?;
        }
        Ok(next)
    }

    /// Adds the functions of all automata.
    fn fill(&mut self, automata: &mut Automata, colours: &Colours) -> Result<(), Stop> {
        for _ in 0..colours.count {
            self.colours.push(diagrams::FALSE)?;
        }
        let mut item = self.propositions;
        for place in 0..automata.list.len() {
            let bits = match automata.list.get(place) {
                Some(automaton) if automaton.is_used() => automaton.bits(),
                _ => continue,
            };
            let view = Place { place, item, bits };
            self.add_bits(automata, view)?;
            self.add_ends(automata, view)?;
            self.add_colour(automata, view, colours.of(place))?;
            item = item.saturating_add(bits);
        }
        Ok(())
    }

    /// Adds the bits of an automaton.
    fn add_bits(&mut self, automata: &mut Automata, view: Place) -> Result<(), Stop> {
        for bit in 0..view.bits {
            let next = self.function(automata, view, Question::Bit(bit))?;
            let variable = self.variables.get(view.item.saturating_add(bit));
            self.bits.push(Bit { variable, next })?;
        }
        Ok(())
    }

    /// Adds the edges at which an automaton decides the play.
    fn add_ends(&mut self, automata: &mut Automata, view: Place) -> Result<(), Stop> {
        let lost = self.function(automata, view, Question::Ended(End::Lost))?;
        self.lost = self.diagrams.either(self.lost, lost)?;
        let won = self.function(automata, view, Question::Ended(End::Won))?;
        self.won = self.diagrams.either(self.won, won)?;
        Ok(())
    }

    /// Adds the edges of a colour that an automaton has.
    fn add_colour(
        &mut self,
        automata: &mut Automata,
        view: Place,
        colour: u32,
    ) -> Result<(), Stop> {
        if colour == NONE {
            return Ok(());
        }
        let is_safety = match automata.list.get(view.place) {
            Some(automaton) => automaton.is_safety(),
            None => false,
        };
        let question = if is_safety {
            Question::Failed
        } else {
            Question::Marked
        };
        let made = self.function(automata, view, question)?;
        let known = self.colour(colour);
        let edges = self.diagrams.either(known, made)?;
        if let Some(entry) = self.colours.get_mut(colour as usize) {
            *entry = edges;
        }
        Ok(())
    }

    /// The edges of a colour.
    pub(crate) fn colour(&self, colour: u32) -> Diagram {
        match self.colours.get(colour as usize) {
            Some(edges) => *edges,
            None => diagrams::FALSE,
        }
    }

    /// The answer to a question about an automaton, as a function of its bits and a letter.
    fn function(
        &mut self,
        automata: &mut Automata,
        view: Place,
        question: Question,
    ) -> Result<Diagram, Stop> {
        if let Some(aim) = aim_of(automata, view.place) {
            return match question {
                Question::Marked => {
                    let world = &automata.world.diagrams;
                    self.transfer.copied(world, &mut self.diagrams, aim)
                }
                _ => Ok(diagrams::FALSE),
            };
        }
        let mut answers = self.answers(automata, view.place, question)?;
        for bit in 0..view.bits {
            let variable = self.variables.get(view.item.saturating_add(bit));
            self.halve(variable, &mut answers)?;
        }
        Ok(answers.first().copied().unwrap_or(diagrams::FALSE))
    }

    /// The answers in all states of an automaton.
    fn answers(
        &mut self,
        automata: &mut Automata,
        place: usize,
        question: Question,
    ) -> Result<Vec<Diagram>, Stop> {
        let automaton = automata.list.get_mut(place).ok_or(Stop::Limit)?;
        let mut answers = Vec::new(self.alloc);
        for state in 0..automaton.len() {
            let world = &mut automata.world;
            let letters = automaton.letters(world, state, question)?;
            let copied = self
                .transfer
                .copied(&automata.world.diagrams, &mut self.diagrams, letters)?;
            answers.push(copied)?;
        }
        Ok(answers)
    }

    /// Makes one answer of each two that differ in a bit. Where there is one alone, the bit does not matter.
    fn halve(&mut self, variable: u32, answers: &mut Vec<Diagram>) -> Result<(), Stop> {
        let half = answers.len() / 2 + answers.len() % 2;
        for place in 0..half {
            let low = answers.get(2 * place).copied().unwrap_or(0);
            let high = answers.get(2 * place + 1).copied().unwrap_or(low);
            let made = self.diagrams.split(variable, low, high)?;
            if let Some(entry) = answers.get_mut(place) {
                *entry = made;
            }
        }
        answers.truncate(half);
        Ok(())
    }

    /// The first state.
    pub(crate) fn start(&mut self) -> Result<Diagram, Stop> {
        let mut start = diagrams::TRUE;
        for bit in &self.bits {
            let literal = self.diagrams.literal(Literal {
                variable: bit.variable,
                value: false,
            })?;
            start = self.diagrams.both(start, literal)?;
        }
        Ok(start)
    }
}

/// The aim of a part that forgets its states.
fn aim_of(automata: &Automata, place: usize) -> Option<Diagram> {
    match automata.list.get(place) {
        Some(automaton) if automaton.changes().is_forgotten => Some(automaton.aim),
        _ => None,
    }
}

/// An automaton's place, its first bit as an item, and the number of its bits.
#[derive(Clone, Copy)]
struct Place {
    place: usize,
    item: u32,
    bits: u32,
}
