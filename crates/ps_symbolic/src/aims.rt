//! What a part may aim at, in place of what it waits for.
//!
//! A recurrence that forgets its states holds if letters of its aim recur. Such an aim is enough if no cycle of edges
//! without a mark has a letter of it. One is what is marked in each state; others are what a player can do, whatever
//! the other player does, that is marked in some state. So `G (r -> F g)` aims at g, and `G F (!r || X g)` too.

use crate::automata::{Automaton, Question};
use ps_parts::diagrams::{self, Diagram};
use ps_parts::progression::Progression;
use ps_parts::stop::{Stop, index};

/// The most states of an automaton whose cycles are looked at.
const STATES: usize = 8;

/// The edges without a mark of an automaton, one bit for each state that they lead to.
#[derive(Clone, Copy)]
struct Plain {
    /// From each state, those by any letter.
    all: [u64; STATES],
    /// Those by a letter of the aim.
    aimed: [u64; STATES],
}

impl Automaton {
    /// Finds an aim for a player, if the other one sets some propositions.
    pub(crate) fn find_aim(&mut self, world: &mut Progression, other: Diagram) -> Result<(), Stop> {
        self.aim = self.marked_in_each(world)?;
        if world.diagrams.forall(other, self.aim)? != diagrams::FALSE {
            return Ok(());
        }
        for place in 0..self.len().min(STATES) {
            let marked = self.letters(world, place, Question::Recurs)?;
            let aim = world.diagrams.forall(other, marked)?;
            if aim != diagrams::FALSE && self.is_enough(world, aim)? {
                self.aim = aim;
                return Ok(());
            }
        }
        Ok(())
    }

    /// The letters that are marked in each state.
    fn marked_in_each(&mut self, world: &mut Progression) -> Result<Diagram, Stop> {
        let mut made = diagrams::TRUE;
        for place in 0..self.len() {
            let marked = self.letters(world, place, Question::Recurs)?;
            made = world.diagrams.both(made, marked)?;
        }
        Ok(made)
    }

    /// Whether an aim is enough.
    fn is_enough(&mut self, world: &mut Progression, aim: Diagram) -> Result<bool, Stop> {
        let mut plain = Plain {
            all: [0; STATES],
            aimed: [0; STATES],
        };
        let count = self.len();
        if count > STATES {
            return Ok(false);
        }
        for pair in 0..count.saturating_mul(count) {
            let (place, target) = (pair / count.max(1), pair % count.max(1));
            let question = Question::Comes(index(target)?);
            let letters = self.letters(world, place, question)?;
            let is_aimed = world.diagrams.meets(letters, aim)?;
            plain.add(place, target, letters != diagrams::FALSE, is_aimed);
        }
        plain.close();
        Ok(!plain.has_aimed_cycle())
    }
}

impl Plain {
    /// Adds the edges from a state to another.
    fn add(&mut self, place: usize, target: usize, is_edge: bool, is_aimed: bool) {
        let bit = 1u64 << (target % 64);
        if is_edge && let Some(all) = self.all.get_mut(place) {
            *all |= bit;
        }
        if is_aimed && let Some(aimed) = self.aimed.get_mut(place) {
            *aimed |= bit;
        }
    }

    /// Adds an edge for each way through a state, for one state after another (Warshall, 1962).
    fn close(&mut self) {
        for middle in 0..STATES {
            let behind = self.all.get(middle).copied().unwrap_or(0);
            for all in self.all.iter_mut() {
                if *all >> (middle % 64) & 1 == 1 {
                    *all |= behind;
                }
            }
        }
    }

    /// Whether an edge by a letter of the aim lies on a cycle.
    fn has_aimed_cycle(self) -> bool {
        for (place, aimed) in self.aimed.iter().enumerate() {
            for (target, all) in self.all.iter().enumerate() {
                let is_edge = *aimed >> (target % 64) & 1 == 1;
                let leads_back = target == place || *all >> (place % 64) & 1 == 1;
                if is_edge && leads_back {
                    return true;
                }
            }
        }
        false
    }
}
