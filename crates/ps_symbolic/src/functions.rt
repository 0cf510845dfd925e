//! Functions for the winner's outputs and the next turn, chosen one after another.
//!
//! For each function there are two bounds: where it must be true, so that the moves that are left are met by some
//! choice of all that comes later, and where it may be. Outside the states that matter both leave it free. A variable
//! that can be left out is: first bits of automata, those far away before others, then propositions, then bits of the
//! turn. Last a small function between the bounds is taken (Coudert, Madre, "A Unified Framework for the Formal
//! Verification of Sequential Circuits", 1990).
//!
//! What comes later is projected once, from the last function to the first; each function then puts in the earlier
//! ones.

use crate::arena::{Bit, MEMORY, turn_next, turn_now};
use crate::game::{Game, Turn};
use crate::relation::Moves;
use ps_keys::KeyList;
use ps_parts::column::Column;
use ps_parts::diagrams::substitution::{Substitution, Transfer};
use ps_parts::diagrams::{self, Diagram, Diagrams, Literal};
use ps_parts::stop::Stop;
use std::alloc::Global;

/// An output, or a bit of the next turn.
#[derive(Clone, Copy)]
pub(crate) struct Unknown {
    pub(crate) variable: u32,
    /// The moves, where all that comes later is projected.
    pub(crate) projected: Diagram,
    /// Its function, as soon as it is chosen.
    pub(crate) function: Diagram,
}

/// Where a function must be true, and where it may be.
#[derive(Clone, Copy)]
pub(crate) struct Bounds {
    pub(crate) must: Diagram,
    pub(crate) may: Diagram,
}

/// The functions of a winner.
#[derive(Drop)]
pub(crate) struct Functions {
    alloc: Global,
    pub(crate) diagrams: Diagrams,
    pub(crate) turn: Turn,
    /// The variable of each proposition.
    pub(crate) variables: Column,
    /// The relation that the functions have to meet.
    pub(crate) moves: Diagram,
    /// The edges at which the play is won for good.
    pub(crate) won: Diagram,
    /// The number of bits of the turn.
    pub(crate) memory: u32,
    /// The bits of the state.
    pub(crate) bits: Vec<Bit>,
    /// In the order in which they are chosen.
    pub(crate) unknowns: Vec<Unknown>,
    /// The states from which the moves win.
    pub(crate) states: Diagram,
    /// The first state, with the first turn.
    pub(crate) start: Diagram,
    /// The states, with the turn, that matter.
    pub(crate) care: Diagram,
    /// The variables that a function has.
    found: Vec<u32>,
    /// The variables of the latches that are needed.
    pub(crate) needed: KeyList<u64>,
}

impl Functions {
    /// No functions, with a budget.
    pub(crate) fn new(alloc: Global, steps: u32) -> Result<Self, Stop> {
        let store = Diagrams::with_steps(alloc, steps)?;
        Ok(Functions {
            alloc,
            diagrams: store,
            turn: Turn::NONE,
            variables: Column::new(alloc, u32::MAX),
            moves: diagrams::TRUE,
            won: diagrams::FALSE,
            memory: 0,
            bits: Vec::new(alloc),
            unknowns: Vec::new(alloc),
            states: diagrams::TRUE,
            start: diagrams::TRUE,
            care: diagrams::FALSE,
            found: Vec::new(alloc),
            needed: KeyList::new(alloc),
        })
    }

    /// Takes over a game that is won from some states, with its moves.
    pub(crate) fn take_over(
        &mut self,
        game: &mut Game,
        states: Diagram,
        moves: Moves,
    ) -> Result<(), Stop> {
        let start = game.arena.start()?;
        let mut transfer = Transfer::new(self.alloc);
        let from = &game.arena.diagrams;
        let to = &mut self.diagrams;
        self.memory = moves.bits;
        self.moves = transfer.copied(from, to, moves.relation)?;
        self.won = transfer.copied(from, to, game.won)?;
        self.states = transfer.copied(from, to, states)?;
        self.start = transfer.copied(from, to, start)?;
        self.take_bits(game, &mut transfer)?;
        self.take_turn(game, &mut transfer)?;
        self.begin()
    }

    /// Takes over the bits of a game.
    fn take_bits(&mut self, game: &Game, transfer: &mut Transfer) -> Result<(), Stop> {
        let from = &game.arena.diagrams;
        for bit in &game.arena.bits {
            let next = transfer.copied(from, &mut self.diagrams, bit.next)?;
            self.bits.push(Bit { next, ..*bit })?;
        }
        Ok(())
    }

    /// Takes over how the player of a game moves, and the variables of propositions.
    fn take_turn(&mut self, game: &Game, transfer: &mut Transfer) -> Result<(), Stop> {
        let from = &game.arena.diagrams;
        self.turn = Turn {
            own: transfer.copied(from, &mut self.diagrams, game.turn.own)?,
            other: transfer.copied(from, &mut self.diagrams, game.turn.other)?,
            ..game.turn
        };
        for proposition in 0..game.arena.propositions {
            let variable = game.arena.proposition(proposition);
            self.variables.set(proposition, variable)?;
        }
        Ok(())
    }

    /// Adds to the first state that the turn is the first.
    fn begin(&mut self) -> Result<(), Stop> {
        for bit in 0..self.memory {
            let literal = self.diagrams.literal(Literal {
                variable: turn_now(bit),
                value: false,
            })?;
            self.start = self.diagrams.both(self.start, literal)?;
        }
        Ok(())
    }

    /// Adds the unknowns: outputs by their variables, and the bits of the next turn; and projects the moves.
    pub(crate) fn plan(&mut self, outputs: &[u32]) -> Result<(), Stop> {
        if self.turn.is_first {
            self.add_outputs(outputs)?;
            self.add_turns()?;
            let count = outputs.len();
            let projected = self.project(count, self.moves)?;
            let kept = self.diagrams.forall(self.turn.other, projected)?;
            self.project_before(0, count, kept)?;
        } else {
            self.add_turns()?;
            self.add_outputs(outputs)?;
            self.project(0, self.moves)?;
        }
        Ok(())
    }

    /// Adds the outputs.
    fn add_outputs(&mut self, outputs: &[u32]) -> Result<(), Stop> {
        for variable in outputs {
            self.add(*variable)?;
        }
        Ok(())
    }

    /// Adds the bits of the next turn.
    fn add_turns(&mut self) -> Result<(), Stop> {
        for bit in 0..self.memory.min(MEMORY) {
            self.add(turn_next(bit))?;
        }
        Ok(())
    }

    /// Adds an unknown.
    fn add(&mut self, variable: u32) -> Result<(), Stop> {
        self.unknowns.push(Unknown {
            variable,
            projected: diagrams::TRUE,
            function: diagrams::FALSE,
        })?;
        Ok(())
    }

    /// Projects moves for the unknowns from a place on, and gives what is left without any of them.
    fn project(&mut self, first: usize, moves: Diagram) -> Result<Diagram, Stop> {
        let count = self.unknowns.len();
        self.project_before(first, count, moves)
    }

    /// Like `project`, for the unknowns before a place.
    fn project_before(
        &mut self,
        first: usize,
        stop: usize,
        moves: Diagram,
    ) -> Result<Diagram, Stop> {
        let mut left = moves;
        for place in (first..stop).rev() {
            let Some(unknown) = self.unknowns.get_mut(place) else {
                break;
            };
            unknown.projected = left;
            let cube = self.diagrams.variable(unknown.variable)?;
            left = self.diagrams.exists(cube, left)?;
        }
        Ok(left)
    }

    /// Chooses all functions.
    pub(crate) fn choose(&mut self) -> Result<(), Stop> {
        for place in 0..self.unknowns.len() {
            let Some(unknown) = self.unknowns.get(place).copied() else {
                break;
            };
            let function = self.chosen(place, unknown)?;
            if let Some(unknown) = self.unknowns.get_mut(place) {
                unknown.function = function;
            }
        }
        Ok(())
    }

    /// A function for an unknown.
    fn chosen(&mut self, place: usize, unknown: Unknown) -> Result<Diagram, Stop> {
        let left = self.put_in(place, unknown.projected)?;
        let bounds = self.bounds(left, unknown.variable)?;
        if self.is_between(bounds, unknown.function)? {
            return Ok(unknown.function);
        }
        let bounds = self.without_variables(bounds, unknown.variable)?;
        self.between(bounds)
    }

    /// Whether a function is between bounds.
    fn is_between(&mut self, bounds: Bounds, function: Diagram) -> Result<bool, Stop> {
        let Bounds { must, may } = bounds;
        Ok(self.diagrams.is_within(must, function)? && self.diagrams.is_within(function, may)?)
    }

    /// A diagram where the functions before a place are put in.
    pub(crate) fn put_in(&mut self, place: usize, diagram: Diagram) -> Result<Diagram, Stop> {
        let mut functions = self.closing(place)?;
        functions.applied(&mut self.diagrams, diagram)
    }

    /// The functions before a place, in place of their variables.
    pub(crate) fn closing(&self, place: usize) -> Result<Substitution, Stop> {
        let mut functions = Substitution::new(self.alloc);
        for unknown in self.unknowns.iter().take(place) {
            functions.set(unknown.variable, unknown.function)?;
        }
        Ok(functions)
    }

    /// The bounds of the function of a variable, if the moves that are left are to be met.
    fn bounds(&mut self, left: Diagram, variable: u32) -> Result<Bounds, Stop> {
        let diagrams = &mut self.diagrams;
        let low = diagrams.fixed(
            left,
            Literal {
                variable,
                value: false,
            },
        )?;
        let high = diagrams.fixed(
            left,
            Literal {
                variable,
                value: true,
            },
        )?;
        let must = diagrams.difference(self.care, low)?;
        let never = diagrams.difference(self.care, high)?;
        Ok(Bounds {
            must,
            may: diagrams.negated(never)?,
        })
    }

    /// Bounds without the variables that can be left out: those that the lower bound can do without below the upper
    /// one.
    pub(crate) fn without_variables(
        &mut self,
        bounds: Bounds,
        variable: u32,
    ) -> Result<Bounds, Stop> {
        self.find_variables(bounds, variable)?;
        let Bounds { mut must, may } = bounds;
        let mut left_out = diagrams::TRUE;
        for place in 0..self.found.len() {
            let Some(each) = self.found.get(place).copied() else {
                break;
            };
            let cube = self.diagrams.variable(each)?;
            let wider = self.diagrams.exists(cube, must)?;
            if self.diagrams.is_within(wider, may)? {
                must = wider;
                left_out = self.diagrams.both(left_out, cube)?;
            }
        }
        let may = self.diagrams.forall(left_out, may)?;
        Ok(Bounds { must, may })
    }

    /// Lists the variables of bounds, in the order in which they are to be left out.
    fn find_variables(&mut self, bounds: Bounds, variable: u32) -> Result<(), Stop> {
        let must = self.diagrams.variables(bounds.must)?;
        let may = self.diagrams.variables(bounds.may);
        self.found.clear();
        self.found.extend_from_slice(&must)?;
        drop(must);
        self.found.extend_from_slice(&may?)?;
        self.sort_found(variable)
    }

    /// Sorts the variables that were found: bits of states before propositions before those of the turn, and the
    /// farthest first.
    fn sort_found(&mut self, variable: u32) -> Result<(), Stop> {
        let mut keys: Vec<u64> = Vec::new(self.alloc);
        for each in &self.found {
            let kind = self.kind(*each);
            let distance = each.abs_diff(variable) as u64;
            let nearness = (u32::MAX as u64).saturating_sub(distance);
            keys.push((kind << 62) | (nearness << 24) | (*each as u64 & 0xFF_FFFF))?;
        }
        keys.sort_unstable();
        self.found.clear();
        let mut last = u32::MAX;
        for key in &keys {
            let each = (*key & 0xFF_FFFF) as u32;
            if each != last {
                self.found.push(each)?;
            }
            last = each;
        }
        Ok(())
    }

    /// When a variable is to be left out: 0 for bits of states, 1 for those that are needed, 2 for propositions, 3 for
    /// bits of the turn.
    fn kind(&self, variable: u32) -> u64 {
        if variable < 2 * MEMORY {
            3
        } else if !self.is_latch(variable) {
            2
        } else {
            u64::from(self.needed.find(variable as u64).is_some())
        }
    }

    /// Whether a variable is a bit of the turn or the state.
    pub(crate) fn is_latch(&self, variable: u32) -> bool {
        variable < 2 * MEMORY || self.bits.iter().any(|bit| bit.variable == variable)
    }

    /// A small function between bounds.
    pub(crate) fn between(&mut self, bounds: Bounds) -> Result<Diagram, Stop> {
        let Bounds { must, may } = bounds;
        let free = self.diagrams.difference(may, must)?;
        let care = self.diagrams.negated(free)?;
        let mut best = self.diagrams.restricted(must, care)?;
        for other in [must, may] {
            if self.diagrams.size(other)? < self.diagrams.size(best)? {
                best = other;
            }
        }
        Ok(best)
    }
}
