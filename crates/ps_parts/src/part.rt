//! Deterministic automata of the parts of a formula.
//!
//! | Kind | A state | A run is accepting |
//! |---|---|---|
//! | safety | what is owed | if it never fails |
//! | recurrence | what is owed, and what of it is to be met before the next mark | if it is marked again and again |
//! | rounds | which of some formulas `F f` is next, and what of it is owed | the same |
//!
//! A word satisfies a formula of the recurrence class if and only if, at infinitely many indices, what is owed would be
//! met if all atoms that are no guarantees were kept. So the automaton takes over what is owed in this sense at an
//! index, waits until it is met, makes a mark, and takes over what is owed then. (The idea is the breakpoint of Miyano
//! and Hayashi, "Alternating Finite Automata on omega-Words", 1984; on diagrams, Sickert, Esparza, "An Efficient
//! Normalisation Procedure for Linear Temporal Logic", 2020.)

use crate::column::Column;
use crate::diagrams::{Diagram, Diagrams, FALSE, REFUSED, TRUE, View};
use crate::forms::Form;
use crate::progression::Progression;
use crate::stop::{Stop, index};
use ps_keys::{KeyList, KeyMap};
use std::alloc::Global;

/// The most states of an automaton of a part.
const STATES: usize = 1 << 20;

/// The state of an automaton that has failed.
pub const FAILED: u32 = 0;

/// The state of an automaton that is met whatever comes.
pub const MET: u32 = 1;

/// The number of a row that is not made.
const UNKNOWN: Diagram = u32::MAX;

/// The kind of an automaton.
#[derive(Clone, Copy, PartialEq, Eq)]
pub enum Kind {
    /// Of a formula without `U`.
    Safety,
    /// Of a formula of the recurrence class.
    Recurrence,
    /// Of a conjunction of formulas `G F f`, where each f is a guarantee.
    Rounds,
}

/// What an automaton of a part comes to by a letter.
#[derive(Clone, Copy)]
pub struct Outcome {
    pub state: u32,
    pub is_marked: bool,
}

impl Outcome {
    /// That of a part which is dropped.
    pub const DROPPED: Outcome = Outcome {
        state: FAILED,
        is_marked: false,
    };

    /// The number that stands for the outcome as a leaf of a row.
    fn number(self) -> Result<u32, Stop> {
        let twice = self.state.checked_mul(2).ok_or(Stop::Limit)?;
        Ok(twice | u32::from(self.is_marked))
    }

    /// The outcome that an end of a row of a part stands for.
    pub fn of_end(diagrams: &Diagrams, end: Diagram) -> Self {
        match diagrams.view(end) {
            View::Leaf(number) => Outcome {
                state: number / 2,
                is_marked: number % 2 == 1,
            },
            View::Test(_) => Outcome::DROPPED,
        }
    }
}

/// A part of a formula, with the states of its automaton that were met.
#[derive(Drop)]
pub struct Part {
    alloc: Global,
    pub kind: Kind,
    /// The formula; for rounds, the formulas `F f`.
    pub forms: Vec<Form>,
    /// Whether the specification asks for the negation.
    pub is_negative: bool,
    /// The states: what is owed, and what is to be met before the next mark; for rounds, whose turn it is, and what it
    /// owes.
    states: KeyList<(u32, u32)>,
    /// The row of each state, or `UNKNOWN`.
    rows: Column,
    /// The results of `without`.
    pruned: KeyMap<(u32, u32), Diagram>,
}

impl Part {
    /// A part without states but the two that are never left.
    pub fn new(alloc: Global, kind: Kind, forms: &[Form], is_negative: bool) -> Result<Self, Stop> {
        let mut part = Part {
            alloc,
            kind,
            forms: Vec::new(alloc),
            is_negative,
            states: KeyList::new(alloc),
            rows: Column::new(alloc, UNKNOWN),
            pruned: KeyMap::new(alloc),
        };
        part.begin(forms)?;
        Ok(part)
    }

    /// Adds the formulas, and the two states.
    fn begin(&mut self, forms: &[Form]) -> Result<(), Stop> {
        self.forms.extend_from_slice(forms)?;
        self.states.place_of((UNKNOWN, FALSE))?;
        self.states.place_of((UNKNOWN, TRUE))?;
        Ok(())
    }

    /// The state at the first index.
    pub fn initial(&mut self, world: &mut Progression) -> Result<u32, Stop> {
        let form = self.form(0)?;
        let owed = world.owed(form)?;
        match self.kind {
            Kind::Safety => self.owing(owed, TRUE),
            Kind::Recurrence => {
                let before = world.settled(owed)?;
                self.owing(owed, before)
            }
            Kind::Rounds => self.state(0, owed),
        }
    }

    /// A formula of the part.
    fn form(&self, place: u32) -> Result<Form, Stop> {
        self.forms.get(place as usize).copied().ok_or(Stop::Limit)
    }

    /// The number of a state.
    fn state(&mut self, first: u32, second: u32) -> Result<u32, Stop> {
        let place = self.states.place_of((first, second))?;
        if place >= STATES {
            return Err(Stop::Limit);
        }
        index(place)
    }

    /// The two numbers of a state.
    fn numbers(&self, state: u32) -> Result<(u32, u32), Stop> {
        let found = self.states.as_slice().get(state as usize);
        found.copied().ok_or(Stop::Limit)
    }

    /// What is owed in a state.
    pub fn owed(&self, state: u32) -> Result<Diagram, Stop> {
        let (first, second) = self.numbers(state)?;
        Ok(match self.kind {
            Kind::Rounds => second,
            _ if state == FAILED || state == MET => second,
            _ => first,
        })
    }

    /// A number for what is accepted from a state on: what is owed, if that is not the same in all states.
    pub fn lasting(&self, state: u32) -> Result<u32, Stop> {
        match self.kind {
            Kind::Rounds => Ok(UNKNOWN),
            _ => self.owed(state),
        }
    }

    /// The number of the state in which so much is owed, and so much of it is to be met before the next mark.
    fn owing(&mut self, owed: Diagram, before: Diagram) -> Result<u32, Stop> {
        match owed {
            FALSE => Ok(FAILED),
            TRUE => Ok(MET),
            _ => self.state(owed, before),
        }
    }

    /// The row of a state: for each letter the outcome, as a leaf.
    pub fn row(&mut self, world: &mut Progression, state: u32) -> Result<Diagram, Stop> {
        let known = self.rows.get(state);
        if known != UNKNOWN {
            return Ok(known);
        }
        let made = self.made_row(world, state)?;
        self.rows.set(state, made)?;
        Ok(made)
    }

    /// The row of a state, made anew.
    fn made_row(&mut self, world: &mut Progression, state: u32) -> Result<Diagram, Stop> {
        if state == FAILED || state == MET {
            let is_marked = state == MET;
            return leaf(world, Outcome { state, is_marked });
        }
        let row = self.owed_row(world, state)?;
        let ends = world.diagrams.ends(row)?;
        let leaves = self.leaves(world, state, &ends)?;
        world.diagrams.replaced(row, &ends, &leaves)
    }

    /// What is owed after each letter in a state, as a row; of a recurrence automaton, paired with what of it is to be
    /// met before the next mark.
    fn owed_row(&mut self, world: &mut Progression, state: u32) -> Result<Diagram, Stop> {
        let (first, second) = self.numbers(state)?;
        match self.kind {
            Kind::Safety => world.stepped(first),
            Kind::Recurrence => {
                let owed = world.stepped(first)?;
                let before = world.stepped(second)?;
                world.diagrams.paired(owed, before)
            }
            Kind::Rounds => world.stepped(second),
        }
    }

    /// For each end of such a row of a state, the leaf of the outcome.
    fn leaves(
        &mut self,
        world: &mut Progression,
        state: u32,
        ends: &[Diagram],
    ) -> Result<Vec<Diagram>, Stop> {
        let (first, second) = self.numbers(state)?;
        let mut leaves = Vec::new(self.alloc);
        for end in ends {
            let outcome = self.outcome(world, first, second, *end)?;
            leaves.push(leaf(world, outcome)?)?;
        }
        Ok(leaves)
    }

    /// The outcome at an end, in a state with two numbers.
    fn outcome(
        &mut self,
        world: &mut Progression,
        first: u32,
        second: u32,
        end: Diagram,
    ) -> Result<Outcome, Stop> {
        match self.kind {
            Kind::Safety => Ok(Outcome {
                state: self.owing(end, TRUE)?,
                is_marked: false,
            }),
            Kind::Recurrence => self.recurrence_end(world, end, second == TRUE),
            Kind::Rounds => self.rounds_end(world, first, end),
        }
    }

    /// The outcome for an end that stands for the pair of what is owed, and of what of it is to be met before the next
    /// mark; or, if all of that was met, for what is owed alone.
    fn recurrence_end(
        &mut self,
        world: &mut Progression,
        end: Diagram,
        is_new: bool,
    ) -> Result<Outcome, Stop> {
        let (owed, before) = world.diagrams.pair(end)?;
        let settled = world.settled(owed)?;
        let before = if is_new { settled } else { before };
        let is_marked = before == TRUE;
        let state = self.owing(owed, if is_marked { settled } else { before })?;
        Ok(Outcome {
            state,
            is_marked: is_marked && state != FAILED,
        })
    }

    /// The outcome where the formula whose turn it is owes so much: if it is met, the turn goes to the next.
    fn rounds_end(
        &mut self,
        world: &mut Progression,
        turn: u32,
        owed: Diagram,
    ) -> Result<Outcome, Stop> {
        if owed != TRUE {
            return Ok(Outcome {
                state: self.state(turn, owed)?,
                is_marked: false,
            });
        }
        let following = turn.saturating_add(1);
        let is_last = following as usize >= self.forms.len();
        let next = if is_last { 0 } else { following };
        let form = self.form(next)?;
        let owed = world.owed(form)?;
        Ok(Outcome {
            state: self.state(next, owed)?,
            is_marked: is_last,
        })
    }

    /// A row in which letters by which the automaton fails, or is met, are refused.
    pub fn without(
        &mut self,
        world: &mut Progression,
        row: Diagram,
        failed: bool,
        met: bool,
    ) -> Result<Diagram, Stop> {
        let key = (row, u32::from(failed) + 2 * u32::from(met));
        if let Some(known) = self.pruned.get(key) {
            return Ok(known);
        }
        let made = self.made_without(world, row, failed, met)?;
        self.pruned.put(key, made)?;
        Ok(made)
    }

    /// Such a row, made anew.
    fn made_without(
        &self,
        world: &mut Progression,
        row: Diagram,
        failed: bool,
        met: bool,
    ) -> Result<Diagram, Stop> {
        let ends = world.diagrams.ends(row)?;
        let mut leaves = Vec::new(self.alloc);
        for end in &ends {
            let Outcome { state, .. } = Outcome::of_end(&world.diagrams, *end);
            let is_refused = (failed && state == FAILED) || (met && state == MET);
            leaves.push(if is_refused { REFUSED } else { *end })?;
        }
        world.diagrams.replaced(row, &ends, &leaves)
    }
}

/// The leaf of an outcome.
fn leaf(world: &mut Progression, outcome: Outcome) -> Result<Diagram, Stop> {
    let number = outcome.number()?;
    world.diagrams.leaf(number)
}
