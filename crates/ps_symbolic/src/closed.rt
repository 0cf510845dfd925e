//! The closed loop of chosen functions: what they reach, and whether they win there.
//!
//! Functions are first chosen for the first state alone. If they reach states at which they do not meet the moves, the
//! first of those matter too, and all that no longer fit are chosen again. There are at most 256 such repairs; after
//! some, more states are taken to matter than were reached.
//!
//! The states after some states are found bit by bit; a variable is projected as soon as no later bit needs it (Burch,
//! Clarke, Long, "Symbolic Model Checking with Partitioned Transition Relations", 1991).

use crate::arena::{MEMORY, turn_now};
use crate::functions::Functions;
use ps_parts::diagrams::substitution::Substitution;
use ps_parts::diagrams::{self, Diagram};
use ps_parts::stop::Stop;
use std::alloc::Global;

/// The most repairs.
const REPAIRS: u32 = 256;

/// The repairs for which just the states that are reached matter, and those for which they do at all turns.
const EXACT: u32 = 100;

const WIDE: u32 = 150;

/// The most steps of a search for states.
const LENGTH: u32 = 1 << 20;

/// A bit of the turn or the state, with its next truth in the closed loop.
#[derive(Clone, Copy)]
struct Step {
    variable: u32,
    /// Where the next truth is that of the function.
    agrees: Diagram,
    /// The variables that no later bit needs.
    done: Diagram,
}

/// The closed loop of functions.
#[derive(Drop)]
pub(crate) struct Closed {
    alloc: Global,
    steps: Vec<Step>,
    /// The variables of the present that no bit needs.
    unneeded: Diagram,
    /// The next truths as truths of the present.
    renamed: Substitution,
    /// The states at which the moves are not met.
    bad: Diagram,
    /// The edges of the closed loop at which the play goes on.
    open: Diagram,
    /// The states that are reached.
    pub(crate) reached: Diagram,
}

/// Chooses functions that win from all states that they reach.
pub(crate) fn win(alloc: Global, functions: &mut Functions) -> Result<Diagram, Stop> {
    functions.care = functions.start;
    for repair in 0..REPAIRS {
        functions.renew(alloc)?;
        functions.choose()?;
        let mut closed = Closed::new(alloc, functions.start);
        let bad = closed.first_bad(functions);
        let reached = closed.reached;
        drop(closed);
        let bad = bad?;
        if bad == diagrams::FALSE {
            return Ok(reached);
        }
        let bad = functions.widened(bad, repair)?;
        functions.care = functions.diagrams.either(functions.care, bad)?;
    }
    Err(Stop::Limit)
}

impl Functions {
    /// More states that are to matter: after some repairs those at all turns, after more all.
    fn widened(&mut self, bad: Diagram, repair: u32) -> Result<Diagram, Stop> {
        if repair < EXACT {
            return Ok(bad);
        }
        let mut wide = bad;
        for bit in 0..self.memory {
            let cube = self.diagrams.variable(turn_now(bit))?;
            wide = self.diagrams.exists(cube, wide)?;
        }
        if repair >= WIDE {
            wide = diagrams::TRUE;
        }
        self.diagrams.both(wide, self.states)
    }
}

impl Closed {
    /// A closed loop that begins in some states.
    fn new(alloc: Global, start: Diagram) -> Self {
        Closed {
            alloc,
            steps: Vec::new(alloc),
            unneeded: diagrams::TRUE,
            renamed: Substitution::new(alloc),
            bad: diagrams::FALSE,
            open: diagrams::TRUE,
            reached: start,
        }
    }

    /// The first states that are reached at which the moves are not met.
    fn first_bad(&mut self, functions: &mut Functions) -> Result<Diagram, Stop> {
        self.find_bad(functions)?;
        if functions.diagrams.meets(self.reached, self.bad)? {
            return functions.diagrams.both(self.reached, self.bad);
        }
        self.add_steps(functions)?;
        self.schedule(functions)?;
        let mut front = self.reached;
        let mut found = diagrams::FALSE;
        for _ in 0..LENGTH {
            let next = self.image(functions, front)?;
            let new = functions.diagrams.difference(next, self.reached)?;
            if new == diagrams::FALSE {
                return Ok(found);
            }
            self.reached = functions.diagrams.either(self.reached, new)?;
            let bad = functions.diagrams.both(new, self.bad)?;
            found = functions.diagrams.either(found, bad)?;
            front = functions.diagrams.difference(new, bad)?;
        }
        Err(Stop::Limit)
    }

    /// Finds the states at which the moves are not met, and the edges at which the play goes on.
    fn find_bad(&mut self, functions: &mut Functions) -> Result<(), Stop> {
        let count = functions.unknowns.len();
        let met = functions.put_in(count, functions.moves)?;
        let good = functions.diagrams.forall(functions.turn.other, met)?;
        self.bad = functions.diagrams.negated(good)?;
        let won = functions.put_in(count, functions.won)?;
        self.open = functions.diagrams.negated(won)?;
        Ok(())
    }

    /// Adds all bits.
    fn add_steps(&mut self, functions: &mut Functions) -> Result<(), Stop> {
        for place in 0..functions.unknowns.len() {
            let Some(unknown) = functions.unknowns.get(place).copied() else {
                break;
            };
            if unknown.variable < 2 * MEMORY {
                self.add_step(
                    functions,
                    unknown.variable.saturating_sub(1),
                    unknown.function,
                )?;
            }
        }
        let count = functions.unknowns.len();
        let mut closing = functions.closing(count)?;
        for place in 0..functions.bits.len() {
            let Some(bit) = functions.bits.get(place).copied() else {
                break;
            };
            let next = closing.applied(&mut functions.diagrams, bit.next)?;
            self.add_step(functions, bit.variable, next)?;
        }
        Ok(())
    }

    /// Adds a bit, with the function of its next truth.
    fn add_step(
        &mut self,
        functions: &mut Functions,
        variable: u32,
        next: Diagram,
    ) -> Result<(), Stop> {
        let diagrams = &mut functions.diagrams;
        let following = diagrams.variable(variable.saturating_add(1))?;
        let differs = diagrams.negated(next)?;
        let agrees = diagrams.choose(following, next, differs)?;
        let present = diagrams.variable(variable)?;
        self.renamed.set(variable.saturating_add(1), present)?;
        self.steps.push(Step {
            variable,
            agrees,
            done: diagrams::TRUE,
        })?;
        Ok(())
    }

    /// Tells for each bit which variables no later one needs.
    fn schedule(&mut self, functions: &mut Functions) -> Result<(), Stop> {
        let mut unneeded = functions.turn.other;
        for step in &self.steps {
            let present = functions.diagrams.variable(step.variable)?;
            unneeded = functions.diagrams.both(unneeded, present)?;
        }
        for step in self.steps.iter_mut().rev() {
            for variable in &functions.diagrams.variables(step.agrees)? {
                let cube = functions.diagrams.variable(*variable)?;
                if functions.diagrams.is_within(unneeded, cube)? {
                    unneeded = functions.diagrams.exists(cube, unneeded)?;
                    step.done = functions.diagrams.both(step.done, cube)?;
                }
            }
        }
        self.unneeded = unneeded;
        Ok(())
    }

    /// The states after some states.
    fn image(&mut self, functions: &mut Functions, states: Diagram) -> Result<Diagram, Stop> {
        let edges = functions.diagrams.both(states, self.open)?;
        let mut made = functions.diagrams.exists(self.unneeded, edges)?;
        for step in &self.steps {
            made = functions
                .diagrams
                .exists_both(step.done, made, step.agrees)?;
        }
        self.renamed.applied(&mut functions.diagrams, made)
    }
}
