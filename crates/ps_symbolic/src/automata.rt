//! The parts of a formula, each with the states of its automaton.
//!
//! A part that has failed, or that is met, may decide the play, whatever the others do: then the state is none, and the
//! edge that leads there is won or lost. All other states get a number each, from 0, in the order in which they are
//! met. An automaton has at most 4,096 states; the steps are those of the diagrams of what is owed.

use ps_keys::{KeyList, mixed};
use ps_parts::diagrams::{self, Diagram, Diagrams, Literal, View};
use ps_parts::part::{FAILED, Kind, MET, Outcome, Part};
use ps_parts::progression::Progression;
use ps_parts::split::{Apart, Extent, Split, Way};
use ps_parts::stop::{Stop, index};
use ps_tlsf::Specification;
use std::alloc::Global;

/// The most states of an automaton.
const STATES: usize = 4096;

/// The states whose rows tell the form of an automaton.
const SHAPED: usize = 2;

/// The depth to which a row tells the form of an automaton.
const DEPTH: u32 = 4;

/// What an automaton that has failed, or is met, decides.
#[derive(Clone, Copy, PartialEq, Eq)]
pub(crate) enum End {
    /// Nothing: it is a state.
    Open,
    /// The controller loses.
    Lost,
    /// The controller wins.
    Won,
}

/// What is asked of the outcome of a letter.
#[derive(Clone, Copy)]
pub(crate) enum Question {
    /// Whether a bit of the next state is set.
    Bit(u32),
    /// Whether the letter is marked.
    Marked,
    /// Whether the letter is marked, also where the automaton comes to an end.
    Recurs,
    /// Whether it comes to the state with a number without a mark.
    Comes(u32),
    /// Whether the automaton has failed, where that is a state.
    Failed,
    /// Whether the automaton comes to such an end.
    Ended(End),
}

/// A part, with the states of its automaton.
#[derive(Drop)]
pub(crate) struct Automaton {
    part: Part,
    pub(crate) failed: End,
    pub(crate) met: End,
    /// The state with each number.
    states: KeyList<u64>,
    /// The propositions of its letters, one bit for each.
    pub(crate) support: u64,
    /// Whether it has failed in some run.
    may_fail: bool,
    changes: Changes,
    /// What is marked if the states are forgotten.
    pub(crate) aim: Diagram,
}

/// How a part is changed.
#[derive(Clone, Copy)]
pub(crate) struct Changes {
    /// What its failure is taken to decide, where it decides nothing.
    pub(crate) forbidden: End,
    /// Whether the part is taken as true.
    pub(crate) is_assumed: bool,
    /// Whether the part is taken as false.
    pub(crate) is_denied: bool,
    /// Whether its states are forgotten: it then holds if letters of its aim recur.
    pub(crate) is_forgotten: bool,
}

impl Changes {
    /// It is not changed.
    pub(crate) const NONE: Changes = Changes {
        forbidden: End::Open,
        is_assumed: false,
        is_denied: false,
        is_forgotten: false,
    };
}

/// The parts of a formula, and how it is made of them.
#[derive(Drop)]
pub(crate) struct Automata {
    alloc: Global,
    pub(crate) world: Progression,
    pub(crate) list: Vec<Automaton>,
    /// The skeleton: variable i stands for the part i.
    whole: Diagram,
    /// The same, where the parts that are taken as true hold.
    pub(crate) skeleton: Diagram,
}

impl Automata {
    /// The parts of a specification.
    pub(crate) fn new(
        alloc: Global,
        specification: &Specification,
        steps: u32,
    ) -> Result<Self, Stop> {
        let world = Progression::with_steps(alloc, steps)?;
        let mut automata = Automata {
            alloc,
            world,
            list: Vec::new(alloc),
            whole: diagrams::TRUE,
            skeleton: diagrams::TRUE,
        };
        automata.split(specification)?;
        Ok(automata)
    }

    /// Parts the formula of a specification.
    fn split(&mut self, specification: &Specification) -> Result<(), Stop> {
        let nodes = specification.table.as_slice();
        let form = self.world.forms.of_table(nodes, specification.root)?;
        let way = Way {
            is_negated: false,
            extent: Extent::Each,
        };
        let mut split = Split::new(self.alloc, way, Apart);
        self.skeleton = split.function(&mut self.world, form)?;
        for part in split.into_parts() {
            self.add(part)?;
        }
        self.settle()
    }

    /// Adds a part whose states are not known.
    fn add(&mut self, part: Part) -> Result<(), Stop> {
        self.list.push(Automaton {
            part,
            failed: End::Open,
            met: End::Open,
            states: KeyList::new(self.alloc),
            support: 0,
            may_fail: false,
            changes: Changes::NONE,
            aim: diagrams::FALSE,
        })?;
        Ok(())
    }

    /// Puts the truth of each part that is constant into the skeleton.
    fn settle(&mut self) -> Result<(), Stop> {
        for place in 0..self.list.len() {
            let truth = match self.initial(place)? {
                FAILED => false,
                MET => true,
                _ => continue,
            };
            self.skeleton = self.fixed(place, truth)?;
        }
        self.whole = self.skeleton;
        Ok(())
    }

    /// Takes the parts as true or false that are to be, and explores the automata of the parts on which the skeleton
    /// depends.
    pub(crate) fn prepare(&mut self) -> Result<(), Stop> {
        self.skeleton = self.whole;
        for place in 0..self.list.len() {
            let changes = match self.list.get(place) {
                Some(automaton) => automaton.changes,
                None => Changes::NONE,
            };
            if changes.is_assumed || changes.is_denied {
                self.skeleton = self.fixed(place, changes.is_assumed)?;
            }
        }
        self.explore()
    }

    /// The first state of a part.
    fn initial(&mut self, place: usize) -> Result<u32, Stop> {
        let automaton = self.list.get_mut(place).ok_or(Stop::Limit)?;
        automaton.part.initial(&mut self.world)
    }

    /// The skeleton, where a part has a truth.
    pub(crate) fn fixed(&mut self, place: usize, value: bool) -> Result<Diagram, Stop> {
        let variable = index(place)?;
        let literal = Literal { variable, value };
        self.world.diagrams.fixed(self.skeleton, literal)
    }

    /// Asks for plays that do well for a player by all parts but one that is of use to the player, which does not hold.
    pub(crate) fn deny(&mut self, place: usize, is_controller: bool) -> Result<(), Stop> {
        let held = self.fixed(place, true)?;
        let part = self.world.diagrams.variable(index(place)?)?;
        let aim = if is_controller {
            held
        } else {
            self.world.diagrams.negated(held)?
        };
        self.skeleton = self.world.diagrams.difference(aim, part)?;
        self.explore()
    }

    /// Whether a part can only be of use to the controller, or with `is_harm` only of harm.
    pub(crate) fn is_only(&mut self, place: usize, is_harm: bool) -> Result<bool, Stop> {
        let low = self.fixed(place, false)?;
        let high = self.fixed(place, true)?;
        let (less, more) = if is_harm { (high, low) } else { (low, high) };
        Ok(low != high && self.world.diagrams.is_within(less, more)?)
    }

    /// Lets a part forget its states, if it may; gives whether it does.
    pub(crate) fn forget(&mut self, place: usize, other: Diagram) -> Result<bool, Stop> {
        let Some(automaton) = self.list.get_mut(place) else {
            return Ok(false);
        };
        if !automaton.can_be_forgotten() {
            return Ok(false);
        }
        automaton.find_aim(&mut self.world, other)?;
        automaton.changes.is_forgotten = automaton.aim != diagrams::FALSE;
        Ok(automaton.changes.is_forgotten)
    }

    /// Explores the automata of the parts on which the skeleton depends.
    fn explore(&mut self) -> Result<(), Stop> {
        for place in 0..self.list.len() {
            let low = self.fixed(place, false)?;
            let high = self.fixed(place, true)?;
            let first = self.initial(place)?;
            let automaton = self.list.get_mut(place).ok_or(Stop::Limit)?;
            automaton.states = KeyList::new(self.alloc);
            automaton.may_fail = false;
            if low != high {
                automaton.failed = match end_of(low) {
                    End::Open => automaton.changes.forbidden,
                    end => end,
                };
                automaton.met = end_of(high);
                automaton.explore(&mut self.world, first)?;
            }
        }
        Ok(())
    }
}

/// A number for the form of a diagram, to a depth, and of what was seen before.
fn shape_at(depth: u32, diagrams: &Diagrams, diagram: Diagram, seen: u64) -> Result<u64, Stop> {
    let test = match diagrams.view(diagram) {
        View::Leaf(number) => return Ok(mixed(seen, number as u64, 1)),
        View::Test(test) => test,
    };
    if depth == 0 {
        return Ok(mixed(seen, 0, 2));
    }
    let low = shape_at(depth - 1, diagrams, test.low, seen)?;
    let high = shape_at(depth - 1, diagrams, test.high, low)?;
    Ok(mixed(high, 0, 3))
}

/// What an end decides that makes the skeleton such a diagram.
fn end_of(skeleton: Diagram) -> End {
    match skeleton {
        diagrams::FALSE => End::Lost,
        diagrams::TRUE => End::Won,
        _ => End::Open,
    }
}

impl Automaton {
    /// How the part is changed.
    pub(crate) fn changes(&self) -> Changes {
        self.changes
    }

    /// Lets the part have its states.
    pub(crate) fn remember(&mut self) {
        self.changes.is_forgotten = false;
    }

    /// Changes the part.
    pub(crate) fn change(&mut self, changes: Changes) {
        self.changes = changes;
    }

    /// Whether the skeleton depends on the part.
    pub(crate) fn is_used(&self) -> bool {
        self.states.len() > 0
    }

    /// Whether the part holds if its automaton never fails, and not if it is marked again and again.
    pub(crate) fn is_safety(&self) -> bool {
        self.part.kind == Kind::Safety
    }

    /// Whether the states can be forgotten: the part holds if its automaton is marked again and again, and never fails.
    pub(crate) fn can_be_forgotten(&self) -> bool {
        !self.is_safety() && !self.may_fail && self.states.len() > 1
    }

    /// Whether the part may be false, and that decides nothing.
    pub(crate) fn can_be_denied(&self) -> bool {
        self.is_used() && self.failed == End::Open
    }

    /// Whether the automaton may fail, and that decides nothing.
    pub(crate) fn can_be_forbidden(&self) -> bool {
        self.may_fail && self.failed == End::Open
    }

    /// A number for the form of the automaton: equal ones often differ by the names of propositions alone.
    pub(crate) fn shape(&mut self, world: &mut Progression) -> Result<u64, Stop> {
        let mut shape = self.states.len() as u64;
        for place in 0..self.states.len().min(SHAPED) {
            let state = self.state(place).ok_or(Stop::Limit)?;
            let row = self.part.row(world, state)?;
            shape = shape_at(DEPTH, &world.diagrams, row, shape)?;
        }
        Ok(shape)
    }

    /// Whether the part is a recurrence.
    pub(crate) fn is_recurrence(&self) -> bool {
        !self.is_safety()
    }

    /// The number of bits of a state.
    pub(crate) fn bits(&self) -> u32 {
        if self.changes.is_forgotten {
            return 0;
        }
        let most = self.states.len().saturating_sub(1);
        usize::BITS.saturating_sub(most.leading_zeros())
    }

    /// The number of states.
    pub(crate) fn len(&self) -> usize {
        self.states.len()
    }

    /// Meets all states that a state leads to.
    fn explore(&mut self, world: &mut Progression, first: u32) -> Result<(), Stop> {
        self.states.place_of(first as u64)?;
        for place in 0..STATES {
            let Some(state) = self.state(place) else {
                return Ok(());
            };
            self.look(world, state)?;
        }
        Err(Stop::Limit)
    }

    /// The state with a number.
    fn state(&self, place: usize) -> Option<u32> {
        let state = self.states.as_slice().get(place)?;
        u32::try_from(*state).ok()
    }

    /// Meets the states after a state.
    fn look(&mut self, world: &mut Progression, state: u32) -> Result<(), Stop> {
        let row = self.part.row(world, state)?;
        self.support |= world.diagrams.support(row)?;
        for end in &world.diagrams.ends(row)? {
            let outcome = Outcome::of_end(&world.diagrams, *end);
            self.may_fail |= outcome.state == FAILED;
            if self.end_at(outcome.state) == End::Open {
                self.states.place_of(outcome.state as u64)?;
            }
        }
        Ok(())
    }

    /// What is decided at a state.
    fn end_at(&self, state: u32) -> End {
        match state {
            FAILED => self.failed,
            MET => self.met,
            _ => End::Open,
        }
    }

    /// The answer to a question about an outcome.
    fn answer(&self, question: Question, outcome: Outcome) -> bool {
        let end = self.end_at(outcome.state);
        match question {
            Question::Ended(given) => end == given,
            Question::Recurs => outcome.is_marked,
            Question::Comes(code) => {
                let place = self.states.find(outcome.state as u64);
                !outcome.is_marked && place == Some(code as usize)
            }
            _ if end != End::Open => false,
            Question::Marked => outcome.is_marked,
            Question::Failed => outcome.state == FAILED,
            Question::Bit(bit) => match self.states.find(outcome.state as u64) {
                Some(code) => code.checked_shr(bit).unwrap_or(0) % 2 == 1,
                None => false,
            },
        }
    }

    /// At which letters the answer to a question is yes, in a state: a diagram over propositions.
    pub(crate) fn letters(
        &mut self,
        world: &mut Progression,
        place: usize,
        question: Question,
    ) -> Result<Diagram, Stop> {
        let state = self.state(place).ok_or(Stop::Limit)?;
        let row = self.part.row(world, state)?;
        let ends = world.diagrams.ends(row)?;
        let answers = self.answers(world, &ends, question)?;
        world.diagrams.replaced(row, &ends, &answers)
    }

    /// The answers at the ends of a row.
    fn answers(
        &self,
        world: &Progression,
        ends: &Vec<Diagram>,
        question: Question,
    ) -> Result<Vec<Diagram>, Stop> {
        let mut answers = Vec::new(*ends.allocator());
        for end in ends {
            let outcome = Outcome::of_end(&world.diagrams, *end);
            let answer = self.answer(question, outcome);
            answers.push(if answer {
                diagrams::TRUE
            } else {
                diagrams::FALSE
            })?;
        }
        Ok(answers)
    }
}
