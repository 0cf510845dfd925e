//! The quotient of an automaton: states that cannot be told apart are one.
//!
//! States are told apart if their kinds differ, or if by some letter they have different marks or lead to states that
//! are told apart. Classes of states are divided in rounds: where some states of a class leave it, the states that lead
//! to them are looked at in the next round. The largest part of a class keeps its number, so no state leaves a class
//! more often than the logarithm of the number of states (Hopcroft, "An n log n Algorithm for Minimizing States in a
//! Finite Automaton", 1971).

pub mod classes;
pub mod renumbering;
pub mod sources;

use crate::machine::{Machine, NONE};
use crate::quotient::classes::Classes;
use crate::quotient::renumbering::Renumbering;
use crate::quotient::sources::{Sources, sources_of};
use ps_keys::KeyList;
use ps_parts::column::Column;
use ps_parts::diagrams::{Diagram, Diagrams};
use ps_parts::stop::{Stop, index, number_of};
use std::alloc::Global;

/// Parts of classes: states that are to be told apart from the others.
#[derive(Drop)]
struct Groups {
    /// The old class of each group, and what its states lead to.
    keys: KeyList<(u32, u32)>,
    /// How many states each group has.
    sizes: Column,
    /// The group of each state that was looked at.
    numbers: Vec<u32>,
}

/// A class of which some states were looked at.
#[derive(Clone, Copy)]
struct Share {
    class: u32,
    /// How many states of it were looked at.
    total: u32,
    /// Its largest group, and how many states that has.
    group: u32,
    size: u32,
}

impl Share {
    /// Adds a group with some states.
    fn add(&mut self, group: u32, size: u32) {
        self.total = self.total.saturating_add(size);
        if size > self.size {
            self.group = group;
            self.size = size;
        }
    }

    /// Whether the largest group keeps the number of the class: it is no smaller than the part that was not looked at.
    fn is_kept(&self, classes: &Classes) -> bool {
        self.size >= self.rest(classes)
    }

    /// How many states of the class were not looked at.
    fn rest(&self, classes: &Classes) -> u32 {
        classes.size(self.class).saturating_sub(self.total)
    }
}

/// The classes of some groups.
#[derive(Drop)]
struct Shares {
    classes: KeyList<u64>,
    list: Vec<Share>,
}

impl Shares {
    /// The list of the classes.
    fn into_list(self) -> Vec<Share> {
        let Shares { list, .. } = self;
        list
    }

    /// Adds a group with some states to the share of its class.
    fn add(&mut self, class: u32, group: u32, size: u32) -> Result<(), Stop> {
        let place = self.classes.place_of(class as u64)?;
        if place >= self.list.len() {
            self.list.push(Share {
                class,
                total: 0,
                group,
                size: 0,
            })?;
        }
        if let Some(share) = self.list.get_mut(place) {
            share.add(group, size);
        }
        Ok(())
    }
}

/// The classes as states of an automaton.
#[derive(Drop)]
struct Numbering {
    /// The classes, in the order of their first states.
    classes: KeyList<u64>,
    /// The class of each state.
    numbers: Column,
    /// The first state of each class.
    firsts: Vec<u32>,
}

/// The division into classes, as far as it is made.
#[derive(Drop)]
struct Division {
    alloc: Global,
    classes: Classes,
    /// The round in which each state was looked at last.
    rounds: Column,
    round: u32,
    /// An automaton without states, for the arcs to classes.
    arcs: Machine,
}

/// The automaton in which states that cannot be told apart are one.
pub(crate) fn quotient(
    alloc: Global,
    diagrams: &mut Diagrams,
    machine: &Machine,
) -> Result<Machine, Stop> {
    let numbering = divided(alloc, diagrams, machine)?;
    joined(alloc, diagrams, machine, &numbering)
}

/// The division of the states into classes.
fn divided(alloc: Global, diagrams: &mut Diagrams, machine: &Machine) -> Result<Numbering, Stop> {
    let mut division = Division {
        alloc,
        classes: Classes::new(alloc),
        rounds: Column::new(alloc, 0),
        round: 0,
        arcs: Machine::new(alloc),
    };
    let numbering = division.numbering(diagrams, machine);
    drop(division);
    numbering
}

impl Division {
    /// The classes, once all states are divided.
    fn numbering(&mut self, diagrams: &mut Diagrams, machine: &Machine) -> Result<Numbering, Stop> {
        self.run(diagrams, machine)?;
        numbered(self.alloc, machine, &self.classes)
    }

    /// Divides the states, in rounds.
    fn run(&mut self, diagrams: &mut Diagrams, machine: &Machine) -> Result<(), Stop> {
        let sources = sources_of(self.alloc, diagrams, machine)?;
        self.begin(machine)?;
        self.divide_all(diagrams, machine, &sources)
    }

    /// Makes a class of each kind.
    fn begin(&mut self, machine: &Machine) -> Result<(), Stop> {
        let mut kinds = KeyList::new(self.alloc);
        for (state, kind) in machine.kinds.iter().enumerate() {
            let class = number_of(&mut kinds, *kind as u64)?;
            self.classes.put(index(state)?, class)?;
        }
        Ok(())
    }

    /// Divides classes until no state leaves its class.
    fn divide_all(
        &mut self,
        diagrams: &mut Diagrams,
        machine: &Machine,
        sources: &Sources,
    ) -> Result<(), Stop> {
        let mut pending = states_of(self.alloc, machine)?;
        for _ in 0..=machine.rows.len() {
            if pending.is_empty() {
                break;
            }
            pending = self.divide(diagrams, machine, sources, &pending)?;
        }
        Ok(())
    }

    /// Divides the classes of some states, and returns the states that lead to those that left their classes.
    fn divide(
        &mut self,
        diagrams: &mut Diagrams,
        machine: &Machine,
        sources: &Sources,
        pending: &[u32],
    ) -> Result<Vec<u32>, Stop> {
        let groups = self.grouped(diagrams, machine, pending)?;
        let left = self.parted(pending, &groups);
        drop(groups);
        self.next(sources, &left?)
    }

    /// Gives the groups of some states their numbers, and returns the states that left their classes.
    fn parted(&mut self, pending: &[u32], groups: &Groups) -> Result<Vec<u32>, Stop> {
        let shares = self.shares(groups)?;
        let numbers = self.numbers(groups, &shares)?;
        let mut left = Vec::new(self.alloc);
        self.leave(pending, groups, &shares, &numbers, &mut left)?;
        Ok(left)
    }

    /// The groups of some states.
    fn grouped(
        &mut self,
        diagrams: &mut Diagrams,
        machine: &Machine,
        pending: &[u32],
    ) -> Result<Groups, Stop> {
        self.round = self.round.saturating_add(1);
        let mut groups = Groups {
            keys: KeyList::new(self.alloc),
            sizes: Column::new(self.alloc, 0),
            numbers: Vec::new(self.alloc),
        };
        self.group_all(&mut groups, diagrams, machine, pending)?;
        Ok(groups)
    }

    /// Adds states to their groups.
    fn group_all(
        &mut self,
        groups: &mut Groups,
        diagrams: &mut Diagrams,
        machine: &Machine,
        pending: &[u32],
    ) -> Result<(), Stop> {
        let mut renumbering = Renumbering::new(self.alloc);
        for state in pending {
            let numbers = &self.classes.numbers;
            let class = numbers.get(*state);
            let row = renumbering.row(diagrams, machine, numbers, &mut self.arcs, *state)?;
            groups.add(class, row)?;
            self.rounds.set(*state, self.round)?;
        }
        Ok(())
    }

    /// The classes of some groups.
    fn shares(&self, groups: &Groups) -> Result<Vec<Share>, Stop> {
        let mut shares = Shares {
            classes: KeyList::new(self.alloc),
            list: Vec::new(self.alloc),
        };
        for (group, (class, _)) in groups.keys.as_slice().iter().enumerate() {
            let group = index(group)?;
            shares.add(*class, group, groups.sizes.get(group))?;
        }
        Ok(shares.into_list())
    }

    /// The new class of each group, which is the old one if the group keeps it.
    fn numbers(&mut self, groups: &Groups, shares: &[Share]) -> Result<Column, Stop> {
        let mut numbers = Column::new(self.alloc, NONE);
        for share in shares {
            if share.is_kept(&self.classes) {
                numbers.set(share.group, share.class)?;
            }
        }
        for group in 0..groups.keys.len() {
            let group = index(group)?;
            if numbers.get(group) == NONE {
                numbers.set(group, self.classes.added()?)?;
            }
        }
        Ok(numbers)
    }

    /// States leave their classes: those that were not looked at, if a group keeps the number of the class, and those
    /// of all other groups.
    fn leave(
        &mut self,
        pending: &[u32],
        groups: &Groups,
        shares: &[Share],
        numbers: &Column,
        left: &mut Vec<u32>,
    ) -> Result<(), Stop> {
        for share in shares {
            self.leave_behind(*share, left)?;
        }
        for (state, group) in pending.iter().zip(&groups.numbers) {
            self.transfer(*state, numbers.get(*group), left)?;
        }
        Ok(())
    }

    /// If a group keeps the number of its class, the states of the class that were not looked at leave it.
    fn leave_behind(&mut self, share: Share, left: &mut Vec<u32>) -> Result<(), Stop> {
        if !share.is_kept(&self.classes) || share.rest(&self.classes) == 0 {
            return Ok(());
        }
        let states = self.classes.states(share.class)?;
        let class = self.classes.added()?;
        for state in &states {
            if self.rounds.get(*state) != self.round {
                self.transfer(*state, class, left)?;
            }
        }
        Ok(())
    }

    /// Moves a state to a class, unless it is there, and notes that it left its own.
    fn transfer(&mut self, state: u32, class: u32, left: &mut Vec<u32>) -> Result<(), Stop> {
        if class != self.classes.numbers.get(state) {
            self.classes.transfer(state, class)?;
            left.push(state)?;
        }
        Ok(())
    }

    /// The states that lead to some states, each once.
    fn next(&mut self, sources: &Sources, left: &[u32]) -> Result<Vec<u32>, Stop> {
        let mut pending = Vec::new(self.alloc);
        self.round = self.round.saturating_add(1);
        for state in left {
            self.add_sources(sources, *state, &mut pending)?;
        }
        Ok(pending)
    }

    /// Adds the states that lead to a state, but for those that were added before.
    fn add_sources(
        &mut self,
        sources: &Sources,
        state: u32,
        pending: &mut Vec<u32>,
    ) -> Result<(), Stop> {
        for source in &sources.of(self.alloc, state)? {
            if self.rounds.get(*source) != self.round {
                self.rounds.set(*source, self.round)?;
                pending.push(*source)?;
            }
        }
        Ok(())
    }
}

impl Groups {
    /// Adds a state of a class that has a row to its group.
    fn add(&mut self, class: u32, row: Diagram) -> Result<(), Stop> {
        let group = number_of(&mut self.keys, (class, row))?;
        let size = self.sizes.get(group).saturating_add(1);
        self.sizes.set(group, size)?;
        self.numbers.push(group)?;
        Ok(())
    }
}

/// The states of an automaton.
fn states_of(alloc: Global, machine: &Machine) -> Result<Vec<u32>, Stop> {
    let mut states = Vec::new(alloc);
    for state in 0..machine.rows.len() {
        states.push(index(state)?)?;
    }
    Ok(states)
}

/// The numbers of the classes, in the order of their first states.
fn numbered(alloc: Global, machine: &Machine, classes: &Classes) -> Result<Numbering, Stop> {
    let mut numbering = Numbering {
        classes: KeyList::new(alloc),
        numbers: Column::new(alloc, 0),
        firsts: Vec::new(alloc),
    };
    for state in 0..machine.rows.len() {
        let state = index(state)?;
        numbering.add(state, classes.numbers.get(state))?;
    }
    Ok(numbering)
}

impl Numbering {
    /// Gives a state the number of its class.
    fn add(&mut self, state: u32, class: u32) -> Result<(), Stop> {
        let number = number_of(&mut self.classes, class as u64)?;
        if number as usize >= self.firsts.len() {
            self.firsts.push(state)?;
        }
        self.numbers.set(state, number)
    }
}

/// The automaton whose states are classes.
fn joined(
    alloc: Global,
    diagrams: &mut Diagrams,
    machine: &Machine,
    numbering: &Numbering,
) -> Result<Machine, Stop> {
    let mut made = Machine::new(alloc);
    join(alloc, diagrams, machine, numbering, &mut made)?;
    Ok(made)
}

/// Adds the classes as states of an automaton.
fn join(
    alloc: Global,
    diagrams: &mut Diagrams,
    machine: &Machine,
    numbering: &Numbering,
    made: &mut Machine,
) -> Result<(), Stop> {
    let mut renumbering = Renumbering::new(alloc);
    for state in &numbering.firsts {
        let row = renumbering.row(diagrams, machine, &numbering.numbers, made, *state)?;
        made.push(row, machine.kind(*state), machine.origin(*state))?;
    }
    Ok(())
}
