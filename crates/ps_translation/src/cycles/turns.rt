//! The children of loops that go through a state.

use crate::machine::NONE;
use ps_keys::KeyList;
use ps_parts::column::Column;
use ps_parts::stop::{Stop, found, index, number_of};
use std::alloc::Global;

/// A child of a loop that goes through a state.
#[derive(Clone, Copy)]
struct Turn {
    child: u32,
    /// The turn before this one, of the same loop and state.
    earlier: u32,
    /// How many turns there are up to this one.
    count: usize,
}

/// For each loop and each state, the children of the loop that go through the state.
#[derive(Drop)]
pub(crate) struct Turns {
    /// Loops with states.
    places: KeyList<(u32, u32)>,
    /// The last turn at each of these.
    last: Column,
    turns: Vec<Turn>,
}

impl Turns {
    /// No loops.
    pub(crate) fn new(alloc: Global) -> Self {
        Turns {
            places: KeyList::new(alloc),
            last: Column::new(alloc, NONE),
            turns: Vec::new(alloc),
        }
    }

    /// Notes that a child of a loop, the last one that was noted, goes through a state.
    pub(crate) fn add(&mut self, around: u32, child: u32, state: u32) -> Result<(), Stop> {
        let place = number_of(&mut self.places, (around, state))?;
        let earlier = self.last.get(place);
        let count = match self.turns.get(earlier as usize) {
            Some(turn) if turn.child == child => return Ok(()),
            Some(turn) => turn.count,
            None => 0,
        };
        self.last.set(place, index(self.turns.len())?)?;
        self.turns.push(Turn {
            child,
            earlier,
            count: count.saturating_add(1),
        })?;
        Ok(())
    }

    /// The last turn at a loop and a state.
    fn last(&self, around: u32, state: u32) -> Option<Turn> {
        let place = found(&self.places, (around, state))?;
        let last = self.last.get(place);
        self.turns.get(last as usize).copied()
    }

    /// How many children of a loop go through a state.
    pub(crate) fn count(&self, around: u32, state: u32) -> usize {
        match self.last(around, state) {
            Some(turn) => turn.count,
            None => 0,
        }
    }

    /// Of the children of a loop that go through a state, the first one behind a given one, or else the first one.
    pub(crate) fn next(&self, around: u32, state: u32, below: u32) -> Option<u32> {
        let last = self.last(around, state)?;
        let mut next = last.child;
        let mut place = last.earlier;
        for _ in 1..last.count {
            let turn = self.turns.get(place as usize)?;
            if is_before(turn.child, next, below) {
                next = turn.child;
            }
            place = turn.earlier;
        }
        Some(next)
    }
}

/// Whether a loop comes before another in the order that begins behind a given one, and goes on with the first one.
fn is_before(number: u32, other: u32, below: u32) -> bool {
    if (number <= below) == (other <= below) {
        number < other
    } else {
        other <= below
    }
}
