//! What is kept of each set beside its formulas. Contracts do not mention it: it only saves time.

use crate::set::Set;
use ps_keys::KeyList;
use std::alloc::{AllocError, Global};

/// A word for each set that is not empty, and whether it is known to be reduced.
#[derive(Debug, Drop)]
pub(crate) struct Words {
    /// For each set, a word with a bit for each of its formulas; formulas may share a bit.
    each: Vec<u64>,
    /// Whether each set is known to be reduced.
    reduced: Vec<bool>,
    /// The formulas of sets, in the order in which they were met, so that the first ones have bits of their own.
    met: KeyList<u64>,
}

impl Words {
    /// No words.
    pub(crate) fn new(alloc: Global) -> Self {
        Words {
            each: Vec::new(alloc),
            reduced: Vec::new(alloc),
            met: KeyList::new(alloc),
        }
    }

    /// Adds the word of the set at a place, if it is new: that of a formula and the set of its others. Fails if out of
    /// memory.
    pub(crate) fn add(&mut self, place: usize, index: u32, rest: Set) -> Result<(), AllocError> {
        if place != self.each.len() {
            return Ok(());
        }
        let bit = self.met.place_of(index as u64)? % 64;
        let word = self.of(rest) | 1 << bit;
        self.each.push(word)?;
        self.reduced.push(false)?;
        Ok(())
    }

    /// The word of a set. It has each bit if memory ran out when it was to be added.
    pub(crate) fn of(&self, set: Set) -> u64 {
        match place_of(set) {
            Some(place) => self.each.get(place).copied().unwrap_or(u64::MAX),
            None => 0,
        }
    }

    /// Whether a set is known to be reduced. The empty set is.
    pub(crate) fn is_reduced(&self, set: Set) -> bool {
        match place_of(set) {
            Some(place) => self.reduced.get(place).copied().unwrap_or(false),
            None => true,
        }
    }

    pub(crate) fn note_reduced(&mut self, set: Set) {
        if let Some(place) = place_of(set)
            && place < self.reduced.len()
        {
            self.reduced[place] = true;
        }
    }
}

/// The place of a set, unless it is empty.
fn place_of(set: Set) -> Option<usize> {
    (set.number as usize).checked_sub(1)
}
