//! The numbers that a walk has met.

use crate::stop::Stop;
use ps_keys::KeyList;
use std::alloc::Global;

/// The numbers that a walk has met, each once, in the order in which it met them.
#[derive(Drop)]
pub struct Met {
    numbers: KeyList<u64>,
}

impl Met {
    /// No numbers.
    pub fn new(alloc: Global) -> Self {
        Met {
            numbers: KeyList::new(alloc),
        }
    }

    /// Adds a number, unless it was met before.
    pub fn add(&mut self, number: u32) -> Result<(), Stop> {
        self.numbers.place_of(number as u64)?;
        Ok(())
    }

    /// Adds two numbers.
    pub fn add_both(&mut self, one: u32, other: u32) -> Result<(), Stop> {
        self.add(one)?;
        self.add(other)
    }

    /// The number that was met at a place of the order.
    pub fn at(&self, place: usize) -> Option<u32> {
        let number = self.numbers.as_slice().get(place)?;
        u32::try_from(*number).ok()
    }

    /// How many numbers were met.
    pub fn len(&self) -> usize {
        self.numbers.len()
    }

    /// The numbers, the least first.
    pub fn sorted(&self, alloc: Global) -> Result<Vec<u32>, Stop> {
        let mut sorted = Vec::new(alloc);
        for number in self.numbers.as_slice() {
            sorted.push(u32::try_from(*number).map_err(|_error| Stop::Limit)?)?;
        }
        sorted.sort_unstable();
        Ok(sorted)
    }
}
