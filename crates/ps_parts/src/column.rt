//! A number for each index.

use crate::stop::Stop;
use std::alloc::Global;

/// The most indices that a column has numbers for.
const MOST: usize = 1 << 24;

/// A number for each index; as long as none is set, it is a given one.
#[derive(Drop)]
pub struct Column {
    numbers: Vec<u32>,
    unset: u32,
}

impl Column {
    /// A column whose numbers are all `unset`.
    pub fn new(alloc: Global, unset: u32) -> Self {
        Column {
            numbers: Vec::new(alloc),
            unset,
        }
    }

    /// The number at an index.
    pub fn get(&self, place: u32) -> u32 {
        match self.numbers.get(place as usize) {
            Some(number) => *number,
            None => self.unset,
        }
    }

    /// Sets the number at an index.
    pub fn set(&mut self, place: u32, number: u32) -> Result<(), Stop> {
        let place = place as usize;
        if place >= MOST {
            return Err(Stop::Limit);
        }
        if place >= self.numbers.len() {
            self.numbers.resize(place.saturating_add(1), self.unset)?;
        }
        if let Some(entry) = self.numbers.get_mut(place) {
            *entry = number;
        }
        Ok(())
    }
}
