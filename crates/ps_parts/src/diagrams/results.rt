//! Results that are kept as long as there is room.
//!
//! A table has one place for all keys with the same last bits of their hash, and a new result takes the place of the
//! one that was there. So it stays small, and a look-up is short; what has lost its place is made again.

use crate::diagrams::Diagram;
use crate::stop::Stop;
use ps_keys::Hashed;
use std::alloc::Global;

/// The number of places of the first table, and that of the largest.
const FIRST: usize = 1 << 10;

const LARGEST: usize = 1 << 22;

/// A number without a pattern in its bits, so that no key has the hash 0.
const SEED: u64 = 0x2545_f491_4f6c_dd1d;

/// What a result is of: two diagrams and the number of an operation, or three diagrams.
pub(crate) type Key = (u32, u32, u32);

/// The bit that tells a result of `exists_both` from a choice, whose third diagram has a smaller number.
const OF_BOTH: u32 = 1 << 31;

/// The bits that tell a result of `spares` from those, since no diagram has so great a number.
const OF_SPARING: u32 = 3 << 30;

/// Operations on two diagrams.
#[derive(Clone, Copy, PartialEq, Eq)]
pub(crate) enum Operation {
    Exists,
    Forall,
    Constrained,
    Restricted,
    Between,
    Within,
}

impl Operation {
    /// The key of a result. The number of an operation is behind those of all diagrams.
    pub(crate) fn key(self, first: Diagram, second: Diagram) -> Key {
        let number = match self {
            Operation::Exists => 1,
            Operation::Forall => 2,
            Operation::Constrained => 3,
            Operation::Restricted => 4,
            Operation::Between => 5,
            Operation::Within => 6,
        };
        (first, second, u32::MAX - number)
    }
}

/// The key of a result of `exists_both`.
pub(crate) fn key_of_both(cube: Diagram, first: Diagram, second: Diagram) -> Key {
    (first, second, cube | OF_BOTH)
}

/// The key of a result of `spares`.
pub(crate) fn key_of_sparing(variable: u32, lower: Diagram, upper: Diagram) -> Key {
    (lower, upper, variable | OF_SPARING)
}

/// A place where no result stands.
const EMPTY: Kept = Kept {
    key: (u32::MAX, u32::MAX, u32::MAX),
    made: u32::MAX,
};

/// A result.
#[derive(Clone, Copy)]
struct Kept {
    key: Key,
    made: Diagram,
}

/// Results that are kept.
#[derive(Drop)]
pub(crate) struct Results {
    places: Vec<Kept>,
    /// The number of results that were put into the table.
    count: usize,
}

impl Results {
    /// No results.
    pub(crate) fn new(alloc: Global) -> Self {
        Results {
            places: Vec::new(alloc),
            count: 0,
        }
    }

    /// The result of a key, if it has not lost its place.
    pub(crate) fn get(&self, key: Key) -> Option<Diagram> {
        match self.places.get(self.place(key)) {
            Some(kept) if kept.key == key => Some(kept.made),
            _ => None,
        }
    }

    /// Keeps the result of a key.
    pub(crate) fn put(&mut self, key: Key, made: Diagram) -> Result<(), Stop> {
        self.grow()?;
        let place = self.place(key);
        if let Some(kept) = self.places.get_mut(place) {
            *kept = Kept { key, made };
        }
        Ok(())
    }

    /// Doubles the places if there were as many results; half of those that stand there are found no more.
    fn grow(&mut self) -> Result<(), Stop> {
        let size = self.places.len();
        if self.count >= size && size < LARGEST {
            self.places
                .resize(size.saturating_mul(2).max(FIRST), EMPTY)?;
        }
        self.count = self.count.saturating_add(1);
        Ok(())
    }

    /// The place of a key.
    fn place(&self, key: Key) -> usize {
        key.hash(SEED) as usize & self.places.len().saturating_sub(1)
    }
}
