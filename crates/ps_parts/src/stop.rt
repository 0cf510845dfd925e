//! Why a call ends without a result.

use ps_keys::{Hashed, KeyList};
use std::alloc::{AllocError, AllocFailed};

/// Why a call ends without a result.
#[derive(Debug, Clone, Copy, PartialEq, Eq)]
pub enum Stop {
    /// Memory ran out.
    Memory,
    /// A limit was passed: the budget of steps, or the size of a table.
    Limit,
}

impl From<AllocError> for Stop {
    fn from(_error: AllocError) -> Self {
        Stop::Memory
    }
}

impl<T: Drop> From<AllocFailed<T>> for Stop {
    fn from(_error: AllocFailed<T>) -> Self {
        Stop::Memory
    }
}

/// A number as an index of 32 bits.
pub fn index(number: usize) -> Result<u32, Stop> {
    u32::try_from(number).map_err(|_error| Stop::Limit)
}

/// The index of a key in a list, to which it is appended if it is new.
pub fn number_of<K: Hashed + Drop>(keys: &mut KeyList<K>, key: K) -> Result<u32, Stop> {
    index(keys.place_of(key)?)
}

/// The index of a key in a list, if it is there.
pub fn found<K: Hashed + Drop>(keys: &KeyList<K>, key: K) -> Option<u32> {
    u32::try_from(keys.find(key)?).ok()
}
