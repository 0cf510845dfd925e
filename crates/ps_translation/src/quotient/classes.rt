//! Classes of states.

use ps_parts::column::Column;
use ps_parts::stop::{Stop, index};
use std::alloc::Global;

/// The end of a list.
const NONE: u32 = u32::MAX;

/// Classes of states. The states of a class are a list that is linked both ways.
#[derive(Drop)]
pub(crate) struct Classes {
    alloc: Global,
    /// The class of each state.
    pub(crate) numbers: Column,
    /// How many states each class has.
    sizes: Vec<u32>,
    /// The first state of each class.
    first: Column,
    /// The state behind each state, and the one before it.
    next: Column,
    before: Column,
}

impl Classes {
    /// No classes.
    pub(crate) fn new(alloc: Global) -> Self {
        Classes {
            alloc,
            numbers: Column::new(alloc, NONE),
            sizes: Vec::new(alloc),
            first: Column::new(alloc, NONE),
            next: Column::new(alloc, NONE),
            before: Column::new(alloc, NONE),
        }
    }

    /// How many states a class has.
    pub(crate) fn size(&self, class: u32) -> u32 {
        match self.sizes.get(class as usize) {
            Some(size) => *size,
            None => 0,
        }
    }

    /// A new class without states.
    pub(crate) fn added(&mut self) -> Result<u32, Stop> {
        let class = index(self.sizes.len())?;
        self.sizes.push(0)?;
        Ok(class)
    }

    /// Puts a state that is in no class into a class, which may be the next one that is new.
    pub(crate) fn put(&mut self, state: u32, class: u32) -> Result<(), Stop> {
        if class as usize >= self.sizes.len() {
            self.sizes.push(0)?;
        }
        let next = self.first.get(class);
        self.numbers.set(state, class)?;
        self.next.set(state, next)?;
        self.before.set(state, NONE)?;
        self.first.set(class, state)?;
        if next != NONE {
            self.before.set(next, state)?;
        }
        if let Some(size) = self.sizes.get_mut(class as usize) {
            *size = size.saturating_add(1);
        }
        Ok(())
    }

    /// Takes a state out of its class.
    fn take(&mut self, state: u32) -> Result<(), Stop> {
        let class = self.numbers.get(state);
        let (next, before) = (self.next.get(state), self.before.get(state));
        if next != NONE {
            self.before.set(next, before)?;
        }
        if before == NONE {
            self.first.set(class, next)?;
        } else {
            self.next.set(before, next)?;
        }
        if let Some(size) = self.sizes.get_mut(class as usize) {
            *size = size.saturating_sub(1);
        }
        Ok(())
    }

    /// Moves a state to another class.
    pub(crate) fn transfer(&mut self, state: u32, class: u32) -> Result<(), Stop> {
        self.take(state)?;
        self.put(state, class)
    }

    /// The states of a class.
    pub(crate) fn states(&self, class: u32) -> Result<Vec<u32>, Stop> {
        let mut states = Vec::new(self.alloc);
        let mut state = self.first.get(class);
        for _ in 0..self.size(class) {
            if state == NONE {
                break;
            }
            states.push(state)?;
            state = self.next.get(state);
        }
        Ok(states)
    }
}
