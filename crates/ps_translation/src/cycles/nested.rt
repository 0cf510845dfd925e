//! Which of some loops are within others.

use crate::components::Edge;
use crate::machine::NONE;
use ps_keys::KeyList;
use ps_parts::column::Column;
use ps_parts::diagrams::Diagrams;
use ps_parts::stop::{Stop, found, index, number_of};
use std::alloc::Global;

/// Loops by their first edges. A loop that is within another has its first edge there.
#[derive(Drop)]
struct Nested {
    /// Loops with their edges.
    edges: KeyList<(u32, u32)>,
    /// The first edges of loops.
    firsts: KeyList<u64>,
    /// The last loop with each of these.
    last: Column,
    /// For each loop, the one before it with the same first edge.
    earlier: Column,
    /// The loops that were found to be within others.
    is_within: Vec<bool>,
}

/// A loop in which others are sought.
#[derive(Clone, Copy)]
struct Around {
    number: u32,
    /// How many edges it has.
    length: usize,
}

impl Around {
    /// Whether the loop is longer than another, or as long and comes earlier.
    fn is_larger(self, number: u32, edges: &[Edge]) -> bool {
        self.length > edges.len() || (self.length == edges.len() && self.number < number)
    }
}

/// For each loop, whether all its edges are in another one, which is longer or comes earlier.
pub(crate) fn within_others(
    alloc: Global,
    diagrams: &mut Diagrams,
    loops: &[Vec<Edge>],
) -> Result<Vec<bool>, Stop> {
    let mut nested = Nested {
        edges: KeyList::new(alloc),
        firsts: KeyList::new(alloc),
        last: Column::new(alloc, NONE),
        earlier: Column::new(alloc, NONE),
        is_within: Vec::new(alloc),
    };
    nested.look_at_all(diagrams, loops)?;
    Ok(nested.into_list())
}

impl Nested {
    /// Notes which loops are within others.
    fn look_at_all(&mut self, diagrams: &mut Diagrams, loops: &[Vec<Edge>]) -> Result<(), Stop> {
        for (number, edges) in loops.iter().enumerate() {
            self.add(index(number)?, edges)?;
        }
        for (number, edges) in loops.iter().enumerate() {
            self.look(diagrams, loops, index(number)?, edges)?;
        }
        Ok(())
    }

    /// Whether each loop is within another.
    fn into_list(self) -> Vec<bool> {
        let Nested { is_within, .. } = self;
        is_within
    }

    /// Adds a loop.
    fn add(&mut self, number: u32, edges: &[Edge]) -> Result<(), Stop> {
        for edge in edges {
            self.edges.place_of((number, edge.number))?;
        }
        self.is_within.push(false)?;
        match edges.first() {
            Some(first) => self.add_first(number, first.number),
            None => Ok(()),
        }
    }

    /// Notes the first edge of a loop.
    fn add_first(&mut self, number: u32, edge: u32) -> Result<(), Stop> {
        let place = number_of(&mut self.firsts, edge as u64)?;
        self.earlier.set(number, self.last.get(place))?;
        self.last.set(place, number)
    }

    /// Notes which loops are within a loop.
    fn look(
        &mut self,
        diagrams: &mut Diagrams,
        loops: &[Vec<Edge>],
        number: u32,
        edges: &[Edge],
    ) -> Result<(), Stop> {
        let length = edges.len();
        let around = Around { number, length };
        diagrams.take(length)?;
        for edge in edges {
            self.look_at(diagrams, loops, around, edge.number)?;
        }
        Ok(())
    }

    /// Notes which of the loops with a first edge are within a loop.
    fn look_at(
        &mut self,
        diagrams: &mut Diagrams,
        loops: &[Vec<Edge>],
        around: Around,
        edge: u32,
    ) -> Result<(), Stop> {
        let mut number = self.last_with(edge);
        for _ in 0..loops.len() {
            let Some(edges) = loops.get(number as usize) else {
                break;
            };
            if around.is_larger(number, edges) {
                diagrams.take(edges.len())?;
                self.compare(edges, number, around);
            }
            number = self.earlier.get(number);
        }
        Ok(())
    }

    /// The last loop with a first edge, or `NONE`.
    fn last_with(&self, edge: u32) -> u32 {
        match found(&self.firsts, edge as u64) {
            Some(place) => self.last.get(place),
            None => NONE,
        }
    }

    /// Notes that a loop is within another, if it is.
    fn compare(&mut self, edges: &[Edge], number: u32, around: Around) {
        let is_within = edges.iter().all(|edge| self
            .edges
            .find((around.number, edge.number))
            .is_some());
        if is_within && let Some(noted) = self.is_within.get_mut(number as usize) {
            *noted = true;
        }
    }
}
