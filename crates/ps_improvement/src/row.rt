//! The values of plays.

use crate::fuel::Fuel;
use std::alloc::{AllocError, Global};
use std::cmp::Ordering;

/// An entry of a row.
#[derive(Clone, Copy, PartialEq, Eq)]
pub struct Cell {
    /// The priority.
    pub priority: u64,
    /// How often a play meets the priority.
    pub count: u64,
}

/// The priorities that a play meets before it stops, descending, each at least once.
pub type Row = Vec<Cell>;

/// The value of a play for player 0.
#[derive(Clone, Copy)]
pub enum Value<'a> {
    /// The play never stops, which is worth more than any row.
    Endless,
    /// The play stops after the priorities of this row.
    Stops(&'a [Cell]),
}

impl Value<'_> {
    /// The number of cells; 0 for an endless play.
    pub fn cells(self) -> usize {
        match self {
            Value::Endless => 0,
            Value::Stops(row) => row.len(),
        }
    }

    /// Compares what values are worth to player 0.
    pub fn order(self, other: Value<'_>, fuel: &mut Fuel) -> Ordering {
        match (self, other) {
            (Value::Endless, Value::Endless) => Ordering::Equal,
            (Value::Endless, Value::Stops(_)) => Ordering::Greater,
            (Value::Stops(_), Value::Endless) => Ordering::Less,
            (Value::Stops(row), Value::Stops(other)) => order_of_rows(row, other, fuel),
        }
    }
}

/// The first cell in which two rows differ decides.
fn order_of_rows(row: &[Cell], other: &[Cell], fuel: &mut Fuel) -> Ordering {
    let same = row
        .iter()
        .zip(other)
        .take_while(|(cell, beside)| **cell == **beside)
        .count();
    fuel.burn(same);
    match (row.get(same), other.get(same)) {
        (None, None) => Ordering::Equal,
        (Some(cell), None) => worth_of(cell.priority),
        (None, Some(beside)) => worth_of(beside.priority).reverse(),
        (Some(cell), Some(beside)) => order_of_cells(*cell, *beside),
    }
}

/// The cell with the greater priority, or else count, decides: for its row if the priority is even, else against it.
fn order_of_cells(cell: Cell, beside: Cell) -> Ordering {
    match cell.priority.cmp(&beside.priority) {
        Ordering::Greater => worth_of(cell.priority),
        Ordering::Less => worth_of(beside.priority).reverse(),
        Ordering::Equal if cell.count < beside.count => worth_of(cell.priority).reverse(),
        Ordering::Equal => worth_of(cell.priority),
    }
}

/// Whether to meet a priority once more is worth more or less.
fn worth_of(priority: u64) -> Ordering {
    if priority % 2 == 0 {
        Ordering::Greater
    } else {
        Ordering::Less
    }
}

/// A row with one priority met once more: greater priorities, this one, smaller ones.
#[derive(Drop)]
pub struct Raised<'a> {
    front: &'a [Cell],
    cell: Cell,
    rest: &'a [Cell],
}

impl<'a> Raised<'a> {
    /// The row with the priority met once more.
    pub fn of(row: &'a [Cell], priority: u64) -> Raised<'a> {
        let (front, back) = row.split_at(row.partition_point(|cell| cell.priority > priority));
        let (count, rest) = match back.split_first() {
            Some((cell, rest)) if cell.priority == priority => (cell.count, rest),
            _ => (0, back),
        };
        Raised {
            front,
            cell: Cell {
                priority,
                count: count.saturating_add(1),
            },
            rest,
        }
    }

    /// Whether it is worth less than a value.
    pub fn is_below(&self, value: Value<'_>, fuel: &mut Fuel) -> bool {
        match value {
            Value::Endless => true,
            Value::Stops(row) => self.order(row, fuel) == Ordering::Less,
        }
    }

    fn order(&self, other: &[Cell], fuel: &mut Fuel) -> Ordering {
        let (begin, back) = other.split_at(self.front.len().min(other.len()));
        let fronts = order_of_rows(self.front, begin, fuel);
        if fronts != Ordering::Equal {
            return fronts;
        }
        match back.split_first() {
            None => worth_of(self.cell.priority),
            Some((beside, others)) if *beside == self.cell => {
                order_of_rows(self.rest, others, fuel)
            }
            Some((beside, _)) => order_of_cells(self.cell, *beside),
        }
    }

    /// The whole row.
    pub fn row(&self, alloc: Global) -> Result<Row, AllocError> {
        let cells = self.front.len().saturating_add(1);
        let mut row = Vec::with_capacity(alloc, cells.saturating_add(self.rest.len()))?;
        row.extend_from_slice(self.front)?;
        row.push(self.cell)?;
        row.extend_from_slice(self.rest)?;
        Ok(row)
    }
}
