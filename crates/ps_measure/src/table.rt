//! The computed counts of all vertices.

ghost use Rattle.std.specs.Prelude.{◌≡◌, ℕ, ◌<◌, ◌≤◌, [], Some, IfOk, OnOk, length, max, slice_get, slice_index};
ghost use Rattle.std.specs.Prelude.{slice_index_or};
ghost use Rattle.ps_game.specs.Nonzero.{nonzero_from};
ghost use Rattle.ps_measure.specs.Ranks.{count_of, width_of};
ghost use Rattle.ps_measure.specs.Tables.{AreZero, AreChained, HasPut, count_from};

use crate::packed::{Packable, Packed, narrow};
use ps_game::NonzeroCount;
use std::alloc::{AllocError, Global};
use std::marker::Model;

/// A cell of a linked list: a count of a vertex, the index of its priority, and the number of the vertex's next cell.
/// Cells are numbered from 1; 0 means none.
#[derive(Clone, Copy, Debug)]
pub struct CountCell {
    pub(crate) place: usize,
    pub(crate) count: u64,
    pub(crate) next: usize,
}

/// A cell whose numbers all fit in 4 bytes.
#[derive(Clone, Copy, Debug)]
pub struct NarrowCount {
    place: u32,
    count: u32,
    next: u32,
}

impl Packable for CountCell {
    ghost use Rattle.ps_measure.specs.Inner.Cells.{count_cell_of, no_count};

    type Narrow = NarrowCount;

    ghost value = { count_cell_of };

    ghost zero = { no_count };

    fn narrowed(self) -> Option<NarrowCount> {
        Some(NarrowCount {
            place: narrow(self.place)?,
            count: narrow(self.count as usize)?,
            next: narrow(self.next)?,
        })
    }

    fn of(narrow: NarrowCount) -> CountCell {
        CountCell {
            place: narrow.place as usize,
            count: u64::from(narrow.count),
            next: narrow.next as usize,
        }
    }
}

/// A row of counts for each vertex. Only nonzero counts take memory, in a linked list of cells by falling index.
#[derive(Debug, Drop)]
pub struct CountTable {
    width: usize,
    heads: Packed<usize>,
    cells: Packed<CountCell>,
}

impl Model for CountTable {
    ghost use Rattle.std.specs.Prelude.{List, ℕ};
    ghost use Rattle.ps_measure.specs.Tables.{rows_in, AreHeaded};

    ghost Value = { List (List ℕ) };

    ghost view = { λ t. rows_in t.width t.heads t.cells };

    ghost invariant = { λ t. AreHeaded t.width t.heads t.cells };
}

impl CountTable {
    pub(crate) fn new(alloc: Global, count: usize, width: usize) -> Result<Self, AllocError>
        ensures { IfOk result (λ table. AreZero table count width) }
    {
        Ok(CountTable {
            width,
            heads: Packed::zeros(alloc, count)?,
            cells: Packed::new(alloc),
        })
    }

    /// The number of rows, one for each vertex.
    pub fn len(&self) -> usize
        ensures { result ≡ length self.now }
    {
        self.heads.len()
    }

    /// The number of counts in each row, zeros included.
    pub fn width(&self) -> usize
        ensures { (v : ℕ) → v < length self.now → width_of self.now v ≡ result }
    {
        self.width
    }

    /// Raises one count of a vertex. Those at this index and all later ones must be 0.
    pub(crate) fn put(&mut self, vertex: usize, place: usize, count: u64) -> Result<(), AllocError>
        requires vertex { vertex < length self.old }
        requires place { place < width_of self.old vertex }
        requires later { (k : ℕ) → place ≤ k → count_of self.old vertex k ≡ 0 }
        requires some { 0 < count }
        ensures { OnOk result (HasPut self.old self.new vertex place count) }
    {
        let next = self.heads.at(vertex);
        self.cells.push(CountCell { place, count, next })?;
        self.heads.set(vertex, self.cells.len())
    }

    /// Replaces a list by the counts of a vertex, one for each priority. Fails if out of memory.
    pub fn row_into(&self, vertex: usize, row: &mut Vec<u64>) -> Result<(), AllocError>
        requires { vertex < length self.now }
        ensures { OnOk result (slice_get self.now vertex ≡ Some row.new.items) }
    {
        row.clear();
        row.resize(self.width, 0)?;
        raise_by(&self.cells, self.heads.at(vertex), row);
        Ok(())
    }

    /// Replaces a list by the nonzero counts of a vertex, by ascending index. Fails if out of memory.
    pub fn nonzero_into(
        &self,
        vertex: usize,
        list: &mut Vec<NonzeroCount>,
    ) -> Result<(), AllocError>
        requires { vertex < length self.now }
        ensures { OnOk result (list.new.items ≡ nonzero_from 0 (slice_index_or self.now vertex [])) }
    {
        list.clear();
        let mut next = self.heads.at(vertex);
        while next > 0 {
            let cell = self.cells.at(next - 1);
            list.push(NonzeroCount {
                place: cell.place,
                count: cell.count,
            })?;
            next = cell.next;
        }
        list.reverse();
        Ok(())
    }
}

/// Raises each count of a row to the one that the list from the cell `head` has for its index, if that is larger.
fn raise_by(cells: &Packed<CountCell>, head: usize, row: &mut Vec<u64>)
    requires chained { AreChained (length row.old.items) cells.now }
    requires head { head ≤ length cells.now }
    ensures long { length row.new.items ≡ length row.old.items }
    ensures raised { (k : ℕ) → k < length row.old.items → slice_index row.new.items k ≡ max
        (slice_index row.old.items k) (count_from cells.now head head k) }
{
    let mut next = head;
    while next > 0 {
        let cell = cells.at(next - 1);
        if row[cell.place] < cell.count {
            row[cell.place] = cell.count;
        }
        next = cell.next;
    }
}

/// The priorities by which a player loses, and the counts of each vertex for them.
#[derive(Debug, Drop)]
pub struct Ranks {
    /// The priorities of the game by which the player loses, ascending.
    pub priorities: Vec<u64>,
    /// For each vertex, one count for each of `priorities`, in their order.
    pub counts: CountTable,
}
