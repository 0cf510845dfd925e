//! The cells of a store, one for each node, and the index (place) of each.

ghost use Rattle.std.specs.Prelude.{◌≡◌, ◌^◌, ◌<◌, [], IfOk, IfSome, Some, length, slice_get, slice_index_or};
ghost use Rattle.ps_diagram.specs.Inner.Packed.{CanPack};
ghost use Rattle.ps_diagram.specs.Inner.Placed.{PlacesCell};
ghost use Rattle.ps_diagram.specs.declared.view.View.TheVariants.{Leaf, Nothing};

use crate::packed::PackedCells;
use crate::view::View;
use std::alloc::{AllocError, Global};
use std::marker::Model;

/// The index of a leaf's cell, if it is not known.
const UNKNOWN: u32 = u32::MAX;

/// Different cells, found by a hash table. Half of those that are looked up are leaves, mostly small numbers, which are
/// found by a table indexed by the leaf.
#[derive(Debug, Drop)]
pub(crate) struct Cells {
    list: PackedCells,
    /// For each small leaf, the index of its cell, or `UNKNOWN`.
    leaves: Vec<u32>,
}

impl Model for Cells {
    ghost use Rattle.std.specs.Prelude.{List};
    ghost use Rattle.ps_diagram.specs.Inner.Placed.{ArePlacesOfLeaves};
    ghost use Rattle.ps_diagram.specs.declared.view.View.{View};

    ghost Value = { List View };

    ghost view = { λ c. c.list };

    ghost invariant = { λ c. ArePlacesOfLeaves c.list c.leaves.items };
}

impl Cells {
    pub(crate) fn new(alloc: Global) -> Self
        ensures { result ≡ [] }
    {
        Cells {
            list: PackedCells::new(alloc),
            leaves: Vec::new(alloc),
        }
    }

    pub(crate) fn copy(&self) -> Result<Self, AllocError>
        ensures { IfOk result (λ cells. cells ≡ self.now) }
    {
        let list = self.list.copy()?;
        let leaves = self.leaves.clone()?;
        Ok(Cells { list, leaves })
    }

    /// The cell at an index.
    #[inline(always)]
    pub(crate) fn at(&self, place: u32) -> View
        requires { place < length self.now }
        ensures { result ≡ slice_index_or self.now place Nothing }
    {
        self.list.at(place)
    }

    pub(crate) fn len(&self) -> usize
        ensures value { result ≡ length self.now }
        ensures few { result < 2 ^ 32 }
    {
        self.list.len()
    }

    /// The index of a cell, which is appended if it is new.
    pub(crate) fn place_of(&mut self, cell: View) -> Result<u32, AllocError>
        requires { CanPack cell }
        ensures { PlacesCell self.old self.new cell result }
    {
        match cell {
            View::Leaf(leaf) => self.place_of_leaf(leaf),
            _ => self.place_by_hash(cell),
        }
    }

    fn place_of_leaf(&mut self, leaf: u64) -> Result<u32, AllocError>
        ensures { PlacesCell self.old self.new (Leaf leaf) result }
    {
        if let Some(place) = self.known(leaf) {
            return Ok(place);
        }
        self.make_room(leaf)?;
        let place = self.place_by_hash(View::Leaf(leaf))?;
        self.note(leaf, place);
        Ok(place)
    }

    fn place_by_hash(&mut self, cell: View) -> Result<u32, AllocError>
        requires { CanPack cell }
        ensures { PlacesCell self.old self.new cell result }
    {
        self.list.place_of(cell)
    }

    /// The index of a leaf's cell, if the table of small leaves has it.
    fn known(&self, leaf: u64) -> Option<u32>
        ensures { IfSome result (λ place. slice_get self.now place ≡ Some (Leaf leaf)) }
    {
        match self.leaves.get(leaf as usize).copied() {
            Some(place) if place != UNKNOWN => Some(place),
            _ => None,
        }
    }

    /// Makes room for a leaf there, unless it is larger than the number of cells.
    fn make_room(&mut self, leaf: u64) -> Result<(), AllocError>
        ensures { self.new ≡ self.old }
    {
        let leaf = leaf as usize;
        if self.leaves.len() <= leaf && leaf <= self.list.len() {
            self.leaves.resize(leaf + 1, UNKNOWN)?;
        }
        Ok(())
    }

    /// Records the index of a leaf's cell there, if there is room.
    fn note(&mut self, leaf: u64, place: u32)
        requires { slice_get self.old place ≡ Some (Leaf leaf) }
        ensures { self.new ≡ self.old }
    {
        let leaf = leaf as usize;
        if leaf < self.leaves.len() && place < UNKNOWN {
            self.leaves[leaf] = place;
        }
    }
}
