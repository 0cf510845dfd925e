//! The cells of a store, each in 12 bytes.

ghost use Rattle.std.specs.Prelude.{◌≡◌, ◌^◌, ◌<◌, [], IfOk, length, slice_index_or};
ghost use Rattle.std.specs.Cmp.Rules.{hashing};
ghost use Rattle.std.proofs.Common.{rules};
ghost use Rattle.ps_diagram.specs.Inner.Packed.{packed, view_of, CanPack};
ghost use Rattle.ps_diagram.specs.Inner.Placed.{PlacesCell};
ghost use Rattle.ps_diagram.specs.declared.view.View.TheVariants.{Nothing};

use crate::view::{Node, View};
use ps_keys::{Hashed, KeyList, mixed};
use std::alloc::{AllocError, Global};
use std::marker::Model;

/// Stands for the proposition in a leaf's cell.
const LEAF: u32 = 64;

/// Stands for it in the cell without a leaf.
const NOTHING: u32 = 65;

/// A cell in 12 bytes: a test; `LEAF` and a leaf's lower and upper half; or `NOTHING` and two zeros.
#[derive(Debug, Clone, Copy, PartialEq, Eq)]
struct Packed {
    proposition: u32,
    low: u32,
    high: u32,
}

impl Packed {
    #[inline(always)]
    fn of(cell: View) -> Self
        ensures { result ≡ packed cell }
    {
        match cell {
            View::Nothing => Packed {
                proposition: NOTHING,
                low: 0,
                high: 0,
            },
            View::Leaf(leaf) => Packed {
                proposition: LEAF,
                low: (leaf % (1 << 32)) as u32,
                high: (leaf >> 32) as u32,
            },
            View::Test {
                proposition,
                low,
                high,
            } => Packed {
                proposition,
                low: low.place,
                high: high.place,
            },
        }
    }

    #[inline(always)]
    fn view(self) -> View
        ensures { result ≡ view_of self }
    {
        match self.proposition {
            NOTHING => View::Nothing,
            LEAF => View::Leaf(self.high as u64 * (1 << 32) + self.low as u64),
            proposition => View::Test {
                proposition,
                low: Node { place: self.low },
                high: Node { place: self.high },
            },
        }
    }
}

/// A test is hashed by its two nodes, with the proposition in the low bits of the first.
impl Hashed for Packed {
    ghost use Rattle.ps_diagram.specs.Inner.Packed.{hash_of};

    ghost hash = { hash_of };

    ghost alike = { Prim.search (hashing, rules) };

    #[inline(always)]
    fn hash(&self, seed: u64) -> u64 {
        let first = (self.low as u64 * 128).wrapping_add(self.proposition as u64);
        mixed(seed, first, self.high as u64)
    }
}

/// Different cells, found by a hash table.
#[derive(Debug, Drop)]
pub(crate) struct PackedCells {
    list: KeyList<Packed>,
}

impl Model for PackedCells {
    ghost use Rattle.std.specs.Prelude.{List, map};
    ghost use Rattle.ps_diagram.specs.Inner.Packed.{ArePacked, view_of};
    ghost use Rattle.ps_diagram.specs.declared.view.View.{View};

    ghost Value = { List View };

    ghost view = { λ c. map view_of c.list };

    ghost invariant = { λ c. ArePacked c.list };
}

impl PackedCells {
    pub(crate) fn new(alloc: Global) -> Self
        ensures { result ≡ [] }
    {
        PackedCells {
            list: KeyList::new(alloc),
        }
    }

    pub(crate) fn copy(&self) -> Result<Self, AllocError>
        ensures { IfOk result (λ cells. cells ≡ self.now) }
    {
        let list = self.list.copy()?;
        Ok(PackedCells { list })
    }

    #[inline(always)]
    pub(crate) fn at(&self, place: u32) -> View
        requires { place < length self.now }
        ensures { result ≡ slice_index_or self.now place Nothing }
    {
        self.list.as_slice()[place as usize].view()
    }

    #[inline(always)]
    pub(crate) fn len(&self) -> usize
        ensures value { result ≡ length self.now }
        ensures few { result < 2 ^ 32 }
    {
        self.list.len()
    }

    /// The index of a cell, which is appended if it is new.
    #[inline(always)]
    pub(crate) fn place_of(&mut self, cell: View) -> Result<u32, AllocError>
        requires { CanPack cell }
        ensures { PlacesCell self.old self.new cell result }
    {
        let place = self.list.place_of(Packed::of(cell))?;
        self.list.keys_are_few();
        Ok(place as u32)
    }
}
