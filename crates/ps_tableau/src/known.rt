//! Covers of sets of formulas, kept.

ghost use Rattle.std.specs.Prelude.{◌≡◌, IfOk, Some, slice_get};
ghost use Rattle.ps_tableau.specs.Boards.{AreKnown, HasCovers, formulas_in};
ghost use Rattle.ps_tableau.specs.Sets.{IsSet};
ghost use Rattle.ps_tableau.specs.declared.board.Board.{Board};

use crate::edge::Edge;
use crate::set::Set;
use ps_keys::KeyList;
use std::alloc::{AllocError, Global};

/// Sets, and the covers of each.
#[derive(Debug, Drop)]
pub(crate) struct Known {
    pub sets: KeyList<Set>,
    pub covers: Vec<Vec<Edge>>,
}

impl Known {
    /// No sets.
    pub(crate) fn new(alloc: Global) -> Self
        ensures { (b : Board) → AreKnown b result }
    {
        Known {
            sets: KeyList::new(alloc),
            covers: Vec::new(alloc),
        }
    }

    /// The place of a set, whose covers are added if it is new.
    pub(crate) fn add(&mut self, set: Set, covers: Vec<Edge>) -> Result<usize, AllocError>
        ensures known { (b : Board) → AreKnown b self.old → IsSet b.sets set →
            HasCovers b (formulas_in b set) covers.items → AreKnown b self.new }
        ensures place { IfOk result (λ place. slice_get self.new.sets place ≡ Some set) }
    {
        self.covers.reserve(1)?;
        let place = self.sets.place_of(set)?;
        if place == self.covers.len() {
            self.covers.push_reserved(covers);
        }
        Ok(place)
    }
}
