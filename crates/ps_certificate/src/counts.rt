//! The counts of an entry that is being made.

ghost use Rattle.std.specs.Prelude.{◌≡◌, ◌++◌, ◌∷◌, ◌-◌, ◌<◌, ◌≤◌, ◌^◌, ◌+◌, [], length, replicate, IfOk, OnOk};

use crate::row::Row;
use ps_game::NonzeroCount;
use std::alloc::{AllocError, Global};
use std::marker::Model;

/// A growing list of counts, stored as in a `Row`.
#[derive(Debug, Drop)]
pub(crate) struct Counts {
    width: usize,
    placed: Vec<NonzeroCount>,
}

impl Model for Counts {
    ghost use Rattle.std.specs.Prelude.{ℕ, List};
    ghost use Rattle.ps_certificate.specs.Sparse.{dense_row, IsRow};

    ghost Value = { List ℕ };

    ghost view = { λ counts. dense_row counts.width counts.placed.items };

    ghost invariant = { λ counts. IsRow counts.width counts.placed.items };
}

impl Counts {
    pub(crate) fn new(alloc: Global) -> Self
        ensures { result ≡ [] }
    {
        Counts {
            width: 0,
            placed: Vec::new(alloc),
        }
    }

    pub(crate) fn of(alloc: Global, list: &[u64]) -> Result<Self, AllocError>
        ensures { IfOk result (λ counts. counts ≡ list.now) }
    {
        let mut counts = Counts::new(alloc);
        for count in list {
            counts.push(*count)?;
        }
        Ok(counts)
    }

    pub(crate) fn clear(&mut self)
        ensures { self.new ≡ [] }
    {
        self.placed.clear();
        self.width = 0;
    }

    pub(crate) fn push(&mut self, count: u64) -> Result<(), AllocError>
        requires { length self.old + 1 < 2 ^ 64 }
        ensures { OnOk result (self.new ≡ self.old ++ count ∷ []) }
    {
        let place = self.width;
        if count != 0 {
            self.placed.push(NonzeroCount { place, count })?;
        }
        self.width = place + 1;
        Ok(())
    }

    /// Appends zeros until there are `width` counts.
    pub(crate) fn extend(&mut self, width: usize)
        requires { length self.old ≤ width }
        ensures { self.new ≡ self.old ++ replicate (width - length self.old) 0 }
    {
        self.width = width;
    }

    pub(crate) fn row(&self) -> Row<'_>
        ensures { result ≡ self.now }
    {
        Row::of(self.width, &self.placed)
    }
}
