//! The variables that have been evaluated.

ghost use Rattle.std.specs.Prelude.{◌≡◌, ℕ, ◌<◌, length, slice_index_or, slice_set, IfOk, None, Some};
ghost use Rattle.ps_product.specs.Inner.Knowing.{IsForgotten};

use crate::truth::Truth;
use std::alloc::{AllocError, Global};
use std::marker::Model;

/// A truth, which is valid if its stamp is the table's.
#[derive(Clone, Copy)]
struct Entry {
    stamp: u32,
    truth: Truth,
}

/// Never valid.
const FORGOTTEN: Entry = Entry {
    stamp: 0,
    truth: Truth::Never,
};

/// The truth of each variable, by its index (place), if it has been computed. A new stamp makes the table forget all
/// entries in constant time.
#[derive(Drop)]
pub(crate) struct Known {
    entries: Vec<Entry>,
    stamp: u32,
}

impl Model for Known {
    ghost use Rattle.std.specs.Prelude.{List, Option, All, ◌≤◌, map};
    ghost use Rattle.ps_product.specs.Inner.Entries.{truth_in};
    ghost use Rattle.ps_product.specs.declared.truth.Truth.{Truth};

    ghost Value = { List (Option Truth) };

    ghost view = { λ k. map (truth_in k.stamp) k.entries.items };

    ghost invariant = { λ k. All (λ e. e.stamp ≤ k.stamp) k.entries.items };
}

impl Known {
    /// A table without valid entries.
    pub fn new(alloc: Global, places: usize) -> Result<Self, AllocError>
        ensures size { IfOk result (λ known. length known ≡ places) }
        ensures none { IfOk result IsForgotten }
    {
        let entries = vec![in alloc; FORGOTTEN; places]?;
        Ok(Known { entries, stamp: 1 })
    }

    /// The truth of a variable, if it has been computed.
    pub fn get(&self, place: u32) -> Option<Truth>
        requires { place < length self.now }
        ensures { result ≡ slice_index_or self.now place None }
    {
        let entry = self.entries[place as usize];
        if entry.stamp == self.stamp {
            Some(entry.truth)
        } else {
            None
        }
    }

    /// Records the truth of a variable.
    pub fn put(&mut self, place: u32, truth: Truth)
        requires { place < length self.old }
        ensures { self.new ≡ slice_set self.old place (Some truth) }
    {
        let stamp = self.stamp;
        self.entries[place as usize] = Entry { stamp, truth };
    }

    /// Forgets all entries.
    pub fn forget(&mut self)
        ensures size { length self.new ≡ length self.old }
        ensures none { IsForgotten self.new }
    {
        if self.stamp == u32::MAX {
            self.entries.fill(FORGOTTEN);
            self.stamp = 0;
        }
        self.stamp += 1;
    }
}
