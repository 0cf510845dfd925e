//! The classes of letters.

ghost use Rattle.std.specs.Prelude.{◌≡◌, ◌<◌, ℕ, IfOk, IsSome, None, Some, nat_eq};
ghost use Rattle.indexmap.specs.IndexMap.{get};

use indexmap::IndexMap;
use ps_diagram::{Classes, Store};
use std::alloc::{AllocError, Global};

/// The classes of the first player's letters at some states: those of one class lead to the same steps.
#[derive(Drop)]
pub struct Divided {
    /// The store of the classes' diagrams, which also has those of the automaton's steps.
    pub store: Store,
    /// The classes of each state where they were computed.
    pub classes: IndexMap<u32, Classes>,
}

impl Divided {
    /// No classes. The store begins as a copy of the automaton's, so that what remains of its diagrams after a letter
    /// is mostly there already.
    pub(crate) fn new(alloc: Global, store: &Store) -> Result<Self, AllocError>
        ensures store { IfOk result (λ made. made.store ≡ store.now) }
        ensures none { IfOk result (λ made. (q : ℕ) → get nat_eq made.classes q ≡ None) }
    {
        Ok(Divided {
            store: store.copy()?,
            classes: IndexMap::new(alloc),
        })
    }

    /// The classes that have been computed for a state.
    pub fn of(&self, state: u32) -> &Classes
        requires { IsSome (get nat_eq self.now.classes state) }
        ensures { get nat_eq self.now.classes state ≡ Some result.now }
    {
        self.classes.get(&state).unwrap()
    }
}
