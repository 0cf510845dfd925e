//! What stays the same while the product of a circuit and a tableau is explored.

ghost use Rattle.std.specs.Prelude.{◌≡◌, ◌≤◌, IfOk, length, map};
ghost use Rattle.ps_circuit.specs.Values.{resets};
ghost use Rattle.ps_hoa.specs.Memory.{bytes_of};
ghost use Rattle.ps_product.specs.Roles.{AreRoles};
ghost use Rattle.ps_simulate.specs.Symbols.{AreDistinct};

use ps_circuit::Circuit;
use ps_diagram::Store;
use ps_product::{Roles, Vertex};
use std::alloc::{AllocError, Global};

/// A store with more nodes than this is replaced by an empty one before the next vertex is explored.
const MANY: usize = 1 << 12;

/// The product to be explored, without its tableau.
#[derive(Clone, Copy)]
pub struct Plan<'a> {
    /// The allocator.
    pub alloc: Global,
    /// The circuit.
    pub circuit: &'a Circuit,
    /// The names of the propositions.
    pub names: &'a [Vec<u8>],
    /// The propositions of the circuit's inputs and outputs.
    pub roles: &'a Roles,
    ghost few: { length names.now ≤ 64 },
    ghost distinct: { AreDistinct (map bytes_of names.now) },
    ghost cast: { ∥ AreRoles (map bytes_of names.now) circuit.now roles.now ∥₁ },
}

impl<'a> Plan<'a> {
    /// The first vertex of the product: the reset values of the latches, and the initial state.
    pub(crate) fn first(self) -> Result<Vertex, AllocError>
        ensures latches { IfOk result (λ v. v.latches.items ≡ resets self.entry.circuit.now) }
        ensures state { IfOk result (λ v. v.state ≡ 0) }
        ensures priority { IfOk result (λ v. v.priority ≡ 0) }
    {
        let latches = self
            .circuit
            .latches()
            .iter()
            .map(|latch| latch.reset)
            .collect(self.alloc)?;
        Ok(Vertex {
            latches,
            state: 0,
            priority: 0,
        })
    }

    /// An empty store for diagrams over the propositions.
    pub(crate) fn store(self) -> Store
        ensures { result.propositions ≡ length self.entry.names.now }
    {
        Store::new(self.alloc, self.names.len() as u32)
    }

    /// The store, or an empty one if the store has many nodes.
    pub(crate) fn renewed(self, store: Store) -> Store
        requires { store.propositions ≡ length self.names.now }
        ensures { result.propositions ≡ length self.entry.names.now }
    {
        if store.len() <= MANY {
            store
        } else {
            self.store()
        }
    }
}
