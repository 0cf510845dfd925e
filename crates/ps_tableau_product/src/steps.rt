//! The steps from given latches with a cover.

ghost use Rattle.std.specs.Prelude.{◌≡◌, ◌≤◌, All, IfOk, length};
ghost use Rattle.ps_diagram.specs.Table.{IsNode, Keeps};
ghost use Rattle.ps_product.specs.Truths.{IsTruth};
ghost use Rattle.ps_tableau_product.specs.Inner.Views.{AreEdgesAt, AreServed, CanTell};

use crate::views::View;
use ps_diagram::{Node, Store};
use ps_product::{Edge, Vertex, bits_of};
use std::alloc::{AllocError, Global};

impl View {
    /// Letters for which a guard serves, one for each value of the next latches. Fails if out of memory.
    pub(crate) fn served(
        &mut self,
        guards: &Store,
        guard: Node,
    ) -> Result<Vec<(u64, u64)>, AllocError>
        requires view { CanTell self.old.store self.old.nodes.items self.old.nexts.items self.old.classes }
        requires guards { guards.now.propositions ≤ 64 }
        requires guard { IsNode guards.now guard }
        ensures keeps { Keeps self.old.store self.new.store }
        ensures nodes { self.new.nodes ≡ self.old.nodes }
        ensures nexts { self.new.nexts ≡ self.old.nexts }
        ensures classes { self.new.classes ≡ self.old.classes }
        ensures served { IfOk result (λ found. AreServed self.new.store self.old.nodes.items self.old.nexts.items
            guards.now guard found.items) }
    {
        let composed = self.store.composed_from(guards, guard, &self.nodes)?;
        let none = self.store.none()?;
        let node = self.store.choose(composed, self.classes, none)?;
        self.store.leaves(node)
    }

    /// The edges at the given letters, in their order, to the next latches and the given state. Fails if out of memory.
    pub(crate) fn edges_at(
        &self,
        alloc: Global,
        letters: &[(u64, u64)],
        state: u32,
    ) -> Result<Vec<Edge>, AllocError>
        requires { All (IsTruth self.now.store) self.now.nexts.items }
        ensures { IfOk result (λ edges. AreEdgesAt self.now.store self.now.nexts.items letters.now state edges.items) }
    {
        let mut edges = Vec::new(alloc);
        for (_, letter) in letters {
            let latches = bits_of(alloc, &self.store, &self.nexts, *letter)?;
            let to = Vertex {
                latches,
                state,
                priority: 0,
            };
            edges.push(Edge {
                to,
                letter: *letter,
            })?;
        }
        Ok(edges)
    }
}
