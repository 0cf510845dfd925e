//! Topological orders.

ghost use Rattle.std.specs.Prelude.{ℕ, ◌<◌, IfOk, IfSome, IfNone};
ghost use Rattle.ps_components.specs.ComponentLists.{AreComponents, AreAllMet};
ghost use Rattle.ps_components.specs.Orders.{IsArrangement, IsKnot};

use crate::components::{Components, components_of};
use crate::graph::Graph;
use std::alloc::{AllocError, Global};

/// An order of the vertices, or a vertex on a cycle.
#[derive(Drop)]
pub enum Arrangement {
    /// The vertices, each after all to which it has a link.
    Order(Vec<usize>),
    /// The smallest vertex on a cycle, or with a link into its own component, which is the same.
    Cyclic(usize),
}

/// A topological order of the vertices, or the smallest vertex on a cycle. Fails if out of memory.
pub fn arrange<G: Graph>(alloc: Global, graph: &G) -> Result<Arrangement, AllocError>
    ensures { IfOk result (IsArrangement (G.graph graph.now)) }
{
    let components = components_of(alloc, graph)?;
    match first_knot(graph, &components) {
        Some(item) => Ok(Arrangement::Cyclic(item)),
        None => Ok(Arrangement::Order(components.into_order())),
    }
}

fn first_knot<G: Graph>(graph: &G, components: &Components) -> Option<usize>
    requires components { AreComponents (G.graph graph.now) components.now }
    requires met { AreAllMet (G.graph graph.now) components.now }
    ensures none { IfNone result ((i : ℕ) → i < (G.graph graph.now).count →
        ¬ IsKnot (G.graph graph.now) components.now i) }
    ensures knot { IfSome result (IsKnot (G.graph graph.now) components.now) }
    ensures first { IfSome result (λ i. (j : ℕ) → j < i → ¬ IsKnot (G.graph graph.now) components.now j) }
{
    for item in 0..graph.count() {
        let here = components.number(item);
        for place in 0..graph.degree(item) {
            if let Some(to) = graph.target(item, place) {
                let there = components.number(to);
                if there == here {
                    return Some(item);
                }
            }
        }
    }
    None
}
