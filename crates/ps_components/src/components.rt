//! The components of a graph.

ghost use Rattle.std.specs.Prelude.{◌≡◌, ◌<◌, [], length, slice_get, Some, IfOk, OnOk, OnErr, All};
ghost use Rattle.ps_components.specs.ComponentLists.{AreComponents, AreMet, AreAllMet};

use crate::graph::Graph;
use crate::search::Search;
use crate::statuses::Status;
use std::alloc::{AllocError, Global};
use std::marker::Model;

/// The strongly connected components of the visited vertices of a graph. A component's number is the index at which it
/// begins in `order`. One `Components` can serve several graphs in turn, and keeps its memory.
#[derive(Drop)]
pub struct Components {
    search: Search,
}

impl Model for Components {
    ghost use Rattle.std.specs.Prelude.{map};
    ghost use Rattle.ps_components.specs.ComponentLists.{ComponentsData};
    ghost use Rattle.ps_components.specs.Searching.{component_of, AreListed};

    ghost Value = { ComponentsData };

    ghost view = { λ c. record {
      numbers = map component_of c.search.statuses;
      order = c.search.order.items;
    } };

    ghost invariant = { λ c. AreListed c.search.statuses c.search.order.items };
}

impl Components {
    /// No components.
    pub fn new(alloc: Global) -> Self
        ensures numbers { result.numbers ≡ [] }
        ensures order { result.order ≡ [] }
    {
        Components {
            search: Search::empty(alloc),
        }
    }

    /// Replaces the components by those of the roots and of all vertices reachable from them, after time proportional
    /// to the old ones' vertices. Fails if out of memory, and then has no components.
    pub fn renew<G: Graph>(&mut self, graph: &G, roots: &[usize]) -> Result<(), AllocError>
        requires { All (λ v. v < (G.graph graph.now).count) roots.now }
        ensures components { OnOk result (AreComponents (G.graph graph.now) self.new) }
        ensures met { OnOk result (AreMet (G.graph graph.now) roots.now self.new) }
        ensures none { OnErr result (self.new.order ≡ []) }
    {
        match self.search.again(graph, roots) {
            Ok(()) => Ok(()),
            Err(error) => {
                self.search.forget();
                Err(error)
            }
        }
    }

    /// The number of a vertex's component, if the vertex was visited.
    pub fn number(&self, item: usize) -> Option<usize>
        requires { item < length self.now.numbers }
        ensures { slice_get self.now.numbers item ≡ Some result }
    {
        match self.search.statuses.at(item) {
            Status::Closed(number) => Some(number),
            _ => None,
        }
    }

    /// The visited vertices, component by component, each after the others to which it has links.
    pub fn order(&self) -> &[usize]
        ensures { result.now ≡ self.now.order }
    {
        &self.search.order
    }

    /// What `order` lists.
    pub fn into_order(self) -> Vec<usize>
        ensures { result.items ≡ self.order }
    {
        self.search.order
    }
}

/// The strongly connected components of all vertices. Fails if out of memory.
pub fn components_of<G: Graph>(alloc: Global, graph: &G) -> Result<Components, AllocError>
    ensures components { IfOk result (AreComponents (G.graph graph.now)) }
    ensures met { IfOk result (AreAllMet (G.graph graph.now)) }
{
    let mut search = Search::new(alloc, graph)?;
    for item in 0..graph.count() {
        search.visit(graph, item)?;
    }
    Ok(Components { search })
}

/// The components of the roots and of all vertices reachable from them. Fails if out of memory.
pub fn components_from<G: Graph>(
    alloc: Global,
    graph: &G,
    roots: &[usize],
) -> Result<Components, AllocError>
    requires { All (λ v. v < (G.graph graph.now).count) roots.now }
    ensures components { IfOk result (AreComponents (G.graph graph.now)) }
    ensures met { IfOk result (AreMet (G.graph graph.now) roots.now) }
{
    let mut components = Components::new(alloc);
    components.renew(graph, roots)?;
    Ok(components)
}
