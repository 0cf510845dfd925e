//! A component as a graph.

ghost use Rattle.std.specs.Prelude.{◌≡◌, ◌<◌, None, length, slice_index_or};
ghost use Rattle.ps_fairness.specs.Inner.Inside.{inner_graph, is_number};

use ps_components::{Components, Graph};

/// A graph with the edges that lead into one component alone.
#[derive(Drop)]
pub(crate) struct Inner<'a, G: Graph> {
    pub(crate) graph: &'a G,
    pub(crate) components: &'a Components,
    pub(crate) number: usize,
    ghost counted: { length components.now.numbers ≡ (G.graph graph.now).count },
}

impl<'a, G: Graph> Graph for Inner<'a, G> {
    ghost graph = { λ i. inner_graph (G.graph i.graph.now) i.components.now i.number };

    fn count(&self) -> usize {
        self.graph.count()
    }

    fn degree(&self, item: usize) -> usize {
        self.graph.degree(item)
    }

    fn target(&self, item: usize, place: usize) -> Option<usize> {
        let to = self.graph.target(item, place)?;
        if is_in(self.components, to, self.number) {
            Some(to)
        } else {
            None
        }
    }
}

/// Whether a vertex is in the component.
pub(crate) fn is_in(components: &Components, vertex: usize, number: usize) -> bool
    requires { vertex < length components.now.numbers }
    ensures { result ≡ is_number (slice_index_or components.now.numbers vertex None) number }
{
    match components.number(vertex) {
        Some(own) => own == number,
        None => false,
    }
}
