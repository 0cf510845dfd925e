//! Graphs of numbered vertices.

ghost use Rattle.std.specs.Prelude.{◌≡◌, ◌<◌, IfSome};
ghost use Rattle.ps_components.specs.Graphs.{Digraph, LinksStayWithin};

/// A directed graph whose vertices are numbered from 0. Each has numbered slots, with a target or empty. A link leads
/// from a vertex to the target of one of its slots.
pub trait Graph {
    /// In clauses, the graph that the value represents.
    ghost graph: { Self → Digraph };

    /// The number of vertices.
    fn count(&self) -> usize
        ensures count { result ≡ (graph self.now).count }
        ensures within { LinksStayWithin (graph self.now) };

    /// The number of slots of a vertex, empty or not.
    fn degree(&self, item: usize) -> usize
        requires { item < (graph self.now).count }
        ensures { result ≡ (graph self.now).degree item };

    /// The target in a slot, if it has one.
    fn target(&self, item: usize, place: usize) -> Option<usize>
        requires item { item < (graph self.now).count }
        requires place { place < (graph self.now).degree item }
        ensures target { result ≡ (graph self.now).target item place }
        ensures within { IfSome result (λ to. to < (graph self.now).count) };
}
