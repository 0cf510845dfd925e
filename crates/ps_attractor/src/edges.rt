//! The edges of a game as the links of a graph.

ghost use Rattle.ps_attractor.specs.Graphs.{edge_graph};

use ps_components::Graph;
use ps_game::Arena;

/// The graph whose links are the edges of a game.
#[derive(Drop)]
pub struct Edges<'a, A: Arena> {
    /// The game.
    pub arena: &'a A,
}

impl<'a, A: Arena> Graph for Edges<'a, A> {
    ghost graph = { λ e. edge_graph (A.game e.arena.now) };

    fn count(&self) -> usize {
        self.arena.count()
    }

    fn degree(&self, item: usize) -> usize {
        self.arena.degree(item)
    }

    fn target(&self, item: usize, place: usize) -> Option<usize> {
        let _vertices = self.arena.count();
        Some(self.arena.successor(item, place))
    }
}
