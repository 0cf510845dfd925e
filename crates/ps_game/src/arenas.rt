//! How solvers and checkers read a game.

ghost use Rattle.std.specs.Prelude.{◌≡◌, ◌<◌, length, slice_index};
ghost use Rattle.ps_game.specs.Games.{ParityGame, IsGame, vertex_count, owner_of, priority_of, successors_of};

/// A parity game, whatever its data structure. No method allocates memory.
pub trait Arena {
    /// In clauses, the parity game that the value represents.
    ghost game: { Self → ParityGame };

    /// The number of vertices, which are numbered from 0.
    fn count(&self) -> usize
        ensures vertices { result ≡ vertex_count (game self.now) }
        ensures well_formed { IsGame (game self.now) };

    /// The player who moves at a vertex, 0 or 1.
    fn owner(&self, vertex: usize) -> u8
        requires { vertex < vertex_count (game self.now) }
        ensures { result ≡ owner_of (game self.now) vertex };

    /// The priority of a vertex.
    fn priority(&self, vertex: usize) -> u64
        requires { vertex < vertex_count (game self.now) }
        ensures { result ≡ priority_of (game self.now) vertex };

    /// The number of successors of a vertex.
    fn degree(&self, vertex: usize) -> usize
        requires { vertex < vertex_count (game self.now) }
        ensures { result ≡ length (successors_of (game self.now) vertex) };

    /// A successor, by its index in the list of the vertex's successors.
    fn successor(&self, vertex: usize, number: usize) -> usize
        requires vertex { vertex < vertex_count (game self.now) }
        requires number { number < length (successors_of (game self.now) vertex) }
        ensures { result ≡ slice_index (successors_of (game self.now) vertex) number };
}
