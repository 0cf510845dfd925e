//! The game that is solved.

ghost use Rattle.std.specs.Prelude.{◌≡◌, ◌<◌, ℕ, All, IfOk, length};
ghost use Rattle.ps_attractor.specs.Room.{HasRoom};
ghost use Rattle.ps_attractor.specs.Sources.{sources_of};
ghost use Rattle.ps_game.specs.Games.{vertex_count};

use ps_attractor::{Edges, Sources};
use ps_components::{Components, components_of};
use ps_game::Arena;
use std::alloc::{AllocError, Global};

/// A game, its predecessors and its strongly connected components.
#[derive(Drop)]
pub struct Ground<'a, A: Arena> {
    /// The game.
    pub arena: &'a A,
    sources: Sources<usize>,
    components: Components,
    ghost turned: { length sources ≡ vertex_count (A.game arena.now) },
    ghost sources_within: { (v : ℕ) → All (λ u. u < vertex_count (A.game arena.now)) (sources_of sources v) },
    ghost numbered: { length components.numbers ≡ vertex_count (A.game arena.now) },
    ghost order_within: { All (λ v. v < vertex_count (A.game arena.now)) components.order },
}

impl<'a, A: Arena> Ground<'a, A> {
    /// Computes these of a game. Fails if out of memory.
    pub fn of(alloc: Global, arena: &'a A) -> Result<Ground<'a, A>, AllocError>
        requires { HasRoom (A.game arena.now) usize.MAX }
        ensures { IfOk result (λ ground. A.game ground.arena.now ≡ A.game arena.now) }
    {
        Ok(Ground {
            arena,
            sources: Sources::of(alloc, arena)?,
            components: components_of(alloc, &Edges { arena })?,
        })
    }

    /// The vertices by components, each after the others to which its edges lead.
    pub fn order(&self) -> &[usize]
        ensures { All (λ v. v < vertex_count (A.game self.now.arena.now)) result.now }
    {
        self.components.order()
    }

    /// Whether two vertices are in one component.
    pub fn is_one_part(&self, vertex: usize, other: usize) -> bool
        requires vertex { vertex < vertex_count (A.game self.now.arena.now) }
        requires other { other < vertex_count (A.game self.now.arena.now) }
    {
        self.components.number(vertex) == self.components.number(other)
    }

    /// The predecessors of a vertex.
    pub fn sources(&self, vertex: usize) -> &[usize]
        requires { vertex < vertex_count (A.game self.now.arena.now) }
        ensures { All (λ v. v < vertex_count (A.game self.now.arena.now)) result.now }
    {
        self.sources.at(vertex)
    }
}
