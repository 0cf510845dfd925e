//! Games as flat arrays.

ghost use Rattle.std.specs.Prelude.{◌≡◌, ◌↔◌, ◌+◌, ◌-◌, ◌^◌, ◌≤◌, ◌<◌, ◌++◌, IfOk, OnOk, IsTrue, map, min, length};
ghost use Rattle.std.specs.List.{All};
ghost use Rattle.ps_game.specs.Games.{ParityGame, vertex_count, owner_of, priority_of, successors_of};
ghost use Rattle.ps_game.specs.Drafts.{NoneUnknown};
ghost use Rattle.ps_game.specs.Flat.{AreOffsets, FitsWithin, all_successors, edge_count};

use crate::arenas::Arena;
use crate::games::Game;
use crate::numbers::Numbers;
use crate::widths::Width;
use std::alloc::{AllocError, Global};
use std::marker::Model;

/// A parity game in four arrays: owners, priorities, the successors of all vertices, and the offset of each vertex's
/// successors. With `u32`, it takes 13 bytes a vertex and 4 an edge, and is faster to read than a `Game`.
#[derive(Drop)]
pub struct FlatGame<W: Width> {
    pub(crate) offsets: Numbers<W>,
    pub(crate) successors: Numbers<W>,
    pub(crate) owners: Vec<u8>,
    pub(crate) priorities: Vec<u64>,
}

impl<W: Width> Model for FlatGame<W> {
    ghost use Rattle.ps_game.specs.Games.{ParityGame};
    ghost use Rattle.ps_game.specs.Flat.{game_in, AreFlat};

    ghost Value = { ParityGame };

    ghost view = { λ g. game_in g.offsets g.successors g.owners.items g.priorities.items };

    ghost invariant = { λ g. AreFlat g.offsets g.successors g.owners.items g.priorities.items };
}

impl<W: Width> FlatGame<W> {
    /// Copies a game, in time proportional to the number of vertices and edges. Fails if out of memory.
    pub fn of(alloc: Global, game: &Game) -> Result<FlatGame<W>, AllocError>
        requires { FitsWithin game.now W.LIMIT }
        ensures { IfOk result (λ flat. flat ≡ game.now) }
    {
        game.flat.in_width(alloc)
    }

    fn edges(&self) -> usize
        ensures { result ≡ edge_count self.now }
    {
        self.successors.len()
    }

    /// The same game in integers of the type `V`.
    fn in_width<V: Width>(&self, alloc: Global) -> Result<FlatGame<V>, AllocError>
        requires { FitsWithin self.now V.LIMIT }
        ensures { IfOk result (λ flat. flat ≡ self.now) }
    {
        let offsets = self.offsets.in_width(alloc)?;
        let successors = self.successors.in_width(alloc)?;
        let owners = self.owners.to_vec(alloc)?;
        let priorities = self.priorities.to_vec(alloc)?;
        Ok(FlatGame {
            offsets,
            successors,
            owners,
            priorities,
        })
    }
}

impl<W: Width> Arena for FlatGame<W> {
    ghost game = { λ g. g };

    fn count(&self) -> usize {
        self.owners.len()
    }

    fn owner(&self, vertex: usize) -> u8 {
        self.owners[vertex]
    }

    fn priority(&self, vertex: usize) -> u64 {
        self.priorities[vertex]
    }

    fn degree(&self, vertex: usize) -> usize {
        self.offsets.at(vertex + 1) - self.offsets.at(vertex)
    }

    fn successor(&self, vertex: usize, number: usize) -> usize {
        self.successors.at(self.offsets.at(vertex) + number)
    }
}

/// Whether 4 bytes can hold the numbers of vertices and of edges.
pub fn fits_narrow(game: &Game) -> bool
    ensures { IsTrue result ↔ ((vertex_count game.now ≤ 2 ^ 32 - 1) × (edge_count game.now ≤ 2 ^ 32 - 1)) }
{
    let limit = u32::MAX as usize;
    game.flat.count() <= limit && game.flat.edges() <= limit
}
