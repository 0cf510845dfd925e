//! Positional strategies.

ghost use Rattle.std.specs.Prelude.{◌≡◌, ◌<◌, IfOk, Some, None, length, replicate, slice_set};
ghost use Rattle.ps_game.specs.Regions.{move_at};

use crate::regions::Region;
use std::alloc::{AllocError, Global};
use std::marker::Model;

/// A move, or none, for each vertex. Since every number can be a move, the vertices that have one are a set of their
/// own.
#[derive(Drop)]
pub struct Strategy {
    chosen: Region,
    moves: Vec<usize>,
}

impl Model for Strategy {
    ghost use Rattle.std.specs.Prelude.{◌≡◌, List, Option, ℕ, length};
    ghost use Rattle.ps_game.specs.Moves.{moves_of};

    ghost Value = { List (Option ℕ) };

    ghost view = { λ s. moves_of s.chosen s.moves.items };

    ghost invariant = { λ s. length s.chosen ≡ length s.moves.items };
}

impl Strategy {
    /// A table without moves. Fails if out of memory.
    pub fn empty(alloc: Global, places: usize) -> Result<Strategy, AllocError>
        ensures { IfOk result (λ strategy. strategy ≡ replicate places None) }
    {
        let chosen = Region::empty(alloc, places)?;
        let moves = vec![in alloc; 0; places]?;
        Ok(Strategy { chosen, moves })
    }

    /// The number of vertices that can have a move.
    pub fn places(&self) -> usize
        ensures { result ≡ length self.now }
    {
        self.moves.len()
    }

    /// The move at a vertex, if there is one.
    pub fn get(&self, vertex: usize) -> Option<usize>
        requires { vertex < length self.now }
        ensures { result ≡ move_at self.now vertex }
    {
        if self.chosen.contains(vertex) {
            Some(self.moves[vertex])
        } else {
            None
        }
    }

    /// Sets the move at a vertex.
    pub fn set(&mut self, vertex: usize, successor: usize)
        requires { vertex < length self.old }
        ensures { self.new ≡ slice_set self.old vertex (Some successor) }
    {
        self.chosen.insert(vertex);
        self.moves[vertex] = successor;
    }
}
