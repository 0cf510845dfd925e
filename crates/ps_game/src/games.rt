//! Games as lists of vertices.

ghost use Rattle.ps_game.specs.Games.{ParityGame, IsGame};

use crate::arenas::Arena;
use crate::flat::FlatGame;
use std::marker::Model;

/// A parity game: a list of vertices, each with a list of successors. It is stored in flat arrays of 8-byte numbers.
#[derive(Drop)]
pub struct Game {
    pub(crate) flat: FlatGame<usize>,
}

impl Model for Game {
    ghost Value = { ParityGame };

    ghost view = { λ g. g.flat };

    ghost invariant = { λ g. IsGame g.flat };
}

impl Arena for Game {
    ghost game = { λ g. g };

    fn count(&self) -> usize {
        self.flat.count()
    }

    fn owner(&self, vertex: usize) -> u8 {
        self.flat.owner(vertex)
    }

    fn priority(&self, vertex: usize) -> u64 {
        self.flat.priority(vertex)
    }

    fn degree(&self, vertex: usize) -> usize {
        self.flat.degree(vertex)
    }

    fn successor(&self, vertex: usize, number: usize) -> usize {
        self.flat.successor(vertex, number)
    }
}
