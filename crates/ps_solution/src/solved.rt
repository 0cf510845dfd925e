//! The entries that were read.

ghost use Rattle.std.specs.Prelude.{◌≡◌, ◌<◌, ◌↔◌, length, IfOk, IfSome, IsTrue};
ghost use Rattle.ps_game.specs.Regions.{has};
ghost use Rattle.ps_solution.specs.Solved.{none_solved, with_entry, AreMoves, IsFilled, solution_of};

use crate::solution::Solution;
use ps_game::{Player, Region, Strategy};
use std::alloc::{AllocError, Global};
use std::marker::Model;

/// Which vertices have an entry, which of these player 0 wins, and their moves.
#[derive(Drop)]
pub(crate) struct Solved {
    named: Region,
    won: Region,
    moves: Strategy,
}

impl Model for Solved {
    ghost use Rattle.ps_solution.specs.Solved.{SolvedData, AreTables};

    ghost Value = { SolvedData };

    ghost view = { λ s. record { named = s.named; won = s.won; moves = s.moves } };

    ghost invariant = { λ s. AreTables (record { named = s.named; won = s.won; moves = s.moves }) };
}

impl Solved {
    /// No entries.
    pub(crate) fn new(alloc: Global, vertices: usize) -> Result<Self, AllocError>
        ensures { IfOk result (λ solved. solved ≡ none_solved vertices) }
    {
        Ok(Solved {
            named: Region::empty(alloc, vertices)?,
            won: Region::empty(alloc, vertices)?,
            moves: Strategy::empty(alloc, vertices)?,
        })
    }

    /// Whether a vertex has an entry.
    pub(crate) fn has(&self, vertex: usize) -> bool
        requires { vertex < length self.now.named }
        ensures { result ≡ has self.now.named vertex }
    {
        self.named.contains(vertex)
    }

    /// Adds an entry.
    pub(crate) fn name(&mut self, vertex: usize, winner: Player, choice: Option<usize>)
        requires vertex { vertex < length self.old.named }
        requires choice { IfSome choice (λ successor. successor < length self.old.named) }
        ensures { self.new ≡ with_entry self.old vertex winner choice }
    {
        self.named.insert(vertex);
        if winner == Player::EVEN {
            self.won.insert(vertex);
        }
        if let Some(successor) = choice {
            self.moves.set(vertex, successor);
        }
    }

    /// Whether every vertex has an entry.
    pub(crate) fn is_whole(&self) -> bool
        ensures { IsTrue result ↔ IsFilled self.now }
    {
        for vertex in 0..self.named.places() {
            if !self.named.contains(vertex) {
                return false;
            }
        }
        true
    }

    /// The solution of these entries.
    pub(crate) fn into_solution(self) -> Solution
        ensures value { result ≡ solution_of self }
        ensures won { length result.won ≡ length self.named }
        ensures moves { length result.moves ≡ length self.named }
        ensures within { AreMoves (length self.named) result.moves }
    {
        let Solved {
            named: _,
            won,
            moves,
        } = self;
        Solution { won, moves }
    }
}
