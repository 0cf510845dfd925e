//! Parsed solutions.

use ps_game::{Region, Strategy};
use std::marker::Model;

/// Who is said to win each vertex of a game, and by which move.
#[derive(Drop)]
pub struct Solution {
    /// The vertices said to be won by player 0; the others, by player 1.
    pub won: Region,
    /// The move at each vertex, or none; it may be there even if the winner does not own the vertex.
    pub moves: Strategy,
}

impl Model for Solution {
    ghost use Rattle.ps_solution.specs.Solved.{SolutionData};

    ghost Value = { SolutionData };

    ghost view = { λ s. record { won = s.won; moves = s.moves } };
}
