//! The two players.

ghost use Rattle.std.specs.Prelude.{◌≡◌, ◌%◌, ◌↔◌, ◌<◌, IsTrue};
ghost use Rattle.ps_game.specs.Games.{vertex_count, owner_of};
ghost use Rattle.ps_game.specs.Plays.{other_player};

use crate::arenas::Arena;
use std::marker::Model;

#[derive(Clone, Copy)]
enum Parity {
    Even,
    Odd,
}

/// A player: player 0 wins the loops of even priority, and player 1 those of odd priority.
#[derive(Clone, Copy)]
pub struct Player {
    wins: Parity,
}

impl Model for Player {
    ghost use Rattle.std.specs.Prelude.{ℕ};

    ghost Value = { ℕ };

    ghost use Rattle.ps_game.specs.Players.{number_of, parity_of, player_of-number};

    ghost view = { λ player. number_of player.wins };

    ghost inverse = { λ number. record { wins = parity_of number } };

    ghost inverse_ok = { λ player _. player_of-number player };
}

impl PartialEq for Player {
    ghost use Rattle.std.specs.Prelude.{◌==◌};
    ghost use Rattle.std.proofs.Common.{rules};
    ghost use Rattle.std.specs.Cmp.Rules.{comparing};

    ghost eq = { λ player other. player == other };

    ghost laws = { Prim.search (comparing, rules) };

    fn eq(&self, other: &Player) -> bool {
        self.number() == other.number()
    }
}

impl Player {
    /// Player 0.
    pub const EVEN: Player = Player { wins: Parity::Even };

    /// Player 1.
    pub const ODD: Player = Player { wins: Parity::Odd };

    /// The player with this number, 0 or 1.
    pub fn of_number(number: u8) -> Player
        requires { number < 2 }
        ensures { result ≡ number }
    {
        if number == 0 {
            Player::EVEN
        } else {
            Player::ODD
        }
    }

    /// The player who wins a loop of this priority.
    pub fn of_priority(priority: u64) -> Player
        ensures { result ≡ priority % 2 }
    {
        if priority % 2 == 0 {
            Player::EVEN
        } else {
            Player::ODD
        }
    }

    /// The player's number, 0 or 1.
    pub fn number(self) -> u8
        ensures number { result ≡ self }
        ensures player { result < 2 }
    {
        match self.wins {
            Parity::Even => 0,
            Parity::Odd => 1,
        }
    }

    /// The other player.
    pub fn opponent(self) -> Player
        ensures { result ≡ other_player self }
    {
        match self.wins {
            Parity::Even => Player::ODD,
            Parity::Odd => Player::EVEN,
        }
    }

    /// Whether the player moves at a vertex.
    pub fn owns<A: Arena>(self, arena: &A, vertex: usize) -> bool
        requires { vertex < vertex_count (A.game arena.now) }
        ensures { IsTrue result ↔ (owner_of (A.game arena.now) vertex ≡ self) }
    {
        arena.owner(vertex) == self.number()
    }
}
