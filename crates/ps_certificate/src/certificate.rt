//! Certificates.

ghost use Rattle.std.specs.Prelude.{◌≡◌, ℕ, ◌<◌, length, Option, slice_index};
ghost use Rattle.ps_certificate.specs.Certificates.{CertificateData, winner_of, choice_of, counts_of, opposing};

use crate::entries::Entries;
use crate::row::Row;
use ps_game::Player;
use std::marker::Model;

/// Who wins each vertex of a game, by which moves, and the counts that prove it.
#[derive(Debug, Drop)]
pub struct Certificate {
    /// The odd priorities of the game, ascending: those by which player 0 loses.
    pub odd: Vec<u64>,
    /// The even priorities of the game, ascending: those by which player 1 loses.
    pub even: Vec<u64>,
    /// One entry for each vertex of the game.
    pub entries: Entries,
}

impl Model for Certificate {
    ghost Value = { CertificateData };

    ghost view = { λ certificate. record {
      odd = certificate.odd.items;
      even = certificate.even.items;
      entries = certificate.entries;
    } };
}

#[tactic(auto, unfolding(crate::specs::Certificates::winner_of, crate::specs::Certificates::choice_of, crate::specs::Certificates::counts_of, crate::specs::Certificates::opposing))]
impl Certificate {
    /// The winner of a vertex.
    pub fn winner(&self, vertex: usize) -> u8
        requires { vertex < length self.now.entries }
        ensures { result ≡ winner_of self.now vertex }
    {
        self.entries.winner(vertex)
    }

    /// The move of a vertex.
    pub fn choice(&self, vertex: usize) -> Option<usize>
        requires { vertex < length self.now.entries }
        ensures { result ≡ choice_of self.now vertex }
    {
        self.entries.choice(vertex)
    }

    /// The counts of a vertex.
    pub fn counts(&self, vertex: usize) -> Row<'_>
        requires { vertex < length self.now.entries }
        ensures { result ≡ counts_of self.now vertex }
    {
        self.entries.counts(vertex)
    }

    /// The priorities that oppose a player: those of the opponent's parity, ascending.
    pub fn opposing(&self, player: Player) -> &[u64]
        ensures { result.now ≡ opposing self.now player }
    {
        if player == Player::EVEN {
            self.odd.as_slice()
        } else {
            self.even.as_slice()
        }
    }
}
