//! The indices of vertices by their ids.

ghost use Rattle.std.specs.Prelude.{◌≡◌, ◌==◌, ◌<◌, ◌↔◌, IsTrue, IfOk, is_some, length, position, slice_index};
ghost use Rattle.std.specs.List.{list_any};
ghost use Rattle.ps_ids.specs.Ids.{AreDistinct};
ghost use Rattle.ps_game.specs.Drafts.{AreOwn};

use crate::text::ids_of;
use ps_game::{Arena, NamedGame};
use ps_ids::Ids;
use std::alloc::{AllocError, Global};
use std::marker::Model;

/// The ids of a game's vertices. In most games each is the vertex's own index; then no table is stored.
#[derive(Drop)]
pub(crate) struct Places<'a> {
    game: &'a NamedGame,
    /// The index of each id; none if each id is its vertex's index.
    table: Option<Ids>,
}

impl<'a> Model for Places<'a> {
    ghost use Rattle.std.specs.Prelude.{List, ℕ};
    ghost use Rattle.ps_certificate.specs.Inner.Places.{AreFound};

    ghost Value = { List ℕ };

    ghost view = { λ p. p.game.now.ids };

    ghost invariant = { λ p. AreFound p.game.now.ids p.table };
}

impl<'a> Places<'a> {
    pub(crate) fn of(alloc: Global, game: &'a NamedGame) -> Result<Self, AllocError>
        ensures { IfOk result (λ places. places ≡ game.now.ids) }
    {
        if are_own(game) {
            return Ok(Places { game, table: None });
        }
        let ids = ids_of(alloc, game)?;
        Ok(Places {
            game,
            table: Some(ids),
        })
    }

    /// The index of the vertex with an id, if there is one.
    #[inline(always)]
    pub(crate) fn place(&self, id: u64) -> Option<usize>
        ensures place { result ≡ position (λ other. id == other) self.now }
        ensures member { is_some result ≡ list_any (λ other. id == other) self.now }
    {
        if self.is_own(id) {
            return Some(id as usize);
        }
        match &self.table {
            Some(ids) => ids.place(id),
            None => None,
        }
    }

    #[inline(always)]
    fn is_own(&self, id: u64) -> bool
        ensures own { IsTrue result ↔ ((id < length self.now) × (slice_index self.now id ≡ id)) }
        ensures differ { AreDistinct self.now }
    {
        let game = self.game;
        id < game.game().count() as u64 && game.id(id as usize) == id
    }
}

fn are_own(game: &NamedGame) -> bool
    ensures { IsTrue result ↔ AreOwn game.now.ids }
{
    for vertex in 0..game.game().count() {
        if game.id(vertex) != vertex as u64 {
            return false;
        }
    }
    true
}
