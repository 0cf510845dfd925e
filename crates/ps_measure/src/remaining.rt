//! The edges that remain within a region when a player moves by a table.

ghost use Rattle.std.specs.Prelude.{◌≡◌, ◌<◌};
ghost use Rattle.ps_game.specs.Games.{vertex_count};
ghost use Rattle.ps_measure.specs.Inner.Remaining.{remaining_graph, may_remain};

use ps_components::Graph;
use ps_game::{Arena, Player, Region, Strategy};
use std::marker::Model;

/// The edges that remain for a player within a region.
#[derive(Drop)]
pub(crate) struct Remaining<'a, A: Arena> {
    pub(crate) arena: &'a A,
    pub(crate) player: Player,
    pub(crate) region: &'a Region,
    pub(crate) strategy: &'a Strategy,
}

impl<'a, A: Arena> Model for Remaining<'a, A> {
    ghost use Rattle.ps_measure.specs.Inner.Remaining.{RemainingData, IsRemaining};

    ghost Value = { RemainingData };

    ghost view = { λ r. record {
      game = A.game r.arena.now;
      player = r.player;
      region = r.region.now;
      strategy = r.strategy.now;
    } };

    ghost invariant = { λ r. IsRemaining (record {
      game = A.game r.arena.now;
      player = r.player;
      region = r.region.now;
      strategy = r.strategy.now;
    }) };
}

impl<'a, A: Arena> Remaining<'a, A> {
    /// Whether an edge remains, if the game has it.
    fn keeps(&self, from: usize, to: usize) -> bool
        requires from { from < vertex_count self.now.game }
        requires to { to < vertex_count self.now.game }
        ensures { result ≡ may_remain self.now from to }
    {
        self.region.contains(from)
            && self.region.contains(to)
            && (!self.player.owns(self.arena, from) || self.strategy.get(from) == Some(to))
    }
}

impl<'a, A: Arena> Graph for Remaining<'a, A> {
    ghost graph = { λ r. remaining_graph r };

    fn count(&self) -> usize {
        self.arena.count()
    }

    fn degree(&self, item: usize) -> usize {
        if self.region.contains(item) {
            self.arena.degree(item)
        } else {
            0
        }
    }

    fn target(&self, item: usize, place: usize) -> Option<usize> {
        let _vertices = self.arena.count();
        let to = self.arena.successor(item, place);
        if self.keeps(item, to) { Some(to) } else { None }
    }
}
