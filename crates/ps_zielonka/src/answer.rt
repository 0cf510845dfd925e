//! What follows once every vertex is decided.

ghost use Rattle.std.specs.Prelude.{◌≡◌, IfOk, length};
ghost use Rattle.ps_game.specs.Games.{vertex_count};
ghost use Rattle.ps_zielonka.specs.Answers.{IsWonRegionTo, AreWinningMovesTo};

use ps_attractor::Tables;
use ps_game::{Arena, Player, Region, Strategy, Width};
use std::alloc::{AllocError, Global};

/// The vertices that player 0 wins.
pub fn region_of(alloc: Global, winner: &[Player]) -> Result<Region, AllocError>
    ensures places { IfOk result (λ region. length region ≡ length winner.now) }
    ensures won { IfOk result (IsWonRegionTo winner.now (length winner.now)) }
{
    let mut region = Region::empty(alloc, winner.len())?;
    for (vertex, player) in winner.iter().enumerate() {
        if *player == Player::EVEN {
            region.insert(vertex);
        }
    }
    Ok(region)
}

/// The moves of a player at the vertices that it owns and wins.
pub fn strategy_of<A: Arena, W: Width>(
    alloc: Global,
    arena: &A,
    tables: &Tables<W>,
    winner: &[Player],
    player: Player,
) -> Result<Strategy, AllocError>
    requires moves { length tables.now.moves ≡ vertex_count (A.game arena.now) }
    requires winners { length winner.now ≡ vertex_count (A.game arena.now) }
    ensures places { IfOk result (λ strategy. length strategy ≡ vertex_count (A.game arena.now)) }
    ensures given { IfOk result (AreWinningMovesTo (A.game arena.now) tables.now.moves winner.now player
        (vertex_count (A.game arena.now))) }
{
    let count = arena.count();
    let mut strategy = Strategy::empty(alloc, count)?;
    for vertex in 0..count {
        if winner[vertex] == player && player.owns(arena, vertex) {
            strategy.set(vertex, tables.chosen(vertex));
        }
    }
    Ok(strategy)
}
