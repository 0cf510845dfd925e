//! Finds a cycle that a player loses, in a game in which only the other player moves.

ghost use Rattle.std.specs.Prelude.{◌≡◌, ◌<◌, ◌≤◌, ℕ, length, slice_index, IfNone, IfOk, IfSome};
ghost use Rattle.ps_game.specs.Games.{IsGame, owner_of, vertex_count};
ghost use Rattle.ps_game.specs.Plays.{other_player};
ghost use Rattle.ps_verify.specs.Inner.Rounds.{IsLostRound, IsTurned, WinsLoops};

use ps_game::{Arena, Counts, Game, Player, Region, Strategy};
use ps_measure::{MeasureFault, ranks};
use std::alloc::{AllocError, Global};

/// A cycle of edges whose greatest priority has the opponent's parity, if there is one. The cycle begins with its
/// smallest vertex. Fails if memory runs out.
pub(crate) fn lost_cycle(
    alloc: Global,
    game: &Game,
    player: Player,
) -> Result<Option<Vec<usize>>, AllocError>
    requires owners { (v : ℕ) → v < vertex_count game.now → owner_of game.now v ≡ other_player player }
    ensures is_game { IsGame game.now }
    ensures none { IfOk result (λ found. IfNone found (WinsLoops game.now player)) }
    ensures cycle { IfOk result (λ found. IfSome found (λ cycle. IsLostRound game.now player cycle.items)) }
{
    let _number = player.number();
    let region = Region::full(alloc, game.count())?;
    let strategy = Strategy::empty(alloc, game.count())?;
    let mut counts = Counts::default();
    match ranks(alloc, game, player, &region, &strategy, &mut counts) {
        Ok(_ranks) => Ok(None),
        Err(MeasureFault::BadCycle { cycle }) => Ok(Some(turned(cycle))),
        Err(MeasureFault::OutOfMemory) => Err(AllocError),
    }
}

/// The given cycle, rotated so that it begins with its smallest vertex.
fn turned(mut cycle: Vec<usize>) -> Vec<usize>
    requires { 0 < length cycle.items }
    ensures { IsTurned cycle.items result.items }
{
    let place = place_of_least(&cycle);
    cycle.rotate_left(place);
    cycle
}

/// The index of the smallest vertex.
fn place_of_least(vertices: &[usize]) -> usize
    requires { 0 < length vertices.now }
    ensures within { result < length vertices.now }
    ensures least { (k : ℕ) → k < length vertices.now →
        slice_index vertices.now result ≤ slice_index vertices.now k }
{
    let mut least = 0;
    for (place, vertex) in vertices.iter().enumerate() {
        if *vertex < vertices[least] {
            least = place;
        }
    }
    least
}
