//! The attractor within a subgame.

ghost use Rattle.std.specs.Prelude.{◌≡◌, ◌≢◌, ◌+◌, ◌<◌, ◌≤◌, ℕ, List, [], Bool, false, IfOk, OnOk, IsSome, IsTrue};
ghost use Rattle.std.specs.Prelude.{length, slice_index};
ghost use Rattle.ps_game.specs.Games.{IsGame, vertex_count, owner_of};
ghost use Rattle.ps_game.specs.Subgames.{IsWithin, IsSubgame};
ghost use Rattle.ps_game.specs.Attractors.{IsClosedUnderAttraction, Falls, IsLeastClosed};
ghost use Rattle.ps_game.specs.Regions.{has, move_at};
ghost use Rattle.ps_attractor.specs.Tables.{FitsGame, level_of, place_in};
ghost use Rattle.ps_attractor.specs.Aims.{StandsFrom};
ghost use Rattle.ps_attractor.specs.Room.{HasRoom};
ghost use Rattle.ps_attractor.specs.Results.{IsGoal, AreAttracted, AreLaidOut, IsAttractor, IsReadOff, IsRegionTo};
ghost use Rattle.ps_attractor.specs.Results.{AreMovesTo, AreReadable, rank_at};

use crate::aim::Aim;
use crate::room::{has_room, no_room};
use crate::sources::Adjacency;
use crate::tables::Tables;
use ps_game::{Arena, Player, Region, Strategy, Subgame, Width};
use std::alloc::{AllocError, Global};

/// The level outside the subgame.
const OUTSIDE: usize = 0;

/// The level of attracted vertices.
const PLACED: usize = 1;

/// The level of the others in the subgame.
const FREE: usize = 2;

/// An attractor, with moves and ranks.
#[derive(Drop)]
pub struct Attracted {
    /// The vertices from which the player can force every play to the target.
    pub region: Region,
    /// A move at each vertex of the player in `region` outside the target.
    pub moves: Strategy,
    /// A rank for each vertex of `region`, which outside the target falls along the player's moves and along every edge
    /// of the other player within the subgame.
    pub rank: Vec<usize>,
}

/// The attractor of a player to a target within a subgame: the least set that contains the target, the player's
/// vertices with an edge into it, and the other player's whose edges within the subgame all lead there. Fails if out of
/// memory, and always for games with 2^63 - 2 vertices or more, or 2^64 edges or more.
pub fn attract<A: Arena>(
    alloc: Global,
    arena: &A,
    subgame: &Subgame,
    player: Player,
    target: &Region,
) -> Result<Attracted, AllocError>
    requires subgame { IsSubgame (A.game arena.now) (has subgame.now) }
    requires target { IsWithin (has target.now) (has subgame.now) }
    requires subgame_places { length subgame.now ≡ vertex_count (A.game arena.now) }
    requires target_places { length target.now ≡ vertex_count (A.game arena.now) }
    ensures places { IfOk result (λ attracted. length attracted.region ≡ vertex_count (A.game arena.now)) }
    ensures move_places { IfOk result (λ attracted. length attracted.moves ≡ vertex_count (A.game arena.now)) }
    ensures rank_places { IfOk result (λ attracted. length attracted.rank.items ≡ vertex_count (A.game arena.now)) }
    ensures within { IfOk result (λ attracted. IsWithin (has attracted.region) (has subgame.now)) }
    ensures closed { IfOk result (λ attracted.
        IsClosedUnderAttraction (A.game arena.now) (has subgame.now) player (has target.now) (has attracted.region)) }
    ensures least { IfOk result (λ attracted.
        IsLeastClosed (A.game arena.now) (has subgame.now) player (has target.now) (has attracted.region)) }
    ensures moves { IfOk result (λ attracted. (v : ℕ) → IsSome (move_at attracted.moves v) →
        IsTrue (has attracted.region v) × (owner_of (A.game arena.now) v ≡ player) × (has target.now v ≡ false)) }
    ensures falls { IfOk result (λ attracted. Falls (A.game arena.now) (has subgame.now) player (has target.now)
        (has attracted.region) (move_at attracted.moves) (rank_at attracted.rank.items)) }
{
    if has_room::<A, u32>(arena) {
        attract_in::<A, u32>(alloc, arena, subgame, player, target)
    } else if has_room::<A, usize>(arena) {
        attract_in::<A, usize>(alloc, arena, subgame, player, target)
    } else {
        Err(no_room(alloc))
    }
}

fn attract_in<A: Arena, W: Width>(
    alloc: Global,
    arena: &A,
    subgame: &Subgame,
    player: Player,
    target: &Region,
) -> Result<Attracted, AllocError>
    requires room { HasRoom (A.game arena.now) W.LIMIT }
    requires goal { IsGoal (A.game arena.now) subgame.now target.now }
    ensures { IfOk result (IsAttractor (A.game arena.now) player subgame.now target.now) }
{
    let edges = Adjacency::<A, W>::of(alloc, arena)?;
    let tables = attracted_tables(alloc, &edges, subgame, player, target)?;
    read_off(alloc, arena, &tables, player, target)
}

fn read_off<A: Arena, W: Width>(
    alloc: Global,
    arena: &A,
    tables: &Tables<W>,
    player: Player,
    target: &Region,
) -> Result<Attracted, AllocError>
    requires { AreReadable (A.game arena.now) tables.now target.now }
    ensures { IfOk result (IsReadOff (A.game arena.now) tables.now player target.now) }
{
    let region = placed_region(alloc, tables, arena.count())?;
    let moves = placed_moves(alloc, arena, tables, player, target)?;
    let rank = first_places(alloc, tables, arena.count())?;
    Ok(Attracted {
        region,
        moves,
        rank,
    })
}

fn attracted_tables<A: Arena, W: Width>(
    alloc: Global,
    edges: &Adjacency<'_, A, W>,
    subgame: &Subgame,
    player: Player,
    target: &Region,
) -> Result<Tables<W>, AllocError>
    requires { IsGoal (A.game edges.now.arena.now) subgame.now target.now }
    ensures fits { IfOk result (FitsGame (A.game edges.now.arena.now)) }
    ensures attracted { IfOk result (AreAttracted (A.game edges.now.arena.now) player subgame.now target.now) }
{
    let mut tables = laid_out(alloc, edges.arena.count(), subgame.region(), target)?;
    let aim = Aim {
        player,
        begin: 0,
        level: PLACED,
        free: FREE,
    };
    tables.attract(edges, aim)?;
    Ok(tables)
}

/// Tables whose trail is the target.
fn laid_out<W: Width>(
    alloc: Global,
    count: usize,
    subgame: &Region,
    target: &Region,
) -> Result<Tables<W>, AllocError>
    requires room { count + 2 < W.LIMIT }
    requires subgame { length subgame.now ≡ count }
    requires target { length target.now ≡ count }
    ensures levels { IfOk result (λ tables. length tables.level ≡ count) }
    ensures moves { IfOk result (λ tables. length tables.moves ≡ count) }
    ensures laid_out { IfOk result (AreLaidOut subgame.now target.now count) }
{
    let mut tables = Tables::new(alloc, count, OUTSIDE)?;
    for vertex in 0..count {
        if target.contains(vertex) {
            tables.place(vertex, PLACED)?;
        } else if subgame.contains(vertex) {
            tables.set_level(vertex, FREE);
        }
    }
    Ok(tables)
}

fn placed_region<W: Width>(
    alloc: Global,
    tables: &Tables<W>,
    count: usize,
) -> Result<Region, AllocError>
    requires { length tables.now.level ≡ count }
    ensures places { IfOk result (λ region. length region ≡ count) }
    ensures placed { IfOk result (IsRegionTo tables.now count) }
{
    let mut region = Region::empty(alloc, count)?;
    for vertex in 0..count {
        if tables.level(vertex) == PLACED {
            region.insert(vertex);
        }
    }
    Ok(region)
}

/// The player's moves outside the target.
fn placed_moves<A: Arena, W: Width>(
    alloc: Global,
    arena: &A,
    tables: &Tables<W>,
    player: Player,
    target: &Region,
) -> Result<Strategy, AllocError>
    requires { AreReadable (A.game arena.now) tables.now target.now }
    ensures places { IfOk result (λ moves. length moves ≡ vertex_count (A.game arena.now)) }
    ensures given { IfOk result (AreMovesTo (A.game arena.now) tables.now player target.now
        (vertex_count (A.game arena.now))) }
{
    let count = arena.count();
    let mut moves = Strategy::empty(alloc, count)?;
    for vertex in 0..count {
        let placed = tables.level(vertex) == PLACED;
        if placed && player.owns(arena, vertex) && !target.contains(vertex) {
            moves.set(vertex, tables.chosen(vertex));
        }
    }
    Ok(moves)
}

/// The first index of each vertex in the trail, its rank.
fn first_places<W: Width>(
    alloc: Global,
    tables: &Tables<W>,
    count: usize,
) -> Result<Vec<usize>, AllocError>
    requires { (j : ℕ) → j < length tables.now.trail → slice_index tables.now.trail j < count }
    ensures places { IfOk result (λ places. length places.items ≡ count) }
    ensures first { IfOk result (λ places. (v : ℕ) → StandsFrom tables.now 0 v →
        slice_index places.items v ≡ place_in tables.now.trail v) }
{
    let mut places = vec![in alloc; 0; count]?;
    for place in (0..tables.placed()).rev() {
        places[tables.vertex_at(place)] = place;
    }
    Ok(places)
}
