//! Attractors of a small game, the same regions in each data structure, and how much work a solver reports.

use ps_attractor::{Attracted, attract};
use ps_game::{Arena, Counts, FlatGame, Game, Player, Region, Strategy, Subgame, fits_narrow};
use ps_measure::{MeasureFault, ranks};
use ps_pgsolver::read;
use ps_zielonka::regions;
use std::alloc::{AllocError, Global};
use std::test::Fail;

/// Vertex 0 belongs to player 0 and leads to 1 and 2, vertex 1 belongs to player 1 and leads to 0 and 3. Vertices 2 and
/// 3 lead to themselves.
const FORK: &[u8] = b"0 0 0 1,2; 1 0 1 0,3; 2 0 1 2; 3 0 0 3;";

/// 0 leads to 1, 1 leads to itself, and 2 leads to itself and to 0. Player 1 wins all.
const LOOPS: &[u8] = b"0 2 0 1; 1 1 1 1; 2 1 0 2,0;";

/// Games that player 0 wins, that player 1 wins, and that both win in part.
const GAMES: [&[u8]; 6] = [
    b"0 0 1 1,2; 1 0 0 3; 2 0 0 4,3; 3 2 1 1,2; 4 1 1 5; 5 0 0 4,3;",
    b"0 0 1 1; 1 0 0 2,3; 2 0 1 4,5; 3 0 1 6,7; 4 0 0 2,3; 5 0 0 8; 6 0 0 8; 7 0 0 2,3; 8 1 1 9; 9 0 0 8;",
    b"parity 1; 0 1 0 0,1; 1 2 0 0;",
    b"0 1 0 1,2; 1 1 0 0; 2 1 0 0;",
    b"7 4294967295 0 7; 4294967295 4294967295 1 4294967295;",
    LOOPS,
];

fn has_just(region: &Region, vertices: &[usize]) -> bool {
    for &vertex in vertices {
        if vertex >= region.places() || !region.contains(vertex) {
            return false;
        }
    }
    region.count() == vertices.len()
}

fn has_moves(strategy: &Strategy, wanted: &[Option<usize>]) -> bool {
    if strategy.places() != wanted.len() {
        return false;
    }
    for (vertex, &choice) in wanted.iter().enumerate() {
        if strategy.get(vertex) != choice {
            return false;
        }
    }
    true
}

/// The attractor to these vertices, within the whole arena.
fn attract_to<A: Arena>(
    alloc: Global,
    arena: &A,
    player: Player,
    vertices: &[usize],
) -> Result<Attracted, AllocError> {
    let mut target = Region::empty(alloc, arena.count())?;
    for &vertex in vertices {
        if vertex < target.places() {
            target.insert(vertex);
        }
    }
    let subgame = Subgame::whole(alloc, arena)?;
    attract(alloc, arena, &subgame, player, &target)
}

/// Whether a player's attractor to these vertices of `FORK` has the wanted vertices and moves.
fn attracts(
    alloc: Global,
    player: Player,
    vertices: &[usize],
    wanted: &[usize],
    moves: &[Option<usize>],
) -> bool {
    let Ok(named) = read(alloc, FORK) else {
        return false;
    };
    match attract_to(alloc, named.game(), player, vertices) {
        Ok(found) => has_just(&found.region, wanted) && has_moves(&found.moves, moves),
        Err(_) => false,
    }
}

#[test]
fn attractors(rt: HostRuntime) {
    let along_an_edge = [Some(2), None, None, None];
    assert!(rt;
        attracts(
            rt.alloc(),
            Player::EVEN,
            &[2, 3],
            &[0, 1, 2, 3],
            &along_an_edge
        )
    );
    let alone = [None, None, None, None];
    assert!(rt; attracts(rt.alloc(), Player::EVEN, &[3], &[3], &alone));
}

/// Player 0's region, in whatever data structure the game is.
fn won_in<A: Arena>(alloc: Global, arena: &A) -> Result<Region, AllocError> {
    let (won, _, _) = regions(alloc, arena, &mut Counts::default())?;
    Ok(won)
}

fn are_same(one: &Region, other: &Region) -> bool {
    if one.places() != other.places() {
        return false;
    }
    for vertex in 0..one.places() {
        if one.contains(vertex) != other.contains(vertex) {
            return false;
        }
    }
    true
}

/// Whether the region is the same in flat arrays of 4-byte numbers.
fn is_same_narrow(alloc: Global, game: &Game, won: &Region) -> Result<bool, AllocError> {
    if !fits_narrow(game) {
        return Ok(false);
    }
    let narrow = FlatGame::<u32>::of(alloc, game)?;
    Ok(are_same(&won_in(alloc, &narrow)?, won))
}

/// The same of 8-byte numbers.
fn is_same_wide(alloc: Global, game: &Game, won: &Region) -> Result<bool, AllocError> {
    let wide = FlatGame::<usize>::of(alloc, game)?;
    Ok(are_same(&won_in(alloc, &wide)?, won))
}

fn has_one_region(alloc: Global, game: &Game) -> Result<bool, AllocError> {
    let won = won_in(alloc, game)?;
    Ok(is_same_narrow(alloc, game, &won)? && is_same_wide(alloc, game, &won)?)
}

fn is_solved_alike(alloc: Global, text: &[u8]) -> Result<bool, Fail> {
    let named = read(alloc, text)?;
    Ok(has_one_region(alloc, named.game())?)
}

#[test]
fn arrays_of_each_width_have_the_same_regions(rt: HostRuntime) -> Result<(), Fail> {
    for text in GAMES {
        assert!(rt; is_solved_alike(rt.alloc(), text)?);
    }
    Ok(())
}

/// Has the counts of player 1 raised, whose region are all vertices.
fn raise(
    alloc: Global,
    game: &Game,
    strategy: &Strategy,
    counts: &mut Counts,
) -> Result<(), MeasureFault> {
    let all = Region::full(alloc, game.count())?;
    if strategy.places() == game.count() {
        ranks(alloc, game, Player::ODD, &all, strategy, counts)?;
    }
    Ok(())
}

/// How deep the recursion goes, and how often counts are raised, in a game that player 1 wins.
fn work(alloc: Global, game: &Game) -> Result<(u64, u128), MeasureFault> {
    let mut counts = Counts::default();
    let (_, _, strategy) = regions(alloc, game, &mut counts)?;
    raise(alloc, game, &strategy, &mut counts)?;
    Ok((counts.depth, counts.raises))
}

fn work_on(alloc: Global, text: &[u8]) -> Result<(u64, u128), Fail> {
    let named = read(alloc, text)?;
    Ok(work(alloc, named.game())?)
}

#[test]
fn work_is_counted(rt: HostRuntime) -> Result<(), Fail> {
    assert_eq!(rt; work_on(rt.alloc(), LOOPS)?, (2, 2));
    Ok(())
}
