//! The calls.

ghost use Rattle.std.specs.Prelude.{◌≡◌, IfOk, IfSome, IfNone, OnOk, OnSome};
ghost use Rattle.ps_attractor.specs.Room.{HasRoom};
ghost use Rattle.ps_zielonka.specs.Answers.{IsAnswer};
ghost use Rattle.ps_zielonka.specs.Depths.{IsDepth, SolvesGame};
ghost use Rattle.ps_zielonka.specs.Inner.Stacks.{IsDone};

use crate::answer::{region_of, strategy_of};
use crate::nest::Nest;
use ps_attractor::{Adjacency, has_room, no_room};
use ps_game::{Arena, Counts, Player, Region, Strategy, Width};
use std::alloc::{AllocError, Global};

/// The vertices that player 0 wins, its moves there, and player 1's moves at all others.
///
/// Out of memory is the only error, since each game has a solution; games with 2^63 - 2 vertices or more, or 2^64 edges
/// or more, always have it.
pub fn regions<A: Arena>(
    alloc: Global,
    arena: &A,
    counts: &mut Counts,
) -> Result<(Region, Strategy, Strategy), AllocError>
    ensures answer { IfOk result (λ answer. IsAnswer (A.game arena.now) answer.0 answer.1 answer.2) }
    ensures depth { OnOk result (IsDepth (A.game arena.now) counts.new.depth) }
    ensures raises { counts.new.raises ≡ counts.old.raises }
{
    if has_room::<A, u32>(arena) {
        regions_in::<A, u32>(alloc, arena, counts)
    } else if has_room::<A, usize>(arena) {
        regions_in::<A, usize>(alloc, arena, counts)
    } else {
        Err(no_room(alloc))
    }
}

/// Like `regions`, in tables of the type `W`. Fails if out of memory.
pub fn regions_in<A: Arena, W: Width>(
    alloc: Global,
    arena: &A,
    counts: &mut Counts,
) -> Result<(Region, Strategy, Strategy), AllocError>
    requires { HasRoom (A.game arena.now) W.LIMIT }
    ensures solution { IfOk result (λ answer.
        SolvesGame (A.game arena.now) counts.new.depth answer.0 answer.1 answer.2) }
    ensures raises { counts.new.raises ≡ counts.old.raises }
{
    let edges = Adjacency::<A, W>::of(alloc, arena)?;
    let mut nest = Nest::new(alloc, &edges)?;
    nest.solve(&edges, None)?;
    answer_by(alloc, arena, &mut counts.depth, &nest)
}

/// The result of `regions`, or `None` if vertices are decided or attracted `budget` times before all are decided. No
/// clause bounds how often that happens, since a vertex can be attracted again and again. Fails if out of memory.
pub fn regions_within<A: Arena>(
    alloc: Global,
    arena: &A,
    counts: &mut Counts,
    budget: u64,
) -> Result<Option<(Region, Strategy, Strategy)>, AllocError>
    ensures answer { IfOk result (λ found. IfSome found
        (λ answer. IsAnswer (A.game arena.now) answer.0 answer.1 answer.2)) }
    ensures depth { IfOk result (λ found. OnSome found (IsDepth (A.game arena.now) counts.new.depth)) }
    ensures raises { counts.new.raises ≡ counts.old.raises }
{
    if has_room::<A, u32>(arena) {
        answer_within::<A, u32>(alloc, arena, &mut counts.depth, budget)
    } else if has_room::<A, usize>(arena) {
        answer_within::<A, usize>(alloc, arena, &mut counts.depth, budget)
    } else {
        Err(no_room(alloc))
    }
}

fn answer_within<A: Arena, W: Width>(
    alloc: Global,
    arena: &A,
    depth: &mut u64,
    budget: u64,
) -> Result<Option<(Region, Strategy, Strategy)>, AllocError>
    requires { HasRoom (A.game arena.now) W.LIMIT }
    ensures { IfOk result (λ found. IfSome found
        (λ answer. SolvesGame (A.game arena.now) depth.new answer.0 answer.1 answer.2)) }
{
    let edges = Adjacency::<A, W>::of(alloc, arena)?;
    let mut nest = Nest::new(alloc, &edges)?;
    if !nest.solve(&edges, Some(budget))? {
        return Ok(None);
    }
    let answer = answer_by(alloc, arena, depth, &nest)?;
    Ok(Some(answer))
}

/// The solution of the final state.
fn answer_by<A: Arena, W: Width>(
    alloc: Global,
    arena: &A,
    depth: &mut u64,
    nest: &Nest<W>,
) -> Result<(Region, Strategy, Strategy), AllocError>
    requires { IsDone (A.game arena.now) nest.now }
    ensures { IfOk result (λ answer. SolvesGame (A.game arena.now) depth.new answer.0 answer.1 answer.2) }
{
    *depth = nest.depth as u64;
    let board = &nest.board;
    let region = region_of(alloc, &board.winner)?;
    let first = strategy_of(alloc, arena, &board.tables, &board.winner, Player::EVEN)?;
    let second = strategy_of(alloc, arena, &board.tables, &board.winner, Player::ODD)?;
    Ok((region, first, second))
}
