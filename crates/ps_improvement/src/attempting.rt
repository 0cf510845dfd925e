//! Attempts to solve a game.

ghost use Rattle.std.specs.Prelude.{IfOk, length};
ghost use Rattle.ps_game.specs.Games.{vertex_count};
ghost use Rattle.ps_improvement.specs.Attempts.{IsAttemptFor};

use crate::fuel::Fuel;
use crate::ground::Ground;
use crate::plan::Plan;
use crate::row::Value;
use crate::settling::Settling;
use ps_attractor::has_room;
use ps_game::{Arena, Region, Strategy};
use std::alloc::{AllocError, Global};

/// How many cells (entries of rows) may be stored with any fuel.
const ROOM: u64 = 1 << 18;

/// How much fuel allows one more to be stored.
const FUEL_EACH: u64 = 256;

/// The most that fuel allows, for each vertex and for each edge.
const ROOM_EACH: u64 = 64;

/// The result of an attempt.
#[derive(Drop)]
pub enum Attempted {
    /// No move can be improved. That the players win as stated must be checked.
    Found {
        /// What player 0 presumably wins.
        won: Region,
        /// Its moves in `won`.
        first: Strategy,
        /// The moves of player 1 outside `won`.
        second: Strategy,
    },
    /// The fuel, or the cells that it allows to be stored, did not suffice.
    OutOfFuel,
    /// No fuel would suffice: the game needs too many cells, or `usize` can't hold the number of edges, or 2n + 4 for n
    /// vertices.
    OutOfRoom,
}

/// Finds what each player presumably wins, and its moves. Fails if out of memory.
pub fn attempt<A: Arena>(alloc: Global, arena: &A, fuel: u64) -> Result<Attempted, AllocError>
    ensures { IfOk result (IsAttemptFor (vertex_count (A.game arena.now))) }
{
    if !has_room::<A, usize>(arena) {
        return Ok(Attempted::OutOfRoom);
    }
    let most = most_room(arena);
    let room = (fuel / FUEL_EACH).min(most);
    let mut fuel = Fuel {
        left: fuel,
        room: room.saturating_add(ROOM),
        is_full: false,
    };
    let ground = Ground::of(alloc, arena)?;
    let mut settling = Settling::new(alloc, &ground)?;
    if settling.settle_all(&mut fuel)? {
        answer_of(alloc, settling.plan)
    } else if fuel.is_full && room == most {
        Ok(Attempted::OutOfRoom)
    } else {
        Ok(Attempted::OutOfFuel)
    }
}

fn most_room<A: Arena>(arena: &A) -> u64 {
    let mut room: u64 = 0;
    for vertex in 0..arena.count() {
        let size = (arena.degree(vertex) as u64).saturating_add(1);
        room = room.saturating_add(size.saturating_mul(ROOM_EACH));
    }
    room
}

fn answer_of<A: Arena>(alloc: Global, plan: Plan<'_, A>) -> Result<Attempted, AllocError>
    ensures { IfOk result (IsAttemptFor (length plan.entry.rows.items)) }
{
    let mut fuel = Fuel {
        left: 0,
        room: 0,
        is_full: false,
    };
    let count = plan.rows.len();
    let mut won = Region::empty(alloc, count)?;
    let mut second = Strategy::empty(alloc, count)?;
    for vertex in 0..count {
        if let Value::Endless = plan.value(vertex) {
            won.insert(vertex);
        } else if plan.arena.owner(vertex) == 1 {
            second.set(vertex, plan.least(vertex, &mut fuel));
        }
    }
    Ok(Attempted::Found {
        won,
        first: plan.first,
        second,
    })
}
