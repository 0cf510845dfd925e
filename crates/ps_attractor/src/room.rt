//! Whether an integer type is large enough for a game.

ghost use Rattle.std.specs.Prelude.{◌↔◌, ◌≤◌, IsTrue};
ghost use Rattle.ps_game.specs.Games.{vertex_count};
ghost use Rattle.ps_attractor.specs.Graphs.{edges_before};
ghost use Rattle.ps_attractor.specs.Room.{HasRoom};

use ps_game::{Arena, Width};
use std::alloc::{AllocError, Global};

/// Whether the type `W` can hold the number of edges, and the 2n + 4 levels for n vertices.
pub fn has_room<A: Arena, W: Width>(arena: &A) -> bool
    ensures { IsTrue result ↔ HasRoom (A.game arena.now) W.LIMIT }
{
    let limit = W::LIMIT;
    limit >= 4 && arena.count() <= (limit - 4) / 2 && has_room_for_edges::<A, W>(arena)
}

/// The error for a game that is too large for every type, made by a request for `usize::MAX` numbers.
pub fn no_room(alloc: Global) -> AllocError {
    match Vec::<usize>::with_capacity(alloc, usize::MAX) {
        Err(refused) => refused,
        Ok(_table) => AllocError,
    }
}

fn has_room_for_edges<A: Arena, W: Width>(arena: &A) -> bool
    ensures { IsTrue result ↔ (edges_before (A.game arena.now) (vertex_count (A.game arena.now)) ≤ W.LIMIT) }
{
    let mut room = W::LIMIT;
    for vertex in 0..arena.count() {
        let degree = arena.degree(vertex);
        if degree > room {
            return false;
        }
        room -= degree;
    }
    true
}
