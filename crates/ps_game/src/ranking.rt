//! The priorities that occur in a game.

ghost use Rattle.std.specs.Prelude.{IfOk};
ghost use Rattle.ps_game.specs.Ranking.{ListsPriorities};

use crate::arenas::Arena;
use std::alloc::{AllocError, Global};

/// The priorities of this parity, 0 or 1, that occur in a game, each once, ascending. Takes as long as sorting all
/// priorities. Fails if out of memory.
pub fn priorities_of<A: Arena>(
    alloc: Global,
    arena: &A,
    parity: u64,
) -> Result<Vec<u64>, AllocError>
    ensures { IfOk result (λ v. ListsPriorities (A.game arena.now) parity v.items) }
{
    let mut priorities = Vec::new(alloc);
    for vertex in 0..arena.count() {
        let priority = arena.priority(vertex);
        if priority % 2 == parity {
            priorities.push(priority)?;
        }
    }
    priorities.sort_unstable();
    priorities.dedup();
    Ok(priorities)
}
