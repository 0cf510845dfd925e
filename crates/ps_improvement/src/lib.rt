//! Computes the winning region of player 0 and the moves of both players in a parity game, by strategy improvement. The
//! result is not proved, so the caller has to check it.
//!
//! The value of a play is its row: how often it visits each priority before it stops. Of two rows, the greatest
//! priority that they have differently often decides: player 0 prefers more of an even one, and fewer of an odd one. A
//! play that never stops is worth more to it than any row. At first, player 0 stops at each of its vertices, and every
//! vertex of player 1 is closed: plays stop before they enter it. In each round, the value of a vertex is the least
//! that player 1 can force; then player 0 moves to successors that are worth more, and opens those of player 1's
//! vertices that are worth more than stopping. At last, it wins the vertices from which plays never stop. The strongly
//! connected components are solved one after another, each after those to which its edges lead.
//!
//! | Call | What it gives |
//! |---|---|
//! | `attempt(arena, fuel)` | an `Attempted`: a region and the moves of both players, or the reason why there is none |
//!
//! The fuel limits the cells of rows that are read or written; those that are stored are also limited by the number of
//! vertices and edges.
#![tactic(auto)]

mod attempting;
mod fuel;
mod ground;
mod plan;
mod row;
mod settling;
mod waiting;

pub use attempting::{Attempted, attempt};
