//! Solves parity games: the vertices from which each player wins, and the moves by which it wins.
//!
//! The solver runs the recursive algorithm of McNaughton and Zielonka on an explicit stack. Each iteration of a call
//! starts from the greatest priority of its undecided vertices. The player who wins by it attracts vertices to the
//! tops, which have that priority; in all calls but the first, those whose priority exceeds all of the other parity
//! are tops too. The undecided vertices outside the attractor are solved by a recursive call. The player keeps its
//! own top if it can move to a vertex that it attracted, or won in that call, and one of the opponent if no edge leads
//! to a vertex that the opponent won there. If it keeps each top, it wins all that the opponent did not win; else the
//! opponent attracts vertices to what it won, and the call goes on with the others.
//!
//! | Call | What it gives |
//! |---|---|
//! | `regions` | a region and two strategies: player 0 holds the region by the first, player 1 the rest by the second |
//! | `regions_in` | the same, in tables with numbers of a given width |
//! | `regions_within` | the same, or none if more vertices are decided or attracted than a budget allows |
//! | `each_game_is_divided` | a law: on each game player 0 holds a region, and player 1 the rest |
//!
//! A strategy has moves only where its player owns and wins. `Counts` records how deep calls are nested, which is at
//! most the number of distinct priorities (`IsDepth` has its bounds). The number of calls can be exponential in it.
//!
//! The memory, and the time of an iteration without its recursive call, are at most proportional to the number of
//! vertices and edges.
#![tactic(auto)]

mod answer;
mod attraction;
mod board;
mod frame;
mod laws;
mod level;
mod nest;
mod order;
mod solver;

pub use laws::each_game_is_divided;
pub use solver::{regions, regions_in, regions_within};
