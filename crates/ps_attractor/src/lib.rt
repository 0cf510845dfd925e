//! Attractors: the vertices of a subgame from which a player can force every play to a target, and the moves that do
//! so.
//!
//! The attractor is computed backwards from its target. A vertex of the player is attracted as soon as one of its edges
//! leads to an attracted vertex, and one of the other player as soon as all its successors in the subgame are
//! attracted. The search for one that is not goes on where the previous search at the vertex ended. So the time is
//! proportional to the edges into attracted vertices, and those out of each vertex of the other player that has such an
//! edge. `attract` also makes the tables and predecessor lists; that time, and the memory, are proportional to all
//! vertices and edges.
//!
//! | Call | What it gives |
//! |---|---|
//! | `attract` | the attractor of a region in a subgame, with the player's moves and with ranks that fall along them |
//! | `has_room` | whether numbers of a width, 4 or 8 bytes, are large enough for a game |
//! | `no_room` | the error if no width has room: out of memory |
//! | `Sources::of`, `at` | for each vertex the vertices with an edge to it, each once, in ascending order |
//! | `Sources::reversed` | the same for the links of a graph |
//! | `Edges` | the edges of a game as the links of a graph |
//! | `Adjacency::of` | the edges of a game in both directions |
//! | `Tables::new`, `place`, `cut` | levels, moves and the trail of attracted vertices, for many attractors |
//! | `Tables::attract` | the attractor on these tables, whose vertices are appended to the trail |
//! | `Aim` | the player of an attractor, its target, and the levels that mark it in the tables |
//! | `places_by_number` | the indices of a list of small numbers, sorted by these numbers with a counting sort |
//!
//! A vertex's level states whether it is outside the subgame, not attracted, or attracted by a call with this level.
#![tactic(auto)]

mod aim;
mod attractor;
mod edges;
mod levels;
mod numbers;
mod room;
mod sorting;
mod sources;
mod tables;
mod worklist;

pub use aim::Aim;
pub use attractor::{Attracted, attract};
pub use edges::Edges;
pub use numbers::places_by_number;
pub use room::{has_room, no_room};
pub use sources::{Adjacency, Sources};
pub use tables::Tables;
