//! Parity games: their definition, storage and construction, and laws about plays and strategies.
//!
//! In clauses, a game is a `ParityGame`: a list of vertices, which are numbered from 0. Player 0 wins a loop whose
//! greatest priority is even, and player 1 one whose greatest priority is odd. A `Region` (a set of vertices) and a
//! `Strategy` (a table of moves) are lists with an entry for each vertex in clauses, and functions in the laws.
//!
//! | Call | What it gives |
//! |---|---|
//! | `Arena::count`, `owner`, `priority`, `degree`, `successor` | reads a game of any form; allocates no memory |
//! | `GameBuilder::vertex`, `edge` | adds a vertex or an edge; if out of memory, nothing changes |
//! | `GameBuilder::finish` | the `Game`, or the first `GameFault`; a repeated successor counts once |
//! | `Vertices::push`, `truncate` | adds a vertex with its successors; keeps only the first vertices |
//! | `Vertices::know_successors`, `resolve` | whether all successors are known ids; replaces each id by its index |
//! | `Vertices::into_game` | the game with these vertices, in which a repeated successor counts once |
//! | `NamedGame::new`, `game`, `id`, `name` | a game with ids and optional names |
//! | `NamedGame::parts_fit` | a fact: the game is well formed, its ids differ, and no name has a quote |
//! | `NamedGame::with_first_names`, `with_names` | the same with names for the first vertices only, or for all |
//! | `Names::with_capacity`, `push`, `get` | a list of names in one buffer; adds a name; the name with an index |
//! | `FlatGame::of` | the same game in four arrays, two of them of 4 or 8 bytes; also an `Arena` |
//! | `fits_narrow` | whether 4 bytes hold the numbers of vertices and edges; 8 bytes always do |
//! | `Player::of_number`, `of_priority` | the player with a number, 0 or 1; the player who wins a priority |
//! | `Player::opponent`, `owns`, `number` | the other player; whether it owns a vertex; its number |
//! | `Region::empty`, `full`, `insert`, `remove`, `contains`, `count` | a set of vertices, one bit each |
//! | `Strategy::empty`, `set`, `get` | a move, or none, for each vertex |
//! | `Subgame::whole`, `find`, `known`, `region` | a region whose vertices have successors in it; `find` checks this |
//! | `Numbers::filled`, `with_capacity`, `at`, `set`, `push` | a list of numbers of 4 or 8 bytes each |
//! | `priorities_of` | the priorities of one parity that a game has, in ascending order |
//! | `GameFault::number`, `name` | the number and name of a fault in psyn's list of faults |
//!
//! `Counts` tells how much work a solver did; a `NonzeroCount` is one of a certificate's counts. A player holds a set
//! by a table if it stays there and wins each loop of its plays. A history table gives a move for each path, up to a
//! length. Each law is a theorem, stated as the contract of a function with an empty body:
//!
//! | Law | What it states |
//! |---|---|
//! | `long_path_has_loop` | a path that is longer than the number of the game's vertices visits one of them twice |
//! | `no_memory_wins_outside` | if one player holds a set, no finite-memory strategy of the other wins there |
//! | `no_history_wins_outside` | nor does any history table of the other player |
//! | `holds_on_paths` | a set held within the subgame of all vertices (`HoldsWithin`) is held (`Holds`) |
//! | `only_own_moves_matter` | holding a set depends only on the moves at the player's own vertices of the set |
//! | `loop_priority_is_top` | the priority of a loop is the greatest priority of its vertices |
#![tactic(auto)]

mod arenas;
mod builder;
mod counts;
mod faults;
mod flat;
mod games;
mod laws;
mod named;
mod names;
mod nonzero;
mod numbers;
mod player;
mod ranking;
mod regions;
mod strategy;
mod subgame;
mod vertices;
mod widths;
mod words;

pub use arenas::Arena;
pub use builder::GameBuilder;
pub use counts::Counts;
pub use faults::GameFault;
pub use flat::{FlatGame, fits_narrow};
pub use games::Game;
pub use laws::{
    holds_on_paths, long_path_has_loop, loop_priority_is_top, no_history_wins_outside,
    no_memory_wins_outside, only_own_moves_matter,
};
pub use named::NamedGame;
pub use names::Names;
pub use nonzero::NonzeroCount;
pub use numbers::Numbers;
pub use player::Player;
pub use ranking::priorities_of;
pub use regions::Region;
pub use strategy::Strategy;
pub use subgame::Subgame;
pub use vertices::Vertices;
pub use widths::Width;
