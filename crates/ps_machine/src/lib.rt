//! Builds the game of an automaton, and the machine of a certificate of the game. The crate re-exports `ps_solver`: what
//! finds certificates.
//!
//! The vertices of the game are numbered breadth first from the start, vertex 0. The first player is the one who moves
//! first in each step. A vertex at which it moves stands for a state and the priority by which this was entered; one at
//! which the second player moves, for a state and a class of the first player's letters, all of which lead to the same
//! steps. Classes are computed from the automaton's decision diagrams; to build a game of which no player has more than
//! four letters, by trying each. In each of its memory states, a machine leads an input letter to a row: the output
//! letter, and the next memory state.
//!
//! | Call | What it gives |
//! |---|---|
//! | `game_of(automaton, order)` | the game with ids and names; `Order` states who moves first |
//! | `is_first(order, controllable, proposition)` | whether a proposition belongs to the player who moves first |
//! | `AutomatonGame::build(automaton, order)` | the same game with the key of each vertex: what it stands for |
//! | `machine_of_certificate`, `extract` | the machine of the winner of vertex 0, by a valid certificate |
//! | `machine_of_bits(.., parts)` | the machine of these diagrams, one for each bit of its output letters |
//! | `Machine::step(memory, letter)` | the next memory state, and the letter that is output |
//! | `Machine::parts_fit` | a fact: in each memory state, each letter leads to a row |
//! | `Machine::store`, `node`, `row`, `rows` | the diagram of a memory state, and the row that each leaf names |
//!
//! | Law | What it states |
//! |---|---|
//! | `lassos_won`, `lassos_of_file_won` | the winner of vertex 0 wins each word of the machine of a valid certificate |
//! | `one_game`, `one_game_of_file` | an automaton, and a file, have at most one game for each order of moves |
//! | `game_is_there`, `game_of_file_is_game` | an admitted file has a game; what a file defines is a game |
//! | `machine_is_there` | a valid certificate of an automaton's game has a machine |
//! | `one_machine`, `one_machine_of_file` | a certificate of an automaton's or a file's game has at most one machine |
#![tactic(auto)]

mod bit_machine;
mod divided;
mod drawing;
mod exploring;
mod extracting;
mod game;
mod key;
mod laws;
mod letter_classes;
mod letters;
mod machine;
mod memories;
mod moves;
mod numbers;
mod second_drawing;
mod used;

pub use bit_machine::{BitMachine, BitParts};
pub use divided::Divided;
pub use extracting::{extract, machine_of_bits, machine_of_certificate};
pub use game::{AutomatonGame, game_of};
pub use key::{Key, Order};
pub use laws::{
    game_is_there, game_of_file_is_game, lassos_of_file_won, lassos_won, machine_is_there,
    one_game, one_game_of_file, one_machine, one_machine_of_file,
};
pub use machine::{Machine, Row};
pub use moves::is_first;
pub use ps_solver::{
    BuiltIn, Replay, SolveFault, Solver, each_game_has_a_certificate, least_certificate,
};
