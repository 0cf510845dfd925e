//! Mixings of an automaton's propositions: other orders of the propositions, in which those of each player keep their
//! order. Decision diagrams test propositions in this order, and are small only for some orders.
//!
//! | Call | What it gives |
//! |---|---|
//! | `even_order` | a mixing in which each player's propositions are evenly spread among the others |
//! | `mixed` | a file with its propositions mixed, if the file has labels |
//! | `evenly_mixed` | the file mixed by `even_order` |
//! | `is_worth_mixing` | whether a file has labels, and one of them names propositions of both players |
//! | `names_many` | whether the labels of a state name so many propositions of one player |
//!
//! | Law | What it says |
//! |---|---|
//! | `mixed_is_sound` | the mixed file of a sound file is sound |
//! | `answer_of_mixed` | a file and its mixed file have automata, or have the same fault |
//! | `lassos_of_mixed` | they accept the same lassos, if the propositions of the letters are moved |
//! | `symbols_of_mixed`, `letters_of_mixed` | circuits have the same symbols by both; a trace's letters are moved |
//! | `verdict_of_mixed` | circuits have the same verdicts by both |
//! | `game_of_mixed` | they have the same games |
//! | `machine_of_mixed` | a machine for the mixed file is one for the file, if the propositions of letters are moved |
//! | `circuit_of_machine` | a machine's circuit is the circuit of the machine with its propositions moved |
#![tactic(auto)]

mod copies;
mod file;
mod label;
mod laws;
mod named;
mod order;
mod rows;
mod worth;

pub use file::{evenly_mixed, mixed};
pub use laws::{
    answer_of_mixed, circuit_of_machine, game_of_mixed, lassos_of_mixed, letters_of_mixed,
    machine_of_mixed, mixed_is_sound, symbols_of_mixed, verdict_of_mixed,
};
pub use named::names_many;
pub use order::{Permutation, even_order};
pub use worth::is_worth_mixing;
