//! Bases of an automaton's states, and arenas: an automaton's game, without the vertices of the second player that no
//! basis needs. A *basis* of a state lists letters of the first player, each the least of its class, such that each
//! letter lets the second player reach all that one of these does.
//!
//! | Law | What it says |
//! |---|---|
//! | `classes_are_basis` | the least letters of all classes of a state are a basis |
//! | `sets_are_basis` | so are the least letters of the sets that the second player can reach after a letter |
//! | `minimal_sets_are_basis` | so are the least letters of the minimal sets |
//! | `arena_is_there` | each game of an automaton has an arena, for given bases of its states |
//! | `arena_is_pruning` | the arena for a basis of each state is a pruned game, whose certificates can be lifted |
//! | `arena_certificate_lifts` | a valid certificate of the arena gives one of the game, with the same winner |
//! | `second_steps_of_lift` | the second player's steps in a lifted certificate, described without classes |
//! | `used_of_lift` | the vertices that a play by a lifted certificate reaches, described by rounds of the arena |
//! | `least_counts_are_there` | a valid certificate has a counterpart with its winners and moves, and least counts |
//! | `counts_do_not_matter` | certificates with the same winners and moves have the same machine |
//! | `game_is_in_order` | the order of the first player's vertices in a game, described without classes |
//! | `one_order` | only one order meets this description |
//! | `listing_is_in_order` | it is the order in which the steps of the states list the keys, from the start |
//! | `machine_of_lift` | the machine of a lifted certificate, described by rounds of the arena and by this order |
#![tactic(auto)]

mod laws;

pub use laws::{
    arena_certificate_lifts, arena_is_pruning, arena_is_there, classes_are_basis,
    counts_do_not_matter, game_is_in_order, least_counts_are_there, listing_is_in_order,
    machine_of_lift, minimal_sets_are_basis, one_order, second_steps_of_lift, sets_are_basis,
    used_of_lift,
};
