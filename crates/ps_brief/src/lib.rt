//! Finds what a short circuit needs of an automaton's game, without the game. The game has a vertex of the second
//! player for each class of the first player's letters, often 2^n of them for n propositions; here no class is made.
//! All diagrams are in one store, which begins as a copy of the automaton's (`Store::copy`) and only gets more nodes.
//!
//! A *target* of a state is a key to which it has a step, with a diagram of the first player's letters behind which the
//! second player can make this step. A *basis* of a state has letters of the first player: each letter lets the second
//! player reach all that one of these does. An *arena* is the game with only those vertices of the second player that
//! stand for a letter in a basis (ps_basis has the laws about bases and arenas).
//!
//! | Call | What it gives |
//! |---|---|
//! | `Setting::new(automaton, order)` | the automaton, who moves first, and the propositions of both players as bits |
//! | `targets_of(setting, store, state)` | a state's targets, in the order of the least letters that lead there |
//! | `listing_of(setting, store)` | the first player's keys in the order of the game, and the targets of their states |
//! | `Listing::of(state)` | the targets of a listed state |
//! | `basis_of(setting, store, targets, most)` | a basis of a state, unless it has `most` or more minimal letters |
//! | `bases_of(setting, store, listing, most)` | a basis of each state of the listing, likewise |
//! | `Bases::letters(state)` | the letters of a state's basis |
//! | `arena_of(setting, store, listing, bases)` | the arena for these bases, and what its vertices stand for |
//! | `machine_of_arena(setting, store, listing, arena, keys, certificate)` | the machine of an arena's certificate |
//! | `brief_machine(setting, store, listing, arena, keys, certificate)` | the same, as the machine of the whole game |
//! | `machine_without_game(automaton, order)` | the machine of the winner at the start, without the game |
//!
//! The machines are made with a diagram for each bit of their output letters, so no call makes a diagram that has each
//! letter of a player as a leaf.
//!
//! The calls with a store fail if memory runs out. They keep the nodes of the store, also then.
#![tactic(auto)]

mod arena;
mod bases;
mod brief;
mod drafts;
mod drawing;
mod listing;
mod memories;
mod parts;
mod places;
mod reach;
mod setting;
mod steps;

pub use arena::{ArenaGame, arena_of};
pub use bases::{Bases, Basis, bases_of, basis_of};
pub use brief::{MOST_LETTERS, brief_machine, machine_without_game};
pub use drawing::machine_of_arena;
pub use listing::{Listing, listing_of};
pub use setting::Setting;
pub use steps::{Target, Targets, targets_of};
