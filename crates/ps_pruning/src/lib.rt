//! Parity games without some of the vertices of the player who moves second, and how certificates of such pruned games
//! extend to the whole games. A *guide* maps a vertex to a kept one, if any, won likewise; a *lift* is what a guide
//! makes of a certificate of the pruned game: one of the game.
//!
//! | Law | What it says |
//! |---|---|
//! | `lift_is_certificate` | a lift of a valid certificate of the pruned game is a valid certificate of the game |
//! | `lift_keeps_winners` | a lift keeps the winners of kept vertices, and the entries of the first mover's vertices |
//! | `lift_is_there` | each valid certificate of a pruned game has a lift for each guide |
//! | `guide_is_there` | each certificate of a pruned game has a guide, which tries candidates in a given order |
#![tactic(auto)]

mod laws;

pub use laws::{guide_is_there, lift_is_certificate, lift_is_there, lift_keeps_winners};
