//! Decides whether an automaton accepts each lasso trace of a controller, or no lasso trace of an environment; if not,
//! gives a counterexample.
//!
//! [`verified`] uses no solver. The call builds the product of the circuit and the automaton, in which all vertices
//! belong to the opponent of the circuit's player, and looks for a cycle that the circuit's player loses.
//!
//! | Call | What it gives |
//! |---|---|
//! | `verified(circuit, automaton, order, role)` | a `Judgement`: the circuit wins, or a stimulus on which it loses |
//! | `judgement_is_one` | a law: a circuit wins exactly if no stimulus shows that it loses |
//! | `losing_verdict_is_wrong` | a law: `lasso` confirms a stimulus on which the circuit loses |
//! | `judgement_of_mixed` | a law: a judgement by a mixed file (`ps_mixing`) is a judgement by the file |
//! | `witness_wins` | a law: a circuit with the properties that synthesis promises wins |
#![tactic(auto)]

mod cycle;
mod judgement;
mod laws;
mod readings;
mod verifying;
mod ways;

pub use judgement::Judgement;
pub use laws::{judgement_is_one, judgement_of_mixed, losing_verdict_is_wrong, witness_wins};
pub use verifying::verified;
