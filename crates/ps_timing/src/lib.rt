//! Decides whether a circuit's outputs are in time: at all latch values that a trace reaches, they do not depend on the
//! inputs of the same step.
//!
//! | Call | What it gives |
//! |---|---|
//! | `sees_no_input(circuit)` | whether no output depends on an input, at any latch values that a trace reaches |
//! | `in_time(circuit, order, role)` | the same if the circuit's player moves first; otherwise outputs are in time |
//!
//! Latch values are explored breadth first from the resets, up to the first at which an output depends on an input.
//! There the outputs and the next latches are Boolean functions of the inputs; the next values are found not letter by
//! letter, but once for each class of letters with the same ones.
#![tactic(auto)]

mod exploring;
mod next_latches;
mod timing;

pub use timing::{in_time, sees_no_input};
