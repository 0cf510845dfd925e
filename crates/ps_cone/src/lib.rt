//! Circuits without the latches and gates on which no output depends.
//!
//! | Call | What it gives |
//! |---|---|
//! | `reduced(circuit)` | the circuit without them |
//! | `reduced_to(circuit, kept)` | the same, with the constant false in place of each output that is not kept |
//! | `laws::part_runs_alike` | a law: a circuit and a part of it with the same outputs run alike |
//! | `laws::part_is_judged_alike` | a law: what a judgement is about, they have in common |
//! | `laws::mask_runs_alike` | a law: a circuit runs as it does with the constant false in place of some outputs |
//!
//! An output depends on what it reads, directly or through others, in the same step or in a later one. Time and memory
//! are proportional to the size of the circuit, but variables that are far out of order are looked up in a B-tree.
#![tactic(auto)]

mod cone;
pub mod laws;
mod names;
mod needed;
mod readers;

pub use cone::{reduced, reduced_to};
