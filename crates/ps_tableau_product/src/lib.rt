//! The products of a circuit, and of an automaton, with the tableau of a formula: graphs in which fair cycles are
//! searched.
//!
//! A walk from the first vertex of a product is a trace of the circuit, or a run of the automaton, together with a run
//! of the tableau along the same letters. An edge bears the mark of each until that its cover does not postpone, so on
//! a fair cycle no until is always postponed. Only vertices that are reached from the first are explored. Steps that
//! differ in their letters alone have one edge, with one of these letters.
//!
//! | Call | What it gives |
//! |---|---|
//! | `Plan::product(tableau)` | the product of a circuit and a tableau, a `ModelGraph` |
//! | `ModelGraph::parts_fit` | tells the prover that the graph is well formed |
//! | `stimulus_along(graph, stem, lap)` | what the circuit reads along two walks |
//! | `JointPlan::product(tableau)` | the product of an automaton and a tableau, a `JointGraph` |
//! | `JointGraph::parts_fit` | tells the prover that the graph is well formed |
//! | `JointGraph::letters(walk)`, `priorities()` | the letters of the edges of a walk; the priorities of all edges |
//! | `Capped` | the edges of priorities up to a given one; those of the given one bear a further mark |
#![tactic(auto)]

mod alphabet;
mod composed;
mod exploring;
mod graph;
mod joining;
mod joint;
mod joint_plan;
mod meetings;
mod plan;
mod readings;
mod states;
mod steps;
mod views;

pub use graph::ModelGraph;
pub use joint::{Capped, JointGraph};
pub use joint_plan::JointPlan;
pub use plan::Plan;
pub use readings::stimulus_along;
