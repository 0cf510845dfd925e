//! The product of a circuit and an automaton, which run in lockstep, as a game in which only one player has moves to
//! choose.
//!
//! A vertex has values of the latches, a state, and the priority of the edge that led to it (`IsProductOf`). Its edges
//! are computed from the truths of the outputs and of the next latches: Boolean functions of the letters that the
//! circuit reads.
//!
//! | Call | What it gives |
//! |---|---|
//! | `Product::build(circuit, automaton, order, role)` | the product, or a way to the sink, or the first `ProductFault` |
//! | `Product::game`, `inputs(vertex, number)` | the product's game; the inputs that a step to a successor reads |
//! | `ProductFault::number`, `name` | its number and name in psyn's list of faults |
//! | `Truths::new(store)`, `proposition`, `both`, `into_store` | makes truths, whose diagrams are added to a store |
//! | `Truth::negated` | the negation of a truth, which has the same diagram |
//! | `roles_for(circuit, names, controllable, role)` | the `Roles`: the propositions of inputs and outputs |
//! | `Evaluator::new(circuit)`, `at(propositions, latches, truths)` | the truths of outputs and next latches |
//! | `nodes_of(store, list, outputs)` | each proposition as a diagram over the inputs |
//! | `grouped(store, node, truths)` | a node that tells two letters apart exactly if `node` or a truth does |
//! | `bits_of(store, truths, letter)`, `some_differs(truths)` | the values of truths at a letter; whether one varies |
//! | `Numbering::new()`, `len`, `vertex`, `number`, `numbers_of(edges)` | vertices and their numbers |
//! | `Words::new()`, `number_of(bits)` | numbers for lists of bits |
//! | `moves_first(order, role)` | whether the circuit's player moves first |
//! | `outcome_is_the_step` | a law: an evaluator's truths have the values of the circuit's step, at each letter |
//!
//! At given latches, almost all gates are constant: a constant truth has no diagram, and needs no call of the store.
//! Each gate is computed at most once, and only if some output or next latch needs it. Of the literals that it reads,
//! that whose variable comes first is computed first; if this is false at every letter, the other is not computed.
#![tactic(auto)]

mod edges;
mod evaluator;
mod exploring;
mod fault;
mod grouping;
mod known;
mod laws;
mod net;
mod nodes;
mod numbering;
mod product;
mod roles;
mod site;
mod truth;
mod vertex;
mod words;

pub use edges::{Edge, some_differs};
pub use evaluator::{Evaluator, Outcome};
pub use fault::ProductFault;
pub use grouping::grouped;
pub use laws::outcome_is_the_step;
pub use nodes::{bits_of, nodes_of};
pub use numbering::{Numbered, Numbering, numbers_of};
pub use product::{Built, Product, moves_first};
pub use roles::{Roles, roles_for};
pub use truth::{Truth, Truths};
pub use vertex::Vertex;
pub use words::Words;
