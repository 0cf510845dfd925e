//! Circuits of and-gates and latches: a builder, gate by gate, and a parser and a writer of the ASCII form of AIGER
//! 1.9.
//!
//! The number of a literal is twice its variable, plus one if it is negated. As in AIGER, literal 0 is false and
//! literal 1 is true.
//!
//! | Call | What it gives |
//! |---|---|
//! | `read(text)` | the circuit of a text (AIGER 1.9: header, resets, symbols, comments), or the first `AigFault` |
//! | `write(circuit)` | a text, which `read` parses as the same circuit |
//! | `Literal::positive(variable)`, `constant(bit)`, `new(number)` | a literal |
//! | `Literal::negated`, `variable`, `is_negated`, `number` | its negation, its parts and its number |
//! | `Builder::new(given)` | a builder over given variables; no call changes an existing gate |
//! | `Builder::and`, `or`, `mux` | the literal of a conjunction, disjunction or choice, or an `EncodeFault` |
//! | `Circuit::checked(parts)` | the circuit of any parts, or none if they are not those of a circuit |
//! | `Circuit::in_order(parts)` | a circuit of parts in which each gate comes after those that it reads |
//! | `Circuit::inputs`, `latches`, `outputs`, `gates` | its parts |
//! | `Circuit::order` | an order in which the gates can be evaluated |
//! | `gate_variables(gates)`, `links_to`, `GateGraph` | gates as a graph, with edges to those that each reads |
//! | `Circuit::input_name`, `latch_name`, `output_name` | the name of one of these, if it has one |
//! | `Circuit::parts_fit` | a fact: no variable is defined twice, and no gate depends on itself |
//! | `EncodeFault::number`, `name`, `AigCause::number`, `name` | the number and name of a fault or cause |
//! | `one_answer`, `some_answer` | laws: a text has exactly one answer, its circuit or its first error |
//! | `read_circuit_is_circuit` | a law: what a text describes is a circuit |
//!
//! Parsing takes time proportional to the length of the text, but variables far out of order are put into a B-tree.
//! A text must have no bad states, constraints, justice or fairness, and no latch with its own literal as its reset.
#![tactic(auto)]

mod builder;
mod circuit;
mod encode_fault;
mod fault;
mod fields;
mod gate_graph;
mod header;
mod laws;
mod lines;
mod links;
mod literal;
mod names;
mod number;
mod parts;
mod reader;
mod rising;
mod sizes;
mod soundness;
mod variables;
mod writer;

pub use builder::{Builder, Sides};
pub use circuit::Circuit;
pub use encode_fault::EncodeFault;
pub use fault::{AigCause, AigFault};
pub use gate_graph::GateGraph;
pub use laws::{one_answer, read_circuit_is_circuit, some_answer};
pub use links::{Links, gate_variables, links_to};
pub use literal::Literal;
pub use parts::{Gate, Latch, Parts};
pub use reader::read;
pub use writer::write;
