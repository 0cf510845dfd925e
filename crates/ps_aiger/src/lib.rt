//! Circuits of machines. The crate re-exports `ps_circuit`: circuits, and their builder, parser and writer.
//!
//! | Call | What it gives |
//! |---|---|
//! | `encode(machine)` | the circuit of a machine, with the names of the propositions as symbols |
//! | `encode_bits(machine)` | the same of a machine with diagrams of the bits of its output letters |
//! | `literals_from(first, count)` | the literals of consecutive variables |
//! | `gates_of(builder)`, `no_symbols(count)` | the gates of a builder; no symbols for so many latches |
//! | `one_circuit` | a law: machines with the same behaviour have at most one circuit |
//! | `circuit_has_literals` | a law: a machine whose gates need too many variables has none |
//! | `circuit_is_there` | a law: every other machine has one |
//!
//! The latches, no more than needed, hold the number of a memory state in binary, and the circuit's step is the
//! machine's from this state; a code of no memory state stands for memory state 0. If the machine moves first, the
//! outputs do not depend on the inputs. Both fail only if out of memory, or if the circuit needs more than
//! 2147483647 variables.
//!
//! Outputs and next values are built from the machine's decision diagrams, in which each node becomes a choice by the
//! proposition that it tests. For each bit, a table by nodes has the literals that were built, and no gate is built
//! twice.
#![tactic(auto)]

mod encoding;
mod functions;
mod laws;
mod node_literals;
mod stored;

pub use encoding::{encode, encode_bits, gates_of, literals_from, no_symbols};
pub use laws::{circuit_has_literals, circuit_is_there, one_circuit};
pub use ps_circuit::{
    AigCause, AigFault, Builder, Circuit, EncodeFault, Gate, Latch, Literal, Parts, Sides,
    one_answer, read, some_answer, write,
};
