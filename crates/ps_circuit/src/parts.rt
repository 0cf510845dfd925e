//! Latches, and-gates, and all parts of a circuit.

use crate::literal::Literal;

/// A latch (AIGER 1.9: reset logic).
#[derive(Clone, Copy, Debug, PartialEq, Eq)]
pub struct Latch {
    /// Its own literal, neither negated nor constant.
    pub literal: Literal,
    /// The literal whose value it has in the next step.
    pub next: Literal,
    /// Its value in the first step.
    pub reset: bool,
}

/// An and-gate, and the literals that it reads.
#[derive(Clone, Copy, Debug, PartialEq, Eq)]
pub struct Gate {
    /// Its own literal, neither negated nor constant.
    pub literal: Literal,
    pub first: Literal,
    pub second: Literal,
}

/// The parts of a circuit, with the names that inputs, latches and outputs have.
#[derive(Drop)]
pub struct Parts {
    /// The greatest variable that it may use, M of the header.
    pub most: u32,
    pub inputs: Vec<Literal>,
    pub latches: Vec<Latch>,
    pub outputs: Vec<Literal>,
    pub gates: Vec<Gate>,
    pub input_names: Vec<Option<Vec<u8>>>,
    pub latch_names: Vec<Option<Vec<u8>>>,
    pub output_names: Vec<Option<Vec<u8>>>,
}
