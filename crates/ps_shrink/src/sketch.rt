//! Circuits without names, whose variables have places (indices): the constant first, then inputs, latches and gates.

use crate::size::Size;
use ps_circuit::{Builder, Circuit, Literal};
use ps_simulate::{Places, Wire, output_wires};
use std::alloc::{AllocError, Global};

/// A variable by its place, negated or not.
#[derive(Clone, Copy)]
pub(crate) struct Signal {
    pub place: usize,
    pub is_negated: bool,
}

impl Signal {
    /// Always this value.
    pub fn constant(bit: bool) -> Self {
        Signal {
            place: 0,
            is_negated: bit,
        }
    }

    /// The variable at a place.
    pub fn positive(place: usize) -> Self {
        Signal {
            place,
            is_negated: false,
        }
    }

    /// Whether both are the same.
    pub fn is_same(self, other: Signal) -> bool {
        self.place == other.place && self.is_negated == other.is_negated
    }

    /// A literal whose variable's number is its place.
    pub fn of_literal(literal: Literal) -> Self {
        Signal {
            place: literal.variable() as usize,
            is_negated: literal.is_negated(),
        }
    }

    /// The signal of a wire.
    pub fn of_wire(wire: Wire) -> Self {
        Signal {
            place: wire.place as usize,
            is_negated: wire.is_negated,
        }
    }
}

/// A gate: its place, and what it reads.
#[derive(Clone, Copy)]
pub(crate) struct Row {
    pub place: usize,
    pub first: Signal,
    pub second: Signal,
}

impl Row {
    fn is_same(self, other: Row) -> bool {
        self.place == other.place
            && self.first.is_same(other.first)
            && self.second.is_same(other.second)
    }
}

/// A latch: its place, its next value, and its first.
#[derive(Clone, Copy)]
pub(crate) struct Memory {
    pub place: usize,
    pub next: Signal,
    pub reset: bool,
}

impl Memory {
    fn is_same(self, other: Memory) -> bool {
        self.place == other.place && self.reset == other.reset && self.next.is_same(other.next)
    }
}

/// A circuit without names. Each gate comes after those that it reads.
#[derive(Drop)]
pub(crate) struct Sketch {
    /// The number of inputs.
    pub inputs: usize,
    pub latches: Vec<Memory>,
    pub gates: Vec<Row>,
    pub outputs: Vec<Signal>,
    /// The end of the places.
    pub end: usize,
}

impl Sketch {
    /// The sketch of a circuit.
    pub fn of(alloc: Global, circuit: &Circuit) -> Result<Self, AllocError> {
        let places = Places::new(alloc, circuit)?;
        Ok(Sketch {
            inputs: circuit.inputs().len(),
            latches: latches_of(alloc, &places)?,
            gates: gates_of(alloc, &places)?,
            outputs: outputs_of(alloc, &places)?,
            end: end_of(circuit),
        })
    }

    /// Whether latches, gates and outputs are the same.
    pub fn is_same(&self, other: &Sketch) -> bool {
        let mut latches = self.latches.iter().zip(&other.latches);
        let mut gates = self.gates.iter().zip(&other.gates);
        let mut outputs = self.outputs.iter().zip(&other.outputs);
        self.latches.len() == other.latches.len()
            && self.gates.len() == other.gates.len()
            && outputs.all(|(one, two)| one.is_same(*two))
            && latches.all(|(one, two)| one.is_same(*two))
            && gates.all(|(one, two)| one.is_same(*two))
    }

    /// Its latches and gates.
    pub fn size(&self) -> Size {
        Size {
            latches: self.latches.len(),
            gates: self.gates.len(),
        }
    }

    /// How many sites a change can replace: outputs, next values, latches and gates.
    pub fn sites(&self) -> usize {
        let latches = self.latches.len();
        (latches + latches).saturating_add(self.outputs.len() + self.gates.len())
    }
}

/// The end of a circuit's places.
fn end_of(circuit: &Circuit) -> usize {
    let latches = circuit.latches().len();
    (1 + latches + circuit.gates().len()).saturating_add(circuit.inputs().len())
}

/// The latches of a circuit.
fn latches_of(alloc: Global, places: &Places) -> Result<Vec<Memory>, AllocError> {
    let circuit = places.circuit();
    let first = 1 + circuit.inputs().len();
    let mut latches = Vec::new(alloc);
    for (number, latch) in circuit.latches().iter().enumerate() {
        latches.push(Memory {
            place: first + number,
            next: Signal::of_wire(places.wire(latch.next)),
            reset: latch.reset,
        })?;
    }
    Ok(latches)
}

/// The gates, each after those that it reads.
fn gates_of(alloc: Global, places: &Places) -> Result<Vec<Row>, AllocError> {
    let circuit = places.circuit();
    let gates = circuit.gates();
    let order = circuit.order();
    let mut rows = Vec::new(alloc);
    for &place in order {
        let gate = gates[place];
        rows.push(Row {
            place: places.wire(gate.literal).place as usize,
            first: Signal::of_wire(places.wire(gate.first)),
            second: Signal::of_wire(places.wire(gate.second)),
        })?;
    }
    Ok(rows)
}

/// The signals of the outputs.
fn outputs_of(alloc: Global, places: &Places) -> Result<Vec<Signal>, AllocError> {
    let wires = output_wires(alloc, places)?;
    wires
        .iter()
        .map(|wire| Signal::of_wire(*wire))
        .collect(alloc)
}

/// The gates of a builder.
pub(crate) fn rows_of(alloc: Global, builder: &Builder) -> Result<Vec<Row>, AllocError> {
    let first = builder.given() as usize + 1;
    let mut rows = Vec::new(alloc);
    for (number, sides) in builder.gates().iter().enumerate() {
        rows.push(Row {
            place: first + number,
            first: Signal::of_literal(sides.first),
            second: Signal::of_literal(sides.second),
        })?;
    }
    Ok(rows)
}
