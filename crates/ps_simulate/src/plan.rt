//! The table of gates that a simulator evaluates.

ghost use Rattle.std.specs.Prelude.{◌≡◌, ◌<◌, length, map, IfOk};
ghost use Rattle.ps_simulate.specs.Plans.{AreGateRows, wire_of};

use crate::places::Places;
use ps_circuit::Circuit;
use std::alloc::{AllocError, Global};

/// A literal whose variable is an index into the table, of only 4 bytes: a circuit has fewer than 2^31 variables, and a
/// step reads three of them for each gate.
#[derive(Clone, Copy)]
pub struct Wire {
    pub place: u32,
    pub is_negated: bool,
}

/// A gate: the index of its value, and the literals that it reads.
#[derive(Clone, Copy)]
pub struct Row {
    pub target: u32,
    pub first: Wire,
    pub second: Wire,
}

/// What a step evaluates: the gates, the outputs and the latches' next values. The table has `size` values: the
/// constant 0, the inputs, the latches and the gates.
#[derive(Drop)]
pub struct Plan {
    pub size: usize,
    /// The gates, each after those that it reads.
    pub rows: Vec<Row>,
    pub outputs: Vec<Wire>,
    pub nexts: Vec<Wire>,
}

impl Plan {
    ghost use Rattle.ps_simulate.specs.Plans.{IsPlan};

    /// The plan of a circuit. Fails if out of memory.
    pub fn new(alloc: Global, circuit: &Circuit) -> Result<Self, AllocError>
        ensures { IfOk result (IsPlan circuit.now) }
    {
        let places = Places::new(alloc, circuit)?;
        Plan::by_places(alloc, &places)
    }

    /// The same, by the variables' indices.
    fn by_places(alloc: Global, places: &Places) -> Result<Self, AllocError>
        ensures { IfOk result (IsPlan places.now) }
    {
        Ok(Plan {
            size: places.count(),
            rows: rows_of(alloc, places)?,
            outputs: output_wires(alloc, places)?,
            nexts: next_wires(alloc, places)?,
        })
    }
}

/// A row for each gate, after those that it reads.
fn rows_of(alloc: Global, places: &Places) -> Result<Vec<Row>, AllocError>
    ensures { IfOk result (λ rows. AreGateRows places.now rows.items) }
{
    let circuit = places.circuit();
    let gates = circuit.gates();
    let order = circuit.order();
    let mut rows = Vec::new(alloc);
    for &place in order {
        let gate = gates[place];
        rows.push(Row {
            target: places.wire(gate.literal).place,
            first: places.wire(gate.first),
            second: places.wire(gate.second),
        })?;
    }
    Ok(rows)
}

/// The wires of the outputs. Fails if out of memory.
pub fn output_wires(alloc: Global, places: &Places) -> Result<Vec<Wire>, AllocError>
    ensures { IfOk result (λ wires. wires.items ≡ map (wire_of places.now) places.now.outputs) }
{
    let circuit = places.circuit();
    let mut wires = Vec::new(alloc);
    for &output in circuit.outputs() {
        wires.push(places.wire(output))?;
    }
    Ok(wires)
}

/// The wires of the latches' next values. Fails if out of memory.
pub fn next_wires(alloc: Global, places: &Places) -> Result<Vec<Wire>, AllocError>
    ensures { IfOk result (λ wires. wires.items ≡ map (λ l. wire_of places.now l.next) places.now.latches) }
{
    let circuit = places.circuit();
    let mut wires = Vec::new(alloc);
    for latch in circuit.latches() {
        wires.push(places.wire(latch.next))?;
    }
    Ok(wires)
}
