//! Circuits with the names of a specification.

use ps_circuit::{Circuit, Literal, Parts};
use ps_simulate::Role;
use ps_tlsf::{Proposition, Side};
use std::alloc::{AllocError, Global};

/// The circuit with the names of the propositions that its role reads and sets, in their order. A proposition that it
/// lacks is an input that nothing reads, or a constant output. None if too many variables are needed.
pub fn arranged(
    alloc: Global,
    propositions: &[Proposition],
    role: Role,
    circuit: Circuit,
) -> Result<Option<Circuit>, AllocError> {
    if is_arranged(propositions, role, &circuit) {
        return Ok(Some(circuit));
    }
    let mut parts = no_parts(alloc, circuit.most());
    let added = add_parts(alloc, &mut parts, propositions, role, &circuit);
    drop(circuit);
    match added {
        Ok(()) => Circuit::checked(alloc, parts),
        Err(error) => Err(error),
    }
}

/// Whether the circuit has the names already.
fn is_arranged(propositions: &[Proposition], role: Role, circuit: &Circuit) -> bool {
    let mut inputs = 0;
    let mut outputs = 0;
    for proposition in propositions {
        if is_read(role, proposition.side) {
            if inputs >= circuit.inputs().len()
                || !is_name(circuit.input_name(inputs), &proposition.name)
            {
                return false;
            }
            inputs += 1;
        } else {
            if outputs >= circuit.outputs().len()
                || !is_name(circuit.output_name(outputs), &proposition.name)
            {
                return false;
            }
            outputs += 1;
        }
    }
    inputs == circuit.inputs().len() && outputs == circuit.outputs().len()
}

/// Whether a circuit in this role reads the propositions of a side, and does not set them.
fn is_read(role: Role, side: Side) -> bool {
    match role {
        Role::Controller => matches!(side, Side::Inputs),
        Role::Environment => matches!(side, Side::Outputs),
    }
}

fn is_name(symbol: Option<&[u8]>, name: &[u8]) -> bool {
    match symbol {
        Some(symbol) => symbol == name,
        None => false,
    }
}

fn no_parts(alloc: Global, most: u32) -> Parts {
    Parts {
        most,
        inputs: Vec::new(alloc),
        latches: Vec::new(alloc),
        outputs: Vec::new(alloc),
        gates: Vec::new(alloc),
        input_names: Vec::new(alloc),
        latch_names: Vec::new(alloc),
        output_names: Vec::new(alloc),
    }
}

/// Adds the circuit's latches and gates, and the inputs and outputs of the propositions.
fn add_parts(
    alloc: Global,
    parts: &mut Parts,
    propositions: &[Proposition],
    role: Role,
    circuit: &Circuit,
) -> Result<(), AllocError> {
    parts.latches.extend_from_slice(circuit.latches())?;
    parts.gates.extend_from_slice(circuit.gates())?;
    for _latch in circuit.latches() {
        parts.latch_names.push(None)?;
    }
    for proposition in propositions {
        let name = &proposition.name;
        if is_read(role, proposition.side) {
            add_input(alloc, parts, name, circuit)?;
        } else {
            add_output(alloc, parts, name, circuit)?;
        }
    }
    Ok(())
}

fn add_input(
    alloc: Global,
    parts: &mut Parts,
    name: &[u8],
    circuit: &Circuit,
) -> Result<(), AllocError> {
    let literal = match input_named(circuit, name) {
        Some(literal) => literal,
        None => {
            parts.most = parts.most.saturating_add(1);
            Literal::new(parts.most.saturating_mul(2))
        }
    };
    parts.inputs.push(literal)?;
    parts.input_names.push(Some(Vec::from_slice(alloc, name)?))?;
    Ok(())
}

fn add_output(
    alloc: Global,
    parts: &mut Parts,
    name: &[u8],
    circuit: &Circuit,
) -> Result<(), AllocError> {
    let literal = output_named(circuit, name).unwrap_or(Literal::FALSE);
    parts.outputs.push(literal)?;
    parts
        .output_names
        .push(Some(Vec::from_slice(alloc, name)?))?;
    Ok(())
}

fn input_named(circuit: &Circuit, name: &[u8]) -> Option<Literal> {
    for (place, literal) in circuit.inputs().iter().enumerate() {
        if is_name(circuit.input_name(place), name) {
            return Some(*literal);
        }
    }
    None
}

fn output_named(circuit: &Circuit, name: &[u8]) -> Option<Literal> {
    for (place, literal) in circuit.outputs().iter().enumerate() {
        if is_name(circuit.output_name(place), name) {
            return Some(*literal);
        }
    }
    None
}
