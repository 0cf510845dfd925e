//! Circuits of any parts.

use ps_circuit::{Circuit, Gate, Literal, Parts};
use std::alloc::{AllocError, Global};
use std::test::Fail;

/// An input with literal 2, a gate with literal 4 that reads these two, and an output.
fn parts(alloc: Global, first: u32, second: u32, output: u32) -> Result<Parts, AllocError> {
    let mut parts = Parts {
        most: 2,
        inputs: Vec::new(alloc),
        latches: Vec::new(alloc),
        outputs: Vec::new(alloc),
        gates: Vec::new(alloc),
        input_names: Vec::new(alloc),
        latch_names: Vec::new(alloc),
        output_names: Vec::new(alloc),
    };
    parts.inputs.push(Literal::new(2))?;
    parts.input_names.push(None)?;
    parts.outputs.push(Literal::new(output))?;
    parts.output_names.push(None)?;
    parts.gates.push(Gate {
        literal: Literal::new(4),
        first: Literal::new(first),
        second: Literal::new(second),
    })?;
    Ok(parts)
}

/// Whether there is a circuit of these parts.
fn is_made(alloc: Global, first: u32, second: u32, output: u32) -> Result<bool, AllocError> {
    let parts = parts(alloc, first, second, output)?;
    Ok(Circuit::checked(alloc, parts)?.is_some())
}

#[test]
fn parts_make_a_circuit_or_none(rt: HostRuntime) -> Result<(), Fail> {
    assert!(rt; is_made(rt.alloc(), 3, 1, 5)?);
    assert!(rt; !is_made(rt.alloc(), 2, 4, 5)?, "the gate reads itself");
    assert!(rt; !is_made(rt.alloc(), 2, 1, 6)?, "variable 3 is not defined");
    Ok(())
}
