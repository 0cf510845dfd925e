//! The part of a circuit on which its outputs depend, or some of them.

ghost use Rattle.std.specs.Prelude.{◌≡◌, ◌≤◌, IfOk, if◌then◌else◌, length};
ghost use Rattle.ps_circuit.specs.Circuits.{IsCircuit};
ghost use Rattle.ps_circuit.specs.Drafts.{data_of};
ghost use Rattle.ps_cone.specs.Cones.{IsCone, readers};
ghost use Rattle.ps_cone.specs.Inner.Cuts.{AreOrderedGates, HasPartsOf};
ghost use Rattle.ps_cone.specs.Masks.{mask, masked, with_outputs};
ghost use Rattle.ps_cone.specs.Parts.{selected};

use crate::names::{input_names, latch_names, output_names};
use crate::needed::needed;
use ps_circuit::{Circuit, Gate, Latch, Literal, Parts};
use std::alloc::{AllocError, Global};

/// The circuit without the latches and gates on which no output depends, with the same inputs and outputs. Fails if
/// memory runs out.
pub fn reduced(alloc: Global, circuit: &Circuit) -> Result<Circuit, AllocError>
    ensures { IfOk result (IsCone circuit.now) }
{
    let outputs = circuit.outputs();
    cone_of(alloc, circuit, outputs)
}

/// The same for some outputs: those that are not kept are the constant false. They have their names. Fails if memory
/// runs out.
pub fn reduced_to(alloc: Global, circuit: &Circuit, kept: &[bool]) -> Result<Circuit, AllocError>
    requires { length kept.now ≡ length circuit.now.outputs }
    ensures { IfOk result (IsCone (mask kept.now circuit.now)) }
{
    let outputs = masked(alloc, circuit.outputs(), kept)?;
    cone_of(alloc, circuit, &outputs)
}

/// The outputs that are kept, and the constant false in place of each other one.
fn masked(alloc: Global, outputs: &[Literal], kept: &[bool]) -> Result<Vec<Literal>, AllocError>
    ensures { IfOk result (λ all. all.items ≡ masked 0 kept.now outputs.now) }
{
    let outputs = kept.iter().zip(outputs);
    outputs
        .map(|(is_kept, output)| kept_or_false(*is_kept, *output))
        .collect(alloc)
}

fn kept_or_false(is_kept: bool, output: Literal) -> Literal
    ensures { result ≡ (if is_kept then output else 0) }
{
    if is_kept { output } else { Literal::FALSE }
}

/// The circuit with the given outputs, without the latches and gates on which none of them depends.
fn cone_of(alloc: Global, circuit: &Circuit, outputs: &[Literal]) -> Result<Circuit, AllocError>
    requires { IsCircuit (with_outputs circuit.now outputs.now) }
    ensures { IfOk result (IsCone (with_outputs circuit.now outputs.now)) }
{
    let needed = needed(alloc, circuit, outputs)?;
    let parts = parts_of(alloc, circuit, outputs, &needed)?;
    Circuit::in_order(alloc, parts)
}

fn parts_of(
    alloc: Global,
    circuit: &Circuit,
    outputs: &[Literal],
    needed: &[bool],
) -> Result<Parts, AllocError>
    requires { length needed.now ≡ length (readers circuit.now) }
    ensures { IfOk result (λ parts. HasPartsOf circuit.now outputs.now needed.now (data_of parts)) }
{
    let most = circuit.most();
    Ok(Parts {
        most,
        inputs: circuit.inputs().to_vec(alloc)?,
        latches: latches_among(alloc, circuit, needed)?,
        outputs: outputs.to_vec(alloc)?,
        gates: gates_among(alloc, circuit, needed)?,
        input_names: input_names(alloc, circuit)?,
        latch_names: latch_names(alloc, circuit, needed)?,
        output_names: output_names(alloc, circuit)?,
    })
}

fn latches_among(
    alloc: Global,
    circuit: &Circuit,
    needed: &[bool],
) -> Result<Vec<Latch>, AllocError>
    requires { length circuit.now.latches ≤ length needed.now }
    ensures { IfOk result (λ latches. latches.items ≡ selected needed.now circuit.now.latches) }
{
    let mut latches = Vec::new(alloc);
    for (number, latch) in circuit.latches().iter().enumerate() {
        if needed[number] {
            latches.push(*latch)?;
        }
    }
    Ok(latches)
}

/// The gates that are needed, each after those that it reads.
fn gates_among(alloc: Global, circuit: &Circuit, needed: &[bool]) -> Result<Vec<Gate>, AllocError>
    requires { length needed.now ≡ length (readers circuit.now) }
    ensures { IfOk result (λ gates. AreOrderedGates circuit.now needed.now gates.items) }
{
    let first = circuit.latches().len();
    let all = circuit.gates();
    let mut gates = Vec::new(alloc);
    for &place in circuit.order() {
        if needed[first + place] {
            gates.push(all[place])?;
        }
    }
    Ok(gates)
}
