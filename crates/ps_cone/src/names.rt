//! The names of inputs, latches and outputs.

ghost use Rattle.std.specs.Prelude.{◌≡◌, ◌≤◌, IfOk, length, map};
ghost use Rattle.std.specs.Option.{option_copied};
ghost use Rattle.ps_circuit.specs.Drafts.{name_bytes};
ghost use Rattle.ps_cone.specs.Parts.{selected};

use ps_circuit::Circuit;
use std::alloc::{AllocError, Global};

/// An optional name.
pub(crate) type Name = Option<Vec<u8>>;

pub(crate) fn input_names(alloc: Global, circuit: &Circuit) -> Result<Vec<Name>, AllocError>
    ensures { IfOk result (λ names. map name_bytes names.items ≡ circuit.now.input_names) }
{
    let mut names = Vec::new(alloc);
    for input in 0..circuit.inputs().len() {
        names.push(copy_of(alloc, circuit.input_name(input))?)?;
    }
    Ok(names)
}

pub(crate) fn output_names(alloc: Global, circuit: &Circuit) -> Result<Vec<Name>, AllocError>
    ensures { IfOk result (λ names. map name_bytes names.items ≡ circuit.now.output_names) }
{
    let mut names = Vec::new(alloc);
    for output in 0..circuit.outputs().len() {
        names.push(copy_of(alloc, circuit.output_name(output))?)?;
    }
    Ok(names)
}

/// The names of the latches that are needed.
pub(crate) fn latch_names(
    alloc: Global,
    circuit: &Circuit,
    needed: &[bool],
) -> Result<Vec<Name>, AllocError>
    requires { length circuit.now.latches ≤ length needed.now }
    ensures { IfOk result
        (λ names. map name_bytes names.items ≡ selected needed.now circuit.now.latch_names) }
{
    let mut names = Vec::new(alloc);
    for latch in 0..circuit.latches().len() {
        if needed[latch] {
            let name = copy_of(alloc, circuit.latch_name(latch))?;
            names.push(name)?;
        }
    }
    Ok(names)
}

fn copy_of(alloc: Global, name: Option<&[u8]>) -> Result<Name, AllocError>
    ensures { IfOk result (λ copy. name_bytes copy ≡ option_copied name.entry) }
{
    match name {
        Some(bytes) => Ok(Some(bytes.to_vec(alloc)?)),
        None => Ok(None),
    }
}
