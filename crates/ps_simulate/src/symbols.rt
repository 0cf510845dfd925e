//! The names of a circuit's inputs and outputs, and the propositions that they name.

ghost use Rattle.std.specs.Prelude.{◌≡◌, length, map, IfOk};
ghost use Rattle.std.specs.Option.{option_copied};
ghost use Rattle.ps_hoa.specs.Files.{is_among};
ghost use Rattle.ps_hoa.specs.Memory.{bytes_of};
ghost use Rattle.ps_simulate.specs.Symbols.{IsPropositionOf};

use ps_circuit::Circuit;
use std::alloc::{AllocError, Global};

/// The optional names of the inputs. Fails if out of memory.
pub fn input_symbols(alloc: Global, circuit: &Circuit) -> Result<Vec<Option<&[u8]>>, AllocError>
    ensures symbols { IfOk result (λ symbols. map option_copied symbols.items ≡ circuit.now.input_names) }
    ensures each { length circuit.now.input_names ≡ length circuit.now.inputs }
{
    let mut symbols = Vec::new(alloc);
    for k in 0..circuit.inputs().len() {
        symbols.push(circuit.input_name(k))?;
    }
    Ok(symbols)
}

/// The optional names of the outputs. Fails if out of memory.
pub fn output_symbols(alloc: Global, circuit: &Circuit) -> Result<Vec<Option<&[u8]>>, AllocError>
    ensures symbols { IfOk result (λ symbols. map option_copied symbols.items ≡ circuit.now.output_names) }
    ensures each { length circuit.now.output_names ≡ length circuit.now.outputs }
{
    let mut symbols = Vec::new(alloc);
    for k in 0..circuit.outputs().len() {
        symbols.push(circuit.output_name(k))?;
    }
    Ok(symbols)
}

/// Whether a proposition is in a list.
pub fn is_in_list(list: &[u32], proposition: usize) -> bool
    ensures { result ≡ is_among proposition list.now }
{
    for other in list {
        if proposition == *other as usize {
            return true;
        }
    }
    false
}

/// The proposition that a symbol names, if it is controllable, or not, as `wanted` says.
pub fn proposition_of(
    names: &[Vec<u8>],
    controllable: &[u32],
    wanted: bool,
    symbol: &[u8],
) -> Option<usize>
    ensures { IsPropositionOf (map bytes_of names.now) controllable.now wanted symbol.now result }
{
    for (p, name) in names.iter().enumerate() {
        if name.as_slice() == symbol && is_in_list(controllable, p) == wanted {
            return Some(p);
        }
    }
    None
}
