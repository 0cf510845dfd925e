//! The circuit of a builder's gates, with another circuit's names.

ghost use Rattle.std.specs.Prelude.{◌≡◌, ◌+◌, ◌^◌, ◌≤◌, All, IfOk, length, map};
ghost use Rattle.std.specs.Option.{option_copied};
ghost use Rattle.ps_circuit.specs.Building.{IsHeld, IsSoundDraft};
ghost use Rattle.ps_circuit.specs.Circuits.{IsCircuit};
ghost use Rattle.ps_circuit.specs.Drafts.{data_of, name_bytes};
ghost use Rattle.ps_shrink.specs.Inner.Assembled.{AreCells, HasNamesOf, HasGatesOf};

use ps_aiger::{gates_of, literals_from, no_symbols};
use ps_circuit::{Builder, Circuit, Latch, Literal, Parts};
use ps_simulate::{input_symbols, output_symbols};
use std::alloc::{AllocError, Global};

/// A latch: its next value and its first.
#[derive(Clone, Copy)]
pub(crate) struct Cell {
    pub next: Literal,
    pub reset: bool,
}

/// The circuit of a builder's gates, with the inputs and output names of `named`. The builder's given variables are the
/// inputs and then the latches.
pub(crate) fn assembled(
    alloc: Global,
    named: &Circuit,
    builder: &Builder,
    cells: &[Cell],
    outputs: Vec<Literal>,
) -> Result<Circuit, AllocError>
    requires given { builder.now.given ≡ length named.now.inputs + length cells.now }
    requires nexts { All (λ cell. IsHeld builder.now cell.next) cells.now }
    requires outputs { All (IsHeld builder.now) outputs.items }
    requires each { length outputs.items ≡ length named.now.outputs }
    ensures { IfOk result (HasNamesOf named.now) }
{
    let parts = parts_of(alloc, named, builder, cells, outputs)?;
    Circuit::in_order(alloc, parts)
}

/// Its parts.
fn parts_of(
    alloc: Global,
    named: &Circuit,
    builder: &Builder,
    cells: &[Cell],
    outputs: Vec<Literal>,
) -> Result<Parts, AllocError>
    requires given { builder.now.given ≡ length named.now.inputs + length cells.now }
    ensures sound { IsSoundDraft builder.now }
    ensures circuit { IsCircuit named.now }
    ensures parts { IfOk result (λ parts. HasGatesOf named.now builder.now cells.now outputs.items (data_of parts)) }
{
    let most = builder.variables();
    let inputs = named.inputs().len() as u32;
    Ok(Parts {
        most,
        inputs: literals_from(alloc, 1, inputs)?,
        latches: latches_of(alloc, inputs + 1, cells)?,
        outputs,
        gates: gates_of(alloc, builder)?,
        input_names: input_names(alloc, named)?,
        latch_names: no_symbols(alloc, cells.len())?,
        output_names: output_names(alloc, named)?,
    })
}

/// Latches with the variables from `first` on.
fn latches_of(alloc: Global, first: u32, cells: &[Cell]) -> Result<Vec<Latch>, AllocError>
    requires { first + length cells.now ≤ 2 ^ 31 }
    ensures { IfOk result (λ latches. AreCells first cells.now latches.items) }
{
    let mut latches = Vec::new(alloc);
    for (place, cell) in cells.iter().enumerate() {
        latches.push(Latch {
            literal: Literal::positive(first + place as u32),
            next: cell.next,
            reset: cell.reset,
        })?;
    }
    Ok(latches)
}

fn input_names(alloc: Global, named: &Circuit) -> Result<Vec<Option<Vec<u8>>>, AllocError>
    ensures { IfOk result (λ names. map name_bytes names.items ≡ named.now.input_names) }
{
    let symbols = input_symbols(alloc, named)?;
    copies(alloc, &symbols)
}

fn output_names(alloc: Global, named: &Circuit) -> Result<Vec<Option<Vec<u8>>>, AllocError>
    ensures { IfOk result (λ names. map name_bytes names.items ≡ named.now.output_names) }
{
    let symbols = output_symbols(alloc, named)?;
    copies(alloc, &symbols)
}

fn copies(alloc: Global, names: &[Option<&[u8]>]) -> Result<Vec<Option<Vec<u8>>>, AllocError>
    ensures { IfOk result (λ copies. map name_bytes copies.items ≡ map option_copied names.now) }
{
    let mut copies = Vec::new(alloc);
    for name in names {
        copies.push(copy_of(alloc, *name)?)?;
    }
    Ok(copies)
}

fn copy_of(alloc: Global, name: Option<&[u8]>) -> Result<Option<Vec<u8>>, AllocError>
    ensures { IfOk result (λ copy. name_bytes copy ≡ option_copied name.entry) }
{
    match name {
        Some(bytes) => Ok(Some(bytes.to_vec(alloc)?)),
        None => Ok(None),
    }
}
