//! The writer of AIGER texts.

ghost use Rattle.std.specs.Prelude.{◌≡◌, ◌++◌, ◌∷◌, [], length, map, codes, OnOk, IfOk, Ok};
ghost use Rattle.ps_circuit.specs.Texts.{ReadsCircuit};
ghost use Rattle.ps_circuit.specs.Drafts.{name_bytes};
ghost use Rattle.ps_circuit.specs.Written.{fields, line, latch_line, literal_lines, latch_lines, gate_lines};
ghost use Rattle.ps_circuit.specs.Written.{symbol_line, symbol_lines, header_line, text_of};

use crate::circuit::Circuit;
use crate::literal::Literal;
use crate::parts::{Gate, Latch};
use ps_text::numbers::write_number;
use std::alloc::{AllocError, Global};

/// The text of a circuit (AIGER 1.9, ASCII format), with a symbol table. Fails if out of memory.
pub fn write(alloc: Global, circuit: &Circuit) -> Result<Vec<u8>, AllocError>
    ensures bytes { IfOk result (λ bytes. bytes.items ≡ text_of circuit.now) }
    ensures read_again { IfOk result (λ bytes. ReadsCircuit bytes.items (Ok circuit.now)) }
{
    let mut out = Vec::new(alloc);
    write_header(&mut out, circuit)?;
    write_literals(&mut out, circuit.inputs())?;
    write_latches(&mut out, circuit.latches())?;
    write_literals(&mut out, circuit.outputs())?;
    write_gates(&mut out, circuit.gates())?;
    write_symbols(&mut out, b'i', circuit.input_names())?;
    write_symbols(&mut out, b'l', circuit.latch_names())?;
    write_symbols(&mut out, b'o', circuit.output_names())?;
    Ok(out)
}

fn write_header(out: &mut Vec<u8>, circuit: &Circuit) -> Result<(), AllocError>
    ensures { OnOk result (out.new.items ≡ out.old.items ++ header_line circuit.now) }
{
    let numbers = [
        u64::from(circuit.most()),
        circuit.inputs().len() as u64,
        circuit.latches().len() as u64,
        circuit.outputs().len() as u64,
        circuit.gates().len() as u64,
    ];
    out.extend_from_slice(b"aag")?;
    write_fields(out, &numbers)?;
    out.push(b'\n')?;
    Ok(())
}

fn write_literals(out: &mut Vec<u8>, literals: &[Literal]) -> Result<(), AllocError>
    ensures { OnOk result (out.new.items ≡ out.old.items ++ literal_lines literals.now) }
{
    for &literal in literals {
        write_line(out, literal, &[])?;
    }
    Ok(())
}

fn write_latches(out: &mut Vec<u8>, latches: &[Latch]) -> Result<(), AllocError>
    ensures { OnOk result (out.new.items ≡ out.old.items ++ latch_lines latches.now) }
{
    for &latch in latches {
        write_latch(out, latch)?;
    }
    Ok(())
}

fn write_latch(out: &mut Vec<u8>, latch: Latch) -> Result<(), AllocError>
    ensures { OnOk result (out.new.items ≡ out.old.items ++ latch_line latch) }
{
    if latch.reset {
        write_line(out, latch.literal, &[u64::from(latch.next.number()), 1])
    } else {
        write_line(out, latch.literal, &[u64::from(latch.next.number())])
    }
}

fn write_gates(out: &mut Vec<u8>, gates: &[Gate]) -> Result<(), AllocError>
    ensures { OnOk result (out.new.items ≡ out.old.items ++ gate_lines gates.now) }
{
    for &gate in gates {
        write_line(
            out,
            gate.literal,
            &[
                u64::from(gate.first.number()),
                u64::from(gate.second.number()),
            ],
        )?;
    }
    Ok(())
}

fn write_symbols(out: &mut Vec<u8>, letter: u8, names: &[Option<Vec<u8>>]) -> Result<(), AllocError>
    ensures { OnOk result (out.new.items ≡ out.old.items ++ symbol_lines letter 0 (map name_bytes names.now)) }
{
    for (number, name) in names.iter().enumerate() {
        write_symbol(out, letter, number, name)?;
    }
    Ok(())
}

fn write_symbol(
    out: &mut Vec<u8>,
    letter: u8,
    number: usize,
    name: &Option<Vec<u8>>,
) -> Result<(), AllocError>
    ensures { OnOk result (out.new.items ≡ out.old.items ++ symbol_line letter number (name_bytes name.now)) }
{
    if let Some(name) = name {
        out.push(letter)?;
        write_number(out, number as u64)?;
        out.push(b' ')?;
        out.extend_from_slice(name)?;
        out.push(b'\n')?;
    }
    Ok(())
}

fn write_line(out: &mut Vec<u8>, first: Literal, others: &[u64]) -> Result<(), AllocError>
    ensures { OnOk result (out.new.items ≡ out.old.items ++ line first others.now) }
{
    write_number(out, u64::from(first.number()))?;
    write_fields(out, others)?;
    out.push(b'\n')?;
    Ok(())
}

fn write_fields(out: &mut Vec<u8>, numbers: &[u64]) -> Result<(), AllocError>
    ensures { OnOk result (out.new.items ≡ out.old.items ++ fields numbers.now) }
{
    for &number in numbers {
        out.push(b' ')?;
        write_number(out, number)?;
    }
    Ok(())
}
