//! The parser of AIGER texts.

ghost use Rattle.std.specs.Prelude.{◌≡◌, ◌≢◌, ℕ, ◌<◌, ◌≤◌, ◌+◌, ◌*◌, ◌^◌, List, [], ◌∷◌, ◌++◌, length, map, vec_len};
ghost use Rattle.std.specs.Prelude.{IfOk, Contains, IsTrue, ◌⊎◌, false, slice_index};
ghost use Rattle.ps_text.specs.declared.faults.Fault.TheVariants as faults;
ghost use Rattle.ps_circuit.specs.Circuits.{CircuitData, IsCircuit};
ghost use Rattle.ps_circuit.specs.Drafts.{data_of};
ghost use Rattle.ps_circuit.specs.Inner.Reading.{AreDefinedParts, IsSoundDraft, TellsCircuit, TellsDefined, TellsDraft};
ghost use Rattle.ps_circuit.specs.Inner.Reading.{draft_data};
ghost use Rattle.ps_circuit.specs.Texts.{IsCircuitAnswer};
ghost use Rattle.ps_circuit.specs.declared.fault.AigCause.{AigCause};

use crate::circuit::{Circuit, CircuitFault};
use crate::fault::{AigCause, AigFault};
use crate::header::read_header;
use crate::lines::{GateLine, InputLine, LatchLine, Noted, OutputLine, lines};
use crate::names::{Names, comment, symbols};
use crate::parts::Parts;
use crate::sizes::Header;
use crate::variables::Variables;
use ps_text::cursor::Cursor;
use std::alloc::Global;

/// A text has a bit for each of its variables, if they are not more than its bytes and this many.
const LEAST_LIMIT: usize = 4096;

/// The parts that a text states, and what was noted for checks.
#[derive(Drop)]
pub(crate) struct Draft {
    parts: Parts,
    noted: Noted,
}

/// Parses a circuit (AIGER 1.9, ASCII format). Fails with the first error, undefined variables and cycles only if the
/// text has no other, or if out of memory.
pub fn read(alloc: Global, text: &[u8]) -> Result<Circuit, AigFault>
    ensures exact { IsCircuitAnswer text.now result }
    ensures well_formed { IfOk result (λ c. IsCircuit c) }
{
    let Draft { parts, noted } = read_draft(alloc, text)?;
    all_defined(&noted)?;
    assembled(alloc, parts, &noted.starts)
}

/// A number above all variables, or else not much greater than the text's length.
fn limit_of(header: Header, text: &[u8]) -> usize {
    (header.most as usize + 1).min(text.len().saturating_add(LEAST_LIMIT))
}

fn read_draft(alloc: Global, text: &[u8]) -> Result<Draft, AigFault>
    ensures exact { TellsDraft text.now result }
    ensures sound { IfOk result (λ d. IsSoundDraft (draft_data d)) }
{
    let mut cursor = Cursor::of_lines(text);
    let header = read_header(&mut cursor)?;
    let mut noted = Noted::nothing(alloc, limit_of(header, text))?;
    let inputs = lines::<InputLine>(alloc, &mut cursor, &mut noted, header, header.inputs)?;
    let latches = lines::<LatchLine>(alloc, &mut cursor, &mut noted, header, header.latches)?;
    let outputs = lines::<OutputLine>(alloc, &mut cursor, &mut noted, header, header.outputs)?;
    let gates = lines::<GateLine>(alloc, &mut cursor, &mut noted, header, header.gates)?;
    let mut names = Names::none(alloc, inputs.len(), latches.len(), outputs.len())?;
    symbols(alloc, &mut cursor, &mut names)?;
    comment(&mut cursor)?;
    let parts = Parts {
        most: header.most,
        inputs,
        latches,
        outputs,
        gates,
        input_names: names.inputs,
        latch_names: names.latches,
        output_names: names.outputs,
    };
    Ok(Draft { parts, noted })
}

/// Checks that the variables of all used literals are defined or 0; the fault is at the first that is not.
fn all_defined(noted: &Noted) -> Result<(), AigFault>
    ensures { TellsDefined noted.now.variables noted.now.readings.items result }
{
    for &number in &noted.readings {
        if !is_defined(&noted.variables, number.variable()) {
            return Err(number.refused(AigCause::Undefined));
        }
    }
    Ok(())
}

fn is_defined(variables: &Variables, variable: u64) -> bool
    ensures defined { IsTrue result → (variable ≡ 0) ⊎ Contains variables.now variable }
    ensures not_defined { result ≡ false → (variable ≡ 0) ⊎ Contains variables.now variable → ⊥ }
{
    variable == 0 || variables.has(variable)
}

/// The fault of a gate that depends on itself, at its line.
fn cyclic(starts: &[usize], gate: usize) -> AigFault
    requires { gate < length starts.now }
    ensures { result ≡ faults.Text AigCause.Cyclic (slice_index starts.now gate) }
{
    AigFault::Text {
        cause: AigCause::Cyclic,
        offset: starts[gate],
    }
}

/// The circuit of the parts. Fails if a gate depends on itself, or if out of memory.
fn assembled(alloc: Global, parts: Parts, starts: &[usize]) -> Result<Circuit, AigFault>
    requires { AreDefinedParts (data_of parts) starts.now }
    ensures { TellsCircuit (data_of parts) starts.now result }
{
    match Circuit::new(alloc, parts) {
        Ok(circuit) => Ok(circuit),
        Err(CircuitFault::Cyclic { gate }) => Err(cyclic(starts, gate)),
        Err(CircuitFault::OutOfMemory) => Err(AigFault::OutOfMemory),
    }
}
