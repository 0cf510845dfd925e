//! The command `sim`.

ghost use Rattle.std.specs.Prelude.{◌≡◌, ◌++◌, ◌∷◌, [], length, All, OnOk, IfOk};
ghost use Rattle.ps_simulate.specs.StimulusTexts.{digits_of};
ghost use Rattle.ps_program.specs.Outcomes.{Gives};
ghost use Rattle.ps_program.specs.Replies.{reply_of};
ghost use Rattle.ps_program.specs.Commands.Simulating.{AnswersSim, PrintsTrace, PrintsStep};

use crate::answer::{Answer, Refusal};
use crate::texts::read_simulated;
use ps_circuit::Circuit;
use ps_simulate::{Letters, Simulator};
use std::alloc::{AllocError, Global};

/// The trace of a circuit at given letters. Fails with the first of: a missing text, an error in the circuit's text,
/// one in the stimulus.
pub fn sim(alloc: Global, texts: &[u8]) -> Result<Answer, Refusal>
    ensures { Gives reply_of (AnswersSim texts.now) result }
{
    let (circuit, letters) = read_simulated(alloc, texts)?;
    let text = trace_text(alloc, &circuit, &letters)?;
    Ok(Answer::text(text))
}

/// The trace, a line for each letter.
fn trace_text(alloc: Global, circuit: &Circuit, letters: &Letters) -> Result<Vec<u8>, AllocError>
    requires { All (λ letter. length letter ≡ length circuit.now.inputs) letters.now }
    ensures { IfOk result (λ text. PrintsTrace circuit.now letters.now text.items) }
{
    let mut simulator = Simulator::new(alloc, circuit)?;
    let mut outputs = vec![in alloc; false; circuit.outputs().len()]?;
    let mut text = Vec::new(alloc);
    for place in 0..letters.len() {
        let letter = letters.letter(place);
        write_step(&mut text, &mut simulator, letter, &mut outputs)?;
    }
    Ok(text)
}

/// Makes a step, with a line for it.
fn write_step(
    text: &mut Vec<u8>,
    simulator: &mut Simulator,
    inputs: &[bool],
    outputs: &mut [bool],
) -> Result<(), AllocError>
    requires inputs_fit { length inputs.now ≡ length simulator.old.circuit.inputs }
    requires outputs_fit { length outputs.old ≡ length simulator.old.circuit.outputs }
    ensures step { OnOk result (PrintsStep simulator.old simulator.new inputs.now text.old.items text.new.items) }
    ensures circuit { simulator.new.circuit ≡ simulator.old.circuit }
{
    write_bits(text, simulator.latches(), b'|')?;
    write_bits(text, inputs, b'|')?;
    simulator.step(inputs, outputs);
    write_bits(text, outputs, b'\n')
}

/// Appends a digit for each bit, and then `end`.
pub(crate) fn write_bits(text: &mut Vec<u8>, bits: &[bool], end: u8) -> Result<(), AllocError>
    ensures { OnOk result (text.new.items ≡ text.old.items ++ digits_of bits.now ++ end ∷ []) }
{
    text.reserve(bits.len() + 1)?;
    for &bit in bits {
        text.push_reserved(if bit { b'1' } else { b'0' });
    }
    text.push_reserved(end);
    Ok(())
}
