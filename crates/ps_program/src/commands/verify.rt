//! The command `verify`.

ghost use Rattle.std.specs.Prelude.{◌≡◌, ◌++◌, IfOk, OnOk};
ghost use Rattle.ps_automaton.specs.Automata.{IsBuiltFrom};
ghost use Rattle.ps_automaton.specs.Chains.{Chain};
ghost use Rattle.ps_circuit.specs.Circuits.{IsCircuit};
ghost use Rattle.ps_hoa.specs.Files.{FileData};
ghost use Rattle.ps_simulate.specs.Stimuli.{letters_of};
ghost use Rattle.ps_program.specs.Outcomes.{Gives};
ghost use Rattle.ps_program.specs.Replies.{reply_of};
ghost use Rattle.ps_program.specs.Commands.Verifying as verifying;
ghost use Rattle.ps_program.specs.Commands.Verifying.{AnswersVerify, TellsJudgement, VerifiesText, letter_lines};

use crate::answer::{Answer, Refusal};
use crate::automata::read_mixed_automaton;
use crate::commands::sim::write_bits;
use crate::fault::{FaultLine, Place};
use crate::texts::{read_circuit, two_texts};
use ps_automaton::Automaton;
use ps_circuit::Circuit;
use ps_machine::Order;
use ps_product::ProductFault;
use ps_simulate::{Role, Stimulus};
use ps_verify::{Judgement, verified};
use std::alloc::{AllocError, Global};

/// Whether an automaton accepts each lasso trace of a controller, or none of an environment; if not, a stimulus on
/// which the circuit loses. Fails with the first of: a missing text, a fault of the automaton, an error in the
/// circuit's text, wrong symbols for its role (`Symbols`), outputs that depend on inputs which come later (`Timing`).
pub fn verify(alloc: Global, order: Order, role: Role, texts: &[u8]) -> Result<Answer, Refusal>
    ensures { Gives reply_of (AnswersVerify order role texts.now) result }
{
    let (hoa, aag) = two_texts(texts)?;
    let automaton = read_mixed_automaton(alloc, hoa)?;
    verify_text(alloc, order, role, &automaton, aag)
}

fn verify_text(
    alloc: Global,
    order: Order,
    role: Role,
    automaton: &Automaton,
    aag: &[u8],
) -> Result<Answer, Refusal>
    ensures { (file : FileData) (chain : Chain) → IsBuiltFrom file chain automaton.now →
        Gives reply_of (VerifiesText order role file aag.now) result }
{
    let circuit = read_circuit(alloc, aag)?;
    tell(alloc, order, role, automaton, &circuit)
}

/// The judgement, or the fault `Symbols` or `Timing`.
fn tell(
    alloc: Global,
    order: Order,
    role: Role,
    automaton: &Automaton,
    circuit: &Circuit,
) -> Result<Answer, Refusal>
    requires { IsCircuit circuit.now }
    ensures { (file : FileData) (chain : Chain) → IsBuiltFrom file chain automaton.now →
        Gives reply_of (TellsJudgement order role file circuit.now) result }
{
    match verified(alloc, circuit, automaton, order, role) {
        Ok(Judgement::Wins) => Ok(Answer::line(alloc, "wins")?),
        Ok(Judgement::Loses(stimulus)) => Ok(Answer::text(losing_text(alloc, &stimulus)?)),
        Err(ProductFault::OutOfMemory) => Err(Refusal::OutOfMemory),
        Err(fault) => Err(Refusal::Fault(FaultLine {
            number: fault.number(),
            name: fault.name(),
            place: Place::Nowhere,
        })),
    }
}

/// `loses`, and the stimulus on which the circuit does.
pub(crate) fn losing_text(alloc: Global, stimulus: &Stimulus) -> Result<Vec<u8>, AllocError>
    ensures { IfOk result (λ text. text.items ≡ verifying.losing_text stimulus.now) }
{
    let mut text = Vec::from_slice(alloc, b"loses\n")?;
    write_letters(&mut text, &stimulus.stem)?;
    text.extend_from_slice(b"-\n")?;
    write_letters(&mut text, &stimulus.lap)?;
    Ok(text)
}

/// Appends each letter as a line of bits.
fn write_letters(text: &mut Vec<u8>, letters: &[Vec<bool>]) -> Result<(), AllocError>
    ensures { OnOk result (text.new.items ≡ text.old.items ++ letter_lines (letters_of letters.now)) }
{
    for letter in letters {
        write_bits(text, letter, b'\n')?;
    }
    Ok(())
}
