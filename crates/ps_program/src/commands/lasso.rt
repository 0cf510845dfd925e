//! The command `lasso`.

ghost use Rattle.std.specs.Prelude.{◌≡◌, ◌++◌, codes, length, All, IfOk};
ghost use Rattle.ps_circuit.specs.Circuits.{IsCircuit};
ghost use Rattle.ps_automaton.specs.Automata.{IsBuiltFrom};
ghost use Rattle.ps_automaton.specs.Chains.{Chain};
ghost use Rattle.ps_hoa.specs.Files.{FileData};
ghost use Rattle.ps_program.specs.Commands.Lassos.{AnswersLasso, RunsCircuit, TellsVerdict, verdict_text};
ghost use Rattle.ps_program.specs.Outcomes.{Gives};
ghost use Rattle.ps_program.specs.Replies.{reply_of};

use crate::answer::{Answer, Refusal};
use crate::automata::read_mixed_automaton;
use crate::fault::{FaultLine, Place};
use crate::texts::{read_circuit, read_stimulus, three_texts};
use ps_automaton::Automaton;
use ps_circuit::Circuit;
use ps_simulate::{LassoFault, Role, Stimulus, Verdict};
use std::alloc::{AllocError, Global};

/// Whether an automaton accepts the word of a circuit in this role on a stem and a repeated lap. Fails with the first
/// of: a missing text, a fault of the automaton, an error in the circuit's text or the stimulus, an empty lap, symbols
/// that the role forbids.
pub fn lasso(alloc: Global, role: Role, texts: &[u8]) -> Result<Answer, Refusal>
    ensures { Gives reply_of (AnswersLasso role texts.now) result }
{
    let (hoa, aag, letters) = three_texts(texts)?;
    let automaton = read_mixed_automaton(alloc, hoa)?;
    run_circuit(alloc, role, &automaton, aag, letters)
}

fn run_circuit(
    alloc: Global,
    role: Role,
    automaton: &Automaton,
    aag: &[u8],
    letters: &[u8],
) -> Result<Answer, Refusal>
    ensures { (file : FileData) (chain : Chain) → IsBuiltFrom file chain automaton.now →
        Gives reply_of (RunsCircuit role file aag.now letters.now) result }
{
    let circuit = read_circuit(alloc, aag)?;
    let width = circuit.inputs().len();
    let stimulus = read_stimulus(alloc, letters, width, true)?;
    tell(alloc, role, automaton, &circuit, &stimulus)
}

/// The verdict, or the fault `EmptyLap` or `Symbols`.
fn tell(
    alloc: Global,
    role: Role,
    automaton: &Automaton,
    circuit: &Circuit,
    stimulus: &Stimulus,
) -> Result<Answer, Refusal>
    requires circuit { IsCircuit circuit.now }
    requires stem { All (λ letter. length letter ≡ length circuit.now.inputs) stimulus.now.stem }
    requires lap { All (λ letter. length letter ≡ length circuit.now.inputs) stimulus.now.lap }
    ensures { (file : FileData) (chain : Chain) → IsBuiltFrom file chain automaton.now →
        Gives reply_of (TellsVerdict role file circuit.now stimulus.now) result }
{
    match ps_simulate::lasso(
        alloc,
        circuit,
        automaton,
        role,
        &stimulus.stem,
        &stimulus.lap,
    ) {
        Ok(verdict) => Ok(Answer::text(verdict_line(alloc, verdict)?)),
        Err(LassoFault::OutOfMemory) => Err(Refusal::OutOfMemory),
        Err(LassoFault::Width) => unreachable!(),
        Err(fault) => Err(Refusal::Fault(FaultLine {
            number: fault.number(),
            name: fault.name(),
            place: Place::Nowhere,
        })),
    }
}

fn verdict_line(alloc: Global, verdict: Verdict) -> Result<Vec<u8>, AllocError>
    ensures { IfOk result (λ line. line.items ≡ verdict_text verdict ++ codes "\n") }
{
    let Verdict {
        accepted,
        stem,
        lap,
    } = verdict;
    let word = if accepted { "accepted" } else { "rejected" };
    let line = format!(in alloc; "{word} stem {stem} lap {lap}\n")?;
    Ok(line.into_bytes())
}
