//! The command `lasso --tlsf`.

ghost use Rattle.std.specs.Prelude.{◌≡◌, ◌++◌, ◌<◌, codes, length, map, All, IfErr, IfOk};
ghost use Rattle.ps_circuit.specs.Circuits.{IsCircuit};
ghost use Rattle.ps_formula.specs.Formulas.{formula_at};
ghost use Rattle.ps_simulate.specs.LassoFaults.{HasNoWordFault, IsWordFault};
ghost use Rattle.ps_simulate.specs.Lassos.{IsWordOf};
ghost use Rattle.ps_tlsf.specs.Names.{names_in, outputs_in};
ghost use Rattle.ps_tlsf.specs.NameViews.{name_data};
ghost use Rattle.ps_tlsf.specs.SpecificationViews.{HasRoots, specification_data};
ghost use Rattle.ps_program.specs.Inner.Parsed.{IsParsed};
ghost use Rattle.ps_program.specs.Outcomes.{Gives};
ghost use Rattle.ps_program.specs.Replies.{reply_of};
ghost use Rattle.ps_program.specs.Commands.Satisfying.{AnswersLassoTlsf, IsToldBy, RunsSpecified, TellsSatisfaction};
ghost use Rattle.ps_program.specs.Commands.Satisfying.{satisfaction_text};

use crate::answer::{Answer, Refusal};
use crate::fault::{FaultLine, Place};
use crate::texts::{read_circuit, read_specification, read_stimulus, three_texts};
use ps_circuit::Circuit;
use ps_simulate::{LassoFault, Role, Stimulus, TraceWord, trace_word};
use ps_tlsf::{Specification, names_of, outputs_of};
use std::alloc::{AllocError, Global};

/// Does what `lasso` does, but by a specification, and fails with an error in its text in place of the automaton's
/// fault.
pub fn lasso_tlsf(alloc: Global, role: Role, texts: &[u8]) -> Result<Answer, Refusal>
    ensures { Gives reply_of (AnswersLassoTlsf role texts.now) result }
{
    let (tlsf, aag, letters) = three_texts(texts)?;
    let specification = read_specification(alloc, tlsf)?;
    run_circuit(alloc, role, &specification, aag, letters)
}

fn run_circuit(
    alloc: Global,
    role: Role,
    specification: &Specification,
    aag: &[u8],
    letters: &[u8],
) -> Result<Answer, Refusal>
    requires { IsParsed specification.now }
    ensures { Gives reply_of (RunsSpecified role (specification_data specification.now) aag.now letters.now) result }
{
    let circuit = read_circuit(alloc, aag)?;
    let width = circuit.inputs().len();
    let stimulus = read_stimulus(alloc, letters, width, true)?;
    tell(alloc, role, specification, &circuit, &stimulus)
}

fn tell(
    alloc: Global,
    role: Role,
    specification: &Specification,
    circuit: &Circuit,
    stimulus: &Stimulus,
) -> Result<Answer, Refusal>
    requires circuit { IsCircuit circuit.now }
    requires stem { All (λ letter. length letter ≡ length circuit.now.inputs) stimulus.now.stem }
    requires lap { All (λ letter. length letter ≡ length circuit.now.inputs) stimulus.now.lap }
    requires parsed { IsParsed specification.now }
    ensures { Gives reply_of (TellsSatisfaction role (specification_data specification.now) circuit.now stimulus.now)
        result }
{
    match word_of(alloc, role, specification, circuit, stimulus) {
        Ok(word) => Ok(told(alloc, specification, &word)?),
        Err(LassoFault::OutOfMemory) => Err(Refusal::OutOfMemory),
        Err(LassoFault::Width) => unreachable!(),
        Err(fault) => Err(Refusal::Fault(FaultLine {
            number: fault.number(),
            name: fault.name(),
            place: Place::Nowhere,
        })),
    }
}

/// The word of the circuit's run, with a bit for each proposition. Fails with the first of `Width`, `EmptyLap` and
/// `Symbols` that applies, or if memory runs out.
fn word_of(
    alloc: Global,
    role: Role,
    specification: &Specification,
    circuit: &Circuit,
    stimulus: &Stimulus,
) -> Result<TraceWord, LassoFault>
    requires { IsParsed specification.now }
    ensures word { IfOk result (IsWordOf (names_in (map name_data specification.now.propositions.items)) circuit.now
        stimulus.now.stem stimulus.now.lap) }
    ensures sound { IfOk result (λ _. HasNoWordFault role
        (names_in (map name_data specification.now.propositions.items))
        (outputs_in (map name_data specification.now.propositions.items)) circuit.now stimulus.now.stem
        stimulus.now.lap) }
    ensures fault { IfErr result (IsWordFault role (names_in (map name_data specification.now.propositions.items))
        (outputs_in (map name_data specification.now.propositions.items)) circuit.now stimulus.now.stem
        stimulus.now.lap) }
{
    let names = names_of(alloc, &specification.propositions)?;
    let outputs = outputs_of(alloc, &specification.propositions)?;
    trace_word(
        alloc,
        circuit,
        &names,
        &outputs,
        role,
        &stimulus.stem,
        &stimulus.lap,
    )
}

fn told(
    alloc: Global,
    specification: &Specification,
    word: &TraceWord,
) -> Result<Answer, AllocError>
    requires roots { HasRoots specification.now }
    requires some { 0 < length word.now.lap }
    ensures { IfOk result (λ answer. IsToldBy (formula_at specification.now.table specification.now.root) word.now
        (reply_of answer)) }
{
    let root = specification.root;
    let satisfied = specification.table.holds(root, word.stem(), word.lap())?;
    Ok(Answer::text(satisfaction_line(alloc, satisfied, word)?))
}

fn satisfaction_line(
    alloc: Global,
    satisfied: bool,
    word: &TraceWord,
) -> Result<Vec<u8>, AllocError>
    ensures { IfOk result (λ line. line.items ≡ satisfaction_text satisfied word.now ++ codes "\n") }
{
    let told = if satisfied { "satisfied" } else { "violated" };
    let stem = word.stem().len();
    let lap = word.lap().len();
    let line = format!(in alloc; "{told} stem {stem} lap {lap}\n")?;
    Ok(line.into_bytes())
}
