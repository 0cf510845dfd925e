//! The command `shrink`.

ghost use Rattle.ps_automaton.specs.Automata.{IsBuiltFrom};
ghost use Rattle.ps_automaton.specs.Chains.{Chain};
ghost use Rattle.ps_circuit.specs.Circuits.{IsCircuit};
ghost use Rattle.ps_hoa.specs.Files.{FileData};
ghost use Rattle.ps_program.specs.Outcomes.{Gives};
ghost use Rattle.ps_program.specs.Replies.{reply_of};
ghost use Rattle.ps_program.specs.Commands.Shrinking.{AnswersShrink, ShrinksText, TellsReduction};

use crate::answer::{Answer, Refusal};
use crate::automata::read_mixed_automaton;
use crate::commands::verify::losing_text;
use crate::fault::{FaultLine, Place};
use crate::texts::{read_circuit, two_texts};
use ps_automaton::Automaton;
use ps_circuit::{Circuit, write};
use ps_machine::Order;
use ps_product::ProductFault;
use ps_shrink::{Reduction, shrunk};
use ps_simulate::Role;
use std::alloc::Global;

/// How many changes are tried.
pub const STEPS: u32 = 100_000;

/// A circuit that wins and is not larger than the given one; if that loses, a stimulus on which it does. Fails as
/// `verify` does.
pub fn shrink(alloc: Global, order: Order, role: Role, texts: &[u8]) -> Result<Answer, Refusal>
    ensures { Gives reply_of (AnswersShrink order role texts.now) result }
{
    let (hoa, aag) = two_texts(texts)?;
    let automaton = read_mixed_automaton(alloc, hoa)?;
    shrink_text(alloc, order, role, &automaton, aag)
}

fn shrink_text(
    alloc: Global,
    order: Order,
    role: Role,
    automaton: &Automaton,
    aag: &[u8],
) -> Result<Answer, Refusal>
    ensures { (file : FileData) (chain : Chain) → IsBuiltFrom file chain automaton.now →
        Gives reply_of (ShrinksText order role file aag.now) result }
{
    let circuit = read_circuit(alloc, aag)?;
    tell(alloc, order, role, automaton, circuit)
}

/// The smaller circuit, the stimulus, or a fault as in `verify`.
fn tell(
    alloc: Global,
    order: Order,
    role: Role,
    automaton: &Automaton,
    circuit: Circuit,
) -> Result<Answer, Refusal>
    requires { IsCircuit circuit }
    ensures { (file : FileData) (chain : Chain) → IsBuiltFrom file chain automaton.now →
        Gives reply_of (TellsReduction order role file circuit) result }
{
    match shrunk(alloc, circuit, automaton, order, role, STEPS) {
        Ok(Reduction::Wins(small)) => Ok(Answer::text(write(alloc, &small)?)),
        Ok(Reduction::Loses(stimulus)) => Ok(Answer::text(losing_text(alloc, &stimulus)?)),
        Err(ProductFault::OutOfMemory) => Err(Refusal::OutOfMemory),
        Err(fault) => Err(Refusal::Fault(FaultLine {
            number: fault.number(),
            name: fault.name(),
            place: Place::Nowhere,
        })),
    }
}
