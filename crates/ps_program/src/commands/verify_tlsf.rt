//! The command `verify --tlsf`.

ghost use Rattle.ps_circuit.specs.Circuits.{IsCircuit};
ghost use Rattle.ps_tlsf.specs.SpecificationViews.{specification_data};
ghost use Rattle.ps_program.specs.Inner.Parsed.{IsParsed};
ghost use Rattle.ps_program.specs.Outcomes.{Gives};
ghost use Rattle.ps_program.specs.Replies.{reply_of};
ghost use Rattle.ps_program.specs.Commands.VerifyingTlsf.{AnswersVerifyTlsf, TellsSpecified, VerifiesSpecified};

use crate::answer::{Answer, Refusal};
use crate::commands::verify::losing_text;
use crate::fault::{FaultLine, Place};
use crate::texts::{read_circuit, read_specification, two_texts};
use ps_circuit::Circuit;
use ps_product::ProductFault;
use ps_simulate::Role;
use ps_specification::judged;
use ps_tlsf::Specification;
use ps_verify::Judgement;
use std::alloc::Global;

/// Does what `verify` does, but by a specification, and fails with an error in its text in place of the automaton's
/// fault.
pub fn verify_tlsf(alloc: Global, role: Role, texts: &[u8]) -> Result<Answer, Refusal>
    ensures { Gives reply_of (AnswersVerifyTlsf role texts.now) result }
{
    let (tlsf, aag) = two_texts(texts)?;
    let specification = read_specification(alloc, tlsf)?;
    verify_text(alloc, role, &specification, aag)
}

fn verify_text(
    alloc: Global,
    role: Role,
    specification: &Specification,
    aag: &[u8],
) -> Result<Answer, Refusal>
    requires { IsParsed specification.now }
    ensures { Gives reply_of (VerifiesSpecified role (specification_data specification.now) aag.now) result }
{
    let circuit = read_circuit(alloc, aag)?;
    tell(alloc, role, specification, &circuit)
}

/// The judgement, or the fault `Symbols` or `Timing`.
fn tell(
    alloc: Global,
    role: Role,
    specification: &Specification,
    circuit: &Circuit,
) -> Result<Answer, Refusal>
    requires circuit { IsCircuit circuit.now }
    requires parsed { IsParsed specification.now }
    ensures { Gives reply_of (TellsSpecified role (specification_data specification.now) circuit.now) result }
{
    match judged(alloc, circuit, specification, role) {
        Ok(Judgement::Wins) => Ok(Answer::line(alloc, "wins")?),
        Ok(Judgement::Loses(stimulus)) => Ok(Answer::text(losing_text(alloc, &stimulus)?)),
        Err(ProductFault::OutOfMemory) => Err(Refusal::OutOfMemory),
        Err(fault) => Err(Refusal::Fault(FaultLine {
            number: fault.number(),
            name: fault.name(),
            place: Place::Nowhere,
        })),
    }
}
