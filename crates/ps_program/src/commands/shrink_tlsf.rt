//! The command `shrink --tlsf`.

ghost use Rattle.ps_circuit.specs.Circuits.{IsCircuit};
ghost use Rattle.ps_tlsf.specs.SpecificationViews.{specification_data};
ghost use Rattle.ps_program.specs.Inner.Parsed.{IsParsed};
ghost use Rattle.ps_program.specs.Outcomes.{Gives};
ghost use Rattle.ps_program.specs.Replies.{reply_of};
ghost use Rattle.ps_program.specs.Commands.ShrinkingTlsf.{AnswersShrinkTlsf, ShrinksSpecified, TellsReductionFor};

use crate::answer::{Answer, Refusal};
use crate::commands::shrink::STEPS;
use crate::commands::verify::losing_text;
use crate::fault::{FaultLine, Place};
use crate::texts::{read_circuit, read_specification, two_texts};
use ps_circuit::{Circuit, write};
use ps_product::ProductFault;
use ps_shrink::Reduction;
use ps_simulate::Role;
use ps_specification::shrunk_for;
use ps_tlsf::Specification;
use std::alloc::Global;

/// Does what `shrink` does, but by a specification. Fails as `verify --tlsf` does.
pub fn shrink_tlsf(alloc: Global, role: Role, texts: &[u8]) -> Result<Answer, Refusal>
    ensures { Gives reply_of (AnswersShrinkTlsf role texts.now) result }
{
    let (tlsf, aag) = two_texts(texts)?;
    let specification = read_specification(alloc, tlsf)?;
    shrink_text(alloc, role, &specification, aag)
}

fn shrink_text(
    alloc: Global,
    role: Role,
    specification: &Specification,
    aag: &[u8],
) -> Result<Answer, Refusal>
    requires { IsParsed specification.now }
    ensures { Gives reply_of (ShrinksSpecified role (specification_data specification.now) aag.now) result }
{
    let circuit = read_circuit(alloc, aag)?;
    tell(alloc, role, specification, circuit)
}

/// The smaller circuit, the stimulus, or a fault as in `verify --tlsf`.
fn tell(
    alloc: Global,
    role: Role,
    specification: &Specification,
    circuit: Circuit,
) -> Result<Answer, Refusal>
    requires circuit { IsCircuit circuit }
    requires parsed { IsParsed specification.now }
    ensures { Gives reply_of (TellsReductionFor role (specification_data specification.now) circuit) result }
{
    match shrunk_for(alloc, circuit, specification, role, STEPS) {
        Ok(Reduction::Wins(small)) => Ok(Answer::text(write(alloc, &small)?)),
        Ok(Reduction::Loses(stimulus)) => Ok(Answer::text(losing_text(alloc, &stimulus)?)),
        Err(ProductFault::OutOfMemory) => Err(Refusal::OutOfMemory),
        Err(fault) => Err(Refusal::Fault(FaultLine {
            number: fault.number(),
            name: fault.name(),
            place: Place::Nowhere,
        })),
    }
}
