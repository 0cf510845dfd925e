//! Faults of synthesis as lines, or as lack of memory.

use crate::answer::Refusal;
use crate::fault::{FaultLine, Place};
use ps_automaton::AutomatonFault;
use ps_specification::SpecificationFault;
use ps_synthesis::SynthFault;

/// Why a file has no automaton.
impl From<AutomatonFault> for Refusal {
    ghost use Rattle.ps_program.specs.StageFaults.{IsAutomatonTold};

    ghost from_gives = { IsAutomatonTold };

    fn from(fault: AutomatonFault) -> Self {
        let place = match fault {
            AutomatonFault::ComplementedSet | AutomatonFault::NonParity => Place::Nowhere,
            AutomatonFault::Nondeterministic {
                state,
                first,
                second,
            } => Place::Edges {
                state: state as usize,
                first,
                second,
            },
            AutomatonFault::OutOfMemory => return Refusal::OutOfMemory,
        };
        Refusal::Fault(FaultLine {
            number: fault.number(),
            name: fault.name(),
            place,
        })
    }
}

/// Why synthesis made no certificate, circuit or report.
impl From<SynthFault> for Refusal {
    ghost use Rattle.ps_program.specs.StageFaults.{IsTold};

    ghost from_gives = { IsTold };

    fn from(fault: SynthFault) -> Self {
        let number = fault.number();
        let name = fault.name();
        let place = match fault {
            SynthFault::Automaton(fault) => return Refusal::from(fault),
            SynthFault::Text { cause: _, offset } | SynthFault::Certificate { cause: _, offset } =>
                { Place::Byte(offset) }
            SynthFault::BadCycle(ids) => Place::Cycle(ids),
            SynthFault::NotCertified | SynthFault::CircuitTooLarge => Place::Nowhere,
            SynthFault::OutOfMemory => return Refusal::OutOfMemory,
        };
        Refusal::Fault(FaultLine {
            number,
            name,
            place,
        })
    }
}

/// Why a specification gets no circuit.
impl From<SpecificationFault> for Refusal {
    ghost use Rattle.ps_program.specs.Commands.SynthesisTlsf.{IsSpecificationTold};

    ghost from_gives = { IsSpecificationTold };

    fn from(fault: SpecificationFault) -> Self {
        let (number, name) = (fault.number(), fault.name());
        let place = match fault {
            SpecificationFault::Text { cause: _, offset } => Place::Byte(offset),
            SpecificationFault::NotTranslated | SpecificationFault::NotJudged => Place::Nowhere,
            SpecificationFault::OutOfMemory => return Refusal::OutOfMemory,
        };
        Refusal::Fault(FaultLine {
            number,
            name,
            place,
        })
    }
}
