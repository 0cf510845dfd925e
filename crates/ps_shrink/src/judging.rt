//! Judges of circuits.

ghost use Rattle.std.specs.Prelude.{◌<◌, IfErr, IfOk, IsTrue, length};
ghost use Rattle.ps_circuit.specs.Circuits.{CircuitData};
ghost use Rattle.ps_product.specs.declared.fault.ProductFault.{ProductFault};
ghost use Rattle.ps_product.specs.declared.fault.ProductFault.TheVariants.{OutOfMemory};
ghost use Rattle.ps_simulate.specs.Stimuli.{StimulusData};
ghost use Rattle.ps_shrink.specs.Reductions.{IsJudgementBy};

use crate::trials::Trials;
use ps_circuit::Circuit;
use ps_product::ProductFault;
use ps_simulate::Role;
use ps_verify::Judgement;
use std::alloc::{AllocError, Global};

/// The propositions of a judge, and the role of its circuits.
#[derive(Clone, Copy)]
pub struct Alphabet<'a> {
    /// The names of the propositions, in the order of their numbers.
    pub names: &'a [Vec<u8>],
    /// The numbers of the propositions that a controller sets.
    pub controllable: &'a [u32],
    /// Whether the circuits are controllers or environments.
    pub role: Role,
}

/// Judges circuits by what they have to win.
pub trait Judge {
    /// Whether the value can judge.
    ghost may_judge: { Self → Type 0 };

    /// Which circuits win.
    ghost wins: { Self → CircuitData → Type 0 };

    /// On which stimuli a circuit loses.
    ghost loses: { Self → CircuitData → StimulusData → Type 0 };

    /// Why a circuit is not judged.
    ghost refuses: { Self → CircuitData → ProductFault → Type 0 };

    /// Whether the circuit wins; if not, a stimulus on which it loses.
    fn judge(&self, alloc: Global, circuit: &Circuit) -> Result<Judgement, ProductFault>
        requires { may_judge self.now }
        ensures judged { IfOk result (IsJudgementBy (wins self.now) (loses self.now) circuit.now) }
        ensures refused { IfErr result (refuses self.now circuit.now) };

    /// Whether a circuit loses that has this word: bit p of a letter is proposition p, and the lap repeats for ever. Of
    /// a circuit that is said to lose, no judgement is asked; nothing else depends on it.
    fn refutes(&self, alloc: Global, stem: &[u64], lap: &[u64]) -> Result<bool, AllocError>
        requires judge { may_judge self.now }
        requires some { 0 < length lap.now };

    /// Memory may run out with any circuit.
    ghost memory: { (judge : Self) (c : CircuitData) → refuses judge c OutOfMemory };
}

/// Whether the circuit wins. If not, the stimulus on which it loses is kept.
pub(crate) fn wins<J: Judge>(
    alloc: Global,
    judge: &J,
    trials: &mut Trials,
    circuit: &Circuit,
) -> Result<bool, AllocError>
    requires { J.may_judge judge.now }
    ensures { IfOk result (λ wins. IsTrue wins → J.wins judge.now circuit.now) }
{
    match judge.judge(alloc, circuit) {
        Ok(Judgement::Wins) => Ok(true),
        Ok(Judgement::Loses(stimulus)) => {
            trials.put_first(stimulus)?;
            Ok(false)
        }
        Err(ProductFault::OutOfMemory) => Err(AllocError),
        Err(_) => Ok(false),
    }
}
