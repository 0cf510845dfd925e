//! The automaton of an HOA text.

ghost use Rattle.std.specs.Prelude.{◌≡◌, IfOk, IfErr};
ghost use Rattle.ps_hoa.specs.Files.{FileData};
ghost use Rattle.ps_synthesis.specs.Promises.{IsAcceptedText};
ghost use Rattle.ps_synthesis.specs.Stages.{IsAutomatonOf, IsTextFault};
ghost use Rattle.ps_synthesis.specs.declared.fault.SynthFault.TheVariants.{OutOfMemory};

use crate::fault::SynthFault;
use ps_automaton::{Automaton, refusal_is_one};
use ps_hoa::one_answer;
use std::alloc::Global;

/// The automaton of an HOA text. Fails with the text's first error, with the reason why its file has no automaton, or
/// if out of memory.
pub fn read_automaton(alloc: Global, text: &[u8]) -> Result<Automaton, SynthFault>
    ensures automaton { IfOk result (IsAutomatonOf text.now) }
    ensures refused { IfErr result (IsTextFault text.now) }
    ensures accepted { (file : FileData) → IsAcceptedText text.now file → IfErr result (λ fault. fault ≡ OutOfMemory) }
{
    one_answer();
    refusal_is_one();
    let file = ps_hoa::read(alloc, text)?;
    let automaton = Automaton::build(alloc, &file);
    drop(file);
    Ok(automaton?)
}
