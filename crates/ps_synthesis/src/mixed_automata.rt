//! The automaton of an HOA text, whose propositions may be mixed (`ps_mixing`).

ghost use Rattle.std.specs.Prelude.{IfErr, IfOk, OnOk};
ghost use Rattle.ps_automaton.specs.Answers.{IsAdmitted, IsRefused};
ghost use Rattle.ps_automaton.specs.Automata.{IsBuiltFrom};
ghost use Rattle.ps_automaton.specs.Chains.{Chain};
ghost use Rattle.ps_hoa.specs.Files.{FileData};
ghost use Rattle.ps_mixing.specs.MixedOrSame.{IsFileOrMixed};
ghost use Rattle.ps_synthesis.specs.MixedAutomata.{IsMixedAutomatonOf};
ghost use Rattle.ps_synthesis.specs.Stages.{IsTextFault};

use crate::fault::SynthFault;
use ps_automaton::{Automaton, AutomatonFault};
use ps_hoa::HoaFile;
use ps_mixing::{evenly_mixed, is_worth_mixing};
use std::alloc::Global;

/// Diagrams of fewer propositions are small in each order, and a mixed file takes memory beside the file.
const LEAST_MIXED: usize = 12;

/// The automaton of an HOA text, with its propositions mixed if the diagrams may then be smaller. Fails as
/// `read_automaton`.
pub fn read_mixed_automaton(alloc: Global, text: &[u8]) -> Result<Automaton, SynthFault>
    ensures automaton { IfOk result (IsMixedAutomatonOf text.now) }
    ensures refused { IfErr result (IsTextFault text.now) }
{
    let file = ps_hoa::read(alloc, text)?;
    let automaton = mixed_automaton(alloc, &file);
    drop(file);
    Ok(automaton?)
}

fn mixed_automaton(alloc: Global, file: &HoaFile) -> Result<Automaton, AutomatonFault>
    ensures built { IfOk result (λ automaton. (other : FileData) × IsFileOrMixed file.now other ×
        ((chain : Chain) × IsBuiltFrom other chain automaton)) }
    ensures admitted { OnOk result (IsAdmitted file.now) }
    ensures refused { IfErr result (IsRefused file.now) }
{
    if file.names().len() < LEAST_MIXED || !is_worth_mixing(file) {
        return Automaton::build(alloc, file);
    }
    let mixed = evenly_mixed(alloc, file)?;
    let automaton = Automaton::build(alloc, &mixed);
    drop(mixed);
    automaton
}
