//! The automaton of a command's first text.

ghost use Rattle.ps_program.specs.Automata.{GivesAutomaton, IsOfFile, IsOfFileOrMixed};

use crate::answer::Refusal;
use ps_automaton::Automaton;
use std::alloc::Global;

/// The automaton of an HOA text. Fails with the text's first error, or because the file has no automaton.
pub fn read_automaton(alloc: Global, text: &[u8]) -> Result<Automaton, Refusal>
    ensures { GivesAutomaton IsOfFile text.now result }
{
    Ok(ps_synthesis::read_automaton(alloc, text)?)
}

/// The automaton of an HOA text, or that of a mixed file of it (`ps_mixing`), whose diagrams may be smaller. Fails as
/// `read_automaton`.
pub fn read_mixed_automaton(alloc: Global, text: &[u8]) -> Result<Automaton, Refusal>
    ensures { GivesAutomaton IsOfFileOrMixed text.now result }
{
    Ok(ps_synthesis::read_mixed_automaton(alloc, text)?)
}
