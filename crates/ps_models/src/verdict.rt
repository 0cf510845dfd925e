//! Judges the words of a circuit's lasso traces by a formula, names and timing apart.

ghost use Rattle.std.specs.Prelude.{◌≡◌, ◌<◌, All, IfOk, map};
ghost use Rattle.ps_hoa.specs.Memory.{bytes_of};
ghost use Rattle.ps_label.specs.Truth.{is_in};
ghost use Rattle.ps_models.specs.Sentences.{named_formula};
ghost use Rattle.ps_models.specs.Verdicts.{IsVerdictOn};
ghost use Rattle.ps_product.specs.Roles.{AreRoles};
ghost use Rattle.ps_simulate.specs.Symbols.{HasSymbols};

use crate::satisfying::judged;
use crate::sentence::Sentence;
use ps_circuit::Circuit;
use ps_cone::reduced_to;
use ps_product::Roles;
use ps_sentences::mentioned;
use ps_simulate::{Role, circuit_has_one_values};
use ps_verify::Judgement;
use std::alloc::{AllocError, Global};

/// Whether each word of a controller's lasso traces satisfies the formula, or none of an environment's does; if not, a
/// stimulus on which they do not. In the product are only the latches on which the outputs that the formula mentions
/// depend. Fails if out of memory.
pub(crate) fn verdict(
    alloc: Global,
    circuit: &Circuit,
    sentence: Sentence,
    roles: &Roles,
    role: Role,
) -> Result<Judgement, AllocError>
    requires roles { AreRoles (map bytes_of sentence.names.now) circuit.now roles.now }
    requires symbols { HasSymbols role (map bytes_of sentence.names.now) sentence.controllable.now circuit.now }
    ensures { IfOk result (IsVerdictOn role (named_formula sentence.entry) circuit.now) }
{
    circuit_has_one_values();
    circuit.parts_fit();
    let letter = mentioned(alloc, sentence.formulas, sentence.root)?;
    let kept = are_in(alloc, &roles.outputs, letter)?;
    let part = reduced_to(alloc, circuit, &kept)?;
    judged(alloc, &part, sentence, roles, role)
}

/// For each of the propositions, whether it is true in the letter.
fn are_in(alloc: Global, propositions: &[u32], letter: u64) -> Result<Vec<bool>, AllocError>
    requires { All (λ p. p < 64) propositions.now }
    ensures { IfOk result (λ flags. flags.items ≡ map (λ p. is_in p letter) propositions.now) }
{
    propositions
        .iter()
        .map(|p| is_in(*p, letter))
        .collect(alloc)
}

fn is_in(p: u32, letter: u64) -> bool
    requires { p < 64 }
    ensures { result ≡ is_in p letter }
{
    letter >> p & 1 == 1
}
