//! From a specification's text to an automaton.

ghost use Rattle.std.specs.Prelude.{◌≡◌, ◌↔◌, IfErr, IfOk, IsTrue, Ok};
ghost use Rattle.ps_automaton.specs.Automata.{IsBuiltFrom};
ghost use Rattle.ps_automaton.specs.Chains.{Chain};
ghost use Rattle.ps_hoa.specs.Files.{FileData};
ghost use Rattle.ps_tlsf.specs.Reading.{answer_of};
ghost use Rattle.ps_tlsf.specs.SpecificationViews.{HasRoots, specification_data};
ghost use Rattle.ps_specification.specs.Inner.Steps.{IsSound};
ghost use Rattle.ps_specification.specs.Promises.{HasItsPropositions, IsTranslation, IsTranslationOf};
ghost use Rattle.ps_specification.specs.Promises.{KeepsTranslation};
ghost use Rattle.ps_specification.specs.Translating.{IsBeyondLimits};
ghost use Rattle.ps_specification.specs.TranslationFaults.{IsTranslationFault, IsTranslationFaultBy};

use crate::fault::SpecificationFault;
use crate::judging::compared;
use crate::synthesis::read;
use crate::translator::Translator;
use ps_automaton::Automaton;
use ps_models::{Agreement, AgreementFault};
use ps_tlsf::{Specification, names_of, outputs_of};
use std::alloc::{AllocError, Global};

/// The HOA text of a deterministic parity automaton that accepts exactly the lassos which satisfy the specification.
/// Its propositions are the specification's, in their order, the outputs controllable. Fails, in this order, with the
/// first error of the specification's text; with `NotTranslated`; with `NotJudged` if the translator's text is none of
/// such an automaton; or if memory runs out.
pub fn translate_specification<T: Translator>(
    alloc: Global,
    text: &[u8],
    translator: &T,
) -> Result<Vec<u8>, SpecificationFault>
    ensures promise { IfOk result (λ hoa. KeepsTranslation text.now hoa.items) }
    ensures refused { IfErr result (IsTranslationFault (T.may_give translator.now) text.now) }
{
    let specification = read(alloc, text)?;
    let hoa = translated(alloc, text, &specification, translator);
    drop(specification);
    hoa
}

/// The same, for the specification that was read.
fn translated<T: Translator>(
    alloc: Global,
    text: &[u8],
    specification: &Specification,
    translator: &T,
) -> Result<Vec<u8>, SpecificationFault>
    requires reads { answer_of text.now ≡ Ok (specification_data specification.now) }
    requires sound { IsSound specification.now }
    ensures promise { IfOk result (λ hoa. KeepsTranslation text.now hoa.items) }
    ensures refused { IfErr result (IsTranslationFault (T.may_give translator.now) text.now) }
{
    let title = title_in(text, specification);
    let Some(hoa) = translator.translate(alloc, specification, title)? else {
        return Err(SpecificationFault::NotTranslated);
    };
    passed(alloc, specification, hoa)
}

/// A specification's title, with its quotes.
fn title_in<'a>(text: &'a [u8], specification: &Specification) -> Option<&'a [u8]> {
    let span = specification.title?;
    text.get(span.start..span.stop)
}

fn passed(
    alloc: Global,
    specification: &Specification,
    hoa: Vec<u8>,
) -> Result<Vec<u8>, SpecificationFault>
    requires { IsSound specification.now }
    ensures translation { IfOk result (λ passed. IsTranslationOf (specification_data specification.now) passed.items) }
    ensures refused { IfErr result (IsTranslationFaultBy (specification_data specification.now) hoa.items) }
{
    if is_translation(alloc, specification, &hoa)? {
        Ok(hoa)
    } else {
        Err(SpecificationFault::NotJudged)
    }
}

fn is_translation(
    alloc: Global,
    specification: &Specification,
    hoa: &[u8],
) -> Result<bool, SpecificationFault>
    requires { IsSound specification.now }
    ensures translation { IfOk result (λ is. IsTrue is ↔ IsTranslationOf (specification_data specification.now)
        hoa.now) }
    ensures within { IfOk result (λ _. ¬ IsBeyondLimits hoa.now) }
    ensures refused { IfErr result (IsTranslationFaultBy (specification_data specification.now) hoa.now) }
{
    ps_hoa::one_answer();
    ps_automaton::refusal_is_one();
    let automaton = ps_synthesis::read_automaton(alloc, hoa)?;
    Ok(agrees(alloc, specification, &automaton)?)
}

/// Whether propositions and lassos are the specification's.
fn agrees(
    alloc: Global,
    specification: &Specification,
    automaton: &Automaton,
) -> Result<bool, AllocError>
    requires { IsSound specification.now }
    ensures { IfOk result (λ agrees. (file : FileData) (chain : Chain) → IsBuiltFrom file chain automaton.now →
        IsTrue agrees ↔ IsTranslation (specification_data specification.now) file) }
{
    if !has_propositions(alloc, specification, automaton)? {
        return Ok(false);
    }
    match compared(alloc, automaton, specification) {
        Ok(Agreement::Agrees) => Ok(true),
        Ok(Agreement::Accepts(_)) => Ok(false),
        Ok(Agreement::Rejects(_)) => Ok(false),
        Err(AgreementFault::Symbols) => Ok(false),
        Err(AgreementFault::OutOfMemory) => Err(AllocError),
    }
}

/// Whether the propositions are the same, in their order and each of the same player.
fn has_propositions(
    alloc: Global,
    specification: &Specification,
    automaton: &Automaton,
) -> Result<bool, AllocError>
    requires roots { HasRoots specification.now }
    ensures { IfOk result (λ has. IsTrue has ↔ HasItsPropositions (specification_data specification.now)
        automaton.now.names automaton.now.controllable) }
{
    let names = names_of(alloc, &specification.propositions)?;
    let outputs = outputs_of(alloc, &specification.propositions)?;
    Ok(automaton.names() == names.as_slice() && automaton.controllable() == outputs.as_slice())
}
