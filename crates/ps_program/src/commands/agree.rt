//! The command `agree`.

ghost use Rattle.std.specs.Prelude.{◌≡◌, ◌++◌, ◌≤◌, IfOk, OnOk, map};
ghost use Rattle.std.specs.List.{range_with_len};
ghost use Rattle.ps_automaton.specs.Automata.{IsBuiltFrom};
ghost use Rattle.ps_automaton.specs.Chains.{Chain};
ghost use Rattle.ps_hoa.specs.Files.{FileData};
ghost use Rattle.ps_label.specs.Truth as labels;
ghost use Rattle.ps_tlsf.specs.SpecificationViews.{specification_data};
ghost use Rattle.ps_program.specs.Commands.Comparing as comparing;
ghost use Rattle.ps_program.specs.Commands.Comparing.{AnswersAgree, ComparesText, TellsAgreement, lasso_text};
ghost use Rattle.ps_program.specs.Commands.Comparing.{proposition_line, proposition_lines};
ghost use Rattle.ps_program.specs.Inner.Parsed.{IsParsed};
ghost use Rattle.ps_program.specs.Outcomes.{Gives};
ghost use Rattle.ps_program.specs.Replies.{reply_of};

use crate::answer::{Answer, Refusal};
use crate::automata::read_automaton;
use crate::commands::sim::write_bits;
use crate::fault::{FaultLine, Place};
use crate::texts::{read_specification, two_texts};
use ps_automaton::Automaton;
use ps_models::{Agreement, AgreementFault, Lasso};
use ps_specification::compared;
use ps_tlsf::Specification;
use std::alloc::{AllocError, Global};

/// Whether an automaton accepts exactly the lassos that satisfy a specification; if not, a lasso on which they differ.
/// Fails with the first of: a missing text, an error in the specification's text, a fault of the automaton,
/// propositions of the automaton that are not the specification's (`Symbols`).
pub fn agree(alloc: Global, texts: &[u8]) -> Result<Answer, Refusal>
    ensures { Gives reply_of (AnswersAgree texts.now) result }
{
    let (tlsf, hoa) = two_texts(texts)?;
    let specification = read_specification(alloc, tlsf)?;
    compare_text(alloc, &specification, hoa)
}

fn compare_text(alloc: Global, specification: &Specification, hoa: &[u8]) -> Result<Answer, Refusal>
    requires { IsParsed specification.now }
    ensures { Gives reply_of (ComparesText (specification_data specification.now) hoa.now) result }
{
    let automaton = read_automaton(alloc, hoa)?;
    tell(alloc, specification, &automaton)
}

/// What is printed after the comparison, or the fault `Symbols`.
fn tell(
    alloc: Global,
    specification: &Specification,
    automaton: &Automaton,
) -> Result<Answer, Refusal>
    requires { IsParsed specification.now }
    ensures { (file : FileData) (chain : Chain) → IsBuiltFrom file chain automaton.now →
        Gives reply_of (TellsAgreement (specification_data specification.now) file) result }
{
    match compared(alloc, automaton, specification) {
        Ok(agreement) => {
            let count = specification.propositions.len();
            Ok(Answer::text(agreement_text(alloc, count, &agreement)?))
        }
        Err(AgreementFault::Symbols) => Err(Refusal::Fault(FaultLine {
            number: AgreementFault::Symbols.number(),
            name: AgreementFault::Symbols.name(),
            place: Place::Nowhere,
        })),
        Err(AgreementFault::OutOfMemory) => Err(Refusal::OutOfMemory),
    }
}

/// What is printed for words over so many propositions.
fn agreement_text(alloc: Global, count: usize, agreement: &Agreement) -> Result<Vec<u8>, AllocError>
    ensures { IfOk result (λ text. text.items ≡ comparing.agreement_text count agreement.now) }
{
    match agreement {
        Agreement::Agrees => Vec::from_slice(alloc, b"agrees\n"),
        Agreement::Accepts(lasso) => difference_text(alloc, b"accepts\n", count, lasso),
        Agreement::Rejects(lasso) => difference_text(alloc, b"rejects\n", count, lasso),
    }
}

fn difference_text(
    alloc: Global,
    line: &[u8],
    count: usize,
    lasso: &Lasso,
) -> Result<Vec<u8>, AllocError>
    ensures { IfOk result (λ text. text.items ≡ line.now ++ lasso_text count lasso.now) }
{
    let mut text = Vec::from_slice(alloc, line)?;
    write_propositions(alloc, &mut text, count, &lasso.stem)?;
    text.extend_from_slice(b"-\n")?;
    write_propositions(alloc, &mut text, count, &lasso.lap)?;
    Ok(text)
}

/// Appends each letter as a line of digits, one for each proposition.
fn write_propositions(
    alloc: Global,
    text: &mut Vec<u8>,
    count: usize,
    letters: &[u64],
) -> Result<(), AllocError>
    ensures { OnOk result (text.new.items ≡ text.old.items ++ proposition_lines count letters.now) }
{
    for &letter in letters {
        write_bits(text, &bits_of(alloc, count, letter)?, b'\n')?;
    }
    Ok(())
}

/// The bits of a letter, from the lowest one on.
fn bits_of(alloc: Global, count: usize, letter: u64) -> Result<Vec<bool>, AllocError>
    ensures { IfOk result (λ bits. bits.items ≡ map (λ p. labels.is_in p letter) (range_with_len 0 count)) }
{
    let mut bits = Vec::new(alloc);
    for place in 0..count {
        bits.push(has_bit(letter, place))?;
    }
    Ok(bits)
}

/// The bit of a letter at a place.
fn has_bit(letter: u64, place: usize) -> bool
    ensures { result ≡ labels.is_in place letter }
{
    place < 64 && letter >> place & 1 == 1
}
