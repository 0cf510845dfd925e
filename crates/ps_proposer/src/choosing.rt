//! Which circuit is proposed first: that of symbolic synthesis or that of the translation's automaton.
//!
//! The judge's work grows with the latches. So a circuit with many of them gives way to one of the translation, if that is
//! found within few steps and has fewer.

use crate::by_automaton::winner_by_automaton;
use crate::by_game::winner_by_game;
use ps_specification::Proposal;
use ps_tlsf::Specification;
use ps_translation::{translated, translated_within};
use std::alloc::{AllocError, Global};

/// How many latches are few.
const FEW: usize = 10;

/// The steps of a translation that is asked for fewer latches: a twentieth of all.
const STEPS: u32 = 600_000;

/// The circuit that is proposed first.
pub fn first_proposal(
    alloc: Global,
    specification: &Specification,
) -> Result<Option<Proposal>, AllocError> {
    let Some(proposal) = winner_by_game(alloc, specification)? else {
        return Ok(None);
    };
    if proposal.circuit.latches().len() <= FEW {
        return Ok(Some(proposal));
    }
    let other = quick_proposal(alloc, specification);
    chosen(proposal, other)
}

/// The circuit that is proposed second: by the translation's automaton.
pub fn second_proposal(
    alloc: Global,
    specification: &Specification,
) -> Result<Option<Proposal>, AllocError> {
    let text = translated(alloc, specification)?;
    winner_by_automaton(alloc, specification, text)
}

/// The circuit by an automaton that is found within few steps.
fn quick_proposal(
    alloc: Global,
    specification: &Specification,
) -> Result<Option<Proposal>, AllocError> {
    let text = translated_within(alloc, specification, STEPS)?;
    winner_by_automaton(alloc, specification, text)
}

/// Of two proposals the one with fewer latches, or the first one.
fn chosen(
    first: Proposal,
    second: Result<Option<Proposal>, AllocError>,
) -> Result<Option<Proposal>, AllocError> {
    match second {
        Ok(Some(second)) => {
            if second.circuit.latches().len() < first.circuit.latches().len() {
                Ok(Some(second))
            } else {
                Ok(Some(first))
            }
        }
        Ok(None) => Ok(Some(first)),
        Err(error) => Err(error),
    }
}
