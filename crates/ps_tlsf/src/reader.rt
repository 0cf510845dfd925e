//! The parser of specifications.

ghost use Rattle.std.specs.Prelude.{◌≡◌, IfOk};
ghost use Rattle.ps_tlsf.specs.Lexicon.{lex};
ghost use Rattle.ps_tlsf.specs.Reading.{IsAnswer, is_end};
ghost use Rattle.ps_tlsf.specs.SpecificationViews.{HasRoots, result_data};
ghost use Rattle.ps_tlsf.specs.Inner.Runs.{IsRead};

use crate::fault::{TlsfCause, TlsfFault};
use crate::phases::Phase;
use crate::specification::{Specification, made_of};
use crate::steps::{State, fresh, step};
use crate::tokens::Tokens;
use std::alloc::Global;

/// The most bytes of a text.
const TEXT_LIMIT: usize = 16777216;

/// Whether the text may end here.
fn is_end(phase: Phase) -> bool
    ensures { result ≡ is_end phase }
{
    match phase {
        Phase::End => true,
        _ => false,
    }
}

/// Reads a text to its end.
fn state_behind(alloc: Global, text: &[u8]) -> Result<State, TlsfFault>
    ensures { IsRead text.now result }
{
    let mut state = fresh(alloc);
    let mut tokens = Tokens::new(text);
    'tokens: while let Some(token) = tokens.next() {
        step(alloc, &mut state, token)?;
    }
    if !is_end(state.phase) {
        return Err(TlsfFault::Text {
            cause: TlsfCause::Syntax,
            offset: text.len(),
        });
    }
    Ok(state)
}

/// Parses a specification in TLSF's basic form. Fails with the first fault of the text and its offset, or if out of
/// memory.
pub fn read(alloc: Global, text: &[u8]) -> Result<Specification, TlsfFault>
    ensures answer { IsAnswer text.now (result_data result) }
    ensures roots { IfOk result HasRoots }
{
    if text.len() > TEXT_LIMIT {
        return Err(TlsfFault::Text {
            cause: TlsfCause::Limit,
            offset: TEXT_LIMIT,
        });
    }
    let state = state_behind(alloc, text)?;
    Ok(made_of(alloc, state)?)
}
