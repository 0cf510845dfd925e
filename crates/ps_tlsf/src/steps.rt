//! The step from token to token through a specification.

ghost use Rattle.std.specs.Prelude.{◌≡◌, ◌<◌, OnOk, length};
ghost use Rattle.ps_tlsf.specs.declared.words.Side.{Side};
ghost use Rattle.ps_tlsf.specs.Phases.{goes};
ghost use Rattle.ps_tlsf.specs.Steps.{bars, behind_step, declared_by, fresh, marked, operand_step, plain_step, step};
ghost use Rattle.ps_tlsf.specs.Steps.{with_formula, phase_behind};
ghost use Rattle.ps_tlsf.specs.Inner.Views.{token_data, work_data, Steps};
ghost use Rattle.ps_tlsf.specs.Inner.StateViews.{state_data};

use crate::fault::{TlsfCause, TlsfFault};
use crate::heading::Heading;
use crate::names::{Names, Proposition};
use crate::phases::{Block, Phase, goes};
use crate::stack::{Op, Stack};
use crate::tokens::Token;
use crate::words::{Section, Sign};
use crate::work::{Work, fault_at, read_end, read_infix, read_operand, read_paren};
use std::alloc::{AllocError, Global};
use std::mem;

/// A formula of a section, as operands and operators, which come after their operands.
#[derive(Debug, Drop)]
pub(crate) struct Written {
    pub(crate) section: Section,
    /// The offset of the first byte.
    pub(crate) start: usize,
    /// The offset after the last byte.
    pub(crate) stop: usize,
    pub(crate) ops: Vec<Op>,
}

#[derive(Debug, Drop)]
pub(crate) struct State {
    pub(crate) phase: Phase,
    pub(crate) heading: Heading,
    pub(crate) names: Names,
    pub(crate) work: Work,
    pub(crate) formulas: Vec<Written>,
}

/// Before the first token.
pub(crate) fn fresh(alloc: Global) -> State
    ensures { state_data result ≡ fresh }
{
    State {
        phase: Phase::Info,
        heading: Heading::new(),
        names: Names::new(alloc),
        work: Work {
            stack: Stack::new(alloc),
            ops: Vec::new(alloc),
            used: 0,
            start: 0,
            stop: 0,
        },
        formulas: Vec::new(alloc),
    }
}

/// Why a token that the grammar allows outside formulas is refused all the same.
fn bars(next: Phase, state: &State, token: Token) -> Option<TlsfCause>
    ensures { result ≡ bars next (state_data state.now) (token_data token.entry) }
{
    match next {
        Phase::Colon(item) if state.heading.has_item(item) => Some(TlsfCause::Twice),
        Phase::Brace(Block::Names(side)) if state.heading.has_list(side) => Some(TlsfCause::Twice),
        Phase::MainBrace if !state.heading.agrees() => Some(TlsfCause::Order),
        Phase::BehindName(_) => state.names.cause(token.sign, token.text),
        _ => None,
    }
}

/// Records the item or the list of names that a token begins.
fn marked(next: Phase, heading: Heading) -> Heading
    ensures { result ≡ marked next heading }
{
    match next {
        Phase::Colon(item) => heading.with_item(item),
        Phase::Brace(Block::Names(side)) => heading.with_list(side),
        _ => heading,
    }
}

/// Declares a token's name.
fn declare(alloc: Global, next: Phase, names: &mut Names, token: Token) -> Result<(), AllocError>
    requires { (side : Side) → next ≡ Phase.BehindName side → length names.old < 64 }
    ensures { OnOk result (names.new ≡ declared_by next (token_data token.entry) names.old) }
{
    if let Phase::BehindName(side) = next {
        let name = token.text.to_vec(alloc)?;
        names.declare(Proposition { name, side })?;
    }
    Ok(())
}

/// Reads a token that the grammar allows outside formulas.
fn plain_step(alloc: Global, next: Phase, state: &mut State, token: Token) -> Result<(), TlsfFault>
    ensures { Steps (plain_step next (state_data state.old) (token_data token.entry)) token.entry.start result
        (state_data state.new) }
{
    if let Some(cause) = bars(next, state, token) {
        return Err(fault_at(cause, token));
    }
    declare(alloc, next, &mut state.names, token)?;
    state.heading = marked(next, state.heading.behind(state.phase, token));
    state.phase = next;
    Ok(())
}

/// What may follow the first token of an operand.
fn phase_behind(section: Section, sign: Sign) -> Phase
    ensures { result ≡ phase_behind section sign }
{
    match sign {
        Sign::Prefix(_) => Phase::Operand(section),
        Sign::LeftParen => Phase::Operand(section),
        _ => Phase::Behind(section),
    }
}

/// Reads the first token of an operand.
fn operand_step(section: Section, state: &mut State, token: Token) -> Result<(), TlsfFault>
    ensures { Steps (operand_step section (state_data state.old) (token_data token.entry)) token.entry.start result
        (state_data state.new) }
{
    read_operand(&state.names, &mut state.work, token)?;
    state.phase = phase_behind(section, token.sign);
    Ok(())
}

/// Ends a formula, before the token, and goes on in the given phase.
fn finish(
    alloc: Global,
    section: Section,
    next: Phase,
    state: &mut State,
    token: Token,
) -> Result<(), TlsfFault>
    ensures { Steps (with_formula section next (state_data state.old)) token.entry.start result
        (state_data state.new) }
{
    read_end(&mut state.work, token)?;
    let ops = mem::replace(&mut state.work.ops, Vec::new(alloc));
    state.formulas.push(Written {
        section,
        start: state.work.start,
        stop: state.work.stop,
        ops,
    })?;
    state.phase = next;
    Ok(())
}

/// Reads a token after an operand.
fn behind_step(
    alloc: Global,
    section: Section,
    state: &mut State,
    token: Token,
) -> Result<(), TlsfFault>
    ensures { Steps (behind_step section (state_data state.old) (token_data token.entry) token.entry.sign)
        token.entry.start result (state_data state.new) }
{
    match token.sign {
        Sign::Infix(operator) => {
            read_infix(operator, &mut state.work, token)?;
            state.phase = Phase::Operand(section);
            Ok(())
        }
        Sign::RightParen => read_paren(&mut state.work, token),
        Sign::Semicolon => finish(alloc, section, Phase::Formulas(section), state, token),
        Sign::RightBrace => finish(alloc, section, Phase::Sections, state, token),
        _ => Err(fault_at(TlsfCause::Syntax, token)),
    }
}

/// Reads a token.
#[tactic(auto, unfolding(crate::specs::Steps::step))]
pub(crate) fn step(alloc: Global, state: &mut State, token: Token) -> Result<(), TlsfFault>
    ensures { Steps (step (state_data state.old) (token_data token.entry)) token.entry.start result
        (state_data state.new) }
{
    if let Some(next) = goes(state.phase, token.sign) {
        return plain_step(alloc, next, state, token);
    }
    match state.phase {
        Phase::Formulas(section) => {
            state.work.start = token.start;
            operand_step(section, state, token)
        }
        Phase::Operand(section) => operand_step(section, state, token),
        Phase::Behind(section) => behind_step(alloc, section, state, token),
        _ => Err(fault_at(TlsfCause::Syntax, token)),
    }
}
