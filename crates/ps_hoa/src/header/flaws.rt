//! The checks of a whole header, made at `--BODY--`.

ghost use Rattle.std.specs.Prelude.{◌≡◌, ◌↔◌, MatchOption, option_map, IsTrue};
ghost use Rattle.ps_label.specs.Expression.{expression, literal_expressions, operands_in};
ghost use Rattle.ps_label.specs.Truth.{expressions};
ghost use Rattle.ps_hoa.specs.Grammar.Header as parts;
ghost use Rattle.ps_hoa.specs.Inner.Flaws.{IsLeastFlaw, IsSoundHeader};
ghost use Rattle.ps_hoa.specs.Values.{condition_of};
ghost use Rattle.ps_hoa.specs.Grammar.Header.{header_data, acceptance_data};

use crate::condition::Cond;
use crate::fault::HoaCause;
use crate::header::indices::Indices;
use crate::header::{Acceptance, Header, STATE_LIMIT};
use ps_label::{Label, Literal};

/// What is wrong with a header; of several flaws, the one with the smallest number in psyn's list of faults.
pub(crate) fn flaw(header: &Header) -> Option<HoaCause>
    ensures { MatchOption result (IsSoundHeader (header_data header.now)) (IsLeastFlaw (header_data header.now)) }
{
    if header.acceptance.is_none() {
        return Some(HoaCause::MissingAcceptance);
    }
    if is_start_too_large(header.states, header.start) {
        return Some(HoaCause::Limit);
    }
    if header.start.is_none() {
        return Some(HoaCause::Start);
    }
    if is_range_broken(header) {
        return Some(HoaCause::Range);
    }
    if header.controllable.is_none() {
        return Some(HoaCause::Controllable);
    }
    None
}

/// Whether the start state is beyond every possible state, without `States:`.
fn is_start_too_large(states: Option<u32>, start: Option<u32>) -> bool
    ensures { IsTrue result ↔ parts.IsStartTooLarge states start }
{
    match (states, start) {
        (None, Some(start)) => start >= STATE_LIMIT,
        _ => false,
    }
}

/// Whether the header uses a state, a proposition or a set that does not exist.
fn is_range_broken(header: &Header) -> bool
    ensures { IsTrue result ↔ parts.IsRangeBroken (header_data header.now) }
{
    let count = header.propositions();
    if is_start_beyond(header.states, header.start) {
        return true;
    }
    if is_alias_beyond(count, &header.aliases) {
        return true;
    }
    if is_condition_beyond(&header.acceptance) {
        return true;
    }
    is_control_beyond(count, &header.controllable)
}

/// Whether the start state is not a state of the automaton.
fn is_start_beyond(states: Option<u32>, start: Option<u32>) -> bool
    ensures { IsTrue result ↔ parts.IsStartBeyond states start }
{
    match (states, start) {
        (Some(states), Some(start)) => states <= start,
        _ => false,
    }
}

/// Whether an alias uses a proposition that does not exist.
fn is_alias_beyond(count: usize, aliases: &[Label]) -> bool
    ensures { IsTrue result ↔ parts.AnAliasBeyond count (expressions aliases.now) }
{
    for alias in aliases {
        if speaks_beyond(count, alias) {
            return true;
        }
    }
    false
}

/// Whether a label uses a proposition that does not exist.
fn speaks_beyond(count: usize, label: &Label) -> bool
    ensures { IsTrue result ↔ parts.SpeaksBeyond count (expression label.now) }
{
    match label {
        Label::Truth(_) | Label::Named(_) => false,
        Label::Atom(proposition) | Label::Negated(proposition) => count <= *proposition as usize,
        Label::Literals(literals) => a_literal_beyond(count, literals.as_slice()),
        Label::Neg(operand) => speaks_beyond(count, operand),
        Label::Both(operands) | Label::Either(operands) => {
            for operand in operands {
                if speaks_beyond(count, operand) {
                    return true;
                }
            }
            false
        }
    }
}

fn a_literal_beyond(count: usize, literals: &[Literal]) -> bool
    ensures { IsTrue result ↔ parts.SomeSpeaksBeyond count (operands_in (literal_expressions literals.now)) }
{
    for literal in literals {
        if count <= literal.proposition() as usize {
            return true;
        }
    }
    false
}

/// Whether the acceptance condition names a set that does not exist.
fn is_condition_beyond(acceptance: &Option<Acceptance>) -> bool
    ensures { IsTrue result ↔ parts.IsConditionBeyond (option_map acceptance_data acceptance.now) }
{
    match acceptance {
        None => false,
        Some(Acceptance { sets, condition }) => names_set_beyond(*sets, condition),
    }
}

fn names_set_beyond(count: u32, condition: &Cond) -> bool
    ensures { IsTrue result ↔ parts.NamesSetBeyond count (condition_of condition.now) }
{
    match condition {
        Cond::Always | Cond::Never => false,
        Cond::Inf(set, _) | Cond::Fin(set, _) => count <= *set,
        Cond::All(operands) | Cond::Any(operands) => {
            for operand in operands {
                if names_set_beyond(count, operand) {
                    return true;
                }
            }
            false
        }
    }
}

/// Whether `controllable-AP:` names a proposition that does not exist.
fn is_control_beyond(count: usize, controllable: &Option<Indices>) -> bool
    ensures { IsTrue result ↔ parts.IsControlBeyond count controllable.now }
{
    match controllable {
        None => false,
        Some(indices) => is_index_beyond(count, indices.as_slice()),
    }
}

fn is_index_beyond(count: usize, indices: &[u32]) -> bool
    ensures { IsTrue result ↔ parts.AnIndexBeyond count indices.now }
{
    for index in indices {
        if count <= *index as usize {
            return true;
        }
    }
    false
}
