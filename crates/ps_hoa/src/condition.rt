//! Acceptance conditions and their parser.

ghost use Rattle.std.specs.Prelude.{◌≡◌, IfOk, map};
ghost use Rattle.ps_text.specs.Parts.{NoBad, one};
ghost use Rattle.ps_hoa.specs.Grammar.Conditions as conditions;
ghost use Rattle.ps_hoa.specs.Grammar.Operands.{nesting_limit};
ghost use Rattle.ps_hoa.specs.Inner.Reads.{ReadsAs, Takes};
ghost use Rattle.ps_hoa.specs.Spans.{piece_of};
ghost use Rattle.ps_hoa.specs.Values.{condition_of, set_data};

use crate::fault::{HoaCause, HoaFault};
use crate::infix::{self, Connective, Infix};
use crate::refusal::{fault_at, refused};
use crate::signs::{expect, int_of};
use crate::tokens::{Kind, Token, Tokens, is_same};
use std::alloc::{AllocError, Global};

/// An acceptance condition (HOA v1, acceptance): a Boolean combination of statements that a run visits a set of edges
/// infinitely often, or only finitely often.
#[derive(Debug, Drop)]
pub enum Cond {
    /// True of every run.
    Always,
    /// True of no run.
    Never,
    /// A set, or its complement if the flag is true, is visited infinitely often.
    Inf(u32, bool),
    /// A set, or its complement if the flag is true, is visited only finitely often.
    Fin(u32, bool),
    /// All operands hold.
    All(Vec<Cond>),
    /// At least one operand holds.
    Any(Vec<Cond>),
}

/// A set, or its complement.
#[derive(Clone, Copy)]
struct Set {
    number: u32,
    complemented: bool,
}

/// Parses an acceptance condition.
pub(crate) fn condition(alloc: Global, tokens: &mut Tokens) -> Result<Cond, HoaFault>
    ensures { ReadsAs condition_of (conditions.condition nesting_limit) tokens.old result tokens.new }
{
    infix::read(alloc, tokens, &Conditions)
}

/// The grammar of acceptance conditions.
struct Conditions;

impl Infix for Conditions {
    ghost use Rattle.ps_hoa.specs.Grammar.Conditions.{Condition};

    type Value = Cond;

    type Operands = Vec<Cond>;

    ghost Meaning = { Condition };

    ghost meaning = { condition_of };

    ghost meanings = { λ operands. map condition_of operands.items };

    ghost grammar = { λ _. conditions.grammar };

    fn leaf(&self, tokens: &mut Tokens) -> Result<Cond, HoaFault> {
        let Some(often) = often_of(tokens.peek()) else {
            return constant(tokens);
        };
        tokens.skip();
        expect(tokens, Kind::LeftParen)?;
        let set = any_set(tokens)?;
        expect(tokens, Kind::RightParen)?;
        Ok(visits(often, set))
    }

    fn holds(&self, kind: Kind) -> bool {
        matches!(kind, Kind::LeftParen)
    }

    // In a condition, `!` may only come before the number of a set, not before an operand.
    fn negated(&self, _alloc: Global, _operand: Cond) -> Result<Option<Cond>, AllocError> {
        Ok(None)
    }

    fn begun(
        &self,
        alloc: Global,
        _connective: Connective,
        first: Cond,
    ) -> Result<Vec<Cond>, AllocError> {
        infix::begun(alloc, first)
    }

    fn add(&self, _alloc: Global, operands: &mut Vec<Cond>, next: Cond) -> Result<(), AllocError> {
        operands.push(next)?;
        Ok(())
    }

    fn together(
        &self,
        alloc: Global,
        connective: Connective,
        operands: Vec<Cond>,
    ) -> Result<Cond, AllocError>
        ensures { IfOk result
            (λ v. condition_of v ≡ conditions.together connective (map condition_of operands.items)) }
    {
        let operands = infix::fitted(alloc, operands)?;
        match connective {
            Connective::And => Ok(Cond::All(operands)),
            Connective::Or => Ok(Cond::Any(operands)),
        }
    }
}

/// `Inf` if `often` is true, else `Fin`.
fn visits(often: bool, set: Set) -> Cond
    ensures { condition_of result ≡ conditions.visits often (set_data set) }
{
    if often {
        Cond::Inf(set.number, set.complemented)
    } else {
        Cond::Fin(set.number, set.complemented)
    }
}

/// Whether a token is `Inf`; `None` if it is neither this nor `Fin`.
fn often_of(token: Token) -> Option<bool>
    ensures { result ≡ conditions.often_in (piece_of token.entry).sign }
{
    match token.kind {
        Kind::Word if is_same(token.text, b"Inf") => Some(true),
        Kind::Word if is_same(token.text, b"Fin") => Some(false),
        _ => None,
    }
}

/// Parses `t` or `f`.
fn constant(tokens: &mut Tokens) -> Result<Cond, HoaFault>
    ensures { ReadsAs condition_of (one conditions.constant_in NoBad) tokens.old result tokens.new }
{
    let token = tokens.advance();
    constant_of(token)
}

fn constant_of(token: Token) -> Result<Cond, HoaFault>
    ensures { Takes condition_of conditions.constant_in NoBad (piece_of token.entry) result }
{
    match token.kind {
        Kind::Word if is_same(token.text, b"t") => Ok(Cond::Always),
        Kind::Word if is_same(token.text, b"f") => Ok(Cond::Never),
        _ => Err(refused(token)),
    }
}

/// Parses the number of a set, with or without `!` before it.
fn any_set(tokens: &mut Tokens) -> Result<Set, HoaFault>
    ensures { ReadsAs set_data conditions.any_set tokens.old result tokens.new }
{
    if tokens.is_at(Kind::Not) {
        tokens.skip();
        return one_set(tokens, true);
    }
    one_set(tokens, false)
}

fn one_set(tokens: &mut Tokens, complemented: bool) -> Result<Set, HoaFault>
    ensures { ReadsAs set_data (conditions.set complemented) tokens.old result tokens.new }
{
    let token = tokens.advance();
    set_of(token, complemented)
}

fn set_of(token: Token, complemented: bool) -> Result<Set, HoaFault>
    ensures { Takes set_data (conditions.set_in complemented) conditions.BadSet (piece_of token.entry) result }
{
    match token.kind {
        Kind::Int => match int_of(token.text) {
            None => Err(fault_at(token, HoaCause::Limit)),
            Some(number) => Ok(Set {
                number,
                complemented,
            }),
        },
        _ => Err(refused(token)),
    }
}
