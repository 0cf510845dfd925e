//! The parser of operands with connectives between them.

ghost use Rattle.std.specs.Prelude.{◌≡◌, ◌↔◌, [], ◌∷◌, ◌++◌, IfOk, List, option_map, IsTrue};
ghost use Rattle.ps_hoa.specs.Grammar.Operands.{InfixGrammar, between, holds as holds_at, nesting_limit};
ghost use Rattle.ps_hoa.specs.Grammar.Operands.{operand as operand_of};
ghost use Rattle.ps_hoa.specs.Grammar.Operands.{kind_of, rows};
ghost use Rattle.ps_hoa.specs.Scan.{next_of, stream_of};
ghost use Rattle.ps_hoa.specs.Inner.Reads.{ReadsAs};
ghost use Rattle.ps_hoa.specs.Inner.Signs.{IsLeaf};

use crate::fault::{HoaCause, HoaFault};
use crate::refusal::fault_at;
use crate::signs::{expect, is_kind};
use crate::tokens::{Kind, Tokens};
use std::alloc::{AllocError, Global};

/// The greatest depth to which `!` and `(` may be nested.
const NESTING_LIMIT: usize = 256;

/// The number of operands of a row for which space is made at first.
pub(crate) const SPACE: usize = 4;

/// A connective; `&` binds tighter than `|`.
#[derive(Clone, Copy)]
pub(crate) enum Connective {
    /// `&`
    And,
    /// `|`
    Or,
}

/// A grammar of operands with connectives between them.
pub(crate) trait Infix {
    /// What the parser returns.
    type Value: Drop;

    /// A row of operands that is being parsed.
    type Operands: Drop;

    ghost Meaning: { Type 0 };

    ghost meaning: { Self.Value → Self.Meaning };

    /// The meanings of the operands of a row, in order.
    ghost meanings: { Self.Operands → List Self.Meaning };

    /// The part of the grammar that differs between labels and conditions.
    ghost grammar: { Self → InfixGrammar Self.Meaning };

    /// Parses an operand that does not begin with `!` or `(`.
    fn leaf(&self, tokens: &mut Tokens) -> Result<Self::Value, HoaFault>
        ensures { ReadsAs meaning (grammar self.now).leaf tokens.old result tokens.new };

    /// Whether a token of this kind begins an operand that contains another.
    fn holds(&self, kind: Kind) -> bool
        ensures { result ≡ holds_at (grammar self.now).negated kind };

    /// The value of an operand with `!` before it, if `!` may come before an operand.
    fn negated(
        &self,
        alloc: Global,
        operand: Self::Value,
    ) -> Result<Option<Self::Value>, AllocError>
        ensures { IfOk result (λ v. option_map meaning v
            ≡ option_map (λ negated. negated (meaning operand)) (grammar self.now).negated) };

    /// A row with its first operand.
    fn begun(
        &self,
        alloc: Global,
        connective: Connective,
        first: Self::Value,
    ) -> Result<Self::Operands, AllocError>
        ensures { IfOk result (λ operands. meanings operands ≡ meaning first ∷ []) };

    fn add(
        &self,
        alloc: Global,
        operands: &mut Self::Operands,
        next: Self::Value,
    ) -> Result<(), AllocError>
        ensures { IfOk result (λ _. meanings operands.new ≡ meanings operands.old ++ meaning next ∷ []) };

    /// The value of a row.
    fn together(
        &self,
        alloc: Global,
        connective: Connective,
        operands: Self::Operands,
    ) -> Result<Self::Value, AllocError>
        ensures { IfOk result
            (λ v. meaning v ≡ (grammar self.now).together connective (meanings operands)) };
}

pub(crate) fn read<G: Infix>(
    alloc: Global,
    tokens: &mut Tokens,
    grammar: &G,
) -> Result<G::Value, HoaFault>
    requires { IsLeaf (G.grammar grammar.now).leaf }
    ensures { ReadsAs G.meaning (rows (G.grammar grammar.now).together Connective.Or
        (operand_of (G.grammar grammar.now) nesting_limit)) tokens.old result tokens.new }
{
    row(alloc, tokens, grammar, NESTING_LIMIT, Connective::Or)
}

/// Parses operands with the connective, or tighter ones, between them; `!` and `(` may be nested up to the depth
/// `room`.
#[cycle(infix)]
fn row<G: Infix>(
    alloc: Global,
    tokens: &mut Tokens,
    grammar: &G,
    room: usize,
    connective: Connective,
) -> Result<G::Value, HoaFault>
    requires { IsLeaf (G.grammar grammar.now).leaf }
    ensures { ReadsAs G.meaning (rows (G.grammar grammar.now).together connective
        (operand_of (G.grammar grammar.now) room)) tokens.old result tokens.new }
{
    let first = part(alloc, tokens, grammar, room, connective)?;
    if !is_at(tokens, connective) {
        return Ok(first);
    }
    let mut operands = grammar.begun(alloc, connective, first)?;
    'more: while is_at(tokens, connective) {
        tokens.skip();
        let next = part(alloc, tokens, grammar, room, connective)?;
        grammar.add(alloc, &mut operands, next)?;
    }
    Ok(grammar.together(alloc, connective, operands)?)
}

/// The first operand of a row, with space for more.
#[inline(always)]
pub(crate) fn begun<V: Drop>(alloc: Global, first: V) -> Result<Vec<V>, AllocError>
    ensures { IfOk result (λ operands. operands.items ≡ first ∷ []) }
{
    let mut operands = Vec::with_capacity(alloc, SPACE)?;
    operands.push(first)?;
    Ok(operands)
}

/// The same operands in memory of just their size, so that the memory in which they were gathered is free for the next
/// row.
#[inline(always)]
pub(crate) fn fitted<V: Drop>(alloc: Global, mut operands: Vec<V>) -> Result<Vec<V>, AllocError>
    ensures { IfOk result (λ fitted. fitted.items ≡ operands.items) }
{
    if operands.len() == operands.capacity() {
        return Ok(operands);
    }
    let mut fitted = Vec::with_capacity(alloc, operands.len())?;
    fitted.append(&mut operands)?;
    Ok(fitted)
}

/// Parses what may be on either side of a connective: an operand for `&`, a row of operands with `&` for `|`.
#[cycle(infix)]
fn part<G: Infix>(
    alloc: Global,
    tokens: &mut Tokens,
    grammar: &G,
    room: usize,
    connective: Connective,
) -> Result<G::Value, HoaFault>
    requires { IsLeaf (G.grammar grammar.now).leaf }
    ensures { ReadsAs G.meaning (between (G.grammar grammar.now).together connective
        (operand_of (G.grammar grammar.now) room)) tokens.old result tokens.new }
{
    match connective {
        Connective::And => operand(alloc, tokens, grammar, room),
        Connective::Or => row(alloc, tokens, grammar, room, Connective::And),
    }
}

#[cycle(infix)]
fn operand<G: Infix>(
    alloc: Global,
    tokens: &mut Tokens,
    grammar: &G,
    room: usize,
) -> Result<G::Value, HoaFault>
    requires { IsLeaf (G.grammar grammar.now).leaf }
    ensures { ReadsAs G.meaning (operand_of (G.grammar grammar.now) room) tokens.old result tokens.new }
{
    let token = tokens.peek();
    if !grammar.holds(token.kind) {
        return grammar.leaf(tokens);
    }
    if room == 0 {
        return Err(fault_at(token, HoaCause::Limit));
    }
    tokens.skip();
    if is_kind(token, Kind::Not) {
        let plain = operand(alloc, tokens, grammar, room - 1)?;
        let Some(negated) = grammar.negated(alloc, plain)? else {
            unreachable!()
        };
        return Ok(negated);
    }
    let inner = row(alloc, tokens, grammar, room - 1, Connective::Or)?;
    expect(tokens, Kind::RightParen)?;
    Ok(inner)
}

#[inline(always)]
fn is_at(tokens: &Tokens, connective: Connective) -> bool
    ensures { IsTrue result ↔ ((next_of (stream_of tokens.now)).sign.kind ≡ kind_of connective) }
{
    match connective {
        Connective::And => tokens.is_at(Kind::And),
        Connective::Or => tokens.is_at(Kind::Or),
    }
}
