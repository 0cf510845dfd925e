//! The parser of single tokens.

ghost use Rattle.std.specs.Prelude.{◌≡◌, ◌≢◌, ◌≤◌, ◌↔◌, Bool, IfOk, false, is_some, None, Some, nat_le, IsTrue};
ghost use Rattle.std.specs.Prelude.{if◌then◌else◌};
ghost use Rattle.ps_text.specs.Digits.{decimal_value};
ghost use Rattle.ps_text.specs.Parts.{NoBad, barred as barred_by};
ghost use Rattle.ps_hoa.specs.Grammar.Header.{int as int_part, int_in, IsAbove, IsAlternating};
ghost use Rattle.ps_hoa.specs.Grammar.Header.{name_value, string as string_part, string_in, unescaped as meaning};
ghost use Rattle.ps_hoa.specs.Grammar.Operands.{expect as expect_part, expect_in, number_limit};
ghost use Rattle.ps_hoa.specs.Inner.Reads.{ReadsAs, Takes};
ghost use Rattle.ps_hoa.specs.Inner.Signs.{inside, IsTestOf};
ghost use Rattle.ps_hoa.specs.Spans.{piece_of};
ghost use Rattle.ps_hoa.specs.declared.tokens.Kind.{Kind};

use crate::fault::{HoaCause, HoaFault};
use crate::refusal::{fault_at, refused};
use crate::tokens::{Kind, Token, Tokens, is_same};
use std::alloc::{AllocError, Global};

/// Reads a token of the given kind.
pub(crate) fn expect(tokens: &mut Tokens, kind: Kind) -> Result<(), HoaFault>
    requires { kind ≢ Kind.Finish }
    ensures { (test : Kind → Bool) → IsTestOf test kind → ReadsAs (λ u. u) (expect_part test) tokens.old
        result tokens.new }
{
    let token = tokens.advance();
    expect_of(token, kind)
}

fn expect_of(token: Token, kind: Kind) -> Result<(), HoaFault>
    ensures { (test : Kind → Bool) → IsTestOf test kind → Takes (λ u. u) (expect_in test) NoBad
        (piece_of token.entry) result }
{
    if is_kind(token, kind) {
        Ok(())
    } else {
        Err(refused(token))
    }
}

pub(crate) fn is_kind(token: Token, kind: Kind) -> bool
    ensures { IsTrue result ↔ (token.entry.kind ≡ kind) }
{
    token.kind == kind
}

/// Whether a token is this name with `:` directly after it.
pub(crate) fn is_name(token: Token, name: &[u8]) -> bool
    ensures { result ≡ is_some (name_value name.now token.entry.kind token.entry.text.now) }
{
    token.kind == Kind::Header && is_same(token.text, name)
}

/// Reads a number up to a limit.
pub(crate) fn int(tokens: &mut Tokens, limit: u32) -> Result<u32, HoaFault>
    ensures part { ReadsAs (λ n. n) (int_part limit) tokens.old result tokens.new }
    ensures within { IfOk result (λ n. n ≤ limit) }
{
    let token = tokens.advance();
    int_up_to(token, limit)
}

/// The number that a token states, up to a limit.
fn int_up_to(token: Token, limit: u32) -> Result<u32, HoaFault>
    ensures { Takes (λ n. n) int_in (IsAbove limit) (piece_of token.entry) result }
{
    if token.kind != Kind::Int {
        return Err(refused(token));
    }
    match int_of(token.text) {
        Some(number) if number <= limit => Ok(number),
        _ => Err(fault_at(token, HoaCause::Limit)),
    }
}

/// Reads a state that is not followed by `&`.
pub(crate) fn start_state(tokens: &mut Tokens) -> Result<u32, HoaFault>
    ensures { ReadsAs (λ n. n) (barred_by (int_part number_limit) IsAlternating) tokens.old result tokens.new }
{
    let state = int(tokens, u32::MAX)?;
    if tokens.is_at(Kind::And) {
        return Err(fault_at(tokens.peek(), HoaCause::Alternating));
    }
    Ok(state)
}

/// Reads a string; gives the bytes between its quotes.
pub(crate) fn quoted<'a>(tokens: &mut Tokens<'a>) -> Result<&'a [u8], HoaFault>
    ensures { ReadsAs (λ inner. meaning false inner.now) string_part tokens.old result tokens.new }
{
    let token = tokens.advance();
    quoted_of(token)
}

pub(crate) fn quoted_of<'a>(token: Token<'a>) -> Result<&'a [u8], HoaFault>
    ensures { Takes (λ inner. meaning false inner.now) string_in NoBad (piece_of token.entry) result }
{
    if token.kind == Kind::Text {
        Ok(between_quotes(token.text))
    } else {
        Err(refused(token))
    }
}

fn between_quotes(text: &[u8]) -> &[u8]
    ensures { result.now ≡ inside text.now }
{
    if text.len() < 2 {
        return &[];
    }
    &text[1..text.len() - 1]
}

/// The bytes between quotes, in which a backslash and the byte after it stand for that byte.
pub(crate) fn unescaped(alloc: Global, inner: &[u8]) -> Result<Vec<u8>, AllocError>
    ensures { IfOk result (λ bytes. bytes.items ≡ meaning false inner.now) }
{
    let mut bytes = Vec::new(alloc);
    let mut escaped = false;
    for byte in inner {
        if !escaped && *byte == b'\\' {
            escaped = true;
        } else {
            bytes.push(*byte)?;
            escaped = false;
        }
    }
    Ok(bytes)
}

/// The number of a run of digits, if it does not exceed the greatest `INT`. Any bytes are accepted: one less than the
/// digit `0` counts as `0`.
#[inline(always)]
pub(crate) fn int_of(digits: &[u8]) -> Option<u32>
    ensures { result ≡ (if nat_le (decimal_value digits.now) number_limit then Some
        (decimal_value digits.now) else None) }
{
    let mut value = 0u32;
    for digit in digits {
        value = value
            .checked_mul(10)?
            .checked_add(u32::from(digit.saturating_sub(b'0')))?;
    }
    Some(value)
}
