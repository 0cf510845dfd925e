//! Header items that are ignored.

ghost use Rattle.std.specs.Prelude.{◌≡◌};
ghost use Rattle.ps_text.specs.Parts.{many};
ghost use Rattle.ps_hoa.specs.Grammar.Header as parts;
ghost use Rattle.ps_hoa.specs.Grammar.Header.{HeaderData};
ghost use Rattle.ps_hoa.specs.Inner.Items.{is_value as is_value_kind, read_over_in};
ghost use Rattle.ps_hoa.specs.Grammar.Operands.{number_limit};
ghost use Rattle.ps_hoa.specs.Inner.Reads.{ReadsAs, Takes};
ghost use Rattle.ps_hoa.specs.Spans.{piece_of};

use crate::fault::{HoaCause, HoaFault};
use crate::refusal::{fault_at, refused};
use crate::signs::{int_of, quoted};
use crate::tokens::{Kind, Token, Tokens};

/// Skips the name of a tool, and its version if there is one.
pub(crate) fn tool(tokens: &mut Tokens) -> Result<(), HoaFault>
    ensures { (h : HeaderData) → ReadsAs (λ _. h) (parts.strings h) tokens.old result tokens.new }
{
    quoted(tokens)?;
    if tokens.is_at(Kind::Text) {
        quoted(tokens)?;
    }
    Ok(())
}

/// Skips the name of the automaton.
pub(crate) fn name(tokens: &mut Tokens) -> Result<(), HoaFault>
    ensures { (h : HeaderData) → ReadsAs (λ _. h) (parts.one_string h) tokens.old result tokens.new }
{
    quoted(tokens)?;
    Ok(())
}

/// Skips the arguments of an unknown item.
pub(crate) fn other(tokens: &mut Tokens) -> Result<(), HoaFault>
    ensures { (h : HeaderData) → ReadsAs (λ _. h) (many parts.read_over h) tokens.old result tokens.new }
{
    'values: while is_value(tokens.peek()) {
        read_over(tokens)?;
    }
    Ok(())
}

/// Whether a token is a number, a string or a word.
fn is_value(token: Token) -> bool
    ensures { result ≡ is_value_kind token.entry.kind }
{
    matches!(token.kind, Kind::Int | Kind::Text | Kind::Word)
}

/// Skips a number, a string or a word.
fn read_over(tokens: &mut Tokens) -> Result<(), HoaFault>
    ensures { (h : HeaderData) → ReadsAs (λ _. h) (parts.read_over h) tokens.old result tokens.new }
{
    let token = tokens.advance();
    read_over_of(token)
}

/// Checks that a token is a number, a string or a word, and a number at most the greatest `INT`.
fn read_over_of(token: Token) -> Result<(), HoaFault>
    ensures { (h : HeaderData) → Takes (λ _. h) (read_over_in h) (parts.IsAbove number_limit)
        (piece_of token.entry) result }
{
    if !is_value(token) {
        return Err(refused(token));
    }
    if token.kind == Kind::Int && int_of(token.text).is_none() {
        return Err(fault_at(token, HoaCause::Limit));
    }
    Ok(())
}
