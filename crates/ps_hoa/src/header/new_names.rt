//! The parser of the names that a header defines.

ghost use Rattle.std.specs.Prelude.{◌≡◌, [], IfOk, None, false};
ghost use Rattle.ps_text.specs.Parts.{one, times};
ghost use Rattle.ps_hoa.specs.Grammar.Header as parts;
ghost use Rattle.ps_hoa.specs.Inner.Items.{alias_name_in};
ghost use Rattle.ps_hoa.specs.Grammar.Labels.{alias_number};
ghost use Rattle.ps_hoa.specs.Inner.Reads.{ReadsAs, Takes};
ghost use Rattle.ps_hoa.specs.Spans.{piece_of};

use crate::fault::{HoaCause, HoaFault};
use crate::header::names::Names;
use crate::header::propositions::Propositions;
use crate::refusal::{fault_at, refused};
use crate::signs::{is_kind, quoted_of, unescaped};
use crate::tokens::{Kind, Token, Tokens};
use std::alloc::Global;

/// The most aliases of a text.
const ALIAS_LIMIT: usize = 4096;

/// Parses `count` names of propositions.
pub(crate) fn propositions(
    alloc: Global,
    tokens: &mut Tokens,
    count: u32,
) -> Result<Propositions, HoaFault>
    ensures { ReadsAs (λ names. names) (times count parts.proposition_name []) tokens.old result tokens.new }
{
    let mut names = Propositions::new(alloc);
    'names: for _ in 0..count {
        proposition(alloc, tokens, &mut names)?;
    }
    Ok(names)
}

fn proposition(alloc: Global, tokens: &mut Tokens, names: &mut Propositions) -> Result<(), HoaFault>
    ensures { ReadsAs (λ _. names.new) (parts.proposition_name names.old) tokens.old result tokens.new }
{
    let name = new_name(alloc, tokens, names)?;
    names.push(name)?;
    Ok(())
}

/// Reads the name of a new proposition.
fn new_name(alloc: Global, tokens: &mut Tokens, names: &Propositions) -> Result<Vec<u8>, HoaFault>
    ensures part { ReadsAs (λ name. name.items) (one parts.string_in (parts.IsBadName names.now)) tokens.old
        result tokens.new }
    ensures new { IfOk result (λ name. parts.is_name_among name.items names.now ≡ false) }
{
    let token = tokens.advance();
    new_name_of(alloc, token, names)
}

/// The name that a token, which must be a string, gives to a proposition. It must not be empty, contain a control byte,
/// or be that of an earlier proposition.
fn new_name_of(alloc: Global, token: Token, names: &Propositions) -> Result<Vec<u8>, HoaFault>
    ensures { Takes (λ name. name.items) parts.string_in (parts.IsBadName names.now)
        (piece_of token.entry) result }
{
    let name = unescaped(alloc, quoted_of(token)?)?;
    if name.is_empty() || has_control(&name) || names.has(&name) {
        return Err(fault_at(token, HoaCause::Name));
    }
    Ok(name)
}

fn has_control(name: &[u8]) -> bool
    ensures { result ≡ parts.has_control name.now }
{
    for byte in name {
        if *byte < 32 || *byte == 127 {
            return true;
        }
    }
    false
}

/// Reads the name of a new alias.
pub(crate) fn new_alias<'a>(tokens: &mut Tokens<'a>, names: &Names) -> Result<&'a [u8], HoaFault>
    ensures part { ReadsAs (λ name. name.now) (one alias_name_in (parts.IsBadAlias names.now)) tokens.old
        result tokens.new }
    ensures new { IfOk result (λ name. alias_number names.now name.now ≡ None) }
{
    let token = tokens.advance();
    new_alias_of(token, names)
}

/// The name of an alias that a token is. It must be new, and one of at most `ALIAS_LIMIT`.
fn new_alias_of<'a>(token: Token<'a>, names: &Names) -> Result<&'a [u8], HoaFault>
    ensures { Takes (λ name. name.now) alias_name_in (parts.IsBadAlias names.now) (piece_of token.entry) result }
{
    if !is_kind(token, Kind::AliasName) {
        return Err(refused(token));
    }
    if names.len() >= ALIAS_LIMIT {
        return Err(fault_at(token, HoaCause::Limit));
    }
    if names.number(token.text).is_some() {
        return Err(fault_at(token, HoaCause::Alias));
    }
    Ok(token.text)
}
