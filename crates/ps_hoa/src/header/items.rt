//! The parser of header items.

ghost use Rattle.std.specs.Prelude.{◌≡◌, ◌<◌, [], IfSome, None};
ghost use Rattle.ps_label.specs.Expression.{expression};
ghost use Rattle.ps_text.specs.Parts.{many};
ghost use Rattle.ps_hoa.specs.Inner.Flaws.{body_in};
ghost use Rattle.ps_hoa.specs.Grammar.Header as parts;
ghost use Rattle.ps_hoa.specs.Grammar.Header.{header as header_part, item_in, item_value, no_items, header_data};
ghost use Rattle.ps_hoa.specs.Grammar.ItemNames.{item_named, once_named, once_of};
ghost use Rattle.ps_hoa.specs.Grammar.Labels as labels;
ghost use Rattle.ps_hoa.specs.Grammar.Operands.{nesting_limit};
ghost use Rattle.ps_hoa.specs.Inner.Reads.{ReadsAs, Takes};
ghost use Rattle.ps_hoa.specs.Spans.{piece_of};

use crate::condition::condition;
use crate::fault::{HoaCause, HoaFault};
use crate::header::flaws::flaw;
use crate::header::indices::Indices;
use crate::header::names::{Names, Scope};
use crate::header::new_names::{new_alias, propositions};
use crate::header::skipped::{name, other, tool};
use crate::header::{Acceptance, Header, STATE_LIMIT};
use crate::label::label;
use crate::refusal::{begins_capital, fault_at, refused};
use crate::signs::{int, is_kind, start_state};
use crate::tokens::{Kind, Token, Tokens, is_same};
use ps_label::Label;
use std::alloc::Global;

/// The most propositions that a text may declare.
const PROPOSITION_LIMIT: u32 = 64;

/// The most acceptance sets that a text may declare.
const SET_LIMIT: u32 = 64;

/// The header items that the parser knows by name, and `Other`.
#[derive(Clone, Copy)]
pub(crate) enum Item {
    States,
    Start,
    Propositions,
    Alias,
    Acceptance,
    Controllable,
    Tool,
    Name,
    Other,
}

const ITEMS: &[(&[u8], Item)] = &[
    (b"States:", Item::States),
    (b"Start:", Item::Start),
    (b"AP:", Item::Propositions),
    (b"Alias:", Item::Alias),
    (b"Acceptance:", Item::Acceptance),
    (b"controllable-AP:", Item::Controllable),
    (b"tool:", Item::Tool),
    (b"name:", Item::Name),
];

/// The item with a name, if the parser knows it.
pub(crate) fn item_named(name: &[u8]) -> Option<Item>
    ensures { result ≡ item_named name.now }
{
    let rows: &[(&[u8], Item)] = ITEMS;
    for &(spelled, item) in rows {
        if is_same(name, spelled) {
            return Some(item);
        }
    }
    None
}

/// The number of items that may occur only once; `History` records whether each has.
pub(crate) const ONCE_COUNT: usize = 4;

/// The index of an item among those that may occur only once.
fn once_of(item: Item) -> Option<usize>
    ensures { result ≡ once_of item }
{
    match item {
        Item::States => Some(0),
        Item::Propositions => Some(1),
        Item::Acceptance => Some(2),
        Item::Controllable => Some(3),
        _ => None,
    }
}

/// The index of the item with a name among those that may occur only once.
pub(crate) fn once_named(name: &[u8]) -> Option<usize>
    ensures value { result ≡ once_named name.now }
    ensures within { IfSome result (λ once. once < ONCE_COUNT) }
{
    once_of(item_named(name)?)
}

/// Parses a header, up to `--BODY--`.
pub(crate) fn header<'a>(alloc: Global, tokens: &mut Tokens<'a>) -> Result<Header<'a>, HoaFault>
    ensures { ReadsAs header_data header_part tokens.old result tokens.new }
{
    let header = items(alloc, tokens)?;
    body_token(tokens, &header)?;
    Ok(header)
}

/// Reads `--BODY--`, and checks the header as a whole.
fn body_token(tokens: &mut Tokens, header: &Header) -> Result<(), HoaFault>
    ensures { ReadsAs (λ _. header_data header.now) (parts.body_token (header_data header.now)) tokens.old
        result tokens.new }
{
    let token = tokens.advance();
    body_token_of(token, header)
}

/// Checks that a token is `--BODY--`, and that the header has no flaw.
fn body_token_of(token: Token, header: &Header) -> Result<(), HoaFault>
    ensures { Takes (λ _. header_data header.now) (body_in (header_data header.now))
        (parts.IsBadBody (header_data header.now)) (piece_of token.entry) result }
{
    if !is_kind(token, Kind::Body) {
        return Err(refused(token));
    }
    match flaw(header) {
        Some(cause) => Err(fault_at(token, cause)),
        None => Ok(()),
    }
}

pub(crate) fn items<'a>(alloc: Global, tokens: &mut Tokens<'a>) -> Result<Header<'a>, HoaFault>
    ensures { ReadsAs header_data (many parts.item no_items) tokens.old result tokens.new }
{
    let mut header = Header::new(alloc);
    'items: while item_at(tokens.peek()).is_some() {
        read_item(alloc, tokens, &mut header)?;
    }
    Ok(header)
}

/// The item that a token begins.
fn item_at(token: Token) -> Option<Item>
    ensures { result ≡ item_value token.entry.kind token.entry.text.now }
{
    if token.kind != Kind::Header {
        return None;
    }
    match item_named(token.text) {
        Some(item) => Some(item),
        None if begins_capital(token.text) => None,
        None => Some(Item::Other),
    }
}

fn read_item<'a>(
    alloc: Global,
    tokens: &mut Tokens<'a>,
    header: &mut Header<'a>,
) -> Result<(), HoaFault>
    ensures { ReadsAs (λ _. header_data header.new) (parts.item (header_data header.old)) tokens.old
        result tokens.new }
{
    let item = item_name(tokens, header)?;
    behind_name(alloc, tokens, item, header)
}

fn item_name(tokens: &mut Tokens, header: &Header) -> Result<Item, HoaFault>
    ensures { ReadsAs (λ item. item) (parts.item_name (header_data header.now)) tokens.old result tokens.new }
{
    let token = tokens.advance();
    item_name_of(token, header)
}

/// The item that a token names, if it is allowed here.
fn item_name_of(token: Token, header: &Header) -> Result<Item, HoaFault>
    ensures { Takes (λ item. item) item_in (parts.IsBadItem (header_data header.now)) (piece_of token.entry) result }
{
    match item_at(token) {
        None => Err(refused(token)),
        Some(Item::Start) if header.start.is_some() => Err(fault_at(token, HoaCause::Start)),
        Some(item) => Ok(item),
    }
}

/// Parses the arguments of an item.
fn behind_name<'a>(
    alloc: Global,
    tokens: &mut Tokens<'a>,
    item: Item,
    header: &mut Header<'a>,
) -> Result<(), HoaFault>
    ensures { ReadsAs (λ _. header_data header.new) (parts.behind_name (header_data header.old) item) tokens.old
        result tokens.new }
{
    match item {
        Item::States => states(tokens, header),
        Item::Start => start(tokens, header),
        Item::Propositions => names(alloc, tokens, header),
        Item::Alias => alias(alloc, tokens, header),
        Item::Acceptance => acceptance(alloc, tokens, header),
        Item::Controllable => controllable(alloc, tokens, header),
        Item::Tool => tool(tokens),
        Item::Name => name(tokens),
        Item::Other => other(tokens),
    }
}

/// Parses the number of states.
fn states(tokens: &mut Tokens, header: &mut Header) -> Result<(), HoaFault>
    ensures { ReadsAs (λ _. header_data header.new) (parts.state_count (header_data header.old)) tokens.old
        result tokens.new }
{
    header.states = Some(int(tokens, STATE_LIMIT)?);
    Ok(())
}

/// Parses the start state.
fn start(tokens: &mut Tokens, header: &mut Header) -> Result<(), HoaFault>
    ensures { ReadsAs (λ _. header_data header.new) (parts.start_state (header_data header.old)) tokens.old
        result tokens.new }
{
    header.start = Some(start_state(tokens)?);
    Ok(())
}

/// Parses the names of the propositions.
fn names(alloc: Global, tokens: &mut Tokens, header: &mut Header) -> Result<(), HoaFault>
    ensures { ReadsAs (λ _. header_data header.new) (parts.counted_names (header_data header.old)) tokens.old
        result tokens.new }
{
    let count = int(tokens, PROPOSITION_LIMIT)?;
    header.names = Some(propositions(alloc, tokens, count)?);
    Ok(())
}

/// Parses the definition of an alias, after `Alias:`.
fn alias<'a>(
    alloc: Global,
    tokens: &mut Tokens<'a>,
    header: &mut Header<'a>,
) -> Result<(), HoaFault>
    ensures { ReadsAs (λ _. header_data header.new) (parts.named_label (header_data header.old)) tokens.old
        result tokens.new }
{
    let name = new_alias(tokens, &header.alias_names)?;
    let label = header_label(alloc, tokens, &header.alias_names)?;
    header.alias_names.push(name)?;
    header.aliases.push(label)?;
    Ok(())
}

/// Parses the label of an alias. Its numbers are not compared with the number of propositions, since `AP:` may come
/// later.
fn header_label(alloc: Global, tokens: &mut Tokens, names: &Names) -> Result<Label, HoaFault>
    ensures { ReadsAs expression (labels.label (record { names = names.now; propositions = None }) nesting_limit)
        tokens.old result tokens.new }
{
    let scope = Scope {
        aliases: names,
        propositions: None,
    };
    label(alloc, tokens, &scope)
}

/// Parses the number of acceptance sets and the acceptance condition.
fn acceptance(alloc: Global, tokens: &mut Tokens, header: &mut Header) -> Result<(), HoaFault>
    ensures { ReadsAs (λ _. header_data header.new) (parts.counted_condition (header_data header.old)) tokens.old
        result tokens.new }
{
    let sets = int(tokens, SET_LIMIT)?;
    let condition = condition(alloc, tokens)?;
    header.acceptance = Some(Acceptance { sets, condition });
    Ok(())
}

/// Parses the numbers of the controllable propositions.
fn controllable(alloc: Global, tokens: &mut Tokens, header: &mut Header) -> Result<(), HoaFault>
    ensures { ReadsAs (λ _. header_data header.new) (parts.controlled (header_data header.old)) tokens.old
        result tokens.new }
{
    header.controllable = Some(indices(alloc, tokens)?);
    Ok(())
}

fn indices(alloc: Global, tokens: &mut Tokens) -> Result<Indices, HoaFault>
    ensures { ReadsAs (λ indices. indices) (many parts.index []) tokens.old result tokens.new }
{
    let mut indices = Indices::new(alloc);
    'indices: while tokens.is_at(Kind::Int) {
        let number = int(tokens, u32::MAX)?;
        indices.add(number)?;
    }
    Ok(indices)
}
