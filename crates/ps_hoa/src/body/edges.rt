//! The parser of a state's edges.

ghost use Rattle.std.specs.Prelude.{[], ◌≡◌, ◌+◌, ◌<◌, ◌≤◌, ◌↔◌, Bool, IfOk, IsTrue, OnOk, length, map, Some};
ghost use Rattle.ps_label.specs.Expression.{expression};
ghost use Rattle.ps_hoa.specs.Grammar.Body as parts;
ghost use Rattle.ps_hoa.specs.Grammar.Body.{BadIn, IsBadBracket, IsBadPlainTarget, IsBadSet, IsBadState, edge_limit};
ghost use Rattle.ps_hoa.specs.Grammar.Body.{is_bracket, MayHaveLabel, MayHaveNoLabel};
ghost use Rattle.ps_hoa.specs.Grammar.Header.{int_in, header_data};
ghost use Rattle.ps_hoa.specs.Inner.Reads.{ReadsAs, Takes};
ghost use Rattle.ps_hoa.specs.Marks.{mark_list};
ghost use Rattle.ps_hoa.specs.Spans.{piece_of};
ghost use Rattle.ps_hoa.specs.Scan.{next_of, stream_of};
ghost use Rattle.ps_hoa.specs.Inner.Ahead.{begins_edge, StandsAlone};
ghost use Rattle.ps_hoa.specs.Views.{guard_data, row_data};
ghost use Rattle.ps_text.specs.Parts.{many, one};

use crate::fault::{HoaCause, HoaFault};
use crate::file::{Edge, Guard, Row};
use crate::header::{Header, STATE_LIMIT};
use crate::label::label;
use crate::marks::Marks;
use crate::refusal::{fault_at, refused};
use crate::signs::{expect, int_of};
use crate::tokens::{Kind, Token, Tokens};
use ps_label::Label;
use std::alloc::Global;

/// The most edges of a text.
pub(crate) const EDGE_LIMIT: usize = 1_048_576;

/// How the edges of a state are labelled.
#[derive(Clone, Copy)]
pub(crate) enum Labelling {
    /// By the label of the state.
    ByState,
    /// By a label of each edge.
    ByEdge,
    /// By their order: the edge with the index `k` is taken at the letter `k`.
    ByPlace,
    /// Not known yet: the state has no label, and no edge was parsed so far.
    NotKnown,
}

pub(crate) fn labelling_of(row: &Row) -> Labelling
    ensures { result ≡ parts.labelling (row_data row.now) }
{
    if row.label.is_some() {
        return Labelling::ByState;
    }
    match row.edges.first() {
        None => Labelling::NotKnown,
        Some(edge) => match edge.guard {
            Guard::Stated(_) => Labelling::ByEdge,
            Guard::OfState => Labelling::ByState,
            Guard::Letter(_) => Labelling::ByPlace,
        },
    }
}

/// Parses the edges of a state, and gives up the space that their list does not use. `before` is the number of edges of
/// the earlier states.
pub(crate) fn edges(
    alloc: Global,
    tokens: &mut Tokens,
    header: &Header,
    before: usize,
    row: &mut Row,
) -> Result<(), HoaFault>
    ensures { ReadsAs (λ _. row_data row.new) (parts.edges (header_data header.now) before (row_data row.old))
        tokens.old result tokens.new }
{
    'more: while is_at_edge(tokens) {
        edge(alloc, tokens, header, before, row)?;
    }
    row.edges.shrink_to_fit();
    Ok(())
}

/// Whether the next token begins an edge.
fn is_at_edge(tokens: &Tokens) -> bool
    ensures { result ≡ begins_edge (next_of (stream_of tokens.now)).sign.kind }
{
    matches!(tokens.peek().kind, Kind::LeftBracket | Kind::Int)
}

fn edge(
    alloc: Global,
    tokens: &mut Tokens,
    header: &Header,
    before: usize,
    row: &mut Row,
) -> Result<(), HoaFault>
    ensures { ReadsAs (λ _. row_data row.new) (parts.edge (header_data header.now) before (row_data row.old))
        tokens.old result tokens.new }
{
    if tokens.is_at(Kind::LeftBracket) {
        labelled_edge(alloc, tokens, header, before, row)
    } else {
        plain_edge(alloc, tokens, header, before, row)
    }
}

fn labelled_edge(
    alloc: Global,
    tokens: &mut Tokens,
    header: &Header,
    before: usize,
    row: &mut Row,
) -> Result<(), HoaFault>
    ensures { ReadsAs (λ _. row_data row.new) (parts.labelled_edge (header_data header.now) before
        (row_data row.old)) tokens.old result tokens.new }
{
    bracket(tokens, before, row)?;
    let label = label_in_brackets(alloc, tokens, header)?;
    let target = labelled_target(tokens, header)?;
    let marks = marks(alloc, tokens, header)?;
    row.edges.push(Edge {
        guard: Guard::Stated(label),
        target,
        marks,
    })?;
    Ok(())
}

fn plain_edge(
    alloc: Global,
    tokens: &mut Tokens,
    header: &Header,
    before: usize,
    row: &mut Row,
) -> Result<(), HoaFault>
    ensures { ReadsAs (λ _. row_data row.new) (parts.plain_edge (header_data header.now) before (row_data row.old))
        tokens.old result tokens.new }
{
    let target = plain_target(tokens, header, before, row)?;
    let marks = marks(alloc, tokens, header)?;
    let guard = plain_guard(row);
    row.edges.push(Edge {
        guard,
        target,
        marks,
    })?;
    Ok(())
}

/// The guard of the next edge, if it has no label.
fn plain_guard(row: &Row) -> Guard
    ensures { guard_data result ≡ parts.plain_guard (row_data row.now) }
{
    match row.label {
        Some(_) => Guard::OfState,
        None => Guard::Letter(row.edges.len() as u64),
    }
}

fn bracket(tokens: &mut Tokens, before: usize, row: &Row) -> Result<(), HoaFault>
    ensures { ReadsAs (λ u. u) (one is_bracket (IsBadBracket before (row_data row.now))) tokens.old
        result tokens.new }
{
    let token = tokens.advance();
    bracket_of(token, before, row)
}

/// Checks that a token is `[`, and that a labelled edge is allowed here.
fn bracket_of(token: Token, before: usize, row: &Row) -> Result<(), HoaFault>
    ensures { Takes (λ u. u) is_bracket (IsBadBracket before (row_data row.now)) (piece_of token.entry) result }
{
    if token.kind != Kind::LeftBracket {
        Err(refused(token))
    } else if row.edges.len() >= EDGE_LIMIT.saturating_sub(before) {
        Err(fault_at(token, HoaCause::Limit))
    } else if matches!(labelling_of(row), Labelling::ByEdge | Labelling::NotKnown) {
        Ok(())
    } else {
        Err(fault_at(token, HoaCause::Labels))
    }
}

/// Parses what follows the `[` of a label.
pub(crate) fn label_in_brackets(
    alloc: Global,
    tokens: &mut Tokens,
    header: &Header,
) -> Result<Label, HoaFault>
    ensures { ReadsAs (λ label. Some (expression label)) (parts.label_in_brackets (header_data header.now)) tokens.old
        result tokens.new }
{
    let scope = header.scope();
    let label = label(alloc, tokens, &scope)?;
    expect(tokens, Kind::RightBracket)?;
    Ok(label)
}

fn labelled_target(tokens: &mut Tokens, header: &Header) -> Result<u32, HoaFault>
    ensures { ReadsAs (λ n. n) (parts.labelled_target (header_data header.now)) tokens.old result tokens.new }
{
    let token = tokens.advance();
    let target = state_of(token, header.states)?;
    alone(tokens)?;
    Ok(target)
}

fn plain_target(
    tokens: &mut Tokens,
    header: &Header,
    before: usize,
    row: &Row,
) -> Result<u32, HoaFault>
    ensures { ReadsAs (λ n. n) (parts.plain_target (header_data header.now) before (row_data row.now)) tokens.old
        result tokens.new }
{
    let token = tokens.advance();
    let target = plain_target_of(token, header.states, before, row)?;
    alone(tokens)?;
    Ok(target)
}

/// The target that a token names, for an edge without a label.
fn plain_target_of(
    token: Token,
    states: Option<u32>,
    before: usize,
    row: &Row,
) -> Result<u32, HoaFault>
    ensures { Takes (λ n. n) int_in (BadIn (IsBadPlainTarget states before (row_data row.now)))
        (piece_of token.entry) result }
{
    if token.kind != Kind::Int {
        return Err(refused(token));
    }
    if row.edges.len() >= EDGE_LIMIT.saturating_sub(before) {
        return Err(fault_at(token, HoaCause::Limit));
    }
    let target = state_of(token, states)?;
    match labelling_of(row) {
        Labelling::ByEdge => Err(fault_at(token, HoaCause::Labels)),
        _ => Ok(target),
    }
}

/// The state that a token names.
pub(crate) fn state_of(token: Token, states: Option<u32>) -> Result<u32, HoaFault>
    ensures { Takes (λ n. n) int_in (BadIn (IsBadState states)) (piece_of token.entry) result }
{
    if token.kind != Kind::Int {
        return Err(refused(token));
    }
    let Some(number) = int_of(token.text) else {
        return Err(fault_at(token, HoaCause::Limit));
    };
    match states {
        None if number >= STATE_LIMIT => Err(fault_at(token, HoaCause::Limit)),
        Some(states) if number >= states => Err(fault_at(token, HoaCause::Range)),
        _ => Ok(number),
    }
}

/// Checks that the next token is not `&`.
fn alone(tokens: &Tokens) -> Result<(), HoaFault>
    ensures { StandsAlone (next_of (stream_of tokens.now)) result }
{
    let next = tokens.peek();
    if next.kind == Kind::And {
        return Err(fault_at(next, HoaCause::Alternating));
    }
    Ok(())
}

/// Parses acceptance sets between braces, if there are any.
#[inline(always)]
pub(crate) fn marks(alloc: Global, tokens: &mut Tokens, header: &Header) -> Result<Marks, HoaFault>
    ensures { ReadsAs mark_list (parts.marks (header_data header.now)) tokens.old result tokens.new }
{
    if tokens.is_at(Kind::LeftBrace) {
        let count = header.sets();
        sets(alloc, tokens, count)
    } else {
        Ok(Marks::None)
    }
}

/// Parses acceptance sets between braces, each less than `count`.
#[inline(never)]
fn sets(alloc: Global, tokens: &mut Tokens, count: u32) -> Result<Marks, HoaFault>
    ensures { ReadsAs mark_list (parts.sets count) tokens.old result tokens.new }
{
    expect(tokens, Kind::LeftBrace)?;
    let marks = set_numbers(alloc, tokens, count)?;
    expect(tokens, Kind::RightBrace)?;
    Ok(marks)
}

/// Parses the numbers of sets, each less than `count`.
fn set_numbers(alloc: Global, tokens: &mut Tokens, count: u32) -> Result<Marks, HoaFault>
    ensures { ReadsAs mark_list (many (parts.set_number count) []) tokens.old result tokens.new }
{
    let mut marks = Marks::None;
    'more: while tokens.is_at(Kind::Int) {
        let token = tokens.advance();
        let set = set_of(token, count)?;
        marks = marks.with(alloc, set)?;
    }
    Ok(marks)
}

/// The set that a token names, less than `count`.
fn set_of(token: Token, count: u32) -> Result<u32, HoaFault>
    ensures { Takes (λ n. n) int_in (BadIn (IsBadSet count)) (piece_of token.entry) result }
{
    if token.kind != Kind::Int {
        return Err(refused(token));
    }
    match int_of(token.text) {
        None => Err(fault_at(token, HoaCause::Limit)),
        Some(number) if number >= count => Err(fault_at(token, HoaCause::Range)),
        Some(number) => Ok(number),
    }
}
