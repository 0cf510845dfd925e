//! The parser of the body of an HOA text.

ghost use Rattle.std.specs.Prelude.{[], ◌≡◌, ◌≢◌, ℕ, ◌+◌, ◌^◌, ◌≤◌, ◌↔◌, false, codes, IfOk, is_some, length, IsTrue};
ghost use Rattle.std.specs.Prelude.{option_map};
ghost use Rattle.ps_label.specs.Expression.{expression};
ghost use Rattle.ps_text.specs.Parts.{many, one};
ghost use Rattle.ps_text.specs.Readers.{Reads as ReadsPart};
ghost use Rattle.ps_hoa.specs.Grammar.Body as parts;
ghost use Rattle.ps_hoa.specs.Grammar.Body.{BadIn, edge_limit, has_row, IsBadClose, IsBadNext, IsBadRow, IsWrongCount};
ghost use Rattle.ps_hoa.specs.Grammar.Body.{is_end};
ghost use Rattle.ps_hoa.specs.Grammar.Body.{last_row, no_rows, state_value, with_row};
ghost use Rattle.ps_hoa.specs.Grammar.Header.{HeaderData, int_in, names_of, name_value, header_data};
ghost use Rattle.ps_hoa.specs.Grammar.Operands.{expect_in};
ghost use Rattle.ps_hoa.specs.Inner.Reads.{ReadsAs, Takes};
ghost use Rattle.ps_hoa.specs.Inner.Rows.{body_data, IsEndWrong};
ghost use Rattle.ps_hoa.specs.Scan.{next_of, stream_of};
ghost use Rattle.ps_hoa.specs.Spans.{piece_of};
ghost use Rattle.ps_hoa.specs.Views.{row_data};

pub mod edges;
pub mod rows;

use crate::body::edges::{Labelling, edges, label_in_brackets, labelling_of, marks, state_of};
use crate::body::rows::Rows;
use crate::fault::{HoaCause, HoaFault};
use crate::file::{Edge, Row};
use crate::header::Header;
use crate::refusal::{fault_at, refused};
use crate::signs::{expect, is_name};
use crate::tokens::{Kind, Token, Tokens};
use ps_label::Label;
use std::alloc::Global;

/// Parses the states, then `--END--`.
pub(crate) fn body(alloc: Global, tokens: &mut Tokens, header: &Header) -> Result<Rows, HoaFault>
    ensures { ReadsAs body_data (parts.body (header_data header.now)) tokens.old result tokens.new }
{
    let rows = states(alloc, tokens, header)?;
    end(tokens, header, &rows)?;
    Ok(rows)
}

/// Parses states, up to the first token that does not begin a state.
fn states(alloc: Global, tokens: &mut Tokens, header: &Header) -> Result<Rows, HoaFault>
    ensures { ReadsAs body_data (many (parts.state (header_data header.now)) no_rows) tokens.old result tokens.new }
{
    let mut rows = Rows::new(alloc);
    'more: while is_at_state(tokens) {
        state(alloc, tokens, header, &mut rows)?;
    }
    Ok(rows)
}

fn is_at_state(tokens: &Tokens) -> bool
    ensures { result ≡ is_some (state_value (next_of (stream_of tokens.now)).sign) }
{
    let token = tokens.peek();
    is_name(token, b"State:")
}

/// Parses a state, and adds its row.
fn state(
    alloc: Global,
    tokens: &mut Tokens,
    header: &Header,
    rows: &mut Rows,
) -> Result<(), HoaFault>
    ensures { ReadsAs (λ _. body_data rows.new) (parts.state (header_data header.now) (body_data rows.old)) tokens.old
        result tokens.new }
{
    let row = row(alloc, tokens, header, rows)?;
    rows.push(row)?;
    Ok(())
}

/// Parses the row of a state that has none yet.
fn row(alloc: Global, tokens: &mut Tokens, header: &Header, rows: &Rows) -> Result<Row, HoaFault>
    ensures part { ReadsAs (λ row. with_row (body_data rows.now) (row_data row))
        (parts.state (header_data header.now) (body_data rows.now)) tokens.old result tokens.new }
    ensures new { IfOk result (λ row. has_row row.state (body_data rows.now).rows ≡ false) }
    ensures within { IfOk result (λ row. (body_data rows.now).edges + length row.edges.items ≤ edge_limit) }
{
    begin(tokens, header, rows)?;
    let label = state_label(alloc, tokens, header)?;
    let state = state_number(tokens, header, rows)?;
    pass_name(tokens);
    let marks = marks(alloc, tokens, header)?;
    let mut row = Row {
        state,
        label,
        marks,
        edges: no_edges(alloc, rows.last()),
    };
    let before = rows.edges();
    edges(alloc, tokens, header, before, &mut row)?;
    Ok(row)
}

/// No edges, with space for as many as the previous state has, unless memory runs out.
fn no_edges(alloc: Global, previous: Option<&Row>) -> Vec<Edge>
    ensures { result.items ≡ [] }
{
    let count = match previous {
        Some(row) => row.edges.len(),
        None => 0,
    };
    match Vec::with_capacity(alloc, count) {
        Ok(edges) => edges,
        Err(_) => Vec::new(alloc),
    }
}

/// Reads `State:`; the previous state must have the right number of edges.
fn begin(tokens: &mut Tokens, header: &Header, rows: &Rows) -> Result<(), HoaFault>
    ensures { ReadsAs (λ u. u) (parts.state_begins (header_data header.now) (body_data rows.now)) tokens.old
        result tokens.new }
{
    let token = tokens.advance();
    begin_of(token, header, rows)
}

/// Checks that a token is what `begin` reads.
fn begin_of(token: Token, header: &Header, rows: &Rows) -> Result<(), HoaFault>
    ensures { Takes (λ u. u) state_value (IsBadNext (header_data header.now) (body_data rows.now))
        (piece_of token.entry) result }
{
    if !is_name(token, b"State:") {
        Err(refused(token))
    } else if is_end_wrong(header, rows) {
        Err(fault_at(token, HoaCause::Labels))
    } else {
        Ok(())
    }
}

/// Reads `--END--`; the last state must have the right number of edges.
fn end(tokens: &mut Tokens, header: &Header, rows: &Rows) -> Result<(), HoaFault>
    ensures { ReadsAs (λ _. body_data rows.now) (parts.ended (header_data header.now) (body_data rows.now)) tokens.old
        result tokens.new }
{
    let token = tokens.advance();
    end_of(token, header, rows)
}

/// Checks that a token is what `end` reads.
fn end_of(token: Token, header: &Header, rows: &Rows) -> Result<(), HoaFault>
    ensures { Takes (λ u. u) (expect_in is_end) (IsBadClose (header_data header.now) (body_data rows.now))
        (piece_of token.entry) result }
{
    match token.kind {
        Kind::End if is_end_wrong(header, rows) => Err(fault_at(token, HoaCause::Labels)),
        Kind::End => Ok(()),
        _ => Err(refused(token)),
    }
}

/// Whether `has_wrong_count` is true of the last state.
fn is_end_wrong(header: &Header, rows: &Rows) -> bool
    ensures { IsTrue result ↔ IsEndWrong (header_data header.now) (body_data rows.now) }
{
    match rows.last() {
        Some(row) => has_wrong_count(row, header.propositions()),
        None => false,
    }
}

/// Whether a row has implicit labels, but not exactly one edge for each letter.
fn has_wrong_count(row: &Row, propositions: usize) -> bool
    ensures { (h : HeaderData) → length (names_of h) ≡ propositions →
        IsTrue result ↔ IsWrongCount h (row_data row.now) }
{
    matches!(labelling_of(row), Labelling::ByPlace)
        && !is_power_of_two(row.edges.len(), propositions)
}

fn is_power_of_two(number: usize, exponent: usize) -> bool
    ensures { IsTrue result ↔ (number ≡ 2 ^ exponent) }
{
    exponent < 64 && number == 1 << exponent
}

/// Parses the label of a state, if there is one.
fn state_label(
    alloc: Global,
    tokens: &mut Tokens,
    header: &Header,
) -> Result<Option<Label>, HoaFault>
    ensures { ReadsAs (λ label. option_map expression label) (parts.state_label (header_data header.now)) tokens.old
        result tokens.new }
{
    if !tokens.is_at(Kind::LeftBracket) {
        return Ok(None);
    }
    expect(tokens, Kind::LeftBracket)?;
    let label = label_in_brackets(alloc, tokens, header)?;
    Ok(Some(label))
}

fn state_number(tokens: &mut Tokens, header: &Header, rows: &Rows) -> Result<u32, HoaFault>
    ensures part { ReadsAs (λ n. n) (parts.state_number (header_data header.now) (body_data rows.now)) tokens.old
        result tokens.new }
    ensures new { IfOk result (λ n. has_row n (body_data rows.now).rows ≡ false) }
{
    let token = tokens.advance();
    new_state_of(token, header, rows)
}

/// The state that a token names, which must not have a row yet.
fn new_state_of(token: Token, header: &Header, rows: &Rows) -> Result<u32, HoaFault>
    ensures { Takes (λ n. n) int_in (BadIn (IsBadRow (header_data header.now) (body_data rows.now)))
        (piece_of token.entry) result }
{
    let state = state_of(token, header.states)?;
    if rows.has(state) {
        return Err(fault_at(token, HoaCause::StateTwice));
    }
    Ok(state)
}

/// Skips the name of a state, if there is one.
fn pass_name(tokens: &mut Tokens)
    ensures { ReadsPart parts.state_name (stream_of tokens.old) tt (stream_of tokens.new) }
{
    if tokens.is_at(Kind::Text) {
        tokens.skip();
    }
}
