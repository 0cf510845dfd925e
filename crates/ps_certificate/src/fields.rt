//! The parsers of single fields.

ghost use Rattle.std.specs.Prelude.{◌≡◌, ◌≢◌, ◌<◌, drop};
ghost use Rattle.std.specs.List.{Contains};
ghost use Rattle.ps_text.specs.Parts.{one};
ghost use Rattle.ps_text.specs.Bytes.{take_byte};
ghost use Rattle.ps_text.specs.Cursors.{next_byte};
ghost use Rattle.ps_certificate.specs.Inner.Reading.{Tells, TellsNumber, is_end};
ghost use Rattle.ps_certificate.specs.Texts as parts;
ghost use Rattle.ps_certificate.specs.Texts.{IsMissing};

use crate::counts::Counts;
use crate::fault::{CertCause, CertFault};
use crate::places::Places;
use ps_game::Player;
use ps_text::cursor::Cursor;

/// Whether the next byte is a space, a newline or a colon.
pub(crate) fn ends(cursor: &Cursor) -> bool
    ensures { result ≡ is_end (next_byte cursor.now) }
{
    matches!(cursor.peek(), Some(b' ' | b'\n' | b':'))
}

/// Parses the next number: 0, or digits that don't begin with 0.
pub(crate) fn number(cursor: &mut Cursor) -> Result<u64, CertFault>
    ensures { TellsNumber cursor.old result cursor.new }
{
    let refusal = cursor.refusal(CertCause::Syntax);
    if cursor.comes(b'0') {
        cursor.step();
        return Ok(0);
    }
    let digits = cursor.digits();
    if digits.bytes.is_empty() {
        return Err(refusal);
    }
    match digits.value {
        Some(value) => Ok(value),
        None => Err(refusal),
    }
}

/// Parses the next number, which must equal `wanted` if a space, a newline or a colon follows.
pub(crate) fn exactly(cursor: &mut Cursor, wanted: u64) -> Result<u64, CertFault>
    ensures { Tells (λ n. n) (parts.number (λ n. n ≢ wanted)) cursor.old result cursor.new }
{
    let other_game = cursor.refusal(CertCause::OtherGame);
    let found = number(cursor)?;
    if found != wanted && ends(cursor) {
        return Err(other_game);
    }
    Ok(found)
}

/// Moves past the rest of a line, which must list the priorities, each after a space.
pub(crate) fn priorities(cursor: &mut Cursor, priorities: &[u64]) -> Result<(), CertFault>
    ensures { Tells (λ u. u) (parts.priorities priorities.now) cursor.old result cursor.new }
{
    let mut left = priorities;
    'more: while cursor.comes(b' ') {
        left = listed(cursor, left)?;
    }
    line_end(cursor, left)
}

/// Moves past a space and the first of the priorities. Returns the others.
fn listed<'p>(cursor: &mut Cursor, priorities: &'p [u64]) -> Result<&'p [u64], CertFault>
    ensures { Tells (λ left. left.now) (parts.priority priorities.now) cursor.old result cursor.new }
{
    cursor.byte(b' ', CertCause::Syntax)?;
    let other_game = cursor.refusal(CertCause::OtherGame);
    let number = number(cursor)?;
    if priorities.first().copied() != Some(number) && ends(cursor) {
        return Err(other_game);
    }
    Ok(without_first(priorities))
}

/// Moves past the newline that ends a line of priorities, none of which may be left.
fn line_end(cursor: &mut Cursor, left: &[u64]) -> Result<(), CertFault>
    ensures { Tells (λ u. u) (one (take_byte 10) (IsMissing left.now)) cursor.old result cursor.new }
{
    if !cursor.comes(b'\n') {
        return Err(cursor.refusal(CertCause::Syntax));
    }
    if !left.is_empty() {
        return Err(cursor.refusal(CertCause::OtherGame));
    }
    cursor.step();
    Ok(())
}

/// Parses the version, 1 or 2. Returns whether the text is compact.
pub(crate) fn version(cursor: &mut Cursor) -> Result<bool, CertFault>
    ensures { Tells (λ v. v) parts.version cursor.old result cursor.new }
{
    if cursor.comes(b'1') {
        cursor.step();
        return Ok(false);
    }
    if cursor.comes(b'2') {
        cursor.step();
        return Ok(true);
    }
    Err(cursor.refusal(CertCause::Syntax))
}

/// Parses the winner, 0 or 1.
pub(crate) fn winner(cursor: &mut Cursor) -> Result<Player, CertFault>
    ensures { Tells (λ w. w) parts.winner cursor.old result cursor.new }
{
    if cursor.comes(b'0') {
        cursor.step();
        return Ok(Player::EVEN);
    }
    if cursor.comes(b'1') {
        cursor.step();
        return Ok(Player::ODD);
    }
    Err(cursor.refusal(CertCause::Syntax))
}

/// Parses a move: `-` for none, or the id of a vertex.
pub(crate) fn choice(cursor: &mut Cursor, ids: &Places<'_>) -> Result<Option<usize>, CertFault>
    ensures { Tells (λ c. c) (parts.choice ids.now) cursor.old result cursor.new }
{
    if cursor.comes(b'-') {
        cursor.step();
        return Ok(None);
    }
    let other_game = cursor.refusal(CertCause::OtherGame);
    let id = number(cursor)?;
    let vertex = ids.place(id);
    if vertex.is_none() && ends(cursor) {
        return Err(other_game);
    }
    Ok(vertex)
}

/// Parses `count` counts, each after a space, and the end of the line.
pub(crate) fn all_counts(
    cursor: &mut Cursor,
    count: usize,
    counts: &mut Counts,
) -> Result<(), CertFault>
    ensures { Tells (λ _. counts.new) (parts.counts count) cursor.old result cursor.new }
{
    counts.clear();
    for _ in 0..count {
        cursor.byte(b' ', CertCause::Syntax)?;
        counts.push(number(cursor)?)?;
    }
    cursor.byte(b'\n', CertCause::Syntax)?;
    Ok(())
}

fn without_first(list: &[u64]) -> &[u64]
    ensures { result.now ≡ drop 1 list.now }
{
    match list {
        [_, others @ ..] => others,
        [] => list,
    }
}
