//! The parser of the counts in a line.

ghost use Rattle.std.specs.Prelude.{◌≡◌, ◌<◌, IfOk, length, slice_index, true};
ghost use Rattle.ps_certificate.specs.Pairs.{Pairs, with_pair};
ghost use Rattle.ps_certificate.specs.Inner.Reading.{Tells, TellsPriority, rises};
ghost use Rattle.ps_certificate.specs.Texts as parts;
ghost use Rattle.ps_certificate.specs.Texts.{IsZero};

use crate::counts::Counts;
use crate::fault::{CertCause, CertFault};
use crate::fields::{all_counts, ends, number};
use crate::rising::Rising;
use ps_text::cursor::Cursor;

/// Parses the counts for these priorities, all or those of a compact text, and the end of the line. They replace
/// `counts`.
pub(crate) fn counts_for(
    cursor: &mut Cursor,
    priorities: Rising<'_>,
    compact: bool,
    counts: &mut Counts,
) -> Result<(), CertFault>
    ensures { Tells (λ _. counts.new) (parts.counts_in compact priorities.entry.list.now) cursor.old result
        cursor.new }
{
    if compact {
        pairs(cursor, priorities, counts)
    } else {
        all_counts(cursor, priorities.list.len(), counts)
    }
}

/// Parses pairs of a priority and its count, and the end of the line. Counts that are left out are 0.
fn pairs(cursor: &mut Cursor, priorities: Rising<'_>, counts: &mut Counts) -> Result<(), CertFault>
    ensures { Tells (λ _. counts.new) (parts.counts_in true priorities.entry.list.now) cursor.old result
        cursor.new }
{
    counts.clear();
    let mut last = None;
    'more: while cursor.comes(b' ') {
        let (place, count) = pair(cursor, priorities, last)?;
        counts.extend(place);
        counts.push(count)?;
        last = Some(priorities.list[place]);
    }
    cursor.byte(b'\n', CertCause::Syntax)?;
    counts.extend(priorities.list.len());
    Ok(())
}

/// Parses a pair, whose priority must be greater than `last`. Returns the index of the priority, and the count.
fn pair(
    cursor: &mut Cursor,
    priorities: Rising<'_>,
    last: Option<u64>,
) -> Result<(usize, u64), CertFault>
    ensures read { (pairs : Pairs) → pairs.last ≡ last → Tells
        (λ pair. with_pair pairs (slice_index priorities.entry.list.now pair.0) pair.1)
        (parts.pair priorities.entry.list.now pairs)
        cursor.old result cursor.new }
    ensures within { IfOk result (λ pair. pair.0 < length priorities.entry.list.now) }
    ensures above { IfOk result (λ pair. rises last (slice_index priorities.entry.list.now pair.0) ≡ true) }
{
    cursor.byte(b' ', CertCause::Syntax)?;
    let place = priority(cursor, priorities, last)?;
    cursor.byte(b':', CertCause::Syntax)?;
    let count = positive(cursor)?;
    Ok((place, count))
}

/// Parses the priority of a pair. Returns its index.
fn priority(
    cursor: &mut Cursor,
    priorities: Rising<'_>,
    last: Option<u64>,
) -> Result<usize, CertFault>
    ensures read { (pairs : Pairs) → pairs.last ≡ last → TellsPriority priorities.entry.list.now pairs cursor.old
        result cursor.new }
    ensures within { IfOk result (λ place. place < length priorities.entry.list.now) }
    ensures above { IfOk result (λ place. rises last (slice_index priorities.entry.list.now place) ≡ true) }
{
    let refused = cursor.refusal(CertCause::Syntax);
    let other_game = cursor.refusal(CertCause::OtherGame);
    let priority = number(cursor)?;
    if !ends(cursor) {
        return Err(cursor.refusal(CertCause::Syntax));
    }
    if !is_above(priority, last) {
        return Err(refused);
    }
    match priorities.place_of(priority) {
        Some(place) => Ok(place),
        None => Err(other_game),
    }
}

/// Parses a count of a compact text, which must not be 0.
fn positive(cursor: &mut Cursor) -> Result<u64, CertFault>
    ensures { Tells (λ n. n) (parts.judged IsZero) cursor.old result cursor.new }
{
    let refusal = cursor.refusal(CertCause::Syntax);
    let count = number(cursor)?;
    if count == 0 {
        return Err(refusal);
    }
    Ok(count)
}

fn is_above(number: u64, last: Option<u64>) -> bool
    ensures { result ≡ rises last number }
{
    match last {
        Some(last) => last < number,
        None => true,
    }
}
