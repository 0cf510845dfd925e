//! The first line of an AIGER text, its header.

ghost use Rattle.std.specs.Prelude.{◌<◌, ◌^◌, IfOk};
ghost use Rattle.ps_circuit.specs.Inner.Cursors.{Tells};
ghost use Rattle.ps_circuit.specs.Inner.Reading.{TellsField, TellsCount, TellsHeader};
ghost use Rattle.ps_circuit.specs.Texts as parts;
ghost use Rattle.ps_circuit.specs.Texts.{WrongMost};

use crate::fault::{AigCause, AigFault};
use crate::fields::{gap, line_end, more, number};
use crate::number::Number;
use crate::sizes::Header;
use ps_text::cursor::Cursor;

/// The greatest variable that it may state.
const MOST: u64 = 2_147_483_647;

/// Reads the first line. Fails with its first error.
pub fn read_header(cursor: &mut Cursor) -> Result<Header, AigFault>
    ensures { TellsHeader cursor.old result cursor.new }
{
    cursor.word(b"aag", AigCause::Syntax)?;
    let most = most(cursor)?;
    let inputs = count(cursor)?;
    let latches = count(cursor)?;
    let outputs = count(cursor)?;
    let gates = count(cursor)?;
    sections(cursor, 4)?;
    Ok(Header {
        most: most.value as u32,
        inputs,
        latches,
        outputs,
        gates,
    })
}

/// Reads a gap and a number. Fails with [`AigCause::Syntax`] if either is missing.
pub fn field(cursor: &mut Cursor) -> Result<Number, AigFault>
    ensures { TellsField cursor.old result cursor.new }
{
    gap(cursor)?;
    number(cursor)
}

/// Reads M, the greatest variable.
fn most(cursor: &mut Cursor) -> Result<Number, AigFault>
    ensures exact { Tells (λ n. n) (parts.field WrongMost) cursor.old result cursor.new }
    ensures small { IfOk result (λ n. n.value < 2 ^ 31) }
{
    let most = field(cursor)?;
    if most.value > MOST {
        return Err(most.refused(AigCause::Literal));
    }
    Ok(most)
}

/// Reads I, L, O or A, the number of lines of a kind.
fn count(cursor: &mut Cursor) -> Result<u64, AigFault>
    ensures { TellsCount cursor.old result cursor.new }
{
    let count = field(cursor)?;
    Ok(count.value)
}

/// Reads up to `left` of the counts B, C, J and F, each of which must be 0, and the end of the line.
fn sections(cursor: &mut Cursor, left: u32) -> Result<(), AigFault>
    ensures { Tells (λ u. u) (parts.sections left) cursor.old result cursor.new }
{
    if left == 0 {
        return line_end(cursor);
    }
    if !more(cursor)? {
        return Ok(());
    }
    let count = number(cursor)?;
    if count.value != 0 {
        return Err(count.refused(AigCause::Sections));
    }
    sections(cursor, left - 1)
}
