//! The fields of lines, and what separates them.

ghost use Rattle.ps_circuit.specs.Signs as parts;
ghost use Rattle.ps_circuit.specs.Inner.Cursors.{Tells, TellsNumber};

use crate::fault::{AigCause, AigFault};
use crate::number::Number;
use ps_text::cursor::{Class, Cursor};

/// Reads a number. Fails with [`AigCause::Syntax`], as all calls here, if the next byte is not a digit.
pub fn number(cursor: &mut Cursor) -> Result<Number, AigFault>
    ensures { TellsNumber cursor.old result cursor.new }
{
    let offset = cursor.offset();
    let refusal = cursor.refusal(AigCause::Syntax);
    let digits = cursor.digits();
    if digits.bytes.is_empty() {
        return Err(refusal);
    }
    Ok(Number {
        value: digits.value.unwrap_or(u64::MAX),
        offset,
    })
}

/// Skips spaces and tabs. Fails if there is none.
pub fn gap(cursor: &mut Cursor) -> Result<(), AigFault>
    ensures { Tells (λ u. u) parts.gap cursor.old result cursor.new }
{
    let refusal = cursor.refusal(AigCause::Syntax);
    if cursor.run(Class::Space).is_empty() {
        return Err(refusal);
    }
    Ok(())
}

/// Reads the rest of the line. Fails if it is empty.
pub fn rest_of_line<'a>(cursor: &mut Cursor<'a>) -> Result<&'a [u8], AigFault>
    ensures { Tells (λ r. r.now) parts.rest_of_line cursor.old result cursor.new }
{
    let refusal = cursor.refusal(AigCause::Syntax);
    let bytes = cursor.run(Class::Inner);
    if bytes.is_empty() {
        return Err(refusal);
    }
    Ok(bytes)
}

/// Skips a newline. Fails if the next byte is another.
pub fn newline(cursor: &mut Cursor) -> Result<(), AigFault>
    ensures { Tells (λ u. u) parts.newline cursor.old result cursor.new }
{
    cursor.byte(b'\n', AigCause::Syntax)
}

/// Skips spaces and tabs, if any, and a newline. Fails at the first byte that is none of these.
pub fn line_end(cursor: &mut Cursor) -> Result<(), AigFault>
    ensures { Tells (λ u. u) parts.line_end cursor.old result cursor.new }
{
    cursor.run(Class::Space);
    newline(cursor)
}

/// Moves to the next field of the line, or else past its end, and says which. Fails at any byte but a newline, a space
/// or a tab.
pub fn more(cursor: &mut Cursor) -> Result<bool, AigFault>
    ensures { Tells (λ b. b) parts.more cursor.old result cursor.new }
{
    if cursor.comes(b'\n') {
        newline(cursor)?;
        return Ok(false);
    }
    gap(cursor)?;
    if cursor.comes(b'\n') {
        newline(cursor)?;
        return Ok(false);
    }
    Ok(true)
}
