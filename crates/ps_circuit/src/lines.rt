//! The lines of inputs, latches, outputs and gates.

ghost use Rattle.std.specs.Prelude.{◌≡◌, ℕ, ◌<◌, ◌≤◌, ◌+◌, ◌*◌, ◌^◌, [], ◌∷◌, ◌++◌, length, IfOk, OnOk, IsTrue};
ghost use Rattle.std.specs.Prelude.{◌↔◌, false, Contains};
ghost use Rattle.std.specs.Bool.{OnTrue};
ghost use Rattle.ps_text.specs.Parts.{times};
ghost use Rattle.ps_circuit.specs.Circuits.{IsDefinition};
ghost use Rattle.ps_circuit.specs.Inner.Cursors.{Tells, saturated};
ghost use Rattle.ps_circuit.specs.Inner.Reading.{AddsVariable, Defines, lines_of, AddsInput, AddsLatch, AddsOutput};
ghost use Rattle.ps_circuit.specs.Inner.Reading.{AddsGate};
ghost use Rattle.ps_circuit.specs.Inner.Reading.{Grown, IsRow};
ghost use Rattle.ps_circuit.specs.Signs as signs;
ghost use Rattle.ps_circuit.specs.Texts as parts;
ghost use Rattle.ps_circuit.specs.Texts.{Lines, WrongDefinition, WrongLiteral, no_lines};
ghost use Rattle.ps_circuit.specs.Signs.{Field};

use crate::fault::{AigCause, AigFault};
use crate::fields::{line_end, more, number};
use crate::header::field;
use crate::literal::Literal;
use crate::number::Number;
use crate::parts::{Gate, Latch};
use crate::sizes::Header;
use crate::variables::Variables;
use ps_text::cursor::Cursor;
use std::alloc::{AllocError, Global};

/// What is noted while the lines of numbers are read.
#[derive(Drop)]
pub struct Noted {
    /// The variables that are defined, in text order.
    pub variables: Variables,
    /// The literals that use a variable, in text order.
    pub readings: Vec<Number>,
    /// The offset of each gate's line.
    pub starts: Vec<usize>,
}

impl Noted {
    /// Before the first line. Variables below the limit are found fastest. Fails if out of memory.
    pub fn nothing(alloc: Global, limit: usize) -> Result<Self, AllocError>
        ensures { IfOk result (λ noted. lines_of [] noted ≡ no_lines {A = ℕ}) }
    {
        Ok(Noted {
            variables: Variables::new(alloc, limit)?,
            readings: Vec::new(alloc),
            starts: Vec::new(alloc),
        })
    }
}

/// A kind of lines: of inputs, latches, outputs or gates.
pub trait Line {
    /// What a line gives.
    type Item: Drop;

    /// The grammar of a line, by what was read before.
    ghost part: { ℕ → Lines Self.Item → Field (Lines Self.Item) };

    /// What a line adds to what was read before: one item.
    ghost adds: { ℕ → Lines Self.Item → Lines Self.Item → Type 0 };

    /// Reads a line.
    fn read(
        cursor: &mut Cursor,
        noted: &mut Noted,
        header: Header,
        items: &mut Vec<Self::Item>,
    ) -> Result<(), AigFault>
        ensures exact { Tells (λ _. lines_of items.new.items noted.new)
            (part header.most (lines_of items.old.items noted.old)) cursor.old result cursor.new }
        ensures adds { OnOk result (adds header.most (lines_of items.old.items noted.old)
            (lines_of items.new.items noted.new)) };
}

/// Reads `count` lines of a kind. Fails with the first error in them, or if out of memory.
pub fn lines<L: Line>(
    alloc: Global,
    cursor: &mut Cursor,
    noted: &mut Noted,
    header: Header,
    count: u64,
) -> Result<Vec<L::Item>, AigFault>
    requires { IsRow (L.part header.most) }
    ensures exact { (n : ℕ) → count ≡ saturated n → length cursor.old.pieces ≤ 2 ^ 63 →
        Tells (λ v. lines_of v.items noted.new) (times n (L.part header.most) (lines_of [] noted.old)) cursor.old
        result cursor.new }
    ensures grown { IfOk result (λ v. Grown (L.adds header.most) (lines_of [] noted.old) (lines_of v.items noted.new)) }
{
    let mut items = Vec::new(alloc);
    for _ in 0..count {
        L::read(cursor, noted, header, &mut items)?;
    }
    Ok(items)
}

/// Whether a literal may define a variable.
pub fn can_define(literal: u64, most: u32) -> bool
    ensures { IsTrue result ↔ IsDefinition most literal }
{
    literal % 2 == 0 && literal >= 2 && literal <= 2 * u64::from(most) + 1
}

/// Notes that a variable is defined, and returns whether it was undefined.
fn adds(variables: &mut Variables, variable: u64) -> Result<bool, AllocError>
    ensures new { IfOk result (λ new. OnTrue new (AddsVariable variables.old variable variables.new)) }
    ensures twice { result ≡ Ok false → Contains variables.old variable }
{
    if variables.has(variable) {
        return Ok(false);
    }
    variables.push(variable)?;
    Ok(true)
}

/// Reads a literal that defines its variable.
fn definition(
    cursor: &mut Cursor,
    variables: &mut Variables,
    header: Header,
) -> Result<Number, AigFault>
    ensures exact { Tells (λ n. n) (signs.number (WrongDefinition header.most variables.old)) cursor.old result cursor.new }
    ensures defined { IfOk result (λ n. Defines header.most variables.old (n.value ∷ []) variables.new) }
{
    let number = number(cursor)?;
    if !can_define(number.value, header.most) {
        return Err(number.refused(AigCause::Literal));
    }
    if !adds(variables, number.variable())? {
        return Err(number.refused(AigCause::DefinedTwice));
    }
    Ok(number)
}

/// Reads a gap and a literal, and notes that it is used: it may be defined later.
fn reading(
    cursor: &mut Cursor,
    readings: &mut Vec<Number>,
    header: Header,
) -> Result<Number, AigFault>
    ensures exact { Tells (λ n. n) (parts.field (WrongLiteral header.most)) cursor.old result cursor.new }
    ensures small { IfOk result (λ n. n.value < 2 ^ 32) }
    ensures noted { IfOk result (λ n. readings.new.items ≡ readings.old.items ++ n ∷ []) }
{
    let number = field(cursor)?;
    if number.value > 2 * u64::from(header.most) + 1 {
        return Err(number.refused(AigCause::Literal));
    }
    readings.push(number)?;
    Ok(number)
}

/// A line that defines an input.
pub struct InputLine;

impl Line for InputLine {
    type Item = Literal;

    ghost part = { parts.input_line };

    ghost adds = { λ most. AddsInput most };

    fn read(
        cursor: &mut Cursor,
        noted: &mut Noted,
        header: Header,
        items: &mut Vec<Literal>,
    ) -> Result<(), AigFault> {
        let input = definition(cursor, &mut noted.variables, header)?;
        line_end(cursor)?;
        items.push(input.literal())?;
        Ok(())
    }
}

/// Reads a latch's reset, if it has one, and the end of the line.
fn reset(cursor: &mut Cursor, literal: u64) -> Result<bool, AigFault>
    requires { literal < 2 ^ 32 }
    ensures { Tells (λ b. b) (parts.reset literal) cursor.old result cursor.new }
{
    if !more(cursor)? {
        return Ok(false);
    }
    let number = number(cursor)?;
    if number.value == literal {
        return Err(number.refused(AigCause::UnsetLatch));
    }
    if number.value > 1 {
        return Err(number.refused(AigCause::Literal));
    }
    line_end(cursor)?;
    Ok(number.value == 1)
}

/// A line that defines a latch.
pub struct LatchLine;

impl Line for LatchLine {
    type Item = Latch;

    ghost part = { parts.latch_line };

    ghost adds = { λ most. AddsLatch most };

    fn read(
        cursor: &mut Cursor,
        noted: &mut Noted,
        header: Header,
        items: &mut Vec<Latch>,
    ) -> Result<(), AigFault> {
        let own = definition(cursor, &mut noted.variables, header)?;
        let next = reading(cursor, &mut noted.readings, header)?;
        let reset = reset(cursor, own.value)?;
        items.push(Latch {
            literal: own.literal(),
            next: next.literal(),
            reset,
        })?;
        Ok(())
    }
}

/// A line that states an output.
pub struct OutputLine;

impl Line for OutputLine {
    type Item = Literal;

    ghost part = { parts.output_line };

    ghost adds = { λ _. AddsOutput };

    fn read(
        cursor: &mut Cursor,
        noted: &mut Noted,
        header: Header,
        items: &mut Vec<Literal>,
    ) -> Result<(), AigFault> {
        let output = number(cursor)?;
        if output.value > 2 * u64::from(header.most) + 1 {
            return Err(output.refused(AigCause::Literal));
        }
        line_end(cursor)?;
        noted.readings.push(output)?;
        items.push(output.literal())?;
        Ok(())
    }
}

/// A line that defines a gate.
pub struct GateLine;

impl Line for GateLine {
    type Item = Gate;

    ghost part = { parts.gate_line };

    ghost adds = { λ most. AddsGate most };

    fn read(
        cursor: &mut Cursor,
        noted: &mut Noted,
        header: Header,
        items: &mut Vec<Gate>,
    ) -> Result<(), AigFault> {
        let own = definition(cursor, &mut noted.variables, header)?;
        let first = reading(cursor, &mut noted.readings, header)?;
        let second = reading(cursor, &mut noted.readings, header)?;
        line_end(cursor)?;
        noted.starts.push(own.offset)?;
        items.push(Gate {
            literal: own.literal(),
            first: first.literal(),
            second: second.literal(),
        })?;
        Ok(())
    }
}
