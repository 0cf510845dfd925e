//! The symbol table, and the comment at the end.

ghost use Rattle.std.specs.Prelude.{◌≡◌, ◌≢◌, ℕ, ◌<◌, ◌^◌, Some, None, false, [], map, length, replicate, slice_get};
ghost use Rattle.std.specs.Prelude.{vec_len, IfOk, OnOk, IsTrue, All};
ghost use Rattle.ps_text.specs.Answers.{next_of};
ghost use Rattle.ps_text.specs.Parts.{many};
ghost use Rattle.ps_circuit.specs.Circuits.{IsSymbolName};
ghost use Rattle.ps_circuit.specs.Inner.Cursors.{Tells};
ghost use Rattle.ps_circuit.specs.Drafts.{name_bytes};
ghost use Rattle.ps_circuit.specs.Inner.Names.{AreNames, AreNone, TellsComment, is_kind, names_data};
ghost use Rattle.ps_text.specs.Bytes.{Seen};
ghost use Rattle.ps_circuit.specs.Texts as parts;
ghost use Rattle.ps_circuit.specs.Texts.{Kind, NamesData, names_of, put_names, take_kind};

use crate::fault::{AigCause, AigFault};
use crate::fields::{newline, number, rest_of_line};
use ps_text::cursor::Cursor;
use std::alloc::{AllocError, Global};

/// The names of inputs, latches and outputs that have one.
#[derive(Drop)]
pub struct Names {
    pub inputs: Vec<Option<Vec<u8>>>,
    pub latches: Vec<Option<Vec<u8>>>,
    pub outputs: Vec<Option<Vec<u8>>>,
}

impl Names {
    /// No names. Fails if out of memory.
    pub fn none(
        alloc: Global,
        inputs: usize,
        latches: usize,
        outputs: usize,
    ) -> Result<Self, AllocError>
        ensures names { IfOk result (λ n. AreNames n inputs latches outputs) }
        ensures none { IfOk result (λ n. AreNone (names_data n) inputs latches outputs) }
    {
        Ok(Names {
            inputs: no_names(alloc, inputs)?,
            latches: no_names(alloc, latches)?,
            outputs: no_names(alloc, outputs)?,
        })
    }
}

fn no_names(alloc: Global, count: usize) -> Result<Vec<Option<Vec<u8>>>, AllocError>
    ensures each { IfOk result (λ names. vec_len names ≡ count) }
    ensures none { IfOk result (λ names. map name_bytes names.items ≡ replicate count None) }
{
    let mut names = Vec::new(alloc);
    for _ in 0..count {
        names.push(None)?;
    }
    Ok(names)
}

/// Reads the symbol table. Fails with [`AigCause::Syntax`] at the first byte that it may not have, or at the symbol of
/// an input, latch or output that does not exist or already has a name; or if out of memory.
pub fn symbols(alloc: Global, cursor: &mut Cursor, names: &mut Names) -> Result<(), AigFault>
    requires { AreNames names.old (vec_len names.old.inputs) (vec_len names.old.latches) (vec_len names.old.outputs) }
    ensures exact { Tells (λ _. names_data names.new) (many parts.symbol_line (names_data names.old)) cursor.old
        result cursor.new }
    ensures named { OnOk result (AreNames names.new (vec_len names.old.inputs) (vec_len names.old.latches)
        (vec_len names.old.outputs)) }
{
    'more: while is_letter(cursor.peek()) {
        symbol_line(alloc, cursor, names)?;
    }
    Ok(())
}

fn is_letter(byte: Option<u8>) -> bool
    ensures { result ≡ is_kind byte }
{
    matches!(byte, Some(b'i' | b'l' | b'o'))
}

fn symbol_line(alloc: Global, cursor: &mut Cursor, names: &mut Names) -> Result<(), AigFault>
    requires { AreNames names.old (vec_len names.old.inputs) (vec_len names.old.latches) (vec_len names.old.outputs) }
    ensures exact { Tells (λ _. names_data names.new) (parts.symbol_line (names_data names.old)) cursor.old
        result cursor.new }
    ensures named { AreNames names.new (vec_len names.old.inputs) (vec_len names.old.latches)
        (vec_len names.old.outputs) }
{
    if cursor.comes(b'i') {
        return name_line(alloc, cursor, &mut names.inputs);
    }
    if cursor.comes(b'l') {
        return name_line(alloc, cursor, &mut names.latches);
    }
    if cursor.comes(b'o') {
        return name_line(alloc, cursor, &mut names.outputs);
    }
    Err(cursor.refusal(AigCause::Syntax))
}

/// Reads a line for one kind (input, latch or output): the letter, the number and the name.
fn name_line(
    alloc: Global,
    cursor: &mut Cursor,
    names: &mut Vec<Option<Vec<u8>>>,
) -> Result<(), AigFault>
    requires { All IsSymbolName (map name_bytes names.old.items) }
    ensures exact { (all : NamesData) (kind : Kind) (t : Seen) → names_of all kind ≡ map name_bytes names.old.items →
        next_of cursor.old ≡ Some t → take_kind t ≡ Some kind → Tells
        (λ _. put_names all kind (map name_bytes names.new.items)) (parts.symbol_line all) cursor.old
        result cursor.new }
    ensures names { All IsSymbolName (map name_bytes names.new.items) }
    ensures stay { vec_len names.new ≡ vec_len names.old }
{
    let refusal = cursor.refusal(AigCause::Syntax);
    cursor.step();
    let number = number(cursor)?;
    if !is_free(names, number.value) {
        return Err(refusal);
    }
    cursor.byte(b' ', AigCause::Syntax)?;
    let name = rest_of_line(cursor)?;
    newline(cursor)?;
    names[number.value as usize] = Some(name.to_vec(alloc)?);
    Ok(())
}

fn is_free(names: &Vec<Option<Vec<u8>>>, number: u64) -> bool
    ensures free { IsTrue result → slice_get (map name_bytes names.now.items) number ≡ Some None }
    ensures taken { result ≡ false → slice_get (map name_bytes names.now.items) number ≢ Some None }
    ensures within { IsTrue result → number < length names.now.items }
    ensures small { length names.now.items < 2 ^ 64 }
{
    number < names.len() as u64 && names[number as usize].is_none()
}

/// Skips a `c` and all bytes after it. Fails with [`AigCause::Syntax`] if another byte comes.
pub fn comment(cursor: &mut Cursor) -> Result<(), AigFault>
    ensures { TellsComment cursor.old result cursor.new }
{
    match cursor.peek() {
        None => Ok(()),
        Some(b'c') => {
            cursor.finish();
            Ok(())
        }
        Some(_) => Err(cursor.refusal(AigCause::Syntax)),
    }
}
