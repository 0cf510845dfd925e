//! The parser of whole texts.

ghost use Rattle.std.specs.Prelude.{IfOk};
ghost use Rattle.ps_hoa.specs.Scan.{next_of, stream_of};
ghost use Rattle.ps_hoa.specs.Sound.{IsSoundFile};
ghost use Rattle.ps_hoa.specs.Texts.{IsFileAnswer};
ghost use Rattle.ps_hoa.specs.Inner.Reader.{EndsHere};

use crate::assembly::file;
use crate::body::body;
use crate::fault::HoaFault;
use crate::file::HoaFile;
use crate::header::items::header;
use crate::opening::opened;
use crate::refusal::refused;
use crate::tokens::{Kind, Tokens};
use std::alloc::Global;

/// Parses an HOA text (HOA v1, header and body; `controllable-AP:` of extended HOA).
///
/// # Errors
///
/// `HoaFault::Text` with the first error and its offset (of several there, the one with the smallest number in psyn's
/// list of faults); `OutOfMemory` if out of memory.
pub fn read(alloc: Global, text: &[u8]) -> Result<HoaFile, HoaFault>
    ensures answer { IsFileAnswer (λ file. file) text.now result }
    ensures sound { IfOk result IsSoundFile }
{
    let mut tokens = opened(text)?;
    let header = header(alloc, &mut tokens)?;
    let rows = body(alloc, &mut tokens, &header)?;
    finish(&tokens)?;
    file(alloc, header, rows)
}

/// Checks that no token is left.
fn finish(tokens: &Tokens) -> Result<(), HoaFault>
    ensures { EndsHere (stream_of tokens.now) result }
{
    let token = tokens.peek();
    match token.kind {
        Kind::Finish => Ok(()),
        _ => Err(refused(token)),
    }
}
