//! Reads the whole input.

ghost use Rattle.std.specs.Prelude.{◌≡◌, ◌+◌, ◌≤◌, ℕ, List, length, false};
ghost use Rattle.std.specs.Io.KnownBytes.{Consumes};
ghost use Rattle.ps_program.specs.Input.{ConsumesAtMost, ReadsInput, input_limit};

use crate::stream::Source;
use std::alloc::{AllocError, Global};

/// The greatest length of an input, in bytes.
pub const INPUT_LIMIT: usize = 67_108_864;

const CHUNK: usize = 8192;

/// Why the input was not read.
#[derive(Debug, Drop, thiserror::Error)]
pub enum InputFault {
    /// A read failed, or the input is too long.
    #[error("the input can't be read, or is too long")]
    Unreadable,
    /// Memory ran out.
    #[error("out of memory")]
    OutOfMemory,
}

impl From<AllocError> for InputFault {
    ghost use Rattle.ps_program.specs.declared.reading.InputFault.TheVariants as fault;

    ghost from_gives = { λ _ given. given ≡ fault.OutOfMemory };

    fn from(_: AllocError) -> Self {
        InputFault::OutOfMemory
    }
}

/// Reads the whole input. Fails at the first read that fails or the first byte beyond the limit, or if memory runs out.
pub fn read_input<R: Source>(alloc: Global, reader: &mut R) -> Result<Vec<u8>, InputFault>
    requires { R.has_failed reader.old ≡ false }
    ensures read { ReadsInput (R.remaining reader.old) (R.has_failed reader.new) result }
    ensures bounded { ConsumesAtMost (R.remaining reader.old) (R.remaining reader.new)
        (input_limit + 1) }
{
    let mut input = Vec::new(alloc);
    let mut buffer = [0; CHUNK];
    'chunks: loop {
        let wanted = CHUNK.min(INPUT_LIMIT + 1 - input.len());
        let Ok(count) = reader.read(&mut buffer[..wanted]) else {
            return Err(InputFault::Unreadable);
        };
        if count == 0 {
            return Ok(input);
        }
        if INPUT_LIMIT - input.len() < count {
            return Err(InputFault::Unreadable);
        }
        input.extend_from_slice(&buffer[..count])?;
    }
}
