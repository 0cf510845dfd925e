//! Writes an answer to a sink.

ghost use Rattle.std.specs.Prelude.{◌≡◌, true, false, IsOk, OnOk, OnErr};
ghost use Rattle.std.specs.Io.KnownBytes.{Appends};
ghost use Rattle.ps_program.specs.Streams.{AppendsSome, Breaks};

use crate::stream::Sink;

/// A write or the flush failed, or a write accepted no bytes.
#[derive(Debug, Drop, thiserror::Error)]
#[error("the answer could not be written whole")]
pub struct WriteFault;

/// Writes all of `text`, and then flushes. Nothing is written after a fault.
pub fn send<W: Sink>(writer: &mut W, text: &[u8]) -> Result<(), WriteFault>
    requires sound { W.has_failed writer.old ≡ false }
    requires moving { W.has_stalled writer.old ≡ false }
    ensures whole { OnOk result (Appends (W.contents writer.old) (W.contents writer.new) text.now) }
    ensures sound { OnOk result (W.has_failed writer.new ≡ false) }
    ensures moving { OnOk result (W.has_stalled writer.new ≡ false) }
    ensures flushed { OnOk result (W.is_flushed writer.new ≡ true) }
    ensures part { OnErr result
        (AppendsSome (W.contents writer.old) (W.contents writer.new) text.now) }
    ensures broken { OnErr result (Breaks (W.has_failed writer.new) (W.has_stalled writer.new)) }
{
    let mut sent = 0;
    'chunks: while sent < text.len() {
        let Ok(count) = writer.write(&text[sent..]) else {
            return Err(WriteFault);
        };
        if count == 0 {
            return Err(WriteFault);
        }
        sent += count;
    }
    match writer.flush() {
        Ok(()) => Ok(()),
        Err(_) => Err(WriteFault),
    }
}
