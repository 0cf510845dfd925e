//! The program's input and output. Nothing is read after a failed read, or written after a failed call or a write that
//! accepted no bytes.

ghost use Rattle.std.specs.Prelude.{◌≡◌, ℕ, Bool, List, Option, true, false, is_err, IsOk, OnOk};
ghost use Rattle.std.specs.Io.{ReadsAtMost, WritesAtMost};
ghost use Rattle.std.specs.Io.KnownBytes.{ReadConsumes, WriteAppends, Keeps};
ghost use Rattle.ps_program.specs.Streams.{stalls};

use std::io;

/// A reader that tells whether a call has failed.
pub trait Source {
    // What is still to be read, if it is known.
    ghost remaining: { Self → Option (List ℕ) };

    ghost has_failed: { Self → Bool };

    /// Reads some of the remaining bytes into the beginning of `buf`: at least one, unless none remain or `buf` is
    /// empty.
    fn read(&mut self, buf: &mut [u8]) -> io::Result<usize>
        requires { has_failed self.old ≡ false }
        ensures bound { ReadsAtMost result buf.new }
        ensures bytes { ReadConsumes (remaining self.old) (remaining self.new) result buf.new }
        ensures told { has_failed self.new ≡ is_err result };

    /// Whether a call has failed.
    fn failed(&self) -> bool
        ensures { result ≡ has_failed self.now };
}

/// A writer that tells whether a call has failed.
pub trait Sink {
    // What was received, if it is known.
    ghost contents: { Self → Option (List ℕ) };

    ghost has_failed: { Self → Bool };

    // Whether a write accepted none of its bytes.
    ghost has_stalled: { Self → Bool };

    // Whether the last call was a flush that succeeded.
    ghost is_flushed: { Self → Bool };

    /// Writes some bytes from the beginning of `buf`, and returns how many.
    fn write(&mut self, buf: &[u8]) -> io::Result<usize>
        requires sound { has_failed self.old ≡ false }
        requires moving { has_stalled self.old ≡ false }
        ensures bound { WritesAtMost result buf.now }
        ensures bytes { WriteAppends (contents self.old) (contents self.new) result buf.now }
        ensures told { has_failed self.new ≡ is_err result }
        ensures stalled { has_stalled self.new ≡ stalls result buf.now }
        ensures unflushed { is_flushed self.new ≡ false };

    /// Sends what is buffered.
    fn flush(&mut self) -> io::Result<()>
        requires sound { has_failed self.old ≡ false }
        requires moving { has_stalled self.old ≡ false }
        ensures bytes { Keeps (contents self.old) (contents self.new) }
        ensures told { has_failed self.new ≡ is_err result }
        ensures stalled { has_stalled self.new ≡ false }
        ensures flushed { OnOk result (is_flushed self.new ≡ true) };

    /// Whether a call has failed.
    fn failed(&self) -> bool
        ensures { result ≡ has_failed self.now };
}
