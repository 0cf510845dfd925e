//! Makes input and output from a reader and a writer of std.

ghost use Rattle.std.specs.Prelude.{◌≡◌, ⊤, ℕ, List, Option, OnOk, is_err, false, true, Some, min, length, drop};
ghost use Rattle.std.specs.Io.{ReadsAtMost, WritesAtMost};
ghost use Rattle.std.specs.Io.KnownBytes.{ReadConsumes, WriteAppends, Keeps};
ghost use Rattle.ps_program.specs.Streams.{stalls};
ghost use Rattle.ps_program.specs.Watched.{watched_inner, watched_failed, watched_stalled, answered, CountsWithin};

use crate::stream::{Sink, Source};
use std::io;
use std::io::{Read, Write};

/// A reader of std, with a relation between the states before and after a call, from which only code that knows the
/// reader learns something.
pub trait Reader: Read {
    // Whether `read` may return this count, or none if it fails, and leave the reader and the buffer in this state.
    ghost read_gives: { Self → List ℕ → Option ℕ → Self → List ℕ → Type 0 };

    /// Calls `read` once.
    fn read_once(&mut self, buf: &mut [u8]) -> io::Result<usize>
        ensures bound { ReadsAtMost result buf.new }
        ensures bytes { ReadConsumes (Self.remaining self.old) (Self.remaining self.new) result buf.new }
        ensures call { read_gives self.old buf.old (answered result) self.new buf.new };
}

/// A writer of std, with such relations.
pub trait Writer: Write {
    // The same of `write`.
    ghost write_gives: { Self → List ℕ → Option ℕ → Self → Type 0 };

    // The same of `flush`.
    ghost flush_gives: { Self → Option (Unit {0}) → Self → Type 0 };

    /// Calls `write` once.
    fn write_once(&mut self, buf: &[u8]) -> io::Result<usize>
        ensures bound { WritesAtMost result buf.now }
        ensures bytes { WriteAppends (Self.contents self.old) (Self.contents self.new) result buf.now }
        ensures call { write_gives self.old buf.now (answered result) self.new };

    /// Calls `flush` once.
    fn flush_once(&mut self) -> io::Result<()>
        ensures bytes { Keeps (Self.contents self.old) (Self.contents self.new) }
        ensures call { flush_gives self.old (answered result) self.new };
}

/// For an arbitrary reader, the count is at most the length of the buffer.
impl<R: Read> Reader for R {
    ghost read_gives = { λ _ _ count _ after. CountsWithin after count };

    fn read_once(&mut self, buf: &mut [u8]) -> io::Result<usize> {
        self.read(buf)
    }
}

/// For an arbitrary writer, likewise.
impl<W: Write> Writer for W {
    ghost write_gives = { λ _ buf count _. CountsWithin buf count };

    ghost flush_gives = { λ _ _ _. ⊤ };

    fn write_once(&mut self, buf: &[u8]) -> io::Result<usize> {
        self.write(buf)
    }

    fn flush_once(&mut self) -> io::Result<()> {
        self.flush()
    }
}

/// A reader or a writer of std. It records whether a call has failed, and whether a write has stalled (accepted no
/// bytes).
#[derive(Drop)]
pub struct Watched<T> {
    inner: T,
    has_failed: bool,
    has_stalled: bool,
    is_flushed: bool,
}

impl<T> Watched<T> {
    /// At first, nothing has failed or stalled.
    pub fn new(inner: T) -> Self
        ensures inner { watched_inner result ≡ inner }
        ensures fresh { watched_failed result ≡ false }
        ensures moving { watched_stalled result ≡ false }
    {
        Watched {
            inner,
            has_failed: false,
            has_stalled: false,
            is_flushed: false,
        }
    }
}

impl<T> Watched<T> {
    /// The reader or writer of std.
    pub fn inner(&self) -> &T
        ensures { result.now ≡ watched_inner self.now }
    {
        &self.inner
    }
}

impl<R: Reader> Source for Watched<R> {
    ghost remaining = { λ watched. R.remaining watched.inner };

    ghost has_failed = { λ watched. watched.has_failed };

    fn read(&mut self, buf: &mut [u8]) -> io::Result<usize>
        ensures bound { ReadsAtMost result buf.new }
        ensures bytes { ReadConsumes (R.remaining (watched_inner self.old)) (R.remaining (watched_inner self.new))
            result buf.new }
        ensures told { watched_failed self.new ≡ is_err result }
        ensures call { R.read_gives (watched_inner self.old) buf.old (answered result)
            (watched_inner self.new) buf.new }
    {
        let result = self.inner.read_once(buf);
        self.has_failed = result.is_err();
        result
    }

    fn failed(&self) -> bool {
        self.has_failed
    }
}

impl<W: Writer> Sink for Watched<W> {
    ghost contents = { λ watched. W.contents watched.inner };

    ghost has_failed = { λ watched. watched.has_failed };

    ghost has_stalled = { λ watched. watched.has_stalled };

    ghost is_flushed = { λ watched. watched.is_flushed };

    fn write(&mut self, buf: &[u8]) -> io::Result<usize>
        ensures bound { WritesAtMost result buf.now }
        ensures bytes { WriteAppends (W.contents (watched_inner self.old)) (W.contents (watched_inner self.new))
            result buf.now }
        ensures told { watched_failed self.new ≡ is_err result }
        ensures stalled { watched_stalled self.new ≡ stalls result buf.now }
        ensures unflushed { self.new.is_flushed ≡ false }
        ensures call { W.write_gives (watched_inner self.old) buf.now (answered result) (watched_inner self.new) }
    {
        let result = self.inner.write_once(buf);
        self.has_failed = result.is_err();
        self.has_stalled = matches!(&result, Ok(0)) && !buf.is_empty();
        self.is_flushed = false;
        result
    }

    fn flush(&mut self) -> io::Result<()>
        ensures bytes { Keeps (W.contents (watched_inner self.old)) (W.contents (watched_inner self.new)) }
        ensures told { watched_failed self.new ≡ is_err result }
        ensures stalled { watched_stalled self.new ≡ false }
        ensures flushed { OnOk result (self.new.is_flushed ≡ true) }
        ensures call { W.flush_gives (watched_inner self.old) (answered result) (watched_inner self.new) }
    {
        let result = self.inner.flush_once();
        self.has_failed = result.is_err();
        self.has_stalled = false;
        self.is_flushed = result.is_ok();
        result
    }

    fn failed(&self) -> bool {
        self.has_failed
    }
}
