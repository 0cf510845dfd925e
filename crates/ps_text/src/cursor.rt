//! A cursor for parsers whose symbols are single bytes.

ghost use Rattle.std.specs.Prelude.{◌≡◌, ℕ, ◌==◌, ◌≤◌, ◌<◌, ◌^◌, ◌↔◌, IsTrue, Some, false, [], length, take};
ghost use Rattle.std.specs.Prelude.{take_while, IfSome};
ghost use Rattle.std.specs.Prelude.{IfNone};
ghost use Rattle.std.specs.List.{prefix_len, AllPass};
ghost use Rattle.std.specs.Char.{is_ascii_digit};
ghost use Rattle.ps_text.specs.declared.faults.Fault.TheVariants as faults;
ghost use Rattle.ps_text.specs.Faults.{found_of};
ghost use Rattle.ps_text.specs.Readers.{tail, Meets};
ghost use Rattle.ps_text.specs.Digits.{decimal_value};
ghost use Rattle.ps_text.specs.Bytes as parts;
ghost use Rattle.ps_text.specs.Bytes.{stream_at, stream_of, byte_causes, ends_line, is_digit};
ghost use Rattle.ps_text.specs.Cursors.{next_byte, stream_offset, in_class, IsAhead, Passes};

use crate::faults::{Cause, Fault};
use crate::numbers::leading_number;
use std::marker::Model;

/// A class of bytes.
#[derive(Clone, Copy)]
pub enum Class {
    Digit,
    /// An ASCII letter.
    Letter,
    /// A space, or one of the bytes 9 to 13.
    Blank,
    /// A space or a tab.
    Space,
    /// Any byte but a newline.
    Inner,
    /// Any byte but a quote.
    Unquoted,
    Quote,
    Comma,
    Semicolon,
}

impl Class {
    /// Whether a byte is of the class.
    pub fn has(self, byte: u8) -> bool
        ensures { result ≡ in_class self byte }
    {
        match self {
            Class::Digit => byte.is_ascii_digit(),
            Class::Letter => byte.is_ascii_alphabetic(),
            // Most bytes of a text are greater than a space, so one comparison is enough for them.
            Class::Blank => byte <= b' ' && matches!(byte, 9..=13 | b' '),
            Class::Space => byte == b' ' || byte == b'\t',
            Class::Inner => byte != b'\n',
            Class::Unquoted => byte != b'"',
            Class::Quote => byte == b'"',
            Class::Comma => byte == b',',
            Class::Semicolon => byte == b';',
        }
    }
}

/// A run of digits, perhaps empty, and the number that it denotes.
#[derive(Clone, Copy)]
pub struct Digits<'a> {
    /// The digits, with leading zeros.
    pub bytes: &'a [u8],
    /// The number: 0 without digits, `None` if it does not fit.
    pub value: Option<u64>,
}

/// The length of the longest run of bytes of the class at the text's start.
pub fn run_length(text: &[u8], class: Class) -> usize
    ensures length { result ≡ prefix_len (in_class class) text.now }
    ensures within { result ≤ length text.now }
    ensures run { AllPass (in_class class) (take result text.now) }
{
    text.iter().take_while(|byte| class.has(**byte)).count()
}

/// How many digits the text begins with, and their number, if it fits.
fn digits_of(text: &[u8]) -> (usize, Option<u64>)
    ensures length { result.0 ≡ prefix_len is_digit text.now }
    ensures within { result.0 ≤ length text.now }
    ensures value { IfSome result.1 (λ value. value ≡ decimal_value (take_while is_ascii_digit text.now)) }
    ensures small { IfSome result.1 (λ value. value < 2 ^ 64) }
    ensures large { IfNone result.1 (2 ^ 64 ≤ decimal_value (take_while is_ascii_digit text.now)) }
{
    match leading_number(text) {
        Some(number) => (number.digits, Some(number.value)),
        None => (run_length(text, Class::Digit), None),
    }
}

fn is_ended(text: &[u8]) -> bool
    ensures { result ≡ ends_line text.now }
{
    !text.is_empty() && text[text.len() - 1] == b'\n'
}

/// A position in a text, whose bytes from `at` on are unread.
#[derive(Drop)]
pub struct Cursor<'a> {
    text: &'a [u8],
    at: usize,
    /// Whether the last line lacks its newline, which is then read at the end.
    unended: bool,
}

impl<'a> Model for Cursor<'a> {
    ghost use Rattle.std.specs.Prelude.{◌+◌, drop, length};
    ghost use Rattle.ps_text.specs.Answers.{Stream};
    ghost use Rattle.ps_text.specs.Bytes.{Seen, pieces_at};
    ghost use Rattle.ps_text.specs.Cursors.{rest_with_newline, IsOffsetIn};

    ghost Value = { Stream Seen };

    ghost view = { λ c. record {
      pieces = pieces_at c.at (rest_with_newline c.unended (drop c.at c.text.now));
      end = c.at + length (drop c.at c.text.now);
    } };

    ghost invariant = { λ c. IsOffsetIn c.text.now c.at };
}

impl<'a> Cursor<'a> {
    /// A cursor at the start of a text.
    pub fn new(text: &'a [u8]) -> Self
        ensures { result ≡ stream_at 0 text.now }
    {
        Cursor {
            text,
            at: 0,
            unended: false,
        }
    }

    /// The same for a text of lines; a last line without a newline is read as if it had one.
    pub fn of_lines(text: &'a [u8]) -> Self
        ensures stream { result ≡ stream_of text.now }
        ensures small { length result.pieces ≤ 2 ^ 63 }
    {
        Cursor {
            text,
            at: 0,
            unended: !is_ended(text),
        }
    }

    /// The next byte, if there is one.
    pub fn peek(&self) -> Option<u8>
        ensures { result ≡ next_byte self.now }
    {
        if self.at < self.text.len() {
            return Some(self.text[self.at]);
        }
        if self.unended { Some(b'\n') } else { None }
    }

    /// Whether this byte is next.
    pub fn comes(&self, byte: u8) -> bool
        ensures { IsTrue result ↔ next_byte self.now ≡ Some byte }
    {
        self.peek() == Some(byte)
    }

    /// Whether none is.
    pub fn is_at_end(&self) -> bool
        ensures { result ≡ (length self.now.pieces == 0) }
    {
        self.at == self.text.len() && !self.unended
    }

    /// The offset of the next byte, or of the end.
    pub fn offset(&self) -> usize
        ensures { result ≡ stream_offset self.now }
    {
        self.at
    }

    /// The fault with this cause there.
    pub fn refusal<C>(&self, cause: C) -> Fault<C>
        ensures { result ≡ faults.Text cause (stream_offset self.now) }
    {
        Fault::Text {
            cause,
            offset: self.offset(),
        }
    }

    /// Moves past the next byte.
    pub fn step(&mut self)
        ensures next { self.new ≡ tail self.old }
        ensures ahead { IsAhead self.old }
    {
        if self.at < self.text.len() {
            self.at += 1;
        } else {
            self.unended = false;
        }
    }

    /// Moves past this byte. Fails with the cause if another comes, or none.
    pub fn byte<C: Cause>(&mut self, byte: u8, cause: C) -> Result<(), Fault<C>>
        ensures { Meets found_of (byte_causes C.number cause) (λ u. u) (parts.byte byte) self.old result self.new }
    {
        if self.comes(byte) {
            self.step();
            return Ok(());
        }
        Err(self.refusal(cause))
    }

    /// Moves past these bytes. Fails with the cause at the first that differs, or at the end.
    pub fn word<C: Cause>(&mut self, word: &[u8], cause: C) -> Result<(), Fault<C>>
        ensures { Meets found_of (byte_causes C.number cause) (λ u. u) (parts.word word.now) self.old result
            self.new }
    {
        for byte in word {
            self.byte(*byte, cause)?;
        }
        Ok(())
    }

    /// Moves past the longest run of the class, which must not contain the newline, and returns it.
    pub fn run(&mut self, class: Class) -> &'a [u8]
        requires { in_class class 10 ≡ false }
        ensures { Passes (in_class class) self.old self.new result.now }
    {
        let (_, rest) = self.text.split_at(self.at);
        let count = run_length(rest, class);
        let (run, _) = rest.split_at(count);
        self.at += count;
        run
    }

    /// Moves past the longest run of digits, and returns it.
    pub fn digits(&mut self) -> Digits<'a>
        ensures passes { Passes is_digit self.old self.new result.bytes.now }
        ensures value { IfSome result.value (λ value. value ≡ decimal_value result.bytes.now) }
        ensures small { IfSome result.value (λ value. value < 2 ^ 64) }
        ensures large { IfNone result.value (2 ^ 64 ≤ decimal_value result.bytes.now) }
    {
        let (_, rest) = self.text.split_at(self.at);
        let (count, value) = digits_of(rest);
        let (bytes, _) = rest.split_at(count);
        self.at += count;
        Digits { bytes, value }
    }

    /// Moves to the end of the text.
    pub fn finish(&mut self)
        ensures pieces { self.new.pieces ≡ [] }
        ensures end { self.new.end ≡ self.old.end }
    {
        self.at = self.text.len();
        self.unended = false;
    }
}
