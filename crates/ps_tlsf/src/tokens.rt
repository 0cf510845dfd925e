//! The tokens of a specification.

ghost use Rattle.std.specs.Prelude.{◌≡◌, ◌+◌, ◌<◌, ◌≤◌, length};
ghost use Rattle.ps_text.specs.Runs.{IsRun};
ghost use Rattle.ps_tlsf.specs.Bytes.{class_of as class, is_word_byte as in_word};
ghost use Rattle.ps_tlsf.specs.Lexicon.{scan_step, word_step, text_step, slash_step, pair_step, arrow_step};
ghost use Rattle.ps_tlsf.specs.Inner.Lexing.{IsFirstOf, IsStep};

use crate::words::{Infix, Prefix, Sign, word_sign};
use ps_text::comments::{byte_at, comment_at};
use ps_text::cursor::{self, run_length};
use std::marker::Model;

/// A byte by the blanks, comments and tokens that can begin with it.
#[derive(Clone, Copy)]
enum Class {
    Blank,
    Letter,
    Digit,
    Quote,
    Slash,
    Ampersand,
    Bar,
    Dash,
    Less,
    Sign(Sign),
    Other,
}

#[tactic(auto, unfolding(crate::specs::Bytes::class_of))]
#[inline(always)]
fn class_of(byte: u8) -> Class
    ensures { result ≡ class byte }
{
    match byte {
        9..=13 => Class::Blank,
        b' ' => Class::Blank,
        b'a'..=b'z' => Class::Letter,
        b'A'..=b'Z' => Class::Letter,
        b'_' => Class::Letter,
        b'0'..=b'9' => Class::Digit,
        b'\'' => Class::Digit,
        b'@' => Class::Digit,
        b'"' => Class::Quote,
        b'/' => Class::Slash,
        b'&' => Class::Ampersand,
        b'|' => Class::Bar,
        b'-' => Class::Dash,
        b'<' => Class::Less,
        b'{' => Class::Sign(Sign::LeftBrace),
        b'}' => Class::Sign(Sign::RightBrace),
        b'(' => Class::Sign(Sign::LeftParen),
        b')' => Class::Sign(Sign::RightParen),
        b';' => Class::Sign(Sign::Semicolon),
        b':' => Class::Sign(Sign::Colon),
        b',' => Class::Sign(Sign::Comma),
        b'!' => Class::Sign(Sign::Prefix(Prefix::Not)),
        _ => Class::Other,
    }
}

/// Whether a word may contain the byte after its first.
#[inline(always)]
fn is_word_byte(byte: u8) -> bool
    ensures { result ≡ in_word byte }
{
    matches!(class_of(byte), Class::Letter | Class::Digit)
}

/// A blank, a comment or a token at an offset, and its length in bytes.
#[derive(Clone, Copy)]
enum Step {
    Skip(usize),
    Found(Sign, usize),
}

/// The length of the longest prefix of such bytes.
fn word_at(bytes: &[u8]) -> usize
    ensures { IsRun in_word bytes.now result }
{
    let mut count = 0;
    while count < bytes.len() && is_word_byte(bytes[count]) {
        count += 1;
    }
    count
}

/// The word at the beginning.
#[inline(always)]
fn word_step(bytes: &[u8]) -> Step
    requires { 0 < length bytes.now }
    ensures { IsStep (word_step bytes.now) (length bytes.now) result }
{
    let count = 1 + word_at(&bytes[1..]);
    Step::Found(word_sign(&bytes[..count]), count)
}

/// The string whose quote is before the bytes.
#[inline(never)]
fn text_step(bytes: &[u8]) -> Step
    requires { length bytes.now < usize.MAX }
    ensures { IsStep (text_step bytes.now) (1 + length bytes.now) result }
{
    let count = run_length(bytes, cursor::Class::Unquoted);
    if count < bytes.len() {
        Step::Found(Sign::Text, count + 2)
    } else {
        Step::Found(Sign::Wrong, 1)
    }
}

/// The comment whose slash is before the bytes.
#[inline(never)]
fn slash_step(bytes: &[u8]) -> Step
    requires { length bytes.now < usize.MAX }
    ensures { IsStep (slash_step bytes.now) (1 + length bytes.now) result }
{
    match byte_at(bytes, 0) {
        b'/' => Step::Skip(1 + run_length(bytes, cursor::Class::Inner)),
        b'*' => match comment_at(&bytes[1..]) {
            None => Step::Found(Sign::Wrong, 1),
            Some(count) => Step::Skip(2 + count),
        },
        _ => Step::Found(Sign::Wrong, 1),
    }
}

/// The sign whose first byte is before the bytes.
#[inline(always)]
fn pair_step(second: u8, operator: Infix, bytes: &[u8]) -> Step
    requires { 0 < second }
    ensures { IsStep (pair_step second operator bytes.now) (1 + length bytes.now) result }
{
    if byte_at(bytes, 0) == second {
        Step::Found(Sign::Infix(operator), 2)
    } else {
        Step::Found(Sign::Wrong, 1)
    }
}

/// The same for `<->`.
#[inline(never)]
fn arrow_step(bytes: &[u8]) -> Step
    ensures { IsStep (arrow_step bytes.now) (1 + length bytes.now) result }
{
    if byte_at(bytes, 0) == b'-' && byte_at(bytes, 1) == b'>' {
        Step::Found(Sign::Infix(Infix::Iff), 3)
    } else {
        Step::Found(Sign::Wrong, 1)
    }
}

/// The blank, comment or token at the beginning.
#[tactic(auto, unfolding(crate::specs::Lexicon::scan_step))]
#[inline(always)]
fn step_at(bytes: &[u8]) -> Step
    requires { 0 < length bytes.now }
    ensures { IsStep (scan_step bytes.now) (length bytes.now) result }
{
    let first = bytes[0];
    let rest = &bytes[1..];
    match class_of(first) {
        Class::Blank => Step::Skip(1),
        Class::Letter => word_step(bytes),
        Class::Quote => text_step(rest),
        Class::Slash => slash_step(rest),
        Class::Ampersand => pair_step(b'&', Infix::And, rest),
        Class::Bar => pair_step(b'|', Infix::Or, rest),
        Class::Dash => pair_step(b'>', Infix::Implies, rest),
        Class::Less => arrow_step(rest),
        Class::Sign(sign) => Step::Found(sign, 1),
        _ => Step::Found(Sign::Wrong, 1),
    }
}

/// A token's kind and span.
#[derive(Clone, Copy)]
struct Lexeme {
    sign: Sign,
    start: usize,
    stop: usize,
}

/// The first token from an offset on, after blanks and comments.
fn first_lexeme(source: &[u8], from: usize) -> Option<Lexeme>
    requires { from ≤ length source.now }
    ensures { IsFirstOf source.now from result }
{
    let mut at = from;
    'blanks: while at < source.len() {
        match step_at(&source[at..]) {
            Step::Skip(count) => at += count,
            Step::Found(sign, count) => {
                return Some(Lexeme {
                    sign,
                    start: at,
                    stop: at + count,
                });
            }
        }
    }
    None
}

/// A token of a specification.
#[derive(Clone, Copy)]
pub(crate) struct Token<'a> {
    pub(crate) sign: Sign,
    /// Its bytes.
    pub(crate) text: &'a [u8],
    /// The offset of its first byte.
    pub(crate) start: usize,
    /// The offset after its last byte.
    pub(crate) stop: usize,
}

/// The tokens that are not read yet.
#[derive(Drop)]
pub(crate) struct Tokens<'a> {
    source: &'a [u8],
    at: usize,
}

impl<'a> Model for Tokens<'a> {
    ghost use Rattle.std.specs.Prelude.{List, ◌≤◌, drop, length};
    ghost use Rattle.ps_tlsf.specs.Lexicon as lexicon;

    ghost Value = { List lexicon.Token };

    ghost view = { λ t. lexicon.lex t.at (drop t.at t.source.now) };

    ghost invariant = { λ t. t.at ≤ length t.source.now };
}

impl<'a> Tokens<'a> {
    ghost use Rattle.std.specs.Prelude.{◌≡◌};
    ghost use Rattle.ps_tlsf.specs.Lexicon.{lex};
    ghost use Rattle.ps_tlsf.specs.Inner.Views.{Takes};

    /// The tokens of a whole text.
    pub(crate) fn new(source: &'a [u8]) -> Self
        ensures { result ≡ lex 0 source.now }
    {
        Tokens { source, at: 0 }
    }

    /// Moves past the next token, and returns it.
    pub(crate) fn next(&mut self) -> Option<Token<'a>>
        ensures { Takes self.old result self.new }
    {
        let lexeme = first_lexeme(self.source, self.at)?;
        self.at = lexeme.stop;
        Some(Token {
            sign: lexeme.sign,
            text: &self.source[lexeme.start..lexeme.stop],
            start: lexeme.start,
            stop: lexeme.stop,
        })
    }
}
