//! Tokens of game texts.

ghost use Rattle.std.specs.Prelude.{◌≡◌, ◌+◌, ◌≤◌, ◌<◌, ◌^◌, [], length, take_while, drop, Some, IfSome};
ghost use Rattle.std.specs.Char.{is_ascii_digit};
ghost use Rattle.std.specs.List.{prefix_len, AllPass};
ghost use Rattle.ps_text.specs.Bytes.{is_blank, is_digit, is_letter};
ghost use Rattle.ps_pgsolver.specs.Ends.{begins_in, ends_in};
ghost use Rattle.ps_text.specs.Cursors.{in_class};
ghost use Rattle.ps_text.specs.Answers.{Stream};
ghost use Rattle.ps_text.specs.Digits.{decimal_value};
ghost use Rattle.ps_pgsolver.specs.Signs.{Sign, Number};
ghost use Rattle.ps_pgsolver.specs.Heads.{sign_of, IsLexed, IsPlain, IsNextToken};
ghost use Rattle.ps_pgsolver.specs.Lexer.{stream_of, stream_from, first_sign, first_size, number_sign, word_sign};
ghost use Rattle.ps_pgsolver.specs.Lexer.{name_sign, name_size, punctuation_sign};

use ps_text::cursor::{Class, run_length};
use ps_text::numbers::{few_digits, leading_number};
use std::marker::Model;

/// The kind of a token.
#[derive(Clone, Copy)]
pub enum Kind<'a> {
    /// A number that fits.
    Number(u64),
    /// The digits of one that does not.
    LargeNumber(&'a [u8]),
    /// A longest run of letters, such as `parity`.
    Word(&'a [u8]),
    /// A name, without its quotes.
    Name(&'a [u8]),
    Comma,
    Semicolon,
    /// A name without its closing quote.
    OpenName,
    /// Another token that no game text has.
    Wrong,
    /// The end of the text.
    End,
}

/// A token, and where it is.
#[derive(Clone, Copy)]
pub struct Token<'a> {
    pub kind: Kind<'a>,
    /// The offset of its first byte, from 0.
    pub start: usize,
}

/// The tokens of a text from an offset on.
#[derive(Drop)]
pub struct Tokens<'a> {
    text: &'a [u8],
    at: usize,
}

impl<'a> Model for Tokens<'a> {
    ghost Value = { Stream Sign };

    ghost view = { λ t. stream_from t.text.now t.at };

    ghost invariant = { λ t. t.at ≤ length t.text.now };
}

impl<'a> Tokens<'a> {
    ghost use Rattle.std.specs.Prelude.{◌↔◌, IsTrue, IfSome, IfNone, option_copied};
    ghost use Rattle.ps_text.specs.Answers.{next_of, offset_of};
    ghost use Rattle.ps_text.specs.Readers.{tail};
    ghost use Rattle.ps_pgsolver.specs.Heads.{HasNoShortNumber, IsHead, IsNumberTaken, TakesIfNext, is_number, is_comma, name_of};
    ghost use Rattle.ps_text.specs.Bytes.{is_unquoted};
    ghost use Rattle.ps_pgsolver.specs.Signs.{Word, Comma, Semicolon};

    /// The tokens of a whole text.
    pub fn new(text: &'a [u8]) -> Self
        ensures { result ≡ stream_of text.now }
    {
        Tokens { text, at: 0 }
    }

    /// The next token.
    #[inline(always)]
    pub fn peek(&self) -> Token<'a>
        ensures token { IsHead result self.now }
        ensures plain { IsPlain result.kind }
        ensures within { result.start ≤ self.now.end }
    {
        let (token, _) = token_from(self.text, self.at);
        token
    }

    /// Moves past the next token, and returns it.
    #[inline(always)]
    pub fn next(&mut self) -> Token<'a>
        ensures token { IsHead result self.old }
        ensures plain { IsPlain result.kind }
        ensures within { result.start ≤ self.old.end }
        ensures rest { self.new ≡ tail self.old }
    {
        let (token, behind) = token_from(self.text, self.at);
        self.at = behind;
        token
    }

    /// The offset of the next token, or of the end.
    #[inline(always)]
    pub fn start(&self) -> usize
        ensures { result ≡ offset_of self.now.pieces self.now.end }
    {
        next_start(self.text, self.at)
    }

    /// Moves past a number with fewer than 18 digits, without making a `Token`; longer ones, leading zeros included,
    /// are left to `next`.
    #[inline(always)]
    pub fn take_number(&mut self) -> Option<u64>
        ensures some { IfSome result (λ number. IsNumberTaken number self.old self.new) }
        ensures long { IfNone result (HasNoShortNumber self.old) }
        ensures none { IfNone result (self.new ≡ self.old) }
    {
        let start = self.start();
        self.take_number_at(start)
    }

    /// The same at the offset `start`.
    #[inline(always)]
    pub(crate) fn take_number_at(&mut self, start: usize) -> Option<u64>
        requires { start ≡ offset_of self.old.pieces self.old.end }
        ensures some { IfSome result (λ number. IsNumberTaken number self.old self.new) }
        ensures long { IfNone result (HasNoShortNumber self.old) }
        ensures none { IfNone result (self.new ≡ self.old) }
    {
        let (before, rest) = self.text.split_at(start);
        let number = few_digits(rest)?;
        if number.digits == 0 || ends_in_class(before, Class::Letter) {
            return None;
        }
        self.at = start + number.digits;
        Some(number.value)
    }

    /// Moves past a comma, if it comes next, and says so.
    #[inline(always)]
    pub fn take_comma(&mut self) -> bool
        ensures taken { TakesIfNext Comma self.old result self.new }
        ensures exact { result ≡ is_comma (next_of self.old) }
    {
        let start = next_start(self.text, self.at);
        let (_, rest) = self.text.split_at(start);
        if !begins_with(rest, Class::Comma) {
            return false;
        }
        self.at = start + 1;
        true
    }

    /// Moves past a semicolon, if it comes next, and says so.
    #[inline(always)]
    pub fn take_semicolon(&mut self) -> bool
        ensures { TakesIfNext Semicolon self.old result self.new }
    {
        let start = next_start(self.text, self.at);
        let (_, rest) = self.text.split_at(start);
        if !begins_with(rest, Class::Semicolon) {
            return false;
        }
        self.at = start + 1;
        true
    }

    /// Whether the next token is a number.
    pub fn is_at_number(&self) -> bool
        ensures { result ≡ is_number (next_of self.now) }
    {
        let (before, rest) = self.text.split_at(next_start(self.text, self.at));
        begins_with(rest, Class::Digit) && !ends_in_class(before, Class::Letter)
    }

    /// The name that comes next, if one does.
    #[inline(always)]
    pub fn next_name(&self) -> Option<&'a [u8]>
        ensures name { option_copied result ≡ name_of (next_of self.now) }
        ensures plain { IfSome result (λ inner. AllPass is_unquoted inner.now) }
    {
        let (_, rest) = self.text.split_at(next_start(self.text, self.at));
        if !begins_with(rest, Class::Quote) {
            return None;
        }
        self.name_from()
    }

    /// The same at a quote. Most texts have none, so this is not inlined.
    #[inline(never)]
    fn name_from(&self) -> Option<&'a [u8]>
        ensures name { option_copied result ≡ name_of (next_of self.now) }
        ensures plain { IfSome result (λ inner. AllPass is_unquoted inner.now) }
    {
        match self.peek().kind {
            Kind::Name(inner) => Some(inner),
            _ => None,
        }
    }

    /// Whether this word comes next.
    pub fn is_at_word(&self, word: &[u8]) -> bool
        ensures { IsTrue result ↔ (next_of self.now ≡ Some (Word word.now)) }
    {
        match self.peek().kind {
            Kind::Word(letters) => letters == word,
            _ => false,
        }
    }
}

/// The first token from an offset on, and its end.
#[inline(always)]
fn token_from<'a>(text: &'a [u8], at: usize) -> (Token<'a>, usize)
    requires { at ≤ length text.now }
    ensures ahead { IsNextToken text.now result.0 result.1 }
    ensures blanks { stream_from text.now at ≡ stream_from text.now result.0.start }
{
    let start = next_start(text, at);
    let (before, rest) = text.split_at(start);
    let (kind, size) = token_at(before, rest);
    (Token { kind, start }, start + size)
}

#[inline(always)]
fn next_start(text: &[u8], at: usize) -> usize
    requires { at ≤ length text.now }
    ensures start { result ≡ at + prefix_len is_blank (drop at text.now) }
    ensures within { result ≤ length text.now }
{
    let mut start = at;
    while start < text.len() && Class::Blank.has(text[start]) {
        start += 1;
    }
    start
}

/// The token with which a text begins, and its length.
#[inline(always)]
fn token_at<'a>(before: &[u8], rest: &'a [u8]) -> (Kind<'a>, usize)
    ensures end { rest.now ≡ [] → sign_of result.0 ≡ None }
    ensures sign { 0 < length rest.now → sign_of result.0 ≡ Some (first_sign before.now rest.now) }
    ensures size { result.1 ≡ first_size rest.now }
    ensures plain { IsPlain result.0 }
    ensures within { result.1 ≤ length rest.now }
{
    let Some((first, behind)) = rest.split_first() else {
        return (Kind::End, 0);
    };
    if Class::Digit.has(*first) {
        number_at(before, rest)
    } else if Class::Letter.has(*first) {
        word_at(before, rest)
    } else if *first == b'"' {
        name_at(behind)
    } else {
        (punctuation(*first), 1)
    }
}

/// The same for a run of digits.
#[inline(always)]
fn number_at<'a>(before: &[u8], rest: &'a [u8]) -> (Kind<'a>, usize)
    ensures { IsLexed result (number_sign before.now rest.now) (prefix_len is_digit rest.now) (length rest.now) }
{
    let (kind, size) = digits_at(rest);
    if ends_in_class(before, Class::Letter) {
        (Kind::Wrong, size)
    } else {
        (kind, size)
    }
}

/// The number of these digits.
fn digits_at<'a>(rest: &'a [u8]) -> (Kind<'a>, usize)
    ensures { IsLexed result (Number (decimal_value (take_while is_digit rest.now))) (prefix_len is_digit rest.now)
        (length rest.now) }
{
    match leading_number(rest) {
        Some(number) => (Kind::Number(number.value), number.digits),
        None => {
            let size = run_length(rest, Class::Digit);
            (Kind::LargeNumber(&rest[..size]), size)
        }
    }
}

/// The token of a run of letters, and its length.
#[inline(always)]
fn word_at<'a>(before: &[u8], rest: &'a [u8]) -> (Kind<'a>, usize)
    ensures { IsLexed result (word_sign before.now rest.now) (prefix_len is_letter rest.now) (length rest.now) }
{
    let size = run_length(rest, Class::Letter);
    let kind = if ends_in_class(before, Class::Digit) {
        Kind::Wrong
    } else {
        Kind::Word(&rest[..size])
    };
    (kind, size)
}

/// The same for a name, by what follows its quote; the length includes both quotes.
#[inline(always)]
fn name_at<'a>(behind: &'a [u8]) -> (Kind<'a>, usize)
    requires { length behind.now + 1 < 2 ^ 64 }
    ensures { IsLexed result (name_sign behind.now) (name_size behind.now) (length behind.now + 1) }
{
    let size = run_length(behind, Class::Unquoted);
    if size < behind.len() {
        (Kind::Name(&behind[..size]), size + 2)
    } else {
        (Kind::OpenName, size + 1)
    }
}

fn punctuation<'a>(byte: u8) -> Kind<'a>
    ensures sign { sign_of result ≡ Some (punctuation_sign byte) }
    ensures plain { IsPlain result }
{
    match byte {
        b',' => Kind::Comma,
        b';' => Kind::Semicolon,
        _ => Kind::Wrong,
    }
}

fn begins_with(text: &[u8], class: Class) -> bool
    ensures { result ≡ begins_in (in_class class) text.now }
{
    match text.first() {
        Some(byte) => class.has(*byte),
        None => false,
    }
}

fn ends_in_class(text: &[u8], class: Class) -> bool
    ensures { result ≡ ends_in (in_class class) text.now }
{
    match text.last() {
        Some(byte) => class.has(*byte),
        None => false,
    }
}
