//! The tokens of an HOA text.

ghost use Rattle.std.specs.Prelude.{◌≡◌, ℕ, ◌+◌, ◌-◌, ◌<◌, ◌≤◌, ◌↔◌, false, List, [], length, drop};
ghost use Rattle.std.specs.Prelude.{IfSome, IsTrue};
ghost use Rattle.std.specs.Str.{bytes_eq};
ghost use Rattle.ps_text.specs.Answers.{Piece};
ghost use Rattle.ps_text.specs.Runs.{IsRun};
ghost use Rattle.ps_hoa.specs.Bytes.{class_of as class, is_digit as digit, is_name_byte as names};
ghost use Rattle.ps_hoa.specs.Scan.{alias_step, begins_with, behind_next, comment_step, fresh};
ghost use Rattle.ps_hoa.specs.Scan.{IsLexeme, IsNoBlank, IsTokenClass, lex, dash_step, name_step, next_of};
ghost use Rattle.ps_hoa.specs.Scan.{number_step, quoted_len, scan_step, stream_of, text_step};
ghost use Rattle.ps_hoa.specs.Tokens.{AreTokens, is_known, kind_here, in_context, history_after, Sign, with_occurred};
ghost use Rattle.ps_hoa.specs.Inner.Lexemes.{IsFirstLexeme};
ghost use Rattle.ps_hoa.specs.Spans.{AreBlanks, IsKindHere, IsSpan, piece_of};

use crate::header::items::{ONCE_COUNT, once_named};
use ps_text::comments::{byte_at, comment_at};
use std::marker::Model;

/// The kind of a token (HOA v1, tokens).
#[derive(Clone, Copy, Debug, PartialEq, Eq)]
pub enum Kind {
    /// A name with `:` directly after it.
    Header,
    /// The second occurrence of a name that may occur only once.
    HeaderAgain,
    /// A name: a letter or `_`, followed by letters, digits, `_` and `-`.
    Word,
    /// The name of an alias: `@`, followed by letters, digits, `_` and `-`.
    AliasName,
    /// `0`, or digits that don't begin with `0`.
    Int,
    /// Several digits that begin with `0`.
    ZeroRun,
    /// A string between quotes.
    Text,
    /// `!`
    Not,
    /// `&`
    And,
    /// `|`
    Or,
    /// `(`
    LeftParen,
    /// `)`
    RightParen,
    /// `[`
    LeftBracket,
    /// `]`
    RightBracket,
    /// `{`
    LeftBrace,
    /// `}`
    RightBrace,
    /// `--BODY--`
    Body,
    /// `--END--`
    End,
    /// `--ABORT--`
    Abort,
    /// `/*`, if the comment is not closed.
    OpenComment,
    /// A byte that does not begin any token.
    Odd,
    /// Any token after `--END--`, except for a comment that is not closed.
    Behind,
    /// The end of the text.
    Finish,
}

/// The class of a byte, by what can begin with it.
#[derive(Clone, Copy)]
enum Class {
    Blank,
    Digit,
    Letter,
    At,
    Quote,
    Dash,
    Slash,
    Sign(Kind),
    Other,
}

#[tactic(auto, unfolding(crate::specs::Bytes::class_of))]
#[inline(always)]
fn class_of(byte: u8) -> Class
    ensures value { result ≡ class byte }
    ensures token { IsTokenClass result }
{
    if is_digit(byte) {
        return Class::Digit;
    }
    match byte {
        9..=13 => Class::Blank,
        b' ' => Class::Blank,
        b'a'..=b'z' => Class::Letter,
        b'A'..=b'Z' => Class::Letter,
        b'_' => Class::Letter,
        b'@' => Class::At,
        b'"' => Class::Quote,
        b'-' => Class::Dash,
        b'/' => Class::Slash,
        b'!' => Class::Sign(Kind::Not),
        b'&' => Class::Sign(Kind::And),
        b'|' => Class::Sign(Kind::Or),
        b'(' => Class::Sign(Kind::LeftParen),
        b')' => Class::Sign(Kind::RightParen),
        b'[' => Class::Sign(Kind::LeftBracket),
        b']' => Class::Sign(Kind::RightBracket),
        b'{' => Class::Sign(Kind::LeftBrace),
        b'}' => Class::Sign(Kind::RightBrace),
        _ => Class::Other,
    }
}

/// Which of the names that may occur only once have occurred, and whether `--END--` has.
#[derive(Clone, Copy)]
pub struct History {
    pub(crate) stood: [bool; ONCE_COUNT],
    pub(crate) ended: bool,
}

/// The blanks, the comment or the token at an offset, and its length.
#[derive(Clone, Copy)]
enum Step {
    Skip(usize),
    Found(Kind, usize),
}

#[tactic(auto, unfolding(crate::specs::Bytes::class_of))]
fn is_digit(byte: u8) -> bool
    ensures { result ≡ digit byte }
{
    matches!(byte, b'0'..=b'9')
}

fn digits_at(bytes: &[u8]) -> usize
    ensures { IsRun digit bytes.now result }
{
    let mut count = 0;
    while count < bytes.len() && is_digit(bytes[count]) {
        count += 1;
    }
    count
}

#[tactic(auto, unfolding(crate::specs::Bytes::class_of))]
pub(crate) fn is_name_byte(byte: u8) -> bool
    ensures { result ≡ names byte }
{
    matches!(byte, b'0'..=b'9' | b'a'..=b'z' | b'A'..=b'Z' | b'_' | b'-')
}

/// The length of the longest prefix of bytes that a name may contain after its first.
fn name_at(bytes: &[u8]) -> usize
    ensures { IsRun names bytes.now result }
{
    let mut count = 0;
    while count < bytes.len() && is_name_byte(bytes[count]) {
        count += 1;
    }
    count
}

/// The number of bytes up to and including the quote that closes a string; `None` if none does.
fn quoted_at(bytes: &[u8]) -> Option<usize>
    ensures value { result ≡ quoted_len bytes.now false }
    ensures within { IfSome result (λ n. n ≤ length bytes.now) }
{
    let mut skip = false;
    for (at, byte) in bytes.iter().enumerate() {
        if skip {
            skip = false;
        } else if *byte == b'"' {
            return Some(at + 1);
        } else {
            skip = *byte == b'\\';
        }
    }
    None
}

#[inline(always)]
fn number_step(first: u8, bytes: &[u8]) -> Step
    ensures { result ≡ number_step first bytes.now }
{
    let count = digits_at(bytes);
    if first == b'0' && count > 0 {
        Step::Found(Kind::ZeroRun, 1 + count)
    } else {
        Step::Found(Kind::Int, 1 + count)
    }
}

#[inline(always)]
fn name_step(bytes: &[u8]) -> Step
    ensures { result ≡ name_step bytes.now }
{
    let count = name_at(bytes);
    if byte_at(bytes, count) == b':' {
        Step::Found(Kind::Header, 2 + count)
    } else {
        Step::Found(Kind::Word, 1 + count)
    }
}

#[inline(always)]
fn alias_step(bytes: &[u8]) -> Step
    ensures { result ≡ alias_step bytes.now }
{
    match name_at(bytes) {
        0 => Step::Found(Kind::Odd, 1),
        count => Step::Found(Kind::AliasName, 1 + count),
    }
}

#[inline(never)]
fn text_step(bytes: &[u8]) -> Step
    ensures { result ≡ text_step bytes.now }
{
    match quoted_at(bytes) {
        None => Step::Found(Kind::Odd, 1),
        Some(count) => Step::Found(Kind::Text, 1 + count),
    }
}

pub(crate) fn begins_with(bytes: &[u8], word: &[u8]) -> bool
    ensures value { result ≡ begins_with bytes.now word.now }
    ensures within { IsTrue result → length word.now ≤ length bytes.now }
{
    bytes.starts_with(word)
}

#[inline(never)]
fn dash_step(bytes: &[u8]) -> Step
    ensures { result ≡ dash_step bytes.now }
{
    if begins_with(bytes, b"-BODY--") {
        Step::Found(Kind::Body, 8)
    } else if begins_with(bytes, b"-END--") {
        Step::Found(Kind::End, 7)
    } else if begins_with(bytes, b"-ABORT--") {
        Step::Found(Kind::Abort, 9)
    } else {
        Step::Found(Kind::Odd, 1)
    }
}

#[inline(never)]
fn comment_step(bytes: &[u8]) -> Step
    ensures { result ≡ comment_step bytes.now }
{
    if byte_at(bytes, 0) != b'*' {
        return Step::Found(Kind::Odd, 1);
    }
    match comment_at(&bytes[1..]) {
        None => Step::Found(Kind::OpenComment, 2),
        Some(count) => Step::Skip(2 + count),
    }
}

/// The blank, the comment or the token that begins with the first byte.
#[tactic(auto, unfolding(crate::specs::Scan::scan_step))]
#[inline(always)]
fn step_at(bytes: &[u8]) -> Step
    ensures { result ≡ scan_step bytes.now }
{
    let Some((first, rest)) = bytes.split_first() else {
        return Step::Found(Kind::Finish, 0);
    };
    match class_of(*first) {
        Class::Blank => Step::Skip(1),
        Class::Digit => number_step(*first, rest),
        Class::Letter => name_step(rest),
        Class::At => alias_step(rest),
        Class::Quote => text_step(rest),
        Class::Dash => dash_step(rest),
        Class::Slash => comment_step(rest),
        Class::Sign(kind) => Step::Found(kind, 1),
        Class::Other => Step::Found(Kind::Odd, 1),
    }
}

/// The same, if the first byte is white space, a digit or a sign.
#[tactic(auto, unfolding(crate::specs::Scan::scan_step))]
#[inline(always)]
fn quick_step(bytes: &[u8]) -> Option<Step>
    ensures { IfSome result (λ step. step ≡ scan_step bytes.now) }
{
    let (first, rest) = bytes.split_first()?;
    match class_of(*first) {
        Class::Blank => Some(Step::Skip(1)),
        Class::Digit => Some(number_step(*first, rest)),
        Class::Sign(kind) => Some(Step::Found(kind, 1)),
        _ => None,
    }
}

/// The kind and the span of a token, regardless of those before it.
#[derive(Clone, Copy)]
struct Lexeme {
    kind: Kind,
    start: usize,
    stop: usize,
}

/// The first token from an offset on, if it is a number or a sign after white space alone.
#[inline(always)]
fn quick_lexeme(source: &[u8], from: usize) -> Option<Lexeme>
    requires { from ≤ length source.now }
    ensures { IfSome result (IsFirstLexeme source.now from) }
{
    let mut at = from;
    'blanks: while let Some(step) = quick_step(&source[at..]) {
        match step {
            Step::Skip(count) => at += count,
            Step::Found(kind, count) => {
                return Some(Lexeme {
                    kind,
                    start: at,
                    stop: at + count,
                });
            }
        }
    }
    None
}

/// The first token from an offset on, after blanks and comments.
#[inline(never)]
fn first_lexeme(source: &[u8], from: usize) -> Lexeme
    requires { from ≤ length source.now }
    ensures { IsFirstLexeme source.now from result }
{
    let mut at = from;
    'blanks: loop {
        match step_at(&source[at..]) {
            Step::Skip(count) => at += count,
            Step::Found(kind, count) => {
                return Lexeme {
                    kind,
                    start: at,
                    stop: at + count,
                };
            }
        }
    }
}

/// The end of the blanks and comments at an offset.
pub(crate) fn behind_blanks(source: &[u8], from: usize) -> usize
    requires { from ≤ length source.now }
    ensures blanks { AreBlanks source.now from result }
    ensures from { from ≤ result }
    ensures within { result ≤ length source.now }
    ensures token { IsNoBlank (scan_step (drop result source.now)) }
    ensures same { lex result (drop result source.now) ≡ lex from (drop from source.now) }
{
    first_lexeme(source, from).start
}

pub(crate) fn is_same(name: &[u8], word: &[u8]) -> bool
    ensures { result ≡ bytes_eq name.now word.now }
{
    name == word
}

impl History {
    /// Of the names that may occur only once, `HOA:` has occurred.
    fn new() -> Self
        ensures { result ≡ fresh }
    {
        History {
            stood: [false; ONCE_COUNT],
            ended: false,
        }
    }

    /// Whether a name that may occur only once has occurred.
    #[inline(never)]
    fn has(&self, name: &[u8]) -> bool
        ensures { result ≡ is_known self.now name.now }
    {
        if is_same(name, b"HOA:") {
            return true;
        }
        match once_named(name) {
            None => false,
            Some(once) => self.stood[once],
        }
    }

    /// The kind of a token after those that were recorded.
    #[inline(always)]
    fn kind_of(&self, kind: Kind, text: &[u8]) -> Kind
        ensures { result ≡ kind_here self.now kind text.now }
    {
        if self.ended || matches!(kind, Kind::Header) {
            return self.changed_kind(kind, text);
        }
        kind
    }

    /// The same, if the recorded tokens may change its kind.
    #[inline(never)]
    fn changed_kind(&self, kind: Kind, text: &[u8]) -> Kind
        ensures { result ≡ kind_here self.now kind text.now }
    {
        match kind {
            Kind::Finish => kind,
            Kind::OpenComment => kind,
            _ if self.ended => Kind::Behind,
            Kind::Header if self.has(text) => Kind::HeaderAgain,
            _ => kind,
        }
    }

    #[inline(never)]
    fn with_name(&mut self, name: &[u8])
        ensures { self.new ≡ with_occurred self.old name.now }
    {
        if let Some(once) = once_named(name) {
            self.stood[once] = true;
        }
    }

    /// Whether a token does not change the history, and `--END--` has not occurred.
    #[inline(always)]
    fn stays(&self, kind: Kind) -> bool
        ensures { IsTrue result → (text : List ℕ) → history_after self.now kind text ≡ self.now }
    {
        !self.ended && !matches!(kind, Kind::Header | Kind::End)
    }

    #[inline(always)]
    fn pass(&mut self, kind: Kind, text: &[u8])
        ensures { self.new ≡ history_after self.old kind text.now }
    {
        match kind {
            Kind::Header => self.with_name(text),
            Kind::End => self.ended = true,
            _ => {}
        }
    }
}

/// A token of a text.
#[derive(Clone, Copy)]
pub struct Token<'a> {
    /// The kind of the token.
    pub kind: Kind,
    /// The bytes of the token.
    pub text: &'a [u8],
    /// The offset of the first byte of the token.
    pub start: usize,
    /// The offset after the last byte of the token.
    pub stop: usize,
}

/// The tokens of a text that have not been read yet.
#[derive(Drop)]
pub struct Tokens<'a> {
    source: &'a [u8],
    kind: Kind,
    /// The kind of the next token, regardless of those before it.
    own_kind: Kind,
    start: usize,
    stop: usize,
    history: History,
}

impl<'a> Model for Tokens<'a> {
    ghost use Rattle.ps_hoa.specs.Scan.{ScanState};
    ghost use Rattle.ps_hoa.specs.Spans.{IsKindHere};

    ghost Value = { ScanState };

    ghost view = { λ t. record { source = t.source.now; at = t.start; history = t.history } };

    ghost invariant = { λ t. IsKindHere t.source.now t.history t.kind
        (record { kind = t.own_kind; start = t.start; stop = t.stop }) };
}

impl<'a> Tokens<'a> {
    /// The tokens from an offset on, which should be after the version: another `HOA:` before `--END--` counts as
    /// repeated.
    pub fn new(source: &'a [u8], from: usize) -> Self
        requires { from ≤ length source.now }
        ensures pieces { (pieces : List (Piece Sign)) → AreTokens from (drop from source.now) pieces →
            (stream_of result).pieces ≡ in_context fresh pieces }
        ensures end { (stream_of result).end ≡ length source.now }
        ensures source { result.source ≡ source.now }
    {
        let history = History::new();
        let lexeme = first_lexeme(source, from);
        Tokens {
            source,
            kind: kind_here(source, lexeme, &history),
            own_kind: lexeme.kind,
            start: lexeme.start,
            stop: lexeme.stop,
            history,
        }
    }

    /// The next token, of the kind `Finish` at the end of the text.
    #[inline(always)]
    pub fn peek(&self) -> Token<'a>
        ensures next { piece_of result ≡ next_of (stream_of self.now) }
        ensures finish { (result.kind ≡ Kind.Finish) ↔ ((stream_of self.now).pieces ≡ []) }
        ensures text { IsSpan self.now.source result }
        ensures start { result.start ≡ self.now.at }
    {
        Token {
            kind: self.kind,
            text: &self.source[self.start..self.stop],
            start: self.start,
            stop: self.stop,
        }
    }

    /// Moves past the next token, and returns it.
    #[inline(always)]
    pub fn advance(&mut self) -> Token<'a>
        ensures next { piece_of result ≡ next_of (stream_of self.old) }
        ensures rest { stream_of self.new ≡ behind_next (stream_of self.old) }
        ensures text { IsSpan self.old.source result }
        ensures source { self.new.source ≡ self.old.source }
        // A token never starts before the previous one stops.
        ensures start { result.start ≡ self.old.at }
        ensures rises { result.stop ≤ self.new.at }
    {
        let token = self.peek();
        self.skip();
        token
    }

    /// Moves past the next token.
    #[inline(never)]
    pub(crate) fn skip(&mut self)
        ensures rest { stream_of self.new ≡ behind_next (stream_of self.old) }
        ensures source { self.new.source ≡ self.old.source }
        ensures rises { self.old.at + length (next_of (stream_of self.old)).sign.text ≤ self.new.at }
    {
        if self.history.stays(self.own_kind)
            && let Some(lexeme) = quick_lexeme(self.source, self.stop)
        {
            self.kind = kind_here(self.source, lexeme, &self.history);
            self.own_kind = lexeme.kind;
            self.start = lexeme.start;
            self.stop = lexeme.stop;
        } else {
            self.skip_any();
        }
    }

    #[inline(never)]
    fn skip_any(&mut self)
        ensures rest { stream_of self.new ≡ behind_next (stream_of self.old) }
        ensures source { self.new.source ≡ self.old.source }
        ensures rises { self.old.at + length (next_of (stream_of self.old)).sign.text ≤ self.new.at }
    {
        let text = &self.source[self.start..self.stop];
        self.history.pass(self.own_kind, text);
        let lexeme = first_lexeme(self.source, self.stop);
        self.kind = kind_here(self.source, lexeme, &self.history);
        self.own_kind = lexeme.kind;
        self.start = lexeme.start;
        self.stop = lexeme.stop;
    }

    #[inline(always)]
    pub(crate) fn is_at(&self, kind: Kind) -> bool
        ensures { IsTrue result ↔ ((next_of (stream_of self.now)).sign.kind ≡ kind) }
    {
        self.peek().kind == kind
    }
}

/// The kind of a token, which also depends on the names before it.
#[inline(always)]
fn kind_here(source: &[u8], lexeme: Lexeme, history: &History) -> Kind
    requires { IsLexeme source.now lexeme }
    ensures { IsKindHere source.now history.now result lexeme }
{
    history.kind_of(lexeme.kind, &source[lexeme.start..lexeme.stop])
}

/// A text has exactly one list of tokens.
pub fn one_list_of_tokens()
    ensures some { (at : ℕ) (bytes : List ℕ) → (pieces : List (Piece Sign)) × AreTokens at bytes pieces }
    ensures only { (at : ℕ) (bytes : List ℕ) (one two : List (Piece Sign)) → AreTokens at bytes one →
        AreTokens at bytes two → one ≡ two }
{}
