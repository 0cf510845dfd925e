//! What the parsers of all formats share: what the answer to a text is (its meaning or its first error), combinators of
//! grammars, the bytes that are digits or blanks, and a cursor over bytes; and decimal numbers.
//!
//! | Call | What it gives |
//! |---|---|
//! | `numbers::write_number(out, number)` | appends a number in decimal |
//! | `numbers::leading_number(text)`, `few_digits` | the number that a text begins with, if it fits, or is short |
//! | `cursor::Cursor::new(text)`, `of_lines(text)` | a cursor over the bytes of a text, or of a text of lines |
//! | `Cursor::peek`, `offset`, `refusal` | the next byte, its offset, and a fault there |
//! | `Cursor::comes(byte)`, `is_at_end` | whether this byte is next, or none |
//! | `Cursor::step`, `byte`, `word`, `run`, `digits`, `finish` | moves past a byte, a word, a run, digits, or all |
//! | `cursor::run_length(text, class)` | how many bytes of a class a text begins with |
//! | `comments::comment_at(bytes)`, `byte_at` | how long a comment is that may nest others; a byte, or 0 |
//! | `faults::Cause::number`, `name` | the number and name of a cause in psyn's list of faults |
//! | `faults::Fault::number`, `name` | its cause's, or 24 and `OutOfMemory` |
//! | `answers::one_answer` | a law: a text of a `Format` has at most one answer |
//! | `answers::some_answer` | a law: a text of a `Grammar` has an answer, if its part always has an outcome |
//! | `tokens::one_tokenisation` | a law: a text of a `Lexicon` has at most one list of tokens |
//!
//! A fault is a cause with its offset, or out of memory. In specs, `Parts` says what a grammar is, with its errors, and
//! `Readers` what a parsing function returns for one.
#![tactic(auto)]

pub mod answers;
pub mod comments;
pub mod cursor;
pub mod faults;
pub mod numbers;
pub mod tokens;
