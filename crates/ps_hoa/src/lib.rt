//! Parses texts of the Hanoi Omega-Automata format, version 1, with the header item `controllable-AP:` of extended HOA.
//!
//! | Call | What it gives |
//! |---|---|
//! | `read(text)` | the automaton as the text states it, or the first `HoaFault` in the text |
//! | `HoaFile::states`, `start`, `names`, `controllable`, `aliases`, `sets`, `condition` | all but the rows |
//! | `HoaFile::rows`, `row(state)` | what the body says about a state: label, sets, and edges in text order |
//! | `HoaFile::of_parts(parts)` | the file with the given `HoaParts`, of which the caller knows that they are sound |
//! | `Row`, `Edge`, `Guard`, `Cond` | a state, an edge, the letters at which it is taken, an acceptance condition |
//! | `Marks::as_slice` | the acceptance sets of an edge or a state |
//! | `Tokens::new`, `peek`, `advance` | the tokens of a text (HOA v1, tokens), without blanks and comments |
//! | `HoaCause::number`, `name` | the number and the name of a cause in psyn's list of faults |
//!
//! | Law | What it states |
//! |---|---|
//! | `one_answer`, `some_answer` | a text has exactly one answer: its file, or its first error |
//! | `tokens::one_list_of_tokens` | a text has exactly one list of tokens, by longest match with nested comments |
//! | `expressions::one_expression` | tokens parse as at most one label and at most one condition, by precedence |
//! | `expressions::bounded_nesting` | the grammar with a nesting limit is the unlimited grammar up to that limit |
//! | `sound_files` | a parsed file is sound: numbers are in range, names and rows differ, limits are kept |
//! | `sound_parts`, `sound_labels` | what the soundness of a file implies for its rows, its edges and its labels |
//!
//! The invariant of `HoaFile` is `IsSoundFile`. A text has at most 16,777,216 bytes, 65,535 states, 1,048,576 edges, 64
//! propositions, 64 sets and 4,096 aliases, and `!` and `(` are nested at most 256 deep. These limits are psyn's own; a
//! text beyond one is rejected with the cause `Limit`, unless another error comes first. Parsing takes time
//! proportional to the length of the text, except that aliases are looked up in a tree.
#![tactic(auto)]

mod assembly;
mod body;
pub mod condition;
pub mod expressions;
pub mod fault;
pub mod file;
mod header;
mod infix;
mod label;
mod laws;
mod marks;
mod opening;
mod parts;
mod reader;
mod refusal;
mod signs;
pub mod tokens;

pub use condition::Cond;
pub use fault::{HoaCause, HoaFault};
pub use file::{Edge, Guard, HoaFile, Row};
pub use laws::{one_answer, some_answer, sound_files, sound_labels, sound_parts};
pub use marks::Marks;
pub use parts::HoaParts;
pub use reader::read;
pub use tokens::{Kind, Token, Tokens};
