//! Game texts in PGSolver's format. A text may begin with `parity N;` and `start N;`. Then comes a node for each
//! vertex: its id, its priority, its owner, its successors, an optional name, and a semicolon.
//!
//! | Call | What it gives |
//! |---|---|
//! | `read(text)` | the game with its ids and names, or the first `PgFault` in the text; at most 16,777,216 bytes |
//! | `write(game)` | a text, which `read` parses as the same game if the text is at most that long |
//! | `Tokens::new(text)`, `peek`, `next`, `start` | the tokens of a text; solutions (`ps_solution`) use them too |
//! | `Tokens::take_number` | the next token, if it is a number with fewer than 18 digits |
//! | `Tokens::take_comma`, `take_semicolon` | moves past the next token, if it is of that kind |
//! | `Tokens::is_at_number`, `is_at_word(word)` | whether the next token is a number, or this word |
//! | `Tokens::next_name` | the name that comes next, or none |
//! | `PgCause::number`, `name` | the number and name of an error's cause in psyn's list of faults |
//! | `one_list_of_tokens` | a law: a text has exactly one list of tokens |
//! | `one_answer`, `some_answer` | laws: a text has exactly one answer, its game or its first error |
//! | `read_game_is_game` | a law: what a text describes is a game, with an id for each vertex |
//!
//! The vertices are in the order of the text. Parsing takes time proportional to its length, but ids much greater than
//! the nodes' indices are looked up in a B-tree (see `ps_ids`). If some successor is the id of no node, and the text
//! has no other error, it is read a second time to find the first of these.
#![tactic(auto)]

mod fault;
mod game;
mod laws;
mod node;
mod reader;
mod token;
mod writer;

pub use fault::{PgCause, PgFault};
pub use laws::{one_answer, one_list_of_tokens, read_game_is_game, some_answer};
pub use reader::read;
pub use token::{Kind, Token, Tokens};
pub use writer::write;
