//! Solutions of games in PGSolver's format. A text may begin with `paritysol N;`. Then comes an entry for each vertex
//! of a game, in any order: its id, its winner, an optional move, and a semicolon. Tokens and blanks are those of game
//! texts.
//!
//! | Call | What it gives |
//! |---|---|
//! | `read(text, game)` | who wins each vertex of a game, and by which moves; or the first `CertFault` in the text |
//! | `one_answer`, `some_answer` | laws: a text has exactly one answer for a game |
//! | `solution_has_entries` | a law: the entries are exactly the winners and moves of the solution |
//!
//! `ps_referee` judges whether it is right. Parsing takes time proportional to the text and the vertices, but ids much
//! greater than the vertices' indices are looked up in a B-tree (see `ps_ids`).
#![tactic(auto)]

mod laws;
mod reader;
mod solution;
mod solved;

pub use laws::{one_answer, solution_has_entries, some_answer};
pub use reader::read;
pub use solution::Solution;
