//! Certificates of parity games, which state who wins each vertex, by which move, and why.
//!
//! A certificate proves its winners by counts: each vertex has one for each priority of the other player's parity,
//! which opposes its winner. An edge remains if it is the winner's move, or leaves a vertex that the loser owns. The
//! rule of counts: if no end of a remaining edge has a priority above p, the count for p does not rise along it, and
//! falls if the edge leaves a vertex of priority p. docs/CERTIFICATES.md tells format and rule to those who write
//! another checker.
//!
//! | Call | What it gives |
//! |---|---|
//! | `read(text, game)` | the certificate of a text, plain or compact, that fits the game, or the first `CertFault` |
//! | `fits(arena, certificate)` | whether a certificate has the form that the checks need |
//! | `closed(arena, certificate)` | Ok if moves are right and remaining edges stay inside; else the first `Flaw` |
//! | `check(arena, certificate)` | Ok exactly if the certificate is valid; else the first `Flaw` |
//! | `ids_of(game)` | the ids of a game's vertices, and the index of each id |
//! | `write`, `write_compact` | the text with all counts; the text with the nonzero counts, each after its priority |
//! | `Certificate::winner`, `choice`, `counts`, `opposing` | the parts of an entry; a player's opposing priorities |
//! | `Entries::push`, `len`, `winner`, `choice`, `counts` | entries as a list; if out of memory, nothing changes |
//! | `Entries::push_row` | the same for an entry given by its parts, with counts from `Row::of` |
//! | `Row::of` | the counts of a vertex, given its nonzero counts by ascending index |
//! | `Row::at`, `len`, `copy_into` | the counts of a vertex as a list, of which only the nonzero counts are stored |
//! | `Flaw::number`, `name` | the number and name of a flaw in psyn's list of faults |
//!
//! `fits`, `closed` and `check` allocate no memory. `closed` ignores priorities and counts, and takes time proportional
//! to the number of edges; `check`, times the number of priorities.
//!
//! | Law | What it says |
//! |---|---|
//! | `closed_regions_are_kept` | paths that follow the moves of a closed certificate stay in their region |
//! | `valid_regions_are_held` | the moves of a valid certificate win every loop of every path from their region |
//! | `no_strategy_wins_outside` | no strategy of finite memory and no history table wins outside its player's region |
//! | `winners_are_one` | valid certificates of one game have the same winner at each vertex |
//! | `first_flaw_is_one` | a certificate has at most one first flaw |
//! | `first_flaw_is_there` | a certificate that is not closed has a first flaw; so has one that fits and is not valid |
//! | `certificate_text_has_one_answer`, `certificate_text_has_some_answer` | a text has exactly one answer for a game |
//! | `read_certificate_fits` | the certificate that a text describes fits the game |
#![tactic(auto)]

mod certificate;
mod checking;
mod closing;
mod counts;
mod entries;
mod fault;
mod fields;
mod fitted;
mod flaw;
mod laws;
mod pairs;
mod places;
mod rising;
mod row;
mod text;
mod writer;
mod zeros;

pub use certificate::Certificate;
pub use checking::check;
pub use closing::closed;
pub use entries::{Entries, Entry};
pub use fault::{CertCause, CertFault};
pub use fitted::fits;
pub use flaw::Flaw;
pub use laws::{
    closed_regions_are_kept, first_flaw_is_one, first_flaw_is_there, no_strategy_wins_outside,
    read_certificate_fits, valid_regions_are_held, winners_are_one,
};
pub use row::Row;
pub use text::{certificate_text_has_one_answer, certificate_text_has_some_answer, ids_of, read};
pub use writer::{write, write_compact};
