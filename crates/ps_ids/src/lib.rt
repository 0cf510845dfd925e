//! Distinct numbers in order, and the index of each: ids of vertices, variables of circuits.
//!
//! | Call | What it gives |
//! |---|---|
//! | `Ids::new`, `starting_at(first)` | no ids; ids that count up from 0, or `first`, need no table of their indices |
//! | `Ids::push(id)` | adds a new id at the end; if out of memory, nothing changes |
//! | `Ids::place(id)`, `has(id)` | the index of an id, or none; whether a number is an id |
//! | `Ids::list`, `into_list` | the ids in order, all distinct |
//!
//! An id whose index is its distance from `first` (0 for `Ids::new`) is found in constant time. So is one that was near
//! `first` when it was added (less than `first` plus four times the number of ids, itself included, but not less than
//! `first`), unless 2^32 - 1 ids came before it. All others are found in a B-tree, in logarithmic time.
#![tactic(auto)]

mod ids;

pub use ids::Ids;
