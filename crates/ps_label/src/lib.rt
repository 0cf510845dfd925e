//! The labels of an automaton's edges, which are Boolean expressions over propositions and aliases, and their truth at
//! a letter.
//!
//! Labels are the label expressions of HOA v1, and aliases are what `Alias:` defines. A letter is a 64-bit number whose
//! bit p is the truth of proposition p, so there are at most 64 propositions.
//!
//! | Call | What it gives |
//! |---|---|
//! | `Labels::new`, `push`, `as_slice` | the aliases of a text, each defined over earlier aliases |
//! | `Label::as_literal`, `of_literal` | the literal that a label is, and the label of a literal |
//! | `Label::plain` | the same label without `Negated` and `Literals`, which are short for others |
//! | `Literals::new`, `of`, `push`, `is_full`, `as_slice` | a list of at most 23 literals |
//! | `Labels::eval(label, letter, scratch)` | the label's truth at the letter; `scratch` takes that of each alias |
//! | `labels::one_table_of_truths` | a law: in exactly one table each alias has the truth of its own expression |
#![tactic(auto)]

pub mod label;
pub mod labels;
pub mod literal;

pub use label::Label;
pub use labels::Labels;
pub use literal::{Literal, Literals};
