//! Formulas of linear temporal logic, and the lassos that satisfy them.
//!
//! Bit p of a letter, which is a number, is the truth of proposition p, so there are at most 64. A lasso is a word of a
//! stem, and of a lap that repeats for ever.
//!
//! | Call | What it gives |
//! |---|---|
//! | `Formulas::new`, `add(node)` | a table of formulas; each node is one formula, made from earlier ones |
//! | `Formulas::as_slice`, `len` | the nodes of a table, no two of which are equal, and their number |
//! | `Formulas::holds(root, stem, lap)` | whether a lasso satisfies a formula |
//! | `Formulas::normal_form(root)` | the negation normal forms of a formula and of its negation |
//! | `NormalFormulas::as_slice`, `len` | the nodes of a table in negation normal form |
//! | `laws::each_node_is_a_formula` | a law: a node's formula is its operator, applied to its operands' |
//! | `laws::rest_decides` | a law: the letters from an index on decide whether a word satisfies a formula there |
//! | `laws::lasso_truths` | a law: truths along a lasso repeat with the lap, and are decided at each index |
//! | `laws::expansions` | a law: until and release by their truth at the next index |
//! | `laws::weak_until_is_not_until` | a law: weak until may hold where its right side never does |
#![tactic(auto)]

mod evaluation;
mod formulas;
pub mod laws;
mod node;
mod normal_form;
mod normal_formulas;
mod normal_node;
mod rows;

pub use formulas::Formulas;
pub use node::Node;
pub use normal_form::NormalForm;
pub use normal_formulas::NormalFormulas;
pub use normal_node::NormalNode;
