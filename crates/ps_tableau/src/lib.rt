//! The tableau of formulas in negation normal form: how obligations are met at one index of a word, and what they leave
//! for the next.
//!
//! An obligation is a formula that must hold at an index. A cover is one way to meet some of them: it has a guard (the
//! letters for which it serves), obligations for the next index, and untils that it postpones. A state is a set of
//! obligations; its covers are right if each is enough for all of them, and if each word that satisfies them can use
//! one. A run is fair if it postpones no until for ever. A word on which each formula is true or false at each index
//! satisfies a state's obligations exactly if it has a fair run from there.
//!
//! In contracts, a `Tableau` is a `Board`: a table of formulas, sets of them, and the diagrams of guards. A set is a
//! number, and an edge is a cover: a diagram and two sets.
//!
//! | Call | What it gives |
//! |---|---|
//! | `Tableau::new(formulas, root, negated)` | the tableau of a formula of a table, or of its negation |
//! | `Tableau::initial()` | the state of the formula |
//! | `Tableau::edges(state)` | the covers of a state; the sets that they ask for are states too |
//! | `Tableau::untils()` | the untils that edges may postpone, as indices of formulas |
//! | `Tableau::postpones(edge, until)` | whether an edge postpones an until |
//! | `Tableau::guards()` | the store of the guards' diagrams |
//! | `Set::number()` | the number of a set; equal sets of one tableau have one number |
//! | `laws::fair_run_satisfies` | a law: a word with a fair run from a state satisfies its obligations |
//! | `laws::satisfied_has_fair_run` | a law: such a word, if decided at each index, has a fair run from there |
//! | `laws::fair_run_has_round` | a law: of finitely many values one recurs, with no until always postponed between |
//! | `laws::wrong_covers_are_none` | a law: an until's covers are wrong if one is missing or none postpones |
//! | `laws::covers_of_each_operator` | a law: the covers of a formula, by those of its operands |
//! | `laws::covers_of_more_obligations` | a law: the covers of several obligations are products |
//! | `laws::pruned_covers_are_covers` | a law: covers stay covers if they are pruned letter by letter |
//!
//! Covers of a formula are made from those of its operands, and those of a set, as products, from those of its greatest
//! formula and those of the set of the others, which are kept. Then they are pruned: a cover loses the letters at which
//! another asks for no more, covers that ask for the same become one, and an obligation that follows from others at the
//! next index is dropped. Sketches of covers, bits that contracts do not mention, tell which pairs of covers are worth a
//! comparison. Formulas that the root does not need get no covers. A set with one more formula, and a cover that asks for
//! the same, are found by hash tables.
#![tactic(auto)]

mod board;
mod edge;
mod joins;
mod known;
pub mod laws;
mod needs;
mod operators;
mod pruning;
mod reduction;
mod set;
mod sets;
mod single;
mod sketches;
mod states;
mod tableau;
mod words;

pub use edge::Edge;
pub use set::Set;
pub use tableau::Tableau;
