//! Formulas of linear temporal logic, taken apart into sentences.
//!
//! A formula is equivalent to a conjunction of sentences, each of which says that some antecedents imply one
//! consequent. So a circuit can be judged sentence by sentence, each on the part of the circuit that it speaks of.
//!
//! | Call | What it gives |
//! |---|---|
//! | `parted(formulas, root)` | a [`Parting`]: sentences whose conjunction is the formula |
//! | `implications(table, lists, sentences)` | the sentences as formulas |
//! | `conjunction(table, formulas)` | the conjunction of formulas |
//! | `merged(table, formulas)` | the same, within operators that neighbours have in common |
//! | `mentioned(formulas, root)` | the propositions that a formula mentions, as a letter |
//! | `truth_depends_on_mentions` | a law: a formula's truth depends on the propositions that it mentions alone |
//!
//! A consequent is taken apart through `&&`, `G`, `X`, the right side of `->`, `<->` (two implications), the left side
//! of `W`, and through negations of `||`, `F` and `X`. The left side of an implication becomes an antecedent where the
//! implication stands at the top; below `G`, `X` and `W` it stays where it is. Antecedents are taken apart likewise.
//! At most eight steps for each formula of the table are made: what is left then stays whole.
#![tactic(auto)]

mod conjuncts;
mod copying;
mod joining;
mod layers;
mod mentions;
mod parting;
mod shapes;
mod splitting;

pub use joining::{conjunction, implications, merged};
pub use mentions::{mentioned, truth_depends_on_mentions};
pub use parting::{Parting, Sentence, parted};
