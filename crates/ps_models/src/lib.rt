//! Decides whether each lasso trace of a controller satisfies a formula of linear temporal logic, or no lasso trace of
//! an environment does; if not, gives a counterexample.
//!
//! A controller's circuit wins if all its lasso traces satisfy the formula, and an environment's circuit wins if none
//! does. The circuit's product with the tableau of a formula (for a controller, of its negation) has a fair lasso (a walk
//! to a closed walk on which no until is always postponed) exactly if the circuit loses.
//!
//! For a controller the formula is taken apart into sentences (`ps_sentences`). Sentences with the same antecedents whose
//! consequents depend on the same latches are judged together; where that does not show that they are obeyed, each is
//! judged by itself. Each product is of the cone of the outputs that its formula mentions, and antecedents join as
//! counterexamples ask for them. For an environment a caller may name a core of sentences, which is judged first.
//!
//! An automaton and a formula agree if the automaton accepts exactly the lassos that satisfy the formula. Two products
//! with the automaton decide that. In the product with the tableau of the negated formula, a fair lasso whose greatest
//! repeated priority is even is accepted although it violates the formula. In the product with the tableau of the
//! formula, a fair lasso whose greatest repeated priority is odd is rejected although it satisfies the formula. A fair
//! lasso for the priority d is sought among the edges of priorities up to d.
//!
//! | Call | What it gives |
//! |---|---|
//! | `satisfied(circuit, sentence, order, role)` | a `Judgement`: the circuit wins, or a stimulus on which it loses |
//! | `satisfied_by_core(circuit, sentence, order, role, core)` | the same, an environment first by some sentences |
//! | `agreed(automaton, sentence)` | an `Agreement`: they agree on each lasso, or a lasso on which they differ |
//! | `laws::judgement_is_one` | a law: a circuit wins exactly if no stimulus shows that it loses |
//! | `laws::losing_word_is_wrong` | a law: on a stimulus on which a circuit loses, each word of the circuit is wrong |
//! | `laws::states_are_a_tableau` | a law: the sets of a board that were reached, with their edges, are a tableau |
//! | `laws::fair_lasso_satisfies` | a law: a fair lasso of the product is a lasso trace whose word satisfies the formula |
//! | `laws::satisfied_has_fair_lasso` | a law: a lasso trace whose word satisfies the formula gives a fair lasso |
//! | `laws::fair_lasso_decides` | a law: a circuit loses on the inputs along a fair lasso, and wins if there is none |
//! | `laws::fair_cycle_decides` | a law: the same by fair cycles of a graph that is the product |
//! | `agreement_laws::agreement_is_one` | a law: an automaton and a formula agree exactly if no lasso tells them apart |
//! | `agreement_laws::letters_are_read` | a law: an automaton reads each letter of a formula in exactly one way |
#![tactic(auto)]

mod agreeing;
mod agreement;
pub mod agreement_laws;
mod by_core;
mod by_groups;
mod by_sentences;
mod claims;
mod grouping;
pub mod laws;
mod satisfying;
mod sentence;
mod trial;
mod verdict;

pub use agreeing::agreed;
pub use agreement::{Agreement, AgreementFault, Lasso};
pub use satisfying::{satisfied, satisfied_by_core};
pub use sentence::Sentence;
