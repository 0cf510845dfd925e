//! A formula of linear temporal logic as a Boolean combination of parts with small deterministic automata.
//!
//! It is proved that all calls are safe and end, and nothing else. A call that passes a budget or a size, or for which
//! memory runs out, says so (`stop`).
//!
//! | Module | What it has |
//! |---|---|
//! | `forms` | formulas in negation normal form, simplified, each once |
//! | `split` | the parts of a formula; one of a class without automata is brought nearer to a normal form (`normal`) |
//! | `part` | the deterministic automaton of a part, row by row |
//! | `progression` | what a formula owes at the next index, once a letter has been read: the states of those automata |
//! | `diagrams` | decision diagrams, in which both are written, with a budget of steps |
//! | in `diagrams` | `quantifiers`, `narrowing`, `substitution` with copies, `searching`; `results` that are kept |
//! | `letters` | the letters that lead to each end of a row |
//! | `column`, `met` | a number for each index; the numbers that a walk has met |
#![tactic(auto)]

pub mod column;
pub mod diagrams;
pub mod forms;
pub mod letters;
pub mod met;
pub mod part;
pub mod progression;
pub mod split;
pub mod stop;
