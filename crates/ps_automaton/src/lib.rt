//! Parity automata that are built from HOA files: total and deterministic, with a priority on each edge. The crate also
//! states which words a file accepts.
//!
//! A word is a stem followed by a lap that repeats for ever. An automaton accepts it if some run is in the same state
//! after two different numbers of laps, and satisfies the acceptance condition in between. `IsAccepted` states this of
//! the HOA file alone, without the deterministic automaton (HOA v1, acceptance). A condition is a chain if it orders
//! sets so that the first one that a run meets infinitely often decides. A chain gives each edge a priority: the
//! greatest in a part of a run is even exactly if the condition is true for the sets that the part meets
//! (`greatest_level_decides`). Steps are stored in decision diagrams; at a letter at which the text takes no edge, they
//! lead to a sink.
//!
//! | Call | What it gives |
//! |---|---|
//! | `Automaton::build(file)` | the automaton of a file, or the first reason (`AutomatonFault`) why it has none |
//! | `Automaton::names`, `controllable`, `states`, `start` | what the file's header says |
//! | `Automaton::step(state, letter)` | the next state, and the priority of the edge to it; allocates no memory |
//! | `Automaton::store`, `node(state)`, `pair(leaf)` | the diagram of a state's steps; the step that a leaf names |
//! | `Automaton::parts_fit` | a fact: the names differ, and each letter leads from each state to a step |
//! | `Automaton::accepts(stem, lap)` | whether the file accepts the word that consists of a stem and a repeated lap |
//! | `AutomatonFault::number`, `name` | the fault's number and name in psyn's list of faults |
//!
//! | Law | What it says |
//! |---|---|
//! | `automaton_is_there` | an admitted file has an automaton, with a step for each state and letter |
//! | `refusal_is_one` | each file is either admitted, or refused for exactly one fault |
//! | `greatest_level_decides` | a part of a run meets the condition exactly if its greatest priority is even |
//!
//! With implicit labels there is one edge for each letter, and `build` joins no edges. If all labels of a state are
//! conjunctions of literals, it makes the diagram at once (`ps_diagram::Store::of_cases`). Other labels are joined
//! letter by letter if there are at most 6 propositions, or at most 10 and labels that are long compared to the number
//! of letters: a set of letters is then a list of bit masks. Otherwise, or if two edges clash (share a letter, but
//! differ in target or sets), the edges are joined one after another as diagrams, which need not visit every letter.
//! For n states, `accepts` reads the lap at most 2 * (n + 1) times.
#![tactic(auto)]

mod automaton;
mod cases;
mod chain;
mod draft;
mod edge_labels;
mod fault;
mod guards;
mod laws;
mod letter_rows;
mod letter_sets;
mod levels;
mod numbers;
mod pairs;
mod places;
mod step;
mod step_list;
mod taken;
mod targets;
mod union;

pub use automaton::Automaton;
pub use fault::AutomatonFault;
pub use laws::{automaton_is_there, greatest_level_decides, refusal_is_one};
pub use step::Step;
