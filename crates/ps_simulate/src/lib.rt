//! Runs circuits letter by letter, once or in 256 runs at once (lanes). The crate also parses stimuli, gives the word
//! of a circuit's trace on a stem and a repeated lap, and decides whether an automaton accepts it.
//!
//! | Call | What it gives |
//! |---|---|
//! | `Simulator::new(circuit)`, `step`, `latches`, `latch` | one run: a step takes a letter and gives the outputs |
//! | `LaneSimulator::new(circuit)`, `step_lanes`, `latch` | 256 runs: bit b of word w belongs to run 64·w + b |
//! | `parse_stimulus(text, width, split)` | the letters of a text, a line of digits each, or the first fault |
//! | `parse_letters(text, width)` | the same without a lap, with all bits in one list |
//! | `Places::new(circuit)`, `circuit`, `wire(literal)` | a literal's index in a table, with its sign (a wire) |
//! | `output_wires(places)`, `next_wires` | the wires of the outputs and of the latches' next literals |
//! | `trace_word(circuit, names, controllable, role, stem, lap)` | the `TraceWord` until latch values repeat at a lap |
//! | `lasso(circuit, automaton, role, stem, lap)` | the `Verdict` on this word, or a `LassoFault` |
//! | `input_symbols(circuit)`, `output_symbols` | the optional names of inputs and outputs |
//! | `proposition_of(names, controllable, wanted, symbol)` | what a symbol names, controllable or not as `wanted` |
//! | `is_in_list(list, proposition)` | whether the list has it |
//! | `Role::reads_controllable`, `sets_controllable` | whether inputs, or outputs, are the controllable propositions |
//! | `LassoFault::number`, `StimulusCause::number`, `name` | the number and the name of a fault or cause |
//! | `circuit_has_one_values` | a law: a circuit's values exist, and agree at each defined literal |
//! | `lanes_are_plain_runs` | a law: each lane does what a single run does |
//! | `symbols_are_decided` | a law: it is decidable whether a circuit has the inputs and outputs of a role |
//! | `word_is_one`, `verdict_is_one` | laws: if so, it has at most one word, and one verdict, on a lasso |
//! | `stimulus_text_has_one_answer`, `stimulus_text_has_some_answer` | laws: a text has exactly one answer |
//!
//! A step allocates no memory, in time proportional to inputs, latches, outputs and gates. A lasso may take as many
//! laps as the latches have combinations of values; a search tree has those that were seen.
#![tactic(auto)]

mod fault;
mod lane_plan;
mod lanes;
mod lassos;
mod laws;
mod letters;
mod naming;
mod needed;
mod places;
mod plan;
mod role;
mod simulator;
mod stimulus;
mod symbols;
mod words;

pub use fault::{StimulusCause, StimulusFault};
pub use lanes::LaneSimulator;
pub use lassos::{LassoFault, Verdict, lasso, trace_word};
pub use laws::{
    circuit_has_one_values, lanes_are_plain_runs, symbols_are_decided, verdict_is_one, word_is_one,
};
pub use letters::{Letters, parse_letters};
pub use places::Places;
pub use plan::{Wire, next_wires, output_wires};
pub use role::Role;
pub use simulator::Simulator;
pub use stimulus::{
    Stimulus, parse_stimulus, stimulus_text_has_one_answer, stimulus_text_has_some_answer,
};
pub use symbols::{input_symbols, is_in_list, output_symbols, proposition_of};
pub use words::TraceWord;
