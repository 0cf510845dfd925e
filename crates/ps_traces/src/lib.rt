//! Laws about infinite runs of circuits, each the contract of a function whose body is empty, or only calls other laws.
//! A lasso trace is a stem and a non-empty lap of steps, with the same latches after both. Each letter of its word has
//! the inputs and outputs of a step, as bits of the propositions with their names.
//!
//! | Law | What it says |
//! |---|---|
//! | `every_input_goes_on` | each stem and each lap of the circuit's width extend to a lasso trace that reads them |
//! | `word_is_there` | a circuit of a role has a word on each stem and lap |
//! | `verdict_is_there` | an admitted file and a circuit of a role have a verdict on each stem and lap |
//! | `every_trace_has_letters` | each step has exactly one letter, if the symbols are the role's names |
//! | `in_time_where_reached` | outputs that need no input at any latch values need none where traces lead |
//! | `meeting_is_one` | an environment and a finite-state controller have exactly one joint trace of each length |
//! | `every_meeting_goes_on` | it extends to a lasso trace, with the controller's memory restored as well |
//! | `every_meeting_is_rejected` | it is rejected if no lasso trace of the environment is accepted |
//! | `circuit_has_machine_words` | each word of a lasso trace of a machine's circuit is a word of the machine |
//! | `circuit_is_won` | all words of the circuit are accepted, or none, if the machine wins its lassos |
//! | `circuit_has_shape` | outputs are the player's, inputs the other's, by name; who moves first sees no input |
//! | `circuit_answers` | `IsWitness`: shape, acceptance, lassos, letters and meetings, if the machine wins its lassos |
//! | `certified_circuit_answers` | `IsWitness` from a valid certificate of an automaton's game, in both orders |
//! | `certified_circuit_of_file_answers` | the same, from a file's game and by any automaton of the file |
#![tactic(auto)]

mod laws;

pub use laws::{
    certified_circuit_answers, certified_circuit_of_file_answers, circuit_answers,
    circuit_has_machine_words, circuit_has_shape, circuit_is_won, every_input_goes_on,
    every_meeting_goes_on, every_meeting_is_rejected, every_trace_has_letters,
    in_time_where_reached, meeting_is_one, verdict_is_there, word_is_there,
};
