//! What the program psyn reads, answers and writes. It calls two solvers: `built_in` solves games, `replay` is fed
//! the text of a certificate; and for a specification a proposer of circuits, or a translator.
//!
//! | Call | What it gives |
//! |---|---|
//! | `read_input(source)` | the whole input, of at most `INPUT_LIMIT` bytes |
//! | `send(sink, text)` | writes a text and flushes, or a `WriteFault` |
//! | `Watched::new` | a [`Source`] or a [`Sink`] of std |
//! | `first_line`, `read_line` | an input, cut after its first line; what this asks for, as a [`Line`] |
//! | `answer_to(input, built_in, replay, proposer, translator)` | the [`Answer`] to an input, and the exit status |
//! | `closed`, `check`, `judge`, `sim`, `lasso`, `verify`, `shrink`, `game` | answers without a solver |
//! | `lasso_tlsf`, `verify_tlsf`, `shrink_tlsf`, `agree` | answers about a specification |
//! | `synth_tlsf`, `translate` | answers by a proposer, or by a translator |
//! | `solve`, `cert`, `synth` | answers by a solver |
//! | `two_texts`, `read_game`, `read_game_of`, `certify`, `print`, `settle` | what these answers are made with |
//! | `lines_are_read`, `missing_text_is_told` | laws: how command lines are read; a missing text is told |
//! | `one_answer` | a law: an input has at most one answer, unless its command may choose |
//! | `some_answer` | a law: an input has an answer; of five commands nothing is said |
//! | `own_solvers_may_answer` | a law: psyn's own solvers are as `some_answer` needs them |
//! | `fitting_texts_are_printed` | a law: what `synth` prints can be parsed if its numbers fit in 64 bits |
//! | `losing_stimulus_is_read` | a law: `lasso` reads the stimulus that `verify` prints |
//! | `losing_stimulus_is_confirmed` | a law: `lasso --tlsf` confirms that of `verify --tlsf` |
//! | `circuits_are_verified`, `smaller_circuits_are_verified` | laws: what `synth`, `shrink` print wins by `verify` |
//! | `specified_circuits_are_verified`, `smaller_specified_circuits_are_verified` | laws: the same with `--tlsf` |
//! | `certificates_are_checked` | a law: printed 64-bit certificates are valid by `check` |
//!
//! The file `specs/Program.antt` defines the answer to an input, by command.
#![tactic(auto)]

mod answer;
mod automata;
mod command_line;
mod commands;
mod cut;
mod fault;
mod fault_text;
mod help;
mod laws;
mod printing;
mod program;
mod reading;
mod sending;
mod stage_faults;
mod stream;
mod texts;
mod watched;

pub use answer::{
    Answer, FAULT, OUT_OF_MEMORY, READ_FAULT, REALIZABLE, Refusal, UNREALIZABLE, settle,
};
pub use command_line::{lines_are_read, read_line};
pub use commands::agree::agree;
pub use commands::cert::cert;
pub use commands::check::{check, closed};
pub use commands::game::{game, read_game_of};
pub use commands::judge::judge;
pub use commands::lasso::lasso;
pub use commands::lasso_tlsf::lasso_tlsf;
pub use commands::shrink::shrink;
pub use commands::shrink_tlsf::shrink_tlsf;
pub use commands::sim::sim;
pub use commands::solve::{certify, solve};
pub use commands::synth::synth;
pub use commands::synth_tlsf::synth_tlsf;
pub use commands::translate::translate;
pub use commands::verify::verify;
pub use commands::verify_tlsf::verify_tlsf;
pub use commands::{Line, SynthLine, TextKind};
pub use cut::first_line;
pub use fault::{FaultLine, Place};
pub use laws::{
    KnownFinders, OwnFinders, certificates_are_checked, circuits_are_verified,
    fitting_texts_are_printed, losing_stimulus_is_confirmed, losing_stimulus_is_read,
    missing_text_is_told, one_answer, own_solvers_may_answer, smaller_circuits_are_verified,
    smaller_specified_circuits_are_verified, some_answer, specified_circuits_are_verified,
};
pub use printing::print;
pub use program::answer_to;
pub use reading::{INPUT_LIMIT, InputFault, read_input};
pub use sending::{WriteFault, send};
pub use stream::{Sink, Source};
pub use texts::{read_game, two_texts};
pub use watched::{Reader, Watched, Writer};
