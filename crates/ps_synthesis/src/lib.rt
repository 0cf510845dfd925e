//! Computes, from the text of a deterministic parity automaton, the circuit of the player who wins the automaton's
//! game.
//!
//! With a sure solver, which returns only valid certificates and fails only if out of memory, every accepted text gets
//! a report, unless memory runs out or the circuit needs more variables than AIGER literals can number. Whatever the
//! solver, each report is right. Its game is the automaton's, and its certificate gives each vertex to a player, whose
//! moves win every loop of each play from there: player 0's if the loop's greatest priority is even, player 1's if it
//! is odd. From any other vertex the player wins neither by a strategy of finite memory nor by a history table, which
//! maps each play so far to a move. The circuit is a controller, all of whose lasso traces the automaton accepts, if
//! player 0 wins the start vertex; else it is an environment, of whose lasso traces the automaton accepts none, and it
//! rejects every trace of a finite-state controller that plays against it.
//!
//! | Call | What it gives |
//! |---|---|
//! | `synthesise_by(text, order, compact, solver)` | the report of an HOA text, or its `SynthFault` |
//! | `certified(game, solver)` | the certificate that a solver returns for a game, checked |
//! | `is_certified(game, certificate)` | whether a certificate fits a game and is valid |
//! | `Problem::read(text, order)`, `game`, `close` | for other ways to solve: a text's problem, its game; frees it |
//! | `Problem::parts_fit` | a fact: the game is the automaton's, and has a start vertex |
//! | `Problem::report(certificate, compact)` | the report by a certificate, which is checked |
//! | `Problem::report_of_certified(certificate, compact)` | the same by one that was checked before |
//! | `Problem::solve(solver)` | the certificate that a solver returns, checked, and the winner's circuit |
//! | `Problem::circuit(certificate)` | this circuit, by a certificate that was checked before |
//! | `attempted(text, order, solver)` | the winner and a circuit without the game, or the problem if the game is needed |
//! | `read_automaton(text)`, `circuit_of_certificate` | an automaton; the winner's circuit by a valid certificate |
//! | `read_mixed_automaton(text)` | an automaton whose propositions may be mixed, so that its diagrams are small |
//! | `report_of`, `certificate_text` | the three texts of a report; a certificate's text |
//! | `ids_of(game, vertices)` | the ids that name vertices in a fault |
//! | `SynthFault::number`, `name` | its number and name in psyn's list of faults |
//! | `winners_circuit_is_one`, `winners_circuit_is_there` | laws: a certificate has one circuit, if not too large |
//! | `circuit_of_mixed` | a law: the winner's circuit of a mixed file is the winner's circuit of the file |
//! | `written_texts_are_read` | a law: the texts of games, certificates and circuits parse as the same values |
#![tactic(auto)]

mod automata;
mod certifying;
mod circuits;
mod fault;
mod laws;
mod mixed_automata;
mod mixing;
mod problem;
mod report;
mod short;
mod synthesis;

pub use automata::read_automaton;
pub use certifying::{certified, ids_of, is_certified};
pub use circuits::circuit_of_certificate;
pub use fault::SynthFault;
pub use laws::{winners_circuit_is_one, winners_circuit_is_there, written_texts_are_read};
pub use mixed_automata::read_mixed_automaton;
pub use mixing::circuit_of_mixed;
pub use problem::{Problem, Synthesis};
pub use report::{Report, certificate_text, report_of};
pub use short::{Attempt, Short, attempted};
pub use synthesis::synthesise_by;
