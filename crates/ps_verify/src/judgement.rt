//! The result of judging a circuit.

use ps_simulate::Stimulus;

/// Whether a circuit wins: the automaton accepts each lasso trace of a controller, or no lasso trace of an environment.
#[derive(Debug, Drop)]
pub enum Judgement {
    /// The circuit wins: the automaton accepts all of its lasso traces, if it is a controller, or none of them, if it
    /// is an environment.
    Wins,
    /// The circuit loses: if it reads this stem, and then this lap for ever, the automaton rejects the trace though the
    /// circuit is a controller, or accepts it though it is an environment.
    Loses(Stimulus),
}
