//! The result of shrinking.

use ps_circuit::Circuit;
use ps_simulate::Stimulus;

/// A circuit that wins and is not larger, or a stimulus on which the given one loses.
#[derive(Drop)]
pub enum Reduction {
    /// Both win, and this one has at most as many latches and at most as many gates.
    Wins(Circuit),
    /// The given circuit loses on this stimulus.
    Loses(Stimulus),
}
