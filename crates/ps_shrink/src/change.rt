//! Changes of a circuit.

use crate::sketch::Signal;

/// What is replaced in a circuit.
#[derive(Clone, Copy)]
pub(crate) enum Site {
    /// The output with this index.
    Output(usize),
    /// The next value of the latch with this index.
    Next(usize),
    /// The latch or the gate at this place.
    Variable(usize),
}

/// A site takes the conjunction of two signals, or its negation. Where the signals depend on the variable that is
/// replaced, it counts as false.
#[derive(Clone, Copy)]
pub(crate) struct Change {
    pub site: Site,
    pub first: Signal,
    pub second: Signal,
    /// Whether the conjunction is negated.
    pub is_negated: bool,
}
