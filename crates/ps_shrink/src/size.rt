//! The sizes of circuits.

ghost use Rattle.std.specs.Prelude.{◌≡◌, ◌≤◌, IsTrue, length};

use ps_circuit::Circuit;

/// A change takes one step, and one more for each so many gates.
const GATES_A_STEP: usize = 40;

/// How many latches and gates a circuit has.
#[derive(Clone, Copy)]
pub(crate) struct Size {
    pub latches: usize,
    pub gates: usize,
}

impl Size {
    /// The size of a circuit.
    pub fn of(circuit: &Circuit) -> Self
        ensures latches { result.latches ≡ length circuit.now.latches }
        ensures gates { result.gates ≡ length circuit.now.gates }
    {
        Size {
            latches: circuit.latches().len(),
            gates: circuit.gates().len(),
        }
    }

    /// Whether neither number is greater.
    pub fn is_within(self, other: Size) -> bool
        ensures latches { IsTrue result → self.latches ≤ other.latches }
        ensures gates { IsTrue result → self.gates ≤ other.gates }
    {
        self.latches <= other.latches && self.gates <= other.gates
    }

    /// How many steps a change takes.
    pub fn steps(self) -> usize {
        1 + self.gates / GATES_A_STEP
    }

    /// What the search makes small: a latch counts as two gates.
    pub fn cost(self) -> usize {
        self.latches.saturating_mul(2).saturating_add(self.gates)
    }
}
