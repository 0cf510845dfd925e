//! Laws: an AIGER text has exactly one answer, a circuit or an error.

ghost use Rattle.std.specs.Prelude.{◌≡◌, ℕ, List, Result, Ok};
ghost use Rattle.ps_text.specs.Answers.{Found};
ghost use Rattle.ps_circuit.specs.Circuits.{CircuitData, IsCircuit};
ghost use Rattle.ps_circuit.specs.Texts.{ReadsCircuit};
ghost use Rattle.ps_circuit.specs.declared.fault.AigCause.{AigCause};

/// An AIGER text has at most one answer: its circuit, or its first error with the offset.
pub fn one_answer()
    ensures { (text : List ℕ) (a b : Result CircuitData (Found AigCause)) → ReadsCircuit text a →
        ReadsCircuit text b → a ≡ b }
{}

/// Every text has an answer. This is about texts: a call may also run out of memory.
pub fn some_answer()
    ensures { (text : List ℕ) → (answer : Result CircuitData (Found AigCause)) × ReadsCircuit text answer }
{}

/// A text without errors describes a well-formed circuit.
pub fn read_circuit_is_circuit()
    ensures { (text : List ℕ) (c : CircuitData) → ReadsCircuit text (Ok c) → IsCircuit c }
{}
