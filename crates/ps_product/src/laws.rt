//! A law about computed functions and the circuit's steps.

ghost use Rattle.std.specs.Prelude.{◌≡◌, ℕ, ◌^◌, ◌<◌, Bool, List, length};
ghost use Rattle.ps_circuit.specs.Circuits.{CircuitData, IsCircuit};
ghost use Rattle.ps_circuit.specs.Values.{Steps};
ghost use Rattle.ps_diagram.specs.Table.{Table};
ghost use Rattle.ps_product.specs.Truths.{IsOutcome, bits_at, bits_of};
ghost use Rattle.ps_product.specs.declared.truth.Truth.{Truth};

use ps_simulate::circuit_has_one_values;

/// At each letter, the computed functions have the values of the outputs and next latches in the circuit's only step.
pub fn outcome_is_the_step()
    ensures there { (c : CircuitData) (propositions : List ℕ) (latches : List Bool) (t : Table)
        (outputs nexts : List Truth) (letter : ℕ) → IsCircuit c → length propositions ≡ length c.inputs →
        length latches ≡ length c.latches → IsOutcome c propositions latches t outputs nexts →
        letter < 2 ^ t.propositions →
        Steps c latches (bits_at propositions letter) (bits_of t outputs letter) (bits_of t nexts letter) }
    ensures one { (c : CircuitData) (propositions : List ℕ) (latches : List Bool) (t : Table)
        (outputs nexts : List Truth) (letter : ℕ) (answer next : List Bool) →
        IsOutcome c propositions latches t outputs nexts → letter < 2 ^ t.propositions →
        Steps c latches (bits_at propositions letter) answer next →
        (answer ≡ bits_of t outputs letter) × (next ≡ bits_of t nexts letter) }
{
    circuit_has_one_values();
}
