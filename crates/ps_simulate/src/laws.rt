//! Laws about circuits and their runs.

ghost use Rattle.std.specs.Prelude.{◌⊎◌, ℕ, Bool, List};
ghost use Rattle.ps_circuit.specs.Circuits.{CircuitData, IsCircuit};
ghost use Rattle.ps_circuit.specs.Values.{HasOneValues};
ghost use Rattle.ps_hoa.specs.Files.{FileData};
ghost use Rattle.ps_simulate.specs.LaneRuns.{AreLanesPlain};
ghost use Rattle.ps_simulate.specs.Lassos.{HasOneVerdict, HasOneWord};
ghost use Rattle.ps_simulate.specs.Symbols.{HasSymbols};
ghost use Rattle.ps_simulate.specs.declared.role.Role.{Role};

/// A circuit has values for given inputs and latches, and any two lists of them agree at each literal whose variable is
/// 0 or defined.
pub fn circuit_has_one_values()
    ensures { (c : CircuitData) → IsCircuit c → HasOneValues c }
{}

/// Each of 256 lanes does what a single run does on its letters.
pub fn lanes_are_plain_runs()
    ensures { (c : CircuitData) → IsCircuit c → AreLanesPlain c }
{
    circuit_has_one_values();
}

/// A circuit with the inputs and outputs that its role requires has at most one word on a stem and a lap.
pub fn word_is_one()
    ensures { (role : Role) (names : List (List ℕ)) (controllable : List ℕ) (c : CircuitData)
        (stem lap : List (List Bool)) → IsCircuit c → HasSymbols role names controllable c →
        HasOneWord names c stem lap }
{
    circuit_has_one_values();
}

/// A circuit with the inputs and outputs that its role requires has at most one verdict on a stem and a lap.
pub fn verdict_is_one()
    ensures { (role : Role) (file : FileData) (c : CircuitData) (stem lap : List (List Bool)) → IsCircuit c →
        HasSymbols role file.names file.controllable c → HasOneVerdict file c stem lap }
{
    circuit_has_one_values();
}

/// Whether a circuit has the inputs and outputs that a role requires is decidable.
pub fn symbols_are_decided()
    ensures { (role : Role) (names : List (List ℕ)) (controllable : List ℕ) (c : CircuitData) →
        HasSymbols role names controllable c ⊎ ¬ HasSymbols role names controllable c }
{}
