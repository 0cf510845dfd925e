//! Laws about the circuits of machines.

ghost use Rattle.std.specs.Prelude.{◌≡◌, ◌⊎◌};
ghost use Rattle.ps_machine.specs.Behaviours.{Behaviour, IsMachine};
ghost use Rattle.ps_machine.specs.Behaving.{BehavesAs};
ghost use Rattle.ps_circuit.specs.Circuits.{CircuitData};
ghost use Rattle.ps_aiger.specs.Encoded.{Encodes, IsTidy};
ghost use Rattle.ps_aiger.specs.Wires.{IsOutOfLiterals, IsWired};

/// Machines with the same behaviour have at most one circuit, names included.
pub fn one_circuit()
    ensures { (b o : Behaviour) (c d : CircuitData) → IsMachine b → BehavesAs b o → Encodes b c →
        IsTidy c → IsWired b c →
        Encodes o d → IsTidy d → IsWired o d → c ≡ d }
{}

/// A machine whose gates need too many variables has no circuit.
pub fn circuit_has_literals()
    ensures { (b o : Behaviour) (c : CircuitData) → IsMachine b → BehavesAs b o → Encodes b c → IsTidy c → IsWired b c →
        ¬ IsOutOfLiterals o }
{}

/// Every other machine has a circuit.
pub fn circuit_is_there()
    ensures { (b : Behaviour) → IsMachine b →
        IsOutOfLiterals b ⊎ ((c : CircuitData) × Encodes b c × IsTidy c × IsWired b c) }
{}
