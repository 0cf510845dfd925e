//! Laws about runs.

ghost use Rattle.std.specs.Prelude.{◌≡◌, ◌↔◌, ℕ, Bool, List, length};
ghost use Rattle.ps_circuit.specs.Circuits.{CircuitData, IsCircuit};
ghost use Rattle.ps_circuit.specs.Values.{GoesOn, Moment, resets};
ghost use Rattle.ps_cone.specs.Masks.{IsRunOfMask, mask, masked_moments};
ghost use Rattle.ps_cone.specs.Parts.{IsPartOf, IsRunOfPart, moments_of, selected};
ghost use Rattle.ps_simulate.specs.Symbols.{HasSymbols};
ghost use Rattle.ps_simulate.specs.declared.role.Role.{Role};
ghost use Rattle.ps_traces.specs.Shapes.{SeesNoInputWhereReached};
ghost use Rattle.ps_traces.specs.Traces.{IsLassoTrace, IsLassoWord};

use ps_simulate::circuit_has_one_values;

/// A circuit and a part of it with the same inputs and outputs run alike. Each run of the circuit is a run of the part,
/// with the same inputs, outputs and values of the part's latches; each run of the part arises so, from any values of
/// the other latches. A lasso trace of the circuit is one of the part.
pub fn part_runs_alike()
    ensures resets { (c : CircuitData) (kept : List Bool) (part : CircuitData) → IsPartOf c kept part →
        resets part ≡ selected kept (resets c) }
    ensures whole { (c : CircuitData) (kept : List Bool) (part : CircuitData) (from : List Bool)
        (moments : List Moment) (to : List Bool) → IsPartOf c kept part → GoesOn c from moments to →
        GoesOn part (selected kept from) (moments_of kept moments) (selected kept to) }
    ensures part { (c : CircuitData) (kept : List Bool) (part : CircuitData) (from : List Bool)
        (moments : List Moment) (to : List Bool) → IsCircuit c → IsPartOf c kept part →
        length from ≡ length c.latches → GoesOn part (selected kept from) moments to →
        IsRunOfPart c kept from moments to }
    ensures lasso { (c : CircuitData) (kept : List Bool) (part : CircuitData) (stem lap : List Moment) →
        IsPartOf c kept part → IsLassoTrace c stem lap →
        IsLassoTrace part (moments_of kept stem) (moments_of kept lap) }
{
    circuit_has_one_values();
}

/// A circuit and a part of it have in common what a judgement is about. The symbols of both are those of a role, or of
/// neither. At latch values that traces reach, the outputs of both depend on the inputs, or of neither. The word of each
/// lasso trace of the circuit is the word of a lasso trace of the part.
pub fn part_is_judged_alike()
    ensures symbols { (role : Role) (names : List (List ℕ)) (controllable : List ℕ) (c : CircuitData)
        (kept : List Bool) (part : CircuitData) → IsPartOf c kept part →
        HasSymbols role names controllable c ↔ HasSymbols role names controllable part }
    ensures sees { (c : CircuitData) (kept : List Bool) (part : CircuitData) → IsCircuit c → IsPartOf c kept part →
        SeesNoInputWhereReached c ↔ SeesNoInputWhereReached part }
    ensures word { (names : List (List ℕ)) (c : CircuitData) (kept : List Bool) (part : CircuitData)
        (stem lap : List ℕ) → IsPartOf c kept part → IsLassoWord names c stem lap → IsLassoWord names part stem lap }
{
    circuit_has_one_values();
}

/// A circuit runs as it does with the constant false in place of some outputs: each run of one is a run of the other,
/// with the same inputs, latch values and kept outputs.
pub fn mask_runs_alike()
    ensures circuit { (kept : List Bool) (c : CircuitData) → IsCircuit c → length kept ≡ length c.outputs →
        IsCircuit (mask kept c) }
    ensures whole { (kept : List Bool) (c : CircuitData) (from : List Bool) (moments : List Moment) (to : List Bool) →
        GoesOn c from moments to → GoesOn (mask kept c) from (masked_moments kept moments) to }
    ensures mask { (kept : List Bool) (c : CircuitData) (from : List Bool) (moments : List Moment) (to : List Bool) →
        GoesOn (mask kept c) from moments to → IsRunOfMask c kept from moments to }
    ensures lasso { (kept : List Bool) (c : CircuitData) (stem lap : List Moment) → IsLassoTrace c stem lap →
        IsLassoTrace (mask kept c) (masked_moments kept stem) (masked_moments kept lap) }
{}
