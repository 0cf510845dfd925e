//! A law.

ghost use Rattle.std.specs.Prelude.{◌≡◌, ℕ, List, Ok};
ghost use Rattle.ps_circuit.specs.Circuits.{CircuitData, IsCircuit};
ghost use Rattle.ps_machine.specs.declared.key.Order.{Order};
ghost use Rattle.ps_models.specs.Judgements.{IsWinningFor, NamedFormula};
ghost use Rattle.ps_simulate.specs.Symbols.{AreDistinct};
ghost use Rattle.ps_simulate.specs.declared.role.Role.TheVariants.{Controller, Environment};
ghost use Rattle.ps_tlsf.specs.Reading.{answer_of};
ghost use Rattle.ps_tlsf.specs.Specifications.{Specification};
ghost use Rattle.ps_specification.specs.Promises.{IsAnswerTo};

use ps_simulate::circuit_has_one_values;
use ps_tlsf::names_differ;

/// In one order of moves, no formula has both a controller whose lasso traces all satisfy it and an environment whose
/// lasso traces all violate it: the word of their joint run would do both.
pub fn no_specification_has_both()
    ensures formula { (order : Order) (f : NamedFormula) (controller environment : CircuitData) → AreDistinct f.names →
        IsCircuit controller → IsCircuit environment → IsWinningFor order Controller f controller →
        ¬ IsWinningFor order Environment f environment }
    ensures specification { (text : List ℕ) (spec : Specification) (controller environment : CircuitData) →
        answer_of text ≡ Ok spec → IsAnswerTo spec Controller controller →
        ¬ IsAnswerTo spec Environment environment }
{
    circuit_has_one_values();
    names_differ();
}
