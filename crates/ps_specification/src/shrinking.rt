//! Smaller circuits by a specification.

ghost use Rattle.std.specs.Prelude.{IfErr, IfOk, map};
ghost use Rattle.ps_models.specs.Judgements.{IsLosingFor, IsWinningFor};
ghost use Rattle.ps_product.specs.ProductFaults.{IsRefusalFor};
ghost use Rattle.ps_simulate.specs.Symbols.{AreDistinct};
ghost use Rattle.ps_tlsf.specs.NameViews.{name_data};
ghost use Rattle.ps_tlsf.specs.Names.{names_in, outputs_in};
ghost use Rattle.ps_tlsf.specs.SpecificationViews.{HasRoots, specification_data};
ghost use Rattle.ps_specification.specs.Reductions.{IsReductionFor};
ghost use Rattle.ps_specification.specs.Requirements.{order_in, requirement_of};

use crate::judging::judged;
use ps_circuit::Circuit;
use ps_product::ProductFault;
use ps_shrink::{Alphabet, Judge, Reduction, shrunk_by};
use ps_simulate::Role;
use ps_tlsf::{Specification, names_of, outputs_of};
use ps_verify::Judgement;
use std::alloc::{AllocError, Global};

/// Decides whether a circuit wins, as [`judged`] does. If so, the result wins too, with the same inputs and outputs, at
/// most as many latches and at most as many gates; at most `steps` changes are tried, and fewer if there are many
/// gates. If not, the result is a stimulus on which it loses. Fails as `judged`.
pub fn shrunk_for(
    alloc: Global,
    circuit: Circuit,
    specification: &Specification,
    role: Role,
    steps: u32,
) -> Result<Reduction, ProductFault>
    requires roots { HasRoots specification.now }
    requires distinct { AreDistinct (names_in (map name_data specification.now.propositions.items)) }
    ensures reduced { IfOk result (IsReductionFor (order_in (specification_data specification.now)) role
        (requirement_of (specification_data specification.now)) circuit) }
    ensures refused { IfErr result (IsRefusalFor (order_in (specification_data specification.now)) role
        (names_in (map name_data specification.now.propositions.items))
        (outputs_in (map name_data specification.now.propositions.items)) circuit) }
{
    let names = names_of(alloc, &specification.propositions)?;
    let outputs = outputs_of(alloc, &specification.propositions)?;
    let alphabet = Alphabet {
        names: &names,
        controllable: &outputs,
        role,
    };
    let judge = BySpecification {
        specification,
        role,
    };
    shrunk_by(alloc, circuit, &judge, alphabet, steps)
}

/// A specification that circuits in this role have to win.
#[derive(Clone, Copy)]
struct BySpecification<'a> {
    specification: &'a Specification,
    role: Role,
}

impl<'a> Judge for BySpecification<'a> {
    ghost may_judge = { λ judge. HasRoots judge.specification.now
        × AreDistinct (names_in (map name_data judge.specification.now.propositions.items)) };

    ghost wins = { λ judge c. IsWinningFor (order_in (specification_data judge.specification.now)) judge.role
        (requirement_of (specification_data judge.specification.now)) c };

    ghost loses = { λ judge c s. IsLosingFor (order_in (specification_data judge.specification.now)) judge.role
        (requirement_of (specification_data judge.specification.now)) c s };

    ghost refuses = { λ judge c fault. IsRefusalFor (order_in (specification_data judge.specification.now)) judge.role
        (names_in (map name_data judge.specification.now.propositions.items))
        (outputs_in (map name_data judge.specification.now.propositions.items)) c fault };

    ghost memory = { λ judge c. tt };

    fn judge(&self, alloc: Global, circuit: &Circuit) -> Result<Judgement, ProductFault> {
        judged(alloc, circuit, self.specification, self.role)
    }

    fn refutes(&self, _alloc: Global, stem: &[u64], lap: &[u64]) -> Result<bool, AllocError> {
        let root = self.specification.root;
        let satisfied = self.specification.table.holds(root, stem, lap)?;
        Ok(satisfied == (self.role == Role::Environment))
    }
}
