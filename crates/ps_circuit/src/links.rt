//! Which gates a gate reads.

ghost use Rattle.std.specs.Prelude.{◌≡◌, ◌≢◌, IfOk, AllPairs};
ghost use Rattle.ps_circuit.specs.Literals.{variable};
ghost use Rattle.ps_circuit.specs.Drafts.{links_by, place_in};
ghost use Rattle.ps_circuit.specs.GateGraphs.{AreLinksOf, gate_variables};

use crate::parts::Gate;
use ps_ids::Ids;
use std::alloc::{AllocError, Global};

/// The indices of the gates that a gate reads, if its literals are gates.
#[derive(Clone, Copy)]
pub struct Links {
    pub first: Option<usize>,
    pub second: Option<usize>,
}

/// The links of each gate.
pub fn links_of(alloc: Global, gates: &[Gate]) -> Result<Vec<Links>, AllocError>
    requires once { AllPairs (λ g h. variable g.literal ≢ variable h.literal) gates.now }
    ensures { IfOk result (λ links. AreLinksOf gates.now links.items) }
{
    let variables = gate_variables(alloc, gates)?;
    let links = links_to(alloc, gates, &variables)?;
    Ok(links)
}

/// The variables that gates define, in their order. Fails if out of memory.
pub fn gate_variables(alloc: Global, gates: &[Gate]) -> Result<Ids, AllocError>
    requires once { AllPairs (λ g h. variable g.literal ≢ variable h.literal) gates.now }
    ensures { IfOk result (λ variables. variables ≡ gate_variables gates.now) }
{
    let least = gates.iter().map(|gate| gate.literal.variable()).min();
    let mut variables = Ids::starting_at(alloc, u64::from(least.unwrap_or(0)));
    for gate in gates {
        variables.push(u64::from(gate.literal.variable()))?;
    }
    Ok(variables)
}

/// For each gate, where the variables of its two literals stand among these variables. Fails if out of memory.
pub fn links_to(alloc: Global, gates: &[Gate], variables: &Ids) -> Result<Vec<Links>, AllocError>
    ensures { IfOk result (λ links. links.items ≡ links_by (place_in variables.now) gates.now) }
{
    let mut links = Vec::new(alloc);
    for gate in gates {
        links.push(Links {
            first: variables.place(u64::from(gate.first.variable())),
            second: variables.place(u64::from(gate.second.variable())),
        })?;
    }
    Ok(links)
}
