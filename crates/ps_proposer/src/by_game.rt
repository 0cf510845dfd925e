//! The winner's circuit by symbolic synthesis.

use ps_circuit::Circuit;
use ps_specification::Proposal;
use ps_symbolic::{Solution, solved};
use ps_tlsf::Specification;
use std::alloc::{AllocError, Global};

/// The steps of each of its stages.
const STEPS: u32 = 12_000_000;

/// The winner's circuit, or none if the search for it passes its budget.
pub fn winner_by_game(
    alloc: Global,
    specification: &Specification,
) -> Result<Option<Proposal>, AllocError> {
    let Some(solution) = solved(alloc, specification, STEPS)? else {
        return Ok(None);
    };
    let Solution { role, parts } = solution;
    let circuit = Circuit::checked(alloc, parts)?;
    Ok(circuit.map(|circuit| Proposal {
        role,
        circuit,
        core: Vec::new(alloc),
    }))
}
