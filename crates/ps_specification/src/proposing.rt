//! Proposers of circuits for specifications.

ghost use Rattle.std.specs.Prelude.{◌≡◌, IfOk, option_map};
ghost use Rattle.ps_tlsf.specs.SpecificationViews.{specification_data};
ghost use Rattle.ps_specification.specs.Proposing.{ProposerData, proposal_data};

use ps_circuit::Circuit;
use ps_simulate::Role;
use ps_tlsf::Specification;
use std::alloc::{AllocError, Global};

/// A circuit that should win for a specification.
#[derive(Drop)]
pub struct Proposal {
    /// Whether it is a controller or an environment.
    pub role: Role,
    /// The circuit.
    pub circuit: Circuit,
    /// For an environment, sentences that none of its lasso traces should satisfy together, by their places in the list
    /// of sentences that the whole formula is parted into; empty if they are not known.
    pub core: Vec<u32>,
}

/// A proposer promises nothing, for what it proposes is judged.
pub trait Proposer: Drop {
    ghost use Rattle.ps_specification.specs.Proposing.{ProposerData};

    /// How many places it has, and what it may propose at each.
    ghost known: { Self → ProposerData };

    /// How many places it has.
    fn most(&self) -> u32
        ensures { result ≡ (known self.now).places };

    /// The proposal at a place, or none. Fails if memory runs out.
    fn propose(
        &self,
        alloc: Global,
        specification: &Specification,
        place: u32,
    ) -> Result<Option<Proposal>, AllocError>
        ensures { IfOk result (λ given. (known self.now).may_propose (specification_data specification.now) place
            (option_map proposal_data given)) };
}
