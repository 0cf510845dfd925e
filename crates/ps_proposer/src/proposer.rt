//! psyn's own proposer.

use crate::choosing::{first_proposal, second_proposal};
use ps_specification::{Proposal, Proposer};
use ps_tlsf::Specification;
use std::alloc::{AllocError, Global};

/// How many places it has.
const PLACES: u32 = 2;

/// psyn's own proposer.
#[derive(Drop)]
pub struct OwnProposer;

impl Proposer for OwnProposer {
    ghost use Rattle.ps_specification.specs.Proposing.{own_proposer};

    ghost known = { λ proposer. own_proposer 2 };

    fn most(&self) -> u32 {
        PLACES
    }

    fn propose(
        &self,
        alloc: Global,
        specification: &Specification,
        place: u32,
    ) -> Result<Option<Proposal>, AllocError> {
        if place == 0 {
            first_proposal(alloc, specification)
        } else {
            second_proposal(alloc, specification)
        }
    }
}
