//! The steps to the targets of edges.

ghost use Rattle.std.specs.Prelude.{◌≡◌};
ghost use Rattle.ps_automaton.specs.Inner.Numbering.{AreSetsBelow, IsTable};
ghost use Rattle.ps_automaton.specs.Inner.Views.{chain_data};

use crate::chain::Chain;
use crate::numbers::Numbers;
use crate::step::Step;
use crate::targets::Target;

/// A chain, and the priorities that it gives to edges.
#[derive(Drop)]
pub(crate) struct Levels {
    pub chain: Chain,
    pub numbers: Numbers,
    ghost few: { AreSetsBelow 64 (chain_data chain).links },
    ghost table: { IsTable (chain_data chain) numbers.base numbers.by_set },
}

impl Levels {
    ghost use Rattle.ps_automaton.specs.Inner.Drafts.{step_of_target};

    /// The step to a target, with the priority of its sets.
    pub(crate) fn step_to(&self, target: Target) -> Step
        ensures { result ≡ step_of_target (chain_data self.now.chain) target }
    {
        Step {
            state: target.state,
            priority: self.numbers.level(target.sets),
        }
    }
}
