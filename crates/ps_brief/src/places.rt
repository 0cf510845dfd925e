//! The places of keys in a listing.

ghost use Rattle.std.specs.Prelude.{◌≡◌, ◌<◌, MatchOption, Contains, length};
ghost use Rattle.ps_machine.specs.Numbering.{StandsAt};
ghost use Rattle.ps_machine.specs.declared.key.Key.TheVariants.{First};
ghost use Rattle.ps_brief.specs.Listings.{listed_keys};

use crate::listing::Listing;
use ps_automaton::Step;

impl Listing {
    /// The number of listed keys.
    pub(crate) fn count(&self) -> usize
        ensures { result ≡ length (listed_keys self.now) }
    {
        self.entered.len()
    }

    /// The state of the key at a place, and the priority by which it is entered.
    pub(crate) fn step_at(&self, place: usize) -> Step
        requires { place < length (listed_keys self.now) }
        ensures { StandsAt (listed_keys self.now) place (First result.state result.priority) }
    {
        self.entered.as_slice()[place]
    }

    /// The place of a key, if it is listed.
    pub(crate) fn place_of(&self, step: Step) -> Option<usize>
        ensures { MatchOption result (Contains (listed_keys self.now) (First step.state step.priority) → ⊥)
            (λ place. StandsAt (listed_keys self.now) place (First step.state step.priority)) }
    {
        self.entered.get_index_of(&step)
    }
}
