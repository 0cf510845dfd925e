//! The priorities that a chain gives to edges.

ghost use Rattle.std.specs.Prelude.{◌≡◌, ◌^◌, ◌<◌};
ghost use Rattle.ps_label.specs.Truth as labels;
ghost use Rattle.ps_automaton.specs.Chains as chains;
ghost use Rattle.ps_automaton.specs.Chains.{level, raised};
ghost use Rattle.ps_automaton.specs.Inner.Numbering.{AreSetsBelow, IsTable};
ghost use Rattle.ps_automaton.specs.Inner.Views.{chain_data};

use crate::chain::Chain;

const SETS: usize = 64;

/// The priority of an edge without acceptance sets, and for each set the priority of an edge that has only this set.
#[derive(Clone, Copy)]
pub(crate) struct Numbers {
    base: u64,
    by_set: [u64; SETS],
}

/// The priorities that a chain gives, computed from its last link to its first.
pub(crate) fn table_of(chain: &Chain) -> Numbers
    requires { AreSetsBelow 64 (chain_data chain.now).links }
    ensures { IsTable (chain_data chain.now) result.base result.by_set }
{
    let base = base_number(chain.base);
    let mut by_set = [base; SETS];
    let mut number = base;
    let mut k = chain.links.len();
    while k > 0 {
        k -= 1;
        let link = chain.links[k];
        number = raised_number(link.accepts, number);
        by_set[link.set as usize] = number;
    }
    Numbers { base, by_set }
}

/// The priority of an edge in no set of the chain.
fn base_number(base: bool) -> u64
    ensures { result ≡ chains.base_number base }
{
    if base { 0 } else { 1 }
}

/// Whether a number is in a bit mask.
pub(crate) fn is_in(set: usize, sets: u64) -> bool
    requires { set < 64 }
    ensures { result ≡ labels.is_in set sets }
{
    sets >> set & 1 == 1
}

/// The priority that a link gives, computed from that of the next link.
fn raised_number(accepts: bool, next: u64) -> u64
    requires { next < 2 ^ 63 }
    ensures { result ≡ raised accepts next }
{
    if (next % 2 == 0) == accepts {
        next
    } else {
        next + 1
    }
}

impl Numbers {
    /// The priority of an edge with the acceptance sets in the mask.
    pub(crate) fn level(&self, sets: u64) -> u64
        ensures { (chain : chains.Chain) → AreSetsBelow 64 chain.links → IsTable chain self.now.base self.now.by_set →
            result ≡ level chain (λ set. labels.is_in set sets) }
    {
        let mut greatest = self.base;
        let mut rest = sets;
        while rest != 0 {
            let set = rest.trailing_zeros();
            greatest = greatest.max(self.by_set[set as usize]);
            rest &= !(1 << set);
        }
        greatest
    }
}
