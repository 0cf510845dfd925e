//! What stays the same while the product of an automaton and a tableau is explored.

ghost use Rattle.std.specs.Prelude.{◌≡◌, ◌<◌, ◌≤◌, All, length};

use ps_automaton::Automaton;
use std::alloc::Global;

/// The product to be explored, without its tableau.
#[derive(Clone, Copy)]
pub struct JointPlan<'a> {
    /// The allocator.
    pub alloc: Global,
    /// The automaton.
    pub automaton: &'a Automaton,
    /// The number of the formula's propositions.
    pub count: u32,
    /// The number that each proposition of the automaton has in the formula.
    pub places: &'a [u32],
    ghost few: { count ≤ 64 },
    ghost known: { All (λ p. p < count) places.now },
    ghost one_each: { length places.now ≡ length automaton.now.names },
}
