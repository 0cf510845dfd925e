//! Nodes of a table.

ghost use Rattle.std.proofs.Common.{ap};
ghost use Rattle.ps_formula.specs.NodeKeys.{same_node};

use ps_keys::{Hashed, mixed};

/// A formula made from earlier ones of a table; an operand is the index of its node.
#[derive(Debug, Clone, Copy, PartialEq, Eq)]
pub enum Node {
    /// `true` or `false`.
    Constant(bool),
    /// The proposition with this number, less than 64.
    Proposition(u32),
    /// `!f`
    Not(u32),
    /// `f && g`
    And(u32, u32),
    /// `f || g`
    Or(u32, u32),
    /// `f -> g`
    Implies(u32, u32),
    /// `f <-> g`
    Iff(u32, u32),
    /// `X f`: f at the next index.
    Next(u32),
    /// `f U g`: g now or later, and f at each index before.
    Until(u32, u32),
    /// `f R g`: g now and later, up to an index at which f holds too, if there is one.
    Release(u32, u32),
    /// `f W g`: `f U g`, or f now and always.
    WeakUntil(u32, u32),
    /// `F f`: f now or later.
    Finally(u32),
    /// `G f`: f now and always.
    Globally(u32),
}

/// One factor of the hash is the first operand, the other the second operand with the operator.
impl Hashed for Node {
    ghost use Rattle.ps_formula.specs.NodeHashes.{hash_of_node};

    ghost hash = { hash_of_node };

    ghost alike = { λ seed x y e. ap (hash_of_node seed) (same_node x y e) };

    #[inline(always)]
    fn hash(&self, seed: u64) -> u64 {
        match self {
            Node::Constant(value) => mixed(seed, *value as u64, 0),
            Node::Proposition(p) => mixed(seed, *p as u64, 1),
            Node::Not(f) => mixed(seed, *f as u64, 2),
            Node::And(f, g) => mixed(seed, *f as u64, *g as u64 * 16 + 3),
            Node::Or(f, g) => mixed(seed, *f as u64, *g as u64 * 16 + 4),
            Node::Implies(f, g) => mixed(seed, *f as u64, *g as u64 * 16 + 5),
            Node::Iff(f, g) => mixed(seed, *f as u64, *g as u64 * 16 + 6),
            Node::Next(f) => mixed(seed, *f as u64, 7),
            Node::Until(f, g) => mixed(seed, *f as u64, *g as u64 * 16 + 8),
            Node::Release(f, g) => mixed(seed, *f as u64, *g as u64 * 16 + 9),
            Node::WeakUntil(f, g) => mixed(seed, *f as u64, *g as u64 * 16 + 10),
            Node::Finally(f) => mixed(seed, *f as u64, 11),
            Node::Globally(f) => mixed(seed, *f as u64, 12),
        }
    }
}
