//! Nodes of such a table.

ghost use Rattle.std.proofs.Common.{ap};
ghost use Rattle.ps_formula.specs.NodeKeys.{same_normal_node};

use ps_keys::{Hashed, mixed};

/// As `Node`, in negation normal form.
#[derive(Debug, Clone, Copy, PartialEq, Eq)]
pub enum NormalNode {
    /// `true` or `false`.
    Constant(bool),
    /// The proposition with this number, less than 64.
    Proposition(u32),
    /// Its negation.
    Negated(u32),
    /// `f && g`
    And(u32, u32),
    /// `f || g`
    Or(u32, u32),
    /// `X f`
    Next(u32),
    /// `f U g`
    Until(u32, u32),
    /// `f R g`
    Release(u32, u32),
}

/// As for `Node`.
impl Hashed for NormalNode {
    ghost use Rattle.ps_formula.specs.NodeHashes.{hash_of_normal_node};

    ghost hash = { hash_of_normal_node };

    ghost alike = { λ seed x y e. ap (hash_of_normal_node seed) (same_normal_node x y e) };

    #[inline(always)]
    fn hash(&self, seed: u64) -> u64 {
        match self {
            NormalNode::Constant(value) => mixed(seed, *value as u64, 0),
            NormalNode::Proposition(p) => mixed(seed, *p as u64, 1),
            NormalNode::Negated(p) => mixed(seed, *p as u64, 2),
            NormalNode::And(f, g) => mixed(seed, *f as u64, *g as u64 * 16 + 3),
            NormalNode::Or(f, g) => mixed(seed, *f as u64, *g as u64 * 16 + 4),
            NormalNode::Next(f) => mixed(seed, *f as u64, 5),
            NormalNode::Until(f, g) => mixed(seed, *f as u64, *g as u64 * 16 + 6),
            NormalNode::Release(f, g) => mixed(seed, *f as u64, *g as u64 * 16 + 7),
        }
    }
}
