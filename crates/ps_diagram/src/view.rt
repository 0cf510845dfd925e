//! Nodes, and what a caller sees of them.

ghost use Rattle.std.specs.Prelude.{◌≡◌};
ghost use Rattle.std.specs.Cmp.Rules.{hashing};
ghost use Rattle.std.proofs.Common.{rules};

use ps_keys::{Hashed, Word, mixed};
use std::hash::Hash;
use std::marker::Model;

/// A decision diagram, as a node of the store that made it and of its later copies.
#[derive(Debug, Clone, Copy, PartialEq, Eq, Hash)]
pub struct Node {
    pub(crate) place: u32,
}

impl Model for Node {
    ghost use Rattle.std.specs.Prelude.{ℕ};

    ghost Value = { ℕ };

    ghost view = { λ n. n.place };

    ghost inverse = { λ n. record { place = n } };
}

impl Node {
    /// The node's number; nodes are numbered from 0, in the order in which they were made.
    pub fn number(self) -> usize
        ensures { result ≡ self }
    {
        self.place as usize
    }
}

/// What a node is: no leaf, one leaf, or a test of a proposition with two nodes.
#[derive(Debug, Clone, Copy, PartialEq, Eq)]
pub enum View {
    /// No letter has a leaf.
    Nothing,
    /// Every letter has this leaf.
    Leaf(u64),
    /// A test: the least proposition on which the leaf depends, and the diagrams if it is false and if it is true.
    Test {
        proposition: u32,
        low: Node,
        high: Node,
    },
}

impl Word for Node {
    ghost word = { λ node. node };

    ghost equal = { Prim.search (hashing, rules) };

    #[inline(always)]
    fn word(&self) -> u64 {
        self.place as u64
    }
}

impl Hashed for Node {
    ghost use Rattle.ps_keys.specs.Hashes.{mixed};

    ghost hash = { λ seed node. mixed seed node 0 };

    ghost alike = { Prim.search (hashing, rules) };

    #[inline(always)]
    fn hash(&self, seed: u64) -> u64 {
        mixed(seed, self.place as u64, 0)
    }
}
