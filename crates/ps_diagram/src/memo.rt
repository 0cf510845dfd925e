//! Memo tables of operations on diagrams.

ghost use Rattle.std.specs.Prelude.{◌≡◌, ◌⊎◌, [], OnErr, Some, true};
ghost use Rattle.ps_diagram.specs.Inner.Kept.{result_for};

use crate::view::Node;
use ps_keys::{Hashed, KeyMap};
use std::alloc::{AllocError, Global};

/// How many results are not kept at first.
const PASSED: u32 = 64;

/// The node that an operation made for each key: the nodes that it was given. The first few results are not kept, so
/// that small diagrams need no table.
#[derive(Drop)]
pub(crate) struct Memo<K: Hashed> {
    pub table: KeyMap<K, Node>,
    /// How many were not kept.
    passed: u32,
}

impl<K: Hashed + Drop> Memo<K> {
    pub(crate) fn new(alloc: Global) -> Self
        ensures { result.table.keys ≡ [] }
    {
        Memo {
            table: KeyMap::new(alloc),
            passed: 0,
        }
    }

    /// The result, if it is kept.
    pub(crate) fn get(&self, key: K) -> Option<Node>
        ensures { result ≡ result_for K.eq self.now.table key }
    {
        self.table.get(key)
    }

    /// Keeps a result, but for the first `PASSED`.
    pub(crate) fn put(&mut self, key: K, node: Node) -> Result<(), AllocError>
        ensures put { (q : K) → (result_for K.eq self.new.table q ≡ result_for K.eq self.old.table q)
            ⊎ ((K.eq key q ≡ true) × (result_for K.eq self.new.table q ≡ Some node)) }
        ensures err { OnErr result (self.new.table ≡ self.old.table) }
    {
        if self.passed < PASSED {
            self.passed += 1;
            return Ok(());
        }
        self.table.put(key, node)
    }
}
