//! Diagrams that are composed from those of another store, each once.

ghost use Rattle.std.specs.Prelude.{◌≡◌, [], IfOk, OnOk};
ghost use Rattle.ps_diagram.specs.Table.{IsNode, Keeps};
ghost use Rattle.ps_tableau_product.specs.Inner.Composing.{AreComposed, IsComposedNode};

use ps_diagram::{Node, Store};
use ps_keys::KeyMap;
use std::alloc::{AllocError, Global};

/// What `Store::composed_from` makes of nodes of another store.
#[derive(Drop)]
pub(crate) struct Composed {
    /// The function that replaces each proposition.
    pub truths: Vec<Node>,
    /// The diagram of each node that was asked for.
    pub known: KeyMap<Node, Node>,
}

impl Composed {
    /// No diagrams yet.
    pub(crate) fn new(alloc: Global, truths: Vec<Node>) -> Self
        ensures truths { result.truths ≡ truths }
        ensures known { result.known.keys ≡ [] }
    {
        Composed {
            truths,
            known: KeyMap::new(alloc),
        }
    }

    /// The diagram of a node of the other store. Fails if out of memory.
    pub(crate) fn diagram(
        &mut self,
        store: &mut Store,
        other: &Store,
        node: Node,
    ) -> Result<Node, AllocError>
        requires composed { AreComposed store.old other.now self.old }
        requires node { IsNode other.now node }
        ensures keeps { Keeps store.old store.new }
        ensures truths { self.new.truths ≡ self.old.truths }
        ensures composed { OnOk result (AreComposed store.new other.now self.new) }
        ensures made { IfOk result (IsComposedNode store.new self.old.truths.items other.now node) }
    {
        if let Some(made) = self.known.get(node) {
            return Ok(made);
        }
        let made = store.composed_from(other, node, &self.truths)?;
        self.known.put(node, made)?;
        Ok(made)
    }
}
